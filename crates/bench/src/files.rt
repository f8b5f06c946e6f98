//! A file in blocks, in a store alone: pieces of it are written in no order and read again, or put one after the other.
//! How long that takes as the file grows, and how much memory it holds, is looked at from outside.

use anyhow::{Result, ensure};
use fs_blocks::Spare;
use fs_memory::Memory;
use fs_names::Kind;
use fs_nodes::{NodeNo, Store};
use std::alloc::Global;
use std::sync::Arc;

/// How many bytes a piece has that is written in no order.
const PIECE: usize = 65_536;

/// How many such pieces a mebibyte has.
const PIECES: usize = 16;

/// How many bytes are put into each later piece.
const FEW: usize = 100;

/// No file here has as many bytes.
const MOST: usize = 1 << 31;

/// How a file gets its bytes.
#[derive(Clone, Copy)]
pub enum Filling {
    /// In pieces, in no order; each is read again, and a few bytes are put into it.
    Scattered,
    /// In pieces of so many bytes, one after the other.
    Appended(usize),
    /// The same, and the file shares the bytes of each piece.
    Shared(usize),
}

/// A store with a file in blocks.
#[derive(Drop)]
struct Place {
    store: Store,
    file: NodeNo,
}

/// The place of a number among so many, each of which comes once.
fn drawn(number: usize, of: usize) -> usize {
    number.wrapping_mul(7_368_787).wrapping_add(12_345) % of.max(1)
}

fn write(alloc: Global, place: &mut Place, off: usize, bytes: &[u8]) -> Result<()> {
    let count = bytes.len();
    let Place { store, file } = place;
    ensure!(
        store.is_in_blocks() && store.is_file(*file) && 0 < count && count < MOST && off < MOST,
        "a place in a file in blocks"
    );
    let spare = Spare::for_write(alloc, &mut Memory::new(), off, count)?;
    store.write(*file, off, bytes, spare);
    Ok(())
}

/// The same of bytes that the file shares.
fn share(alloc: Global, place: &mut Place, off: usize, bytes: &Arc<Vec<u8>>) -> Result<()> {
    let count = bytes.as_slice().len();
    let Place { store, file } = place;
    ensure!(
        store.is_in_blocks() && store.is_file(*file) && 0 < count && count < MOST && off < MOST,
        "a place in a file in blocks"
    );
    let spare = Spare::for_write(alloc, &mut Memory::new(), off, count)?;
    store.take(*file, off, bytes, spare);
    Ok(())
}

/// How many bytes are read from an offset on, and no more than a count.
fn read(alloc: Global, place: &Place, off: usize, count: usize) -> Result<usize> {
    let mut into = Vec::with_capacity(alloc, count)?;
    place
        .store
        .read(place.file, off as u64, count as u64, &mut into);
    Ok(into.len())
}

/// The offset of a drawn piece.
fn offset(number: usize, of: usize) -> usize {
    drawn(number, of).saturating_mul(PIECE)
}

/// Writes so many pieces in no order.
fn write_pieces(alloc: Global, place: &mut Place, pieces: usize) -> Result<()> {
    for number in 0..pieces {
        let bytes = vec![in alloc; (number % 256) as u8; PIECE]?;
        write(alloc, place, offset(number, pieces), &bytes)?;
    }
    Ok(())
}

/// Reads so many pieces in another order, and answers how many bytes they have.
fn read_pieces(alloc: Global, place: &Place, pieces: usize) -> Result<usize> {
    let mut all = 0usize;
    for number in 0..pieces {
        let off = offset(number.wrapping_mul(3), pieces);
        all = all.saturating_add(read(alloc, place, off, PIECE)?);
    }
    Ok(all)
}

/// Puts a few bytes into each of so many pieces.
fn change_pieces(alloc: Global, place: &mut Place, pieces: usize) -> Result<()> {
    let bytes = vec![in alloc; 7; FEW]?;
    for number in 0..pieces {
        let off = offset(number, pieces).saturating_add(1_000);
        write(alloc, place, off, &bytes)?;
    }
    Ok(())
}

/// Puts so many pieces of so many bytes one after the other.
fn append(alloc: Global, place: &mut Place, piece: usize, pieces: usize) -> Result<()> {
    for number in 0..pieces {
        let bytes = vec![in alloc; (number % 256) as u8; piece]?;
        write(alloc, place, number.saturating_mul(piece), &bytes)?;
    }
    Ok(())
}

/// The same of bytes that the file shares.
fn append_shared(alloc: Global, place: &mut Place, piece: usize, pieces: usize) -> Result<()> {
    for number in 0..pieces {
        let bytes = vec![in alloc; (number % 256) as u8; piece]?;
        let bytes = Arc::new(alloc, bytes)?;
        share(alloc, place, number.saturating_mul(piece), &bytes)?;
    }
    Ok(())
}

/// Writes, reads and changes so many pieces, and answers how many bytes were read.
fn scatter(alloc: Global, place: &mut Place, pieces: usize) -> Result<usize> {
    write_pieces(alloc, place, pieces)?;
    let read = read_pieces(alloc, place, pieces)?;
    change_pieces(alloc, place, pieces)?;
    Ok(read)
}

/// Fills a file up to so many mebibytes, and says how many bytes were read.
pub fn run(rt: &impl Print, alloc: Global, filling: Filling, mebibytes: usize) -> Result<()> {
    let mut store = Store::with_form(alloc, 2, true)?;
    let file = store.reserve(Kind::File)?;
    let mut place = Place { store, file };
    let pieces = mebibytes.saturating_mul(PIECES);
    let end = pieces.saturating_mul(PIECE);
    let mut read = 0usize;
    match filling {
        Filling::Scattered => read = scatter(alloc, &mut place, pieces)?,
        Filling::Appended(piece) => append(alloc, &mut place, piece, end / piece.max(1))?,
        Filling::Shared(piece) => append_shared(alloc, &mut place, piece, end / piece.max(1))?,
    }
    let len = place.store.len(place.file);
    println!(rt; "a file of {len} bytes in blocks, {read} read")?;
    Ok(())
}
