//! Files in blocks, beside a vector of the same bytes.

use anyhow::{Result, ensure};
use fs_blocks::{BLOCK, File, SPAN, Spare};
use fs_memory::Memory;
use std::alloc::{AllocError, Global};
use std::sync::Arc;

/// No file has as many bytes.
const MOST: usize = 1 << 30;

/// Offsets and sizes at the edges of blocks.
const EDGES: [usize; 6] = [0, 1, BLOCK - 1, BLOCK, BLOCK + 1, 3 * BLOCK];

/// How many bytes are written at these offsets.
const COUNTS: [usize; 5] = [1, BLOCK - 1, BLOCK, BLOCK + 1, 3 * BLOCK];

/// Offsets about the edge of a chunk, each with how far before it a write begins, and of how many bytes.
const AT_A_CHUNK: [(usize, usize, usize); 9] = [
    (BLOCK + SPAN - 1, 0, 1),
    (BLOCK + SPAN - 1, 1, 2),
    (BLOCK + SPAN - 1, BLOCK, 2 * BLOCK),
    (BLOCK + SPAN, 0, 1),
    (BLOCK + SPAN, 1, 2),
    (BLOCK + SPAN, BLOCK, 2 * BLOCK),
    (BLOCK + SPAN + 1, 0, 1),
    (BLOCK + SPAN + 1, 1, 2),
    (BLOCK + SPAN + 1, BLOCK, 2 * BLOCK),
];

/// Offsets in a file with holes, of which the last is its end.
const PLACES: [usize; 9] = [
    0,
    1,
    BLOCK - 1,
    BLOCK,
    2 * BLOCK - 6,
    2 * BLOCK,
    5 * BLOCK - 6,
    7 * BLOCK - 1,
    7 * BLOCK,
];

/// What is done with a file.
#[derive(Clone, Copy)]
enum Deed {
    /// So many bytes are put from an offset on.
    Write(usize, usize),
    /// The same of bytes that others share.
    Take(usize, usize),
    /// It gets a size.
    Resize(usize),
}

/// A file, and its bytes from an offset on.
#[derive(Drop)]
struct Pair {
    file: File,
    from: usize,
    flat: Vec<u8>,
}

/// A file in blocks without bytes.
fn empty(alloc: Global, from: usize) -> Pair {
    Pair {
        file: File::in_blocks(),
        from,
        flat: Vec::new(alloc),
    }
}

/// Bytes, of which neighbours differ.
pub fn bytes_of(alloc: Global, count: usize, seed: usize) -> Result<Vec<u8>> {
    let mut bytes = Vec::new(alloc);
    for i in 0..count {
        bytes.push((i.wrapping_mul(31).wrapping_add(seed) % 251) as u8)?;
    }
    Ok(bytes)
}

/// The bytes of a file from an offset on, and no more than a count.
fn some(alloc: Global, file: &File, off: usize, count: usize) -> Result<Vec<u8>, AllocError> {
    let mut into = Vec::with_capacity(alloc, count)?;
    file.read(off as u64, count as u64, &mut into);
    Ok(into)
}

/// Puts bytes over those of a vector from a place on; a gap has zeros.
pub fn put(flat: &mut Vec<u8>, at: usize, bytes: &[u8]) -> Result<()> {
    let end = at.saturating_add(bytes.len());
    if flat.len() < end {
        flat.resize(end, 0)?;
    }
    ensure!(at <= end && end <= flat.len(), "room for the bytes");
    ensure!(end - at == bytes.len(), "as many places");
    flat[at..end].copy_from_slice(bytes);
    Ok(())
}

/// Writes bytes into a file.
fn write(alloc: Global, file: &mut File, off: usize, bytes: &[u8]) -> Result<()> {
    let count = bytes.len();
    ensure!(
        file.is_in_blocks() && 0 < count && count < MOST && off < MOST,
        "no write"
    );
    let spare = Spare::for_write(alloc, &mut Memory::new(), off, count)?;
    file.write(off, bytes, spare);
    Ok(())
}

/// The same of bytes that others share.
fn take(alloc: Global, file: &mut File, off: usize, bytes: &Arc<Vec<u8>>) -> Result<()> {
    let count = bytes.as_slice().len();
    ensure!(
        file.is_in_blocks() && 0 < count && count < MOST && off < MOST,
        "no write"
    );
    let spare = Spare::for_write(alloc, &mut Memory::new(), off, count)?;
    file.take(off, bytes, spare);
    Ok(())
}

fn resize(alloc: Global, file: &mut File, size: usize) -> Result<()> {
    ensure!(file.is_in_blocks(), "no file in blocks");
    let spare = Spare::for_size(alloc, &mut Memory::new(), size)?;
    file.resize(size, spare);
    Ok(())
}

/// The same bytes go into a file and into its vector.
fn fill(
    alloc: Global,
    pair: &mut Pair,
    off: usize,
    bytes: &Arc<Vec<u8>>,
    is_shared: bool,
) -> Result<()> {
    put(
        &mut pair.flat,
        off.saturating_sub(pair.from),
        bytes.as_slice(),
    )?;
    if is_shared {
        return take(alloc, &mut pair.file, off, bytes);
    }
    write(alloc, &mut pair.file, off, bytes.as_slice())
}

/// The same of so many bytes.
fn fill_some(
    alloc: Global,
    pair: &mut Pair,
    off: usize,
    count: usize,
    is_shared: bool,
) -> Result<()> {
    let bytes = Arc::new(alloc, bytes_of(alloc, count, off.wrapping_add(count))?)?;
    fill(alloc, pair, off, &bytes, is_shared)
}

/// The same size for both.
fn resize_both(alloc: Global, pair: &mut Pair, size: usize) -> Result<()> {
    pair.flat.resize(size.saturating_sub(pair.from), 0)?;
    resize(alloc, &mut pair.file, size)
}

/// Both have the same bytes.
fn compare(alloc: Global, pair: &Pair) -> Result<()> {
    let count = pair.flat.len();
    ensure!(
        pair.file.len() == pair.from.saturating_add(count),
        "its size"
    );
    let bytes = some(alloc, &pair.file, pair.from, count)?;
    ensure!(bytes == pair.flat, "its bytes");
    Ok(())
}

/// Does this with both, and compares them.
fn change(alloc: Global, pair: &mut Pair, deed: Deed) -> Result<()> {
    match deed {
        Deed::Write(off, count) => fill_some(alloc, pair, off, count, false)?,
        Deed::Take(off, count) => fill_some(alloc, pair, off, count, true)?,
        Deed::Resize(size) => resize_both(alloc, pair, size)?,
    }
    compare(alloc, pair)
}

fn change_all(alloc: Global, pair: &mut Pair, deeds: &[Deed]) -> Result<()> {
    for deed in deeds {
        change(alloc, pair, *deed)?;
    }
    Ok(())
}

/// Does this with a new file, whose bytes are compared from an offset on.
fn play(alloc: Global, from: usize, deeds: &[Deed]) -> Result<()> {
    change_all(alloc, &mut empty(alloc, from), deeds)
}

/// Two writes, of which the second goes over bytes of the first.
fn write_twice(alloc: Global, off: usize, count: usize) -> Result<()> {
    let (half, some) = (off / 2, 100);
    play(
        alloc,
        0,
        &[Deed::Write(off, count), Deed::Write(half, some)],
    )?;
    play(alloc, 0, &[Deed::Take(off, count), Deed::Take(half, some)])
}

fn writes_at(alloc: Global, off: usize) -> Result<()> {
    for count in COUNTS {
        write_twice(alloc, off, count)?;
    }
    Ok(())
}

fn size_at(alloc: Global, size: usize) -> Result<()> {
    play(
        alloc,
        0,
        &[
            Deed::Write(9, 3 * BLOCK),
            Deed::Resize(size),
            Deed::Resize(4 * BLOCK),
            Deed::Resize(0),
            Deed::Resize(size),
        ],
    )
}

/// Writes and sizes at the edges of blocks.
fn edges_of_blocks(alloc: Global) -> Result<()> {
    for edge in EDGES {
        writes_at(alloc, edge)?;
        size_at(alloc, edge)?;
    }
    Ok(())
}

/// A write about the edge of a chunk, and sizes there; what is before it reads as zeros.
fn edges_of_a_chunk(alloc: Global) -> Result<()> {
    for (edge, before, count) in AT_A_CHUNK {
        let off = edge.saturating_sub(before);
        play(
            alloc,
            off.saturating_sub(3),
            &[
                Deed::Write(off, count),
                Deed::Resize(edge),
                Deed::Resize(edge.saturating_add(BLOCK)),
            ],
        )?;
    }
    Ok(())
}

/// A part of a file is that of the vector.
fn look(alloc: Global, pair: &Pair, off: usize, count: usize) -> Result<()> {
    let end = pair.flat.len().min(off.saturating_add(count));
    let read = some(alloc, &pair.file, off, count)?;
    ensure!(pair.flat.get(off..end) == Some(read.as_slice()), "a part");
    Ok(())
}

/// Parts of a file of all lengths.
fn look_at(alloc: Global, pair: &Pair, off: usize) -> Result<()> {
    for count in [0, 1, BLOCK, BLOCK + 1, 3 * BLOCK] {
        look(alloc, pair, off, count)?;
    }
    Ok(())
}

fn look_everywhere(alloc: Global, pair: &Pair) -> Result<()> {
    for off in PLACES {
        look_at(alloc, pair, off)?;
    }
    Ok(())
}

/// Reads across blocks, and across holes before and after them.
fn blocks_and_holes(alloc: Global) -> Result<()> {
    let mut pair = empty(alloc, 0);
    let deeds = [
        Deed::Write(2 * BLOCK - 5, 3 * BLOCK),
        Deed::Resize(7 * BLOCK),
    ];
    change_all(alloc, &mut pair, &deeds)?;
    look_everywhere(alloc, &pair)
}

/// A copy that shares the blocks which so many bytes from an offset on touch.
fn copy_of(alloc: Global, pair: &mut Pair, off: usize, count: usize) -> Result<Pair> {
    ensure!(off < MOST && count < MOST, "no bytes to share");
    pair.file.share(alloc, off, count);
    let flat = pair.flat.clone()?;
    Ok(Pair {
        file: pair.file.copy(&mut Memory::new())?,
        from: pair.from,
        flat,
    })
}

/// A file takes bytes that others share, and is copied. It changes, and its copy stays.
fn share_at(alloc: Global, pair: &mut Pair, off: usize, bytes: &Arc<Vec<u8>>) -> Result<()> {
    fill(alloc, pair, off, bytes, true)?;
    let copy = copy_of(alloc, pair, off, BLOCK)?;
    let deeds = [
        Deed::Write(off.saturating_add(7), 9),
        Deed::Resize(off.saturating_add(5)),
    ];
    change_all(alloc, pair, &deeds)?;
    compare(alloc, &copy)
}

/// What is shared stays.
fn sharing(alloc: Global) -> Result<()> {
    let bytes = bytes_of(alloc, BLOCK, 3)?;
    let shared = Arc::new(alloc, bytes_of(alloc, BLOCK, 3)?)?;
    for off in [0, BLOCK, 5 * BLOCK, BLOCK + SPAN] {
        share_at(alloc, &mut empty(alloc, 0), off, &shared)?;
        ensure!(shared.as_slice() == bytes.as_slice(), "what is shared");
    }
    Ok(())
}

/// A file in one vector has these bytes, and hands them out.
fn hand_out(file: File, due: &[u8]) -> Result<()> {
    ensure!(!file.is_in_blocks(), "no file in one vector");
    ensure!(file.as_slice() == due, "the bytes of a vector");
    ensure!(file.into_vec().as_slice() == due, "the bytes handed out");
    Ok(())
}

/// From an offset on, these are the bytes of a file.
fn reads(alloc: Global, file: &File, off: usize, due: &[u8]) -> Result<()> {
    let read = some(alloc, file, off, 9)?;
    ensure!(read.as_slice() == due, "the bytes of a vector, read");
    Ok(())
}

/// A file in one vector, and its copy.
fn one_vector(alloc: Global) -> Result<()> {
    let file = File::plain(bytes_of(alloc, 3, 1)?);
    let copy = file.copy(&mut Memory::new())?;
    ensure!(file.len() == 3, "the size of a vector");
    hand_out(file, &[1, 32, 63])?;
    reads(alloc, &copy, 1, &[32, 63])
}

/// What a drawn number says.
fn deed_of(drawn: u64) -> Deed {
    let off = (drawn >> 20) as usize % (6 * BLOCK);
    let off = if drawn >> 63 == 0 {
        off
    } else {
        off / BLOCK * BLOCK
    };
    let count = (drawn >> 40) as usize % (2 * BLOCK) + 1;
    match drawn >> 61 & 3 {
        0 => Deed::Resize(off),
        1 => Deed::Take(off, BLOCK),
        2 => Deed::Take(off, count),
        _ => Deed::Write(off, count),
    }
}

/// Drawn deeds, after each of which the file is a copy.
fn drawn_deeds(alloc: Global, pair: &mut Pair) -> Result<()> {
    let mut drawn = 1u64;
    for _ in 0..400 {
        drawn = drawn
            .wrapping_mul(6_364_136_223_846_793_005)
            .wrapping_add(1_442_695_040_888_963_407);
        change(alloc, pair, deed_of(drawn))?;
        pair.file = pair.file.copy(&mut Memory::new())?;
    }
    Ok(())
}

/// Files in use, in blocks and in one vector.
pub fn use_files(alloc: Global) -> Result<()> {
    one_vector(alloc)?;
    edges_of_blocks(alloc)?;
    edges_of_a_chunk(alloc)?;
    blocks_and_holes(alloc)?;
    sharing(alloc)?;
    drawn_deeds(alloc, &mut empty(alloc, 0))
}
