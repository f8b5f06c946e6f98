//! Extents of a file.

ghost use Rattle.std.specs.Prelude.{◌≡◌, ◌≤◌, ◌++◌, replicate, slice_index, take, drop, IfOk, OnOk};
ghost use Rattle.std.specs.List.{flat_map};
ghost use Rattle.fs_linearize_sparse.specs.code.Extents.{bytes_of};

use crate::cut::Cut;
use std::alloc::{AllocError, Global};

/// Zeros that are not kept, and the bytes after them.
#[derive(Drop)]
pub(crate) struct Extent {
    pub hole: usize,
    pub data: Vec<u8>,
}

/// A hole of at most so many bytes is filled with zeros, if there are bytes before it: an extent of its own takes more.
const FILLED: usize = 64;

/// Adds zeros to bytes.
fn add_zeros(bytes: &mut Vec<u8>, count: usize) -> Result<(), AllocError>
    ensures { OnOk result (bytes.new.items ≡ bytes.old.items ++ replicate count 0) }
{
    let Some(len) = bytes.len().checked_add(count) else {
        return Err(AllocError);
    };
    bytes.resize(len, 0)
}

/// Adds zeros and bytes to those of an extent.
fn longer(extent: Extent, hole: usize, bytes: &[u8]) -> Result<Extent, AllocError>
    ensures { IfOk result (λ longer. bytes_of longer ≡ bytes_of extent ++ (replicate hole 0 ++ bytes.now)) }
{
    let Extent {
        hole: first,
        data: mut all,
    } = extent;
    add_zeros(&mut all, hole)?;
    all.extend_from_slice(bytes)?;
    Ok(Extent {
        hole: first,
        data: all,
    })
}

/// Adds zeros and bytes to a file.
pub(crate) fn add(
    alloc: Global,
    extents: &mut Vec<Extent>,
    hole: usize,
    bytes: &[u8],
) -> Result<(), AllocError>
    ensures { OnOk result (flat_map bytes_of extents.new.items ≡ flat_map bytes_of extents.old.items ++ (replicate hole 0 ++ bytes.now)) }
{
    if hole <= FILLED {
        if let Some(last) = extents.pop() {
            extents.push(longer(last, hole, bytes)?)?;
            return Ok(());
        }
    }
    let data = Vec::from_slice(alloc, bytes)?;
    extents.push(Extent { hole, data })?;
    Ok(())
}

/// Adds the part of an extent that is in a range.
fn add_cut(
    alloc: Global,
    to: &mut Vec<Extent>,
    extent: &Extent,
    cut: Cut,
) -> Result<Cut, AllocError>
    ensures added { OnOk result (flat_map bytes_of to.new.items ≡ flat_map bytes_of to.old.items ++ take cut.count (drop cut.skip (bytes_of extent.now))) }
    ensures left { IfOk result (λ left. (rest : _) → take cut.count (drop cut.skip (bytes_of extent.now ++ rest)) ≡ take cut.count (drop cut.skip (bytes_of extent.now)) ++ take left.count (drop left.skip rest)) }
{
    let behind = cut.after(extent.hole);
    add(
        alloc,
        to,
        cut.zeros(extent.hole),
        behind.bytes(&extent.data),
    )?;
    Ok(behind.after(extent.data.len()))
}

/// Adds the part of a file that is in a range.
pub(crate) fn add_part(
    alloc: Global,
    to: &mut Vec<Extent>,
    from: &[Extent],
    skip: usize,
    count: usize,
) -> Result<(), AllocError>
    ensures { OnOk result (flat_map bytes_of to.new.items ≡ flat_map bytes_of to.old.items ++ take count (drop skip (flat_map bytes_of from.now))) }
{
    let mut cut = Cut { skip, count };
    for extent in from {
        cut = add_cut(alloc, to, extent, cut)?;
    }
    Ok(())
}

/// The bytes of extents, with their zeros.
pub(crate) fn filled(alloc: Global, extents: &[Extent]) -> Result<Vec<u8>, AllocError>
    ensures { IfOk result (λ bytes. bytes.items ≡ flat_map bytes_of extents.now) }
{
    let mut bytes = Vec::new(alloc);
    for extent in extents {
        add_zeros(&mut bytes, extent.hole)?;
        bytes.extend_from_slice(&extent.data)?;
    }
    Ok(bytes)
}

/// The byte at a place of extents: 0 after the last.
#[tactic(auto, using(crate::proofs::PartLemmas::byte_hole, crate::proofs::PartLemmas::byte_data, crate::proofs::PartLemmas::byte_next))]
pub(crate) fn byte_at(extents: &[Extent], place: usize) -> u8
    ensures { result ≡ slice_index (flat_map bytes_of extents.now) place }
{
    let mut left = place;
    for extent in extents {
        if left < extent.hole {
            return 0;
        }
        left -= extent.hole;
        if left < extent.data.len() {
            return extent.data[left];
        }
        left -= extent.data.len();
    }
    0
}
