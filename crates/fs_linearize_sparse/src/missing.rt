//! Files that may be missing: what is not there has no bytes.

ghost use Rattle.std.specs.Prelude.{◌≡◌, take, drop, option_copied, IfOk};
ghost use Rattle.fs_calls.specs.Rows.{written, resized};
ghost use Rattle.fs_linearize_sparse.specs.Files.{bytes_in};

use crate::sparse_file::SparseFile;
use std::alloc::{AllocError, Global};

/// The bytes of a file from an offset on, and no more than a count.
pub fn read(
    alloc: Global,
    content: Option<&SparseFile>,
    off: usize,
    count: usize,
) -> Result<Vec<u8>, AllocError>
    ensures { IfOk result (λ bytes. bytes.items ≡ take count (drop off (bytes_in (option_copied content.entry)))) }
{
    match content {
        Some(content) => Ok(content.read(alloc, off, count)?),
        None => Ok(Vec::new(alloc)),
    }
}

/// The content of a file after a write: a gap reads as zeros.
pub fn written(
    alloc: Global,
    old: Option<&SparseFile>,
    off: usize,
    bytes: &[u8],
) -> Result<SparseFile, AllocError>
    ensures { IfOk result (λ new. new ≡ written (bytes_in (option_copied old.entry)) off bytes.now) }
{
    match old {
        Some(content) => Ok(content.written(alloc, off, bytes)?),
        None => Ok(SparseFile::empty(alloc).written(alloc, off, bytes)?),
    }
}

/// The content of a file cut to a size, or with zeros up to it.
pub fn resized(
    alloc: Global,
    old: Option<&SparseFile>,
    size: usize,
) -> Result<SparseFile, AllocError>
    ensures { IfOk result (λ new. new ≡ resized (bytes_in (option_copied old.entry)) size) }
{
    match old {
        Some(content) => Ok(content.resized(alloc, size)?),
        None => Ok(SparseFile::empty(alloc).resized(alloc, size)?),
    }
}
