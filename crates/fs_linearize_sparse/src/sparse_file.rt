//! A file.

ghost use Rattle.std.specs.Prelude.{◌≡◌, ◌↔◌, [], true, length, take, drop, slice_index, IfOk};
ghost use Rattle.std.specs.List.{flat_map};
ghost use Rattle.fs_calls.specs.Rows.{written, resized};
ghost use Rattle.fs_linearize_sparse.specs.code.Extents.{bytes_of};

use crate::extent::{Extent, add, add_part, byte_at, filled};
use crate::rest::{Rest, are_same};
use std::alloc::{AllocError, Global};
use std::marker::Model;

/// The bytes of a file: its extents, and how many bytes they are together. Seen as their list.
#[derive(Drop)]
pub struct SparseFile {
    extents: Vec<Extent>,
    len: usize,
}

impl Model for SparseFile {
    ghost use Rattle.std.specs.Prelude.{◌≡◌, ℕ, List, length};
    ghost use Rattle.std.specs.List.{flat_map};
    ghost use Rattle.fs_linearize_sparse.specs.code.Extents.{bytes_of};

    ghost Value = { List ℕ };

    ghost view = { λ f. flat_map bytes_of f.extents.items };

    ghost invariant = { λ f. f.len ≡ length (flat_map bytes_of f.extents.items) };
}

impl SparseFile {
    /// A file without bytes.
    pub fn empty(alloc: Global) -> SparseFile
        ensures { result ≡ [] }
    {
        SparseFile {
            extents: Vec::new(alloc),
            len: 0,
        }
    }

    /// A file with these bytes.
    pub fn of(alloc: Global, bytes: Vec<u8>) -> Result<SparseFile, AllocError>
        ensures { IfOk result (λ file. file ≡ bytes.items) }
    {
        let len = bytes.len();
        let mut extents = Vec::with_capacity(alloc, 1)?;
        extents.push(Extent {
            hole: 0,
            data: bytes,
        })?;
        Ok(SparseFile { extents, len })
    }

    /// The same bytes again.
    pub fn copy(&self, alloc: Global) -> Result<SparseFile, AllocError>
        ensures { IfOk result (λ file. file ≡ self.now) }
    {
        let mut extents = Vec::with_capacity(alloc, self.extents.len())?;
        add_part(alloc, &mut extents, &self.extents, 0, self.len)?;
        Ok(SparseFile {
            extents,
            len: self.len,
        })
    }

    /// How many bytes it has.
    pub fn len(&self) -> usize
        ensures { result ≡ length self.now }
    {
        self.len
    }

    /// Its bytes from an offset on, and no more than a count.
    pub fn read(&self, alloc: Global, off: usize, count: usize) -> Result<Vec<u8>, AllocError>
        ensures { IfOk result (λ bytes. bytes.items ≡ take count (drop off self.now)) }
    {
        let mut extents = Vec::new(alloc);
        add_part(alloc, &mut extents, &self.extents, off, count)?;
        Ok(filled(alloc, &extents)?)
    }

    /// The file after a write of bytes at an offset. It has no more bytes than memory can have addresses.
    pub fn written(&self, alloc: Global, off: usize, bytes: &[u8]) -> Result<SparseFile, AllocError>
        ensures { IfOk result (λ file. file ≡ written self.now off bytes.now) }
    {
        let Some(end) = off.checked_add(bytes.len()) else {
            return Err(AllocError);
        };
        let mut extents = Vec::with_capacity(alloc, self.extents.len().max(1))?;
        add_part(alloc, &mut extents, &self.extents, 0, off)?;
        add(alloc, &mut extents, off.saturating_sub(self.len), bytes)?;
        add_part(alloc, &mut extents, &self.extents, end, self.len)?;
        Ok(SparseFile {
            extents,
            len: self.len.max(end),
        })
    }

    /// The file cut to a size, or with zeros up to it.
    pub fn resized(&self, alloc: Global, size: usize) -> Result<SparseFile, AllocError>
        ensures { IfOk result (λ file. file ≡ resized self.now size) }
    {
        let mut extents = Vec::with_capacity(alloc, self.extents.len().max(1))?;
        add_part(alloc, &mut extents, &self.extents, 0, size)?;
        add(alloc, &mut extents, size.saturating_sub(self.len), &[])?;
        Ok(SparseFile { extents, len: size })
    }

    /// Whether both have the same bytes.
    pub fn same(&self, other: &SparseFile) -> bool
        ensures { result ≡ true ↔ self.now ≡ other.now }
    {
        if self.len != other.len {
            return false;
        }
        are_same(Rest::of(&self.extents), Rest::of(&other.extents), self.len)
    }

    /// The byte at a place: 0 after the last.
    pub fn byte(&self, place: usize) -> u8
        ensures { result ≡ slice_index self.now place }
    {
        byte_at(&self.extents, place)
    }
}
