//! The bytes of a file, whose holes take no memory.
//!
//! Enter at `SparseFile`, which is seen as the list of its bytes. A write far after the end, or a `resize` to a larger size,
//! leaves a hole: it reads as zeros, and only its length is kept. A file is never changed. Each change makes another one, whose
//! bytes are those that `fs_calls` defines (`written`, `resized` of `specs/Rows.antt`). `same` compares two files byte by byte,
//! but passes over holes in one step.
//!
//! The bytes are kept in extents: a hole, and the bytes after it (`extent`). `cut` says which part of an extent is in a range,
//! and `rest` compares two files from their first byte on. `missing` reads and changes what may not be there.
#![tactic(auto)]

mod cut;
mod extent;
pub mod missing;
mod rest;
pub mod sparse_file;

pub use missing::{read, resized, written};
pub use sparse_file::SparseFile;
