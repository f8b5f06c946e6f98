//! The bytes of a file: in one vector, or in blocks that files share.
//!
//! A file in blocks (`File`) that fits in a block is that block alone. A longer one (`long`) has its first block and a list of chunks with
//! `CHUNK` blocks each. A block, a chunk or an end of one that is missing is a hole, and reads as zeros. A block has its bytes in a vector
//! of its own, or in a range of one that others share (`block`). A shared range is never changed. A write copies it first, unless it is
//! the whole vector and no other owner is left.
//!
//! When the bytes of a shared vector are written, a block can share its range of them and copy nothing (`piece`). It does so if the range
//! begins the block, leaves nothing of the block after it, and is at least a sixteenth of the vector. So a block keeps no more than
//! sixteen times its own bytes alive. Whole blocks of up to 256 KiB are shared, and a tail of few bytes is copied.
//!
//! Contracts see a file as its bytes and whether they are in blocks (`specs/Files.antt`), and say nothing of blocks. A change answers no
//! error, because it takes no memory: it uses a `Spare` that was made before, and `specs/Spares.antt` says when that is enough. No
//! contract of `std` says when an `Arc` has one owner, or fails to have one more. So there is always a buffer in case a share cannot be
//! undone, and bytes that cannot be shared are copied.
//!
//! Enter at `File` and `Spare::for_write`. `specs/code/Bytes.antt` has the bytes by their places, on which all proofs rest.
#![tactic(auto)]

mod block;
mod chunk;
pub mod file;
mod long;
mod piece;
mod rooms;
pub mod sizes;
pub mod spare;

pub use file::File;
pub use sizes::{BLOCK, CHUNK, SPAN};
pub use spare::Spare;
