//! How a file is cut.

/// How many bytes a block has at the most.
pub const BLOCK: usize = 16_384;

/// How many blocks a chunk has at the most.
pub const CHUNK: usize = 512;

/// How many bytes a chunk has at the most.
pub const SPAN: usize = BLOCK * CHUNK;
