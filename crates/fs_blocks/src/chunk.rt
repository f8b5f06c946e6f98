//! A chunk of a file.

ghost use Rattle.std.specs.Prelude.{◌≡◌, ◌≢◌, ◌≤◌, ◌<◌, ◌+◌, ◌-◌, ◌*◌, ◌++◌, [], length, replicate, slice_index_or, IfOk, OnOk, OnErr, vec_capacity};
ghost use Rattle.fs_blocks.specs.code.Bytes.{byte_of_chunk, Puts, Cuts};
ghost use Rattle.fs_blocks.specs.Spares.{parts_of};

use crate::block::{Block, Buffers};
use crate::piece::Piece;
use crate::rooms::Rooms;
use crate::sizes::{BLOCK, CHUNK, SPAN};
use fs_memory::Memory;
use std::alloc::{AllocError, Global};
use std::marker::Model;

/// Vectors with room for the blocks of a chunk each.
pub type ChunkRooms = Rooms<Block, CHUNK>;

/// Blocks under their numbers, seen as the list of them. A number that it does not have is a hole's.
#[derive(Drop)]
pub struct Chunk {
    blocks: Vec<Block>,
}

impl Model for Chunk {
    ghost use Rattle.std.specs.Prelude.{ℕ, List};

    ghost Value = { List (List ℕ) };

    ghost view = { λ c. c.blocks.items };
}

/// Holes up to a number of blocks.
fn fill(blocks: &mut Vec<Block>, count: usize)
    requires { count ≤ vec_capacity blocks.old }
    ensures items { blocks.new.items ≡ blocks.old.items ++ replicate (count - length blocks.old.items) [] }
    ensures room { vec_capacity blocks.new ≡ vec_capacity blocks.old }
{
    for _ in blocks.len()..count {
        blocks.push_reserved(Block::hole());
    }
}

/// Puts bytes into the block of a number.
fn put_in(
    blocks: &mut Vec<Block>,
    number: usize,
    off: usize,
    bytes: Piece<'_>,
    buffers: &mut Buffers,
)
    requires room { CHUNK ≤ vec_capacity blocks.old }
    requires number { number < CHUNK }
    requires most { off + length bytes ≤ BLOCK }
    requires buffer { 0 < buffers.old }
    ensures bytes { Puts (byte_of_chunk blocks.old.items) (byte_of_chunk blocks.new.items) (number * BLOCK + off) bytes.entry }
    ensures room { CHUNK ≤ vec_capacity blocks.new }
    ensures buffers { buffers.old ≤ buffers.new + 1 }
{
    fill(blocks, number + 1);
    blocks[number].write(off, bytes, buffers);
}

/// Puts bytes into the blocks that they touch.
fn put_all(blocks: &mut Vec<Block>, off: usize, bytes: Piece<'_>, buffers: &mut Buffers)
    requires room { CHUNK ≤ vec_capacity blocks.old }
    requires most { off + length bytes ≤ SPAN }
    requires buffers { parts_of BLOCK off (length bytes) ≤ buffers.old }
    ensures bytes { Puts (byte_of_chunk blocks.old.items) (byte_of_chunk blocks.new.items) off bytes.entry }
    ensures buffers { buffers.old ≤ buffers.new + parts_of BLOCK off (length bytes.entry) }
{
    let mut at = off;
    let mut left = bytes;
    while !left.is_empty() {
        let inner = at % BLOCK;
        let count = left.len().min(BLOCK - inner);
        let (piece, rest) = left.split_at(count);
        put_in(blocks, at / BLOCK, inner, piece, buffers);
        left = rest;
        at += count;
    }
}

impl Chunk {
    /// A chunk of holes.
    pub fn hole(alloc: Global) -> Chunk
        ensures { result ≡ [] }
    {
        Chunk {
            blocks: Vec::new(alloc),
        }
    }

    /// The bytes of the block of a number.
    pub fn block(&self, number: usize) -> &[u8]
        ensures bytes { result.now ≡ slice_index_or self.now number [] }
        ensures most { length result.now ≤ BLOCK }
    {
        match self.blocks.get(number) {
            Some(block) => block.as_slice(),
            None => &[],
        }
    }

    /// Puts bytes from a place on.
    pub fn write(
        &mut self,
        off: usize,
        bytes: Piece<'_>,
        rooms: &mut ChunkRooms,
        buffers: &mut Buffers,
    )
        requires most { off + length bytes ≤ SPAN }
        requires room { 0 < rooms.old }
        requires buffers { parts_of BLOCK off (length bytes) ≤ buffers.old }
        ensures bytes { Puts (byte_of_chunk self.old) (byte_of_chunk self.new) off bytes.entry }
        ensures rooms { rooms.old ≤ rooms.new + 1 }
        ensures buffers { buffers.old ≤ buffers.new + parts_of BLOCK off (length bytes.entry) }
    {
        rooms.make_room(&mut self.blocks);
        put_all(&mut self.blocks, off, bytes, buffers);
    }

    /// Leaves no bytes from a place on.
    pub fn cut(&mut self, size: usize, buffers: &mut Buffers)
        requires { 0 < buffers.old }
        ensures bytes { Cuts (byte_of_chunk self.old) (byte_of_chunk self.new) size }
    {
        let number = size / BLOCK;
        self.blocks.truncate(number + 1);
        if number < self.blocks.len() {
            self.blocks[number].cut(size % BLOCK, buffers);
        }
    }

    /// Lets copies share a block, if there is memory for that.
    pub fn share(&mut self, alloc: Global, number: usize)
        ensures { self.new ≡ self.old }
    {
        if number < self.blocks.len() {
            self.blocks[number].share(alloc);
        }
    }

    /// The same blocks again.
    pub fn copy(&self, memory: &mut Memory) -> Result<Chunk, AllocError>
        ensures ok { IfOk result (λ chunk. chunk ≡ self.now) }
        ensures granted { OnOk result (memory.new ≡ memory.old) }
        ensures refused { OnErr result (memory.new ≢ memory.old) }
    {
        let room = if self.blocks.is_empty() { 0 } else { CHUNK };
        let mut blocks = memory.with_room(*self.blocks.allocator(), room)?;
        memory.reserve(&mut blocks, self.blocks.len())?;
        for block in &self.blocks {
            blocks.push_reserved(block.copy(memory)?);
        }
        Ok(Chunk { blocks })
    }
}
