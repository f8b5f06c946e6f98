//! A long file.

ghost use Rattle.std.specs.Prelude.{◌≡◌, ◌≢◌, ◌≤◌, ◌<◌, ◌+◌, ◌-◌, ◌*◌, ◌^◌, ◌++◌, ◌%◌, ℕ, [], length, take, drop, replicate, slice_index, IfOk, OnOk, OnErr, vec_len, vec_capacity};
ghost use Rattle.fs_calls.specs.Rows.{written, resized};
ghost use Rattle.fs_blocks.specs.Spares.{behind_first, parts_of};
ghost use Rattle.fs_blocks.specs.code.Bytes.{byte_of_block, byte_of_file, byte_of_rest, bytes_from, IsClear, Puts, Cuts};

use crate::block::{Block, Buffers};
use crate::chunk::{Chunk, ChunkRooms};
use crate::piece::Piece;
use crate::sizes::{BLOCK, CHUNK, SPAN};
use fs_calls::ranges::part;
use fs_memory::Memory;
use std::alloc::{AllocError, Global};
use std::marker::Model;

/// The bytes of a file in blocks: the first block, and the others in chunks. Seen as their list.
#[derive(Drop)]
pub struct Long {
    len: usize,
    first: Block,
    chunks: Vec<Chunk>,
}

impl Model for Long {
    ghost use Rattle.std.specs.Prelude.{ℕ, List};
    ghost use Rattle.fs_blocks.specs.code.Bytes.{byte_of_file, bytes_from, IsClear};

    ghost Value = { List ℕ };

    ghost view = { λ l. bytes_from (byte_of_file l.first l.chunks.items) 0 l.len };

    ghost invariant = { λ l. IsClear (byte_of_file l.first l.chunks.items) l.len };
}

/// Holes up to a number of chunks.
fn fill(chunks: &mut Vec<Chunk>, count: usize)
    requires { count ≤ vec_capacity chunks.old }
    ensures items { chunks.new.items ≡ chunks.old.items ++ replicate (count - length chunks.old.items) [] }
    ensures room { vec_capacity chunks.new ≡ vec_capacity chunks.old }
{
    let alloc = *chunks.allocator();
    for _ in chunks.len()..count {
        chunks.push_reserved(Chunk::hole(alloc));
    }
}

/// The chunks in a list that has room for so many: their own, or else this.
fn make_room(chunks: &mut Vec<Chunk>, count: usize, list: Vec<Chunk>)
    requires empty { list.items ≡ [] }
    requires room { count ≤ vec_capacity list }
    ensures items { chunks.new.items ≡ chunks.old.items }
    ensures room { count ≤ vec_capacity chunks.new }
{
    if count <= chunks.capacity() {
        return;
    }
    let mut room = list;
    let _room_was_made = room.append(chunks);
    *chunks = room;
}

/// Puts bytes into the chunk of a number.
fn put_in(
    chunks: &mut Vec<Chunk>,
    number: usize,
    off: usize,
    bytes: Piece<'_>,
    rooms: &mut ChunkRooms,
    buffers: &mut Buffers,
)
    requires list { number < vec_capacity chunks.old }
    requires most { off + length bytes ≤ SPAN }
    requires room { 0 < rooms.old }
    requires buffers { parts_of BLOCK off (length bytes) ≤ buffers.old }
    ensures bytes { Puts (byte_of_rest chunks.old.items) (byte_of_rest chunks.new.items) (number * SPAN + off) bytes.entry }
    ensures list { vec_capacity chunks.new ≡ vec_capacity chunks.old }
    ensures rooms { rooms.old ≤ rooms.new + 1 }
    ensures buffers { buffers.old ≤ buffers.new + parts_of BLOCK off (length bytes.entry) }
{
    fill(chunks, number + 1);
    chunks[number].write(off, bytes, rooms, buffers);
}

/// Puts bytes into the chunks that they touch.
fn put_all(
    chunks: &mut Vec<Chunk>,
    off: usize,
    bytes: Piece<'_>,
    rooms: &mut ChunkRooms,
    buffers: &mut Buffers,
)
    requires fits { off + length bytes < 2 ^ 64 }
    requires list { off + length bytes ≤ vec_capacity chunks.old * SPAN }
    requires rooms { parts_of SPAN off (length bytes) ≤ rooms.old }
    requires buffers { parts_of BLOCK off (length bytes) ≤ buffers.old }
    ensures { Puts (byte_of_rest chunks.old.items) (byte_of_rest chunks.new.items) off bytes.entry }
{
    let mut at = off;
    let mut left = bytes;
    while !left.is_empty() {
        let inner = at % SPAN;
        let count = left.len().min(SPAN - inner);
        let (piece, rest) = left.split_at(count);
        put_in(chunks, at / SPAN, inner, piece, rooms, buffers);
        left = rest;
        at += count;
    }
}

/// How many of the bytes from an offset on belong into the first block.
fn count_in_first(off: usize, count: usize) -> usize
    ensures most { result ≤ count }
    ensures first { 0 < result → off + result ≤ BLOCK }
    ensures rest { result < count → BLOCK ≤ off + result }
{
    count.min(BLOCK.saturating_sub(off))
}

/// Puts bytes into the first block.
fn put_first(first: &mut Block, off: usize, bytes: Piece<'_>, buffers: &mut Buffers)
    requires most { 0 < length bytes → off + length bytes ≤ BLOCK }
    requires buffers { parts_of BLOCK off (length bytes) ≤ buffers.old }
    ensures bytes { Puts (byte_of_block first.old) (byte_of_block first.new) off bytes.entry }
    ensures buffers { buffers.old ≤ buffers.new + parts_of BLOCK off (length bytes.entry) }
{
    if bytes.is_empty() {
        return;
    }
    first.write(off, bytes, buffers);
}

/// Puts bytes that begin after the first block.
fn put_rest(
    chunks: &mut Vec<Chunk>,
    off: usize,
    bytes: Piece<'_>,
    list: Vec<Chunk>,
    rooms: &mut ChunkRooms,
    buffers: &mut Buffers,
)
    requires fits { off + length bytes < 2 ^ 64 }
    requires behind { 0 < length bytes → BLOCK ≤ off }
    requires empty { list.items ≡ [] }
    requires list { off + length bytes ≤ BLOCK + vec_capacity list * SPAN }
    requires rooms { parts_of SPAN (off - BLOCK) (length bytes) ≤ rooms.old }
    requires buffers { parts_of BLOCK off (length bytes) ≤ buffers.old }
    ensures { Puts (byte_of_rest chunks.old.items) (byte_of_rest chunks.new.items) (off - BLOCK) bytes.entry }
{
    if bytes.is_empty() {
        return;
    }
    let at = off - BLOCK;
    let last = at + (bytes.len() - 1);
    make_room(chunks, last / SPAN + 1, list);
    put_all(chunks, at, bytes, rooms, buffers);
}

/// Leaves no bytes after the first block from a place on.
fn cut_rest(chunks: &mut Vec<Chunk>, size: usize, buffers: &mut Buffers)
    requires { 0 < buffers.old }
    ensures { Cuts (byte_of_rest chunks.old.items) (byte_of_rest chunks.new.items) size }
{
    let number = size / SPAN;
    chunks.truncate(number + 1);
    if number < chunks.len() {
        chunks[number].cut(size % SPAN, buffers);
    }
}

/// Leaves no bytes from a place on.
fn cut(first: &mut Block, chunks: &mut Vec<Chunk>, size: usize, buffers: &mut Buffers)
    requires { 0 < buffers.old }
    ensures { Cuts (byte_of_file first.old chunks.old.items) (byte_of_file first.new chunks.new.items) size }
{
    if BLOCK <= size {
        cut_rest(chunks, size - BLOCK, buffers);
        return;
    }
    chunks.clear();
    first.cut(size, buffers);
}

/// The same for bytes of which none is left after this length.
fn shorten(
    first: &mut Block,
    chunks: &mut Vec<Chunk>,
    len: usize,
    size: usize,
    buffers: &mut Buffers,
)
    requires clear { IsClear (byte_of_file first.old chunks.old.items) len }
    requires buffer { 0 < buffers.old }
    ensures { Cuts (byte_of_file first.old chunks.old.items) (byte_of_file first.new chunks.new.items) size }
{
    if size < len {
        cut(first, chunks, size, buffers);
    }
}

/// The bytes of the block of a number, among those after the first one.
fn block_behind(chunks: &[Chunk], number: usize) -> &[u8]
    ensures bytes { (i : ℕ) → i < BLOCK → byte_of_rest chunks.now (number * BLOCK + i) ≡ slice_index result.now i }
    ensures most { length result.now ≤ BLOCK }
{
    match chunks.get(number / CHUNK) {
        Some(chunk) => chunk.block(number % CHUNK),
        None => &[],
    }
}

/// The bytes of the block of a number.
fn block_at<'a>(first: &'a Block, chunks: &'a [Chunk], number: usize) -> &'a [u8]
    ensures bytes { (i : ℕ) → i < BLOCK → byte_of_file first.now chunks.now (number * BLOCK + i) ≡ slice_index result.now i }
    ensures most { length result.now ≤ BLOCK }
{
    if number == 0 {
        first.as_slice()
    } else {
        block_behind(chunks, number - 1)
    }
}

/// Appends bytes of a block from a place on, and zeros for those that it does not have.
fn read_block(block: &[u8], off: usize, count: usize, into: &mut Vec<u8>)
    requires { vec_len into.old + count ≤ vec_capacity into.old }
    ensures bytes { into.new.items ≡ into.old.items ++ bytes_from (byte_of_block block.now) off count }
    ensures len { vec_len into.new ≡ vec_len into.old + count }
    ensures room { vec_capacity into.old ≤ vec_capacity into.new }
{
    let there = part(block, off as u64, count as u64);
    let _room_was_made = into.extend_from_slice(there);
    let _room_was_made = into.resize(into.len() + (count - there.len()), 0);
}

/// Appends bytes from an offset on.
fn read_all(first: &Block, chunks: &[Chunk], off: usize, count: usize, into: &mut Vec<u8>)
    requires fits { off + count < 2 ^ 64 }
    requires room { vec_len into.old + count ≤ vec_capacity into.old }
    ensures { into.new.items ≡ into.old.items ++ bytes_from (byte_of_file first.now chunks.now) off count }
{
    let mut at = off;
    let mut left = count;
    while left > 0 {
        let inner = at % BLOCK;
        let piece = left.min(BLOCK - inner);
        read_block(block_at(first, chunks, at / BLOCK), inner, piece, into);
        left -= piece;
        at += piece;
    }
}

impl Long {
    /// A file that has its bytes in the first block.
    pub fn of(alloc: Global, first: Block) -> Long
        ensures { result ≡ first }
    {
        let len = first.as_slice().len();
        Long {
            len,
            first,
            chunks: Vec::new(alloc),
        }
    }

    /// How many bytes it has.
    pub fn len(&self) -> usize
        ensures { result ≡ length self.now }
    {
        self.len
    }

    /// Appends bytes from an offset on to a vector that has room for them.
    pub fn read(&self, off: usize, count: usize, into: &mut Vec<u8>)
        requires fits { off + count < 2 ^ 64 }
        requires within { off + count ≤ length self.now }
        requires room { vec_len into.old + count ≤ vec_capacity into.old }
        ensures { into.new.items ≡ into.old.items ++ take count (drop off self.now) }
    {
        read_all(&self.first, &self.chunks, off, count, into);
    }

    /// Puts bytes over those from an offset on; a gap is filled with zeros.
    pub fn write(
        &mut self,
        off: usize,
        bytes: Piece<'_>,
        list: Vec<Chunk>,
        rooms: &mut ChunkRooms,
        buffers: &mut Buffers,
    )
        requires fits { off + length bytes < 2 ^ 64 }
        requires empty { list.items ≡ [] }
        requires list { off + length bytes ≤ BLOCK + vec_capacity list * SPAN }
        requires rooms { parts_of SPAN (off - BLOCK) (behind_first off (length bytes)) ≤ rooms.old }
        requires buffers { parts_of BLOCK off (length bytes) ≤ buffers.old }
        ensures { self.new ≡ written self.old off bytes.entry }
    {
        let before = count_in_first(off, bytes.len());
        let (head, rest) = bytes.split_at(before);
        put_first(&mut self.first, off, head, buffers);
        put_rest(&mut self.chunks, off + before, rest, list, rooms, buffers);
        self.len = self.len.max(off + bytes.len());
    }

    /// Cuts it to a size, or adds zeros up to it.
    pub fn resize(&mut self, size: usize, buffers: &mut Buffers)
        requires { 0 < buffers.old }
        ensures { self.new ≡ resized self.old size }
    {
        shorten(&mut self.first, &mut self.chunks, self.len, size, buffers);
        self.len = size;
    }

    /// Lets copies share the blocks that so many bytes from an offset on touch, as far as there is memory for that.
    pub fn share(&mut self, alloc: Global, off: usize, count: usize)
        requires { off + count < 2 ^ 63 }
        ensures { self.new ≡ self.old }
    {
        let first = off / BLOCK;
        let end = (off + count + (BLOCK - 1)) / BLOCK;
        if first == 0 {
            self.first.share(alloc);
        }
        let (from, to) = (first.saturating_sub(1), end.saturating_sub(1));
        share_rest(&mut self.chunks, alloc, from, to);
    }

    /// The same file again. Its blocks are shared, if they are already, and else copied.
    pub fn copy(&self, memory: &mut Memory) -> Result<Long, AllocError>
        ensures ok { IfOk result (λ file. file ≡ self.now) }
        ensures granted { OnOk result (memory.new ≡ memory.old) }
        ensures refused { OnErr result (memory.new ≢ memory.old) }
    {
        let first = self.first.copy(memory)?;
        let chunks = copied(&self.chunks, memory)?;
        Ok(Long {
            len: self.len,
            first,
            chunks,
        })
    }
}

/// Lets copies share the blocks between two numbers, among those after the first block.
fn share_rest(chunks: &mut Vec<Chunk>, alloc: Global, from: usize, to: usize)
    ensures { chunks.new.items ≡ chunks.old.items }
{
    for number in from..to {
        if number / CHUNK < chunks.len() {
            chunks[number / CHUNK].share(alloc, number % CHUNK);
        }
    }
}

/// The same chunks again.
fn copied(chunks: &Vec<Chunk>, memory: &mut Memory) -> Result<Vec<Chunk>, AllocError>
    ensures ok { IfOk result (λ copies. copies.items ≡ chunks.now.items) }
    ensures granted { OnOk result (memory.new ≡ memory.old) }
    ensures refused { OnErr result (memory.new ≢ memory.old) }
{
    let mut copies = memory.with_room(*chunks.allocator(), chunks.len())?;
    for chunk in chunks {
        copies.push_reserved(chunk.copy(memory)?);
    }
    Ok(copies)
}
