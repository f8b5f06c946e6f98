//! What a call takes when it begins, so that nothing can refuse its finish: buffers, and what a copy of a new name needs.

ghost use Rattle.std.specs.Prelude.{◌≡◌, ◌≢◌, ◌≤◌, ◌<◌, ◌+◌, ◌^◌, [], IsTrue, IfOk, OnOk, OnErr, length, take, drop, min, vec_capacity};
ghost use Rattle.std.specs.Option.{option_copied};
ghost use Rattle.fs_names.specs.Shapes.{bytes_of};
ghost use Rattle.fs_names.specs.declared.limits.TheConstants.{LIST_LIMIT};
ghost use Rattle.fs_nodes.specs.Stores.{shape};
ghost use Rattle.fs_calls.specs.Forms.{form};
ghost use Rattle.fs_calls.specs.code.Targets.{form_of, node_call};
ghost use Rattle.fs_ops_effects.specs.Rooms.{Suffices, SufficesFor, FitsContent, FitsBlocks, FitsChange, FitsCopies, FitsLists, FitsName, FitsNew};
ghost use Rattle.fs_blocks.specs.Spares.{FitsWrite, FitsSize};

use crate::paths::new_name;
use fs_blocks::Spare;
use fs_calls::ranges::fits;
use fs_calls::{Bytes, Call, NodeCall, Target};
use fs_memory::Memory;
use fs_names::{LIST_LIMIT, Limits, Name, NameOwner, NameRoom};
use fs_nodes::{NodeNo, Store};
use std::alloc::{AllocError, Global};
use std::marker::Model;

/// An empty vector of bytes, seen as how many it has room for.
#[derive(Drop)]
pub struct ByteRoom {
    items: Vec<u8>,
}

impl Model for ByteRoom {
    ghost use Rattle.std.specs.Prelude.{ℕ, ◌≡◌, [], vec_capacity};

    ghost Value = { ℕ };

    ghost view = { λ r. vec_capacity r.items };

    ghost invariant = { λ r. r.items.items ≡ [] };
}

impl ByteRoom {
    /// Room for this many bytes. The only error is out of memory.
    pub fn new(alloc: Global, memory: &mut Memory, count: usize) -> Result<ByteRoom, AllocError>
        ensures ok { IfOk result (λ room. count ≤ room) }
        ensures granted { OnOk result (memory.new ≡ memory.old) }
        ensures refused { OnErr result (memory.new ≢ memory.old) }
    {
        let items = memory.with_room(alloc, count)?;
        Ok(ByteRoom { items })
    }

    /// The vector itself, empty, with the room.
    pub fn into_vec(self) -> Vec<u8>
        ensures items { result.items ≡ [] }
        ensures room { vec_capacity result ≡ self }
    {
        let ByteRoom { items } = self;
        items
    }

    /// The bytes of a file from an offset on, and no more than a count, in the room that was made.
    pub fn read(self, store: &Store, file: NodeNo, off: u64, count: u64) -> Bytes
        requires { length (take count (drop off (bytes_of (shape store.now file)))) ≤ self }
        ensures { result ≡ take count (drop off (bytes_of (shape store.now file))) }
    {
        let mut items = self.into_vec();
        store.read(file, off, count, &mut items);
        items.shrink_to_fit();
        Bytes::new(items)
    }

    /// The bytes again, in the room that was made. The capacity that they leave is given back to the allocator, which keeps
    /// the block as it is where it has no smaller one.
    pub fn copy_of(self, bytes: &[u8]) -> Bytes
        requires { length bytes.now ≤ self }
        ensures { result ≡ bytes.now }
    {
        let mut items = self.into_vec();
        let _room_was_made = items.extend_from_slice(bytes);
        items.shrink_to_fit();
        Bytes::new(items)
    }
}

/// What a call has made room for.
#[derive(Drop)]
pub enum Room {
    /// Nothing.
    Nothing,
    /// The new bytes of a file in one vector.
    Content(ByteRoom),
    /// What a change of a file in blocks may use.
    Blocks(Box<Spare>),
    /// The bytes of two equal replies.
    Copies(ByteRoom, ByteRoom),
    /// The names of two equal replies.
    Lists(NameRoom, NameRoom),
    /// What a copy of the name needs that the call may give to an entry.
    Name(NameOwner),
}

/// For how many times as many bytes as it writes a write makes room beside them, at the most.
const SPARE: u64 = 64;

/// Room for the new bytes of a file, unless they are more than the most. A write after the start of a file makes room
/// for as many bytes again as come before it, up to the most, and no more than what it writes allows. So a file that
/// grows piece by piece is copied a few times, and one that gets a few bytes far after its start has little room beside
/// its bytes.
fn content(
    alloc: Global,
    memory: &mut Memory,
    most: usize,
    off: u64,
    count: u64,
) -> Result<Room, AllocError>
    ensures ok { IfOk result (FitsContent most (off + count)) }
    ensures granted { OnOk result (memory.new ≡ memory.old) }
    ensures refused { OnErr result (memory.new ≢ memory.old) }
{
    if !fits(most, off, count as usize) {
        return Ok(Room::Content(ByteRoom::new(alloc, memory, 0)?));
    }
    let len = off + count;
    let spare = off.min(SPARE.saturating_mul(count)).min(most as u64 - len);
    Ok(Room::Content(ByteRoom::new(alloc, memory, (len + spare) as usize)?))
}

/// What a write of so many bytes into a file in blocks may use, unless it ends after the most.
fn blocks_for_write(
    alloc: Global,
    memory: &mut Memory,
    most: usize,
    off: u64,
    count: usize,
) -> Result<Room, AllocError>
    requires { most < 2 ^ 63 }
    ensures ok { IfOk result (FitsBlocks most (off + count) (FitsWrite off count)) }
    ensures granted { OnOk result (memory.new ≡ memory.old) }
    ensures refused { OnErr result (memory.new ≢ memory.old) }
{
    if !fits(most, off, count) {
        let spare = Spare::for_write(alloc, memory, 0, 0)?;
        return Ok(Room::Blocks(memory.boxed(alloc, spare)?));
    }
    let spare = Spare::for_write(alloc, memory, off as usize, count)?;
    Ok(Room::Blocks(memory.boxed(alloc, spare)?))
}

/// What a change of a file in blocks to this size may use, unless it is more than the most.
fn blocks_for_size(
    alloc: Global,
    memory: &mut Memory,
    most: usize,
    size: u64,
) -> Result<Room, AllocError>
    requires { most < 2 ^ 63 }
    ensures ok { IfOk result (FitsBlocks most size (FitsSize size)) }
    ensures granted { OnOk result (memory.new ≡ memory.old) }
    ensures refused { OnErr result (memory.new ≢ memory.old) }
{
    let size = size.min(most as u64) as usize;
    let spare = Spare::for_size(alloc, memory, size)?;
    Ok(Room::Blocks(memory.boxed(alloc, spare)?))
}

/// What a write of so many bytes needs.
fn room_for_write(
    alloc: Global,
    memory: &mut Memory,
    in_blocks: bool,
    most: usize,
    off: u64,
    count: usize,
) -> Result<Room, AllocError>
    requires { IsTrue in_blocks → most < 2 ^ 63 }
    ensures ok { IfOk result (FitsChange in_blocks most (off + count) (FitsWrite off count)) }
    ensures granted { OnOk result (memory.new ≡ memory.old) }
    ensures refused { OnErr result (memory.new ≢ memory.old) }
{
    if in_blocks {
        return blocks_for_write(alloc, memory, most, off, count);
    }
    content(alloc, memory, most, off, count as u64)
}

/// What a change to this size needs.
fn room_for_size(
    alloc: Global,
    memory: &mut Memory,
    in_blocks: bool,
    most: usize,
    size: u64,
) -> Result<Room, AllocError>
    requires { IsTrue in_blocks → most < 2 ^ 63 }
    ensures ok { IfOk result (FitsChange in_blocks most size (FitsSize size)) }
    ensures granted { OnOk result (memory.new ≡ memory.old) }
    ensures refused { OnErr result (memory.new ≢ memory.old) }
{
    if in_blocks {
        return blocks_for_size(alloc, memory, most, size);
    }
    content(alloc, memory, most, 0, size)
}

/// Room for two times as many bytes as a read may answer.
fn copies(alloc: Global, memory: &mut Memory, most: usize, count: u64) -> Result<Room, AllocError>
    ensures ok { IfOk result (FitsCopies (min count most)) }
    ensures granted { OnOk result (memory.new ≡ memory.old) }
    ensures refused { OnErr result (memory.new ≢ memory.old) }
{
    let count = count.min(most as u64) as usize;
    let one = ByteRoom::new(alloc, memory, count)?;
    let other = ByteRoom::new(alloc, memory, count)?;
    Ok(Room::Copies(one, other))
}

/// The most names that a list of this count answers.
pub fn most_listed(count: u32) -> usize
    ensures { result ≡ min count LIST_LIMIT }
{
    count.min(LIST_LIMIT as u32) as usize
}

/// Room for two times so many names, of any length.
fn lists(alloc: Global, memory: &mut Memory, count: usize) -> Result<Room, AllocError>
    requires { count ≤ LIST_LIMIT }
    ensures ok { IfOk result (FitsLists count) }
    ensures granted { OnOk result (memory.new ≡ memory.old) }
    ensures refused { OnErr result (memory.new ≢ memory.old) }
{
    let one = NameRoom::for_names(alloc, memory, count)?;
    let other = NameRoom::for_names(alloc, memory, count)?;
    Ok(Room::Lists(one, other))
}

/// What a call needs that may give this name to an entry.
fn room_for_name(memory: &mut Memory, name: Option<&Name>) -> Result<Room, AllocError>
    ensures ok { IfOk result (FitsNew (option_copied name.entry)) }
    ensures granted { OnOk result (memory.new ≡ memory.old) }
    ensures refused { OnErr result (memory.new ≢ memory.old) }
{
    match name {
        Some(name) => Ok(Room::Name(name.owner(memory)?)),
        None => Ok(Room::Nothing),
    }
}

/// What the finish of a call on a node needs.
#[tactic(auto, using(fs_names::proofs::LimitLemmas::small_files))]
fn room_on(
    alloc: Global,
    memory: &mut Memory,
    in_blocks: bool,
    limits: Limits,
    call: NodeCall<'_>,
) -> Result<Room, AllocError>
    ensures ok { IfOk result (SufficesFor in_blocks (node_call limits call.entry)) }
    ensures granted { OnOk result (memory.new ≡ memory.old) }
    ensures refused { OnErr result (memory.new ≢ memory.old) }
{
    match call {
        NodeCall::Stat => Ok(Room::Nothing),
        NodeCall::Readdir => lists(alloc, memory, LIST_LIMIT),
        NodeCall::ListAfter(_, count) => lists(alloc, memory, most_listed(count)),
        NodeCall::Read(_, count) => copies(alloc, memory, limits.read(), count),
        NodeCall::Write(off, bytes) => room_for_write(
            alloc,
            memory,
            in_blocks,
            limits.file(),
            off,
            bytes.as_slice().len(),
        ),
        NodeCall::Truncate(size) => room_for_size(alloc, memory, in_blocks, limits.file(), size),
    }
}

/// What the finish of a call at this target needs.
fn room_at(
    alloc: Global,
    memory: &mut Memory,
    in_blocks: bool,
    limits: Limits,
    aim: Target<'_>,
) -> Result<Room, AllocError>
    ensures ok { IfOk result (Suffices in_blocks (form_of limits aim.entry)) }
    ensures granted { OnOk result (memory.new ≡ memory.old) }
    ensures refused { OnErr result (memory.new ≢ memory.old) }
{
    match aim {
        Target::Node(call, _) => room_on(alloc, memory, in_blocks, limits, call),
        Target::Entry(_, _) | Target::Pair(_, _, _) => room_for_name(memory, new_name(aim)),
    }
}

impl Room {
    /// What the finish of a call needs by these limits, in a store with files in blocks, or with each in one vector. The only error
    /// is out of memory, or that a long name has as many owners as are counted.
    pub fn new(
        alloc: Global,
        memory: &mut Memory,
        in_blocks: bool,
        limits: Limits,
        call: &Call,
    ) -> Result<Room, AllocError>
        ensures ok { IfOk result (Suffices in_blocks (form limits call.now)) }
        ensures granted { OnOk result (memory.new ≡ memory.old) }
        ensures refused { OnErr result (memory.new ≢ memory.old) }
    {
        room_at(alloc, memory, in_blocks, limits, call.target())
    }

    /// The name again, by what was taken for its copy.
    pub fn name_of(self, name: &Name) -> Name
        requires { FitsName name.now self }
        ensures { result ≡ name.now }
    {
        match self {
            Room::Name(owner) => name.copy_with(owner),
            _ => unreachable!(),
        }
    }
}
