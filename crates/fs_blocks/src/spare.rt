//! What a change of a file in blocks may use.

ghost use Rattle.std.specs.Prelude.{◌≡◌, ◌≢◌, ◌<◌, ◌+◌, ◌^◌, [], IfOk, OnOk, OnErr, is_some, vec_capacity};
ghost use Rattle.fs_blocks.specs.Spares.{parts_of, FitsWrite, FitsSize};

use crate::block::{Block, Buffers};
use crate::chunk::{Chunk, ChunkRooms};
use crate::long::Long;
use crate::rooms::Rooms;
use crate::sizes::{BLOCK, SPAN};
use fs_memory::Memory;
use std::alloc::{AllocError, Global};
use std::marker::Model;

/// What a change of a file in blocks may use, so that it takes no memory: a buffer for each block that it touches, a vector
/// for each chunk, a list of all chunks up to its end, and what a short file needs to become a long one.
#[derive(Drop)]
pub struct Spare {
    buffers: Buffers,
    rooms: ChunkRooms,
    list: Vec<Chunk>,
    long: Option<Box<Long>>,
}

impl Model for Spare {
    ghost use Rattle.std.specs.Prelude.{◌≡◌, [], is_some, vec_capacity};
    ghost use Rattle.fs_blocks.specs.Spares.{SpareValue};

    ghost Value = { SpareValue };

    ghost view = { λ s. record { blocks = s.buffers; chunks = s.rooms; list = vec_capacity s.list; grows = is_some s.long } };

    ghost invariant = { λ s. s.list.items ≡ [] };
}

/// How many parts of this size hold so many bytes from a place on.
fn parts_of(size: usize, place: usize, count: usize) -> usize
    requires size { 0 < size }
    requires fits { size + count < 2 ^ 64 }
    ensures { result ≡ parts_of size place count }
{
    if count == 0 {
        return 0;
    }
    (place % size + (count - 1)) / size + 1
}

/// What a short file needs to become a long one, if it may.
fn long_room(
    alloc: Global,
    memory: &mut Memory,
    grows: bool,
) -> Result<Option<Box<Long>>, AllocError>
    ensures ok { IfOk result (λ long. is_some long ≡ grows) }
    ensures granted { OnOk result (memory.new ≡ memory.old) }
    ensures refused { OnErr result (memory.new ≢ memory.old) }
{
    if !grows {
        return Ok(None);
    }
    let long = memory.boxed(alloc, Long::of(alloc, Block::hole()))?;
    Ok(Some(long))
}

impl Spare {
    /// What a write of so many bytes at an offset may use. The only error is out of memory.
    pub fn for_write(
        alloc: Global,
        memory: &mut Memory,
        off: usize,
        count: usize,
    ) -> Result<Spare, AllocError>
        requires { off + count < 2 ^ 63 }
        ensures ok { IfOk result (FitsWrite off count) }
        ensures granted { OnOk result (memory.new ≡ memory.old) }
        ensures refused { OnErr result (memory.new ≢ memory.old) }
    {
        let end = off + count;
        let at = off.saturating_sub(BLOCK);
        let behind = end.saturating_sub(BLOCK);
        let buffers = Rooms::new(alloc, memory, parts_of(BLOCK, off, count))?;
        let rooms = Rooms::new(alloc, memory, parts_of(SPAN, at, behind - at))?;
        let list = memory.with_room(alloc, (behind + (SPAN - 1)) / SPAN)?;
        let long = long_room(alloc, memory, BLOCK < end)?;
        Ok(Spare {
            buffers,
            rooms,
            list,
            long,
        })
    }

    /// What a change to this size may use. The only error is out of memory.
    pub fn for_size(alloc: Global, memory: &mut Memory, size: usize) -> Result<Spare, AllocError>
        ensures ok { IfOk result (FitsSize size) }
        ensures granted { OnOk result (memory.new ≡ memory.old) }
        ensures refused { OnErr result (memory.new ≢ memory.old) }
    {
        let buffers = Rooms::new(alloc, memory, 1)?;
        let rooms = Rooms::new(alloc, memory, 0)?;
        let long = long_room(alloc, memory, BLOCK < size)?;
        Ok(Spare {
            buffers,
            rooms,
            list: Vec::new(alloc),
            long,
        })
    }

    /// All that it has.
    pub(crate) fn into_parts(self) -> (Buffers, ChunkRooms, Vec<Chunk>, Option<Box<Long>>)
        ensures buffers { result.0 ≡ self.blocks }
        ensures rooms { result.1 ≡ self.chunks }
        ensures empty { result.2.items ≡ [] }
        ensures list { vec_capacity result.2 ≡ self.list }
        ensures long { is_some result.3 ≡ self.grows }
    {
        let Spare {
            buffers,
            rooms,
            list,
            long,
        } = self;
        (buffers, rooms, list, long)
    }
}
