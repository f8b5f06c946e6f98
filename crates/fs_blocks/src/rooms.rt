//! Vectors that are ready for what a call may change.

ghost use Rattle.std.specs.Prelude.{◌≡◌, ◌≢◌, ◌≤◌, ◌<◌, ◌+◌, [], IfOk, OnOk, OnErr, vec_capacity};

use fs_memory::Memory;
use std::alloc::{AllocError, Global};
use std::marker::Model;

/// Empty vectors that have room for so many items each, seen as how many vectors they are.
#[derive(Drop)]
pub struct Rooms<T: Drop, const SIZE: usize> {
    vectors: Vec<Vec<T>>,
}

impl<T: Drop, const SIZE: usize> Model for Rooms<T, SIZE> {
    ghost use Rattle.std.specs.Prelude.{ℕ, length};
    ghost use Rattle.std.specs.List.{All};
    ghost use Rattle.fs_blocks.specs.code.Rooms.{IsRoom};

    ghost Value = { ℕ };

    ghost view = { λ r. length r.vectors.items };

    ghost invariant = { λ r. All (IsRoom SIZE) r.vectors.items };
}

impl<T: Drop, const SIZE: usize> Rooms<T, SIZE> {
    /// So many vectors. The only error is out of memory.
    pub fn new(
        alloc: Global,
        memory: &mut Memory,
        count: usize,
    ) -> Result<Rooms<T, SIZE>, AllocError>
        ensures ok { IfOk result (λ rooms. rooms ≡ count) }
        ensures granted { OnOk result (memory.new ≡ memory.old) }
        ensures refused { OnErr result (memory.new ≢ memory.old) }
    {
        let mut vectors = memory.with_room(alloc, count)?;
        for _ in 0..count {
            vectors.push_reserved(memory.with_room(alloc, SIZE)?);
        }
        Ok(Rooms { vectors })
    }

    /// One of them.
    pub fn take(&mut self) -> Vec<T>
        requires { 0 < self.old }
        ensures empty { result.items ≡ [] }
        ensures room { SIZE ≤ vec_capacity result }
        ensures left { self.new + 1 ≡ self.old }
    {
        self.vectors.pop().unwrap()
    }

    /// Gives a vector the room of one of them, if it has not as much: its items are moved there.
    pub fn make_room(&mut self, items: &mut Vec<T>)
        requires { 0 < self.old }
        ensures items { items.new.items ≡ items.old.items }
        ensures room { SIZE ≤ vec_capacity items.new }
        ensures left { self.old ≤ self.new + 1 }
    {
        if SIZE <= items.capacity() {
            return;
        }
        let mut room = self.take();
        let _room_was_made = room.append(items);
        *items = room;
    }
}
