//! The timeline of a run, with places that are reserved for its next entries.

ghost use Rattle.std.specs.Prelude.{◌≡◌, ◌≢◌, ◌+◌, ◌-◌, ◌<◌, [], ◌∷◌, ◌++◌, ◌^◌, length, OnOk, OnErr};

use crate::entry::Entry;
use fs_memory::Memory;
use std::alloc::{AllocError, Global};
use std::marker::Model;

/// Entries in the order in which they came, and reserved places for the next ones.
#[derive(Drop)]
pub struct Timeline {
    list: Vec<Entry>,
    places: usize,
}

impl Model for Timeline {
    ghost use Rattle.std.specs.Prelude.{◌+◌, ◌≤◌, vec_len, vec_capacity};
    ghost use Rattle.fs_timeline.specs.Timeline.{TimelineValue};

    ghost Value = { TimelineValue };

    ghost view = { λ t. record { entries = t.list.items; reserved = t.places } };

    ghost invariant = { λ t. vec_len t.list + t.places ≤ vec_capacity t.list };
}

impl Timeline {
    /// No entries, and no reserved places.
    pub fn new(alloc: Global) -> Self
        ensures { result ≡ record { entries = []; reserved = 0 } }
    {
        Timeline {
            list: Vec::new(alloc),
            places: 0,
        }
    }

    /// Reserves this many places beside those that are reserved already. Out of memory nothing changes.
    /// More than a vector can have are out of memory too: where they are reserved, entries and places are fewer than 2^63.
    pub fn make_places(&mut self, count: usize) -> Result<(), AllocError>
        ensures ok { OnOk result (self.new ≡ record self.old { reserved = self.old.reserved + count }) }
        ensures few { OnOk result (length self.new.entries + self.new.reserved < 2 ^ 63) }
        ensures err { OnErr result (self.new ≡ self.old) }
    {
        self.make_places_counted(&mut Memory::new(), count)
    }

    /// The same, and a refusal is counted.
    pub fn make_places_counted(
        &mut self,
        memory: &mut Memory,
        count: usize,
    ) -> Result<(), AllocError>
        ensures ok { OnOk result (self.new ≡ record self.old { reserved = self.old.reserved + count }) }
        ensures few { OnOk result (length self.new.entries + self.new.reserved < 2 ^ 63) }
        ensures err { OnErr result (self.new ≡ self.old) }
        ensures granted { OnOk result (memory.new ≡ memory.old) }
        ensures refused { OnErr result (memory.new ≢ memory.old) }
    {
        // A sum that saturates is more than a vector can have, which refuses it.
        let places = self.places.saturating_add(count);
        memory.reserve(&mut self.list, places)?;
        self.places = places;
        Ok(())
    }

    /// Makes room for this many entries more in one request, where there is memory for it: a hint, by which no place is
    /// reserved and no entry changes.
    pub fn make_room(&mut self, count: usize)
        ensures { self.new ≡ self.old }
    {
        let _room = self.list.reserve(self.places.saturating_add(count));
    }

    /// Appends an entry in a reserved place, which takes no memory.
    pub fn push(&mut self, entry: Entry)
        requires { 0 < self.old.reserved }
        ensures { self.new ≡ record {
          entries = self.old.entries ++ entry ∷ [];
          reserved = self.old.reserved - 1;
        } }
    {
        self.places -= 1;
        self.list.push_reserved(entry);
    }

    /// The entries so far.
    pub fn entries(&self) -> &[Entry]
        ensures { result.now ≡ self.now.entries }
    {
        self.list.as_slice()
    }

    /// The entries alone, handed out. It takes no memory.
    pub fn into_entries(self) -> Vec<Entry>
        ensures { result.items ≡ self.entries }
    {
        self.list
    }
}
