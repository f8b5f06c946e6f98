//! The timeline with its index.

ghost use Rattle.std.specs.Prelude.{◌≡◌, ◌≢◌, ◌+◌, ◌-◌, ◌<◌, [], ◌∷◌, ◌++◌, ◌^◌, Some, OnOk, OnErr, length, slice_get};
ghost use Rattle.fs_timeline.specs.Timeline.{commits};
ghost use Rattle.fs_timeline.specs.Index.{Fits, place_of};

use crate::entry::Entry;
use crate::timeline::Timeline;
use fs_calls::Call;
use fs_memory::Memory;
use fs_names::CallNo;
use std::alloc::{AllocError, Global};
use std::marker::Model;

/// A timeline, and by call numbers and by commits where the Begins and the Commits are in it.
#[derive(Drop)]
pub struct IndexedTimeline {
    timeline: Timeline,
    // Of the call with each number from 1 on: where its Begin stands, and how many commits stand before its own.
    begun: Vec<usize>,
    places: Vec<Option<usize>>,
    // Of each commit: where the Begin of its call stands.
    order: Vec<usize>,
    reserved: usize,
}

impl Model for IndexedTimeline {
    ghost use Rattle.std.specs.Prelude.{◌≡◌, ◌+◌, ◌≤◌, vec_len, vec_capacity};
    ghost use Rattle.fs_timeline.specs.Timeline.{TimelineValue};
    ghost use Rattle.fs_timeline.specs.code.Indexed.{IsIndex};

    ghost Value = { TimelineValue };

    ghost view = { λ t. t.timeline };

    ghost invariant = { λ t. (t.reserved ≡ t.timeline.reserved)
        × (vec_len t.begun + t.reserved ≤ vec_capacity t.begun)
        × (vec_len t.places + t.reserved ≤ vec_capacity t.places)
        × (vec_len t.order + t.reserved ≤ vec_capacity t.order)
        × IsIndex t.timeline.entries t.begun.items t.places.items t.order.items };
}

fn set(place: &mut Option<usize>, commits: usize)
    ensures { place.new ≡ Some commits }
{
    *place = Some(commits);
}

impl IndexedTimeline {
    /// No entries, and no reserved places.
    pub fn new(alloc: Global) -> Self
        ensures { result ≡ record { entries = []; reserved = 0 } }
    {
        IndexedTimeline {
            timeline: Timeline::new(alloc),
            begun: Vec::new(alloc),
            places: Vec::new(alloc),
            order: Vec::new(alloc),
            reserved: 0,
        }
    }

    /// Reserves this many places beside those that are reserved already. Out of memory nothing changes.
    /// More than a vector can have are out of memory too: where they are reserved, entries and places are fewer than 2^63.
    pub fn make_places(&mut self, memory: &mut Memory, count: usize) -> Result<(), AllocError>
        ensures ok { OnOk result (self.new ≡ record self.old { reserved = self.old.reserved + count }) }
        ensures few { OnOk result (length self.new.entries + self.new.reserved < 2 ^ 63) }
        ensures err { OnErr result (self.new ≡ self.old) }
        ensures granted { OnOk result (memory.new ≡ memory.old) }
        ensures refused { OnErr result (memory.new ≢ memory.old) }
    {
        // A sum that saturates is more than a vector can have, which refuses it.
        let places = self.reserved.saturating_add(count);
        memory.reserve(&mut self.begun, places)?;
        memory.reserve(&mut self.places, places)?;
        memory.reserve(&mut self.order, places)?;
        self.timeline.make_places_counted(memory, count)?;
        self.reserved = places;
        Ok(())
    }

    /// Makes room at once for the entries of so many calls more, of which so many are pending at a time, if there is
    /// memory for it. This is a hint: no place is reserved and no entry changes.
    pub fn make_room(&mut self, calls: usize, under_way: usize)
        ensures { self.new ≡ self.old }
    {
        // A call that begins reserves three places in each of these, of which it fills one.
        let room = calls.saturating_add(under_way.saturating_mul(3));
        let room = room.saturating_add(self.reserved);
        let _begun = self.begun.reserve(room);
        let _places = self.places.reserve(room);
        let _order = self.order.reserve(room);
        self.timeline.make_room(calls.saturating_mul(3));
    }

    /// Appends an entry in a reserved place, which takes no memory.
    #[inline(always)]
    pub fn push(&mut self, entry: Entry)
        requires place { 0 < self.old.reserved }
        requires fits { Fits self.old.entries entry }
        ensures { self.new ≡ record {
          entries = self.old.entries ++ entry ∷ [];
          reserved = self.old.reserved - 1;
        } }
    {
        match entry {
            Entry::Begin(number, seat, call) => {
                self.begun.push_reserved(self.timeline.entries().len());
                self.places.push_reserved(None);
                self.reserved -= 1;
                self.timeline.push(Entry::Begin(number, seat, call));
            }
            Entry::Commit(call) => {
                let at = (call.get() - 1) as usize;
                set(&mut self.places[at], self.order.len());
                self.order.push_reserved(self.begun[at]);
                self.reserved -= 1;
                self.timeline.push(Entry::Commit(call));
            }
            Entry::Return(call, reply) => {
                self.reserved -= 1;
                self.timeline.push(Entry::Return(call, reply));
            }
        }
    }

    /// The entries so far.
    pub fn entries(&self) -> &[Entry]
        ensures { result.now ≡ self.now.entries }
    {
        self.timeline.entries()
    }

    /// How many calls have committed.
    pub fn commits(&self) -> usize
        ensures { result ≡ length (commits self.now.entries) }
    {
        self.order.len()
    }

    /// The call that committed after so many others.
    pub fn committed(&self, i: usize) -> &Call
        requires { i < length (commits self.now.entries) }
        ensures { slice_get (commits self.now.entries) i ≡ Some result.now }
    {
        match &self.timeline.entries()[self.order[i]] {
            Entry::Begin(_, _, call) => call,
            _ => unreachable!(),
        }
    }

    /// How many commits come before that of the call of this number; none if it has not committed.
    pub fn place_of(&self, call: CallNo) -> Option<usize>
        ensures { result ≡ place_of call self.now.entries }
    {
        match call.get().checked_sub(1) {
            Some(at) => self.places.get(at as usize).copied().flatten(),
            None => None,
        }
    }

    /// The timeline alone. It takes no memory.
    pub fn into_timeline(self) -> Timeline
        ensures { result ≡ self }
    {
        self.timeline
    }
}
