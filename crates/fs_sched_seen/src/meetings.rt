//! Which calls met: both were pending at once.

ghost use Rattle.std.specs.Prelude.{◌≡◌, ◌<◌, ◌≤◌, ◌&&◌, ◌||◌, ℕ, true, false, [], List, length, OnOk};
ghost use Rattle.std.specs.List.{count_by};
ghost use Rattle.fs_calls.specs.declared.call.Call.{Call};
ghost use Rattle.fs_timeline.specs.declared.entry.Entry.{Entry};
ghost use Rattle.fs_sched_seen.specs.Calls.{places_of};
ghost use Rattle.fs_sched_seen.specs.Meetings.{are_pending, count_pairs, is_pair, pairs_in};
ghost use Rattle.fs_sched_seen.specs.code.Heards.{IsHeard};
ghost use Rattle.fs_sched_seen.specs.code.Meetings.{both_on, beside, begins_at, has_met, same_place, HaveMet, IsOf};

use crate::heard::Heard;
use crate::places::Place;
use fs_timeline::Entry;
use indexmap::IndexSet;
use std::alloc::{AllocError, Global};

/// The most calls of a script whose pairs are counted.
pub const PAIRED_LIMIT: usize = 1_000;

/// Of pairs of calls of two threads, for how many both calls were pending at once in some run, and how many there are.
#[derive(Clone, Copy, Debug, PartialEq, Eq)]
pub struct Pairs {
    pub met: u64,
    pub all: u64,
}

/// The pairs of calls that met, of which the second is of a later thread. None is noted if the script has more calls than the limit.
#[derive(Drop)]
pub struct Meetings {
    threads: usize,
    met: IndexSet<(Place, Place)>,
}

impl Meetings {
    /// Before the first run of a script with these calls and so many threads.
    pub fn new(alloc: Global, places: &[Place], threads: usize) -> Meetings
        ensures none { HaveMet result [] }
        ensures threads { (lists : List (List Call)) → places.now ≡ places_of lists → threads ≡ length lists → IsOf result lists }
    {
        Meetings {
            threads: if places.len() > PAIRED_LIMIT {
                0
            } else {
                threads
            },
            met: IndexSet::new(alloc),
        }
    }

    /// Notes that two calls met.
    fn insert(&mut self, first: Place, second: Place) -> Result<(), AllocError>
        ensures met { OnOk result ((p q : Place) → has_met self.new p q ≡ (has_met self.old p q || (same_place p first && same_place q second))) }
        ensures threads { self.new.threads ≡ self.old.threads }
    {
        match self.met.insert_full((first, second)) {
            Ok(_) => Ok(()),
            Err(_) => Err(AllocError),
        }
    }

    /// Notes the calls that two threads have pending, if the second thread is the later one.
    fn note_both(&mut self, heard: &Heard, first: usize, second: usize) -> Result<(), AllocError>
        ensures met { (es : List Entry) → IsHeard heard.now es → OnOk result ((p q : Place) → has_met self.new p q ≡ (has_met self.old p q || both_on es first second p q)) }
        ensures threads { self.new.threads ≡ self.old.threads }
    {
        if first >= second {
            return Ok(());
        }
        match (heard.pending_on(first), heard.pending_on(second)) {
            (Some(first), Some(second)) => self.insert(first, second),
            _ => Ok(()),
        }
    }

    /// Notes the calls that are pending beside that of a thread.
    fn note_beside(&mut self, heard: &Heard, seat: usize) -> Result<(), AllocError>
        ensures met { (es : List Entry) → IsHeard heard.now es → OnOk result ((p q : Place) → p.seat < q.seat → q.seat < self.old.threads
            → has_met self.new p q ≡ (has_met self.old p q || (beside seat p q && are_pending es p q))) }
        ensures threads { self.new.threads ≡ self.old.threads }
    {
        for other in 0..self.threads {
            self.note_both(heard, seat, other)?;
            self.note_both(heard, other, seat)?;
        }
        Ok(())
    }

    /// Notes the calls that are pending beside the one that an entry begins.
    pub(crate) fn note(&mut self, heard: &Heard, entry: &Entry) -> Result<(), AllocError>
        ensures met { (es : List Entry) → IsHeard heard.now es → OnOk result ((p q : Place) → p.seat < q.seat → q.seat < self.old.threads
            → has_met self.new p q ≡ (has_met self.old p q || (begins_at entry.now p q && are_pending es p q))) }
        ensures threads { self.new.threads ≡ self.old.threads }
    {
        match entry {
            Entry::Begin(_, seat, _) => self.note_beside(heard, seat.get() as usize),
            _ => Ok(()),
        }
    }

    /// Whether it is noted that two calls met.
    fn has(&self, first: Place, second: Place) -> bool
        ensures { result ≡ has_met self.now first second }
    {
        self.met.contains(&(first, second))
    }

    /// The pairs of a call and one of a later thread.
    fn pairs_of(&self, first: Place, places: &[Place]) -> Pairs
        requires few { length places.now ≤ PAIRED_LIMIT }
        ensures met { result.met ≡ count_by (is_pair (has_met self.now) first) places.now }
        ensures all { result.all ≡ count_by (is_pair (λ p q. true) first) places.now }
    {
        let mut pairs = Pairs { met: 0, all: 0 };
        for second in places {
            if first.seat < second.seat {
                pairs.all += 1;
                if self.has(first, *second) {
                    pairs.met += 1;
                }
            }
        }
        pairs
    }

    /// The pairs of all calls.
    fn all_pairs(&self, places: &[Place]) -> Pairs
        requires few { length places.now ≤ PAIRED_LIMIT }
        ensures met { result.met ≡ count_pairs (has_met self.now) places.now }
        ensures all { result.all ≡ count_pairs (λ p q. true) places.now }
    {
        let mut all = Pairs { met: 0, all: 0 };
        for first in places {
            let pairs = self.pairs_of(*first, places);
            all.met += pairs.met;
            all.all += pairs.all;
        }
        all
    }

    /// For how many pairs of the calls of a script both were pending at once in some run, and how many pairs there are. If the script has
    /// more calls than the limit, they are not counted.
    pub fn pairs(&self, places: &[Place]) -> Option<Pairs>
        ensures { (lists : List (List Call)) (timelines : List (List Entry)) → places.now ≡ places_of lists → IsOf self.now lists → HaveMet self.now timelines
            → result ≡ pairs_in lists timelines }
    {
        if places.len() > PAIRED_LIMIT {
            return None;
        }
        Some(self.all_pairs(places))
    }
}
