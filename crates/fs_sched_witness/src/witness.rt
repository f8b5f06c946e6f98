//! Who gets the moments of a run.

ghost use Rattle.std.specs.Prelude.{◌∷◌, ◌++◌, [], List, OnOk};
ghost use Rattle.fs_sched_witness.specs.declared.moments.Moment.{Moment};

use crate::moments::Moment;
use fs_core::Core;
use std::alloc::AllocError;

/// Gets a run's moments, and how far a runner is. What a runner reads, writes and answers does not depend on it, but
/// for the memory that it asks for.
pub trait Witness {
    /// What it has become by these moments, by what it was first.
    ghost Told: { Self → Self → List Moment → Type 0 };

    /// A run begins, of a script with so many calls.
    fn begins(&mut self, calls: usize)
        ensures told { (first : Self) (ms : List Moment) → Told first self.old ms → Told first self.new ms };

    /// A moment came, and left the core so. An error ends the run, as running out of memory does.
    fn saw(&mut self, core: &Core, moment: Moment) -> Result<(), AllocError>
        ensures told { (first : Self) (before : List Moment) → Told first self.old before → OnOk result (Told first self.new (before ++ moment ∷ [])) };

    /// So many events more were done, idle turns among them. The timeline has so many entries now: three of each call that
    /// returned. Behind a checkpoint it begins again.
    fn went_on(&mut self, events: u64, entries: usize)
        ensures told { (first : Self) (ms : List Moment) → Told first self.old ms → Told first self.new ms };

    /// So many of several runs are done.
    fn has_run(&mut self, done: u64, runs: u64);
}

/// Nobody gets the moments.
#[derive(Clone, Copy, Debug)]
pub struct Silent;

impl Witness for Silent {
    ghost Told = { λ _ _ _. Unit {0} };

    #[inline(always)]
    fn begins(&mut self, _calls: usize) {}

    #[inline(always)]
    fn saw(&mut self, _core: &Core, _moment: Moment) -> Result<(), AllocError> {
        Ok(())
    }

    #[inline(always)]
    fn went_on(&mut self, _events: u64, _entries: usize) {}

    #[inline(always)]
    fn has_run(&mut self, _done: u64, _runs: u64) {}
}
