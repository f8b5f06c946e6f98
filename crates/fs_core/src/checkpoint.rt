//! The checkpoint: the timeline begins again at the tree that its commits play, and its entries are handed out.

ghost use Rattle.std.specs.Prelude.{◌≡◌, ◌≢◌, [], IfOk, IfErr, OnOk, OnErr, Err};
ghost use Rattle.fs_calls.specs.Outcomes.{next_start};
ghost use Rattle.fs_seq.specs.Rows.{IsWithinLimits};
ghost use Rattle.fs_timeline.specs.Timeline.{commits};
ghost use Rattle.fs_machine.specs.States.{begun_again};
ghost use Rattle.fs_core.specs.CoreValues.{state_of, IsAtRest};
ghost use Rattle.fs_core.specs.Checkpoints.{IsWhyNot};
ghost use Rattle.fs_core.specs.code.Leasts.{IsLeast, lesser};

use crate::engine::Core;
use crate::start_tree::play;
use fs_memory::Memory;
use fs_names::{CallNo, SeatNo};
use fs_seq::SeqTree;
use fs_timeline::Entry;
use std::alloc::{AllocError, Global};

/// Why there was no checkpoint. Nothing has changed by it.
#[derive(Clone, Copy, Debug, PartialEq, Eq)]
pub enum NoCheckpoint {
    /// Some calls are pending: the least of their numbers.
    UnderWay(CallNo),
    /// There is no memory for the tree at which the timeline would begin again.
    OutOfMemory,
}

/// The lesser of two numbers, or the one that is there.
fn lesser(one: Option<CallNo>, other: Option<CallNo>) -> Option<CallNo>
    ensures { result ≡ lesser one other }
{
    match (one, other) {
        (Some(least), Some(call)) if call.get() < least.get() => other,
        (Some(_), _) => one,
        (None, _) => other,
    }
}

impl Core {
    /// The least number of the pending calls.
    fn least_under_way(&self) -> Option<CallNo>
        ensures { IsLeast self.now result }
    {
        let listed = self.first_seats();
        let mut least = None;
        for i in 0..listed.len() {
            least = lesser(least, self.under_way(SeatNo::new(listed[i] as u64)));
        }
        least
    }

    /// Succeeds if no call is pending. The error is the least number of a pending call.
    fn at_rest(&self) -> Result<(), NoCheckpoint>
        ensures rest { OnOk result (IsAtRest self.now) }
        ensures why { IfErr result (IsWhyNot self.now) }
        ensures asks { result ≢ Err NoCheckpoint.OutOfMemory }
    {
        match self.least_under_way() {
            Some(call) => Err(NoCheckpoint::UnderWay(call)),
            None => Ok(()),
        }
    }

    /// The tree that the timeline's commits play. The only error is out of memory.
    fn played(&self, alloc: Global, memory: &mut Memory) -> Result<SeqTree, AllocError>
        ensures tree { IfOk result (λ tree. tree ≡ next_start self.now.start (commits self.now.timeline)) }
        ensures granted { OnOk result (memory.new ≡ memory.old) }
        ensures refused { OnErr result (memory.new ≢ memory.old) }
    {
        let mut tree = self.start().copy_counted(memory)?;
        play(alloc, memory, &mut tree, self.index())?;
        Ok(tree)
    }

    /// The tree at which the timeline would begin again. It is all for which a checkpoint takes memory, and a second
    /// core can begin at it (`Core::from_tree`). `UnderWay` comes exactly if a call is pending, and is looked for
    /// first.
    pub fn prepare(&self, alloc: Global) -> Result<SeqTree, NoCheckpoint>
        ensures rest { OnOk result (IsAtRest self.now) }
        ensures tree { IfOk result (λ tree. tree ≡ next_start self.now.start (commits self.now.timeline)) }
        ensures within { IfOk result (λ tree. IsWithinLimits tree.limits tree.tree) }
        ensures why { IfErr result (IsWhyNot self.now) }
    {
        self.prepare_counted(alloc, &mut Memory::new())
    }

    /// The same. `OutOfMemory` comes exactly where memory was refused, which is counted.
    pub fn prepare_counted(
        &self,
        alloc: Global,
        memory: &mut Memory,
    ) -> Result<SeqTree, NoCheckpoint>
        ensures rest { OnOk result (IsAtRest self.now) }
        ensures tree { IfOk result (λ tree. tree ≡ next_start self.now.start (commits self.now.timeline)) }
        ensures within { IfOk result (λ tree. IsWithinLimits tree.limits tree.tree) }
        ensures why { IfErr result (IsWhyNot self.now) }
        ensures granted { result ≢ Err NoCheckpoint.OutOfMemory → memory.new ≡ memory.old }
        ensures refused { result ≡ Err NoCheckpoint.OutOfMemory → memory.new ≢ memory.old }
    {
        self.at_rest()?;
        self.told();
        self.played(alloc, memory)
            .map_err(|_| NoCheckpoint::OutOfMemory)
    }

    /// Hands out the entries so far, and the timeline begins again at the tree that its commits played. Call numbers
    /// begin at 1 again; nodes and seats stay. `UnderWay` comes exactly if a call is pending, and is looked for first.
    /// If there are no entries, it takes no memory, and `OutOfMemory` never comes.
    pub fn checkpoint(&mut self, alloc: Global) -> Result<Vec<Entry>, NoCheckpoint>
        ensures rest { OnOk result (IsAtRest self.old) }
        ensures refusals { self.new.refusals ≡ self.old.refusals }
        ensures state { OnOk result (state_of self.new ≡ begun_again (state_of self.old)) }
        ensures entries { IfOk result (λ entries. entries.items ≡ self.old.timeline) }
        ensures seats { OnOk result (self.new.seats ≡ self.old.seats) }
        ensures why { IfErr result (IsWhyNot self.old) }
        ensures empty { self.old.timeline ≡ [] → result ≢ Err NoCheckpoint.OutOfMemory }
        ensures err { OnErr result (self.new ≡ self.old) }
    {
        self.checkpoint_counted(alloc, &mut Memory::new())
    }

    /// The same. `OutOfMemory` comes exactly where memory was refused, which is counted.
    pub fn checkpoint_counted(
        &mut self,
        alloc: Global,
        memory: &mut Memory,
    ) -> Result<Vec<Entry>, NoCheckpoint>
        ensures rest { OnOk result (IsAtRest self.old) }
        ensures refusals { self.new.refusals ≡ self.old.refusals }
        ensures state { OnOk result (state_of self.new ≡ begun_again (state_of self.old)) }
        ensures entries { IfOk result (λ entries. entries.items ≡ self.old.timeline) }
        ensures seats { OnOk result (self.new.seats ≡ self.old.seats) }
        ensures why { IfErr result (IsWhyNot self.old) }
        ensures empty { self.old.timeline ≡ [] → result ≢ Err NoCheckpoint.OutOfMemory }
        ensures err { OnErr result (self.new ≡ self.old) }
        ensures granted { result ≢ Err NoCheckpoint.OutOfMemory → memory.new ≡ memory.old }
        ensures refused { result ≡ Err NoCheckpoint.OutOfMemory → memory.new ≢ memory.old }
    {
        self.at_rest()?;
        if self.timeline().is_empty() {
            self.told();
            return Ok(Vec::new(alloc));
        }
        let told = self
            .play_again(alloc, memory)
            .map_err(|_| NoCheckpoint::OutOfMemory)?;
        Ok(told.into_entries())
    }
}
