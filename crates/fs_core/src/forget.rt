//! The checkpoint of which nothing is handed out.

ghost use Rattle.std.specs.Prelude.{◌≡◌, ◌≢◌, [], IfOk, OnOk, IfErr, OnErr, Err, length};
ghost use Rattle.fs_timeline.specs.Timeline.{commits};
ghost use Rattle.fs_machine.specs.States.{begun_again};
ghost use Rattle.fs_core.specs.CoreValues.{state_of, IsAtRest};
ghost use Rattle.fs_core.specs.Checkpoints.{IsWhyNot};

use crate::checkpoint::NoCheckpoint;
use crate::engine::Core;
use std::alloc::Global;

impl Core {
    /// The timeline begins again as at a checkpoint, and its entries are dropped where they are, so that no copy of them is made.
    /// How many calls they were of: each had committed and returned. If there are no entries, it takes no memory, and `OutOfMemory`
    /// never comes.
    pub fn forget(&mut self, alloc: Global) -> Result<u64, NoCheckpoint>
        ensures rest { OnOk result (IsAtRest self.old) }
        ensures state { OnOk result (state_of self.new ≡ begun_again (state_of self.old)) }
        ensures calls { IfOk result (λ calls. calls ≡ length (commits self.old.timeline)) }
        ensures seats { OnOk result (self.new.seats ≡ self.old.seats) }
        ensures refusals { OnOk result (self.new.refusals ≡ self.old.refusals) }
        ensures why { IfErr result (IsWhyNot self.old) }
        ensures empty { self.old.timeline ≡ [] → result ≢ Err NoCheckpoint.OutOfMemory }
        ensures err { OnErr result (self.new ≡ self.old) }
    {
        let calls = self.commits() as u64;
        let entries = self.checkpoint(alloc)?;
        drop(entries);
        Ok(calls)
    }
}
