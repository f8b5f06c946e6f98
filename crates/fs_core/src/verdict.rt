//! The verdict on what has happened, by the checker of journals, without a text.

ghost use Rattle.std.specs.Prelude.{◌≡◌, IfOk};
ghost use Rattle.fs_timeline.specs.Verdicts.{verdict};

use crate::engine::Core;
use fs_journal::check_from;
use fs_timeline::Verdict;
use std::alloc::{AllocError, Global};

impl Core {
    /// The verdict on the entries as they are, from the tree at which the timeline begins. The checker goes over them
    /// once, and plays their commits on a copy of that tree. Calls may be pending. By the theorem the answer is
    /// `Lawful`. A caller gets it here from code that shares nothing with the code that made the entries. The only
    /// error is out of memory.
    pub fn verdict(&self, alloc: Global) -> Result<Verdict, AllocError>
        ensures verdict { IfOk result (λ v. v ≡ verdict self.now.start self.now.timeline) }
        ensures lawful { IfOk result (λ v. v ≡ Verdict.Lawful) }
    {
        self.told();
        check_from(alloc, self.start(), self.timeline())
    }
}
