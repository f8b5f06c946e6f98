//! Why nothing more is tried, and why a script was not shrunk.

ghost use Rattle.std.specs.Prelude.{◌≡◌};
ghost use Rattle.fs_script.specs.declared.script.Script.{Script};
ghost use Rattle.fs_sched.specs.declared.origin.Origin.{Origin};
ghost use Rattle.fs_sched_shrink.specs.code.Mades.{IsUnshrunk};

use fs_sched::RunFault;
use std::alloc::AllocError;

/// Why nothing more is tried.
#[derive(Clone, Copy, Debug, PartialEq, Eq)]
pub(crate) enum NoRoom {
    /// An allocation failed.
    OutOfMemory,
    /// The text of what stays is longer than a text may be by its limits.
    TooLong,
}

impl From<AllocError> for NoRoom {
    ghost use Rattle.fs_sched_shrink.specs.declared.room.NoRoom.TheVariants.{OutOfMemory};

    ghost from_gives = { λ _ fault. fault ≡ OutOfMemory };

    fn from(_error: AllocError) -> NoRoom {
        NoRoom::OutOfMemory
    }
}

/// Why a script was not shrunk.
#[derive(Clone, Copy, Debug, PartialEq, Eq)]
pub(crate) enum Unshrunk {
    /// The script has no run by its own words, or an allocation failed.
    Run(RunFault),
    /// The text of what stays is longer than a text may be by its limits.
    TooLong,
}

impl NoRoom {
    /// The same as why a script was not shrunk.
    pub(crate) fn unshrunk(self) -> Unshrunk
        ensures { (from : Origin) (script : Script) → IsUnshrunk from script result }
    {
        match self {
            NoRoom::OutOfMemory => Unshrunk::Run(RunFault::OutOfMemory),
            NoRoom::TooLong => Unshrunk::TooLong,
        }
    }
}
