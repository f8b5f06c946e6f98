//! Why a run from a tree ended without its whole text written.

ghost use Rattle.std.specs.Prelude.{◌≡◌};
ghost use Rattle.fs_sched_start.specs.Faults.{status_of_start, tree_fault_of};

use fs_sched::RunFault;
use fs_script::{FaultKind, ScriptFault};
use thiserror::Error;

/// Why a run from a tree ended without its whole text written. After a failed write a beginning of the text was written, and
/// after the others nothing.
#[derive(Clone, Copy, Debug, PartialEq, Eq, Error)]
pub enum StartFault {
    /// The script, a device, memory or node numbers, as of a run from the root alone.
    #[error("{0}")]
    Run(RunFault),
    /// The text of the tree has none by the script's limits: its first fault from the left, or `TooLarge` where a node is too many.
    #[error("{0}")]
    Tree(ScriptFault),
}

impl StartFault {
    /// The status of a program that this fault ended: 3 for a tree that is none, else that of the run.
    pub fn status(&self) -> u8
        ensures { result ≡ status_of_start self.now }
    {
        match self {
            StartFault::Run(fault) => fault.status(),
            StartFault::Tree(_) => 3,
        }
    }
}

impl From<RunFault> for StartFault {
    ghost use Rattle.fs_sched_start.specs.declared.fault.StartFault.TheVariants.{Run};

    ghost from_gives = { λ run fault. fault ≡ Run run };

    fn from(fault: RunFault) -> StartFault {
        StartFault::Run(fault)
    }
}

/// The fault of a run at whose tree's text this fault is. A text that is too long is told so at its first line.
pub(crate) fn tree_fault(fault: ScriptFault) -> StartFault
    ensures { result ≡ tree_fault_of fault }
{
    match fault.kind {
        FaultKind::OutOfMemory => StartFault::Run(RunFault::OutOfMemory),
        _ => StartFault::Tree(ScriptFault {
            line: fault.line.max(1),
            kind: fault.kind,
        }),
    }
}
