//! Why a run ended without its whole text written.

ghost use Rattle.std.specs.Prelude.{◌≡◌};
ghost use Rattle.fs_verdict.specs.Faults.{run_fault_of, IsBetween, status_of_fault};

use crate::failure::Failure;
use fs_names::CallNo;
use fs_text::{FaultKind, ScriptFault};
use thiserror::Error;

/// Why a run ended without its whole text written. After `Write` a beginning of the text was written, and after the
/// others nothing.
#[derive(Clone, Copy, Debug, PartialEq, Eq, Error)]
pub enum RunFault {
    /// The input is no script, or no journal: its first fault from the left. An allocation that fails is `OutOfMemory`.
    #[error("{0}")]
    Input(ScriptFault),
    /// The reader failed in this call.
    #[error("read failed")]
    Read,
    /// The writer failed in this call.
    #[error("write failed")]
    Write,
    /// An allocation failed.
    #[error("out of memory")]
    OutOfMemory,
    /// A call was refused since all node numbers are in use.
    #[error("full")]
    Full,
    /// The script asks for a checkpoint while calls are pending: the least of their numbers.
    #[error("call {} is pending", .0.get())]
    UnderWay(CallNo),
}

impl RunFault {
    /// The status of a program that this fault ended: 1 for a checkpoint while calls are pending, 3 for bad input, 4 if
    /// memory or numbers ran out, and 5 for a device that failed.
    pub fn status(&self) -> u8
        ensures { result ≡ status_of_fault self.now }
    {
        match self {
            RunFault::UnderWay(_) => 1,
            RunFault::Input(_) => 3,
            RunFault::OutOfMemory | RunFault::Full => 4,
            RunFault::Read | RunFault::Write => 5,
        }
    }
}

/// The fault of a runner whose way from a reader to a writer failed.
pub fn between<E: From<RunFault> + Drop>(failure: Failure<E>) -> E
    ensures { IsBetween E.from_gives failure result }
{
    match failure {
        Failure::Read => E::from(RunFault::Read),
        Failure::Write => E::from(RunFault::Write),
        Failure::OutOfMemory => E::from(RunFault::OutOfMemory),
        Failure::Unmade(fault) => fault,
    }
}

/// The fault of a run whose input has this fault.
pub fn run_fault(fault: ScriptFault) -> RunFault
    ensures { result ≡ run_fault_of fault }
{
    match fault.kind {
        FaultKind::OutOfMemory => RunFault::OutOfMemory,
        _ => RunFault::Input(fault),
    }
}
