//! Why a script's threads ended without their text written.

ghost use Rattle.std.specs.Prelude.{◌≡◌};
ghost use Rattle.fs_sched_threads.specs.Faults.{threads_fault_of};

use fs_core::Refusal;
use fs_sched::RunFault;
use fs_share::ListsFault;
use thiserror::Error;

/// Why a script's threads ended without their text written. After a failed write a beginning of the text was written, and
/// after the others nothing.
#[derive(Clone, Copy, Debug, PartialEq, Eq, Error)]
pub enum ThreadsFault {
    /// The input, the reader, the writer, or out of memory or of node numbers, as where a schedule runs the script.
    #[error("{0}")]
    Run(RunFault),
    /// A worker could not be started, or its seat was taken.
    #[error("no worker")]
    Lists(ListsFault),
}

impl From<RunFault> for ThreadsFault {
    ghost use Rattle.fs_sched_threads.specs.declared.fault.ThreadsFault.TheVariants.{Run};

    ghost from_gives = { λ run fault. fault ≡ Run run };

    fn from(fault: RunFault) -> ThreadsFault {
        ThreadsFault::Run(fault)
    }
}

/// The fault of threads whose lists were not played to their end.
pub(crate) fn threads_fault(fault: ListsFault) -> ThreadsFault
    ensures { result ≡ threads_fault_of fault }
{
    match fault {
        ListsFault::Refused(Refusal::OutOfMemory) => ThreadsFault::Run(RunFault::OutOfMemory),
        ListsFault::Refused(Refusal::Full) => ThreadsFault::Run(RunFault::Full),
        _ => ThreadsFault::Lists(fault),
    }
}
