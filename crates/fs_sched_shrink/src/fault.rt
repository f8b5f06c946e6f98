//! Why nothing was written of a script that is shrunk.

ghost use Rattle.std.specs.Prelude.{◌≡◌};
ghost use Rattle.fs_sched_shrink.specs.Faults.{status_of_shrink};

use fs_sched::RunFault;
use fs_sched_find::FindFault;
use fs_sched_start::StartFault;
use fs_trace::ScheduleFault;
use thiserror::Error;

/// Why a script was not shrunk. After a failed write a beginning of its text was written, and after the others nothing.
#[derive(Clone, Copy, Debug, PartialEq, Eq, Error)]
pub enum ShrinkFault {
    /// The script, the tree, a device, memory or node numbers.
    #[error("{0}")]
    Start(StartFault),
    /// The script with what stays is longer than a text may be by its limits.
    #[error("the script would have more bytes than a text has")]
    TooLong,
    /// A call that is named is not in the script.
    #[error("the script has no such call")]
    NoCall,
}

impl ShrinkFault {
    /// The status of a program that this fault ended: that of a run, of a written schedule, or 2 for a call that is not there.
    pub fn status(&self) -> u8
        ensures { result ≡ status_of_shrink self.now }
    {
        match self {
            ShrinkFault::Start(fault) => fault.status(),
            ShrinkFault::TooLong => ScheduleFault::TooLong.status(),
            ShrinkFault::NoCall => FindFault::NoCall.status(),
        }
    }
}

impl From<RunFault> for ShrinkFault {
    ghost use Rattle.fs_sched_shrink.specs.declared.fault.ShrinkFault.TheVariants.{Start};
    ghost use Rattle.fs_sched_start.specs.declared.fault.StartFault.TheVariants.{Run};

    ghost from_gives = { λ run fault. fault ≡ Start (Run run) };

    fn from(fault: RunFault) -> ShrinkFault {
        ShrinkFault::Start(StartFault::Run(fault))
    }
}
