//! Why nothing was found, or nothing was written of what was found.

ghost use Rattle.std.specs.Prelude.{◌≡◌};
ghost use Rattle.fs_sched_find.specs.Faults.{find_fault_of, status_of_find};

use fs_sched::RunFault;
use fs_sched_start::StartFault;
use fs_trace::ScheduleFault;
use thiserror::Error;

/// Why nothing was found, or nothing was written of what was found.
#[derive(Clone, Copy, Debug, PartialEq, Eq, Error)]
pub enum FindFault {
    /// The script, the tree, a device, memory or node numbers.
    #[error("{0}")]
    Start(StartFault),
    /// The run takes more events than a script may give.
    #[error("the run takes more events than a script gives")]
    TooManyEvents,
    /// The script with the words of its events is longer than a text may be by its limits.
    #[error("the script would have more bytes than a text has")]
    TooLong,
    /// A call that is named is not in the script.
    #[error("the script has no such call")]
    NoCall,
}

impl FindFault {
    /// The status of a program that this fault ended: 2 for a call that is not there, else that of drawn runs or of a written schedule.
    pub fn status(&self) -> u8
        ensures { result ≡ status_of_find self.now }
    {
        match self {
            FindFault::Start(fault) => fault.status(),
            FindFault::TooManyEvents => ScheduleFault::TooManyEvents.status(),
            FindFault::TooLong => ScheduleFault::TooLong.status(),
            FindFault::NoCall => 2,
        }
    }
}

impl From<RunFault> for FindFault {
    ghost use Rattle.fs_sched_find.specs.declared.fault.FindFault.TheVariants.{Start};
    ghost use Rattle.fs_sched_start.specs.declared.fault.StartFault.TheVariants.{Run};

    ghost from_gives = { λ run fault. fault ≡ Start (Run run) };

    fn from(fault: RunFault) -> FindFault {
        FindFault::Start(StartFault::Run(fault))
    }
}

/// The fault of a search whose run is not written.
pub(crate) fn find_fault(fault: ScheduleFault) -> FindFault
    ensures { result ≡ find_fault_of fault }
{
    match fault {
        ScheduleFault::Run(fault) => FindFault::Start(StartFault::Run(fault)),
        ScheduleFault::TooManyEvents => FindFault::TooManyEvents,
        ScheduleFault::TooLong => FindFault::TooLong,
    }
}
