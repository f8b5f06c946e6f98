//! Why no schedule of a run was written.

ghost use Rattle.std.specs.Prelude.{◌≡◌};
ghost use Rattle.fs_trace.specs.Faults.{status_of_schedule};

use fs_sched::RunFault;
use thiserror::Error;

/// Why no schedule of a run was written.
#[derive(Clone, Copy, Debug, PartialEq, Eq, Error)]
pub enum ScheduleFault {
    /// The run has no end, or a device failed.
    #[error("{0}")]
    Run(RunFault),
    /// The run takes more events than a script may give.
    #[error("the run takes more events than a script gives")]
    TooManyEvents,
    /// The script with the words of its events is longer than a text may be by its limits.
    #[error("the script would have more bytes than a text has")]
    TooLong,
}

impl ScheduleFault {
    /// The status of a program that this fault ended: 4 where a script has no room for the events, else that of the run.
    pub fn status(&self) -> u8
        ensures { result ≡ status_of_schedule self.now }
    {
        match self {
            ScheduleFault::Run(fault) => fault.status(),
            ScheduleFault::TooManyEvents | ScheduleFault::TooLong => 4,
        }
    }
}

impl From<RunFault> for ScheduleFault {
    ghost use Rattle.fs_trace.specs.declared.fault.ScheduleFault.TheVariants.{Run};

    ghost from_gives = { λ run fault. fault ≡ Run run };

    fn from(fault: RunFault) -> ScheduleFault {
        ScheduleFault::Run(fault)
    }
}
