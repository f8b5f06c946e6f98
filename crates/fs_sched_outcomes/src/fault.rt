//! Why nothing was written of drawn runs.

ghost use Rattle.std.specs.Prelude.{◌≡◌};
ghost use Rattle.fs_sched_outcomes.specs.Faults.{status_of_outcomes_fault};

use fs_sched::RunFault;
use fs_sched_start::StartFault;
use thiserror::Error;

/// Why the ends of drawn runs were not written. After a failed write a beginning of the lines was written, and after the others
/// nothing.
#[derive(Clone, Copy, Debug, PartialEq, Eq, Error)]
pub enum OutcomesFault {
    /// The script, the tree, a device, memory or node numbers.
    #[error("{0}")]
    Start(StartFault),
    /// A call that is named is not in the script.
    #[error("the script has no such call")]
    NoCall,
}

impl OutcomesFault {
    /// The status of a program that this fault ended: 2 for a call that is not there, else that of a run from a tree.
    pub fn status(&self) -> u8
        ensures { result ≡ status_of_outcomes_fault self.now }
    {
        match self {
            OutcomesFault::Start(fault) => fault.status(),
            OutcomesFault::NoCall => 2,
        }
    }
}

impl From<RunFault> for OutcomesFault {
    ghost use Rattle.fs_sched_outcomes.specs.declared.fault.OutcomesFault.TheVariants.{Start};
    ghost use Rattle.fs_sched_start.specs.declared.fault.StartFault.TheVariants.{Run};

    ghost from_gives = { λ run fault. fault ≡ Start (Run run) };

    fn from(fault: RunFault) -> OutcomesFault {
        OutcomesFault::Start(StartFault::Run(fault))
    }
}
