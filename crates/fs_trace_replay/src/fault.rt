//! Why nothing of an input's trees was written.

ghost use Rattle.std.specs.Prelude.{◌≡◌};
ghost use Rattle.fs_trace_replay.specs.Faults.{status_of_replay};

use fs_sched::RunFault;
use fs_words::FaultKind;
use thiserror::Error;

/// Why nothing of an input's trees was written.
#[derive(Clone, Copy, Debug, PartialEq, Eq, Error)]
pub enum ReplayFault {
    /// The input is no script and no journal, the run has no end, a device failed, or memory ran out.
    #[error("{0}")]
    Run(RunFault),
    /// Fewer calls commit than are asked for.
    #[error("the run has no commit {0}")]
    NoCommit(u64),
    /// No call has this place among those of its thread, or it does not commit.
    #[error("there is no such call, or it does not commit")]
    NoCall,
    /// The word is no CALL.
    #[error("CALL is THREAD#NUMBER: m#3 is the third call of thread m, and with a journal 0#3 is the third on seat 0")]
    BadCall,
    /// The word is no PATH.
    #[error("{0}")]
    BadPath(FaultKind),
}

impl ReplayFault {
    /// The status of a program that this fault ended: 2 where what is asked for is not there, or a word is none; else that of the run.
    pub fn status(&self) -> u8
        ensures { result ≡ status_of_replay self.now }
    {
        match self {
            ReplayFault::Run(fault) => fault.status(),
            ReplayFault::NoCommit(_)
            | ReplayFault::NoCall
            | ReplayFault::BadCall
            | ReplayFault::BadPath(_) => 2,
        }
    }
}

impl From<RunFault> for ReplayFault {
    ghost use Rattle.fs_trace_replay.specs.declared.fault.ReplayFault.TheVariants.{Run};

    ghost from_gives = { λ run fault. fault ≡ Run run };

    fn from(fault: RunFault) -> ReplayFault {
        ReplayFault::Run(fault)
    }
}
