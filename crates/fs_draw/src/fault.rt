//! Why no picture was written.

ghost use Rattle.std.specs.Prelude.{◌≡◌};
ghost use Rattle.fs_draw.specs.Faults.{status_of_draw};

use fs_sched::RunFault;
use thiserror::Error;

/// Why no picture was written.
#[derive(Clone, Copy, Debug, PartialEq, Eq, Error)]
pub enum DrawFault {
    /// The input is no script and no journal, the run has no end, a device failed, or memory ran out.
    #[error("{0}")]
    Run(RunFault),
    /// No call has the number around which is to be drawn.
    #[error("there is no call {0}")]
    NoCall(u64),
}

impl DrawFault {
    /// The status of a program that this fault ended: 2 where no call has the number, else that of the run.
    pub fn status(&self) -> u8
        ensures { result ≡ status_of_draw self.now }
    {
        match self {
            DrawFault::Run(fault) => fault.status(),
            DrawFault::NoCall(_) => 2,
        }
    }
}

impl From<RunFault> for DrawFault {
    ghost use Rattle.fs_draw.specs.declared.fault.DrawFault.TheVariants.{Run};

    ghost from_gives = { λ run fault. fault ≡ Run run };

    fn from(fault: RunFault) -> DrawFault {
        DrawFault::Run(fault)
    }
}
