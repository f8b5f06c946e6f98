//! How the schedules of runs are drawn.

ghost use Rattle.std.specs.Prelude.{◌≡◌};
ghost use Rattle.fs_sched.specs.Schedules.{schedule_by};

use crate::origin::Origin;
use crate::schedule::Schedule;

/// The greatest depth of priorities that a user asks for.
pub const DEPTH_LIMIT: u64 = 1_000;

/// How the schedule of a run is drawn from a number.
#[derive(Clone, Copy, Debug, PartialEq, Eq)]
pub enum Policy {
    /// Each event is of any thread, as by `Schedule::Seeded`.
    Uniform,
    /// A few turns of drawn threads, by priorities of this depth, as by `Schedule::Priorities`.
    Priorities(u64),
}

impl Policy {
    /// The schedule that it draws from a number.
    pub fn schedule(self, seed: u64) -> Schedule
        ensures { result ≡ schedule_by self seed }
    {
        match self {
            Policy::Uniform => Schedule::Seeded(seed),
            Policy::Priorities(depth) => Schedule::Priorities(depth, seed),
        }
    }
}

/// Runs of a script that are drawn: where each begins, and how its schedule is drawn.
#[derive(Drop)]
pub struct Campaign {
    pub from: Origin,
    pub by: Policy,
}
