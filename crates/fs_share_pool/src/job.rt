//! Jobs and their numbers.

ghost use Rattle.std.specs.Prelude.{◌≡◌, ℕ};

use fs_calls::Call;
use std::marker::Model;

/// The number of a job: the first of a pool has 0, each next one more.
#[derive(Clone, Copy, Debug, PartialEq, Eq, PartialOrd, Ord, Hash)]
pub struct JobNo {
    job: u64,
}

impl Model for JobNo {
    ghost Value = { ℕ };

    ghost view = { λ j. j.job };

    ghost inverse = { λ n. record { job = n } };
}

impl JobNo {
    /// The job with this number.
    pub(crate) fn new(number: u64) -> Self
        ensures { result ≡ number }
    {
        JobNo { job: number }
    }

    /// The number.
    pub fn get(self) -> u64
        ensures { result ≡ self }
    {
        self.job
    }
}

/// A call with the number by which its pool speaks of it.
#[derive(Drop)]
pub struct Job {
    pub no: JobNo,
    pub call: Call,
}
