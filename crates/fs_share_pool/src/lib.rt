//! Jobs that workers do on a shared tree, over `crossbeam_queue`'s bounded queue with a rule.
//!
//! A `Pool` numbers the calls that it is given 0, 1, 2 and so on. `Pool::run` puts those that wait into the queue. Each worker has a
//! session of its own, and does one job after the other until none is left. `Pool::collect` hands out each number once, either with its
//! answer or among the jobs that are left, which keep their calls. It also hands out a tally for each session that was made, and these add
//! up to the number of answers that are Ok.
//!
//! Enter at `Pool::new`. The rule of the queue is in `specs/Jobs.antt`, and what is counted in `specs/Dones.antt`. Nothing is claimed of
//! whether a worker makes progress, or whether there was one.
#![tactic(auto)]

mod done;
mod job;
mod moving;
mod pool;
mod queue;
mod worker;

pub use done::Done;
pub use job::{Job, JobNo};
pub use pool::{Collected, NoWorker, NotTaken, Pool};
pub use queue::{EachOnce, Hand, JobPass, JobQueue, take_job};
