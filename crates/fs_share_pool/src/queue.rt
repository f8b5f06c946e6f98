//! The queue of jobs, and the rule that it keeps.
ghost use Rattle.std.specs.Prelude.{◌≡◌, ℕ, ◌+◌, ◌-◌, ◌<◌, ◌^◌, [], ◌∷◌, ◌++◌, MatchOption, MatchResult, IfOk, length};
ghost use Rattle.crossbeam_queue.specs.Passes.{view, IsPassOf, IsSamePass, ruled_capacity};
ghost use Rattle.fs_share_pool.specs.Jobs.{hand, total, PoppedOf};

use crate::job::{Job, JobNo};
use crossbeam_queue::protocol::{Join, Lesson, Outcome, Protocol, Split};
use crossbeam_queue::{Pass, RuledArrayQueue};
use fs_calls::Call;
use std::alloc::{AllocError, Global};
use std::collections::LinkedList;
use std::sync::Wait;

/// The jobs that a pass has put and popped, and its parts of the right to know the whole. No value of it is
/// made.
pub struct Hand {
    pub parts: u64,
    pub put: LinkedList<Job>,
    pub popped: LinkedList<Job>,
}

/// The rule of the queue: what was put is what was popped and what the queue holds.
pub struct EachOnce;

impl Protocol<Job, Hand> for EachOnce {
    ghost use Rattle.fs_share_pool.specs.Jobs.{Balanced, start};

    ghost holds = { Balanced };

    ghost first = { start };
}

/// A worker's pass, cut off or joined again.
struct Cut;

impl Split<Hand> for Cut {
    ghost use Rattle.std.specs.Prelude.{◌-◌, []};
    ghost use Rattle.fs_share_pool.specs.Jobs.{hand};

    ghost left = { λ v. hand (v.parts - 1) v.put v.popped };

    ghost right = { λ v. hand 1 [] [] };
}

impl Join<Hand> for Cut {
    ghost use Rattle.std.specs.Prelude.{◌+◌, ◌++◌, []};
    ghost use Rattle.fs_share_pool.specs.Jobs.{hand};

    ghost both = { λ v w. hand (v.parts + w.parts) (v.put ++ w.put) (v.popped ++ w.popped) };

    ghost spent = { hand 0 [] [] };
}

/// A push.
struct Puts;

impl Outcome<Job, Hand> for Puts {
    ghost use Rattle.std.specs.Prelude.{◌≡◌, ◌∷◌, ◌++◌, []};
    ghost use Rattle.fs_share_pool.specs.Jobs.{hand};

    ghost then = { λ v x w. w ≡ hand v.parts (v.put ++ x ∷ []) v.popped };
}

impl Lesson<Job, Hand> for Puts {
    ghost fact = { λ v items. Unit {0} };
}

/// A pop.
struct Pops;

impl Outcome<Job, Hand> for Pops {
    ghost use Rattle.std.specs.Prelude.{◌≡◌, ◌∷◌, ◌++◌, []};
    ghost use Rattle.fs_share_pool.specs.Jobs.{hand};

    ghost then = { λ v x w. w ≡ hand v.parts v.put (v.popped ++ x ∷ []) };
}

impl Lesson<Job, Hand> for Pops {
    ghost fact = { λ v items. Unit {0} };
}

/// A pop by the pass that has each part: at `None` the queue holds nothing, and what was put was popped.
struct Rest;

impl Outcome<Job, Hand> for Rest {
    ghost use Rattle.fs_share_pool.specs.Jobs.{PoppedOf};

    ghost then = { PoppedOf };
}

impl Lesson<Job, Hand> for Rest {
    ghost use Rattle.std.specs.Prelude.{◌≡◌, ◌+◌, ℕ};
    ghost use Rattle.fs_share_pool.specs.declared.job.Job.{Job};
    ghost use Rattle.fs_share_pool.specs.Jobs.{total};

    ghost fact = { λ v items. (h : Job → ℕ) → total h v.put ≡ total h v.popped + total h items };
}

/// The queue of a pool's jobs. A pool keeps its queue, and hands out neither it nor a pass: both types, and `take_job`, are there
/// to be read and not to be called.
pub type JobQueue = RuledArrayQueue<Job, Hand, EachOnce>;

/// The right to put jobs into the queue and to pop them.
pub type JobPass = Pass<Job, Hand>;

/// A worker gets a job. The jobs that the pass shows as popped grow by the one handed out, and by none for `None`.
pub fn take_job<R: Wait>(rt: &R, queue: &JobQueue, pass: &mut JobPass) -> Option<(JobNo, Call)>
    requires queue { IsPassOf queue.now pass.old }
    requires part { 0 < (view pass.old).parts }
    ensures queue { IsSamePass pass.old pass.new }
    ensures popped { MatchOption result (view pass.new ≡ view pass.old) (λ j. view pass.new ≡ hand (view pass.old).parts (view pass.old).put ((view pass.old).popped ++ record { no = j.0; call = j.1 } ∷ [])) }
{
    let job = queue.pop_as::<Pops, R>(rt, pass)?;
    Some((job.no, job.call))
}

/// Puts a job. It comes back where the queue is full.
pub(crate) fn put_job<R: Wait>(
    rt: &R,
    queue: &JobQueue,
    pass: &mut JobPass,
    job: Job,
) -> Result<(), Job>
    requires queue { IsPassOf queue.now pass.old }
    requires part { 0 < (view pass.old).parts }
    ensures queue { IsSamePass pass.old pass.new }
    ensures put { MatchResult result (λ _. view pass.new ≡ hand (view pass.old).parts ((view pass.old).put ++ job ∷ []) (view pass.old).popped) (λ j. (j ≡ job) × (view pass.new ≡ view pass.old)) }
{
    queue.push_as::<Puts, R>(rt, pass, job)
}

/// Takes a job back. `None` says that what was put was popped.
pub(crate) fn take_back<R: Wait>(rt: &R, queue: &JobQueue, pass: &mut JobPass) -> Option<Job>
    requires queue { IsPassOf queue.now pass.old }
    requires all { (view pass.old).parts ≡ 2 ^ 64 }
    ensures queue { IsSamePass pass.old pass.new }
    ensures popped { MatchOption result ((view pass.new ≡ view pass.old) × ((h : Job → ℕ) → total h (view pass.old).put ≡ total h (view pass.old).popped)) (λ j. PoppedOf (view pass.old) j (view pass.new)) }
{
    queue.pop_as::<Rest, R>(rt, pass)
}

/// A queue with room for so many jobs, and the pass that has each part.
pub(crate) fn job_queue(alloc: Global, capacity: usize) -> Result<(JobQueue, JobPass), AllocError>
    requires { 0 < capacity }
    ensures { IfOk result (λ q. IsPassOf q.0 q.1 × (view q.1 ≡ hand (2 ^ 64) [] [])) }
{
    JobQueue::ruled(alloc, capacity)
}

/// A pass for a worker.
pub(crate) fn worker_pass(queue: &JobQueue, pass: &mut JobPass) -> JobPass
    requires queue { IsPassOf queue.now pass.old }
    requires part { 1 < (view pass.old).parts }
    ensures queue { IsSamePass pass.old pass.new × IsPassOf queue.now result }
    ensures cut { (view pass.new ≡ hand ((view pass.old).parts - 1) (view pass.old).put (view pass.old).popped) × (view result ≡ hand 1 [] []) }
{
    queue.another::<Cut>(pass)
}

/// A worker's pass comes back.
pub(crate) fn give_back(queue: &JobQueue, pass: &mut JobPass, other: JobPass)
    requires queue { IsPassOf queue.now pass.old × IsPassOf queue.now other }
    requires part { 0 < (view pass.old).parts }
    ensures queue { IsSamePass pass.old pass.new }
    ensures joined { view pass.new ≡ hand ((view pass.old).parts + (view other).parts) ((view pass.old).put ++ (view other).put) ((view pass.old).popped ++ (view other).popped) }
{
    queue.absorb::<Cut>(pass, other)
}
