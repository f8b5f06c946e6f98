//! A worker: one job after the other, by a session of its own.

ghost use Rattle.std.specs.Prelude.{◌≡◌, ℕ, ◌+◌, ◌-◌, ◌<◌, ◌≤◌, [], All, length, vec_len, vec_capacity, sum_by, MatchOption};
ghost use Rattle.crossbeam_queue.specs.Passes.{view, IsPassOf, IsSamePass};
ghost use Rattle.fs_share_pool.specs.declared.job.Job.{Job};
ghost use Rattle.fs_share_pool.specs.Dones.{HasDone, one_if_ok, ok_count, number_total, ok_total};
ghost use Rattle.fs_share_pool.specs.Jobs.{hand, total, numbers as job_numbers};

use crate::done::Done;
use crate::job::JobNo;
use crate::queue::{JobPass, JobQueue, give_back, take_job, worker_pass};
use fs_calls::Call;
use fs_share::{AtomFs, Gate, Named, Session, Tally};
use std::alloc::Global;
use std::sync::Wait;
use std::thread;
use std::thread::Threads;
use std::time::Clock;

/// What a worker works with: each job that its pass popped is among its answers, and its session counted those that are Ok.
#[derive(Drop)]
pub(crate) struct Worker<'a, N: Named> {
    pass: JobPass,
    session: Session<'a, N>,
    answers: Vec<Done>,
    ghost popped: { HasDone (view pass) answers.items },
    ghost counted: { session.count ≡ ok_count answers.items },
}

/// Does a job. A refused begin is its answer.
fn do_job<N: Named, R: Wait + Clock, G: Gate>(
    rt: &R,
    alloc: Global,
    session: &mut Session<'_, N>,
    job: (JobNo, Call),
    gate: &G,
) -> Done
    ensures no { result.no ≡ job.0 }
    ensures counted { session.new.count ≡ session.old.count + one_if_ok result.answer }
{
    let (no, call) = job;
    let answer = session.call(rt, alloc, &call, gate);
    Done { no, answer }
}

/// Does jobs until the queue is empty or there is no place for an answer.
fn work_on<N: Named, R: Wait + Clock, G: Gate>(
    rt: &R,
    alloc: Global,
    queue: &JobQueue,
    pass: &mut JobPass,
    session: &mut Session<'_, N>,
    answers: &mut Vec<Done>,
    gate: &G,
)
    requires queue { IsPassOf queue.now pass.old }
    requires popped { HasDone (view pass.old) answers.old.items }
    requires counted { session.old.count ≡ ok_count answers.old.items }
    ensures queue { IsPassOf queue.now pass.new }
    ensures popped { HasDone (view pass.new) answers.new.items }
    ensures counted { session.new.count ≡ ok_count answers.new.items }
{
    for _ in rt.forever() {
        if answers.reserve(1).is_err() {
            break;
        }
        let Some(job) = take_job(rt, queue, pass) else {
            break;
        };
        let done = do_job(rt, alloc, session, job, gate);
        answers.push_reserved(done);
    }
}

/// Does jobs.
fn work<N: Named, R: Wait + Clock, G: Gate>(
    rt: &R,
    alloc: Global,
    queue: &JobQueue,
    worker: &mut Worker<'_, N>,
    gate: &G,
)
    requires { IsPassOf queue.now worker.old.pass }
    ensures { IsPassOf queue.now worker.new.pass }
{
    let Worker {
        pass,
        session,
        answers,
    } = worker;
    work_on(rt, alloc, queue, pass, session, answers, gate);
}

/// Lets each worker work, on a thread of its own where one can be made, and waits for them.
pub(crate) fn work_all<
    'a,
    N: Named + Send + Sync,
    R: Threads + Wait + Clock + Sync,
    G: Gate + Sync,
>(rt: &R, alloc: Global, queue: &JobQueue, workers: &mut [Worker<'a, N>], gate: &G)
    requires { All (λ worker. IsPassOf queue.now worker.pass) workers.old }
    ensures { All (λ worker. IsPassOf queue.now worker.pass) workers.new }
{
    let threads = workers.len();
    if threads > 0 {
        thread::for_each_mut(
            rt,
            workers,
            threads,
            &|_, worker| work(rt, alloc, queue, worker, gate),
        );
    }
}

/// A worker with a session and a pass of its own.
fn make_worker<'a, N: Named, R: Wait>(
    rt: &R,
    alloc: Global,
    queue: &JobQueue,
    pass: &mut JobPass,
    fs: &'a AtomFs<N>,
) -> Option<Worker<'a, N>>
    requires queue { IsPassOf queue.now pass.old }
    requires part { 1 < (view pass.old).parts }
    ensures queue { IsSamePass pass.old pass.new }
    ensures worker { MatchOption result (view pass.new ≡ view pass.old) (λ worker. IsPassOf queue.now worker.pass × (view pass.new ≡ hand ((view pass.old).parts - 1) (view pass.old).put (view pass.old).popped)) }
{
    let Ok(session) = fs.session(rt) else {
        return None;
    };
    Some(Worker {
        pass: worker_pass(queue, pass),
        session,
        answers: Vec::new(alloc),
    })
}

/// As many workers as are asked for, or fewer where a session is refused.
pub(crate) fn make_workers<'a, N: Named, R: Wait>(
    rt: &R,
    alloc: Global,
    queue: &JobQueue,
    pass: &mut JobPass,
    fs: &'a AtomFs<N>,
    count: usize,
) -> Vec<Worker<'a, N>>
    requires queue { IsPassOf queue.now pass.old }
    requires parts { count < (view pass.old).parts }
    ensures queue { IsSamePass pass.old pass.new × All (λ worker. IsPassOf queue.now worker.pass) result.items }
    ensures parts { (view pass.new).parts + vec_len result ≡ (view pass.old).parts }
    ensures lists { ((view pass.new).put ≡ (view pass.old).put) × ((view pass.new).popped ≡ (view pass.old).popped) }
    ensures count { vec_len result ≤ count }
{
    let Ok(mut workers) = Vec::with_capacity(alloc, count) else {
        return Vec::new(alloc);
    };
    for _ in 0..count {
        let Some(worker) = make_worker(rt, alloc, queue, pass, fs) else {
            break;
        };
        workers.push_reserved(worker);
    }
    workers
}

/// Takes the workers apart: their passes are joined to the pool's, and their tallies and answers are kept. There are places
/// for both.
pub(crate) fn end_all<'a, N: Named>(
    queue: &JobQueue,
    pass: &mut JobPass,
    workers: Vec<Worker<'a, N>>,
    tallies: &mut Vec<Tally<N>>,
    lists: &mut Vec<Vec<Done>>,
)
    requires queue { IsPassOf queue.now pass.old × All (λ worker. IsPassOf queue.now worker.pass) workers.items }
    requires part { 0 < (view pass.old).parts }
    requires places { (vec_len tallies.old + vec_len workers ≤ vec_capacity tallies.old) × (vec_len lists.old + vec_len workers ≤ vec_capacity lists.old) }
    ensures queue { IsSamePass pass.old pass.new }
    ensures parts { (view pass.new).parts ≡ (view pass.old).parts + vec_len workers.entry }
    ensures put { (h : Job → ℕ) → total h (view pass.new).put ≡ total h (view pass.old).put }
    ensures more { (h : Job → ℕ) → total h (view pass.old).popped ≤ total h (view pass.new).popped }
    ensures popped { (h : ℕ → ℕ) → total h (job_numbers (view pass.new).popped) + number_total h lists.old.items ≡ total h (job_numbers (view pass.old).popped) + number_total h lists.new.items }
    ensures ended { vec_len tallies.new ≡ vec_len tallies.old + vec_len workers.entry }
    ensures counted { sum_by (λ tally. tally.count) tallies.new.items + ok_total lists.old.items ≡ sum_by (λ tally. tally.count) tallies.old.items + ok_total lists.new.items }
{
    let mut workers = workers;
    while let Some(worker) = workers.pop() {
        let Worker {
            pass: theirs,
            session,
            answers,
        } = worker;
        give_back(queue, pass, theirs);
        tallies.push_reserved(session.end());
        lists.push_reserved(answers);
    }
}
