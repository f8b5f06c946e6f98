//! A pool: the jobs that it was given, and what became of them.

ghost use Rattle.std.specs.Prelude.{◌≡◌, ℕ, ◌+◌, ◌<◌, ◌≤◌, ◌^◌, [], length, vec_len, vec_capacity, sum_by, IfOk, OnOk, OnErr, IfErr, Err};
ghost use Rattle.std.specs.List.Sorted.{IsNonDecreasingBy};
ghost use Rattle.crossbeam_queue.specs.Passes.{view as hand_of, IsPassOf};
ghost use Rattle.fs_share_pool.specs.declared.job.Job.{Job};
ghost use Rattle.fs_share_pool.specs.Dones.{numbers, ok_count, below};
ghost use Rattle.fs_share_pool.specs.Jobs.{total, numbers as job_numbers};
ghost use Rattle.fs_share_pool.specs.Pools.{AreEachOnce, with_job};

use crate::done::{Done, add_all, in_order};
use crate::job::{Job, JobNo};
use crate::moving::{put_all, take_all_back};
use crate::queue::{JobPass, JobQueue, job_queue};
use crate::worker::{end_all, make_workers, work_all};
use fs_calls::Call;
use fs_share::{AtomFs, Gate, Named, Tally};
use std::alloc::{AllocError, Global};
use std::marker::Model;
use std::sync::Wait;
use std::thread::Threads;
use std::time::Clock;

/// Jobs that wait or were done on the tree of this name.
#[derive(Drop)]
pub struct Pool<N: Named> {
    queue: JobQueue,
    pass: JobPass,
    capacity: usize,
    waiting: Vec<Job>,
    done: Vec<Done>,
    tallies: Vec<Tally<N>>,
    next: u64,
    /// How many sessions it made.
    sessions: usize,
    ghost seated: { IsPassOf queue pass },
    ghost whole: { (hand_of pass).parts ≡ 2 ^ 64 },
    ghost empty: { (h : Job → ℕ) → total h (hand_of pass).put ≡ total h (hand_of pass).popped },
    ghost once: { (h : ℕ → ℕ) → total h (numbers done.items) + total h (job_numbers waiting.items) ≡ below h next },
    ghost answered: { ok_count done.items ≡ sum_by (λ tally. tally.count) tallies.items },
    ghost places: { next ≤ vec_capacity done },
    ghost bounded: { vec_len waiting ≤ capacity },
    ghost ended: { vec_len tallies ≡ sessions },
}

impl<N: Named> Model for Pool<N> {
    ghost use Rattle.fs_share_pool.specs.Pools.{Jobs};

    ghost Value = { Jobs };

    ghost view = { λ pool. record { submitted = pool.next; waiting = pool.waiting.items; capacity = pool.capacity; sessions = pool.sessions } };
}

/// Why a job was not taken. Its call comes back.
#[derive(Drop)]
pub enum NotTaken {
    /// As many jobs wait as may.
    QueueFull(Call),
    /// An allocation failed.
    OutOfMemory(Call),
}

/// No worker was made: no session was had, or no place for its tally and answers. The jobs are as they were.
#[derive(Clone, Copy, Debug, PartialEq, Eq)]
pub struct NoWorker;

/// What became of the jobs: those that were done, in the order of their numbers, those that are left, and the tallies of
/// all sessions.
#[derive(Drop)]
pub struct Collected<N: Named> {
    pub done: Vec<Done>,
    pub left: Vec<Job>,
    pub tallies: Vec<Tally<N>>,
}

impl<N: Named> Pool<N> {
    /// A pool in which at most so many jobs wait at a time. The only error is out of memory.
    pub fn new<R: Wait>(_rt: &R, alloc: Global, capacity: usize) -> Result<Pool<N>, AllocError>
        requires { 0 < capacity }
        ensures { IfOk result (λ pool. pool ≡ record { submitted = 0; waiting = []; capacity = capacity; sessions = 0 }) }
    {
        let (queue, pass) = job_queue(alloc, capacity)?;
        Ok(Pool {
            queue,
            pass,
            capacity,
            waiting: Vec::new(alloc),
            done: Vec::new(alloc),
            tallies: Vec::new(alloc),
            next: 0,
            sessions: 0,
        })
    }

    /// Takes a job, and answers its number. A refusal hands the call back, and changes nothing.
    pub fn submit(&mut self, call: Call) -> Result<JobNo, NotTaken>
        ensures ok { IfOk result (λ no. (no ≡ self.old.submitted) × (self.new ≡ with_job call self.old)) }
        ensures err { OnErr result (self.new ≡ self.old) }

        // `QueueFull` comes only where as many jobs wait as may.
        ensures full { (back : Call) → result ≡ Err (NotTaken.QueueFull back) → (back ≡ call) × (length self.old.waiting ≡ self.old.capacity) }
        ensures memory { (back : Call) → result ≡ Err (NotTaken.OutOfMemory back) → back ≡ call }
    {
        let Pool {
            capacity,
            waiting,
            done,
            next,
            ..
        } = self;
        let count = waiting.len();
        if count >= *capacity {
            return Err(NotTaken::QueueFull(call));
        }
        if *next == u64::MAX || waiting.reserve(1).is_err() || done.reserve(count + 1).is_err() {
            return Err(NotTaken::OutOfMemory(call));
        }
        let no = JobNo::new(*next);
        waiting.push_reserved(Job { no, call });
        *next += 1;
        Ok(no)
    }

    /// Has the jobs that wait done on a tree by at most so many workers, each with a session of its own, on a thread of its
    /// own where one can be made. Each takes one job after the other, until none is left or it has no place for an answer:
    /// jobs for which there was no place still wait then, and a further run does them. A pool may be run any number of times.
    /// The error is that no worker was made, as where `workers` is 0; then nothing has changed.
    pub fn run<R: Threads + Wait + Clock + Sync, G: Gate + Sync>(
        &mut self,
        rt: &R,
        alloc: Global,
        fs: &AtomFs<N>,
        workers: usize,
        gate: &G,
    ) -> Result<(), NoWorker>
    where
        N: Send + Sync,
        ensures numbers { (self.new.submitted ≡ self.old.submitted) × (self.new.capacity ≡ self.old.capacity) }
        ensures err { OnErr result (self.new ≡ self.old) }

        // Each job that still waits is one that waited, with its call: no more of any kind are left than there were.
        ensures waiting { (h : Job → ℕ) → total h self.new.waiting ≤ total h self.old.waiting }

        // At least one session was made, and no more than were asked for.
        ensures sessions { OnOk result ((self.old.sessions < self.new.sessions) × (self.new.sessions ≤ self.old.sessions + workers)) }
    {
        let Pool {
            queue,
            pass,
            waiting,
            done,
            tallies,
            sessions,
            ..
        } = self;
        if tallies.reserve(workers).is_err() {
            return Err(NoWorker);
        }
        let Ok(mut lists) = Vec::with_capacity(alloc, workers) else {
            return Err(NoWorker);
        };
        let mut workers = make_workers(rt, alloc, queue, pass, fs, workers);
        if workers.is_empty() {
            return Err(NoWorker);
        }
        let made = workers.len();
        put_all(rt, queue, pass, waiting);
        work_all(rt, alloc, queue, workers.as_mut_slice(), gate);
        end_all(queue, pass, workers, tallies, &mut lists);
        take_all_back(rt, queue, pass, waiting);
        add_all(done, lists);
        *sessions += made;
        Ok(())
    }

    /// What became of the jobs. It takes no memory.
    pub fn collect(self) -> Collected<N>
        ensures once { AreEachOnce self.submitted (numbers result.done.items) (job_numbers result.left.items) }
        ensures order { IsNonDecreasingBy (λ done. done.no) result.done.items }
        ensures left { result.left.items ≡ self.waiting }
        ensures answered { ok_count result.done.items ≡ sum_by (λ tally. tally.count) result.tallies.items }

        // There is a tally for each session that was made.
        ensures ended { vec_len result.tallies ≡ self.sessions }
    {
        let Pool {
            waiting,
            done,
            tallies,
            ..
        } = self;
        Collected {
            done: in_order(done),
            left: waiting,
            tallies,
        }
    }
}
