//! Jobs on their way between the list in which they wait and the queue.

ghost use Rattle.std.specs.Prelude.{◌≡◌, ℕ, ◌+◌, ◌<◌, ◌≤◌, ◌^◌, IsTrue, vec_capacity, vec_len};
ghost use Rattle.crossbeam_queue.specs.Passes.{view, IsPassOf, IsSamePass};
ghost use Rattle.fs_share_pool.specs.Jobs.{each, total};

use crate::job::Job;
use crate::queue::{JobPass, JobQueue, put_job, take_back};
use std::sync::Wait;

/// Puts the last of the jobs that wait into the queue. Where none waits, or the queue has no place for it, nothing is put.
fn put_last<R: Wait>(rt: &R, queue: &JobQueue, pass: &mut JobPass, waiting: &mut Vec<Job>) -> bool
    requires queue { IsPassOf queue.now pass.old }
    requires part { 0 < (view pass.old).parts }
    ensures queue { IsSamePass pass.old pass.new }
    ensures parts { (view pass.new).parts ≡ (view pass.old).parts }
    ensures popped { (view pass.new).popped ≡ (view pass.old).popped }
    ensures put { (h : Job → ℕ) → total h waiting.new.items + total h (view pass.new).put ≡ total h waiting.old.items + total h (view pass.old).put }
    ensures places { vec_capacity waiting.new ≡ vec_capacity waiting.old }
    ensures fewer { IsTrue result → vec_len waiting.new < vec_len waiting.old }
{
    let Some(job) = waiting.pop() else {
        return false;
    };
    match put_job(rt, queue, pass, job) {
        Ok(()) => true,
        Err(job) => {
            waiting.push_reserved(job);
            false
        }
    }
}

/// Puts the jobs that wait into the queue, the first of them first. Those for which it has no place keep waiting.
pub(crate) fn put_all<R: Wait>(rt: &R, queue: &JobQueue, pass: &mut JobPass, waiting: &mut Vec<Job>)
    requires queue { IsPassOf queue.now pass.old }
    requires part { 0 < (view pass.old).parts }
    ensures queue { IsSamePass pass.old pass.new }
    ensures parts { (view pass.new).parts ≡ (view pass.old).parts }
    ensures popped { (view pass.new).popped ≡ (view pass.old).popped }
    ensures put { (h : Job → ℕ) → total h waiting.new.items + total h (view pass.new).put ≡ total h waiting.old.items + total h (view pass.old).put }
    ensures places { vec_capacity waiting.new ≡ vec_capacity waiting.old }
{
    waiting.reverse();
    while put_last(rt, queue, pass, waiting) {}
    waiting.reverse();
}

/// Takes back each job that the queue holds. Then all that was put was popped.
pub(crate) fn take_all_back<R: Wait>(
    rt: &R,
    queue: &JobQueue,
    pass: &mut JobPass,
    waiting: &mut Vec<Job>,
)
    requires queue { IsPassOf queue.now pass.old }
    requires all { (view pass.old).parts ≡ 2 ^ 64 }
    requires places { total each waiting.old.items + total each (view pass.old).put ≤ vec_capacity waiting.old + total each (view pass.old).popped }
    ensures queue { IsSamePass pass.old pass.new }
    ensures parts { (view pass.new).parts ≡ 2 ^ 64 }
    ensures taken { (h : Job → ℕ) → total h waiting.new.items + total h (view pass.old).popped ≡ total h waiting.old.items + total h (view pass.old).put }
    ensures empty { (h : Job → ℕ) → total h (view pass.new).put ≡ total h (view pass.new).popped }
    ensures places { vec_capacity waiting.new ≡ vec_capacity waiting.old }
{
    for _ in rt.forever() {
        let Some(job) = take_back(rt, queue, pass) else {
            break;
        };
        waiting.push_reserved(job);
    }
}
