//! Two jobs under one gate that their workers share.

use crate::jobs::{Worked, Works, work_all};
use check_sessions::FirstWaits;
use check_sessions::calls::{
    calls_of, commit_place, has_counts, is_before, lists_of, return_place,
};
use fs_names::CallNo;
use fs_share_pool::Done;
use std::alloc::Global;
use std::sync::Wait;
use std::thread::Threads;
use std::time::Clock;

/// The calls that make the tree, and two jobs, which go on from the root to different directories.
const JOBS: &[u8] =
    b"atomfs 1\nthread made\nmkdir /a\nmkdir /b\nthread jobs\nmkdir /a/x\nmkdir /b/y\nschedule\n";

/// The number of the call by which a job was done.
fn number(done: &[Done], job: usize) -> Option<CallNo> {
    match &done.get(job)?.answer {
        Ok(answer) => Some(answer.call),
        Err(_) => None,
    }
}

/// Whether of two jobs the one that returned last, which is the one that was held, committed after the other's return.
fn are_apart(worked: &Worked) -> Option<bool> {
    let entries = worked.closed.timeline.entries();
    let one = number(&worked.did.done, 0)?;
    let two = number(&worked.did.done, 1)?;
    let first = is_before(return_place(entries, one), return_place(entries, two));
    let (other, held) = if first { (one, two) } else { (two, one) };
    Some(is_before(return_place(entries, other), commit_place(entries, held)))
}

/// Whether the gate lets one worker's job return while it holds the other's, before that commits.
pub fn jobs_meet<R: Threads + Wait + Clock + Sync>(rt: &R, alloc: Global) -> Option<bool> {
    let gate = FirstWaits::new();
    let lists = lists_of(alloc, JOBS)?;
    let works = Works {
        made: calls_of(&lists, 0)?,
        calls: calls_of(&lists, 1)?,
        workers: 2,
    };
    let worked = work_all(rt, alloc, works, &gate)?;
    let right = worked.did.tallied && has_counts(&worked.closed, 3, 12) && are_apart(&worked)?;
    Some(gate.has_met() && right)
}
