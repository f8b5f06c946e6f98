//! A long run of drawn calls by many threads.

use crate::drawing::call;
use check_sessions::calls::{are_played, has_counts};
use check_sessions::is_played;
use fs_calls::Call;
use fs_core::Stepped;
use fs_share::{Closed, Gate, run_lists};
use rand_core::SeedableRng;
use rand_pcg::Pcg32;
use std::alloc::Global;
use std::sync::Wait;
use std::thread;
use std::thread::Threads;
use std::time::{Clock, Duration};

const THREADS: usize = 8;

/// Lets its caller sleep after it let a node go, so that others get in between while it is below.
struct Lingers;

impl Gate for Lingers {
    fn after<R: Wait + Clock>(&self, rt: &R, stepped: &Stepped) {
        if matches!(stepped, Stepped::LetGo(_)) {
            thread::sleep(rt, Duration::from_micros(20));
        }
    }
}

/// How many calls each thread has.
const CALLS: usize = 2500;

fn list(alloc: Global, random: &mut Pcg32) -> Option<Vec<Call>> {
    let mut calls = Vec::new(alloc);
    for _ in 0..CALLS {
        calls.push(call(alloc, random)?).ok()?;
    }
    Some(calls)
}

fn lists(alloc: Global) -> Option<Vec<Vec<Call>>> {
    let mut random = Pcg32::seed_from_u64(20_000);
    let mut lists = Vec::new(alloc);
    for _ in 0..THREADS {
        lists.push(list(alloc, &mut random)?).ok()?;
    }
    Some(lists)
}

/// Whether the timeline of a run has each list, and is lawful, and its commits make the nodes that it leaves.
fn is_whole(alloc: Global, lists: &[Vec<Call>], closed: &Closed) -> Option<bool> {
    let counts = has_counts(closed, THREADS, 3 * THREADS * CALLS);
    Some(counts && are_played(closed.timeline.entries(), lists) && is_played(alloc, closed)?)
}

/// Whether the run of the drawn calls is so.
pub fn is_lawful<R: Threads + Wait + Clock + Sync>(rt: &R, alloc: Global) -> Option<bool> {
    let lists = lists(alloc)?;
    let closed = run_lists(rt, alloc, &lists, &Lingers).ok()?;
    is_whole(alloc, &lists, &closed)
}
