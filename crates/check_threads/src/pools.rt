//! Pools that keep their jobs where no worker was made, and that run more than once on one tree.

ghost use Rattle.std.specs.Prelude.{◌≡◌, ◌^◌};

use crate::jobs::{are_right, end, submit_all};
use check_sessions::calls::{calls_of, has_counts, is_lawful, lists_of};
use fs_calls::Call;
use fs_share::{AtomFs, Closed, Named, Open, Opened, Tally};
use fs_share_pool::{Collected, Done, Job, NoWorker, Pool};
use std::alloc::Global;
use std::marker::Brand;
use std::sync::Wait;
use std::sync::ledger::Blank;
use std::thread::Threads;
use std::time::Clock;

/// Jobs that leave different things, so that one that is begun for another shows.
const JOBS: &[u8] =
    b"atomfs 1\nthread jobs\nmkdir /a\nmkdir /b\nmknod /c\nmkdir /d\nmknod /e\nschedule\n";

/// How many of them wait at first, which is all that a pool may have waiting.
const FIRST: usize = 3;

/// Whether these are the jobs of all calls, in their order.
fn are_left(calls: &[Call], left: &[Job]) -> bool {
    let mut number = 0u64;
    for job in left {
        let Some(call) = calls.get(number as usize) else {
            return false;
        };
        if job.no.get() != number || !job.call.same(call) {
            return false;
        }
        number = number.wrapping_add(1);
    }
    number as usize == calls.len()
}

/// Whether a pool without a worker, and one that does not run, leave all of their jobs.
fn stay<N: Named + Send + Sync, R: Threads + Wait + Clock + Sync>(
    rt: &R,
    alloc: Global,
    fs: &AtomFs<N>,
    calls: &[Call],
) -> Option<bool> {
    let mut pool = Pool::<N>::new(rt, alloc, FIRST).ok()?;
    let numbered = submit_all(alloc, &mut pool, calls, 0)?;
    let none = matches!(pool.run(rt, alloc, fs, 0, &Open), Err(NoWorker));
    let Collected {
        done,
        left,
        tallies,
    } = pool.collect();
    Some(numbered && none && done.is_empty() && tallies.is_empty() && are_left(calls, &left))
}

/// What becomes of jobs that are handed to a pool by two lots, each of which two workers do, so that four sessions are tallied;
/// before the first it runs without a worker.
fn run_twice<N: Named + Send + Sync, R: Threads + Wait + Clock + Sync>(
    rt: &R,
    alloc: Global,
    fs: &AtomFs<N>,
    first: &[Call],
    second: &[Call],
) -> Option<Collected<N>> {
    let mut pool = Pool::<N>::new(rt, alloc, FIRST).ok()?;
    let mut numbered = submit_all(alloc, &mut pool, first, 0)?;
    let none = matches!(pool.run(rt, alloc, fs, 0, &Open), Err(NoWorker));
    pool.run(rt, alloc, fs, 2, &Open).ok()?;
    numbered = numbered && submit_all(alloc, &mut pool, second, FIRST as u64)?;
    pool.run(rt, alloc, fs, 2, &Open).ok()?;
    let collected = pool.collect();
    if numbered && none && collected.tallies.len() == 4 {
        Some(collected)
    } else {
        None
    }
}

/// The calls of both lots.
#[derive(Clone, Copy)]
struct Lots<'a> {
    first: &'a [Call],
    second: &'a [Call],
}

/// Whether jobs stay where they are not done, and those that are done and left by a pool that runs twice.
type Came = (bool, Vec<Done>, usize);

/// What came of both lots, and the tallies of all sessions.
fn both<N: Named + Send + Sync, R: Threads + Wait + Clock + Sync>(
    rt: &R,
    alloc: Global,
    fs: &AtomFs<N>,
    lots: Lots<'_>,
) -> Option<(Came, Vec<Tally<N>>)> {
    let stayed = stay(rt, alloc, fs, lots.first)?;
    let Collected {
        done,
        left,
        tallies,
    } = run_twice(rt, alloc, fs, lots.first, lots.second)?;
    Some(((stayed, done, left.len()), tallies))
}

/// The same on a tree of its own.
fn on_named<N: Named + Send + Sync, R: Threads + Wait + Clock + Sync>(
    rt: &R,
    alloc: Global,
    opened: Opened,
    blank: Blank,
    lots: Lots<'_>,
) -> Option<(Came, Closed)>
    requires book { opened ≡ N.book }
    requires name { blank.name ≡ N.name }
    requires parts { blank.parts ≡ N.parts }
    requires all { blank.parts ≡ 2 ^ 63 }
{
    let fs = AtomFs::<N>::open(rt, alloc, opened, blank).ok()?;
    let came = both(rt, alloc, &fs, lots);
    end(rt, alloc, fs, came)
}

/// Whether jobs stay where no worker is made, and each is done once by a pool that runs twice.
pub fn run_again<R: Threads + Wait + Clock + Sync>(rt: &R, alloc: Global) -> Option<bool> {
    let lists = lists_of(alloc, JOBS)?;
    let calls = calls_of(&lists, 0)?;
    let first = calls.get(..FIRST)?;
    let second = calls.get(FIRST..)?;
    let (opened, blank) = (Opened::new(), Blank::new(1 << 63));
    let lots = Lots { first, second };
    let (came, closed) = on_named::<Brand, R>(rt, alloc, opened, blank, lots)?;
    let (stayed, done, left) = came;
    let entries = closed.timeline.entries();
    let right = are_right(entries, calls, &done) && is_lawful(alloc, entries)?;
    Some(stayed && left == 0 && has_counts(&closed, 4, 15) && right)
}
