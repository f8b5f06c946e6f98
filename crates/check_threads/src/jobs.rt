//! Jobs by the workers of a pool; a thousand by eight workers.

ghost use Rattle.std.specs.Prelude.{◌≡◌, ◌^◌};

use check_sessions::calls::{fits, has_counts, is_lawful, is_new, path};
use check_sessions::playing::play;
use fs_calls::{Call, Errno, Reply};
use fs_share::{AtomFs, Closed, Gate, Named, Open, Opened, Tally};
use fs_share_pool::{Collected, Done, NotTaken, Pool};
use fs_timeline::Entry;
use std::alloc::Global;
use std::marker::Brand;
use std::sync::Wait;
use std::sync::ledger::Blank;
use std::thread::Threads;
use std::time::Clock;

/// How many jobs there are, each of which makes a file in the root: more than it can have.
const JOBS: u64 = 1000;

const WORKERS: usize = 8;

fn digit(number: u64) -> u8 {
    (number % 10) as u8 + b'0'
}

/// The call of a job.
fn call(alloc: Global, number: u64) -> Option<Call> {
    let mut text = *b"/j000";
    text[2] = digit(number / 100);
    text[3] = digit(number / 10);
    text[4] = digit(number);
    Some(Call::Mknod(path(alloc, &text)?))
}

/// The calls of all jobs.
fn calls(alloc: Global) -> Option<Vec<Call>> {
    let mut calls = Vec::new(alloc);
    for number in 0..JOBS {
        calls.push(call(alloc, number)?).ok()?;
    }
    Some(calls)
}

/// Hands jobs to a pool. Whether each has its number, from one on.
pub fn submit_all<N: Named>(
    alloc: Global,
    pool: &mut Pool<N>,
    calls: &[Call],
    from: u64,
) -> Option<bool> {
    let mut number = from;
    for call in calls {
        let no = pool.submit(call.copy(alloc).ok()?).ok()?;
        if no.get() != number {
            return Some(false);
        }
        number = number.wrapping_add(1);
    }
    Some(true)
}

/// Whether a pool that is full hands the call of one more job back.
fn is_full<N: Named>(alloc: Global, pool: &mut Pool<N>) -> Option<bool> {
    let more = vec![in alloc; Call::Mknod(path(alloc, b"/more")?)].ok()?;
    let call = more.first()?;
    let taken = vec![in alloc; pool.submit(call.copy(alloc).ok()?)].ok()?;
    Some(matches!(taken.first(), Some(Err(NotTaken::QueueFull(back))) if back.same(call)))
}

/// What became of jobs: whether a full pool handed one back, whether each worker's session was tallied, those that were done,
/// and how many are left.
#[derive(Drop)]
pub struct Did {
    full: bool,
    pub tallied: bool,
    pub done: Vec<Done>,
    left: usize,
}

/// The same, and what is left of the tree.
#[derive(Drop)]
pub struct Worked {
    pub did: Did,
    pub closed: Closed,
}

/// The calls that make a tree, and those of the jobs that so many workers do then.
#[derive(Clone, Copy)]
pub struct Works<'a> {
    pub made: &'a [Call],
    pub calls: &'a [Call],
    pub workers: usize,
}

/// What becomes of the jobs, and the tallies of all sessions.
fn work_on<N: Named + Send + Sync, R: Threads + Wait + Clock + Sync, G: Gate + Sync>(
    rt: &R,
    alloc: Global,
    fs: &AtomFs<N>,
    works: Works<'_>,
    gate: &G,
) -> Option<(Did, Vec<Tally<N>>)> {
    if works.calls.is_empty() {
        return None;
    }
    let made = play(rt, alloc, fs, works.made, &Open)?;
    let mut pool = Pool::<N>::new(rt, alloc, works.calls.len()).ok()?;
    let full = submit_all(alloc, &mut pool, works.calls, 0)? && is_full(alloc, &mut pool)?;
    pool.run(rt, alloc, fs, works.workers, gate).ok()?;
    let Collected {
        done,
        left,
        mut tallies,
    } = pool.collect();
    let tallied = tallies.len() == works.workers;
    tallies.push(made.tally()).ok()?;
    let did = Did {
        full,
        tallied,
        done,
        left: left.len(),
    };
    Some((did, tallies))
}

/// Ends a tree, and hands on what came of it.
pub fn end<N: Named, R: Wait, T: Drop>(
    rt: &R,
    alloc: Global,
    fs: AtomFs<N>,
    came: Option<(T, Vec<Tally<N>>)>,
) -> Option<(T, Closed)> {
    match came {
        Some((came, tallies)) => Some((came, fs.close(rt, tallies))),
        None => {
            let _closed = fs.close(rt, Vec::new(alloc));
            None
        }
    }
}

/// The same on a tree of its own.
fn work<N: Named + Send + Sync, R: Threads + Wait + Clock + Sync, G: Gate + Sync>(
    rt: &R,
    alloc: Global,
    opened: Opened,
    blank: Blank,
    works: Works<'_>,
    gate: &G,
) -> Option<Worked>
    requires book { opened ≡ N.book }
    requires name { blank.name ≡ N.name }
    requires parts { blank.parts ≡ N.parts }
    requires all { blank.parts ≡ 2 ^ 63 }
{
    let fs = AtomFs::<N>::open(rt, alloc, opened, blank).ok()?;
    let came = work_on(rt, alloc, &fs, works, gate);
    let (did, closed) = end(rt, alloc, fs, came)?;
    Some(Worked { did, closed })
}

/// Has jobs done under a gate, on a tree that some calls made by a session of their own.
pub fn work_all<R: Threads + Wait + Clock + Sync, G: Gate + Sync>(
    rt: &R,
    alloc: Global,
    works: Works<'_>,
    gate: &G,
) -> Option<Worked> {
    let (opened, blank) = (Opened::new(), Blank::new(1 << 63));
    work::<Brand, R, G>(rt, alloc, opened, blank, works, gate)
}

/// Whether the numbers are those of all jobs, in order, and each answer is that of the timeline, under a number of its own.
pub fn are_right(entries: &[Entry], calls: &[Call], done: &[Done]) -> bool {
    let mut seen = [false; 1001];
    let mut number = 0u64;
    for one in done {
        let (Some(call), Ok(answer)) = (calls.get(number as usize), &one.answer) else {
            return false;
        };
        if one.no.get() != number || !is_new(&mut seen, answer) || !fits(entries, call, answer) {
            return false;
        }
        number = number.wrapping_add(1);
    }
    number as usize == calls.len()
}

/// How many jobs made a file, and how many found no place.
fn counts(done: &[Done]) -> (u64, u64) {
    let mut made = 0u64;
    let mut no_place = 0u64;
    for one in done {
        match &one.answer {
            Ok(answer) => match answer.reply {
                Reply::Done => made = made.wrapping_add(1),
                Reply::Failed(Errno::Enospc) => no_place = no_place.wrapping_add(1),
                _ => {}
            },
            Err(_) => {}
        }
    }
    (made, no_place)
}

/// Whether each job was done once, as the timeline says: 256 made a file, and the others found no place.
fn is_worked(alloc: Global, calls: &[Call], worked: &Worked) -> Option<bool> {
    let entries = worked.closed.timeline.entries();
    Some(
        worked.did.full
            && worked.did.tallied
            && worked.did.left == 0
            && counts(&worked.did.done) == (256, 744)
            && has_counts(&worked.closed, WORKERS + 1, 3000)
            && are_right(entries, calls, &worked.did.done)
            && is_lawful(alloc, entries)?,
    )
}

/// Whether a thousand jobs are done so.
pub fn are_done<R: Threads + Wait + Clock + Sync>(rt: &R, alloc: Global) -> Option<bool> {
    let calls = calls(alloc)?;
    let works = Works {
        made: &[],
        calls: &calls,
        workers: WORKERS,
    };
    let worked = work_all(rt, alloc, works, &Open)?;
    is_worked(alloc, &calls, &worked)
}
