//! Renames on a tree on which sessions have ended, or on which a pool has run, so many times: seats stay, and cost no time.

ghost use Rattle.std.specs.Prelude.{◌≡◌, ◌^◌};

use anyhow::{Result, bail};
use fs_calls::Call;
use fs_names::Path;
use fs_share::{AtomFs, Inside, Named, Open, Opened, Session, Tally, with_tree};
use fs_share_pool::Pool;
use std::alloc::Global;
use std::marker::Brand;
use std::sync::Wait;
use std::sync::ledger::Blank;
use std::thread::Threads;
use std::time::Clock;

/// How many pairs of renames are made, there and back.
const PAIRS: u32 = 1000;

/// What comes before the renames, so many times.
#[derive(Clone, Copy, Debug, PartialEq, Eq)]
pub enum Before {
    /// A session begins, makes a call, and ends.
    Session,
    /// A pool runs with one worker and one job.
    Run,
}

/// How many sessions end, and how many pairs of renames follow.
#[derive(Drop)]
struct Sessions {
    times: u32,
    pairs: u32,
}

/// How often a pool runs, and how many pairs of renames follow.
#[derive(Clone, Copy)]
struct Runs {
    times: u32,
    pairs: u32,
}

fn path(alloc: Global, text: &[u8]) -> Option<Path> {
    Path::parse(alloc, text).ok()
}

/// Whether a call is answered.
fn is_answered<N: Named, R: Wait + Clock>(
    rt: &R,
    alloc: Global,
    session: &mut Session<'_, N>,
    call: &Call,
) -> bool {
    session.call(rt, alloc, call, &Open).is_ok()
}

/// One session, from its begin to its end. Whether its call is answered.
fn one_session<N: Named, R: Wait + Clock>(
    rt: &R,
    alloc: Global,
    fs: &AtomFs<N>,
    call: &Call,
) -> Option<bool> {
    let mut session = fs.session(rt).ok()?;
    let is_answered = is_answered(rt, alloc, &mut session, call);
    let _tally = session.end();
    Some(is_answered)
}

/// One run of a pool, of one job by one worker.
fn one_run<N: Named + Send + Sync, R: Threads + Wait + Clock + Sync>(
    rt: &R,
    alloc: Global,
    fs: &AtomFs<N>,
    pool: &mut Pool<N>,
    call: &Call,
) -> Option<()> {
    pool.submit(call.copy(alloc).ok()?).ok()?;
    pool.run(rt, alloc, fs, 1, &Open).ok()
}

fn rename_call(alloc: Global, from: &[u8], to: &[u8]) -> Option<Call> {
    let from = path(alloc, from)?;
    Some(Call::Rename(from, path(alloc, to)?))
}

/// The calls by which a directory is made, and goes there and back.
fn calls(alloc: Global) -> Option<Vec<Call>> {
    let mut calls = Vec::new(alloc);
    calls.push(Call::Mkdir(path(alloc, b"/a")?)).ok()?;
    calls.push(rename_call(alloc, b"/a", b"/b")?).ok()?;
    calls.push(rename_call(alloc, b"/b", b"/a")?).ok()?;
    Some(calls)
}

/// Makes these calls, those after the first so many times. Whether each is answered.
fn are_answered<N: Named, R: Wait + Clock>(
    rt: &R,
    alloc: Global,
    session: &mut Session<'_, N>,
    calls: &[Call],
    times: u32,
) -> bool {
    let [made, there, back] = calls else {
        return false;
    };
    if !is_answered(rt, alloc, session, made) {
        return false;
    }
    for _ in 0..times {
        if !(is_answered(rt, alloc, session, there) && is_answered(rt, alloc, session, back)) {
            return false;
        }
    }
    true
}

/// Renames by one session more: how many calls it had answered.
fn renames<N: Named, R: Wait + Clock>(
    rt: &R,
    alloc: Global,
    fs: &AtomFs<N>,
    pairs: u32,
) -> Option<u64> {
    let calls = calls(alloc)?;
    let mut session = fs.session(rt).ok()?;
    let are_answered = are_answered(rt, alloc, &mut session, &calls, pairs);
    let count = session.count();
    are_answered.then_some(count)
}

/// Sessions that end.
fn end_sessions<N: Named, R: Wait + Clock>(
    rt: &R,
    alloc: Global,
    fs: &AtomFs<N>,
    call: &Call,
    times: u32,
) -> Option<bool> {
    for _ in 0..times {
        if !one_session(rt, alloc, fs, call)? {
            return Some(false);
        }
    }
    Some(true)
}

/// The same, each with a look at the root.
fn look_and_end<N: Named, R: Wait + Clock>(
    rt: &R,
    alloc: Global,
    fs: &AtomFs<N>,
    times: u32,
) -> Option<bool> {
    let call = Call::Stat(path(alloc, b"/")?);
    end_sessions(rt, alloc, fs, &call, times)
}

/// Sessions that end, and then renames.
fn behind_sessions<N: Named, R: Wait + Clock>(
    rt: &R,
    alloc: Global,
    fs: &AtomFs<N>,
    sessions: &Sessions,
) -> Option<u64> {
    if look_and_end(rt, alloc, fs, sessions.times)? {
        renames(rt, alloc, fs, sessions.pairs)
    } else {
        None
    }
}

impl Inside for Sessions {
    type Out = Option<u64>;

    fn run<N: Named + Send + Sync, R: Threads + Wait + Clock + Sync>(
        &self,
        rt: &R,
        alloc: Global,
        fs: &AtomFs<N>,
    ) -> (Self::Out, Vec<Tally<N>>) {
        (behind_sessions(rt, alloc, fs, self), Vec::new(alloc))
    }
}

/// Runs of a pool.
fn run_pool<N: Named + Send + Sync, R: Threads + Wait + Clock + Sync>(
    rt: &R,
    alloc: Global,
    fs: &AtomFs<N>,
    pool: &mut Pool<N>,
    call: &Call,
    times: u32,
) -> Option<()> {
    for _ in 0..times {
        one_run(rt, alloc, fs, pool, call)?;
    }
    Some(())
}

/// The same of a new pool, each with a look at the root.
fn look_by_pool<N: Named + Send + Sync, R: Threads + Wait + Clock + Sync>(
    rt: &R,
    alloc: Global,
    fs: &AtomFs<N>,
    times: u32,
) -> Option<()> {
    let mut pool = Pool::<N>::new(rt, alloc, 1).ok()?;
    let call = Call::Stat(path(alloc, b"/")?);
    run_pool(rt, alloc, fs, &mut pool, &call, times)
}

/// Runs of a pool, and then renames.
fn behind_runs<N: Named + Send + Sync, R: Threads + Wait + Clock + Sync>(
    rt: &R,
    alloc: Global,
    fs: &AtomFs<N>,
    runs: Runs,
) -> Option<u64> {
    look_by_pool(rt, alloc, fs, runs.times)?;
    renames(rt, alloc, fs, runs.pairs)
}

/// The same on a tree of its own. What starts threads on a tree names it.
fn runs_on_named<N: Named + Send + Sync, R: Threads + Wait + Clock + Sync>(
    rt: &R,
    alloc: Global,
    opened: Opened,
    blank: Blank,
    runs: Runs,
) -> Option<u64>
    requires book { opened ≡ N.book }
    requires name { blank.name ≡ N.name }
    requires parts { blank.parts ≡ N.parts }
    requires all { blank.parts ≡ 2 ^ 63 }
{
    let fs = AtomFs::<N>::open(rt, alloc, opened, blank).ok()?;
    let count = behind_runs(rt, alloc, &fs, runs);
    let _closed = fs.close(rt, Vec::new(alloc));
    count
}

/// How many calls the last session had answered, on a new tree.
fn count<R: Threads + Wait + Clock + Sync>(
    rt: &R,
    alloc: Global,
    before: Before,
    times: u32,
    pairs: u32,
) -> Option<u64> {
    match before {
        Before::Session => {
            let (count, _closed) = with_tree(rt, alloc, &Sessions { times, pairs }).ok()?;
            count
        }
        Before::Run => {
            let (opened, blank) = (Opened::new(), Blank::new(1 << 63));
            runs_on_named::<Brand, R>(rt, alloc, opened, blank, Runs { times, pairs })
        }
    }
}

/// So many times what comes before, then the renames, or none of them; how many calls the last session had answered.
pub fn run<R: Print + Threads + Wait + Clock + Sync>(
    rt: &R,
    alloc: Global,
    before: Before,
    times: u32,
    renames: bool,
) -> Result<()> {
    let pairs = if renames { PAIRS } else { 0 };
    match count(rt, alloc, before, times, pairs) {
        Some(count) => Ok(println!(rt; "renames and a mkdir: {count}")?),
        None => bail!("a call was refused, or there was no memory"),
    }
}
