//! Sessions, published calls, observers and jobs on a tree that is shared.

ghost use Rattle.std.specs.Prelude.{◌≡◌, ◌^◌};

mod again;
mod begins;

use crate::alone::count_of;
use again::{call, path, readdir, submit, told};
use begins::begin_again;
use fs_calls::{Call, Reply};
use fs_share::{AtomFs, Closed, Named, Observer, Open, Opened, Refusal, Session, Stamp, Tally};
use fs_share_pool::{Collected, Job, Pool};
use std::alloc::Global;
use std::marker::Brand;
use std::sync::Wait;
use std::sync::ledger::Blank;
use std::thread::Threads;
use std::time::Clock;

/// What was seen on a shared tree.
#[derive(Drop)]
pub struct Seen {
    /// How many calls a session had answered.
    pub answered: usize,
    /// How many names an observer shows that has learned of them.
    pub shown: usize,
    /// The numbers of the jobs.
    pub numbers: (u64, u64),
    /// How many jobs were done or are left, each as it must be.
    pub jobs: usize,
    /// How many of those that were done were refused.
    pub refused: usize,
    /// Whether the tree that began again shows its empty directory.
    pub again: bool,
}

/// A session, asked for once more where it was refused.
fn session<'a, N: Named, R: Wait>(rt: &R, fs: &'a AtomFs<N>) -> Option<Session<'a, N>> {
    fs.session(rt).or_else(|_| fs.session(rt)).ok()
}

/// An observer, asked for once more where it was refused.
fn observer<'a, N: Named, R: Wait>(rt: &R, fs: &'a AtomFs<N>) -> Option<Observer<'a, N>> {
    fs.observer(rt).or_else(|_| fs.observer(rt)).ok()
}

/// How many calls are answered.
fn answers<N: Named, R: Wait + Clock>(
    rt: &R,
    alloc: Global,
    session: &mut Session<'_, N>,
    calls: &[Call],
) -> Option<usize> {
    let mut answered = 0usize;
    for each in calls {
        let _answer = call(rt, alloc, session, each)?;
        answered = answered.wrapping_add(1);
    }
    Some(answered)
}

/// The stamp of a published call.
fn stamp_of<N: Named, R: Wait + Clock>(
    rt: &R,
    alloc: Global,
    session: &mut Session<'_, N>,
    call: &Call,
) -> Option<Stamp<N>> {
    let told = told(rt, alloc, session, call)?;
    told.stamp
}

/// The stamp of the last of published calls. If it has none, the stamp of a further one covers it too.
fn newest<N: Named, R: Wait + Clock>(
    rt: &R,
    alloc: Global,
    session: &mut Session<'_, N>,
    calls: &[Call],
) -> Option<Stamp<N>> {
    for each in calls {
        let _stamp = stamp_of(rt, alloc, session, each);
    }
    let last = calls.last()?;
    match stamp_of(rt, alloc, session, last) {
        Some(stamp) => Some(stamp),
        None => stamp_of(rt, alloc, session, last),
    }
}

/// How many names an observer shows at the root that learns of published calls.
fn shown<N: Named, R: Wait + Clock>(
    rt: &R,
    alloc: Global,
    fs: &AtomFs<N>,
    stamp: &Stamp<N>,
) -> Option<usize> {
    let root = path(alloc, b"/")?;
    let mut observer = observer(rt, fs)?;
    observer.learn(stamp);
    match readdir(alloc, &mut observer, &root)? {
        Reply::Names(names) => Some(count_of(&names)),
        _ => None,
    }
}

/// A pool of two jobs, asked for once more where it was refused.
fn pool<N: Named, R: Wait>(rt: &R, alloc: Global) -> Option<Pool<N>> {
    match Pool::<N>::new(rt, alloc, 2) {
        Ok(pool) => Some(pool),
        Err(_) => Pool::<N>::new(rt, alloc, 2).ok(),
    }
}

/// The calls of both jobs. Each asks for names, for which its begin takes memory.
fn readdirs(alloc: Global) -> Option<(Call, Call)> {
    Some((
        Call::Readdir(path(alloc, b"/a")?),
        Call::Readdir(path(alloc, b"/c")?),
    ))
}

/// The number of a job. A copy of its call takes no memory.
fn submit_copy<N: Named>(alloc: Global, pool: &mut Pool<N>, call: &Call) -> Option<u64> {
    let number = submit(pool, call.copy(alloc).ok()?, call)?;
    Some(number.get())
}

/// The numbers of two jobs, which one worker does. Where it finds no memory for an answer it stops, and leaves its job to the
/// second run.
fn work<N: Named + Send + Sync, R: Threads + Wait + Clock + Sync>(
    rt: &R,
    alloc: Global,
    fs: &AtomFs<N>,
    pool: &mut Pool<N>,
    calls: &(Call, Call),
) -> Option<(u64, u64)> {
    let first = submit_copy(alloc, pool, &calls.0)?;
    let second = submit_copy(alloc, pool, &calls.1)?;
    let _first = pool.run(rt, alloc, fs, 1, &Open);
    let _second = pool.run(rt, alloc, fs, 1, &Open);
    Some((first, second))
}

/// Whether a job that is left has the call that was submitted under its number.
fn is_left(job: &Job, calls: &(Call, Call)) -> bool {
    match job.no.get() {
        0 => job.call.same(&calls.0),
        1 => job.call.same(&calls.1),
        _ => false,
    }
}

/// How many jobs of a pool are done or left, each as it must be, and how many were refused: only because memory ran
/// out.
fn counts<N: Named>(collected: &Collected<N>, calls: &(Call, Call)) -> (usize, usize) {
    let mut count = 0usize;
    let mut refused = 0usize;
    for done in &collected.done {
        match &done.answer {
            Ok(_) => count = count.wrapping_add(1),
            Err(Refusal::OutOfMemory) => {
                count = count.wrapping_add(1);
                refused = refused.wrapping_add(1);
            }
            Err(_) => {}
        }
    }
    for job in &collected.left {
        if is_left(job, calls) {
            count = count.wrapping_add(1);
        }
    }
    (count, refused)
}

/// What became of two jobs: their numbers, and how many are done or left and were refused.
#[derive(Drop)]
struct Came {
    numbers: (u64, u64),
    counts: (usize, usize),
}

/// The same by their calls, with the tallies of their workers.
fn jobs_of<N: Named + Send + Sync, R: Threads + Wait + Clock + Sync>(
    rt: &R,
    alloc: Global,
    fs: &AtomFs<N>,
    calls: &(Call, Call),
) -> Option<(Came, Vec<Tally<N>>)> {
    let mut pool = pool(rt, alloc)?;
    let numbers = work(rt, alloc, fs, &mut pool, calls);
    let collected = pool.collect();
    let counts = counts(&collected, calls);
    let numbers = numbers?;
    Some((Came { numbers, counts }, collected.tallies))
}

fn jobs<N: Named + Send + Sync, R: Threads + Wait + Clock + Sync>(
    rt: &R,
    alloc: Global,
    fs: &AtomFs<N>,
) -> Option<(Came, Vec<Tally<N>>)> {
    let calls = readdirs(alloc)?;
    jobs_of(rt, alloc, fs, &calls)
}

/// How many calls a session has answered, and how many names an observer shows that has learned of further ones.
fn see<N: Named, R: Wait + Clock>(
    rt: &R,
    alloc: Global,
    fs: &AtomFs<N>,
    session: &mut Session<'_, N>,
    calls: &[Call],
    told: &[Call],
) -> Option<(usize, usize)> {
    let answered = answers(rt, alloc, session, calls)?;
    let stamp = newest(rt, alloc, session, told)?;
    let shown = shown(rt, alloc, fs, &stamp)?;
    Some((answered, shown))
}

/// Puts a tally after others.
fn add<N: Named>(tallies: &mut Vec<Tally<N>>, tally: Tally<N>) -> Option<()> {
    if tallies.reserve(1).is_err() {
        tallies.reserve(1).ok()?;
    }
    tallies.push(tally).ok()
}

/// What is seen on a tree, by one session after the other.
fn on<N: Named + Send + Sync, R: Threads + Wait + Clock + Sync>(
    rt: &R,
    alloc: Global,
    fs: &AtomFs<N>,
    calls: &[Call],
    told: &[Call],
) -> Option<(Seen, Vec<Tally<N>>)> {
    let mut session = session(rt, fs)?;
    let seen = see(rt, alloc, fs, &mut session, calls, told);
    let tally = session.end();
    let (answered, shown) = seen?;
    let (came, mut tallies) = jobs(rt, alloc, fs)?;
    add(&mut tallies, tally)?;
    let (jobs, refused) = came.counts;
    let seen = Seen {
        answered,
        shown,
        numbers: came.numbers,
        jobs,
        refused,
        again: false,
    };
    Some((seen, tallies))
}

/// The same on a tree of a name, which begins again and is closed; none where the tree was refused.
fn on_named<N: Named + Send + Sync, R: Threads + Wait + Clock + Sync>(
    rt: &R,
    alloc: Global,
    opened: Opened,
    blank: Blank,
    calls: &[Call],
    told: &[Call],
) -> Option<Option<(Seen, Closed)>>
    requires book { opened ≡ N.book }
    requires name { blank.name ≡ N.name }
    requires parts { blank.parts ≡ N.parts }
    requires all { blank.parts ≡ 2 ^ 63 }
{
    let fs = AtomFs::<N>::open(rt, alloc, opened, blank).ok()?;
    let Some((seen, tallies)) = on(rt, alloc, &fs, calls, told) else {
        let _closed = fs.close(rt, Vec::new(alloc));
        return Some(None);
    };
    let blank = Blank::new(1 << 63);
    let (opened, other) = (Opened::new(), Opened::new());
    let (again, closed) = begin_again::<N, Brand, Brand, R>(
        rt, alloc, fs, tallies, blank, opened, other,
    );
    Some(again.map(|again| (Seen { again, ..seen }, closed)))
}

/// The same on a tree of its own; none where the tree was refused.
fn once<R: Threads + Wait + Clock + Sync>(
    rt: &R,
    alloc: Global,
    calls: &[Call],
    told: &[Call],
) -> Option<Option<(Seen, Closed)>> {
    on_named::<Brand, R>(rt, alloc, Opened::new(), Blank::new(1 << 63), calls, told)
}

/// What is seen on a tree, and what is there when it was closed.
pub fn on_tree<R: Threads + Wait + Clock + Sync>(
    rt: &R,
    alloc: Global,
    calls: &[Call],
    told: &[Call],
) -> Option<(Seen, Closed)> {
    match once(rt, alloc, calls, told) {
        Some(came) => came,
        None => once(rt, alloc, calls, told)?,
    }
}
