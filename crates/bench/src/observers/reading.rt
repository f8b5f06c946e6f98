//! A writer that publishes, and observers that read beside it.

use fs_calls::{Call, Data, Reply};
use fs_names::{Kind, Path};
use fs_share::{AtomFs, Named, Observer, Open, Session};
use std::alloc::Global;
use std::sync::Wait;
use std::sync::atomic::{AtomicU64, Ordering};
use std::thread;
use std::thread::Threads;
use std::time::{Clock, Duration, Instant};

/// How many microseconds the writer sleeps between two calls.
const PAUSE: u64 = 100;

/// The file that is read, of 32 bytes.
fn file(alloc: Global) -> Option<Path> {
    Path::parse(alloc, b"/a/b/f").ok()
}

fn written(alloc: Global) -> Option<Call> {
    let bytes = Data::from_slice(alloc, [b'x'; 32].as_slice()).ok()?;
    Some(Call::Write(file(alloc)?, 0, bytes))
}

fn mkdir(alloc: Global, text: &[u8]) -> Option<Call> {
    Some(Call::Mkdir(Path::parse(alloc, text).ok()?))
}

fn mknod(alloc: Global) -> Option<Call> {
    Some(Call::Mknod(file(alloc)?))
}

/// The calls that make the file.
fn makings(alloc: Global) -> Option<Vec<Call>> {
    let mut calls = Vec::new(alloc);
    calls.push(mkdir(alloc, b"/a")?).ok()?;
    calls.push(mkdir(alloc, b"/a/b")?).ok()?;
    calls.push(mknod(alloc)?).ok()?;
    calls.push(written(alloc)?).ok()?;
    Some(calls)
}

/// Makes a call and publishes it. Whether it has a stamp.
fn is_told<N: Named, R: Wait + Clock>(
    rt: &R,
    alloc: Global,
    session: &mut Session<'_, N>,
    call: &Call,
) -> bool {
    match session.call_told(rt, alloc, call, &Open) {
        Ok(told) => told.stamp.is_some(),
        Err(_) => false,
    }
}

/// Makes calls and publishes them, as far as they have stamps. Whether all have.
fn are_told<N: Named, R: Wait + Clock>(
    rt: &R,
    alloc: Global,
    session: &mut Session<'_, N>,
    calls: &[Call],
) -> bool {
    for call in calls {
        if !is_told(rt, alloc, session, call) {
            return false;
        }
    }
    true
}

/// The same by a session of its own.
fn tells<N: Named, R: Wait + Clock>(rt: &R, alloc: Global, fs: &AtomFs<N>, calls: &[Call]) -> bool {
    match fs.session(rt) {
        Ok(mut session) => are_told(rt, alloc, &mut session, calls),
        Err(_) => false,
    }
}

/// Makes the file.
fn make<N: Named, R: Wait + Clock>(rt: &R, alloc: Global, fs: &AtomFs<N>) -> Option<bool> {
    let calls = makings(alloc)?;
    Some(tells(rt, alloc, fs, &calls))
}

/// A write to the file, published.
fn writes_once<N: Named, R: Wait + Clock>(
    rt: &R,
    alloc: Global,
    session: &mut Session<'_, N>,
) -> Option<bool> {
    let call = written(alloc)?;
    Some(is_told(rt, alloc, session, &call))
}

/// Writes to the file, published each time, until no observer reads any more.
fn writes_by<N: Named, R: Wait + Clock>(
    rt: &R,
    alloc: Global,
    session: &mut Session<'_, N>,
    reading: &AtomicU64,
) -> Option<()> {
    for _ in 0..u64::MAX {
        if reading.load(Ordering::SeqCst) == 0 {
            break;
        }
        if !writes_once(rt, alloc, session)? {
            return None;
        }
        thread::sleep(rt, Duration::from_micros(PAUSE));
    }
    Some(())
}

/// The same by a session of its own.
fn writes<N: Named, R: Wait + Clock>(
    rt: &R,
    alloc: Global,
    fs: &AtomFs<N>,
    reading: &AtomicU64,
) -> Option<()> {
    match fs.session(rt) {
        Ok(mut session) => writes_by(rt, alloc, &mut session, reading),
        Err(_) => None,
    }
}

/// Whether a stat answers 32 bytes.
fn stats<N: Named>(alloc: Global, observer: &mut Observer<'_, N>, path: &Path) -> bool {
    matches!(observer.stat(alloc, path), Ok(Reply::Stat(Kind::File, 32)))
}

/// Whether a read answers 32 bytes.
fn reads<N: Named>(alloc: Global, observer: &mut Observer<'_, N>, path: &Path) -> bool {
    match observer.read(alloc, path, 0, 64) {
        Ok(Reply::Bytes(bytes)) => bytes.as_slice().len() == 32,
        _ => false,
    }
}

/// A stat or a read of the file, in turn. Whether it answers 32 bytes.
fn reads_once<N: Named>(
    alloc: Global,
    observer: &mut Observer<'_, N>,
    path: &Path,
    number: u64,
) -> bool {
    if number % 2 == 0 {
        stats(alloc, observer, path)
    } else {
        reads(alloc, observer, path)
    }
}

/// So many stats and reads by an observer.
fn reads_by<N: Named>(
    alloc: Global,
    observer: &mut Observer<'_, N>,
    path: &Path,
    reads: u64,
) -> Option<()> {
    for number in 0..reads {
        if !reads_once(alloc, observer, path, number) {
            return None;
        }
    }
    Some(())
}

/// The same by an observer of a tree.
fn reads_all<N: Named, R: Wait>(rt: &R, alloc: Global, fs: &AtomFs<N>, reads: u64) -> Option<()> {
    let path = file(alloc)?;
    match fs.observer(rt) {
        Ok(mut observer) => reads_by(alloc, &mut observer, &path, reads),
        Err(_) => None,
    }
}

/// The writer's part, which has number 0, or an observer's.
fn part<N: Named, R: Wait + Clock>(
    rt: &R,
    alloc: Global,
    fs: &AtomFs<N>,
    reading: &AtomicU64,
    (number, reads): (usize, u64),
) -> Option<()> {
    if number == 0 {
        return writes(rt, alloc, fs, reading);
    }
    let done = reads_all(rt, alloc, fs, reads);
    reading.fetch_sub(1, Ordering::SeqCst);
    done
}

/// How long so many observers take for so many reads each.
pub fn timed<N: Named + Send + Sync, R: Threads + Wait + Clock + Sync>(
    rt: &R,
    alloc: Global,
    fs: &AtomFs<N>,
    observers: u64,
    reads: u64,
) -> Option<Duration> {
    if !make(rt, alloc, fs)? {
        return None;
    }
    let reading = AtomicU64::new(observers);
    let threads = (observers as usize).checked_add(1)?;
    let start = Instant::now(rt).ok()?;
    let parts = thread::map_indices(
        rt,
        alloc,
        threads,
        &|number| part(rt, alloc, fs, &reading, (number, reads)),
    );
    let time = start.elapsed(rt).ok()?;
    if parts.ok()?.iter().all(|part| part.is_some()) {
        Some(time)
    } else {
        None
    }
}
