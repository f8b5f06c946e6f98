//! What allocates, done once more where memory was refused.

use fs_calls::{Call, Reply};
use fs_core::Refusal;
use fs_names::{Path, PathFault};
use fs_share::{Answer, Named, Observer, Open, Session, Told};
use fs_share_pool::{JobNo, NotTaken, Pool};
use std::alloc::{AllocError, Global};
use std::sync::Wait;
use std::time::Clock;

pub fn path(alloc: Global, text: &[u8]) -> Option<Path> {
    match Path::parse(alloc, text) {
        Err(PathFault::OutOfMemory) => Path::parse(alloc, text).ok(),
        read => read.ok(),
    }
}

/// A session's call. A refused one has counted nothing.
pub fn call<N: Named, R: Wait + Clock>(
    rt: &R,
    alloc: Global,
    session: &mut Session<'_, N>,
    call: &Call,
) -> Option<Answer> {
    let count = session.count();
    match session.call(rt, alloc, call, &Open) {
        Err(Refusal::OutOfMemory) if session.count() == count => {
            session.call(rt, alloc, call, &Open).ok()
        }
        answered => answered.ok(),
    }
}

/// A session's published call. A refused one has counted nothing. Each call that has committed is of this session, so
/// the call's place is known, whether it has a stamp or not.
pub fn told<N: Named, R: Wait + Clock>(
    rt: &R,
    alloc: Global,
    session: &mut Session<'_, N>,
    call: &Call,
) -> Option<Told<N>> {
    let count = session.count();
    let told = match session.call_told(rt, alloc, call, &Open) {
        Err(Refusal::OutOfMemory) if session.count() == count => {
            session.call_told(rt, alloc, call, &Open)
        }
        told => told,
    };
    let told = told.ok()?;
    if (told.place as u64).wrapping_add(1) == session.count() {
        Some(told)
    } else {
        None
    }
}

/// The names of a directory, by an observer, which shows as many commits after a refusal as before.
pub fn readdir<N: Named>(
    alloc: Global,
    observer: &mut Observer<'_, N>,
    path: &Path,
) -> Option<Reply> {
    let shown = observer.count();
    match observer.readdir(alloc, path) {
        Ok(reply) => Some(reply),
        Err(AllocError) if observer.count() == shown => observer.readdir(alloc, path).ok(),
        Err(AllocError) => None,
    }
}

/// The kind of a node, by an observer.
pub fn stat<N: Named>(alloc: Global, observer: &mut Observer<'_, N>, path: &Path) -> Option<Reply> {
    observer
        .stat(alloc, path)
        .or_else(|_| observer.stat(alloc, path))
        .ok()
}

/// A call that was handed back is submitted again, if it is the one that was submitted.
fn submit_again<N: Named>(pool: &mut Pool<N>, back: Call, call: &Call) -> Option<JobNo> {
    if back.same(call) {
        pool.submit(back).ok()
    } else {
        None
    }
}

/// A job of a copy of a call: a refusal hands that call back.
pub fn submit<N: Named>(pool: &mut Pool<N>, copy: Call, call: &Call) -> Option<JobNo> {
    match pool.submit(copy) {
        Ok(number) => Some(number),
        Err(NotTaken::OutOfMemory(back)) => submit_again(pool, back, call),
        Err(NotTaken::QueueFull(_)) => None,
    }
}
