//! An observer that answers while a writer publishes in a loop.

use crate::calls::{Deed, Sight, shows, tell};
use fs_share::{AtomFs, Named, Observer, Session};
use std::alloc::Global;
use std::sync::Wait;
use std::sync::atomic::{AtomicU64, Ordering};
use std::thread;
use std::thread::Threads;
use std::time::Clock;

/// How many calls are published at the most, two in each round.
const ROUNDS: usize = 500_000;

/// The observer asks until it is shown so many calls.
const SHOWN: u64 = 200;

/// Makes a directory and removes it. Whether each is published.
fn round<N: Named, R: Wait + Clock>(
    rt: &R,
    alloc: Global,
    session: &mut Session<'_, N>,
    place: usize,
) -> bool {
    let made = tell(rt, alloc, session, Deed::Mkdir(b"/a"), place).is_some();
    let place = place.wrapping_add(1);
    made && tell(rt, alloc, session, Deed::Rmdir(b"/a"), place).is_some()
}

/// What either thread says to the other.
#[derive(Drop)]
struct Flags {
    asked: AtomicU64,
    over: AtomicU64,
}

/// Publishes until the observer has asked. Whether it has.
fn rounds<N: Named, R: Wait + Clock>(
    rt: &R,
    alloc: Global,
    session: &mut Session<'_, N>,
    flags: &Flags,
) -> Option<bool> {
    for number in 0..ROUNDS {
        if !round(rt, alloc, session, 2 * number) {
            return None;
        }
        if flags.asked.load(Ordering::SeqCst) == 1 {
            return Some(true);
        }
    }
    Some(false)
}

/// The same by a session of its own.
fn publishes<N: Named, R: Wait + Clock>(
    rt: &R,
    alloc: Global,
    fs: &AtomFs<N>,
    flags: &Flags,
) -> Option<bool> {
    match fs.session(rt) {
        Ok(mut session) => rounds(rt, alloc, &mut session, flags),
        Err(_) => None,
    }
}

/// Whether an observer answers by its list, in which the directory is made and removed in turn.
fn answers<N: Named>(alloc: Global, observer: &mut Observer<'_, N>) -> Option<bool> {
    let count = observer.count();
    let sight = if count % 2 == 0 {
        Sight::Nothing
    } else {
        Sight::EmptyDir
    };
    Some(shows(alloc, observer, b"/a", sight)? || observer.count() != count)
}

/// Asks until many calls are shown, or the writer is over. Whether each answer was that of its list.
fn asks<N: Named>(alloc: Global, observer: &mut Observer<'_, N>, flags: &Flags) -> Option<bool> {
    for _ in 0..u64::MAX {
        if !answers(alloc, observer)? {
            return Some(false);
        }
        let is_enough = observer.count() >= SHOWN;
        if is_enough || flags.over.load(Ordering::SeqCst) == 1 {
            return Some(is_enough);
        }
    }
    Some(false)
}

/// The same by an observer of its own.
fn observes<N: Named, R: Wait>(
    rt: &R,
    alloc: Global,
    fs: &AtomFs<N>,
    flags: &Flags,
) -> Option<bool> {
    match fs.observer(rt) {
        Ok(mut observer) => asks(alloc, &mut observer, flags),
        Err(_) => None,
    }
}

/// A writer that publishes in a loop, and an observer, which ends first.
pub fn meet<N: Named + Send + Sync, R: Threads + Wait + Clock + Sync>(
    rt: &R,
    alloc: Global,
    fs: &AtomFs<N>,
) -> Option<bool> {
    let flags = Flags {
        asked: AtomicU64::new(0),
        over: AtomicU64::new(0),
    };
    let (published, answered) = thread::join(
        rt,
        || {
            let published = publishes(rt, alloc, fs, &flags);
            flags.over.store(1, Ordering::SeqCst);
            published
        },
        || {
            let answered = observes(rt, alloc, fs, &flags);
            flags.asked.store(1, Ordering::SeqCst);
            answered
        },
    );
    Some(published? && answered?)
}
