//! Observers and a published rename, while a call is held by its gate.

use crate::calls::{Deed, Sight, makes};
use crate::told::{Step, comes_out};
use crate::waiting::reaches;
use fs_core::Stepped;
use fs_share::{AtomFs, Gate, Named};
use std::alloc::Global;
use std::sync::Wait;
use std::sync::atomic::{AtomicU64, Ordering};
use std::thread;
use std::thread::Threads;
use std::time::Clock;

/// Holds its caller after so many events until it is let go.
#[derive(Drop)]
struct Holds {
    at: u64,
    events: AtomicU64,
    stands: AtomicU64,
    freed: AtomicU64,
    found: AtomicU64,
}

impl Holds {
    fn new(at: u64) -> Holds {
        Holds {
            at,
            events: AtomicU64::new(0),
            stands: AtomicU64::new(0),
            freed: AtomicU64::new(0),
            found: AtomicU64::new(0),
        }
    }
}

impl Gate for Holds {
    fn after<R: Wait + Clock>(&self, rt: &R, _stepped: &Stepped) {
        if self.events.fetch_add(1, Ordering::SeqCst).wrapping_add(1) != self.at {
            return;
        }
        self.stands.store(1, Ordering::SeqCst);
        if reaches(rt, &self.freed, 1) {
            self.found.store(1, Ordering::SeqCst);
        }
    }
}

/// The tree with `/a/d`.
const MADE: &[Step] = &[
    Step::Tells(Deed::Mkdir(b"/a"), 0),
    Step::Tells(Deed::Mkdir(b"/a/d"), 1),
];

/// An observer answers by what was published.
const ANSWERS: &[Step] = &[
    Step::Shows(b"/a", Sight::Name(b'd')),
    Step::Shows(b"/a/d", Sight::EmptyDir),
    Step::Counts(2),
];

/// The directory above is renamed after the call that is held. An observer that learns of it shows what that call made.
const MOVES: &[Step] = &[
    Step::Tells(Deed::Rename(b"/a", b"/b"), 3),
    Step::Learns(0),
    Step::Shows(b"/b/d", Sight::Name(b'x')),
    Step::Counts(4),
];

/// Makes `/a/d/x` by a call that is not published. Whether it is made.
fn is_made<N: Named, R: Wait + Clock>(
    rt: &R,
    alloc: Global,
    fs: &AtomFs<N>,
    gate: &Holds,
) -> Option<bool> {
    match fs.session(rt) {
        Ok(mut session) => makes(rt, alloc, &mut session, Deed::Mkdir(b"/a/d/x"), gate),
        Err(_) => None,
    }
}

/// What is done once the caller is held, after which it is let go.
fn meanwhile<N: Named, R: Wait + Clock>(
    rt: &R,
    alloc: Global,
    fs: &AtomFs<N>,
    gate: &Holds,
    steps: &[Step],
) -> Option<bool> {
    let stands = reaches(rt, &gate.stands, 1);
    let seen = comes_out(rt, alloc, fs, steps);
    gate.freed.store(1, Ordering::SeqCst);
    Some(stands && seen?)
}

/// Holds a call that makes `/a/d/x` after so many events, and does the steps meanwhile.
fn beside<N: Named + Send + Sync, R: Threads + Wait + Clock + Sync>(
    rt: &R,
    alloc: Global,
    fs: &AtomFs<N>,
    gate: &Holds,
    steps: &[Step],
) -> Option<bool> {
    let (made, seen) = thread::join(
        rt,
        || is_made(rt, alloc, fs, gate),
        || meanwhile(rt, alloc, fs, gate, steps),
    );
    Some(made? && seen? && gate.found.load(Ordering::SeqCst) == 1)
}

/// The same on a tree with `/a/d`: an observer answers, or the directory is renamed by a published call.
pub fn comes_out_beside<N: Named + Send + Sync, R: Threads + Wait + Clock + Sync>(
    rt: &R,
    alloc: Global,
    fs: &AtomFs<N>,
    at: u64,
    is_moved: bool,
) -> Option<bool> {
    match comes_out(rt, alloc, fs, MADE) {
        Some(true) => {
            let steps = if is_moved { MOVES } else { ANSWERS };
            beside(rt, alloc, fs, &Holds::new(at), steps)
        }
        other => other,
    }
}
