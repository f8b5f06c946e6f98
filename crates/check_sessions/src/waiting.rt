//! Waiting for a flag, up to a bound, and a gate that does so.

use fs_core::Stepped;
use fs_share::Gate;
use std::sync::Wait;
use std::sync::atomic::{AtomicU64, Ordering};
use std::thread;
use std::time::{Clock, Duration};

/// The most turns of a millisecond.
pub const TURNS: u64 = 10_000;

/// Waits until a flag is set, and answers whether it was.
pub fn is_set<R: Clock>(rt: &R, flag: &AtomicU64) -> bool {
    is_set_within(rt, flag, TURNS)
}

/// Waits for so many turns.
pub fn is_set_within<R: Clock>(rt: &R, flag: &AtomicU64, turns: u64) -> bool {
    for _ in 0..turns {
        if flag.load(Ordering::SeqCst) == 1 {
            return true;
        }
        thread::sleep(rt, Duration::from_millis(1));
    }
    false
}

/// Holds the first caller that lets the root go until a call has returned.
#[derive(Drop)]
pub struct FirstWaits {
    holds: AtomicU64,
    returned: AtomicU64,
    found: AtomicU64,
}

impl FirstWaits {
    pub fn new() -> FirstWaits {
        FirstWaits {
            holds: AtomicU64::new(0),
            returned: AtomicU64::new(0),
            found: AtomicU64::new(0),
        }
    }

    /// Whether the caller that waited saw another one return.
    pub fn has_met(&self) -> bool {
        self.found.load(Ordering::SeqCst) == 1
    }
}

impl Gate for FirstWaits {
    fn after<R: Wait + Clock>(&self, rt: &R, stepped: &Stepped) {
        match stepped {
            Stepped::Returned(_) => self.returned.store(1, Ordering::SeqCst),
            Stepped::LetGo(node) if node.get() == 0 => {
                if self.holds.swap(1, Ordering::SeqCst) == 0 && is_set(rt, &self.returned) {
                    self.found.store(1, Ordering::SeqCst);
                }
            }
            _ => {}
        }
    }
}
