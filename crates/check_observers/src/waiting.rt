//! Waiting for another thread, up to a bound.

use std::sync::atomic::{AtomicU64, Ordering};
use std::thread;
use std::time::{Clock, Duration};

/// The most turns of a millisecond.
const TURNS: u64 = 10_000;

/// Waits until a number is at least so great, and answers whether it is.
pub fn reaches<R: Clock>(rt: &R, number: &AtomicU64, least: u64) -> bool {
    for _ in 0..TURNS {
        if number.load(Ordering::SeqCst) >= least {
            return true;
        }
        thread::sleep(rt, Duration::from_millis(1));
    }
    false
}
