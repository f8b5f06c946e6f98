//! Observers beside a writer that publishes.

ghost use Rattle.std.specs.Prelude.{◌≡◌, ◌^◌};

mod reading;

use anyhow::Result;
use fs_share::{AtomFs, Named, Opened};
use reading::timed;
use std::alloc::Global;
use std::marker::Brand;
use std::sync::Wait;
use std::sync::ledger::Blank;
use std::thread::Threads;
use std::time::{Clock, Duration};

fn on_named<N: Named + Send + Sync, R: Threads + Wait + Clock + Sync>(
    rt: &R,
    alloc: Global,
    opened: Opened,
    blank: Blank,
    observers: u64,
    reads: u64,
) -> Option<Duration>
    requires book { opened ≡ N.book }
    requires name { blank.name ≡ N.name }
    requires parts { blank.parts ≡ N.parts }
    requires all { blank.parts ≡ 2 ^ 63 }
{
    let fs = AtomFs::<N>::open(rt, alloc, opened, blank).ok()?;
    let time = timed(rt, alloc, &fs, observers, reads);
    let _closed = fs.close(rt, Vec::new(alloc));
    time
}

/// How long so many observers take for so many reads each, on a tree of its own, beside a writer that publishes.
fn on_tree<R: Threads + Wait + Clock + Sync>(
    rt: &R,
    alloc: Global,
    observers: u64,
    reads: u64,
) -> Option<Duration> {
    on_named::<Brand, R>(
        rt,
        alloc,
        Opened::new(),
        Blank::new(1 << 63),
        observers,
        reads,
    )
}

/// So many reads by each of one, two and four observers.
pub fn run<R: Print + Threads + Wait + Clock + Sync>(
    rt: &R,
    alloc: Global,
    reads: u64,
    timed: bool,
) -> Result<()> {
    for observers in [1u64, 2, 4] {
        let Some(time) = on_tree(rt, alloc, observers, reads) else {
            println!(rt; "{observers} observers: not run")?;
            continue;
        };
        let all = reads.wrapping_mul(observers);
        if !timed {
            println!(rt; "{observers} observers: {all} reads")?;
            continue;
        }
        let rate = u128::from(all)
            .wrapping_mul(1000)
            .checked_div(time.as_micros())
            .unwrap_or(0);
        println!(rt; "{observers} observers: {rate} thousand reads a second")?;
    }
    Ok(())
}
