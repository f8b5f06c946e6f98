//! The calls of a script's threads, each by a session of its own on one shared tree.

use anyhow::{Result, bail};
use fs_script::{Script, read_script};
use fs_share::{Closed, Open, run_lists_with};
use std::alloc::Global;
use std::sync::Wait;
use std::thread::Threads;
use std::time::{Clock, Duration, Instant};

/// How many entries the timeline has, and how long all calls took, if the clock says so.
type Played = (usize, Option<Duration>);

/// Plays the lists of a script on a tree of their own, by its limits.
fn play_lists<R: Threads + Wait + Clock + Sync>(
    rt: &R,
    alloc: Global,
    script: &Script,
) -> Result<Closed> {
    match run_lists_with(rt, alloc, script.lists.as_slice(), &Open, script.limits) {
        Ok(closed) => Ok(closed),
        Err(_) => bail!("the lists were not played to their end"),
    }
}

/// The same, timed. What is left is dropped later.
fn time_lists<R: Threads + Wait + Clock + Sync>(
    rt: &R,
    alloc: Global,
    script: &Script,
) -> Result<Played> {
    let start = Instant::now(rt)?;
    let closed = play_lists(rt, alloc, script)?;
    let time = start.elapsed(rt).ok();
    Ok((closed.timeline.entries().len(), time))
}

/// Plays the lists of a script.
fn play<R: Threads + Wait + Clock + Sync>(rt: &R, alloc: Global, text: &[u8]) -> Result<Played> {
    match read_script(alloc, text) {
        Ok(script) => time_lists(rt, alloc, &script),
        Err(_) => bail!("the input is no script"),
    }
}

/// Plays the lists of a script, whose reading is not timed.
pub fn run<R: Print + Threads + Wait + Clock + Sync>(
    rt: &R,
    alloc: Global,
    text: &[u8],
    timed: bool,
) -> Result<()> {
    let (entries, time) = play(rt, alloc, text)?;
    let Some(time) = time else {
        bail!("the clock tells no time");
    };
    println!(rt; "calls: {}", entries / 3)?;
    if timed {
        println!(rt; "microseconds: {}", time.as_micros())?;
    }
    Ok(())
}
