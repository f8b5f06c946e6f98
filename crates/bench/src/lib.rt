//! Times the parts of AtomFS that neither the program nor the library for C times. These are the calls of a script's threads on one shared
//! tree, and observers that read while a writer publishes its calls. In the gate it does each with a few calls and writes no times. There
//! it also counts the entries that calls look at as a tree grows, which the program and the library do not report either.
//!
//! Enter at `run`, or for one part, timed, at `time_threads`, `time_observers` and `time_ended`. Only programs that are no part of the
//! product use it, and it promises nothing.
#![tactic(auto)]

mod ended;
mod files;
mod growth;
mod observers;
mod threads;
mod writes;

use anyhow::Result;
pub use ended::Before;
pub use files::Filling;
use std::alloc::Global;
use std::sync::Wait;
use std::thread::Threads;
use std::time::Clock;

/// How many reads each observer does, in the gate.
const FEW: u32 = 500;

/// How many writes are played in the gate.
const FEW_WRITES: u32 = 20;

/// The calls of two threads, in the gate.
const CALLS: &[u8] = b"\
atomfs 1
thread first
mkdir /a
mknod /a/f
write /a/f 0 6869
read /a/f 0 8
thread second
mkdir /b
rename /b /c
readdir /c
schedule
";

/// Times the calls of a script's threads.
pub fn time_threads<R: Print + Threads + Wait + Clock + Sync>(
    rt: &R,
    alloc: Global,
    script: &[u8],
) -> Result<()> {
    threads::run(rt, alloc, script, true)
}

/// Times observers, of which each reads so often.
pub fn time_observers<R: Print + Threads + Wait + Clock + Sync>(
    rt: &R,
    alloc: Global,
    reads: u32,
) -> Result<()> {
    observers::run(rt, alloc, reads.into(), true)
}

/// So many sessions that end, or runs of a pool, and then renames, or none of them.
pub fn time_ended<R: Print + Threads + Wait + Clock + Sync>(
    rt: &R,
    alloc: Global,
    before: Before,
    times: u32,
    renames: bool,
) -> Result<()> {
    ended::run(rt, alloc, before, times, renames)
}

/// So many writes of 4,000 bytes, whose calls are kept beside their journal.
pub fn keep_writes<R: Print>(rt: &R, alloc: Global, writes: u32) -> Result<()> {
    writes::run(rt, alloc, writes)
}

/// A file of so many mebibytes in blocks.
pub fn fill_file<R: Print>(rt: &R, alloc: Global, filling: Filling, mebibytes: u32) -> Result<()> {
    files::run(rt, alloc, filling, mebibytes as usize)
}

/// Each part with a few calls, and what calls cost as a tree grows.
pub fn run<R: Print + Threads + Wait + Clock + Sync>(rt: &R, alloc: Global) -> Result<()> {
    threads::run(rt, alloc, CALLS, false)?;
    observers::run(rt, alloc, FEW.into(), false)?;
    ended::run(rt, alloc, Before::Session, 2, true)?;
    ended::run(rt, alloc, Before::Run, 2, true)?;
    writes::run(rt, alloc, FEW_WRITES)?;
    files::run(rt, alloc, Filling::Scattered, 1)?;
    growth::run(rt, alloc)
}
