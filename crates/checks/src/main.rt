//! Checks what is not proved and what neither the program nor the library for C shows. `checks` runs each library of checks in turn, and
//! `checks NAME` one of them. The gate runs the first, and compares its output with the file `stdout` beside `src/`, whose worked tables
//! are there to be read. Each library says what it checks; `data/` has a folder for the one that reads files.
//!
//! `checks time observers READS` and, with a script on standard input, `checks time threads` time parts of AtomFS (`bench`). `checks time
//! ended TIMES` makes renames after so many sessions have ended, and `checks time sessions TIMES` times the sessions alone. `run` and
//! `pools` do the same with runs of a pool. `checks time writes CALLS` keeps calls that write, for a look at the memory. `scattered`,
//! `appended` and `shared` fill a file of so many mebibytes in blocks.
#![tactic(auto)]

use anyhow::{Result, bail};
use bench::{Before, Filling};
use std::alloc::Global;
use std::env;
use std::io::{self, Read};
use std::rt::Files;
use std::sync::Wait;
use std::thread::Threads;
use std::time::Clock;

/// The libraries, by the words that name them, in the order in which all are run.
const NAMES: [&str; 6] = [
    "calls",
    "stores",
    "threads",
    "observers",
    "refused",
    "bench",
];

/// Runs a library, by its name.
fn run<R: Files + AllocGlobal + Print + Threads + Wait + Clock + Sync>(
    rt: &R,
    name: &str,
) -> Result<()> {
    match name {
        "calls" => check_calls::run(rt),
        "stores" => check_stores::run(rt, rt.alloc()),
        "threads" => check_threads::run(rt, rt.alloc()),
        "observers" => check_observers::run(rt, rt.alloc()),
        "refused" => check_refused::run(rt, rt.alloc()),
        "bench" => bench::run(rt, rt.alloc()),
        _ => bail!("{name}: no library of checks"),
    }
}

/// Runs each library, with a line above what it writes.
fn run_all<R: Files + AllocGlobal + Print + Threads + Wait + Clock + Sync>(rt: &R) -> Result<()> {
    for name in NAMES {
        println!(rt; "==== {name}")?;
        run(rt, name)?;
    }
    Ok(())
}

/// Times the part that a word names, with so many calls or reads.
fn time<R: Print + Threads + Wait + Clock + Sync>(
    rt: &R,
    alloc: Global,
    part: &str,
    number: u32,
) -> Result<()> {
    match part {
        "observers" => bench::time_observers(rt, alloc, number),
        "writes" => bench::keep_writes(rt, alloc, number),
        "scattered" => bench::fill_file(rt, alloc, Filling::Scattered, number),
        "appended" => bench::fill_file(rt, alloc, Filling::Appended(4_096), number),
        "shared" => bench::fill_file(rt, alloc, Filling::Shared(16_384), number),
        "sessions" => bench::time_ended(rt, alloc, Before::Session, number, false),
        "ended" => bench::time_ended(rt, alloc, Before::Session, number, true),
        "pools" => bench::time_ended(rt, alloc, Before::Run, number, false),
        "run" => bench::time_ended(rt, alloc, Before::Run, number, true),
        _ => bail!("{part}: no part that is timed"),
    }
}

/// The words after the name of the program.
fn words_once(rt: &HostRuntime) -> io::Result<Vec<String>> {
    let mut words = Vec::new(rt.alloc());
    for word in env::args(rt)?.skip(1) {
        words.push(word)?;
    }
    Ok(words)
}

/// The same, once more where memory was refused.
fn words(rt: &HostRuntime) -> io::Result<Vec<String>> {
    match words_once(rt) {
        Ok(words) => Ok(words),
        Err(_) => words_once(rt),
    }
}

/// The bytes of standard input.
fn input(rt: &HostRuntime) -> io::Result<Vec<u8>> {
    let mut text = Vec::new(rt.alloc());
    rt.stdin().read_to_end(&mut text)?;
    Ok(text)
}

fn main(rt: HostRuntime) -> Result<()> {
    let words = words(&rt)?;
    match words.as_slice() {
        [] => run_all(&rt),
        [name] => run(&rt, name.as_str()),
        [word, part] if word.as_str() == "time" && part.as_str() == "threads" => {
            bench::time_threads(&rt, rt.alloc(), &input(&rt)?)
        }
        [word, part, number] if word.as_str() == "time" => {
            time(&rt, rt.alloc(), part.as_str(), number.as_str().parse()?)
        }
        _ => bail!("no word, a library of checks, or `time` and a part"),
    }
}
