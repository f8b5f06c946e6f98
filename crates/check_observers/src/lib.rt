//! Runs observers on shared trees beside callers that publish their calls, and says of each run whether it came out as it must. In some
//! runs a gate holds a call meanwhile, or writers publish. Neither the program nor the library for C has observers.
#![tactic(auto)]

mod again;
mod busy;
mod calls;
mod drawn;
mod handed;
mod held;
mod listed;
mod places;
mod rows;
mod told;
mod waiting;

use rows::{Row, on_tree};
use std::alloc::Global;
use std::sync::Wait;
use std::thread::Threads;
use std::time::Clock;

fn word(holds: Option<bool>) -> &'static str {
    match holds {
        Some(true) => "yes",
        Some(false) => "no",
        None => "not run",
    }
}

/// A line for a row.
fn say<R: Print + Threads + Wait + Clock + Sync>(
    rt: &R,
    alloc: Global,
    row: Row,
    what: &str,
) -> std::io::Result<()> {
    println!(rt; "{what}: {}", word(on_tree(rt, alloc, row)))
}

/// A line for a row in which a call is held.
fn say_held<R: Print + Threads + Wait + Clock + Sync>(
    rt: &R,
    alloc: Global,
    row: Row,
    what: &str,
    at: u64,
) -> std::io::Result<()> {
    let holds = word(on_tree(rt, alloc, row));
    println!(rt; "{what}, a call held after event {at}: {holds}")
}

/// The rows in which observers learn of calls.
const TOLD: [(Row, &str); 4] = [
    (Row::First, "the first told call has place 0"),
    (Row::BothStamps, "an older stamp takes nothing back"),
    (Row::Written, "what a told caller wrote is read"),
    (
        Row::Untold,
        "an untold call is shown by the next stamp, not before",
    ),
];

/// The rows of many observers and calls.
const MANY: [(Row, &str); 3] = [
    (Row::Places, "64 observers, and a place that is given back"),
    (Row::Busy, "an observer answers while a writer publishes"),
    (
        Row::Drawn,
        "each answer during 20000 drawn calls is that of its list",
    ),
];

/// Runs each row, and writes how it came out.
pub fn run<R: Print + Threads + Wait + Clock + Sync>(rt: &R, alloc: Global) -> anyhow::Result<()> {
    for (row, what) in TOLD {
        say(rt, alloc, row, what)?;
    }
    for at in 1..9u64 {
        say_held(rt, alloc, Row::Parked(at), "an observer answers", at)?;
    }
    for at in 3..9u64 {
        say_held(rt, alloc, Row::Moved(at), "a told rename is shown", at)?;
    }
    for (row, what) in MANY {
        say(rt, alloc, row, what)?;
    }
    let again = word(again::is_shown(rt, alloc));
    println!(rt; "a tree that begins again is shown as it was: {again}")?;
    let listed = word(listed::is_told(rt, alloc));
    println!(rt; "what an observer was told of is a beginning of the journal: {listed}")?;
    let handed = word(handed::are_shown(rt, alloc));
    println!(rt; "a directory is shown to two observers: {handed}")?;
    Ok(())
}
