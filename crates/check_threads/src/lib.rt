//! Runs real threads on shared trees, by sessions, lists and pools, and says of each run whether it came out as it must. Some runs have a
//! gate that holds a call at a place of its walk. The program plays only the lists of a script on threads. It has no sessions, pools and
//! gates, and does not report in which order its threads did what. `check_sessions` plays and compares.
#![tactic(auto)]

mod again;
mod answers;
mod crowds;
mod drawing;
mod held;
mod jobs;
mod limits;
mod long;
mod meeting;
mod parked;
mod pools;
mod shared;

use check_sessions::say;
use fs_core::Refusal;
use fs_sched::RunFault;
use fs_sched_threads::ThreadsFault;
use fs_share::ListsFault;
use parked::{Beside, WORDS, events_beside};
use std::alloc::Global;
use std::io;
use std::sync::Wait;
use std::thread::Threads;
use std::time::Clock;

/// The faults with which no script on threads ends.
const FAULTS: [ThreadsFault; 4] = [
    ThreadsFault::Run(RunFault::Full),
    ThreadsFault::Lists(ListsFault::NoWorker),
    ThreadsFault::Lists(ListsFault::Refused(Refusal::SeatBusy)),
    ThreadsFault::Lists(ListsFault::Refused(Refusal::Full)),
];

/// Says the words of each of them.
fn say_faults(rt: &impl Print) -> io::Result<()> {
    for fault in FAULTS {
        println!(rt; "fault: {fault}")?;
    }
    Ok(())
}

/// Says how many events a call has that is held after each of them.
fn say_events(rt: &impl Print, word: &str, what: &str, events: Option<u64>) -> io::Result<()> {
    match events {
        Some(events) => println!(rt; "{word}, held after each of {events} events, {what}: yes"),
        None => println!(rt; "{word}, {what}: no"),
    }
}

/// Calls of each kind, held after each of their events.
fn say_parked<R: Print + Threads + Wait + Clock + Sync>(
    rt: &R,
    alloc: Global,
    beside: Beside,
) -> io::Result<()> {
    let what = match beside {
        Beside::Move => "beside the move of the directory above",
        Beside::First => "beside an exchange of the directory above",
        Beside::Second => "beside an exchange with the directory above",
        Beside::Removal => "beside a removal of what it is at",
    };
    for kind in 0..WORDS.len() {
        let events = events_beside(rt, alloc, kind, beside);
        say_events(rt, WORDS[kind], what, events)?;
    }
    Ok(())
}

/// The same of pools: two jobs under one gate, a thousand jobs, and jobs that wait.
fn say_pools<R: Print + Threads + Wait + Clock + Sync>(rt: &R, alloc: Global) -> io::Result<()> {
    let meet = meeting::jobs_meet(rt, alloc);
    say(rt, "two jobs run side by side", meet)?;
    let jobs = jobs::are_done(rt, alloc);
    say(rt, "a thousand jobs are done, once", jobs)?;
    let again = pools::run_again(rt, alloc);
    let what = "jobs wait where no worker is made, and a pool runs twice";
    say(rt, what, again)
}

/// Writes of each part how it came out, in this order.
fn say_all<R: Print + Threads + Wait + Clock + Sync>(rt: &R, alloc: Global) -> io::Result<()> {
    let sessions = answers::are_right(rt, alloc);
    say(
        rt,
        "each answer of four sessions is that of the timeline",
        sessions,
    )?;
    let overlap = held::others_return(rt, alloc);
    say(rt, "a held call lets another one return", overlap)?;
    let helped = held::rename_helps(rt, alloc);
    say(rt, "a rename helps a held call", helped)?;
    say_parked(rt, alloc, Beside::Move)?;
    say_parked(rt, alloc, Beside::First)?;
    say_parked(rt, alloc, Beside::Second)?;
    say_parked(rt, alloc, Beside::Removal)?;
    let lists = shared::lists_meet(rt, alloc);
    say(rt, "two lists run side by side", lists)?;
    let returns = shared::all_return(rt, alloc);
    say(rt, "each call of four lists returns", returns)?;
    say_faults(rt)?;
    let again = again::are_lawful(rt, alloc);
    say(rt, "a tree begins again, and each piece is lawful", again)?;
    let kept = limits::are_kept(rt, alloc);
    say(
        rt,
        "a tree starts at the root alone, by the limits that it is given",
        kept,
    )?;
    let crowds = crowds::all_end(rt, alloc);
    say(
        rt,
        "a thousand crowds on a path, a chain and renames above come to their ends",
        crowds,
    )?;
    let drawn = long::is_lawful(rt, alloc);
    say(rt, "twenty thousand drawn calls are lawful", drawn)
}

/// Runs all of this, and writes how it came out.
pub fn run<R: Print + Threads + Wait + Clock + Sync>(rt: &R, alloc: Global) -> anyhow::Result<()> {
    say_all(rt, alloc)?;
    Ok(say_pools(rt, alloc)?)
}
