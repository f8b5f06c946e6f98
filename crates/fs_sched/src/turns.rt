//! Turns of threads by priorities, which are drawn from a number.
//!
//! It is the scheduler of Burckhardt, Kothari, Musuvathi and Nagarakatte ("A Randomized Scheduler with Probabilistic Guarantees of
//! Finding Bugs", ASPLOS 2010) for words that do not depend on what calls do. A thread has the highest priority up to one of its events
//! that is drawn, and then another one has it. Where that is over, each thread goes to its end.

ghost use Rattle.std.specs.Prelude.{◌≡◌, ◌∷◌, ◌++◌, ◌+◌, ◌*◌, ◌-◌, ◌<◌, ◌≤◌, ◌%◌, [], min, max, map, length, List, ℕ, OnOk, IfOk};
ghost use Rattle.std.specs.List.{range_with_len, sum_by};
ghost use Rattle.fs_calls.specs.Forms.{form};
ghost use Rattle.fs_names.specs.declared.limits.Limits.TheVariants.{V1};
ghost use Rattle.fs_sched.specs.Schedules.{events_of_all, events_of_call, generator_of, most_events, turns_by, turns_from};
ghost use Rattle.fs_script.specs.declared.script.Word.TheVariants.{Events};

use crate::schedule::{DRAW_LIMIT, Draws};
use crate::seats::Divisor;
use fs_calls::{Call, Target};
use fs_names::Path;
use fs_script::{CallLists, Word};
use std::alloc::{AllocError, Global};

/// How many names a path has, up to the most draws.
fn names_in(path: &Path) -> usize
    ensures { result ≡ min DRAW_LIMIT (length path.now) }
{
    path.len().min(DRAW_LIMIT)
}

/// How many events a call has if no other thread is there, at most.
fn events_of(call: &Call) -> usize
    ensures events { result ≡ events_of_call call.now }
    ensures few { result ≤ 7 + 4 * DRAW_LIMIT }
{
    match call.target() {
        Target::Node(_, path) => 5 + 2 * names_in(path),
        Target::Entry(_, path) => 5 + 2 * names_in(path),
        Target::Pair(_, from, to) => 7 + 2 * (names_in(from) + names_in(to)),
    }
}

/// The same of the calls of a thread, up to the most draws.
fn events_of_all(calls: &[Call]) -> usize
    ensures events { result ≡ events_of_all calls.now }
    ensures few { result ≤ DRAW_LIMIT }
{
    let mut events = 0usize;
    for call in calls {
        events = (events + events_of(call)).min(DRAW_LIMIT);
    }
    events
}

/// The same of the thread that has most; at least one.
fn most_events(lists: &[Vec<Call>]) -> usize
    ensures most { result ≡ most_events (map (λ calls. calls.items) lists.now) }
    ensures some { 0 < result }
    ensures few { result ≤ DRAW_LIMIT }
{
    let mut most = 1usize;
    for calls in lists {
        most = most.max(events_of_all(calls));
    }
    most
}

/// Adds that threads go to their ends, from one on up to another one.
fn push_ends(first: usize, end: usize, most: u64, words: &mut Vec<Word>) -> Result<(), AllocError>
    requires { first ≤ end }
    ensures { OnOk result (words.new.items ≡ words.old.items ++ map (λ seat. Events seat most) (range_with_len first (end - first))) }
{
    for seat in first..end {
        words.push(Word::Events(seat, most))?;
    }
    Ok(())
}

/// A turn of a drawn thread.
fn turn(draws: &mut Draws, threads: &Divisor, most: &Divisor) -> Word
    requires { most.now ≤ DRAW_LIMIT }
    ensures { (turns : ℕ) → turns_from threads.now most.now (turns + 1) draws.old ≡ result ∷ turns_from threads.now most.now turns draws.new }
{
    let seat = draws.below(threads);
    let events = 1 + draws.below(most) as u64;
    Word::Events(seat, events)
}

/// So many turns of threads, and then all go to their ends.
fn turns_from(
    alloc: Global,
    threads: usize,
    most: usize,
    turns: u64,
    seed: u64,
) -> Result<Vec<Word>, AllocError>
    requires threads { 0 < threads }
    requires some { 0 < most }
    requires few { most ≤ DRAW_LIMIT }
    ensures { IfOk result (λ words. words.items ≡ turns_from threads most turns (generator_of seed)) }
{
    let by_threads = Divisor::new(threads);
    let by_most = Divisor::new(most);
    let mut draws = Draws::new(seed);
    let mut words = Vec::new(alloc);
    for _ in 0..turns {
        words.push(turn(&mut draws, &by_threads, &by_most))?;
    }
    let first = draws.below(&by_threads);
    push_ends(first, threads, most as u64, &mut words)?;
    push_ends(0, first, most as u64, &mut words)?;
    Ok(words)
}

/// The turns by priorities of a depth that are drawn from a number; none where there are no threads.
pub(crate) fn turns_by(
    alloc: Global,
    lists: &CallLists,
    depth: u64,
    seed: u64,
) -> Result<Vec<Word>, AllocError>
    ensures { IfOk result (λ words. words.items ≡ turns_by lists.now depth seed) }
{
    let lists = lists.as_slice();
    if lists.is_empty() {
        return Ok(Vec::new(alloc));
    }
    let turns = depth.saturating_sub(1);
    turns_from(alloc, lists.len(), most_events(lists), turns, seed)
}
