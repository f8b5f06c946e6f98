//! The calls of a seat, and the place of a call among them.

ghost use Rattle.std.specs.Prelude.{◌≡◌, ◌≤◌, ℕ, false, IfOk, IfSome, IfNone, MatchOption, length};
ghost use Rattle.fs_timeline.specs.Timeline.{has_begun};
ghost use Rattle.fs_trace_replay.specs.Commits.{IsTurn, calls_on};

use fs_names::CallNo;
use fs_timeline::Entry;
use std::alloc::{AllocError, Global};

/// The calls that begin on a seat, in order.
fn calls_on(alloc: Global, entries: &[Entry], seat: u64) -> Result<Vec<CallNo>, AllocError>
    ensures { IfOk result (λ calls. calls.items ≡ calls_on seat entries.now) }
{
    let mut calls = Vec::new(alloc);
    for entry in entries {
        if let Entry::Begin(number, on, _) = entry {
            if on.get() == seat {
                calls.push(*number)?;
            }
        }
    }
    Ok(calls)
}

/// The call with this place, counted from 1, among those of a seat.
pub(crate) fn call_at(
    alloc: Global,
    entries: &[Entry],
    seat: u64,
    turn: u64,
) -> Result<Option<CallNo>, AllocError>
    ensures some { IfOk result (λ call. IfSome call (IsTurn entries.now seat turn)) }
    ensures none { (c : ℕ) → IsTurn entries.now seat turn c → IfOk result (λ call. IfNone call ⊥) }
{
    let calls = calls_on(alloc, entries, seat)?;
    let Some(place) = turn.checked_sub(1) else {
        return Ok(None);
    };
    Ok(calls.get(place as usize).copied())
}

/// How many calls begin on a seat.
fn begins_on(entries: &[Entry], seat: u64) -> usize
    ensures count { result ≡ length (calls_on seat entries.now) }
    ensures few { result ≤ length entries.now }
{
    let mut count = 0;
    for entry in entries {
        if let Entry::Begin(_, on, _) = entry {
            if on.get() == seat {
                count += 1;
            }
        }
    }
    count
}

/// On which seat a call begins, and its place among the calls there, counted from 1.
pub(crate) fn turn_of(entries: &[Entry], number: CallNo) -> Option<(u64, usize)>
    ensures { MatchOption result (has_begun number entries.now ≡ false) (λ turn. IsTurn entries.now turn.0 turn.1 number) }
{
    for (index, entry) in entries.iter().enumerate() {
        if let Entry::Begin(other, seat, _) = entry {
            if other.get() == number.get() {
                let seat = seat.get();
                return Some((seat, begins_on(&entries[..index], seat) + 1));
            }
        }
    }
    None
}
