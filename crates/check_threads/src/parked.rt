//! Calls of every kind, each held after each of its events, beside a call that moves the directory above it, beside one that
//! lets it change places with another, by its first path and by its second, and beside one that removes what it is at.

use crate::held::{Both, Hold, Parts, meet};
use check_sessions::calls::{calls_of, commit_place, has_counts, is_before, lists_of};
use check_sessions::{TURNS, is_played};
use fs_calls::{Call, Reply};
use fs_script::CallLists;
use std::alloc::Global;
use std::slice;
use std::sync::Wait;
use std::thread::Threads;
use std::time::Clock;

/// The calls: those that make the tree, those that are held, for each of these one that removes what it is at, and those that
/// move the directory above.
const CALLS: &[u8] = b"\
atomfs 3
thread made
mkdir /z
mkdir /a
mkdir /a/d
mkdir /a/d/e
mknod /a/d/f
write /a/d/f 0 6869
thread held
mkdir /a/d/x
mknod /a/d/x
unlink /a/d/f
rmdir /a/d/e
rename /a/d/f /a/d/g
exchange /a/d/e /a/d/f
stat /a/d/f
readdir /a/d/e
list /a/d/e / 9
read /a/d/f 0 9
write /a/d/f 1 6a6a
truncate /a/d/f 1
thread removals
rmdir /a/d/x
unlink /a/d/x
unlink /a/d/f
rmdir /a/d/e
unlink /a/d/f
unlink /a/d/f
unlink /a/d/f
rmdir /a/d/e
rmdir /a/d/e
unlink /a/d/f
unlink /a/d/f
unlink /a/d/f
thread moves
rename /a /c
exchange /a /z
exchange /z /a
schedule
";

/// The words of the calls that are held, in their order.
pub const WORDS: [&str; 12] = [
    "mkdir", "mknod", "unlink", "rmdir", "rename", "exchange", "stat", "readdir", "list", "read",
    "write", "truncate",
];

/// After so many events a walk from the root to a name below `/a` has let the root go.
const BELOW: u64 = 3;

/// More events than any of the calls has.
const MOST_EVENTS: u64 = 40;

/// How long a call is held that the other one may have to wait for, in turns of a millisecond.
const SHORT: u64 = 3;

/// The call that begins while another one is held.
#[derive(Clone, Copy, PartialEq, Eq)]
pub enum Beside {
    /// A rename of the directory above.
    Move,
    /// An exchange, of which it is the first path.
    First,
    /// An exchange, of which it is the second path.
    Second,
    Removal,
}

/// Whether the move of the directory above returned while the call was held below, and helped it or found it committed.
fn is_passed_by(both: &Both) -> Option<bool> {
    let entries = both.ended.closed.timeline.entries();
    let (held, other) = both.answers()?;
    let is_ahead = is_before(
        commit_place(entries, held.call),
        commit_place(entries, other.call),
    );
    let is_done = !matches!(held.reply, Reply::Failed(_)) && matches!(other.reply, Reply::Done);
    Some(both.found && is_ahead && is_done)
}

/// Whether the call was held, where the timeline and the nodes are as they must be, and it was passed by if it can be.
fn was_held(alloc: Global, both: &Both, before: usize, is_passed: bool) -> Option<bool> {
    let count = before.checked_add(2)?.checked_mul(3)?;
    let is_right = has_counts(&both.ended.closed, 3, count)
        && (!both.was_held || !is_passed || is_passed_by(both)?)
        && is_played(alloc, &both.ended.closed)?;
    is_right.then_some(both.was_held)
}

/// The same of a call that is held after so many events.
fn is_held<R: Threads + Wait + Clock + Sync>(
    rt: &R,
    alloc: Global,
    parts: Parts<'_>,
    beside: Beside,
    after: u64,
) -> Option<bool> {
    let is_passed = beside != Beside::Removal && after >= BELOW;
    let turns = if is_passed { TURNS } else { SHORT };
    let both = meet(rt, alloc, parts, Hold { after, turns })?;
    was_held(alloc, &both, parts.made.len(), is_passed)
}

/// How many events a call has, where all is as it must be, whichever of them it is held after.
fn events<R: Threads + Wait + Clock + Sync>(
    rt: &R,
    alloc: Global,
    parts: Parts<'_>,
    beside: Beside,
) -> Option<u64> {
    for after in 1..MOST_EVENTS {
        if !is_held(rt, alloc, parts, beside, after)? {
            return Some(after - 1);
        }
    }
    None
}

/// The parts that the script has for a call of some kind.
fn parts_of(lists: &CallLists, kind: usize, beside: Beside) -> Option<Parts<'_>> {
    let (thread, place) = match beside {
        Beside::Move => (3, 0),
        Beside::First => (3, 1),
        Beside::Second => (3, 2),
        Beside::Removal => (2, kind),
    };
    Some(Parts {
        made: calls_of(lists, 0)?,
        held: slice::from_ref(calls_of(lists, 1)?.get(kind)?),
        other: slice::from_ref(calls_of(lists, thread)?.get(place)?),
    })
}

/// How many events the call of some kind has, by the script of this module.
pub fn events_beside<R: Threads + Wait + Clock + Sync>(
    rt: &R,
    alloc: Global,
    kind: usize,
    beside: Beside,
) -> Option<u64> {
    let lists = lists_of(alloc, CALLS)?;
    events(rt, alloc, parts_of(&lists, kind, beside)?, beside)
}
