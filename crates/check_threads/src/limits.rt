//! The limits that a tree is opened by, and the tree at which it starts.

ghost use Rattle.std.specs.Prelude.{◌≡◌, ◌^◌};

use check_sessions::calls::{calls_of, has_counts, lists_of};
use check_sessions::playing::{Sessions, end, play};
use fs_calls::{Call, Errno, Reply};
use fs_names::Limits;
use fs_script::CallLists;
use fs_share::{AtomFs, Closed, Named, Open, Opened, run_lists, run_lists_with};
use fs_timeline::Entry;
use std::alloc::Global;
use std::marker::Brand;
use std::sync::Wait;
use std::sync::ledger::Blank;
use std::thread;
use std::thread::Threads;
use std::time::Clock;

/// A file gets a byte after the last that it can have under the first limits.
const CALLS: &[u8] = b"atomfs 2\nthread one\nmknod /f\nwrite /f 65536 00\nschedule\n";

/// What the write answers by these limits.
fn reply_by(limits: Limits) -> Reply {
    match limits {
        Limits::V1 => Reply::Failed(Errno::Efbig),
        Limits::V2 | Limits::V3 => Reply::Wrote(1),
    }
}

/// Whether the last Return has this reply.
fn ends_with(entries: &[Entry], due: &Reply) -> bool {
    match entries.last() {
        Some(Entry::Return(_, reply)) => reply.same(due),
        _ => false,
    }
}

/// Whether one session played the calls by these limits, from the root alone with these.
fn is_by(alloc: Global, closed: &Closed, limits: Limits) -> Option<bool> {
    let played = has_counts(closed, 1, 6)
        && ends_with(closed.timeline.entries(), &reply_by(limits));
    let start = closed.start.rows(alloc).ok()?.len();
    Some(played && start == 1 && closed.start.limits() == limits)
}

/// Plays the calls by a session on a thread.
fn one_plays<N: Named + Send + Sync, R: Threads + Wait + Clock + Sync>(
    rt: &R,
    alloc: Global,
    fs: &AtomFs<N>,
    list: &[Call],
) -> Option<Sessions<N>> {
    thread::map_indices(rt, alloc, 1, &|_| play(rt, alloc, fs, list, &Open)).ok()
}

/// Plays the calls on a tree that is opened by these limits, or by none where none are given.
fn on_opened<N: Named + Send + Sync, R: Threads + Wait + Clock + Sync>(
    rt: &R,
    alloc: Global,
    opened: Opened,
    blank: Blank,
    list: &[Call],
    limits: Option<Limits>,
) -> Option<Closed>
    requires book { opened ≡ N.book }
    requires name { blank.name ≡ N.name }
    requires parts { blank.parts ≡ N.parts }
    requires all { blank.parts ≡ 2 ^ 63 }
{
    let fs = match limits {
        None => AtomFs::<N>::open(rt, alloc, opened, blank).ok()?,
        Some(limits) => AtomFs::<N>::open_with(rt, alloc, opened, blank, limits).ok()?,
    };
    let sessions = one_plays(rt, alloc, &fs, list);
    Some(end(rt, alloc, fs, sessions)?.closed)
}

/// The same under a name of its own.
fn by_session<R: Threads + Wait + Clock + Sync>(
    rt: &R,
    alloc: Global,
    list: &[Call],
    limits: Option<Limits>,
) -> Option<Closed> {
    let (opened, blank) = (Opened::new(), Blank::new(1 << 63));
    on_opened::<Brand, R>(rt, alloc, opened, blank, list, limits)
}

/// The same by lists.
fn by_lists<R: Threads + Wait + Clock + Sync>(
    rt: &R,
    alloc: Global,
    lists: &CallLists,
    limits: Option<Limits>,
) -> Option<Closed> {
    match limits {
        None => run_lists(rt, alloc, lists.as_slice(), &Open).ok(),
        Some(limits) => run_lists_with(rt, alloc, lists.as_slice(), &Open, limits).ok(),
    }
}

/// Whether trees are by the limits that are given, and by the second where none are.
pub fn are_kept<R: Threads + Wait + Clock + Sync>(rt: &R, alloc: Global) -> Option<bool> {
    let lists = lists_of(alloc, CALLS)?;
    let list = calls_of(&lists, 0)?;
    let mut kept = true;
    for given in [None, Some(Limits::V1), Some(Limits::V2), Some(Limits::V3)] {
        let due = given.unwrap_or(Limits::V2);
        let opened = by_session(rt, alloc, list, given)?;
        let run = by_lists(rt, alloc, &lists, given)?;
        kept = kept && is_by(alloc, &opened, due)? && is_by(alloc, &run, due)?;
    }
    Some(kept)
}
