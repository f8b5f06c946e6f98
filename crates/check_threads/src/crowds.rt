//! Crowds of threads that want the same nodes, again and again. A wake-up that is lost leaves a thread asleep, and the program
//! does not end.

use check_sessions::calls::{are_played, calls_of, has_counts, lists_of};
use check_sessions::is_played;
use fs_calls::Call;
use fs_share::{Closed, Open, run_lists};
use std::alloc::Global;
use std::sync::Wait;
use std::thread::Threads;
use std::time::Clock;

/// How often each crowd comes. The end of each run is where a sleeper has nobody left to wake it.
const TIMES: usize = 1000;

const THREADS: usize = 8;

/// The calls of each thread.
const CALLS: usize = 3;

/// Scripts of two threads, each of which is played by four.
const ONE_PATH: &[u8] =
    b"atomfs 1\nthread a\nmknod /f\nwrite /f 0 61\nread /f 0 1\nthread b\nstat /f\nread /f 0 1\nunlink /f\nschedule\n";

const CHAIN: &[u8] =
    b"atomfs 1\nthread a\nmkdir /a\nmkdir /a/b\nmkdir /a/b/c\nthread b\nstat /a/b/c\nrmdir /a/b/c\nreaddir /a/b\nschedule\n";

const RENAMES: &[u8] =
    b"atomfs 1\nthread a\nmkdir /a\nmkdir /a/b\nmknod /a/b/c\nthread b\nrename /a /d\nstat /d/b/c\nrename /d /a\nschedule\n";

fn copied(alloc: Global, calls: &[Call]) -> Option<Vec<Call>> {
    let mut list = Vec::new(alloc);
    for call in calls {
        list.push(call.copy(alloc).ok()?).ok()?;
    }
    Some(list)
}

/// The two lists of a script by turns, four times each.
fn crowd(alloc: Global, text: &[u8]) -> Option<Vec<Vec<Call>>> {
    let given = lists_of(alloc, text)?;
    let mut lists = Vec::new(alloc);
    for place in 0..THREADS {
        lists
            .push(copied(alloc, calls_of(&given, place % 2)?)?)
            .ok()?;
    }
    Some(lists)
}

/// Whether a run has each list, and a lawful timeline whose commits make the nodes that it leaves.
fn is_whole(alloc: Global, lists: &[Vec<Call>], closed: &Closed) -> Option<bool> {
    let counts = has_counts(closed, THREADS, 3 * THREADS * CALLS);
    Some(counts && are_played(closed.timeline.entries(), lists) && is_played(alloc, closed)?)
}

/// Whether one run of a crowd is so.
fn runs_once<R: Threads + Wait + Clock + Sync>(
    rt: &R,
    alloc: Global,
    lists: &[Vec<Call>],
) -> Option<bool> {
    let closed = run_lists(rt, alloc, lists, &Open).ok()?;
    is_whole(alloc, lists, &closed)
}

/// Whether each run of a crowd is so.
fn are_whole<R: Threads + Wait + Clock + Sync>(
    rt: &R,
    alloc: Global,
    lists: &[Vec<Call>],
) -> Option<bool> {
    for _ in 0..TIMES {
        if !runs_once(rt, alloc, lists)? {
            return Some(false);
        }
    }
    Some(true)
}

/// Whether all crowds on one path, on a chain, and on renames above them come to their ends.
pub fn all_end<R: Threads + Wait + Clock + Sync>(rt: &R, alloc: Global) -> Option<bool> {
    for text in [ONE_PATH, CHAIN, RENAMES] {
        if !are_whole(rt, alloc, crowd(alloc, text)?.as_slice())? {
            return Some(false);
        }
    }
    Some(true)
}
