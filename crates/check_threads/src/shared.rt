//! Lists of calls, also under one gate that their workers share.

use check_sessions::FirstWaits;
use check_sessions::calls::{are_played, has_counts, lists_of, path};
use fs_calls::Call;
use fs_share::{Open, run_lists};
use std::alloc::Global;
use std::sync::Wait;
use std::thread::Threads;
use std::time::Clock;

/// Two threads of a call each.
const TWO: &[u8] = b"atomfs 1\nthread one\nstat /x\nthread other\nstat /y\nschedule\n";

/// Whether the gate lets one list's call return while it holds the other's, and both lists were played.
pub fn lists_meet<R: Threads + Wait + Clock + Sync>(rt: &R, alloc: Global) -> Option<bool> {
    let gate = FirstWaits::new();
    let lists = lists_of(alloc, TWO)?;
    let closed = run_lists(rt, alloc, lists.as_slice(), &gate).ok()?;
    let played = are_played(closed.timeline.entries(), lists.as_slice());
    Some(gate.has_met() && has_counts(&closed, 2, 6) && played)
}

/// The calls of a list: files of its letter, each with a number of its own.
fn fifty(alloc: Global, letter: u8) -> Option<Vec<Call>> {
    let mut list = Vec::new(alloc);
    for number in 0..50u8 {
        let text = [b'/', letter, b'0' + number / 10, b'0' + number % 10];
        list.push(Call::Mknod(path(alloc, &text)?)).ok()?;
    }
    Some(list)
}

/// Whether four lists are played, and as many calls return as they have.
pub fn all_return<R: Threads + Wait + Clock + Sync>(rt: &R, alloc: Global) -> Option<bool> {
    let mut lists = Vec::new(alloc);
    for letter in [b'a', b'b', b'c', b'd'] {
        lists.push(fifty(alloc, letter)?).ok()?;
    }
    let closed = run_lists(rt, alloc, &lists, &Open).ok()?;
    Some(has_counts(&closed, 4, 600) && are_played(closed.timeline.entries(), &lists))
}
