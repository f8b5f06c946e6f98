//! Lists of calls, each played by a worker of its own.

use fs_calls::Call;
use fs_share::{Closed, ListsFault, Open, Refusal, run_lists};
use fs_timeline::Entry;
use std::alloc::Global;
use std::sync::Wait;
use std::thread::Threads;
use std::time::Clock;

/// A new tree on which all lists were played. A refusal leaves nothing, so they are all played once more. A worker that
/// has no memory to start is none.
fn played<R: Threads + Wait + Clock + Sync>(
    rt: &R,
    alloc: Global,
    lists: &[Vec<Call>],
) -> Option<Closed> {
    match run_lists(rt, alloc, lists, &Open) {
        Err(ListsFault::Refused(Refusal::OutOfMemory) | ListsFault::NoWorker) => {
            run_lists(rt, alloc, lists, &Open).ok()
        }
        played => played.ok(),
    }
}

/// How many calls of the lists returned.
pub fn returns<R: Threads + Wait + Clock + Sync>(
    rt: &R,
    alloc: Global,
    lists: &[Vec<Call>],
) -> Option<usize> {
    let closed = played(rt, alloc, lists)?;
    let mut returned = 0usize;
    for entry in closed.timeline.entries() {
        if matches!(entry, Entry::Return(_, _)) {
            returned = returned.wrapping_add(1);
        }
    }
    Some(returned)
}
