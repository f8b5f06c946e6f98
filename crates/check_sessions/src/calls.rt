//! Calls, and what a timeline says of them.

use fs_calls::Call;
use fs_journal::check;
use fs_names::{CallNo, Limits, Path, SeatNo};
use fs_script::{CallLists, read_script};
use fs_share::{Answer, Closed};
use fs_timeline::{Entry, Verdict};
use std::alloc::Global;

/// The path that a text is; none where it is none, or there is no memory.
pub fn path(alloc: Global, text: &[u8]) -> Option<Path> {
    Path::parse_with(alloc, text, Limits::LARGEST).ok()
}

/// The calls of the threads of a script.
pub fn lists_of(alloc: Global, text: &[u8]) -> Option<CallLists> {
    Some(read_script(alloc, text).ok()?.lists)
}

/// The calls of a thread.
pub fn calls_of(lists: &CallLists, thread: usize) -> Option<&[Call]> {
    Some(lists.as_slice().get(thread)?.as_slice())
}

/// Whether a tree had so many sessions, and its timeline has so many entries.
pub fn has_counts(closed: &Closed, sessions: usize, entries: usize) -> bool {
    closed.sessions == sessions && closed.timeline.entries().len() == entries
}

/// Whether a timeline is lawful.
pub fn is_lawful(alloc: Global, entries: &[Entry]) -> Option<bool> {
    Some(matches!(check(alloc, entries).ok()?, Verdict::Lawful))
}

/// Where the Commit of a call is among entries, if it is there.
pub fn commit_place(entries: &[Entry], call: CallNo) -> Option<usize> {
    entries.iter().position(|entry| matches!(entry, Entry::Commit(number) if *number == call))
}

/// Where the Return of a call is among entries, if it is there.
pub fn return_place(entries: &[Entry], call: CallNo) -> Option<usize> {
    entries.iter().position(|entry| matches!(entry, Entry::Return(number, _) if *number == call))
}

/// Whether both places are there, the first before the second.
pub fn is_before(first: Option<usize>, second: Option<usize>) -> bool {
    match (first, second) {
        (Some(first), Some(second)) => first < second,
        _ => false,
    }
}

/// Whether an answer is the reply of its own Return, and its Begin has the call that was handed in.
pub fn fits(entries: &[Entry], call: &Call, answer: &Answer) -> bool {
    let mut begun = 0u64;
    let mut returned = 0u64;
    for entry in entries {
        match entry {
            Entry::Begin(number, _, given) if *number == answer.call => {
                begun = begun.wrapping_add(if given.same(call) { 1 } else { 100 });
            }
            Entry::Return(number, reply) if *number == answer.call => {
                returned = returned.wrapping_add(if reply.same(&answer.reply) { 1 } else { 100 });
            }
            _ => {}
        }
    }
    begun == 1 && returned == 1
}

/// Notes the number of an answer, and answers whether it is new and has a place.
pub fn is_new(seen: &mut [bool], answer: &Answer) -> bool {
    let number = answer.call.get() as usize;
    if number >= seen.len() || seen[number] {
        return false;
    }
    seen[number] = true;
    true
}

/// Whether the calls that begin on a seat are those of a list, in its order.
fn has_list(entries: &[Entry], seat: SeatNo, list: &[Call]) -> bool {
    let mut begun = 0usize;
    for entry in entries {
        let Entry::Begin(_, at, call) = entry else {
            continue;
        };
        if *at == seat {
            match list.get(begun) {
                Some(given) if given.same(call) => begun = begun.wrapping_add(1),
                _ => return false,
            }
        }
    }
    begun == list.len()
}

/// Whether a seat has one of the lists that are left. It is left no more.
fn takes_list(entries: &[Entry], seat: SeatNo, lists: &[Vec<Call>], left: &mut [bool]) -> bool {
    for i in 0..lists.len() {
        if i < left.len() && left[i] && has_list(entries, seat, &lists[i]) {
            left[i] = false;
            return true;
        }
    }
    false
}

/// Whether each of at most eight lists was played on a seat of its own, from its first call to its last.
pub fn are_played(entries: &[Entry], lists: &[Vec<Call>]) -> bool {
    let mut left = [true; 8];
    for seat in 0..lists.len() {
        if !takes_list(entries, SeatNo::new(seat as u64), lists, &mut left) {
            return false;
        }
    }
    true
}
