//! Whether a timeline is that of lists of calls.

ghost use Rattle.std.specs.Prelude.{◌≡◌, ◌<◌, ◌++◌, ◌∷◌, ℕ, [], true, Some, List, IfOk, count_by, length, map, get_or, slice_get};
ghost use Rattle.fs_timeline.specs.Timeline.{IsWellFormed};
ghost use Rattle.fs_timeline.specs.declared.entry.Entry.{Entry};
ghost use Rattle.fs_share.specs.Played.{ArePlayed};
ghost use Rattle.fs_share.specs.code.Begun.{AreBegun, begins_one, returns_one};

use fs_calls::Call;
use fs_timeline::Entry;
use std::alloc::{AllocError, Global};

/// Whether a call is that of a list which comes after so many.
fn is_next(list: &[Call], begun: usize, call: &Call) -> bool
    ensures { result ≡ true → slice_get list.now begun ≡ Some call.now }
{
    begun < list.len() && list[begun].same(call)
}

/// Counts a call that begins on a seat, if it is the next of the seat's list.
fn count_begin(lists: &[Vec<Call>], begun: &mut [usize], seat: u64, call: &Call) -> bool
    requires { length begun.old ≡ length lists.now }
    ensures length { length begun.new ≡ length begun.old }
    ensures next { result ≡ true → (es : List Entry) (number : ℕ) → AreBegun (map (λ calls. calls.items) lists.now) begun.old es → AreBegun (map (λ calls. calls.items) lists.now) begun.new (es ++ Entry.Begin number seat call.now ∷ []) }
{
    if seat >= lists.len() as u64 {
        return false;
    }
    let seat = seat as usize;
    let count = begun[seat];
    if !is_next(lists[seat].as_slice(), count, call) {
        return false;
    }
    begun[seat] = count + 1;
    true
}

/// Counts the call that an entry begins, if it is the next of its seat's list.
fn count_entry(lists: &[Vec<Call>], begun: &mut [usize], entry: &Entry) -> bool
    requires { length begun.old ≡ length lists.now }
    ensures length { length begun.new ≡ length begun.old }
    ensures next { result ≡ true → (es : List Entry) → AreBegun (map (λ calls. calls.items) lists.now) begun.old es → AreBegun (map (λ calls. calls.items) lists.now) begun.new (es ++ entry.now ∷ []) }
{
    match entry {
        Entry::Begin(_, seat, call) => count_begin(lists, begun, seat.get(), call),
        _ => true,
    }
}

/// Whether so many calls are all of each list.
fn are_all(lists: &[Vec<Call>], begun: &[usize]) -> bool
    requires { length begun.now ≡ length lists.now }
    ensures { result ≡ true → (seat : ℕ) → seat < length lists.now → get_or begun.now seat 0 ≡ length (get_or (map (λ calls. calls.items) lists.now) seat []) }
{
    for seat in 0..lists.len() {
        if begun[seat] != lists[seat].len() {
            return false;
        }
    }
    true
}

/// How many calls began.
fn begun_in(entries: &[Entry]) -> usize
    ensures { result ≡ count_by begins_one entries.now }
{
    let mut count = 0;
    for entry in entries {
        if matches!(entry, Entry::Begin(_, _, _)) {
            count += 1;
        }
    }
    count
}

/// How many calls returned.
fn returned_in(entries: &[Entry]) -> usize
    ensures { result ≡ count_by returns_one entries.now }
{
    let mut count = 0;
    for entry in entries {
        if matches!(entry, Entry::Return(_, _)) {
            count += 1;
        }
    }
    count
}

/// Whether a timeline is that of lists of calls, all of which began on the seats of their lists, in order, and returned. The
/// only error is out of memory.
pub(crate) fn are_played(
    alloc: Global,
    lists: &[Vec<Call>],
    entries: &[Entry],
) -> Result<bool, AllocError>
    ensures { IfOk result (λ played. played ≡ true → IsWellFormed entries.now → ArePlayed (map (λ calls. calls.items) lists.now) entries.now) }
{
    let mut begun = vec![in alloc; 0usize; lists.len()]?;
    for entry in entries {
        if !count_entry(lists, begun.as_mut_slice(), entry) {
            return Ok(false);
        }
    }
    if !are_all(lists, begun.as_slice()) {
        return Ok(false);
    }
    Ok(begun_in(entries) == returned_in(entries))
}
