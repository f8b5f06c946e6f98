//! The commits of entries, and the trees that they make.

ghost use Rattle.std.specs.Prelude.{◌≡◌, ◌++◌, ℕ, List, IfOk, OnOk, is_some, option_copied};
ghost use Rattle.std.specs.Ordering.{nat_cmp};
ghost use Rattle.std.specs.BTreeMap.{get};
ghost use Rattle.fs_calls.specs.Outcomes.{next_start};
ghost use Rattle.fs_timeline.specs.Timeline.{call_of, commits};
ghost use Rattle.fs_trace_replay.specs.Commits.{committed, committed_by};
ghost use Rattle.fs_trace_replay.specs.code.Seen.{call_by, call_in, calls_in, listed, IsPlace};

use fs_calls::Call;
use fs_names::CallNo;
use fs_seq::SeqTree;
use fs_timeline::Entry;
use std::alloc::{AllocError, Global};
use std::collections::BTreeMap;

/// A call that has begun.
#[derive(Drop)]
struct Begun<'a> {
    call: &'a Call,
}

/// Whether a call of this number has begun.
fn has(begun: &BTreeMap<u64, Begun<'_>>, number: CallNo) -> bool
    ensures { result ≡ is_some (get nat_cmp begun.now number) }
{
    begun.get(&number.get()).is_some()
}

/// The calls that begin, by their numbers.
fn begun_in(alloc: Global, entries: &[Entry]) -> Result<BTreeMap<u64, Begun<'_>>, AllocError>
    ensures { (c : ℕ) → IfOk result (λ begun. call_in (get nat_cmp begun c) ≡ call_of c entries.now) }
{
    let mut begun = BTreeMap::new(alloc);
    for entry in entries {
        if let Entry::Begin(number, _, call) = entry {
            if !has(&begun, *number) {
                begun.insert(number.get(), Begun { call })?;
            }
        }
    }
    Ok(begun)
}

/// The call that an entry commits, by those that begin.
fn call_by<'a>(begun: &BTreeMap<u64, Begun<'a>>, entry: &Entry) -> Option<&'a Call>
    ensures { (whole : List Entry) → ((c : ℕ) → call_in (get nat_cmp begun.now c) ≡ call_of c whole) → option_copied result ≡ call_by whole entry.now }
{
    let Entry::Commit(number) = entry else {
        return None;
    };
    match begun.get(&number.get()) {
        Some(begun) => Some(begun.call),
        None => None,
    }
}

/// Adds a call, if there is one.
fn push_call<'a>(call: Option<&'a Call>, calls: &mut Vec<&'a Call>) -> Result<(), AllocError>
    ensures { OnOk result (calls_in calls.new.items ≡ calls_in calls.old.items ++ listed (option_copied call.entry)) }
{
    match call {
        Some(call) => {
            calls.push(call)?;
            Ok(())
        }
        None => Ok(()),
    }
}

/// The calls that entries commit, in order.
pub(crate) fn commits(alloc: Global, entries: &[Entry]) -> Result<Vec<&Call>, AllocError>
    ensures { IfOk result (λ calls. calls_in calls.items ≡ commits entries.now) }
{
    let begun = begun_in(alloc, entries)?;
    let mut calls = Vec::new(alloc);
    for entry in entries {
        push_call(call_by(&begun, entry), &mut calls)?;
    }
    Ok(calls)
}

/// The number of the call that an entry commits, by those that begin.
fn number_by(begun: &BTreeMap<u64, Begun<'_>>, entry: &Entry) -> Option<CallNo>
    ensures { (whole : List Entry) → ((c : ℕ) → call_in (get nat_cmp begun.now c) ≡ call_of c whole) → listed result ≡ committed_by whole entry.now }
{
    let Entry::Commit(number) = entry else {
        return None;
    };
    if has(begun, *number) {
        Some(*number)
    } else {
        None
    }
}

/// Adds a number, if there is one.
fn push_number(number: Option<CallNo>, numbers: &mut Vec<CallNo>) -> Result<(), AllocError>
    ensures { OnOk result (numbers.new.items ≡ numbers.old.items ++ listed number) }
{
    match number {
        Some(number) => {
            numbers.push(number)?;
            Ok(())
        }
        None => Ok(()),
    }
}

/// The numbers of the calls that entries commit, in order.
pub(crate) fn committed(alloc: Global, entries: &[Entry]) -> Result<Vec<CallNo>, AllocError>
    ensures { IfOk result (λ numbers. numbers.items ≡ committed entries.now) }
{
    let begun = begun_in(alloc, entries)?;
    let mut numbers = Vec::new(alloc);
    for entry in entries {
        push_number(number_by(&begun, entry), &mut numbers)?;
    }
    Ok(numbers)
}

/// The tree that calls make of one.
pub(crate) fn played(alloc: Global, start: SeqTree, calls: &[&Call]) -> Result<SeqTree, AllocError>
    ensures { IfOk result (λ tree. tree ≡ next_start start (calls_in calls.now)) }
{
    let mut tree = start;
    for call in calls {
        let _reply = tree.apply(alloc, call)?;
    }
    Ok(tree)
}

/// How many numbers come before the first that is this one.
pub(crate) fn place_of(numbers: &[CallNo], number: CallNo) -> Option<usize>
    ensures { IsPlace numbers.now number result }
{
    for (index, other) in numbers.iter().enumerate() {
        if other.get() == number.get() {
            return Some(index);
        }
    }
    None
}
