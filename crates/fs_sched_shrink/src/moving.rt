//! What is said of a run, with its calls by their new places; and which calls it names.

ghost use Rattle.std.specs.Prelude.{◌≡◌, ◌≤◌, ◌+◌, ◌<◌, ◌^◌, length, IfOk, map, drop, if◌then◌else◌};
ghost use Rattle.std.specs.List.{list_any};
ghost use Rattle.fs_script.specs.Limits.{call_limit, calls_in};
ghost use Rattle.fs_script.specs.declared.limits.TheConstants.{CALL_LIMIT};
ghost use Rattle.fs_sched_shrink.specs.Moves.{calls_before, index_at, is_call, is_index, is_named, is_named_by, is_named_in, kept_count, moved, moved_call, moved_clause, moved_clauses, moved_condition, place_at};

use crate::thinning::{first_flag, flags_behind};
use fs_calls::Call;
use fs_sched_find::{CallName, Clause, Clauses, Condition, copy_of_reply};
use fs_script::{CallLists, Script};
use std::alloc::{AllocError, Global};

/// How many calls stand before the block on a seat.
pub(crate) fn calls_before(lists: &CallLists, seat: usize) -> usize
    requires { calls_in lists.now ≤ CALL_LIMIT }
    ensures { result ≡ calls_before lists.now seat }
{
    let mut count = 0usize;
    for at in 0..seat {
        count += lists.of(at).len();
    }
    count
}

fn one_if(flag: bool) -> u64
    ensures { result ≡ (if flag then 1 else 0) }
{
    if flag { 1 } else { 0 }
}

/// How many of the first so many flags are true.
fn count_kept(kept: &[bool], places: u64) -> u64
    ensures { result ≡ kept_count places kept.now }
{
    let mut count = 0;
    for at in 0..places {
        count += one_if(first_flag(flags_behind(kept, at as usize)));
    }
    count
}

/// The new place of a call on a seat.
fn place_on(kept: &[bool], lists: &CallLists, place: u64, seat: Option<usize>) -> u64
    requires { calls_in lists.now ≤ CALL_LIMIT }
    ensures { result ≡ place_at kept.now lists.now place seat }
{
    match seat {
        Some(seat) => count_kept(flags_behind(kept, calls_before(lists, seat)), place),
        None => place,
    }
}

#[tactic(auto, using(crate::proofs::Counting::at_most_all))]
fn moved_call(
    alloc: Global,
    kept: &[bool],
    script: &Script,
    call: &CallName,
) -> Result<CallName, AllocError>
    requires { calls_in script.now.lists ≤ call_limit script.now.limits }
    ensures { IfOk result (λ moved. moved ≡ moved_call kept.now script.now call.now) }
{
    let seat = script.names.seat(call.thread.as_slice());
    let place = place_on(kept, &script.lists, call.place, seat);
    let thread = call.thread.copy()?;
    Ok(CallName { thread, place })
}

fn moved_condition(
    alloc: Global,
    kept: &[bool],
    script: &Script,
    condition: &Condition,
) -> Result<Condition, AllocError>
    requires { calls_in script.now.lists ≤ call_limit script.now.limits }
    ensures { IfOk result (λ moved. moved ≡ moved_condition kept.now script.now condition.now) }
{
    match condition {
        Condition::Reply(call, reply) => {
            let call = moved_call(alloc, kept, script, call)?;
            Ok(Condition::Reply(call, copy_of_reply(reply)?))
        }
        Condition::Fails(call) => Ok(Condition::Fails(moved_call(alloc, kept, script, call)?)),
        Condition::Line(line) => Ok(Condition::Line(line.copy()?)),
        Condition::Helped(call) => Ok(Condition::Helped(moved_call(alloc, kept, script, call)?)),
        Condition::Waits(call) => Ok(Condition::Waits(moved_call(alloc, kept, script, call)?)),
        Condition::Before(call, other) => {
            let call = moved_call(alloc, kept, script, call)?;
            let other = moved_call(alloc, kept, script, other)?;
            Ok(Condition::Before(call, other))
        }
        Condition::Overlap(call, other) => {
            let call = moved_call(alloc, kept, script, call)?;
            let other = moved_call(alloc, kept, script, other)?;
            Ok(Condition::Overlap(call, other))
        }
    }
}

fn moved_clause(
    alloc: Global,
    kept: &[bool],
    script: &Script,
    clause: &Clause,
) -> Result<Clause, AllocError>
    requires { calls_in script.now.lists ≤ call_limit script.now.limits }
    ensures { IfOk result (λ moved. moved ≡ moved_clause kept.now script.now clause.now) }
{
    let condition = moved_condition(alloc, kept, script, &clause.condition)?;
    Ok(Clause {
        negated: clause.negated,
        condition,
    })
}

fn moved_clauses(
    alloc: Global,
    kept: &[bool],
    script: &Script,
    clauses: &[Clause],
) -> Result<Clauses, AllocError>
    requires { calls_in script.now.lists ≤ call_limit script.now.limits }
    ensures { IfOk result (λ moved. moved ≡ moved_clauses kept.now script.now clauses.now) }
{
    let mut moved = Vec::new(alloc);
    for clause in clauses {
        moved.push(moved_clause(alloc, kept, script, clause)?)?;
    }
    Ok(Clauses::new(moved))
}

/// What is said, with its calls by their new places.
pub(crate) fn moved(
    alloc: Global,
    kept: &[bool],
    script: &Script,
    what: &[Clauses],
) -> Result<Vec<Clauses>, AllocError>
    requires { calls_in script.now.lists ≤ call_limit script.now.limits }
    ensures { IfOk result (λ all. all.items ≡ moved kept.now script.now what.now) }
{
    let mut moved = Vec::new(alloc);
    for clauses in what {
        moved.push(moved_clauses(alloc, kept, script, clauses.as_slice())?)?;
    }
    Ok(moved)
}

/// Whether a place in the block on a seat is that of the call with this index among all.
fn is_index(at: usize, lists: &CallLists, place: u64, seat: Option<usize>) -> bool
    requires { calls_in lists.now ≤ CALL_LIMIT }
    ensures { result ≡ is_index at (index_at lists.now place seat) }
{
    match seat {
        Some(seat) => {
            let before = calls_before(lists, seat);
            at >= before && (at - before) as u64 == place.saturating_sub(1)
        }
        None => false,
    }
}

#[tactic(auto, using(crate::proofs::Counting::at_most_all))]
fn is_call(script: &Script, at: usize, call: &CallName) -> bool
    requires { calls_in script.now.lists ≤ call_limit script.now.limits }
    ensures { result ≡ is_call script.now at call.now }
{
    let seat = script.names.seat(call.thread.as_slice());
    is_index(at, &script.lists, call.place, seat)
}

fn is_named_by(script: &Script, at: usize, condition: &Condition) -> bool
    requires { calls_in script.now.lists ≤ call_limit script.now.limits }
    ensures { result ≡ is_named_by script.now at condition.now }
{
    match condition {
        Condition::Line(_) => false,
        Condition::Reply(call, _)
        | Condition::Fails(call)
        | Condition::Helped(call)
        | Condition::Waits(call) => is_call(script, at, call),
        Condition::Before(call, other) | Condition::Overlap(call, other) => {
            is_call(script, at, call) || is_call(script, at, other)
        }
    }
}

/// Whether one of these clauses names the call with this index.
fn is_named_in(script: &Script, at: usize, clauses: &[Clause]) -> bool
    requires { calls_in script.now.lists ≤ call_limit script.now.limits }
    ensures { result ≡ is_named_in script.now at clauses.now }
{
    for clause in clauses {
        if is_named_by(script, at, &clause.condition) {
            return true;
        }
    }
    false
}

/// Whether the call with this index is named.
pub(crate) fn is_named(script: &Script, what: &[Clauses], at: usize) -> bool
    requires { calls_in script.now.lists ≤ call_limit script.now.limits }
    ensures { result ≡ is_named script.now what.now at }
{
    for clauses in what {
        if is_named_in(script, at, clauses.as_slice()) {
            return true;
        }
    }
    false
}
