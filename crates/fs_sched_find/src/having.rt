//! Whether a run has what clauses say.

ghost use Rattle.std.specs.Prelude.{◌≡◌, Some, None, IfOk, true, MatchOption, not, if◌then◌else◌, option_copied};
ghost use Rattle.std.specs.List.{list_any};
ghost use Rattle.std.specs.Str.{bytes_eq};
ghost use Rattle.fs_nodes.specs.Stores.{graph_of};
ghost use Rattle.fs_words.specs.Lines.{lines_of};
ghost use Rattle.fs_sched_find.specs.Lives.{nth_from};
ghost use Rattle.fs_sched_find.specs.What.{index_of, reply_of, is_reply, is_failure, was_helped, began, returned, is_left, is_wait_of, has_wait, has_waited, is_together, do_overlap, is_before, IsTreeLine, Answers, IsClause, HasAll, Has};

use crate::lives::Lives;
use crate::what::{CallName, Clause, Clauses, Condition};
use fs_calls::Reply;
use fs_nodes::Store;
use fs_script::{ThreadNames, write_tree};
use fs_words::lines::cut_line;
use std::alloc::{AllocError, Global};

/// The index at which a seat stands for the so-manieth time.
fn nth_of(seats: &[usize], seat: usize, place: u64) -> Option<usize>
    ensures { result ≡ nth_from 0 seat place seats.now }
{
    let mut left = place;
    for at in 0..seats.len() {
        if seats[at] == seat {
            if left == 1 {
                return Some(at);
            }
            left = left.saturating_sub(1);
        }
    }
    None
}

fn index_of(names: &ThreadNames, seats: &[usize], call: &CallName) -> Option<usize>
    ensures { result ≡ index_of names.now seats.now call.now }
{
    let seat = names.seat(call.thread.as_slice())?;
    nth_of(seats, seat, call.place)
}

fn reply_of<'a>(names: &ThreadNames, lives: &'a Lives, call: &CallName) -> Option<&'a Reply>
    ensures { option_copied result ≡ reply_of names.now lives.now call.now }
{
    lives
        .replies()
        .get(index_of(names, lives.reply_seats(), call)?)
}

fn is_reply(wanted: &Reply, reply: Option<&Reply>) -> bool
    ensures { result ≡ is_reply wanted.now (option_copied reply.entry) }
{
    match reply {
        Some(reply) => reply.same(wanted),
        None => false,
    }
}

fn is_failure(reply: Option<&Reply>) -> bool
    ensures { result ≡ is_failure (option_copied reply.entry) }
{
    match reply {
        Some(Reply::Failed(_)) => true,
        _ => false,
    }
}

fn was_helped(names: &ThreadNames, lives: &Lives, call: &CallName) -> bool
    ensures { result ≡ was_helped names.now lives.now call.now }
{
    match index_of(names, lives.commit_seats(), call) {
        Some(at) => match lives.helped().get(at) {
            Some(helped) => *helped,
            None => false,
        },
        None => false,
    }
}

/// How many calls had returned when a call began.
fn began(names: &ThreadNames, lives: &Lives, call: &CallName) -> Option<usize>
    ensures { result ≡ began names.now lives.now call.now }
{
    let at = index_of(names, lives.begin_seats(), call)?;
    lives.returned_before().get(at).copied()
}

/// The place of a call among the returns.
fn returned(names: &ThreadNames, lives: &Lives, call: &CallName) -> Option<usize>
    ensures { result ≡ returned names.now lives.now call.now }
{
    index_of(names, lives.reply_seats(), call)
}

fn is_left(returned: Option<usize>, number: usize) -> bool
    ensures { result ≡ is_left returned number }
{
    match returned {
        Some(at) => number <= at,
        None => true,
    }
}

fn is_wait_of(seat: usize, began: usize, returned: Option<usize>, wait: (usize, usize)) -> bool
    ensures { result ≡ is_wait_of seat began returned wait }
{
    wait.0 == seat && began <= wait.1 && is_left(returned, wait.1)
}

fn any_wait(waits: &[(usize, usize)], seat: usize, began: usize, returned: Option<usize>) -> bool
    ensures { result ≡ list_any (is_wait_of seat began returned) waits.now }
{
    waits
        .iter()
        .any(|wait| is_wait_of(seat, began, returned, *wait))
}

fn has_wait(
    waits: &[(usize, usize)],
    seat: Option<usize>,
    began: Option<usize>,
    returned: Option<usize>,
) -> bool
    ensures { result ≡ has_wait waits.now seat began returned }
{
    match (seat, began) {
        (Some(seat), Some(began)) => any_wait(waits, seat, began, returned),
        _ => false,
    }
}

fn has_waited(names: &ThreadNames, lives: &Lives, call: &CallName) -> bool
    ensures { result ≡ has_waited names.now lives.now call.now }
{
    let seat = names.seat(call.thread.as_slice());
    let began = began(names, lives, call);
    has_wait(lives.waits(), seat, began, returned(names, lives, call))
}

fn is_together(
    began: Option<usize>,
    returned: Option<usize>,
    other: Option<usize>,
    over: Option<usize>,
) -> bool
    ensures { result ≡ is_together began returned other over }
{
    match (began, other) {
        (Some(began), Some(other)) => is_left(returned, other) && is_left(over, began),
        _ => false,
    }
}

fn do_overlap(names: &ThreadNames, lives: &Lives, call: &CallName, other: &CallName) -> bool
    ensures { result ≡ do_overlap names.now lives.now call.now other.now }
{
    is_together(
        began(names, lives, call),
        returned(names, lives, call),
        began(names, lives, other),
        returned(names, lives, other),
    )
}

fn is_before(first: Option<usize>, second: Option<usize>) -> bool
    ensures { result ≡ is_before first second }
{
    match (first, second) {
        (Some(first), Some(second)) => first < second,
        _ => false,
    }
}

/// Whether a text has a line.
fn has_line(text: &[u8], line: &[u8]) -> bool
    ensures { result ≡ list_any (bytes_eq line.now) (lines_of text.now) }
{
    let mut left = text;
    'lines: while let Some((first, rest)) = cut_line(left) {
        if first == line {
            return true;
        }
        left = rest;
    }
    false
}

/// Whether the text of a store's tree has a line.
fn tree_has_line(alloc: Global, store: &Store, line: &[u8]) -> Result<bool, AllocError>
    ensures { IfOk result (IsTreeLine (graph_of store.now) line.now) }
{
    let mut text = Vec::new(alloc);
    write_tree(alloc, store, &mut text)?;
    Ok(has_line(text.as_slice(), line))
}

/// What a condition is of a run.
fn answer(
    alloc: Global,
    names: &ThreadNames,
    lives: &Lives,
    store: &Store,
    condition: &Condition,
) -> Result<bool, AllocError>
    ensures { IfOk result (Answers names.now lives.now (graph_of store.now) condition.now) }
{
    let commits = lives.commit_seats();
    match condition {
        Condition::Reply(call, wanted) => Ok(is_reply(wanted, reply_of(names, lives, call))),
        Condition::Fails(call) => Ok(is_failure(reply_of(names, lives, call))),
        Condition::Line(line) => tree_has_line(alloc, store, line.as_slice()),
        Condition::Helped(call) => Ok(was_helped(names, lives, call)),
        Condition::Waits(call) => Ok(has_waited(names, lives, call)),
        Condition::Overlap(call, other) => Ok(do_overlap(names, lives, call, other)),
        Condition::Before(call, other) => {
            let first = index_of(names, commits, call);
            Ok(is_before(first, index_of(names, commits, other)))
        }
    }
}

/// Whether a clause holds of a run.
fn holds(
    alloc: Global,
    names: &ThreadNames,
    lives: &Lives,
    store: &Store,
    clause: &Clause,
) -> Result<bool, AllocError>
    ensures { IfOk result (λ b. IsClause names.now lives.now (graph_of store.now) b clause.now) }
{
    let answer = answer(alloc, names, lives, store, &clause.condition)?;
    Ok(answer != clause.negated)
}

/// Whether all clauses hold of a run.
fn has_all(
    alloc: Global,
    names: &ThreadNames,
    lives: &Lives,
    store: &Store,
    clauses: &[Clause],
) -> Result<bool, AllocError>
    ensures { IfOk result (λ b. HasAll names.now lives.now (graph_of store.now) b clauses.now) }
{
    for clause in clauses {
        if !holds(alloc, names, lives, store, clause)? {
            return Ok(false);
        }
    }
    Ok(true)
}

/// Whether a run has what is said: all clauses of an alternative hold of it.
pub(crate) fn has(
    alloc: Global,
    names: &ThreadNames,
    lives: &Lives,
    store: &Store,
    what: &[Clauses],
) -> Result<bool, AllocError>
    ensures { IfOk result (Has names.now lives.now (graph_of store.now) what.now) }
{
    for clauses in what {
        if has_all(alloc, names, lives, store, clauses.as_slice())? {
            return Ok(true);
        }
    }
    Ok(false)
}
