//! Histories that are read by a table.

ghost use Rattle.std.specs.Prelude.{◌≡◌, ◌++◌, ◌∷◌, ℕ, List, map, option_copied, IfOk, OnOk};
ghost use Rattle.std.specs.Ordering.{nat_cmp};
ghost use Rattle.std.specs.BTreeMap.{get};
ghost use Rattle.fs_names.specs.Failures.{or_else};
ghost use Rattle.fs_linearize_dialects.specs.Dialects.{ours_for, widened_errors, error_or, widened_reply, widened_pattern, begun_as, named_in, widened_by, widened_entry, widened};

use crate::call_name::CallName;
use crate::dialect::{Dialect, Row};
use fs_calls::{Errno, Reply};
use fs_linearize_histories::{Errors, Heard, Pattern};
use fs_names::CallNo;
use std::alloc::{AllocError, Global};
use std::collections::BTreeMap;

/// Adds what this tree may have replied where the other replied an error.
fn push_ours(
    rows: &[Row],
    name: CallName,
    theirs: Errno,
    errors: &mut Errors,
) -> Result<(), AllocError>
    ensures { OnOk result (errors.new ≡ errors.old ++ ours_for rows.now name theirs) }
{
    for row in rows {
        if row.is_for(name, theirs) {
            errors.push(row.ours)?;
        }
    }
    Ok(())
}

/// Errors, each with those.
fn widened_errors(
    alloc: Global,
    rows: &[Row],
    name: CallName,
    errors: &Errors,
) -> Result<Errors, AllocError>
    ensures { IfOk result (λ wide. wide ≡ widened_errors rows.now name errors.now) }
{
    let mut wide = Errors::new(alloc);
    for errno in errors.as_slice() {
        wide.push(*errno)?;
        push_ours(rows, name, *errno, &mut wide)?;
    }
    Ok(wide)
}

/// An error, or one of more.
fn error_or(errno: Errno, errors: Errors) -> Pattern
    ensures { (others : List _) → errors ≡ errno ∷ others → result ≡ error_or errno others }
{
    match errors.as_slice() {
        [_] => Pattern::Exactly(Reply::Failed(errno)),
        _ => Pattern::OneOf(errors),
    }
}

/// What is known of a reply that was this one.
fn widened_reply(
    alloc: Global,
    rows: &[Row],
    name: CallName,
    reply: Reply,
) -> Result<Pattern, AllocError>
    ensures { IfOk result (λ known. known ≡ widened_reply rows.now name reply) }
{
    match reply {
        Reply::Failed(errno) => {
            let mut errors = Errors::new(alloc);
            errors.push(errno)?;
            push_ours(rows, name, errno, &mut errors)?;
            Ok(error_or(errno, errors))
        }
        other => Ok(Pattern::Exactly(other)),
    }
}

/// What is known of a reply of which this was.
fn widened_pattern(
    alloc: Global,
    rows: &[Row],
    name: CallName,
    pattern: Pattern,
) -> Result<Pattern, AllocError>
    ensures { IfOk result (λ known. known ≡ widened_pattern rows.now name pattern) }
{
    match pattern {
        Pattern::Exactly(reply) => widened_reply(alloc, rows, name, reply),
        Pattern::OneOf(errors) => {
            Ok(Pattern::OneOf(widened_errors(alloc, rows, name, &errors)?))
        }
        other => Ok(other),
    }
}

/// Takes in which call an entry begins.
fn take_in(entry: &Heard, names: &mut BTreeMap<u64, CallName>) -> Result<(), AllocError>
    ensures { OnOk result ((c : ℕ) → get nat_cmp names.new c ≡ or_else (begun_as c entry.now) (get nat_cmp names.old c)) }
{
    match entry {
        Heard::Begin(number, _, call) => {
            names.insert(number.get(), CallName::of(call))?;
            Ok(())
        }
        Heard::Return(_, _) => Ok(()),
    }
}

/// Which call each number is in a history.
fn names_in(alloc: Global, history: &[Heard]) -> Result<BTreeMap<u64, CallName>, AllocError>
    ensures { IfOk result (λ names. (c : ℕ) → get nat_cmp names c ≡ named_in c history.now) }
{
    let mut names = BTreeMap::new(alloc);
    for entry in history {
        take_in(entry, &mut names)?;
    }
    Ok(names)
}

/// The return of the call of a number.
fn widened_return(
    alloc: Global,
    rows: &[Row],
    name: Option<&CallName>,
    number: CallNo,
    pattern: Pattern,
) -> Result<Heard, AllocError>
    ensures { IfOk result (λ entry. entry ≡ Heard.Return number (widened_by rows.now (option_copied name.entry) pattern)) }
{
    match name {
        Some(name) => Ok(Heard::Return(number, widened_pattern(alloc, rows, *name, pattern)?)),
        None => Ok(Heard::Return(number, pattern)),
    }
}

/// An entry of a history.
fn widened_entry(
    alloc: Global,
    rows: &[Row],
    names: &BTreeMap<u64, CallName>,
    entry: Heard,
) -> Result<Heard, AllocError>
    ensures { IfOk result (λ wide. (h : List _) → ((c : ℕ) → get nat_cmp names.now c ≡ named_in c h) → wide ≡ widened_entry rows.now h entry) }
{
    match entry {
        Heard::Begin(number, seat, call) => Ok(Heard::Begin(number, seat, call)),
        Heard::Return(number, pattern) => {
            let name = names.get(&number.get());
            widened_return(alloc, rows, name, number, pattern)
        }
    }
}

/// The entries of a history, of which this says which call each number is.
fn widened_entries(
    alloc: Global,
    rows: &[Row],
    names: &BTreeMap<u64, CallName>,
    entries: Vec<Heard>,
) -> Result<Vec<Heard>, AllocError>
    ensures { IfOk result (λ wide. (h : List _) → ((c : ℕ) → get nat_cmp names.now c ≡ named_in c h) → wide.items ≡ map (widened_entry rows.now h) entries.items) }
{
    let mut wide = Vec::new(alloc);
    for entry in entries {
        wide.push(widened_entry(alloc, rows, names, entry)?)?;
    }
    Ok(wide)
}

/// A history as it is read by a table: each return with the errors of the rows of its call.
pub fn widen(
    alloc: Global,
    dialect: &Dialect,
    history: Vec<Heard>,
) -> Result<Vec<Heard>, AllocError>
    ensures { IfOk result (λ wide. wide.items ≡ widened dialect.now history.items) }
{
    if dialect.is_empty() {
        return Ok(history);
    }
    let names = names_in(alloc, &history)?;
    widened_entries(alloc, dialect.rows(), &names, history)
}
