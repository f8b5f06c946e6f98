//! Rows that explain what one thread recorded.

ghost use Rattle.std.specs.Prelude.{◌≡◌, ◌+◌, ◌<◌, ◌^◌, ◌++◌, ◌∷◌, ◌==◌, true, ℕ, List, length, IfOk, IfSome, IfNone, OnOk};
ghost use Rattle.fs_calls.specs.Starts.{Start};
ghost use Rattle.fs_timeline.specs.declared.entry.Entry.{Entry};
ghost use Rattle.fs_linearize_histories.specs.declared.heard.Heard.TheVariants as heard;
ghost use Rattle.fs_linearize_histories.specs.Histories.{Explains, IsHistory};
ghost use Rattle.fs_linearize_dialects.specs.Tables.{rows_of};
ghost use Rattle.fs_linearize_dialects.specs.Dialects.{widened};
ghost use Rattle.fs_linearize_dialects.specs.declared.dialect.Row.{Row as Rows};
ghost use Rattle.fs_linearize_dialects.specs.Learning.{rows_for, rows_at, rows_known, end_at, learned, is_overlap, is_unexplained, AreAmong};
ghost use Rattle.fs_linearize_dialects.specs.code.Steps.{Adds, IsCallAt, IsNoCallAt};

use crate::call_name::CallName;
use crate::dialect::Row;
use fs_calls::{Call, Errno, Reply};
use fs_linearize_histories::{Heard, HistoryFault, Pattern};
use fs_seq::SeqTree;
use std::alloc::{AllocError, Global};

/// Where learning ends.
#[derive(Drop)]
pub enum End {
    /// Rows explain each return.
    Whole,
    /// No row explains the return of this place, counted from 1. This tree replies this.
    At(usize, Reply),
    /// The entry of this place, counted from 1, is that of another call than the pending one.
    Overlaps(usize),
    /// The entries are no history: that of this place, counted from 1, cannot come next.
    Fault(usize, HistoryFault),
}

impl End {
    /// Whether two calls of the history overlap.
    pub fn is_overlap(&self) -> bool
        ensures { result ≡ is_overlap self.now }
    {
        matches!(self, End::Overlaps(_))
    }

    /// Whether no row explains a return of it, or it is no history.
    pub fn is_unexplained(&self) -> bool
        ensures { result ≡ is_unexplained self.now }
    {
        matches!(self, End::At(_, _) | End::Fault(_, _))
    }
}

/// What is learned of a history.
#[derive(Drop)]
pub struct Lesson {
    /// A row for each return by which the trees differ, in order.
    pub rows: Vec<Row>,
    /// Where that ends.
    pub end: End,
}

/// Adds a row for each of these errors.
fn push_rows(
    name: CallName,
    ours: Errno,
    theirs: &[Errno],
    rows: &mut Vec<Row>,
) -> Result<(), AllocError>
    ensures { OnOk result (rows.new.items ≡ rows.old.items ++ rows_of name ours theirs.now) }
{
    for errno in theirs {
        rows.push(Row {
            call: name,
            ours,
            theirs: *errno,
        })?;
    }
    Ok(())
}

/// The same, if this tree replies an error, and there are some; and whether that is so.
fn push_errors(
    name: CallName,
    ours: &Reply,
    theirs: &[Errno],
    rows: &mut Vec<Row>,
) -> Result<bool, AllocError>
    ensures { IfOk result (Adds (rows_for name ours.now theirs.now) rows.old.items rows.new.items) }
{
    match (ours, theirs) {
        (Reply::Failed(errno), [_, ..]) => {
            push_rows(name, *errno, theirs, rows)?;
            Ok(true)
        }
        _ => Ok(false),
    }
}

/// The same of the errors of which a reply was one.
fn push_known(
    name: CallName,
    ours: &Reply,
    known: &Pattern,
    rows: &mut Vec<Row>,
) -> Result<bool, AllocError>
    ensures { IfOk result (Adds (rows_known name ours.now known.now) rows.old.items rows.new.items) }
{
    match known {
        Pattern::Exactly(Reply::Failed(theirs)) => push_errors(name, ours, &[*theirs], rows),
        Pattern::OneOf(theirs) => push_errors(name, ours, theirs.as_slice(), rows),
        _ => Ok(false),
    }
}

/// Adds the rows that explain a return, where this tree replies this; and answers whether it is explained.
fn push_at(
    name: CallName,
    ours: &Reply,
    known: &Pattern,
    rows: &mut Vec<Row>,
) -> Result<bool, AllocError>
    ensures { IfOk result (Adds (rows_at name ours.now known.now) rows.old.items rows.new.items) }
{
    if known.matches(ours) {
        return Ok(true);
    }
    push_known(name, ours, known, rows)
}

/// The call that begins and returns in the first two entries, and what is known of its reply.
fn call_at(entries: &[Heard]) -> Option<(&Call, &Pattern)>
    ensures some { IfSome result (λ c. IsCallAt entries.now c.0.now c.1.now) }
    ensures none { IfNone result (IsNoCallAt entries.now) }
{
    match entries {
        [
            Heard::Begin(begun, _, call),
            Heard::Return(returned, known),
            ..
        ] if begun.get() == returned.get() => { Some((call, known)) }
        _ => None,
    }
}

/// Where learning ends before entries of which the first two are no call, if so many entries are before them.
fn end_at(at: usize, entries: &[Heard]) -> End
    requires { at + length entries.now < 2 ^ 64 }
    ensures { result ≡ end_at at entries.now }
{
    match entries {
        [] => End::Whole,
        [Heard::Begin(_, _, _)] => End::Whole,
        [Heard::Begin(_, _, _), _, ..] => End::Overlaps(at + 2),
        [Heard::Return(_, _), ..] => End::Overlaps(at + 1),
    }
}

/// The rows that explain what one thread recorded from a start tree, as far as rows do.
fn learn_calls(alloc: Global, start: &SeqTree, history: &[Heard]) -> Result<Lesson, AllocError>
    ensures { IfOk result (λ lesson. (lesson.rows.items, lesson.end) ≡ learned start.now 0 history.now) }
{
    let mut tree = start.copy()?;
    let mut rows = Vec::new(alloc);
    let mut at = 0;
    'calls: while let Some((call, known)) = call_at(&history[at..]) {
        let ours = tree.apply(alloc, call)?;
        at += 2;
        if !push_at(CallName::of(call), &ours, known, &mut rows)? {
            return Ok(Lesson {
                rows,
                end: End::At(at, ours),
            });
        }
    }
    let end = end_at(at, &history[at..]);
    Ok(Lesson { rows, end })
}

/// The rows that explain what one thread recorded from a start tree, as far as rows do. Read by a table that has them, a history that
/// they explain to its end is linearizable.
pub fn learn(alloc: Global, start: &SeqTree, history: &[Heard]) -> Result<Lesson, AllocError>
    ensures learned { IfOk result (λ lesson. (lesson.rows.items, lesson.end) ≡ learned start.now 0 history.now) }
    ensures accepted { IfOk result (λ lesson. lesson.end ≡ End.Whole → IsHistory history.now → (all : List Rows) → AreAmong all lesson.rows.items → (es : List Entry) × Explains start.now (widened all history.now) es) }
{
    learn_calls(alloc, start, history)
}
