//! Histories that are read from their text.

ghost use Rattle.std.specs.Prelude.{◌≡◌, ◌++◌, ◌∷◌, [], map, option_copied, Ok, IfOk, IfErr};
ghost use Rattle.fs_verdict.specs.InputFaults.{IsFaultOf};
ghost use Rattle.fs_script.specs.Journals.{journal_of};
ghost use Rattle.fs_linearize_text.specs.Texts.{known, heard_by, with_marks, marks_in, plain_text, history_by, history_of};
ghost use Rattle.fs_linearize_text.specs.code.Walks.{first_mark, marks_behind, left_by};

use crate::lines::lines_in;
use crate::marks::{Mark, marks_in};
use crate::plain::plain_text;
use fs_calls::Reply;
use fs_linearize_dialects::{Dialect, widen};
use fs_linearize_histories::{Heard, Pattern};
use fs_seq::SeqTree;
use fs_timeline::Entry;
use fs_verdict::{RunFault, journal_in};
use std::alloc::{AllocError, Global};

/// A history: the tree at which it starts, and its entries.
#[derive(Drop)]
pub struct History {
    /// The tree.
    pub start: SeqTree,
    /// The entries.
    pub entries: Vec<Heard>,
}

/// What is known of a reply.
fn known(mark: Option<&Mark>, reply: Reply) -> Result<Pattern, AllocError>
    ensures { IfOk result (λ pattern. pattern ≡ known (option_copied mark.entry) reply) }
{
    match mark {
        Some(Mark::Error) => Ok(Pattern::AnyError),
        Some(Mark::Errors(errors)) => Ok(Pattern::OneOf(errors.copy()?)),
        Some(Mark::Directory) => Ok(Pattern::AnyDirectory),
        Some(Mark::Anything) => Ok(Pattern::Anything),
        None => Ok(Pattern::Exactly(reply)),
    }
}

/// The first of what Returns leave open, and what is after it.
fn cut_mark(marks: &[Option<Mark>]) -> (Option<&Mark>, &[Option<Mark>])
    ensures first { option_copied result.0 ≡ first_mark marks.now }
    ensures left { result.1.now ≡ marks_behind marks.now }
{
    match marks {
        [] => (None, marks),
        [Some(mark), left @ ..] => (Some(mark), left),
        [None, left @ ..] => (None, left),
    }
}

/// Adds an entry as it is heard, and answers what the Returns after it leave open.
fn push_heard<'a>(
    entry: Entry,
    marks: &'a [Option<Mark>],
    heard: &mut Vec<Heard>,
) -> Result<&'a [Option<Mark>], AllocError>
    ensures { IfOk result (λ left. (heard.new.items ≡ heard.old.items ++ heard_by (entry ∷ []) marks.now) × (left.now ≡ left_by (entry ∷ []) marks.now)) }
{
    match entry {
        Entry::Begin(number, seat, call) => {
            heard.push(Heard::Begin(number, seat, call))?;
            Ok(marks)
        }
        Entry::Commit(_) => Ok(marks),
        Entry::Return(number, reply) => {
            let (mark, left) = cut_mark(marks);
            heard.push(Heard::Return(number, known(mark, reply)?))?;
            Ok(left)
        }
    }
}

/// The entries as they are heard.
fn heard_by(
    alloc: Global,
    entries: Vec<Entry>,
    marks: &[Option<Mark>],
) -> Result<Vec<Heard>, AllocError>
    ensures { IfOk result (λ heard. heard.items ≡ heard_by entries.items marks.now) }
{
    let mut heard = Vec::new(alloc);
    let mut left = marks;
    for entry in entries {
        left = push_heard(entry, left, &mut heard)?;
    }
    Ok(heard)
}

/// The history that lines have, as it is read by a table.
pub(crate) fn history_by(
    alloc: Global,
    lines: &[&[u8]],
    dialect: &Dialect,
) -> Result<History, RunFault>
    ensures ok { IfOk result (λ h. history_by dialect.now (map (λ l. l.now) lines.now) ≡ Ok (h.start, h.entries.items)) }
    ensures err { IfErr result (IsFaultOf (history_by dialect.now (map (λ l. l.now) lines.now))) }
{
    let Ok(plain) = plain_text(alloc, lines) else {
        return Err(RunFault::OutOfMemory);
    };
    let Ok(marks) = marks_in(alloc, lines) else {
        return Err(RunFault::OutOfMemory);
    };
    let journal = journal_in(alloc, &plain)?;
    let Ok(heard) = heard_by(alloc, journal.entries, &marks) else {
        return Err(RunFault::OutOfMemory);
    };
    let Ok(entries) = widen(alloc, dialect, heard) else {
        return Err(RunFault::OutOfMemory);
    };
    Ok(History {
        start: journal.start,
        entries,
    })
}

/// The history that a text has, as it is read by a table.
pub fn read_history(alloc: Global, text: &[u8], dialect: &Dialect) -> Result<History, RunFault>
    ensures ok { IfOk result (λ h. history_of dialect.now text.now ≡ Ok (h.start, h.entries.items)) }
    ensures err { IfErr result (IsFaultOf (history_of dialect.now text.now)) }
{
    let lines = lines_in(alloc, text)?;
    history_by(alloc, &lines, dialect)
}
