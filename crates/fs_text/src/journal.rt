//! Journals that are read from their text.

ghost use Rattle.std.specs.Prelude.{◌≡◌, map};
ghost use Rattle.fs_text.specs.Journal.{begin_at, begin_of, commit_of, return_of, entry_of, entry_in_line, entries_from, entries_of};
ghost use Rattle.fs_words.specs.code.Answers.{Gives, GivesText};

use crate::calls::{call_with, has_call_form};
use crate::replies::reply_at;
use fs_names::{CallNo, Limits, SeatNo};
use fs_timeline::Entry;
use fs_words::lines::{cut_words, push_item};
use fs_words::recent::Recent;
use fs_words::words::{is_word, number_at};
use fs_words::{FaultKind, Lines, ScriptFault};
use std::alloc::Global;

fn begin_at<'a>(
    alloc: Global,
    recent: &mut Recent<'a>,
    limits: Limits,
    call_no: &[u8],
    seat: &[u8],
    call: &[&'a [u8]],
) -> Result<Entry, FaultKind>
    ensures { Gives (λ entry. entry) result (begin_at limits call_no.now seat.now (map (λ w. w.now) call.now)) }
{
    let call_no = number_at(call_no)?;
    let seat = number_at(seat)?;
    let call = call_with(alloc, recent, limits, call)?;
    Ok(Entry::Begin(CallNo::new(call_no), SeatNo::new(seat), call))
}

fn begin_of<'a>(
    alloc: Global,
    recent: &mut Recent<'a>,
    limits: Limits,
    words: &[&'a [u8]],
) -> Result<Entry, FaultKind>
    ensures { Gives (λ entry. entry) result (begin_of limits (map (λ w. w.now) words.now)) }
{
    match words {
        [call_no, seat, call @ ..] if has_call_form(limits, call) => begin_at(
            alloc, recent, limits, call_no, seat, call,
        ),
        _ => Err(FaultKind::BadLine),
    }
}

fn commit_of(words: &[&[u8]]) -> Result<Entry, FaultKind>
    ensures { Gives (λ entry. entry) result (commit_of (map (λ w. w.now) words.now)) }
{
    match words {
        [call_no] => Ok(Entry::Commit(CallNo::new(number_at(call_no)?))),
        _ => Err(FaultKind::BadLine),
    }
}

fn return_of(alloc: Global, limits: Limits, words: &[&[u8]]) -> Result<Entry, FaultKind>
    ensures { Gives (λ entry. entry) result (return_of limits (map (λ w. w.now) words.now)) }
{
    match words {
        [call_no, reply @ ..] if !reply.is_empty() => {
            let call_no = number_at(call_no)?;
            Ok(Entry::Return(CallNo::new(call_no), reply_at(alloc, limits, reply)?))
        }
        _ => Err(FaultKind::BadLine),
    }
}

#[tactic(auto, unfolding(crate::specs::Journal::entry_of))]
fn entry_at<'a>(
    alloc: Global,
    recent: &mut Recent<'a>,
    limits: Limits,
    words: &[&'a [u8]],
) -> Result<Entry, FaultKind>
    ensures { Gives (λ entry. entry) result (entry_of limits (map (λ w. w.now) words.now)) }
{
    match words {
        [] => Err(FaultKind::BadLine),
        [first, more @ ..] => {
            if is_word(first, b"begin") {
                begin_of(alloc, recent, limits, more)
            } else if is_word(first, b"commit") {
                commit_of(more)
            } else if is_word(first, b"return") {
                return_of(alloc, limits, more)
            } else {
                Err(FaultKind::BadLine)
            }
        }
    }
}

/// The entry that a line spells. `words` lends its memory.
fn entry_in<'a>(
    alloc: Global,
    recent: &mut Recent<'a>,
    limits: Limits,
    line: &'a [u8],
    words: &mut Vec<&'a [u8]>,
) -> Result<Entry, FaultKind>
    ensures { Gives (λ entry. entry) result (entry_in_line limits line.now) }
{
    if let Err(kind) = cut_words(line, words) {
        return Err(kind);
    }
    entry_at(alloc, recent, limits, words.as_slice())
}

/// Reads the entries of lines after a header, or after the start tree of a journal, under these limits, as
/// `read_entries` does under those of the first version.
pub fn entries_in(
    alloc: Global,
    limits: Limits,
    lines: Lines<'_>,
) -> Result<Vec<Entry>, ScriptFault>
    ensures { GivesText (λ entries. entries.items) result (entries_from limits lines.entry.number lines.entry.lines) }
{
    let mut entries = Vec::new(alloc);
    let mut words = Vec::new(alloc);
    let mut recent = Recent::new(alloc);
    let mut left = lines;
    'lines: while let Some(line) = left.next() {
        if is_word(line.text, b"tree") {
            return Ok(entries);
        }
        let entry = match entry_in(alloc, &mut recent, limits, line.text, &mut words) {
            Ok(entry) => entry,
            Err(kind) => {
                return Err(ScriptFault {
                    line: line.number,
                    kind,
                });
            }
        };
        if let Err(kind) = push_item(&mut entries, entry) {
            return Err(ScriptFault {
                line: line.number,
                kind,
            });
        }
    }
    Ok(entries)
}

/// Reads the entries of a journal of the first version, up to the end of the text or a line `tree`. The fault is the first from the left,
/// with its line.
#[tactic(auto, unfolding(crate::specs::Journal::entries_of))]
pub fn read_entries(alloc: Global, text: &[u8]) -> Result<Vec<Entry>, ScriptFault>
    ensures { GivesText (λ entries. entries.items) result (entries_of text.now) }
{
    entries_in(
        alloc,
        Limits::V1,
        Lines::behind_header(text, b"atomfs-journal 1")?,
    )
}
