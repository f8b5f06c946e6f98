//! A line for each entry of a journal.

ghost use Rattle.std.specs.Prelude.{◌≡◌, ◌++◌, ◌+◌, ◌-◌, ◌<◌, ◌^◌, OnOk, IfOk};
ghost use Rattle.fs_trace_entries.specs.Entries.{line_text, AreLines};
ghost use Rattle.fs_trace_entries.specs.code.Mades.{AddsLine};

use crate::past::{Past, call_text, number_text, reply_text};
use fs_calls::{Call, Reply};
use fs_names::{CallNo, SeatNo};
use fs_seq::SeqTree;
use fs_text::Addition;
use fs_timeline::Entry;
use std::alloc::{AllocError, Global};

/// The seat of a call in words; no bytes where the call has not begun.
fn seat_text(
    alloc: Global,
    past: &Past,
    entries: &[Entry],
    number: CallNo,
) -> Result<Vec<u8>, AllocError> {
    match past.seat_of(entries, number) {
        Some(seat) => number_text(alloc, seat.get()),
        None => Ok(Vec::new(alloc)),
    }
}

/// Adds the line of an entry.
fn push_line(
    place: usize,
    seat: &[u8],
    number: CallNo,
    verb: &[u8],
    words: &[u8],
    text: &mut Addition,
) -> Result<(), AllocError>
    ensures ok { OnOk result (text.new.added ≡ text.old.added ++ line_text place seat.now number verb.now words.now) }
    ensures before { text.new.before ≡ text.old.before }
{
    text.push_number(place as u64)?;
    text.push_with_number(b" call ", number.get())?;
    text.push(b" on seat ")?;
    text.push(seat)?;
    text.push(verb)?;
    text.push(words)?;
    text.push(b"\n")
}

/// Adds the line of a begin, which comes after so many entries.
fn push_begin(
    alloc: Global,
    at: usize,
    number: CallNo,
    seat: SeatNo,
    call: &Call,
    text: &mut Addition,
) -> Result<(), AllocError>
    requires { at < 2 ^ 64 - 1 }
    ensures ok { OnOk result (AddsLine (at + 1) (Entry.Begin number seat call.now) text.old.added text.new.added) }
    ensures before { text.new.before ≡ text.old.before }
{
    let who = number_text(alloc, seat.get())?;
    let words = call_text(alloc, call)?;
    push_line(at + 1, &who, number, b" begins ", &words, text)
}

/// Adds the line of a commit, which comes after so many entries.
fn push_commit(
    alloc: Global,
    past: &mut Past,
    entries: &[Entry],
    at: usize,
    number: CallNo,
    text: &mut Addition,
) -> Result<(), AllocError>
    requires { at < 2 ^ 64 - 1 }
    ensures ok { OnOk result (AddsLine (at + 1) (Entry.Commit number) text.old.added text.new.added) }
    ensures before { text.new.before ≡ text.old.before }
{
    let who = seat_text(alloc, past, entries, number)?;
    let effect = past.commit(entries, number)?;
    let words = effect.words(alloc)?;
    push_line(at + 1, &who, number, b" commits, ", &words, text)
}

/// Adds the line of a return, which comes after so many entries.
fn push_return(
    alloc: Global,
    past: &Past,
    entries: &[Entry],
    at: usize,
    number: CallNo,
    reply: &Reply,
    text: &mut Addition,
) -> Result<(), AllocError>
    requires { at < 2 ^ 64 - 1 }
    ensures ok { OnOk result (AddsLine (at + 1) (Entry.Return number reply.now) text.old.added text.new.added) }
    ensures before { text.new.before ≡ text.old.before }
{
    let who = seat_text(alloc, past, entries, number)?;
    let words = reply_text(alloc, reply)?;
    push_line(at + 1, &who, number, b" returns ", &words, text)
}

/// Adds the line of an entry, which comes after so many.
fn push_entry(
    alloc: Global,
    past: &mut Past,
    entries: &[Entry],
    at: usize,
    entry: &Entry,
    text: &mut Addition,
) -> Result<(), AllocError>
    requires { at < 2 ^ 64 - 1 }
    ensures ok { OnOk result (AddsLine (at + 1) entry.now text.old.added text.new.added) }
    ensures before { text.new.before ≡ text.old.before }
{
    match entry {
        Entry::Begin(number, seat, call) => {
            past.begin(*number, at)?;
            push_begin(alloc, at, *number, *seat, call, text)
        }
        Entry::Commit(number) => push_commit(alloc, past, entries, at, *number, text),
        Entry::Return(number, reply) => {
            push_return(alloc, past, entries, at, *number, reply, text)
        }
    }
}

/// A line for each entry of a journal from its start tree.
pub(crate) fn lines_of(
    alloc: Global,
    start: SeqTree,
    entries: &[Entry],
) -> Result<Vec<u8>, AllocError>
    ensures { IfOk result (λ text. AreLines 1 entries.now text.items) }
{
    let mut past = Past::new(alloc, start);
    let mut text = Addition::new(Vec::new(alloc));
    for at in 0..entries.len() {
        push_entry(alloc, &mut past, entries, at, &entries[at], &mut text)?;
    }
    Ok(text.kept())
}
