//! An object for each entry of a journal.

ghost use Rattle.std.specs.Prelude.{◌≡◌, ◌++◌, ◌+◌, ◌-◌, ◌<◌, ◌^◌, OnOk, IfOk};
ghost use Rattle.fs_words.specs.JsonObjects.{object_text};
ghost use Rattle.fs_trace_entries.specs.Objects.{AreObjects, entry_members};
ghost use Rattle.fs_trace_entries.specs.code.Mades.{AddsObject};

use crate::effect::Effect;
use crate::past::{Past, call_text, reply_text};
use fs_calls::{Call, Reply};
use fs_names::{CallNo, SeatNo};
use fs_seq::SeqTree;
use fs_timeline::Entry;
use fs_words::{Addition, Member, push_object};
use std::alloc::{AllocError, Global};

/// Adds the object of an entry: its place, what it did, the number of its call, and more.
fn push_members<'w>(
    alloc: Global,
    place: usize,
    did: &'static [u8],
    number: CallNo,
    more: Vec<Member<'w>>,
    text: &mut Addition,
) -> Result<(), AllocError>
    ensures ok { OnOk result (text.new.added ≡ text.old.added ++ object_text (entry_members place did.now number ++ more.entry.items)) }
    ensures before { text.new.before ≡ text.old.before }
{
    let mut members = Vec::new(alloc);
    members.push(Member::number(b"entry", place as u64))?;
    members.push(Member::text(b"did", did))?;
    members.push(Member::number(b"number", number.get()))?;
    let mut more = more;
    members.append(&mut more)?;
    push_object(alloc, members.as_slice(), text)
}

/// The seat of a call, where the call has begun.
fn seat_of(
    alloc: Global,
    past: &Past,
    entries: &[Entry],
    number: CallNo,
) -> Result<Vec<Member<'static>>, AllocError> {
    let mut members = Vec::new(alloc);
    if let Some(seat) = past.seat_of(entries, number) {
        members.push(Member::number(b"seat", seat.get()))?;
    }
    Ok(members)
}

/// Adds a member with a text, if that has bytes.
fn push_part<'w>(
    name: &'w [u8],
    part: &'w [u8],
    members: &mut Vec<Member<'w>>,
) -> Result<(), AllocError> {
    if part.is_empty() {
        return Ok(());
    }
    members.push(Member::text(name, part))?;
    Ok(())
}

/// Adds what a call changes.
fn push_effect<'w>(effect: &'w Effect, members: &mut Vec<Member<'w>>) -> Result<(), AllocError> {
    push_part(b"change", effect.change, members)?;
    push_part(b"path", effect.path.as_slice(), members)?;
    push_part(effect.joint, effect.second.as_slice(), members)?;
    push_part(b"error", effect.error, members)
}

/// Adds the object of a begin, which comes after so many entries.
fn push_begin(
    alloc: Global,
    at: usize,
    number: CallNo,
    seat: SeatNo,
    call: &Call,
    text: &mut Addition,
) -> Result<(), AllocError>
    requires { at < 2 ^ 64 - 1 }
    ensures ok { OnOk result (AddsObject (at + 1) (Entry.Begin number seat call.now) text.old.added text.new.added) }
    ensures before { text.new.before ≡ text.old.before }
{
    let words = call_text(alloc, call)?;
    let mut members = Vec::new(alloc);
    members.push(Member::number(b"seat", seat.get()))?;
    members.push(Member::text(b"words", words.as_slice()))?;
    push_members(alloc, at + 1, b"begins", number, members, text)
}

/// Adds the object of a commit, which comes after so many entries.
fn push_commit(
    alloc: Global,
    past: &mut Past,
    entries: &[Entry],
    at: usize,
    number: CallNo,
    text: &mut Addition,
) -> Result<(), AllocError>
    requires { at < 2 ^ 64 - 1 }
    ensures ok { OnOk result (AddsObject (at + 1) (Entry.Commit number) text.old.added text.new.added) }
    ensures before { text.new.before ≡ text.old.before }
{
    let effect = past.commit(entries, number)?;
    let mut members = seat_of(alloc, past, entries, number)?;
    push_effect(&effect, &mut members)?;
    push_members(alloc, at + 1, b"commits", number, members, text)
}

/// Adds the object of a return, which comes after so many entries.
fn push_return(
    alloc: Global,
    past: &Past,
    entries: &[Entry],
    at: usize,
    number: CallNo,
    reply: &Reply,
    text: &mut Addition,
) -> Result<(), AllocError>
    requires { at < 2 ^ 64 - 1 }
    ensures ok { OnOk result (AddsObject (at + 1) (Entry.Return number reply.now) text.old.added text.new.added) }
    ensures before { text.new.before ≡ text.old.before }
{
    let words = reply_text(alloc, reply)?;
    let mut members = seat_of(alloc, past, entries, number)?;
    members.push(Member::text(b"reply", words.as_slice()))?;
    push_members(alloc, at + 1, b"returns", number, members, text)
}

/// Adds the object of an entry, which comes after so many.
fn push_entry(
    alloc: Global,
    past: &mut Past,
    entries: &[Entry],
    at: usize,
    entry: &Entry,
    text: &mut Addition,
) -> Result<(), AllocError>
    requires { at < 2 ^ 64 - 1 }
    ensures ok { OnOk result (AddsObject (at + 1) entry.now text.old.added text.new.added) }
    ensures before { text.new.before ≡ text.old.before }
{
    match entry {
        Entry::Begin(number, seat, call) => {
            past.begin(*number, at)?;
            push_begin(alloc, at, *number, *seat, call, text)
        }
        Entry::Commit(number) => push_commit(alloc, past, entries, at, *number, text),
        Entry::Return(number, reply) => {
            push_return(alloc, past, entries, at, *number, reply, text)
        }
    }
}

/// An object for each entry of a journal from its start tree.
pub(crate) fn objects_of(
    alloc: Global,
    start: SeqTree,
    entries: &[Entry],
) -> Result<Vec<u8>, AllocError>
    ensures { IfOk result (λ text. AreObjects 1 entries.now text.items) }
{
    let mut past = Past::new(alloc, start);
    let mut text = Addition::new(Vec::new(alloc));
    for at in 0..entries.len() {
        push_entry(alloc, &mut past, entries, at, &entries[at], &mut text)?;
    }
    Ok(text.kept())
}
