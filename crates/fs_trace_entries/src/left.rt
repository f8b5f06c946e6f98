//! The calls that did not return.

ghost use Rattle.std.specs.Prelude.{◌≡◌, OnOk, IfOk, List};
ghost use Rattle.std.specs.List.{flat_map};
ghost use Rattle.fs_words.specs.JsonObjects.{Member, object_text};
ghost use Rattle.fs_trace_entries.specs.code.Mades.{AddsSome};

use fs_calls::Call;
use fs_names::{CallNo, SeatNo};
use fs_text::{Addition, write_call};
use fs_timeline::Entry;
use fs_words::{Member, push_object};
use std::alloc::{AllocError, Global};
use std::collections::BTreeMap;

/// The calls that return, by their numbers.
fn returned_in(alloc: Global, entries: &[Entry]) -> Result<BTreeMap<u64, bool>, AllocError> {
    let mut returned = BTreeMap::new(alloc);
    for entry in entries {
        if let Entry::Return(number, _) = entry {
            returned.insert(number.get(), true)?;
        }
    }
    Ok(returned)
}

/// Adds the line of a call that did not return.
fn push_line(
    alloc: Global,
    number: CallNo,
    seat: SeatNo,
    call: &Call,
    text: &mut Addition,
) -> Result<(), AllocError> {
    text.push_with_number(b"left call ", number.get())?;
    text.push_with_number(b" on seat ", seat.get())?;
    text.push(b" ")?;
    let mut words = Vec::new(alloc);
    write_call(alloc, call, &mut words)?;
    text.push(words.as_slice())?;
    text.push(b"\n")
}

/// A line for each call that began and did not return, in the order of their begins.
pub(crate) fn left_text(alloc: Global, entries: &[Entry]) -> Result<Vec<u8>, AllocError> {
    let returned = returned_in(alloc, entries)?;
    let mut text = Addition::new(Vec::new(alloc));
    for entry in entries {
        match entry {
            Entry::Begin(number, seat, call) if returned.get(&number.get()).is_none() => {
                push_line(alloc, *number, *seat, call, &mut text)?;
            }
            _ => {}
        }
    }
    Ok(text.kept())
}

/// Adds the object of a call that did not return.
fn push_left(
    alloc: Global,
    number: CallNo,
    seat: SeatNo,
    call: &Call,
    text: &mut Addition,
) -> Result<(), AllocError>
    ensures ok { OnOk result (AddsSome text.old.added text.new.added) }
    ensures before { text.new.before ≡ text.old.before }
{
    let mut words = Vec::new(alloc);
    write_call(alloc, call, &mut words)?;
    let members = [
        Member::text(b"did", b"has not returned"),
        Member::number(b"number", number.get()),
        Member::number(b"seat", seat.get()),
        Member::text(b"words", words.as_slice()),
    ];
    push_object(alloc, members.as_slice(), text)
}

/// The same of an entry that begins such a call.
fn push_left_of(
    alloc: Global,
    returned: &BTreeMap<u64, bool>,
    entry: &Entry,
    text: &mut Addition,
) -> Result<(), AllocError>
    ensures ok { OnOk result (AddsSome text.old.added text.new.added) }
    ensures before { text.new.before ≡ text.old.before }
{
    match entry {
        Entry::Begin(number, seat, call) if returned.get(&number.get()).is_none() => {
            push_left(alloc, *number, *seat, call, text)
        }
        _ => text.push(b""),
    }
}

/// An object for each call that began and did not return, in the order of their begins.
pub(crate) fn left_objects(alloc: Global, entries: &[Entry]) -> Result<Vec<u8>, AllocError>
    ensures { IfOk result (λ text. (objects : List (List Member)) × (text.items ≡ flat_map object_text objects)) }
{
    let returned = returned_in(alloc, entries)?;
    let mut text = Addition::new(Vec::new(alloc));
    for entry in entries {
        push_left_of(alloc, &returned, entry, &mut text)?;
    }
    Ok(text.kept())
}
