//! The text of a history.

ghost use Rattle.std.specs.Prelude.{◌≡◌, ◌++◌, IfOk, OnOk, codes, decimal};
ghost use Rattle.fs_text.specs.Journal.{entry_line};
ghost use Rattle.fs_linearize_minimal.specs.Texts.{heard_line, errors_line, return_line, history_text};

use fs_calls::Reply;
use fs_linearize_dialects::write_errors;
use fs_linearize_histories::{Errors, Heard, Pattern};
use fs_names::CallNo;
use fs_script::write_opening;
use fs_seq::SeqTree;
use fs_text::{Addition, write_entry};
use fs_timeline::Entry;
use std::alloc::{AllocError, Global};

/// The line of the return of a call, with these words after its number.
fn open_line(alloc: Global, number: CallNo, words: &[u8]) -> Result<Vec<u8>, AllocError>
    ensures { IfOk result (λ line. line.items ≡ codes "return " ++ (decimal number ++ words.now)) }
{
    let mut line = Addition::new(Vec::new(alloc));
    line.push_with_number(b"return ", number.get())?;
    line.push(words)?;
    Ok(line.kept())
}

/// The line of the return of a call that failed by one of these errors.
fn errors_line(alloc: Global, number: CallNo, errors: &Errors) -> Result<Vec<u8>, AllocError>
    ensures { IfOk result (λ line. line.items ≡ errors_line number errors.now) }
{
    let mut line = Addition::new(Vec::new(alloc));
    line.push_with_number(b"return ", number.get())?;
    line.push(b" failed ")?;
    write_errors(errors.as_slice(), &mut line)?;
    line.push(b"\n")?;
    Ok(line.kept())
}

/// The line of an entry of a journal.
fn entry_line(alloc: Global, entry: &Entry) -> Result<Vec<u8>, AllocError>
    ensures { IfOk result (λ line. line.items ≡ entry_line entry.now) }
{
    let mut line = Vec::new(alloc);
    write_entry(alloc, entry, &mut line)?;
    Ok(line)
}

/// The line of the return of a call, of whose reply this is known. No text says which a reply is not.
fn return_line(alloc: Global, number: CallNo, pattern: Pattern) -> Result<Vec<u8>, AllocError>
    ensures { IfOk result (λ line. line.items ≡ return_line number pattern) }
{
    match pattern {
        Pattern::Exactly(reply) => entry_line(alloc, &Entry::Return(number, reply)),
        Pattern::AnyError => open_line(alloc, number, b" failed ?\n"),
        Pattern::OneOf(errors) => errors_line(alloc, number, &errors),
        Pattern::AnyDirectory => open_line(alloc, number, b" stat dir ?\n"),
        Pattern::Except(_) => entry_line(alloc, &Entry::Return(number, Reply::Done)),
        Pattern::Anything => open_line(alloc, number, b" ?\n"),
    }
}

/// The line of an entry.
fn heard_line(alloc: Global, entry: Heard) -> Result<Vec<u8>, AllocError>
    ensures { IfOk result (λ line. line.items ≡ heard_line entry) }
{
    match entry {
        Heard::Begin(number, seat, call) => entry_line(alloc, &Entry::Begin(number, seat, call)),
        Heard::Return(number, pattern) => return_line(alloc, number, pattern),
    }
}

/// The text of a history that begins at a start tree.
pub(crate) fn history_text(
    alloc: Global,
    start: &SeqTree,
    entries: Vec<Heard>,
) -> Result<Vec<u8>, AllocError>
    ensures { IfOk result (λ text. text.items ≡ history_text start.now entries.items) }
{
    let mut text = Vec::new(alloc);
    write_opening(alloc, start, &mut text)?;
    for entry in entries {
        let line = heard_line(alloc, entry)?;
        text.extend_from_slice(line.as_slice())?;
    }
    Ok(text)
}
