//! The text of a history as that of a journal.

ghost use Rattle.std.specs.Prelude.{◌≡◌, ◌++◌, map, IfOk, OnOk};
ghost use Rattle.fs_words.specs.Reading.{words_of};
ghost use Rattle.fs_linearize_text.specs.Texts.{plain_by, plain_in, plain_line, plain_text};

use crate::marks::{first_is, mark_in, second};
use fs_words::FaultKind;
use fs_words::lines::cut_words;
use std::alloc::{AllocError, Global};

/// Appends the line of a journal for one of a history, by its words.
fn push_by(
    alloc: Global,
    line: &[u8],
    words: &[&[u8]],
    text: &mut Vec<u8>,
) -> Result<(), AllocError>
    ensures { OnOk result (text.new.items ≡ text.old.items ++ plain_by (map (λ w. w.now) words.now) line.now) }
{
    if first_is(b"commit", words) {
        return text.extend_from_slice(b"commit");
    }
    if mark_in(alloc, words)?.is_none() {
        return text.extend_from_slice(line);
    }
    text.extend_from_slice(b"return ")?;
    text.extend_from_slice(second(words))?;
    text.extend_from_slice(b" ok")
}

/// The same, where its words are not cut yet. `words` lends its memory.
fn push_plain<'a>(
    alloc: Global,
    line: &'a [u8],
    words: &mut Vec<&'a [u8]>,
    text: &mut Vec<u8>,
) -> Result<(), AllocError>
    ensures { OnOk result (text.new.items ≡ text.old.items ++ plain_in (words_of line.now) line.now) }
{
    match cut_words(line, words) {
        Ok(()) => push_by(alloc, line, words, text),
        Err(FaultKind::OutOfMemory) => Err(AllocError),
        Err(_) => text.extend_from_slice(line),
    }
}

/// The text of a journal for the lines of a history: line for line, where `ok` stands for a reply that is left open, and no
/// entry for a commit.
pub(crate) fn plain_text(alloc: Global, lines: &[&[u8]]) -> Result<Vec<u8>, AllocError>
    ensures { IfOk result (λ plain. plain.items ≡ plain_text (map (λ l. l.now) lines.now)) }
{
    let mut plain = Vec::new(alloc);
    let mut words = Vec::new(alloc);
    for line in lines {
        push_plain(alloc, line, &mut words, &mut plain)?;
        plain.push(b'\n')?;
    }
    Ok(plain)
}
