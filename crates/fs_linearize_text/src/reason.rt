//! Why no journal explains a history, in words: the entry that is named, with its line, and its call.

use crate::marks::{first_is, second};
use fs_text::Addition;
use fs_words::FaultKind;
use fs_words::lines::cut_words;
use fs_words::words::is_word;
use std::alloc::{AllocError, Global};

/// The most bytes of an entry, a call or a reply; of one that has more, the rest is left out.
const MOST: usize = 240;

/// Adds bytes, of which no more than the most are told.
pub(crate) fn push_cut(bytes: &[u8], told: &mut Addition) -> Result<(), AllocError> {
    match bytes.get(..MOST) {
        Some(front) if bytes.len() > MOST => {
            told.push(front)?;
            told.push(b"..")
        }
        _ => told.push(bytes),
    }
}

/// Puts the words of a line in the place of those before; none where it is no line of words.
fn take_words<'a>(line: &'a [u8], words: &mut Vec<&'a [u8]>) -> Result<(), AllocError> {
    match cut_words(line, words) {
        Ok(()) => Ok(()),
        Err(FaultKind::OutOfMemory) => Err(AllocError),
        Err(_) => {
            words.clear();
            Ok(())
        }
    }
}

/// Takes the words of the entry of this place, counted from 1, and answers its line with its number.
fn take_entry<'a>(
    lines: &[&'a [u8]],
    place: usize,
    words: &mut Vec<&'a [u8]>,
) -> Result<(u64, &'a [u8]), AllocError> {
    let mut number = 0u64;
    let mut passed = 0usize;
    for line in lines {
        number = number.saturating_add(1);
        take_words(*line, words)?;
        if first_is(b"begin", words) || first_is(b"return", words) {
            passed = passed.saturating_add(1);
        }
        if passed == place {
            return Ok((number, *line));
        }
    }
    Ok((number, &[]))
}

/// Takes the words of the entry that begins a call, by its number; none where no such entry stands there.
fn take_begin<'a>(
    lines: &[&'a [u8]],
    number: &[u8],
    words: &mut Vec<&'a [u8]>,
) -> Result<(), AllocError> {
    for line in lines {
        take_words(*line, words)?;
        if first_is(b"begin", words) && is_word(second(words), number) {
            return Ok(());
        }
    }
    words.clear();
    Ok(())
}

/// Words with a space between each two.
fn joined(alloc: Global, words: &[&[u8]]) -> Result<Vec<u8>, AllocError> {
    let mut text = Vec::new(alloc);
    for word in words {
        if !text.is_empty() {
            text.push(b' ')?;
        }
        text.extend_from_slice(word)?;
    }
    Ok(text)
}

/// Adds which call this is, by the words of its begin, or that none has begun.
fn push_call(
    alloc: Global,
    number: &[u8],
    begin: &[&[u8]],
    told: &mut Addition,
) -> Result<(), AllocError> {
    let [_, _, seat, call @ ..] = begin else {
        told.push(b"; no call ")?;
        told.push(number)?;
        return told.push(b" has begun");
    };
    told.push(b"; call ")?;
    told.push(number)?;
    told.push(b" is ")?;
    push_cut(&joined(alloc, call)?, told)?;
    told.push(b" on seat ")?;
    told.push(seat)
}

/// Adds what the entry of this place says, counted from 1, with the number of its line, before which so many others are, and which
/// call it is.
pub(crate) fn push_entry(
    alloc: Global,
    lines: &[&[u8]],
    place: usize,
    before: usize,
    told: &mut Addition,
) -> Result<(), AllocError> {
    let mut words = Vec::new(alloc);
    let (number, line) = take_entry(lines, place, &mut words)?;
    told.push_with_number(b"line ", number.saturating_add(before as u64))?;
    told.push(b": ")?;
    push_cut(line, told)?;
    let call = second(&words);
    take_begin(lines, call, &mut words)?;
    push_call(alloc, call, &words, told)
}

/// What the entry of this place says, counted from 1, with its line, and which call it is.
pub(crate) fn reason_of(
    alloc: Global,
    lines: &[&[u8]],
    place: usize,
) -> Result<Vec<u8>, AllocError> {
    let mut told = Addition::new(Vec::new(alloc));
    push_entry(alloc, lines, place, 0, &mut told)?;
    Ok(told.kept())
}

/// Adds a line with the entry up to which nothing explains the history with the replies of later lines, where that is before the
/// entry of this place.
pub(crate) fn with_held(
    alloc: Global,
    reason: Vec<u8>,
    lines: &[&[u8]],
    held: usize,
    place: usize,
) -> Result<Vec<u8>, AllocError> {
    let mut told = Addition::new(reason);
    if held < place {
        told.push(b"\nwith the replies of later lines nothing explains ")?;
        push_entry(alloc, lines, held, 0, &mut told)?;
    }
    Ok(told.kept())
}
