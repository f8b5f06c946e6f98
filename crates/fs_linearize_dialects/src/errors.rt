//! Errors in one word, with a bar between each two.

ghost use Rattle.std.specs.Prelude.{◌≡◌, ◌++◌, map, IfOk, OnOk};
ghost use Rattle.std.specs.List.{flat_map};
ghost use Rattle.fs_text.specs.Journal.{errno_of};
ghost use Rattle.fs_linearize_dialects.specs.Errors.{errno_among, spaced_byte, spaced, errnos_of, errors_of, barred, errors_word};

use fs_calls::Errno;
use fs_linearize_histories::Errors;
use fs_text::errno_text;
use fs_words::lines::cut_words;
use fs_words::words::is_word;
use fs_words::{Addition, FaultKind};
use std::alloc::{AllocError, Global};

/// Each error.
pub const ERRNOS: [Errno; 11] = [
    Errno::Enoent,
    Errno::Enotdir,
    Errno::Eexist,
    Errno::Enotempty,
    Errno::Eisdir,
    Errno::Einval,
    Errno::Ebusy,
    Errno::Eperm,
    Errno::Enospc,
    Errno::Efbig,
    Errno::Eoverflow,
];

/// The first of these errors that a word names, if it names one.
fn errno_among(word: &[u8], errnos: &[Errno]) -> Option<Errno>
    ensures { result ≡ errno_among word.now errnos.now }
{
    for errno in errnos {
        if is_word(word, errno_text(*errno)) {
            return Some(*errno);
        }
    }
    None
}

/// The error that a word names, if it names one.
pub(crate) fn errno_at(word: &[u8]) -> Option<Errno>
    ensures { result ≡ errno_of word.now }
{
    errno_among(word, &ERRNOS)
}

/// A space in the place of a bar.
fn spaced_byte(byte: u8) -> u8
    ensures { result ≡ spaced_byte byte }
{
    if byte == b'|' { b' ' } else { byte }
}

/// A word with spaces in the place of its bars.
fn spaced(alloc: Global, word: &[u8]) -> Result<Vec<u8>, AllocError>
    ensures { IfOk result (λ line. line.items ≡ spaced word.now) }
{
    let mut line = Vec::with_capacity(alloc, word.len())?;
    for byte in word {
        line.push(spaced_byte(*byte))?;
    }
    Ok(line)
}

/// The errors that words name, if each names one.
fn errnos_of(alloc: Global, words: &[&[u8]]) -> Result<Option<Errors>, AllocError>
    ensures { IfOk result (λ errors. errors ≡ errnos_of (map (λ w. w.now) words.now)) }
{
    let mut errors = Errors::new(alloc);
    for word in words {
        match errno_at(word) {
            Some(errno) => errors.push(errno)?,
            None => return Ok(None),
        }
    }
    Ok(Some(errors))
}

/// The errors that a word names, with a bar between each two; none where it names something else.
pub fn errors_at(alloc: Global, word: &[u8]) -> Result<Option<Errors>, AllocError>
    ensures { IfOk result (λ errors. errors ≡ errors_of word.now) }
{
    let line = spaced(alloc, word)?;
    let mut words = Vec::new(alloc);
    match cut_words(line.as_slice(), &mut words) {
        Ok(()) => errnos_of(alloc, &words),
        Err(FaultKind::OutOfMemory) => Err(AllocError),
        Err(_) => Ok(None),
    }
}

/// Adds errors, each behind a bar.
fn push_barred(errors: &[Errno], line: &mut Addition) -> Result<(), AllocError>
    ensures ok { OnOk result (line.new.added ≡ line.old.added ++ flat_map barred errors.now) }
    ensures before { line.new.before ≡ line.old.before }
{
    for errno in errors {
        line.push(b"|")?;
        line.push(errno_text(*errno))?;
    }
    Ok(())
}

/// Adds errors as one word, with a bar between each two.
pub fn write_errors(errors: &[Errno], line: &mut Addition) -> Result<(), AllocError>
    ensures ok { OnOk result (line.new.added ≡ line.old.added ++ errors_word errors.now) }
    ensures before { line.new.before ≡ line.old.before }
{
    match errors {
        [] => Ok(()),
        [first, others @ ..] => {
            line.push(errno_text(*first))?;
            push_barred(others, line)
        }
    }
}
