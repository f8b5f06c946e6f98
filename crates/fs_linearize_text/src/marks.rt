//! Replies that a history leaves open.

ghost use Rattle.std.specs.Prelude.{◌≡◌, ◌++◌, ◌∷◌, [], Ok, map, IfOk, OnOk};
ghost use Rattle.std.specs.List.{list_any};
ghost use Rattle.fs_words.specs.Reading.{words_of, first_is};
ghost use Rattle.fs_linearize_text.specs.Texts.{leaves_reply, is_bar, is_failure, leaves_size, mark_if, mark_of_errors, mark_of_error, mark_failed, mark_in, second, mark_by, marks_in};

use fs_linearize_dialects::errors_at;
use fs_linearize_histories::Errors;
use fs_words::FaultKind;
use fs_words::lines::cut_words;
use fs_words::words::is_word;
use std::alloc::{AllocError, Global};

/// What is known of a reply that is left open.
#[derive(Drop)]
pub(crate) enum Mark {
    /// It is an error.
    Error,
    /// It is one of these errors.
    Errors(Errors),
    /// It is that of the stat of a directory.
    Directory,
    /// It may be any reply.
    Anything,
}

/// Whether words leave open what a reply is.
fn leaves_reply(first: &[u8], last: &[u8]) -> bool
    ensures { result ≡ leaves_reply first.now last.now }
{
    is_word(first, b"return") && is_word(last, b"?")
}

/// Whether words are those of an error that is returned.
fn is_failure(first: &[u8], reply: &[u8]) -> bool
    ensures { result ≡ is_failure first.now reply.now }
{
    is_word(first, b"return") && is_word(reply, b"failed")
}

/// Whether words leave open how many entries a directory has.
fn leaves_size(first: &[u8], reply: &[u8], what: &[u8], last: &[u8]) -> bool
    ensures { result ≡ leaves_size first.now reply.now what.now last.now }
{
    is_word(first, b"return")
        && (is_word(reply, b"stat") && (is_word(what, b"dir") && is_word(last, b"?")))
}

/// A mark, if something is left open.
fn mark_if(known: bool, mark: Mark) -> Option<Mark>
    ensures { result ≡ mark_if known mark }
{
    if known { Some(mark) } else { None }
}

/// What errors leave open: one alone leaves nothing.
fn mark_of_errors(errors: Option<Errors>) -> Option<Mark>
    ensures { result ≡ mark_of_errors errors }
{
    match errors {
        Some(errors) if errors.as_slice().len() > 1 => Some(Mark::Errors(errors)),
        _ => None,
    }
}

/// Whether a word has a bar.
fn has_bar(word: &[u8]) -> bool
    ensures { result ≡ list_any is_bar word.now }
{
    word.iter().any(|byte| *byte == b'|')
}

/// What the word of an error leaves open.
fn mark_of_error(alloc: Global, word: &[u8]) -> Result<Option<Mark>, AllocError>
    ensures { IfOk result (λ mark. mark ≡ mark_of_error word.now) }
{
    if is_word(word, b"?") {
        return Ok(Some(Mark::Error));
    }
    if has_bar(word) {
        return Ok(mark_of_errors(errors_at(alloc, word)?));
    }
    Ok(None)
}

/// The same, if an error is returned.
fn mark_failed(alloc: Global, known: bool, word: &[u8]) -> Result<Option<Mark>, AllocError>
    ensures { IfOk result (λ mark. mark ≡ mark_failed known word.now) }
{
    if known {
        return mark_of_error(alloc, word);
    }
    Ok(None)
}

/// What words leave open.
pub(crate) fn mark_in(alloc: Global, words: &[&[u8]]) -> Result<Option<Mark>, AllocError>
    ensures { IfOk result (λ mark. mark ≡ mark_in (map (λ w. w.now) words.now)) }
{
    match words {
        [first, _, last] => Ok(mark_if(leaves_reply(first, last), Mark::Anything)),
        [first, _, reply, last] => mark_failed(alloc, is_failure(first, reply), last),
        [first, _, reply, what, last] => Ok(mark_if(
            leaves_size(first, reply, what, last),
            Mark::Directory,
        )),
        _ => Ok(None),
    }
}

/// The second word, where there is one.
pub(crate) fn second<'a>(words: &[&'a [u8]]) -> &'a [u8]
    ensures { result.now ≡ second (map (λ w. w.now) words.now) }
{
    match words {
        [_, word, ..] => word,
        _ => &[],
    }
}

/// Whether the first word is this one.
pub(crate) fn first_is(wanted: &[u8], words: &[&[u8]]) -> bool
    ensures { result ≡ first_is wanted.now (map (λ w. w.now) words.now) }
{
    match words {
        [] => false,
        [first, ..] => is_word(first, wanted),
    }
}

/// Adds what words leave open, if they are those of a Return.
fn push_by(alloc: Global, words: &[&[u8]], marks: &mut Vec<Option<Mark>>) -> Result<(), AllocError>
    ensures { OnOk result (marks.new.items ≡ marks.old.items ++ mark_by (Ok (map (λ w. w.now) words.now))) }
{
    if first_is(b"return", words) {
        marks.push(mark_in(alloc, words)?)?;
    }
    Ok(())
}

/// The same of a line. `words` lends its memory.
fn push_mark<'a>(
    alloc: Global,
    line: &'a [u8],
    words: &mut Vec<&'a [u8]>,
    marks: &mut Vec<Option<Mark>>,
) -> Result<(), AllocError>
    ensures { OnOk result (marks.new.items ≡ marks.old.items ++ mark_by (words_of line.now)) }
{
    match cut_words(line, words) {
        Ok(()) => push_by(alloc, words, marks),
        Err(FaultKind::OutOfMemory) => Err(AllocError),
        Err(_) => Ok(()),
    }
}

/// What each Return leaves open, by the lines before a line `tree`.
pub(crate) fn marks_in(alloc: Global, lines: &[&[u8]]) -> Result<Vec<Option<Mark>>, AllocError>
    ensures { IfOk result (λ marks. marks.items ≡ marks_in (map (λ l. l.now) lines.now)) }
{
    let mut marks = Vec::new(alloc);
    let mut words = Vec::new(alloc);
    for line in lines {
        if is_word(line, b"tree") {
            return Ok(marks);
        }
        push_mark(alloc, line, &mut words, &mut marks)?;
    }
    Ok(marks)
}
