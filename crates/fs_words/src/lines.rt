//! Lines of a text, and words of a line.

ghost use Rattle.std.specs.Prelude.{◌≡◌, ◌<◌, ◌≤◌, ◌++◌, ◌∷◌, [], length, map, position, MatchOption, MatchResult};
ghost use Rattle.memchr.specs.Find.{IsFirst, Passes};
ghost use Rattle.fs_words.specs.Lines.{lines_of, is_line_feed, is_space, is_passed_over};
ghost use Rattle.fs_words.specs.Reading.{words_of};
ghost use Rattle.fs_words.specs.code.Answers.{Becomes, pushed_word};
ghost use Rattle.fs_words.specs.declared.fault.FaultKind.TheVariants as kind;

use crate::fault::FaultKind;
use crate::words::parts;
use fs_names::blocks::place_from;
use memchr::memchr;

fn line_end(text: &[u8]) -> Option<usize>
    ensures { result ≡ position is_line_feed text.now }
{
    memchr(b'\n', text)
}

/// The line at the front and what comes after it, if there is one.
pub fn cut_line(text: &[u8]) -> Option<(&[u8], &[u8])>
    ensures { MatchOption result (lines_of text.now ≡ [])
        (λ p. (lines_of text.now ≡ p.0.now ∷ lines_of p.1.now) × (length p.1.now < length text.now)) }
{
    if text.is_empty() {
        return None;
    }
    match line_end(text) {
        Some(at) => Some(parts(text, at)),
        None => Some((text, &[])),
    }
}

/// Whether a line is empty or a comment.
pub fn is_passed_over(line: &[u8]) -> bool
    ensures { result ≡ is_passed_over line.now }
{
    match line {
        [] => true,
        [first, ..] => *first == b'#',
    }
}

/// Where the word ends that begins at a place; none where it is the last.
#[inline(always)]
fn word_end(line: &[u8], start: usize) -> Option<usize>
    requires { start ≤ length line.now }
    ensures { IsFirst (Passes is_space line.now) start (length line.now) result }
{
    place_from(b' ', line, start)
}

/// Adds an item. The only error is out of memory.
pub fn push_item<T: Drop>(items: &mut Vec<T>, item: T) -> Result<(), FaultKind>
    ensures { MatchResult result (λ _. items.new.items ≡ items.old.items ++ item ∷ []) (λ e. e ≡ kind.OutOfMemory) }
{
    match items.push(item) {
        Ok(()) => Ok(()),
        Err(_) => Err(FaultKind::OutOfMemory),
    }
}

/// Adds a word, unless it is empty: then there is a space where none may be.
fn push_word<'a>(words: &mut Vec<&'a [u8]>, word: &'a [u8]) -> Result<(), FaultKind>
    ensures { Becomes result (map (λ w. w.now) words.new.items) (pushed_word (map (λ w. w.now) words.old.items) word.now) }
{
    if word.is_empty() {
        return Err(FaultKind::BadLine);
    }
    push_item(words, word)
}

/// Puts the words of a line in the place of those of the line before it, whose memory is used again.
pub fn cut_words<'a>(line: &'a [u8], words: &mut Vec<&'a [u8]>) -> Result<(), FaultKind>
    ensures { Becomes result (map (λ w. w.now) words.new.items) (words_of line.now) }
{
    words.clear();
    let mut start = 0;
    'words: while let Some(end) = word_end(line, start) {
        if let Err(kind) = push_word(words, &line[start..end]) {
            return Err(kind);
        }
        start = end + 1;
    }
    push_word(words, &line[start..])
}
