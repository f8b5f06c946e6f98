//! Words that name a call.

ghost use Rattle.std.specs.Prelude.{◌≡◌, ◌<◌, ◌++◌, true, length, position, IfOk};
ghost use Rattle.fs_sched_reach.specs.Words.{is_at_sign, is_marked, call_in, reach_of, times_word, plain_word};

use fs_words::Addition;
use fs_words::words::{number_of, parts};
use std::alloc::{AllocError, Global};
use std::marker::Model;

/// What a word says that names a call: the thread's name, which of its calls, if that is a number, and whether the thread is to come
/// to the commit of the call, or else to its begin.
#[derive(Drop)]
pub struct Reach<'a> {
    pub name: &'a [u8],
    pub call: Option<u64>,
    pub to_commit: bool,
}

impl<'a> Model for Reach<'a> {
    ghost use Rattle.fs_sched_reach.specs.Words.{CallWord};

    ghost Value = { CallWord };

    ghost view = { λ r. record { name = r.name.now; call = r.call; to_commit = r.to_commit } };
}

fn at_sign(word: &[u8]) -> Option<usize>
    ensures { result ≡ position is_at_sign word.now }
{
    word.iter().position(|b| *b == b'@')
}

/// Whether the last byte of a word is `!`.
fn is_marked(word: &[u8]) -> bool
    ensures is { result ≡ is_marked word.now }
    ensures some { result ≡ true → 0 < length word.now }
{
    let count = word.len();
    count > 0 && word[count - 1] == b'!'
}

/// The number of a call, with `!` after it or without.
fn call_in(word: &[u8]) -> Option<u64>
    ensures { result ≡ call_in word.now }
{
    if is_marked(word) {
        return number_of(&word[..word.len() - 1]);
    }
    number_of(word)
}

/// What a word says, if it names a call.
pub(crate) fn reach_of(word: &[u8]) -> Option<Reach<'_>>
    ensures { result ≡ reach_of word.now }
{
    match at_sign(word) {
        Some(at) => {
            let (name, rest) = parts(word, at);
            Some(Reach {
                name,
                call: call_in(rest),
                to_commit: is_marked(rest),
            })
        }
        None => None,
    }
}

/// A word without the call that it names.
pub(crate) fn plain_word(word: &[u8]) -> &[u8]
    ensures { result.now ≡ plain_word word.now }
{
    match at_sign(word) {
        Some(at) => &word[..at],
        None => word,
    }
}

/// A text, and a thread's name after it.
pub(crate) fn with_name(alloc: Global, text: &[u8], name: &[u8]) -> Result<Vec<u8>, AllocError>
    ensures { IfOk result (λ made. made.items ≡ text.now ++ name.now) }
{
    let mut made = Vec::from_slice(alloc, text)?;
    made.extend_from_slice(name)?;
    Ok(made)
}

/// A text, and after it the word by which a thread has so many events.
pub(crate) fn with_times(
    alloc: Global,
    text: &[u8],
    name: &[u8],
    times: u64,
) -> Result<Vec<u8>, AllocError>
    ensures { IfOk result (λ made. made.items ≡ text.now ++ times_word name.now times) }
{
    let mut made = Addition::new(Vec::from_slice(alloc, text)?);
    made.push(name)?;
    made.push_with_number(b"*", times)?;
    Ok(made.kept())
}
