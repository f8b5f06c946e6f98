//! Replies that are read from words.

ghost use Rattle.std.specs.Prelude.{◌≡◌, map};
ghost use Rattle.fs_text.specs.Journal.{kind_named, errno_of, stated_at, stated_of, names_at, names_of, bytes_of, wrote_of, failed_of, done_of, reply_of};
ghost use Rattle.fs_words.specs.code.Answers.{Gives};

use fs_calls::{Errno, NameList, Reply};
use fs_memory::Memory;
use fs_names::{Kind, Limits, Name, NameRoom};
use fs_words::FaultKind;
use fs_words::lines::push_item;
use fs_words::words::{hex_at, is_word, name_at, number_at};
use std::alloc::Global;

fn kind_named(word: &[u8]) -> Option<Kind>
    ensures { result ≡ kind_named word.now }
{
    if is_word(word, b"dir") {
        return Some(Kind::Dir);
    }
    if is_word(word, b"file") {
        return Some(Kind::File);
    }
    None
}

fn errno_of(word: &[u8]) -> Option<Errno>
    ensures { result ≡ errno_of word.now }
{
    if is_word(word, b"ENOENT") {
        return Some(Errno::Enoent);
    }
    if is_word(word, b"ENOTDIR") {
        return Some(Errno::Enotdir);
    }
    if is_word(word, b"EEXIST") {
        return Some(Errno::Eexist);
    }
    if is_word(word, b"ENOTEMPTY") {
        return Some(Errno::Enotempty);
    }
    if is_word(word, b"EISDIR") {
        return Some(Errno::Eisdir);
    }
    if is_word(word, b"EINVAL") {
        return Some(Errno::Einval);
    }
    if is_word(word, b"EBUSY") {
        return Some(Errno::Ebusy);
    }
    if is_word(word, b"EPERM") {
        return Some(Errno::Eperm);
    }
    if is_word(word, b"ENOSPC") {
        return Some(Errno::Enospc);
    }
    if is_word(word, b"EFBIG") {
        return Some(Errno::Efbig);
    }
    if is_word(word, b"EOVERFLOW") {
        return Some(Errno::Eoverflow);
    }
    None
}

fn done_of(words: &[&[u8]]) -> Result<Reply, FaultKind>
    ensures { Gives (λ reply. reply) result (done_of (map (λ w. w.now) words.now)) }
{
    match words {
        [] => Ok(Reply::Done),
        _ => Err(FaultKind::BadReply),
    }
}

fn stated_at(kind: &[u8], size: &[u8]) -> Result<Reply, FaultKind>
    ensures { Gives (λ reply. reply) result (stated_at kind.now size.now) }
{
    let kind = kind_named(kind).ok_or(FaultKind::BadReply)?;
    Ok(Reply::Stat(kind, number_at(size)?))
}

fn stated_of(words: &[&[u8]]) -> Result<Reply, FaultKind>
    ensures { Gives (λ reply. reply) result (stated_of (map (λ w. w.now) words.now)) }
{
    match words {
        [kind, size] => stated_at(kind, size),
        _ => Err(FaultKind::BadReply),
    }
}

/// The names that words are by these limits, unescaped; the first that is none is a `BadReply`.
pub fn names_at(alloc: Global, limits: Limits, words: &[&[u8]]) -> Result<Vec<Name>, FaultKind>
    ensures { Gives (λ names. names.items) result (names_at limits (map (λ w. w.now) words.now)) }
{
    let Ok(mut names) = Vec::with_capacity(alloc, words.len()) else {
        return Err(FaultKind::OutOfMemory);
    };
    let mut at = 0;
    'names: while at < words.len() {
        let name = match name_at(alloc, limits, words[at]) {
            Ok(name) => name,
            Err(kind) => return Err(kind),
        };
        if let Err(kind) = push_item(&mut names, name) {
            return Err(kind);
        }
        at += 1;
    }
    Ok(names)
}

/// For how many bytes a list of the names of words has to have room at most.
fn bytes_for(words: &[&[u8]]) -> usize {
    let mut bytes = words.len();
    for word in words {
        bytes = bytes.saturating_add(word.len());
    }
    bytes
}

/// The same names as a list.
fn name_list_at(alloc: Global, limits: Limits, words: &[&[u8]]) -> Result<NameList, FaultKind>
    ensures { Gives (λ names. names) result (names_at limits (map (λ w. w.now) words.now)) }
{
    let Ok(mut names) = NameRoom::new(alloc, &mut Memory::new(), bytes_for(words)) else {
        return Err(FaultKind::OutOfMemory);
    };
    let mut at = 0;
    'names: while at < words.len() {
        let name = match name_at(alloc, limits, words[at]) {
            Ok(name) => name,
            Err(kind) => return Err(kind),
        };
        if names.push(&name).is_err() {
            return Err(FaultKind::OutOfMemory);
        }
        at += 1;
    }
    Ok(names.into_list())
}

fn names_of(alloc: Global, limits: Limits, words: &[&[u8]]) -> Result<Reply, FaultKind>
    ensures { Gives (λ reply. reply) result (names_of limits (map (λ w. w.now) words.now)) }
{
    match name_list_at(alloc, limits, words) {
        Ok(names) => Ok(Reply::Names(names)),
        Err(kind) => Err(kind),
    }
}

fn bytes_of(alloc: Global, words: &[&[u8]]) -> Result<Reply, FaultKind>
    ensures { Gives (λ reply. reply) result (bytes_of (map (λ w. w.now) words.now)) }
{
    match words {
        [bytes] => Ok(Reply::Bytes(hex_at(alloc, bytes)?)),
        _ => Err(FaultKind::BadReply),
    }
}

fn wrote_of(words: &[&[u8]]) -> Result<Reply, FaultKind>
    ensures { Gives (λ reply. reply) result (wrote_of (map (λ w. w.now) words.now)) }
{
    match words {
        [size] => Ok(Reply::Wrote(number_at(size)?)),
        _ => Err(FaultKind::BadReply),
    }
}

fn failed_of(words: &[&[u8]]) -> Result<Reply, FaultKind>
    ensures { Gives (λ reply. reply) result (failed_of (map (λ w. w.now) words.now)) }
{
    match words {
        [errno] => Ok(Reply::Failed(errno_of(errno).ok_or(FaultKind::BadReply)?)),
        _ => Err(FaultKind::BadReply),
    }
}

/// The reply that words spell.
#[tactic(auto, unfolding(crate::specs::Journal::reply_of))]
pub(crate) fn reply_at(alloc: Global, limits: Limits, words: &[&[u8]]) -> Result<Reply, FaultKind>
    ensures { Gives (λ reply. reply) result (reply_of limits (map (λ w. w.now) words.now)) }
{
    let [first, more @ ..] = words else {
        return Err(FaultKind::BadReply);
    };
    if is_word(first, b"ok") {
        return done_of(more);
    }
    if is_word(first, b"stat") {
        return stated_of(more);
    }
    if is_word(first, b"names") {
        return names_of(alloc, limits, more);
    }
    if is_word(first, b"bytes") {
        return bytes_of(alloc, more);
    }
    if is_word(first, b"wrote") {
        return wrote_of(more);
    }
    if is_word(first, b"failed") {
        return failed_of(more);
    }
    Err(FaultKind::BadReply)
}
