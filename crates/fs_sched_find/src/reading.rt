//! What is said of a run, read from words.

ghost use Rattle.std.specs.Prelude.{◌≡◌, ◌<◌, ◌≤◌, ◌+◌, take, drop, length, ◌++◌, ◌∷◌, [], List, map, position, codes, OnOk, IfOk, IfErr, Ok};
ghost use Rattle.std.specs.List.{flat_map, list_any, position_or_len};
ghost use Rattle.fs_sched_find.specs.Reading.{is_hash, is_memory, joined, entries_behind, said_of, call_of, numbered, return_text, only_reply, reply_of, is_failed, returned_of, reply_words_of, is_path, is_node, line_of, helped_of, waits_of, before_of, overlap_of, condition_of, clause_with, clause_of, is_same, clauses_of, alternatives_of, what_of};
ghost use Rattle.fs_words.specs.Lines.{is_line_feed};
ghost use Rattle.fs_words.specs.Reading.{words_of};
ghost use Rattle.fs_words.specs.code.Answers.{GivesText};
ghost use Rattle.fs_sched_find.specs.code.Answers.{Says};

use crate::copying::copy_of_reply;
use crate::what::{CallName, Clause, Clauses, Condition};
use fs_calls::Reply;
use fs_names::{Bytes, Limits};
use fs_text::entries_in;
use fs_timeline::Entry;
use fs_words::lines::cut_words;
use fs_words::words::{hex_at, is_word, number_of, parts};
use fs_words::{FaultKind, Lines, ScriptFault};
use memchr::memchr;
use std::alloc::{AllocError, Global};
use thiserror::Error;

/// What is wrong with words that are to say something of a run.
#[derive(Clone, Copy, Debug, PartialEq, Eq, Error)]
pub enum WhatFault {
    /// An allocation failed.
    #[error("out of memory")]
    OutOfMemory,
    /// They are no conditions with `and` or `or` between them.
    #[error("write `reply CALL REPLY`, `tree LINE`, `helped CALL`, `waits CALL`, `before CALL CALL` or `overlap CALL CALL`, each also after `not`, with `and` or `or` between two")]
    BadWords,
    /// A word is no call.
    #[error("a CALL is the name of a thread, `#` and a number from 1")]
    BadCall,
    /// Words are no reply.
    #[error("a REPLY is that of a journal, or `failed` for any error")]
    BadReply,
    /// Words are no line of a tree text.
    #[error("a LINE is `dir PATH` or `file PATH HEX`, as a tree text has it")]
    BadLine,
}

impl From<AllocError> for WhatFault {
    ghost use Rattle.fs_sched_find.specs.declared.reading.WhatFault.TheVariants.{OutOfMemory};

    ghost from_gives = { λ _ fault. fault ≡ OutOfMemory };

    fn from(_error: AllocError) -> WhatFault {
        WhatFault::OutOfMemory
    }
}

fn bytes_of(alloc: Global, bytes: &[u8]) -> Result<Bytes, AllocError>
    ensures { IfOk result (λ copy. copy ≡ bytes.now) }
{
    Ok(Bytes::new(Vec::from_slice(alloc, bytes)?))
}

fn numbered(alloc: Global, thread: &[u8], place: Option<u64>) -> Result<CallName, WhatFault>
    ensures { Says (λ call. call) result (numbered thread.now place) }
{
    match place {
        Some(place) if place >= 1 => Ok(CallName {
            thread: bytes_of(alloc, thread)?,
            place,
        }),
        _ => Err(WhatFault::BadCall),
    }
}

fn hash_in(word: &[u8]) -> Option<usize>
    ensures { result ≡ position is_hash word.now }
{
    memchr(b'#', word)
}

/// The call that a word is.
fn call_of(alloc: Global, word: &[u8]) -> Result<CallName, WhatFault>
    ensures { Says (λ call. call) result (call_of word.now) }
{
    match hash_in(word) {
        Some(at) => {
            let (thread, place) = parts(word, at);
            numbered(alloc, thread, number_of(place))
        }
        None => Err(WhatFault::BadCall),
    }
}

/// Words, each behind a space.
fn push_words(words: &[&[u8]], text: &mut Vec<u8>) -> Result<(), AllocError>
    ensures { OnOk result (text.new.items ≡ text.old.items ++ flat_map (λ word. 32 ∷ word) (map (λ w. w.now) words.now)) }
{
    for word in words {
        text.push(b' ')?;
        text.extend_from_slice(word)?;
    }
    Ok(())
}

fn return_text(alloc: Global, words: &[&[u8]]) -> Result<Vec<u8>, AllocError>
    ensures { IfOk result (λ text. text.items ≡ return_text (map (λ w. w.now) words.now)) }
{
    let mut text = Vec::from_slice(alloc, b"reply\nreturn 1".as_slice())?;
    push_words(words, &mut text)?;
    Ok(text)
}

/// The reply of the only entry.
fn only_reply(entries: &[Entry]) -> Result<Reply, WhatFault>
    ensures { Says (λ reply. reply) result (only_reply (Ok entries.now)) }
{
    match entries {
        [Entry::Return(_, reply)] => Ok(copy_of_reply(reply)?),
        _ => Err(WhatFault::BadReply),
    }
}

/// Whether a fault is want of memory.
fn is_memory(kind: FaultKind) -> bool
    ensures { result ≡ is_memory kind }
{
    matches!(kind, FaultKind::OutOfMemory)
}

/// The entries of a text behind a line `reply`.
fn entries_behind(alloc: Global, text: &[u8]) -> Result<Vec<Entry>, ScriptFault>
    ensures { GivesText (λ entries. entries.items) result (entries_behind text.now) }
{
    entries_in(
        alloc,
        Limits::LARGEST,
        Lines::behind_header(text, b"reply")?,
    )
}

/// The reply of the only entry of a text.
fn reply_in(alloc: Global, text: &[u8]) -> Result<Reply, WhatFault>
    ensures { Says (λ reply. reply) result (only_reply (entries_behind text.now)) }
{
    match entries_behind(alloc, text) {
        Ok(entries) => only_reply(entries.as_slice()),
        Err(fault) if is_memory(fault.kind) => Err(WhatFault::OutOfMemory),
        Err(_) => Err(WhatFault::BadReply),
    }
}

/// The reply that words say, as a journal has it.
#[tactic(auto, unfolding(crate::specs::Reading::reply_of))]
fn reply_of(alloc: Global, words: &[&[u8]]) -> Result<Reply, WhatFault>
    ensures { Says (λ reply. reply) result (reply_of (map (λ w. w.now) words.now)) }
{
    let text = return_text(alloc, words)?;
    reply_in(alloc, text.as_slice())
}

/// Whether these words say any error.
fn is_failed(words: &[&[u8]]) -> bool
    ensures { result ≡ is_failed (map (λ w. w.now) words.now) }
{
    match words {
        [word] => is_word(word, b"failed"),
        _ => false,
    }
}

fn returned_of(alloc: Global, call: CallName, words: &[&[u8]]) -> Result<Condition, WhatFault>
    ensures { Says (λ condition. condition) result (returned_of call (map (λ w. w.now) words.now)) }
{
    if is_failed(words) {
        return Ok(Condition::Fails(call));
    }
    Ok(Condition::Reply(call, reply_of(alloc, words)?))
}

fn reply_words_of(alloc: Global, words: &[&[u8]]) -> Result<Condition, WhatFault>
    ensures { Says (λ condition. condition) result (reply_words_of (map (λ w. w.now) words.now)) }
{
    match words {
        [call, more @ ..] => {
            let call = call_of(alloc, call)?;
            returned_of(alloc, call, more)
        }
        _ => Err(WhatFault::BadWords),
    }
}

fn is_path(word: &[u8]) -> bool
    ensures { result ≡ is_path word.now }
{
    match word {
        [] => false,
        [first, ..] => *first == b'/',
    }
}

/// Whether words are those of a line of a tree text.
fn is_node(alloc: Global, words: &[&[u8]]) -> Result<bool, AllocError>
    ensures { IfOk result (λ is. is ≡ is_node (map (λ w. w.now) words.now)) }
{
    match words {
        [kind, path] => Ok(is_word(kind, b"dir") && is_path(path)),
        [kind, path, hex] => {
            if !is_word(kind, b"file") || !is_path(path) {
                return Ok(false);
            }
            match hex_at(alloc, hex) {
                Ok(_) => Ok(true),
                Err(FaultKind::OutOfMemory) => Err(AllocError),
                Err(_) => Ok(false),
            }
        }
        _ => Ok(false),
    }
}

/// Words behind a first one, each behind a space.
fn joined_to(alloc: Global, first: &[u8], more: &[&[u8]]) -> Result<Bytes, AllocError>
    ensures { IfOk result (λ line. line ≡ first.now ++ flat_map (λ word. 32 ∷ word) (map (λ w. w.now) more.now)) }
{
    let mut line = Vec::from_slice(alloc, first)?;
    push_words(more, &mut line)?;
    Ok(Bytes::new(line))
}

/// Words with a space between two.
fn joined(alloc: Global, words: &[&[u8]]) -> Result<Bytes, AllocError>
    ensures { IfOk result (λ line. line ≡ joined (map (λ w. w.now) words.now)) }
{
    match words {
        [] => Ok(Bytes::new(Vec::new(alloc))),
        [first, more @ ..] => joined_to(alloc, first, more),
    }
}

fn line_of(alloc: Global, words: &[&[u8]]) -> Result<Condition, WhatFault>
    ensures { Says (λ condition. condition) result (line_of (map (λ w. w.now) words.now)) }
{
    if !is_node(alloc, words)? {
        return Err(WhatFault::BadLine);
    }
    Ok(Condition::Line(joined(alloc, words)?))
}

fn helped_of(alloc: Global, words: &[&[u8]]) -> Result<Condition, WhatFault>
    ensures { Says (λ condition. condition) result (helped_of (map (λ w. w.now) words.now)) }
{
    match words {
        [call] => Ok(Condition::Helped(call_of(alloc, call)?)),
        _ => Err(WhatFault::BadWords),
    }
}

fn waits_of(alloc: Global, words: &[&[u8]]) -> Result<Condition, WhatFault>
    ensures { Says (λ condition. condition) result (waits_of (map (λ w. w.now) words.now)) }
{
    match words {
        [call] => Ok(Condition::Waits(call_of(alloc, call)?)),
        _ => Err(WhatFault::BadWords),
    }
}

fn before_of(alloc: Global, words: &[&[u8]]) -> Result<Condition, WhatFault>
    ensures { Says (λ condition. condition) result (before_of (map (λ w. w.now) words.now)) }
{
    match words {
        [call, other] => {
            let call = call_of(alloc, call)?;
            Ok(Condition::Before(call, call_of(alloc, other)?))
        }
        _ => Err(WhatFault::BadWords),
    }
}

fn overlap_of(alloc: Global, words: &[&[u8]]) -> Result<Condition, WhatFault>
    ensures { Says (λ condition. condition) result (overlap_of (map (λ w. w.now) words.now)) }
{
    match words {
        [call, other] => {
            let call = call_of(alloc, call)?;
            Ok(Condition::Overlap(call, call_of(alloc, other)?))
        }
        _ => Err(WhatFault::BadWords),
    }
}

/// The condition that words say.
#[tactic(auto, unfolding(crate::specs::Reading::condition_of))]
fn condition_of(alloc: Global, words: &[&[u8]]) -> Result<Condition, WhatFault>
    ensures { Says (λ condition. condition) result (condition_of (map (λ w. w.now) words.now)) }
{
    let [first, more @ ..] = words else {
        return Err(WhatFault::BadWords);
    };
    if is_word(first, b"reply") {
        return reply_words_of(alloc, more);
    }
    if is_word(first, b"tree") {
        return line_of(alloc, more);
    }
    if is_word(first, b"helped") {
        return helped_of(alloc, more);
    }
    if is_word(first, b"waits") {
        return waits_of(alloc, more);
    }
    if is_word(first, b"before") {
        return before_of(alloc, more);
    }
    if is_word(first, b"overlap") {
        return overlap_of(alloc, more);
    }
    Err(WhatFault::BadWords)
}

fn clause_with(alloc: Global, negated: bool, words: &[&[u8]]) -> Result<Clause, WhatFault>
    ensures { Says (λ clause. clause) result (clause_with negated (map (λ w. w.now) words.now)) }
{
    let condition = condition_of(alloc, words)?;
    Ok(Clause { negated, condition })
}

/// The clause that words say.
fn clause_of(alloc: Global, words: &[&[u8]]) -> Result<Clause, WhatFault>
    ensures { Says (λ clause. clause) result (clause_of (map (λ w. w.now) words.now)) }
{
    match words {
        [] => Err(WhatFault::BadWords),
        [first, more @ ..] => {
            if is_word(first, b"not") {
                return clause_with(alloc, true, more);
            }
            clause_with(alloc, false, words)
        }
    }
}

/// The place of the first of these words that is a certain one; if none is, the number of words.
fn place_of(words: &[&[u8]], wanted: &[u8]) -> usize
    ensures at { result ≡ position_or_len (is_same wanted.now) (map (λ w. w.now) words.now) }
    ensures within { result ≤ length words.now }
{
    for at in 0..words.len() {
        if is_word(words[at], wanted) {
            return at;
        }
    }
    words.len()
}

fn front<'w, 'a>(words: &'w [&'a [u8]], end: usize) -> &'w [&'a [u8]]
    requires { end ≤ length words.now }
    ensures { result.now ≡ take end words.now }
{
    &words[..end]
}

fn behind<'w, 'a>(words: &'w [&'a [u8]], at: usize) -> &'w [&'a [u8]]
    requires { at < length words.now }
    ensures { result.now ≡ drop (at + 1) words.now }
{
    &words[at + 1..]
}

/// The clauses that words say, with `and` between two.
fn clauses_of(alloc: Global, words: &[&[u8]]) -> Result<Vec<Clause>, WhatFault>
    ensures { Says (λ clauses. clauses.items) result (clauses_of (map (λ w. w.now) words.now)) }
{
    let mut clauses = Vec::new(alloc);
    let mut rest = words;
    'clauses: loop {
        let end = place_of(rest, b"and");
        let clause = clause_of(alloc, front(rest, end))?;
        push_clause(clause, &mut clauses)?;
        if end == rest.len() {
            return Ok(clauses);
        }
        rest = behind(rest, end);
    }
}

fn push_clause(clause: Clause, clauses: &mut Vec<Clause>) -> Result<(), WhatFault>
    ensures ok { OnOk result (clauses.new.items ≡ clauses.old.items ++ clause ∷ []) }
    ensures err { IfErr result (λ fault. fault ≡ WhatFault.OutOfMemory) }
{
    match clauses.push(clause) {
        Ok(()) => Ok(()),
        Err(_) => Err(WhatFault::OutOfMemory),
    }
}

/// The alternatives that words say, with `or` between two.
fn alternatives_of(alloc: Global, words: &[&[u8]]) -> Result<Vec<Clauses>, WhatFault>
    ensures { Says (λ what. what.items) result (alternatives_of (map (λ w. w.now) words.now)) }
{
    let mut what = Vec::new(alloc);
    let mut rest = words;
    'alternatives: loop {
        let end = place_of(rest, b"or");
        let clauses = clauses_of(alloc, front(rest, end))?;
        push_clauses(clauses, &mut what)?;
        if end == rest.len() {
            return Ok(what);
        }
        rest = behind(rest, end);
    }
}

fn push_clauses(clauses: Vec<Clause>, what: &mut Vec<Clauses>) -> Result<(), WhatFault>
    ensures ok { OnOk result (what.new.items ≡ what.old.items ++ clauses.items ∷ []) }
    ensures err { IfErr result (λ fault. fault ≡ WhatFault.OutOfMemory) }
{
    match what.push(Clauses::new(clauses)) {
        Ok(()) => Ok(()),
        Err(_) => Err(WhatFault::OutOfMemory),
    }
}

fn has_feed(text: &[u8]) -> bool
    ensures { result ≡ list_any is_line_feed text.now }
{
    text.iter().any(|byte| *byte == b'\n')
}

/// What a line says.
fn what_in(alloc: Global, line: &[u8]) -> Result<Vec<Clauses>, WhatFault>
    ensures { Says (λ what. what.items) result (said_of (words_of line.now)) }
{
    let mut words = Vec::new(alloc);
    match cut_words(line, &mut words) {
        Ok(()) => alternatives_of(alloc, words.as_slice()),
        Err(kind) if is_memory(kind) => Err(WhatFault::OutOfMemory),
        Err(_) => Err(WhatFault::BadWords),
    }
}

/// What a text of one line says of a run: conditions with `and` or `or` between two, of which `and` binds more tightly, and `not`
/// before any of them.
pub fn read_what(alloc: Global, text: &[u8]) -> Result<Vec<Clauses>, WhatFault>
    ensures { Says (λ what. what.items) result (what_of text.now) }
{
    if has_feed(text) {
        return Err(WhatFault::BadWords);
    }
    what_in(alloc, text)
}
