//! What is asked of an input's trees.

ghost use Rattle.std.specs.Prelude.{◌≡◌, None, Some, IfOk, IfErr, MatchOption, position};
ghost use Rattle.fs_trace_replay.specs.Questions.{IsBefore, IsCallFault, IsPathFault, IsQuestionOf, IsWho, IsWordFault, is_mark, named_by};

use crate::fault::ReplayFault;
use fs_names::{Limits, Path};
use fs_sched::RunFault;
use fs_words::FaultKind;
use fs_words::words::{number_of, parts, path_at};
use std::alloc::Global;

/// What is asked, in the words of a command line.
#[derive(Clone, Copy, Debug, PartialEq, Eq)]
pub enum Asked<'a> {
    /// The tree after all commits.
    Whole,
    /// The tree after so many commits.
    At(u64),
    /// The tree before the commit of a call: `THREAD#NUMBER`.
    Before(&'a str),
    /// Who last changed what is at a path.
    Who(&'a str),
}

/// What is asked of an input's trees.
#[derive(Drop)]
pub enum Question {
    /// The tree after all commits.
    Whole,
    /// The tree after so many commits.
    At(u64),
    /// The tree before the commit of a call: its thread, and its place among the calls of that, counted from 1.
    Before(Vec<u8>, u64),
    /// Who last changed what is at a path.
    Who(Path),
}

/// Whether a byte is the mark between a thread and the place of its call.
fn mark_in(word: &[u8]) -> Option<usize>
    ensures { result ≡ position is_mark word.now }
{
    word.iter().position(|b| *b == b'#')
}

/// The thread, and the place of its call, that a word names.
fn named_by(word: &[u8]) -> Option<(&[u8], u64)>
    ensures { MatchOption result (named_by word.now ≡ None) (λ found. named_by word.now ≡ Some (found.0.now, found.1)) }
{
    let Some(at) = mark_in(word) else {
        return None;
    };
    let (thread, place) = parts(word, at);
    match number_of(place) {
        Some(0) | None => None,
        Some(turn) => Some((thread, turn)),
    }
}

/// The same bytes again.
fn copied(alloc: Global, bytes: &[u8]) -> Result<Vec<u8>, ReplayFault>
    ensures copy { IfOk result (λ copy. copy.items ≡ bytes.now) }
    ensures fault { IfErr result (λ f. f ≡ ReplayFault.Run RunFault.OutOfMemory) }
{
    let mut copy = Vec::new(alloc);
    match copy.extend_from_slice(bytes) {
        Ok(()) => Ok(copy),
        Err(_) => Err(ReplayFault::Run(RunFault::OutOfMemory)),
    }
}

/// What is asked of a call, by its word.
fn before(alloc: Global, word: &[u8]) -> Result<Question, ReplayFault>
    ensures asked { IfOk result (IsBefore word.now) }
    ensures fault { IfErr result (IsCallFault word.now) }
{
    let Some((thread, turn)) = named_by(word) else {
        return Err(ReplayFault::BadCall);
    };
    match copied(alloc, thread) {
        Ok(thread) => Ok(Question::Before(thread, turn)),
        Err(fault) => Err(fault),
    }
}

/// What is asked of a path, by its word.
fn who(alloc: Global, word: &[u8]) -> Result<Question, ReplayFault>
    ensures asked { IfOk result (IsWho word.now) }
    ensures fault { IfErr result (IsPathFault word.now) }
{
    match path_at(alloc, Limits::LARGEST, word) {
        Ok(path) => Ok(Question::Who(path)),
        Err(FaultKind::OutOfMemory) => Err(ReplayFault::Run(RunFault::OutOfMemory)),
        Err(kind) => Err(ReplayFault::BadPath(kind)),
    }
}

/// What is asked, by the words of a command line. `BadCall` and `BadPath` mean that a word is no CALL or no PATH.
pub fn read_question(alloc: Global, asked: Asked<'_>) -> Result<Question, ReplayFault>
    ensures asked { IfOk result (IsQuestionOf asked.entry) }
    ensures fault { IfErr result (IsWordFault asked.entry) }
{
    match asked {
        Asked::Whole => Ok(Question::Whole),
        Asked::At(commits) => Ok(Question::At(commits)),
        Asked::Before(word) => before(alloc, word.as_bytes()),
        Asked::Who(word) => who(alloc, word.as_bytes()),
    }
}
