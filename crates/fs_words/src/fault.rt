//! Why a text is no script, or no journal.

use fs_names::PathFault;
use thiserror::Error;

/// What is wrong with a line of a text.
#[derive(Clone, Copy, Debug, PartialEq, Eq, Error)]
pub enum FaultKind {
    /// The first line is another than it has to be.
    #[error("BadHeader")]
    BadHeader,
    /// The line has a form that no line has at its place.
    #[error("BadLine")]
    BadLine,
    /// The name of a thread is none.
    #[error("BadThread")]
    BadThread,
    /// The thread has a block already.
    #[error("ThreadTwice")]
    ThreadTwice,
    /// A word is no path: the first check that it fails.
    #[error("BadPath {0}")]
    BadPath(PathFault),
    /// A word is no number below 2^64 without a leading zero.
    #[error("BadNumber")]
    BadNumber,
    /// A word is neither `-` nor pairs of hexadecimal digits.
    #[error("BadHex")]
    BadHex,
    /// The script ends without a line `schedule`.
    #[error("NoSchedule")]
    NoSchedule,
    /// A word of the schedule is none.
    #[error("BadWord")]
    BadWord,
    /// A limit is passed.
    #[error("TooLarge")]
    TooLarge,
    /// An allocation failed. It says nothing of the text.
    #[error("OutOfMemory")]
    OutOfMemory,
    /// What a call returned has another form than a reply, or holds a name that is none.
    #[error("BadReply")]
    BadReply,
    /// The line is in the place of a journal's start tree, and is none of its lines.
    #[error("BadStart")]
    BadStart,
}

/// The first fault of a text, with its line, counted from 1. Out of memory has the line that was read when the allocation failed.
#[derive(Clone, Copy, Debug, PartialEq, Eq, Error)]
#[error("line {line}: {kind}")]
pub struct ScriptFault {
    /// The line, counted from 1; where the text ends too early, the number of its lines and one more.
    pub line: u64,
    /// What is wrong with it.
    pub kind: FaultKind,
}
