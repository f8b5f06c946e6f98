//! What the checker says of a journal.

/// Whether a journal is lawful.
#[derive(Clone, Copy, Debug, PartialEq, Eq)]
pub enum Verdict {
    /// Each entry fits those before it.
    Lawful,
    /// The place of the first entry that does not, counted from 1, and what is wrong with it.
    Fault(usize, FaultKind),
}

/// What is wrong with an entry. Where several kinds hold of one entry, the first in this order is named.
#[derive(Clone, Copy, Debug, PartialEq, Eq)]
pub enum FaultKind {
    /// A call of this number began before.
    BeginTwice = 1,
    /// The last call of the seat has not returned.
    SeatBusy = 2,
    /// No call of this number has begun.
    CommitUnbegun = 3,
    /// The call has committed before.
    CommitTwice = 4,
    /// The call has not committed.
    ReturnUncommitted = 5,
    /// The call has returned before.
    ReturnTwice = 6,
    /// The reply is another than the sequential tree gives at the call's commit.
    WrongReply = 7,
}
