//! What can be wrong with a history.

/// What is wrong with an entry of a history. Where two kinds hold of one entry, the first in this order is named.
#[derive(Clone, Copy, Debug, PartialEq, Eq)]
pub enum HistoryFault {
    /// A call of this number began before.
    BeginTwice = 1,
    /// The last call of the seat has not returned.
    SeatBusy = 2,
    /// No call of this number has begun.
    ReturnUnbegun = 3,
    /// The call has returned before.
    ReturnTwice = 4,
}
