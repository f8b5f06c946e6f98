//! What a begin and a step answer.

use fs_calls::{NodeNo, Reply};
use fs_names::CallNo;

/// Why a call could not begin. Nothing has changed by it.
#[derive(Clone, Copy, Debug, PartialEq, Eq)]
pub enum Refusal {
    /// An allocation failed.
    OutOfMemory,
    /// The call reserves a number, and all are in use.
    Full,
    /// The seat has a pending call.
    SeatBusy,
}

/// What a step did.
#[derive(Drop)]
pub enum Stepped {
    /// No call is pending on the seat.
    Idle,
    /// The call took this node.
    Took(NodeNo),
    /// The call would take this node, which this other call holds. Nothing has changed.
    Busy(NodeNo, CallNo),
    /// The call let this node go.
    LetGo(NodeNo),
    /// The call, a rename or an exchange, gave this other call its place in the timeline before its own.
    Helped(CallNo),
    /// The call took its place in the timeline, made its change and fixed its reply.
    Committed,
    /// The call, whose place another one gave it, made its change and fixed its reply.
    CarriedOut,
    /// The call returned this reply, and is not pending any more.
    Returned(Reply),
}
