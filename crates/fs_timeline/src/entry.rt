//! The entries of a journal.

use fs_calls::{Call, Reply};
use fs_names::{CallNo, SeatNo};

/// What happened in one moment: a call began on a seat, took its place among the calls, or returned its reply.
#[derive(Drop)]
pub enum Entry {
    /// The call of this number began on this seat.
    Begin(CallNo, SeatNo, Call),
    /// The call took its place: it replies as if it had happened whole in this moment.
    Commit(CallNo),
    /// The call returned this reply.
    Return(CallNo, Reply),
}
