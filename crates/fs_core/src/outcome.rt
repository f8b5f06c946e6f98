//! Events, and what a list of them comes to.

use fs_calls::Call;
use fs_machine::Refusal;
use fs_names::SeatNo;

/// What may happen to a core.
#[derive(Drop)]
pub enum Event {
    /// A call begins on a seat.
    Begin(SeatNo, Call),
    /// The call on a seat does its next step.
    Step(SeatNo),
}

/// How far a list of events was done.
#[derive(Clone, Copy, Debug, PartialEq, Eq)]
pub struct Ran {
    /// How many events were done: all, or those before the first begin that was refused.
    pub done: usize,
    /// Why that begin was refused.
    pub refusal: Option<Refusal>,
}
