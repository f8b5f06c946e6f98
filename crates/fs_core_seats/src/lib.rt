//! Which calls are pending on the seats, and whom a call helps.
//!
//! A seat has a pending call, `Running`, or none. The functions of `seat` change what is on a seat as its call begins, takes a node, lets
//! one go, gets its place in the timeline, finishes and leaves. `SeatOrder` has each seat once, those with a pending call first, so whoever
//! looks for a call passes no seat of an ended session.
//!
//! Before a call moves a node, it helps the walking calls below that node. `to_help_before` finds the first of them: the one with the
//! least number among those that have none below them. It looks at one way up from each walking call, and takes no memory.
//!
//! Enter at `to_help_before` and `SeatOrder`. `fs_core` is the caller, and proves that who is found is whom the machine's definitions
//! choose (`IsChosen`, `fs_machine/specs/States.antt`). `specs/Seats.antt` says which call is on a seat, and what its number and its record
//! are. `specs/code/` ties the code to them, and changes no meaning.
#![tactic(auto)]

pub mod helping;
pub mod seat;
pub mod seat_order;

pub use helping::{Way, to_help_before};
pub use seat::Running;
pub use seat_order::SeatOrder;
