//! Which call holds which node.
//!
//! `Holders` is a finite map from nodes to calls, so at most one call holds a node. `Holders::take` succeeds exactly if nobody holds the
//! node, and else names the call that does; it never waits. A holder is one word, so the call with the greatest number holds nothing
//! (`CALL_LIMIT`). Only `Holders::make_room` allocates. `Held` is what one call holds: at most four nodes, in the order in which it took
//! them. A call whose reply is fixed unlocks them with `Held::pop`.
//!
//! Enter at `Holders`. The definitions are in `specs/`: `Holding` for the map, `Held` for the list.
#![tactic(auto)]

pub mod held;
pub mod holders;
mod word;

pub use held::{HELD_LIMIT, Held};
pub use holders::{HeldBy, Holders};
pub use word::CALL_LIMIT;
