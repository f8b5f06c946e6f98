//! What a call does to the store when it finishes: its reply and its change, at the nodes where its walk has ended.
//!
//! A finish is decided before it is made. `entry_plan`, `rename_plan` and `exchange_plan` find what it does (`Plan`). They are the rows of
//! the table of errors, read at the nodes where the call has arrived, and look at each entry once. `carry_out` does what the plan says and
//! decides nothing. Calls on a node alone are decided where they are made (`queries`, `write`). An error changes nothing.
//!
//! No finish needs memory. `Room::new` has allocated its buffers when the call began. It has also taken one more owner of the bytes of a
//! long name that it may give to an entry. Each reply is made twice (`Replies`), for the caller and for the journal.
//!
//! Enter at `plan` and at `carrying`. The definitions are in `specs/`. `Plans` has what a finish does, its effect, and what that needs.
//! `Endings` has a finish as the code answers it, and `Rooms` what suffices for it. The effects are those of the machine's finish,
//! `fs_machine/specs/Finishes.antt`.
#![tactic(auto)]

pub mod carrying;
pub mod entries;
pub mod exchange;
pub mod finish;
pub mod paths;
pub mod plan;
pub mod queries;
pub mod rename;
pub mod replies;
pub mod room;
pub mod sights;
pub mod write;

pub use carrying::carry_out;
pub use finish::Finish;
pub use paths::Paths;
pub use plan::{Moving, Plan, Route, Swapping};
pub use replies::Replies;
pub use room::Room;
