//! The machine as a definition, in one place. The only code is the words of its moves and answers.
//!
//! Two sides use these words. The laws over all runs (`fs_laws`) are proved about them, and the code (`fs_ops_effects`, `fs_ops`,
//! `fs_core`) is proved to do what they say. So a change of code checks no law again.
//!
//! Read first `src/moves.rt` and `src/answers.rt` (`Move`, `Refusal`, `Stepped`), and then the files in `specs/`, in this order. `Records`
//! has where a call is, and its phase. `Moves` has its next move, and its record after a take. `Finishes` has its reply and its change, by
//! the rows of `fs_calls` read at the nodes that it holds. `Leaving` has how it unlocks its nodes, and the end. `States` has the states of
//! all calls, what a begin and a step may do to them, and runs. `Headline` says what the linearization theorem says of a state.
//!
//! `OpValues` is the part of a record that the code of one call keeps. `Laws`, with the module `laws`, is what holds of each step in every
//! state.
#![tactic(auto)]

pub mod answers;
pub mod laws;
pub mod moves;

pub use answers::{Refusal, Stepped};
pub use moves::{Move, Moved};
