//! The shared state of all calls, its begins and its steps, and the linearization theorem.
//!
//! `Core::run` carries the theorem, for any list of begins and steps on any seats. The timeline is lawful (`lawful`), and if no call is
//! pending, the nodes spell the tree that its commits play (`spelled`). `Core::told` proves the same of a core that was driven by `begin`
//! and `step`. `Core::call` runs one call to its return, and if no other is pending, that is what the sequential tree does.
//! `told_of_helping`, `told_of_progress` and `told_of_numbers` prove what else holds of every core.
//!
//! A begin allocates all that its call can need, and a refused one changes nothing. A step does one move of the call on a seat, and cannot
//! fail. `Core::checkpoint` hands the entries out, and the timeline begins again at the tree that they lead to. It changes nothing if a
//! call is pending or memory runs out. `Core::forget` does the same and drops the entries. `Core::forget_counted` also counts a refusal of
//! memory. `Core::verdict` judges the entries as they are.
//!
//! Enter at `Core::new`, which uses `V2`, or at `Core::with_limits` for the limits of another version. `Core::from_rows` begins at a tree,
//! and so does `Core::from_tree` if that is the tree of a quiescent core, which `Core::prepare` proves. Then come `seat`, `begin`, `step`
//! and `timeline`; or `call` for `begin` and `step`.
//!
//! `fs_machine/specs/States.antt` defines what a begin and a step do. In `specs/` here, `CoreValues` says which of those states a core is
//! in. `Events` says what a list of events does, `Calls` what a call does, and `Checkpoints` why there is no checkpoint. `specs/code/`
//! ties the code to them, and changes no meaning.
#![tactic(auto)]

mod beginning;
pub mod calling;
pub mod checkpoint;
mod commits;
mod done;
pub mod engine;
mod events;
mod filling;
mod forget;
pub mod from_rows;
pub mod outcome;
mod start_tree;
mod telling;
mod verdict;

pub use calling::{Answer, NotDone};
pub use checkpoint::NoCheckpoint;
pub use engine::Core;
pub use from_rows::NoStart;
pub use fs_machine::{Refusal, Stepped};
pub use outcome::{Event, Ran};
