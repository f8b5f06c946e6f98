//! A script that is shrunk to what a run needs to have what is asked for.
//!
//! `ShrinkScript` plays a script with its own words, from the root alone or from a tree. If that run has what `Clause`s of
//! `fs_sched_find` say, it makes the script without the calls and words that it does not need. None of the words that are left can go,
//! and no call but those that are named (`IsSmallestOn`), unless `TRIAL_LIMIT` runs were played before. Each try is a text that is read
//! and played by the reader and the player of all scripts.
//!
//! It is asked through `fs_verdict::perform`. The definitions are in `specs/`. `Makes` has what is made, and promised. `Kept` is a script
//! with some of its calls and words, and `Moves` has the calls that are named, with their new places. `Shrinks` says what is left, and
//! `Telling` how what is said of it is written. `specs/code/` ties the code to them, and changes no meaning.
#![tactic(auto)]

mod cutting;
mod fault;
pub mod limits;
mod moving;
mod room;
mod shrinking;
mod telling;
mod thinning;
mod trying;

pub use fault::ShrinkFault;
pub use limits::TRIAL_LIMIT;
pub use shrinking::{ShrinkScript, Shrunk};
