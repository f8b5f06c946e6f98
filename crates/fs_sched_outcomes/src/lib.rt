//! What can happen: the ends of drawn runs, each once, and how often it came; and what is asserted of all of them.
//!
//! `CountOutcomes` runs a script from the root alone or from a tree. A policy draws the schedules from a number, the next one, and so on.
//! It makes a line for each different end, the most frequent first. An end is the reply of each call and the whole tree. `AddOutcomes`
//! adds up lines that were made of pieces of a range. Both are asked through `fs_verdict::perform`.
//!
//! It also decides each `Assertion` by these runs, and answers for each the first run that decides it: one that breaks `never` or
//! `always`, or one that `sometimes` asks for. `read_assertion` reads an assertion from words.
//!
//! How much was seen comes with it, as `Seen`; `push_seen` writes that in words.
//!
//! The definitions are in `specs/`. `Makes` has what is made, and promised. `Ends` says what the end of a run is, and `Sums` and `Added`
//! how rows add up others. `Outcomes` has the rows of drawn runs, and `Lines` how rows are written. `Asserts` says what an assertion says of
//! runs; the module `laws` has what these definitions say together. `specs/code/` ties the code to them, and changes no meaning.
#![tactic(auto)]

mod adding;
mod asserting;
mod assertion;
mod ends;
mod fault;
pub mod laws;
mod lines;
mod objects;
mod rows;
mod running;

pub use adding::AddOutcomes;
pub use asserting::{CountOutcomes, Counted};
pub use assertion::{Assertion, Quantifier, all_hold, read_assertion};
pub use ends::End;
pub use fault::OutcomesFault;
pub use fs_sched_seen::{Pairs, Place, Seen, push_seen};
pub use lines::Form;
pub use rows::Row;
pub use running::{LATELY, OUTCOME_LIMIT};
