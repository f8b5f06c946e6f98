//! The search of the runs of a script for one that has what is asked for.
//!
//! `FindSeed` plays the runs of a script that a `Policy` draws, from a number on, up to the first that has what `Clause`s say. They begin
//! at the root alone, or at a tree. A clause asks for a reply, a line of the tree at the end, a helped call, or the order of two commits.
//! What is made is the script with that run as its words, or by `FindObject` an object of JSON that has it. `read_what` reads the clauses from words.
//!
//! It is asked through `fs_verdict::perform`. The definitions are in `specs/`: `Lives` (what a run shows of its calls), `What` (when a run
//! has something), `Finds` and `Faults`, `Makes` (what is made, and promised). `Reading` has the words, and `docs/COMMANDS.md` has these
//! for readers. `specs/code/` ties the code to them, and changes no meaning.
#![tactic(auto)]

mod copying;
mod fault;
mod finding;
mod having;
mod lives;
mod object;
mod reading;
pub mod what;

pub use copying::copy_of_reply;
pub use fault::FindFault;
pub use finding::{FindSeed, SEARCH_LIMIT, first_seed, run_has_at};
pub use object::FindObject;
pub use reading::{WhatFault, read_what};
pub use what::{CallName, Clause, Clauses, Condition, names_calls};
