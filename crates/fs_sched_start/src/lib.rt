//! Runs of a script from a tree.
//!
//! `RunFrom` runs a script from a tree with a schedule. The tree is read under the script's limits, from its own text or from a journal
//! that starts at it. What is made is the text of the run, whose journal has that tree. It plays with `fs_sched`, as `run_script` does.
//!
//! `RunSeeds` does so with the schedules that a `Policy` draws and checks each journal, as `run_seeds` does; without a tree it begins at
//! the root alone. `SeedObjects` writes its lines as objects of JSON. `planned_in` reads both texts for other commands.
//!
//! Both are asked through `fs_verdict::perform`, with what `whole_text` reads of a file. The definitions are in `specs/`: `Makes` (what is
//! made, and promised), `Starts` (runs from a tree, and what is said of each of them), `Faults`. The module `laws` says why there is one
//! text, whatever numbers the nodes of the tree get. Two states that begin at one tree are the same, apart from these numbers.
#![tactic(auto)]

mod fault;
mod given;
pub mod laws;
mod objects;
mod planned;
mod running;
mod seeding;

pub use fault::StartFault;
pub use objects::SeedObjects;
pub use planned::{Planned, TreeText, planned_in};
pub use running::{RunFrom, whole_text};
pub use seeding::RunSeeds;
