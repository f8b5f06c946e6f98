//! What a run's commits made: a tree after some of them, and who last changed what is at a path.
//!
//! `ReplayInput` is a command. It takes a journal, or a script that it runs, and makes the tree after the first commits, or the tree
//! before the commit of a call. Or it makes the line of the commit that last changed what is at a path. Each commit is played once, on
//! one sequential tree. If a journal is not lawful, the question is about the entries before its first fault. If a run is in pieces, it
//! is about the last one.
//!
//! Enter at `read_question`, which reads the words of a command line, and then at `ReplayInput`; with a text in memory at `replay_bytes`.
//! The definitions are in `specs/`: `Makes` (what the command makes), `Commits` and `Changes` (what commits make and change), `Questions`,
//! `Replays` (what is answered), `Texts`, and `Faults` with the statuses. `specs/code/` ties the code to them, and changes no meaning.
#![tactic(auto)]

mod answering;
mod asking;
mod changes;
mod commits;
mod fault;
mod running;
mod told;
mod turns;
mod writing;

pub use asking::{Asked, Question, read_question};
pub use fault::ReplayFault;
pub use running::{ReplayInput, Replayed, replay_bytes};
