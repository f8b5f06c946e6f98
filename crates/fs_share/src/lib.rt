//! A tree that threads share: one lock around the core, taken for one event at a time.
//!
//! A session has a seat of its own, and a call of it is one begin and steps, each under the lock. The core's type keeps it in a state of a
//! run, so whoever gets the lock finds one. Contracts see the tree at which the timeline starts. `AtomFs::close` hands out a timeline that
//! is lawful from there, with as many returns as the tallies of all sessions add up to. If every call has returned, it also hands out a
//! store that spells the tree that its commits play. `checkpoint` hands out the entries so far, and the tree goes on from where they lead.
//! `Session::call_told` also publishes what has committed, and answers a stamp. Observers of the tree show that state once they learn the
//! stamp, and wait for nobody. A session that waits for a node sleeps, as `fs_share_wait` says.
//!
//! Enter at `with_tree`, which opens a tree, does what an `Inside` says on it, and ends it. Or enter at `run_lists`, which plays each list
//! with a worker, or at `AtomFs::open`, whose caller names the tree. `specs/Returns.antt` defines what is counted, `specs/Played.antt`
//! when lists were played, and `specs/Boards.antt` what a published call learns. No progress, fairness or end is claimed of running
//! threads.
#![tactic(auto)]

mod board;
mod checkpoint;
mod desk;
mod gate;
mod inside;
mod lists;
mod played;
mod session;
mod told;
mod tree;

pub use board::{Board, advance};
pub use checkpoint::NotKept;
pub use fs_calls::{Call, Reply};
pub use fs_core::{NoCheckpoint, Refusal, Stepped};
pub use fs_names::Limits;
pub use fs_share_observe::{Named, NoPlace, Observer, Opened, Stamp};
pub use gate::{Gate, Open};
pub use inside::{Inside, with_tree};
pub use lists::{ListsFault, run_lists, run_lists_with};
pub use session::{Answer, Session, Tally, Told};
pub use tree::{AtomFs, Closed};
