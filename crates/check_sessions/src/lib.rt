//! What the checks of threads and of pools share. Sessions play calls on a shared tree until it is ended, and a gate holds one of them.
//! Then its timeline and its nodes are looked at.
//!
//! `playing` has sessions with their answers and tallies, and `calls` compares lists and answers with a timeline. `walking` compares the
//! nodes that are left with those of a sequential tree that plays the commits. A flag is waited for up to a bound, so a run in which
//! something does not come ends as one that went wrong. `say` says which one it was.
#![tactic(auto)]

pub mod calls;
pub mod playing;
mod waiting;
mod walking;

use std::io;
pub use waiting::{FirstWaits, TURNS, is_set, is_set_within};
pub use walking::is_played;

/// Says of a run whether it came out as it must.
pub fn say(rt: &impl Print, what: &str, holds: Option<bool>) -> io::Result<()> {
    let word = match holds {
        Some(true) => "yes",
        Some(false) => "no",
        None => "not run",
    };
    println!(rt; "{what}: {word}")
}
