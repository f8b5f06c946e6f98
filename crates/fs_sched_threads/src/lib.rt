//! Scripts on real threads: each thread block's calls are made by a worker of its own.
//!
//! `run_threads` reads a script, plays its blocks with `fs_share::run_lists_with`, checks the closed timeline and writes the verdict or
//! the journal. Its contract says so in the words of `specs/Lines.antt`. The verdict depends only on what was read: `lawful calls N`, with
//! the number of the script's calls. The contract says that the journal is lawful, and no more of the order in which the calls committed.
#![tactic(auto)]

mod fault;
mod line;
mod running;
mod watch;

pub use fault::ThreadsFault;
pub use running::run_threads;
pub use watch::Watch;
