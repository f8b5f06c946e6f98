//! The moments of a script's run, and who gets them.
//!
//! A runner goes through a script event by event, and reports each moment to a `Witness` when it comes. A moment is an event of a thread
//! with its answer, or a checkpoint with the entries that the timeline had. Witnesses make a trace, a picture and a written schedule;
//! `Silent` gets no moments, and costs nothing. The runner's crate defines what the moments of a run are.
//!
//! Enter at `Witness` and `Moment`. The definitions are in `specs/Moments.antt`.
#![tactic(auto)]

mod moments;
mod witness;

pub use moments::{Answer, Moment, Told};
pub use witness::{Silent, Witness};
