//! What the moments of a run are.

use fs_core::Stepped;
use fs_names::CallNo;
use fs_timeline::Entry;

/// What an event was answered.
#[derive(Drop)]
pub enum Answer {
    /// The thread has nothing to do any more, and nothing changed.
    Spent,
    /// The next call of the thread began, and got this number.
    Begun(CallNo),
    /// The pending call did a step.
    Stepped(Stepped),
}

/// An event of a run: the seat of its thread, and what it was answered.
#[derive(Drop)]
pub struct Told {
    pub seat: usize,
    pub answer: Answer,
}

/// A moment of a run.
#[derive(Drop)]
pub enum Moment {
    /// An event of a thread.
    Event(Told),
    /// A checkpoint: the timeline begins again, which had these entries.
    Checkpoint(Vec<Entry>),
}
