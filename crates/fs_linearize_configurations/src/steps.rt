//! The way to a configuration, in steps, and the commits that the ways share.

/// A step on the way to a configuration: one entry more of the timeline that leads to it.
#[derive(Clone, Copy, Debug, PartialEq, Eq)]
pub enum Step {
    /// The next entry of the history passes.
    Passes,
    /// The call of this number commits.
    Commits(u64),
}

/// A commit on the way to a configuration. All of them are in one list, which each way only goes back through.
#[derive(Clone, Copy, Debug, PartialEq, Eq)]
pub struct Link {
    /// The call.
    pub number: u64,
    /// How many entries of the history had passed.
    pub at: usize,
    /// The place in the list of the commit before it, counted from 1, or 0 if it is the first.
    pub before: usize,
}
