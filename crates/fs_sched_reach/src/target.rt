//! The call to which a thread is to come.

/// The call to which a thread is to come, and how far into it.
#[derive(Clone, Copy, Debug, PartialEq, Eq)]
pub struct Target {
    /// The seat of the thread.
    pub seat: usize,
    /// Which of its calls, counted from 1.
    pub call: u64,
    /// To the call's commit, or else to its begin.
    pub to_commit: bool,
}
