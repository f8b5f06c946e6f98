//! Who sees how far threads are.

use fs_share::{Gate, Open};

/// A gate that first gets the number of calls. Nothing that the runner answers, reads or writes depends on it.
pub trait Watch: Gate {
    /// Threads begin, with so many calls in all.
    fn begins(&self, calls: usize);
}

impl Watch for Open {
    fn begins(&self, _calls: usize) {}
}
