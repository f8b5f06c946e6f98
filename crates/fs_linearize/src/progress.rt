//! Who learns how far a search is.

/// Learns how far a search is. What is found does not depend on it.
pub trait Progress {
    /// Of so many entries the first ones have passed, for which so many configurations were made.
    fn passed(&mut self, entries: usize, all: usize, configurations: usize);

    /// So many of all lines were read, the first ones, and what is found of the histories in them.
    fn read(&mut self, lines: usize, all: usize);
}

/// Nobody learns it.
#[derive(Clone, Copy, Debug)]
pub struct Untold;

impl Progress for Untold {
    #[inline(always)]
    fn passed(&mut self, _entries: usize, _all: usize, _configurations: usize) {}

    #[inline(always)]
    fn read(&mut self, _lines: usize, _all: usize) {}
}
