//! What a node is.

/// A directory or a regular file (POSIX.1-2017, XBD 3, Directory and Regular File). The kind of a node never changes.
#[derive(Clone, Copy, Debug, PartialEq, Eq)]
pub enum Kind {
    /// It has entries.
    Dir,
    /// It has bytes.
    File,
}
