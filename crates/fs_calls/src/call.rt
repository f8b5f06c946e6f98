//! The calls on a tree.

use fs_names::{Data, Path};

/// A call on a tree, by path.
#[derive(Drop)]
pub enum Call {
    /// Makes an empty directory (POSIX.1-2017, XSH 3, mkdir()).
    Mkdir(Path),
    /// Makes an empty regular file (POSIX.1-2017, XSH 3, mknod()).
    Mknod(Path),
    /// Removes the entry of a file (POSIX.1-2017, XSH 3, unlink()).
    Unlink(Path),
    /// Removes the entry of an empty directory (POSIX.1-2017, XSH 3, rmdir()).
    Rmdir(Path),
    /// Moves a node with all below it from the first path to the second, whose old node is removed
    /// (POSIX.1-2017, XSH 3, rename()).
    Rename(Path, Path),
    /// Lets the entries of two paths change places, each with all below its node (this project's own).
    Exchange(Path, Path),
    /// Asks for the kind of a node and its size: bytes of a file, entries of a directory (POSIX.1-2017, XSH 3, stat()).
    Stat(Path),
    /// Asks for all names of a directory, which are at most 256.
    Readdir(Path),
    /// Asks for no more than a count, or 256, of the names of the directory at the first path that are above the last name of
    /// the second, the least first: from the first name on where that path is the root (this project's own).
    ListAfter(u32, Path, Path),
    /// Asks for the bytes of a file from an offset on, and for no more than a count.
    Read(Path, u64, u64),
    /// Writes bytes into a file at an offset; a gap reads as zeros.
    Write(Path, u64, Data),
    /// Cuts a file to a size, or adds zeros up to it (POSIX.1-2017, XSH 3, truncate()).
    Truncate(Path, u64),
}
