//! Why bytes are no path.

use thiserror::Error;

/// The first check that bytes fail as a path, or out of memory. The fault of a script prints these words.
#[derive(Clone, Copy, Debug, PartialEq, Eq, Error)]
pub enum PathFault {
    /// The first byte is not a slash, or there is none.
    #[error("NotAbsolute")]
    NotAbsolute,
    /// There is a byte zero.
    #[error("Nul")]
    Nul,
    /// A name has more bytes than the limits allow by which it is read.
    #[error("NameTooLong")]
    NameTooLong,
    /// There are more names than the limit, 64 or 2,048.
    #[error("TooManyNames")]
    TooManyNames,
    /// A name is `.` or `..`.
    #[error("Dot")]
    Dot,
    /// There is a name, and the last byte is a slash.
    #[error("TrailingSlash")]
    TrailingSlash,
    /// An allocation failed. This says nothing about the bytes.
    #[error("OutOfMemory")]
    OutOfMemory,
}
