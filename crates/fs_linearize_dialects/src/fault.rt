//! Why a text is no table.

use thiserror::Error;

/// What is wrong with a line of a table.
#[derive(Clone, Copy, Debug, PartialEq, Eq, Error)]
pub enum TableFault {
    /// The first line is another than it has to be.
    #[error("the first line of a table is `atomfs-dialect 1`")]
    BadHeader,
    /// The line is no row.
    #[error("a row is CALL OURS THEIRS, as `rename ENOTEMPTY EEXIST`")]
    BadRow,
    /// What this tree replies is among what the other one does.
    #[error("a row is of two different errors")]
    SameError,
    /// A line before it is about the same call and the same error of this tree.
    #[error("an earlier row has this call and what this tree replies")]
    RowTwice,
    /// An allocation failed. It says nothing of the text.
    #[error("out of memory")]
    OutOfMemory,
}

/// The first fault of a table, with its line, counted from 1.
#[derive(Clone, Copy, Debug, PartialEq, Eq, Error)]
#[error("line {line}: {kind}")]
pub struct DialectFault {
    /// The line.
    pub line: usize,
    /// What is wrong with it.
    pub kind: TableFault,
}
