//! Tables of what another tree replies.

ghost use Rattle.std.specs.Prelude.{◌≡◌, ◌&&◌, ◌==◌, ◌++◌, ◌∷◌, [], length, IfOk, OnOk};
ghost use Rattle.std.specs.List.{list_any};
ghost use Rattle.fs_calls.specs.Replies.{number_of};
ghost use Rattle.fs_linearize_dialects.specs.Names.{same_name};
ghost use Rattle.fs_linearize_dialects.specs.Dialects.{is_for};
ghost use Rattle.fs_linearize_dialects.specs.Tables.{is_about};

use crate::call_name::CallName;
use fs_calls::Errno;
use std::alloc::{AllocError, Global};
use std::marker::Model;

/// Where this tree replies one error to a call, the other tree replies another.
#[derive(Clone, Copy, Debug, PartialEq, Eq)]
pub struct Row {
    /// The call.
    pub call: CallName,
    /// What this tree replies.
    pub ours: Errno,
    /// What the other one does.
    pub theirs: Errno,
}

/// A table, seen as its rows.
#[derive(Drop)]
pub struct Dialect {
    rows: Vec<Row>,
}

impl Model for Dialect {
    ghost use Rattle.std.specs.Prelude.{List};
    ghost use Rattle.fs_linearize_dialects.specs.declared.dialect.Row.{Row};

    ghost Value = { List Row };

    ghost view = { λ d. d.rows.items };
}

impl Row {
    /// Whether it is for this call and what the other tree replied.
    pub fn is_for(self, name: CallName, theirs: Errno) -> bool
        ensures { result ≡ is_for name theirs self }
    {
        self.call.same(name) && self.theirs.number() == theirs.number()
    }

    /// Whether it is about this call and what this tree replies.
    pub(crate) fn is_about(self, name: CallName, ours: Errno) -> bool
        ensures { result ≡ is_about name ours self }
    {
        self.call.same(name) && self.ours.number() == ours.number()
    }
}

impl Dialect {
    /// A table without rows: that of this tree.
    pub fn new(alloc: Global) -> Dialect
        ensures { result ≡ [] }
    {
        Dialect {
            rows: Vec::new(alloc),
        }
    }

    /// One row more.
    pub fn push(&mut self, row: Row) -> Result<(), AllocError>
        ensures { OnOk result (self.new ≡ self.old ++ row ∷ []) }
    {
        self.rows.push(row)?;
        Ok(())
    }

    /// The rows, in order.
    pub fn rows(&self) -> &[Row]
        ensures { result.now ≡ self.now }
    {
        self.rows.as_slice()
    }

    /// Whether it has no rows.
    pub fn is_empty(&self) -> bool
        ensures { result ≡ (length self.now == 0) }
    {
        self.rows.is_empty()
    }

    /// Whether a row is about this call and what this tree replies.
    pub fn is_about(&self, name: CallName, ours: Errno) -> bool
        ensures { result ≡ list_any (is_about name ours) self.now }
    {
        self.rows.iter().any(|row| row.is_about(name, ours))
    }
}
