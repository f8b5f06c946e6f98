//! Ends, each once, and how often it came.

ghost use Rattle.std.specs.Prelude.{◌≡◌, ◌+◌, ◌<◌, ◌^◌, [], IfOk, OnOk, IsPermutation};
ghost use Rattle.std.specs.List.{sum_by};
ghost use Rattle.fs_sched_outcomes.specs.Sums.{times_of, AreInOrder};
ghost use Rattle.fs_sched_outcomes.specs.code.Adding.{merged, with_row, AreKept};

use crate::ends::End;
use indexmap::IndexSet;
use std::alloc::{AllocError, Global};
use std::cmp::Reverse;

/// An end, how many runs had it, and the least number from which such a run was drawn.
#[derive(Drop)]
pub struct Row {
    pub times: u64,
    pub seed: u64,
    pub end: End,
}

/// Rows of which no two have one end. The texts of the ends are kept beside, to be found.
#[derive(Drop)]
pub(crate) struct Rows {
    texts: IndexSet<Vec<u8>>,
    rows: Vec<Row>,
}

/// A row with one more of the same end.
fn merge(row: &mut Row, more: Row)
    requires { row.old.times + more.times < 2 ^ 64 }
    ensures { row.new ≡ merged row.old more }
{
    row.times += more.times;
    if more.seed < row.seed {
        row.seed = more.seed;
        row.end = more.end;
    }
}

impl Rows {
    /// No rows.
    pub(crate) fn new(alloc: Global) -> Rows
        ensures kept { AreKept result }
        ensures rows { result.rows.items ≡ [] }
    {
        Rows {
            texts: IndexSet::new(alloc),
            rows: Vec::new(alloc),
        }
    }

    /// Adds a row: to that of the same end, where there is one.
    pub(crate) fn add(&mut self, alloc: Global, row: Row) -> Result<(), AllocError>
        requires kept { AreKept self.old }
        requires few { sum_by times_of self.old.rows.items + row.times < 2 ^ 64 }
        ensures kept { OnOk result (AreKept self.new) }
        ensures rows { OnOk result (self.new.rows.items ≡ with_row self.old.rows.items row) }
    {
        let text = row.end.text(alloc)?;
        let Ok((at, new)) = self.texts.insert_full(text) else {
            return Err(AllocError);
        };
        if new {
            self.rows.push(row)?;
        } else {
            merge(&mut self.rows[at], row);
        }
        Ok(())
    }

    /// The rows, the most frequent end first, and of two that are as frequent that of the least number.
    pub(crate) fn in_order(self) -> Result<Vec<Row>, AllocError>
        ensures same { IfOk result (λ rows. IsPermutation self.rows.items rows.items) }
        ensures order { IfOk result (λ rows. AreInOrder rows.items) }
    {
        let mut rows = self.rows;
        rows.sort_by_key(|row| (Reverse(row.times), row.seed))?;
        Ok(rows)
    }
}
