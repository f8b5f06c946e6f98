//! How a journal begins: with its version, and with the tree at which it starts where that is more than the root.

ghost use Rattle.std.specs.Prelude.{◌≡◌, ◌++◌, true, OnOk, OnErr, length, map};
ghost use Rattle.std.specs.List.{AllByRecursion, flat_map};
ghost use Rattle.fs_names.specs.Limits.{largest};
ghost use Rattle.fs_seq.specs.Rows.{row_of};
ghost use Rattle.fs_script.specs.TreeText.{node_line};
ghost use Rattle.fs_script.specs.Laws.{FitsNode};
ghost use Rattle.fs_script.specs.Journals.{is_told, opening};

use crate::node_line::push_row;
use fs_names::Limits;
use fs_seq::{Row, SeqTree};
use fs_words::Addition;
use fs_words::addition::put_back;
use fs_words::headers::started_header;
use std::alloc::{AllocError, Global};
use std::mem;

/// A line for each row.
fn push_rows(alloc: Global, rows: &[Row], line: &mut Addition) -> Result<(), AllocError>
    ensures ok { OnOk result (line.new.added ≡ line.old.added ++ flat_map node_line (map row_of rows.now)) }
    ensures fits { OnOk result (AllByRecursion (λ r. FitsNode largest (row_of r)) rows.now) }
    ensures before { line.new.before ≡ line.old.before }
{
    for row in rows {
        push_row(alloc, row, line)?;
        line.push(b"\n")?;
    }
    Ok(())
}

/// Whether a journal has the lines of a start tree of so many nodes.
fn is_told(limits: Limits, nodes: usize) -> bool
    ensures { result ≡ is_told limits nodes }
{
    match limits {
        Limits::V1 => nodes != 1,
        Limits::V2 | Limits::V3 => true,
    }
}

#[tactic(auto, unfolding(crate::specs::Journals::opening))]
fn push_opening(alloc: Global, start: &SeqTree, line: &mut Addition) -> Result<(), AllocError>
    ensures ok { OnOk result (line.new.added ≡ line.old.added ++ opening start.now) }
    ensures told { OnOk result (is_told start.now.limits (length start.now.tree) ≡ true → AllByRecursion (FitsNode largest) start.now.tree) }
    ensures before { line.new.before ≡ line.old.before }
{
    let rows = start.rows(alloc)?;
    if !is_told(start.limits(), rows.len()) {
        return line.push(b"atomfs-journal 1\n");
    }
    line.push(started_header(start.limits()))?;
    line.push(b"\nstart\n")?;
    push_rows(alloc, &rows, line)?;
    line.push(b"entries\n")
}

/// Appends what comes before the entries of a journal that starts at this tree. That is its header, and in some
/// journals a line `start`, the lines of its nodes as in the text of a tree, and a line `entries`. These lines are
/// there if the tree is more than the root alone, or keeps another set of limits than the first. An `Err`, which is out
/// of memory, leaves the text as it was. The names and bytes that it writes are read back if the names keep the limit
/// of the tree.
pub fn write_opening(alloc: Global, start: &SeqTree, text: &mut Vec<u8>) -> Result<(), AllocError>
    ensures ok { OnOk result (text.new.items ≡ text.old.items ++ opening start.now) }
    ensures err { OnErr result (text.new.items ≡ text.old.items) }
    ensures told { OnOk result (is_told start.now.limits (length start.now.tree) ≡ true → AllByRecursion (FitsNode largest) start.now.tree) }
{
    let mut line = Addition::new(mem::replace(text, Vec::new(alloc)));
    let added = push_opening(alloc, start, &mut line);
    put_back(added, line, text)
}
