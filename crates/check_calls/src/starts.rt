//! Cores that begin at rows: a tree whose copy lists its rows again, rows that no text can spell, and rows for fewer
//! nodes than they are.

ghost use Rattle.std.specs.Prelude.{◌≤◌};
ghost use Rattle.fs_names.specs.Limits.{node_limit};

use crate::cores::tell;
use anyhow::{Result, bail, ensure};
use fs_core::{Core, NoStart};
use fs_names::{Kind, Limits, Name, Path};
use fs_seq::{NotTree, Row, SeqTree};
use std::alloc::Global;

/// A row as it is written: its path, its kind and its bytes.
type Line = (&'static [u8], Kind, &'static [u8]);

const ROOT: Line = (b"/", Kind::Dir, b"");

const A: Line = (b"/a", Kind::Dir, b"");

const A_F: Line = (b"/a/f", Kind::File, b"hi");

/// Rows, and the place of the first that no tree has there. Bytes of a directory have no text.
const TABLE: [(&[Line], Option<usize>); 5] = [
    (&[], Some(1)),
    (&[ROOT, A, A_F], None),
    (&[(b"/", Kind::Dir, b"x")], Some(1)),
    (&[ROOT, (b"/a", Kind::Dir, b"x")], Some(2)),
    (&[ROOT, A, A_F, A], Some(4)),
];

/// The names of a path.
fn names_of(path: &Path, key: &mut Vec<Name>) -> Result<()> {
    for i in 0..path.len() {
        key.push(path.name(i).copy()?)?;
    }
    Ok(())
}

/// The row of a path, with bytes.
fn row_of(alloc: Global, (text, kind, bytes): Line) -> Result<Row> {
    let mut row = Row {
        key: Vec::new(alloc),
        kind,
        bytes: Vec::from_slice(alloc, bytes)?,
    };
    let path = Path::parse(alloc, text)?;
    let named = names_of(&path, &mut row.key);
    named.map(|()| row)
}

/// The rows that are written so.
fn rows_of(alloc: Global, lines: &[Line]) -> Result<Vec<Row>> {
    let mut rows = Vec::new(alloc);
    for line in lines {
        rows.push(row_of(alloc, *line)?)?;
    }
    Ok(rows)
}

/// Whether these are the same names, in the same order.
fn same_names(names: &[Name], others: &[Name]) -> bool {
    names.len() == others.len()
        && names
            .iter()
            .zip(others)
            .all(|(name, other)| name.same(other))
}

fn same_row(row: &Row, other: &Row) -> bool {
    same_names(&row.key, &other.key) && row.kind == other.kind && row.bytes == other.bytes
}

/// Whether a tree lists these rows.
fn tells(alloc: Global, tree: &SeqTree, rows: &[Row]) -> Result<bool> {
    let told = tree.rows(alloc)?;
    Ok(
        told.len() == rows.len()
            && told
                .iter()
                .zip(rows)
                .all(|(row, other)| same_row(row, other)),
    )
}

/// Whether a copy of a tree does.
fn copy_tells(alloc: Global, tree: &SeqTree, rows: &[Row]) -> Result<bool> {
    let copy = tree.copy()?;
    tells(alloc, &copy, rows)
}

/// Whether this comes of rows: a tree, a copy of which lists them again, or the place of one that is bad.
fn tree_comes_out(alloc: Global, rows: &[Row], bad: Option<usize>) -> Result<bool> {
    match SeqTree::from_rows(alloc, rows, Limits::V1) {
        Ok(tree) => Ok(bad.is_none() && copy_tells(alloc, &tree, rows)?),
        Err(NotTree::Bad(place)) => Ok(bad == Some(place)),
        Err(_) => Ok(false),
    }
}

/// Whether a core lists rows as those at which it begins, and nothing more.
fn begins_at(alloc: Global, core: &Core, rows: &[Row]) -> Result<bool> {
    tell(core);
    Ok(tells(alloc, core.start(), rows)? && core.timeline().is_empty() && core.seats() == 0)
}

/// Whether this comes of rows: a core that begins at them and has no seats, or the place of one that is bad.
#[tactic(auto, using(fs_names::proofs::LimitLemmas::some_nodes))]
fn core_comes_out(alloc: Global, rows: &[Row], bad: Option<usize>) -> Result<bool> {
    match Core::from_rows(alloc, rows, Limits::V1.nodes(), Limits::V1) {
        Ok(core) => Ok(bad.is_none() && begins_at(alloc, &core, rows)?),
        Err(why) => Ok(bad.is_some_and(|place| why == NoStart::Bad(place))),
    }
}

/// Why no core begins at rows, where it does not.
fn why_not(alloc: Global, rows: &[Row], limit: usize) -> Option<NoStart>
    requires least { 1 ≤ limit }
    requires most { limit ≤ node_limit Limits.V1 }
{
    Core::from_rows(alloc, rows, limit, Limits::V1).err()
}

/// Rows for fewer nodes than they are, without a bad one among them and with.
fn refuse(alloc: Global) -> Result<()> {
    let rows = rows_of(alloc, &[ROOT, A, A_F])?;
    let why = why_not(alloc, &rows, 2);
    ensure!(why == Some(NoStart::TooManyNodes), "a row too many");
    let bad = rows_of(alloc, &[ROOT, A, A_F, A])?;
    let why = why_not(alloc, &bad, 1);
    ensure!(why == Some(NoStart::Bad(4)), "a bad row comes first");
    Ok(())
}

/// What comes of rows: a tree, and a core that begins at it.
fn compare_rows(alloc: Global, rows: &[Row], bad: Option<usize>) -> Result<()> {
    if !tree_comes_out(alloc, rows, bad)? {
        bail!("the rows of a tree, or one that is told at its place");
    }
    ensure!(
        core_comes_out(alloc, rows, bad)?,
        "a core that begins there"
    );
    Ok(())
}

/// All of these.
pub fn compare(alloc: Global) -> Result<()> {
    for (lines, bad) in TABLE {
        compare_rows(alloc, &rows_of(alloc, lines)?, bad)?;
    }
    refuse(alloc)
}
