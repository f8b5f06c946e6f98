//! The entries after a call without an error.

ghost use Rattle.std.specs.Prelude.{◌≡◌, ◌++◌, ◌∷◌, [], IsTrue, true, IfOk, IfSome, OnOk, map, option_copied, if◌then◌else◌};
ghost use Rattle.std.specs.FinMap.{is_sorted, put};
ghost use Rattle.fs_names.specs.Keys.{key_cmp};
ghost use Rattle.fs_names.specs.declared.limits.Limits.TheVariants.{V1};
ghost use Rattle.fs_calls.specs.Tree.{File, Tree, from_list, inserted, removed, renamed, exchanged};
ghost use Rattle.fs_calls.specs.Forms as forms;
ghost use Rattle.fs_calls.specs.Rows.{written, resized, new_bytes};
ghost use Rattle.fs_calls.specs.Sights.{tree_shapes, bytes_of, is_same};
ghost use Rattle.fs_calls.specs.Outcomes.{change, filled};
ghost use Rattle.fs_seq.specs.Rows.{node_of_kind};
ghost use Rattle.fs_linearize_flat.specs.code.Cells.{without_key, below_key, beside_key, moved_cell, swapped_cell};

use crate::cell::Cell;
use crate::keys::{behind, joined, names_of};
use crate::searching::{below, is_below, parts, range_below, rises, search};
use crate::seeing::content_at;
use fs_calls::Call;
use fs_linearize_sparse::{SparseFile, resized, written};
use fs_names::{Kind, Name, Path};
use std::alloc::{AllocError, Global};

/// Adds the same entries again.
fn push_copies(new: &mut Vec<Cell>, cells: &[Cell]) -> Result<(), AllocError>
    ensures { OnOk result (new.new.items ≡ new.old.items ++ cells.now) }
{
    for cell in cells {
        new.push(cell.copy()?)?;
    }
    Ok(())
}

/// The same entries again.
pub(crate) fn copied(alloc: Global, cells: &[Cell]) -> Result<Vec<Cell>, AllocError>
    ensures { IfOk result (λ copy. copy.items ≡ cells.now) }
{
    let mut copy = Vec::with_capacity(alloc, cells.len() + 1)?;
    push_copies(&mut copy, cells)?;
    Ok(copy)
}

/// Whether an entry was found to belong in front of others.
#[tactic(auto, using(crate::proofs::SearchLemmas::put_none, crate::proofs::SearchLemmas::put_front))]
fn is_first(cell: &Cell, cells: &[Cell]) -> bool
    ensures { result ≡ true → put key_cmp cell.now.0 cell.now.1 cells.now ≡ cell.now ∷ cells.now }
{
    if cells.is_empty() {
        return true;
    }
    is_below(cell, &cells[0])
}

/// Puts an entry among others, whatever was at its key. Of entries that come from the last on, most are the first.
fn put(cells: &mut Vec<Cell>, cell: Cell) -> Result<(), AllocError>
    requires { IsTrue (is_sorted key_cmp cells.old.items) }
    ensures { OnOk result (cells.new.items ≡ put key_cmp cell.0 cell.1 cells.old.items) }
{
    if is_first(&cell, cells) {
        cells.insert(0, cell)?;
        return Ok(());
    }
    match search(cells, cell.key()) {
        Ok(place) => {
            cells[place] = cell;
            Ok(())
        }
        Err(place) => {
            cells.insert(place, cell)?;
            Ok(())
        }
    }
}

/// The entries with a node at a key, whatever was there.
#[tactic(auto, using(crate::proofs::ChangeLemmas::inserted_is))]
fn with_node(
    alloc: Global,
    cells: &[Cell],
    path: &Path,
    kind: Kind,
    content: SparseFile,
) -> Result<Vec<Cell>, AllocError>
    requires { IsTrue (is_sorted key_cmp cells.now) }
    ensures { IfOk result (λ new. new.items ≡ inserted cells.now path.now (node_of_kind kind content)) }
{
    let key = names_of(alloc, path)?;
    let mut new = copied(alloc, cells)?;
    put(&mut new, Cell::new(alloc, key, kind, content)?)?;
    Ok(new)
}

/// The entries without that of a key.
fn without(alloc: Global, cells: &[Cell], key: &[Name]) -> Result<Vec<Cell>, AllocError>
    requires { IsTrue (is_sorted key_cmp cells.now) }
    ensures { IfOk result (λ new. new.items ≡ without_key key.now cells.now) }
{
    let (before, behind) = parts(cells, key);
    let mut new = Vec::with_capacity(alloc, cells.len())?;
    push_copies(&mut new, before)?;
    push_copies(&mut new, behind)?;
    Ok(new)
}

/// The entry at another key.
fn moved_to(alloc: Global, cell: &Cell, key: Vec<Name>) -> Result<Cell, AllocError>
    ensures { IfOk result (λ new. new ≡ (key.items, cell.now.1)) }
{
    let content = match cell.content() {
        Some(content) => content.copy(alloc)?,
        None => SparseFile::empty(alloc),
    };
    Ok(Cell::new(alloc, key, cell.kind(), content)?)
}

/// The entry, where a key that begins with the one gets the other in its place.
fn moved(alloc: Global, cell: &Cell, from: &[Name], to: &[Name]) -> Result<Cell, AllocError>
    ensures { IfOk result (λ new. new ≡ moved_cell from.now to.now cell.now) }
{
    match behind(from, cell.key()) {
        Some(rest) => Ok(moved_to(alloc, cell, joined(alloc, to, rest)?)?),
        None => Ok(cell.copy()?),
    }
}

/// The entry, where a key that begins with either gets the other in its place.
fn swapped(alloc: Global, cell: &Cell, one: &[Name], other: &[Name]) -> Result<Cell, AllocError>
    ensures { IfOk result (λ new. new ≡ swapped_cell one.now other.now cell.now) }
{
    match behind(one, cell.key()) {
        Some(rest) => Ok(moved_to(alloc, cell, joined(alloc, other, rest)?)?),
        None => Ok(moved(alloc, cell, other, one)?),
    }
}

/// Entries put in order, one by one: if a key comes twice, the first one counts.
#[tactic(auto, using(crate::proofs::ChangeLemmas::ordered_rise))]
fn ordered(alloc: Global, cells: Vec<Cell>) -> Result<Vec<Cell>, AllocError>
    ensures { IfOk result (λ new. new.items ≡ from_list cells.items) }
{
    let mut new = Vec::with_capacity(alloc, cells.len())?;
    let mut left = cells;
    while let Some(cell) = left.pop() {
        put(&mut new, cell)?;
    }
    Ok(new)
}

/// Each of the entries moved.
fn all_moved(
    alloc: Global,
    cells: &[Cell],
    from: &[Name],
    to: &[Name],
) -> Result<Vec<Cell>, AllocError>
    ensures { IfOk result (λ new. new.items ≡ map (moved_cell from.now to.now) cells.now) }
{
    let mut new = Vec::with_capacity(alloc, cells.len())?;
    for cell in cells {
        new.push(moved(alloc, cell, from, to)?)?;
    }
    Ok(new)
}

/// Each of the entries swapped.
fn all_swapped(
    alloc: Global,
    cells: &[Cell],
    one: &[Name],
    other: &[Name],
) -> Result<Vec<Cell>, AllocError>
    ensures { IfOk result (λ new. new.items ≡ map (swapped_cell one.now other.now) cells.now) }
{
    let mut new = Vec::with_capacity(alloc, cells.len())?;
    for cell in cells {
        new.push(swapped(alloc, cell, one, other)?)?;
    }
    Ok(new)
}

/// The entries that are not at a key, nor below it.
fn beside(alloc: Global, cells: &[Cell], key: &[Name]) -> Result<Vec<Cell>, AllocError>
    requires { IsTrue (is_sorted key_cmp cells.now) }
    ensures { IfOk result (λ new. new.items ≡ beside_key key.now cells.now) }
{
    let (from, to) = range_below(cells, key);
    let mut new = Vec::with_capacity(alloc, cells.len())?;
    push_copies(&mut new, &cells[..from])?;
    push_copies(&mut new, &cells[to..])?;
    Ok(new)
}

/// Whether entries were found to end below the first of others.
#[tactic(auto, using(crate::proofs::RiseLemmas::empty_joins, crate::proofs::RiseLemmas::joins_empty, crate::proofs::RiseLemmas::joins_rise))]
fn joins(cells: &[Cell], others: &[Cell]) -> bool
    requires before { IsTrue (is_sorted key_cmp cells.now) }
    requires behind { IsTrue (is_sorted key_cmp others.now) }
    ensures { result ≡ true → is_sorted key_cmp (cells.now ++ others.now) ≡ true }
{
    if cells.is_empty() || others.is_empty() {
        return true;
    }
    is_below(&cells[cells.len() - 1], &others[0])
}

/// Entries and others after them, if they were found to rise.
fn joined_rising(cells: Vec<Cell>, others: Vec<Cell>) -> Result<Option<Vec<Cell>>, AllocError>
    requires before { IsTrue (is_sorted key_cmp cells.items) }
    requires behind { IsTrue (is_sorted key_cmp others.items) }
    ensures all { IfOk result (λ o. IfSome o (λ all. all.items ≡ cells.items ++ others.items)) }
    ensures rises { IfOk result (λ o. IfSome o (λ all. is_sorted key_cmp all.items ≡ true)) }
{
    if !joins(&cells, &others) {
        return Ok(None);
    }
    let mut all = cells;
    let mut rest = others;
    all.append(&mut rest)?;
    Ok(Some(all))
}

/// The moved ones of entries before a place and after it, in order.
fn moved_below(
    alloc: Global,
    before: &[Cell],
    behind: &[Cell],
    one: &[Name],
    other: &[Name],
) -> Result<Vec<Cell>, AllocError>
    requires before { IsTrue (is_sorted key_cmp before.now) }
    requires behind { IsTrue (is_sorted key_cmp behind.now) }
    ensures { IfOk result (λ new. new.items ≡ map (moved_cell one.now other.now) (below_key one.now before.now) ++ map (moved_cell one.now other.now) (below_key one.now behind.now)) }
{
    let mut moved = all_moved(alloc, below(before, one), one, other)?;
    let mut later = all_moved(alloc, below(behind, one), one, other)?;
    moved.append(&mut later)?;
    Ok(moved)
}

/// Entries before a place and after it, where those at a key and below it move into that place, if they were found to
/// rise.
#[tactic(auto, using(crate::proofs::RangeLemmas::beside_rises, crate::proofs::WovenLemmas::woven))]
fn woven(
    alloc: Global,
    before: &[Cell],
    behind: &[Cell],
    one: &[Name],
    other: &[Name],
) -> Result<Option<Vec<Cell>>, AllocError>
    requires before { IsTrue (is_sorted key_cmp before.now) }
    requires behind { IsTrue (is_sorted key_cmp behind.now) }
    ensures { IfOk result (λ o. IfSome o (λ new. new.items ≡ from_list (map (moved_cell one.now other.now) (before.now ++ behind.now)))) }
{
    let moved = moved_below(alloc, before, behind, one, other)?;
    if !rises(&moved) {
        return Ok(None);
    }
    let front = beside(alloc, before, one)?;
    let back = beside(alloc, behind, one)?;
    let Some(rest) = joined_rising(moved, back)? else {
        return Ok(None);
    };
    Ok(joined_rising(front, rest)?)
}

/// The entries after a rename of one path to another.
#[tactic(auto, using(crate::proofs::ChangeLemmas::renamed_is, crate::proofs::ChangeLemmas::woven_renamed))]
fn renamed(alloc: Global, cells: &[Cell], from: &Path, to: &Path) -> Result<Vec<Cell>, AllocError>
    requires { IsTrue (is_sorted key_cmp cells.now) }
    ensures { IfOk result (λ new. new.items ≡ renamed cells.now from.now to.now) }
{
    let one = names_of(alloc, from)?;
    let other = names_of(alloc, to)?;
    let (before, behind) = parts(cells, &other);
    if let Some(new) = woven(alloc, before, behind, &one, &other)? {
        return Ok(new);
    }
    let left = without(alloc, cells, &other)?;
    Ok(ordered(alloc, all_moved(alloc, &left, &one, &other)?)?)
}

/// The entries after a rename without an error.
fn after_rename(
    alloc: Global,
    cells: &[Cell],
    from: &Path,
    to: &Path,
) -> Result<Vec<Cell>, AllocError>
    requires { IsTrue (is_sorted key_cmp cells.now) }
    ensures { IfOk result (λ new. new.items ≡ (if is_same from.now to.now then cells.now else renamed cells.now from.now to.now)) }
{
    if from.same(to) {
        return Ok(copied(alloc, cells)?);
    }
    Ok(renamed(alloc, cells, from, to)?)
}

/// The entries after an exchange of two paths.
#[tactic(auto, using(crate::proofs::ChangeLemmas::exchanged_is))]
fn exchanged(
    alloc: Global,
    cells: &[Cell],
    path: &Path,
    with: &Path,
) -> Result<Vec<Cell>, AllocError>
    ensures { IfOk result (λ new. new.items ≡ exchanged cells.now path.now with.now) }
{
    let one = names_of(alloc, path)?;
    let other = names_of(alloc, with)?;
    Ok(ordered(alloc, all_swapped(alloc, cells, &one, &other)?)?)
}

/// The entries after an exchange without an error.
fn after_exchange(
    alloc: Global,
    cells: &[Cell],
    path: &Path,
    with: &Path,
) -> Result<Vec<Cell>, AllocError>
    ensures { IfOk result (λ new. new.items ≡ (if is_same path.now with.now then cells.now else exchanged cells.now path.now with.now)) }
{
    if path.same(with) {
        return Ok(copied(alloc, cells)?);
    }
    Ok(exchanged(alloc, cells, path, with)?)
}

/// The entries after a write without an error.
#[tactic(auto, using(crate::proofs::ChangeLemmas::written_nothing, crate::proofs::ChangeLemmas::written_some))]
fn after_write(
    alloc: Global,
    cells: &[Cell],
    path: &Path,
    off: u64,
    bytes: &[u8],
) -> Result<Vec<Cell>, AllocError>
    requires { IsTrue (is_sorted key_cmp cells.now) }
    ensures { IfOk result (λ new. new.items ≡ filled cells.now path.now (new_bytes (forms.Write 0 off bytes.now) (tree_shapes cells.now path.now))) }
{
    if bytes.is_empty() {
        return Ok(copied(alloc, cells)?);
    }
    let key = names_of(alloc, path)?;
    let new = written(alloc, content_at(cells, &key), off as usize, bytes)?;
    Ok(with_node(alloc, cells, path, Kind::File, new)?)
}

/// The entries after a truncate without an error.
#[tactic(auto, using(crate::proofs::ChangeLemmas::cut_to))]
fn after_truncate(
    alloc: Global,
    cells: &[Cell],
    path: &Path,
    size: u64,
) -> Result<Vec<Cell>, AllocError>
    requires { IsTrue (is_sorted key_cmp cells.now) }
    ensures { IfOk result (λ new. new.items ≡ inserted cells.now path.now (File (resized (bytes_of (tree_shapes cells.now path.now)) size))) }
{
    let key = names_of(alloc, path)?;
    let new = resized(alloc, content_at(cells, &key), size as usize)?;
    Ok(with_node(alloc, cells, path, Kind::File, new)?)
}

/// The entries after the removal of an entry.
#[tactic(auto, using(crate::proofs::ChangeLemmas::removed_is))]
fn after_removal(alloc: Global, cells: &[Cell], path: &Path) -> Result<Vec<Cell>, AllocError>
    requires { IsTrue (is_sorted key_cmp cells.now) }
    ensures { IfOk result (λ new. new.items ≡ removed cells.now path.now) }
{
    let key = names_of(alloc, path)?;
    Ok(without(alloc, cells, &key)?)
}

/// Whether a call only looks.
pub(crate) fn only_looks(call: &Call) -> bool
    ensures { result ≡ true → (t : Tree) → change V1 t call.now ≡ t }
{
    match call {
        Call::Stat(_) | Call::Readdir(_) | Call::ListAfter(_, _, _) | Call::Read(_, _, _) => true,
        Call::Mkdir(_) | Call::Mknod(_) | Call::Unlink(_) | Call::Rmdir(_) => false,
        Call::Rename(_, _) | Call::Exchange(_, _) => false,
        Call::Write(_, _, _) | Call::Truncate(_, _) => false,
    }
}

/// The entries after a call without an error, which no limit of files changes.
pub(crate) fn change(alloc: Global, cells: &[Cell], call: &Call) -> Result<Vec<Cell>, AllocError>
    requires { IsTrue (is_sorted key_cmp cells.now) }
    ensures { IfOk result (λ new. new.items ≡ change V1 cells.now call.now) }
{
    match call {
        Call::Mkdir(path) => Ok(with_node(
            alloc,
            cells,
            path,
            Kind::Dir,
            SparseFile::empty(alloc),
        )?),
        Call::Mknod(path) => Ok(with_node(
            alloc,
            cells,
            path,
            Kind::File,
            SparseFile::empty(alloc),
        )?),
        Call::Unlink(path) | Call::Rmdir(path) => Ok(after_removal(alloc, cells, path)?),
        Call::Rename(from, to) => Ok(after_rename(alloc, cells, from, to)?),
        Call::Exchange(path, with) => Ok(after_exchange(alloc, cells, path, with)?),
        Call::Stat(_) | Call::Readdir(_) | Call::ListAfter(_, _, _) | Call::Read(_, _, _) => {
            Ok(copied(alloc, cells)?)
        }
        Call::Write(path, off, bytes) => {
            Ok(after_write(alloc, cells, path, *off, bytes.as_slice())?)
        }
        Call::Truncate(path, size) => Ok(after_truncate(alloc, cells, path, *size)?),
    }
}
