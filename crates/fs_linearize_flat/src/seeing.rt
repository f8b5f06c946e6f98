//! What is at keys.

ghost use Rattle.std.specs.Prelude.{◌≡◌, ◌<◌, ◌≤◌, ◌++◌, ◌∷◌, [], Some, length, nat_le, IsTrue, option_copied, IfOk, OnOk};
ghost use Rattle.std.specs.FinMap.{is_sorted};
ghost use Rattle.fs_names.specs.Keys.{key_cmp};
ghost use Rattle.fs_names.specs.Limits.{entry_limit};
ghost use Rattle.fs_names.specs.Shapes as shapes;
ghost use Rattle.fs_calls.specs.Tree.{name_in, names_in};
ghost use Rattle.fs_calls.specs.Sights.{tree_shapes, has_any, bytes_of, is_full, resolve, resolve_dir};
ghost use Rattle.fs_calls.specs.code.Seen.{sight};
ghost use Rattle.fs_linearize_sparse.specs.Files.{bytes_in};
ghost use Rattle.fs_linearize_flat.specs.code.Cells.{GoesOn, ReachesOn, lent_names};

use crate::cell::Cell;
use crate::keys::behind;
use crate::searching::{below, find};
use fs_calls::rows::step_error;
use fs_calls::{Errno, Sight, ranges};
use fs_linearize_sparse::SparseFile;
use fs_names::{Kind, LIST_LIMIT, Limits, Name};
use std::alloc::{AllocError, Global};

/// The name of an entry in a directory, if it is one of it.
#[tactic(auto, using(crate::proofs::KeyLemmas::no_entry))]
fn entry_name<'a>(dir: &[Name], cell: &'a Cell) -> Option<&'a Name>
    ensures { option_copied result ≡ name_in dir.now cell.now.0 }
{
    if cell.depth() != dir.len() + 1 {
        return None;
    }
    match behind(dir, cell.key()) {
        Some([name]) => Some(name),
        _ => None,
    }
}

/// Whether an entry is one of a directory.
#[tactic(auto, using(crate::proofs::SeenLemmas::entry_true, crate::proofs::SeenLemmas::entry_false))]
fn is_entry(dir: &[Name], cell: &Cell) -> bool
    ensures { result ≡ has_any (names_in (cell.now ∷ []) dir.now) }
{
    match entry_name(dir, cell) {
        Some(_) => true,
        None => false,
    }
}

/// Whether one of these is an entry of a directory.
#[tactic(auto, using(crate::proofs::SeenLemmas::has_here, crate::proofs::SeenLemmas::has_later, crate::proofs::SeenLemmas::has_none))]
fn has_any(cells: &[Cell], dir: &[Name]) -> bool
    ensures { result ≡ has_any (names_in cells.now dir.now) }
{
    for cell in cells {
        if is_entry(dir, cell) {
            return true;
        }
    }
    false
}

/// One for an entry of a directory, and for any other none.
#[tactic(auto, using(crate::proofs::SeenLemmas::entry_one, crate::proofs::SeenLemmas::entry_none))]
fn tally(dir: &[Name], cell: &Cell) -> usize
    ensures count { result ≡ length (names_in (cell.now ∷ []) dir.now) }
    ensures most { result ≤ 1 }
{
    match entry_name(dir, cell) {
        Some(_) => 1,
        None => 0,
    }
}

/// How many of these are entries of a directory.
#[tactic(auto, using(crate::proofs::SeenLemmas::count_more, crate::proofs::SeenLemmas::count_end))]
fn count_in(cells: &[Cell], dir: &[Name]) -> usize
    ensures { result ≡ length (names_in cells.now dir.now) }
{
    let mut count = 0;
    for cell in cells {
        count += tally(dir, cell);
    }
    count
}

/// How many entries a directory has.
#[tactic(auto, using(crate::proofs::SeenLemmas::names_below))]
pub(crate) fn count(cells: &[Cell], dir: &[Name]) -> usize
    requires { IsTrue (is_sorted key_cmp cells.now) }
    ensures { result ≡ length (names_in cells.now dir.now) }
{
    count_in(below(cells, dir), dir)
}

/// Adds the name of an entry, if it is one of a directory.
fn push_name<'a>(names: &mut Vec<&'a Name>, dir: &[Name], cell: &'a Cell) -> Result<(), AllocError>
    ensures { OnOk result (lent_names names.new.items ≡ lent_names names.old.items ++ names_in (cell.now ∷ []) dir.now) }
{
    if let Some(name) = entry_name(dir, cell) {
        names.push(name)?;
    }
    Ok(())
}

/// The names of those of these that are entries of a directory, in order.
#[tactic(auto, using(crate::proofs::SeenLemmas::names_next))]
fn names_among<'a>(
    alloc: Global,
    cells: &'a [Cell],
    dir: &[Name],
) -> Result<Vec<&'a Name>, AllocError>
    ensures { IfOk result (λ names. lent_names names.items ≡ names_in cells.now dir.now) }
{
    let mut names = Vec::new(alloc);
    for cell in cells {
        push_name(&mut names, dir, cell)?;
    }
    Ok(names)
}

/// The names of a directory, in order.
#[tactic(auto, using(crate::proofs::SeenLemmas::names_below))]
pub(crate) fn names<'a>(
    alloc: Global,
    cells: &'a [Cell],
    dir: &[Name],
) -> Result<Vec<&'a Name>, AllocError>
    requires { IsTrue (is_sorted key_cmp cells.now) }
    ensures { IfOk result (λ names. lent_names names.items ≡ names_in cells.now dir.now) }
{
    Ok(names_among(alloc, below(cells, dir), dir)?)
}

/// Whether at least so many of these are entries of a directory.
#[tactic(auto, using(crate::proofs::SeenLemmas::few_there))]
fn has_as_many(cells: &[Cell], least: usize, dir: &[Name]) -> bool
    ensures { result ≡ nat_le least (length (names_in cells.now dir.now)) }
{
    if !ranges::is_full(least, cells.len()) {
        return false;
    }
    ranges::is_full(least, count_in(cells, dir))
}

/// What the rows of errors see of a directory.
#[tactic(auto, using(crate::proofs::SeenLemmas::dir_empty, crate::proofs::SeenLemmas::dir_some, crate::proofs::SeenLemmas::dir_many))]
fn sight_of_dir(cells: &[Cell], dir: &[Name]) -> Sight
    requires { IsTrue (is_sorted key_cmp cells.now) }
    ensures { sight (Some (shapes.Dir (names_in cells.now dir.now))) ≡ result }
{
    let inside = below(cells, dir);
    if !has_any(inside, dir) {
        return Sight::EmptyDir;
    }
    if has_as_many(inside, LIST_LIMIT + 1, dir) {
        return Sight::CrowdedDir;
    }
    Sight::Dir
}

/// What the rows of errors see at a key.
#[tactic(auto, using(crate::proofs::SeenLemmas::sight_nothing, crate::proofs::SeenLemmas::sight_file, crate::proofs::SeenLemmas::sight_dir))]
pub(crate) fn sight(cells: &[Cell], key: &[Name]) -> Sight
    requires { IsTrue (is_sorted key_cmp cells.now) }
    ensures { sight (tree_shapes cells.now key.now) ≡ result }
{
    let Some(cell) = find(cells, key) else {
        return Sight::Nothing;
    };
    match cell.kind() {
        Kind::File => Sight::File,
        Kind::Dir => sight_of_dir(cells, key),
    }
}

/// Whether a directory has as many entries as it can have by these limits.
#[tactic(auto, using(crate::proofs::SeenLemmas::nothing_full, crate::proofs::SeenLemmas::file_full, crate::proofs::SeenLemmas::dir_full, crate::proofs::SeenLemmas::few_anywhere))]
pub(crate) fn is_full(cells: &[Cell], limits: Limits, key: &[Name]) -> bool
    requires { IsTrue (is_sorted key_cmp cells.now) }
    ensures { result ≡ is_full (entry_limit limits) (tree_shapes cells.now key.now) }
{
    if !ranges::is_full(limits.entries(), cells.len()) {
        return false;
    }
    let Some(cell) = find(cells, key) else {
        return false;
    };
    match cell.kind() {
        Kind::File => false,
        Kind::Dir => has_as_many(below(cells, key), limits.entries(), key),
    }
}

/// The content of the file at a key.
#[tactic(auto, using(crate::proofs::SeenLemmas::bytes_there, crate::proofs::SeenLemmas::bytes_nowhere))]
pub(crate) fn content_at<'a>(cells: &'a [Cell], key: &[Name]) -> Option<&'a SparseFile>
    requires { IsTrue (is_sorted key_cmp cells.now) }
    ensures { bytes_in (option_copied result) ≡ bytes_of (tree_shapes cells.now key.now) }
{
    match find(cells, key) {
        Some(cell) => cell.content(),
        None => None,
    }
}

/// Why a path does not go on from what is at a key to what is below it.
fn step(here: Option<&Cell>, below: Option<&Cell>) -> Option<Errno>
    ensures { GoesOn (option_copied here.entry) (option_copied below.entry) result }
{
    let Some(cell) = here else {
        return Some(Errno::Enoent);
    };
    match cell.kind() {
        Kind::File => Some(step_error(true)),
        Kind::Dir => {
            if below.is_some() {
                None
            } else {
                Some(step_error(false))
            }
        }
    }
}

/// Why the first so many names of a key do not go on by one more.
#[tactic(auto, using(crate::proofs::SeenLemmas::reaches_on))]
fn step_at(cells: &[Cell], key: &[Name], count: usize) -> Option<Errno>
    requires sorted { IsTrue (is_sorted key_cmp cells.now) }
    requires within { count < length key.now }
    ensures { ReachesOn cells.now key.now count result }
{
    let here = find(cells, &key[..count]);
    let below = find(cells, &key[..count + 1]);
    step(here, below)
}

/// Why a key is not reached from the root, name by name.
#[tactic(auto, using(crate::proofs::SeenLemmas::reach_start, crate::proofs::SeenLemmas::reach_end))]
pub(crate) fn resolve(cells: &[Cell], key: &[Name]) -> Option<Errno>
    requires { IsTrue (is_sorted key_cmp cells.now) }
    ensures { result ≡ resolve (tree_shapes cells.now) key.now }
{
    for count in 0..key.len() {
        if let Some(errno) = step_at(cells, key, count) {
            return Some(errno);
        }
    }
    None
}

/// The same of a key that should be a directory.
#[tactic(auto, using(crate::proofs::SeenLemmas::lost_dir, crate::proofs::SeenLemmas::missing_dir, crate::proofs::SeenLemmas::file_dir, crate::proofs::SeenLemmas::dir_dir))]
pub(crate) fn resolve_dir(cells: &[Cell], key: &[Name]) -> Option<Errno>
    requires { IsTrue (is_sorted key_cmp cells.now) }
    ensures { result ≡ resolve_dir (tree_shapes cells.now) key.now }
{
    if let Some(errno) = resolve(cells, key) {
        return Some(errno);
    }
    match find(cells, key) {
        None => Some(Errno::Enoent),
        Some(cell) => match cell.kind() {
            Kind::File => Some(Errno::Enotdir),
            Kind::Dir => None,
        },
    }
}
