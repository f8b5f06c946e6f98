//! Where a key is among entries whose keys rise.

ghost use Rattle.std.specs.Prelude.{◌≡◌, ◌≤◌, ◌++◌, length, drop, IsTrue, true, false, is_some, option_copied};
ghost use Rattle.std.specs.List.{AllWithin};
ghost use Rattle.std.specs.Ordering.{is_lt};
ghost use Rattle.std.specs.FinMap.{is_sorted};
ghost use Rattle.fs_names.specs.Keys.{Key, key_cmp, after_prefix};
ghost use Rattle.fs_calls.specs.Tree.{Node};
ghost use Rattle.fs_calls.specs.Sights.{tree_shapes, shape_of};
ghost use Rattle.fs_linearize_flat.specs.code.Cells.{Searches, IsRange, node_in, without_key, below_key};

use crate::cell::Cell;
use crate::keys::is_prefix;
use fs_names::Name;
use fs_names::order::compare_keys;
use std::cmp::Ordering;

/// Where a key is among the entries, or where it belongs.
pub(crate) fn search(cells: &[Cell], key: &[Name]) -> Result<usize, usize>
    requires { IsTrue (is_sorted key_cmp cells.now) }
    ensures { Searches cells.now key.now result }
{
    cells.binary_search_by(|cell| compare_keys(cell.key(), key))
}

/// The entries before a key, and those after it.
#[tactic(auto, using(crate::proofs::RangeLemmas::parts_found, crate::proofs::RangeLemmas::parts_missing, crate::proofs::RangeLemmas::take_rises, crate::proofs::RangeLemmas::rest_rises))]
pub(crate) fn parts<'a>(cells: &'a [Cell], key: &[Name]) -> (&'a [Cell], &'a [Cell])
    requires { IsTrue (is_sorted key_cmp cells.now) }
    ensures all { result.0.now ++ result.1.now ≡ without_key key.now cells.now }
    ensures before { IsTrue (is_sorted key_cmp result.0.now) }
    ensures behind { IsTrue (is_sorted key_cmp result.1.now) }
{
    match search(cells, key) {
        Ok(place) => (&cells[..place], &cells[place + 1..]),
        Err(place) => (&cells[..place], &cells[place..]),
    }
}

/// How many entries are before a key.
fn count_before(cells: &[Cell], key: &[Name]) -> usize
    requires { IsTrue (is_sorted key_cmp cells.now) }
    ensures within { result ≤ length cells.now }
    ensures before { AllWithin (λ (c : Key × Node). is_lt (key_cmp c.0 key.now) ≡ true) cells.now 0 result }
    ensures behind { AllWithin (λ (c : Key × Node). is_lt (key_cmp c.0 key.now) ≡ false) cells.now result (length cells.now) }
{
    cells.partition_point(|cell| compare_keys(cell.key(), key).is_lt())
}

/// How many of the first entries are at a key or below it, where none is before it.
fn count_below(cells: &[Cell], key: &[Name]) -> usize
    requires sorted { IsTrue (is_sorted key_cmp cells.now) }
    requires above { AllWithin (λ (c : Key × Node). is_lt (key_cmp c.0 key.now) ≡ false) cells.now 0 (length cells.now) }
    ensures within { result ≤ length cells.now }
    ensures inside { AllWithin (λ (c : Key × Node). is_some (after_prefix key.now c.0) ≡ true) cells.now 0 result }
    ensures behind { AllWithin (λ (c : Key × Node). is_some (after_prefix key.now c.0) ≡ false) cells.now result (length cells.now) }
{
    cells.partition_point(|cell| is_prefix(key, cell.key()))
}

/// The entries from a place on.
#[tactic(auto, using(crate::proofs::RangeLemmas::rest_rises))]
fn from_place(cells: &[Cell], place: usize) -> &[Cell]
    requires sorted { IsTrue (is_sorted key_cmp cells.now) }
    requires within { place ≤ length cells.now }
    ensures is { result.now ≡ drop place cells.now }
    ensures sorted { is_sorted key_cmp result.now ≡ true }
{
    &cells[place..]
}

/// The places from which and up to which the entries at a key and below it are.
#[tactic(auto, using(crate::proofs::RangeLemmas::above_from, crate::proofs::RangeLemmas::range_is))]
pub(crate) fn range_below(cells: &[Cell], key: &[Name]) -> (usize, usize)
    requires { IsTrue (is_sorted key_cmp cells.now) }
    ensures { IsRange cells.now key.now result.0 result.1 }
{
    let from = count_before(cells, key);
    let rest = from_place(cells, from);
    let many = count_below(rest, key);
    (from, from + many)
}

/// The entries at a key and below it.
pub(crate) fn below<'a>(cells: &'a [Cell], key: &[Name]) -> &'a [Cell]
    requires { IsTrue (is_sorted key_cmp cells.now) }
    ensures { result.now ≡ below_key key.now cells.now }
{
    let (from, to) = range_below(cells, key);
    &cells[from..to]
}

/// What is at a key.
#[tactic(auto, using(crate::proofs::SeenLemmas::seen_at, crate::proofs::SeenLemmas::seen_nowhere))]
pub(crate) fn find<'a>(cells: &'a [Cell], key: &[Name]) -> Option<&'a Cell>
    requires { IsTrue (is_sorted key_cmp cells.now) }
    ensures { tree_shapes cells.now key.now ≡ shape_of cells.now key.now (node_in (option_copied result)) }
{
    match search(cells, key) {
        Ok(place) => Some(&cells[place]),
        Err(_) => None,
    }
}

/// Whether the key of an entry is below that of another.
pub(crate) fn is_below(cell: &Cell, other: &Cell) -> bool
    ensures { result ≡ true → key_cmp cell.now.0 other.now.0 ≡ Ordering.Less }
{
    compare_keys(cell.key(), other.key()) == Ordering::Less
}

/// Whether the keys were found to rise.
#[tactic(auto, using(crate::proofs::SearchLemmas::rises_before, crate::proofs::SearchLemmas::few_rise, crate::proofs::SearchLemmas::rises_all))]
pub(crate) fn rises(cells: &[Cell]) -> bool
    ensures { result ≡ true → IsTrue (is_sorted key_cmp cells.now) }
{
    let mut place = cells.len();
    while place > 1 {
        place -= 1;
        if !is_below(&cells[place - 1], &cells[place]) {
            return false;
        }
    }
    true
}
