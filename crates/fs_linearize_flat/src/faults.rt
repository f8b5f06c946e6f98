//! The first error of a call.

ghost use Rattle.std.specs.Prelude.{◌≡◌, IsTrue, IfOk};
ghost use Rattle.std.specs.FinMap.{is_sorted};
ghost use Rattle.fs_names.specs.Limits.{entry_limit};
ghost use Rattle.fs_names.specs.Keys.{key_cmp, parent_of};
ghost use Rattle.fs_names.specs.Failures.{or_else};
ghost use Rattle.fs_calls.specs.Sights.{tree_shapes, row_in, is_same, resolve_dir};
ghost use Rattle.fs_calls.specs.Rows.{has_room};
ghost use Rattle.fs_calls.specs.Forms as forms;
ghost use Rattle.fs_calls.specs.Outcomes.{fault};
ghost use Rattle.fs_calls.specs.code.Seen.{sight};
ghost use Rattle.fs_calls.specs.code.Targets.{form_of, node_call, entry_call, pair_call};

use crate::cell::Cell;
use crate::keys::{names_of, parent};
use crate::seeing::{is_full, resolve, resolve_dir, sight};
use fs_calls::rows::PairSight;
use fs_calls::{Call, EntryCall, Errno, NodeCall, PairCall, Target};
use fs_names::{Limits, Name, Path};
use std::alloc::{AllocError, Global};

/// The first error of a call on a node.
#[tactic(auto, using(crate::proofs::FaultLemmas::node_lost, crate::proofs::FaultLemmas::node_there))]
fn node_error(cells: &[Cell], limits: Limits, call: NodeCall<'_>, key: &[Name]) -> Option<Errno>
    requires { IsTrue (is_sorted key_cmp cells.now) }
    ensures { result ≡ row_in (tree_shapes cells.now) (forms.AtNode (node_call limits call.entry) key.now) }
{
    if let Some(errno) = resolve(cells, key) {
        return Some(errno);
    }
    call.error(limits, sight(cells, key))
}

/// The first error of a call on an entry, after those that its path decides alone.
#[tactic(auto, using(crate::proofs::FaultLemmas::entry_lost, crate::proofs::FaultLemmas::entry_there))]
fn entry_error(cells: &[Cell], limits: Limits, call: EntryCall, key: &[Name]) -> Option<Errno>
    requires { IsTrue (is_sorted key_cmp cells.now) }
    ensures { result ≡ row_in (tree_shapes cells.now) (forms.AtEntry (entry_call limits call) key.now) }
{
    let dir = parent(key);
    if let Some(errno) = resolve_dir(cells, dir) {
        return Some(errno);
    }
    call.error(sight(cells, key), is_full(cells, limits, dir))
}

/// What the row of a call on two entries asks.
fn pair_sight(
    cells: &[Cell],
    limits: Limits,
    path: &Path,
    other: &Path,
    first: &[Name],
    second: &[Name],
) -> PairSight
    requires { IsTrue (is_sorted key_cmp cells.now) }
    ensures first { sight (tree_shapes cells.now first.now) ≡ result.first }
    ensures second { sight (tree_shapes cells.now second.now) ≡ result.second }
    ensures same { result.same_path ≡ is_same path.now other.now }
    ensures room { result.has_room ≡ has_room (entry_limit limits) (is_same (parent_of path.now) (parent_of other.now)) (tree_shapes cells.now (parent_of second.now)) }
{
    PairSight {
        first: sight(cells, first),
        second: sight(cells, second),
        same_path: path.same(other),
        has_room: path.has_parent_of(other) || !is_full(cells, limits, parent(second)),
    }
}

/// The first error of the directories of two entries.
#[tactic(auto, using(crate::proofs::FaultLemmas::dirs_first, crate::proofs::FaultLemmas::dirs_second))]
fn dirs_error(cells: &[Cell], first: &[Name], second: &[Name]) -> Option<Errno>
    requires { IsTrue (is_sorted key_cmp cells.now) }
    ensures { result ≡ or_else (resolve_dir (tree_shapes cells.now) (parent_of first.now)) (resolve_dir (tree_shapes cells.now) (parent_of second.now)) }
{
    if let Some(errno) = resolve_dir(cells, parent(first)) {
        return Some(errno);
    }
    resolve_dir(cells, parent(second))
}

/// The first error of a call on the entries of two keys, after those that its paths decide alone.
#[tactic(auto, using(crate::proofs::FaultLemmas::pair_lost))]
fn keys_error(
    cells: &[Cell],
    limits: Limits,
    call: PairCall,
    path: &Path,
    other: &Path,
    first: &[Name],
    second: &[Name],
) -> Option<Errno>
    requires sorted { IsTrue (is_sorted key_cmp cells.now) }
    requires first { first.now ≡ path.now }
    requires second { second.now ≡ other.now }
    ensures { result ≡ row_in (tree_shapes cells.now) (forms.AtPair (pair_call limits call) path.now other.now) }
{
    if let Some(errno) = dirs_error(cells, first, second) {
        return Some(errno);
    }
    call.error(pair_sight(cells, limits, path, other, first, second))
}

/// The first error of a call on two entries, after those that its paths decide alone.
fn pair_error(
    alloc: Global,
    cells: &[Cell],
    limits: Limits,
    call: PairCall,
    path: &Path,
    other: &Path,
) -> Result<Option<Errno>, AllocError>
    requires { IsTrue (is_sorted key_cmp cells.now) }
    ensures { IfOk result (λ error. error ≡ row_in (tree_shapes cells.now) (forms.AtPair (pair_call limits call) path.now other.now)) }
{
    let first = names_of(alloc, path)?;
    let second = names_of(alloc, other)?;
    Ok(keys_error(cells, limits, call, path, other, &first, &second))
}

/// The first error of what a call looks at, after those that its paths decide alone.
fn target_error(
    alloc: Global,
    cells: &[Cell],
    limits: Limits,
    target: Target<'_>,
) -> Result<Option<Errno>, AllocError>
    requires { IsTrue (is_sorted key_cmp cells.now) }
    ensures { IfOk result (λ error. error ≡ row_in (tree_shapes cells.now) (form_of limits target.entry)) }
{
    match target {
        Target::Node(call, path) => {
            let key = names_of(alloc, path)?;
            Ok(node_error(cells, limits, call, &key))
        }
        Target::Entry(call, path) => {
            let key = names_of(alloc, path)?;
            Ok(entry_error(cells, limits, call, &key))
        }
        Target::Pair(call, path, other) => Ok(pair_error(alloc, cells, limits, call, path, other)?),
    }
}

/// The first error of a call by these limits.
#[tactic(auto, using(crate::proofs::FaultLemmas::by_paths, crate::proofs::FaultLemmas::by_row))]
pub(crate) fn error(
    alloc: Global,
    cells: &[Cell],
    limits: Limits,
    call: &Call,
) -> Result<Option<Errno>, AllocError>
    requires { IsTrue (is_sorted key_cmp cells.now) }
    ensures { IfOk result (λ error. error ≡ fault limits cells.now call.now) }
{
    if let Some(errno) = call.error_by_paths() {
        return Ok(Some(errno));
    }
    Ok(target_error(alloc, cells, limits, call.target())?)
}
