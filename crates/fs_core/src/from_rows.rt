//! A core that begins at a tree.

ghost use Rattle.std.specs.Prelude.{◌≡◌, ◌≢◌, ◌≤◌, ◌<◌, ℕ, [], None, Some, Err, map, length, IfOk, OnOk};
ghost use Rattle.fs_names.specs.Limits.{node_limit};
ghost use Rattle.fs_calls.specs.Sights.{tree_shapes};
ghost use Rattle.fs_seq.specs.Rows.{misfit, row_of, IsWithinLimits};
ghost use Rattle.fs_nodes.specs.Graphs.{graph_shapes};
ghost use Rattle.fs_nodes.specs.Stores.{graph_of};
ghost use Rattle.fs_machine.specs.States.{fresh};
ghost use Rattle.fs_core.specs.CoreValues.{state_of};

use crate::engine::Core;
use crate::filling::filled;
use fs_names::Limits;
use fs_nodes::NoNode;
use fs_seq::{NotTree, Row, SeqTree};
use std::alloc::Global;

/// Why no core begins at a tree. Nothing was made.
#[derive(Clone, Copy, Debug, PartialEq, Eq)]
pub enum NoStart {
    /// The place, counted from 1, of the first row that no tree within the limits of entries and bytes has there; it is 1
    /// where there are no rows.
    Bad(usize),
    /// The tree has more nodes than the limit, the root included.
    TooManyNodes,
    /// An allocation failed. This says nothing about the rows.
    OutOfMemory,
}

impl Core {
    /// A core whose timeline begins at a tree, by the limits that the tree keeps: its nodes spell it, and there are no seats and no
    /// entries. It is for at most `limit` nodes, the root included. Each row of the tree is looked up by its names, so that the
    /// time grows with the names of all rows. `TooManyNodes` comes exactly where the tree has more rows than `limit` and there
    /// is memory for those before, and `Bad` never.
    #[tactic(auto, using(fs_names::proofs::LimitLemmas::nodes_have_room))]
    pub fn from_tree(alloc: Global, start: SeqTree, limit: usize) -> Result<Core, NoStart>
        requires least { 1 ≤ limit }
        requires most { limit ≤ node_limit start.limits }
        requires within { IsWithinLimits start.limits start.tree }
        ensures start { IfOk result (λ core. core.start ≡ start) }
        ensures spelled { IfOk result (λ core. graph_shapes (graph_of core.store) ≡ tree_shapes start.tree) }
        ensures state { IfOk result (λ core. state_of core ≡ fresh limit start (graph_of core.store)) }
        ensures entries { IfOk result (λ core. core.timeline ≡ []) }
        ensures seats { IfOk result (λ core. core.seats ≡ []) }
        ensures refusals { IfOk result (λ core. core.refusals ≡ 0) }
        ensures few { OnOk result (length start.tree ≤ limit) }
        ensures many { result ≡ Err NoStart.TooManyNodes → limit < length start.tree }
        ensures bad { (place : ℕ) → result ≢ Err (NoStart.Bad place) }
    {
        match filled(alloc, &start, limit) {
            Ok((store, holders)) => Ok(Core::at(alloc, start, store, holders)),
            Err(NoNode::Full) => Err(NoStart::TooManyNodes),
            Err(NoNode::OutOfMemory) => Err(NoStart::OutOfMemory),
        }
    }

    /// A core whose timeline begins at the tree of these entries, with these limits. Its nodes spell that tree, and it
    /// has no seats and no entries. It is for at most `limit` nodes, the root included. `Bad` names the first row that
    /// no tree within the limits has at its place. If memory runs out at an earlier row, the error is `OutOfMemory`. If
    /// each row fits, but there are more of them than `limit`, it is `TooManyNodes`.
    pub fn from_rows(
        alloc: Global,
        rows: &[Row],
        limit: usize,
        limits: Limits,
    ) -> Result<Core, NoStart>
        requires least { 1 ≤ limit }
        requires most { limit ≤ node_limit limits }
        ensures start { IfOk result (λ core. core.start ≡ record { limits = limits; tree = map row_of rows.now }) }
        ensures spelled { IfOk result (λ core. graph_shapes (graph_of core.store) ≡ tree_shapes (map row_of rows.now)) }
        ensures state { IfOk result (λ core. state_of core ≡ fresh limit (record { limits = limits; tree = map row_of rows.now }) (graph_of core.store)) }
        ensures entries { IfOk result (λ core. core.timeline ≡ []) }
        ensures seats { IfOk result (λ core. core.seats ≡ []) }
        ensures refusals { IfOk result (λ core. core.refusals ≡ 0) }
        ensures fits { OnOk result (misfit limits rows.now ≡ None) }
        ensures few { OnOk result (length rows.now ≤ limit) }
        ensures bad { (place : ℕ) → result ≡ Err (NoStart.Bad place) → misfit limits rows.now ≡ Some place }
        ensures many { result ≡ Err NoStart.TooManyNodes → (misfit limits rows.now ≡ None) × (limit < length rows.now) }
    {
        match SeqTree::from_rows(alloc, rows, limits) {
            Ok(start) => Core::from_tree(alloc, start, limit),
            Err(NotTree::Bad(place)) => Err(NoStart::Bad(place)),
            Err(NotTree::OutOfMemory) => Err(NoStart::OutOfMemory),
        }
    }
}
