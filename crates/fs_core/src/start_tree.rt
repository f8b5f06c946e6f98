//! The tree at which the timeline begins.

ghost use Rattle.std.specs.Prelude.{◌≡◌, ◌≢◌, OnOk, OnErr, IfSome};
ghost use Rattle.fs_calls.specs.Outcomes.{called, next_start};
ghost use Rattle.fs_timeline.specs.Timeline.{commits};

use fs_calls::Call;
use fs_memory::Memory;
use fs_nodes::{NodeNo, Store};
use fs_seq::SeqTree;
use fs_timeline::IndexedTimeline;
use std::alloc::{AllocError, Global};
use std::marker::Model;
use std::mem;

/// As many nodes are copied in the time in which a commit is played.
const NODES_TO_A_COMMIT: usize = 4;

/// So many bytes of a file cost as much as a node: a copy shares the blocks, and the next write into each of them copies it.
const BYTES_TO_A_NODE: usize = 4_096;

/// The tree at which the timeline begins. Beside it there may be the same tree once more, on which the timeline's commits are
/// played when it begins again. So that costs what was committed, however large the tree is, and an error leaves this one.
#[derive(Drop)]
pub struct StartTree {
    tree: SeqTree,
    // Of its value it is no part.
    twin: Option<SeqTree>,
    // How many nodes were copied in the time in which the tree was copied last. Of its value it is no part.
    cost: usize,
}

/// How many nodes are copied in the time in which a tree is copied that a store spells, with so many nodes at the most.
fn cost(store: &Store, nodes: usize) -> usize {
    let mut cost = nodes;
    for node in 0..nodes {
        cost = cost.saturating_add(store.len(NodeNo::new(node)) / BYTES_TO_A_NODE);
    }
    cost
}

impl Model for StartTree {
    ghost use Rattle.std.specs.Prelude.{◌≡◌, Some};
    ghost use Rattle.fs_calls.specs.Starts.{Start};

    ghost Value = { Start };

    ghost view = { λ s. s.tree };

    ghost invariant = { λ s. (twin : Start) → s.twin ≡ Some twin → twin ≡ s.tree };
}

/// Plays a call on a tree, on which one that only looks has nothing to do.
#[tactic(auto, using(crate::proofs::Looking::stat_stays, crate::proofs::Looking::readdir_stays, crate::proofs::Looking::list_stays, crate::proofs::Looking::read_stays))]
fn play_call(
    alloc: Global,
    memory: &mut Memory,
    tree: &mut SeqTree,
    call: &Call,
) -> Result<(), AllocError>
    ensures tree { OnOk result (tree.new ≡ called tree.old call.now) }
    ensures granted { OnOk result (memory.new ≡ memory.old) }
    ensures refused { OnErr result (memory.new ≢ memory.old) }
{
    match call {
        Call::Stat(_) | Call::Readdir(_) | Call::ListAfter(_, _, _) | Call::Read(_, _, _) => Ok(()),
        _ => {
            tree.apply_counted(alloc, memory, call)?;
            Ok(())
        }
    }
}

/// Plays the timeline's commits on a tree.
pub fn play(
    alloc: Global,
    memory: &mut Memory,
    tree: &mut SeqTree,
    timeline: &IndexedTimeline,
) -> Result<(), AllocError>
    ensures tree { OnOk result (tree.new ≡ next_start tree.old (commits timeline.now.entries)) }
    ensures granted { OnOk result (memory.new ≡ memory.old) }
    ensures refused { OnErr result (memory.new ≢ memory.old) }
{
    for i in 0..timeline.commits() {
        play_call(alloc, memory, tree, timeline.committed(i))?;
    }
    Ok(())
}

impl StartTree {
    /// A tree at which a timeline begins.
    pub fn new(tree: SeqTree) -> StartTree
        ensures { result ≡ tree }
    {
        StartTree {
            tree,
            twin: None,
            cost: 0,
        }
    }

    /// The tree.
    pub fn tree(&self) -> &SeqTree
        ensures { result.now ≡ self.now }
    {
        &self.tree
    }

    /// The tree alone. It takes no memory.
    pub fn into_tree(self) -> SeqTree
        ensures { result ≡ self }
    {
        let StartTree { tree, .. } = self;
        tree
    }

    /// The tree that the timeline's commits play is the one from now on. A store spells it, with so many nodes at the most. The
    /// tree is copied for that, unless the commits were few the last time: then they were played on both. The only error is out of
    /// memory, and by it nothing changes.
    pub fn advance(
        &mut self,
        alloc: Global,
        memory: &mut Memory,
        timeline: &IndexedTimeline,
        store: &Store,
        nodes: usize,
    ) -> Result<(), AllocError>
        ensures tree { OnOk result (self.new ≡ next_start self.old (commits timeline.now.entries)) }
        ensures err { OnErr result (self.new ≡ self.old) }
        ensures granted { OnOk result (memory.new ≡ memory.old) }
        ensures refused { OnErr result (memory.new ≢ memory.old) }
    {
        let mut ahead = match self.twin.take() {
            Some(twin) => twin,
            None => {
                self.cost = cost(store, nodes);
                self.tree.copy_counted(memory)?
            }
        };
        play(alloc, memory, &mut ahead, timeline)?;
        let behind = mem::replace(&mut self.tree, ahead);
        if timeline.commits() <= self.cost.max(nodes) / NODES_TO_A_COMMIT {
            self.twin = caught_up(alloc, behind, timeline);
        }
        Ok(())
    }
}

/// A tree on which the timeline's commits were played, where there was memory for it.
fn caught_up(alloc: Global, mut tree: SeqTree, timeline: &IndexedTimeline) -> Option<SeqTree>
    ensures { IfSome result (λ twin. twin ≡ next_start tree (commits timeline.now.entries)) }
{
    match play(alloc, &mut Memory::new(), &mut tree, timeline) {
        Ok(()) => Some(tree),
        Err(_) => None,
    }
}
