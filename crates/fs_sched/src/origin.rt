//! Where runs of a script begin.

ghost use Rattle.std.specs.Prelude.{◌≡◌, ◌≤◌, ℕ, [], length, IfOk, IfErr};
ghost use Rattle.fs_names.specs.Limits.{node_limit};
ghost use Rattle.fs_core.specs.CoreValues.{state_of};
ghost use Rattle.fs_seq.specs.Rows.{IsWithinLimits};
ghost use Rattle.fs_sched.specs.Runs.{before_all};
ghost use Rattle.fs_sched.specs.Origins.{CanBegin, IsBefore, IsFirst};

use crate::running::root_core;
use fs_core::Core;
use fs_script::Script;
use fs_seq::SeqTree;
use fs_verdict::RunFault;
use std::alloc::Global;

/// Where runs of a script begin: at the root alone, or at a tree.
#[derive(Drop)]
pub enum Origin {
    /// The root alone, by the limits of the script.
    Root,
    /// A tree, which keeps the limits of the script.
    Tree(SeqTree),
}

/// A core at a copy of a tree, on which nothing has begun. The only error is out of memory.
#[tactic(auto, using(fs_names::proofs::LimitLemmas::some_nodes))]
fn tree_core(alloc: Global, tree: &SeqTree) -> Result<Core, RunFault>
    requires within { IsWithinLimits tree.now.limits tree.now.tree }
    requires nodes { length tree.now.tree ≤ node_limit tree.now.limits }
    ensures before { IfOk result (λ core. (threads : ℕ) → IsBefore tree.now threads (before_all (state_of core) threads)) }
    ensures seats { IfOk result (λ core. core.seats ≡ []) }
    ensures fault { IfErr result (λ fault. fault ≡ RunFault.OutOfMemory) }
{
    let Ok(start) = tree.copy() else {
        return Err(RunFault::OutOfMemory);
    };
    match Core::from_tree(alloc, start, tree.limits().nodes()) {
        Ok(core) => {
            core.told();
            Ok(core)
        }
        Err(_) => Err(RunFault::OutOfMemory),
    }
}

impl Origin {
    /// A core there, on which nothing has begun. The only error is out of memory.
    pub(crate) fn core(&self, alloc: Global, script: &Script) -> Result<Core, RunFault>
        requires begins { CanBegin self.now script.now.limits }
        ensures first { IfOk result (λ core. IsFirst self.now script.now (before_all (state_of core) (length script.now.lists))) }
        ensures seats { IfOk result (λ core. core.seats ≡ []) }
        ensures fault { IfErr result (λ fault. fault ≡ RunFault.OutOfMemory) }
    {
        match self {
            Origin::Root => root_core(alloc, script),
            Origin::Tree(tree) => tree_core(alloc, tree),
        }
    }
}
