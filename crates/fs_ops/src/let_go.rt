//! A call lets a node go.

ghost use Rattle.std.specs.Prelude.{◌≡◌, None, true};
ghost use Rattle.fs_nodes.specs.Seen.{seen};
ghost use Rattle.fs_nodes.specs.Stores.{graph_of};
ghost use Rattle.fs_machine.specs.Leaving.{is_removed, releasing, cleared};
ghost use Rattle.fs_ops.specs.code.TakeAndLetGo.{way_freed, way_let_go, fork_let_go};
ghost use Rattle.fs_machine.specs.OpValues.{IsSpare, IsLetGo};

use crate::op::Op;
use crate::outcome::Outcome;
use crate::stand::Stand;
use fs_nodes::{NodeNo, Store};
use fs_walk::{Fork, Walk};

/// The node that a call removed leaves the store when the call lets it go.
fn release_removed(removed: &mut Option<NodeNo>, node: NodeNo, store: &mut Store)
    requires { is_removed removed.old node ≡ true → IsSpare (graph_of store.old) node }
    ensures removed { removed.new ≡ cleared (is_removed removed.old node) removed.old }
    ensures change { seen store.new ≡ record (seen store.old) { graph = releasing (is_removed removed.old node) node (graph_of store.old) } }
{
    if *removed == Some(node) {
        store.release(node);
        *removed = None;
    }
}

/// A walk lets go of the node that it left.
fn free_walk(walk: &mut Walk)
    ensures { walk.new ≡ way_freed walk.old }
{
    if let Some(behind) = walk.behind() {
        walk.let_go(behind);
    }
}

/// The heads let go of the node that they left.
fn free_heads(heads: &mut Fork)
    ensures { heads.new ≡ record heads.old { behind = None } }
{
    if let Some(behind) = heads.behind() {
        heads.let_go(behind);
    }
}

/// Lets go of the node that was left.
fn free_behind(stand: &mut Stand)
    ensures walk { stand.new.walk ≡ way_let_go stand.old.fork stand.old.walk }
    ensures fork { stand.new.fork ≡ fork_let_go stand.old.fork }
    ensures victim { stand.new.victim ≡ stand.old.victim }
{
    match &mut stand.fork {
        Some(heads) => free_heads(heads),
        None => free_walk(&mut stand.walk),
    }
}

impl Op {
    /// It has let go of a node. That is the one that its walk or its heads left, or, once its reply is fixed, the one
    /// taken last. A node that it removed leaves the store.
    pub fn let_go(&mut self, node: NodeNo, store: &mut Store)
        requires spare { is_removed self.old.removed node ≡ true → IsSpare (graph_of store.old) node }
        ensures op { IsLetGo self.old node self.new }
        ensures limits { self.new.limits ≡ self.old.limits }
        ensures change { seen store.new ≡ record (seen store.old) { graph = releasing (is_removed self.old.removed node) node (graph_of store.old) } }
    {
        release_removed(&mut self.removed, node, store);
        match &mut self.outcome {
            Outcome::Fixed(_, held) => {
                held.pop();
            }
            Outcome::Open(_) => free_behind(&mut self.stand),
        }
    }
}
