//! Where a call is.

ghost use Rattle.std.specs.Prelude.{◌≡◌, ◌<◌, ◌++◌, length, option_to_list};
ghost use Rattle.fs_locks.specs.declared.held.TheConstants.{HELD_LIMIT};
ghost use Rattle.fs_ops.specs.code.NextByNodes.{route_by};
ghost use Rattle.fs_ops.specs.code.TakeAndLetGo.{all_held};

use fs_locks::Held;
use fs_nodes::NodeNo;
use fs_ops_effects::plan::Route;
use fs_walk::{Fork, Walk};

/// Where a call is: its walk, then the heads of a call on two entries, and a victim.
#[derive(Drop)]
pub struct Stand {
    /// The walk to its target.
    pub walk: Walk,
    /// The heads of a call on two entries, where one of them has set out from the target.
    pub fork: Option<Fork>,
    /// The node that the call took so as to remove it.
    pub victim: Option<NodeNo>,
}

/// A node is held too, if there is one.
fn push_some(held: &mut Held, node: Option<NodeNo>)
    requires { length held.old < HELD_LIMIT }
    ensures { held.new ≡ held.old ++ option_to_list node }
{
    if let Some(node) = node {
        held.push(node);
    }
}

impl Stand {
    /// What a call that finishes holds: the node of its walk, those of the heads that have set out, and a victim.
    pub fn held(&self) -> Held
        ensures { result ≡ all_held self.now.walk.node self.now.fork self.now.victim }
    {
        let mut held = Held::new();
        if let Some(node) = self.walk.node() {
            held.push(node);
            if let Some(heads) = &self.fork {
                push_some(&mut held, heads.source().held());
                push_some(&mut held, heads.dest().held());
            }
            push_some(&mut held, self.victim);
        }
        held
    }

    /// The route of a call on two entries, from where its heads are, or else its walk; of another call it means nothing.
    pub fn route(&self) -> Route
        ensures { result ≡ route_by self.now.walk.node self.now.fork self.now.victim }
    {
        let (source, dest) = match (&self.fork, self.walk.node()) {
            (Some(heads), _) => (heads.source().node, heads.dest().node),
            (None, Some(node)) => (node, node),
            (None, None) => (NodeNo::ROOT, NodeNo::ROOT),
        };
        Route {
            source,
            dest,
            victim: self.victim,
        }
    }
}
