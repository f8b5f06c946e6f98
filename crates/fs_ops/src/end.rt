//! How calls end.

ghost use Rattle.std.specs.Prelude.{◌≡◌, Some, IsSome};
ghost use Rattle.fs_nodes.specs.Seen.{seen};
ghost use Rattle.fs_nodes.specs.Stores.{graph_of};
ghost use Rattle.fs_machine.specs.Leaving.{unreserved};
ghost use Rattle.fs_machine.specs.OpValues.{SpareIf};

use crate::op::Op;
use crate::outcome::Outcome;
use fs_calls::Reply;
use fs_nodes::{NodeNo, Store};

/// A number that a call reserved and did not use leaves the store.
pub fn give_back(store: &mut Store, reserved: Option<NodeNo>)
    requires { SpareIf (graph_of store.old) reserved }
    ensures { seen store.new ≡ record (seen store.old) { graph = unreserved reserved (graph_of store.old) } }
{
    if let Some(node) = reserved {
        store.release(node);
    }
}

impl Op {
    /// The two equal replies of a finished call. A reserved number that it did not use leaves the store.
    pub fn end(self, store: &mut Store) -> (Reply, Reply)
        requires fixed { IsSome self.reply }
        requires spare { SpareIf (graph_of store.old) self.reserved }
        ensures one { self.reply ≡ Some result.0 }
        ensures two { self.reply ≡ Some result.1 }
        ensures change { seen store.new ≡ record (seen store.old) { graph = unreserved self.reserved (graph_of store.old) } }
    {
        let Op {
            outcome,
            reserved,
            ..
        } = self;
        give_back(store, reserved);
        match outcome {
            Outcome::Fixed(replies, _) => replies.into_pair(),
            Outcome::Open(_) => unreachable!(),
        }
    }
}
