//! A call in one value from its begin on, for a caller that needs no room in between.
//!
//! Such a caller opens each call that it prepares at once, and keeps none that waits to set out. `fs_core` prepares and
//! opens apart, since what is prepared is a third of the size; no run uses this module.

ghost use Rattle.std.specs.Prelude.{◌≡◌, ◌≤◌, ◌↔◌, Err, None, IfOk, OnErr, IsSome};
ghost use Rattle.fs_nodes.specs.Seen.{seen};
ghost use Rattle.fs_nodes.specs.Stores.{graph_of, in_use};
ghost use Rattle.fs_calls.specs.Forms.{reserved_by};
ghost use Rattle.fs_machine.specs.Leaving.{unreserved};
ghost use Rattle.fs_machine.specs.OpValues.{BegunAs, SpareIf};

use crate::end::give_back;
use crate::op::Op;
use crate::prepared::Prepared;
use fs_calls::Call;
use fs_memory::Memory;
use fs_names::Limits;
use fs_nodes::{NoNode, Store};
use std::alloc::Global;

impl Op {
    /// Begins a call on a tree of these limits. It allocates all that the call needs. A call that may add a node reserves a number for it: `Full` comes
    /// exactly where it cannot, and is looked at before memory. After an error the graph is as before.
    pub fn begin(
        alloc: Global,
        call: &Call,
        store: &mut Store,
        limits: Limits,
    ) -> Result<Op, NoNode>
        ensures ok { IfOk result (λ op. BegunAs (graph_of store.old) (seen store.old).limit limits call.now (reserved_by call.now) op (graph_of store.new)) }
        ensures full { (result ≡ Err NoNode.Full) ↔ (IsSome (reserved_by call.now) × (in_use store.old ≡ (seen store.old).limit)) }
        ensures err { OnErr result (graph_of store.new ≡ graph_of store.old) }
        ensures rest { seen store.new ≡ record (seen store.old) { graph = graph_of store.new; room = (seen store.new).room } }
        ensures room { (seen store.old).room ≤ (seen store.new).room }
    {
        match Prepared::new(alloc, &mut Memory::new(), call, store, limits) {
            Ok(prepared) => Ok(prepared.open()),
            Err(refusal) => Err(refusal),
        }
    }

    /// Undoes a begin: a call that has taken nothing gives its reserved number back.
    pub fn cancel(self, store: &mut Store)
        requires spare { SpareIf (graph_of store.old) self.reserved }
        requires start { self.holdings ≡ None }
        ensures { seen store.new ≡ record (seen store.old) { graph = unreserved self.reserved (graph_of store.old) } }
    {
        give_back(store, self.reserved());
    }
}
