//! A call is carried out.

ghost use Rattle.std.specs.Prelude.{◌≡◌, None};
ghost use Rattle.fs_names.specs.Limits.{in_blocks};
ghost use Rattle.fs_nodes.specs.Seen.{seen};
ghost use Rattle.fs_nodes.specs.Stores.{graph_of};
ghost use Rattle.fs_machine.specs.OpValues.{CanFinish, IsFinished, graph_after};
ghost use Rattle.fs_ops.specs.PlanOf.{IsPlan};

use crate::op::Op;
use crate::outcome::Outcome;
use fs_nodes::Store;
use fs_ops_effects::carrying::carry_out;
use fs_ops_effects::plan::Plan;
use fs_ops_effects::room::Room;

/// The room that was prepared for a finish.
fn take_room(outcome: &mut Outcome) -> Room
    ensures { (prepared : Room) → outcome.old ≡ Outcome.Open prepared → result ≡ prepared }
{
    match outcome {
        Outcome::Open(prepared) => std::mem::replace(prepared, Room::Nothing),
        Outcome::Fixed(_, _) => Room::Nothing,
    }
}

impl Op {
    /// Does what the call's finish is in this store, as `next` found it, and fixes its reply; an error changes nothing. The files of
    /// the store are in blocks where the call's limits say so. The buffers that it needs were allocated by `begin`.
    pub fn carry_out(&mut self, plan: Plan, store: &mut Store)
        requires form { (seen store.old).in_blocks ≡ in_blocks self.old.limits }
        requires unfinished { self.old.reply ≡ None }
        requires can { CanFinish (graph_of store.old) self.old.reserved self.old.remaining self.old.holdings }
        requires plan { IsPlan (seen store.old) self.old plan }
        ensures op { IsFinished (graph_of store.old) self.old self.new }
        ensures limits { self.new.limits ≡ self.old.limits }
        ensures change { seen store.new ≡ record (seen store.old) { graph = graph_after (graph_of store.old) self.old } }
    {
        let prepared = take_room(&mut self.outcome);
        let route = self.stand.route();
        let done = carry_out(
            self.call.target(),
            plan,
            route,
            self.reserved,
            self.limits,
            prepared,
            store,
        );
        self.reserved = done.reserved;
        self.removed = done.removed;
        self.outcome = Outcome::Fixed(done.replies, self.stand.held());
    }
}
