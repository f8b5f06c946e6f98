//! A pending call on a seat, and its changes.

ghost use Rattle.std.specs.Prelude.{◌≡◌, ℕ, true, None, Some, IsSome};
ghost use Rattle.fs_names.specs.Limits.{in_blocks};
ghost use Rattle.fs_calls.specs.Forms.{by_paths};
ghost use Rattle.fs_nodes.specs.Seen.{seen};
ghost use Rattle.fs_nodes.specs.Stores.{graph_of};
ghost use Rattle.fs_machine.specs.Leaving.{is_removed, releasing};
ghost use Rattle.fs_machine.specs.OpValues.{IsTook, IsLetGo, IsFinished, IsSpare, CanFinish, graph_after};
ghost use Rattle.fs_ops.specs.PlanOf.{IsPlan};
ghost use Rattle.fs_core_seats.specs.Seats.{number_of};
ghost use Rattle.fs_core_seats.specs.code.Changes.{Goes, placed};
ghost use Rattle.fs_core_seats.specs.declared.seat.Running.{Running};

use fs_names::CallNo;
use fs_nodes::{NodeNo, Store};
use fs_ops::Op;
use fs_ops_effects::Plan;

/// A pending call: its number, and how far it is. If another call committed it, also how many commits come before its
/// own.
#[derive(Drop)]
pub struct Running {
    pub call: CallNo,
    pub place: Option<u64>,
    pub op: Op,
}

/// The number of the call on a seat.
pub fn number(slot: &Option<Running>) -> Option<CallNo>
    ensures { result ≡ number_of slot.now }
{
    match slot {
        Some(running) => Some(running.call),
        None => None,
    }
}

/// The call on a seat notes that it took a node.
pub fn take(slot: &mut Option<Running>, node: NodeNo)
    requires { (r : Running) → slot.old ≡ Some r → r.op.reply ≡ None }
    ensures { Goes (λ old new. IsTook old node new) slot.old slot.new }
{
    if let Some(running) = slot {
        running.op.took(node);
    }
}

/// The call on a seat notes that it let a node go, and releases it where it removed it.
pub fn let_go(slot: &mut Option<Running>, node: NodeNo, store: &mut Store)
    requires spare { (r : Running) → slot.old ≡ Some r → is_removed r.op.removed node ≡ true → IsSpare (graph_of store.old) node }
    ensures slot { Goes (λ old new. IsLetGo old node new) slot.old slot.new }
    ensures graph { (r : Running) → slot.old ≡ Some r → graph_of store.new ≡ releasing (is_removed r.op.removed node) node (graph_of store.old) }
    ensures rest { seen store.new ≡ record (seen store.old) { graph = graph_of store.new } }
{
    if let Some(running) = slot {
        running.op.let_go(node, store);
    }
}

/// The call on a seat does what its finish is, and fixes its reply.
pub fn carry_out(slot: &mut Option<Running>, plan: Plan, store: &mut Store)
    requires form { (r : Running) → slot.old ≡ Some r → (seen store.old).in_blocks ≡ in_blocks r.op.limits }
    requires unfinished { (r : Running) → slot.old ≡ Some r → r.op.reply ≡ None }
    requires can { (r : Running) → slot.old ≡ Some r → CanFinish (graph_of store.old) r.op.reserved r.op.remaining r.op.holdings }
    requires plan { (r : Running) → slot.old ≡ Some r → IsPlan (seen store.old) r.op plan }
    ensures slot { Goes (λ old new. IsFinished (graph_of store.old) old new) slot.old slot.new }
    ensures graph { (r : Running) → slot.old ≡ Some r → graph_of store.new ≡ graph_after (graph_of store.old) r.op }
    ensures rest { seen store.new ≡ record (seen store.old) { graph = graph_of store.new } }
{
    if let Some(running) = slot {
        running.op.carry_out(plan, store);
    }
}

/// The call on a seat gets its place, after this many commits; its number.
pub fn give_place(slot: &mut Option<Running>, commits: u64) -> CallNo
    requires { IsSome slot.old }
    ensures slot { slot.new ≡ placed slot.old commits }
    ensures call { number_of slot.old ≡ Some result }
{
    let running = slot.as_mut().unwrap();
    running.place = Some(commits);
    running.call
}

/// A call begins on a seat.
pub fn put(slot: &mut Option<Running>, running: Running)
    ensures { slot.new ≡ Some running }
{
    *slot = Some(running);
}

/// A call that begins is noted as one that goes for the root, unless its paths decide it.
pub fn start(starting: &mut Option<CallNo>, call: CallNo, op: &Op)
    ensures { (c : ℕ) → starting.new ≡ Some c → (c ≡ call) × (by_paths op.now.call ≡ None) }
{
    *starting = if op.is_decided() { None } else { Some(call) };
}

/// The call on a seat leaves it.
pub fn take_out(slot: &mut Option<Running>) -> Running
    requires { IsSome slot.old }
    ensures slot { slot.new ≡ None }
    ensures running { slot.old ≡ Some result }
{
    slot.take().unwrap()
}
