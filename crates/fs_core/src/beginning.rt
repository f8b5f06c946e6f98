//! What a begin allocates, so that no step needs memory.

ghost use Rattle.std.specs.Prelude.{◌≡◌, ◌≢◌, ◌+◌, ◌<◌, ◌≤◌, ◌↔◌, IfOk, IfSome, OnOk, OnErr, IsSome, Err};
ghost use Rattle.fs_names.specs.declared.limits.TheConstants.{NODE_LIMIT};
ghost use Rattle.fs_nodes.specs.Graphs.{IsGraph};
ghost use Rattle.fs_nodes.specs.Seen.{seen};
ghost use Rattle.fs_nodes.specs.Stores.{graph_of, in_use};
ghost use Rattle.fs_locks.specs.Holding.{holder, room};
ghost use Rattle.fs_locks.specs.declared.word.TheConstants.{CALL_LIMIT};
ghost use Rattle.fs_calls.specs.Forms.{reserved_by};
ghost use Rattle.fs_timeline.specs.Timeline.{begins};
ghost use Rattle.fs_machine.specs.OpValues.{BegunAs};
ghost use Rattle.fs_core.specs.Events.{HasRoom};
ghost use Rattle.fs_machine.specs.declared.answers.Refusal.TheVariants as refusals;

use fs_calls::Call;
use fs_locks::Holders;
use fs_machine::Refusal;
use fs_memory::Memory;
use fs_names::Limits;
use fs_nodes::{NoNode, NodeNo, Store};
use fs_ops::Prepared;
use fs_timeline::IndexedTimeline;
use std::alloc::{AllocError, Global};

/// How many entries a call appends: it begins, commits and returns.
const ENTRIES_OF_A_CALL: usize = 3;

/// A call that is ready to begin, its number, and its copy for the timeline.
#[derive(Drop)]
pub struct Ready {
    pub op: Prepared,
    pub number: u64,
    pub copy: Call,
}

/// Makes room for the holder of a reserved number.
fn make_room(
    memory: &mut Memory,
    holders: &mut Holders,
    reserved: Option<NodeNo>,
) -> Result<(), AllocError>
    requires { IfSome reserved (λ node. node < NODE_LIMIT) }
    ensures within { OnOk result (HasRoom reserved holders.new) }
    ensures holders { holder holders.new ≡ holder holders.old }
    ensures more { room holders.old ≤ room holders.new }
    ensures granted { OnOk result (memory.new ≡ memory.old) }
    ensures refused { OnErr result (memory.new ≢ memory.old) }
{
    let Some(node) = reserved else {
        return Ok(());
    };
    holders.make_room_counted(memory, node.get() + 1)
}

/// The next call's number and its copy, with room for the holder of its reserved number and for its entries.
fn make_places(
    memory: &mut Memory,
    call: &Call,
    reserved: Option<NodeNo>,
    holders: &mut Holders,
    timeline: &mut IndexedTimeline,
    begun: u64,
) -> Result<(u64, Call), AllocError>
    requires reserved { IfSome reserved (λ node. node < NODE_LIMIT) }
    requires begun { begun ≡ begins timeline.old.entries }
    ensures number { IfOk result (λ places. places.0 ≡ begun + 1) }
    ensures few { IfOk result (λ places. places.0 < CALL_LIMIT) }
    ensures copy { IfOk result (λ places. places.1 ≡ call.now) }
    ensures within { OnOk result (HasRoom reserved holders.new) }
    ensures places { OnOk result (timeline.new ≡ record timeline.old { reserved = timeline.old.reserved + 3 }) }
    ensures holders { holder holders.new ≡ holder holders.old }
    ensures more { room holders.old ≤ room holders.new }
    ensures err { OnErr result (timeline.new ≡ timeline.old) }
    ensures granted { OnOk result (memory.new ≡ memory.old) }
    ensures refused { OnErr result (memory.new ≢ memory.old) }
{
    // The second copy of the call, for its Begin entry: the first is in its record. Both are made here, so that its commit
    // and its return, which append a number or a reply that is there, copy nothing.
    let copy = call.copy_counted(memory)?;
    make_room(memory, holders, reserved)?;
    timeline.make_places(memory, ENTRIES_OF_A_CALL)?;

    // Each begin has its entry, and a vector has fewer than 2^63, so the number is one that can hold a node.
    Ok((begun + 1, copy))
}

/// All that a call can need from its begin on, on a tree of these limits. After a refusal the nodes, the holders and the timeline
/// are as before: `Full` comes exactly where the call reserves a number and all are in use, `OutOfMemory` exactly where memory was
/// refused.
pub fn make_ready(
    alloc: Global,
    memory: &mut Memory,
    call: &Call,
    store: &mut Store,
    holders: &mut Holders,
    timeline: &mut IndexedTimeline,
    begun: u64,
    limits: Limits,
) -> Result<Ready, Refusal>
    requires graph { IsGraph (graph_of store.old) }
    requires limit { (seen store.old).limit ≤ NODE_LIMIT }
    requires begun { begun ≡ begins timeline.old.entries }
    ensures op { IfOk result (λ ready. BegunAs (graph_of store.old) (seen store.old).limit limits call.now (reserved_by call.now) ready.op (graph_of store.new)) }
    ensures number { IfOk result (λ ready. ready.number ≡ begun + 1) }
    ensures few { IfOk result (λ ready. ready.number < CALL_LIMIT) }
    ensures copy { IfOk result (λ ready. ready.copy ≡ call.now) }
    ensures within { IfOk result (λ ready. HasRoom ready.op.reserved holders.new) }
    ensures places { OnOk result (timeline.new ≡ record timeline.old { reserved = timeline.old.reserved + 3 }) }
    ensures full { (result ≡ Err refusals.Full) ↔ (IsSome (reserved_by call.now) × (in_use store.old ≡ (seen store.old).limit)) }
    ensures seat { result ≢ Err refusals.SeatBusy }
    ensures graph { OnErr result (graph_of store.new ≡ graph_of store.old) }
    ensures timeline { OnErr result (timeline.new ≡ timeline.old) }
    ensures rest { seen store.new ≡ record (seen store.old) { graph = graph_of store.new; room = (seen store.new).room } }
    ensures holders { holder holders.new ≡ holder holders.old }
    ensures more { room holders.old ≤ room holders.new }
    ensures granted { result ≢ Err refusals.OutOfMemory → memory.new ≡ memory.old }
    ensures refused { result ≡ Err refusals.OutOfMemory → memory.new ≢ memory.old }
{
    let op = match Prepared::new(alloc, memory, call, store, limits) {
        Ok(op) => op,
        Err(NoNode::Full) => return Err(Refusal::Full),
        Err(NoNode::OutOfMemory) => return Err(Refusal::OutOfMemory),
    };
    match make_places(memory, call, op.reserved(), holders, timeline, begun) {
        Ok((number, copy)) => Ok(Ready { op, number, copy }),
        Err(_) => {
            op.cancel(store);
            Err(Refusal::OutOfMemory)
        }
    }
}
