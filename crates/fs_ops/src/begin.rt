//! How calls begin.

ghost use Rattle.std.specs.Prelude.{ℕ, ◌≡◌, ◌≢◌, ◌≤◌, ◌↔◌, Err, None, IfOk, OnOk, OnErr, IsSome, length, option_map};
ghost use Rattle.fs_names.specs.declared.limits.Limits.{Limits};
ghost use Rattle.fs_nodes.specs.Seen.{seen};
ghost use Rattle.fs_nodes.specs.Stores.{graph_of, in_use, new_shape};
ghost use Rattle.fs_calls.specs.Forms.{reserves, reserved_by};
ghost use Rattle.fs_calls.specs.code.Targets.{form_of};
ghost use Rattle.fs_machine.specs.Moves.{target};
ghost use Rattle.fs_names.specs.Keys.{parent_of};
ghost use Rattle.fs_names.specs.Parts.{common};
ghost use Rattle.fs_ops.specs.code.Reservations.{HasReserved};
ghost use Rattle.fs_machine.specs.OpValues.{BegunAs, new_value};

use crate::end::give_back;
use crate::prepared::Prepared;
use fs_calls::{Call, Target};
use fs_memory::Memory;
use fs_names::{Kind, Limits, PATH_LIMIT, Path};
use fs_nodes::{NoNode, NodeNo, Store};
use fs_ops_effects::entries::kind_of;
use fs_ops_effects::room::Room;
use std::alloc::{AllocError, Global};

/// The kind of node that a call reserves a number for.
fn new_kind(aim: Target<'_>) -> Option<Kind>
    ensures { (limits : Limits) → option_map new_shape result ≡ reserves (form_of limits aim.entry) }
{
    match aim {
        Target::Entry(entry, path) if !path.is_empty() => kind_of(entry),
        Target::Entry(_, _) | Target::Node(_, _) | Target::Pair(_, _, _) => None,
    }
}

/// How many names the parents of two paths have in common.
fn common_len(path: &Path, other: &Path) -> usize
    ensures len { result ≡ length (common (parent_of path.now) (parent_of other.now)) }
    ensures most { result ≤ PATH_LIMIT }
{
    path.common(other)
        .min(path.parent_len())
        .min(other.parent_len())
}

/// How many names lead to the target of a call.
pub(crate) fn target_len(aim: Target<'_>) -> usize
    ensures len { (limits : Limits) → result ≡ length (target (form_of limits aim.entry)) }
    ensures most { result ≤ PATH_LIMIT }
{
    match aim {
        Target::Node(_, path) => path.len(),
        Target::Entry(_, path) => path.parent_len(),
        Target::Pair(_, path, other) => common_len(path, other),
    }
}

/// Reserves a number for the node that a call may add, if it may.
fn reserve_for(
    memory: &mut Memory,
    call: &Call,
    store: &mut Store,
) -> Result<Option<NodeNo>, NoNode>
    ensures ok { IfOk result (λ number. HasReserved (graph_of store.old) (seen store.old).limit (reserved_by call.now) number (graph_of store.new)) }
    ensures full { (result ≡ Err NoNode.Full) ↔ (IsSome (reserved_by call.now) × (in_use store.old ≡ (seen store.old).limit)) }
    ensures err { OnErr result (graph_of store.new ≡ graph_of store.old) }
    ensures rest { seen store.new ≡ record (seen store.old) { graph = graph_of store.new; room = (seen store.new).room } }
    ensures room { (seen store.old).room ≤ (seen store.new).room }
    ensures granted { result ≢ Err NoNode.OutOfMemory → memory.new ≡ memory.old }
    ensures refused { result ≡ Err NoNode.OutOfMemory → memory.new ≢ memory.old }
{
    match new_kind(call.target()) {
        Some(kind) => Ok(Some(store.reserve_counted(memory, kind)?)),
        None => Ok(None),
    }
}

/// A call with its reserved number and all memory that it needs to its end.
fn prepare(
    alloc: Global,
    memory: &mut Memory,
    call: &Call,
    reserved: &Option<NodeNo>,
    limits: Limits,
) -> Result<Prepared, AllocError>
    ensures ok { IfOk result (λ prepared. prepared ≡ new_value limits call.now reserved.now) }
    ensures granted { OnOk result (memory.new ≡ memory.old) }
    ensures refused { OnErr result (memory.new ≢ memory.old) }
{
    let room = Room::new(alloc, memory, limits.in_blocks(), limits, call)?;
    let copy = call.copy_counted(memory)?;
    Ok(Prepared {
        call: copy,
        limits,
        reserved: *reserved,
        room,
    })
}

impl Prepared {
    /// Prepares a call on a tree of these limits. It allocates all that the call needs. A call that may add a node reserves a
    /// number for it: `Full` comes exactly where it cannot, and is looked at before memory. After an error the graph is as
    /// before. Want of memory is counted.
    pub fn new(
        alloc: Global,
        memory: &mut Memory,
        call: &Call,
        store: &mut Store,
        limits: Limits,
    ) -> Result<Prepared, NoNode>
        ensures ok { IfOk result (λ prepared. BegunAs (graph_of store.old) (seen store.old).limit limits call.now (reserved_by call.now) prepared (graph_of store.new)) }
        ensures full { (result ≡ Err NoNode.Full) ↔ (IsSome (reserved_by call.now) × (in_use store.old ≡ (seen store.old).limit)) }
        ensures err { OnErr result (graph_of store.new ≡ graph_of store.old) }
        ensures rest { seen store.new ≡ record (seen store.old) { graph = graph_of store.new; room = (seen store.new).room } }
        ensures room { (seen store.old).room ≤ (seen store.new).room }
        ensures granted { result ≢ Err NoNode.OutOfMemory → memory.new ≡ memory.old }
        ensures refused { result ≡ Err NoNode.OutOfMemory → memory.new ≢ memory.old }
    {
        let reserved = reserve_for(memory, call, store)?;
        match prepare(alloc, memory, call, &reserved, limits) {
            Ok(prepared) => Ok(prepared),
            Err(_) => {
                give_back(store, reserved);
                Err(NoNode::OutOfMemory)
            }
        }
    }
}
