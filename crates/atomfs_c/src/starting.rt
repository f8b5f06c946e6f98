//! The exports that open a handle at a tree: one that is read from a text, or the one that another handle has now.

ghost use Rattle.std.specs.Prelude.{◌≡◌, ◌≢◌, ◌<◌, ◌≤◌, ◌⊎◌, ◌↔◌, None, Some, Ok, Err, IsSome, IsSomeAnd, length};
ghost use Rattle.fs_names.specs.Limits.{node_limit};
ghost use Rattle.fs_calls.specs.Outcomes.{next_start, play};
ghost use Rattle.fs_calls.specs.Starts.{Start};
ghost use Rattle.fs_core.specs.Checkpoints.{IsWhyNot};
ghost use Rattle.fs_seq.specs.Rows.{IsWithinLimits};
ghost use Rattle.fs_timeline.specs.Timeline.{commits};
ghost use Rattle.fs_script.specs.Journals.{start_of};
ghost use Rattle.fs_embed.specs.Statuses.{IsRefusal, IsToldWhyNot, fault_status};
ghost use Rattle.atomfs_c.specs.Exports.{IsNotToOpen, IsOpenedAt, IsToldStart, limits_of, most_at};
ghost use Rattle.fs_embed.specs.declared.numbered.TheConstants.{KEEP_ALL};

use crate::handles::{Handle, give, not_to_open, put, take};
use fs_core::{Core, NoCheckpoint, NoStart};
use fs_embed::numbered::limits_of;
use fs_embed::status::{
    BAD_LIMIT, BAD_VERSION, CLOSED, FULL, NO_MEMORY, OK, UNDER_WAY, fault_status,
};
use fs_embed::tell_why_not;
use fs_names::NODE_LIMIT;
use fs_script::read_start;
use fs_seq::SeqTree;
use std::alloc::Global;

/// Gives a closed handle a core that begins at a tree, which has at most `limit` nodes.
fn open_at(alloc: Global, handle: &mut Handle, start: SeqTree, limit: usize) -> u8
    requires least { 1 ≤ limit }
    requires most { limit ≤ node_limit start.limits }
    requires within { IsWithinLimits start.limits start.tree }
    ensures opened { result ≡ OK → IsSomeAnd handle.new.held.core (IsOpenedAt start limit) }
    ensures full { result ≡ FULL → limit < length start.tree }
    ensures only { (result ≡ OK) ⊎ (result ≡ FULL) ⊎ (result ≡ NO_MEMORY) }
    ensures keeps_all { result ≡ OK → handle.new.most ≡ KEEP_ALL }
    ensures refused { result ≢ OK → (handle.new.held.core ≡ handle.old.held.core) × (handle.new.most ≡ handle.old.most) }
{
    match Core::from_tree(alloc, start, limit) {
        Ok(core) => give(alloc, handle, core),
        Err(NoStart::TooManyNodes) => FULL,
        Err(_) => NO_MEMORY,
    }
}

/// Opens a closed handle, for at most `limit` nodes, at the tree of a text or the start of a journal, with its limits.
/// It reports the line of a fault.
#[unsafe(no_mangle)]
pub extern "C" fn atomfs_open_from(
    alloc: Global,
    handle: &mut Handle,
    limit: usize,
    version: u8,
    text: &[u8],
    line: &mut usize,
) -> u8
    ensures version { (result ≡ BAD_VERSION) ↔ (limits_of version ≡ None) }
    ensures opened { result ≡ OK → (handle.old.held.core ≡ None) × IsSomeAnd (limits_of version) (λ limits. (start : Start) × (start_of limits text.now ≡ Ok start) × IsSomeAnd handle.new.held.core (IsOpenedAt start limit)) }
    ensures told { result ≢ OK → result ≢ BAD_VERSION → IsSomeAnd (limits_of version) (λ limits. IsToldStart (start_of limits text.now) handle.old.held.core (node_limit limits) limit result line.new) }
    ensures keeps_all { result ≡ OK → handle.new.most ≡ KEEP_ALL }
    ensures refused { result ≢ OK → (CLOSED < result) × (handle.new.held.core ≡ handle.old.held.core) × (handle.new.most ≡ handle.old.most) }
{
    let Some(limits) = limits_of(version) else {
        return BAD_VERSION;
    };
    if let Some(status) = not_to_open(handle, limit, limits.nodes()) {
        return status;
    }
    match read_start(alloc, text, limits) {
        Ok(start) => open_at(alloc, handle, start, limit),
        Err(fault) => {
            *line = fault.line as usize;
            fault_status(fault.kind)
        }
    }
}

/// Opens a closed handle at the tree of another one, with its limits. The other handle stays, and may have no pending
/// call.
#[unsafe(no_mangle)]
#[tactic(auto, using(fs_names::proofs::LimitLemmas::nodes_have_room))]
pub extern "C" fn atomfs_open_at(
    alloc: Global,
    handle: &mut Handle,
    limit: usize,
    other: &mut Handle,
    number: &mut u64,
) -> u8
    ensures opened { result ≡ OK → (handle.old.held.core ≡ None) × IsSomeAnd other.old.held.core (λ core. IsSomeAnd handle.new.held.core (IsOpenedAt (next_start core.start (commits core.timeline)) limit)) }
    ensures keeps_all { result ≡ OK → handle.new.most ≡ KEEP_ALL }
    ensures refused { result ≢ OK → (CLOSED ≤ result) × (handle.new.held.core ≡ handle.old.held.core) × (handle.new.most ≡ handle.old.most) }
    ensures other { (other.new.held.core ≡ other.old.held.core) × (other.new.most ≡ other.old.most) }
    ensures closed { result ≡ CLOSED → other.old.held.core ≡ None }
    ensures under_way { result ≡ UNDER_WAY → IsSomeAnd other.old.held.core (λ core. IsWhyNot core (NoCheckpoint.UnderWay number.new)) }
    ensures full { result ≡ FULL → IsSomeAnd other.old.held.core (λ core. limit < length (play core.start (commits core.timeline))) }
    ensures only { IsNotToOpen handle.old.held.core (most_at other.old.held.core) limit result ⊎ (result ≡ OK) ⊎ (result ≡ CLOSED) ⊎ (result ≡ UNDER_WAY) ⊎ (result ≡ FULL) ⊎ (result ≡ NO_MEMORY) }
{
    if let Some(status) = not_to_open(handle, limit, NODE_LIMIT) {
        return status;
    }
    let Some(core) = take(alloc, other) else {
        return CLOSED;
    };
    if limit > core.start().limits().nodes() {
        put(other, core);
        return BAD_LIMIT;
    }
    let prepared = core.prepare(alloc);
    put(other, core);
    match prepared {
        Ok(start) => open_at(alloc, handle, start, limit),
        Err(why) => tell_why_not(&why, number),
    }
}
