//! Handles of C's, and the exports that open and close them.

ghost use Rattle.std.specs.Prelude.{◌≡◌, ◌≢◌, ◌<◌, ◌≤◌, ◌++◌, ◌∷◌, [], ◌⊎◌, ◌↔◌, Some, None, is_some, IsSome, IsSomeAnd, MatchOption, length};
ghost use Rattle.fs_names.specs.Limits.{node_limit};
ghost use Rattle.fs_names.specs.declared.limits.Limits.TheVariants as Limits;
ghost use Rattle.fs_core.specs.CoreValues.{state_of};
ghost use Rattle.fs_embed.specs.Statuses.{IsOfOpen};
ghost use Rattle.fs_embed.specs.declared.numbered.TheConstants.{KEEP_ALL};
ghost use Rattle.atomfs_c.specs.Exports.{IsNotToOpen, IsOpened, limits_of, Goes, ToldIfClosed, IsLawful, IsSpelled};

use crate::held::Held;
use crate::parts::Parts;
use fs_core::Core;
use fs_embed::numbered::{KEEP_ALL, limits_of};
use fs_embed::status::{ALREADY_OPEN, BAD_LIMIT, BAD_VERSION, CLOSED, NO_MEMORY, OK};
use fs_names::Limits;
use std::alloc::Global;
use std::mem;

/// A handle: whether it is open, how many calls its core keeps, and the core, where it is open.
#[repr(C)]
#[derive(Drop)]
pub struct Handle {
    is_open: bool,
    pub most: u32,
    pub held: Held,
    ghost told: { is_open ≡ is_some held.core },
}

/// A closed handle.
fn closed(alloc: Global, most: u32) -> Handle
    ensures core { result.held.core ≡ None }
    ensures keeps { result.most ≡ most }
{
    Handle {
        is_open: false,
        most,
        held: Held::closed(alloc),
    }
}

/// Takes the core out of a handle, which is closed then; `None` where it was closed before.
pub fn take(alloc: Global, handle: &mut Handle) -> Option<Box<Core>>
    ensures core { MatchOption result (handle.old.held.core ≡ None) (λ core. handle.old.held.core ≡ Some core.value) }
    ensures closed { handle.new.held.core ≡ None }
    ensures keeps { handle.new.most ≡ handle.old.most }
{
    if !handle.is_open {
        return None;
    }
    let most = handle.most;
    let Handle { held, .. } = mem::replace(handle, closed(alloc, most));
    Some(held.into_parts().into_box())
}

/// Puts a core into a handle, and proves what every core keeps.
pub fn put(handle: &mut Handle, core: Box<Core>)
    ensures core { handle.new.held.core ≡ Some core.value }
    ensures lawful { IsLawful handle.new.held.core }
    ensures spelled { IsSpelled handle.new.held.core }
    ensures keeps { handle.new.most ≡ handle.old.most }
{
    core.told();
    *handle = Handle {
        is_open: true,
        most: handle.most,
        held: Held::of_parts(Parts::of(core)),
    };
}

/// Gives a closed handle a core, all calls of which are kept.
pub fn give(alloc: Global, handle: &mut Handle, core: Core) -> u8
    ensures given { result ≡ OK → handle.new.held.core ≡ Some core }
    ensures only { (result ≡ OK) ⊎ (result ≡ NO_MEMORY) }
    ensures keeps_all { result ≡ OK → handle.new.most ≡ KEEP_ALL }
    ensures refused { result ≢ OK → (handle.new.held.core ≡ handle.old.held.core) × (handle.new.most ≡ handle.old.most) }
{
    match Box::new(alloc, core) {
        Ok(core) => {
            handle.most = KEEP_ALL;
            put(handle, core);
            OK
        }
        Err(_) => NO_MEMORY,
    }
}

/// Why a handle is not opened for `limit` nodes, where a core has `most` at most, before anything else is looked at: it is open,
/// or no core has this limit.
pub fn not_to_open(handle: &Handle, limit: usize, most: usize) -> Option<u8>
    ensures { MatchOption result ((handle.now.held.core ≡ None) × (1 ≤ limit) × (limit ≤ most)) (λ status. IsNotToOpen handle.now.held.core most limit status) }
{
    if handle.is_open {
        return Some(ALREADY_OPEN);
    }
    if limit == 0 || limit > most {
        return Some(BAD_LIMIT);
    }
    None
}

/// Opens a closed handle: a core of no seats and no entries, for at most `limit` nodes, by these limits. All its calls are kept.
fn open(alloc: Global, handle: &mut Handle, limit: usize, limits: Limits) -> u8
    ensures opened { result ≡ OK → (handle.old.held.core ≡ None) × IsSomeAnd handle.new.held.core (IsOpened limits limit) }
    ensures open { IsSome handle.old.held.core → result ≡ ALREADY_OPEN }
    ensures limit { result ≡ BAD_LIMIT → (limit ≡ 0) ⊎ (node_limit limits < limit) }
    ensures version { result ≢ BAD_VERSION }
    ensures only { IsOfOpen result }
    ensures keeps_all { result ≡ OK → handle.new.most ≡ KEEP_ALL }
    ensures refused { result ≢ OK → (CLOSED < result) × (handle.new.held.core ≡ handle.old.held.core) × (handle.new.most ≡ handle.old.most) }
{
    if let Some(status) = not_to_open(handle, limit, limits.nodes()) {
        return status;
    }
    match Core::with_limits(alloc, limit, limits) {
        Ok(core) => give(alloc, handle, core),
        Err(_) => NO_MEMORY,
    }
}

/// Opens a closed handle: a core of no seats and no entries, for at most `limit` nodes, the root included, by the first limits of
/// names and files.
#[unsafe(no_mangle)]
pub extern "C" fn atomfs_open(alloc: Global, handle: &mut Handle, limit: usize) -> u8
    ensures only { IsOfOpen result }
    ensures opened { result ≡ OK → (handle.old.held.core ≡ None) × IsSomeAnd handle.new.held.core (IsOpened Limits.V1 limit) }
    ensures open { IsSome handle.old.held.core → result ≡ ALREADY_OPEN }
    ensures limit { result ≡ BAD_LIMIT → (limit ≡ 0) ⊎ (node_limit Limits.V1 < limit) }
    ensures keeps_all { result ≡ OK → handle.new.most ≡ KEEP_ALL }
    ensures refused { result ≢ OK → (CLOSED < result) × (handle.new.held.core ≡ handle.old.held.core) × (handle.new.most ≡ handle.old.most) }
{
    open(alloc, handle, limit, Limits::V1)
}

/// The same by the limits that have a version, 1, 2 or 3.
#[unsafe(no_mangle)]
pub extern "C" fn atomfs_open_with(
    alloc: Global,
    handle: &mut Handle,
    limit: usize,
    version: u8,
) -> u8
    ensures opened { result ≡ OK → (handle.old.held.core ≡ None) × IsSomeAnd handle.new.held.core (λ core. IsSomeAnd (limits_of version) (λ limits. IsOpened limits limit core)) }
    ensures open { IsSome handle.old.held.core → IsSome (limits_of version) → result ≡ ALREADY_OPEN }
    ensures limit { result ≡ BAD_LIMIT → IsSomeAnd (limits_of version) (λ limits. (limit ≡ 0) ⊎ (node_limit limits < limit)) }
    ensures version { (result ≡ BAD_VERSION) ↔ (limits_of version ≡ None) }
    ensures only { IsOfOpen result ⊎ (result ≡ BAD_VERSION) }
    ensures keeps_all { result ≡ OK → handle.new.most ≡ KEEP_ALL }
    ensures refused { result ≢ OK → (CLOSED < result) × (handle.new.held.core ≡ handle.old.held.core) × (handle.new.most ≡ handle.old.most) }
{
    match limits_of(version) {
        Some(limits) => open(alloc, handle, limit, limits),
        None => BAD_VERSION,
    }
}

/// Closes a handle, and frees its core with its nodes and its journal.
#[unsafe(no_mangle)]
pub extern "C" fn atomfs_close(alloc: Global, handle: &mut Handle) -> u8
    ensures status { MatchOption handle.old.held.core (result ≡ CLOSED) (λ core. result ≡ OK) }
    ensures closed { handle.new.held.core ≡ None }
    ensures keeps { handle.new.most ≡ handle.old.most }
{
    match take(alloc, handle) {
        Some(core) => {
            drop(core);
            OK
        }
        None => CLOSED,
    }
}

/// Adds a seat, and reports its number: the first is 0, and each next one is one more.
#[unsafe(no_mangle)]
pub extern "C" fn atomfs_seat(alloc: Global, handle: &mut Handle, seat: &mut u64) -> u8
    ensures only { (result ≡ OK) ⊎ (result ≡ CLOSED) ⊎ (result ≡ NO_MEMORY) }
    ensures untouched { result ≢ OK → seat.new ≡ seat.old }
    ensures seated { result ≡ OK → Goes (λ old new. (seat.new ≡ length old.seats) × (new.seats ≡ old.seats ++ None ∷ []) × (state_of new ≡ state_of old) × (new.refusals ≡ old.refusals)) handle.old.held.core handle.new.held.core }
    ensures refused { CLOSED < result → Goes (λ old new. (result ≡ NO_MEMORY) × (new.seats ≡ old.seats) × (state_of new ≡ state_of old) × (new.refusals ≢ old.refusals)) handle.old.held.core handle.new.held.core }
    ensures closed { ToldIfClosed result handle.old.held.core handle.new.held.core }
    ensures lawful { IsLawful handle.new.held.core }
    ensures spelled { IsSpelled handle.new.held.core }
    ensures keeps { handle.new.most ≡ handle.old.most }
{
    let Some(mut core) = take(alloc, handle) else {
        return CLOSED;
    };
    let made = core.seat();
    put(handle, core);
    match made {
        Ok(number) => {
            *seat = number.get();
            OK
        }
        Err(_) => NO_MEMORY,
    }
}
