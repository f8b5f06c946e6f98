//! The exports by which a tree is judged without a text, and forgets: at once, or by itself.

ghost use Rattle.std.specs.Prelude.{◌≡◌, ◌≢◌, ◌⊎◌, IsSomeAnd};
ghost use Rattle.fs_timeline.specs.Verdicts.{verdict};
ghost use Rattle.fs_core.specs.Checkpoints.{IsWhyNot};
ghost use Rattle.fs_embed.specs.Keeping.{IsForgotten, calls};
ghost use Rattle.atomfs_c.specs.Exports.{Goes, ToldIfClosed, IsLawful, IsSpelled, IsToldVerdict};

use crate::handles::{Handle, put, take};
use fs_core::NoCheckpoint;
use fs_embed::again;
use fs_embed::status::{CLOSED, NO_MEMORY, OK, UNDER_WAY};
use fs_embed::told::tell_verdict;
use std::alloc::Global;

/// Reports the verdict on the entries as they are: the place of the first that does not fit and what is wrong with it,
/// or 0 and 0.
#[unsafe(no_mangle)]
pub extern "C" fn atomfs_verdict(
    alloc: Global,
    handle: &mut Handle,
    place: &mut u64,
    kind: &mut u8,
) -> u8
    ensures only { (result ≡ OK) ⊎ (result ≡ CLOSED) ⊎ (result ≡ NO_MEMORY) }
    ensures untouched { result ≢ OK → (place.new ≡ place.old) × (kind.new ≡ kind.old) }
    ensures judged { result ≡ OK → IsSomeAnd handle.old.held.core (λ core. IsToldVerdict (verdict core.start core.timeline) place.new kind.new) }
    ensures same { handle.new.held.core ≡ handle.old.held.core }
    ensures closed { ToldIfClosed result handle.old.held.core handle.new.held.core }
    ensures keeps { handle.new.most ≡ handle.old.most }
{
    let Some(core) = take(alloc, handle) else {
        return CLOSED;
    };
    let judged = core.verdict(alloc);
    put(handle, core);
    match judged {
        Ok(verdict) => {
            tell_verdict(&verdict, place, kind);
            OK
        }
        Err(_) => NO_MEMORY,
    }
}

/// Begins the journal again at the tree as it is, and reports how many calls it has forgotten.
#[unsafe(no_mangle)]
pub extern "C" fn atomfs_forget(alloc: Global, handle: &mut Handle, number: &mut u64) -> u8
    ensures only { (result ≡ OK) ⊎ (result ≡ CLOSED) ⊎ (result ≡ UNDER_WAY) ⊎ (result ≡ NO_MEMORY) }
    ensures forgot { result ≡ OK → Goes (λ old new. IsForgotten old new × (number.new ≡ calls old)) handle.old.held.core handle.new.held.core }
    ensures same { result ≢ OK → handle.new.held.core ≡ handle.old.held.core }
    ensures under_way { result ≡ UNDER_WAY → IsSomeAnd handle.old.held.core (λ core. IsWhyNot core (NoCheckpoint.UnderWay number.new)) }
    ensures unnumbered { result ≢ OK → result ≢ UNDER_WAY → number.new ≡ number.old }
    ensures closed { ToldIfClosed result handle.old.held.core handle.new.held.core }
    ensures lawful { IsLawful handle.new.held.core }
    ensures spelled { IsSpelled handle.new.held.core }
    ensures keeps { handle.new.most ≡ handle.old.most }
{
    let Some(mut core) = take(alloc, handle) else {
        return CLOSED;
    };
    let status = again(alloc, &mut core, number);
    put(handle, core);
    status
}

/// From the next call on, if the journal has more than so many calls and none is pending, they are forgotten before a
/// call begins.
#[unsafe(no_mangle)]
pub extern "C" fn atomfs_keep(alloc: Global, handle: &mut Handle, most: u32) -> u8
    ensures only { (result ≡ OK) ⊎ (result ≡ CLOSED) }
    ensures keeps { result ≡ OK → handle.new.most ≡ most }
    ensures same { handle.new.held.core ≡ handle.old.held.core }
    ensures closed { ToldIfClosed result handle.old.held.core handle.new.held.core }
{
    let Some(core) = take(alloc, handle) else {
        return CLOSED;
    };
    handle.most = most;
    put(handle, core);
    OK
}
