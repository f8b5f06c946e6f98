//! The exports that hand a journal out in pieces: what comes before its entries, and the checkpoint.

ghost use Rattle.std.specs.Prelude.{◌≡◌, ◌≢◌, ◌<◌, ◌⊎◌, IsSomeAnd};
ghost use Rattle.fs_core.specs.Checkpoints.{IsWhyNot};
ghost use Rattle.fs_script.specs.Journals.{opening, journal_text};
ghost use Rattle.fs_embed.specs.Keeping.{calls};
ghost use Rattle.atomfs_c.specs.Exports.{Goes, ToldIfClosed, LeavesText, IsLawful, IsSpelled, IsTooLong, Tells, IsHanded};
ghost use Rattle.fs_embed.specs.Statuses.{IsOfText};

use crate::handles::{Handle, put, take};
use fs_core::NoCheckpoint;
use fs_embed::status::{CLOSED, NO_MEMORY, OK, TOO_SMALL, UNDER_WAY, UNTOLD};
use fs_embed::told::tell;
use fs_embed::{hand_out, opening_text};
use std::alloc::Global;

/// Writes what comes before the first entry of the journal: its header, and the tree at which it starts if that is more
/// than the root.
#[unsafe(no_mangle)]
pub extern "C" fn atomfs_opening(
    alloc: Global,
    handle: &mut Handle,
    out: &mut [u8],
    count: &mut usize,
) -> u8
    ensures only { IsOfText result }
    ensures opening { result < UNTOLD → IsSomeAnd handle.old.held.core (λ core. Tells result (opening core.start) count.new out.old out.new) }
    ensures same { handle.new.held.core ≡ handle.old.held.core }
    ensures closed { ToldIfClosed result handle.old.held.core handle.new.held.core }
    ensures keeps { handle.new.most ≡ handle.old.most }
{
    let Some(core) = take(alloc, handle) else {
        return CLOSED;
    };
    let text = opening_text(alloc, core.start());
    put(handle, core);
    match text {
        Ok(text) => tell(text.as_slice(), out, count),
        Err(_) => NO_MEMORY,
    }
}

/// Hands the whole journal out as a text, begins it again at the tree as it is, and reports how many calls it had.
#[unsafe(no_mangle)]
pub extern "C" fn atomfs_checkpoint(
    alloc: Global,
    handle: &mut Handle,
    out: &mut [u8],
    count: &mut usize,
    number: &mut u64,
) -> u8
    ensures only { IsOfText result ⊎ (result ≡ UNDER_WAY) }
    ensures handed { result ≡ OK → Goes (λ old new. IsHanded old new count.new out.old out.new) handle.old.held.core handle.new.held.core }
    ensures calls { result ≡ OK → IsSomeAnd handle.old.held.core (λ core. number.new ≡ calls core) }
    ensures same { result ≢ OK → handle.new.held.core ≡ handle.old.held.core }
    ensures too_small { result ≡ TOO_SMALL → IsSomeAnd handle.old.held.core (λ core. IsTooLong (journal_text core.start core.timeline) count.new out.old out.new) }
    ensures under_way { result ≡ UNDER_WAY → IsSomeAnd handle.old.held.core (λ core. IsWhyNot core (NoCheckpoint.UnderWay number.new)) }
    ensures untouched { LeavesText result count.old count.new out.old out.new }
    ensures unnumbered { result ≢ OK → result ≢ UNDER_WAY → number.new ≡ number.old }
    ensures closed { ToldIfClosed result handle.old.held.core handle.new.held.core }
    ensures lawful { IsLawful handle.new.held.core }
    ensures spelled { IsSpelled handle.new.held.core }
    ensures keeps { handle.new.most ≡ handle.old.most }
{
    let Some(mut core) = take(alloc, handle) else {
        return CLOSED;
    };
    let status = hand_out(alloc, &mut core, out, count, number);
    put(handle, core);
    status
}
