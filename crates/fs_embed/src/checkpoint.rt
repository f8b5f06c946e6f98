//! The journal of a core handed out, and begun again.

ghost use Rattle.std.specs.Prelude.{◌≡◌, ◌≢◌, ◌⊎◌};
ghost use Rattle.fs_core.specs.Checkpoints.{IsWhyNot};
ghost use Rattle.fs_script.specs.Journals.{journal_text};
ghost use Rattle.fs_embed.specs.Keeping.{IsForgotten, calls};
ghost use Rattle.fs_embed.specs.Statuses.{IsOfText, IsToldWhyNot};
ghost use Rattle.fs_embed.specs.Told.{LeavesText, IsTooLong, IsHanded};

use crate::pieces::whole_journal;
use crate::status::{CLOSED, NO_MEMORY, OK, TOO_SMALL, UNDER_WAY};
use crate::told::tell;
use fs_core::{Core, NoCheckpoint};
use std::alloc::Global;

/// Reports why a journal did not begin again, and the least number of a pending call.
pub fn tell_why_not(why: &NoCheckpoint, number: &mut u64) -> u8
    ensures told { IsToldWhyNot why.now result number.new }
    ensures unnumbered { result ≢ UNDER_WAY → number.new ≡ number.old }
{
    match why {
        NoCheckpoint::UnderWay(call) => {
            *number = call.get();
            UNDER_WAY
        }
        NoCheckpoint::OutOfMemory => NO_MEMORY,
    }
}

/// Begins the journal again at the tree as it is, frees the memory of its entries, and reports how many calls they were
/// of. If it does not, it answers the number of the reason.
pub fn again(alloc: Global, core: &mut Core, number: &mut u64) -> u8
    ensures again { result ≡ OK → IsForgotten core.old core.new }
    ensures calls { result ≡ OK → number.new ≡ calls core.old }
    ensures same { result ≢ OK → core.new ≡ core.old }
    ensures under_way { result ≡ UNDER_WAY → IsWhyNot core.old (NoCheckpoint.UnderWay number.new) }
    ensures only { (result ≡ OK) ⊎ (result ≡ UNDER_WAY) ⊎ (result ≡ NO_MEMORY) }
    ensures unnumbered { result ≢ OK → result ≢ UNDER_WAY → number.new ≡ number.old }
{
    match core.forget(alloc) {
        Ok(calls) => {
            *number = calls;
            OK
        }
        Err(why) => tell_why_not(&why, number),
    }
}

/// Hands the whole journal of a core out, and begins it again. By any number but `OK` nothing has changed.
pub fn hand_out(
    alloc: Global,
    core: &mut Core,
    out: &mut [u8],
    count: &mut usize,
    number: &mut u64,
) -> u8
    ensures handed { result ≡ OK → IsHanded core.old core.new count.new out.old out.new }
    ensures calls { result ≡ OK → number.new ≡ calls core.old }
    ensures same { result ≢ OK → core.new ≡ core.old }
    ensures too_small { result ≡ TOO_SMALL → IsTooLong (journal_text core.old.start core.old.timeline) count.new out.old out.new }
    ensures under_way { result ≡ UNDER_WAY → IsWhyNot core.old (NoCheckpoint.UnderWay number.new) }
    ensures only { IsOfText result ⊎ (result ≡ UNDER_WAY) }
    ensures other { result ≢ CLOSED }
    ensures untouched { LeavesText result count.old count.new out.old out.new }
    ensures unnumbered { result ≢ OK → result ≢ UNDER_WAY → number.new ≡ number.old }
{
    let Ok(text) = whole_journal(alloc, core) else {
        return NO_MEMORY;
    };
    if out.len() < text.len() {
        *count = text.len();
        return TOO_SMALL;
    }
    let status = again(alloc, core, number);
    if status == OK {
        return tell(text.as_slice(), out, count);
    }
    status
}
