//! Why a history has no order, and whether a part of it has none for the same reason.

ghost use Rattle.std.specs.Prelude.{◌≡◌, true, false, Some, None, IfOk, if◌then◌else◌};
ghost use Rattle.fs_linearize_histories.specs.Heard.{is_among};
ghost use Rattle.fs_linearize_histories.specs.declared.heard.Heard.TheVariants.{Return};
ghost use Rattle.fs_linearize_minimal.specs.Reasons.{AreOpen, CouldBeRight, IsNotRight, IsOpen, are_among, is_lawful, is_same, place_in, same_replies};

use crate::copying::{copy_of, copy_of_pattern};
use crate::limits::RACE_LIMIT;
use fs_calls::Reply;
use fs_linearize::{Found, Possible, Progress, linearize};
use fs_linearize_histories::{Heard, Pattern};
use fs_names::CallNo;
use fs_seq::SeqTree;
use std::alloc::{AllocError, Global};

/// Why a history has no order.
#[derive(Drop)]
pub(crate) struct Reason {
    /// The first return that nothing explains is that of this call.
    pub call: CallNo,
    /// What that call could have replied; this counts if there is no race.
    pub possible: Possible,
    /// Its reply could be right, if the other calls had other replies.
    pub race: bool,
}

/// Whether a reply is among replies.
fn is_among(replies: &[Reply], reply: &Reply) -> bool
    ensures { result ≡ is_among reply.now replies.now }
{
    for other in replies {
        if other.same(reply) {
            return true;
        }
    }
    false
}

/// Whether each of these replies is among others.
fn are_among(replies: &[Reply], others: &[Reply]) -> bool
    ensures { result ≡ are_among replies.now others.now }
{
    for reply in replies {
        if !is_among(others, reply) {
            return false;
        }
    }
    true
}

/// Whether a call could have had the replies that are known, if all are.
fn same_replies(known: &Possible, possible: &Possible) -> bool
    ensures { result ≡ same_replies known.now possible.now }
{
    !known.all
        || (possible.all
            && (are_among(known.replies.as_slice(), possible.replies.as_slice())
                && are_among(possible.replies.as_slice(), known.replies.as_slice())))
}

/// Whether the return of a call is refused for a reason, where the call could have had these replies.
fn is_same(reason: &Reason, call: CallNo, possible: &Possible) -> bool
    ensures { result ≡ is_same reason.now call possible.now }
{
    call.get() == reason.call.get() && (reason.race || same_replies(&reason.possible, possible))
}

/// A place, if it counts.
fn place_if(counts: bool, place: usize) -> Option<usize>
    ensures { result ≡ (if counts then Some place else None) }
{
    if counts { Some(place) } else { None }
}

/// The place of the first return that nothing explains, if it is refused for a reason.
pub(crate) fn place_in(reason: &Reason, found: &Found) -> Option<usize>
    ensures { result ≡ place_in reason.now found.now }
{
    match found {
        Found::NoOrder {
            place,
            call,
            possible,
            ..
        } => place_if(is_same(reason, *call, possible), *place),
        _ => None,
    }
}

/// A return, where the reply is open if it is that of another call.
fn open_return(
    alloc: Global,
    call: CallNo,
    number: CallNo,
    pattern: &Pattern,
) -> Result<Heard, AllocError>
    ensures { IfOk result (IsOpen call (Return number pattern.now)) }
{
    if number.get() == call.get() {
        return Ok(Heard::Return(number, copy_of_pattern(pattern)?));
    }
    Ok(Heard::Return(number, Pattern::Except(Vec::new(alloc))))
}

/// An entry, where the reply is open if it is that of another call.
fn open_of(alloc: Global, call: CallNo, entry: &Heard) -> Result<Heard, AllocError>
    ensures { IfOk result (IsOpen call entry.now) }
{
    match entry {
        Heard::Begin(_, _, _) => copy_of(alloc, entry),
        Heard::Return(number, pattern) => open_return(alloc, call, *number, pattern),
    }
}

/// Entries, where the replies of other calls are open.
fn open_others(alloc: Global, call: CallNo, entries: &[Heard]) -> Result<Vec<Heard>, AllocError>
    ensures { IfOk result (λ opened. AreOpen call entries.now opened.items) }
{
    let mut opened = Vec::new(alloc);
    for entry in entries {
        opened.push(open_of(alloc, call, entry)?)?;
    }
    Ok(opened)
}

/// Whether a journal explains a history.
fn is_lawful(found: &Found) -> bool
    ensures { result ≡ is_lawful found.now }
{
    matches!(found, Found::Lawful(_))
}

/// Whether the reply of a call could be right, if the other calls had other replies. Where the limit is reached that is not so.
pub(crate) fn could_be_right<P: Progress>(
    alloc: Global,
    start: &SeqTree,
    call: CallNo,
    entries: &[Heard],
    limit: usize,
    progress: &mut P,
) -> Result<bool, AllocError>
    ensures right { IfOk result (λ right. right ≡ true → CouldBeRight start.now call entries.now) }
    ensures wrong { IfOk result (λ right. right ≡ false → IsNotRight start.now limit call entries.now) }
{
    let opened = open_others(alloc, call, entries)?;
    let found = linearize(alloc, start, opened, limit.min(RACE_LIMIT), progress)?;
    Ok(is_lawful(&found))
}
