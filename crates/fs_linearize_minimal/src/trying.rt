//! Calls that go, where a history has no order without them either, for the same reason.

ghost use Rattle.std.specs.Prelude.{◌≡◌, ◌<◌, true, false, length, IfOk, IfSome, IfNone, OnOk};
ghost use Rattle.fs_linearize_minimal.specs.Parts.{IsPartOf, without};
ghost use Rattle.fs_linearize_minimal.specs.Minimal.{IsNeeded, IsRefuted};
ghost use Rattle.fs_linearize_minimal.specs.code.Tries.{IsKept, IsLost};

use crate::parts::{copies, without};
use crate::reason::{Reason, could_be_right, place_in};
use fs_linearize::{Progress, linearize};
use fs_linearize_histories::Heard;
use fs_seq::SeqTree;
use std::alloc::{AllocError, Global};

/// Whether the reply of the call that is refused could still be right, if it could before.
fn is_race<P: Progress>(
    alloc: Global,
    start: &SeqTree,
    reason: &Reason,
    limit: usize,
    entries: &[Heard],
    progress: &mut P,
) -> Result<bool, AllocError>
    ensures kept { IfOk result (λ race. race ≡ true → IsKept start.now reason.now entries.now) }
    ensures lost { IfOk result (λ race. race ≡ false → IsLost start.now limit reason.now entries.now) }
{
    if !reason.race {
        return Ok(true);
    }
    could_be_right(alloc, start, reason.call, entries, limit, progress)
}

/// What is left of entries up to the first return that nothing explains, if it is refused for the same reason.
fn refused<P: Progress>(
    alloc: Global,
    start: &SeqTree,
    reason: &Reason,
    limit: usize,
    entries: Vec<Heard>,
    progress: &mut P,
) -> Result<Option<Vec<Heard>>, AllocError>
    ensures some { IfOk result (λ left. IfSome left (λ left. IsPartOf left.items entries.items × IsRefuted start.now limit reason.now left.items)) }
    ensures none { IfOk result (λ left. IfNone left (IsNeeded start.now limit reason.now entries.items)) }
{
    let tried = copies(alloc, entries.as_slice())?;
    let found = linearize(alloc, start, tried, limit, progress)?;
    let Some(place) = place_in(reason, &found) else {
        return Ok(None);
    };
    let mut left = entries;
    left.truncate(place);
    if is_race(alloc, start, reason, limit, left.as_slice(), progress)? {
        return Ok(Some(left));
    }
    Ok(None)
}

/// Takes out calls, and what comes after the first return that nothing explains then; and answers whether they went.
pub(crate) fn cut<P: Progress>(
    alloc: Global,
    start: &SeqTree,
    reason: &Reason,
    calls: &[u64],
    limit: usize,
    entries: &mut Vec<Heard>,
    trials: &mut usize,
    progress: &mut P,
) -> Result<bool, AllocError>
    ensures part { OnOk result (IsPartOf entries.new.items entries.old.items) }
    ensures refuted { OnOk result (IsRefuted start.now limit reason.now entries.old.items → IsRefuted start.now limit reason.now entries.new.items) }
    ensures went { IfOk result (λ went. went ≡ true → length entries.new.items < length entries.old.items) }
    ensures stays { IfOk result (λ went. went ≡ false → entries.new.items ≡ entries.old.items) }
    ensures needed { IfOk result (λ went. went ≡ false → length (without calls.now entries.old.items) < length entries.old.items
        → IsNeeded start.now limit reason.now (without calls.now entries.old.items)) }
{
    let left = without(alloc, calls, entries.as_slice())?;
    if left.len() >= entries.len() {
        return Ok(false);
    }
    *trials = trials.saturating_add(1);
    match refused(alloc, start, reason, limit, left, progress)? {
        Some(fewer) => {
            *entries = fewer;
            Ok(true)
        }
        None => Ok(false),
    }
}
