//! What is left of a history without an order, as few calls as are found.

ghost use Rattle.std.specs.Prelude.{◌≡◌, ◌<◌, ◌||◌, true, false, length, IfOk, OnOk};
ghost use Rattle.fs_linearize_minimal.specs.Parts.{IsPartOf};
ghost use Rattle.fs_linearize_minimal.specs.Minimal.{IsMinimal, IsRefuted};

use crate::parts::calls_in;
use crate::reason::Reason;
use crate::trying::cut;
use fs_linearize::Progress;
use fs_linearize_histories::Heard;
use fs_seq::SeqTree;
use std::alloc::{AllocError, Global};

/// Takes out so many calls at a time, from left to right.
fn cut_pieces<P: Progress>(
    alloc: Global,
    start: &SeqTree,
    reason: &Reason,
    size: usize,
    limit: usize,
    entries: &mut Vec<Heard>,
    trials: &mut usize,
    progress: &mut P,
) -> Result<(), AllocError>
    requires some { 0 < size }
    ensures part { OnOk result (IsPartOf entries.new.items entries.old.items) }
    ensures refuted { OnOk result (IsRefuted start.now limit reason.now entries.old.items → IsRefuted start.now limit reason.now entries.new.items) }
{
    let calls = calls_in(alloc, entries.as_slice())?;
    let mut from = 0usize;
    'pieces: while from < calls.len() {
        let end = from.saturating_add(size).min(calls.len());
        cut(
            alloc,
            start,
            reason,
            &calls[from..end],
            limit,
            entries,
            trials,
            progress,
        )?;
        from = end;
    }
    Ok(())
}

/// Takes out the half of all calls at a time, then the half of these, and so on.
pub(crate) fn cut_by_halves<P: Progress>(
    alloc: Global,
    start: &SeqTree,
    reason: &Reason,
    limit: usize,
    entries: &mut Vec<Heard>,
    trials: &mut usize,
    progress: &mut P,
) -> Result<(), AllocError>
    ensures part { OnOk result (IsPartOf entries.new.items entries.old.items) }
    ensures refuted { OnOk result (IsRefuted start.now limit reason.now entries.old.items → IsRefuted start.now limit reason.now entries.new.items) }
{
    let mut size = calls_in(alloc, entries.as_slice())?.len() / 2;
    'halves: while size > 1 {
        cut_pieces(alloc, start, reason, size, limit, entries, trials, progress)?;
        size /= 2;
    }
    Ok(())
}

/// Whether one went so far, or the next one.
fn either(went: bool, goes: bool) -> bool
    ensures { result ≡ (went || goes) }
{
    went || goes
}

/// Takes out each call that can go, from left to right, and answers whether one went.
fn cut_each<P: Progress>(
    alloc: Global,
    start: &SeqTree,
    reason: &Reason,
    limit: usize,
    entries: &mut Vec<Heard>,
    trials: &mut usize,
    progress: &mut P,
) -> Result<bool, AllocError>
    ensures part { OnOk result (IsPartOf entries.new.items entries.old.items) }
    ensures refuted { OnOk result (IsRefuted start.now limit reason.now entries.old.items → IsRefuted start.now limit reason.now entries.new.items) }
    ensures went { IfOk result (λ went. went ≡ true → length entries.new.items < length entries.old.items) }
    ensures minimal { IfOk result (λ went. went ≡ false → IsMinimal start.now limit reason.now entries.new.items) }
{
    let calls = calls_in(alloc, entries.as_slice())?;
    let mut went = false;
    for call in calls.as_slice() {
        let goes = cut(
            alloc,
            start,
            reason,
            &[*call],
            limit,
            entries,
            trials,
            progress,
        )?;
        went = either(went, goes);
    }
    Ok(went)
}

/// Takes out each call that can go, again and again, until none can.
pub(crate) fn cut_ones<P: Progress>(
    alloc: Global,
    start: &SeqTree,
    reason: &Reason,
    limit: usize,
    entries: &mut Vec<Heard>,
    trials: &mut usize,
    progress: &mut P,
) -> Result<(), AllocError>
    ensures part { OnOk result (IsPartOf entries.new.items entries.old.items) }
    ensures refuted { OnOk result (IsRefuted start.now limit reason.now entries.old.items → IsRefuted start.now limit reason.now entries.new.items) }
    ensures minimal { OnOk result (IsMinimal start.now limit reason.now entries.new.items) }
{
    'passes: loop {
        if !cut_each(alloc, start, reason, limit, entries, trials, progress)? {
            return Ok(());
        }
    }
}
