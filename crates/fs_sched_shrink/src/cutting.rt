//! The calls and words of a script that can go.

ghost use Rattle.std.specs.Prelude.{◌≡◌, ◌≢◌, ◌≤◌, ◌<◌, ◌+◌, ℕ, Ok, IfOk, OnOk, true, false, length, get_or, slice_set, take, if◌then◌else◌};
ghost use Rattle.std.specs.List.{list_any};
ghost use Rattle.fs_script.specs.Script.{script_of};
ghost use Rattle.fs_script.specs.Limits.{call_limit, calls_in};
ghost use Rattle.fs_sched.specs.Origins.{CanBegin};
ghost use Rattle.fs_sched_shrink.specs.Moves.{is_named};
ghost use Rattle.fs_sched_shrink.specs.Shrinks.{IsKeptOn, IsShrunkOn, IsSmallestOn};
ghost use Rattle.fs_sched_shrink.specs.code.Passes.{IsPass, KeepsNamed};
ghost use Rattle.fs_sched_shrink.specs.declared.limits.TheConstants.{TRIAL_LIMIT};

use crate::limits::TRIAL_LIMIT;
use crate::moving::is_named;
use crate::room::NoRoom;
use crate::thinning::flags_behind;
use crate::trying::is_kept;
use fs_sched::Origin;
use fs_sched_find::Clauses;
use fs_script::Script;
use std::alloc::{AllocError, Global};

/// What came of trying each call and word on its own.
#[derive(Clone, Copy, Debug, PartialEq, Eq)]
pub(crate) enum Pass {
    /// One went at least.
    Cut,
    /// None can go.
    Smallest,
    /// No more runs are played.
    Stopped,
}

/// The flags, but for those from one index up to another: what these stand for goes, unless it is a call that is named.
fn without(
    alloc: Global,
    script: &Script,
    what: &[Clauses],
    kept: &[bool],
    first: usize,
    end: usize,
) -> Result<Vec<bool>, AllocError>
    requires few { calls_in script.now.lists ≤ call_limit script.now.limits }
    ensures sized { IfOk result (λ left. length left.items ≡ length kept.now) }
    ensures named { IfOk result (λ left. KeepsNamed script.now what.now kept.now left.items) }
{
    let mut left = Vec::new(alloc);
    for at in 0..kept.len() {
        let stays = at < first || end <= at || is_named(script, what, at);
        left.push(kept[at] && stays)?;
    }
    Ok(left)
}

/// The first so many flags, or all.
fn first_flags(kept: &[bool], count: usize) -> &[bool]
    ensures { result.now ≡ take count kept.now }
{
    if count < kept.len() {
        &kept[..count]
    } else {
        kept
    }
}

/// Whether one of these stays.
fn any_stays(kept: &[bool]) -> bool
    ensures { result ≡ list_any (λ stays. stays) kept.now }
{
    kept.iter().any(|stays| *stays)
}

/// Tries whether so many from an index on can go, and lets them go where they can.
fn cut_range(
    alloc: Global,
    from: &Origin,
    text: &[u8],
    script: &Script,
    what: &[Clauses],
    first: usize,
    size: usize,
    kept: &mut Vec<bool>,
    runs: &mut u64,
) -> Result<(), NoRoom>
    requires read { script_of text.now ≡ Ok script.now }
    requires few { calls_in script.now.lists ≤ call_limit script.now.limits }
    requires begins { CanBegin from.now script.now.limits }
    requires shrunk { IsShrunkOn from.now script.now what.now kept.old.items }
    requires runs { runs.old < TRIAL_LIMIT }
    ensures shrunk { OnOk result (IsShrunkOn from.now script.now what.now kept.new.items) }
    ensures runs { OnOk result (runs.new ≤ TRIAL_LIMIT) }
{
    if !any_stays(first_flags(flags_behind(kept.as_slice(), first), size)) {
        return Ok(());
    }
    let end = first.saturating_add(size);
    let left = without(alloc, script, what, kept.as_slice(), first, end)?;
    if left.as_slice() == kept.as_slice() {
        return Ok(());
    }
    *runs += 1;
    if !is_kept(alloc, from, text, script, what, left.as_slice())? {
        return Ok(());
    }
    *kept = left;
    Ok(())
}

/// Tries so many at a time, from left to right.
fn cut_pieces(
    alloc: Global,
    from: &Origin,
    text: &[u8],
    script: &Script,
    what: &[Clauses],
    size: usize,
    kept: &mut Vec<bool>,
    runs: &mut u64,
) -> Result<(), NoRoom>
    requires read { script_of text.now ≡ Ok script.now }
    requires few { calls_in script.now.lists ≤ call_limit script.now.limits }
    requires begins { CanBegin from.now script.now.limits }
    requires some { 0 < size }
    requires shrunk { IsShrunkOn from.now script.now what.now kept.old.items }
    requires runs { runs.old ≤ TRIAL_LIMIT }
    ensures shrunk { OnOk result (IsShrunkOn from.now script.now what.now kept.new.items) }
    ensures runs { OnOk result (runs.new ≤ TRIAL_LIMIT) }
{
    let count = kept.len();
    let mut first = 0usize;
    'pieces: while first < count && *runs < TRIAL_LIMIT {
        cut_range(alloc, from, text, script, what, first, size, kept, runs)?;
        first = first.saturating_add(size);
    }
    Ok(())
}

/// Tries the half of all at a time, then the half of these, and so on.
pub(crate) fn cut_by_halves(
    alloc: Global,
    from: &Origin,
    text: &[u8],
    script: &Script,
    what: &[Clauses],
    kept: &mut Vec<bool>,
    runs: &mut u64,
) -> Result<(), NoRoom>
    requires read { script_of text.now ≡ Ok script.now }
    requires few { calls_in script.now.lists ≤ call_limit script.now.limits }
    requires begins { CanBegin from.now script.now.limits }
    requires shrunk { IsShrunkOn from.now script.now what.now kept.old.items }
    requires runs { runs.old ≤ TRIAL_LIMIT }
    ensures shrunk { OnOk result (IsShrunkOn from.now script.now what.now kept.new.items) }
    ensures runs { OnOk result (runs.new ≤ TRIAL_LIMIT) }
{
    let mut size = kept.len();
    'halves: while size > 1 {
        cut_pieces(alloc, from, text, script, what, size, kept, runs)?;
        size /= 2;
    }
    Ok(())
}

fn set_flag(kept: &mut Vec<bool>, at: usize, flag: bool)
    requires { at < length kept.old.items }
    ensures { kept.new.items ≡ slice_set kept.old.items at flag }
{
    kept[at] = flag;
}

/// Tries one of those that stay, and answers whether it went.
fn cut_one(
    alloc: Global,
    from: &Origin,
    text: &[u8],
    script: &Script,
    what: &[Clauses],
    at: usize,
    kept: &mut Vec<bool>,
) -> Result<bool, NoRoom>
    requires read { script_of text.now ≡ Ok script.now }
    requires few { calls_in script.now.lists ≤ call_limit script.now.limits }
    requires begins { CanBegin from.now script.now.limits }
    requires there { at < length kept.old.items }
    requires stays { get_or kept.old.items at false ≡ true }
    requires unnamed { is_named script.now what.now at ≡ false }
    requires shrunk { IsShrunkOn from.now script.now what.now kept.old.items }
    ensures shrunk { OnOk result (IsShrunkOn from.now script.now what.now kept.new.items) }
    ensures sized { length kept.new.items ≡ length kept.old.items }
    ensures cannot { IfOk result (λ went. went ≡ false
        → (kept.new.items ≡ kept.old.items) × IsKeptOn from.now script.now what.now (slice_set kept.old.items at false) false) }
{
    set_flag(kept, at, false);
    let still = is_kept(alloc, from, text, script, what, kept.as_slice())?;
    if still {
        return Ok(true);
    }
    set_flag(kept, at, true);
    Ok(false)
}

/// Whether a flag stands for something that may go.
fn may_go(script: &Script, what: &[Clauses], kept: &[bool], at: usize) -> bool
    requires few { calls_in script.now.lists ≤ call_limit script.now.limits }
    requires there { at < length kept.now }
    ensures stays { result ≡ true → get_or kept.now at false ≡ true }
    ensures unnamed { result ≡ true → is_named script.now what.now at ≡ false }
    ensures not { result ≡ false → get_or kept.now at false ≡ true → is_named script.now what.now at ≡ true }
{
    kept[at] && !is_named(script, what, at)
}

/// What came of it so far, behind one more that went or cannot.
fn pass_behind(pass: Pass, went: bool) -> Pass
    ensures { result ≡ (if went then Pass.Cut else pass) }
{
    if went { Pass::Cut } else { pass }
}

/// Tries each on its own, from left to right.
fn cut_each(
    alloc: Global,
    from: &Origin,
    text: &[u8],
    script: &Script,
    what: &[Clauses],
    kept: &mut Vec<bool>,
    runs: &mut u64,
) -> Result<Pass, NoRoom>
    requires read { script_of text.now ≡ Ok script.now }
    requires few { calls_in script.now.lists ≤ call_limit script.now.limits }
    requires begins { CanBegin from.now script.now.limits }
    requires shrunk { IsShrunkOn from.now script.now what.now kept.old.items }
    requires runs { runs.old ≤ TRIAL_LIMIT }
    ensures shrunk { OnOk result (IsShrunkOn from.now script.now what.now kept.new.items) }
    ensures pass { IfOk result (IsPass from.now script.now what.now kept.new.items runs.old runs.new) }
{
    let mut pass = Pass::Smallest;
    for at in 0..kept.len() {
        if !may_go(script, what, kept.as_slice(), at) {
            continue;
        }
        if *runs >= TRIAL_LIMIT {
            return Ok(Pass::Stopped);
        }
        *runs += 1;
        let went = cut_one(alloc, from, text, script, what, at, kept)?;
        pass = pass_behind(pass, went);
    }
    Ok(pass)
}

/// Tries each on its own until none can go, and answers whether it came to that; else no more runs are played.
pub(crate) fn cut_ones(
    alloc: Global,
    from: &Origin,
    text: &[u8],
    script: &Script,
    what: &[Clauses],
    kept: &mut Vec<bool>,
    runs: &mut u64,
) -> Result<bool, NoRoom>
    requires read { script_of text.now ≡ Ok script.now }
    requires few { calls_in script.now.lists ≤ call_limit script.now.limits }
    requires begins { CanBegin from.now script.now.limits }
    requires shrunk { IsShrunkOn from.now script.now what.now kept.old.items }
    requires runs { runs.old ≤ TRIAL_LIMIT }
    ensures shrunk { OnOk result (IsShrunkOn from.now script.now what.now kept.new.items) }
    ensures smallest { IfOk result (λ done. done ≡ true → IsSmallestOn from.now script.now what.now kept.new.items) }
    ensures stopped { IfOk result (λ done. done ≡ false → runs.new ≡ TRIAL_LIMIT) }
{
    'passes: loop {
        match cut_each(alloc, from, text, script, what, kept, runs)? {
            Pass::Cut => {}
            Pass::Smallest => return Ok(true),
            Pass::Stopped => return Ok(false),
        }
    }
}
