//! Whether a script with some of its calls and words still has what is said of it.

ghost use Rattle.std.specs.Prelude.{◌≡◌, ◌≤◌, Ok, IfOk, false};
ghost use Rattle.fs_words.specs.Lines.{lines_of};
ghost use Rattle.fs_words.specs.Headers.{is_too_long};
ghost use Rattle.fs_script.specs.Script.{script_of};
ghost use Rattle.fs_script.specs.Limits.{call_limit, calls_in};
ghost use Rattle.fs_script.specs.declared.script.Script.{Script};
ghost use Rattle.fs_sched.specs.Origins.{CanBegin};
ghost use Rattle.fs_sched_shrink.specs.Kept.{kept_script};
ghost use Rattle.fs_sched_shrink.specs.Shrinks.{IsTriedOn, IsKeptOn};
ghost use Rattle.fs_sched_shrink.specs.code.Thinning.{thinned};

use crate::moving::moved;
use crate::room::NoRoom;
use crate::thinning::thin;
use fs_sched::{Origin, RunFault, Schedule, script_in};
use fs_sched_find::{Clauses, run_has_at};
use fs_script::Script;
use fs_words::headers::is_too_long;
use std::alloc::Global;

/// The lines that stay, as a text.
fn short_text(alloc: Global, input: &[u8], kept: &[bool]) -> Result<Vec<u8>, NoRoom>
    ensures lines { IfOk result (λ made. lines_of made.items ≡ thinned kept.now (lines_of input.now)) }
    ensures short { IfOk result (λ made. is_too_long made.items ≡ false) }
{
    match thin(alloc, input, kept) {
        Ok(text) if is_too_long(&text) => Err(NoRoom::TooLong),
        Ok(text) => Ok(text),
        Err(_) => Err(NoRoom::OutOfMemory),
    }
}

/// The text of a script with those of its calls and words that stay.
pub(crate) fn text_of(alloc: Global, input: &[u8], kept: &[bool]) -> Result<Vec<u8>, NoRoom>
    ensures { (script : Script) → script_of input.now ≡ Ok script
        → IfOk result (λ made. script_of made.items ≡ Ok (kept_script kept.now script)) }
{
    let text = short_text(alloc, input, kept)?;
    Ok(text)
}

/// The script with those of its calls and words that stay, as it is read back.
pub(crate) fn script_with(alloc: Global, text: &[u8], kept: &[bool]) -> Result<Script, NoRoom>
    ensures { (script : Script) → script_of text.now ≡ Ok script → IfOk result (λ cut. cut ≡ kept_script kept.now script) }
{
    let made = text_of(alloc, text, kept)?;
    match script_in(alloc, made.as_slice()) {
        Ok(cut) => Ok(cut),
        Err(_) => Err(NoRoom::OutOfMemory),
    }
}

/// Whether the run of a script by its own words from a tree, or from the root alone, has what is said; it has not where there is no
/// such run.
fn is_tried(alloc: Global, from: &Origin, script: &Script, what: &[Clauses]) -> Result<bool, NoRoom>
    requires few { calls_in script.now.lists ≤ call_limit script.now.limits }
    requires begins { CanBegin from.now script.now.limits }
    ensures { IfOk result (IsTriedOn from.now script.now what.now) }
{
    match run_has_at(alloc, from, script, Schedule::Given, what) {
        Ok(true) => Ok(true),
        Ok(false) => Ok(false),
        Err(RunFault::Full | RunFault::UnderWay(_)) => Ok(false),
        Err(_) => Err(NoRoom::OutOfMemory),
    }
}

/// The same of a script with those of its calls and words that stay, by the text of the script.
pub(crate) fn is_kept(
    alloc: Global,
    from: &Origin,
    text: &[u8],
    script: &Script,
    what: &[Clauses],
    kept: &[bool],
) -> Result<bool, NoRoom>
    requires read { script_of text.now ≡ Ok script.now }
    requires few { calls_in script.now.lists ≤ call_limit script.now.limits }
    requires begins { CanBegin from.now script.now.limits }
    ensures { IfOk result (IsKeptOn from.now script.now what.now kept.now) }
{
    let cut = script_with(alloc, text, kept)?;
    let moved = moved(alloc, kept, script, what)?;
    is_tried(alloc, from, &cut, moved.as_slice())
}
