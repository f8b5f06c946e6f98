//! A script's text with the moments of a run from a tree as its words.

ghost use Rattle.std.specs.Prelude.{◌≡◌, ◌≤◌, Ok, IfOk, IfErr};
ghost use Rattle.fs_script.specs.Limits.{call_limit};
ghost use Rattle.fs_script.specs.Script.{script_of};
ghost use Rattle.fs_sched.specs.Origins.{CanBegin};
ghost use Rattle.fs_sched.specs.Runs.{calls_in};
ghost use Rattle.fs_trace.specs.code.Mades.{IsFaultOfScheduleOn};
ghost use Rattle.fs_trace.specs.Traces.{IsReadBackOn, IsScheduleOn};

use crate::fault::ScheduleFault;
use crate::script_text::{RunWords, script_text};
use fs_sched::{Origin, Schedule, watch_at};
use fs_script::Script;
use std::alloc::Global;

/// The text of a script that was read, with the moments of its run from a tree, or from the root alone, as its words: up to its line
/// `schedule` byte for byte. What is made is read as that script with these words, and that runs so again by these from there.
pub fn schedule_at(
    alloc: Global,
    from: &Origin,
    script: &Script,
    text: &[u8],
    schedule: Schedule,
) -> Result<Vec<u8>, ScheduleFault>
    requires read { script_of text.now ≡ Ok script.now }
    requires few { calls_in script.now.lists ≤ call_limit script.now.limits }
    requires begins { CanBegin from.now script.now.limits }
    ensures scheduled { IfOk result (λ made. IsScheduleOn from.now schedule script.now text.now made.items) }
    ensures again { IfOk result (λ made. IsReadBackOn from.now schedule script.now made.items) }
    ensures fault { IfErr result (IsFaultOfScheduleOn from.now schedule script.now text.now) }
{
    let mut words = RunWords::new(alloc);
    watch_at(alloc, from, script, schedule, &mut words)?;
    if words.are_too_many() {
        return Err(ScheduleFault::TooManyEvents);
    }
    match script_text(alloc, text, script, words) {
        Ok(made) => Ok(made),
        Err(fault) => Err(fault),
    }
}
