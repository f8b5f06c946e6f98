//! Traces of a script's run in memory, and the script with the run's events as its words, in memory or by a command.

ghost use Rattle.std.specs.Prelude.{IfOk, IfErr};
ghost use Rattle.fs_sched.specs.Runs.{IsFaultOfRun};
ghost use Rattle.fs_trace.specs.Faults.{IsFaultOfSchedule};
ghost use Rattle.fs_trace.specs.Makes.{MakesSchedule};
ghost use Rattle.fs_trace.specs.Objects.{AreObjectsOf};
ghost use Rattle.fs_trace.specs.Traces.{IsReadBack, IsScheduleOf, IsTraceOf};

use crate::fault::ScheduleFault;
use crate::object_text::object_text;
use crate::objects::TraceObjects;
use crate::scheduling::schedule_at;
use crate::trace_text::{TraceLines, trace_text};
use fs_sched::{Origin, RunEnd, RunFault, Schedule, script_in, watch};
use fs_trace_story::Teller;
use fs_verdict::{Command, Made};
use std::alloc::Global;

/// The trace of a script's run: a line for each event, or for each that tells something new, and for each checkpoint, and after them
/// the end of the run's own text. The answer says how many calls began, took their place and returned, in all pieces of the run. The
/// script is read where it is.
pub fn trace_bytes(
    alloc: Global,
    script: &[u8],
    schedule: Schedule,
    every: bool,
) -> Result<Made<RunEnd>, RunFault>
    ensures traced { IfOk result (λ made. IsTraceOf schedule every script.now made.end made.text.items) }
    ensures fault { IfErr result (IsFaultOfRun schedule script.now) }
{
    let read = script_in(alloc, script)?;
    let Ok(lines) = TraceLines::new(alloc, &read.names) else {
        return Err(RunFault::OutOfMemory);
    };
    let Ok(mut teller) = Teller::new(alloc, &read, every, lines) else {
        return Err(RunFault::OutOfMemory);
    };
    let ran = watch(alloc, &read, schedule, &mut teller)?;
    match trace_text(alloc, &read, teller, &ran.core) {
        Ok(text) => Ok(Made { text, end: ran.end }),
        Err(_) => Err(RunFault::OutOfMemory),
    }
}

/// The same trace as objects of JSON, one a line: for each thread, for each event, or for each that tells something new, and for each
/// checkpoint, for each call that did not return, and one with the tree and the counts of the run's own text.
pub fn object_bytes(
    alloc: Global,
    script: &[u8],
    schedule: Schedule,
    every: bool,
) -> Result<Made<RunEnd>, RunFault>
    ensures traced { IfOk result (λ made. AreObjectsOf schedule every script.now made.end made.text.items) }
    ensures fault { IfErr result (IsFaultOfRun schedule script.now) }
{
    let read = script_in(alloc, script)?;
    let Ok(page) = TraceObjects::new(alloc, &read.names) else {
        return Err(RunFault::OutOfMemory);
    };
    let Ok(mut teller) = Teller::new(alloc, &read, every, page) else {
        return Err(RunFault::OutOfMemory);
    };
    let ran = watch(alloc, &read, schedule, &mut teller)?;
    match object_text(alloc, &read, teller, &ran.core) {
        Ok(text) => Ok(Made { text, end: ran.end }),
        Err(_) => Err(RunFault::OutOfMemory),
    }
}

/// A script's text with the moments of its run as its words.
fn schedule_of(alloc: Global, text: &[u8], schedule: Schedule) -> Result<Made<()>, ScheduleFault>
    ensures { MakesSchedule schedule text.now result }
{
    let script = script_in(alloc, text)?;
    match schedule_at(alloc, &Origin::Root, &script, text, schedule) {
        Ok(made) => Ok(Made {
            text: made,
            end: (),
        }),
        Err(fault) => Err(fault),
    }
}

/// A script in memory with the moments of its run as its words, as `ScheduleScript` makes it. It is read where it is.
pub fn schedule_bytes(
    alloc: Global,
    script: &[u8],
    schedule: Schedule,
) -> Result<Vec<u8>, ScheduleFault>
    ensures scheduled { IfOk result (λ text. IsScheduleOf schedule script.now text.items) }
    ensures again { IfOk result (λ text. IsReadBack schedule script.now text.items) }
    ensures fault { IfErr result (IsFaultOfSchedule schedule script.now) }
{
    match schedule_of(alloc, script, schedule) {
        Ok(made) => Ok(made.text),
        Err(fault) => Err(fault),
    }
}

/// A script that is written again, up to its line `schedule` byte for byte, with the events and checkpoints of its run as its words.
/// What is made is read as a script with the same threads, calls and limits, and a run of that by its own words has the same text.
/// `TooManyEvents` and `TooLong` mean that a script has no room for the run, and `UnderWay` that it comes to a checkpoint while calls
/// are under way. Nobody hears of progress.
#[derive(Clone, Copy, Debug, PartialEq, Eq)]
pub struct ScheduleScript {
    /// By what the script is run.
    pub schedule: Schedule,
}

impl<Listener> Command<Listener> for ScheduleScript {
    ghost use Rattle.fs_trace.specs.Makes.{MakesSchedule};
    ghost use Rattle.fs_trace.specs.code.Laws.{schedule_honest};

    type End = ();

    type Fault = ScheduleFault;

    ghost Asks = { λ _. Unit {0} };

    ghost Makes = { λ c. MakesSchedule c.schedule };

    fn make(
        self,
        alloc: Global,
        input: Vec<u8>,
        _listener: &mut Listener,
    ) -> Result<Made<()>, ScheduleFault> {
        schedule_of(alloc, input.as_slice(), self.schedule)
    }

    ghost honest = { λ c. schedule_honest c.schedule };
}
