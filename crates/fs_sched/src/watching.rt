//! A run for its witness alone.

ghost use Rattle.std.specs.Prelude.{◌≡◌, ◌≤◌, [], length, IfOk, IfErr};
ghost use Rattle.fs_core.specs.CoreValues.{state_of};
ghost use Rattle.fs_script.specs.Limits.{call_limit};
ghost use Rattle.fs_sched.specs.Origins.{CanBegin, IsFirst};
ghost use Rattle.fs_sched.specs.Runs.{before_all, calls_in, StopsFrom};
ghost use Rattle.fs_sched.specs.Watching.{Watches, WatchesOn};
ghost use Rattle.fs_sched.specs.code.Done.{IsStop, IsStopOn};
ghost use Rattle.fs_sched.specs.code.Stages.{IsWhy};

use crate::origin::Origin;
use crate::run_texts::counts_of;
use crate::running::{RunEnd, play, root_core, run_end};
use crate::schedule::Schedule;
use fs_core::Core;
use fs_sched_witness::Witness;
use fs_script::Script;
use fs_verdict::RunFault;
use std::alloc::Global;

/// A run that has come to its end: its core, and how it ended in all its pieces.
#[derive(Drop)]
pub struct Ran {
    pub core: Core,
    pub end: RunEnd,
}

/// Runs a script on a core without seats, and reports each moment of the run to a witness when it comes.
fn watch_on<W: Witness>(
    alloc: Global,
    core: Core,
    script: &Script,
    schedule: Schedule,
    witness: &mut W,
) -> Result<Ran, RunFault>
    requires few { calls_in script.now.lists ≤ call_limit script.now.limits }
    requires seats { core.seats ≡ [] }
    ensures watches { (from : Origin) → IsFirst from script.now (before_all (state_of core) (length script.now.lists)) → IfOk result (λ ran. WatchesOn W.Told from schedule script.now witness.old ran witness.new) }
    ensures why { IfErr result (IsWhy (StopsFrom schedule script.now (before_all (state_of core) (length script.now.lists)))) }
{
    let run = match play(alloc, core, script, schedule, witness) {
        Ok(run) => run,
        Err(fault) => return Err(fault),
    };
    let counts = run.told.plus(counts_of(run.play.core.timeline()));
    Ok(Ran {
        end: run_end(script, counts),
        core: run.play.core,
    })
}

/// Runs a script with a schedule, and reports each moment of the run to a witness when it comes.
pub fn watch<W: Witness>(
    alloc: Global,
    script: &Script,
    schedule: Schedule,
    witness: &mut W,
) -> Result<Ran, RunFault>
    requires few { calls_in script.now.lists ≤ call_limit script.now.limits }
    ensures watches { IfOk result (λ ran. Watches W.Told schedule script.now witness.old ran witness.new) }
    ensures fault { IfErr result (IsStop schedule script.now) }
{
    let core = root_core(alloc, script)?;
    watch_on(alloc, core, script, schedule, witness)
}

/// The same from a tree, or from the root alone. From a tree a run can stop as well where a call begins when all node numbers are
/// in use, by the nodes of the tree among them.
pub fn watch_at<W: Witness>(
    alloc: Global,
    from: &Origin,
    script: &Script,
    schedule: Schedule,
    witness: &mut W,
) -> Result<Ran, RunFault>
    requires few { calls_in script.now.lists ≤ call_limit script.now.limits }
    requires begins { CanBegin from.now script.now.limits }
    ensures watches { IfOk result (λ ran. WatchesOn W.Told from.now schedule script.now witness.old ran witness.new) }
    ensures fault { IfErr result (IsStopOn from.now schedule script.now) }
{
    let core = from.core(alloc, script)?;
    watch_on(alloc, core, script, schedule, witness)
}
