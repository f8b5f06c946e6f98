//! The search of drawn runs of a script.

ghost use Rattle.std.specs.Prelude.{◌≡◌, ◌+◌, ◌≤◌, ℕ, None, Ok, IfOk, IfErr, IfSome};
ghost use Rattle.fs_script.specs.Script.{script_of};
ghost use Rattle.fs_script.specs.Limits.{call_limit};
ghost use Rattle.fs_sched.specs.Runs.{calls_in};
ghost use Rattle.fs_sched.specs.Origins.{CanBegin, HasNoRun, LacksRun};
ghost use Rattle.fs_sched.specs.Schedules.{schedule_by};
ghost use Rattle.fs_sched.specs.code.Done.{IsStopOn};
ghost use Rattle.fs_trace.specs.Traces.{IsReadBack};
ghost use Rattle.fs_sched_find.specs.Faults.{IsFaultOfSearchAt};
ghost use Rattle.fs_sched_find.specs.Finds.{DrawnHas, RunHasOn, IsFoundOn, IsSearchAt, IsWrittenOn};
ghost use Rattle.fs_sched_find.specs.code.Mades.{IsNotWrittenOn};

use crate::fault::{FindFault, find_fault};
use crate::having::has;
use crate::lives::Lives;
use crate::what::{Clauses, names_calls};
use fs_sched::{Campaign, Origin, Policy, RunFault, SEED_LIMIT, Schedule, Witness, watch_at};
use fs_sched_start::{StartFault, TreeText, planned_in};
use fs_script::Script;
use fs_trace::{ScheduleFault, schedule_at};
use fs_verdict::{Command, Made};
use std::alloc::Global;

/// The most drawn runs that are searched.
pub const SEARCH_LIMIT: u64 = 1_000_000;

/// Whether the run of a script by a schedule from a tree, or from the root alone, has what is said. What is said of a call that is not
/// there is false.
pub fn run_has_at(
    alloc: Global,
    from: &Origin,
    script: &Script,
    schedule: Schedule,
    what: &[Clauses],
) -> Result<bool, RunFault>
    requires few { calls_in script.now.lists ≤ call_limit script.now.limits }
    requires begins { CanBegin from.now script.now.limits }
    ensures has { IfOk result (RunHasOn from.now schedule script.now what.now) }
    ensures fault { IfErr result (IsStopOn from.now schedule script.now) }
{
    let mut lives = Lives::new(alloc);
    let ran = match watch_at(alloc, from, script, schedule, &mut lives) {
        Ok(ran) => ran,
        Err(fault) => return Err(fault),
    };
    match has(alloc, &script.names, &lives, ran.core.store(), what) {
        Ok(has) => Ok(has),
        Err(_) => Err(RunFault::OutOfMemory),
    }
}

/// The same of the run of a campaign that is drawn from a number.
fn drawn_has(
    alloc: Global,
    campaign: &Campaign,
    script: &Script,
    seed: u64,
    what: &[Clauses],
) -> Result<bool, RunFault>
    requires few { calls_in script.now.lists ≤ call_limit script.now.limits }
    requires begins { CanBegin campaign.now.from script.now.limits }
    ensures has { IfOk result (DrawnHas campaign.now seed script.now what.now) }
    ensures fault { IfErr result (HasNoRun campaign.now script.now seed) }
{
    match run_has_at(
        alloc,
        &campaign.from,
        script,
        campaign.by.schedule(seed),
        what,
    ) {
        Ok(has) => Ok(has),
        Err(fault) => Err(fault),
    }
}

/// The first of so many numbers from which a run of a campaign is drawn that is as wanted: it has what is said, or has it not. What is
/// said of a call that is not there is false. Whoever is told of progress hears of each run before.
pub fn first_seed<Listener: Witness>(
    alloc: Global,
    campaign: &Campaign,
    script: &Script,
    what: &[Clauses],
    wanted: bool,
    seed: u64,
    runs: u64,
    witness: &mut Listener,
) -> Result<Option<u64>, RunFault>
    requires few { calls_in script.now.lists ≤ call_limit script.now.limits }
    requires begins { CanBegin campaign.now.from script.now.limits }
    requires seed { seed ≤ SEED_LIMIT }
    requires runs { runs ≤ SEARCH_LIMIT }
    ensures found { IfOk result (IsFoundOn campaign.now wanted script.now what.now seed runs) }
    ensures fault { IfErr result (LacksRun campaign.now script.now seed runs) }
{
    for run in 0..runs {
        let has = match drawn_has(alloc, campaign, script, seed + run, what) {
            Ok(has) => has,
            Err(fault) => return Err(fault),
        };
        if has == wanted {
            return Ok(Some(seed + run));
        }
        witness.has_run(run + 1, runs);
    }
    Ok(None)
}

/// The text of a script with the run that is drawn from the number found as its words; no text where none is found.
fn text_of_found(
    alloc: Global,
    campaign: &Campaign,
    script: &Script,
    text: &[u8],
    found: Option<u64>,
) -> Result<Vec<u8>, ScheduleFault>
    requires read { script_of text.now ≡ Ok script.now }
    requires few { calls_in script.now.lists ≤ call_limit script.now.limits }
    requires begins { CanBegin campaign.now.from script.now.limits }
    ensures written { IfOk result (λ made. IsWrittenOn campaign.now script.now text.now found made.items) }
    ensures fault { IfErr result (IsNotWrittenOn campaign.now script.now text.now found) }
{
    match found {
        Some(seed) => schedule_at(
            alloc,
            &campaign.from,
            script,
            text,
            campaign.by.schedule(seed),
        ),
        None => Ok(Vec::new(alloc)),
    }
}

/// The text of the first run of the script that a text has, and the number from which it is drawn, as `FindSeed` finds them; if no run
/// has what is said, no text and no number. The text of the tree is let go once it is read.
fn found_in<Listener: Witness>(
    alloc: Global,
    tree: TreeText,
    by: Policy,
    text: &[u8],
    what: &[Clauses],
    seed: u64,
    runs: u64,
    witness: &mut Listener,
) -> Result<Made<Option<u64>>, FindFault>
    requires seed { seed ≤ SEED_LIMIT }
    requires runs { runs ≤ SEARCH_LIMIT }
    ensures found { IfOk result (λ made. IsSearchAt tree by what.now seed runs text.now made.end made.text.items) }
    ensures again { tree ≡ None → IfOk result (λ made. IfSome made.end (λ n. IsReadBack (schedule_by by n) text.now made.text.items)) }
    ensures fault { IfErr result (IsFaultOfSearchAt tree by what.now seed runs text.now) }
{
    let planned = match planned_in(alloc, tree, by, text) {
        Ok(planned) => planned,
        Err(fault) => return Err(FindFault::Start(fault)),
    };
    if !names_calls(&planned.script, what) {
        return Err(FindFault::NoCall);
    }
    let found = match first_seed(
        alloc,
        &planned.campaign,
        &planned.script,
        what,
        true,
        seed,
        runs,
        witness,
    ) {
        Ok(found) => found,
        Err(fault) => return Err(FindFault::Start(StartFault::Run(fault))),
    };
    match text_of_found(alloc, &planned.campaign, &planned.script, text, found) {
        Ok(text) => Ok(Made { text, end: found }),
        Err(fault) => Err(find_fault(fault)),
    }
}

/// The search of the runs of a script that a policy draws from a number, the next one, and so on, up to the first that has what is
/// said. What is made is the script with the events of that run as its words, as `schedule_script` makes it. The answer is the number
/// from which that run is drawn; if no run has it, none, and no text. If there is the text of a tree, each run begins at that, which is
/// read as by `fs_sched_start::RunFrom`. A listener hears of each run.
#[derive(Drop)]
pub struct FindSeed {
    /// The text of the tree, if there is one.
    pub tree: TreeText,
    /// By which the schedules are drawn.
    pub by: Policy,
    /// What the run has: all clauses of one of these.
    pub what: Vec<Clauses>,
    /// The number from which the first run is drawn, at most `SEED_LIMIT`.
    pub seed: u64,
    /// How many runs, at most `SEARCH_LIMIT`.
    pub runs: u64,
}

impl<Listener: Witness> Command<Listener> for FindSeed {
    ghost use Rattle.std.specs.Prelude.{◌≤◌};
    ghost use Rattle.fs_sched.specs.declared.seeding.TheConstants.{SEED_LIMIT};
    ghost use Rattle.fs_sched_find.specs.declared.finding.TheConstants.{SEARCH_LIMIT};
    ghost use Rattle.fs_sched_find.specs.Makes.{MakesFound};
    ghost use Rattle.fs_sched_find.specs.code.Laws.{find_honest};

    type End = Option<u64>;

    type Fault = FindFault;

    ghost Asks = { λ c. (c.seed ≤ SEED_LIMIT) × (c.runs ≤ SEARCH_LIMIT) };

    ghost Makes = { λ c. MakesFound c.tree c.by c.what.items c.seed c.runs };

    fn make(
        self,
        alloc: Global,
        input: Vec<u8>,
        listener: &mut Listener,
    ) -> Result<Made<Option<u64>>, FindFault> {
        let FindSeed {
            tree,
            by,
            what,
            seed,
            runs,
        } = self;
        found_in(
            alloc,
            tree,
            by,
            input.as_slice(),
            what.as_slice(),
            seed,
            runs,
            listener,
        )
    }

    ghost honest = { λ c. find_honest c.tree c.by c.what.items c.seed c.runs };
}
