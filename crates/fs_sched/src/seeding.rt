//! The runner that runs a script by drawn schedules, one after the other.

ghost use Rattle.std.specs.Prelude.{◌≡◌, ◌≢◌, ◌+◌, ◌-◌, ◌<◌, ◌≤◌, ◌^◌, ◌++◌, [], ℕ, List, true, Ok, Err, IfOk, OnOk, OnErr, IfErr, IfSome, IsErrOf};
ghost use Rattle.std.specs.Io.KnownBytes.{Appends, IsAtEnd};
ghost use Rattle.fs_words.specs.declared.fault.ScriptFault.{ScriptFault};
ghost use Rattle.fs_script.specs.Script.{script_of};
ghost use Rattle.fs_script.specs.Limits.{call_limit};
ghost use Rattle.fs_sched.specs.Devices.{KeepsDevices, WritesBeginning};
ghost use Rattle.fs_sched.specs.Origins.{tree_at, CanBegin, DrawnOn, HasNoRun, LacksRun};
ghost use Rattle.fs_sched.specs.Runs.{calls_in};
ghost use Rattle.fs_sched.specs.Seeds.{seed_line, lawful_line, IsLawfulOn, AreLawfulOn, AreRunsOf};
ghost use Rattle.fs_sched.specs.code.Mades.{MakesRuns};
ghost use Rattle.fs_sched.specs.code.Stages.{stage_of};

use crate::input::script_in;
use crate::origin::Origin;
use crate::play::Play;
use crate::policy::{Campaign, Policy};
use crate::running::play;
use fs_journal::check_from;
use fs_sched_witness::{Silent, Witness};
use fs_script::Script;
use fs_text::Addition;
use fs_timeline::Verdict;
use fs_verdict::{Made, RunFault, Sink, Source, between, is_lawful, push_verdict, transform};
use std::alloc::{AllocError, Global};

/// The greatest number that a first run is drawn from.
pub const SEED_LIMIT: u64 = 9_223_372_036_854_775_807;

/// The most runs that are drawn.
pub const RUN_LIMIT: u64 = 10_000;

fn push_line(seed: u64, verdict: &Verdict, lines: &mut Addition) -> Result<(), AllocError>
    ensures ok { OnOk result (lines.new.added ≡ lines.old.added ++ seed_line seed verdict.now) }
    ensures before { lines.new.before ≡ lines.old.before }
{
    lines.push(b"seed ")?;
    lines.push_number(seed)?;
    lines.push(b" ")?;
    push_verdict(verdict, lines)
}

/// The run of a script that is drawn from a number: it is one piece.
fn drawn(alloc: Global, campaign: &Campaign, script: &Script, seed: u64) -> Result<Play, RunFault>
    requires few { calls_in script.now.lists ≤ call_limit script.now.limits }
    requires begins { CanBegin campaign.now.from script.now.limits }
    ensures runs { IfOk result (λ play. DrawnOn campaign.now seed script.now [] (stage_of play)) }
    ensures start { IfOk result (λ play. play.core.start ≡ tree_at campaign.now.from script.now.limits) }
    ensures fault { IfErr result (HasNoRun campaign.now script.now seed) }
{
    let core = campaign.from.core(alloc, script)?;
    match play(alloc, core, script, campaign.by.schedule(seed), &mut Silent) {
        Ok(run) => Ok(run.play),
        Err(fault) => Err(fault),
    }
}

/// Adds the line of the run that is drawn from a number, and answers whether it is lawful.
fn push_run(
    alloc: Global,
    campaign: &Campaign,
    script: &Script,
    seed: u64,
    lines: &mut Addition,
) -> Result<bool, RunFault>
    requires few { calls_in script.now.lists ≤ call_limit script.now.limits }
    requires begins { CanBegin campaign.now.from script.now.limits }
    ensures run { OnOk result (IsLawfulOn campaign.now script.now seed) }
    ensures line { OnOk result (lines.new.added ≡ lines.old.added ++ lawful_line seed) }
    ensures lawful { IfOk result (λ lawful. lawful ≡ true) }
    ensures before { lines.new.before ≡ lines.old.before }
    ensures fault { IfErr result (HasNoRun campaign.now script.now seed) }
{
    let play = match drawn(alloc, campaign, script, seed) {
        Ok(play) => play,
        Err(fault) => return Err(fault),
    };
    play.core.told();
    let Ok(verdict) = check_from(alloc, play.core.start(), play.core.timeline()) else {
        return Err(RunFault::OutOfMemory);
    };
    match push_line(seed, &verdict, lines) {
        Ok(()) => Ok(is_lawful(&verdict)),
        Err(_) => Err(RunFault::OutOfMemory),
    }
}

/// The lines of so many runs of a campaign, drawn from a number, the next one, and so on, and whether each says that its run is
/// lawful, as by the clauses it does. A listener for progress hears of each run.
pub fn seeds_of<Listener: Witness>(
    alloc: Global,
    campaign: &Campaign,
    script: &Script,
    seed: u64,
    runs: u64,
    witness: &mut Listener,
) -> Result<Made<bool>, RunFault>
    requires few { calls_in script.now.lists ≤ call_limit script.now.limits }
    requires begins { CanBegin campaign.now.from script.now.limits }
    requires seed { seed ≤ SEED_LIMIT }
    requires runs { runs ≤ RUN_LIMIT }
    ensures ok { IfOk result (λ made. AreLawfulOn campaign.now script.now seed runs made.text.items) }
    ensures lawful { IfOk result (λ made. made.end ≡ true) }
    ensures fault { IfErr result (LacksRun campaign.now script.now seed runs) }
{
    let mut lines = Addition::new(Vec::new(alloc));
    let mut lawful = true;
    for run in 0..runs {
        match push_run(alloc, campaign, script, seed + run, &mut lines) {
            Ok(well) => lawful = lawful && well,
            Err(fault) => return Err(fault),
        }
        witness.has_run(run + 1, runs);
    }
    Ok(Made {
        text: lines.kept(),
        end: lawful,
    })
}

/// The same from the root alone, of the script that a text has, which is let go once it is read.
fn lines_of_script<Listener: Witness>(
    alloc: Global,
    text: Vec<u8>,
    seed: u64,
    runs: u64,
    witness: &mut Listener,
) -> Result<Made<bool>, RunFault>
    requires seed { seed ≤ SEED_LIMIT }
    requires runs { runs ≤ RUN_LIMIT }
    ensures { MakesRuns seed runs text.items result }
{
    let script = script_in(alloc, text.as_slice())?;
    drop(text);
    let campaign = Campaign {
        from: Origin::Root,
        by: Policy::Uniform,
    };
    seeds_of(alloc, &campaign, &script, seed, runs, witness)
}

/// Reads a script to its end, and runs it so many times, with the threads that are drawn from a number, the next one,
/// and so on. It checks each run's journal, and writes a line for each: `seed`, the number, and the verdict. The answer
/// is whether each is lawful, and by the clauses it is. All lines are made before the first byte is written. A listener
/// for progress hears of each run.
pub fn run_seeds<R: Source, W: Sink, Listener: Witness>(
    alloc: Global,
    reader: &mut R,
    writer: &mut W,
    seed: u64,
    runs: u64,
    witness: &mut Listener,
) -> Result<bool, RunFault>
    requires reads { R.failures reader.old < 2 ^ 64 - 1 }
    requires writes { W.failures writer.old < 2 ^ 64 - 1 }
    requires seed { seed ≤ SEED_LIMIT }
    requires some { 1 ≤ runs }
    requires most { runs ≤ RUN_LIMIT }

    // Each run is lawful, and what is written says so.
    ensures ran { OnOk result ((text : List ℕ) × IfSome (R.remaining reader.old) (λ input. AreRunsOf seed runs input text) × Appends (W.contents writer.old) (W.contents writer.new) text) }
    ensures lawful { IfOk result (λ lawful. lawful ≡ true) }
    ensures end { OnOk result (IsAtEnd (R.remaining reader.new)) }
    ensures input { (f : ScriptFault) → result ≡ Err (RunFault.Input f) → IfSome (R.remaining reader.old) (λ input. script_of input ≡ Err f) }
    ensures full { result ≢ Err RunFault.Full }
    ensures under_way { (call : ℕ) → result ≢ Err (RunFault.UnderWay call) }

    // A device is blamed only where it failed in this call; after a failed write a beginning of the lines stands, and after every
    // other error nothing was written.
    ensures devices { KeepsDevices R.failures W.failures reader.old reader.new writer.old writer.new RunFault.Read RunFault.Write result }
    ensures beginning { IsErrOf result RunFault.Write → (text : List ℕ) × IfSome (R.remaining reader.old) (λ input. AreRunsOf seed runs input text) × WritesBeginning text (W.contents writer.old) (W.contents writer.new) }
{
    let ended = transform(
        alloc,
        reader,
        writer,
        |text| -> Result<Made<bool>, RunFault>
            requires seed { seed ≤ SEED_LIMIT }
            requires runs { runs ≤ RUN_LIMIT }
            ensures { MakesRuns seed runs text.items result }
        { lines_of_script(alloc, text, seed, runs, witness) },
    );
    match ended {
        Ok(lawful) => Ok(lawful),
        Err(failure) => Err(between(failure)),
    }
}
