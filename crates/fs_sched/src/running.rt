//! The runner that runs a script.

ghost use Rattle.std.specs.Prelude.{◌≡◌, ◌≢◌, ◌+◌, ◌-◌, ◌<◌, ◌≤◌, ◌^◌, ℕ, [], List, length, min, map, Ok, Err, IfOk, OnOk, OnErr, IfErr, IfSome, IsErrOf};
ghost use Rattle.std.specs.Io.KnownBytes.{Appends, IsAtEnd};
ghost use Rattle.fs_names.specs.Limits.{node_limit};
ghost use Rattle.fs_timeline.specs.declared.entry.Entry.{Entry};
ghost use Rattle.fs_nodes.specs.Stores.{graph_of};
ghost use Rattle.fs_machine.specs.States.{empty, fresh};
ghost use Rattle.fs_core.specs.CoreValues.{state_of};
ghost use Rattle.fs_words.specs.declared.fault.ScriptFault.{ScriptFault};
ghost use Rattle.fs_script.specs.Script.{script_of};
ghost use Rattle.fs_script.specs.Limits.{call_limit};
ghost use Rattle.fs_sched.specs.Devices.{KeepsDevices, WritesBeginning};
ghost use Rattle.fs_sched.specs.Runs.{before_all, calls_in, end_of, IsOutputFrom, IsFaultOfRun, IsWhole, HasFinish, ReachesStop, StopsFrom};
ghost use Rattle.fs_sched.specs.EachRun.{AreOfTheRun, EachIsReadAgain, HasShortNames, IsLinearizableRun, SomeIsReadAgain};
ghost use Rattle.fs_sched.specs.code.Counts.{AreCounts};
ghost use Rattle.fs_sched.specs.code.Mades.{IsRead, MakesRun};
ghost use Rattle.fs_sched.specs.code.Done.{IsRun};
ghost use Rattle.fs_sched.specs.code.Notes.{NotesRun};
ghost use Rattle.fs_sched.specs.code.Stages.{stage_of, IsWhy};

use crate::input::script_in;
use crate::pieces::Pieces;
use crate::play::Play;
use crate::run_texts::{Counts, counted_text};
use crate::schedule::Schedule;
use fs_calls::Call;
use fs_core::Core;
use fs_sched_witness::{Silent, Witness};
use fs_script::Script;
use fs_verdict::{Made, RunFault, Sink, Source, between, transform};
use std::alloc::Global;

/// How a run ended: how many calls began, took their place and returned, of how many calls of the script.
#[derive(Clone, Copy, Debug, PartialEq, Eq)]
pub struct RunEnd {
    pub begun: usize,
    pub committed: usize,
    pub returned: usize,
    pub calls: usize,
}

/// How many calls the lists have.
fn count_calls(lists: &[Vec<Call>]) -> usize
    ensures { result ≡ min (2 ^ 64 - 1) (calls_in (map (λ calls. calls.items) lists.now)) }
{
    let mut count = 0usize;
    for calls in lists {
        count = count.saturating_add(calls.len());
    }
    count
}

/// How a run of a script with so many calls ended, of whose entries there are so many.
fn end_of(calls: usize, counts: Counts) -> RunEnd
    ensures { (script : Script) (entries : List Entry) → calls ≡ min (2 ^ 64 - 1) (calls_in script.lists) → AreCounts counts entries → result ≡ end_of script entries }
{
    RunEnd {
        begun: counts.begun,
        committed: counts.committed,
        returned: counts.returned,
        calls,
    }
}

/// How a run of a script ended that has so many entries, in all its pieces.
pub fn run_end(script: &Script, counts: Counts) -> RunEnd
    ensures { (entries : List Entry) → AreCounts counts entries → result ≡ end_of script.now entries }
{
    end_of(count_calls(script.lists.as_slice()), counts)
}

/// The core of a run that begins at the root alone, by the limits of its script. The only error is out of memory.
#[tactic(auto, using(fs_names::proofs::LimitLemmas::some_nodes))]
pub(crate) fn root_core(alloc: Global, script: &Script) -> Result<Core, RunFault>
    ensures state { IfOk result (λ core. state_of core ≡ empty script.now.limits (node_limit script.now.limits)) }
    ensures seats { IfOk result (λ core. core.seats ≡ []) }
    ensures fault { IfErr result (λ fault. fault ≡ RunFault.OutOfMemory) }
{
    match Core::with_limits(alloc, script.limits.nodes(), script.limits) {
        Ok(core) => Ok(core),
        Err(_) => Err(RunFault::OutOfMemory),
    }
}

/// A run of a script that was read, from its first event to its last, on a core without seats.
pub(crate) fn play<Listener: Witness>(
    alloc: Global,
    core: Core,
    script: &Script,
    schedule: Schedule,
    witness: &mut Listener,
) -> Result<Pieces, RunFault>
    requires seats { core.seats ≡ [] }
    ensures told { IfOk result (λ run. NotesRun Listener.Told schedule script.now (before_all (state_of core) (length script.now.lists)) witness.old (stage_of run.play) witness.new) }
    ensures runs { IfOk result (IsRun schedule script.now (before_all (state_of core) (length script.now.lists))) }
    ensures why { IfErr result (IsWhy (StopsFrom schedule script.now (before_all (state_of core) (length script.now.lists)))) }
{
    let Ok(mut run) = Pieces::new(alloc, core, script.lists.as_slice().len()) else {
        return Err(RunFault::OutOfMemory);
    };
    let calls = count_calls(script.lists.as_slice());
    run.play.core.make_room(calls);
    witness.begins(calls);
    match run.run(alloc, script, schedule, witness) {
        Ok(()) => Ok(run),
        Err(fault) => Err(fault),
    }
}

/// The text of a run of a script on a core on which nothing has begun, and how it ended. The script is let go before.
pub fn run_on<Listener: Witness>(
    alloc: Global,
    core: Core,
    script: Script,
    schedule: Schedule,
    witness: &mut Listener,
) -> Result<Made<RunEnd>, RunFault>
    requires few { calls_in script.lists ≤ call_limit script.limits }
    requires seats { core.seats ≡ [] }
    requires fresh { state_of core ≡ fresh (node_limit core.start.limits) core.start (graph_of core.store) }
    ensures output { IfOk result (λ made. IsOutputFrom schedule script (before_all (state_of core) (length script.lists)) made.end made.text.items) }
    ensures again { OnOk result (IsRead script → core.start.limits ≡ script.limits → HasShortNames script.limits core.start.tree → SomeIsReadAgain schedule script (before_all (state_of core) (length script.lists))) }
    ensures why { IfErr result (IsWhy (StopsFrom schedule script (before_all (state_of core) (length script.lists)))) }
{
    core.told();
    let run = match play(alloc, core, &script, schedule, witness) {
        Ok(run) => run,
        Err(fault) => return Err(fault),
    };
    let calls = count_calls(script.lists.as_slice());
    drop(script);
    let Pieces { play, told } = run;
    let Play { core, .. } = play;
    let (start, timeline, store) = core.into_parts();
    match counted_text(alloc, &start, timeline.into_entries(), &store) {
        Ok(made) => Ok(Made {
            text: made.text,
            end: end_of(calls, told.plus(made.counts)),
        }),
        Err(_) => Err(RunFault::OutOfMemory),
    }
}

/// The same of the script that a text has, which is let go once it is read.
fn text_of_script<Listener: Witness>(
    alloc: Global,
    text: Vec<u8>,
    schedule: Schedule,
    witness: &mut Listener,
) -> Result<Made<RunEnd>, RunFault>
    ensures { MakesRun schedule text.items result }
{
    let script = script_in(alloc, text.as_slice())?;
    drop(text);
    let core = root_core(alloc, &script)?;
    run_on(alloc, core, script, schedule, witness)
}

/// The text of a run of a script in memory, as `run_script` writes it, without spare room. The script is read without a
/// copy of it.
pub fn run_bytes(alloc: Global, script: &[u8], schedule: Schedule) -> Result<Vec<u8>, RunFault>
    ensures ran { IfOk result (λ text. (end : RunEnd) × AreOfTheRun schedule script.now end text.items) }
    ensures linearizable { IfOk result (λ text. IsLinearizableRun schedule script.now text.items) }
    ensures fault { IfErr result (IsFaultOfRun schedule script.now) }
{
    let read = script_in(alloc, script)?;
    let core = root_core(alloc, &read)?;
    match run_on(alloc, core, read, schedule, &mut Silent) {
        Ok(mut made) => {
            made.text.shrink_to_fit();
            Ok(made.text)
        }
        Err(fault) => Err(fault),
    }
}

/// Reads a script to its end, runs it with a schedule, and writes the text of the run, which is made before its first
/// byte is written. The answer says how many calls began, committed and returned, in all pieces of the run. The text is
/// that of the last piece. A listener for progress hears of each round, drawn event and word.
pub fn run_script<R: Source, W: Sink, Listener: Witness>(
    alloc: Global,
    reader: &mut R,
    writer: &mut W,
    schedule: Schedule,
    witness: &mut Listener,
) -> Result<RunEnd, RunFault>
    requires reads { R.failures reader.old < 2 ^ 64 - 1 }
    requires writes { W.failures writer.old < 2 ^ 64 - 1 }

    // What is written is the text of every run of the script that was read, of which there is one.
    ensures ran { IfOk result (λ end. (text : List ℕ) × IfSome (R.remaining reader.old) (λ input. AreOfTheRun schedule input end text) × Appends (W.contents writer.old) (W.contents writer.new) text) }

    // The history that is written is linearizable, in the words of Herlihy and Wing.
    ensures linearizable { IfOk result (λ end. (text : List ℕ) × IfSome (R.remaining reader.old) (λ input. IsLinearizableRun schedule input text) × Appends (W.contents writer.old) (W.contents writer.new) text) }
    ensures end { OnOk result (IsAtEnd (R.remaining reader.new)) }
    ensures input { (f : ScriptFault) → result ≡ Err (RunFault.Input f) → IfSome (R.remaining reader.old) (λ input. script_of input ≡ Err f) }
    ensures full { result ≢ Err RunFault.Full }

    // `UnderWay` comes where the script comes to a checkpoint while calls are under way; then it has no run.
    ensures under_way { (call : ℕ) → result ≡ Err (RunFault.UnderWay call) → IfSome (R.remaining reader.old) (λ input. ReachesStop schedule input (RunFault.UnderWay call)) }

    // Cut before its tree, a text within the limit of texts is read again as the start tree and the entries of its piece.
    ensures again { OnOk result (IfSome (R.remaining reader.old) (EachIsReadAgain schedule)) }

    // Where rounds to the end follow, each call of the script began, took its place and returned.
    ensures whole { IfOk result (λ end. schedule ≢ Schedule.Given → IsWhole end) }
    ensures finish { IfOk result (λ end. IfSome (R.remaining reader.old) (λ input. HasFinish input → IsWhole end)) }

    // A device is blamed only where it failed in this call; after a failed write a beginning of the text stands, and after every
    // other error nothing was written.
    ensures devices { KeepsDevices R.failures W.failures reader.old reader.new writer.old writer.new RunFault.Read RunFault.Write result }
    ensures beginning { IsErrOf result RunFault.Write → (end : RunEnd) × (text : List ℕ) × IfSome (R.remaining reader.old) (λ input. AreOfTheRun schedule input end text) × WritesBeginning text (W.contents writer.old) (W.contents writer.new) }
{
    let ended = transform(
        alloc,
        reader,
        writer,
        |text| -> Result<Made<RunEnd>, RunFault>
            ensures { MakesRun schedule text.items result }
        { text_of_script(alloc, text, schedule, witness) },
    );
    match ended {
        Ok(end) => Ok(end),
        Err(failure) => Err(between(failure)),
    }
}
