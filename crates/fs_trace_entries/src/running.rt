//! The trace of a script's run or of a journal, and the command that makes it of an input.

ghost use Rattle.std.specs.Prelude.{◌≡◌, ◌++◌, [], Bool, List, true, false, IfOk, OnOk, IfErr, codes};
ghost use Rattle.fs_timeline.specs.declared.entry.Entry.{Entry};
ghost use Rattle.fs_verdict.specs.Checks.{is_journal};
ghost use Rattle.fs_verdict.specs.InputFaults.{IsFaultOf};
ghost use Rattle.fs_sched.specs.Checks.{verdict_of};
ghost use Rattle.fs_sched.specs.RunTexts.{end_line};
ghost use Rattle.fs_sched.specs.Runs.{IsFaultOfRun};
ghost use Rattle.fs_sched.specs.code.Counts.{AreCounts};
ghost use Rattle.fs_trace_replay.specs.Commits.{front_by};
ghost use Rattle.fs_trace_replay.specs.Replays.{IsReplayOf};
ghost use Rattle.fs_trace_replay.specs.declared.asking.Question.TheVariants as question;
ghost use Rattle.fs_trace_entries.specs.Entries.{IsTraceBehind, IsTraceOfJournal, IsWrittenBehind, IsWrittenRun};
ghost use Rattle.fs_trace_entries.specs.Makes.{MakesTrace, MakesTraceAs};
ghost use Rattle.fs_trace_entries.specs.Objects.{AreObjectsBehind, end_object};

use crate::left::{left_objects, left_text};
use crate::lines::lines_of;
use crate::objects::objects_of;
use fs_journal::check_from;
use fs_sched::{Counts, RunEnd, RunFault, Schedule, counts_of, journal_in, push_counts};
use fs_script::Journal;
use fs_seq::SeqTree;
use fs_timeline::{Entry, Verdict};
use fs_trace::{object_bytes, trace_bytes};
use fs_trace_replay::{Question, ReplayFault, Replayed, replay_bytes};
use fs_verdict::{Command, Made, is_journal};
use fs_words::{Addition, Member, push_object};
use std::alloc::{AllocError, Global};

/// How a trace is written.
#[derive(Clone, Copy, Debug, PartialEq, Eq)]
pub enum Notation {
    /// In words.
    Words,
    /// As objects of JSON, one a line.
    Objects,
}

/// What is answered of an input that was traced.
#[derive(Drop)]
pub struct Traced {
    /// Whether each call of the script returned, or the journal is lawful.
    pub well: bool,
    /// Of a journal that is not lawful its fault, in words; else no bytes.
    pub reason: Vec<u8>,
}

/// The tree that the commits of a journal make, up to its first fault, and what is answered of it.
fn tree_in(alloc: Global, text: &[u8]) -> Result<Made<Replayed>, RunFault>
    requires { is_journal text.now ≡ true }
    ensures replay { IfOk result (λ made. IsReplayOf Schedule.Given text.now question.Whole made.end.well made.text.items) }
    ensures quiet { IfOk result (λ made. made.end.well ≡ true → made.end.reason.items ≡ []) }
    ensures fault { IfErr result (IsFaultOf (verdict_of text.now)) }
{
    match replay_bytes(alloc, text, Schedule::Given, &Question::Whole) {
        Ok(made) => Ok(made),
        Err(ReplayFault::Run(fault)) => Err(fault),
        // Each journal has a whole tree.
        Err(_) => Err(RunFault::OutOfMemory),
    }
}

/// The entries that hold, by the verdict on them.
fn front_by(verdict: &Verdict, entries: Vec<Entry>) -> Vec<Entry>
    ensures { result.items ≡ front_by verdict.now entries.items }
{
    match verdict {
        Verdict::Lawful => entries,
        Verdict::Fault(place, _) => {
            let mut front = entries;
            front.truncate(place.saturating_sub(1));
            front
        }
    }
}

/// Adds the trace of entries: lines, a tree, and the counts.
fn push_trace(
    lines: &[u8],
    left: &[u8],
    tree: &[u8],
    entries: &[Entry],
    text: &mut Addition,
) -> Result<(), AllocError>
    ensures ok { OnOk result (text.new.added ≡ text.old.added ++ (codes "atomfs-trace 2\n" ++ (lines.now ++ (left.now ++ (tree.now ++ end_line entries.now))))) }
    ensures before { text.new.before ≡ text.old.before }
{
    text.push(b"atomfs-trace 2\n")?;
    text.push(lines)?;
    text.push(left)?;
    text.push(tree)?;
    push_counts(counts_of(entries), text)
}

/// The trace of entries from a tree in words, after which comes another tree.
fn words_of(
    alloc: Global,
    start: SeqTree,
    entries: &[Entry],
    tree: &[u8],
) -> Result<Vec<u8>, AllocError>
    ensures { IfOk result (λ text. IsTraceBehind entries.now tree.now text.items) }
{
    let lines = lines_of(alloc, start, entries)?;
    let left = left_text(alloc, entries)?;
    let mut text = Addition::new(Vec::new(alloc));
    push_trace(&lines, &left, tree, entries, &mut text)?;
    Ok(text.kept())
}

/// Adds the object of the end: a tree, and the counts of entries.
fn push_end(
    alloc: Global,
    tree: &[u8],
    counts: Counts,
    text: &mut Addition,
) -> Result<(), AllocError>
    ensures ok { OnOk result ((entries : List Entry) → AreCounts counts entries → text.new.added ≡ text.old.added ++ end_object tree.now entries) }
    ensures before { text.new.before ≡ text.old.before }
{
    let members = [
        Member::text(b"did", b"ends"),
        Member::text(b"tree", tree),
        Member::number(b"begun", counts.begun as u64),
        Member::number(b"committed", counts.committed as u64),
        Member::number(b"returned", counts.returned as u64),
    ];
    push_object(alloc, members.as_slice(), text)
}

/// The same as objects, with the tree in the last one.
fn objects_in(
    alloc: Global,
    start: SeqTree,
    entries: &[Entry],
    tree: &[u8],
) -> Result<Vec<u8>, AllocError>
    ensures { IfOk result (λ text. AreObjectsBehind entries.now tree.now text.items) }
{
    let lines = objects_of(alloc, start, entries)?;
    let left = left_objects(alloc, entries)?;
    let mut text = Addition::new(Vec::new(alloc));
    text.push(&lines)?;
    text.push(&left)?;
    push_end(alloc, tree, counts_of(entries), &mut text)?;
    Ok(text.kept())
}

/// The same in a notation.
fn text_of(
    alloc: Global,
    start: SeqTree,
    entries: &[Entry],
    tree: &[u8],
    notation: Notation,
) -> Result<Vec<u8>, AllocError>
    ensures { IfOk result (λ text. IsWrittenBehind notation entries.now tree.now text.items) }
{
    match notation {
        Notation::Words => words_of(alloc, start, entries, tree),
        Notation::Objects => objects_in(alloc, start, entries, tree),
    }
}

/// The trace of a journal, after which comes the tree of its commits.
fn text_in(alloc: Global, text: &[u8], tree: &[u8], notation: Notation) -> Result<Vec<u8>, RunFault>
    ensures traced { (well : Bool) → IsReplayOf Schedule.Given text.now question.Whole well tree.now → IfOk result (λ made. IsTraceOfJournal notation text.now well made.items) }
    ensures fault { IfErr result (IsFaultOf (verdict_of text.now)) }
{
    let journal = journal_in(alloc, text)?;
    let Journal { start, entries } = journal;
    let Ok(verdict) = check_from(alloc, &start, entries.as_slice()) else {
        return Err(RunFault::OutOfMemory);
    };
    let front = front_by(&verdict, entries);
    match text_of(alloc, start, front.as_slice(), tree, notation) {
        Ok(text) => Ok(text),
        Err(_) => Err(RunFault::OutOfMemory),
    }
}

/// The trace of a text that is to be read as a journal.
fn trace_journal(
    alloc: Global,
    text: &[u8],
    schedule: Schedule,
    every: bool,
    notation: Notation,
) -> Result<Made<Traced>, RunFault>
    requires { is_journal text.now ≡ true }
    ensures { MakesTraceAs notation true schedule every text.now result }
{
    let tree = match tree_in(alloc, text) {
        Ok(tree) => tree,
        Err(fault) => return Err(fault),
    };
    let Replayed { well, reason } = tree.end;
    match text_in(alloc, text, tree.text.as_slice(), notation) {
        Ok(text) => Ok(Made {
            text,
            end: Traced { well, reason },
        }),
        Err(fault) => Err(fault),
    }
}

/// The trace of the run of a script that a text has, in a notation.
fn run_text(
    alloc: Global,
    text: &[u8],
    schedule: Schedule,
    every: bool,
    notation: Notation,
) -> Result<Made<RunEnd>, RunFault>
    ensures traced { IfOk result (λ made. IsWrittenRun notation schedule every text.now made.end made.text.items) }
    ensures fault { IfErr result (IsFaultOfRun schedule text.now) }
{
    match notation {
        Notation::Words => trace_bytes(alloc, text, schedule, every),
        Notation::Objects => object_bytes(alloc, text, schedule, every),
    }
}

/// The trace of the run of a script that a text has.
fn trace_run(
    alloc: Global,
    text: &[u8],
    schedule: Schedule,
    every: bool,
    notation: Notation,
) -> Result<Made<Traced>, RunFault>
    ensures { MakesTraceAs notation false schedule every text.now result }
{
    match run_text(alloc, text, schedule, every, notation) {
        Ok(made) => Ok(Made {
            text: made.text,
            end: Traced {
                well: made.end.returned == made.end.calls,
                reason: Vec::new(alloc),
            },
        }),
        Err(fault) => Err(fault),
    }
}

/// The trace of a text: as a journal, where it has the first bytes of one, and else as a script.
fn trace_text(
    alloc: Global,
    text: &[u8],
    schedule: Schedule,
    every: bool,
    notation: Notation,
) -> Result<Made<Traced>, RunFault>
    ensures { MakesTrace notation schedule every text.now result }
{
    if is_journal(text) {
        trace_journal(alloc, text, schedule, every, notation)
    } else {
        trace_run(alloc, text, schedule, every, notation)
    }
}

/// The trace of a script's run, as `trace_bytes` or `object_bytes` of `fs_trace` makes it. Or of a journal a line or an object for each of
/// its entries, up to the first fault if it is not lawful, and then the tree and the counts. The answer is whether each call of the script
/// returned, or the journal is lawful, and the journal's fault in words. `UnderWay` means that the script comes to a checkpoint while calls
/// are pending. Nobody hears of progress.
#[derive(Clone, Copy, Debug, PartialEq, Eq)]
pub struct TraceInput {
    /// By what a script is run.
    pub schedule: Schedule,
    /// Whether each event of a run has a line, also one that says nothing new.
    pub every: bool,
    /// How the trace is written.
    pub notation: Notation,
}

impl<Listener> Command<Listener> for TraceInput {
    ghost use Rattle.fs_trace_entries.specs.Makes.{MakesTrace};
    ghost use Rattle.fs_trace_entries.specs.code.Laws.{trace_honest};

    type End = Traced;

    type Fault = RunFault;

    ghost Asks = { λ _. Unit {0} };

    ghost Makes = { λ c. MakesTrace c.notation c.schedule c.every };

    fn make(
        self,
        alloc: Global,
        input: Vec<u8>,
        _listener: &mut Listener,
    ) -> Result<Made<Traced>, RunFault> {
        let TraceInput {
            schedule,
            every,
            notation,
        } = self;
        trace_text(alloc, input.as_slice(), schedule, every, notation)
    }

    ghost honest = { λ c. trace_honest c.notation c.schedule c.every };
}
