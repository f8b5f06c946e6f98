//! What is answered to a question about an input.

ghost use Rattle.std.specs.Prelude.{◌≡◌, ◌≤◌, ◌-◌, true, length, take, slice_get, IfOk, IfErr};
ghost use Rattle.fs_calls.specs.Outcomes.{play};
ghost use Rattle.fs_calls.specs.Tree.{IsTree};
ghost use Rattle.fs_timeline.specs.Timeline.{commits};
ghost use Rattle.fs_script.specs.TreeText.{tree_text};
ghost use Rattle.fs_trace_replay.specs.Commits.{CommitsBehind, committed};
ghost use Rattle.fs_trace_replay.specs.Replays.{IsAnswerTo, IsCallBehind, IsCallOf, IsLineOfCommit};
ghost use Rattle.fs_trace_replay.specs.code.Seen.{calls_in};
ghost use Rattle.fs_trace_replay.specs.code.Tellings.{IsChangeTold, IsTreeBefore, IsUncalled, IsUncommitted, IsUnanswered, IsUnplaced, memory};

use crate::asking::Question;
use crate::changes::last_change;
use crate::commits::{commits, committed, place_of, played};
use crate::fault::ReplayFault;
use crate::told::{Told, seat_by, thread_word};
use crate::turns::{call_at, turn_of};
use crate::writing::{nobody_line, tree_text, who_line};
use fs_calls::Call;
use fs_names::{CallNo, Path};
use fs_sched::RunFault;
use fs_script::ThreadNames;
use fs_seq::SeqTree;
use fs_timeline::Entry;
use fs_verdict::Made;
use std::alloc::{AllocError, Global};

/// The fault where memory ran out.
fn memory() -> ReplayFault
    ensures { result ≡ memory }
{
    ReplayFault::Run(RunFault::OutOfMemory)
}

/// The text of the tree that calls make of one.
fn tree_behind(alloc: Global, start: SeqTree, calls: &[&Call]) -> Result<Vec<u8>, AllocError>
    ensures { IfOk result (λ text. text.items ≡ tree_text (play start (calls_in calls.now))) }
{
    let tree = played(alloc, start, calls)?;
    tree_text(alloc, &tree)
}

/// The answer that is the tree after these calls.
fn answer_behind(alloc: Global, start: SeqTree, calls: &[&Call]) -> Result<Made<bool>, ReplayFault>
    ensures answer { IfOk result (λ made. (made.end ≡ true) × (made.text.items ≡ tree_text (play start (calls_in calls.now)))) }
    ensures fault { IfErr result (λ f. f ≡ memory) }
{
    match tree_behind(alloc, start, calls) {
        Ok(text) => Ok(Made { text, end: true }),
        Err(_) => Err(memory()),
    }
}

/// The answer that is the tree after so many of these calls.
fn answer_at(
    alloc: Global,
    start: SeqTree,
    calls: &[&Call],
    count: u64,
) -> Result<Made<bool>, ReplayFault>
    ensures answer { IfOk result (λ made. (count ≤ length calls.now) × (made.end ≡ true) × (made.text.items ≡ tree_text (play start (calls_in (take count calls.now))))) }
    ensures fault { IfErr result (IsUncommitted (length calls.now) count) }
{
    if count > calls.len() as u64 {
        return Err(ReplayFault::NoCommit(count));
    }
    answer_behind(alloc, start, &calls[..count as usize])
}

/// The number of a thread's call.
fn number_at(
    alloc: Global,
    names: &Option<ThreadNames>,
    entries: &[Entry],
    thread: &[u8],
    turn: u64,
) -> Result<CallNo, ReplayFault>
    ensures number { IfOk result (IsCallOf names.now entries.now thread.now turn) }
    ensures fault { IfErr result (IsUncalled names.now entries.now thread.now turn) }
{
    let Some(seat) = seat_by(names, thread) else {
        return Err(ReplayFault::NoCall);
    };
    match call_at(alloc, entries, seat, turn) {
        Ok(Some(number)) => Ok(number),
        Ok(None) => Err(ReplayFault::NoCall),
        Err(_) => Err(memory()),
    }
}

/// How many commits come before that of a call.
fn place_in(alloc: Global, entries: &[Entry], number: CallNo) -> Result<usize, ReplayFault>
    ensures few { IfOk result (λ place. place ≤ length (commits entries.now)) }
    ensures place { IfOk result (CommitsBehind entries.now number) }
    ensures fault { IfErr result (IsUnplaced entries.now number) }
{
    let Ok(numbers) = committed(alloc, entries) else {
        return Err(memory());
    };
    match place_of(&numbers, number) {
        Some(place) => Ok(place),
        None => Err(ReplayFault::NoCall),
    }
}

/// How many commits come before that of a thread's call.
fn place_before(
    alloc: Global,
    names: &Option<ThreadNames>,
    entries: &[Entry],
    thread: &[u8],
    turn: u64,
) -> Result<usize, ReplayFault>
    ensures few { IfOk result (λ place. place ≤ length (commits entries.now)) }
    ensures place { IfOk result (IsCallBehind names.now entries.now thread.now turn) }
    ensures fault { IfErr result (IsUncalled names.now entries.now thread.now turn) }
{
    match number_at(alloc, names, entries, thread, turn) {
        Ok(number) => place_in(alloc, entries, number),
        Err(fault) => Err(fault),
    }
}

/// The answer that is the tree before the commit of a thread's call.
fn answer_before(
    alloc: Global,
    names: &Option<ThreadNames>,
    entries: &[Entry],
    start: SeqTree,
    calls: &[&Call],
    thread: &[u8],
    turn: u64,
) -> Result<Made<bool>, ReplayFault>
    requires { calls_in calls.now ≡ commits entries.now }
    ensures answer { IfOk result (λ made. IsTreeBefore names.now start entries.now thread.now turn made.end made.text.items) }
    ensures fault { IfErr result (IsUncalled names.now entries.now thread.now turn) }
{
    match place_before(alloc, names, entries, thread, turn) {
        Ok(place) => answer_behind(alloc, start, &calls[..place]),
        Err(fault) => Err(fault),
    }
}

/// The line of the commit with this place, counted from 1: that of this call.
fn line_of(
    alloc: Global,
    names: &Option<ThreadNames>,
    entries: &[Entry],
    place: usize,
    number: CallNo,
    call: &Call,
) -> Result<Vec<u8>, AllocError>
    requires place { CommitsBehind entries.now number (place - 1) }
    requires call { slice_get (commits entries.now) (place - 1) ≡ Some call.now }
    ensures { IfOk result (λ line. IsLineOfCommit names.now entries.now place line.items) }
{
    let Some((seat, turn)) = turn_of(entries, number) else {
        unreachable!();
    };
    let thread = thread_word(alloc, names, seat)?;
    who_line(alloc, place, number.get(), &thread, turn, call)
}

/// The line of the commit with this place, counted from 1, of those with these numbers and calls.
fn line_at(
    alloc: Global,
    names: &Option<ThreadNames>,
    entries: &[Entry],
    numbers: &[CallNo],
    calls: &[&Call],
    place: usize,
) -> Result<Vec<u8>, AllocError>
    requires some { 1 ≤ place }
    requires few { place ≤ length calls.now }
    requires numbers { numbers.now ≡ committed entries.now }
    requires commits { calls_in calls.now ≡ commits entries.now }
    ensures { IfOk result (λ line. IsLineOfCommit names.now entries.now place line.items) }
{
    let number = numbers[place - 1];
    let call = calls[place - 1];
    line_of(alloc, names, entries, place, number, call)
}

/// The line of the commit with this place, counted from 1.
fn commit_line(
    alloc: Global,
    names: &Option<ThreadNames>,
    entries: &[Entry],
    calls: &[&Call],
    place: usize,
) -> Result<Vec<u8>, AllocError>
    requires some { 1 ≤ place }
    requires few { place ≤ length calls.now }
    requires commits { calls_in calls.now ≡ commits entries.now }
    ensures { IfOk result (λ line. IsLineOfCommit names.now entries.now place line.items) }
{
    let numbers = committed(alloc, entries)?;
    line_at(alloc, names, entries, &numbers, calls, place)
}

/// The answer who last changed what is at a path.
fn answer_who(
    alloc: Global,
    names: &Option<ThreadNames>,
    entries: &[Entry],
    start: SeqTree,
    calls: &[&Call],
    path: &Path,
) -> Result<Made<bool>, AllocError>
    requires tree { IsTree start.tree }
    requires commits { calls_in calls.now ≡ commits entries.now }
    ensures { IfOk result (λ made. IsChangeTold names.now entries.now start (calls_in calls.now) path.now made.end made.text.items) }
{
    match last_change(alloc, start, calls, path)? {
        None => Ok(Made {
            text: nobody_line(alloc)?,
            end: false,
        }),
        Some(place) => Ok(Made {
            text: commit_line(alloc, names, entries, calls, place)?,
            end: true,
        }),
    }
}

/// The answer to a question, by the calls that entries commit.
fn answer_of(
    alloc: Global,
    names: &Option<ThreadNames>,
    entries: &[Entry],
    start: SeqTree,
    calls: &[&Call],
    question: &Question,
) -> Result<Made<bool>, ReplayFault>
    requires tree { IsTree start.tree }
    requires commits { calls_in calls.now ≡ commits entries.now }
    ensures answer { IfOk result (λ made. IsAnswerTo names.now start entries.now question.now made.end made.text.items) }
    ensures fault { IfErr result (IsUnanswered names.now entries.now question.now) }
{
    match question {
        Question::Whole => answer_behind(alloc, start, calls),
        Question::At(count) => answer_at(alloc, start, calls, *count),
        Question::Before(thread, turn) => {
            answer_before(alloc, names, entries, start, calls, thread, *turn)
        }
        Question::Who(path) => match answer_who(alloc, names, entries, start, calls, path) {
            Ok(made) => Ok(made),
            Err(_) => Err(memory()),
        },
    }
}

/// The answer to a question about what an input says.
pub(crate) fn answer_to(
    alloc: Global,
    told: Told,
    question: &Question,
) -> Result<Made<bool>, ReplayFault>
    requires { IsTree told.start.tree }
    ensures answer { IfOk result (λ made. IsAnswerTo told.names told.start told.entries.items question.now made.end made.text.items) }
    ensures fault { IfErr result (IsUnanswered told.names told.entries.items question.now) }
{
    let Told {
        names,
        start,
        entries,
        ..
    } = told;
    match commits(alloc, &entries) {
        Ok(calls) => answer_of(alloc, &names, &entries, start, &calls, question),
        Err(_) => Err(memory()),
    }
}
