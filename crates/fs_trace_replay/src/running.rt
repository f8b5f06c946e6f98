//! The answer to a question on a text in memory, and the command that makes it of an input.

ghost use Rattle.std.specs.Prelude.{◌≡◌, ◌&&◌, [], true, IfOk, IfErr};
ghost use Rattle.fs_trace_replay.specs.Makes.{MakesReplay};

use crate::answering::answer_to;
use crate::asking::Question;
use crate::fault::ReplayFault;
use crate::told::told_by;
use fs_sched::{RunFault, Schedule};
use fs_verdict::{CheckJournal, Command, Made};
use fs_words::Addition;
use std::alloc::Global;

/// What is answered of an input's trees.
#[derive(Drop)]
pub struct Replayed {
    /// Whether what was asked for was found, and a journal is lawful.
    pub well: bool,
    /// Of a journal that is not lawful its fault, in words; else no bytes.
    pub reason: Vec<u8>,
}

/// The fault of a journal that is not lawful: the words of its verdict, and what is wrong.
fn reason_of(alloc: Global, text: &[u8]) -> Result<Vec<u8>, RunFault> {
    let Ok(journal) = Vec::from_slice(alloc, text) else {
        return Err(RunFault::OutOfMemory);
    };
    let checked = CheckJournal.make(alloc, journal, &mut ())?;
    let Made { text: line, end } = checked;
    let mut verdict = line;
    let _line_feed = verdict.pop();
    let mut reason = Addition::new(verdict);
    let Ok(()) = reason.push(b", ") else {
        return Err(RunFault::OutOfMemory);
    };
    match reason.push(end.reason.as_slice()) {
        Ok(()) => Ok(reason.kept()),
        Err(_) => Err(RunFault::OutOfMemory),
    }
}

/// What is wrong with a journal, in words, where it is not lawful.
fn reason_for(alloc: Global, text: &[u8], lawful: bool) -> Result<Vec<u8>, RunFault>
    ensures quiet { lawful ≡ true → IfOk result (λ reason. reason.items ≡ []) }
    ensures fault { IfErr result (λ f. f ≡ RunFault.OutOfMemory) }
{
    if lawful {
        return Ok(Vec::new(alloc));
    }
    match reason_of(alloc, text) {
        Ok(reason) => Ok(reason),
        Err(_) => Err(RunFault::OutOfMemory),
    }
}

/// Whether both hold.
fn both(one: bool, other: bool) -> bool
    ensures { result ≡ (one && other) }
{
    one && other
}

/// The answer to a question on the trees of a text in memory, as `ReplayInput` makes it. The text is read where it is.
pub fn replay_bytes(
    alloc: Global,
    text: &[u8],
    schedule: Schedule,
    question: &Question,
) -> Result<Made<Replayed>, ReplayFault>
    ensures replay { MakesReplay schedule question.now text.now result }
{
    let told = match told_by(alloc, text, schedule) {
        Ok(told) => told,
        Err(fault) => return Err(ReplayFault::Run(fault)),
    };
    let lawful = told.lawful;
    let answer = match answer_to(alloc, told, question) {
        Ok(answer) => answer,
        Err(fault) => return Err(fault),
    };
    let well = both(lawful, answer.end);
    match reason_for(alloc, text, lawful) {
        Ok(reason) => Ok(Made {
            text: answer.text,
            end: Replayed { well, reason },
        }),
        Err(fault) => Err(ReplayFault::Run(fault)),
    }
}

/// A question on the trees of a journal, or of a script, which is run. What is made is the text of the tree that the first commits make,
/// or the line of the commit that last changed what is at a path. If a run is in pieces, the question is about the last one. If a journal
/// is not lawful, it is about the entries before its fault. The answer is whether what was asked for was found and all is lawful, and the
/// journal's fault in words. `NoCommit` and `NoCall` mean that what is asked for is not there, and `UnderWay` that the script comes to a
/// checkpoint while calls are pending. Nobody hears of progress.
#[derive(Drop)]
pub struct ReplayInput {
    /// By what a script is run.
    pub schedule: Schedule,
    /// What is asked.
    pub question: Question,
}

impl<Listener> Command<Listener> for ReplayInput {
    ghost use Rattle.fs_trace_replay.specs.Makes.{MakesReplay};
    ghost use Rattle.fs_trace_replay.specs.code.Laws.{replay_honest};

    type End = Replayed;

    type Fault = ReplayFault;

    ghost Asks = { λ _. Unit {0} };

    ghost Makes = { λ c. MakesReplay c.schedule c.question };

    fn make(
        self,
        alloc: Global,
        input: Vec<u8>,
        _listener: &mut Listener,
    ) -> Result<Made<Replayed>, ReplayFault> {
        replay_bytes(alloc, input.as_slice(), self.schedule, &self.question)
    }

    ghost honest = { λ c. replay_honest c.schedule c.question };
}
