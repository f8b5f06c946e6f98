//! The runner that checks a journal.

ghost use Rattle.std.specs.Prelude.{◌≡◌, ◌≢◌, ◌+◌, ◌-◌, ◌<◌, ◌^◌, [], ℕ, List, true, Ok, Err, IfOk, OnOk, OnErr, IfErr, IfSome, IsErrOf};
ghost use Rattle.std.specs.Io.KnownBytes.{Appends, IsAtEnd};
ghost use Rattle.fs_timeline.specs.Verdicts.{verdict};
ghost use Rattle.fs_script.specs.Journals.{journal_of};
ghost use Rattle.fs_words.specs.declared.fault.ScriptFault.{ScriptFault};
ghost use Rattle.fs_verdict.specs.Checks.{is_lawful, verdict_line, verdict_of};
ghost use Rattle.fs_verdict.specs.Devices.{KeepsDevices, WritesBeginningOf};
ghost use Rattle.fs_verdict.specs.InputFaults.{IsFaultOf};
ghost use Rattle.fs_verdict.specs.Judged.{IsAnswer, MakesVerdict};

use crate::command::{Command, perform};
use crate::device::{Sink, Source};
use crate::fault::{RunFault, run_fault};
use crate::reason::reason_of;
use crate::shell::Made;
use crate::verdict_line::verdict_line;
use fs_journal::check_from;
use fs_script::{Journal, read_journal};
use fs_timeline::Verdict;
use std::alloc::{AllocError, Global};

/// The journal that a text has, or why there is none.
pub fn journal_in(alloc: Global, text: &[u8]) -> Result<Journal, RunFault>
    ensures ok { IfOk result (λ journal. journal_of text.now ≡ Ok (journal.start, journal.entries.items)) }
    ensures err { IfErr result (IsFaultOf (journal_of text.now)) }
{
    match read_journal(alloc, text) {
        Ok(journal) => Ok(journal),
        Err(fault) => Err(run_fault(fault)),
    }
}

/// The verdict on a journal, from its start tree.
fn verdict_on(alloc: Global, journal: &Journal) -> Result<Verdict, RunFault>
    ensures ok { IfOk result (λ v. v ≡ verdict journal.now.start journal.now.entries.items) }
    ensures err { IfErr result (λ fault. fault ≡ RunFault.OutOfMemory) }
{
    match check_from(alloc, &journal.start, journal.entries.as_slice()) {
        Ok(verdict) => Ok(verdict),
        Err(_) => Err(RunFault::OutOfMemory),
    }
}

/// What is answered of a journal that was checked.
#[derive(Drop)]
pub struct Checked {
    /// Whether it is lawful.
    pub lawful: bool,
    /// The verdict.
    pub verdict: Verdict,
    /// What is wrong with it, in words; no bytes where it is lawful.
    pub reason: Vec<u8>,
}

/// What is answered of a journal that has this verdict, with its text.
fn answer_of(
    alloc: Global,
    text: &[u8],
    journal: &Journal,
    verdict: &Verdict,
) -> Result<Checked, AllocError>
    ensures { IfOk result (IsAnswer verdict.now) }
{
    match verdict {
        Verdict::Lawful => Ok(Checked {
            lawful: true,
            verdict: *verdict,
            reason: Vec::new(alloc),
        }),
        Verdict::Fault(place, kind) => Ok(Checked {
            lawful: false,
            verdict: *verdict,
            reason: reason_of(alloc, text, journal, place.saturating_sub(1), *kind)?,
        }),
    }
}

/// The line of a verdict.
fn line_of(alloc: Global, verdict: &Verdict) -> Result<Vec<u8>, RunFault>
    ensures ok { IfOk result (λ line. line.items ≡ verdict_line verdict.now) }
    ensures err { IfErr result (λ fault. fault ≡ RunFault.OutOfMemory) }
{
    match verdict_line(alloc, verdict) {
        Ok(line) => Ok(line),
        Err(_) => Err(RunFault::OutOfMemory),
    }
}

/// The line of the verdict on the journal that a text has, and what is answered of it.
fn check_text(alloc: Global, text: &[u8]) -> Result<Made<Checked>, RunFault>
    ensures { MakesVerdict (verdict_of text.now) result }
{
    let journal = journal_in(alloc, text)?;
    let verdict = verdict_on(alloc, &journal)?;
    let Ok(end) = answer_of(alloc, text, &journal, &verdict) else {
        return Err(RunFault::OutOfMemory);
    };
    Ok(Made {
        text: line_of(alloc, &verdict)?,
        end,
    })
}

/// The check of a journal.
#[derive(Clone, Copy, Debug)]
pub struct CheckJournal;

impl<Listener> Command<Listener> for CheckJournal {
    ghost use Rattle.fs_verdict.specs.code.CheckLaws.{check_honest};

    type End = Checked;

    type Fault = RunFault;

    ghost Asks = { λ _. Unit {0} };

    ghost Makes = { λ _ input. MakesVerdict (verdict_of input) };

    fn make(
        self,
        alloc: Global,
        input: Vec<u8>,
        _listener: &mut Listener,
    ) -> Result<Made<Checked>, RunFault> {
        check_text(alloc, input.as_slice())
    }

    ghost honest = { λ _. check_honest };
}

/// The line of the verdict on a journal in memory, as `check_journal` writes it. The journal is read without a copy of
/// it.
pub fn check_bytes(alloc: Global, journal: &[u8]) -> Result<Vec<u8>, RunFault>
    ensures line { IfOk result (λ line. (v : Verdict) × (verdict_of journal.now ≡ Ok v) × (line.items ≡ verdict_line v)) }
    ensures fault { IfErr result (IsFaultOf (verdict_of journal.now)) }
{
    let read = journal_in(alloc, journal)?;
    let verdict = verdict_on(alloc, &read)?;
    line_of(alloc, &verdict)
}

/// Reads a journal to its end and writes the verdict on it, from its start tree, in one line: `lawful`, or `fault` with the place of the
/// first entry that does not fit, counted from 1, and the kind of its fault. The answer is whether it is lawful, and what is wrong
/// with it in words. The line is made before its first byte is written.
pub fn check_journal<R: Source, W: Sink>(
    alloc: Global,
    reader: &mut R,
    writer: &mut W,
) -> Result<Checked, RunFault>
    requires reads { R.failures reader.old < 2 ^ 64 - 1 }
    requires writes { W.failures writer.old < 2 ^ 64 - 1 }

    // What is answered and written is this function of what was read.
    ensures verdict { IfOk result (λ checked. (v : Verdict) × IfSome (R.remaining reader.old) (λ input. verdict_of input ≡ Ok v) × (checked.lawful ≡ is_lawful v) × Appends (W.contents writer.old) (W.contents writer.new) (verdict_line v)) }
    ensures quiet { IfOk result (λ checked. checked.lawful ≡ true → checked.reason.items ≡ []) }
    ensures end { OnOk result (IsAtEnd (R.remaining reader.new)) }
    ensures input { (f : ScriptFault) → result ≡ Err (RunFault.Input f) → IfSome (R.remaining reader.old) (λ input. verdict_of input ≡ Err f) }

    ensures full { result ≢ Err RunFault.Full }
    ensures under_way { (call : ℕ) → result ≢ Err (RunFault.UnderWay call) }

    // A device is blamed only where it failed in this call; after a failed write a beginning of the line stands, and after every
    // other error nothing was written.
    ensures devices { KeepsDevices R.failures W.failures reader.old reader.new writer.old writer.new RunFault.Read RunFault.Write result }
    ensures beginning { IsErrOf result RunFault.Write → IfSome (R.remaining reader.old) (λ input. WritesBeginningOf verdict_line (verdict_of input) (W.contents writer.old) (W.contents writer.new)) }
{
    perform(alloc, reader, writer, CheckJournal, &mut ())
}
