//! The entries of an input, and the tree at which they begin.

ghost use Rattle.std.specs.Prelude.{◌≡◌, [], Ok, IfOk, IfErr, get_or};
ghost use Rattle.fs_calls.specs.Tree.{IsTree};
ghost use Rattle.fs_verdict.specs.Checks.{is_journal};
ghost use Rattle.fs_verdict.specs.InputFaults.{IsFaultOf};
ghost use Rattle.fs_script.specs.Journals.{journal_of};
ghost use Rattle.fs_sched.specs.Checks.{verdict_of};
ghost use Rattle.fs_sched.specs.Runs.{IsFaultOfRun};
ghost use Rattle.fs_trace_replay.specs.Replays.{IsToldBy, IsToldByJournal, IsToldByScript, IsUntold, seat_by, thread_word};
ghost use Rattle.fs_trace_replay.specs.code.Tellings.{value_of};
ghost use Rattle.fs_trace_replay.specs.Commits.{front_by};

use fs_journal::check_from;
use fs_sched::{RunFault, Schedule, Silent, is_lawful, run_fault, script_in, watch};
use fs_script::{Journal, ThreadNames, read_journal};
use fs_seq::SeqTree;
use fs_timeline::{Entry, Verdict};
use fs_verdict::is_journal;
use fs_words::Addition;
use fs_words::words::number_of;
use std::alloc::{AllocError, Global};

/// What an input says.
#[derive(Drop)]
pub(crate) struct Told {
    /// The names of the threads of a script; those of a journal are the numbers of its seats.
    pub names: Option<ThreadNames>,
    /// The tree at which the entries begin.
    pub start: SeqTree,
    /// The entries that hold: of a journal that is not lawful those before its fault.
    pub entries: Vec<Entry>,
    /// Whether these are all of them.
    pub lawful: bool,
}

/// The entries that hold, by the verdict on them.
fn front_by(verdict: &Verdict, entries: Vec<Entry>) -> Vec<Entry>
    ensures { result.items ≡ front_by verdict.now entries.items }
{
    match verdict {
        Verdict::Lawful => entries,
        Verdict::Fault(place, _) => {
            let mut front = entries;
            front.truncate(place.saturating_sub(1));
            front
        }
    }
}

/// The journal that a text has, or why there is none.
fn journal_in(alloc: Global, text: &[u8]) -> Result<Journal, RunFault>
    ensures ok { IfOk result (λ journal. journal_of text.now ≡ Ok (journal.start, journal.entries.items)) }
    ensures tree { IfOk result (λ journal. IsTree journal.start.tree) }
    ensures err { IfErr result (IsFaultOf (journal_of text.now)) }
{
    match read_journal(alloc, text) {
        Ok(journal) => Ok(journal),
        Err(fault) => Err(run_fault(fault)),
    }
}

/// What a journal says.
fn told_by_journal(alloc: Global, text: &[u8]) -> Result<Told, RunFault>
    ensures told { IfOk result (λ told. IsToldByJournal text.now (value_of told)) }
    ensures tree { IfOk result (λ told. IsTree told.start.tree) }
    ensures fault { IfErr result (IsFaultOf (verdict_of text.now)) }
{
    let journal = journal_in(alloc, text)?;
    let Ok(verdict) = check_from(alloc, &journal.start, journal.entries.as_slice()) else {
        return Err(RunFault::OutOfMemory);
    };
    Ok(Told {
        names: None,
        start: journal.start,
        entries: front_by(&verdict, journal.entries),
        lawful: is_lawful(&verdict),
    })
}

/// What a script's run says; if it is in pieces, the last one.
fn told_by_script(alloc: Global, text: &[u8], schedule: Schedule) -> Result<Told, RunFault>
    ensures told { IfOk result (λ told. IsToldByScript schedule text.now (value_of told)) }
    ensures tree { IfOk result (λ told. IsTree told.start.tree) }
    ensures fault { IfErr result (IsFaultOfRun schedule text.now) }
{
    let script = script_in(alloc, text)?;
    let ran = watch(alloc, &script, schedule, &mut Silent)?;
    let core = ran.core;
    core.told();
    let (start, timeline, _nodes) = core.into_parts();
    Ok(Told {
        names: Some(script.names),
        start,
        entries: timeline.into_entries(),
        lawful: true,
    })
}

/// What an input says: as a journal, if it has the first bytes of one, and else as a script.
pub(crate) fn told_by(alloc: Global, text: &[u8], schedule: Schedule) -> Result<Told, RunFault>
    ensures told { IfOk result (λ told. IsToldBy (is_journal text.now) schedule text.now (value_of told)) }
    ensures tree { IfOk result (λ told. IsTree told.start.tree) }
    ensures fault { IfErr result (IsUntold (is_journal text.now) schedule text.now) }
{
    if is_journal(text) {
        told_by_journal(alloc, text)
    } else {
        told_by_script(alloc, text, schedule)
    }
}

/// The seat of the thread that a word names: by its name, or by its number where threads have none.
pub(crate) fn seat_by(names: &Option<ThreadNames>, word: &[u8]) -> Option<u64>
    ensures { result ≡ seat_by names.now word.now }
{
    match names {
        None => number_of(word),
        Some(names) => match names.seat(word) {
            Some(seat) => Some(seat as u64),
            None => None,
        },
    }
}

/// The name of the thread on a seat; no bytes where there is none.
fn name_on(names: &ThreadNames, seat: u64) -> &[u8]
    ensures { result.now ≡ get_or names.now seat [] }
{
    match names.name(seat as usize) {
        Some(name) => name,
        None => b"",
    }
}

/// The word of the thread on a seat: its name, or the number of the seat.
pub(crate) fn thread_word(
    alloc: Global,
    names: &Option<ThreadNames>,
    seat: u64,
) -> Result<Vec<u8>, AllocError>
    ensures { IfOk result (λ word. word.items ≡ thread_word names.now seat) }
{
    let mut word = Addition::new(Vec::new(alloc));
    match names {
        None => word.push_number(seat)?,
        Some(names) => word.push(name_on(names, seat))?,
    }
    Ok(word.kept())
}
