//! What is found of a history, as it is written.

ghost use Rattle.std.specs.Prelude.{◌≡◌, ◌++◌, IfOk, codes, decimal};
ghost use Rattle.std.specs.List.{flat_map};
ghost use Rattle.fs_text.specs.Journal.{entry_line};
ghost use Rattle.fs_script.specs.Journals.{journal_text};
ghost use Rattle.fs_linearize_text.specs.Answers.{fault_word, none_line, fault_line, unknown_line, found_text, outcome_of};
ghost use Rattle.fs_timeline.specs.Timeline.{begins};
ghost use Rattle.fs_linearize_text.specs.Many.{found_line};
ghost use Rattle.fs_linearize_text.specs.Makes.{IsAnswered};

use crate::possible::with_possible;
use crate::reason::{reason_of, with_held};
use fs_linearize::Found;
use fs_linearize_histories::HistoryFault;
use fs_names::CallNo;
use fs_script::write_opening;
use fs_seq::SeqTree;
use fs_text::{Addition, write_entry};
use fs_timeline::Entry;
use std::alloc::{AllocError, Global};

/// What came of a history.
#[derive(Clone, Copy, Debug, PartialEq, Eq)]
pub enum Outcome {
    /// A lawful journal explains it.
    Lawful,
    /// No journal explains it.
    NoOrder,
    /// It is no history.
    Fault,
    /// The limit was reached.
    Unknown,
}

/// What is answered of a history.
#[derive(Drop)]
pub struct Linearized {
    /// What came of it.
    pub outcome: Outcome,
    /// Of `NoOrder` and `Fault` the entry with its line, and its call, in words; of `NoOrder` in a second line what the call could
    /// have replied, and in a third, where the replies of later lines exclude an earlier entry, that entry; else no bytes.
    pub reason: Vec<u8>,
}

/// What came of a history of which this is found.
pub(crate) fn outcome_of(found: &Found) -> Outcome
    ensures { result ≡ outcome_of found.now }
{
    match found {
        Found::Lawful(_) => Outcome::Lawful,
        Found::NoOrder { .. } => Outcome::NoOrder,
        Found::Fault(_, _) => Outcome::Fault,
        Found::Unknown(_) => Outcome::Unknown,
    }
}

/// What is answered of the history that lines tell, of which this is found.
pub(crate) fn answer_of(
    alloc: Global,
    lines: &[&[u8]],
    found: &Found,
) -> Result<Linearized, AllocError>
    ensures { IfOk result (IsAnswered found.now) }
{
    let reason = match found {
        Found::NoOrder {
            place,
            possible,
            held,
            ..
        } => {
            let told = with_possible(alloc, reason_of(alloc, lines, *place)?, possible)?;
            with_held(alloc, told, lines, *held, *place)?
        }
        Found::Fault(place, _) => reason_of(alloc, lines, *place)?,
        Found::Lawful(_) | Found::Unknown(_) => Vec::new(alloc),
    };
    Ok(Linearized {
        outcome: outcome_of(found),
        reason,
    })
}

fn fault_word(kind: HistoryFault) -> &'static [u8]
    ensures { result.now ≡ fault_word kind }
{
    match kind {
        HistoryFault::BeginTwice => b"BeginTwice",
        HistoryFault::SeatBusy => b"SeatBusy",
        HistoryFault::ReturnUnbegun => b"ReturnUnbegun",
        HistoryFault::ReturnTwice => b"ReturnTwice",
    }
}

/// The text of a journal from its start tree.
pub(crate) fn journal_text(
    alloc: Global,
    start: &SeqTree,
    journal: &[Entry],
) -> Result<Vec<u8>, AllocError>
    ensures { IfOk result (λ text. text.items ≡ journal_text start.now journal.now) }
{
    let mut text = Vec::new(alloc);
    write_opening(alloc, start, &mut text)?;
    for entry in journal {
        write_entry(alloc, entry, &mut text)?;
    }
    Ok(text)
}

/// The line of a history that no journal explains.
fn none_line(alloc: Global, place: usize, call: CallNo) -> Result<Vec<u8>, AllocError>
    ensures { IfOk result (λ line. line.items ≡ none_line place call) }
{
    let mut line = Addition::new(Vec::new(alloc));
    line.push_with_number(b"none ", place as u64)?;
    line.push_with_number(b" ", call.get())?;
    line.push(b"\n")?;
    Ok(line.kept())
}

/// The line of what is no history.
fn fault_line(alloc: Global, place: usize, kind: HistoryFault) -> Result<Vec<u8>, AllocError>
    ensures { IfOk result (λ line. line.items ≡ fault_line place kind) }
{
    let mut line = Addition::new(Vec::new(alloc));
    line.push_with_number(b"fault ", place as u64)?;
    line.push(b" ")?;
    line.push(fault_word(kind))?;
    line.push(b"\n")?;
    Ok(line.kept())
}

/// The line of a history of which the limit was reached.
fn unknown_line(alloc: Global, place: usize) -> Result<Vec<u8>, AllocError>
    ensures { IfOk result (λ line. line.items ≡ unknown_line place) }
{
    let mut line = Addition::new(Vec::new(alloc));
    line.push_with_number(b"unknown ", place as u64)?;
    line.push(b"\n")?;
    Ok(line.kept())
}

/// How many calls a journal begins.
fn begins(journal: &[Entry]) -> usize
    ensures { result ≡ begins journal.now }
{
    let mut count = 0;
    for entry in journal {
        if let Entry::Begin(_, _, _) = entry {
            count += 1;
        }
    }
    count
}

/// The line of a lawful history.
fn lawful_line(alloc: Global, journal: &[Entry]) -> Result<Vec<u8>, AllocError>
    ensures { IfOk result (λ line. line.items ≡ codes "lawful " ++ (decimal (begins journal.now) ++ codes "\n")) }
{
    let mut line = Addition::new(Vec::new(alloc));
    line.push_with_number(b"lawful ", begins(journal) as u64)?;
    line.push(b"\n")?;
    Ok(line.kept())
}

/// The line of what is found of a history.
pub(crate) fn found_line(alloc: Global, found: &Found) -> Result<Vec<u8>, AllocError>
    ensures { IfOk result (λ line. line.items ≡ found_line found.now) }
{
    match found {
        Found::Lawful(journal) => lawful_line(alloc, journal),
        Found::NoOrder { place, call, .. } => none_line(alloc, *place, *call),
        Found::Fault(place, kind) => fault_line(alloc, *place, *kind),
        Found::Unknown(place) => unknown_line(alloc, *place),
    }
}

/// The text of what is found of a history from its start tree.
pub(crate) fn found_text(
    alloc: Global,
    start: &SeqTree,
    found: &Found,
) -> Result<Vec<u8>, AllocError>
    ensures { IfOk result (λ text. text.items ≡ found_text start.now found.now) }
{
    match found {
        Found::Lawful(journal) => journal_text(alloc, start, journal),
        Found::NoOrder { place, call, .. } => none_line(alloc, *place, *call),
        Found::Fault(place, kind) => fault_line(alloc, *place, *kind),
        Found::Unknown(place) => unknown_line(alloc, *place),
    }
}
