//! The command that linearizes histories one after the other.

ghost use Rattle.std.specs.Prelude.{◌≡◌, ◌<◌, ◌≤◌, ◌++◌, ◌∷◌, [], map, length, take, drop, IfOk, OnOk, IfErr};
ghost use Rattle.fs_verdict.specs.InputFaults.{IsFaultOf};
ghost use Rattle.fs_linearize_text.specs.Texts.{history_by};
ghost use Rattle.fs_linearize_text.specs.Many.{is_header, is_same, count_of, counts_line, pieces_of, behind, found_line, histories_by, histories_of};
ghost use Rattle.fs_linearize_text.specs.Answers.{outcome_of};
ghost use Rattle.fs_linearize_text.specs.code.Each.{lines_before, IsFurther, IsFoundIn, IsPieceCut, AddsPiece, AreTold};
ghost use Rattle.fs_linearize_text.specs.Makes.{MakesMany};

use crate::answer::{Outcome, found_line, outcome_of};
use crate::failing::Notes;
use crate::history::{History, history_by};
use crate::lines::lines_in;
use fs_linearize::{Found, Progress, Untold, linearize};
use fs_linearize_dialects::Dialect;
use fs_text::Addition;
use fs_verdict::{Command, Made, RunFault};
use fs_words::ScriptFault;
use fs_words::headers::started_limits;
use fs_words::words::is_word;
use std::alloc::{AllocError, Global};

/// What came of each history, in order.
#[derive(Drop)]
pub struct Histories {
    pub outcomes: Vec<Outcome>,
    /// Those that no journal explains, or that are none.
    pub notes: Notes,
}

/// What came of histories so far, and their lines.
#[derive(Drop)]
struct Told {
    outcomes: Vec<Outcome>,
    text: Vec<u8>,
}

/// How many bytes the first line of a history has, by which most lines are known at once to be none.
const HEADER_BYTES: usize = 16;

/// Whether a line is the first of a history.
#[tactic(auto, using(crate::proofs::ManyLemmas::no_header))]
fn is_header(line: &[u8]) -> bool
    ensures { result ≡ is_header line.now }
{
    line.len() == HEADER_BYTES
        && (is_word(line, b"atomfs-journal 1") || started_limits(line).is_some())
}

/// How many lines stand before the first header line.
#[tactic(auto, using(crate::proofs::ManyLemmas::header_here, crate::proofs::ManyLemmas::header_behind, crate::proofs::ManyLemmas::header_nowhere))]
fn lines_before(lines: &[&[u8]]) -> usize
    ensures most { result ≤ length lines.now }
    ensures is { result ≡ lines_before (map (λ l. l.now) lines.now) }
{
    let mut count = 0;
    for line in lines {
        if is_header(line) {
            return count;
        }
        count += 1;
    }
    count
}

/// The same fault, so many lines further on.
pub(crate) fn further(fault: RunFault, before: usize) -> RunFault
    ensures { IsFurther before fault result }
{
    match fault {
        RunFault::Input(fault) => RunFault::Input(ScriptFault {
            line: fault.line.saturating_add(before as u64),
            kind: fault.kind,
        }),
        other => other,
    }
}

/// What is found of the history that lines tell, before which so many stand.
#[tactic(auto, using(crate::proofs::ManyLemmas::further_fault, crate::proofs::ManyLemmas::found_in))]
fn find(
    alloc: Global,
    lines: &[&[u8]],
    dialect: &Dialect,
    before: usize,
    limit: usize,
) -> Result<Found, RunFault>
    ensures ok { IfOk result (IsFoundIn (behind before (history_by dialect.now (map (λ l. l.now) lines.now))) limit) }
    ensures err { IfErr result (IsFaultOf (behind before (history_by dialect.now (map (λ l. l.now) lines.now)))) }
{
    let History { start, entries } = match history_by(alloc, lines, dialect) {
        Ok(history) => history,
        Err(fault) => return Err(further(fault, before)),
    };
    match linearize(alloc, &start, entries, limit, &mut Untold) {
        Ok(found) => Ok(found),
        Err(_) => Err(RunFault::OutOfMemory),
    }
}

/// Adds what is found of a history.
fn push_found(alloc: Global, found: &Found, told: &mut Told) -> Result<(), AllocError>
    ensures outcomes { OnOk result (told.new.outcomes.items ≡ told.old.outcomes.items ++ outcome_of found.now ∷ []) }
    ensures text { OnOk result (told.new.text.items ≡ told.old.text.items ++ found_line found.now) }
{
    let line = found_line(alloc, found)?;
    told.text.extend_from_slice(&line)?;
    told.outcomes.push(outcome_of(found))?;
    Ok(())
}

/// Adds what is found of the history that lines tell, before which so many stand.
fn push_piece(
    alloc: Global,
    piece: &[&[u8]],
    dialect: &Dialect,
    before: usize,
    limit: usize,
    told: &mut Told,
    notes: &mut Notes,
) -> Result<(), RunFault>
    ensures ok { OnOk result (AddsPiece (behind before (history_by dialect.now (map (λ l. l.now) piece.now))) limit told.old.outcomes.items told.new.outcomes.items told.old.text.items told.new.text.items) }
    ensures err { IfErr result (IsFaultOf (behind before (history_by dialect.now (map (λ l. l.now) piece.now)))) }
{
    let found = find(alloc, piece, dialect, before, limit)?;
    if push_found(alloc, &found, told).is_err() {
        return Err(RunFault::OutOfMemory);
    }
    let number = told.outcomes.len();
    match notes.take_in(alloc, piece, before, number, &found) {
        Ok(()) => Ok(()),
        Err(_) => Err(RunFault::OutOfMemory),
    }
}

/// How many lines the first piece has: all up to the next header line.
#[tactic(auto, using(crate::proofs::ManyLemmas::piece_cut))]
pub(crate) fn piece_length(lines: &[&[u8]]) -> usize
    requires { 0 < length lines.now }
    ensures cut { IsPieceCut (map (λ l. l.now) lines.now) (map (λ l. l.now) (take result lines.now)) (map (λ l. l.now) (drop result lines.now)) }
    ensures some { 0 < result }
    ensures most { result ≤ length lines.now }
{
    lines_before(&lines[1..]) + 1
}

/// What is found of each history that lines tell.
#[tactic(auto, using(crate::proofs::ManyLemmas::told_none, crate::proofs::ManyLemmas::told_end))]
fn find_each<P: Progress>(
    alloc: Global,
    lines: &[&[u8]],
    dialect: &Dialect,
    limit: usize,
    notes: &mut Notes,
    progress: &mut P,
) -> Result<Told, RunFault>
    ensures ok { IfOk result (λ told. AreTold (histories_by dialect.now 0 (pieces_of (map (λ l. l.now) lines.now))) limit told.outcomes.items told.text.items) }
    ensures err { IfErr result (IsFaultOf (histories_by dialect.now 0 (pieces_of (map (λ l. l.now) lines.now)))) }
{
    let mut told = Told {
        outcomes: Vec::new(alloc),
        text: Vec::new(alloc),
    };
    let mut at = 0;
    'pieces: while at < lines.len() {
        let left = &lines[at..];
        let count = piece_length(left);
        push_piece(alloc, &left[..count], dialect, at, limit, &mut told, notes)?;
        at += count;
        progress.read(at, lines.len());
    }
    Ok(told)
}

fn is_same(one: Outcome, other: Outcome) -> bool
    ensures { result ≡ is_same one other }
{
    match (one, other) {
        (Outcome::Lawful, Outcome::Lawful)
        | (Outcome::NoOrder, Outcome::NoOrder)
        | (Outcome::Fault, Outcome::Fault)
        | (Outcome::Unknown, Outcome::Unknown) => true,
        _ => false,
    }
}

/// How many histories came to this.
fn count_of(wanted: Outcome, outcomes: &[Outcome]) -> usize
    ensures { result ≡ count_of wanted outcomes.now }
{
    let mut count = 0;
    for outcome in outcomes {
        if is_same(wanted, *outcome) {
            count += 1;
        }
    }
    count
}

/// Adds the counts of what came of histories.
fn with_counts(text: Vec<u8>, outcomes: &[Outcome]) -> Result<Vec<u8>, AllocError>
    ensures { IfOk result (λ told. told.items ≡ text.items ++ counts_line outcomes.now) }
{
    let mut line = Addition::new(text);
    line.push_with_number(b"lawful ", count_of(Outcome::Lawful, outcomes) as u64)?;
    line.push_with_number(b" none ", count_of(Outcome::NoOrder, outcomes) as u64)?;
    line.push_with_number(b" fault ", count_of(Outcome::Fault, outcomes) as u64)?;
    line.push_with_number(b" unknown ", count_of(Outcome::Unknown, outcomes) as u64)?;
    line.push(b"\n")?;
    Ok(line.kept())
}

/// The text of what is found of the histories that lines tell.
fn linearize_lines<P: Progress>(
    alloc: Global,
    lines: &[&[u8]],
    dialect: &Dialect,
    limit: usize,
    failing: bool,
    progress: &mut P,
) -> Result<Made<Histories>, RunFault>
    ensures { MakesMany (histories_by dialect.now 0 (pieces_of (map (λ l. l.now) lines.now))) limit result }
{
    let mut notes = Notes::new(alloc, failing);
    let Told { outcomes, text } = find_each(alloc, lines, dialect, limit, &mut notes, progress)?;
    if notes.end(alloc).is_err() {
        return Err(RunFault::OutOfMemory);
    }
    match with_counts(text, &outcomes) {
        Ok(text) => Ok(Made {
            text,
            end: Histories { outcomes, notes },
        }),
        Err(_) => Err(RunFault::OutOfMemory),
    }
}

/// The text of what is found of the histories that a text has.
fn linearize_text<P: Progress>(
    alloc: Global,
    text: &[u8],
    dialect: &Dialect,
    limit: usize,
    failing: bool,
    progress: &mut P,
) -> Result<Made<Histories>, RunFault>
    ensures { MakesMany (histories_of dialect.now text.now) limit result }
{
    let lines = lines_in(alloc, text)?;
    linearize_lines(alloc, &lines, dialect, limit, failing, progress)
}

/// Finds an order of the calls of each of several histories, each begun by its header line, and writes a line for each. It is `lawful`
/// with the number of its calls, or the line that `LinearizeHistory` writes. A last line counts how many came to each. The answer has
/// what came of each, in order. Who listens hears how many lines were read. There is no text only if the input has a fault, or memory runs
/// out. The fault of a history has the number of its line in the whole text.
#[derive(Drop)]
pub struct LinearizeMany {
    /// What the recorded tree replies: the table by which the histories are read.
    pub dialect: Dialect,
    /// The most configurations that are made for one of them, or few more.
    pub limit: usize,
    /// Whether the answer keeps the texts of those that no journal explains, or that are none.
    pub keeps_failing: bool,
}

impl<P: Progress> Command<P> for LinearizeMany {
    ghost use Rattle.fs_linearize_text.specs.code.Laws.{many_honest};

    type End = Histories;

    type Fault = RunFault;

    ghost Asks = { λ _. Unit {0} };

    ghost Makes = { λ c input. MakesMany (histories_of c.dialect input) c.limit };

    fn make(
        self,
        alloc: Global,
        input: Vec<u8>,
        progress: &mut P,
    ) -> Result<Made<Histories>, RunFault> {
        linearize_text(
            alloc,
            input.as_slice(),
            &self.dialect,
            self.limit,
            self.keeps_failing,
            progress,
        )
    }

    ghost honest = { λ c. many_honest c.dialect c.limit };
}
