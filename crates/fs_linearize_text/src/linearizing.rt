//! The command that linearizes a history.

ghost use Rattle.std.specs.Prelude.{[], false, map, ◌≡◌, ℕ, Ok, IfOk, IfErr};
ghost use Rattle.fs_verdict.specs.InputFaults.{IsFaultOf};
ghost use Rattle.fs_linearize_text.specs.Texts.{history_by, history_of};
ghost use Rattle.fs_linearize_text.specs.Answers.{outcome_of};
ghost use Rattle.fs_linearize_text.specs.declared.answer.Outcome.TheVariants as outcome;
ghost use Rattle.fs_linearize_histories.specs.Histories.{HasNoOrder};
ghost use Rattle.fs_linearize.specs.Results.{IsReturnAt};
ghost use Rattle.fs_linearize_text.specs.code.Fronts.{IsFrontOr};
ghost use Rattle.fs_linearize_text.specs.Findings.{IsFoundOf};
ghost use Rattle.fs_linearize_text.specs.Makes.{MakesFound};

use crate::answer::{Linearized, answer_of, found_text};
use crate::front::front_in;
use crate::history::{History, history_by};
use crate::lines::lines_in;
use fs_linearize::{Found, Progress, Untold, linearize};
use fs_linearize_dialects::Dialect;
use fs_verdict::{Command, Made, RunFault};
use std::alloc::Global;

/// The most configurations that anyone asks for.
pub const CONFIGURATION_LIMIT: u64 = 1_000_000_000;

/// What is found of a history.
fn find<P: Progress>(
    alloc: Global,
    history: History,
    limit: usize,
    progress: &mut P,
) -> Result<(Found, Vec<u8>), RunFault>
    ensures found { IfOk result (λ found. IsFoundOf (history.start, history.entries.items) limit false found.0 found.1.items) }
    ensures err { IfErr result (λ fault. fault ≡ RunFault.OutOfMemory) }
{
    let History { start, entries } = history;
    let Ok(found) = linearize(alloc, &start, entries, limit, progress) else {
        return Err(RunFault::OutOfMemory);
    };
    let Ok(text) = found_text(alloc, &start, &found) else {
        return Err(RunFault::OutOfMemory);
    };
    Ok((found, text))
}

/// The front of the history that lines tell, up to the return of this place; the plain text where the limit is reached.
#[tactic(auto, using(crate::proofs::FrontLemmas::front_or_plain))]
fn front_or<P: Progress>(
    alloc: Global,
    lines: &[&[u8]],
    dialect: &Dialect,
    place: usize,
    plain: Vec<u8>,
    limit: usize,
    progress: &mut P,
) -> Result<Vec<u8>, RunFault>
    ensures ok { (h : _) → history_by dialect.now (map (λ l. l.now) lines.now) ≡ Ok h → (call : ℕ) → HasNoOrder h.0 h.1 place → IsReturnAt h.1 place call → IfOk result (λ told. IsFrontOr h limit place call plain.items told.items) }
    ensures err { IfErr result (IsFaultOf (history_by dialect.now (map (λ l. l.now) lines.now))) }
{
    match front_in(alloc, lines, dialect, place, limit, progress)? {
        Some(told) => Ok(told),
        None => Ok(plain),
    }
}

/// The text of what is found of the history that lines tell, of which this is the plain one.
#[tactic(auto, using(crate::proofs::FrontLemmas::told_plain, crate::proofs::FrontLemmas::told_other))]
fn told_of<P: Progress>(
    alloc: Global,
    lines: &[&[u8]],
    dialect: &Dialect,
    found: &Found,
    plain: Vec<u8>,
    limit: usize,
    front: bool,
    progress: &mut P,
) -> Result<Vec<u8>, RunFault>
    ensures ok { (h : _) → history_by dialect.now (map (λ l. l.now) lines.now) ≡ Ok h → IsFoundOf h limit false found.now plain.items → IfOk result (λ told. IsFoundOf h limit front found.now told.items) }
    ensures err { IfErr result (IsFaultOf (history_by dialect.now (map (λ l. l.now) lines.now))) }
{
    let Found::NoOrder { place, .. } = found else {
        return Ok(plain);
    };
    if front {
        return front_or(alloc, lines, dialect, *place, plain, limit, progress);
    }
    Ok(plain)
}

/// The text of what is found of the history that lines tell.
fn linearize_lines<P: Progress>(
    alloc: Global,
    lines: &[&[u8]],
    dialect: &Dialect,
    limit: usize,
    front: bool,
    progress: &mut P,
) -> Result<Made<Linearized>, RunFault>
    ensures { MakesFound (history_by dialect.now (map (λ l. l.now) lines.now)) limit front result }
{
    let history = history_by(alloc, lines, dialect)?;
    let (found, plain) = find(alloc, history, limit, progress)?;
    let text = told_of(alloc, lines, dialect, &found, plain, limit, front, progress)?;
    let Ok(end) = answer_of(alloc, lines, &found) else {
        return Err(RunFault::OutOfMemory);
    };
    Ok(Made { text, end })
}

/// The text of what is found of the history that a text has.
fn linearize_text<P: Progress>(
    alloc: Global,
    text: &[u8],
    dialect: &Dialect,
    limit: usize,
    front: bool,
    progress: &mut P,
) -> Result<Made<Linearized>, RunFault>
    ensures { MakesFound (history_of dialect.now text.now) limit front result }
{
    let lines = lines_in(alloc, text)?;
    linearize_lines(alloc, &lines, dialect, limit, front, progress)
}

/// What is found of a history in memory, as `LinearizeHistory` makes it. The history is read where it stands.
pub fn linearize_bytes(
    alloc: Global,
    history: &[u8],
    dialect: &Dialect,
    limit: usize,
    front: bool,
) -> Result<Made<Linearized>, RunFault>
    ensures found { IfOk result (λ made. (h : _) × (f : Found) × (history_of dialect.now history.now ≡ Ok h) × IsFoundOf h limit front f made.text.items × (made.end.outcome ≡ outcome_of f)) }
    ensures quiet { IfOk result (λ made. made.end.outcome ≡ outcome.Lawful → made.end.reason.items ≡ []) }
    ensures fault { IfErr result (IsFaultOf (history_of dialect.now history.now)) }
{
    linearize_text(alloc, history, dialect, limit, front, &mut Untold)
}

/// Finds an order of the calls of a history, and writes the journal that has it, from the history's start tree. If no journal explains
/// the history, one line is written instead. It is `none` with the place of the first return that nothing explains, counted from 1, and
/// the number of its call. If the entries are no history, the line is `fault` with the place of the first entry that cannot come next,
/// and the kind of its fault. If the limit is reached, it is `unknown` with the place of the entry to which the search had come. The
/// answer says which of these it is, and of `none` and `fault` also the entry and its call in words. Who listens hears how many entries
/// have passed. There is no text only if the input has a fault, or memory runs out.
#[derive(Drop)]
pub struct LinearizeHistory {
    /// What the recorded tree replies: the table by which the history is read.
    pub dialect: Dialect,
    /// The most configurations that are made, or few more.
    pub limit: usize,
    /// Whether a journal is written in the place of `none`: what explains all that is before that return, and the return. It stays
    /// `none` if the limit is reached in the search for that.
    pub front: bool,
}

impl<P: Progress> Command<P> for LinearizeHistory {
    ghost use Rattle.fs_linearize_text.specs.code.Laws.{history_honest};

    type End = Linearized;

    type Fault = RunFault;

    ghost Asks = { λ _. Unit {0} };

    ghost Makes = { λ c input. MakesFound (history_of c.dialect input) c.limit c.front };

    fn make(
        self,
        alloc: Global,
        input: Vec<u8>,
        progress: &mut P,
    ) -> Result<Made<Linearized>, RunFault> {
        linearize_text(
            alloc,
            input.as_slice(),
            &self.dialect,
            self.limit,
            self.front,
            progress,
        )
    }

    ghost honest = { λ c. history_honest c.dialect c.limit c.front };
}
