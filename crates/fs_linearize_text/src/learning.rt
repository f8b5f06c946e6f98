//! The command that learns of histories of single threads which table explains them.

ghost use Rattle.std.specs.Prelude.{◌≡◌, ◌++◌, ◌||◌, [], map, Ok, IfOk, OnOk, IfErr};
ghost use Rattle.fs_verdict.specs.InputFaults.{IsFaultOf};
ghost use Rattle.fs_linearize_text.specs.Many.{pieces_of, behind, histories_by, histories_of};
ghost use Rattle.fs_linearize_text.specs.Texts.{history_by};
ghost use Rattle.fs_linearize_histories.specs.Faults.{history_fault};
ghost use Rattle.fs_linearize_dialects.specs.Learning.{learned, is_overlap, is_unexplained};
ghost use Rattle.fs_linearize.specs.Results.{fault_in};
ghost use Rattle.fs_linearize_text.specs.Learnings.{lesson, learning_by, written_of, IsLearning};
ghost use Rattle.fs_linearize_text.specs.Makes.{MakesLearned};
ghost use Rattle.fs_linearize_text.specs.code.Learns.{of_piece, ReadsPiece, AreLearned};

use crate::history::{History, history_by};
use crate::lines::lines_in;
use crate::many::{further, piece_length};
use crate::possible::push_reply;
use crate::reason::push_entry;
use fs_linearize::{Found, Untold, linearize};
use fs_linearize_dialects::{Dialect, End, Lesson, Row, learn, table_text};
use fs_linearize_histories::{Heard, HistoryFault};
use fs_seq::SeqTree;
use fs_text::Addition;
use fs_verdict::{Command, Made, RunFault};
use std::alloc::{AllocError, Global};

/// The most histories of which words say where learning ends.
const MOST: usize = 20;

/// What came of histories.
#[derive(Clone, Copy, Debug, PartialEq, Eq)]
pub enum Learning {
    /// Rows explain each of them.
    Explained,
    /// No row explains a return of one, or one is no history.
    Unexplained,
    /// Two calls of one overlap, and nothing is written.
    Overlapping,
}

/// What is learned of histories.
#[derive(Drop)]
pub struct Learned {
    /// What came of them.
    pub outcome: Learning,
    /// Of each of the first twenty that rows do not explain to its end a line or two: where that is, and why.
    pub words: Vec<u8>,
}

/// A history, and how many lines are before it.
#[derive(Drop)]
struct Piece {
    before: usize,
    start: SeqTree,
    entries: Vec<Heard>,
}

/// What is learned of histories so far.
#[derive(Drop)]
struct Lessons {
    rows: Vec<Row>,
    overlaps: bool,
    unexplained: bool,
}

/// The history that lines tell, before which so many are.
#[tactic(auto, using(crate::proofs::ManyLemmas::further_fault, crate::proofs::LearningLemmas::piece_read))]
fn piece_of(
    alloc: Global,
    lines: &[&[u8]],
    dialect: &Dialect,
    before: usize,
) -> Result<Piece, RunFault>
    ensures ok { IfOk result (λ p. behind before (history_by dialect.now (map (λ l. l.now) lines.now)) ≡ Ok (of_piece p)) }
    ensures err { IfErr result (IsFaultOf (behind before (history_by dialect.now (map (λ l. l.now) lines.now)))) }
{
    match history_by(alloc, lines, dialect) {
        Ok(History { start, entries }) => Ok(Piece {
            before,
            start,
            entries,
        }),
        Err(fault) => Err(further(fault, before)),
    }
}

/// Adds the history that lines tell, before which so many are.
#[tactic(auto, using(crate::proofs::LearningLemmas::piece_added))]
fn push_piece(
    alloc: Global,
    lines: &[&[u8]],
    dialect: &Dialect,
    before: usize,
    pieces: &mut Vec<Piece>,
) -> Result<(), RunFault>
    ensures ok { OnOk result (ReadsPiece (behind before (history_by dialect.now (map (λ l. l.now) lines.now))) pieces.old.items pieces.new.items) }
    ensures err { IfErr result (IsFaultOf (behind before (history_by dialect.now (map (λ l. l.now) lines.now)))) }
{
    let piece = piece_of(alloc, lines, dialect, before)?;
    match pieces.push(piece) {
        Ok(()) => Ok(()),
        Err(_) => Err(RunFault::OutOfMemory),
    }
}

/// Each history that lines tell.
#[tactic(auto, using(crate::proofs::LearningLemmas::read_none, crate::proofs::LearningLemmas::read_all))]
fn pieces_in(alloc: Global, lines: &[&[u8]], dialect: &Dialect) -> Result<Vec<Piece>, RunFault>
    ensures ok { IfOk result (λ ps. histories_by dialect.now 0 (pieces_of (map (λ l. l.now) lines.now)) ≡ Ok (map of_piece ps.items)) }
    ensures err { IfErr result (IsFaultOf (histories_by dialect.now 0 (pieces_of (map (λ l. l.now) lines.now)))) }
{
    let mut pieces = Vec::new(alloc);
    let mut at = 0;
    'pieces: while at < lines.len() {
        let left = &lines[at..];
        let count = piece_length(left);
        push_piece(alloc, &left[..count], dialect, at, &mut pieces)?;
        at += count;
    }
    Ok(pieces)
}

/// The fault that is found.
fn fault_in(found: &Found) -> Option<(usize, HistoryFault)>
    ensures { result ≡ fault_in found.now }
{
    match found {
        Found::Fault(place, kind) => Some((*place, *kind)),
        Found::Lawful(_) => None,
        Found::NoOrder { .. } => None,
        Found::Unknown(_) => None,
    }
}

/// What is learned of entries, if this is their fault.
#[tactic(auto, using(crate::proofs::LearningLemmas::lesson_whole, crate::proofs::LearningLemmas::lesson_fault))]
fn lesson_with(alloc: Global, fault: Option<(usize, HistoryFault)>, whole: Lesson) -> Lesson
    ensures { (h : _) → fault ≡ history_fault h.1 → (whole.rows.items, whole.end) ≡ learned h.0 0 h.1 → (result.rows.items, result.end) ≡ lesson h }
{
    match fault {
        Some((place, kind)) => Lesson {
            rows: Vec::new(alloc),
            end: End::Fault(place, kind),
        },
        None => whole,
    }
}

/// What is learned of a history. The search is asked only for its fault, and ends at once.
fn lesson_of(alloc: Global, start: &SeqTree, entries: Vec<Heard>) -> Result<Lesson, AllocError>
    ensures { IfOk result (λ told. (told.rows.items, told.end) ≡ lesson (start.now, entries.items)) }
{
    let whole = learn(alloc, start, entries.as_slice())?;
    let found = linearize(alloc, start, entries, 1, &mut Untold)?;
    Ok(lesson_with(alloc, fault_in(&found), whole))
}

/// Whether one is so, or the other.
fn either(one: bool, other: bool) -> bool
    ensures { result ≡ (one || other) }
{
    one || other
}

/// Says where learning ends, and why.
fn push_end(
    alloc: Global,
    lines: &[&[u8]],
    before: usize,
    end: &End,
    told: &mut Addition,
) -> Result<(), AllocError> {
    match end {
        End::Whole => Ok(()),
        End::At(place, ours) => {
            push_entry(alloc, lines, *place, before, told)?;
            told.push(b"\nno row explains it: this tree replies ")?;
            push_reply(alloc, ours, told)
        }
        End::Overlaps(place) => {
            push_entry(alloc, lines, *place, before, told)?;
            told.push(b"\nanother call is pending: --learn reads histories of one thread each")
        }
        End::Fault(place, _) => {
            push_entry(alloc, lines, *place, before, told)?;
            told.push(b"\nthe entries up to there are no history")
        }
    }
}

/// What is said of histories that rows do not explain to their ends.
#[derive(Drop)]
struct Words {
    text: Vec<u8>,
    count: usize,
}

/// Takes in where learning of a history ends, before which so many lines are.
fn take_in(
    alloc: Global,
    lines: &[&[u8]],
    before: usize,
    end: &End,
    words: Words,
) -> Result<Words, AllocError> {
    let Words { text, count } = words;
    if let End::Whole = end {
        return Ok(Words { text, count });
    }
    if count >= MOST {
        return Ok(Words {
            text,
            count: count.saturating_add(1),
        });
    }
    let mut told = Addition::new(text);
    if count > 0 {
        told.push(b"\n")?;
    }
    match lines.get(before..) {
        Some(left) => push_end(alloc, left, before, end, &mut told)?,
        None => {}
    }
    Ok(Words {
        text: told.kept(),
        count: count + 1,
    })
}

/// The words, with a last line that counts those that have none.
fn words_of(words: Words) -> Result<Vec<u8>, AllocError> {
    let Words { text, count } = words;
    let mut told = Addition::new(text);
    if count > MOST {
        told.push_with_number(b"\nand ", (count - MOST) as u64)?;
        told.push(b" more")?;
    }
    Ok(told.kept())
}

/// Adds what is learned of a history.
fn push_lesson(
    alloc: Global,
    lines: &[&[u8]],
    piece: Piece,
    lessons: &mut Lessons,
    words: Words,
) -> Result<Words, AllocError>
    ensures rows { OnOk result (lessons.new.rows.items ≡ lessons.old.rows.items ++ (lesson (of_piece piece)).0) }
    ensures overlaps { OnOk result (lessons.new.overlaps ≡ (lessons.old.overlaps || is_overlap (lesson (of_piece piece)).1)) }
    ensures unexplained { OnOk result (lessons.new.unexplained ≡ (lessons.old.unexplained || is_unexplained (lesson (of_piece piece)).1)) }
{
    let Piece {
        before,
        start,
        entries,
    } = piece;
    let Lesson { rows, end } = lesson_of(alloc, &start, entries)?;
    lessons.rows.extend_from_slice(&rows)?;
    lessons.overlaps = either(lessons.overlaps, end.is_overlap());
    lessons.unexplained = either(lessons.unexplained, end.is_unexplained());
    take_in(alloc, lines, before, &end, words)
}

/// What is learned of histories, and the words on those that rows do not explain to their ends.
#[tactic(auto, using(crate::proofs::LearningLemmas::learned_none, crate::proofs::LearningLemmas::learned_more))]
fn learn_each(
    alloc: Global,
    lines: &[&[u8]],
    pieces: Vec<Piece>,
) -> Result<(Lessons, Vec<u8>), AllocError>
    ensures { IfOk result (λ told. AreLearned (map of_piece pieces.items) told.0) }
{
    let mut lessons = Lessons {
        rows: Vec::new(alloc),
        overlaps: false,
        unexplained: false,
    };
    let mut words = Words {
        text: Vec::new(alloc),
        count: 0,
    };
    for piece in pieces {
        words = push_lesson(alloc, lines, piece, &mut lessons, words)?;
    }
    Ok((lessons, words_of(words)?))
}

/// What came of histories of which some overlap, or some are not explained.
fn learning_by(overlaps: bool, unexplained: bool) -> Learning
    ensures { result ≡ learning_by overlaps unexplained }
{
    if overlaps {
        return Learning::Overlapping;
    }
    if unexplained {
        Learning::Unexplained
    } else {
        Learning::Explained
    }
}

/// What is written of what is learned.
fn text_of(alloc: Global, lessons: &Lessons) -> Result<Vec<u8>, AllocError>
    ensures { IfOk result (λ text. text.items ≡ written_of lessons.now.overlaps lessons.now.rows.items) }
{
    if lessons.overlaps {
        return Ok(Vec::new(alloc));
    }
    table_text(alloc, lessons.rows.as_slice())
}

/// The table of what is learned of histories.
#[tactic(auto, using(crate::proofs::LearningLemmas::learning_made))]
fn made_of(alloc: Global, lines: &[&[u8]], pieces: Vec<Piece>) -> Result<Made<Learned>, AllocError>
    ensures { IfOk result (λ made. IsLearning (Ok (map of_piece pieces.items)) made.end made.text.items) }
{
    let (lessons, words) = learn_each(alloc, lines, pieces)?;
    let outcome = learning_by(lessons.overlaps, lessons.unexplained);
    let text = text_of(alloc, &lessons)?;
    Ok(Made {
        text,
        end: Learned { outcome, words },
    })
}

/// The same of those that lines tell.
fn learn_lines(alloc: Global, lines: &[&[u8]], dialect: &Dialect) -> Result<Made<Learned>, RunFault>
    ensures { MakesLearned (histories_by dialect.now 0 (pieces_of (map (λ l. l.now) lines.now))) result }
{
    let pieces = pieces_in(alloc, lines, dialect)?;
    match made_of(alloc, lines, pieces) {
        Ok(made) => Ok(made),
        Err(_) => Err(RunFault::OutOfMemory),
    }
}

/// The same of those that a text has.
fn learn_text(alloc: Global, text: &[u8], dialect: &Dialect) -> Result<Made<Learned>, RunFault>
    ensures { MakesLearned (histories_of dialect.now text.now) result }
{
    let lines = lines_in(alloc, text)?;
    learn_lines(alloc, &lines, dialect)
}

/// The same, as they are read without a table.
fn learn_plain(alloc: Global, text: &[u8]) -> Result<Made<Learned>, RunFault>
    ensures { MakesLearned (histories_of [] text.now) result }
{
    let dialect = Dialect::new(alloc);
    learn_text(alloc, text, &dialect)
}

/// Learns from histories of one thread each, begun by their header lines, how another tree replies, and writes a table of errors that
/// explains them. It has a row for each return by which the trees differ, if both reply errors. If one succeeds and the other does not, or
/// both do with different replies, no row explains it, and nothing more is learned of that history. If calls of a history overlap,
/// nothing is written. Each history that rows explain to its end is linearizable if it is read by that table. The answer says what came of
/// all, and where rows end. Who listens hears nothing. There is no text only if the input has a fault, or memory runs out.
#[derive(Clone, Copy, Debug)]
pub struct LearnHistories;

impl<Listener> Command<Listener> for LearnHistories {
    ghost use Rattle.fs_linearize_text.specs.code.Laws.{learned_honest};

    type End = Learned;

    type Fault = RunFault;

    ghost Asks = { λ _. Unit {0} };

    ghost Makes = { λ _ input. MakesLearned (histories_of [] input) };

    fn make(
        self,
        alloc: Global,
        input: Vec<u8>,
        _listener: &mut Listener,
    ) -> Result<Made<Learned>, RunFault> {
        learn_plain(alloc, input.as_slice())
    }

    ghost honest = { λ _. learned_honest };
}
