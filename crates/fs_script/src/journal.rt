//! Journals that are read from their text, with the tree at which they start.

ghost use Rattle.std.specs.Prelude.{◌≡◌, ◌∷◌, ◌++◌, ◌==◌, ◌-◌, ◌<◌, ◌≤◌, [], Ok, IfOk, codes, length, map, slice_index};
ghost use Rattle.std.specs.List.{slice_split, join_with_byte};
ghost use Rattle.std.specs.Str.{bytes_eq};
ghost use Rattle.fs_names.specs.Reading.{is_slash};
ghost use Rattle.fs_seq.specs.Rows.{key_of, node_of_kind, row_of, is_first, IsWithinLimits};
ghost use Rattle.fs_names.specs.declared.limits.Limits.TheVariants.{V1};
ghost use Rattle.fs_calls.specs.Tree.{root_tree};
ghost use Rattle.fs_calls.specs.Starts.{root_start};
ghost use Rattle.fs_words.specs.Reading.{behind_first};
ghost use Rattle.fs_words.specs.code.Answers.{Gives, GivesText};
ghost use Rattle.fs_text.specs.Journal.{names_at, entries_of};
ghost use Rattle.fs_script.specs.TreeText.{node_words};
ghost use Rattle.fs_script.specs.Journals.{key_at, file_at, node_at, node_in_line, with_start, started_from, behind_line, journal_of};
ghost use Rattle.fs_script.specs.code.Starts.{node_of_row, IsToldBy, Expects, AreTaken, read_end, IsRootAlone, AreNumbered, MakesTree, journal_seen};

use crate::node_line::push_row;
use fs_names::{Kind, Limits, Name};
use fs_seq::{NotTree, Row, SeqTree};
use fs_text::{entries_in, names_at, read_entries};
use fs_timeline::Entry;
use fs_words::headers::started_limits;
use fs_words::lines::{cut_words, push_item};
use fs_words::words::{hex_at, is_word};
use fs_words::{Addition, FaultKind, Lines, ScriptFault};
use std::alloc::{AllocError, Global};

/// A journal: the tree at which it starts, by whose limits it was read, and its entries.
#[derive(Drop)]
pub struct Journal {
    pub start: SeqTree,
    pub entries: Vec<Entry>,
}

/// What is between the slashes of a path.
fn pieces(alloc: Global, path: &[u8]) -> Result<Vec<&[u8]>, AllocError>
    ensures { IfOk result (λ pieces. map (λ p. p.now) pieces.items ≡ slice_split is_slash path.now) }
{
    path.split(|b| *b == b'/').collect(alloc)
}

/// The names after the first piece.
fn names_behind(alloc: Global, limits: Limits, pieces: &[&[u8]]) -> Result<Vec<Name>, FaultKind>
    ensures { Gives (λ names. names.items) result (names_at limits (behind_first (map (λ p. p.now) pieces.now))) }
{
    match pieces {
        [] => Ok(Vec::new(alloc)),
        [_, names @ ..] => names_at(alloc, limits, names),
    }
}

/// The key that a word spells, as a path of any number of names.
fn key_at(alloc: Global, limits: Limits, word: &[u8]) -> Result<Vec<Name>, FaultKind>
    ensures { Gives (λ key. key.items) result (key_at limits word.now) }
{
    if is_word(word, b"/") {
        return Ok(Vec::new(alloc));
    }
    match pieces(alloc, word) {
        Ok(pieces) => names_behind(alloc, limits, pieces.as_slice()),
        Err(_) => Err(FaultKind::OutOfMemory),
    }
}

/// The row of a directory, without bytes.
fn dir_row(alloc: Global, key: Vec<Name>) -> Row
    ensures { node_of_row result ≡ (key.items, Kind.Dir, []) }
{
    Row {
        key,
        kind: Kind::Dir,
        bytes: Vec::new(alloc),
    }
}

/// The row of a file, by two words.
#[tactic(auto, using(fs_words::proofs::ReadLemmas::fails_bind))]
fn file_at(alloc: Global, limits: Limits, path: &[u8], bytes: &[u8]) -> Result<Row, FaultKind>
    ensures { Gives node_of_row result (file_at limits path.now bytes.now) }
{
    let key = match key_at(alloc, limits, path) {
        Ok(key) => key,
        Err(kind) => return Err(kind),
    };
    match hex_at(alloc, bytes) {
        Ok(bytes) => Ok(Row {
            key,
            kind: Kind::File,
            bytes: bytes.into_vec(),
        }),
        Err(kind) => Err(kind),
    }
}

/// The row that words could mean.
#[tactic(auto, using(fs_words::proofs::ReadLemmas::fails_bind))]
fn row_at(alloc: Global, limits: Limits, words: &[&[u8]]) -> Result<Row, FaultKind>
    ensures { Gives node_of_row result (node_at limits (map (λ w. w.now) words.now)) }
{
    match words {
        [_, path] => {
            match key_at(alloc, limits, path) {
                Ok(key) => Ok(dir_row(alloc, key)),
                Err(kind) => Err(kind),
            }
        }
        [_, path, bytes] => file_at(alloc, limits, path, bytes),
        _ => Err(FaultKind::BadStart),
    }
}

/// Whether this is the very line that is written of a row.
fn is_line_of(alloc: Global, line: &[u8], row: &Row) -> Result<bool, AllocError>
    ensures { IfOk result (λ same. same ≡ bytes_eq line.now (join_with_byte 32 (node_words (key_of row.now) (node_of_kind row.now.kind row.now.bytes.items)))) }
{
    let mut written = Addition::new(Vec::new(alloc));
    push_row(alloc, row, &mut written)?;
    let written = written.kept();
    Ok(is_word(line, &written))
}

/// The row that a line means. `words` lends its memory.
fn row_in<'a>(
    alloc: Global,
    limits: Limits,
    line: &'a [u8],
    words: &mut Vec<&'a [u8]>,
) -> Result<Row, FaultKind>
    ensures { Gives node_of_row result (node_in_line limits line.now) }
{
    if let Err(kind) = cut_words(line, words) {
        return Err(kind);
    }
    let row = match row_at(alloc, limits, words.as_slice()) {
        Ok(row) => row,
        Err(kind) => return Err(kind),
    };
    match is_line_of(alloc, line, &row) {
        Ok(true) => Ok(row),
        Ok(false) => Err(FaultKind::BadStart),
        Err(_) => Err(FaultKind::OutOfMemory),
    }
}

/// The row that a line means, if it means one. `words` lends its memory.
fn told<'a>(
    alloc: Global,
    limits: Limits,
    line: &'a [u8],
    words: &mut Vec<&'a [u8]>,
) -> Result<Option<Row>, AllocError>
    ensures { IfOk result (λ row. IsToldBy row (node_in_line limits line.now)) }
{
    match row_in(alloc, limits, line, words) {
        Ok(row) => Ok(Some(row)),
        Err(FaultKind::OutOfMemory) => Err(AllocError),
        Err(_) => Ok(None),
    }
}

/// Where the rows of a start tree end.
#[derive(Clone, Copy)]
pub(crate) enum End {
    /// At the line `entries`.
    Entries,
    /// At the line of this number, which is no row. If no line is left, the number is one more than that of the last
    /// line.
    Wrong(u64),
}

/// Takes rows from lines, each with the number of its line, and answers where they end.
fn take_rows(
    alloc: Global,
    limits: Limits,
    lines: &mut Lines<'_>,
    rows: &mut Vec<Row>,
    numbers: &mut Vec<u64>,
) -> Result<End, AllocError>
    requires { numbers.old.items ≡ [] }
    ensures { IfOk result (λ end. AreTaken limits lines.old rows.old.items rows.new.items numbers.new.items (read_end end lines.new)) }
{
    let mut words = Vec::new(alloc);
    'lines: while let Some(line) = lines.next() {
        if is_word(line.text, b"entries") {
            return Ok(End::Entries);
        }
        let Some(row) = told(alloc, limits, line.text, &mut words)? else {
            return Ok(End::Wrong(line.number));
        };
        numbers.push(line.number)?;
        rows.push(row)?;
    }
    Ok(End::Wrong(lines.number()))
}

/// That a line is no line of a start tree.
pub(crate) fn bad_start(line: u64) -> ScriptFault
    ensures { result ≡ record { line = line; kind = FaultKind.BadStart } }
{
    ScriptFault {
        line,
        kind: FaultKind::BadStart,
    }
}

fn out_of_memory(lines: &Lines<'_>) -> ScriptFault
    ensures { result.kind ≡ FaultKind.OutOfMemory }
{
    ScriptFault {
        line: lines.number().saturating_sub(1),
        kind: FaultKind::OutOfMemory,
    }
}

/// Takes the next line, which has to be this one.
fn expect(lines: &mut Lines<'_>, wanted: &[u8]) -> Result<(), ScriptFault>
    ensures { Expects wanted.now lines.old result lines.new }
{
    match lines.next() {
        Some(line) => {
            if is_word(line.text, wanted) {
                Ok(())
            } else {
                Err(bad_start(line.number))
            }
        }
        None => Err(bad_start(lines.number())),
    }
}

/// The row of the root, alone.
fn root_rows(alloc: Global) -> Result<Vec<Row>, AllocError>
    ensures { IfOk result (λ rows. IsRootAlone rows.items) }
{
    let mut rows = Vec::new(alloc);
    rows.push(dir_row(alloc, Vec::new(alloc)))?;
    Ok(rows)
}

/// The fault of the row at a place, counted from 1, where the first has no number.
fn wrong_row(numbers: &[u64], place: usize) -> ScriptFault
    requires low { 2 ≤ place }
    requires high { place - 2 < length numbers.now }
    ensures { result ≡ record { line = slice_index numbers.now (place - 2); kind = FaultKind.BadStart } }
{
    bad_start(numbers[place - 2])
}

/// The tree of rows, where the first is the root's and each of the others has the number of its line.
fn tree_of(
    alloc: Global,
    limits: Limits,
    rows: &[Row],
    numbers: &[u64],
    lines: &Lines<'_>,
) -> Result<SeqTree, ScriptFault>
    requires { AreNumbered rows.now numbers.now }
    ensures tree { MakesTree limits rows.now numbers.now result }
    ensures within { IfOk result (λ start. IsWithinLimits start.limits start.tree) }
{
    match SeqTree::from_rows(alloc, rows, limits) {
        Ok(tree) => Ok(tree),
        Err(NotTree::Bad(place)) => Err(wrong_row(numbers, place)),
        Err(NotTree::OutOfMemory) => Err(out_of_memory(lines)),
    }
}

/// The journal of the lines after a start tree.
fn with_entries(
    alloc: Global,
    start: SeqTree,
    end: End,
    lines: Lines<'_>,
) -> Result<Journal, ScriptFault>
    ensures read { GivesText journal_seen result (read_end end lines.entry start) }
    ensures start { IfOk result (λ journal. journal.start ≡ start) }
{
    match end {
        End::Entries => {
            let entries = entries_in(alloc, start.limits(), lines)?;
            Ok(Journal { start, entries })
        }
        End::Wrong(line) => Err(bad_start(line)),
    }
}

/// The journal of the lines after the one of the root.
fn behind_root(alloc: Global, limits: Limits, lines: Lines<'_>) -> Result<Journal, ScriptFault>
    ensures read { GivesText journal_seen result (started_from limits root_tree lines.entry.number lines.entry.lines) }
    ensures within { IfOk result (λ journal. IsWithinLimits journal.start.limits journal.start.tree) }
{
    let mut left = lines;
    let mut numbers = Vec::new(alloc);
    let Ok(mut rows) = root_rows(alloc) else {
        return Err(out_of_memory(&left));
    };
    let Ok(end) = take_rows(alloc, limits, &mut left, &mut rows, &mut numbers) else {
        return Err(out_of_memory(&left));
    };
    match tree_of(alloc, limits, &rows, &numbers, &left) {
        Ok(start) => with_entries(alloc, start, end, left),
        Err(fault) => Err(fault),
    }
}

/// The journal of the lines after a header that announces a start tree.
fn started(alloc: Global, limits: Limits, lines: Lines<'_>) -> Result<Journal, ScriptFault>
    ensures read { GivesText journal_seen result (behind_line (codes "start") (behind_line (codes "dir /") (started_from limits root_tree)) lines.entry.number lines.entry.lines) }
    ensures within { IfOk result (λ journal. IsWithinLimits journal.start.limits journal.start.tree) }
{
    let mut left = lines;
    if let Err(fault) = expect(&mut left, b"start") {
        return Err(fault);
    }
    if let Err(fault) = expect(&mut left, b"dir /") {
        return Err(fault);
    }
    behind_root(alloc, limits, left)
}

/// The journal of a text of the first version, which starts at the root alone.
fn from_root(alloc: Global, text: &[u8]) -> Result<Journal, ScriptFault>
    ensures read { GivesText journal_seen result (with_start (root_start V1) (entries_of text.now)) }
    ensures within { IfOk result (λ journal. IsWithinLimits journal.start.limits journal.start.tree) }
{
    let entries = match read_entries(alloc, text) {
        Ok(entries) => entries,
        Err(fault) => return Err(fault),
    };
    match SeqTree::with_limits(alloc, Limits::V1) {
        Ok(start) => Ok(Journal { start, entries }),
        Err(_) => Err(ScriptFault {
            line: 1,
            kind: FaultKind::OutOfMemory,
        }),
    }
}

/// Reads a journal of any version, with its start tree, which is within its limits. The fault is the first from the left, with
/// its line.
#[tactic(auto, unfolding(crate::specs::Journals::journal_of))]
pub fn read_journal(alloc: Global, text: &[u8]) -> Result<Journal, ScriptFault>
    ensures read { GivesText journal_seen result (journal_of text.now) }
    ensures within { IfOk result (λ journal. IsWithinLimits journal.start.limits journal.start.tree) }
{
    let (first, lines) = match Lines::behind_first(text) {
        Ok(both) => both,
        Err(fault) => return Err(fault),
    };
    match started_limits(first) {
        Some(limits) => started(alloc, limits, lines),
        None => from_root(alloc, text),
    }
}
