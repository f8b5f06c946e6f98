//! Lines of ends that are added up.

ghost use Rattle.std.specs.Prelude.{◌≡◌, ◌≤◌, length, map, IfOk, OnOk, IfErr, false};
ghost use Rattle.std.specs.List.{sum_by};
ghost use Rattle.fs_words.specs.Headers.{is_too_long};
ghost use Rattle.fs_words.specs.Lines.{lines_of};
ghost use Rattle.fs_sched_outcomes.specs.Faults.{IsBadLine};
ghost use Rattle.fs_sched_outcomes.specs.Lines.{added_line};
ghost use Rattle.fs_sched_outcomes.specs.Makes.{MakesSum};
ghost use Rattle.fs_sched_outcomes.specs.Sums.{times_of};
ghost use Rattle.fs_sched_outcomes.specs.code.Adding.{AreKept};
ghost use Rattle.fs_sched_outcomes.specs.code.Mades.{AddsLine, AreOrdered, HasLines};

use crate::ends::End;
use crate::lines::{Form, added_line, added_text};
use crate::rows::{Row, Rows};
use fs_names::blocks::place_from;
use fs_sched::RunFault;
use fs_verdict::{Command, Made};
use fs_words::headers::is_too_long;
use fs_words::lines::{cut_line, cut_words};
use fs_words::words::{is_word, number_of};
use fs_words::{FaultKind, ScriptFault};
use std::alloc::{AllocError, Global};

/// How many digits stand for a tree.
const DIGITS: usize = 16;

/// Whether a call and its reply begin at a place: in a listing no name that begins with a letter stands behind the name `|`.
fn is_part(text: &[u8], at: usize) -> bool {
    at < text.len()
        && text[at..].starts_with(b" | ")
        && text.len() - at > 3
        && text[at + 3].is_ascii_lowercase()
}

/// Where the next call and its reply begin, or the end.
fn part_from(text: &[u8], from: usize) -> usize
    ensures most { result ≤ length text.now }
    ensures least { from ≤ length text.now → from ≤ result }
{
    for at in from..text.len() {
        if is_part(text, at) {
            return at;
        }
    }
    text.len()
}

/// The calls of a line, and their replies.
#[derive(Drop)]
struct Parts {
    labels: Vec<Vec<u8>>,
    replies: Vec<Vec<u8>>,
}

/// Adds a call and its reply.
fn push_part(alloc: Global, part: &[u8], parts: &mut Parts) -> Result<(), FaultKind> {
    let Some(end) = place_from(b' ', part, 0) else {
        return Err(FaultKind::BadLine);
    };
    let Ok(label) = Vec::from_slice(alloc, &part[..end]) else {
        return Err(FaultKind::OutOfMemory);
    };
    let Ok(reply) = Vec::from_slice(alloc, &part[end + 1..]) else {
        return Err(FaultKind::OutOfMemory);
    };
    if parts.labels.push(label).is_err() || parts.replies.push(reply).is_err() {
        return Err(FaultKind::OutOfMemory);
    }
    Ok(())
}

/// The calls and replies that stand from a place on.
fn parts_from(alloc: Global, text: &[u8], from: usize) -> Result<Parts, FaultKind> {
    let mut parts = Parts {
        labels: Vec::new(alloc),
        replies: Vec::new(alloc),
    };
    let mut at = from;
    'parts: while at < text.len() {
        let end = part_from(text, at + 1);
        if end - at < 3 {
            return Err(FaultKind::BadLine);
        }
        push_part(alloc, &text[at + 3..end], &mut parts)?;
        at = end;
    }
    Ok(parts)
}

/// Whether digits stand for a tree.
fn is_digest(word: &[u8]) -> bool {
    word.len() == DIGITS && word.iter().all(|byte| byte.is_ascii_hexdigit())
}

/// The numbers at the front of a line, and the digits that stand for its tree.
fn head_of<'a>(alloc: Global, head: &'a [u8]) -> Result<(u64, u64, &'a [u8]), FaultKind> {
    let mut words: Vec<&[u8]> = Vec::new(alloc);
    cut_words(head, &mut words)?;
    if words.len() != 5 || !is_word(words[1], b"seed") || !is_word(words[3], b"tree") {
        return Err(FaultKind::BadLine);
    }
    match (number_of(words[0]), number_of(words[2])) {
        (Some(times), Some(seed)) if times > 0 && is_digest(words[4]) => Ok((
            times, seed, words[4],
        )),
        _ => Err(FaultKind::BadLine),
    }
}

/// The names of the calls of a line.
fn labels_in(alloc: Global, line: &[u8]) -> Result<Vec<Vec<u8>>, FaultKind> {
    let parts = parts_from(alloc, line, part_from(line, 0))?;
    Ok(parts.labels)
}

/// The row that a line tells.
fn row_in(alloc: Global, line: &[u8]) -> Result<Row, FaultKind> {
    let from = part_from(line, 0);
    let (times, seed, digest) = head_of(alloc, &line[..from])?;
    let parts = parts_from(alloc, line, from)?;
    let Ok(tree) = Vec::from_slice(alloc, digest) else {
        return Err(FaultKind::OutOfMemory);
    };
    let end = End {
        replies: parts.replies,
        tree,
    };
    Ok(Row { times, seed, end })
}

/// The row of which this is the line, byte for byte, with these names of calls.
fn row_of(alloc: Global, labels: &[Vec<u8>], line: &[u8]) -> Result<Row, FaultKind>
    ensures { IfOk result (λ row. line.now ≡ added_line (map (λ label. label.items) labels.now) row) }
{
    let row = row_in(alloc, line)?;
    let Ok(same) = added_line(alloc, labels, &row) else {
        return Err(FaultKind::OutOfMemory);
    };
    if line != same.as_slice() {
        return Err(FaultKind::BadLine);
    }
    Ok(row)
}

/// The fault of a line.
fn at_line(line: usize, kind: FaultKind) -> RunFault
    ensures { IsBadLine result }
{
    match kind {
        FaultKind::OutOfMemory => RunFault::OutOfMemory,
        _ => RunFault::Input(ScriptFault {
            line: line as u64,
            kind,
        }),
    }
}

/// The lines of a text of allowed length.
fn lines_in(alloc: Global, text: &[u8]) -> Result<Vec<&[u8]>, RunFault>
    ensures lines { IfOk result (λ lines. map (λ line. line.now) lines.items ≡ lines_of text.now) }
    ensures short { OnOk result (is_too_long text.now ≡ false) }
    ensures fault { IfErr result IsBadLine }
{
    if is_too_long(text) {
        return Err(at_line(1, FaultKind::TooLarge));
    }
    let mut lines = Vec::new(alloc);
    let mut left = text;
    'lines: while let Some((line, rest)) = cut_line(left) {
        if lines.push(line).is_err() {
            return Err(RunFault::OutOfMemory);
        }
        left = rest;
    }
    Ok(lines)
}

/// The names of the calls of the first line; none where there is no line.
fn first_labels(alloc: Global, lines: &[&[u8]]) -> Result<Vec<Vec<u8>>, RunFault>
    ensures { IfErr result IsBadLine }
{
    if lines.is_empty() {
        return Ok(Vec::new(alloc));
    }
    match labels_in(alloc, lines[0]) {
        Ok(labels) => Ok(labels),
        Err(kind) => Err(at_line(1, kind)),
    }
}

/// Adds the row that a line tells; how often all came together stays a number.
fn add_line(
    alloc: Global,
    labels: &[Vec<u8>],
    line: &[u8],
    total: u64,
    rows: &mut Rows,
) -> Result<u64, FaultKind>
    requires kept { AreKept rows.old }
    requires total { sum_by times_of rows.old.rows.items ≡ total }
    ensures kept { OnOk result (AreKept rows.new) }
    ensures line { OnOk result (AddsLine (map (λ label. label.items) labels.now) line.now rows.old.rows.items rows.new.rows.items) }
    ensures total { IfOk result (λ more. sum_by times_of rows.new.rows.items ≡ more) }
{
    let row = row_of(alloc, labels, line)?;
    let Some(more) = total.checked_add(row.times) else {
        return Err(FaultKind::TooLarge);
    };
    match rows.add(alloc, row) {
        Ok(()) => Ok(more),
        Err(_) => Err(FaultKind::OutOfMemory),
    }
}

/// The rows that add up those of lines.
fn add_lines(alloc: Global, labels: &[Vec<u8>], lines: &[&[u8]]) -> Result<Rows, RunFault>
    ensures rows { IfOk result (λ rows. HasLines (map (λ label. label.items) labels.now) (map (λ line. line.now) lines.now) rows.rows.items) }
    ensures fault { IfErr result IsBadLine }
{
    let mut rows = Rows::new(alloc);
    let mut total = 0;
    let mut number = 0usize;
    for line in lines {
        number = number.saturating_add(1);
        match add_line(alloc, labels, line, total, &mut rows) {
            Ok(more) => total = more,
            Err(kind) => return Err(at_line(number, kind)),
        }
    }
    Ok(rows)
}

/// The lines of rows that were added up.
fn sum_of(alloc: Global, labels: &[Vec<u8>], rows: Rows, form: Form) -> Result<Vec<u8>, AllocError>
    ensures { IfOk result (λ text. AreOrdered form (map (λ label. label.items) labels.now) rows.rows.items text.items) }
{
    let rows = rows.in_order()?;
    let text = added_text(alloc, labels, &rows, form)?;
    Ok(text)
}

/// The lines that add up those of a text.
fn sum_in(alloc: Global, text: &[u8], form: Form) -> Result<Made<()>, RunFault>
    ensures { MakesSum form text.now result }
{
    let lines = lines_in(alloc, text)?;
    let labels = first_labels(alloc, &lines)?;
    let rows = add_lines(alloc, &labels, &lines)?;
    match sum_of(alloc, &labels, rows, form) {
        Ok(text) => Ok(Made { text, end: () }),
        Err(_) => Err(RunFault::OutOfMemory),
    }
}

/// The sum of lines that `CountOutcomes` made with the replies of all calls, of runs of one script. What is made is the lines of rows that
/// add them up. Two ends are one if their replies and the digits that stand for their trees are.
#[derive(Clone, Copy, Debug)]
pub struct AddOutcomes {
    /// What the lines have.
    pub form: Form,
}

impl<Listener> Command<Listener> for AddOutcomes {
    ghost use Rattle.fs_sched_outcomes.specs.Makes.{MakesSum};
    ghost use Rattle.fs_sched_outcomes.specs.code.Laws.{add_honest};

    type End = ();

    type Fault = RunFault;

    ghost Asks = { λ _. Unit {0} };

    ghost Makes = { λ c. MakesSum c.form };

    fn make(
        self,
        alloc: Global,
        input: Vec<u8>,
        _listener: &mut Listener,
    ) -> Result<Made<()>, RunFault> {
        sum_in(alloc, input.as_slice(), self.form)
    }

    ghost honest = { λ c. add_honest c.form };
}
