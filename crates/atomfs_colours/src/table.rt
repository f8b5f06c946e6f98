//! The table of the ends of runs.

use crate::cells::{cut_word, is_number, push_spaces};
use std::alloc::{AllocError, Global};

/// What stands between the replies of two calls.
const BAR: &[u8] = b" | ";

/// A line of ends: how often an end came, its least seed, and the rest, which are its tree and the replies.
#[derive(Clone, Copy)]
struct Row<'t> {
    times: &'t [u8],
    seed: &'t [u8],
    rest: &'t [u8],
}

/// How many runs there are, and how wide the columns are: as the longest.
#[derive(Drop)]
struct Widths {
    runs: u64,
    times: usize,
    share: usize,
    seed: usize,
    rest: Vec<usize>,
}

/// The number that digits make; the greatest where it has more than 64 bits.
fn number_of(digits: &[u8]) -> u64 {
    let mut number = 0u64;
    for digit in digits {
        number = number
            .saturating_mul(10)
            .saturating_add(u64::from(digit.saturating_sub(b'0')));
    }
    number
}

/// The row of a line, if it is one.
fn row_of(line: &[u8]) -> Option<Row<'_>> {
    let (times, line) = cut_word(line)?;
    let (word, line) = cut_word(line)?;
    let (seed, rest) = cut_word(line)?;
    if !is_number(times) || word != b"seed".as_slice() || !is_number(seed) {
        return None;
    }
    Some(Row { times, seed, rest })
}

/// Whether a bar is at a place of a text.
fn is_bar(text: &[u8], at: usize) -> bool {
    text.get(at..).is_some_and(|rest| rest.starts_with(BAR))
}

/// The parts of a text between its bars.
fn cells_of(alloc: Global, text: &[u8]) -> Result<Vec<&[u8]>, AllocError> {
    let mut cells = Vec::new(alloc);
    let mut from = 0usize;
    for at in 0..text.len() {
        if at >= from && is_bar(text, at) {
            if let Some(cell) = text.get(from..at) {
                cells.push(cell)?;
            }
            from = at.saturating_add(BAR.len());
        }
    }
    if let Some(last) = text.get(from..) {
        cells.push(last)?;
    }
    Ok(cells)
}

/// So many of all runs, in thousandth parts: the nearest number, but all and none only where it is so.
fn thousandths(times: u64, runs: u64) -> u64 {
    if times == 0 || runs == 0 {
        return 0;
    }
    if times >= runs {
        return 1_000;
    }
    let doubled = times.saturating_mul(2_000).saturating_add(runs);
    (doubled / runs / 2).max(1).min(999)
}

/// The share of an end among all runs, in hundredth parts: `(33.3%)`.
fn share_text(alloc: Global, times: u64, runs: u64) -> Result<String, AllocError> {
    let parts = thousandths(times, runs);
    let (whole, tenth) = (parts / 10, parts % 10);
    Ok(format!(in alloc; "({whole}.{tenth}%)")?)
}

/// Makes the widths of the columns no smaller than those of cells.
fn widen(cells: &[&[u8]], widths: &mut Vec<usize>) -> Result<(), AllocError> {
    for at in 0..cells.len() {
        let width = cells[at].len();
        if at < widths.len() {
            widths[at] = widths[at].max(width);
        } else {
            widths.push(width)?;
        }
    }
    Ok(())
}

/// How many runs the lines have in all.
fn runs_of(text: &[u8]) -> u64 {
    let mut runs = 0u64;
    for line in text.split(|byte| *byte == b'\n') {
        if let Some(row) = row_of(line) {
            runs = runs.saturating_add(number_of(row.times));
        }
    }
    runs
}

/// The widths of the columns.
fn widths_of(alloc: Global, text: &[u8]) -> Result<Widths, AllocError> {
    let mut widths = Widths {
        runs: runs_of(text),
        times: 0,
        share: 0,
        seed: 0,
        rest: Vec::new(alloc),
    };
    for line in text.split(|byte| *byte == b'\n') {
        if let Some(row) = row_of(line) {
            let share = share_text(alloc, number_of(row.times), widths.runs)?;
            widths.times = widths.times.max(row.times.len());
            widths.share = widths.share.max(share.len());
            widths.seed = widths.seed.max(row.seed.len());
            widen(&cells_of(alloc, row.rest)?, &mut widths.rest)?;
        }
    }
    Ok(widths)
}

/// Adds a cell of this width, and a bar.
fn push_cell(cell: &[u8], width: usize, laid: &mut Vec<u8>) -> Result<(), AllocError> {
    laid.extend_from_slice(cell)?;
    push_spaces(width.saturating_sub(cell.len()), laid)?;
    laid.extend_from_slice(BAR)
}

/// Adds the cells of a line, each of its width but the last.
fn push_cells(cells: &[&[u8]], widths: &[usize], laid: &mut Vec<u8>) -> Result<(), AllocError> {
    for at in 0..cells.len() {
        if at < widths.len() && at.saturating_add(1) < cells.len() {
            push_cell(cells[at], widths[at], laid)?;
        } else {
            laid.extend_from_slice(cells[at])?;
        }
    }
    Ok(())
}

/// Adds the line of an end.
fn push_row(
    alloc: Global,
    row: &Row<'_>,
    widths: &Widths,
    laid: &mut Vec<u8>,
) -> Result<(), AllocError> {
    let share = share_text(alloc, number_of(row.times), widths.runs)?;
    push_spaces(widths.times.saturating_sub(row.times.len()), laid)?;
    laid.extend_from_slice(row.times)?;
    push_spaces(
        widths.share.saturating_sub(share.len()).saturating_add(2),
        laid,
    )?;
    laid.extend_from_slice(share.as_bytes())?;
    laid.extend_from_slice(b"  seed ")?;
    push_spaces(widths.seed.saturating_sub(row.seed.len()), laid)?;
    laid.extend_from_slice(row.seed)?;
    laid.extend_from_slice(b"  ")?;
    push_cells(&cells_of(alloc, row.rest)?, &widths.rest, laid)
}

/// The ends of runs as a table. Its other lines, which are those of trees, are as they are.
pub(crate) fn table_of(alloc: Global, text: &[u8]) -> Result<Vec<u8>, AllocError> {
    let widths = widths_of(alloc, text)?;
    let mut laid = Vec::new(alloc);
    let mut is_first = true;
    for line in text.split(|byte| *byte == b'\n') {
        if !is_first {
            laid.push(b'\n')?;
        }
        is_first = false;
        match row_of(line) {
            Some(row) => push_row(alloc, &row, &widths, &mut laid)?,
            None => laid.extend_from_slice(line)?,
        }
    }
    Ok(laid)
}
