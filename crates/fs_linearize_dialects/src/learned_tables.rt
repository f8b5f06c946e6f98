//! The table that rows make.

ghost use Rattle.std.specs.Prelude.{◌≡◌, ◌++◌, IfOk, OnOk};
ghost use Rattle.std.specs.List.{flat_map, filter};
ghost use Rattle.fs_linearize_dialects.specs.Learning.{is_row};
ghost use Rattle.fs_linearize_dialects.specs.LearnedTables.{times, is_seen, times_words, times_line, row_line, both_lines, line_with, line_for, lines_of, table_text};

use crate::call_name::{CallName, NAMES};
use crate::dialect::Row;
use crate::errors::{ERRNOS, write_errors};
use fs_calls::Errno;
use fs_text::errno_text;
use fs_words::Addition;
use std::alloc::{AllocError, Global};

/// Whether a row is this one.
fn is_row(name: CallName, ours: Errno, theirs: Errno, row: Row) -> bool
    ensures { result ≡ is_row name ours theirs row }
{
    row.is_for(name, theirs) && row.ours.number() == ours.number()
}

/// How often a row is among rows.
fn times(name: CallName, ours: Errno, rows: &[Row], theirs: Errno) -> usize
    ensures { result ≡ times name ours rows.now theirs }
{
    let mut count = 0;
    for row in rows {
        if is_row(name, ours, theirs, *row) {
            count += 1;
        }
    }
    count
}

/// Whether it is.
fn is_seen(name: CallName, ours: Errno, rows: &[Row], theirs: Errno) -> bool
    ensures { result ≡ is_seen name ours rows.now theirs }
{
    rows.iter().any(|row| is_row(name, ours, theirs, *row))
}

/// The errors among these that rows have for a call and what this tree replies.
fn seen_among(
    alloc: Global,
    name: CallName,
    ours: Errno,
    rows: &[Row],
    errnos: &[Errno],
) -> Result<Vec<Errno>, AllocError>
    ensures { IfOk result (λ errors. errors.items ≡ filter (is_seen name ours rows.now) errnos.now) }
{
    let mut errors = Vec::new(alloc);
    for theirs in errnos {
        if is_seen(name, ours, rows, *theirs) {
            errors.push(*theirs)?;
        }
    }
    Ok(errors)
}

/// Adds how often each of these errors was seen.
fn push_times(
    name: CallName,
    ours: Errno,
    rows: &[Row],
    errors: &[Errno],
    text: &mut Addition,
) -> Result<(), AllocError>
    ensures ok { OnOk result (text.new.added ≡ text.old.added ++ flat_map (times_words name ours rows.now) errors.now) }
    ensures before { text.new.before ≡ text.old.before }
{
    for theirs in errors {
        text.push(b" ")?;
        text.push(errno_text(*theirs))?;
        text.push_with_number(b" ", times(name, ours, rows, *theirs) as u64)?;
    }
    Ok(())
}

/// The comment that says how often each of these errors was seen.
fn times_line(
    alloc: Global,
    name: CallName,
    ours: Errno,
    rows: &[Row],
    errors: &[Errno],
) -> Result<Vec<u8>, AllocError>
    ensures { IfOk result (λ line. line.items ≡ times_line name ours rows.now errors.now) }
{
    let mut line = Addition::new(Vec::new(alloc));
    line.push(b"# times:")?;
    push_times(name, ours, rows, errors, &mut line)?;
    line.push(b"\n")?;
    Ok(line.kept())
}

/// The line of the rows with these errors.
fn row_line(
    alloc: Global,
    name: CallName,
    ours: Errno,
    errors: &[Errno],
) -> Result<Vec<u8>, AllocError>
    ensures { IfOk result (λ line. line.items ≡ row_line name ours errors.now) }
{
    let mut line = Addition::new(Vec::new(alloc));
    line.push(name.text())?;
    line.push(b" ")?;
    line.push(errno_text(ours))?;
    line.push(b" ")?;
    write_errors(errors, &mut line)?;
    line.push(b"\n")?;
    Ok(line.kept())
}

/// Adds both lines.
fn push_both(
    alloc: Global,
    name: CallName,
    ours: Errno,
    rows: &[Row],
    errors: &[Errno],
    text: &mut Vec<u8>,
) -> Result<(), AllocError>
    ensures { OnOk result (text.new.items ≡ text.old.items ++ both_lines name ours rows.now errors.now) }
{
    let times = times_line(alloc, name, ours, rows, errors)?;
    text.extend_from_slice(&times)?;
    let row = row_line(alloc, name, ours, errors)?;
    text.extend_from_slice(&row)
}

/// The same, if there are some errors.
fn push_with(
    alloc: Global,
    name: CallName,
    ours: Errno,
    rows: &[Row],
    errors: &[Errno],
    text: &mut Vec<u8>,
) -> Result<(), AllocError>
    ensures { OnOk result (text.new.items ≡ text.old.items ++ line_with name ours rows.now errors.now) }
{
    match errors {
        [] => Ok(()),
        [_, ..] => push_both(alloc, name, ours, rows, errors, text),
    }
}

/// Adds the line of the rows that are about a call and what this tree replies.
fn push_line(
    alloc: Global,
    rows: &[Row],
    name: CallName,
    ours: Errno,
    text: &mut Vec<u8>,
) -> Result<(), AllocError>
    ensures { OnOk result (text.new.items ≡ text.old.items ++ line_for rows.now name ours) }
{
    let errors = seen_among(alloc, name, ours, rows, &ERRNOS)?;
    push_with(alloc, name, ours, rows, &errors, text)
}

/// Adds the lines of the rows that are about a call, and about these errors of this tree.
fn push_lines(
    alloc: Global,
    rows: &[Row],
    name: CallName,
    errnos: &[Errno],
    text: &mut Vec<u8>,
) -> Result<(), AllocError>
    ensures { OnOk result (text.new.items ≡ text.old.items ++ flat_map (line_for rows.now name) errnos.now) }
{
    for ours in errnos {
        push_line(alloc, rows, name, *ours, text)?;
    }
    Ok(())
}

/// Adds the lines of the rows that are about these calls.
fn push_names(
    alloc: Global,
    rows: &[Row],
    names: &[CallName],
    text: &mut Vec<u8>,
) -> Result<(), AllocError>
    ensures { OnOk result (text.new.items ≡ text.old.items ++ flat_map (lines_of rows.now) names.now) }
{
    for name in names {
        push_lines(alloc, rows, *name, &ERRNOS, text)?;
    }
    Ok(())
}

/// The text of the table that rows make: each once, in the order of the calls and of the errors. A comment before each line says how often
/// its rows were seen.
pub fn table_text(alloc: Global, rows: &[Row]) -> Result<Vec<u8>, AllocError>
    ensures { IfOk result (λ text. text.items ≡ table_text rows.now) }
{
    let mut text = Vec::new(alloc);
    text.extend_from_slice(b"atomfs-dialect 1\n")?;
    push_names(alloc, rows, &NAMES, &mut text)?;
    Ok(text)
}
