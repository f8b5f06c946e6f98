//! Tables that are read from their texts.

ghost use Rattle.std.specs.Prelude.{[], ◌≡◌, map, IfOk};
ghost use Rattle.fs_words.specs.Lines.{lines_of};
ghost use Rattle.fs_linearize_dialects.specs.Tables.{with_rows, with_three, with_words, with_line, with_lines, rows_by, rows_in};
ghost use Rattle.fs_linearize_dialects.specs.code.Reads.{Becomes, IsRead};

use crate::call_name::CallName;
use crate::dialect::{Dialect, Row};
use crate::errors::{errno_at, errors_at};
use crate::fault::{DialectFault, TableFault};
use fs_calls::Errno;
use fs_linearize_histories::Errors;
use fs_words::FaultKind;
use fs_words::lines::{cut_line, cut_words, is_passed_over};
use fs_words::words::is_word;
use std::alloc::{AllocError, Global};

/// Adds the rows of a line.
fn push_rows(
    name: CallName,
    ours: Errno,
    theirs: &Errors,
    dialect: &mut Dialect,
) -> Result<(), TableFault>
    ensures { Becomes result dialect.new (with_rows dialect.old name ours theirs.now) }
{
    if dialect.is_about(name, ours) {
        return Err(TableFault::RowTwice);
    }
    if theirs.has(ours) {
        return Err(TableFault::SameError);
    }
    for errno in theirs.as_slice() {
        let row = Row {
            call: name,
            ours,
            theirs: *errno,
        };
        if dialect.push(row).is_err() {
            return Err(TableFault::OutOfMemory);
        }
    }
    Ok(())
}

/// The same of three words.
fn push_three(
    alloc: Global,
    call: &[u8],
    ours: &[u8],
    theirs: &[u8],
    dialect: &mut Dialect,
) -> Result<(), TableFault>
    ensures { Becomes result dialect.new (with_three dialect.old call.now ours.now theirs.now) }
{
    let Some(name) = CallName::at(call) else {
        return Err(TableFault::BadRow);
    };
    let Some(ours) = errno_at(ours) else {
        return Err(TableFault::BadRow);
    };
    match errors_at(alloc, theirs) {
        Ok(Some(theirs)) => push_rows(name, ours, &theirs, dialect),
        Ok(None) => Err(TableFault::BadRow),
        Err(_) => Err(TableFault::OutOfMemory),
    }
}

/// The same of words.
fn push_words(alloc: Global, words: &[&[u8]], dialect: &mut Dialect) -> Result<(), TableFault>
    ensures { Becomes result dialect.new (with_words dialect.old (map (λ w. w.now) words.now)) }
{
    match words {
        [call, ours, theirs] => push_three(alloc, call, ours, theirs, dialect),
        _ => Err(TableFault::BadRow),
    }
}

/// The same of a line. `words` lends its memory.
fn push_line<'a>(
    alloc: Global,
    line: &'a [u8],
    words: &mut Vec<&'a [u8]>,
    dialect: &mut Dialect,
) -> Result<(), TableFault>
    ensures { Becomes result dialect.new (with_line dialect.old line.now) }
{
    if is_passed_over(line) {
        return Ok(());
    }
    match cut_words(line, words) {
        Ok(()) => push_words(alloc, words, dialect),
        Err(FaultKind::OutOfMemory) => Err(TableFault::OutOfMemory),
        Err(_) => Err(TableFault::BadRow),
    }
}

/// The lines of a text.
fn lines_in(alloc: Global, text: &[u8]) -> Result<Vec<&[u8]>, AllocError>
    ensures { IfOk result (λ lines. map (λ l. l.now) lines.items ≡ lines_of text.now) }
{
    let mut lines = Vec::new(alloc);
    let mut left = text;
    'lines: while let Some((line, rest)) = cut_line(left) {
        lines.push(line)?;
        left = rest;
    }
    Ok(lines)
}

/// A fault of the line of this number.
fn fault_at(line: usize, kind: TableFault) -> DialectFault
    ensures { result ≡ record { line = line; kind = kind } }
{
    DialectFault { line, kind }
}

/// The rows of lines, behind the first.
fn rows_behind(alloc: Global, lines: &[&[u8]]) -> Result<Dialect, DialectFault>
    ensures { IsRead result (with_lines 2 [] (map (λ l. l.now) lines.now)) }
{
    let mut dialect = Dialect::new(alloc);
    let mut words = Vec::new(alloc);
    for (at, line) in lines.iter().enumerate() {
        if let Err(kind) = push_line(alloc, line, &mut words, &mut dialect) {
            return Err(fault_at(at + 2, kind));
        }
    }
    Ok(dialect)
}

/// The rows of lines.
fn rows_by(alloc: Global, lines: &[&[u8]]) -> Result<Dialect, DialectFault>
    ensures { IsRead result (rows_by (map (λ l. l.now) lines.now)) }
{
    match lines {
        [first, behind @ ..] if is_word(first, b"atomfs-dialect 1") => rows_behind(alloc, behind),
        _ => Err(fault_at(1, TableFault::BadHeader)),
    }
}

/// The table that a text has, or its first fault, with its line. A row is a line `CALL OURS THEIRS`, where THEIRS may be errors with
/// bars between them; no two lines have one CALL and OURS, and THEIRS has no OURS. Empty lines and comments are passed over.
pub fn read_dialect(alloc: Global, text: &[u8]) -> Result<Dialect, DialectFault>
    ensures { IsRead result (rows_in text.now) }
{
    match lines_in(alloc, text) {
        Ok(lines) => rows_by(alloc, &lines),
        Err(_) => Err(fault_at(1, TableFault::OutOfMemory)),
    }
}
