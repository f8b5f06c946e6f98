//! The lines of rows.

ghost use Rattle.std.specs.Prelude.{◌≡◌, ◌++◌, ◌∷◌, [], if◌then◌else◌, IfOk, OnOk, get_or, map};
ghost use Rattle.std.specs.List.{list_any};
ghost use Rattle.fs_sched_outcomes.specs.Lines.{added_by, added_line, added_row, added_text, added_words, columns_of, differs, digest_text, is_other, is_shown, label_of, labels_of, numbers_text, part_of, parts_text, reply_in, reply_part, row_by, row_text, rows_text, seen_text};

use crate::objects::{push_added_object, push_row_object};
use crate::rows::Row;
use fs_sched_seen::{Place, Seen, push_seen_object};
use fs_script::ThreadNames;
use fs_words::Addition;
use sha2::{Digest, Sha256};
use std::alloc::{AllocError, Global};
use std::marker::Model;

/// What is written of rows: the replies of every call or those that differ; whether each line has its tree behind it; and whether
/// each is an object of JSON.
#[derive(Clone, Copy, Debug, PartialEq, Eq)]
pub struct Form {
    pub all: bool,
    pub trees: bool,
    pub json: bool,
}

/// The name of a thread.
fn name_of(names: &ThreadNames, seat: usize) -> &[u8]
    ensures { result.now ≡ get_or names.now seat [] }
{
    match names.name(seat) {
        Some(name) => name,
        None => &[],
    }
}

/// The name of a call: its thread, and its turn, counted from 1.
fn label_of(alloc: Global, names: &ThreadNames, place: Place) -> Result<Vec<u8>, AllocError>
    ensures { IfOk result (λ label. label.items ≡ label_of names.now place) }
{
    let mut label = Addition::new(Vec::new(alloc));
    label.push(name_of(names, place.seat))?;
    label.push_with_number(b"#", place.turn as u64)?;
    Ok(label.kept())
}

/// The names of calls.
pub(crate) fn labels_of(
    alloc: Global,
    names: &ThreadNames,
    places: &[Place],
) -> Result<Vec<Vec<u8>>, AllocError>
    ensures { IfOk result (λ labels. map (λ label. label.items) labels.items ≡ labels_of names.now places.now) }
{
    let mut labels = Vec::new(alloc);
    for place in places {
        labels.push(label_of(alloc, names, *place)?)?;
    }
    Ok(labels)
}

/// The reply of a row at a place among the calls; nothing where there is none.
pub(crate) fn reply_in(row: &Row, at: usize) -> &[u8]
    ensures { result.now ≡ reply_in at row.now }
{
    if at < row.end.replies.len() {
        row.end.replies[at].as_slice()
    } else {
        &[]
    }
}

/// Whether a row has another reply at a place than this one.
fn is_other(row: &Row, at: usize, reply: &[u8]) -> bool
    ensures { result ≡ is_other at reply.now row.now }
{
    reply_in(row, at) != reply
}

/// Whether one of rows has another reply at a place than this one.
fn any_other(rows: &[Row], at: usize, reply: &[u8]) -> bool
    ensures { result ≡ list_any (is_other at reply.now) rows.now }
{
    for row in rows {
        if is_other(row, at, reply) {
            return true;
        }
    }
    false
}

/// Whether the replies at a place differ between rows.
fn differs(rows: &[Row], at: usize) -> bool
    ensures { result ≡ differs rows.now at }
{
    match rows {
        [] => false,
        [first, ..] => any_other(rows, at, reply_in(first, at)),
    }
}

/// Whether the replies at a place are written.
fn is_shown(all: bool, rows: &[Row], at: usize) -> bool
    ensures { result ≡ is_shown all rows.now at }
{
    all || differs(rows, at)
}

/// A call whose replies are written: its place among the calls, and its name.
#[derive(Drop)]
pub(crate) struct Column {
    pub(crate) at: usize,
    pub(crate) label: Vec<u8>,
}

impl Model for Column {
    ghost use Rattle.std.specs.Prelude.{ℕ, List};

    ghost Value = { ℕ × List ℕ };

    ghost view = { λ c. (c.at, c.label.items) };
}

/// Adds a call, where its replies are written.
fn push_column(
    alloc: Global,
    shown: bool,
    at: usize,
    label: &[u8],
    columns: &mut Vec<Column>,
) -> Result<(), AllocError>
    ensures { OnOk result (columns.new.items ≡ columns.old.items ++ (if shown then (at, label.now) ∷ [] else [])) }
{
    if !shown {
        return Ok(());
    }
    let label = Vec::from_slice(alloc, label)?;
    columns.push(Column { at, label })?;
    Ok(())
}

/// The calls whose replies are written.
fn columns_of(
    alloc: Global,
    labels: &[Vec<u8>],
    rows: &[Row],
    all: bool,
) -> Result<Vec<Column>, AllocError>
    ensures { IfOk result (λ columns. columns.items ≡ columns_of all (map (λ label. label.items) labels.now) rows.now) }
{
    let mut columns = Vec::new(alloc);
    let mut at = 0;
    for label in labels {
        push_column(alloc, is_shown(all, rows, at), at, label, &mut columns)?;
        at += 1;
    }
    Ok(columns)
}

/// What stands for a tree in a line: the first sixteen digits of its digest.
pub(crate) fn push_digest(alloc: Global, tree: &[u8], text: &mut Addition) -> Result<(), AllocError>
    ensures ok { OnOk result (text.new.added ≡ text.old.added ++ digest_text tree.now) }
    ensures before { text.new.before ≡ text.old.before }
{
    let digest = Sha256::digest(tree);
    text.push_hex(alloc, &digest[..8])
}

/// A call and its reply.
fn push_reply(label: &[u8], reply: &[u8], text: &mut Addition) -> Result<(), AllocError>
    ensures ok { OnOk result (text.new.added ≡ text.old.added ++ reply_part label.now reply.now) }
    ensures before { text.new.before ≡ text.old.before }
{
    text.push(b" | ")?;
    text.push(label)?;
    text.push(b" ")?;
    text.push(reply)
}

/// The reply of a row to a call.
fn push_part(column: &Column, row: &Row, text: &mut Addition) -> Result<(), AllocError>
    ensures ok { OnOk result (text.new.added ≡ text.old.added ++ part_of row.now column.now) }
    ensures before { text.new.before ≡ text.old.before }
{
    push_reply(column.label.as_slice(), reply_in(row, column.at), text)
}

/// The replies of a row.
fn push_parts(columns: &[Column], row: &Row, text: &mut Addition) -> Result<(), AllocError>
    ensures ok { OnOk result (text.new.added ≡ text.old.added ++ parts_text columns.now row.now) }
    ensures before { text.new.before ≡ text.old.before }
{
    for column in columns {
        push_part(column, row, text)?;
    }
    Ok(())
}

/// How often a row came, and its number.
fn push_numbers(row: &Row, text: &mut Addition) -> Result<(), AllocError>
    ensures ok { OnOk result (text.new.added ≡ text.old.added ++ numbers_text row.now) }
    ensures before { text.new.before ≡ text.old.before }
{
    text.push_number(row.times)?;
    text.push_with_number(b" seed ", row.seed)?;
    text.push(b" tree ")
}

/// The line of a row, and its tree behind it where that is asked for.
fn push_row(
    alloc: Global,
    columns: &[Column],
    trees: bool,
    row: &Row,
    text: &mut Addition,
) -> Result<(), AllocError>
    ensures ok { OnOk result (text.new.added ≡ text.old.added ++ row_text trees columns.now row.now) }
    ensures before { text.new.before ≡ text.old.before }
{
    push_numbers(row, text)?;
    push_digest(alloc, row.end.tree.as_slice(), text)?;
    push_parts(columns, row, text)?;
    text.push(b"\n")?;
    if trees {
        text.push(row.end.tree.as_slice())?;
    }
    Ok(())
}

/// A row in a form.
fn push_row_by(
    alloc: Global,
    columns: &[Column],
    form: Form,
    row: &Row,
    text: &mut Addition,
) -> Result<(), AllocError>
    ensures ok { OnOk result (text.new.added ≡ text.old.added ++ row_by form columns.now row.now) }
    ensures before { text.new.before ≡ text.old.before }
{
    if form.json {
        push_row_object(alloc, columns, form.trees, row, text)
    } else {
        push_row(alloc, columns, form.trees, row, text)
    }
}

/// The lines of rows, in order.
pub(crate) fn rows_text(
    alloc: Global,
    labels: &[Vec<u8>],
    rows: &[Row],
    form: Form,
) -> Result<Vec<u8>, AllocError>
    ensures { IfOk result (λ text. text.items ≡ rows_text form (map (λ label. label.items) labels.now) rows.now) }
{
    let columns = columns_of(alloc, labels, rows, form.all)?;
    let mut text = Addition::new(Vec::new(alloc));
    for row in rows {
        push_row_by(alloc, &columns, form, row, &mut text)?;
    }
    Ok(text.kept())
}

/// How much was seen, where each line is an object of JSON.
pub(crate) fn push_seen_by(
    alloc: Global,
    form: Form,
    seen: &Seen,
    text: &mut Addition,
) -> Result<(), AllocError>
    ensures ok { OnOk result (text.new.added ≡ text.old.added ++ seen_text form seen.now) }
    ensures before { text.new.before ≡ text.old.before }
{
    if form.json {
        push_seen_object(alloc, seen, text)
    } else {
        text.push(b"")
    }
}

/// The words of a row whose tree is known by its digest, up to the line feed.
fn push_added(columns: &[Column], row: &Row, text: &mut Addition) -> Result<(), AllocError>
    ensures ok { OnOk result (text.new.added ≡ text.old.added ++ added_words columns.now row.now) }
    ensures before { text.new.before ≡ text.old.before }
{
    push_numbers(row, text)?;
    text.push(row.end.tree.as_slice())?;
    push_parts(columns, row, text)
}

/// The line of a row with all replies, without its line feed.
pub(crate) fn added_line(
    alloc: Global,
    labels: &[Vec<u8>],
    row: &Row,
) -> Result<Vec<u8>, AllocError>
    ensures { IfOk result (λ line. line.items ≡ added_line (map (λ label. label.items) labels.now) row.now) }
{
    let columns = columns_of(alloc, labels, &[], true)?;
    let mut text = Addition::new(Vec::new(alloc));
    push_added(&columns, row, &mut text)?;
    Ok(text.kept())
}

/// The line of a row with its line feed.
fn push_added_line(columns: &[Column], row: &Row, text: &mut Addition) -> Result<(), AllocError>
    ensures ok { OnOk result (text.new.added ≡ text.old.added ++ added_row columns.now row.now) }
    ensures before { text.new.before ≡ text.old.before }
{
    push_added(columns, row, text)?;
    text.push(b"\n")
}

/// A row whose tree is known by its digest, in a form.
fn push_added_by(
    alloc: Global,
    columns: &[Column],
    form: Form,
    row: &Row,
    text: &mut Addition,
) -> Result<(), AllocError>
    ensures ok { OnOk result (text.new.added ≡ text.old.added ++ added_by form columns.now row.now) }
    ensures before { text.new.before ≡ text.old.before }
{
    if form.json {
        push_added_object(alloc, columns, row, text)
    } else {
        push_added_line(columns, row, text)
    }
}

/// The lines of rows whose trees are known by their digests, in order.
pub(crate) fn added_text(
    alloc: Global,
    labels: &[Vec<u8>],
    rows: &[Row],
    form: Form,
) -> Result<Vec<u8>, AllocError>
    ensures { IfOk result (λ text. text.items ≡ added_text form (map (λ label. label.items) labels.now) rows.now) }
{
    let columns = columns_of(alloc, labels, rows, form.all)?;
    let mut text = Addition::new(Vec::new(alloc));
    for row in rows {
        push_added_by(alloc, &columns, form, row, &mut text)?;
    }
    Ok(text.kept())
}
