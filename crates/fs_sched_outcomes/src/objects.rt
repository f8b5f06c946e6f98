//! Rows as objects of JSON.

ghost use Rattle.std.specs.Prelude.{◌≡◌, ◌++◌, true, OnOk, IfOk};
ghost use Rattle.fs_sched_outcomes.specs.Lines.{added_object, digest_text, head_object, member_of, members_from, numbers_object, replies_object, row_object, separator, tree_member};

use crate::lines::{Column, push_digest, reply_in};
use crate::rows::Row;
use fs_words::{Addition, push_string};
use std::alloc::{AllocError, Global};

/// What stands before a member of an object: nothing before the first.
fn push_separator(first: bool, text: &mut Addition) -> Result<(), AllocError>
    ensures ok { OnOk result (text.new.added ≡ text.old.added ++ separator first) }
    ensures before { text.new.before ≡ text.old.before }
{
    if first {
        text.push(b"")
    } else {
        text.push(b",")
    }
}

/// A call and its reply.
fn push_member(
    alloc: Global,
    column: &Column,
    row: &Row,
    text: &mut Addition,
) -> Result<(), AllocError>
    ensures ok { OnOk result (text.new.added ≡ text.old.added ++ member_of row.now column.now) }
    ensures before { text.new.before ≡ text.old.before }
{
    push_string(alloc, column.label.as_slice(), text)?;
    text.push(b":")?;
    push_string(alloc, reply_in(row, column.at), text)
}

/// A call and its reply, behind what stands before.
fn push_next(
    alloc: Global,
    first: bool,
    column: &Column,
    row: &Row,
    text: &mut Addition,
) -> Result<(), AllocError>
    ensures ok { OnOk result (text.new.added ≡ text.old.added ++ (separator first ++ member_of row.now column.now)) }
    ensures before { text.new.before ≡ text.old.before }
{
    push_separator(first, text)?;
    push_member(alloc, column, row, text)
}

/// Calls and their replies.
fn push_members(
    alloc: Global,
    columns: &[Column],
    row: &Row,
    text: &mut Addition,
) -> Result<(), AllocError>
    ensures ok { OnOk result (text.new.added ≡ text.old.added ++ members_from true row.now columns.now) }
    ensures before { text.new.before ≡ text.old.before }
{
    let mut first = true;
    for column in columns {
        push_next(alloc, first, column, row, text)?;
        first = false;
    }
    Ok(())
}

/// How often a row came, its number, and the digits that stand for its tree.
fn push_numbers(
    alloc: Global,
    row: &Row,
    digest: &[u8],
    text: &mut Addition,
) -> Result<(), AllocError>
    ensures ok { OnOk result (text.new.added ≡ text.old.added ++ numbers_object row.now digest.now) }
    ensures before { text.new.before ≡ text.old.before }
{
    text.push_with_number(b"{\"times\":", row.times)?;
    text.push_with_number(b",\"seed\":", row.seed)?;
    text.push(b",\"digest\":")?;
    push_string(alloc, digest, text)
}

/// The replies of a row.
fn push_replies(
    alloc: Global,
    columns: &[Column],
    row: &Row,
    text: &mut Addition,
) -> Result<(), AllocError>
    ensures ok { OnOk result (text.new.added ≡ text.old.added ++ replies_object columns.now row.now) }
    ensures before { text.new.before ≡ text.old.before }
{
    text.push(b",\"replies\":{")?;
    push_members(alloc, columns, row, text)?;
    text.push(b"}")
}

/// An object up to its tree, of whose row these digits stand for the tree.
fn push_head(
    alloc: Global,
    columns: &[Column],
    row: &Row,
    digest: &[u8],
    text: &mut Addition,
) -> Result<(), AllocError>
    ensures ok { OnOk result (text.new.added ≡ text.old.added ++ head_object columns.now row.now digest.now) }
    ensures before { text.new.before ≡ text.old.before }
{
    push_numbers(alloc, row, digest, text)?;
    push_replies(alloc, columns, row, text)
}

/// The tree of a row, where that is asked for.
fn push_tree(alloc: Global, trees: bool, row: &Row, text: &mut Addition) -> Result<(), AllocError>
    ensures ok { OnOk result (text.new.added ≡ text.old.added ++ tree_member trees row.now) }
    ensures before { text.new.before ≡ text.old.before }
{
    if !trees {
        return text.push(b"");
    }
    text.push(b",\"tree\":")?;
    push_string(alloc, row.end.tree.as_slice(), text)
}

/// The digits that stand for a tree.
fn digest_of(alloc: Global, tree: &[u8]) -> Result<Vec<u8>, AllocError>
    ensures { IfOk result (λ digits. digits.items ≡ digest_text tree.now) }
{
    let mut digits = Addition::new(Vec::new(alloc));
    push_digest(alloc, tree, &mut digits)?;
    Ok(digits.kept())
}

/// The object of a row, with its tree where that is asked for.
pub(crate) fn push_row_object(
    alloc: Global,
    columns: &[Column],
    trees: bool,
    row: &Row,
    text: &mut Addition,
) -> Result<(), AllocError>
    ensures ok { OnOk result (text.new.added ≡ text.old.added ++ row_object trees columns.now row.now) }
    ensures before { text.new.before ≡ text.old.before }
{
    let digest = digest_of(alloc, row.end.tree.as_slice())?;
    push_head(alloc, columns, row, &digest, text)?;
    push_tree(alloc, trees, row, text)?;
    text.push(b"}\n")
}

/// The object of a row whose tree is known by its digest.
pub(crate) fn push_added_object(
    alloc: Global,
    columns: &[Column],
    row: &Row,
    text: &mut Addition,
) -> Result<(), AllocError>
    ensures ok { OnOk result (text.new.added ≡ text.old.added ++ added_object columns.now row.now) }
    ensures before { text.new.before ≡ text.old.before }
{
    push_head(alloc, columns, row, row.end.tree.as_slice(), text)?;
    text.push(b"}\n")
}
