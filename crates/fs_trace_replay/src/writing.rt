//! Trees, and who changed what, as they are written.

ghost use Rattle.std.specs.Prelude.{◌≡◌, ◌++◌, ◌∷◌, IfOk, OnOk, map};
ghost use Rattle.std.specs.List.{flat_map, join_with_byte};
ghost use Rattle.fs_words.specs.Words.{path_word, escaped};
ghost use Rattle.fs_seq.specs.Rows.{key_of, node_of_kind, row_of};
ghost use Rattle.fs_script.specs.TreeText.{node_line, node_words, tree_text};
ghost use Rattle.fs_trace_replay.specs.Texts.{nobody_line, who_line};

use fs_calls::Call;
use fs_names::{Kind, Name};
use fs_seq::{Row, SeqTree};
use fs_text::{Addition, write_call};
use std::alloc::{AllocError, Global};

/// Some names, each after a slash.
fn push_names(alloc: Global, names: &[Name], text: &mut Addition) -> Result<(), AllocError>
    ensures ok { OnOk result (text.new.added ≡ text.old.added ++ flat_map (λ n. 47 ∷ escaped n) names.now) }
    ensures before { text.new.before ≡ text.old.before }
{
    for name in names {
        text.push_step(alloc, name)?;
    }
    Ok(())
}

/// The path of a key.
fn push_key(alloc: Global, key: &[Name], text: &mut Addition) -> Result<(), AllocError>
    ensures ok { OnOk result (text.new.added ≡ text.old.added ++ path_word key.now) }
    ensures before { text.new.before ≡ text.old.before }
{
    if key.is_empty() {
        return text.push(b"/");
    }
    push_names(alloc, key, text)
}

/// The words of a row.
fn push_row(alloc: Global, row: &Row, text: &mut Addition) -> Result<(), AllocError>
    ensures ok { OnOk result (text.new.added ≡ text.old.added ++ join_with_byte 32 (node_words (key_of row.now) (node_of_kind row.now.kind row.now.bytes.items))) }
    ensures before { text.new.before ≡ text.old.before }
{
    match row.kind {
        Kind::Dir => {
            text.push(b"dir ")?;
            push_key(alloc, &row.key, text)
        }
        Kind::File => {
            text.push(b"file ")?;
            push_key(alloc, &row.key, text)?;
            text.push(b" ")?;
            text.push_hex(alloc, &row.bytes)
        }
    }
}

/// A line for each row.
fn push_rows(alloc: Global, rows: &[Row], text: &mut Addition) -> Result<(), AllocError>
    ensures ok { OnOk result (text.new.added ≡ text.old.added ++ flat_map node_line (map row_of rows.now)) }
    ensures before { text.new.before ≡ text.old.before }
{
    for row in rows {
        push_row(alloc, row, text)?;
        text.push(b"\n")?;
    }
    Ok(())
}

/// The text of a tree.
#[tactic(auto, unfolding(fs_script::specs::TreeText::tree_text))]
pub(crate) fn tree_text(alloc: Global, tree: &SeqTree) -> Result<Vec<u8>, AllocError>
    ensures { IfOk result (λ text. text.items ≡ tree_text tree.now.tree) }
{
    let rows = tree.rows(alloc)?;
    let mut text = Addition::new(Vec::new(alloc));
    text.push(b"tree\n")?;
    push_rows(alloc, &rows, &mut text)?;
    Ok(text.kept())
}

/// The line of a commit: its place, its call, whose call that is, and the call in words.
pub(crate) fn who_line(
    alloc: Global,
    place: usize,
    number: u64,
    thread: &[u8],
    turn: usize,
    call: &Call,
) -> Result<Vec<u8>, AllocError>
    ensures { IfOk result (λ line. line.items ≡ who_line place number thread.now turn call.now) }
{
    let mut line = Addition::new(Vec::new(alloc));
    line.push_with_number(b"commit ", place as u64)?;
    line.push_with_number(b" call ", number)?;
    line.push(b" ")?;
    line.push(thread)?;
    line.push_with_number(b"#", turn as u64)?;
    line.push(b" ")?;
    let mut text = line.kept();
    write_call(alloc, call, &mut text)?;
    text.push(b'\n')?;
    Ok(text)
}

/// The line for the case that no commit changed what is at a path.
pub(crate) fn nobody_line(alloc: Global) -> Result<Vec<u8>, AllocError>
    ensures { IfOk result (λ line. line.items ≡ nobody_line) }
{
    let mut line = Addition::new(Vec::new(alloc));
    line.push(b"nobody\n")?;
    Ok(line.kept())
}
