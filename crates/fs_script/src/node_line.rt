//! Nodes as words of a line: one writer serves the text of a tree and the start tree of a journal.

ghost use Rattle.std.specs.Prelude.{◌≡◌, ◌++◌, ◌∷◌, [], OnOk};
ghost use Rattle.std.specs.List.{AllByRecursion, flat_map, join_with_byte};
ghost use Rattle.fs_names.specs.Limits.{largest};
ghost use Rattle.fs_text.specs.Fits.{FitsName};
ghost use Rattle.fs_names.specs.Keys.{is_root};
ghost use Rattle.fs_words.specs.Words.{escaped, path_word};
ghost use Rattle.fs_seq.specs.Rows.{key_of, node_of_kind, row_of};
ghost use Rattle.fs_script.specs.TreeText.{node_words};
ghost use Rattle.fs_script.specs.Laws.{FitsNode};
ghost use Rattle.fs_script.specs.code.Walks.{key_above, node_with};

use crate::tree::Step;
use fs_names::{Kind, Name};
use fs_seq::Row;
use fs_words::Addition;
use std::alloc::{AllocError, Global};

/// The names of some steps, each after a slash.
fn push_steps(alloc: Global, above: &[Step], line: &mut Addition) -> Result<(), AllocError>
    ensures ok { OnOk result (line.new.added ≡ line.old.added ++ flat_map (λ s. 47 ∷ escaped s.name) above.now) }
    ensures before { line.new.before ≡ line.old.before }
{
    for step in above {
        line.push_step(alloc, &step.name)?;
    }
    Ok(())
}

/// Some names, each after a slash.
#[tactic(auto, using(fs_text::proofs::FitLemmas::name_is))]
fn push_names(alloc: Global, names: &[Name], line: &mut Addition) -> Result<(), AllocError>
    ensures ok { OnOk result (line.new.added ≡ line.old.added ++ flat_map (λ n. 47 ∷ escaped n) names.now) }
    ensures fits { OnOk result (AllByRecursion (FitsName largest) names.now) }
    ensures before { line.new.before ≡ line.old.before }
{
    for name in names {
        line.push_step(alloc, name)?;
    }
    Ok(())
}

/// Whether steps, and names after theirs, are the key of the root.
fn lead_nowhere(above: &[Step], names: &[Name]) -> bool
    ensures { result ≡ is_root (key_above above.now ++ names.now) }
{
    above.is_empty() && names.is_empty()
}

/// The path of a key: names after those of some steps.
fn push_key(
    alloc: Global,
    above: &[Step],
    names: &[Name],
    line: &mut Addition,
) -> Result<(), AllocError>
    ensures ok { OnOk result (line.new.added ≡ line.old.added ++ path_word (key_above above.now ++ names.now)) }
    ensures fits { OnOk result (AllByRecursion (FitsName largest) names.now) }
    ensures before { line.new.before ≡ line.old.before }
{
    if lead_nowhere(above, names) {
        return line.push(b"/");
    }
    push_steps(alloc, above, line)?;
    push_names(alloc, names, line)
}

/// The words of a node at such a key: of a file, where it has bytes, and else of a directory.
pub(crate) fn push_node(
    alloc: Global,
    above: &[Step],
    names: &[Name],
    bytes: Option<&[u8]>,
    line: &mut Addition,
) -> Result<(), AllocError>
    ensures ok { OnOk result (line.new.added ≡ line.old.added ++ join_with_byte 32 (node_words (key_above above.now ++ names.now) (node_with bytes.entry))) }
    ensures fits { OnOk result (FitsNode largest (names.now, node_with bytes.entry)) }
    ensures before { line.new.before ≡ line.old.before }
{
    match bytes {
        None => {
            line.push(b"dir ")?;
            push_key(alloc, above, names, line)
        }
        Some(bytes) => {
            line.push(b"file ")?;
            push_key(alloc, above, names, line)?;
            line.push(b" ")?;
            line.push_hex(alloc, bytes)
        }
    }
}

/// The words of a row.
pub(crate) fn push_row(alloc: Global, row: &Row, line: &mut Addition) -> Result<(), AllocError>
    ensures ok { OnOk result (line.new.added ≡ line.old.added ++ join_with_byte 32 (node_words (key_of row.now) (node_of_kind row.now.kind row.now.bytes.items))) }
    ensures fits { OnOk result (FitsNode largest (row_of row.now)) }
    ensures before { line.new.before ≡ line.old.before }
{
    match row.kind {
        Kind::Dir => push_node(alloc, &[], &row.key, None, line),
        Kind::File => push_node(alloc, &[], &row.key, Some(&row.bytes), line),
    }
}
