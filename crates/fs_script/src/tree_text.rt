//! Trees that are read from their text.

ghost use Rattle.std.specs.Prelude.{◌≡◌, ◌-◌, max, Some, Result, IfOk};
ghost use Rattle.fs_seq.specs.Rows.{IsWithinLimits};
ghost use Rattle.fs_words.specs.Lines.{lines_of};
ghost use Rattle.fs_words.specs.code.Answers.{FailsThere, GivesText};
ghost use Rattle.fs_words.specs.declared.fault.ScriptFault.{ScriptFault};
ghost use Rattle.fs_calls.specs.Starts.{Start};
ghost use Rattle.fs_script.specs.Journals.{before_entries, by_limits, entries_line, journal_of, line_end, nodes_journal, nodes_read, start_of, start_read, tree_of};

use crate::journal::{bad_start, read_journal};
use fs_names::Limits;
use fs_seq::SeqTree;
use fs_words::headers::started_header;
use fs_words::lines::cut_line;
use fs_words::words::is_word;
use fs_words::{FaultKind, ScriptFault};
use std::alloc::{AllocError, Global};

/// The end of a last line that has none.
fn line_end(bytes: &[u8]) -> &'static [u8]
    ensures { result.now ≡ line_end bytes.now }
{
    match bytes.last() {
        None => b"",
        Some(b'\n') => b"",
        Some(_) => b"\n",
    }
}

/// The text of the journal without entries that starts at the tree of these lines.
fn nodes_journal(alloc: Global, limits: Limits, nodes: &[u8]) -> Result<Vec<u8>, AllocError>
    ensures { IfOk result (λ text. text.items ≡ nodes_journal limits nodes.now) }
{
    let mut text = Vec::new(alloc);
    text.extend_from_slice(started_header(limits))?;
    text.extend_from_slice(b"\nstart\n")?;
    text.extend_from_slice(nodes)?;
    text.extend_from_slice(line_end(nodes))?;
    text.extend_from_slice(b"entries\n")?;
    Ok(text)
}

/// The line of a tree's text for that of the journal of its nodes.
fn line_of_tree(line: u64) -> u64
    ensures { result ≡ max (line - 1) 1 }
{
    if line > 1 { line - 1 } else { 1 }
}

/// The tree at which the journal of these lines starts.
fn tree_of_journal(alloc: Global, nodes: &[u8], limits: Limits) -> Result<SeqTree, ScriptFault>
    ensures read { GivesText (λ start. start) result (start_read (journal_of (nodes_journal limits nodes.now))) }
    ensures within { IfOk result (λ start. IsWithinLimits start.limits start.tree) }
{
    let Ok(journal) = nodes_journal(alloc, limits, nodes) else {
        return Err(ScriptFault {
            line: 1,
            kind: FaultKind::OutOfMemory,
        });
    };
    match read_journal(alloc, &journal) {
        Ok(journal) => Ok(journal.start),
        Err(fault) => Err(ScriptFault {
            line: line_of_tree(fault.line),
            kind: fault.kind,
        }),
    }
}

/// The number of the first line `entries`, where the first line has the number 2.
fn entries_line(nodes: &[u8]) -> Option<u64>
    ensures { result ≡ entries_line 2 (lines_of nodes.now) }
{
    let mut number = 2;
    let mut rest = nodes;
    'lines: while let Some((line, behind)) = cut_line(rest) {
        if is_word(line, b"entries") {
            return Some(number);
        }
        number += 1;
        rest = behind;
    }
    None
}

/// The first of two faults: this one, or that the line of this number is no node.
fn first_fault(fault: ScriptFault, number: u64) -> ScriptFault
    ensures { (given : Result Start ScriptFault) → FailsThere fault.line fault.kind given → FailsThere result.line result.kind (before_entries (Some number) given) }
{
    if fault.line < number || matches!(fault.kind, FaultKind::OutOfMemory) {
        fault
    } else {
        bad_start(number)
    }
}

/// The tree of these lines, which come after a line `tree`.
fn tree_of_nodes(alloc: Global, nodes: &[u8], limits: Limits) -> Result<SeqTree, ScriptFault>
    ensures read { GivesText (λ start. start) result (nodes_read limits nodes.now) }
    ensures within { IfOk result (λ start. IsWithinLimits start.limits start.tree) }
{
    let read = tree_of_journal(alloc, nodes, limits);
    let Some(number) = entries_line(nodes) else {
        return read;
    };
    match read {
        Ok(_) => Err(bad_start(number)),
        Err(fault) => Err(first_fault(fault, number)),
    }
}

fn bad_header() -> ScriptFault
    ensures { result ≡ record { line = 1; kind = FaultKind.BadHeader } }
{
    ScriptFault {
        line: 1,
        kind: FaultKind::BadHeader,
    }
}

/// Reads a tree within these limits from its text, as `write_tree` writes it: a line `tree`, and a line for each node in the
/// order of paths, each the very one that is written of it. Empty lines and comments are passed over. The fault is the first
/// from the left, with its line: `BadHeader` where the first line is another, `BadStart` where a node is none or has no place.
#[tactic(auto, unfolding(crate::specs::Journals::tree_of))]
pub fn read_tree(alloc: Global, text: &[u8], limits: Limits) -> Result<SeqTree, ScriptFault>
    ensures read { GivesText (λ start. start) result (tree_of limits text.now) }
    ensures within { IfOk result (λ start. IsWithinLimits start.limits start.tree) }
{
    match text.strip_prefix(b"tree\n") {
        Some(nodes) => tree_of_nodes(alloc, nodes, limits),
        None if is_word(text, b"tree") => Err(bad_start(2)),
        None => Err(bad_header()),
    }
}

/// The tree at which a journal by these limits starts.
fn start_of_journal(alloc: Global, text: &[u8], limits: Limits) -> Result<SeqTree, ScriptFault>
    ensures read { GivesText (λ start. start) result (by_limits limits (journal_of text.now)) }
    ensures within { IfOk result (λ start. IsWithinLimits start.limits start.tree) }
{
    let start = match read_journal(alloc, text) {
        Ok(journal) => journal.start,
        Err(fault) => return Err(fault),
    };
    if limits.same(start.limits()) {
        Ok(start)
    } else {
        Err(bad_header())
    }
}

/// Reads a tree within these limits from its text, or from the journal that starts at it, whose entries are read and not
/// played. The fault is the first from the left, with its line: `BadHeader` where the first line is neither `tree` nor that of a
/// journal by these limits.
#[tactic(auto, using(crate::proofs::StartNames::limits_given))]
pub fn read_start(alloc: Global, text: &[u8], limits: Limits) -> Result<SeqTree, ScriptFault>
    ensures read { GivesText (λ start. start) result (start_of limits text.now) }
    ensures limits { IfOk result (λ start. start.limits ≡ limits) }
    ensures within { IfOk result (λ start. IsWithinLimits start.limits start.tree) }
{
    match text.strip_prefix(b"tree\n") {
        Some(nodes) => tree_of_nodes(alloc, nodes, limits),
        None if is_word(text, b"tree") => Err(bad_start(2)),
        None => start_of_journal(alloc, text, limits),
    }
}
