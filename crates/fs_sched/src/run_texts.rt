//! The text of a run.

ghost use Rattle.std.specs.Prelude.{◌≡◌, ◌++◌, true, List, length, OnOk, IfOk, decimal};
ghost use Rattle.std.specs.List.{AllByRecursion};
ghost use Rattle.fs_nodes.specs.Stores.{graph_of};
ghost use Rattle.fs_names.specs.Limits.{largest};
ghost use Rattle.fs_text.specs.Fits.{AllFit};
ghost use Rattle.fs_timeline.specs.declared.entry.Entry.{Entry};
ghost use Rattle.fs_script.specs.Journals.{is_told, journal_text};
ghost use Rattle.fs_script.specs.Laws.{FitsNode};
ghost use Rattle.fs_sched.specs.RunTexts.{is_of, number_of, counts_line, IsRunText};
ghost use Rattle.fs_sched.specs.code.Counts.{AreCounts, AreCapped};

use fs_nodes::Store;
use fs_script::{write_entry, write_opening, write_tree};
use fs_seq::SeqTree;
use fs_text::Addition;
use fs_timeline::Entry;
use std::alloc::{AllocError, Global};

/// The kinds of entries.
#[derive(Clone, Copy, Debug, PartialEq, Eq)]
pub enum EntryKind {
    /// A call began.
    Begin,
    /// A call took its place.
    Commit,
    /// A call returned.
    Return,
}

fn is_of(kind: EntryKind, entry: &Entry) -> bool
    ensures { result ≡ is_of kind entry.now }
{
    match entry {
        Entry::Begin(_, _, _) => matches!(kind, EntryKind::Begin),
        Entry::Commit(_) => matches!(kind, EntryKind::Commit),
        Entry::Return(_, _) => matches!(kind, EntryKind::Return),
    }
}

/// How many entries are of this kind.
pub fn number_of(kind: EntryKind, entries: &[Entry]) -> usize
    ensures { result ≡ number_of kind entries.now }
{
    let mut count = 0;
    for entry in entries {
        if is_of(kind, entry) {
            count += 1;
        }
    }
    count
}

/// How many entries of each kind there are.
#[derive(Clone, Copy, Debug, PartialEq, Eq)]
pub struct Counts {
    pub begun: usize,
    pub committed: usize,
    pub returned: usize,
}

/// The counts of entries.
pub fn counts_of(entries: &[Entry]) -> Counts
    ensures exact { AreCounts result entries.now }
    ensures capped { AreCapped result entries.now }
{
    Counts {
        begun: number_of(EntryKind::Begin, entries),
        committed: number_of(EntryKind::Commit, entries),
        returned: number_of(EntryKind::Return, entries),
    }
}

impl Counts {
    /// With so many more, each up to the greatest number.
    pub fn plus(self, more: Counts) -> Counts
        ensures { (entries others : List Entry) → AreCapped self entries → AreCounts more others → AreCapped result (entries ++ others) }
    {
        Counts {
            begun: self.begun.saturating_add(more.begun),
            committed: self.committed.saturating_add(more.committed),
            returned: self.returned.saturating_add(more.returned),
        }
    }
}

/// The text of entries, and how many of each kind they are.
#[derive(Drop)]
pub(crate) struct CountedText {
    pub(crate) text: Vec<u8>,
    pub(crate) counts: Counts,
}

/// For how many bytes an entry the text of a run has room before its first line, where there is memory for it.
const LINE_ROOM: usize = 32;

/// A journal from a start tree: what comes before its entries, and a line for each. The entries are counted on the way, and each
/// is let go once its line stands.
fn journal_text(
    alloc: Global,
    start: &SeqTree,
    entries: Vec<Entry>,
) -> Result<CountedText, AllocError>
    ensures text { IfOk result (λ made. made.text.items ≡ journal_text start.now entries.items) }
    ensures counts { IfOk result (λ made. AreCounts made.counts entries.items) }
    ensures fit { OnOk result (AllFit largest entries.items) }
    ensures told { OnOk result (is_told start.now.limits (length start.now.tree) ≡ true → AllByRecursion (FitsNode largest) start.now.tree) }
{
    let mut text = Vec::new(alloc);
    write_opening(alloc, start, &mut text)?;
    let _room = text.reserve(entries.len().saturating_mul(LINE_ROOM));
    let mut begun = 0;
    let mut committed = 0;
    let mut returned = 0;
    for entry in entries {
        write_entry(alloc, &entry, &mut text)?;
        match entry {
            Entry::Begin(_, _, _) => begun += 1,
            Entry::Commit(_) => committed += 1,
            Entry::Return(_, _) => returned += 1,
        }
    }
    Ok(CountedText {
        text,
        counts: Counts {
            begun,
            committed,
            returned,
        },
    })
}

/// A word and a number.
fn push_count(word: &[u8], count: usize, line: &mut Addition) -> Result<(), AllocError>
    ensures ok { OnOk result (line.new.added ≡ line.old.added ++ word.now ++ decimal count) }
    ensures before { line.new.before ≡ line.old.before }
{
    line.push(word)?;
    line.push_number(count as u64)
}

/// Adds the last line of a run with so many entries of each kind. The only error is out of memory.
pub fn push_counts(counts: Counts, line: &mut Addition) -> Result<(), AllocError>
    ensures ok { OnOk result (line.new.added ≡ line.old.added ++ counts_line counts.begun counts.committed counts.returned) }
    ensures before { line.new.before ≡ line.old.before }
{
    push_count(b"begun ", counts.begun, line)?;
    push_count(b" committed ", counts.committed, line)?;
    push_count(b" returned ", counts.returned, line)?;
    line.push(b"\n")
}

/// The last line of a run with so many entries of each kind.
fn end_line(alloc: Global, counts: Counts) -> Result<Vec<u8>, AllocError>
    ensures { IfOk result (λ text. text.items ≡ counts_line counts.begun counts.committed counts.returned) }
{
    let mut line = Addition::new(Vec::new(alloc));
    push_counts(counts, &mut line)?;
    Ok(line.kept())
}

/// The text of a run whose last piece began at this tree and ended with these entries and nodes: its journal, the tree
/// that the nodes spell, and a last line with the numbers of entries of each kind; and these numbers. Each entry is let go once
/// its line stands. The only error is out of memory.
pub(crate) fn counted_text(
    alloc: Global,
    start: &SeqTree,
    entries: Vec<Entry>,
    store: &Store,
) -> Result<CountedText, AllocError>
    ensures text { IfOk result (λ made. IsRunText start.now entries.items (graph_of store.now) made.text.items) }
    ensures counts { IfOk result (λ made. AreCounts made.counts entries.items) }
    ensures fit { OnOk result (AllFit largest entries.items) }
    ensures told { OnOk result (is_told start.now.limits (length start.now.tree) ≡ true → AllByRecursion (FitsNode largest) start.now.tree) }
{
    let mut made = journal_text(alloc, start, entries)?;
    write_tree(alloc, store, &mut made.text)?;
    let line = end_line(alloc, made.counts)?;
    made.text.extend_from_slice(&line)?;
    Ok(made)
}
