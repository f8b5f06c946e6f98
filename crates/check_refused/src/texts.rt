//! Entries and a tree that are written after other bytes, once more after memory was refused.

use anyhow::{Result, ensure};
use fs_core::Core;
use fs_nodes::Store;
use fs_script::write_tree;
use fs_text::write_entry;
use fs_timeline::Entry;
use std::alloc::Global;

/// What is in a text before, and alone after a refusal.
const BEFORE: &[u8] = b"before\n";

/// How much of entries and of a tree was written, and how often memory was refused.
#[derive(Drop)]
pub struct Written {
    alloc: Global,
    pub entries: usize,
    pub tree: usize,
    pub refused: u64,
}

impl Written {
    fn note(&mut self) {
        self.refused = self.refused.wrapping_add(1);
    }

    /// A text after which others are written.
    fn text(&mut self) -> Result<Vec<u8>> {
        let mut text = Vec::new(self.alloc);
        if text.extend_from_slice(BEFORE).is_err() {
            self.note();
            text.extend_from_slice(BEFORE)?;
        }
        Ok(text)
    }

    /// The length of a text with an entry.
    fn entry(&mut self, entry: &Entry) -> Result<usize> {
        let mut text = self.text()?;
        if write_entry(self.alloc, entry, &mut text).is_err() {
            self.note();
            ensure!(text.as_slice() == BEFORE, "an entry that is refused");
            write_entry(self.alloc, entry, &mut text)?;
        }
        Ok(text.len())
    }

    /// The length of a text with the tree of a core at rest.
    fn tree(&mut self, store: &Store) -> Result<usize> {
        let mut text = self.text()?;
        if write_tree(self.alloc, store, &mut text).is_err() {
            self.note();
            ensure!(text.as_slice() == BEFORE, "a tree that is refused");
            write_tree(self.alloc, store, &mut text)?;
        }
        Ok(text.len())
    }
}

/// Writes the entries of a core, each by itself, and its tree.
pub fn write(alloc: Global, core: &Core) -> Result<Written> {
    let mut written = Written {
        alloc,
        entries: 0,
        tree: 0,
        refused: 0,
    };
    for entry in core.timeline() {
        let length = written.entry(entry)?;
        written.entries = written.entries.wrapping_add(length);
    }
    written.tree = written.tree(core.store())?;
    Ok(written)
}
