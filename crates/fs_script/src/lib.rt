//! Texts of scripts, of trees, and of journals with the trees at which they start. `fs_text` has the entries of journals.
//!
//! `read_script` answers what a script says by the grammar, or its first fault from the left with its line. Each script that is read keeps
//! the limits (`laws::keeps_limits`). `write_tree` appends the text of the tree that the nodes of a store spell, each directory followed
//! at once by what is below it. If it fails, it leaves the text as it was. `write_opening` does so with what comes before the entries of a
//! journal. `read_journal` reads a journal with its start tree, each line of which has to be the very one that is written. A journal that
//! was written is read again as the same start tree and the same entries (`laws::reads_journals_back`).
//!
//! Enter at `read_script`, `write_tree`, `write_opening` and `read_journal`. The definitions are in `specs/`: `Script` and `Journals`
//! (what reading gives, and how a journal begins), `Limits`, `Laws` and `TreeText`; `docs/FORMATS.md` has them in words. Those of
//! `specs/code/`, about the steps of the readers and the way through the nodes of a store, change no meaning.
#![tactic(auto)]

mod draft;
pub mod examples;
pub mod journal;
pub mod laws;
pub mod limits;
mod node_line;
mod opening;
mod reading;
pub mod script;
mod tree;
mod tree_text;

pub use fs_text::{FaultKind, ScriptFault, read_entries, write_entry};
pub use journal::{Journal, read_journal};
pub use opening::write_opening;
pub use reading::read_script;
pub use script::{CallLists, Script, ThreadNames, Word, WordList};
pub use tree::write_tree;
pub use tree_text::{read_start, read_tree};
