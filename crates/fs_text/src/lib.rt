//! Texts of calls, replies and journals, both ways.
//!
//! `read_entries` answers what a journal says by the grammar, or its first fault from the left with its line. `write_entry` appends the
//! line of an entry, `write_call` the words of a call and `write_reply` those of a reply. Each leaves the text as it was if it fails. The
//! law `laws::reads_back` says that entries which were written after the header line are read again as the same entries. `write_entry`
//! says that this holds for each entry that it writes. Reading trusts nothing about a text.
//!
//! Enter at `read_entries` and `write_entry`. The grammar is in `specs/`, as functions on lists of bytes: `Lines`, `Words`, `Calls`,
//! `Journal`; `docs/FORMATS.md` has it in words. `Fits` says which entries are read back; `specs/code/` has forms of contracts.
#![tactic(auto)]

pub mod calls;
pub mod examples;
mod journal;
pub mod laws;
mod replies;
mod writing;

pub use fs_words::{
    Addition, FaultKind, ScriptFault, addition, fault, limits, lines, recent, words,
};
pub use journal::{entries_in, read_entries};
pub use replies::names_at;
pub use writing::{errno_text, write_call, write_entry, write_reply};
