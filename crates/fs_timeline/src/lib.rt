//! Timelines: entries that say when a call began, committed and returned, and which lists of them are lawful.
//!
//! A `Timeline` keeps entries in the order in which they came, with places reserved for the next, so that `push` needs no memory.
//! `specs/Timeline.antt` says when a list of entries is well formed, which reply is due to a call, and when the list is lawful. In a
//! lawful list each returned reply is the one that the sequential tree gives after the calls that committed before. `specs/Verdicts.antt`
//! is the verdict on a list of entries: lawful, or the first entry that does not fit and why. The module `laws` has what holds of these
//! definitions, and the crate `fs_journal` computes a verdict.
//!
//! An `IndexedTimeline` is a timeline with an index of its commits. In constant time it answers how many calls have committed, which call
//! the i-th of them is, and how many committed before a given call. It indexes timelines whose calls are numbered as they begin, from 1 on.
//! `Fits` in `specs/Index.antt` says what may be pushed, and `place_of` there where a call's commit is. `specs/code/` says when the index
//! is that of the entries, and changes no meaning.
#![tactic(auto)]

pub mod entry;
pub mod examples;
pub mod indexed;
pub mod laws;
pub mod timeline;
pub mod verdict;

pub use entry::Entry;
pub use indexed::IndexedTimeline;
pub use timeline::Timeline;
pub use verdict::{FaultKind, Verdict};
