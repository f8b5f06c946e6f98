//! Journals in words or as objects of JSON, entry by entry; and the command that traces a journal or a script's run.
//!
//! `TraceInput` makes of a script the trace of its run, as `trace_bytes` or `object_bytes` of `fs_trace` does. Or it makes of a journal a
//! line or an object for each of its entries, in the same words. Then come what did not return, the tree and the counts. If the journal is
//! not lawful, it has the entries before the first fault. The clauses say that each line or object has the place of its entry, its call,
//! and what began or returned. What a commit changes is tested, and not proved.
//!
//! Enter at `TraceInput`. The definitions are in `specs/`: `Makes` (what the command makes), `Entries`, `Objects`, and `Each` for both;
//! `docs/PICTURES.md` has the grammar. `specs/code/` ties the code to them, and changes no meaning.
#![tactic(auto)]

mod effect;
mod left;
mod lines;
mod objects;
mod past;
mod running;

pub use running::{Notation, TraceInput, Traced};
