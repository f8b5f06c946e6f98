//! Pages that play a run or a journal, event by event.
//!
//! `DrawPage` runs a script, or reads a journal, and makes a file of HTML with all that it needs. It is a `Command` of `fs_verdict`, whose
//! `perform` takes it from a reader to a writer. The file is the page without a run, which `template` has in three parts, with the
//! picture and the text that the page plays. By `MakesPage` this text is the trace of a run of the script that was read, or the journal
//! with its verdict before it. A browser reads exactly this text in the page, so no name in it is ever a tag. The picture is that of
//! `fs_draw`, and the trace that of `fs_trace`.
//!
//! Enter at `DrawPage`, or in memory at `page_bytes`, and at `noted_page` for a journal with notes on it. The definitions are in
//! `specs/`: `Html`, what a browser reads of a text, `Pages`, and `Makes`. `specs/code/` ties the code to them, and changes no meaning.
//! `docs/PLAYER.md` says what the page shows.
#![tactic(auto)]

mod marking;
mod page;
mod running;
pub mod template;

pub use running::{DrawPage, noted_page, page_bytes};
