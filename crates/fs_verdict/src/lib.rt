//! The one way from a source to a sink, the runner that checks a journal, and the faults of all commands.
//!
//! A `Command` is what text is made of an input, and what is answered, as one relation `Makes`. `perform` carries out each: it reads a
//! source to its end, makes the text, and writes it. The whole text is made before its first byte is written, and a device is blamed only
//! if it failed in this call; `Transforms` says so once for all. `As` writes what a command made in another `Form`. Below `perform` is
//! `transform`, which takes a function in the place of a command.
//!
//! `check_journal` performs `CheckJournal`: it reads a journal to its end and writes the verdict on it, in one line, and answers what is
//! wrong with it in words. `CheckObject` is its object of JSON, and `check_bytes` answers the line for a journal in memory. A `RunFault` says why a command ended before its
//! whole text was written; its `Full` and `UnderWay` are for those that run scripts (`fs_sched`).
//!
//! Enter at `perform` and `check_journal`, each with a `Device` around a reader and a writer. In `specs/`, `Commands` and `Devices` have
//! what is read and written, `Forms` another form of it, and `Checks` the verdict on a text and its line. `InputFaults` says which fault
//! the input has, and `Faults` the status of each.
#![tactic(auto)]

mod checking;
mod command;
pub mod device;
pub mod failure;
mod fault;
mod form;
mod journals;
mod object;
mod reason;
mod shell;
mod sink;
mod source;
mod text_sink;
mod verdict_line;

pub use checking::{CheckJournal, Checked, check_bytes, check_journal, journal_in};
pub use command::{Command, perform};
pub use device::{Device, Failed, Sink, Source};
pub use failure::Failure;
pub use fault::{RunFault, between, run_fault};
pub use form::{As, Form};
pub use journals::is_journal;
pub use object::CheckObject;
pub use reason::{call_of, due_reply};
pub use shell::{Made, transform};
pub use text_sink::write_text;
pub use verdict_line::{is_lawful, kind_text, push_verdict};
