//! What happens in a script's run, in words or as objects of JSON, and the script with the run's events as its words.
//!
//! `ScheduleScript` is a command: it makes of a script that script again, with the events and checkpoints of its run as the words. That
//! text is read back as the same threads and calls, and its run by these words has the text of the run (`MakesSchedule` `again`).
//! `trace_bytes` and `object_bytes` make the trace of a script in memory, with the lines of `fs_trace_story`. The player of `fs_sched`
//! plays the script for all three.
//!
//! Enter at these, at `schedule_bytes` for a schedule in memory, and from a tree at `schedule_at`. The definitions are in `specs/`:
//! `Makes` (what the command makes), `Traces` and `Objects` (the texts), `Examples` and `Faults`; `docs/PICTURES.md` has the grammar of
//! traces. `specs/code/` ties the code to them, and changes no meaning.
#![tactic(auto)]

pub mod examples;
mod fault;
mod left;
mod object_text;
mod objects;
mod running;
mod scheduling;
mod script_text;
mod trace_text;

pub use fault::ScheduleFault;
pub use running::{ScheduleScript, object_bytes, schedule_bytes, trace_bytes};
pub use scheduling::schedule_at;
