//! Runners from a reader to a writer that run scripts, with each schedule.
//!
//! `run_script` writes the run text of a script for a schedule; there is exactly one. `run_seeds` runs a script with drawn schedules and
//! checks each journal. The whole text is made before its first byte is written. `Read` or `Write` is answered only if the reader or the
//! writer failed during this call. Checks and faults are those of `fs_verdict`.
//!
//! All of them play a script in one place, `Play`, which reports each moment to a `Witness` when it comes. `watch` plays a script for its
//! witness alone, and `run_on` plays it on a core that begins at a tree. `watch_at` does so from an `Origin`, the root or a tree. A `Campaign` is
//! an origin and a `Policy`, by which the schedules of `seeds_of` are drawn.
//! `Silent` is a witness that gets no reports, and costs nothing.
//!
//! Enter at these two, with a `Device` around a reader and a writer, or with a text in memory at `run_bytes`. The definitions are in
//! `specs/`: `Schedules` and `Runs` (events for each schedule), `Origins` (where runs begin), `RunTexts`, `EachRun` (what is said of every
//! run), `Seeds`. The module `laws` has what is proved of them, `one_text` among it.
#![tactic(auto)]

mod input;
pub mod laws;
mod origin;
mod pieces;
mod play;
mod policy;
mod run_texts;
mod running;
mod schedule;
mod seats;
mod seeding;
mod turns;
mod watching;

pub use fs_sched_witness::{Answer, Moment, Silent, Told, Witness};
pub use fs_verdict::{
    Checked, Device, Failed, RunFault, Sink, Source, between, call_of, check_bytes, check_journal,
    device, due_reply, is_lawful, journal_in, kind_text, push_verdict, run_fault, write_text,
};
pub use input::script_in;
pub use origin::Origin;
pub use play::{checkpoint_fault, refusal_fault};
pub use policy::{Campaign, DEPTH_LIMIT, Policy};
pub use run_texts::{Counts, EntryKind, counts_of, number_of, push_counts};
pub use running::{RunEnd, run_bytes, run_end, run_on, run_script};
pub use schedule::{DRAW_LIMIT, Draws, Schedule};
pub use seats::Divisor;
pub use seeding::{RUN_LIMIT, SEED_LIMIT, run_seeds, seeds_of};
pub use watching::{Ran, watch, watch_at};
