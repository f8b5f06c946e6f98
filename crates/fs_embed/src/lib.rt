//! What a program with AtomFS inside calls: calls that are given as lines or by their parts, and texts of what happened.
//!
//! A `Request` is a call that is asked for, and `begin_call` begins it. `step_seat` does one step of a seat. `step_any` does one of a call
//! that does not wait; while a call is pending there is one. `run_call` runs a call from its begin to its return, or until it waits for a
//! call of another seat. `begin_kept` and `run_kept` do so in a core that forgets by itself (`keep_last`). A request that is refused
//! leaves the core as it was, and the answer says why: `status` has its number.
//!
//! `reply_text`, `names_text`, `journal_text`, `opening_text`, `whole_journal` and `tree_text` are texts of a core, and `behind_text` is
//! the part of a reply's names that fits. `told` and `replies` write texts, replies and faults to a caller's memory and return a status.
//! `hand_out` does so with a journal that begins again. `run_bytes` and `check_bytes` of `fs_sched` run and check a script or a journal in
//! memory. `seeds_bytes`, which alone has a `requires`, runs a script with drawn schedules.
//!
//! Enter at `run_call`. The definitions are in `specs/`. `Requests` says which call is asked for, and `Numbered` which one a number asks
//! for. `Calls` says what begins, steps and calls do, in the words of `fs_machine`. `Texts` says what the texts are, `Statuses` which
//! number an answer has, and `Told` what that number reports.
#![tactic(auto)]

mod calls;
mod checkpoint;
mod keeping;
mod looks;
mod names;
pub mod numbered;
mod pieces;
pub mod replies;
mod request;
mod seeds;
pub mod status;
mod texts;
pub mod told;

pub use calls::{
    NotBegun, NotReturned, Returned, StepTold, begin_call, run_call, step_any, step_of, step_seat,
};
pub use checkpoint::{again, hand_out, tell_why_not};
pub use keeping::{begin_kept, keep_last, run_kept};
pub use looks::kind_of;
pub use names::{behind_text, names_text};
pub use pieces::{opening_text, whole_journal};
pub use request::{Request, path_fault};
pub use seeds::seeds_bytes;
pub use texts::{copy_out, find_reply, journal_text, reply_text, tree_text};
