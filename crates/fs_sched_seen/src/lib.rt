//! What runs of a script show of its calls: what each replied, which of them met, and how much was seen in all.
//!
//! `replies_of` walks over the timeline of a run. It answers what the call at each `Place` replied, and notes in `Meetings` which calls of
//! two threads were pending at once. `Meetings::pairs` answers for how many pairs of calls this came in some run. `Seen` has the counts of
//! many runs, which `push_seen` writes as words and `push_seen_object` as an object of JSON.
//!
//! The definitions are in `specs/`: `Calls` (the calls of a script and their replies), `Meetings` (when two calls meet, and how many pairs
//! do) and `Seen` (the words). `specs/code/` ties the code to them, and changes no meaning.
#![tactic(auto)]

mod heard;
mod meetings;
mod places;
mod replies;
mod seen;

pub use meetings::{Meetings, PAIRED_LIMIT, Pairs};
pub use places::{Place, places_of};
pub use replies::replies_of;
pub use seen::{Seen, push_seen, push_seen_object};
