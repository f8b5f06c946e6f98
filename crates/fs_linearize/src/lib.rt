//! Histories made journals: the search for a timeline that explains a history.
//!
//! `linearize` puts the commits into a history. `Lawful` has a journal that explains the history from its start tree. `NoOrder` says that
//! none does, and names the first return up to which there is none. `Fault` says that the entries are no history, and `Unknown` that a
//! search met as many different configurations as the limit says.
//!
//! First one order is looked for, depth first. At the return of a call that has not committed, that call commits, or else one that meets
//! it and returns soon. If none can, the search goes back. It makes few choices more than the history has entries. It has one tree, which
//! changes in place, and promises nothing: what it finds is played again from the start (`fs_linearize_configurations`, `walking`).
//!
//! If it finds no order, another search goes by layers of configurations (`fs_linearize_configurations`): all before an entry, then those
//! after it. If the returning call has committed in no configuration of a layer, no timeline explains the history. Then the entries up to
//! there, and further on, are searched by themselves. This finds the first return up to which none explains them, and each reply that its
//! call could have had.
//!
//! `fs_linearize_histories` has what a history is, which timelines explain it, when calls meet, and the laws of the search.
//! `specs/Results.antt` has what an answer says, and `specs/Possible.antt` what could have been replied.
#![tactic(auto)]

mod begins;
mod depth_first;
mod faults;
mod first_return;
pub mod linearizing;
mod playing;
pub mod progress;
pub mod replies;
mod search;
mod taking_back;
mod telling;
mod turns;

pub use linearizing::{Found, linearize};
pub use progress::{Progress, Untold};
pub use replies::{MOST_REPLIES, Possible};
