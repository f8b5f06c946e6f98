//! Histories, and the timelines that explain them: definitions and laws.
//!
//! A history is a timeline without its commits: when calls began and what they returned, as one sees it from outside of a tree. A timeline
//! explains a history if it is lawful, and is the history once its commits are taken out (`specs/Histories.antt`). Entries are no history
//! if one of them cannot come next (`specs/Faults.antt`).
//!
//! `specs/Configurations.antt` and `specs/Early.antt` say how a search for such a timeline goes on from one configuration to the next, and
//! `specs/Meeting.antt` when two calls meet. Two calls that do not meet may change places. The module `laws` has what follows. If a set of
//! configurations is closed under its steps, it has one at the end of each front of the history that is explained. So if the set has none
//! at the end of the history, no timeline explains the history.
//!
//! The crate `fs_linearize` does the search. The module `examples` has worked examples.
#![tactic(auto)]

pub mod errors;
pub mod examples;
pub mod fault;
pub mod heard;
pub mod laws;

pub use errors::Errors;
pub use fault::HistoryFault;
pub use heard::{Heard, Pattern};
