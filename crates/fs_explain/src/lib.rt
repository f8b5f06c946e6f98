//! What each fault of a text, a path and a journal means, and what to write instead.
//!
//! `topic_of` finds the fault that a word names, `topic_in` the one that bytes name, and `explanation_of` has its text, which begins with
//! the word. `explanation` has the text of one fault or two, as `atomfs explain` prints it. That each text begins with the word of its
//! fault is proved. The text after it is compared with the tables of the pages.
//!
//! Enter at `topic_of`. The definitions are in `specs/`: `Topics` has the words of faults.
#![tactic(auto)]

mod explanations;
mod topic;

pub use explanations::{explanation, explanation_of};
pub use topic::{Topic, WORDS, topic_in, topic_of};
