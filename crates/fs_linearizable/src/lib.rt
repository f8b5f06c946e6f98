//! Linearizable histories, in the words of Herlihy and Wing, and which timelines have them: definitions and laws.
//!
//! `specs/Linearizable.antt` defines histories, and when a history is linearizable: there is an order of its calls, and the definition
//! knows nothing of commits. The module `laws` says that a history is linearizable if and only if it is the history of a lawful timeline
//! (`fs_timeline`). The Commits of that timeline are the linearization points. The module `examples` has worked examples.
#![tactic(auto)]

pub mod examples;
pub mod laws;
