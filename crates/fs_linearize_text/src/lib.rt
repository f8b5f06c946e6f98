//! The commands that linearize histories.
//!
//! `LinearizeHistory` reads a history. It writes the journal that explains it, or one line that says why there is none. If that is asked
//! for, it writes a journal up to the first return that nothing explains. `LinearizeMany` reads histories one after the other, writes a
//! line for each, and counts. `LearnHistories` reads histories of one thread each, and writes a table of errors that explains them. Each is
//! a `Command` of `fs_verdict`, whose `perform` takes it from a reader to a writer. `linearize_bytes` makes of a text in memory what
//! `LinearizeHistory` makes, and `read_history` only reads.
//!
//! A history is a journal without commits, in which a reply may be left open: `failed ?`, `stat dir ?`. `specs/Texts.antt` says what a
//! text means, `specs/Findings.antt` what is found of it, `specs/Answers.antt` how an answer is written, and `specs/Many.antt` has both
//! for many histories. `specs/Makes.antt` says what each command makes.
#![tactic(auto)]

mod answer;
mod failing;
mod front;
mod history;
mod learning;
mod linearizing;
mod lines;
mod many;
mod marks;
mod plain;
mod possible;
mod reason;

pub use answer::{Linearized, Outcome};
pub use failing::{Failing, Notes};
pub use fs_linearize::{Progress, Untold};
pub use history::{History, read_history};
pub use learning::{LearnHistories, Learned, Learning};
pub use linearizing::{CONFIGURATION_LIMIT, LinearizeHistory, linearize_bytes};
pub use many::{Histories, LinearizeMany};
