//! The checker of journals.
//!
//! `check` answers `Lawful` exactly on the lawful timelines. On all others it answers the place and the kind of the first entry that does
//! not fit those before it. It reads the entries once, and plays their commits on a sequential tree. It trusts nothing about who wrote
//! them: call numbers and seats may be any numbers.
//!
//! Enter at `check`, or at `check_from` if a journal begins at another tree than the root alone. `fs_timeline` defines what is lawful, and
//! the verdict; its types are handed on here. `specs/JournalStates.antt` there is what a checker knows of the entries so far.
//! `specs/code/` here says how the tables of the code are that knowledge, and changes no meaning.
#![tactic(auto)]

mod calls;
pub mod checker;

pub use checker::{check, check_from, check_on};
pub use fs_timeline::{Entry, FaultKind, Timeline, Verdict};
