//! What other trees reply in the place of this one: tables of errors, histories that are read by them, and what single threads show.
//!
//! A row of a table says that another tree replies `theirs` to a call where this one replies `ours`. `widen` gives each return of a
//! history the errors of its rows: it recorded `theirs`, so it may be `ours` too (`specs/Dialects.antt`). What is linearized after that
//! is the history with these open replies. The law `laws::widening_keeps` says that no order is lost by it.
//!
//! `learn` plays the calls of one thread on the sequential tree. If the reply that was recorded is another error than that tree's, a row
//! says so, and both trees are as they were. If only one of the two succeeds, or both do with different replies, no row explains it. There
//! learning ends, since nobody knows what the other tree is like from then on. `specs/Learning.antt` says this by recursion on the calls.
//! `table_text` writes rows as a table, each once and in a fixed order (`specs/LearnedTables.antt`). Read by this table, a history that
//! rows explain to its end is linearizable.
//!
//! Enter at `read_dialect`, which reads a table, `known_table`, which has the tables of known trees, `widen` and `learn`. `errors_at` and
//! `write_errors` are for errors with bars between them, as `ENOENT|ENOTDIR`, in tables and in histories.
#![tactic(auto)]

mod call_name;
mod dialect;
mod errors;
mod fault;
pub mod laws;
mod learned_tables;
mod learning;
pub mod learning_laws;
mod reading;
mod tables;
mod widening;

pub use call_name::{CallName, NAMES};
pub use dialect::{Dialect, Row};
pub use errors::{ERRNOS, errors_at, write_errors};
pub use fault::{DialectFault, TableFault};
pub use learned_tables::table_text;
pub use learning::{End, Lesson, learn};
pub use reading::read_dialect;
pub use tables::known_table;
pub use widening::widen;
