//! What the program `atomfs` answers to whoever started it.
//!
//! `status_of_run`, `status_of_verdict` and `report` answer the exit status for the result of a subcommand. The message of a fault goes to
//! standard error. A `Kept` source keeps what it gave, so that the message of a fault shows the line: one of the text, and on a terminal
//! one of an entry (`Excerpts`). There (`Screen`) `Line` and `SharedLine` show how far a command is. An `Erasing` sink removes that before
//! the first byte of output. `Input` is standard input, or a file.
//!
//! Nothing here runs a script. What is asked for is in `atomfs_arguments`. The exit statuses are defined in `specs/Statuses.antt`.
#![tactic(auto)]

pub mod input;
mod progress;
pub mod seen;
pub mod status;

pub use input::Input;
pub use progress::{Erasing, Line, Screen, SharedLine};
pub use seen::{Excerpts, Kept, Seen};
pub use status::{
    report, report_check, report_draw, report_fault, report_file, report_find, report_from,
    report_learned, report_linearize, report_many, report_minimized, report_outcomes,
    report_picture, report_schedule, report_shrink, report_table, report_trace, report_tree,
    report_unopened, report_unwritten, report_words, status_of_run, status_of_unreadable_args,
    status_of_usage, status_of_verdict, tell_reading,
};
