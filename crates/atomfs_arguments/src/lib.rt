//! The command line of the program `atomfs`: the commands, and what is asked for.
//!
//! `parse` reads the arguments with `clap`: the subcommand, a run's schedule, and the numbers of drawn runs, which are within their ranges
//! (`within`). Nothing here reads input or runs a script.
//!
//! Read `table` for the commands with their arguments, and `texts` for what their help says. `cli` hands both to `clap`, and `subcommand`
//! makes what is asked for out of what was matched. The definitions are in `specs/Commands.antt`.
#![tactic(auto)]

pub mod cli;
pub mod subcommand;
mod table;
mod texts;

pub use cli::parse;
pub use subcommand::{
    Asserted, Color, Drawing, Drawn, Format, Histories, Invocation, Recorded, Subcommand,
};
