//! The command that cuts a history without an order down to the calls that show it.
//!
//! `MinimizeHistory` reads a history. If no journal explains it, a part of it is written that none explains either, for the same reason:
//! the same return is refused. In a race its reply could be right, if the other calls had other replies. Otherwise its call could have had
//! the same replies as in the whole history (`IsRefuted`). None of the calls that are left can go (`IsMinimal`). Halves of the calls are
//! tried first, then smaller pieces, then one after the other until none goes.
//!
//! Enter there, by `perform` of `fs_verdict`. The definitions are in `specs/`. `Parts` has entries without some calls, `Reasons` why there
//! is no order, and `Minimal` what is left. `Minimizing` and `Texts` have what is written, and how, and `Makes` what the command makes.
//! `specs/code/` ties the code to them, and changes no meaning.
#![tactic(auto)]

mod copying;
mod cutting;
pub mod limits;
mod minimizing;
mod parts;
mod reason;
mod trying;
mod writing;

pub use limits::RACE_LIMIT;
pub use minimizing::{MinimizeHistory, Minimized};
