//! A script's run in words.
//!
//! A `Teller` is a witness: the player reports each moment of a run to it when it comes. It puts that into words, with paths in place of
//! node numbers. An event is what its thread's call did, and a checkpoint has the number of the next call. Its clauses say that it shows
//! each checkpoint, and each event or each that is news, to a `Page`, which keeps what it needs. By `laws::every_is_all` the first are
//! all. The words themselves are tested, and not proved.
//!
//! Enter at `Teller` and `Page`. The definitions are in `specs/`: `Shown` (which moments are shown) and `Laws`; `docs/PICTURES.md` has the
//! grammar of the words. `specs/code/` ties the code to them, and changes no meaning.
#![tactic(auto)]

mod effect;
mod holdings;
pub mod laws;
mod page;
mod paths;
mod shown;
mod story;

pub use page::{Deed, Line, Page, Part, Parts};
pub use story::{CallPlace, Standing, Story, Teller};
