//! Text for a terminal: in colours, and laid out in columns.
//!
//! `painted` puts escape sequences around some words of a text: names of calls, by their threads, and errors and faults. By its clause
//! the text without escape sequences is what it was, so that whatever was proved of it holds of what is shown. `laid_out` puts other
//! spaces between the words of a trace, or of the ends of runs. By its clause each line has the words that it had, and of ends besides
//! only their shares, in brackets. `Painting` is a sink that writes texts so, or as they are. Which words have which colour, and where
//! columns are, is tested.
//!
//! The definitions are in `specs/`: `Colours` and `Layouts`. `specs/code/` ties the code to them, and changes no meaning.
#![tactic(auto)]

mod cells;
mod colour;
mod columns;
mod layout;
mod painting;
mod spacing;
mod table;
mod words;

pub use layout::{Layout, laid_out};
pub use painting::{Painting, painted};
