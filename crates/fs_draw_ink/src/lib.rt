//! The rows of a picture, written as the text of an SVG file.
//!
//! `Ink` is the text of a picture so far, to which numbers, words and shapes are added, with the escapes of XML. A `Canvas` writes a row
//! of a scene (`write_row`): first its lines, then the bars and boxes of calls (`piece_text`), and at last the texts (`texts`). What
//! would strike through a text is covered first. `tips` has the words that a call shows if a pointer rests on it.
//!
//! That each function is safe and ends is proved; what is written is tested, with pictures.
#![tactic(auto)]

mod ink;
mod piece_text;
mod row_text;
mod texts;
mod tips;

pub use ink::Ink;
pub use row_text::Canvas;
