//! Schedule words that name a call, written out as counts of events.
//!
//! In a schedule `m@3` brings thread m to the begin of its third call, and `m@3!` to that call's commit. `written_out` writes `m*N` for such a
//! word, or nothing if no event is needed. N is the least number of events of m that does so after the words before it. All else of the
//! text stays byte for byte, and each line keeps its number. If no number does, the text from that line on stays as it is, and whoever
//! reads it finds a bad word there.
//!
//! A caller asks `has_words` first, and uses a text without such words as it is. Of another text it reads `plain_text`, which has the thread
//! alone for each such word. So it learns the script's own faults, its limits, and the tree at which runs begin. The definitions are in
//! `specs/`: `Words`, `Coming` (when a call has begun, or has its commit), `Counts` (which number a word has), `Written`.
#![tactic(auto)]

mod counting;
pub mod examples;
mod lookout;
mod parts;
mod plain;
mod reach;
mod target;
mod writing;

pub use plain::{has_words, plain_text};
pub use reach::Reach;
pub use target::Target;
pub use writing::written_out;
