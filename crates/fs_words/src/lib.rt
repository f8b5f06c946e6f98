//! Bytes as lines and words, both ways; strings and objects of JSON.
//!
//! A text is its lines, and a line its words: numbers, bytes in hexadecimal digits, names and paths with escapes. An `Addition` writes
//! each in one way, and takes it back if a growth is refused. Its grammar reads it, to a value or to its first fault. `Lines` gives the
//! lines after a header line, with their numbers, and skips comments. Reading trusts nothing about a text. Its first line says how long a
//! text may be (`headers`).
//!
//! `push_string` writes bytes as a string of JSON, in ASCII: each byte is the character of its number. So whoever reads the string has the
//! bytes again, also those that are no UTF-8. `push_object` writes an object, in a line: its members have strings, numbers or nothing.
//!
//! Enter at `Lines` and `cut_words` to read, and at `Addition` to write. The grammar is in `specs/`, as functions on lists of bytes:
//! `Lines`, `Words`, `Headers`, `Reading`; `docs/FORMATS.md` has it in words. `Json` and `JsonObjects` have what is written of JSON, and
//! `JsonReading` how a string is read. `specs/code/` has forms of contracts.
#![tactic(auto)]

pub mod addition;
mod digits;
pub mod fault;
pub mod headers;
mod json_objects;
mod json_strings;
pub mod limits;
pub mod lines;
pub mod numbered;
pub mod recent;
pub mod words;

pub use addition::Addition;
pub use fault::{FaultKind, ScriptFault};
pub use json_objects::{Member, push_object};
pub use json_strings::push_string;
pub use limits::{TEXT_LIMIT, text_limit};
pub use numbered::{Line, Lines};
