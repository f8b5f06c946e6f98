//! What a reader sees of bytes, names and trees.
//!
//! `write_shown_call` and `write_shown_reply` write the words of a call and of a reply, with printable bytes as text. `push_cut`,
//! `push_cut_quoted` and `push_apart` cut words that are too long. `note_alike` says of names how far each begins as another does, so
//! that `push_apart` cuts them apart. `trees_of` plays calls on a tree, and keeps what is shown of it before and after some of them.
//!
//! That each function is safe and ends is proved; what is shown is tested, with pictures.
#![tactic(auto)]

mod alike;
mod cut;
mod data;
mod trees;

pub use alike::{Text, note_alike};
pub use cut::{ARROW, ELLIPSIS, push_apart, push_cut, push_cut_quoted};
pub use data::{write_shown_call, write_shown_reply};
pub use trees::{Commit, Leaf, Tree, When, trees_of};
