//! The nodes of a sequential tree, in a slab: directories with their entries in byte order, and files (`fs_blocks`).
//!
//! A node has a number, and an entry leads to the number of its node. `nodes::resolve` follows names from the root, and `nodes::look_up`
//! finds the entry at a path, or the place where it belongs. The errors are those of `fs_calls`. Entries come and go one at a time, and
//! all else stays. `Links` has the entries of a directory, in one list or in several, and is seen as one. `copying` makes the same nodes
//! again; files in blocks then share these.
//!
//! Enter at `Node`. `fs_seq` has what calls do to the nodes, that they stay a tree, and trees as rows. No crate above them names these
//! functions. The definitions serve the code, and are in `specs/code/`. `Slots` says which tree the places under numbers
//! spell, what they keep (`IsForest`), and whether all files are in one form (`HaveForm`). `Nodes` says which places the nodes of a slab
//! are, `Entries` what is found among links, and `Lists` what several lists have.
#![tactic(auto)]

pub mod copying;
pub mod held_name;
pub mod links;
mod many;
pub mod nodes;
mod piece;

pub use held_name::HeldName;
pub use links::Links;
pub use nodes::{Entry, Link, Node, Spot};
