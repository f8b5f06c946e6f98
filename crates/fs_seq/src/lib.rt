//! The sequential tree, running: one tree for one thread.
//!
//! `SeqTree::apply` gives a call the reply of the table of errors, and leaves the tree that the table says. If memory runs out, it leaves
//! the tree as it was, and it fails so only for a call that needs memory (`specs/Memory.antt`). `apply_counted` and `copy_counted` fail
//! exactly if a `Memory` counts a refusal.
//!
//! `SeqTree::copy` makes the same tree again, and `SeqTree::rows` lists its entries, each directory followed at once by what is in it.
//! `SeqTree::from_rows` makes a tree out of entries, or answers the first that no tree within the limits has there. What a `Row` is, and
//! which ones fit, is in `specs/Rows.antt`, with a law in `row_laws`: rows of which each fits are a tree. The limits of a tree say whether
//! files are in blocks, which copies of a tree share, or in one vector each.
//!
//! Enter at `SeqTree::new`, or at `SeqTree::with_limits` for any set of limits, and at `SeqTree::apply`. `fs_calls` defines what a call
//! replies and leaves; its types are handed on here. Each module has some of the calls: `queries` (stat, readdir, list, read), `create`,
//! `remove`, `rename`, `exchange` and `write`, over the nodes of `fs_seq_nodes`. `rows` and `from_rows` have the lists of entries.
//! `specs/code/` serves the code, and changes no meaning.
#![tactic(auto)]

mod create;
mod exchange;
pub mod from_rows;
mod queries;
mod remove;
mod rename;
pub mod row_laws;
pub mod rows;
pub mod seq_tree;
mod write;

pub use from_rows::NotTree;
pub use fs_calls::{
    Bytes, Call, Data, EntryCall, Errno, NameList, NodeCall, PairCall, Reply, Target,
};
pub use rows::Row;
pub use seq_tree::SeqTree;
