//! The store of nodes: directories and files under numbers, each named by at most one entry.
//!
//! Contracts see a store as a graph, which says what each number is, and which entry leads where. They also see a limit on the numbers in
//! use, the room made for numbers, and whether files are in blocks. Each call changes the graph as its clause says, and nothing else.
//! `Store::find` says what holds of every store. `Store::reserve` answers `Full` exactly if as many numbers are in use as the limit. Only
//! a new store and `Store::reserve` allocate. `plain::Store` has the same contract without an index, for tests alone.
//!
//! Enter at `Store`. Its clauses speak of graphs (`fs_calls`) and of what is seen of a store (`fs_nodes_places`); `specs/` hands these on
//! in `Graphs`, `Stores` and `Seen`. The places of a store say which plain store it is (`fs_nodes_places`), and no crate above names them.
//! `specs/code/` serves the code, and changes no meaning. `Linked` there says what the places of a store keep, `Frees` what its free places
//! do, and `Indexes` what the slots beside them keep.
#![tactic(auto)]

mod index;
pub mod number;
pub mod plain;
mod siblings;
pub mod store;

pub use number::NodeNo;
pub use store::{NoNode, Store};
