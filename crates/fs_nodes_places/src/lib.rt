//! What a store keeps for the number of a node, its place; and a store of nodes that is a plain vector.
//!
//! Contracts see every store as a graph, a limit on the numbers in use, the room made for numbers, and whether files are in blocks. Each
//! call says what is seen after it. `plain::Store` keeps no index, and each of its calls looks at every place. Tests compare it with the
//! store with linked entries (`fs_nodes`), which hands it on as `fs_nodes::plain`.
//!
//! A `Place` has what its node is, and the name of the entry that names it (`Label`, compared by its first bytes as one number). It also
//! has the numbers of other places (`Spot`, in four bytes): its directory, its siblings, its first entry. The functions of `place` change
//! one place of many, as its clause says, and leave all others. `Key` is a hash of an entry, under which an index of the entries finds it.
//! `hints` has a tree of the entries of a large directory, of which nothing is known.
//!
//! Enter at `plain::Store` and at `Place`. What the places of a store keep together is in `fs_nodes`, and no crate above that names a
//! place. In `specs/`, `Stores` has the graph that places are, and what calls answer of it. `Seen` has what is seen of a store, and what
//! every store keeps. `Plains` says which node of a plain store a place is. `specs/code/` serves the code, and changes no meaning.
#![tactic(auto)]

pub mod hints;
pub mod key;
pub mod label;
pub mod node;
pub mod place;
pub mod plain;
mod scan;
pub mod spot;

pub use key::Key;
pub use label::Label;
pub use place::Place;
pub use plain::{NoNode, Store};
pub use scan::is_higher;
pub use spot::Spot;
