//! Calls and replies, and what they mean: the definitions of the tree, with one table of errors, replies and changes.
//!
//! A `Call` is one of the twelve calls with its paths. `Call::target` answers what it looks at: a node, an entry, or two entries. A
//! `Reply` is what it answers. Both hold no bare vector, so that two that say the same are equal in a contract.
//!
//! The crate has no tree that runs: it says what such a tree has to answer. `specs/Tree.antt` is the tree as a sorted list, and
//! `specs/Rows.antt` the table. `specs/Outcomes.antt` reads a tree and answers with the table (`reply`, `after`) under a set of limits.
//! `play` goes on from a `Start`, which has the limits beside the tree. A `Call` has no limit in it. The module `laws` has what holds of
//! these definitions, and `examples` has worked rows that the check computes.
//!
//! `specs/Graphs.antt` says the same of a tree by the numbers of its nodes, without a store. A graph says what each number (`NodeNo`) is:
//! a directory with its names, a file with its bytes, or not in use. It also says where each entry leads, and which tree it spells. The
//! machine and the laws over all its runs speak of graphs alone. Each store says in its clauses which graph it is.
#![tactic(auto)]

pub mod call;
pub mod errno;
pub mod examples;
pub mod laws;
pub mod number;
pub mod path_errors;
pub mod ranges;
pub mod reply;
pub mod rows;
pub mod table;
pub mod target;

pub use call::Call;
pub use errno::Errno;
pub use fs_names::{Bytes, Data, NameList};
pub use number::NodeNo;
pub use path_errors::{exchange_error, rename_error};
pub use reply::Reply;
pub use rows::Sight;
pub use target::{EntryCall, NodeCall, PairCall, Target};
