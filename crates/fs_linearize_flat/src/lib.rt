//! The sequential tree as a list of its entries, for those who have many trees. A copy shares the list, a changed tree shares the entries
//! that stay, and two are compared entry by entry.
//!
//! Enter at `FlatTree::of`. A contract sees a `FlatTree` as a `Start`, as it sees a `SeqTree`. `reply` gives a call the reply of the table
//! of errors, and `after` the tree that it leaves. It is the sorted list of `fs_calls` itself, so each change is the one of
//! `specs/Tree.antt` there. What a change costs grows with the number of entries. A copy costs the same for each tree, and so does what a
//! call leaves that changes nothing.
//!
//! `cell` is an entry, `searching` finds one, and `seeing` says what is at a key. `faults` has the first error of a call, `replies` the
//! reply without one, and `changes` the entries after it.
#![tactic(auto)]

mod cell;
mod changes;
mod faults;
pub mod flat_tree;
mod keys;
mod replies;
mod searching;
mod seeing;

pub use flat_tree::FlatTree;
