//! The words of all other crates: names and paths, the bytes and kinds of nodes, the numbers of calls and seats, the limits.
//!
//! A `Path` is a list of at most 2,048 `Name`s, and the root is the path of none. Contracts see a path as the list of its names, a name as
//! its bytes, and a number as itself. `Path::parse` answers exactly what the specification says of the bytes. The names of a reply are in
//! a `NameList`, and `order` compares names, and keys.
//!
//! What may allocate says so in its type. `Path::parse` and `Path::write` may, and `Name::read_long` for a name with more than 64 bytes. A
//! `NameRoom` allocates once for all its names, and `Data::new` for the count of its owners. A copy of a path, a name or `Data` shares.
//!
//! Enter at `Path::parse` and `Name::read`. The limits are in the module `limits`; `Limits` is one of the three sets of those that differ
//! by version. The definitions are in `specs/`: `Names` (what a name is, and the order), `Heads` (its first bytes as a number), `Keys`
//! (parent, prefix) and `Reading` (how bytes are read). Those for the crates above are `Rooms` (lists being made), `Shapes` (what is seen
//! of a node) and `Failures` (the first of several checks that fails).
#![tactic(auto)]

pub mod blocks;
pub mod bytes;
pub mod data;
pub mod examples;
pub mod fault;
pub mod kind;
pub mod limits;
pub mod name;
pub mod name_list;
pub mod numbers;
pub mod order;
pub mod path;
pub mod relations;
mod scan;

pub use bytes::Bytes;
pub use data::Data;
pub use fault::PathFault;
pub use kind::Kind;
pub use limits::{LIST_LIMIT, Limits, NODE_LIMIT, PATH_LIMIT};
pub use name::{Name, NameOwner};
pub use name_list::{NameList, NameRoom, Names};
pub use numbers::{CallNo, SeatNo};
pub use path::Path;
