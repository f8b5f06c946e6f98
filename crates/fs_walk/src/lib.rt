//! Walks with hand-over-hand locking: one head goes from the root along a path, or two heads of a call on two entries from a common
//! directory.
//!
//! A walk takes no lock and changes no store. `Walk::next` and `Fork::next` answer what it wants on the graph as it is now. It wants to
//! take a node or to let one go, or it has arrived, or it fails with an errno. The caller does that, and reports it with `took` and
//! `let_go`. No call allocates.
//!
//! Enter at `Walk::new` and `Walk::next`, for two heads at `Fork::new` and `Fork::next`; `find_path` goes along a path at once. In
//! `specs/`, `Ways` says where walks are, and what a take and a let go make of them, and `Wants` what they want next.
#![tactic(auto)]

pub mod find;
pub mod fork;
pub mod head;
mod names;
pub mod walk;
pub mod want;

pub use find::find_path;
pub use fork::Fork;
pub use head::{Head, Side};
pub use walk::Walk;
pub use want::Want;
