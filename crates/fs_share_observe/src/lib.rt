//! Observers: readers of a tree that never wait, because each reads from a published list of calls.
//!
//! A `Publisher` keeps two copies of a sequential tree. It takes in calls one after the other, and `publish` shows its readers the tree
//! after all of them. A `Stamp` names the list that was published. An `Observer` answers from a list that was published, and from then on
//! from none that does not begin with it. The same holds after `learn` for a stamp's list. None of its calls uses the runtime, so none can
//! wait.
//!
//! Enter at `Publisher::open` and `Publisher::observer`. A publisher's lists are in `specs/Lists.antt`. What readers are shown, and what a
//! seat knows of it, is in `specs/Playing.antt`. `specs/History.antt`, `Observed` and `Tied` tie the copies to the history of the calls.
#![tactic(auto)]

mod history;
mod observer;
mod publisher;
mod shown;

pub use history::{Named, Opened};
pub use observer::{NoPlace, Observer, Stamp};
pub use publisher::Publisher;
