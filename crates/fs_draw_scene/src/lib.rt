//! What a picture shows: lanes, calls, and the marks of what they did, in order.
//!
//! A `Scene` is made from a run while it is played (`Strip`, `scene_of_run`) or from a journal (`scene_of_journal`): the whole, or a call
//! and those that overlap it. It has trees before and after their commits, from `fs_draw_sight`. `folded` leaves one mark of each wait.
//! `label_of` and its like give the words of a call as a picture shows them, cut if they are too long. That each function is safe and
//! ends is proved; what is in a scene is tested, with pictures.
#![tactic(auto)]

mod folding;
mod from_journal;
mod from_run;
mod labels;
mod overlap;
mod scene;
mod seat_names;

pub use folding::folded;
pub use from_journal::scene_of_journal;
pub use from_run::{Strip, scene_of_run};
pub use fs_draw_sight::{ARROW, ELLIPSIS, Leaf, Tree, When, push_apart, push_cut};
pub use labels::{Label, label_of, last_name, push_call_of, push_who};
pub use scene::{Card, Fault, Mark, Reported, Scene, What};
