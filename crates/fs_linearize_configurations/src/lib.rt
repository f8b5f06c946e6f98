//! The configurations that the search for the commits of a history reaches, and how it gets from one to the next.
//!
//! A configuration says how many entries of the history have passed, which tree is there, and which calls have committed but
//! not returned. Enter at `layer::Layer`, which has all that were reached before one entry, each once. `widening::widen` adds
//! those that come of them by commits before that entry, and `passing::pass` makes the layer after it. A call that changes no
//! tree commits as soon as its reply fits. Any other commits only when a call returns that has not committed, and only if it
//! meets that call, or one that meets it, and so on (`meeting::near`). `walking::lead_through` plays the steps of a way, however they
//! were found, on one tree that changes in place.
//!
//! Each configuration has a way that leads to it. Of a way only its commits are kept, in one list that all ways share, and
//! `ways::steps_to` reads one back. `specs/code/Searching.antt` says what each of these functions adds; that this is enough is
//! a law of `fs_linearize_histories`. `fs_linearize` searches.
#![tactic(auto)]

pub mod chains;
pub mod committing;
pub mod configuration;
mod heard;
pub mod layer;
pub mod meeting;
mod numbers;
pub mod passing;
pub mod reached;
pub mod steps;
pub mod stopping;
pub mod under_way;
pub mod walking;
pub mod ways;
pub mod widening;
