//! What is done between two events of a call.

use fs_core::Stepped;
use std::sync::Wait;
use std::time::Clock;

/// What a session's caller does after each event of a call, its begin excepted, with the core's lock let go.
pub trait Gate {
    /// The event answered this.
    fn after<R: Wait + Clock>(&self, rt: &R, stepped: &Stepped);
}

/// The gate that returns at once.
#[derive(Clone, Copy, Debug)]
pub struct Open;

impl Gate for Open {
    fn after<R: Wait + Clock>(&self, _rt: &R, _stepped: &Stepped) {}
}
