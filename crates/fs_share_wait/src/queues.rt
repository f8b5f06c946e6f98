//! Where threads sleep for nodes.

use crate::sleepers::{QUEUES, Wake, queue_of};
use fs_calls::NodeNo;
use std::array;
use std::sync::Condvar;

/// A condition variable for each queue.
#[derive(Drop)]
pub struct WaitQueues {
    conditions: [Condvar; QUEUES],
}

impl WaitQueues {
    /// Queues in which nobody sleeps.
    pub fn new() -> WaitQueues {
        WaitQueues {
            conditions: array::from_fn(|_| Condvar::new()),
        }
    }

    /// Where the threads sleep that wait for a node.
    pub fn of(&self, node: NodeNo) -> &Condvar {
        &self.conditions[queue_of(node)]
    }

    /// Wakes those who are to be woken by a node.
    pub fn wake(&self, node: NodeNo, wake: Wake) {
        match wake {
            Wake::Nobody => {}
            Wake::One => self.of(node).notify_one(),
            Wake::All => self.of(node).notify_all(),
        }
    }
}
