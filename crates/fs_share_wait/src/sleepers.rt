//! Who sleeps for which node, and whom a free node wakes.

ghost use Rattle.std.specs.Prelude.{◌≡◌, ℕ, ◌<◌, ◌%◌, Some, slice_get};
ghost use Rattle.fs_share_wait.specs.Sleeping.{Notes, Covers, one_more, less, woken_for, IsEnough, IsDue};

use fs_calls::NodeNo;
use std::marker::Model;

/// How many queues there are.
pub const QUEUES: usize = 64;

/// The threads that sleep in one queue, as far as they have not been woken.
#[derive(Clone, Copy, Debug, PartialEq, Eq)]
pub enum Queue {
    /// None sleeps.
    Empty,
    /// All sleep for this node, and there are at most so many.
    ForOne(NodeNo, u64),
    /// They sleep for any nodes of this queue.
    ForSeveral,
}

/// Whom a free node wakes.
#[derive(Clone, Copy, Debug, PartialEq, Eq)]
pub enum Wake {
    Nobody,
    /// One thread of the node's queue, whichever.
    One,
    /// Each thread of the node's queue.
    All,
}

/// Which queue the threads sleep in that wait for a node.
#[inline(always)]
pub fn queue_of(node: NodeNo) -> usize
    ensures number { result ≡ node % 64 }
    ensures bound { result < 64 }
{
    node.get() % QUEUES
}

impl Queue {
    /// The queue with one thread more, which sleeps for this node.
    pub fn joined(&self, node: NodeNo) -> Queue
        ensures { (other slept : ℕ) → Notes self.now other slept → Notes result other (one_more node other slept) }
    {
        match self {
            Queue::Empty => Queue::ForOne(node, 1),
            Queue::ForOne(before, most) if *before == node && *most < u64::MAX => {
                Queue::ForOne(node, *most + 1)
            }
            _ => Queue::ForSeveral,
        }
    }

    /// Whom a free node of the queue wakes, and the queue after that.
    pub fn woken(&self, node: NodeNo) -> (Wake, Queue)
        ensures due { IsDue result.0 self.now node }
        ensures enough { (other slept : ℕ) → Notes self.now other slept → IsEnough result.0 node other slept }
        ensures left { (other slept : ℕ) → Notes self.now other slept → Notes result.1 other (less result.0 node other slept) }
    {
        match self {
            Queue::ForOne(before, most) if *before == node => {
                let left = if *most > 1 {
                    Queue::ForOne(node, *most - 1)
                } else {
                    Queue::Empty
                };
                (Wake::One, left)
            }
            Queue::ForSeveral => (Wake::All, Queue::Empty),
            _ => (Wake::Nobody, *self),
        }
    }
}

/// For which nodes threads sleep that have not been woken. Contracts see the queues, in the order of their numbers.
#[derive(Drop)]
pub struct Sleepers {
    queues: [Queue; QUEUES],
}

impl Model for Sleepers {
    ghost use Rattle.std.specs.Prelude.{List};
    ghost use Rattle.fs_share_wait.specs.declared.sleepers.Queue.{Queue};

    ghost Value = { List Queue };

    ghost view = { λ s. s.queues };
}

impl Sleepers {
    /// Nobody sleeps.
    pub fn new() -> Sleepers
        ensures { Covers result (λ node. 0) }
    {
        Sleepers {
            queues: [Queue::Empty; QUEUES],
        }
    }

    /// A thread goes to sleep for a node.
    pub fn sleep(&mut self, node: NodeNo)
        ensures { (sleeping : ℕ → ℕ) → Covers self.old sleeping → Covers self.new (λ other. one_more node other (sleeping other)) }
    {
        let queue = queue_of(node);
        self.queues[queue] = self.queues[queue].joined(node);
    }

    /// Whom a free node wakes. The caller wakes them before anybody else comes to the queues.
    pub fn wake(&mut self, node: NodeNo) -> Wake
        ensures due { (queue : Queue) → slice_get self.old (node % 64) ≡ Some queue → IsDue result queue node }
        ensures enough { (sleeping : ℕ → ℕ) → Covers self.old sleeping → (other : ℕ) → other % 64 ≡ node % 64 → IsEnough result node other (sleeping other) }
        ensures left { (sleeping : ℕ → ℕ) → Covers self.old sleeping → Covers self.new (woken_for result node sleeping) }
    {
        let queue = queue_of(node);
        let (wake, left) = self.queues[queue].woken(node);
        self.queues[queue] = left;
        wake
    }
}
