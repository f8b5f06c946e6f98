//! How the threads of a shared tree wait: for the lock, and for a node that a call holds.
//!
//! A thread tries a `Lock` some times before it sleeps for it. Threads that sleep for nodes sleep in `WaitQueues`, each node's in the
//! queue that its number gives. `Sleepers`, which lies under the lock, notes for which nodes threads sleep, and says whom a node wakes
//! when it is free. It wakes one thread if all of the queue sleep for this node, since only one can take it. It wakes all if the queue has
//! threads for several nodes, and else nobody. So a thread is woken by a node that it does not wait for only if two nodes share a queue.
//! No thread that sleeps for a free node is left out (`Sleepers::wake`). The library for C keeps the queues itself (`Queue::woken`).
//!
//! Enter at `Lock` and `Sleepers`. `specs/Sleeping.antt` defines what is noted, and what a wake-up leaves. No progress, fairness or end is
//! claimed of running threads.
#![tactic(auto)]

mod lock;
mod queues;
mod sleepers;

pub use lock::Lock;
pub use queues::WaitQueues;
pub use sleepers::{QUEUES, Queue, Sleepers, Wake, queue_of};
