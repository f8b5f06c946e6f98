//! Sleepers in use: who sleeps, and whom a free node wakes.

use anyhow::{Result, ensure};
use fs_nodes::NodeNo;
use fs_share_wait::{QUEUES, Sleepers, Wake};

/// Threads that sleep for one node are woken one by one, and by no other node of their queue.
fn one_by_one(sleepers: &mut Sleepers, node: NodeNo, other: NodeNo) -> Result<()> {
    sleepers.sleep(node);
    sleepers.sleep(node);
    ensure!(sleepers.wake(other) == Wake::Nobody, "another node");
    ensure!(sleepers.wake(node) == Wake::One, "the first of two");
    ensure!(sleepers.wake(node) == Wake::One, "the last");
    ensure!(sleepers.wake(node) == Wake::Nobody, "nobody left");
    Ok(())
}

/// Threads that sleep in one queue for several nodes are woken together.
fn together(sleepers: &mut Sleepers, node: NodeNo, other: NodeNo) -> Result<()> {
    sleepers.sleep(node);
    sleepers.sleep(other);
    ensure!(sleepers.wake(other) == Wake::All, "both");
    ensure!(sleepers.wake(node) == Wake::Nobody, "nobody left");
    Ok(())
}

/// Notes sleepers as a shared tree does.
pub fn use_sleepers() -> Result<()> {
    let mut sleepers = Sleepers::new();
    let (node, other) = (NodeNo::new(1), NodeNo::new(1 + QUEUES));
    one_by_one(&mut sleepers, node, other)?;
    together(&mut sleepers, node, other)
}
