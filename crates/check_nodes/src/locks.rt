//! Holders and held nodes in use: each call of them, with the answer that is wanted.

use anyhow::{Result, ensure};
use fs_locks::{CALL_LIMIT, Held, HeldBy, Holders};
use fs_names::CallNo;
use fs_nodes::NodeNo;
use std::alloc::Global;

/// None where the call may not be made.
fn take(holders: &mut Holders, node: NodeNo, call: CallNo) -> Option<Result<(), HeldBy>> {
    if node.get() >= holders.room()
        || holders.holder(node) == Some(call)
        || call.get() >= CALL_LIMIT
    {
        return None;
    }
    Some(holders.take(node, call))
}

/// Room for two nodes, which less room does not change.
fn make_room(holders: &mut Holders) -> Result<()> {
    ensure!(holders.room() == 0, "no room at first");
    holders.make_room(2)?;
    holders.make_room(1)?;
    ensure!(holders.room() == 2, "room for two");
    Ok(())
}

/// A free node is taken by the first call, and not by the second.
fn take_once(holders: &mut Holders, node: NodeNo, first: CallNo, second: CallNo) -> Result<()> {
    ensure!(holders.holder(node).is_none(), "no holder");
    let taken = take(holders, node, first);
    ensure!(taken == Some(Ok(())), "the node taken");
    let taken = take(holders, node, second);
    ensure!(taken == Some(Err(HeldBy(first))), "the call that holds it");
    ensure!(holders.holder(node) == Some(first), "the same holder");
    Ok(())
}

/// A node is held by one call, and by another once it was let go.
fn one_holder_at_a_time(holders: &mut Holders) -> Result<()> {
    let node = NodeNo::new(1);
    let (first, second) = (CallNo::new(7), CallNo::new(8));
    make_room(holders)?;
    take_once(holders, node, first, second)?;
    ensure!(holders.holder(node).is_some(), "a holder");
    holders.let_go(node);
    let taken = take(holders, node, second);
    ensure!(taken == Some(Ok(())), "the node taken again");
    let beyond = holders.holder(NodeNo::new(2));
    ensure!(beyond.is_none(), "no holder beyond the room");
    Ok(())
}

/// The first call that there is and the last but one take a node each.
fn take_both(holders: &mut Holders, least: CallNo, greatest: CallNo) -> Result<()> {
    let (root, node) = (NodeNo::new(0), NodeNo::new(1));
    let taken = take(holders, root, least);
    ensure!(taken == Some(Ok(())), "the root taken");
    let taken = take(holders, node, greatest);
    ensure!(taken == Some(Ok(())), "the node taken");
    ensure!(holders.holder(root) == Some(least), "the root's holder");
    ensure!(holders.holder(node) == Some(greatest), "the node's holder");
    Ok(())
}

/// Each call but the one with the greatest number can hold a node.
fn all_calls_but_the_last_can_hold(holders: &mut Holders) -> Result<()> {
    let root = NodeNo::new(0);
    let (least, greatest) = (CallNo::new(0), CallNo::new(u64::MAX - 1));
    holders.make_room(2)?;
    take_both(holders, least, greatest)?;
    let taken = take(holders, root, greatest);
    ensure!(taken == Some(Err(HeldBy(least))), "the least call holds it");
    let taken = take(holders, root, CallNo::new(u64::MAX));
    ensure!(taken.is_none(), "no take of the last call");
    Ok(())
}

/// Three nodes, in the order taken.
fn three_nodes(held: &mut Held, nodes: [NodeNo; 3]) -> Result<()> {
    let [first, second, third] = nodes;
    ensure!(held.len() == 0 && held.first().is_none(), "no first node");
    held.push(first);
    held.push(second);
    held.push(third);
    ensure!(held.len() == 3, "three nodes");
    ensure!(held.first() == Some(first), "the first node");
    ensure!(held.last() == Some(third), "the last node");
    ensure!(held.as_slice() == nodes.as_slice(), "the nodes");
    Ok(())
}

/// Nodes are taken out from the last to the first.
fn nodes_in_the_order_taken(held: &mut Held) -> Result<()> {
    let (a, b, c) = (NodeNo::new(5), NodeNo::new(0), NodeNo::new(9));
    three_nodes(held, [a, b, c])?;
    ensure!(held.pop() == Some(c), "the last one out");
    ensure!(held.pop() == Some(b), "the one before it");
    ensure!(held.pop() == Some(a), "the first one");
    ensure!(held.pop().is_none(), "no node is left");
    Ok(())
}

/// All of them in use.
pub fn use_locks(alloc: Global) -> Result<()> {
    one_holder_at_a_time(&mut Holders::new(alloc))?;
    all_calls_but_the_last_can_hold(&mut Holders::new(alloc))?;
    nodes_in_the_order_taken(&mut Held::new())
}
