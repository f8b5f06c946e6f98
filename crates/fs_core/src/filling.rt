//! A store that is filled from the rows of a tree.

ghost use Rattle.std.specs.Prelude.{◌≡◌, ◌≢◌, ◌≤◌, ◌<◌, ◌+◌, ℕ, None, length, IsTrue, IsFalse, IfOk, OnOk, Err};
ghost use Rattle.fs_nodes.specs.Graphs.{numbers, reserved_in};
ghost use Rattle.fs_nodes.specs.Seen.{seen};
ghost use Rattle.fs_nodes.specs.Stores.{graph_of, child, shape, in_use, IsUnlinked};
ghost use Rattle.fs_names.specs.Limits.{in_blocks};
ghost use Rattle.fs_names.specs.Shapes.{File};
ghost use Rattle.fs_names.specs.declared.limits.TheConstants.{NODE_LIMIT};
ghost use Rattle.fs_seq.specs.Rows.{IsWithinLimits};
ghost use Rattle.fs_locks.specs.Holding.{holder, room};
ghost use Rattle.fs_machine.specs.States.{IsStart};
ghost use Rattle.fs_core.specs.code.Filling.{shape_of_row, CanAdd, IsAdded};
ghost use Rattle.fs_core_seats.specs.code.Searches.{AreBelow};

use fs_blocks::Spare;
use fs_locks::Holders;
use fs_memory::Memory;
use fs_names::{Kind, Name};
use fs_nodes::{NoNode, NodeNo, Store};
use fs_seq::{Row, SeqTree};
use std::alloc::Global;

/// The node to which names lead from the root.
fn reached(store: &Store, names: &[Name]) -> Option<NodeNo>
    ensures { result ≡ numbers (graph_of store.now) names.now }
{
    let mut node = NodeNo::ROOT;
    for name in names {
        match store.find(node, name) {
            Some(next) => node = next,
            None => return None,
        }
    }
    Some(node)
}

/// A new file in one vector with these bytes, which no entry names.
fn new_vector(store: &mut Store, bytes: &Vec<u8>) -> Result<NodeNo, NoNode>
    requires form { IsFalse (seen store.old).in_blocks }
    ensures free { IfOk result (λ node. shape store.old node ≡ None) }
    ensures unlinked { IfOk result (λ node. IsUnlinked (child store.old) node) }
    ensures within { IfOk result (λ node. node < (seen store.old).limit) }
    ensures not_root { IfOk result (λ node. node ≢ 0) }
    ensures graph { IfOk result (λ node. graph_of store.new ≡ reserved_in node (File bytes.now.items) (graph_of store.old)) }
    ensures limit { OnOk result ((seen store.new).limit ≡ (seen store.old).limit) }
    ensures form { OnOk result ((seen store.new).in_blocks ≡ (seen store.old).in_blocks) }
    ensures full { result ≡ Err NoNode.Full → in_use store.old ≡ (seen store.old).limit }
{
    let Ok(copy) = Vec::from_slice(*bytes.allocator(), bytes) else {
        return Err(NoNode::OutOfMemory);
    };
    let node = store.reserve(Kind::File)?;
    store.swap_content(node, copy);
    Ok(node)
}

/// The same of a file in blocks.
fn new_blocks(store: &mut Store, bytes: &Vec<u8>) -> Result<NodeNo, NoNode>
    requires form { IsTrue (seen store.old).in_blocks }
    ensures free { IfOk result (λ node. shape store.old node ≡ None) }
    ensures unlinked { IfOk result (λ node. IsUnlinked (child store.old) node) }
    ensures within { IfOk result (λ node. node < (seen store.old).limit) }
    ensures not_root { IfOk result (λ node. node ≢ 0) }
    ensures graph { IfOk result (λ node. graph_of store.new ≡ reserved_in node (File bytes.now.items) (graph_of store.old)) }
    ensures limit { OnOk result ((seen store.new).limit ≡ (seen store.old).limit) }
    ensures form { OnOk result ((seen store.new).in_blocks ≡ (seen store.old).in_blocks) }
    ensures full { result ≡ Err NoNode.Full → in_use store.old ≡ (seen store.old).limit }
{
    let (alloc, count) = (*bytes.allocator(), bytes.len());
    let Ok(spare) = Spare::for_write(alloc, &mut Memory::new(), 0, count) else {
        return Err(NoNode::OutOfMemory);
    };
    let node = store.reserve(Kind::File)?;
    if count > 0 {
        store.write(node, 0, bytes, spare);
    }
    Ok(node)
}

/// A new file with these bytes, which no entry names.
fn new_file(store: &mut Store, bytes: &Vec<u8>) -> Result<NodeNo, NoNode>
    ensures free { IfOk result (λ node. shape store.old node ≡ None) }
    ensures unlinked { IfOk result (λ node. IsUnlinked (child store.old) node) }
    ensures within { IfOk result (λ node. node < (seen store.old).limit) }
    ensures not_root { IfOk result (λ node. node ≢ 0) }
    ensures graph { IfOk result (λ node. graph_of store.new ≡ reserved_in node (File bytes.now.items) (graph_of store.old)) }
    ensures limit { OnOk result ((seen store.new).limit ≡ (seen store.old).limit) }
    ensures form { OnOk result ((seen store.new).in_blocks ≡ (seen store.old).in_blocks) }
    ensures full { result ≡ Err NoNode.Full → in_use store.old ≡ (seen store.old).limit }
{
    if store.is_in_blocks() {
        return new_blocks(store, bytes);
    }
    new_vector(store, bytes)
}

/// The node of a row, which no entry names yet.
fn new_node(store: &mut Store, row: &Row) -> Result<NodeNo, NoNode>
    ensures free { IfOk result (λ node. shape store.old node ≡ None) }
    ensures unlinked { IfOk result (λ node. IsUnlinked (child store.old) node) }
    ensures within { IfOk result (λ node. node < (seen store.old).limit) }
    ensures not_root { IfOk result (λ node. node ≢ 0) }
    ensures graph { IfOk result (λ node. graph_of store.new ≡ reserved_in node (shape_of_row row.now) (graph_of store.old)) }
    ensures limit { OnOk result ((seen store.new).limit ≡ (seen store.old).limit) }
    ensures form { OnOk result ((seen store.new).in_blocks ≡ (seen store.old).in_blocks) }
    ensures full { result ≡ Err NoNode.Full → in_use store.old ≡ (seen store.old).limit }
{
    match row.kind {
        Kind::Dir => store.reserve(Kind::Dir),
        Kind::File => new_file(store, &row.bytes),
    }
}

/// Adds the node of a row, with its entry.
fn add_node(store: &mut Store, row: &Row) -> Result<NodeNo, NoNode>
    requires can { CanAdd (graph_of store.old) row.now }
    ensures added { IfOk result (λ node. IsAdded (seen store.old).limit (graph_of store.old) (graph_of store.new) row.now node) }
    ensures limit { OnOk result ((seen store.new).limit ≡ (seen store.old).limit) }
    ensures form { OnOk result ((seen store.new).in_blocks ≡ (seen store.old).in_blocks) }
    ensures full { result ≡ Err NoNode.Full → in_use store.old ≡ (seen store.old).limit }
{
    let Some((name, above)) = row.key.split_last() else {
        unreachable!();
    };
    let Ok(copy) = name.copy() else {
        return Err(NoNode::OutOfMemory);
    };
    let dir = reached(store, above).unwrap();
    let node = new_node(store, row)?;
    store.link(dir, copy, node);
    Ok(node)
}

/// Adds the node of a row, with its entry and room for who holds it.
fn add_row(store: &mut Store, holders: &mut Holders, row: &Row) -> Result<(), NoNode>
    requires can { CanAdd (graph_of store.old) row.now }
    requires limit { (seen store.old).limit ≤ NODE_LIMIT }
    ensures added { OnOk result ((node : ℕ) × IsAdded (seen store.old).limit (graph_of store.old) (graph_of store.new) row.now node × (node < room holders.new)) }
    ensures more { OnOk result (room holders.old ≤ room holders.new) }
    ensures holders { OnOk result (holder holders.new ≡ holder holders.old) }
    ensures limit { OnOk result ((seen store.new).limit ≡ (seen store.old).limit) }
    ensures form { OnOk result ((seen store.new).in_blocks ≡ (seen store.old).in_blocks) }
    ensures full { result ≡ Err NoNode.Full → in_use store.old ≡ (seen store.old).limit }
{
    let node = add_node(store, row)?;
    match holders.make_room(node.get() + 1) {
        Ok(()) => Ok(()),
        Err(_) => Err(NoNode::OutOfMemory),
    }
}

/// A store of the nodes of a tree, with room for who holds them.
pub fn filled(alloc: Global, start: &SeqTree, limit: usize) -> Result<(Store, Holders), NoNode>
    requires least { 1 ≤ limit }
    requires most { limit ≤ NODE_LIMIT }
    requires within { IsWithinLimits start.now.limits start.now.tree }
    ensures start { IfOk result (λ made. IsStart limit start.now (graph_of made.0)) }
    ensures limit { IfOk result (λ made. (seen made.0).limit ≡ limit) }
    ensures form { IfOk result (λ made. (seen made.0).in_blocks ≡ in_blocks start.now.limits) }
    ensures holders { IfOk result (λ made. holder made.1 ≡ λ n. None) }
    ensures room { IfOk result (λ made. AreBelow (graph_of made.0) (room made.1)) }
    ensures few { OnOk result (length start.now.tree ≤ limit) }
    ensures full { result ≡ Err NoNode.Full → limit < length start.now.tree }
{
    let Ok(rows) = start.rows(alloc) else {
        return Err(NoNode::OutOfMemory);
    };
    let Ok(mut store) = Store::with_form(alloc, limit, start.limits().in_blocks()) else {
        return Err(NoNode::OutOfMemory);
    };
    let mut holders = Holders::new(alloc);
    let Ok(()) = holders.make_room(1) else {
        return Err(NoNode::OutOfMemory);
    };
    for i in 1..rows.len() {
        add_row(&mut store, &mut holders, &rows[i])?;
    }
    Ok((store, holders))
}
