//! The calls that change nothing: they answer what is at a path.

ghost use Rattle.std.specs.Prelude.{◌≡◌, ◌≢◌, ◌≤◌, ◌+◌, ◌-◌, ◌*◌, ◌++◌, length, Some, MatchResult, IfOk, OnOk, OnErr, IsTrue, min, map, take, drop};
ghost use Rattle.std.specs.FinMap.{is_sorted};
ghost use Rattle.fs_names.specs.Names.{name_cmp, names_above};
ghost use Rattle.fs_names.specs.Keys.{last_of};
ghost use Rattle.fs_names.specs.declared.limits.Limits.{Limits};
ghost use Rattle.fs_names.specs.declared.name_list.TheConstants.{NAME_TEXT};
ghost use Rattle.fs_names.specs.declared.limits.Limits.TheVariants.{V1};
ghost use Rattle.fs_calls.specs.Outcomes.{reply};
ghost use Rattle.fs_calls.specs.Sights.{has_any, bytes_of};
ghost use Rattle.fs_calls.specs.code.Targets.{node_call};
ghost use Rattle.fs_seq_nodes.specs.code.Nodes.{graph, pairs, place};
ghost use Rattle.fs_seq_nodes.specs.code.Slots.{IsForest, links_of, shape_of, tree_of};
ghost use Rattle.fs_seq.specs.Memory.{needs_memory};
ghost use Rattle.fs_seq.specs.code.Effects.{IsFound, NeedsMemory, node_error};

use fs_calls::{Bytes, Call, Errno, NameList, NodeCall, Reply};
use fs_memory::Memory;
use fs_names::{Kind, LIST_LIMIT, Limits, NameRoom, Path};
use fs_seq_nodes::nodes::resolve;
use fs_seq_nodes::{Link, Node};
use slab::Slab;
use std::alloc::{AllocError, Global};

/// The node on which a call works at a path, or the call's first error. No limit decides an error here.
fn find<'a>(nodes: &'a Slab<Node>, path: &Path, call: NodeCall<'_>) -> Result<&'a Node, Errno>
    requires { IsForest (graph nodes.now) }
    ensures { MatchResult result
        (λ node. IsFound (tree_of (graph nodes.now)) (node_call V1 call.entry) path.now (place node.now))
        (λ e. node_error (tree_of (graph nodes.now)) (node_call V1 call.entry) path.now ≡ Some e) }
{
    let at = match resolve(nodes, path, path.len()) {
        Ok(at) => at,
        Err(errno) => return Err(errno),
    };
    let node = &nodes[at];
    match call.error(Limits::V1, node.sight()) {
        Some(errno) => Err(errno),
        None => Ok(node),
    }
}

/// The kind of a node and its size.
pub fn stat(nodes: &Slab<Node>, path: &Path) -> Reply
    requires { IsForest (graph nodes.now) }
    ensures { (limits : Limits) → result ≡ reply limits (tree_of (graph nodes.now)) (Call.Stat path.now) }
{
    match find(nodes, path, NodeCall::Stat) {
        Err(errno) => Reply::Failed(errno),
        Ok(Node::Dir(links)) => Reply::Stat(Kind::Dir, links.len() as u64),
        Ok(Node::File(file)) => Reply::Stat(Kind::File, file.len() as u64),
    }
}

/// Adds the names of links, for which there is room.
fn push_names(names: &mut NameRoom, links: &[Link])
    requires { length links.now * NAME_TEXT ≤ names.old.room }
    ensures names { names.new.names ≡ names.old.names ++ map (λ l. l.0) (pairs links.now) }
    ensures room { names.old.room ≤ names.new.room + length links.now * NAME_TEXT }
{
    for link in links {
        names.push_reserved(link.name.name());
    }
}

/// The names of a directory's entries from a place on up to another, no more than a call answers, in their order.
fn names_of(
    alloc: Global,
    memory: &mut Memory,
    node: &Node,
    from: usize,
    end: usize,
) -> Result<NameList, AllocError>
    requires from { from ≤ end }
    requires end { end ≤ length (links_of (Some (place node.now))) }
    requires most { end - from ≤ LIST_LIMIT }
    ensures ok { IfOk result (λ names. names ≡ take (end - from) (drop from (map (λ l. l.0) (links_of (Some (place node.now)))))) }
    ensures memory { OnErr result (IsTrue (has_any (take (end - from) (drop from (map (λ l. l.0) (links_of (Some (place node.now)))))))) }
    ensures granted { OnOk result (memory.new ≡ memory.old) }
    ensures refused { OnErr result (memory.new ≢ memory.old) }
{
    let mut names = NameRoom::for_names(alloc, memory, end - from)?;
    let mut at = from;
    while at < end {
        let links = node.from(at);
        let links = &links[..links.len().min(end - at)];
        push_names(&mut names, links);
        at += links.len();
    }
    Ok(names.into_list())
}

/// All names of a directory, in byte order, where they are no more than a call answers.
pub fn readdir(
    alloc: Global,
    memory: &mut Memory,
    nodes: &Slab<Node>,
    path: &Path,
) -> Result<Reply, AllocError>
    requires { IsForest (graph nodes.now) }
    ensures reply { IfOk result (λ r. (limits : Limits) → r ≡ reply limits (tree_of (graph nodes.now)) (Call.Readdir path.now)) }
    ensures memory { OnErr result (NeedsMemory (tree_of (graph nodes.now)) (Call.Readdir path.now)) }
    ensures granted { OnOk result (memory.new ≡ memory.old) }
    ensures refused { OnErr result (memory.new ≢ memory.old) }
{
    match find(nodes, path, NodeCall::Readdir) {
        Err(errno) => Ok(Reply::Failed(errno)),
        Ok(node) => {
            let names = names_of(alloc, memory, node, 0, node.entries())?;
            Ok(Reply::Names(names))
        }
    }
}

/// The entries whose names a list returns: those above a path's last name, and no more than a count. It answers the place of the first,
/// and the one after the last.
fn piece(node: &Node, after: &Path, count: u32) -> (usize, usize)
    requires { IsTrue (is_sorted name_cmp (links_of (Some (place node.now)))) }
    ensures from { result.0 ≤ result.1 }
    ensures end { result.1 ≤ length (links_of (Some (place node.now))) }
    ensures most { result.1 - result.0 ≤ LIST_LIMIT }
    ensures names { take (result.1 - result.0) (drop result.0 (map (λ l. l.0) (links_of (Some (place node.now))))) ≡ take (min count LIST_LIMIT) (names_above (last_of after.now) (map (λ l. l.0) (links_of (Some (place node.now))))) }
{
    let from = node.above(after.last_bytes());
    let most = (count as usize).min(LIST_LIMIT);
    (from, from + most.min(node.entries() - from))
}

/// Names of a directory above a path's last name, in byte order, and no more than a count.
pub fn list(
    alloc: Global,
    memory: &mut Memory,
    nodes: &Slab<Node>,
    path: &Path,
    after: &Path,
    count: u32,
) -> Result<Reply, AllocError>
    requires { IsForest (graph nodes.now) }
    ensures reply { IfOk result (λ r. (limits : Limits) → r ≡ reply limits (tree_of (graph nodes.now)) (Call.ListAfter count path.now after.now)) }
    ensures memory { OnErr result (NeedsMemory (tree_of (graph nodes.now)) (Call.ListAfter count path.now after.now)) }
    ensures granted { OnOk result (memory.new ≡ memory.old) }
    ensures refused { OnErr result (memory.new ≢ memory.old) }
{
    match find(nodes, path, NodeCall::ListAfter(after, count)) {
        Err(errno) => Ok(Reply::Failed(errno)),
        Ok(node) => {
            let (from, end) = piece(node, after, count);
            let names = names_of(alloc, memory, node, from, end)?;
            Ok(Reply::Names(names))
        }
    }
}

/// The bytes of a node from an offset on, and no more than a count, in exactly as much memory.
fn copied(
    alloc: Global,
    memory: &mut Memory,
    node: &Node,
    off: u64,
    count: u64,
) -> Result<Bytes, AllocError>
    ensures ok { IfOk result (λ copy. copy ≡ take count (drop off (bytes_of (shape_of (Some (place node.now)))))) }
    ensures memory { OnErr result (IsTrue (has_any (take count (drop off (bytes_of (shape_of (Some (place node.now)))))))) }
    ensures granted { OnOk result (memory.new ≡ memory.old) }
    ensures refused { OnErr result (memory.new ≢ memory.old) }
{
    let behind = (node.len() as u64).saturating_sub(off);
    let mut copy = memory.with_room(alloc, behind.min(count) as usize)?;
    node.read(off, count, &mut copy);
    Ok(Bytes::new(copy))
}

/// The bytes of a file from an offset on, no more than a count, and no more than a read answers by these limits.
pub fn read(
    alloc: Global,
    memory: &mut Memory,
    nodes: &Slab<Node>,
    path: &Path,
    off: u64,
    count: u64,
    limits: Limits,
) -> Result<Reply, AllocError>
    requires { IsForest (graph nodes.now) }
    ensures reply { IfOk result (λ r. r ≡ reply limits (tree_of (graph nodes.now)) (Call.Read path.now off count)) }
    ensures memory { OnErr result (IsTrue (needs_memory limits (tree_of (graph nodes.now)) (Call.Read path.now off count))) }
    ensures granted { OnOk result (memory.new ≡ memory.old) }
    ensures refused { OnErr result (memory.new ≢ memory.old) }
{
    match find(nodes, path, NodeCall::Read(off, count)) {
        Err(errno) => Ok(Reply::Failed(errno)),
        Ok(node) => {
            let most = count.min(limits.read() as u64);
            let copy = copied(alloc, memory, node, off, most)?;
            Ok(Reply::Bytes(copy))
        }
    }
}
