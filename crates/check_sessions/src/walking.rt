//! Whether the nodes of a store are those of a sequential tree, by a walk over both.

use crate::calls::{is_lawful, path};
use fs_calls::{Call, Reply};
use fs_names::{CallNo, Kind, Limits, Name};
use fs_nodes::{NodeNo, Store};
use fs_seq::SeqTree;
use fs_share::Closed;
use fs_timeline::Entry;
use std::alloc::Global;

/// How many nodes are compared at the most.
const MOST_NODES: u32 = 10_000;

/// Plays a call by its number, from 1 on.
fn apply(alloc: Global, tree: &mut SeqTree, calls: &[&Call], number: CallNo) -> Option<()> {
    let place = (number.get() as usize).checked_sub(1)?;
    let call = calls.get(place)?;
    tree.apply(alloc, call).is_ok().then_some(())
}

/// Plays all commits of a timeline whose calls are numbered in the order of their begins.
fn play(alloc: Global, tree: &mut SeqTree, entries: &[Entry]) -> Option<()> {
    let mut calls = Vec::new(alloc);
    for entry in entries {
        match entry {
            Entry::Begin(_, _, call) => calls.push(call).ok()?,
            Entry::Commit(number) => apply(alloc, tree, &calls, *number)?,
            _ => {}
        }
    }
    Some(())
}

/// A node that is to be compared, and the text of its path, empty for the root.
#[derive(Drop)]
struct Place {
    node: NodeNo,
    text: Vec<u8>,
}

fn entry(alloc: Global, dir: &[u8], name: &Name, node: NodeNo) -> Option<Place> {
    let mut text = Vec::new(alloc);
    text.extend_from_slice(dir).ok()?;
    text.push(b'/').ok()?;
    text.extend_from_slice(name.bytes()).ok()?;
    Some(Place { node, text })
}

/// Puts the entries of a directory on the stack.
fn add_entries(alloc: Global, store: &Store, dir: &Place, stack: &mut Vec<Place>) -> Option<()> {
    let mut low: Option<&Name> = None;
    for _ in 0..=store.entries(dir.node) {
        if !store.is_used(dir.node) || !store.is_dir(dir.node) {
            return None;
        }
        let Some(next) = store.next_name(dir.node, low) else {
            return Some(());
        };
        stack.push(entry(alloc, &dir.text, next.0, next.1)?).ok()?;
        low = Some(next.0);
    }
    None
}

fn call(alloc: Global, at: &Place, reads: bool) -> Option<Call> {
    let text: &[u8] = if at.text.is_empty() { b"/" } else { &at.text };
    let path = path(alloc, text)?;
    Some(if reads {
        Call::Read(path, 0, Limits::V2.file() as u64)
    } else {
        Call::Stat(path)
    })
}

/// What the tree replies at a place.
fn reply(alloc: Global, tree: &mut SeqTree, at: &Place, reads: bool) -> Option<Reply> {
    tree.apply(alloc, &call(alloc, at, reads)?).ok()
}

/// The bytes of a file, again.
fn content(alloc: Global, store: &Store, file: NodeNo) -> Option<Vec<u8>> {
    let count = store.len(file);
    let mut bytes = Vec::with_capacity(alloc, count).ok()?;
    store.read(file, 0, count as u64, &mut bytes);
    Some(bytes)
}

/// Whether a reply has these bytes.
fn is_content(reply: Reply, content: &[u8]) -> bool {
    match reply {
        Reply::Bytes(bytes) => bytes.as_slice() == content,
        _ => false,
    }
}

/// Whether both have a directory with as many entries, which come on the stack, or a file of the same bytes.
fn agrees_at(
    alloc: Global,
    store: &Store,
    tree: &mut SeqTree,
    at: &Place,
    stack: &mut Vec<Place>,
) -> Option<bool> {
    if !store.is_used(at.node) {
        return Some(false);
    }
    if store.is_file(at.node) {
        let content = content(alloc, store, at.node)?;
        return Some(is_content(reply(alloc, tree, at, true)?, &content));
    }
    if !store.is_dir(at.node) {
        return Some(false);
    }
    add_entries(alloc, store, at, stack)?;
    let count = store.entries(at.node);
    let reply = reply(alloc, tree, at, false)?;
    Some(matches!(reply, Reply::Stat(Kind::Dir, size) if size == count as u64))
}

/// Whether they agree at each place on the stack, and below.
fn agree_below(
    alloc: Global,
    store: &Store,
    tree: &mut SeqTree,
    stack: &mut Vec<Place>,
) -> Option<bool> {
    for _ in 0..MOST_NODES {
        let Some(at) = stack.pop() else {
            return Some(true);
        };
        if !agrees_at(alloc, store, tree, &at, stack)? {
            return Some(false);
        }
    }
    Some(false)
}

/// Whether both have the same names, kinds and bytes, from the root on.
fn same(alloc: Global, store: &Store, tree: &mut SeqTree) -> Option<bool> {
    let root = Place {
        node: NodeNo::new(0),
        text: Vec::new(alloc),
    };
    let mut stack = vec![in alloc; root].ok()?;
    agree_below(alloc, store, tree, &mut stack)
}

/// Whether the nodes that a run leaves are those of a tree that plays its commits.
fn is_left(alloc: Global, closed: &Closed, tree: &mut SeqTree) -> Option<bool> {
    play(alloc, tree, closed.timeline.entries())?;
    same(alloc, &closed.store, tree)
}

/// Whether a run's timeline is lawful, and the nodes that it leaves are those of a sequential tree that played its commits.
pub fn is_played(alloc: Global, closed: &Closed) -> Option<bool> {
    let entries = closed.timeline.entries();
    if !is_lawful(alloc, entries)? {
        return Some(false);
    }
    let mut tree = SeqTree::new(alloc).ok()?;
    is_left(alloc, closed, &mut tree)
}
