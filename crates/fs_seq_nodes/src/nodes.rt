//! Nodes in a slab, walks along names, and the entries of directories.

ghost use Rattle.std.specs.Prelude.{◌≡◌, ◌≢◌, ◌<◌, ◌≤◌, ◌+◌, ◌-◌, ◌++◌, Some, IfSome, IsTrue, OnOk, OnErr, length, map, take, drop, insert, remove, vec_len, vec_capacity};
ghost use Rattle.std.specs.FinMap.{is_sorted};
ghost use Rattle.slab.specs.Slab.{ContainsKey, HasRoomFor};
ghost use Rattle.fs_names.specs.Names.{name_cmp, names_above};
ghost use Rattle.fs_calls.specs.Sights.{bytes_of};
ghost use Rattle.fs_calls.specs.code.Seen.{sight};
ghost use Rattle.fs_seq_nodes.specs.code.Nodes.{pair, pairs, place, graph, Searches, Steps, Resolves, LooksUp, number_there, shape_there, place_there, entry_there, full_there};
ghost use Rattle.fs_seq_nodes.specs.code.Lists.{Bisects, IsCut};
ghost use Rattle.fs_seq_nodes.specs.code.Slots.{IsForest, Sets, Attaches, place_at, links_at, links_of, shape_at, shape_of, Dir as IsDir};

use crate::held_name::HeldName;
use crate::links::Links;
use fs_blocks::File;
use fs_calls::ranges::is_full;
use fs_calls::rows::step_error;
use fs_calls::{Errno, Sight};
use fs_memory::Memory;
use fs_names::{Name, Path};
use slab::Slab;
use std::alloc::{AllocError, Global};

/// An entry of a directory: its name, and the number of its node.
#[derive(Drop)]
pub struct Link {
    pub name: HeldName,
    pub node: usize,
}

/// An entry at its place: the number of its directory, its place there, and the number of its node.
#[derive(Clone, Copy)]
pub struct Entry {
    pub dir: usize,
    pub place: usize,
    pub node: usize,
}

/// A directory with its entries in byte order, or a file with its bytes.
#[derive(Drop)]
pub enum Node {
    Dir(Links),
    File(File),
}

/// Where the last name of a path is, or where it belongs: the number of the directory and the place among its entries.
/// With it comes the number of the node, or the number of the entries.
#[derive(Drop)]
pub enum Spot {
    Taken(usize, usize, usize),
    Free(usize, usize, usize),
}

impl Node {
    /// What the rows of errors see of it.
    pub fn sight(&self) -> Sight
        ensures { result ≡ sight (shape_of (Some (place self.now))) }
    {
        match self {
            Node::File(_) => Sight::File,
            Node::Dir(links) => Sight::of_dir(links.len()),
        }
    }

    /// How many entries a directory has; a file has none.
    pub fn entries(&self) -> usize
        ensures { result ≡ length (links_of (Some (place self.now))) }
    {
        match self {
            Node::Dir(links) => links.len(),
            Node::File(_) => 0,
        }
    }

    /// The entries of a directory from a place on, as many as are side by side.
    pub fn from(&self, first: usize) -> &[Link]
        requires { first < length (links_of (Some (place self.now))) }
        ensures part { pairs result.now ≡ take (length result.now) (drop first (links_of (Some (place self.now)))) }
        ensures some { 0 < length result.now }
    {
        match self {
            Node::Dir(links) => links.from(first),
            Node::File(_) => unreachable!(),
        }
    }

    /// The entries of a directory before a place, as many as are side by side.
    pub fn until(&self, end: usize) -> &[Link]
        requires some { 0 < end }
        requires end { end ≤ length (links_of (Some (place self.now))) }
        ensures part { take end (links_of (Some (place self.now))) ≡ take (end - length result.now) (links_of (Some (place self.now))) ++ pairs result.now }
        ensures some { 0 < length result.now }
    {
        match self {
            Node::Dir(links) => links.until(end),
            Node::File(_) => unreachable!(),
        }
    }

    /// The place among the entries of a directory from which names are above these bytes, which are all names where there are
    /// no bytes.
    pub fn above(&self, bytes: &[u8]) -> usize
        requires { IsTrue (is_sorted name_cmp (links_of (Some (place self.now)))) }
        ensures place { result ≤ length (links_of (Some (place self.now))) }
        ensures names { map (λ l. l.0) (drop result (links_of (Some (place self.now)))) ≡ names_above bytes.now (map (λ l. l.0) (links_of (Some (place self.now)))) }
    {
        match self {
            Node::Dir(links) => links.above(bytes),
            Node::File(_) => 0,
        }
    }

    /// How many bytes a file has; a directory has none.
    pub fn len(&self) -> usize
        ensures { result ≡ length (bytes_of (shape_of (Some (place self.now)))) }
    {
        match self {
            Node::File(file) => file.len(),
            Node::Dir(_) => 0,
        }
    }

    /// Appends the bytes of a file from an offset on, and no more than a count, to a vector that has room for them.
    pub fn read(&self, off: u64, count: u64, into: &mut Vec<u8>)
        requires { vec_len into.old + length (take count (drop off (bytes_of (shape_of (Some (place self.now)))))) ≤ vec_capacity into.old }
        ensures { into.new.items ≡ into.old.items ++ take count (drop off (bytes_of (shape_of (Some (place self.now))))) }
    {
        if let Node::File(file) = self {
            file.read(off, count, into);
        }
    }
}

/// What the rows of errors see at a number.
pub fn sight_of(nodes: &Slab<Node>, node: usize) -> Sight
    requires there { ContainsKey nodes.now node }
    ensures { result ≡ sight (shape_at (graph nodes.now) node) }
{
    nodes[node].sight()
}

impl Spot {
    /// What the rows of errors see where the name was looked up.
    pub fn sight(&self, nodes: &Slab<Node>) -> Sight
        requires there { IfSome (number_there self.now) (ContainsKey nodes.now) }
        ensures { result ≡ sight (shape_there (graph nodes.now) self.now) }
    {
        match self {
            Spot::Taken(_, _, node) => sight_of(nodes, *node),
            Spot::Free(_, _, _) => Sight::Nothing,
        }
    }

    /// Whether the directory, which has at most so many entries, has no place for the name. A name that is there has
    /// its own.
    pub fn is_full(&self, most: usize) -> bool
        ensures { result ≡ full_there most self.now }
    {
        match self {
            Spot::Taken(_, _, _) => false,
            Spot::Free(_, _, entries) => is_full(most, *entries),
        }
    }

    /// The entry, if there is one.
    pub fn entry(&self) -> Option<Entry>
        ensures { result ≡ entry_there self.now }
    {
        match self {
            Spot::Taken(dir, place, node) => Some(Entry {
                dir: *dir,
                place: *place,
                node: *node,
            }),
            Spot::Free(_, _, _) => None,
        }
    }

    /// The number of the directory, and the place among its entries.
    pub fn place(&self) -> (usize, usize)
        ensures { result ≡ place_there self.now }
    {
        match self {
            Spot::Taken(dir, i, _) | Spot::Free(dir, i, _) => (*dir, *i),
        }
    }
}

/// Gives a link another name and another number.
pub fn reset(link: &mut Link, name: Name, node: usize)
    ensures { pair link.new ≡ (name, node) }
{
    link.name.set(name);
    link.node = node;
}

/// Where a name is among links, or the place after all lower names and before all higher ones.
#[inline]
pub fn bisect(links: &[Link], name: &Name) -> Result<usize, usize>
    requires { IsTrue (is_sorted name_cmp (pairs links.now)) }
    ensures { Bisects name.now links.now result }
{
    links.binary_search_by(|link| link.name.cmp(name))
}

/// Where a name is among the links, or where it belongs.
#[inline]
pub fn search(links: &[Link], name: &Name) -> Result<usize, usize>
    requires { IsTrue (is_sorted name_cmp (pairs links.now)) }
    ensures { Searches (pairs links.now) name.now result }
{
    bisect(links, name)
}

/// How many links come before those whose names are above these bytes, which are all links where there are no bytes.
pub fn above(links: &[Link], bytes: &[u8]) -> usize
    requires { IsTrue (is_sorted name_cmp (pairs links.now)) }
    ensures { IsCut bytes.now links.now result }
{
    links.partition_point(|link| !link.name.is_above(bytes))
}

/// The number to which a name leads from a node.
#[inline(always)]
pub fn step(nodes: &Slab<Node>, at: usize, name: &Name) -> Result<usize, Errno>
    requires there { ContainsKey nodes.now at }
    requires rising { IsTrue (is_sorted name_cmp (links_at (graph nodes.now) at)) }
    ensures { Steps (graph nodes.now) at name.now result }
{
    match &nodes[at] {
        Node::File(_) => Err(step_error(true)),
        Node::Dir(links) => match links.node(name) {
            Some(node) => Ok(node),
            None => Err(step_error(false)),
        },
    }
}

/// The number to which the first `count` names of the path lead, or why they lead nowhere.
pub fn resolve(nodes: &Slab<Node>, path: &Path, count: usize) -> Result<usize, Errno>
    requires forest { IsForest (graph nodes.now) }
    requires names { count ≤ length path.now }
    ensures { Resolves (graph nodes.now) (take count path.now) result }
{
    let mut at = 0;
    for i in 0..count {
        match step(nodes, at, path.name(i)) {
            Ok(next) => at = next,
            Err(errno) => return Err(errno),
        }
    }
    Ok(at)
}

/// Looks the last name of a path up in its parent.
pub fn look_up(nodes: &Slab<Node>, path: &Path) -> Result<Spot, Errno>
    requires forest { IsForest (graph nodes.now) }
    requires named { 0 < length path.now }
    ensures { LooksUp (graph nodes.now) path.now result }
{
    let last = path.len() - 1;
    let dir = match resolve(nodes, path, last) {
        Ok(dir) => dir,
        Err(errno) => return Err(errno),
    };
    match &nodes[dir] {
        Node::File(_) => Err(step_error(true)),
        Node::Dir(links) => match links.search(path.name(last)) {
            Ok((i, node)) => Ok(Spot::Taken(dir, i, node)),
            Err(i) => Ok(Spot::Free(dir, i, links.len())),
        },
    }
}

/// Adds an entry to a directory at a place.
pub fn add_link(
    alloc: Global,
    memory: &mut Memory,
    nodes: &mut Slab<Node>,
    dir: usize,
    i: usize,
    link: Link,
) -> Result<(), AllocError>
    requires directory { place_at (graph nodes.old) dir ≡ Some (IsDir (links_at (graph nodes.old) dir)) }
    requires within { i ≤ length (links_at (graph nodes.old) dir) }
    ensures ok { OnOk result (Sets (graph nodes.old) (graph nodes.new) dir (Some (IsDir (insert (links_at (graph nodes.old) dir) i (pair link))))) }
    ensures err { OnErr result (graph nodes.new ≡ graph nodes.old) }
    ensures key { nodes.new.vacant_key ≡ nodes.old.vacant_key }
    ensures room { HasRoomFor nodes.old 1 → HasRoomFor nodes.new 1 }
    ensures granted { OnOk result (memory.new ≡ memory.old) }
    ensures refused { OnErr result (memory.new ≢ memory.old) }
{
    match &mut nodes[dir] {
        Node::Dir(links) => links.insert(alloc, memory, i, link),
        Node::File(_) => Ok(()),
    }
}

/// Adds a node, and an entry for it to a directory at a place.
pub fn attach(
    alloc: Global,
    memory: &mut Memory,
    nodes: &mut Slab<Node>,
    dir: usize,
    i: usize,
    name: &Name,
    node: Node,
) -> Result<(), AllocError>
    requires directory { place_at (graph nodes.old) dir ≡ Some (IsDir (links_at (graph nodes.old) dir)) }
    requires within { i ≤ length (links_at (graph nodes.old) dir) }
    ensures ok { OnOk result (Attaches (graph nodes.old) (graph nodes.new) dir i name.now (place node)) }
    ensures err { OnErr result (graph nodes.new ≡ graph nodes.old) }
    ensures granted { OnOk result (memory.new ≡ memory.old) }
    ensures refused { OnErr result (memory.new ≢ memory.old) }
{
    memory.reserve_keys(nodes, 1)?;
    let number = nodes.vacant_key();
    let held = HeldName::new(alloc, memory, name)?;
    let link = Link {
        name: held,
        node: number,
    };
    add_link(alloc, memory, nodes, dir, i, link)?;
    nodes.insert_reserved(node);
    Ok(())
}

/// Takes the entry at a place out of a directory.
pub fn remove_link(nodes: &mut Slab<Node>, dir: usize, i: usize)
    requires directory { place_at (graph nodes.old) dir ≡ Some (IsDir (links_at (graph nodes.old) dir)) }
    requires within { i < length (links_at (graph nodes.old) dir) }
    ensures { Sets (graph nodes.old) (graph nodes.new) dir (Some (IsDir (remove (links_at (graph nodes.old) dir) i))) }
{
    match &mut nodes[dir] {
        Node::Dir(links) => links.remove(i),
        Node::File(_) => {}
    }
}
