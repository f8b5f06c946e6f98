//! The two stores, which get the same calls.

ghost use Rattle.std.specs.Prelude.{◌≤◌};
ghost use Rattle.fs_names.specs.declared.limits.TheConstants.{NODE_LIMIT};

use check_nodes::calls::{Linked, Plain};
use check_nodes::looks::Looks;
use fs_names::{Kind, Name};
use fs_nodes::{NoNode, NodeNo};
use std::alloc::{AllocError, Global};

/// A node's number in each of the two stores.
#[derive(Clone, Copy, PartialEq, Eq)]
pub struct Twin {
    pub linked: NodeNo,
    pub plain: NodeNo,
}

impl Twin {
    /// The root.
    fn root() -> Twin {
        Twin {
            linked: NodeNo::new(0),
            plain: NodeNo::new(0),
        }
    }
}

/// Both stores, and the nodes that they have, by their numbers in each.
#[derive(Drop)]
pub struct Twins {
    linked: Linked,
    plain: Plain,
    nodes: Vec<Twin>,
    limit: usize,
    /// How many answers differed.
    pub others: u32,
    /// At how many places `find_steps` has looked.
    pub looks: Looks,
}

impl Twins {
    /// The roots alone, in stores for so many nodes.
    pub fn new(alloc: Global, limit: usize) -> Result<Twins, AllocError>
        requires least { 1 ≤ limit }
        requires most { limit ≤ NODE_LIMIT }
    {
        let mut nodes = Vec::new(alloc);
        nodes.push(Twin::root())?;
        Ok(Twins {
            linked: Linked::new(alloc, limit)?,
            plain: Plain::new(alloc, limit)?,
            nodes,
            limit,
            others: 0,
            looks: Looks::default(),
        })
    }

    /// How many nodes there are.
    pub fn len(&self) -> usize {
        self.nodes.len()
    }

    /// The node at a position, the root past the last.
    pub fn node(&self, position: usize) -> Twin {
        match self.nodes.get(position) {
            Some(twin) => *twin,
            None => Twin::root(),
        }
    }

    /// The name of the directory's entry above this name, or of its first one; this name where there are no entries.
    pub fn name_above(&self, dir: &Twin, name: &Name) -> Result<Name, AllocError> {
        let store = &self.linked.store;
        if let Some((above, _)) = store.next_name(dir.linked, Some(name)) {
            return above.copy();
        }
        match store.next_name(dir.linked, None) {
            Some((first, _)) => first.copy(),
            None => name.copy(),
        }
    }

    /// Counts an answer that differs.
    fn expect(&mut self, same: bool) {
        if !same {
            self.others = self.others.wrapping_add(1);
        }
    }

    /// Whether the two stores answered the same node.
    fn are_one(&self, linked: Option<NodeNo>, plain: Option<NodeNo>) -> bool {
        match (linked, plain) {
            (Some(linked), Some(plain)) => {
                let twin = Twin { linked, plain };
                self.nodes.iter().any(|node| *node == twin)
            }
            (None, None) => true,
            _ => false,
        }
    }

    /// A number is reserved in each store. It answers whether there was one.
    pub fn reserve(&mut self, kind: Kind) -> Result<bool, AllocError> {
        match (
            self.linked.store.reserve(kind),
            self.plain.store.reserve(kind),
        ) {
            (Ok(linked), Ok(plain)) => {
                self.nodes.push(Twin { linked, plain })?;
                Ok(true)
            }
            (a, b) => {
                self.expect(a == Err(NoNode::Full) && b == Err(NoNode::Full));
                Ok(false)
            }
        }
    }

    /// How many entries a directory has.
    pub fn entries(&self, dir: &Twin) -> usize {
        self.linked.store.entries(dir.linked)
    }

    /// Whether a node is a directory with entries.
    fn has_entries(&self, node: NodeNo) -> bool {
        self.linked.store.entries(node) > 0
    }

    /// A node becomes an entry, if it can. It answers whether it has entries.
    pub fn link(
        &mut self,
        dir: &Twin,
        name: &Name,
        node: &Twin,
    ) -> Result<Option<bool>, AllocError> {
        let has_entries = self.has_entries(node.linked);
        let (one, other) = (name.copy()?, name.copy()?);
        let done = self.linked.link(dir.linked, one, node.linked);
        let same = done == self.plain.link(dir.plain, other, node.plain);
        self.expect(same);
        Ok(if done { Some(has_entries) } else { None })
    }

    /// An entry goes, if it can. It answers whether it was a directory's.
    pub fn unlink(&mut self, dir: &Twin, name: &Name) -> Option<bool> {
        let node = self.linked.unlink(dir.linked, name);
        let other = self.plain.unlink(dir.plain, name);
        let same = self.are_one(node, other);
        self.expect(same);
        Some(self.linked.store.is_dir(node?))
    }

    /// An entry moves, if it can. It answers whether a directory with entries went to another directory.
    pub fn move_entry(
        &mut self,
        from: &Twin,
        name: &Name,
        to: &Twin,
        new_name: &Name,
    ) -> Result<Option<bool>, AllocError> {
        let Some(node) = self.linked.store.find(from.linked, name) else {
            return Ok(None);
        };
        let has_entries = self.has_entries(node);
        let (one, other) = (new_name.copy()?, new_name.copy()?);
        let done = self.linked.move_entry(from.linked, name, to.linked, one);
        let same = done == self.plain.move_entry(from.plain, name, to.plain, other);
        self.expect(same);
        Ok(if done {
            Some(has_entries && from != to)
        } else {
            None
        })
    }

    /// The entry above a name goes, if it can.
    pub fn unlink_above(&mut self, dir: &Twin, name: &Name) -> Result<Option<bool>, AllocError> {
        let there = self.name_above(dir, name)?;
        Ok(self.unlink(dir, &there))
    }

    /// The entry above a name moves, if it can.
    pub fn move_above(
        &mut self,
        from: &Twin,
        name: &Name,
        to: &Twin,
        new_name: &Name,
    ) -> Result<Option<bool>, AllocError> {
        let there = self.name_above(from, name)?;
        self.move_entry(from, &there, to, new_name)
    }

    /// Two entries change what they name, if they can. It answers whether they are of two directories.
    pub fn swap_entries(
        &mut self,
        dir: &Twin,
        name: &Name,
        other: &Twin,
        other_name: &Name,
    ) -> Option<bool> {
        let done = self
            .linked
            .swap_entries(dir.linked, name, other.linked, other_name);
        let same = done
            == self
                .plain
                .swap_entries(dir.plain, name, other.plain, other_name);
        self.expect(same);
        if done { Some(dir != other) } else { None }
    }

    /// Whether the entry of this name is a node's, in both stores.
    pub fn names(&self, dir: &Twin, name: &Name, node: &Twin) -> bool {
        self.linked.store.find(dir.linked, name) == Some(node.linked)
            && self.plain.store.find(dir.plain, name) == Some(node.plain)
    }

    /// The node at a position gives its number back, if it can. It answers whether it was a directory.
    pub fn release(&mut self, position: usize) -> Option<bool> {
        let node = self.node(position);
        let is_dir = self.linked.store.is_dir(node.linked);
        let done = self.linked.release(node.linked);
        let same = done == self.plain.release(node.plain);
        self.expect(same);
        if !done || position >= self.nodes.len() {
            return None;
        }
        let _ = self.nodes.swap_remove(position);
        Some(is_dir)
    }

    /// A file gets these bytes, if it is one. It answers whether it had others.
    pub fn swap_content(
        &mut self,
        alloc: Global,
        file: &Twin,
        bytes: &[u8],
    ) -> Result<Option<bool>, AllocError> {
        let old = self.linked.swap_content(alloc, file.linked, bytes)?;
        let other = self.plain.swap_content(alloc, file.plain, bytes)?;
        let same = old == other;
        self.expect(same);
        Ok(old.map(|old| !old.is_empty() && old.as_slice() != bytes))
    }

    /// Looks an entry up. It answers whether there is one.
    pub fn find(&mut self, dir: &Twin, name: &Name) -> bool {
        let (node, steps) = self.linked.store.find_steps(dir.linked, name);
        let other = self.plain.store.find(dir.plain, name);
        let entries = self.plain.store.entries(dir.plain);
        let again = self.linked.store.find(dir.linked, name);
        let same = self.are_one(node, other) && again == node && steps <= entries;
        self.looks.count(steps);
        self.expect(same);
        node.is_some()
    }

    /// Looks up the entry above a name. It answers whether there is one.
    pub fn find_above(&mut self, dir: &Twin, name: &Name) -> Result<bool, AllocError> {
        let there = self.name_above(dir, name)?;
        Ok(self.find(dir, &there))
    }

    /// Whether the two stores say the same of a node.
    fn are_alike(&self, node: &Twin) -> bool {
        let (linked, plain) = (&self.linked.store, &self.plain.store);
        linked.is_used(node.linked) == plain.is_used(node.plain)
            && linked.is_dir(node.linked) == plain.is_dir(node.plain)
            && linked.is_file(node.linked) == plain.is_file(node.plain)
            && linked.entries(node.linked) == plain.entries(node.plain)
            && self.linked.content(node.linked) == self.plain.content(node.plain)
    }

    /// Looks at a node. It answers whether it has an entry.
    pub fn look(&mut self, node: &Twin) -> bool {
        let parent = self.linked.store.parent(node.linked);
        let other = self.plain.store.parent(node.plain);
        let kind = self.linked.kind(node.linked);
        let other_kind = self.plain.kind(node.plain);
        let same = self.are_alike(node) && self.are_one(parent, other) && kind == other_kind;
        self.expect(same);
        parent.is_some()
    }

    /// Reads a directory to its end, in one store from node to node and in the other from name to name. It answers
    /// whether there are entries.
    pub fn read(&mut self, dir: &Twin) -> bool {
        let others = self.others_read(dir);
        self.others = self.others.wrapping_add(others);
        self.linked.store.next_name(dir.linked, None).is_some()
    }

    /// How many answers differ, when a directory is read so.
    fn others_read(&self, dir: &Twin) -> u32 {
        let mut others: u32 = 0;
        let mut entry = self.linked.store.next_name(dir.linked, None);
        let mut other = self.plain.store.next_name(dir.plain, None);
        for _ in 0..self.limit {
            let Some((name, node)) = entry else {
                return others.wrapping_add(other.is_some() as u32);
            };
            let Some((low, twin)) = other else {
                return others.wrapping_add(1);
            };
            let same = name.same(low) && self.are_one(Some(node), Some(twin));
            others = others.wrapping_add(!same as u32);
            let same = self.goes_on(dir.linked, name, node);
            others = others.wrapping_add(!same as u32);
            entry = self.linked.store.next_entry_after(node);
            other = self.plain.store.next_name(dir.plain, Some(low));
        }
        others
    }

    /// Whether the entry after a node's is the one above its name.
    fn goes_on(&self, dir: NodeNo, name: &Name, node: NodeNo) -> bool {
        let after = self.linked.store.next_entry_after(node);
        let Some((above, next)) = self.linked.store.next_name(dir, Some(name)) else {
            return after.is_none();
        };
        match after {
            Some((name, node)) => above.same(name) && next == node,
            None => false,
        }
    }
}
