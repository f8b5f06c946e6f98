//! The calls of a store that have conditions, each after a look at them. The two stores have the same
//! calls, so what follows is written twice, word for word.

ghost use Rattle.std.specs.Prelude.{◌≤◌, IsTrue};
ghost use Rattle.fs_names.specs.declared.limits.TheConstants.{NODE_LIMIT};
ghost use Rattle.fs_nodes.specs.Graphs.{IsReached};
ghost use Rattle.fs_nodes.specs.Seen.{seen, IsReal};
ghost use Rattle.fs_nodes.specs.Stores.{child};

use fs_names::{Kind, Name};
use fs_nodes::{NodeNo, Store, plain};
use std::alloc::{AllocError, Global};

/// How many nodes there may be: so few that calls are refused.
pub const LIMIT: usize = 30;

/// The store with sibling links.
#[derive(Drop)]
pub struct Linked {
    pub store: Store,
}

/// The store without an index.
#[derive(Drop)]
pub struct Plain {
    pub store: plain::Store,
}

impl Linked {
    /// The root alone, in a store for so many nodes.
    pub fn new(alloc: Global, limit: usize) -> Result<Linked, AllocError>
        requires least { 1 ≤ limit }
        requires most { limit ≤ NODE_LIMIT }
    {
        Ok(Linked {
            store: Store::new(alloc, limit)?,
        })
    }

    /// The kind of a node in use.
    pub fn kind(&self, node: NodeNo) -> Option<Kind> {
        if !self.store.is_used(node) {
            return None;
        }
        Some(self.store.kind(node))
    }

    /// Whether the way up from a directory ends without a node, so that the directory is not below it.
    fn is_apart(&self, node: NodeNo, dir: NodeNo) -> bool
        requires { IsReal (seen self.now.store) }
        ensures { IsTrue result → IsReached (child self.now.store) node dir → ⊥ }
    {
        let mut at = dir;
        for _ in 0..LIMIT {
            if at == node {
                return false;
            }
            match self.store.parent(at) {
                Some(parent) => at = parent,
                None => return true,
            }
        }
        false
    }

    /// A node becomes an entry, with what is below it. It answers whether it could.
    pub fn link(&mut self, dir: NodeNo, name: Name, node: NodeNo) -> bool {
        let is_free = self.store.find(dir, &name).is_none() && self.store.parent(node).is_none();
        let is_other = node.get() != 0 && self.store.is_used(node);
        if !(is_free && is_other && self.store.is_dir(dir) && self.is_apart(node, dir)) {
            return false;
        }
        self.store.link(dir, name, node);
        true
    }

    /// The entry of a file or of an empty directory goes, if there is one.
    pub fn unlink(&mut self, dir: NodeNo, name: &Name) -> Option<NodeNo> {
        let node = self.store.find(dir, name)?;
        if self.store.entries(node) > 0 {
            return None;
        }
        Some(self.store.unlink(dir, name))
    }

    /// An entry gets another name or another directory, with what is below it. It answers whether it could.
    pub fn move_entry(&mut self, from: NodeNo, name: &Name, to: NodeNo, new_name: Name) -> bool {
        let Some(node) = self.store.find(from, name) else {
            return false;
        };
        let is_free = self.store.find(to, &new_name).is_none();
        if !(is_free && self.store.is_dir(to) && self.is_apart(node, to)) {
            return false;
        }
        self.store.move_entry(from, name, to, new_name);
        true
    }

    /// Two entries change what they name, with what is below. It answers whether they could.
    pub fn swap_entries(
        &mut self,
        dir: NodeNo,
        name: &Name,
        other: NodeNo,
        other_name: &Name,
    ) -> bool {
        let Some(node) = self.store.find(dir, name) else {
            return false;
        };
        let Some(other_node) = self.store.find(other, other_name) else {
            return false;
        };
        if !(self.is_apart(node, other_node) && self.is_apart(other_node, node)) {
            return false;
        }
        self.store.swap_entries(dir, name, other, other_name);
        true
    }

    /// The number of an empty node without an entry goes. It answers whether it could.
    pub fn release(&mut self, node: NodeNo) -> bool {
        let is_loose = self.store.is_used(node) && self.store.parent(node).is_none();
        if !(is_loose && self.store.entries(node) == 0 && node.get() != 0) {
            return false;
        }
        self.store.release(node);
        true
    }

    /// The bytes of a file in one vector.
    pub fn content(&self, file: NodeNo) -> &[u8] {
        if self.store.is_in_blocks() {
            return &[];
        }
        self.store.content(file)
    }

    /// A file in one vector gets a copy of these bytes, and its old ones are answered.
    pub fn swap_content(
        &mut self,
        alloc: Global,
        file: NodeNo,
        bytes: &[u8],
    ) -> Result<Option<Vec<u8>>, AllocError> {
        if self.store.is_in_blocks() || !self.store.is_file(file) {
            return Ok(None);
        }
        let mut copied = Vec::new(alloc);
        copied.extend_from_slice(bytes)?;
        Ok(Some(self.store.swap_content(file, copied)))
    }
}

impl Plain {
    /// The root alone, in a store for so many nodes.
    pub fn new(alloc: Global, limit: usize) -> Result<Plain, AllocError>
        requires least { 1 ≤ limit }
        requires most { limit ≤ NODE_LIMIT }
    {
        Ok(Plain {
            store: plain::Store::new(alloc, limit)?,
        })
    }

    /// The kind of a node in use.
    pub fn kind(&self, node: NodeNo) -> Option<Kind> {
        if !self.store.is_used(node) {
            return None;
        }
        Some(self.store.kind(node))
    }

    /// Whether the way up from a directory ends without a node, so that the directory is not below it.
    fn is_apart(&self, node: NodeNo, dir: NodeNo) -> bool
        requires { IsReal (seen self.now.store) }
        ensures { IsTrue result → IsReached (child self.now.store) node dir → ⊥ }
    {
        let mut at = dir;
        for _ in 0..LIMIT {
            if at == node {
                return false;
            }
            match self.store.parent(at) {
                Some(parent) => at = parent,
                None => return true,
            }
        }
        false
    }

    /// A node becomes an entry, with what is below it. It answers whether it could.
    pub fn link(&mut self, dir: NodeNo, name: Name, node: NodeNo) -> bool {
        let is_free = self.store.find(dir, &name).is_none() && self.store.parent(node).is_none();
        let is_other = node.get() != 0 && self.store.is_used(node);
        if !(is_free && is_other && self.store.is_dir(dir) && self.is_apart(node, dir)) {
            return false;
        }
        self.store.link(dir, name, node);
        true
    }

    /// The entry of a file or of an empty directory goes, if there is one.
    pub fn unlink(&mut self, dir: NodeNo, name: &Name) -> Option<NodeNo> {
        let node = self.store.find(dir, name)?;
        if self.store.entries(node) > 0 {
            return None;
        }
        Some(self.store.unlink(dir, name))
    }

    /// An entry gets another name or another directory, with what is below it. It answers whether it could.
    pub fn move_entry(&mut self, from: NodeNo, name: &Name, to: NodeNo, new_name: Name) -> bool {
        let Some(node) = self.store.find(from, name) else {
            return false;
        };
        let is_free = self.store.find(to, &new_name).is_none();
        if !(is_free && self.store.is_dir(to) && self.is_apart(node, to)) {
            return false;
        }
        self.store.move_entry(from, name, to, new_name);
        true
    }

    /// Two entries change what they name, with what is below. It answers whether they could.
    pub fn swap_entries(
        &mut self,
        dir: NodeNo,
        name: &Name,
        other: NodeNo,
        other_name: &Name,
    ) -> bool {
        let Some(node) = self.store.find(dir, name) else {
            return false;
        };
        let Some(other_node) = self.store.find(other, other_name) else {
            return false;
        };
        if !(self.is_apart(node, other_node) && self.is_apart(other_node, node)) {
            return false;
        }
        self.store.swap_entries(dir, name, other, other_name);
        true
    }

    /// The number of an empty node without an entry goes. It answers whether it could.
    pub fn release(&mut self, node: NodeNo) -> bool {
        let is_loose = self.store.is_used(node) && self.store.parent(node).is_none();
        if !(is_loose && self.store.entries(node) == 0 && node.get() != 0) {
            return false;
        }
        self.store.release(node);
        true
    }

    /// The bytes of a file in one vector.
    pub fn content(&self, file: NodeNo) -> &[u8] {
        if self.store.is_in_blocks() {
            return &[];
        }
        self.store.content(file)
    }

    /// A file in one vector gets a copy of these bytes, and its old ones are answered.
    pub fn swap_content(
        &mut self,
        alloc: Global,
        file: NodeNo,
        bytes: &[u8],
    ) -> Result<Option<Vec<u8>>, AllocError> {
        if self.store.is_in_blocks() || !self.store.is_file(file) {
            return Ok(None);
        }
        let mut copied = Vec::new(alloc);
        copied.extend_from_slice(bytes)?;
        Ok(Some(self.store.swap_content(file, copied)))
    }
}
