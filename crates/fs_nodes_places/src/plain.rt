//! The store as a plain vector, without an index: each of its calls looks at every place.
#![tactic(auto, unfolding(crate::specs::Stores::graph_of, crate::specs::Stores::limit_of, crate::specs::Stores::room))]

ghost use Rattle.std.specs.Prelude.{ℕ, ◌≡◌, ◌≢◌, ◌≤◌, ◌<◌, ◌↔◌, IsTrue, IsFalse, false, IfOk, OnErr, IfSome, IsSome, MatchOption, ◌+◌, ◌^◌, ◌++◌, take, drop, vec_len, vec_capacity, length, option_map, None, Some, Ok, Err};
ghost use Rattle.std.specs.Option.{option_copied};
ghost use Rattle.std.specs.Arc.{arc_value};
ghost use Rattle.fs_blocks.specs.Spares.{FitsWrite, FitsSize};
ghost use Rattle.fs_calls.specs.Rows.{written, resized};
ghost use Rattle.fs_names.specs.Shapes.{is_there, is_dir, is_file, has_entries, names_of, bytes_of};
ghost use Rattle.fs_calls.specs.Graphs.{empty_graph, linked_in, unlinked_in, moved_in, swapped_in, reserved_in, released_in, content_in, IsReached};

use crate::node::{Content, Link, Node, add_place, put, relink, swap_file};
use crate::scan::{content_at, entries_in, find_in, free_in, least_in, link_at};
use fs_blocks::{File, Spare};
use fs_calls::NodeNo;
use fs_names::{Kind, NODE_LIMIT, Name};
use std::alloc::{AllocError, Global};
use std::marker::Model;
use std::sync::Arc;
use thiserror::Error;

/// Why no number was reserved.
#[derive(Clone, Copy, Debug, PartialEq, Eq, Error)]
pub enum NoNode {
    /// The allocation of one more place failed.
    #[error("out of memory")]
    OutOfMemory,
    /// As many numbers are in use as the store's limit.
    #[error("as many nodes as the limit")]
    Full,
}

/// Directories and files under numbers, each named by at most one entry: a graph with a limit on how many numbers are in use.
/// Number 0 is the root, a directory that no entry names.
/// Each of its files is in blocks, or each is in one vector. Only a new store and `reserve` allocate.
#[derive(Drop)]
pub struct Store {
    limit: usize,
    in_blocks: bool,
    places: Vec<Option<Node>>,
}

impl Model for Store {
    ghost use Rattle.fs_nodes_places.specs.Stores.{Places, IsStore};
    ghost use Rattle.fs_nodes_places.specs.code.PlainEdits.{HaveForm};

    ghost Value = { Places };

    ghost view = { λ s. record { limit = s.limit; in_blocks = s.in_blocks; places = s.places.items } };

    ghost invariant = { λ s. IsStore s.limit s.places.items × HaveForm s.in_blocks s.places.items };
}

impl Store {
    ghost use Rattle.fs_nodes_places.specs.Stores.{graph_of, child, shape, in_use, room, kind_of, new_shape, next_entry, IsNextName, lent};
    ghost use Rattle.fs_calls.specs.Graphs.{IsUnlinked, IsParent};
    ghost use Rattle.fs_nodes_places.specs.Seen.{seen, IsReal};

    /// The root alone, in a store for at most `limit` nodes, with each file in one vector. The only error is out of memory.
    pub fn new(alloc: Global, limit: usize) -> Result<Store, AllocError>
        requires least { 1 ≤ limit }
        requires most { limit ≤ NODE_LIMIT }
        ensures { IfOk result (λ store. seen store ≡ record { graph = empty_graph; limit = limit; room = 1; in_blocks = false }) }
    {
        Store::with_form(alloc, limit, false)
    }

    /// The same, with files in blocks or each in one vector.
    pub fn with_form(alloc: Global, limit: usize, in_blocks: bool) -> Result<Store, AllocError>
        requires least { 1 ≤ limit }
        requires most { limit ≤ NODE_LIMIT }
        ensures { IfOk result (λ store. seen store ≡ record { graph = empty_graph; limit = limit; room = 1; in_blocks = in_blocks }) }
    {
        let mut places = Vec::new(alloc);
        places.push(Some(Node::new(alloc, Kind::Dir, in_blocks)))?;
        Ok(Store {
            limit,
            in_blocks,
            places,
        })
    }

    /// Whether files are in blocks, and not each in one vector.
    pub fn is_in_blocks(&self) -> bool
        ensures { result ≡ (seen self.now).in_blocks }
    {
        self.in_blocks
    }

    /// Whether the node is a directory or a file.
    pub fn kind(&self, node: NodeNo) -> Kind
        requires { IsTrue (is_there (shape self.now node)) }
        ensures { kind_of (shape self.now node) ≡ Some result }
    {
        match content_at(&self.places, node) {
            Some(Content::Dir) => Kind::Dir,
            _ => Kind::File,
        }
    }

    /// Whether the number is in use.
    pub fn is_used(&self, node: NodeNo) -> bool
        ensures { result ≡ is_there (shape self.now node) }
    {
        content_at(&self.places, node).is_some()
    }

    /// Whether the number is a directory's.
    pub fn is_dir(&self, node: NodeNo) -> bool
        ensures { result ≡ is_dir (shape self.now node) }
    {
        matches!(content_at(&self.places, node), Some(Content::Dir))
    }

    /// Whether the number is a file's.
    pub fn is_file(&self, node: NodeNo) -> bool
        ensures { result ≡ is_file (shape self.now node) }
    {
        matches!(content_at(&self.places, node), Some(Content::File(_)))
    }

    /// The node that an entry of a directory names. Where the number is no directory's, there is none.
    pub fn find(&self, dir: NodeNo, name: &Name) -> Option<NodeNo>
        ensures node { result ≡ child self.now dir name.now }
        ensures real { IsReal (seen self.now) }
    {
        find_in(&self.places, dir, name).map(NodeNo::new)
    }

    /// The directory that has the node's entry; none for the root and for what is not linked.
    pub fn parent(&self, node: NodeNo) -> Option<NodeNo>
        ensures { MatchOption result (IsUnlinked (child self.now) node) (IsParent (child self.now) node) }
    {
        match link_at(&self.places, node) {
            Some(link) => Some(link.dir),
            None => None,
        }
    }

    /// The bytes of a file in one vector. Where the number is no file's, there are none.
    pub fn content(&self, file: NodeNo) -> &[u8]
        requires { IsFalse (seen self.now).in_blocks }
        ensures { result.now ≡ bytes_of (shape self.now file) }
    {
        match content_at(&self.places, file) {
            Some(Content::File(file)) => file.as_slice(),
            _ => &[],
        }
    }

    /// How many bytes a file has. Where the number is no file's, there are none.
    pub fn len(&self, file: NodeNo) -> usize
        ensures { result ≡ length (bytes_of (shape self.now file)) }
    {
        match content_at(&self.places, file) {
            Some(Content::File(file)) => file.len(),
            _ => 0,
        }
    }

    /// Appends the bytes of a file from an offset on, and no more than a count, to a vector that has room for them. Where the
    /// number is no file's, there are none.
    pub fn read(&self, file: NodeNo, off: u64, count: u64, into: &mut Vec<u8>)
        requires { vec_len into.old + length (take count (drop off (bytes_of (shape self.now file)))) ≤ vec_capacity into.old }
        ensures { into.new.items ≡ into.old.items ++ take count (drop off (bytes_of (shape self.now file))) }
    {
        if let Some(Content::File(file)) = content_at(&self.places, file) {
            file.read(off, count, into);
        }
    }

    /// A directory gets an entry of this name, which names a node that none named and from which the directory is not reached.
    pub fn link(&mut self, dir: NodeNo, name: Name, node: NodeNo)
        requires dir { IsTrue (is_dir (shape self.old dir)) }
        requires absent { child self.old dir name ≡ None }
        requires used { IsTrue (is_there (shape self.old node)) }
        requires unlinked { IsUnlinked (child self.old) node }
        requires not_root { node ≢ 0 }
        requires apart { IsReached (child self.old) node dir → ⊥ }
        ensures { seen self.new ≡ record (seen self.old) { graph = linked_in dir name node (graph_of self.old) } }
    {
        let link = Link { dir, name };
        relink(&mut self.places[node.get()], Some(link));
    }

    /// A number that was not in use, for an empty node of this kind that no entry names; which number is open.
    /// After an error the store is as before: `Full` comes exactly where as many numbers are in use as the limit,
    /// `OutOfMemory` only where each number for which there is a place is in use.
    pub fn reserve(&mut self, kind: Kind) -> Result<NodeNo, NoNode>
        ensures free { IfOk result (λ node. shape self.old node ≡ None) }
        ensures unlinked { IfOk result (λ node. IsUnlinked (child self.old) node) }
        ensures within { IfOk result (λ node. node < (seen self.old).limit) }
        ensures not_root { IfOk result (λ node. node ≢ 0) }
        ensures change { IfOk result (λ node. seen self.new ≡ record (seen self.old) { graph = reserved_in node (new_shape kind) (graph_of self.old); room = room self.new }) }
        ensures full { (result ≡ Err NoNode.Full) ↔ (in_use self.old ≡ (seen self.old).limit) }
        ensures memory { result ≡ Err NoNode.OutOfMemory → in_use self.old ≡ room self.old }
        ensures err { OnErr result (self.new ≡ self.old) }
        ensures room { room self.old ≤ room self.new }
    {
        let Some(free) = free_in(&self.places) else {
            return self.reserve_next(kind);
        };
        let node = Node::new(*self.places.allocator(), kind, self.in_blocks);
        put(&mut self.places[free], Some(node));
        Ok(NodeNo::new(free))
    }

    /// The same where each number with a place is in use: the next number gets one.
    fn reserve_next(&mut self, kind: Kind) -> Result<NodeNo, NoNode>
        requires { in_use self.old ≡ room self.old }
        ensures free { IfOk result (λ node. shape self.old node ≡ None) }
        ensures unlinked { IfOk result (λ node. IsUnlinked (child self.old) node) }
        ensures within { IfOk result (λ node. node < (seen self.old).limit) }
        ensures not_root { IfOk result (λ node. node ≢ 0) }
        ensures change { IfOk result (λ node. seen self.new ≡ record (seen self.old) { graph = reserved_in node (new_shape kind) (graph_of self.old); room = room self.new }) }
        ensures full { (result ≡ Err NoNode.Full) ↔ (in_use self.old ≡ (seen self.old).limit) }
        ensures memory { result ≡ Err NoNode.OutOfMemory → in_use self.old ≡ room self.old }
        ensures err { OnErr result (self.new ≡ self.old) }
        ensures room { room self.old ≤ room self.new }
    {
        let next = self.places.len();
        if next == self.limit {
            return Err(NoNode::Full);
        }
        let Ok(()) = add_place(&mut self.places, kind, self.in_blocks) else {
            return Err(NoNode::OutOfMemory);
        };
        Ok(NodeNo::new(next))
    }

    /// The number of a node without entries, which no entry names, is in use no more.
    pub fn release(&mut self, node: NodeNo)
        requires used { IsTrue (is_there (shape self.old node)) }
        requires unlinked { IsUnlinked (child self.old) node }
        requires not_root { node ≢ 0 }
        requires empty { has_entries (shape self.old node) ≡ false }
        ensures { seen self.new ≡ record (seen self.old) { graph = released_in node (graph_of self.old) } }
    {
        put(&mut self.places[node.get()], None);
    }

    /// A directory loses the entry of a file or of an empty directory. What it named is answered, and stays in use.
    pub fn unlink(&mut self, dir: NodeNo, name: &Name) -> NodeNo
        requires there { IsSome (child self.old dir name.now) }
        requires bare { IfSome (child self.old dir name.now) (λ node. has_entries (shape self.old node) ≡ false) }
        ensures node { child self.old dir name.now ≡ Some result }
        ensures change { seen self.new ≡ record (seen self.old) { graph = unlinked_in dir name.now (graph_of self.old) } }
    {
        self.detach(dir, name).0
    }

    /// The same of any entry: what it named keeps all that is below. Its own name is handed out too.
    fn detach(&mut self, dir: NodeNo, name: &Name) -> (NodeNo, Name)
        requires there { IsSome (child self.old dir name.now) }
        ensures node { child self.old dir name.now ≡ Some result.0 }
        ensures name { result.1 ≡ name.now }
        ensures change { seen self.new ≡ record (seen self.old) { graph = unlinked_in dir name.now (graph_of self.old) } }
    {
        let node = find_in(&self.places, dir, name).unwrap();
        let link = relink(&mut self.places[node], None).unwrap();
        let Link { name, .. } = link;
        (NodeNo::new(node), name)
    }

    /// An entry goes to another directory, or to another name, with what it names and all below; the new directory is not there.
    pub fn move_entry(&mut self, from: NodeNo, name: &Name, to: NodeNo, new_name: Name)
        requires there { IsSome (child self.old from name.now) }
        requires dir { IsTrue (is_dir (shape self.old to)) }
        requires absent { child self.old to new_name ≡ None }
        requires apart { IfSome (child self.old from name.now) (λ node. IsReached (child self.old) node to → ⊥) }
        ensures { IfSome (child self.old from name.now) (λ node. seen self.new ≡ record (seen self.old) { graph = moved_in from name.now to new_name node (graph_of self.old) }) }
    {
        let node = find_in(&self.places, from, name).unwrap();
        let link = Link {
            dir: to,
            name: new_name,
        };
        relink(&mut self.places[node], Some(link));
    }

    /// Two entries change what they name, with all below. Neither node is reached from the other.
    pub fn swap_entries(&mut self, dir: NodeNo, name: &Name, other: NodeNo, other_name: &Name)
        requires there { IsSome (child self.old dir name.now) }
        requires there_too { IsSome (child self.old other other_name.now) }
        requires apart { (n m : ℕ) → child self.old dir name.now ≡ Some n → child self.old other other_name.now ≡ Some m → (IsReached (child self.old) n m → ⊥) × (IsReached (child self.old) m n → ⊥) }
        ensures { (n m : ℕ) → child self.old dir name.now ≡ Some n → child self.old other other_name.now ≡ Some m → seen self.new ≡ record (seen self.old) { graph = swapped_in dir name.now n other other_name.now m (graph_of self.old) } }
    {
        let _ = &self.places;
        let (node, own) = self.detach(dir, name);
        let (other_node, other_own) = self.detach(other, other_name);
        self.link(dir, own, other_node);
        self.link(other, other_own, node);
    }

    /// Another file comes in the place of one, which is handed out.
    fn swap_file(&mut self, node: NodeNo, file: File) -> File
        requires node { IsTrue (is_file (shape self.old node)) }
        requires form { file.in_blocks ≡ (seen self.old).in_blocks }
        ensures bytes { result.bytes ≡ bytes_of (shape self.old node) }
        ensures form { result.in_blocks ≡ (seen self.old).in_blocks }
        ensures change { seen self.new ≡ record (seen self.old) { graph = content_in node file.bytes (graph_of self.old) } }
    {
        swap_file(&mut self.places[node.get()], file)
    }

    /// A file in one vector gets these bytes, and its old ones are handed out.
    pub fn swap_content(&mut self, file: NodeNo, bytes: Vec<u8>) -> Vec<u8>
        requires file { IsTrue (is_file (shape self.old file)) }
        requires form { IsFalse (seen self.old).in_blocks }
        ensures old { result.items ≡ bytes_of (shape self.old file) }
        ensures change { seen self.new ≡ record (seen self.old) { graph = content_in file bytes.items (graph_of self.old) } }
    {
        self.swap_file(file, File::plain(bytes)).into_vec()
    }

    /// Puts bytes, at least one, over those of a file in blocks from an offset on; a gap reads as zeros.
    pub fn write(&mut self, file: NodeNo, off: usize, bytes: &[u8], spare: Spare)
        requires file { IsTrue (is_file (shape self.old file)) }
        requires form { IsTrue (seen self.old).in_blocks }
        requires some { 0 < length bytes.now }
        requires fits { off + length bytes.now < 2 ^ 63 }
        requires spare { FitsWrite off (length bytes.now) spare }
        ensures { seen self.new ≡ record (seen self.old) { graph = content_in file (written (bytes_of (shape self.old file)) off bytes.now) (graph_of self.old) } }
    {
        let mut content = self.swap_file(file, File::in_blocks());
        content.write(off, bytes, spare);
        self.swap_file(file, content);
    }

    /// The same of bytes that others share: blocks of the file may share them too (`Piece` of fs_blocks).
    pub fn take(&mut self, file: NodeNo, off: usize, bytes: &Arc<Vec<u8>>, spare: Spare)
        requires file { IsTrue (is_file (shape self.old file)) }
        requires form { IsTrue (seen self.old).in_blocks }
        requires some { 0 < length (arc_value bytes.now).items }
        requires fits { off + length (arc_value bytes.now).items < 2 ^ 63 }
        requires spare { FitsWrite off (length (arc_value bytes.now).items) spare }
        ensures { seen self.new ≡ record (seen self.old) { graph = content_in file (written (bytes_of (shape self.old file)) off (arc_value bytes.now).items) (graph_of self.old) } }
    {
        let mut content = self.swap_file(file, File::in_blocks());
        content.take(off, bytes, spare);
        self.swap_file(file, content);
    }

    /// Cuts a file in blocks to a size, or lets zeros follow up to it.
    pub fn resize(&mut self, file: NodeNo, size: usize, spare: Spare)
        requires file { IsTrue (is_file (shape self.old file)) }
        requires form { IsTrue (seen self.old).in_blocks }
        requires spare { FitsSize size spare }
        ensures { seen self.new ≡ record (seen self.old) { graph = content_in file (resized (bytes_of (shape self.old file)) size) (graph_of self.old) } }
    {
        let mut content = self.swap_file(file, File::in_blocks());
        content.resize(size, spare);
        self.swap_file(file, content);
    }

    /// How many entries a directory has. Where the number is no directory's, there are none.
    pub fn entries(&self, dir: NodeNo) -> usize
        ensures { result ≡ length (names_of (shape self.now dir)) }
    {
        entries_in(&self.places, dir)
    }

    /// The entry of the least name of a directory, or of the least one above the given name.
    /// Where the number is no directory's, there is none.
    pub fn next_name(&self, dir: NodeNo, low: Option<&Name>) -> Option<(&Name, NodeNo)>
        ensures entry { lent result ≡ next_entry (graph_of self.now) dir (option_copied low.entry) }

        // So the names are all told, in order, when each answer is the next call's `low`.
        ensures rest { IsNextName (names_of (shape self.now dir)) (option_copied low.entry) (option_map (λ entry. entry.0) (lent result)) }
        ensures real { IsReal (seen self.now) }
    {
        let Some(name) = least_in(&self.places, dir, low) else {
            return None;
        };
        let Some(node) = find_in(&self.places, dir, name) else {
            return None;
        };
        Some((name, NodeNo::new(node)))
    }
}
