//! The sequential tree: a value of its own for one thread.

ghost use Rattle.std.specs.Prelude.{◌≡◌, ◌≢◌, ℕ, true, None, Some, Err, map, IfOk, OnOk, OnErr, IsTrue};
ghost use Rattle.fs_calls.specs.Starts.{root_start};
ghost use Rattle.fs_calls.specs.Tree.{IsTree};
ghost use Rattle.fs_calls.specs.Outcomes.{reply_at, called};
ghost use Rattle.fs_seq.specs.Memory.{needs_memory};
ghost use Rattle.fs_seq.specs.Looks.{is_look};
ghost use Rattle.fs_seq.specs.Rows.{misfit, row_of, is_plain};
ghost use Rattle.std.specs.List.{list_all};

use crate::from_rows::{self, NotTree};
use crate::rows::{self, Row};
use crate::{create, exchange, queries, remove, rename, write};
use fs_calls::{Call, Data, Reply};
use fs_memory::Memory;
use fs_names::{Limits, Path};
use fs_seq_nodes::{Links, Node, copying};
use slab::Slab;
use std::alloc::{AllocError, Global};
use std::marker::Model;

/// A tree of directories and files, seen as the tree that its calls made and the limits that it keeps.
#[derive(Drop)]
pub struct SeqTree {
    nodes: Slab<Node>,
    limits: Limits,
}

impl Model for SeqTree {
    ghost use Rattle.fs_calls.specs.Starts.{Start};

    ghost Value = { Start };

    ghost use Rattle.fs_seq_nodes.specs.code.Nodes.{graph};
    ghost use Rattle.fs_seq_nodes.specs.code.Slots.{tree_of, IsForest, HaveForm};
    ghost use Rattle.fs_names.specs.Limits.{in_blocks};

    ghost view = { λ s. record { limits = s.limits; tree = tree_of (graph s.nodes) } };

    ghost invariant = { λ s. IsForest (graph s.nodes) × HaveForm (in_blocks s.limits) (graph s.nodes) };
}

impl SeqTree {
    /// The tree of the root alone, which keeps the limits of the second version.
    pub fn new(alloc: Global) -> Result<SeqTree, AllocError>
        ensures { IfOk result (λ tree. tree ≡ root_start Limits.V2) }
    {
        SeqTree::with_limits(alloc, Limits::V2)
    }

    /// The tree of the root alone, which keeps these limits.
    pub fn with_limits(alloc: Global, limits: Limits) -> Result<SeqTree, AllocError>
        ensures { IfOk result (λ tree. tree ≡ root_start limits) }
    {
        let mut nodes = Slab::new(alloc);
        match nodes.insert(Node::Dir(Links::new(alloc))) {
            Ok(_) => Ok(SeqTree { nodes, limits }),
            Err(_) => Err(AllocError),
        }
    }

    /// Each is a tree: the root is a directory, and all else is in one.
    #[tactic(auto, using(crate::proofs::ForestTrees::forest_tree))]
    pub fn is_a_tree(&self)
        ensures { IsTree self.now.tree }
    {
        let _nodes = &self.nodes;
    }

    /// The limits that it keeps.
    pub fn limits(&self) -> Limits
        ensures { result ≡ self.now.limits }
    {
        self.limits
    }

    /// The same tree again, of the same limits, in memory of its own; blocks of files are shared. Its nodes have the numbers
    /// that they have here, so that it has as many places for nodes as this one.
    pub fn copy(&self) -> Result<SeqTree, AllocError>
        ensures { IfOk result (λ tree. tree ≡ self.now) }
    {
        self.copy_counted(&mut Memory::new())
    }

    /// The same, and a refusal is counted.
    pub fn copy_counted(&self, memory: &mut Memory) -> Result<SeqTree, AllocError>
        ensures tree { IfOk result (λ tree. tree ≡ self.now) }
        ensures granted { OnOk result (memory.new ≡ memory.old) }
        ensures refused { OnErr result (memory.new ≢ memory.old) }
    {
        let nodes = copying::copied(memory, &self.nodes)?;
        Ok(SeqTree {
            nodes,
            limits: self.limits,
        })
    }

    /// The entries of the tree, in the order of its text: each directory is followed at once by its entries, in byte order
    /// of their names.
    pub fn rows(&self, alloc: Global) -> Result<Vec<Row>, AllocError>
        ensures tree { IfOk result (λ rows. map row_of rows.items ≡ self.now.tree) }
        ensures plain { IfOk result (λ rows. list_all is_plain rows.items ≡ true) }
    {
        rows::rows(alloc, &self.nodes)
    }

    /// The tree of these entries, which keeps these limits. `Bad` names the first row that no tree within them has at
    /// its place. If memory runs out at an earlier row, the error is `OutOfMemory`.
    pub fn from_rows(alloc: Global, rows: &[Row], limits: Limits) -> Result<SeqTree, NotTree>
        ensures tree { IfOk result (λ tree. tree ≡ record { limits = limits; tree = map row_of rows.now }) }
        ensures fits { OnOk result (misfit limits rows.now ≡ None) }
        ensures bad { (place : ℕ) → result ≡ Err (NotTree.Bad place) → misfit limits rows.now ≡ Some place }
    {
        let Ok(mut tree) = SeqTree::with_limits(alloc, limits) else {
            return Err(NotTree::OutOfMemory);
        };
        match from_rows::add_rows(alloc, &mut tree.nodes, rows, limits) {
            Ok(()) => Ok(tree),
            Err(why) => Err(why),
        }
    }

    /// The reply of a call on the tree, which is as the call says from then on. Out of memory the tree stays as it
    /// was; a call that needs to allocate nothing never fails so.
    pub fn apply(&mut self, alloc: Global, call: &Call) -> Result<Reply, AllocError>
        ensures reply { IfOk result (λ r. r ≡ reply_at self.old call.now) }
        ensures tree { OnOk result (self.new ≡ called self.old call.now) }
        ensures err { OnErr result (self.new ≡ self.old) }
        ensures memory { OnErr result (IsTrue (needs_memory self.old.limits self.old.tree call.now)) }
    {
        self.apply_counted(alloc, &mut Memory::new(), call)
    }

    /// The same, and a refusal is counted.
    pub fn apply_counted(
        &mut self,
        alloc: Global,
        memory: &mut Memory,
        call: &Call,
    ) -> Result<Reply, AllocError>
        ensures reply { IfOk result (λ r. r ≡ reply_at self.old call.now) }
        ensures tree { OnOk result (self.new ≡ called self.old call.now) }
        ensures err { OnErr result (self.new ≡ self.old) }
        ensures memory { OnErr result (IsTrue (needs_memory self.old.limits self.old.tree call.now)) }
        ensures granted { OnOk result (memory.new ≡ memory.old) }
        ensures refused { OnErr result (memory.new ≢ memory.old) }
    {
        match call {
            Call::Mkdir(path) => self.mkdir(alloc, memory, path),
            Call::Mknod(path) => self.mknod(alloc, memory, path),
            Call::Unlink(path) => Ok(self.unlink(path)),
            Call::Rmdir(path) => Ok(self.rmdir(path)),
            Call::Rename(from, to) => self.rename(alloc, memory, from, to),
            Call::Exchange(path, other) => Ok(self.exchange(path, other)),
            Call::Stat(_) | Call::Readdir(_) | Call::ListAfter(_, _, _) | Call::Read(_, _, _) => {
                self.look_counted(alloc, memory, call)
            }
            Call::Write(path, off, bytes) => self.write(alloc, memory, path, *off, bytes),
            Call::Truncate(path, size) => self.truncate(alloc, memory, path, *size),
        }
    }

    /// The reply of a call that changes nothing: a stat, a readdir, a list or a read. It is the reply that `apply` gives; a call
    /// that needs to allocate nothing never fails.
    pub fn look(&self, alloc: Global, call: &Call) -> Result<Reply, AllocError>
        requires { IsTrue (is_look call.now) }
        ensures reply { IfOk result (λ r. r ≡ reply_at self.now call.now) }
        ensures memory { OnErr result (IsTrue (needs_memory self.now.limits self.now.tree call.now)) }
    {
        self.look_counted(alloc, &mut Memory::new(), call)
    }

    /// The same, and a refusal is counted.
    fn look_counted(
        &self,
        alloc: Global,
        memory: &mut Memory,
        call: &Call,
    ) -> Result<Reply, AllocError>
        requires { IsTrue (is_look call.now) }
        ensures reply { IfOk result (λ r. r ≡ reply_at self.now call.now) }
        ensures memory { OnErr result (IsTrue (needs_memory self.now.limits self.now.tree call.now)) }
        ensures granted { OnOk result (memory.new ≡ memory.old) }
        ensures refused { OnErr result (memory.new ≢ memory.old) }
    {
        match call {
            Call::Stat(path) => Ok(self.stat(path)),
            Call::Readdir(path) => self.readdir(alloc, memory, path),
            Call::ListAfter(count, path, after) => self.list(alloc, memory, path, after, *count),
            Call::Read(path, off, count) => self.read(alloc, memory, path, *off, *count),
            Call::Mkdir(_) | Call::Mknod(_) | Call::Unlink(_) | Call::Rmdir(_) => unreachable!(),
            Call::Rename(_, _) | Call::Exchange(_, _) => unreachable!(),
            Call::Write(_, _, _) | Call::Truncate(_, _) => unreachable!(),
        }
    }

    fn mkdir(
        &mut self,
        alloc: Global,
        memory: &mut Memory,
        path: &Path,
    ) -> Result<Reply, AllocError>
        ensures reply { IfOk result (λ r. r ≡ reply_at self.old (Call.Mkdir path.now)) }
        ensures tree { OnOk result (self.new ≡ called self.old (Call.Mkdir path.now)) }
        ensures err { OnErr result (self.new ≡ self.old) }
        ensures memory { OnErr result (IsTrue (needs_memory self.old.limits self.old.tree (Call.Mkdir path.now))) }
        ensures granted { OnOk result (memory.new ≡ memory.old) }
        ensures refused { OnErr result (memory.new ≢ memory.old) }
    {
        create::mkdir(alloc, memory, &mut self.nodes, path, self.limits)
    }

    fn mknod(
        &mut self,
        alloc: Global,
        memory: &mut Memory,
        path: &Path,
    ) -> Result<Reply, AllocError>
        ensures reply { IfOk result (λ r. r ≡ reply_at self.old (Call.Mknod path.now)) }
        ensures tree { OnOk result (self.new ≡ called self.old (Call.Mknod path.now)) }
        ensures err { OnErr result (self.new ≡ self.old) }
        ensures memory { OnErr result (IsTrue (needs_memory self.old.limits self.old.tree (Call.Mknod path.now))) }
        ensures granted { OnOk result (memory.new ≡ memory.old) }
        ensures refused { OnErr result (memory.new ≢ memory.old) }
    {
        create::mknod(alloc, memory, &mut self.nodes, path, self.limits)
    }

    fn unlink(&mut self, path: &Path) -> Reply
        ensures reply { result ≡ reply_at self.old (Call.Unlink path.now) }
        ensures tree { self.new ≡ called self.old (Call.Unlink path.now) }
    {
        remove::unlink(&mut self.nodes, path)
    }

    fn rmdir(&mut self, path: &Path) -> Reply
        ensures reply { result ≡ reply_at self.old (Call.Rmdir path.now) }
        ensures tree { self.new ≡ called self.old (Call.Rmdir path.now) }
    {
        remove::rmdir(&mut self.nodes, path)
    }

    fn rename(
        &mut self,
        alloc: Global,
        memory: &mut Memory,
        from: &Path,
        to: &Path,
    ) -> Result<Reply, AllocError>
        ensures reply { IfOk result (λ r. r ≡ reply_at self.old (Call.Rename from.now to.now)) }
        ensures tree { OnOk result (self.new ≡ called self.old (Call.Rename from.now to.now)) }
        ensures err { OnErr result (self.new ≡ self.old) }
        ensures memory { OnErr result (IsTrue (needs_memory self.old.limits self.old.tree (Call.Rename from.now to.now))) }
        ensures granted { OnOk result (memory.new ≡ memory.old) }
        ensures refused { OnErr result (memory.new ≢ memory.old) }
    {
        rename::rename(alloc, memory, &mut self.nodes, from, to, self.limits)
    }

    fn exchange(&mut self, path: &Path, other: &Path) -> Reply
        ensures reply { result ≡ reply_at self.old (Call.Exchange path.now other.now) }
        ensures tree { self.new ≡ called self.old (Call.Exchange path.now other.now) }
    {
        exchange::exchange(&mut self.nodes, path, other)
    }

    fn stat(&self, path: &Path) -> Reply
        ensures { result ≡ reply_at self.now (Call.Stat path.now) }
    {
        queries::stat(&self.nodes, path)
    }

    fn readdir(&self, alloc: Global, memory: &mut Memory, path: &Path) -> Result<Reply, AllocError>
        ensures reply { IfOk result (λ r. r ≡ reply_at self.now (Call.Readdir path.now)) }
        ensures memory { OnErr result (IsTrue (needs_memory self.now.limits self.now.tree (Call.Readdir path.now))) }
        ensures granted { OnOk result (memory.new ≡ memory.old) }
        ensures refused { OnErr result (memory.new ≢ memory.old) }
    {
        queries::readdir(alloc, memory, &self.nodes, path)
    }

    fn list(
        &self,
        alloc: Global,
        memory: &mut Memory,
        path: &Path,
        after: &Path,
        count: u32,
    ) -> Result<Reply, AllocError>
        ensures reply { IfOk result (λ r. r ≡ reply_at self.now (Call.ListAfter count path.now after.now)) }
        ensures memory { OnErr result (IsTrue (needs_memory self.now.limits self.now.tree (Call.ListAfter count path.now after.now))) }
        ensures granted { OnOk result (memory.new ≡ memory.old) }
        ensures refused { OnErr result (memory.new ≢ memory.old) }
    {
        queries::list(alloc, memory, &self.nodes, path, after, count)
    }

    fn read(
        &self,
        alloc: Global,
        memory: &mut Memory,
        path: &Path,
        off: u64,
        count: u64,
    ) -> Result<Reply, AllocError>
        ensures reply { IfOk result (λ r. r ≡ reply_at self.now (Call.Read path.now off count)) }
        ensures memory { OnErr result (IsTrue (needs_memory self.now.limits self.now.tree (Call.Read path.now off count))) }
        ensures granted { OnOk result (memory.new ≡ memory.old) }
        ensures refused { OnErr result (memory.new ≢ memory.old) }
    {
        queries::read(alloc, memory, &self.nodes, path, off, count, self.limits)
    }

    fn write(
        &mut self,
        alloc: Global,
        memory: &mut Memory,
        path: &Path,
        off: u64,
        bytes: &Data,
    ) -> Result<Reply, AllocError>
        ensures reply { IfOk result (λ r. r ≡ reply_at self.old (Call.Write path.now off bytes.now)) }
        ensures tree { OnOk result (self.new ≡ called self.old (Call.Write path.now off bytes.now)) }
        ensures err { OnErr result (self.new ≡ self.old) }
        ensures memory { OnErr result (IsTrue (needs_memory self.old.limits self.old.tree (Call.Write path.now off bytes.now))) }
        ensures granted { OnOk result (memory.new ≡ memory.old) }
        ensures refused { OnErr result (memory.new ≢ memory.old) }
    {
        write::write(
            alloc,
            memory,
            &mut self.nodes,
            path,
            off,
            bytes,
            self.limits,
        )
    }

    fn truncate(
        &mut self,
        alloc: Global,
        memory: &mut Memory,
        path: &Path,
        size: u64,
    ) -> Result<Reply, AllocError>
        ensures reply { IfOk result (λ r. r ≡ reply_at self.old (Call.Truncate path.now size)) }
        ensures tree { OnOk result (self.new ≡ called self.old (Call.Truncate path.now size)) }
        ensures err { OnErr result (self.new ≡ self.old) }
        ensures memory { OnErr result (IsTrue (needs_memory self.old.limits self.old.tree (Call.Truncate path.now size))) }
        ensures granted { OnOk result (memory.new ≡ memory.old) }
        ensures refused { OnErr result (memory.new ≢ memory.old) }
    {
        write::truncate(alloc, memory, &mut self.nodes, path, size, self.limits)
    }
}
