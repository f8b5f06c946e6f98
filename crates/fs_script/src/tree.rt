//! Trees as they are written.

ghost use Rattle.std.specs.Prelude.{◌≡◌, ◌++◌, ◌∷◌, [], Some, None, IsTrue, IfOk, OnOk, OnErr, option_map, codes, false, true};
ghost use Rattle.fs_names.specs.Shapes.{is_there, is_dir, names_of, bytes_of};
ghost use Rattle.fs_nodes.specs.Seen.{seen, IsReal};
ghost use Rattle.fs_nodes.specs.Stores.{graph_of, shape, child, next_entry, IsNextName, lent};
ghost use Rattle.fs_script.specs.TreeText.{tree_text, AppendsTree};
ghost use Rattle.fs_script.specs.code.Walks.{WalkPlace, forest_of, key_above, Leads, IsLast, Steps, IsUp, visited, row_text, node_seen, node_with, text_at, pending_at, at_root};
ghost use Rattle.fs_seq_nodes.specs.code.Slots.{tree_of};

use crate::node_line::push_node;
use fs_names::Name;
use fs_nodes::{NodeNo, Store};
use fs_words::Addition;
use fs_words::addition::put_back;
use std::alloc::{AllocError, Global};
use std::marker::Model;
use std::{mem, slice};

/// A directory, and the entry by which a walk went down from it.
#[derive(Drop)]
pub(crate) struct Step {
    pub(crate) dir: NodeNo,
    pub(crate) name: Name,
}

/// A walk through the nodes in the order of their keys. It is at a directory, after the entry `low`, whose node is
/// `last`. So the next entry is found without a look at those before it.
#[derive(Drop)]
pub(crate) struct Walk {
    above: Vec<Step>,
    dir: NodeNo,
    low: Option<Name>,
    last: Option<NodeNo>,
}

impl Model for Walk {
    ghost use Rattle.fs_script.specs.code.Walks.{WalkPlace};

    ghost Value = { WalkPlace };

    ghost view = { λ w. record { above = w.above.items; dir = w.dir; low = w.low; last = w.last } };
}

/// The bytes of a file, again.
fn copied(alloc: Global, store: &Store, file: NodeNo) -> Result<Vec<u8>, AllocError>
    ensures { IfOk result (λ bytes. bytes.items ≡ bytes_of (shape store.now file)) }
{
    let count = store.len(file);
    let mut bytes = Vec::with_capacity(alloc, count)?;
    store.read(file, 0, count as u64, &mut bytes);
    Ok(bytes)
}

/// The line of a node after some steps: of a file, if it has bytes, and else of a directory.
fn push_line(
    alloc: Global,
    above: &[Step],
    name: &Name,
    bytes: Option<&[u8]>,
    line: &mut Addition,
) -> Result<(), AllocError>
    ensures ok { OnOk result (line.new.added ≡ line.old.added ++ row_text (key_above above.now ++ name.now ∷ []) (Some (node_with bytes.entry))) }
    ensures before { line.new.before ≡ line.old.before }
{
    push_node(alloc, above, slice::from_ref(name), bytes, line)?;
    line.push(b"\n")
}

/// The line of a node of a store.
fn push_line_of(
    alloc: Global,
    store: &Store,
    above: &[Step],
    name: &Name,
    node: NodeNo,
    line: &mut Addition,
) -> Result<(), AllocError>
    requires { IsTrue (is_there (shape store.now node)) }
    ensures ok { OnOk result (line.new.added ≡ line.old.added ++ row_text (key_above above.now ++ name.now ∷ []) (node_seen (shape store.now node))) }
    ensures before { line.new.before ≡ line.old.before }
{
    if store.is_dir(node) {
        return push_line(alloc, above, name, None, line);
    }
    if store.is_in_blocks() {
        let bytes = copied(alloc, store, node)?;
        return push_line(alloc, above, name, Some(&bytes), line);
    }
    push_line(alloc, above, name, Some(store.content(node)), line)
}

impl Walk {
    /// At the root, before its first entry.
    fn new(alloc: Global) -> Walk
        ensures { result ≡ record { above = []; dir = 0; low = None; last = None } }
    {
        Walk {
            above: Vec::new(alloc),
            dir: NodeNo::ROOT,
            low: None,
            last: None,
        }
    }

    /// Goes down to a directory, by its entry.
    fn go_down(&mut self, name: Name, node: NodeNo) -> Result<(), AllocError>
        ensures { OnOk result (self.new ≡ visited self.old name node true) }
    {
        let step = Step {
            dir: self.dir,
            name,
        };
        match self.above.push(step) {
            Ok(()) => {
                self.dir = node;
                self.low = None;
                self.last = None;
                Ok(())
            }
            Err(_) => Err(AllocError),
        }
    }

    /// Writes an entry of the directory, and goes down to it where it is a directory.
    fn visit(
        &mut self,
        alloc: Global,
        store: &Store,
        name: &Name,
        node: NodeNo,
        line: &mut Addition,
    ) -> Result<(), AllocError>
        requires { IsTrue (is_there (shape store.now node)) }
        ensures walk { OnOk result (self.new ≡ visited self.old name.now node (is_dir (shape store.now node))) }
        ensures ok { OnOk result (line.new.added ≡ line.old.added ++ row_text (key_above self.old.above ++ name.now ∷ []) (node_seen (shape store.now node))) }
        ensures before { line.new.before ≡ line.old.before }
    {
        push_line_of(alloc, store, &self.above, name, node, line)?;
        let name = name.copy()?;
        if store.is_dir(node) {
            return self.go_down(name, node);
        }
        self.low = Some(name);
        self.last = Some(node);
        Ok(())
    }

    /// Goes up by one step, and answers whether there was one.
    fn go_up(&mut self) -> bool
        ensures { IsUp self.old self.new result }
    {
        match self.above.pop() {
            Some(step) => {
                self.last = Some(self.dir);
                self.dir = step.dir;
                self.low = Some(step.name);
                true
            }
            None => false,
        }
    }

    /// The next entry of the directory.
    fn next<'s>(&self, store: &'s Store) -> Option<(&'s Name, NodeNo)>
        requires { IsLast (child store.now) self.now.dir self.now.low self.now.last }
        ensures entry { lent result ≡ next_entry (graph_of store.now) self.now.dir self.now.low }
        ensures rest { IsNextName (names_of (shape store.now self.now.dir)) self.now.low (option_map (λ entry. entry.0) (lent result)) }
        ensures real { IsReal (seen store.now) }
    {
        match self.last {
            Some(node) => store.next_entry_after(node),
            None => store.next_name(self.dir, None),
        }
    }

    /// Writes the next entry, or goes up where there is none, and answers whether there was either.
    fn step(
        &mut self,
        alloc: Global,
        store: &Store,
        line: &mut Addition,
    ) -> Result<bool, AllocError>
        requires leads { Leads (forest_of (seen store.now)) 0 self.old.above self.old.dir }
        requires last { IsLast (child store.now) self.old.dir self.old.low self.old.last }
        ensures ok { IfOk result (Steps (forest_of (seen store.now)) self.old line.old.added self.new line.new.added) }
        ensures last { OnOk result (IsLast (child store.now) self.new.dir self.new.low self.new.last) }
        ensures before { line.new.before ≡ line.old.before }
        ensures real { IsReal (seen store.now) }
    {
        match self.next(store) {
            Some(entry) => {
                self.visit(alloc, store, entry.0, entry.1, line)?;
                Ok(true)
            }
            None => Ok(self.go_up()),
        }
    }
}

/// The lines of all nodes but the root.
fn push_nodes(alloc: Global, store: &Store, line: &mut Addition) -> Result<(), AllocError>
    ensures ok { OnOk result (line.new.added ≡ line.old.added ++ text_at (forest_of (seen store.now)) (pending_at (forest_of (seen store.now)) at_root)) }
    ensures before { line.new.before ≡ line.old.before }
    ensures real { IsReal (seen store.now) }
{
    let mut walk = Walk::new(alloc);
    'steps: loop {
        match walk.step(alloc, store, line) {
            Ok(true) => {}
            Ok(false) => return Ok(()),
            Err(error) => return Err(error),
        }
    }
}

fn push_tree(alloc: Global, store: &Store, line: &mut Addition) -> Result<(), AllocError>
    ensures ok { OnOk result (line.new.added ≡ line.old.added ++ tree_text (tree_of (forest_of (seen store.now)))) }
    ensures before { line.new.before ≡ line.old.before }
    ensures real { OnOk result (IsReal (seen store.now)) }
{
    line.push(b"tree\ndir /\n")?;
    push_nodes(alloc, store, line)
}

/// Appends the text of the tree that the nodes spell: a line `tree`, and then the root and everything below it, each
/// directory followed at once by its entries in byte order of their names. An `Err`, which is out of memory, leaves
/// the text as it was.
pub fn write_tree(alloc: Global, store: &Store, text: &mut Vec<u8>) -> Result<(), AllocError>
    ensures ok { OnOk result (AppendsTree (graph_of store.now) text.old.items text.new.items) }
    ensures err { OnErr result (text.new.items ≡ text.old.items) }
{
    let mut line = Addition::new(mem::replace(text, Vec::new(alloc)));
    let added = push_tree(alloc, store, &mut line);
    put_back(added, line, text)
}
