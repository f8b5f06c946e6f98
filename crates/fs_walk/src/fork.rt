//! A walk with two heads.

ghost use Rattle.std.specs.Prelude.{◌≡◌, ◌≤◌, ◌<◌, Some, is_some};
ghost use Rattle.fs_walk.specs.Ways.{new_fork, has_set_out, walking, fork_took, head_name, fork_left};
ghost use Rattle.fs_walk.specs.declared.head.Side.TheVariants as sides;
ghost use Rattle.fs_walk.specs.Wants.{fork_want, dir_want};
ghost use Rattle.fs_nodes.specs.Stores.{graph_of};

use crate::head::{Head, Side};
use crate::names::parent_name;
use crate::want::{Want, at_dir, step_want};
use fs_names::{PATH_LIMIT, Path};
use fs_nodes::{NodeNo, Store};
use std::marker::Model;

/// Two heads from a common directory on: one to the parent of a source path, and then one to the parent of a
/// destination path. Each holds the node where it is; after a step of either, the one that it left is held too. The
/// common directory is held all the time, and by neither head.
#[derive(Debug, Drop)]
pub struct Fork {
    node: NodeNo,
    names: usize,
    source: Head,
    dest: Head,
    behind: Option<NodeNo>,
}

impl Model for Fork {
    ghost use Rattle.fs_walk.specs.Ways.{ForkWay, IsForkWay};

    ghost Value = { ForkWay };

    ghost view = { λ f. record { node = f.node; names = f.names; source = f.source; dest = f.dest; behind = f.behind } };

    ghost invariant = { λ f. IsForkWay f.names f.source f.dest };
}

/// What a head wants next on its way to the parent of a path, of which so many names lead to the common directory.
fn head_next(head: &Head, path: &Path, names: usize, store: &Store) -> Want
    requires names { names ≤ PATH_LIMIT }
    requires walked { head.now.walked ≤ PATH_LIMIT }
    ensures { result ≡ dir_want (graph_of store.now) head.now (head_name path.now names head.now) }
{
    let name = parent_name(path, names + head.walked);
    step_want(store, head.node, name).then(at_dir(store, head.node))
}

impl Fork {
    /// Both heads at a common directory, to which so many first names of both paths lead, 2,048 at most.
    pub fn new(node: NodeNo, names: usize) -> Fork
        requires { names ≤ PATH_LIMIT }
        ensures { result ≡ new_fork node names }
    {
        Fork {
            node,
            names,
            source: Head::new(node),
            dest: Head::new(node),
            behind: None,
        }
    }

    /// The common directory.
    pub fn node(&self) -> NodeNo
        ensures { result ≡ self.now.node }
    {
        self.node
    }

    /// How many names lead to the common directory, 2,048 at most.
    pub fn names(&self) -> usize
        ensures names { result ≡ self.now.names }
        ensures most { result ≤ PATH_LIMIT }
    {
        self.names
    }

    /// The source head.
    pub fn source(&self) -> Head
        ensures source { result ≡ self.now.source }
        ensures most { result.walked ≤ PATH_LIMIT }
    {
        self.source
    }

    /// The destination head.
    pub fn dest(&self) -> Head
        ensures dest { result ≡ self.now.dest }
        ensures most { result.walked ≤ PATH_LIMIT }
    {
        self.dest
    }

    /// The node that the last step of a head left, while it is held.
    pub fn behind(&self) -> Option<NodeNo>
        ensures { result ≡ self.now.behind }
    {
        self.behind
    }

    /// Whether a head has walked a name.
    pub fn has_set_out(&self) -> bool
        ensures { result ≡ has_set_out self.now }
    {
        self.source.walked > 0 || self.dest.walked > 0
    }

    /// What it wants next, along the paths that it is lent, the same ones each time. The node that was left is let go
    /// first. From a common directory first the source head walks to the parent of the source path, then the
    /// destination head to that of the destination path. It fails with ENOTDIR if a file has a name ahead or is in the
    /// place of a parent, and with ENOENT if a name is missing (POSIX.1-2017, XBD 4.13, Pathname Resolution).
    pub fn next(&self, source: &Path, dest: &Path, store: &Store) -> Want
        ensures { result ≡ fork_want (graph_of store.now) source.now dest.now self.now }
    {
        if let Some(behind) = self.behind {
            return Want::LetGo(behind);
        }
        // The destination head looks its name up only where the source head has arrived.
        let source_want = head_next(&self.source, source, self.names, store);
        let first = at_dir(store, self.node).then(source_want);
        match first {
            Want::Arrived => head_next(&self.dest, dest, self.names, store),
            Want::Take(_) | Want::LetGo(_) | Want::Fails(_) => first,
        }
    }

    /// The side of the head that walks next: the source, where a name is ahead of its head, and else the destination. None: both
    /// have walked all names to their parents.
    pub fn walking(&self, source: &Path, dest: &Path) -> Option<Side>
        ensures side { result ≡ walking source.now dest.now self.now }
        ensures source { result ≡ Some sides.Source → self.now.source.walked < PATH_LIMIT }
        ensures dest { result ≡ Some sides.Dest → self.now.dest.walked < PATH_LIMIT }
    {
        if parent_name(source, self.names + self.source.walked).is_some() {
            Some(Side::Source)
        } else if parent_name(dest, self.names + self.dest.walked).is_some() {
            Some(Side::Dest)
        } else {
            None
        }
    }

    /// The head that walks next has taken a node. The node where it was is left then, unless that is the common
    /// directory. If both have arrived, neither takes it: nothing changes, and it answers false.
    pub fn took(&mut self, source: &Path, dest: &Path, node: NodeNo) -> bool
        ensures fork { self.new ≡ fork_took source.now dest.now self.old node }
        ensures took { result ≡ is_some (walking source.now dest.now self.old) }
    {
        match self.walking(source, dest) {
            Some(Side::Source) => self.behind = self.source.took(node),
            Some(Side::Dest) => self.behind = self.dest.took(node),
            None => return false,
        }
        true
    }

    /// It lets the node go that it left; another one changes nothing.
    pub fn let_go(&mut self, node: NodeNo)
        ensures { self.new ≡ fork_left self.old node }
    {
        if self.behind == Some(node) {
            self.behind = None;
        }
    }
}
