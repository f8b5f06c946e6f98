//! A walk with one head.

ghost use Rattle.std.specs.Prelude.{◌≡◌, ◌≤◌, IsTrue};
ghost use Rattle.fs_walk.specs.Ways.{new_way, way_took, may_take, way_left};
ghost use Rattle.fs_walk.specs.Wants.{want};
ghost use Rattle.fs_nodes.specs.Stores.{graph_of};

use crate::names::name_among;
use crate::want::{Want, step_want};
use fs_names::{PATH_LIMIT, Path};
use fs_nodes::{NodeNo, Store};
use std::marker::Model;

/// A walk from the root along so many first names of a path. It holds the node where it is and, after a step, the one
/// that it left; at first it holds nothing.
#[derive(Debug, Drop)]
pub struct Walk {
    names: usize,
    walked: usize,
    node: Option<NodeNo>,
    behind: Option<NodeNo>,
}

impl Model for Walk {
    ghost use Rattle.fs_walk.specs.Ways.{Way, IsWay};

    ghost Value = { Way };

    ghost view = { λ w. record { names = w.names; walked = w.walked; node = w.node; behind = w.behind } };

    ghost invariant = { λ w. IsWay w.names w.walked };
}

impl Walk {
    /// A walk along so many names of a path, 2,048 at most. It holds nothing.
    pub fn new(names: usize) -> Walk
        requires { names ≤ PATH_LIMIT }
        ensures { result ≡ new_way names }
    {
        Walk {
            names,
            walked: 0,
            node: None,
            behind: None,
        }
    }

    /// How many names of the path it goes along, 2,048 at most.
    pub fn names(&self) -> usize
        ensures names { result ≡ self.now.names }
        ensures most { result ≤ PATH_LIMIT }
    {
        self.names
    }

    /// Where it is. None: it holds nothing.
    pub fn node(&self) -> Option<NodeNo>
        ensures { result ≡ self.now.node }
    {
        self.node
    }

    /// The node that it left and still holds.
    pub fn behind(&self) -> Option<NodeNo>
        ensures { result ≡ self.now.behind }
    {
        self.behind
    }

    /// What it wants next, along the path that it is lent, the same one each time. First it wants the root, number 0;
    /// then to let go of the node that it left; then the node that the name ahead names. It fails with ENOTDIR if a
    /// file has a name ahead, and with ENOENT if the name is missing (POSIX.1-2017, XBD 4.13, Pathname Resolution).
    pub fn next(&self, path: &Path, store: &Store) -> Want
        ensures want { result ≡ want (graph_of store.now) path.now self.now }
        ensures within { self.now.walked ≤ self.now.names }
    {
        let Some(node) = self.node else {
            return Want::Take(NodeNo::ROOT);
        };
        if let Some(behind) = self.behind {
            return Want::LetGo(behind);
        }
        step_want(store, node, name_among(path, self.names, self.walked))
    }

    /// Whether it may take a node: it holds nothing, or a name is ahead.
    pub fn may_take(&self) -> bool
        ensures may { result ≡ may_take self.now }
        ensures within { self.now.walked ≤ self.now.names }
    {
        match self.node {
            Some(_) => self.walked < self.names,
            None => true,
        }
    }

    /// It has taken a node: the root, or the one that the name ahead named. The node where it was is left, and still
    /// held.
    pub fn took(&mut self, node: NodeNo)
        requires { IsTrue (may_take self.old) }
        ensures { self.new ≡ way_took self.old node }
    {
        self.behind = self.node;
        if self.node.is_some() {
            self.walked += 1;
        }
        self.node = Some(node);
    }

    /// It lets a node go that it left; another one changes nothing.
    pub fn let_go(&mut self, node: NodeNo)
        ensures { self.new ≡ way_left self.old node }
    {
        if self.behind == Some(node) {
            self.behind = None;
        }
    }
}
