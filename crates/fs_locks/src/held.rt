//! The nodes that a call holds.

ghost use Rattle.std.specs.Prelude.{◌≡◌, ◌<◌, ◌≤◌, MatchOption, length, [], ◌∷◌, ◌++◌};
ghost use Rattle.fs_locks.specs.Held.{first_of, last_of};

use arrayvec::ArrayVec;
use fs_nodes::NodeNo;
use std::marker::Model;

/// The most nodes that a call holds at once.
pub const HELD_LIMIT: usize = 4;

/// At most four nodes, in the order taken. No call allocates.
#[derive(Debug, Drop)]
pub struct Held {
    nodes: ArrayVec<NodeNo, HELD_LIMIT>,
}

impl Model for Held {
    ghost use Rattle.std.specs.Prelude.{ℕ, List};

    ghost Value = { List ℕ };

    ghost view = { λ h. h.nodes.items };
}

impl Held {
    /// No node.
    pub fn new() -> Held
        ensures { result ≡ [] }
    {
        Held {
            nodes: ArrayVec::new(),
        }
    }

    /// How many nodes are held.
    pub fn len(&self) -> usize
        ensures len { result ≡ length self.now }
        ensures most { length self.now ≤ HELD_LIMIT }
    {
        self.nodes.len()
    }

    /// The nodes in the order taken.
    pub fn as_slice(&self) -> &[NodeNo]
        ensures { result.now ≡ self.now }
    {
        self.nodes.as_slice()
    }

    /// The node that was taken first.
    pub fn first(&self) -> Option<NodeNo>
        ensures { result ≡ first_of self.now }
    {
        self.nodes.first().copied()
    }

    /// The node that was taken last.
    pub fn last(&self) -> Option<NodeNo>
        ensures { result ≡ last_of self.now }
    {
        self.nodes.last().copied()
    }

    /// One more node, taken last.
    pub fn push(&mut self, node: NodeNo)
        requires { length self.old < HELD_LIMIT }
        ensures { self.new ≡ self.old ++ node ∷ [] }
    {
        self.nodes.push(node);
    }

    /// Takes out the node that was taken last.
    pub fn pop(&mut self) -> Option<NodeNo>
        ensures { MatchOption result ((self.old ≡ []) × (self.new ≡ [])) (λ node. self.old ≡ self.new ++ node ∷ []) }
    {
        self.nodes.pop()
    }
}

impl Default for Held {
    ghost is_default = { λ h. h ≡ [] };

    fn default() -> Self {
        Held::new()
    }
}
