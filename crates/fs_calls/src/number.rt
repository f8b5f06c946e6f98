//! The numbers of nodes.

ghost use Rattle.std.specs.Prelude.{◌≡◌, ℕ};

use std::marker::Model;

/// The number of a node. The root's is 0.
#[derive(Clone, Copy, Debug, Default, PartialEq, Eq, PartialOrd, Ord, Hash)]
pub struct NodeNo {
    number: usize,
}

impl Model for NodeNo {
    ghost Value = { ℕ };

    ghost view = { λ n. n.number };

    ghost inverse = { λ n. record { number = n } };
}

impl NodeNo {
    /// The root.
    pub const ROOT: NodeNo = NodeNo { number: 0 };

    /// The node of this number; the root's is 0.
    pub fn new(number: usize) -> Self
        ensures { result ≡ number }
    {
        NodeNo { number }
    }

    /// The number that it was made with.
    pub fn get(self) -> usize
        ensures { result ≡ self }
    {
        self.number
    }
}
