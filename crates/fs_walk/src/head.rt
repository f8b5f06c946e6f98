//! One head of a fork, and the sides of both.

ghost use Rattle.std.specs.Prelude.{◌≡◌, ◌<◌};
ghost use Rattle.fs_walk.specs.Ways.{start_at, head_held, head_took};

use fs_names::PATH_LIMIT;
use fs_nodes::NodeNo;

/// Which of the two heads of a fork.
#[derive(Clone, Copy, Debug, PartialEq, Eq)]
pub enum Side {
    /// The head on its way to the parent of the source path.
    Source,
    /// The one on its way to that of the destination path.
    Dest,
}

/// Where a head is: how many names it has walked from the common directory on, and its node.
#[derive(Clone, Copy, Debug, PartialEq, Eq)]
pub struct Head {
    pub walked: usize,
    pub node: NodeNo,
}

impl Head {
    /// A head that has walked no name from a common directory.
    pub fn new(node: NodeNo) -> Head
        ensures { result ≡ start_at node }
    {
        Head { walked: 0, node }
    }

    /// The node that it holds: the one where it is, if that is not the common directory.
    pub fn held(self) -> Option<NodeNo>
        ensures { result ≡ head_held self }
    {
        if self.walked > 0 {
            Some(self.node)
        } else {
            None
        }
    }

    /// It steps to a node, and gives the one that it held, which it leaves.
    pub fn took(&mut self, node: NodeNo) -> Option<NodeNo>
        requires { self.old.walked < PATH_LIMIT }
        ensures head { self.new ≡ head_took self.old node }
        ensures behind { result ≡ head_held self.old }
    {
        let behind = self.held();
        self.node = node;
        self.walked += 1;
        behind
    }
}
