//! The moves that a pending call may do next.

ghost use Rattle.std.specs.Prelude.{◌↔◌, IsTrue};
ghost use Rattle.fs_machine.specs.States.{IsMoved};

use fs_calls::NodeNo;

/// What a finish would really move.
#[derive(Clone, Copy, Debug, PartialEq, Eq)]
pub enum Moved {
    /// No node.
    Nothing,
    /// This node, to another entry.
    One(NodeNo),
    /// These nodes, each to the other's entry.
    Two(NodeNo, NodeNo),
}

impl Moved {
    /// Whether this node would be moved.
    pub fn is(&self, node: NodeNo) -> bool
        ensures { IsTrue result ↔ IsMoved self.now node }
    {
        match self {
            Moved::Nothing => false,
            Moved::One(moved) => *moved == node,
            Moved::Two(moved, other) => *moved == node || *other == node,
        }
    }
}

/// What a pending call does next.
#[derive(Clone, Copy, Debug, PartialEq, Eq)]
pub enum Move {
    /// It takes this node.
    Take(NodeNo),
    /// It lets this node go.
    LetGo(NodeNo),
    /// It finishes, and would really move these nodes.
    Finish(Moved),
    /// It returns.
    Return,
}
