//! What a finish does, found before it is done.

ghost use Rattle.std.specs.Prelude.{◌≡◌};
ghost use Rattle.fs_ops_effects.specs.Plans.{along, between, moved_by};

use fs_calls::Errno;
use fs_machine::Moved;
use fs_nodes::NodeNo;

/// The route of a call on two entries: the directory of each, and the node that a rename holds so as to remove it.
#[derive(Clone, Copy, Debug, PartialEq, Eq)]
pub struct Route {
    /// The directory of the first path.
    pub source: NodeNo,
    /// The directory of the second path.
    pub dest: NodeNo,
    /// The node that the second name had.
    pub victim: Option<NodeNo>,
}

impl Route {
    /// A node's entry goes along it, in the place of another one or not.
    pub fn moving(self, moved: NodeNo, replaces: bool) -> Moving
        ensures { result ≡ along self moved replaces }
    {
        Moving {
            source: self.source,
            dest: self.dest,
            moved,
            replaces,
            victim: self.victim,
        }
    }

    /// The nodes at its ends change places.
    pub fn swapping(self, first: NodeNo, second: NodeNo) -> Swapping
        ensures { result ≡ between self first second }
    {
        Swapping {
            source: self.source,
            dest: self.dest,
            first,
            second,
        }
    }
}

/// An entry that goes to another directory, or to another name.
#[derive(Clone, Copy, Debug, PartialEq, Eq)]
pub struct Moving {
    /// Where its entry is.
    pub source: NodeNo,
    /// Where it goes.
    pub dest: NodeNo,
    /// What the entry names.
    pub moved: NodeNo,
    /// Whether the new name has an entry, which goes first.
    pub replaces: bool,
    /// The node that the new name had, as the call holds it: it is removed.
    pub victim: Option<NodeNo>,
}

/// Two entries that change what they name.
#[derive(Clone, Copy, Debug, PartialEq, Eq)]
pub struct Swapping {
    /// The directory of the first one.
    pub source: NodeNo,
    /// The directory of the second one.
    pub dest: NodeNo,
    /// What the first one names.
    pub first: NodeNo,
    /// What the second one names.
    pub second: NodeNo,
}

/// What the finish of a call does, by its row of the table of errors and at these nodes. It is good for the state in which it
/// was found, until something changes there.
#[derive(Clone, Copy, Debug, PartialEq, Eq)]
pub enum Plan {
    /// The call fails and changes nothing.
    Fails(Errno),
    /// It changes nothing: both paths of a call on two entries are one.
    Stays,
    /// A call on a node reads or changes what is there.
    Answers(NodeNo),
    /// The reserved number gets an entry in this directory.
    Adds(NodeNo),
    /// An entry of this directory goes.
    Removes(NodeNo),
    /// The entry of this node moves to a name that is free.
    Moves(NodeNo),
    /// The entry of this node moves, and the one that the new name had goes.
    Replaces(NodeNo),
    /// The entries of these nodes change what they name.
    Swaps(NodeNo, NodeNo),
}

impl Plan {
    /// What the finish would really move.
    pub fn moved(&self) -> Moved
        ensures { result ≡ moved_by self.now }
    {
        match self {
            Plan::Moves(node) | Plan::Replaces(node) => Moved::One(*node),
            Plan::Swaps(first, second) => Moved::Two(*first, *second),
            Plan::Fails(_) | Plan::Stays | Plan::Answers(_) | Plan::Adds(_) | Plan::Removes(_) => {
                Moved::Nothing
            }
        }
    }
}
