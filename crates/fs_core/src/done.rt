//! What the call on a seat did, in a word or two.

use fs_names::CallNo;
use fs_nodes::NodeNo;

/// What a step did, without a reply and without who holds the node that is wanted: it fits two registers, so that a walk
/// writes no answer that nobody looks at.
pub enum Done {
    /// No call is pending.
    Idle,
    /// It took this node.
    Took(NodeNo),
    /// It wants this node, which another call holds.
    Busy(NodeNo),
    /// It let this node go.
    LetGo(NodeNo),
    /// It gave another call its place.
    Helped(CallNo),
    /// It took its place, and made its change.
    Committed,
    /// It made its change.
    CarriedOut,
    /// Nothing yet: the call of this number returns next.
    Ends(CallNo),
}
