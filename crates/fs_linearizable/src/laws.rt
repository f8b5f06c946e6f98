//! What holds of the definitions. Each function's contract is a law, and its body is empty.

ghost use Rattle.fs_linearizable.specs.Laws.{LawfulIsLinearizable, LinearizableIsLawful, CommitsLinearize, LinearizationsCommit, SeatsTakeTurns};

/// The history of a lawful timeline is linearizable.
pub fn lawful_is_linearizable()
    ensures { LawfulIsLinearizable }
{}

/// A history is linearizable if and only if it is the history of a lawful timeline.
pub fn linearizable_is_lawful()
    ensures { LinearizableIsLawful }
{}

/// The calls that a lawful timeline commits are, in this order, a linearization of its history.
pub fn commits_linearize()
    ensures { CommitsLinearize }
{}

/// The calls of each linearization of a history are, in this order, what a lawful timeline of this history commits.
pub fn linearizations_commit()
    ensures { LinearizationsCommit }
{}

/// Of two calls on one seat the first precedes the second.
pub fn seats_take_turns()
    ensures { SeatsTakeTurns }
{}
