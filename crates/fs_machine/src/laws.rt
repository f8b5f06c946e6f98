//! What holds of each step of the machine. The functions have no bodies: the contract of each is a law.

ghost use Rattle.fs_machine.specs.Laws.{
  StepsAreDetermined,
  StepsAddTheirEntries,
  TheLowestIsHelped,
  LeavingFreesAlone,
  TheLastTakenGoesFirst,
};

/// What a seat's step answers, and the state after it, are determined by the state.
pub fn steps_are_determined()
    ensures { StepsAreDetermined }
{}

/// A step adds to the timeline a Commit of the call that it helps or commits, a Return of the call that returns, and
/// nothing else; a call that is carried out has its Commit already.
pub fn steps_add_their_entries()
    ensures { StepsAddTheirEntries }
{}

/// Below a call that another one has helped there is no walking call.
pub fn the_lowest_is_helped()
    ensures { TheLowestIsHelped }
{}

/// A number in use leaves it when its node is let go, or when a call returns that reserved it; so the node that a finish
/// removes keeps its number until then.
pub fn leaving_frees_alone()
    ensures { LeavingFreesAlone }
{}

/// A call whose reply is fixed lets go of the nodes that it holds in the order in which it took them, the last one first.
pub fn the_last_taken_goes_first()
    ensures { TheLastTakenGoesFirst }
{}
