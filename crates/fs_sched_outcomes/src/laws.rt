//! What the definitions say together. Each function's contract is a law, and its body is empty.

ghost use Rattle.fs_sched_outcomes.specs.Asserts.{HoldsAsSaid};

/// An assertion that holds is so of all the runs, and one that does not is broken by them.
pub fn holds_as_said()
    ensures { HoldsAsSaid }
{}
