//! What holds of the end of calls. Each function's contract is a law, and its body is empty.

ghost use Rattle.fs_laws.specs.EndingLaws.{StepsAreFew, CallsCanEnd};

/// Whoever steps the pending calls, of whichever seats and in whatever order, comes to an end within the bound on the
/// steps that are left.
pub fn steps_are_few()
    ensures { StepsAreFew }
{}

/// All pending calls can be stepped to their ends, also those whose callers have left.
pub fn calls_can_end()
    ensures { CallsCanEnd }
{}
