//! Worked examples, which the check computes from the definitions.

ghost use Rattle.fs_linearize_histories.specs.Examples.{ExplainedHistories, FaultExamples};

/// Histories, each with a timeline that explains it: commits in another order than begins and returns, a start tree, an
/// exchange, a call that never returned.
pub fn explained_histories()
    ensures { ExplainedHistories }
{}

/// Each kind of fault of a history, and histories without one.
pub fn faults()
    ensures { FaultExamples }
{}
