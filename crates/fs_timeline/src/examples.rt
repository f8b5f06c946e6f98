//! Worked examples, which the check computes from the definitions.

ghost use Rattle.fs_timeline.specs.Examples.{VerdictExamples, CheckedJournals, StartedJournals};

/// Each kind of fault, and timelines that stop early.
pub fn verdicts()
    ensures { VerdictExamples }
{}

/// The journal of a first mkdir, and the same journal with a wrong reply and with two entries exchanged.
pub fn checked_journals()
    ensures { CheckedJournals }
{}

/// Two journals from a start tree that has the directory already.
pub fn started_journals()
    ensures { StartedJournals }
{}
