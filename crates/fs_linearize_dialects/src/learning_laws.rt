//! What holds of rows that are learned. Each function's contract is a law, and its body is empty.

ghost use Rattle.fs_linearize_dialects.specs.LearningLaws.{ProposedAreAll};

/// The table that is proposed for rows has each of them.
pub fn proposed_are_all()
    ensures { ProposedAreAll }
{}
