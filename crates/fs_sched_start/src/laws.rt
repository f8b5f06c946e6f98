//! What holds of runs from a tree. Each function's contract is a law, and its body is empty.

ghost use Rattle.fs_sched_start.specs.Laws.{OneRunFrom, StartsAreAlike, StartsKeepLimits};

/// Two states that begin at one tree, whatever numbers its nodes have, are one but for these numbers.
pub fn starts_are_alike()
    ensures { StartsAreAlike }
{}

/// Two runs of one script by one schedule from one tree have one start tree and one timeline, and spell one tree.
pub fn one_run_from()
    ensures { OneRunFrom }
{}

/// A tree that was read by some limits keeps these limits.
pub fn starts_keep_limits()
    ensures { StartsKeepLimits }
{}
