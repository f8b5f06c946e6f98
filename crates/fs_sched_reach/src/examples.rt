//! Worked examples, which the check computes from the definitions.

ghost use Rattle.fs_sched_reach.specs.Examples.{CallsCome, TextsPlain, WordsRead};

/// Words that name a call, words that do not, and what is written for a count.
pub fn words()
    ensures { WordsRead }
{}

/// When a call has begun, and when it has its commit: by its own step, or by one of a call that helps it.
pub fn calls()
    ensures { CallsCome }
{}

/// Texts whose schedules name calls, and the same without these.
pub fn texts()
    ensures { TextsPlain }
{}
