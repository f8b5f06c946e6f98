//! Worked examples: histories that are linearizable, and some that are not.

ghost use Rattle.fs_linearizable.specs.Examples.{LinearizableHistories, RefusedHistories};

/// Calls one after the other, calls that overlap, a call that never returned and took effect, or did not.
pub fn linearizable_histories()
    ensures { LinearizableHistories }
{}

/// A stale read, an effect that is seen and then no longer, a read of what nobody made, a response without an invocation.
pub fn refused_histories()
    ensures { RefusedHistories }
{}
