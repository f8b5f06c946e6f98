//! What holds of the moments that are shown. The function's contract is a law, and its body is empty.

ghost use Rattle.fs_trace_story.specs.Laws.{EveryIsAll};

/// Where every event is asked for, each moment of a run is shown, in order.
pub fn every_is_all()
    ensures { EveryIsAll }
{}
