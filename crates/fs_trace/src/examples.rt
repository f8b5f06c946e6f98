//! A worked example, which the check computes from the definitions.

ghost use Rattle.fs_trace.specs.Examples.{SchedulesRead};

/// Scripts with the words of four turns, as they are read back.
pub fn schedules()
    ensures { SchedulesRead }
{}
