//! Worked examples: each is a run of the machine, with what each step answers.

ghost use Rattle.fs_laws.specs.Examples.{FirstMkdir, CallsOnTheRoot, WaitsForTheRoot, HelpedMkdir, LowestFirst, HelpedRename, HelpedOnBothSides, LeastBelowSecondPath, VictimIsWaitedFor};

/// The first mkdir, step by step.
pub fn first_mkdir()
    ensures { FirstMkdir }
{}

/// Calls on the root take nothing.
pub fn calls_on_the_root()
    ensures { CallsOnTheRoot }
{}

/// A call waits for the root while another holds it.
pub fn waits_for_the_root()
    ensures { WaitsForTheRoot }
{}

/// A rename helps a mkdir below the node that it moves.
pub fn helped_mkdir()
    ensures { HelpedMkdir }
{}

/// Of two calls below the moved node, the lowest is helped first.
pub fn lowest_first()
    ensures { LowestFirst }
{}

/// A rename helps a rename below the node that it moves.
pub fn helped_rename()
    ensures { HelpedRename }
{}

/// An exchange helps the calls below both nodes that it moves.
pub fn helped_on_both_sides()
    ensures { HelpedOnBothSides }
{}

/// Of calls below both nodes, the one with the least number is helped first, also if it is below the second path.
pub fn least_below_second_path()
    ensures { LeastBelowSecondPath }
{}

/// An unlink waits for the victim that another call holds.
pub fn victim_is_waited_for()
    ensures { VictimIsWaitedFor }
{}
