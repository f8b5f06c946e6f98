//! What holds of the machine, up to a renaming of node numbers. Each function's contract is a law, and its body is empty.

ghost use Rattle.fs_laws.specs.NumberLaws.{StepsRename, NoNumberLeaks, TwinsAreOne, NumbersAreCounted, TimelinesBeginAgain, FourAreHeld, StatesAgree};

/// A step of a state, with its numbers renamed, is a step of the renamed state.
pub fn steps_rename()
    ensures { StepsRename }
{}

/// Over every run the numbers in use are exactly those reached from the root, those that a pending call has reserved
/// and not used, and those that it has removed and still holds.
pub fn no_number_leaks()
    ensures { NoNumberLeaks }
{}

/// Two runs by the same seats and calls, whatever numbers they give to nodes, have one timeline and spell one tree.
pub fn twins_are_one()
    ensures { TwinsAreOne }
{}

/// Over every run no more numbers are in use than the start tree has nodes, and one for each call that began.
pub fn numbers_are_counted()
    ensures { NumbersAreCounted }
{}

/// Over every run each pending call holds at most four nodes.
pub fn four_are_held()
    ensures { FourAreHeld }
{}

/// Over every run a node's holder is the pending call that holds it, each pending call is on its seat, names lead
/// through a graph of directories and files within their limits, and numbers in use are below theirs.
pub fn states_agree()
    ensures { StatesAgree }
{}

/// If no call is pending, the timeline can begin again at the tree that it plays: that is a state of a run.
pub fn timelines_begin_again()
    ensures { TimelinesBeginAgain }
{}
