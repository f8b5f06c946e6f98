//! What holds of the machine. Each function's contract is a law, and its body is empty.

ghost use Rattle.fs_laws.specs.Laws.{
  GoesPastAll,
  TreesAsMaps,
  Linearization,
  PlacedGoFirst,
  EarlierGoFirst,
  HeadsStandClear,
  PlacedSettle,
  FinishNeverWaits,
  HelpsAreBounded,
  EachSeatSteps,
  WaitersStandAbove,
  SomeCallGoesOn,
  StepsTakeWork,
  BeginsAddWork,
  PlacesAreTold,
  CallsMeetTheTree,
};

/// A call that finishes goes past all placed calls: they settle to what it leaves of their settled tree, it answers the
/// same on both, and so does each of them.
#[tactic(auto, using(crate::proofs::helping::FinishPassesPlaced::past_all))]
pub fn past_all()
    ensures { GoesPastAll }
{}

/// A tree that is seen as a map answers each call as the map does, and leaves what the map leaves.
pub fn trees_as_maps()
    ensures { TreesAsMaps }
{}

/// The linearization theorem, over every run. The timeline is well formed, and each returned reply is the one that the
/// sequential tree gives at the call's commit. If no call is pending, the nodes spell the played tree.
pub fn linearization()
    ensures { Linearization }
{}

/// Over every run no walking call is below the position of a placed one.
pub fn placed_go_first()
    ensures { PlacedGoFirst }
{}

/// Over every run no placed call is below the position of one placed earlier.
pub fn earlier_go_first()
    ensures { EarlierGoFirst }
{}

/// Over every run no other call holds a node on the way from a rename's or an exchange's common directory to one of its
/// heads, the ends included.
pub fn heads_stand_clear()
    ensures { HeadsStandClear }
{}

/// Over every run the placed calls, each gone on alone by its own moves and in the order of their commits, leave nodes
/// that spell the tree that the commits play; and each of them replies what is due to its place among the commits.
pub fn placed_settle()
    ensures { PlacedSettle }
{}

/// Over every run the place in a placed call's phase is the number of commits before its own in the timeline.
pub fn places_are_told()
    ensures { PlacesAreTold }
{}

/// A step of a walking call whose next move is to finish helps another call or commits; it never answers that it has to
/// wait.
pub fn finish_never_waits()
    ensures { FinishNeverWaits }
{}

/// While a rename or an exchange is about to move nodes, no event brings a walking call below any of them. Each call
/// that it helps meanwhile walked below one from the first, and none is helped twice. So it helps at most as many as
/// there were.
pub fn helps_are_bounded()
    ensures { HelpsAreBounded }
{}

/// In every state of a run each seat has a step.
pub fn each_seat_steps()
    ensures { EachSeatSteps }
{}

/// Over every run a call that waits for one that waits itself is above it by one name or more. A call that holds
/// nothing counts as above the root.
pub fn waiters_stand_above()
    ensures { WaitersStandAbove }
{}

/// Over every run, if a call is pending, some seat's step answers neither that it waits nor that it is idle.
pub fn some_call_goes_on()
    ensures { SomeCallGoesOn }
{}

/// Over every run each step with which a call goes on takes one or more from a bound on the steps that all pending
/// calls have left together. So, without new calls, the runs in which no step waits or idles are no longer than that.
pub fn steps_take_work()
    ensures { StepsTakeWork }
{}

/// Over every run a begin adds to that bound two steps for each name of the call's paths and twelve more.
pub fn begins_add_work()
    ensures { BeginsAddWork }
{}

/// A call that begins while no other is pending, and is stepped to its end, replies and changes as the sequential tree
/// says, and leaves no pending call.
pub fn calls_meet_the_tree()
    ensures { CallsMeetTheTree }
{}
