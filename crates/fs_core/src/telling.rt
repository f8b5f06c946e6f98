//! What every core keeps, proved to a caller by calls that do nothing.

ghost use Rattle.std.specs.Prelude.{ℕ, ◌+◌, ◌≤◌, length};
ghost use Rattle.fs_nodes.specs.Graphs.{IsGraph};
ghost use Rattle.fs_nodes.specs.Stores.{graph_of, used_below};
ghost use Rattle.fs_timeline.specs.Timeline.{begins};
ghost use Rattle.fs_laws.specs.Below.{
  NoWalkingBelow,
  NoLaterBelow,
  NobodyBetween,
  Settles,
  PlacesAreCounted,
  NeverWaitsToFinish,
  HelpsAreFew,
};
ghost use Rattle.fs_laws.specs.Progress.{HasStep, WaitsBelow, IsNeverStuck};
ghost use Rattle.fs_machine.specs.Laws.{IsDetermined};
ghost use Rattle.fs_laws.specs.StepsLeft.{TakesWork, AddsWork};
ghost use Rattle.fs_laws.specs.OneCall.{MeetsTreeAlone};
ghost use Rattle.fs_laws.specs.Numbers.{NumbersAreKept};
ghost use Rattle.fs_laws.specs.Agreement.{PartsAgree};
ghost use Rattle.fs_laws.specs.Holdings.{HoldsFour};
ghost use Rattle.fs_core.specs.CoreValues.{state_of};
ghost use Rattle.fs_core.specs.Told.{RepliesStay, NamesAnother, DeepestWaitsForOneThatGoesOn};

use crate::engine::Core;

impl Core {
    /// Of helping: no walking call is below a placed one, no placed call below one placed earlier, and no other call
    /// between a rename's or exchange's common directory and its heads. The placed calls, each gone on alone in the
    /// order of their commits, leave the tree that the commits play, and reply what is due to them; no step, of whichever
    /// call, changes what is due to a placed one. A finish never waits, and helps at most as many calls as walked below the
    /// nodes that it moves.
    pub fn told_of_helping(&self)
        ensures placed_first { NoWalkingBelow (state_of self.now) }
        ensures earlier_first { NoLaterBelow (state_of self.now) }
        ensures heads_clear { NobodyBetween (state_of self.now) }
        ensures settles { Settles (state_of self.now) }
        ensures replies_stay { RepliesStay (state_of self.now) }
        ensures places { PlacesAreCounted (state_of self.now) }
        ensures never_waits { NeverWaitsToFinish (state_of self.now) }
        ensures few_helps { HelpsAreFew (state_of self.now) }
    {
        self.told();
    }

    /// What every core keeps of progress. Each seat has a step, which the state determines. A call that finds its node
    /// held gets the name of another call. A call that waits for a waiting call is above it, and each of the deepest
    /// waiting calls waits for one that can go on. If a call is pending, some seat's step lets one go on. Each such
    /// step takes from a bound on the steps that are left, to which a begin adds what its names ask. A call that runs
    /// alone replies and changes as the sequential tree says.
    pub fn told_of_progress(&self)
        ensures steps { (seat : ℕ) → HasStep (state_of self.now) seat }
        ensures determined { IsDetermined (state_of self.now) }
        ensures names_another { NamesAnother (state_of self.now) }
        ensures waiters_above { WaitsBelow (state_of self.now) }
        ensures deepest_goes_on { DeepestWaitsForOneThatGoesOn (state_of self.now) }
        ensures never_stuck { IsNeverStuck (state_of self.now) }
        ensures takes_work { TakesWork (state_of self.now) }
        ensures adds_work { AddsWork (state_of self.now) }
        ensures alone { MeetsTreeAlone (state_of self.now) }
    {
        self.told();
    }

    /// What every core keeps of numbers. In use are exactly those that are reached from the root, those that a pending
    /// call has reserved and not used, and those that it has removed and still holds. The graph is one, a node's holder
    /// is the call that holds it, a seat's call is the one that is pending there, and a call holds at most four nodes.
    pub fn told_of_numbers(&self)
        ensures no_leak { NumbersAreKept (state_of self.now) }
        ensures counted { used_below (graph_of self.now.store).shape (state_of self.now).limit ≤ begins self.now.timeline + length self.now.start.tree }
        ensures graph { IsGraph (graph_of self.now.store) }
        ensures agree { PartsAgree (state_of self.now) }
        ensures four { HoldsFour (state_of self.now) }
    {
        self.told();
    }
}
