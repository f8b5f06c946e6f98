//! What holds of the definitions. Each function's contract is a law, and its body is empty.

ghost use Rattle.fs_linearize_histories.specs.Laws.{ExplainedFronts, ClosedSetsReach, ClosedSetsRefute, ConfigurationsAreFew, ExplainedAreHistories, ExplainedAreLinearizable, FaultsAreFirst};
ghost use Rattle.fs_linearize_histories.specs.Meeting.{ApartCallsCommute};
ghost use Rattle.fs_linearize_histories.specs.Paths.{StepsLead};

/// What a timeline explains is a history.
pub fn explained_are_histories()
    ensures { ExplainedAreHistories }
{}

/// A list of entries is a history exactly where it has no fault, and its fault names the first entry with which it is none.
pub fn faults_are_first()
    ensures { FaultsAreFirst }
{}

/// A timeline that explains a history explains it as its front.
pub fn explained_fronts()
    ensures { ExplainedFronts }
{}

/// A closed set of configurations has one at the end of each front that is explained.
pub fn closed_sets_reach()
    ensures { ClosedSetsReach }
{}

/// No timeline explains a history where a closed set of configurations has none at its end.
pub fn closed_sets_refute()
    ensures { ClosedSetsRefute }
{}

/// Each step of the search makes the timeline that leads to a configuration one entry longer.
pub fn steps_lead()
    ensures { StepsLead }
{}

/// A history has no more configurations than its entries give, so a search that makes more has made one twice.
pub fn configurations_are_few()
    ensures { ConfigurationsAreFew }
{}

/// Calls that do not meet commute.
pub fn apart_calls_commute()
    ensures { ApartCallsCommute }
{}

/// A timeline explains what was heard exactly where a linearizable history is heard so.
pub fn explained_are_linearizable()
    ensures { ExplainedAreLinearizable }
{}
