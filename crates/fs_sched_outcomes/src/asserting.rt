//! Drawn runs of which the ends are counted, and what is asserted of them decided.

ghost use Rattle.std.specs.Prelude.{◌≡◌, ◌++◌, ◌∷◌, [], ◌≤◌, IfOk, OnOk, IfErr};
ghost use Rattle.fs_script.specs.Limits.{call_limit};
ghost use Rattle.fs_sched.specs.Origins.{CanBegin, LacksRun};
ghost use Rattle.fs_sched.specs.Runs.{calls_in};
ghost use Rattle.fs_sched.specs.declared.seeding.TheConstants.{SEED_LIMIT};
ghost use Rattle.fs_sched_outcomes.specs.declared.running.TheConstants.{OUTCOME_LIMIT};
ghost use Rattle.fs_sched_outcomes.specs.Asserts.{name_calls, AreDecidedOn, IsDecidedOn};
ghost use Rattle.fs_sched_outcomes.specs.Makes.{MakesCounted};

use crate::assertion::Assertion;
use crate::fault::OutcomesFault;
use crate::lines::Form;
use crate::running::outcomes_of;
use fs_sched::{Campaign, Policy, RunFault, Witness};
use fs_sched_find::{first_seed, names_calls};
use fs_sched_seen::Seen;
use fs_sched_start::{StartFault, TreeText, planned_in};
use fs_script::Script;
use fs_verdict::{Command, Made};
use std::alloc::Global;

/// Whether a script has each call that assertions name.
fn name_calls(script: &Script, asserts: &[Assertion<'_>]) -> bool
    ensures { result ≡ name_calls script.now asserts.now }
{
    asserts
        .iter()
        .all(|assertion| names_calls(script, &assertion.what))
}

/// The first of so many runs that decides an assertion, if one does.
fn decided<Listener: Witness>(
    alloc: Global,
    campaign: &Campaign,
    script: &Script,
    assertion: &Assertion<'_>,
    seed: u64,
    runs: u64,
    witness: &mut Listener,
) -> Result<Option<u64>, RunFault>
    requires few { calls_in script.now.lists ≤ call_limit script.now.limits }
    requires begins { CanBegin campaign.now.from script.now.limits }
    requires seed { seed ≤ SEED_LIMIT }
    requires runs { runs ≤ OUTCOME_LIMIT }
    ensures decided { IfOk result (IsDecidedOn campaign.now script.now seed runs assertion.now) }
    ensures fault { IfErr result (LacksRun campaign.now script.now seed runs) }
{
    let wanted = assertion.quantifier.deciding();
    first_seed(
        alloc,
        campaign,
        script,
        &assertion.what,
        wanted,
        seed,
        runs,
        witness,
    )
}

fn push_decided(one: Option<u64>, all: &mut Vec<Option<u64>>) -> Result<(), RunFault>
    ensures ok { OnOk result (all.new.items ≡ all.old.items ++ one ∷ []) }
    ensures fault { IfErr result (λ fault. fault ≡ RunFault.OutOfMemory) }
{
    match all.push(one) {
        Ok(()) => Ok(()),
        Err(_) => Err(RunFault::OutOfMemory),
    }
}

/// The same of each.
fn all_decided<Listener: Witness>(
    alloc: Global,
    campaign: &Campaign,
    script: &Script,
    asserts: &[Assertion<'_>],
    seed: u64,
    runs: u64,
    witness: &mut Listener,
) -> Result<Vec<Option<u64>>, RunFault>
    requires few { calls_in script.now.lists ≤ call_limit script.now.limits }
    requires begins { CanBegin campaign.now.from script.now.limits }
    requires seed { seed ≤ SEED_LIMIT }
    requires runs { runs ≤ OUTCOME_LIMIT }
    ensures decided { IfOk result (λ all. AreDecidedOn campaign.now script.now seed runs asserts.now all.items) }
    ensures fault { IfErr result (LacksRun campaign.now script.now seed runs) }
{
    let mut all = Vec::new(alloc);
    for assertion in asserts {
        let one = match decided(alloc, campaign, script, assertion, seed, runs, witness) {
            Ok(one) => one,
            Err(fault) => return Err(fault),
        };
        push_decided(one, &mut all)?;
    }
    Ok(all)
}

/// What drawn runs came to.
#[derive(Drop)]
pub struct Counted {
    /// For each assertion the number of the first run that decides it, if one does: for `never` and `sometimes` one that has what is
    /// said, for `always` one that has it not.
    pub decided: Vec<Option<u64>>,
    /// How much was seen.
    pub seen: Seen,
}

/// The lines of the ends of the runs of the script that a text has, and the first of these runs that decide what is asserted. The text
/// is let go once it is read.
fn counted_in<Listener: Witness>(
    alloc: Global,
    tree: TreeText,
    by: Policy,
    text: Vec<u8>,
    asserts: &[Assertion<'_>],
    seed: u64,
    runs: u64,
    form: Form,
    witness: &mut Listener,
) -> Result<Made<Counted>, OutcomesFault>
    requires seed { seed ≤ SEED_LIMIT }
    requires runs { runs ≤ OUTCOME_LIMIT }
    ensures { MakesCounted asserts.now tree by seed runs form text.items result }
{
    let planned = match planned_in(alloc, tree, by, text.as_slice()) {
        Ok(planned) => planned,
        Err(fault) => return Err(OutcomesFault::Start(fault)),
    };
    drop(text);
    let (script, campaign) = (&planned.script, &planned.campaign);
    if !name_calls(script, asserts) {
        return Err(OutcomesFault::NoCall);
    }
    let decided = match all_decided(alloc, campaign, script, asserts, seed, runs, witness) {
        Ok(decided) => decided,
        Err(fault) => return Err(OutcomesFault::Start(StartFault::Run(fault))),
    };
    match outcomes_of(alloc, campaign, script, seed, runs, form, witness) {
        Ok(made) => Ok(Made {
            text: made.text,
            end: Counted {
                decided,
                seen: made.end,
            },
        }),
        Err(fault) => Err(OutcomesFault::Start(StartFault::Run(fault))),
    }
}

/// So many runs of a script, with the schedules that a policy draws from a number, the next one, and so on, counted by their ends: what
/// is made is a line for each different end, the most frequent first. If there is the text of a tree, each run begins at that, which is
/// read by the limits of the script, as `fs_sched_start::RunFrom` reads it. Each assertion is decided by these runs. A listener hears of
/// each run, once for each assertion and once for the lines.
#[derive(Drop)]
pub struct CountOutcomes<'a> {
    /// The text of the tree, if there is one.
    pub tree: TreeText,
    /// By which the schedules are drawn.
    pub by: Policy,
    /// What is asserted of the runs.
    pub asserts: &'a [Assertion<'a>],
    /// The number from which the first is drawn, at most `SEED_LIMIT`.
    pub seed: u64,
    /// How many runs, at most `OUTCOME_LIMIT`.
    pub runs: u64,
    /// What the lines have.
    pub form: Form,
}

impl<'a, Listener: Witness> Command<Listener> for CountOutcomes<'a> {
    ghost use Rattle.std.specs.Prelude.{◌≤◌};
    ghost use Rattle.fs_sched.specs.declared.seeding.TheConstants.{SEED_LIMIT};
    ghost use Rattle.fs_sched_outcomes.specs.declared.running.TheConstants.{OUTCOME_LIMIT};
    ghost use Rattle.fs_sched_outcomes.specs.Makes.{MakesCounted};
    ghost use Rattle.fs_sched_outcomes.specs.code.Laws.{count_honest};

    type End = Counted;

    type Fault = OutcomesFault;

    ghost Asks = { λ c. (c.seed ≤ SEED_LIMIT) × (c.runs ≤ OUTCOME_LIMIT) };

    ghost Makes = { λ c. MakesCounted c.asserts.now c.tree c.by c.seed c.runs c.form };

    fn make(
        self,
        alloc: Global,
        input: Vec<u8>,
        listener: &mut Listener,
    ) -> Result<Made<Counted>, OutcomesFault> {
        let CountOutcomes {
            tree,
            by,
            asserts,
            seed,
            runs,
            form,
        } = self;
        counted_in(alloc, tree, by, input, asserts, seed, runs, form, listener)
    }

    ghost honest = { λ c. count_honest c.asserts.now c.tree c.by c.seed c.runs c.form };
}
