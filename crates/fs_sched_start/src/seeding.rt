//! Runs of a script by drawn schedules of a policy, from a tree or from the root alone, one after the other.

ghost use Rattle.std.specs.Prelude.{◌≤◌};
ghost use Rattle.fs_sched.specs.declared.seeding.TheConstants.{SEED_LIMIT, RUN_LIMIT};
ghost use Rattle.fs_sched_start.specs.Makes.{MakesRunsAt};

use crate::fault::StartFault;
use crate::planned::{Planned, TreeText, planned_in};
use fs_sched::{Policy, Witness, seeds_of};
use fs_verdict::{Command, Made};
use std::alloc::Global;

/// The lines of so many drawn runs of the script that a text has. It is let go once it is read.
fn lines_at<Listener: Witness>(
    alloc: Global,
    tree: TreeText,
    by: Policy,
    text: Vec<u8>,
    seed: u64,
    runs: u64,
    witness: &mut Listener,
) -> Result<Made<bool>, StartFault>
    requires seed { seed ≤ SEED_LIMIT }
    requires runs { runs ≤ RUN_LIMIT }
    ensures { MakesRunsAt tree by seed runs text.items result }
{
    let planned = match planned_in(alloc, tree, by, text.as_slice()) {
        Ok(planned) => planned,
        Err(fault) => return Err(fault),
    };
    drop(text);
    let Planned { script, campaign } = planned;
    match seeds_of(alloc, &campaign, &script, seed, runs, witness) {
        Ok(made) => Ok(made),
        Err(fault) => Err(StartFault::Run(fault)),
    }
}

/// So many runs of a script, with the schedules that a policy draws from a number, the next one, and so on. Each run's journal is
/// checked, and what is made is a line for each, as `run_seeds` writes it; the answer is whether each run is lawful. If there is the
/// text of a tree, each run begins at that, which is read as by `RunFrom`. A listener hears of each run.
#[derive(Drop)]
pub struct RunSeeds {
    /// The text of the tree, if there is one.
    pub tree: TreeText,
    /// By which the schedules are drawn.
    pub by: Policy,
    /// The number from which the first is drawn, at most `SEED_LIMIT`.
    pub seed: u64,
    /// How many runs, at most `RUN_LIMIT`.
    pub runs: u64,
}

impl<Listener: Witness> Command<Listener> for RunSeeds {
    ghost use Rattle.std.specs.Prelude.{◌≤◌};
    ghost use Rattle.fs_sched.specs.declared.seeding.TheConstants.{SEED_LIMIT, RUN_LIMIT};
    ghost use Rattle.fs_sched_start.specs.Makes.{MakesRunsAt};
    ghost use Rattle.fs_sched_start.specs.code.Laws.{seeds_honest};

    type End = bool;

    type Fault = StartFault;

    ghost Asks = { λ c. (c.seed ≤ SEED_LIMIT) × (c.runs ≤ RUN_LIMIT) };

    ghost Makes = { λ c. MakesRunsAt c.tree c.by c.seed c.runs };

    fn make(
        self,
        alloc: Global,
        input: Vec<u8>,
        listener: &mut Listener,
    ) -> Result<Made<bool>, StartFault> {
        let RunSeeds {
            tree,
            by,
            seed,
            runs,
        } = self;
        lines_at(alloc, tree, by, input, seed, runs, listener)
    }

    ghost honest = { λ c. seeds_honest c.tree c.by c.seed c.runs };
}
