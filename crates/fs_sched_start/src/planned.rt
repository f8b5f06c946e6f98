//! A script, and how its runs are drawn, read of two texts.

ghost use Rattle.std.specs.Prelude.{◌≤◌, IfOk, IfErr, Some, None};
ghost use Rattle.fs_script.specs.Limits.{call_limit};
ghost use Rattle.fs_sched.specs.Origins.{CanBegin};
ghost use Rattle.fs_sched.specs.Runs.{calls_in};
ghost use Rattle.fs_sched_start.specs.code.Mades.{IsFaultOfPlanned, IsPlanned};

use crate::fault::StartFault;
use crate::given::given_in;
use fs_sched::{Campaign, Origin, Policy, script_in};
use fs_script::Script;
use std::alloc::Global;
use std::marker::Model;

/// The text of the tree at which runs begin, or of a journal that starts at one. Where there is none, they begin at the root alone.
#[derive(Drop)]
pub struct TreeText {
    text: Option<Vec<u8>>,
}

impl Model for TreeText {
    ghost use Rattle.std.specs.Prelude.{ℕ, List, Option, option_map};

    ghost Value = { Option (List ℕ) };

    ghost view = { λ t. option_map (λ text. text.items) t.text };
}

impl TreeText {
    ghost use Rattle.std.specs.Prelude.{◌≡◌};

    /// No text.
    pub fn none() -> TreeText
        ensures { result ≡ None }
    {
        TreeText { text: None }
    }

    /// This one.
    pub fn of(text: Vec<u8>) -> TreeText
        ensures { result ≡ Some text.items }
    {
        TreeText { text: Some(text) }
    }
}

/// A script, and how its runs are drawn.
#[derive(Drop)]
pub struct Planned {
    pub script: Script,
    pub campaign: Campaign,
}

/// The script that a text has, with runs from the root alone.
fn planned_at_root(alloc: Global, by: Policy, text: &[u8]) -> Result<Planned, StartFault>
    ensures planned { IfOk result (IsPlanned None by text.now) }
    ensures few { IfOk result (λ planned. calls_in planned.script.lists ≤ call_limit planned.script.limits) }
    ensures begins { IfOk result (λ planned. CanBegin planned.campaign.from planned.script.limits) }
    ensures fault { IfErr result (IsFaultOfPlanned None text.now) }
{
    match script_in(alloc, text) {
        Ok(script) => Ok(Planned {
            script,
            campaign: Campaign {
                from: Origin::Root,
                by,
            },
        }),
        Err(fault) => Err(StartFault::Run(fault)),
    }
}

/// The same with runs from the tree that another text has by the limits of the script. A fault of the script comes before one of the
/// tree.
fn planned_at(alloc: Global, tree: &[u8], by: Policy, text: &[u8]) -> Result<Planned, StartFault>
    ensures planned { IfOk result (IsPlanned (Some tree.now) by text.now) }
    ensures few { IfOk result (λ planned. calls_in planned.script.lists ≤ call_limit planned.script.limits) }
    ensures begins { IfOk result (λ planned. CanBegin planned.campaign.from planned.script.limits) }
    ensures fault { IfErr result (IsFaultOfPlanned (Some tree.now) text.now) }
{
    match given_in(alloc, tree, text) {
        Ok(given) => Ok(Planned {
            script: given.script,
            campaign: Campaign {
                from: given.from,
                by,
            },
        }),
        Err(fault) => Err(fault),
    }
}

/// The script that a text has, and how its runs are drawn by a policy: from the tree that another text has by the limits of the script,
/// or from the root alone where there is none. The text of the tree is let go once it is read.
pub fn planned_in(
    alloc: Global,
    tree: TreeText,
    by: Policy,
    text: &[u8],
) -> Result<Planned, StartFault>
    ensures planned { IfOk result (IsPlanned tree by text.now) }
    ensures few { IfOk result (λ planned. calls_in planned.script.lists ≤ call_limit planned.script.limits) }
    ensures begins { IfOk result (λ planned. CanBegin planned.campaign.from planned.script.limits) }
    ensures fault { IfErr result (IsFaultOfPlanned tree text.now) }
{
    match tree.text {
        Some(tree) => planned_at(alloc, tree.as_slice(), by, text),
        None => planned_at_root(alloc, by, text),
    }
}
