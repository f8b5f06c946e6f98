//! A script, and the tree at which its runs begin, read of two texts.

ghost use Rattle.std.specs.Prelude.{◌≡◌, ◌+◌, ◌<◌, ◌≤◌, length, get_or, Ok, IfOk, IfErr};
ghost use Rattle.fs_names.specs.Limits.{node_limit};
ghost use Rattle.fs_calls.specs.Starts.{Start};
ghost use Rattle.fs_seq.specs.Rows.{IsWithinLimits};
ghost use Rattle.fs_words.specs.Lines.{lines_of};
ghost use Rattle.fs_script.specs.Journals.{start_of};
ghost use Rattle.fs_script.specs.Limits.{call_limit};
ghost use Rattle.fs_sched.specs.Origins.{CanBegin};
ghost use Rattle.fs_sched.specs.Runs.{calls_in};
ghost use Rattle.fs_sched_start.specs.Faults.{told_lines, lines_before, IsTooLarge};
ghost use Rattle.fs_sched_start.specs.code.Mades.{IsCoreAt, IsFaultOfGiven, IsGiven, IsNoCore};

use crate::fault::{StartFault, tree_fault};
use fs_core::{Core, NoStart};
use fs_names::Limits;
use fs_sched::{Origin, RunFault, script_in};
use fs_script::{FaultKind, Script, ScriptFault, read_start};
use fs_seq::SeqTree;
use fs_words::lines::{cut_line, is_passed_over};
use std::alloc::Global;

/// A script, and where its runs begin.
#[derive(Drop)]
pub(crate) struct Given {
    pub(crate) script: Script,
    pub(crate) from: Origin,
}

/// The line of a text that stands behind so many lines that are not passed over; where there are fewer, the number of lines.
fn line_behind(text: &[u8], lines: usize) -> u64
    ensures { result ≡ get_or (told_lines 1 (lines_of text.now)) lines (length (lines_of text.now)) }
{
    let mut left = text;
    let mut told = 0usize;
    let mut number = 0u64;
    'lines: while let Some((line, rest)) = cut_line(left) {
        number += 1;
        if !is_passed_over(line) {
            if told == lines {
                return number;
            }
            told += 1;
        }
        left = rest;
    }
    number
}

/// How many lines that are not passed over stand in front of the nodes of a tree, or of those of a journal.
fn lines_before(text: &[u8]) -> usize
    ensures { result ≡ lines_before text.now }
{
    if text.starts_with(b"tree\n") { 1 } else { 2 }
}

/// The fault of the text of a tree, or of a journal, that has more nodes than there are numbers by these limits: its line is that
/// of the first node too many.
#[tactic(auto, using(fs_names::proofs::LimitLemmas::nodes_have_room))]
fn too_many_nodes(text: &[u8], limits: Limits) -> StartFault
    ensures { (start : Start) → start_of limits text.now ≡ Ok start → node_limit limits < length start.tree → IsTooLarge limits text.now result }
{
    StartFault::Tree(ScriptFault {
        line: line_behind(text, lines_before(text) + limits.nodes()),
        kind: FaultKind::TooLarge,
    })
}

/// The tree that a text has by these limits.
fn tree_in(alloc: Global, text: &[u8], limits: Limits) -> Result<SeqTree, StartFault>
    ensures tree { IfOk result (λ start. start_of limits text.now ≡ Ok start) }
    ensures kept { IfOk result (λ start. start.limits ≡ limits) }
    ensures within { IfOk result (λ start. IsWithinLimits start.limits start.tree) }
    ensures fault { IfErr result (IsNoCore limits text.now) }
{
    match read_start(alloc, text, limits) {
        Ok(start) => Ok(start),
        Err(fault) => Err(tree_fault(fault)),
    }
}

/// A core at the tree that a text has by these limits.
#[tactic(auto, using(fs_names::proofs::LimitLemmas::some_nodes))]
pub(crate) fn core_at(alloc: Global, text: &[u8], limits: Limits) -> Result<Core, StartFault>
    ensures core { IfOk result (IsCoreAt limits text.now) }
    ensures fault { IfErr result (IsNoCore limits text.now) }
{
    let start = match tree_in(alloc, text, limits) {
        Ok(start) => start,
        Err(fault) => return Err(fault),
    };
    match Core::from_tree(alloc, start, limits.nodes()) {
        Ok(core) => {
            core.told();
            Ok(core)
        }
        Err(NoStart::TooManyNodes) => Err(too_many_nodes(text, limits)),
        Err(_) => Err(StartFault::Run(RunFault::OutOfMemory)),
    }
}

/// The script that a text has, and the tree that another one has by the limits of the script. A fault of the script comes before one
/// of the tree.
pub(crate) fn given_in(alloc: Global, tree: &[u8], text: &[u8]) -> Result<Given, StartFault>
    ensures given { IfOk result (IsGiven tree.now text.now) }
    ensures few { IfOk result (λ given. calls_in given.script.lists ≤ call_limit given.script.limits) }
    ensures begins { IfOk result (λ given. CanBegin given.from given.script.limits) }
    ensures fault { IfErr result (IsFaultOfGiven tree.now text.now) }
{
    let script = match script_in(alloc, text) {
        Ok(script) => script,
        Err(fault) => return Err(StartFault::Run(fault)),
    };
    let core = match core_at(alloc, tree, script.limits) {
        Ok(core) => core,
        Err(fault) => return Err(fault),
    };
    let (start, _, _) = core.into_parts();
    Ok(Given {
        script,
        from: Origin::Tree(start),
    })
}
