//! A script that is shrunk.

ghost use Rattle.std.specs.Prelude.{◌≡◌, ◌+◌, ◌≤◌, ◌++◌, ℕ, true, false, replicate, length, Ok, IfOk, OnOk, IfErr};
ghost use Rattle.fs_script.specs.Script.{script_of};
ghost use Rattle.fs_script.specs.Limits.{call_limit, calls_in};
ghost use Rattle.fs_script.specs.declared.limits.TheConstants.{CALL_LIMIT};
ghost use Rattle.fs_sched.specs.Origins.{CanBegin};
ghost use Rattle.fs_sched.specs.declared.origin.Origin.{Origin};
ghost use Rattle.fs_sched_find.specs.Finds.{RunHasOn};
ghost use Rattle.fs_sched_find.specs.What.{names_calls};
ghost use Rattle.fs_sched_shrink.specs.Makes.{MakesShrinking};
ghost use Rattle.fs_sched_shrink.specs.Moves.{moved};
ghost use Rattle.fs_sched_shrink.specs.Telling.{what_text};
ghost use Rattle.fs_sched_shrink.specs.Shrinks.{IsShrinkingOn, IsShrunkOn, IsSmallestOn};
ghost use Rattle.fs_sched_shrink.specs.code.Mades.{IsUnshrunk};
ghost use Rattle.fs_sched_shrink.specs.declared.limits.TheConstants.{TRIAL_LIMIT};

use crate::cutting::{cut_by_halves, cut_ones};
use crate::fault::ShrinkFault;
use crate::moving::{calls_before, moved};
use crate::room::{NoRoom, Unshrunk};
use crate::telling::what_text;
use crate::trying::{script_with, text_of};
use fs_sched::{Origin, Policy, Schedule};
use fs_sched_find::{Clauses, names_calls, run_has_at};
use fs_sched_start::{Planned, StartFault, TreeText, planned_in};
use fs_script::{CallLists, Script};
use fs_verdict::{Command, Made};
use std::alloc::{AllocError, Global};

/// What was made of a script.
#[derive(Drop)]
pub struct Shrunk {
    /// How many calls are left.
    pub calls: usize,
    /// How many words.
    pub words: usize,
    /// What its run still has, in words, with the calls by their new places.
    pub said: Vec<u8>,
    /// How many runs were played.
    pub runs: u64,
    /// Nothing more can go; else no more runs were played.
    pub is_smallest: bool,
}

/// How many calls there are.
fn count_calls(lists: &CallLists) -> usize
    requires { calls_in lists.now ≤ CALL_LIMIT }
    ensures { result ≡ calls_in lists.now }
{
    calls_before(lists, lists.as_slice().len())
}

/// So many flags more that are true.
fn push_flags(count: usize, kept: &mut Vec<bool>) -> Result<(), AllocError>
    ensures { OnOk result (kept.new.items ≡ kept.old.items ++ replicate count true) }
{
    for _done in 0..count {
        kept.push(true)?;
    }
    Ok(())
}

/// A flag for each call and each word.
#[tactic(auto, using(crate::proofs::Counting::at_most_all))]
fn all_flags(alloc: Global, script: &Script) -> Result<Vec<bool>, AllocError>
    requires { calls_in script.now.lists ≤ call_limit script.now.limits }
    ensures { IfOk result (λ kept. kept.items ≡ replicate (calls_in script.now.lists) true ++ replicate (length script.now.words) true) }
{
    let mut kept = Vec::new(alloc);
    push_flags(count_calls(&script.lists), &mut kept)?;
    push_flags(script.words.as_slice().len(), &mut kept)?;
    Ok(kept)
}

/// What is said of the run of what stays, in words.
fn said_of(
    alloc: Global,
    script: &Script,
    what: &[Clauses],
    kept: &[bool],
) -> Result<Vec<u8>, AllocError>
    requires { calls_in script.now.lists ≤ call_limit script.now.limits }
    ensures { IfOk result (λ said. said.items ≡ what_text (moved kept.now script.now what.now)) }
{
    let moved = moved(alloc, kept, script, what)?;
    what_text(alloc, moved.as_slice())
}

/// The text of what stays, and what is told of it.
fn with_what_stays(
    alloc: Global,
    text: &[u8],
    script: &Script,
    what: &[Clauses],
    kept: &[bool],
    runs: u64,
    is_smallest: bool,
) -> Result<Made<Option<Shrunk>>, NoRoom>
    requires read { script_of text.now ≡ Ok script.now }
    requires few { calls_in script.now.lists ≤ call_limit script.now.limits }
    requires stopped { is_smallest ≡ false → runs ≡ TRIAL_LIMIT }
    ensures { (from : Origin) → IsShrunkOn from script.now what.now kept.now → (is_smallest ≡ true → IsSmallestOn from script.now what.now kept.now)
        → IfOk result (λ made. IsShrinkingOn from script.now what.now made.end made.text.items) }
{
    let cut = script_with(alloc, text, kept)?;
    let said = said_of(alloc, script, what, kept)?;
    let shrunk = Shrunk {
        calls: count_calls(&cut.lists),
        words: cut.words.as_slice().len(),
        said,
        runs,
        is_smallest,
    };
    let text = text_of(alloc, text, kept)?;
    Ok(Made {
        text,
        end: Some(shrunk),
    })
}

/// What is made of a script whose run has what is said, by the flags of what stays.
fn shrunk_by(
    alloc: Global,
    from: &Origin,
    text: &[u8],
    script: &Script,
    what: &[Clauses],
    kept: &mut Vec<bool>,
) -> Result<Made<Option<Shrunk>>, NoRoom>
    requires read { script_of text.now ≡ Ok script.now }
    requires few { calls_in script.now.lists ≤ call_limit script.now.limits }
    requires begins { CanBegin from.now script.now.limits }
    requires shrunk { IsShrunkOn from.now script.now what.now kept.old.items }
    ensures { IfOk result (λ made. IsShrinkingOn from.now script.now what.now made.end made.text.items) }
{
    let mut runs = 1;
    cut_by_halves(alloc, from, text, script, what, kept, &mut runs)?;
    let is_smallest = cut_ones(alloc, from, text, script, what, kept, &mut runs)?;
    with_what_stays(
        alloc,
        text,
        script,
        what,
        kept.as_slice(),
        runs,
        is_smallest,
    )
}

/// The same, where at first all calls and words stay.
fn smallest(
    alloc: Global,
    from: &Origin,
    text: &[u8],
    script: &Script,
    what: &[Clauses],
) -> Result<Made<Option<Shrunk>>, NoRoom>
    requires read { script_of text.now ≡ Ok script.now }
    requires few { calls_in script.now.lists ≤ call_limit script.now.limits }
    requires begins { CanBegin from.now script.now.limits }
    requires named { names_calls script.now what.now ≡ true }
    requires has { RunHasOn from.now Schedule.Given script.now what.now true }
    ensures { IfOk result (λ made. IsShrinkingOn from.now script.now what.now made.end made.text.items) }
{
    let mut kept = all_flags(alloc, script)?;
    shrunk_by(alloc, from, text, script, what, &mut kept)
}

/// What is made of a script that was read, whose runs begin at a tree, or at the root alone.
fn shrink(
    alloc: Global,
    from: &Origin,
    text: &[u8],
    script: &Script,
    what: &[Clauses],
) -> Result<Made<Option<Shrunk>>, Unshrunk>
    requires read { script_of text.now ≡ Ok script.now }
    requires few { calls_in script.now.lists ≤ call_limit script.now.limits }
    requires begins { CanBegin from.now script.now.limits }
    requires named { names_calls script.now what.now ≡ true }
    ensures made { IfOk result (λ made. IsShrinkingOn from.now script.now what.now made.end made.text.items) }
    ensures fault { IfErr result (IsUnshrunk from.now script.now) }
{
    match run_has_at(alloc, from, script, Schedule::Given, what) {
        Ok(true) => match smallest(alloc, from, text, script, what) {
            Ok(made) => Ok(made),
            Err(room) => Err(room.unshrunk()),
        },
        Ok(false) => Ok(Made {
            text: Vec::new(alloc),
            end: None,
        }),
        Err(fault) => Err(Unshrunk::Run(fault)),
    }
}

/// What is made of the script that a text has. The text of the tree is let go once it is read, and no schedule is drawn.
fn shrunk_in(
    alloc: Global,
    tree: TreeText,
    text: &[u8],
    what: &[Clauses],
) -> Result<Made<Option<Shrunk>>, ShrinkFault>
    ensures { MakesShrinking tree what.now text.now result }
{
    let planned = match planned_in(alloc, tree, Policy::Uniform, text) {
        Ok(planned) => planned,
        Err(fault) => return Err(ShrinkFault::Start(fault)),
    };
    let Planned { script, campaign } = planned;
    if !names_calls(&script, what) {
        return Err(ShrinkFault::NoCall);
    }
    match shrink(alloc, &campaign.from, text, &script, what) {
        Ok(made) => Ok(made),
        Err(Unshrunk::Run(fault)) => Err(ShrinkFault::Start(StartFault::Run(fault))),
        Err(Unshrunk::TooLong) => Err(ShrinkFault::TooLong),
    }
}

/// A script whose run by its own words has what is said, with as few of its calls and words as still has it: of those that are left no
/// word can go, and no call but those that are named. It tries many at a time, and then one after the other, by `TRIAL_LIMIT` runs at
/// most. The calls that are named go by their new places. If the run has not what is said, there is no text, and the answer is none.
///
/// Runs begin at the root alone, or if there is the text of a tree, at that, which is read as by `fs_sched_start::RunFrom`. A try does
/// not count if its run stops: at a checkpoint while calls are pending, or at a call that begins when all node numbers are in use.
#[derive(Drop)]
pub struct ShrinkScript {
    /// The text of the tree, if there is one.
    pub tree: TreeText,
    /// What the run has: all clauses of one of these.
    pub what: Vec<Clauses>,
}

impl<Listener> Command<Listener> for ShrinkScript {
    ghost use Rattle.fs_sched_shrink.specs.Makes.{MakesShrinking};
    ghost use Rattle.fs_sched_shrink.specs.code.Laws.{shrink_honest};

    type End = Option<Shrunk>;

    type Fault = ShrinkFault;

    ghost Asks = { λ _. Unit {0} };

    ghost Makes = { λ c. MakesShrinking c.tree c.what.items };

    fn make(
        self,
        alloc: Global,
        input: Vec<u8>,
        _listener: &mut Listener,
    ) -> Result<Made<Option<Shrunk>>, ShrinkFault> {
        let ShrinkScript { tree, what } = self;
        shrunk_in(alloc, tree, input.as_slice(), what.as_slice())
    }

    ghost honest = { λ c. shrink_honest c.tree c.what.items };
}
