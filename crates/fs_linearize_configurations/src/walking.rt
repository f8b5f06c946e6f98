//! Steps played along a history, on one tree that changes in place.

ghost use Rattle.std.specs.Prelude.{◌≡◌, ◌++◌, ◌∷◌, [], ℕ, List, true, Contains, IfOk, IfSome};
ghost use Rattle.fs_calls.specs.Starts.{Start};
ghost use Rattle.fs_timeline.specs.declared.entry.Entry.{Entry};
ghost use Rattle.fs_linearize_histories.specs.declared.heard.Heard.{Heard as Value};
ghost use Rattle.fs_linearize_histories.specs.Histories.{IsHistory, Explains};
ghost use Rattle.fs_linearize_configurations.specs.code.Ways.{GoesBy};
ghost use Rattle.fs_linearize_configurations.specs.code.Walking.{HoldsAfter, IsWalked};
ghost use Rattle.fs_linearize_configurations.specs.declared.steps.Step.{Step as Way};
ghost use Rattle.fs_linearize_configurations.specs.declared.steps.Step.TheVariants as way;

use crate::committing::fits;
use crate::numbers;
use crate::steps::Step;
use crate::under_way::{self, UnderWay};
use fs_linearize_histories::Heard;
use fs_seq::SeqTree;
use std::alloc::{AllocError, Global};

/// A configuration, and the calls that are pending there.
#[derive(Drop)]
struct Walk<'a> {
    at: usize,
    tree: SeqTree,
    held: Vec<u64>,
    calls: Vec<UnderWay<'a>>,
}

/// The call of a number, if it is one of these.
fn call_of<'a>(calls: &[UnderWay<'a>], number: u64) -> Option<UnderWay<'a>>
    ensures { IfSome result (λ call. Contains calls.now call × (call.number ≡ number)) }
{
    for call in calls {
        if call.number == number {
            return Some(*call);
        }
    }
    None
}

/// Plays the commit of a call, if it can commit.
fn commit<'a>(alloc: Global, from: Walk<'a>, number: u64) -> Result<Option<Walk<'a>>, AllocError>
    ensures { IfOk result (λ next. IfSome next (λ to. (start : Start) (h : List Value) (ss : List Way) → IsWalked start h ss from.entry → IsWalked start h (ss ++ way.Commits number ∷ []) to)) }
{
    let Walk {
        at,
        mut tree,
        held,
        calls,
    } = from;
    let Some(call) = call_of(&calls, number) else {
        return Ok(None);
    };
    if numbers::is_in(&held, number) {
        return Ok(None);
    }
    let reply = tree.apply(alloc, call.call)?;
    if !fits(call.known, &reply) {
        return Ok(None);
    }
    let held = numbers::with(alloc, &held, number)?;
    Ok(Some(Walk {
        at,
        tree,
        held,
        calls,
    }))
}

/// The calls that are held after an entry, if it can pass where these are held.
fn held_after(alloc: Global, held: Vec<u64>, entry: &Heard) -> Result<Option<Vec<u64>>, AllocError>
    ensures { IfOk result (λ next. IfSome next (λ after. HoldsAfter entry.now held.items after.items)) }
{
    match entry {
        Heard::Begin(_, _, _) => Ok(Some(held)),
        Heard::Return(number, _) => {
            if !numbers::is_in(&held, number.get()) {
                return Ok(None);
            }
            Ok(Some(numbers::without(alloc, &held, number.get())?))
        }
    }
}

/// Passes the next entry of a history, if it can pass.
fn pass<'a>(
    alloc: Global,
    history: &'a [Heard],
    from: Walk<'a>,
) -> Result<Option<Walk<'a>>, AllocError>
    ensures { IfOk result (λ next. IfSome next (λ to. (start : Start) (ss : List Way) → IsHistory history.now → IsWalked start history.now ss from.entry → IsWalked start history.now (ss ++ way.Passes ∷ []) to)) }
{
    let Walk {
        at,
        tree,
        held,
        calls,
    } = from;
    let Some(entry) = history.get(at) else {
        return Ok(None);
    };
    let Some(held) = held_after(alloc, held, entry)? else {
        return Ok(None);
    };
    let calls = under_way::after(alloc, calls, entry, &history[at..])?;
    Ok(Some(Walk {
        at: at + 1,
        tree,
        held,
        calls,
    }))
}

/// Takes one step more, if it can be taken.
fn step_on<'a>(
    alloc: Global,
    history: &'a [Heard],
    from: Walk<'a>,
    step: Step,
) -> Result<Option<Walk<'a>>, AllocError>
    ensures { IfOk result (λ next. IfSome next (λ to. (start : Start) (ss : List Way) → IsHistory history.now → IsWalked start history.now ss from.entry → IsWalked start history.now (ss ++ step ∷ []) to)) }
{
    match step {
        Step::Passes => Ok(pass(alloc, history, from)?),
        Step::Commits(number) => Ok(commit(alloc, from, number)?),
    }
}

/// Whether steps were found to lead through a history: they are those of a timeline that explains it.
pub fn lead_through(
    alloc: Global,
    start: &SeqTree,
    history: &[Heard],
    steps: &[Step],
) -> Result<bool, AllocError>
    requires { IsHistory history.now }
    ensures { IfOk result (λ whole. whole ≡ true → (es : List Entry) × Explains start.now history.now es × GoesBy history.now steps.now es) }
{
    let mut walk = Walk {
        at: 0,
        tree: start.copy()?,
        held: Vec::new(alloc),
        calls: Vec::new(alloc),
    };
    for step in steps {
        let Some(next) = step_on(alloc, history, walk, *step)? else {
            return Ok(false);
        };
        walk = next;
    }
    Ok(walk.at == history.len())
}
