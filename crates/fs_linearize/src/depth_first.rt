//! One order, looked for depth first: it finds most orders that there are, for the price of one way through the history. The search
//! keeps one tree, which changes in place, and takes commits back. What it finds is played again from the start.

ghost use Rattle.std.specs.Prelude.{IfOk, IfSome};
ghost use Rattle.fs_linearize_histories.specs.Histories.{IsHistory};
ghost use Rattle.fs_linearize.specs.code.Searched.{IsOrder};

use crate::taking_back::Back;
use crate::turns::{Turn, Turns};
use fs_calls::{Call, Data, Reply};
use fs_linearize_configurations::chains::mixed;
use fs_linearize_configurations::committing::{fits, is_quiet};
use fs_linearize_configurations::steps::Step;
use fs_linearize_configurations::under_way::{self, UnderWay};
use fs_linearize_configurations::{meeting, walking};
use fs_linearize_histories::Heard;
use fs_seq::SeqTree;
use std::alloc::{AllocError, Global};
use std::collections::BTreeMap;

/// So many choices are kept to go back to.
const KEPT: usize = 128;

/// A call that has committed and has not returned, and whether it changed the tree.
#[derive(Drop, Clone, Copy)]
struct Held<'a> {
    number: u64,
    call: &'a Call,
    changed: bool,
}

/// A commit after so many entries, with what takes it back.
#[derive(Drop)]
struct Made<'a> {
    number: u64,
    at: usize,
    back: Back<'a>,
}

/// Where the search is: how many entries have passed, the tree, the pending calls that have committed, and those that have not.
#[derive(Drop)]
struct Here<'a> {
    at: usize,
    tree: SeqTree,
    held: Vec<Held<'a>>,
    open: Vec<UnderWay<'a>>,
    /// A number made of the order of those commits whose order can matter.
    order: u64,
    made: Vec<Made<'a>>,
    /// So many of the first commits are never taken back.
    settled: usize,
}

/// Where a call returns that has not committed, after so many commits, the calls of which one may commit there, and the turn of the
/// last one that was tried.
#[derive(Drop)]
struct Choice<'a> {
    at: usize,
    held: Vec<Held<'a>>,
    open: Vec<UnderWay<'a>>,
    order: u64,
    made: usize,
    near: Vec<UnderWay<'a>>,
    tried: Turn,
}

/// Whether two writes of one file leave another file in the other order.
fn writes_differ(off: u64, bytes: &Data, from: u64, others: &Data) -> bool {
    if off == from && bytes.same(others) {
        return false;
    }
    let end = off.saturating_add(bytes.as_slice().len() as u64);
    let other_end = from.saturating_add(others.as_slice().len() as u64);
    off < other_end && from < end
}

/// Whether two calls that change the tree may leave another one in the other order.
fn orders_differ(one: &Call, other: &Call) -> bool {
    if let Call::Write(_, off, bytes) = one {
        if let Call::Write(_, from, others) = other {
            if !writes_differ(*off, bytes, *from, others) {
                return false;
            }
        }
    }
    meeting::calls_meet(false, one, other)
}

/// A number made of a commit, and of those before it whose order with it can matter. A call that has returned cannot commit later.
fn mark_of(held: &[Held], call: &UnderWay) -> u64 {
    let mut before = 0u64;
    for one in held {
        if one.changed && orders_differ(one.call, call.call) {
            before = before.wrapping_add(mixed(1, one.number));
        }
    }
    mixed(before, call.number)
}

/// Commits an open call, if it can.
fn commit<'a>(alloc: Global, here: &mut Here<'a>, call: &UnderWay<'a>) -> Result<bool, AllocError> {
    let would = Back::before(alloc, &here.tree, call.call)?;
    let reply = here.tree.apply(alloc, call.call)?;
    let back = match reply {
        Reply::Failed(_) => Back::Nothing,
        _ => would,
    };
    if !fits(call.known, &reply) {
        back.take(alloc, &mut here.tree)?;
        return Ok(false);
    }
    let changed = back.is_change();
    if changed {
        here.order = here.order.wrapping_add(mark_of(&here.held, call));
    }
    here.made.push(Made {
        number: call.number,
        at: here.at,
        back,
    })?;
    here.held.push(Held {
        number: call.number,
        call: call.call,
        changed,
    })?;
    here.open.retain(|other| other.number != call.number);
    Ok(true)
}

/// Commits an open call early, if it is quiet and can commit.
fn settle<'a>(alloc: Global, here: &mut Here<'a>, call: &UnderWay<'a>) -> Result<(), AllocError> {
    if let Some(pattern) = call.known {
        if is_quiet(call.call, pattern) {
            commit(alloc, here, call)?;
        }
    }
    Ok(())
}

/// Commits an open call, if it can, and early after it what can of those that meet it.
fn reach<'a>(alloc: Global, here: &mut Here<'a>, call: &UnderWay<'a>) -> Result<bool, AllocError> {
    if !commit(alloc, here, call)? {
        return Ok(false);
    }
    let open = Vec::from_slice(alloc, &here.open)?;
    for other in &open {
        if meeting::calls_meet(false, call.call, other.call) {
            settle(alloc, here, other)?;
        }
    }
    Ok(true)
}

/// A call begins, with the first of the entries that are left.
fn begin<'a>(
    alloc: Global,
    here: &mut Here<'a>,
    entry: &'a Heard,
    left: &'a [Heard],
) -> Result<(), AllocError> {
    let open = std::mem::replace(&mut here.open, Vec::new(alloc));
    here.open = under_way::after(alloc, open, entry, left)?;
    match here.open.last() {
        Some(call) => {
            let newest = *call;
            settle(alloc, here, &newest)
        }
        None => Ok(()),
    }
}

/// Whether a call is held.
fn holds(here: &Here, number: u64) -> bool {
    here.held.iter().any(|one| one.number == number)
}

/// Goes on with each entry that can pass: to the end, or to the return of a call that has not committed, of which it gives the number.
fn go_on<'a>(
    alloc: Global,
    history: &'a [Heard],
    here: &mut Here<'a>,
) -> Result<Option<u64>, AllocError> {
    for place in here.at..history.len() {
        let entry = &history[place];
        match entry {
            Heard::Begin(_, _, _) => {
                here.at = place + 1;
                begin(alloc, here, entry, &history[place..])?;
            }
            Heard::Return(number, _) => {
                let returned = number.get();
                if !holds(here, returned) {
                    return Ok(Some(returned));
                }
                here.at = place + 1;
                here.held.retain(|one| one.number != returned);
            }
        }
    }
    Ok(None)
}

/// The choice that is here.
fn choice_of<'a>(
    alloc: Global,
    here: &Here<'a>,
    near: Vec<UnderWay<'a>>,
) -> Result<Choice<'a>, AllocError> {
    Ok(Choice {
        at: here.at,
        held: Vec::from_slice(alloc, &here.held)?,
        open: Vec::from_slice(alloc, &here.open)?,
        order: here.order,
        made: here.made.len(),
        near,
        tried: Turn::FIRST,
    })
}

/// Takes back what was committed after a choice.
fn return_to<'a>(
    alloc: Global,
    here: &mut Here<'a>,
    choice: &Choice<'a>,
) -> Result<(), AllocError> {
    for _ in choice.made..here.made.len() {
        if let Some(made) = here.made.pop() {
            made.back.take(alloc, &mut here.tree)?;
        }
    }
    here.at = choice.at;
    here.held = Vec::from_slice(alloc, &choice.held)?;
    here.open = Vec::from_slice(alloc, &choice.open)?;
    here.order = choice.order;
    Ok(())
}

/// Whether the search was not here before.
fn is_new(seen: &mut BTreeMap<u64, bool>, here: &Here) -> Result<bool, AllocError> {
    let mut held = 0u64;
    for one in &here.held {
        held = held.wrapping_add(mixed(1, one.number));
    }
    let place = mixed(here.order, here.at as u64);
    let old = seen.insert(mixed(place, held), true)?;
    Ok(old.is_none())
}

/// Goes the next way from a choice that can be gone, and leads to where the search was not before.
fn go_next<'a>(
    alloc: Global,
    turns: &Turns,
    seen: &mut BTreeMap<u64, bool>,
    here: &mut Here<'a>,
    choice: &mut Choice<'a>,
) -> Result<bool, AllocError> {
    for _ in 0..choice.near.len() {
        let Some((call, turn)) = turns.next(&choice.near, choice.tried) else {
            return Ok(false);
        };
        choice.tried = turn;
        if reach(alloc, here, &call)? {
            if is_new(seen, here)? {
                return Ok(true);
            }
            return_to(alloc, here, choice)?;
        }
    }
    Ok(false)
}

/// Goes back to the last choice that has a way left, and goes that way.
fn go_back<'a>(
    alloc: Global,
    turns: &Turns,
    seen: &mut BTreeMap<u64, bool>,
    here: &mut Here<'a>,
    choices: &mut Vec<Choice<'a>>,
) -> Result<bool, AllocError> {
    for _ in 0..choices.len() {
        let Some(mut choice) = choices.pop() else {
            return Ok(false);
        };
        return_to(alloc, here, &choice)?;
        if go_next(alloc, turns, seen, here, &mut choice)? {
            choices.push(choice)?;
            return Ok(true);
        }
    }
    Ok(false)
}

/// Lets the first choice go if as many are there as are kept.
fn make_room(choices: &mut Vec<Choice>) {
    if choices.len() >= KEPT {
        let _first = choices.remove(0);
    }
}

/// Lets go what takes back the commits before the first choice.
fn let_go(here: &mut Here, choices: &[Choice]) {
    let kept = match choices.first() {
        Some(choice) => choice.made,
        None => here.made.len(),
    };
    for place in here.settled..kept {
        if let Some(made) = here.made.get_mut(place) {
            made.back = Back::Nothing;
        }
    }
    here.settled = kept;
}

/// Goes a way on from where a call returns that has not committed.
fn choose<'a>(
    alloc: Global,
    turns: &Turns,
    seen: &mut BTreeMap<u64, bool>,
    here: &mut Here<'a>,
    choices: &mut Vec<Choice<'a>>,
    number: u64,
) -> Result<bool, AllocError> {
    let_go(here, choices);
    let near = meeting::near(alloc, &here.open, number, false)?;
    if let [only] = near.as_slice() {
        if reach(alloc, here, only)? {
            return Ok(true);
        }
        return go_back(alloc, turns, seen, here, choices);
    }
    make_room(choices);
    choices.push(choice_of(alloc, here, near)?)?;
    go_back(alloc, turns, seen, here, choices)
}

/// Adds that the entries between two places pass.
fn push_passes(steps: &mut Vec<Step>, from: usize, to: usize) -> Result<(), AllocError> {
    for _ in from..to {
        steps.push(Step::Passes)?;
    }
    Ok(())
}

/// The steps with these commits, through so many entries.
fn steps_of(alloc: Global, made: &[Made], entries: usize) -> Result<Vec<Step>, AllocError> {
    let mut steps = Vec::new(alloc);
    let mut passed = 0;
    for one in made {
        push_passes(&mut steps, passed, one.at)?;
        passed = one.at;
        steps.push(Step::Commits(one.number))?;
    }
    push_passes(&mut steps, passed, entries)?;
    Ok(steps)
}

/// Steps through a history, if a way is found with so many choices.
fn find_steps(
    alloc: Global,
    start: &SeqTree,
    history: &[Heard],
    most: usize,
) -> Result<Option<Vec<Step>>, AllocError> {
    let turns = Turns::of(alloc, history)?;
    let mut seen = BTreeMap::new(alloc);
    let mut choices = Vec::new(alloc);
    let mut here = Here {
        at: 0,
        tree: start.copy()?,
        held: Vec::new(alloc),
        open: Vec::new(alloc),
        order: 0,
        made: Vec::new(alloc),
        settled: 0,
    };
    for _ in 0..most {
        let Some(number) = go_on(alloc, history, &mut here)? else {
            return Ok(Some(steps_of(alloc, &here.made, history.len())?));
        };
        if !choose(alloc, &turns, &mut seen, &mut here, &mut choices, number)? {
            return Ok(None);
        }
    }
    Ok(None)
}

/// The steps of a timeline that explains a history, if one is found with so many choices. That none is found says nothing.
pub(crate) fn one_order(
    alloc: Global,
    start: &SeqTree,
    history: &[Heard],
    most: usize,
) -> Result<Option<Vec<Step>>, AllocError>
    requires { IsHistory history.now }
    ensures { IfOk result (λ found. IfSome found (λ steps. IsOrder start.now history.now steps.items)) }
{
    let Some(steps) = find_steps(alloc, start, history, most)? else {
        return Ok(None);
    };
    if walking::lead_through(alloc, start, history, &steps)? {
        return Ok(Some(steps));
    }
    Ok(None)
}
