//! The reply of a call on the way of steps.

ghost use Rattle.std.specs.Prelude.{◌≡◌, true, [], List, Some, option_copied, IfOk, IfSome};
ghost use Rattle.fs_timeline.specs.Timeline.{begun_as, call_of, has_committed, due};
ghost use Rattle.fs_timeline.specs.declared.entry.Entry.{Entry};
ghost use Rattle.fs_linearize_histories.specs.Heard.{entry_of, entries};
ghost use Rattle.fs_linearize_histories.specs.Histories.{IsHistory, Explains};
ghost use Rattle.fs_linearize_configurations.specs.code.Ways.{GoesBy};
ghost use Rattle.fs_linearize.specs.code.Tellings.{PlaysStep};

use crate::begins::Begins;
use crate::telling::{Played, chosen, play_call};
use fs_calls::{Call, Reply};
use fs_linearize_configurations::steps::Step;
use fs_linearize_histories::Heard;
use fs_seq::SeqTree;
use std::alloc::{AllocError, Global};

/// The call that an entry begins under a number.
fn begun_as(entry: &Heard, number: u64) -> Option<&Call>
    ensures { option_copied result ≡ begun_as number (entry_of entry.now) }
{
    match entry {
        Heard::Begin(begun, _, call) if begun.get() == number => Some(call),
        _ => None,
    }
}

/// The call of a number in a history.
fn call_of(history: &[Heard], number: u64) -> Option<&Call>
    ensures { option_copied result ≡ call_of number (entries history.now) }
{
    for entry in history {
        let call = begun_as(entry, number);
        if call.is_some() {
            return call;
        }
    }
    None
}

/// The call that the entry of a place begins under a number.
fn call_at(history: &[Heard], place: usize, number: u64) -> Option<&Call>
    requires { IsHistory history.now }
    ensures { IfSome result (λ call. call_of number (entries history.now) ≡ Some call.now) }
{
    match history.get(place) {
        Some(entry) => begun_as(entry, number),
        None => None,
    }
}

/// The call of a number in a history: it is looked for where it is said to begin, and then everywhere.
fn call_in<'a>(history: &'a [Heard], begins: &Begins, number: u64) -> Option<&'a Call>
    requires { IsHistory history.now }
    ensures { option_copied result ≡ call_of number (entries history.now) }
{
    if let Some(place) = begins.place_of(number) {
        if let Some(call) = call_at(history, place, number) {
            return Some(call);
        }
    }
    call_of(history, number)
}

/// Where the calls of a history begin.
fn begins_of(alloc: Global, history: &[Heard]) -> Result<Begins, AllocError> {
    let mut begins = Begins::new(alloc);
    for (place, entry) in history.iter().enumerate() {
        if let Heard::Begin(number, _, _) = entry {
            begins.put(number.get(), place)?;
        }
    }
    Ok(begins)
}

/// Plays one step more.
fn play_step(
    alloc: Global,
    played: Played,
    history: &[Heard],
    begins: &Begins,
    step: &Step,
    number: u64,
) -> Result<Played, AllocError>
    requires { IsHistory history.now }
    ensures { IfOk result (PlaysStep number history.now step.now played) }
{
    let Step::Commits(other) = *step else {
        return Ok(played);
    };
    let Played { mut tree, due } = played;
    let reply = play_call(alloc, &mut tree, call_in(history, begins, other))?;
    let mine = other == number;
    Ok(Played {
        tree,
        due: chosen(mine, reply, due),
    })
}

/// The reply that is due to the call of a number on a way through a history, if it commits there.
pub(crate) fn reply_on(
    alloc: Global,
    start: &SeqTree,
    history: &[Heard],
    steps: &[Step],
    number: u64,
) -> Result<Option<Reply>, AllocError>
    requires { IsHistory history.now }
    ensures { IfOk result (λ r. (es : List Entry) → Explains start.now history.now es → GoesBy history.now steps.now es → has_committed number es ≡ true → r ≡ due start.now number es) }
{
    let begins = begins_of(alloc, history)?;
    let mut played = Played {
        tree: start.copy()?,
        due: None,
    };
    for step in steps {
        played = play_step(alloc, played, history, &begins, step, number)?;
    }
    Ok(played.due)
}
