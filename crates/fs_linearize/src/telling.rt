//! The journal that goes by the steps of a way.

ghost use Rattle.std.specs.Prelude.{◌≡◌, ◌++◌, ◌∷◌, true, false, List, [], Some, Contains, option_copied, IfOk, IfSome, OnOk};
ghost use Rattle.fs_calls.specs.Outcomes.{next_start};
ghost use Rattle.fs_calls.specs.Starts.{Start};
ghost use Rattle.fs_timeline.specs.Timeline.{begun_as, call_of, with_call, reply_after, has_committed, due, IsWellFormed, IsLawful};
ghost use Rattle.fs_timeline.specs.declared.entry.Entry.{Entry};
ghost use Rattle.fs_linearize_histories.specs.declared.heard.Pattern.{Pattern as Known};
ghost use Rattle.fs_linearize_configurations.specs.code.Ways.{GoesBy};
ghost use Rattle.fs_linearize_configurations.specs.declared.steps.Step.TheVariants as Way;
ghost use Rattle.fs_linearize.specs.code.Tellings.{PlaysOn, IsFilledIn, IsEntryFor, IsDueTo, AreDue, PlaysNext, TellsOn};
ghost use Rattle.fs_linearize.specs.declared.telling.Kept.{Kept as One};

use crate::begins::Begins;
use fs_calls::{Call, Reply};
use fs_linearize_configurations::steps::Step;
use fs_linearize_histories::{Heard, Pattern};
use fs_names::CallNo;
use fs_seq::SeqTree;
use fs_timeline::Entry;
use std::alloc::{AllocError, Global};

/// The call that an entry begins under a number.
fn begun_as(entry: &Entry, number: u64) -> Option<&Call>
    ensures { option_copied result ≡ begun_as number entry.now }
{
    match entry {
        Entry::Begin(begun, _, call) if begun.get() == number => Some(call),
        _ => None,
    }
}

/// The call of a number in a journal.
fn call_of(journal: &[Entry], number: u64) -> Option<&Call>
    ensures { option_copied result ≡ call_of number journal.now }
{
    for entry in journal {
        let call = begun_as(entry, number);
        if call.is_some() {
            return call;
        }
    }
    None
}

/// The call that the entry of a place begins under a number.
fn call_at(journal: &[Entry], place: usize, number: u64) -> Option<&Call>
    ensures { IsWellFormed journal.now → IfSome result (λ call. call_of number journal.now ≡ Some call.now) }
{
    match journal.get(place) {
        Some(entry) => begun_as(entry, number),
        None => None,
    }
}

/// The call of a number in a journal: it is looked for where it is said to begin, and then everywhere.
fn call_in<'a>(journal: &'a [Entry], begins: &Begins, number: u64) -> Option<&'a Call>
    ensures { IsWellFormed journal.now → option_copied result ≡ call_of number journal.now }
{
    if let Some(place) = begins.place_of(number) {
        if let Some(call) = call_at(journal, place, number) {
            return Some(call);
        }
    }
    call_of(journal, number)
}

/// Plays a call, if there is one.
pub(crate) fn play_call(
    alloc: Global,
    tree: &mut SeqTree,
    call: Option<&Call>,
) -> Result<Option<Reply>, AllocError>
    ensures reply { IfOk result (λ r. r ≡ reply_after tree.old [] (option_copied call.entry)) }
    ensures tree { OnOk result (tree.new ≡ next_start tree.old (with_call (option_copied call.entry) [])) }
{
    match call {
        Some(call) => Ok(Some(tree.apply(alloc, call)?)),
        None => Ok(None),
    }
}

/// Plays a call that has begun in a journal.
fn play(
    alloc: Global,
    tree: &mut SeqTree,
    before: &[Entry],
    number: u64,
) -> Result<Option<Reply>, AllocError>
    ensures reply { IfOk result (λ r. r ≡ reply_after tree.old [] (call_of number before.now)) }
    ensures tree { OnOk result (tree.new ≡ next_start tree.old (with_call (call_of number before.now) [])) }
{
    Ok(play_call(alloc, tree, call_of(before, number))?)
}

/// What is played of a journal, and the reply that is due to one call.
#[derive(Drop)]
pub(crate) struct Played {
    pub tree: SeqTree,
    pub due: Option<Reply>,
}

/// The one reply or the other.
pub(crate) fn chosen(one: bool, reply: Option<Reply>, other: Option<Reply>) -> Option<Reply>
    ensures one { one ≡ true → result ≡ reply }
    ensures other { one ≡ false → result ≡ other }
{
    if one { reply } else { other }
}

/// Plays one entry more, which comes after those before it.
fn play_entry(
    alloc: Global,
    played: Played,
    before: &[Entry],
    entry: &Entry,
    number: u64,
) -> Result<Played, AllocError>
    ensures { IfOk result (PlaysOn number before.now entry.now played) }
{
    let Entry::Commit(other) = entry else {
        return Ok(played);
    };
    let Played { mut tree, due } = played;
    let reply = play(alloc, &mut tree, before, other.get())?;
    let mine = other.get() == number;
    Ok(Played {
        tree,
        due: chosen(mine, reply, due),
    })
}

/// The reply that is due to a call that has committed in a journal.
fn due(
    alloc: Global,
    start: &SeqTree,
    journal: &[Entry],
    number: u64,
) -> Result<Option<Reply>, AllocError>
    ensures { IfOk result (λ r. IsWellFormed journal.now → has_committed number journal.now ≡ true → r ≡ due start.now number journal.now) }
{
    let mut played = Played {
        tree: start.copy()?,
        due: None,
    };
    for (place, entry) in journal.iter().enumerate() {
        played = play_entry(alloc, played, &journal[..place], entry, number)?;
    }
    Ok(played.due)
}

/// The reply that is due to a call that has committed in a journal, whatever is known of it.
fn filled_in(
    alloc: Global,
    start: &SeqTree,
    journal: &[Entry],
    number: CallNo,
) -> Result<Reply, AllocError>
    ensures { IfOk result (λ r. (p : Known) → IsFilledIn start.now journal.now number p r) }
{
    match due(alloc, start, journal, number.get())? {
        Some(reply) => Ok(reply),
        None => Ok(Reply::Done),
    }
}

/// A reply that is due to a call that has committed and has not returned.
#[derive(Drop)]
pub(crate) struct Kept {
    number: u64,
    reply: Reply,
}

/// Takes what is kept for the call of a number.
fn take(kept: &mut Vec<Kept>, number: u64) -> Option<Kept>
    ensures number { IfSome result (λ one. one.number ≡ number) }
    ensures some { IfSome result (λ one. Contains kept.old.items one) }
    ensures rest { (one : One) → Contains kept.new.items one → Contains kept.old.items one }
{
    let place = kept.iter().position(|one| one.number == number)?;
    let one = kept.remove(place);
    if one.number == number {
        Some(one)
    } else {
        None
    }
}

/// The reply of which no more is known than that it is due: the one that is kept, if there is one.
fn due_reply(
    alloc: Global,
    start: &SeqTree,
    journal: &[Entry],
    kept: Option<Kept>,
    number: CallNo,
) -> Result<Reply, AllocError>
    requires { IfSome kept (λ one. one.number ≡ number) }
    ensures { IfOk result (λ r. (p : Known) → IfSome kept (IsDueTo start.now journal.now) → IsFilledIn start.now journal.now number p r) }
{
    match kept {
        Some(one) => Ok(one.reply),
        None => Ok(filled_in(alloc, start, journal, number)?),
    }
}

/// The reply of which this is known.
fn reply_of(
    alloc: Global,
    start: &SeqTree,
    journal: &[Entry],
    kept: &mut Vec<Kept>,
    number: CallNo,
    pattern: Pattern,
) -> Result<Reply, AllocError>
    ensures reply { IfOk result (λ r. AreDue start.now journal.now kept.old.items → IsFilledIn start.now journal.now number pattern r) }
    ensures rest { OnOk result ((one : One) → Contains kept.new.items one → Contains kept.old.items one) }
{
    let one = take(kept, number.get());
    match pattern {
        Pattern::Exactly(reply) => Ok(reply),
        Pattern::AnyError
        | Pattern::OneOf(_)
        | Pattern::AnyDirectory
        | Pattern::Except(_)
        | Pattern::Anything => Ok(due_reply(alloc, start, journal, one, number)?),
    }
}

/// The next entry of a journal.
fn entry_for(
    alloc: Global,
    start: &SeqTree,
    journal: &[Entry],
    kept: &mut Vec<Kept>,
    heard: Heard,
) -> Result<Entry, AllocError>
    ensures entry { IfOk result (λ e. AreDue start.now journal.now kept.old.items → IsEntryFor start.now journal.now heard e) }
    ensures rest { OnOk result ((one : One) → Contains kept.new.items one → Contains kept.old.items one) }
{
    match heard {
        Heard::Begin(number, seat, call) => Ok(Entry::Begin(number, seat, call)),
        Heard::Return(number, pattern) => {
            let reply = reply_of(alloc, start, journal, kept, number, pattern)?;
            Ok(Entry::Return(number, reply))
        }
    }
}

/// A journal, the tree and the replies that are due after it, and the rest of its history, which begins with the last of these entries.
#[derive(Drop)]
struct Telling {
    journal: Vec<Entry>,
    tree: SeqTree,
    kept: Vec<Kept>,
    begins: Begins,
    rest: Vec<Heard>,
}

/// Plays the commit of a call that has begun in a journal, and keeps its reply.
fn play_next(
    alloc: Global,
    tree: &mut SeqTree,
    kept: &mut Vec<Kept>,
    journal: &[Entry],
    begins: &Begins,
    number: u64,
) -> Result<(), AllocError>
    ensures { OnOk result (PlaysNext number journal.now tree.old kept.old.items tree.new kept.new.items) }
{
    let call = call_in(journal, begins, number);
    if let Some(reply) = play_call(alloc, tree, call)? {
        kept.push(Kept { number, reply })?;
    }
    Ok(())
}

/// The journal with the commit of a call more.
fn with_commit(alloc: Global, telling: Telling, number: u64) -> Result<Telling, AllocError>
    ensures { IfOk result (λ t. (start : Start) → TellsOn start telling (Way.Commits number) t) }
{
    let Telling {
        mut journal,
        mut tree,
        mut kept,
        begins,
        rest,
    } = telling;
    play_next(alloc, &mut tree, &mut kept, &journal, &begins, number)?;
    journal.push(Entry::Commit(CallNo::new(number)))?;
    Ok(Telling {
        journal,
        tree,
        kept,
        begins,
        rest,
    })
}

/// Notes where a call begins, if an entry begins one at a place.
fn note(begins: &mut Begins, heard: &Heard, place: usize) -> Result<(), AllocError> {
    match heard {
        Heard::Begin(number, _, _) => begins.put(number.get(), place),
        Heard::Return(_, _) => Ok(()),
    }
}

/// The journal with the next entry of the history more.
fn with_heard(
    alloc: Global,
    start: &SeqTree,
    telling: Telling,
    heard: Heard,
) -> Result<Telling, AllocError>
    ensures journal { IfOk result (λ t. (e : Entry) × (t.journal.items ≡ telling.journal.items ++ e ∷ []) × (AreDue start.now telling.journal.items telling.kept.items → IsEntryFor start.now telling.journal.items heard e)) }
    ensures tree { IfOk result (λ t. t.tree ≡ telling.tree) }
    ensures kept { IfOk result (λ t. (one : One) → Contains t.kept.items one → Contains telling.kept.items one) }
    ensures rest { IfOk result (λ t. t.rest.items ≡ telling.rest.items) }
{
    let Telling {
        mut journal,
        tree,
        mut kept,
        mut begins,
        rest,
    } = telling;
    note(&mut begins, &heard, journal.len())?;
    let entry = entry_for(alloc, start, &journal, &mut kept, heard)?;
    journal.push(entry)?;
    Ok(Telling {
        journal,
        tree,
        kept,
        begins,
        rest,
    })
}

/// The journal with one step more.
fn tell_step(
    alloc: Global,
    start: &SeqTree,
    mut telling: Telling,
    step: Step,
) -> Result<Telling, AllocError>
    ensures { IfOk result (TellsOn start.now telling step) }
{
    match step {
        Step::Commits(number) => Ok(with_commit(alloc, telling, number)?),
        Step::Passes => match telling.rest.pop() {
            Some(heard) => Ok(with_heard(alloc, start, telling, heard)?),
            None => Ok(telling),
        },
    }
}

/// The journal of a history that goes by steps. What was not known of replies is filled in.
pub(crate) fn tell(
    alloc: Global,
    start: &SeqTree,
    history: Vec<Heard>,
    steps: &[Step],
) -> Result<Vec<Entry>, AllocError>
    ensures { IfOk result (λ journal. (es : List Entry) → IsLawful start.now es → GoesBy history.items steps.now es → journal.items ≡ es) }
{
    let mut rest = history;
    rest.reverse();
    let mut telling = Telling {
        journal: Vec::new(alloc),
        tree: start.copy()?,
        kept: Vec::new(alloc),
        begins: Begins::new(alloc),
        rest,
    };
    for step in steps {
        telling = tell_step(alloc, start, telling, *step)?;
    }
    Ok(telling.journal)
}
