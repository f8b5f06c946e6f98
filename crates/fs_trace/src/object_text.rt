//! The text of a trace as objects.

ghost use Rattle.std.specs.Prelude.{◌≡◌, ◌++◌, [], Bool, List, IfOk, OnOk};
ghost use Rattle.fs_core.specs.CoreValues.{state_of};
ghost use Rattle.fs_calls.specs.Tree.{Tree};
ghost use Rattle.fs_sched.specs.code.Counts.{AreCounts};
ghost use Rattle.fs_script.specs.TreeText.{tree_text, IsSpelled};
ghost use Rattle.fs_timeline.specs.declared.entry.Entry.{Entry};
ghost use Rattle.fs_trace_story.specs.code.Waiting.{HasShown};
ghost use Rattle.fs_trace.specs.Objects.{end_object, IsObjectText};
ghost use Rattle.fs_trace.specs.code.ObjectTexts.{AddsSome, HasObjects, IsObjectsStart};
ghost use Rattle.fs_sched_witness.specs.declared.moments.Moment.{Moment};

use crate::left::{Left, left_in};
use crate::objects::TraceObjects;
use crate::script_text::name_of;
use fs_calls::Call;
use fs_core::Core;
use fs_sched::{Counts, counts_of};
use fs_script::{Script, write_tree};
use fs_text::write_call;
use fs_trace_story::{Standing, Teller};
use fs_words::{Addition, Member, push_object};
use std::alloc::{AllocError, Global};

/// A call as one word: its thread, and its place among the calls of that, counted from 1.
fn who(alloc: Global, name: &[u8], at: usize) -> Result<Vec<u8>, AllocError> {
    let mut who = Addition::new(Vec::new(alloc));
    who.push(name)?;
    who.push_with_number(b"#", (at as u64).saturating_add(1))?;
    Ok(who.kept())
}

/// Adds an object with a thread, with what its call did, and with that call.
fn push_call<'w>(
    alloc: Global,
    thread: &'w [u8],
    did: &'w [u8],
    call: &'w [u8],
    words: &'w [u8],
    text: &mut Addition,
) -> Result<(), AllocError>
    ensures ok { OnOk result (AddsSome text.old.added text.new.added) }
    ensures before { text.new.before ≡ text.old.before }
{
    let members = [
        Member::text(b"thread", thread),
        Member::text(b"did", did),
        Member::text(b"call", call),
        Member::text(b"words", words),
    ];
    push_object(alloc, members.as_slice(), text)
}

/// Adds the object of a call that did not return.
fn push_left(
    alloc: Global,
    name: &[u8],
    left: Left,
    call: &Call,
    text: &mut Addition,
) -> Result<(), AllocError>
    ensures ok { OnOk result (AddsSome text.old.added text.new.added) }
    ensures before { text.new.before ≡ text.old.before }
{
    let who = who(alloc, name, left.at)?;
    let mut words = Vec::new(alloc);
    write_call(alloc, call, &mut words)?;
    let did = if left.has_begun {
        b"has not returned".as_slice()
    } else {
        b"has not begun".as_slice()
    };
    push_call(alloc, name, did, who.as_slice(), words.as_slice(), text)
}

/// The same of a call of a script, where that has it.
fn push_left_of(
    alloc: Global,
    script: &Script,
    left: Left,
    text: &mut Addition,
) -> Result<(), AllocError>
    ensures ok { OnOk result (AddsSome text.old.added text.new.added) }
    ensures before { text.new.before ≡ text.old.before }
{
    match script.lists.of(left.seat).get(left.at) {
        Some(call) => push_left(alloc, name_of(&script.names, left.seat), left, call, text),
        None => text.push(b""),
    }
}

/// Adds the objects of all calls that did not return.
fn push_all_left(
    alloc: Global,
    script: &Script,
    threads: &[Standing],
    text: &mut Addition,
) -> Result<(), AllocError>
    ensures ok { OnOk result (AddsSome text.old.added text.new.added) }
    ensures before { text.new.before ≡ text.old.before }
{
    let all = left_in(alloc, script, threads)?;
    for left in &all {
        push_left_of(alloc, script, *left, text)?;
    }
    Ok(())
}

/// Adds the object of the end of a run, by the text of its tree and the counts of its entries.
fn push_counts(
    alloc: Global,
    tree: &[u8],
    counts: Counts,
    text: &mut Addition,
) -> Result<(), AllocError>
    ensures ok { OnOk result ((t : Tree) (entries : List Entry) → tree.now ≡ tree_text t → AreCounts counts entries
        → text.new.added ≡ text.old.added ++ end_object t entries) }
    ensures before { text.new.before ≡ text.old.before }
{
    let members = [
        Member::text(b"did", b"ends"),
        Member::text(b"tree", tree),
        Member::number(b"begun", counts.begun as u64),
        Member::number(b"committed", counts.committed as u64),
        Member::number(b"returned", counts.returned as u64),
    ];
    push_object(alloc, members.as_slice(), text)
}

/// Adds the object of the end of a run: its tree, and the counts of its entries.
fn push_end(alloc: Global, core: &Core, text: &mut Addition) -> Result<(), AllocError>
    ensures ok { OnOk result ((t : Tree) × IsSpelled (state_of core.now).graph t
        × (text.new.added ≡ text.old.added ++ end_object t (state_of core.now).timeline)) }
    ensures before { text.new.before ≡ text.old.before }
{
    let mut tree = Vec::new(alloc);
    write_tree(alloc, core.store(), &mut tree)?;
    push_counts(alloc, tree.as_slice(), counts_of(core.timeline()), text)
}

/// The trace of a run that was told, as objects: the threads, each moment that is shown, what did not return, and the end.
pub(crate) fn object_text<'a>(
    alloc: Global,
    script: &Script,
    teller: Teller<'a, TraceObjects<'a>>,
    core: &Core,
) -> Result<Vec<u8>, AllocError>
    ensures { (every : Bool) (start : TraceObjects) (moments : List Moment)
        → IsObjectsStart script.now.names start → HasShown HasObjects every start teller.entry moments
        → IfOk result (λ text. IsObjectText every script.now.names moments (state_of core.now) text.items) }
{
    let story = teller.story()?;
    let mut text = story.page.text;
    push_all_left(alloc, script, story.threads.as_slice(), &mut text)?;
    push_end(alloc, core, &mut text)?;
    Ok(text.kept())
}
