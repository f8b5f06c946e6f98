//! The moments of a run as objects.

ghost use Rattle.std.specs.Prelude.{◌≡◌, ◌++◌, IfOk, OnOk};
ghost use Rattle.std.specs.List.{flat_map};
ghost use Rattle.fs_trace_story.specs.Shown.{deed_shown};
ghost use Rattle.fs_trace.specs.Objects.{deed_word, thread_object, told_members, whose};
ghost use Rattle.fs_trace.specs.code.ObjectTexts.{AddsObject, HasObjects, IsObjectsStart};

use crate::script_text::name_of;
use fs_script::ThreadNames;
use fs_trace_story::{Deed, Line, Page, Part};
use fs_words::{Addition, Member, push_object};
use std::alloc::{AllocError, Global};

/// What a moment did, in words.
fn deed_word(deed: Deed) -> &'static [u8]
    ensures { result.now ≡ deed_word deed }
{
    match deed {
        Deed::Idles => b"has nothing left",
        Deed::Begins => b"begins",
        Deed::Takes(_) => b"locks",
        Deed::Waits(_, _) => b"waits",
        Deed::LetsGo(_) => b"unlocks",
        Deed::Helps(_) => b"helps",
        Deed::Commits => b"commits",
        Deed::CarriesOut => b"makes its change",
        Deed::Returns => b"returns",
        Deed::Checkpoint => b"checkpoint",
    }
}

/// The words of a part of a line; none where it is not there.
fn words_of<'w>(words: &'w [u8], part: Part) -> &'w [u8] {
    match words.get(part.from..part.end) {
        Some(part) => part,
        None => &[],
    }
}

/// Adds a member with the words of a part of a line, where these are there.
fn push_part<'w>(
    name: &'w [u8],
    words: &'w [u8],
    part: Part,
    members: &mut Vec<Member<'w>>,
) -> Result<(), AllocError> {
    let text = words_of(words, part);
    if text.is_empty() {
        return Ok(());
    }
    members.push(Member::text(name, text))?;
    Ok(())
}

/// What changes, with its paths.
fn push_change<'w>(
    line: &Line,
    words: &'w [u8],
    members: &mut Vec<Member<'w>>,
) -> Result<(), AllocError> {
    push_part(b"change", words, line.parts.change, members)?;
    push_part(b"path", words, line.parts.path, members)?;
    push_part(
        words_of(words, line.parts.joint),
        words,
        line.parts.second,
        members,
    )?;
    push_part(b"error", words, line.parts.error, members)
}

/// The node that a call unlocks: its path now, or `null` where the call has removed it; and the path under which it was locked, if
/// that is another one.
fn push_unlocked<'w>(
    line: &Line,
    words: &'w [u8],
    members: &mut Vec<Member<'w>>,
) -> Result<(), AllocError> {
    let path = words_of(words, line.parts.path);
    if path.is_empty() {
        members.push(Member::null(b"path"))?;
    } else {
        members.push(Member::text(b"path", path))?;
    }
    push_part(b"locked_as", words, line.parts.second, members)
}

/// What else a line says.
fn facts_of<'w>(
    alloc: Global,
    line: &Line,
    words: &'w [u8],
) -> Result<Vec<Member<'w>>, AllocError> {
    let mut facts = Vec::new(alloc);
    let parts = &line.parts;
    push_part(b"call", words, parts.who, &mut facts)?;
    match line.deed {
        Deed::Idles | Deed::Checkpoint => {}
        Deed::Begins => {
            facts.push(Member::number(b"number", line.call))?;
            push_part(b"words", words, parts.text, &mut facts)?;
        }
        Deed::Takes(_) => push_part(b"path", words, parts.path, &mut facts)?,
        Deed::Waits(_, _) => {
            push_part(b"path", words, parts.path, &mut facts)?;
            push_part(b"holder", words, parts.other, &mut facts)?;
        }
        Deed::LetsGo(_) => push_unlocked(line, words, &mut facts)?,
        Deed::Helps(_) => {
            push_part(b"helped", words, parts.other, &mut facts)?;
            push_part(b"path", words, parts.path, &mut facts)?;
        }
        Deed::Commits | Deed::CarriesOut => push_change(line, words, &mut facts)?,
        Deed::Returns => push_part(b"reply", words, parts.text, &mut facts)?,
    }
    Ok(facts)
}

/// The thread of an event, and its number.
fn whose<'w>(
    alloc: Global,
    names: &'w ThreadNames,
    number: usize,
    seat: Option<usize>,
) -> Result<Vec<Member<'w>>, AllocError>
    ensures { IfOk result (λ members. members.items ≡ whose names.now number seat) }
{
    let mut members = Vec::new(alloc);
    if let Some(seat) = seat {
        members.push(Member::number(b"event", number as u64))?;
        members.push(Member::text(b"thread", name_of(names, seat)))?;
    }
    Ok(members)
}

/// The first members of the object of a moment.
fn first_members<'w>(
    alloc: Global,
    names: &'w ThreadNames,
    line: &Line,
) -> Result<Vec<Member<'w>>, AllocError>
    ensures { IfOk result (λ members. members.items ≡ told_members names.now (deed_shown line.now)) }
{
    let mut members = whose(alloc, names, line.number, line.seat)?;
    members.push(Member::text(b"did", deed_word(line.deed)))?;
    Ok(members)
}

/// Members, and others after them.
fn joined<'w>(first: Vec<Member<'w>>, more: Vec<Member<'w>>) -> Result<Vec<Member<'w>>, AllocError>
    ensures { IfOk result (λ members. members.items ≡ first.entry.items ++ more.entry.items) }
{
    let mut members = first;
    let mut more = more;
    members.append(&mut more)?;
    Ok(members)
}

/// Adds the object of a moment.
fn push_moment(
    alloc: Global,
    names: &ThreadNames,
    line: &Line,
    words: &[u8],
    text: &mut Addition,
) -> Result<(), AllocError>
    ensures ok { OnOk result (AddsObject (told_members names.now (deed_shown line.now)) text.old.added text.new.added) }
    ensures before { text.new.before ≡ text.old.before }
{
    let first = first_members(alloc, names, line)?;
    let facts = facts_of(alloc, line, words)?;
    let members = joined(first, facts)?;
    push_object(alloc, members.as_slice(), text)
}

/// Adds the object of a thread.
fn push_thread(alloc: Global, name: &[u8], text: &mut Addition) -> Result<(), AllocError>
    ensures ok { OnOk result (text.new.added ≡ text.old.added ++ thread_object name.now) }
    ensures before { text.new.before ≡ text.old.before }
{
    let members = [
        Member::text(b"thread", name),
        Member::text(b"did", b"starts"),
    ];
    push_object(alloc, members.as_slice(), text)
}

/// Adds the objects of the threads.
fn push_threads(alloc: Global, names: &ThreadNames, text: &mut Addition) -> Result<(), AllocError>
    ensures ok { OnOk result (text.new.added ≡ text.old.added ++ flat_map thread_object names.now) }
    ensures before { text.new.before ≡ text.old.before }
{
    for seat in 0..names.len() {
        push_thread(alloc, name_of(names, seat), text)?;
    }
    Ok(())
}

/// The objects of a trace so far, to which each is added as it comes.
#[derive(Drop)]
pub(crate) struct TraceObjects<'a> {
    alloc: Global,
    names: &'a ThreadNames,
    pub(crate) text: Addition,
}

impl<'a> TraceObjects<'a> {
    /// Before the first moment.
    pub(crate) fn new(alloc: Global, names: &'a ThreadNames) -> Result<TraceObjects<'a>, AllocError>
        ensures { IfOk result (λ page. IsObjectsStart names.now page) }
    {
        let mut text = Addition::new(Vec::new(alloc));
        push_threads(alloc, names, &mut text)?;
        Ok(TraceObjects { alloc, names, text })
    }
}

impl<'a> Page for TraceObjects<'a> {
    ghost Has = { HasObjects };

    fn show(&mut self, line: Line, words: &[u8]) -> Result<(), AllocError> {
        push_moment(self.alloc, self.names, &line, words, &mut self.text)
    }
}
