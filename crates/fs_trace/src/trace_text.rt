//! The text of a trace.

ghost use Rattle.std.specs.Prelude.{◌≡◌, ◌++◌, [], Bool, List, IfOk, OnOk, map};
ghost use Rattle.std.specs.List.{flat_map};
ghost use Rattle.fs_core.specs.CoreValues.{state_of};
ghost use Rattle.fs_sched_witness.specs.declared.moments.Moment.{Moment};
ghost use Rattle.fs_trace_story.specs.Shown.{deed_shown, Tells};
ghost use Rattle.fs_trace_story.specs.code.Waiting.{HasShown};
ghost use Rattle.fs_trace.specs.Traces.{head_of, line_head, thread_line, IsTraceText};
ghost use Rattle.fs_trace.specs.code.LineTexts.{AddsLine, HasLines, IsTraceHead, IsTraceStart};

use crate::left::{Left, left_in};
use crate::script_text::name_of;
use fs_core::Core;
use fs_sched::{counts_of, push_counts};
use fs_script::{Script, ThreadNames, write_tree};
use fs_text::write_call;
use fs_trace_story::{Deed, Line, Page, Standing, Story, Teller};
use fs_words::Addition;
use std::alloc::{AllocError, Global};

/// Adds the line of a thread.
fn push_thread(name: &[u8], text: &mut Addition) -> Result<(), AllocError>
    ensures ok { OnOk result (text.new.added ≡ text.old.added ++ thread_line name.now) }
    ensures before { text.new.before ≡ text.old.before }
{
    text.push(b"thread ")?;
    text.push(name)?;
    text.push(b"\n")
}

/// A line for each thread.
fn push_threads(names: &ThreadNames, text: &mut Addition) -> Result<(), AllocError>
    ensures ok { OnOk result (text.new.added ≡ text.old.added ++ flat_map thread_line names.now) }
    ensures before { text.new.before ≡ text.old.before }
{
    for seat in 0..names.len() {
        push_thread(name_of(names, seat), text)?;
    }
    Ok(())
}

/// Adds what a line begins with: the number of its event, or the word of a checkpoint.
fn push_head(number: usize, deed: Deed, text: &mut Addition) -> Result<(), AllocError>
    ensures ok { OnOk result (text.new.added ≡ text.old.added ++ head_of number deed) }
    ensures before { text.new.before ≡ text.old.before }
{
    match deed {
        Deed::Checkpoint => text.push(b"checkpoint"),
        _ => {
            text.push_number(number as u64)?;
            text.push(b" ")
        }
    }
}

/// Adds a line, with these words.
fn push_line(line: &Line, words: &[u8], text: &mut Addition) -> Result<(), AllocError>
    ensures ok { OnOk result (AddsLine (line_head (deed_shown line.now)) text.old.added text.new.added) }
    ensures before { text.new.before ≡ text.old.before }
{
    push_head(line.number, line.deed, text)?;
    text.push(words)?;
    text.push(b"\n")
}

/// The text of a trace so far, to which each line is added as it comes.
#[derive(Drop)]
pub(crate) struct TraceLines {
    text: Addition,
}

impl TraceLines {
    /// Before the first line.
    pub(crate) fn new(alloc: Global, names: &ThreadNames) -> Result<TraceLines, AllocError>
        ensures { IfOk result (λ lines. IsTraceStart names.now lines) }
    {
        let mut text = Addition::new(Vec::new(alloc));
        text.push(b"atomfs-trace 2\n")?;
        push_threads(names, &mut text)?;
        Ok(TraceLines { text })
    }
}

impl Page for TraceLines {
    ghost Has = { HasLines };

    fn show(&mut self, line: Line, words: &[u8]) -> Result<(), AllocError> {
        push_line(&line, words, &mut self.text)
    }
}

/// The line of a call of a script that did not return.
fn push_left(
    alloc: Global,
    script: &Script,
    left: Left,
    text: &mut Addition,
) -> Result<(), AllocError> {
    let Some(call) = script.lists.of(left.seat).get(left.at) else {
        return Ok(());
    };
    text.push(b"left ")?;
    text.push(name_of(&script.names, left.seat))?;
    if left.has_begun {
        text.push_with_number(b"#", (left.at as u64).saturating_add(1))?;
    } else {
        text.push(b" unbegun")?;
    }
    let mut words = Vec::new(alloc);
    write_call(alloc, call, &mut words)?;
    text.push(b" ")?;
    text.push(words.as_slice())?;
    text.push(b"\n")
}

/// The lines of all calls that did not return.
fn left_text(alloc: Global, script: &Script, threads: &[Standing]) -> Result<Vec<u8>, AllocError> {
    let all = left_in(alloc, script, threads)?;
    let mut text = Addition::new(Vec::new(alloc));
    for left in &all {
        push_left(alloc, script, *left, &mut text)?;
    }
    Ok(text.kept())
}

/// The text of a trace up to its tree: the threads, each moment that is shown, and what did not return.
fn head_text(
    alloc: Global,
    script: &Script,
    story: Story<TraceLines>,
) -> Result<Vec<u8>, AllocError>
    ensures { (every : Bool) (start : TraceLines) (moments : List Moment)
        → IsTraceStart script.now.names start → Tells HasLines every start story moments
        → IfOk result (λ head. IsTraceHead every script.now.names moments head.items) }
{
    let left = left_text(alloc, script, story.threads.as_slice())?;
    let mut head = story.page.text;
    head.push(left.as_slice())?;
    Ok(head.kept())
}

/// The text of the trace of a run that was told: each event in words, or those that tell something new, and behind them what did
/// not return and the end of the run's own text.
pub(crate) fn trace_text<'a>(
    alloc: Global,
    script: &Script,
    teller: Teller<'a, TraceLines>,
    core: &Core,
) -> Result<Vec<u8>, AllocError>
    ensures { (every : Bool) (start : TraceLines) (moments : List Moment)
        → IsTraceStart script.now.names start → HasShown HasLines every start teller.entry moments
        → IfOk result (λ text. IsTraceText every script.now.names moments (state_of core.now) text.items) }
{
    let story = teller.story()?;
    let mut text = head_text(alloc, script, story)?;
    write_tree(alloc, core.store(), &mut text)?;
    let mut last = Addition::new(text);
    push_counts(counts_of(core.timeline()), &mut last)?;
    Ok(last.kept())
}
