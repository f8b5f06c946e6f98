//! Texts with a count of events for each word that names a call.

ghost use Rattle.std.specs.Prelude.{◌≡◌, ◌++◌, false, map, IfOk, OnOk};
ghost use Rattle.fs_words.specs.Lines.{is_passed_over};
ghost use Rattle.fs_sched.specs.Origins.{CanBegin};
ghost use Rattle.fs_sched_reach.specs.Words.{times_words};
ghost use Rattle.fs_sched_reach.specs.Plain.{has_words};
ghost use Rattle.fs_sched_reach.specs.Written.{spaced, IsWrittenOut};
ghost use Rattle.fs_sched_reach.specs.code.Joined.{closed};
ghost use Rattle.fs_sched_reach.specs.code.Writing.{WritesLine, WritesLines, WritesWord, WritesWords};

use crate::counting::count_of;
use crate::parts::{parts_at, pop_from, push_part};
use crate::plain::{has_words, schedule_start};
use crate::reach::{reach_of, with_times};
use fs_names::Limits;
use fs_sched::Origin;
use fs_words::FaultKind;
use fs_words::lines::{cut_words, is_passed_over};
use std::alloc::{AllocError, Global};

/// Adds a count of events of a thread, and a space; nothing if there are none.
fn push_count(alloc: Global, name: &[u8], count: u64, text: &mut Vec<u8>) -> Result<(), AllocError>
    ensures { OnOk result (text.new.items ≡ text.old.items ++ spaced (times_words name.now count)) }
{
    if count == 0 {
        return Ok(());
    }
    let word = with_times(alloc, &[], name, count)?;
    push_part(&word, b' ', text)
}

/// Adds what is written for a word, and a space, and answers true; or false if the word names a call and is no count.
fn push_word(
    alloc: Global,
    from: &Origin,
    limits: Limits,
    word: &[u8],
    text: &mut Vec<u8>,
) -> Result<bool, AllocError>
    requires begins { CanBegin from.now limits }
    ensures { IfOk result (λ is_written. WritesWord from.now limits text.old.items word.now is_written text.new.items) }
{
    let Some(reach) = reach_of(word) else {
        push_part(word, b' ', text)?;
        return Ok(true);
    };
    match count_of(alloc, from, limits, text, &reach)? {
        Some(count) => {
            push_count(alloc, reach.name, count, text)?;
            Ok(true)
        }
        None => Ok(false),
    }
}

/// Adds what is written for words, and answers true; or false if one of them is no count.
fn push_words(
    alloc: Global,
    from: &Origin,
    limits: Limits,
    words: &[&[u8]],
    text: &mut Vec<u8>,
) -> Result<bool, AllocError>
    requires begins { CanBegin from.now limits }
    ensures { IfOk result (λ is_written. WritesWords from.now limits text.old.items (map (λ word. word.now) words.now) is_written text.new.items) }
{
    for word in words {
        if !push_word(alloc, from, limits, word, text)? {
            return Ok(false);
        }
    }
    Ok(true)
}

/// Adds what is written for a line that is not passed over, and a line feed, and answers true; or false if the line is left, and
/// nothing was added.
fn push_schedule_line(
    alloc: Global,
    from: &Origin,
    limits: Limits,
    line: &[u8],
    text: &mut Vec<u8>,
) -> Result<bool, AllocError>
    requires begins { CanBegin from.now limits }
    requires some { is_passed_over line.now ≡ false }
    ensures { IfOk result (λ is_written. WritesLine from.now limits text.old.items line.now is_written text.new.items) }
{
    let start = text.len();
    let mut words = Vec::new(alloc);
    match cut_words(line, &mut words) {
        Ok(()) => {}
        Err(FaultKind::OutOfMemory) => return Err(AllocError),
        Err(_) => return Ok(false),
    }
    if !push_words(alloc, from, limits, &words, text)? {
        text.truncate(start);
        return Ok(false);
    }
    pop_from(start, text);
    text.push(b'\n')?;
    Ok(true)
}

/// The same of any line: one that is passed over stays.
fn push_line(
    alloc: Global,
    from: &Origin,
    limits: Limits,
    line: &[u8],
    text: &mut Vec<u8>,
) -> Result<bool, AllocError>
    requires begins { CanBegin from.now limits }
    ensures { IfOk result (λ is_written. WritesLine from.now limits text.old.items line.now is_written text.new.items) }
{
    if is_passed_over(line) {
        push_part(line, b'\n', text)?;
        return Ok(true);
    }
    push_schedule_line(alloc, from, limits, line, text)
}

/// Adds lines as they are, each with a line feed.
fn push_as_are(lines: &[&[u8]], text: &mut Vec<u8>) -> Result<(), AllocError>
    ensures { OnOk result (text.new.items ≡ text.old.items ++ closed 10 (map (λ line. line.now) lines.now)) }
{
    for line in lines {
        push_part(line, b'\n', text)?;
    }
    Ok(())
}

/// Adds what is written for lines, each with a line feed: from the first that is left on they stay.
fn push_lines(
    alloc: Global,
    from: &Origin,
    limits: Limits,
    lines: &[&[u8]],
    text: &mut Vec<u8>,
) -> Result<(), AllocError>
    requires begins { CanBegin from.now limits }
    ensures { OnOk result (WritesLines from.now limits text.old.items (map (λ line. line.now) lines.now) text.new.items) }
{
    for (at, line) in lines.iter().enumerate() {
        if !push_line(alloc, from, limits, line, text)? {
            return push_as_are(&lines[at..], text);
        }
    }
    Ok(())
}

/// A script's text with a count of events for each word of its schedule that names a call. The count is the least number of events
/// of the thread by which the run from there comes to the call after the words before it; nothing is written if none is needed. A
/// text without such words is itself.
///
/// From the line of the first word on that is no count, the text stays as it is: whoever reads it finds the bad word in that line. No
/// number is a count if the script has no such thread or call, or if the run does not come to it. The limits are those of the script that
/// `plain_text` has. The only error is out of memory.
pub fn written_out(
    alloc: Global,
    from: &Origin,
    limits: Limits,
    text: &[u8],
) -> Result<Vec<u8>, AllocError>
    requires begins { CanBegin from.now limits }
    ensures written { IfOk result (λ made. IsWrittenOut from.now limits text.now made.items) }
    ensures same { has_words text.now ≡ false → IfOk result (λ made. made.items ≡ text.now) }
{
    if !has_words(text) {
        return Vec::from_slice(alloc, text);
    }
    let Some(start) = schedule_start(text) else {
        return Vec::from_slice(alloc, text);
    };
    let (blocks, schedule) = text.split_at(start);
    let lines = parts_at(alloc, b'\n', schedule)?;
    let mut made = Vec::from_slice(alloc, blocks)?;
    push_lines(alloc, from, limits, &lines, &mut made)?;
    pop_from(start, &mut made);
    Ok(made)
}
