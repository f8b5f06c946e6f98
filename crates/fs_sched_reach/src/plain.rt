//! Texts without the calls that their schedules name.

ghost use Rattle.std.specs.Prelude.{◌≡◌, ◌≤◌, ◌++◌, codes, length, map, IfOk, IfSome, OnOk};
ghost use Rattle.std.specs.List.{list_any};
ghost use Rattle.fs_sched_reach.specs.Words.{is_at_sign, plain_word as plain_word_of};
ghost use Rattle.fs_sched_reach.specs.Plain.{has_words, plain, plain_line, schedule_start};
ghost use Rattle.fs_sched_reach.specs.code.Joined.{closed};

use crate::parts::{parts_at, pop_from, push_part};
use crate::reach::plain_word;
use fs_words::lines::is_passed_over;
use memchr::memmem;
use std::alloc::{AllocError, Global};

/// The line at which a schedule begins, between two line feeds.
const SCHEDULE: &[u8] = b"\nschedule\n";

/// Where the schedule of a text begins, if it has one.
pub(crate) fn schedule_start(text: &[u8]) -> Option<usize>
    ensures start { result ≡ schedule_start text.now }
    ensures within { IfSome result (λ start. start ≤ length text.now) }
{
    match memmem::find(text, SCHEDULE) {
        Some(at) => Some(at + SCHEDULE.len()),
        None => None,
    }
}

fn has_at_sign(text: &[u8]) -> bool
    ensures { result ≡ list_any is_at_sign text.now }
{
    text.iter().any(|b| *b == b'@')
}

/// Whether the schedule of a text has a `@`: if not, no word in it names a call. It takes no memory.
pub fn has_words(text: &[u8]) -> bool
    ensures { result ≡ has_words text.now }
{
    match schedule_start(text) {
        Some(start) => {
            let (_, schedule) = text.split_at(start);
            has_at_sign(schedule)
        }
        None => false,
    }
}

/// Adds words without the calls that they name, each with a space after it.
fn push_plain_words(words: &[&[u8]], text: &mut Vec<u8>) -> Result<(), AllocError>
    ensures { OnOk result (text.new.items ≡ text.old.items ++ closed 32 (map plain_word_of (map (λ word. word.now) words.now))) }
{
    for word in words {
        push_part(plain_word(word), b' ', text)?;
    }
    Ok(())
}

/// Adds a line without the calls that its words name, and a line feed.
fn push_plain_line(alloc: Global, line: &[u8], text: &mut Vec<u8>) -> Result<(), AllocError>
    ensures { OnOk result (text.new.items ≡ text.old.items ++ (plain_line line.now ++ codes "\n")) }
{
    if is_passed_over(line) {
        return push_part(line, b'\n', text);
    }
    let start = text.len();
    let words = parts_at(alloc, b' ', line)?;
    push_plain_words(&words, text)?;
    pop_from(start, text);
    text.push(b'\n')?;
    Ok(())
}

/// Adds such lines.
fn push_plain_lines(alloc: Global, lines: &[&[u8]], text: &mut Vec<u8>) -> Result<(), AllocError>
    ensures { OnOk result (text.new.items ≡ text.old.items ++ closed 10 (map plain_line (map (λ line. line.now) lines.now))) }
{
    for line in lines {
        push_plain_line(alloc, line, text)?;
    }
    Ok(())
}

/// A text with the thread alone for each word of its schedule that names a call: one event of that thread. All else stays byte for
/// byte. So it has the faults of the text that are not those of such words.
pub fn plain_text(alloc: Global, text: &[u8]) -> Result<Vec<u8>, AllocError>
    ensures { IfOk result (λ made. made.items ≡ plain text.now) }
{
    let Some(start) = schedule_start(text) else {
        return Vec::from_slice(alloc, text);
    };
    let (blocks, schedule) = text.split_at(start);
    let lines = parts_at(alloc, b'\n', schedule)?;
    let mut made = Vec::from_slice(alloc, blocks)?;
    push_plain_lines(alloc, &lines, &mut made)?;
    pop_from(start, &mut made);
    Ok(made)
}
