//! The text of a script with some of its calls and words.

ghost use Rattle.std.specs.Prelude.{◌≡◌, ◌++◌, ◌∷◌, [], ℕ, List, false, IfOk, OnOk, get_or, drop, map, codes, if◌then◌else◌};
ghost use Rattle.std.specs.List.{flat_map};
ghost use Rattle.std.specs.Str.{bytes_eq};
ghost use Rattle.fs_words.specs.Lines.{lines_of};
ghost use Rattle.fs_words.specs.Reading.{words_of};
ghost use Rattle.fs_sched_shrink.specs.Kept.{picked};
ghost use Rattle.fs_sched_shrink.specs.code.Thinning.{read_words, begins_block, call_kept, ended, line_of, thinned, blocks_thinned, words_thinned, AddsLine};

use fs_words::FaultKind;
use fs_words::lines::{cut_line, cut_words, is_passed_over};
use fs_words::words::is_word;
use std::alloc::{AllocError, Global};

/// The first flag; where there is none, what it stands for goes.
pub(crate) fn first_flag(kept: &[bool]) -> bool
    ensures { result ≡ get_or kept.now 0 false }
{
    match kept {
        [first, ..] => *first,
        [] => false,
    }
}

/// The flags behind so many.
pub(crate) fn flags_behind(kept: &[bool], count: usize) -> &[bool]
    ensures { result.now ≡ drop count kept.now }
{
    if count < kept.len() {
        &kept[count..]
    } else {
        &[]
    }
}

/// The words of a line; none where it has none.
fn read_words<'a>(line: &'a [u8], words: &mut Vec<&'a [u8]>) -> Result<(), AllocError>
    ensures { OnOk result (map (λ w. w.now) words.new.items ≡ read_words (words_of line.now)) }
{
    match cut_words(line, words) {
        Ok(()) => Ok(()),
        Err(FaultKind::OutOfMemory) => Err(AllocError),
        Err(_) => {
            words.clear();
            Ok(())
        }
    }
}

fn begins_block(words: &[&[u8]]) -> bool
    ensures { result ≡ begins_block (map (λ w. w.now) words.now) }
{
    match words {
        [first, ..] => is_word(first, b"thread"),
        [] => false,
    }
}

/// Adds a word that stays.
fn push_kept<'a>(stays: bool, word: &'a [u8], left: &mut Vec<&'a [u8]>) -> Result<(), AllocError>
    ensures { OnOk result (map (λ w. w.now) left.new.items ≡ map (λ w. w.now) left.old.items ++ (if stays then word.now ∷ [] else [])) }
{
    if stays {
        left.push(word)?;
    }
    Ok(())
}

fn begins_schedule(line: &[u8]) -> bool
    ensures { result ≡ bytes_eq line.now (codes "schedule") }
{
    line == b"schedule".as_slice()
}

/// Those of these words that stay.
fn pick<'a>(alloc: Global, kept: &[bool], words: &[&'a [u8]]) -> Result<Vec<&'a [u8]>, AllocError>
    ensures { IfOk result (λ left. map (λ w. w.now) left.items ≡ picked (map (λ w. w.now) words.now) kept.now) }
{
    let mut left = Vec::new(alloc);
    for at in 0..words.len() {
        push_kept(first_flag(flags_behind(kept, at)), words[at], &mut left)?;
    }
    Ok(left)
}

fn push_line(line: &[u8], text: &mut Vec<u8>) -> Result<(), AllocError>
    ensures { OnOk result (text.new.items ≡ text.old.items ++ flat_map ended (line.now ∷ [])) }
{
    text.extend_from_slice(line)?;
    text.push(b'\n')?;
    Ok(())
}

/// Words, each behind a space.
fn push_more(words: &[&[u8]], text: &mut Vec<u8>) -> Result<(), AllocError>
    ensures { OnOk result (text.new.items ≡ text.old.items ++ flat_map (λ word. 32 ∷ word) (map (λ w. w.now) words.now)) }
{
    for word in words {
        text.push(b' ')?;
        text.extend_from_slice(word)?;
    }
    Ok(())
}

/// A line of words; no line where there are none.
fn push_words(words: &[&[u8]], text: &mut Vec<u8>) -> Result<(), AllocError>
    ensures { OnOk result (text.new.items ≡ text.old.items ++ flat_map ended (line_of (map (λ w. w.now) words.now))) }
{
    let [first, more @ ..] = words else {
        return Ok(());
    };
    text.extend_from_slice(first)?;
    push_more(more, text)?;
    text.push(b'\n')?;
    Ok(())
}

/// A line of the schedule, with those of its words that stay; the answer is the flags of the words behind it.
fn push_schedule_line<'k, 'a>(
    alloc: Global,
    kept: &'k [bool],
    line: &'a [u8],
    words: &mut Vec<&'a [u8]>,
    text: &mut Vec<u8>,
) -> Result<&'k [bool], AllocError>
    ensures { IfOk result (λ rest. (more : List (List ℕ)) → AddsLine (words_thinned kept.now (line.now ∷ more)) (words_thinned rest.now more) text.old.items text.new.items) }
{
    if is_passed_over(line) {
        push_line(line, text)?;
        return Ok(kept);
    }
    read_words(line, words)?;
    let found = words.as_slice();
    let left = pick(alloc, kept, found)?;
    push_words(left.as_slice(), text)?;
    Ok(flags_behind(kept, found.len()))
}

/// The lines of the schedule, with those of its words that stay.
fn push_schedule(
    alloc: Global,
    kept: &[bool],
    lines: &[u8],
    text: &mut Vec<u8>,
) -> Result<(), AllocError>
    ensures { OnOk result (text.new.items ≡ text.old.items ++ flat_map ended (words_thinned kept.now (lines_of lines.now))) }
{
    let mut words = Vec::new(alloc);
    let mut flags = kept;
    let mut left = lines;
    'lines: while let Some((line, rest)) = cut_line(left) {
        flags = push_schedule_line(alloc, flags, line, &mut words, text)?;
        left = rest;
    }
    Ok(())
}

fn push_call<'k>(
    kept: &'k [bool],
    line: &[u8],
    text: &mut Vec<u8>,
) -> Result<&'k [bool], AllocError>
    ensures rest { IfOk result (λ rest. rest.now ≡ drop 1 kept.now) }
    ensures text { OnOk result (text.new.items ≡ text.old.items ++ flat_map ended (call_kept kept.now line.now)) }
{
    if first_flag(kept) {
        push_line(line, text)?;
    }
    Ok(flags_behind(kept, 1))
}

/// A line of blocks, unless it is one of a call that goes; the answer is the flags of the calls behind it.
fn push_block_line<'k, 'a>(
    kept: &'k [bool],
    line: &'a [u8],
    words: &mut Vec<&'a [u8]>,
    text: &mut Vec<u8>,
) -> Result<&'k [bool], AllocError>
    ensures { IfOk result (λ rest. (more : List (List ℕ)) → bytes_eq line.now (codes "schedule") ≡ false
        → AddsLine (blocks_thinned kept.now (line.now ∷ more)) (blocks_thinned rest.now more) text.old.items text.new.items) }
{
    if is_passed_over(line) {
        push_line(line, text)?;
        return Ok(kept);
    }
    read_words(line, words)?;
    if begins_block(words.as_slice()) {
        push_line(line, text)?;
        return Ok(kept);
    }
    let rest = push_call(kept, line, text)?;
    Ok(rest)
}

/// The lines of blocks, with those of its calls that stay, and those of the schedule.
fn push_blocks(
    alloc: Global,
    kept: &[bool],
    lines: &[u8],
    text: &mut Vec<u8>,
) -> Result<(), AllocError>
    ensures { OnOk result (text.new.items ≡ text.old.items ++ flat_map ended (blocks_thinned kept.now (lines_of lines.now))) }
{
    let mut words = Vec::new(alloc);
    let mut flags = kept;
    let mut left = lines;
    'lines: while let Some((line, rest)) = cut_line(left) {
        if begins_schedule(line) {
            push_line(line, text)?;
            return push_schedule(alloc, flags, rest, text);
        }
        flags = push_block_line(flags, line, &mut words, text)?;
        left = rest;
    }
    Ok(())
}

/// The text of a script with those of its calls and words that stay. All other lines of its blocks are kept byte for byte, and
/// each line of its schedule that has words left.
pub(crate) fn thin(alloc: Global, input: &[u8], kept: &[bool]) -> Result<Vec<u8>, AllocError>
    ensures { IfOk result (λ made. lines_of made.items ≡ thinned kept.now (lines_of input.now)) }
{
    let mut text = Vec::new(alloc);
    let Some((first, rest)) = cut_line(input) else {
        return Ok(text);
    };
    push_line(first, &mut text)?;
    push_blocks(alloc, kept, rest, &mut text)?;
    Ok(text)
}
