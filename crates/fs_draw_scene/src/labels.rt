//! The words of labels, cut where they are long. A `%` with its two digits stays whole.

use crate::scene::Card;
use fs_draw_sight::{ARROW, ELLIPSIS, push_apart, push_cut, push_cut_quoted};
use fs_text::errno_text;
use itoa::Buffer;
use std::alloc::{AllocError, Global};

/// The most characters of a path in a label, of each of two paths, of another word of a call, and of a reply.
const PATH_WIDTH: usize = 28;

const PATHS_WIDTH: usize = 20;

const WORD_WIDTH: usize = 10;

/// The most characters of the bytes of a call.
const DATA_WIDTH: usize = 16;

const REPLY_WIDTH: usize = 20;

/// Where the last names of a path begin that have at most so many characters; the end of the path where the last one has more.
fn tail(path: &[u8], most: usize) -> usize {
    let from = path.len().saturating_sub(most);
    for at in from..path.len() {
        if path[at] == b'/' {
            return at;
        }
    }
    path.len()
}

/// Where the last name of a path begins, with the slash before it.
fn last_slash(path: &[u8]) -> usize {
    let mut last = 0;
    for at in 0..path.len() {
        if path[at] == b'/' {
            last = at;
        }
    }
    last
}

/// The last name of a path, or the path of the root.
pub fn last_name(path: &[u8]) -> &[u8] {
    if path.len() <= 1 {
        return path;
    }
    match path.get(last_slash(path).saturating_add(1)..) {
        Some(name) => name,
        None => path,
    }
}

/// Adds a path, cut at its front where it is longer than so many characters, and else in the middle of its last name.
fn push_path(path: &[u8], most: usize, label: &mut Vec<u8>) -> Result<(), AllocError> {
    if path.len() <= most {
        return label.extend_from_slice(path);
    }
    let from = tail(path, most.saturating_sub(1));
    if from > 0 {
        label.push(ELLIPSIS)?;
    }
    match path.get(from..) {
        Some(names) if !names.is_empty() => label.extend_from_slice(names),
        _ => push_last_name(path, most.saturating_sub(1), label),
    }
}

/// Adds the last name of a path with its slash, cut in its middle.
fn push_last_name(path: &[u8], most: usize, label: &mut Vec<u8>) -> Result<(), AllocError> {
    match path.get(last_slash(path)..) {
        Some(name) => push_apart(name, name.len(), most, label),
        None => Ok(()),
    }
}

fn push_word(word: &[u8], path_width: usize, label: &mut Vec<u8>) -> Result<(), AllocError> {
    if word.starts_with(b"/") {
        push_path(word, path_width, label)
    } else {
        push_cut(word, WORD_WIDTH, label)
    }
}

/// Where the word ends that begins at a place.
fn word_end(words: &[u8], from: usize) -> usize {
    for at in from..words.len() {
        if words[at] == b' ' {
            return at;
        }
    }
    words.len()
}

/// Adds the words of a call, each cut by itself.
fn push_call(card: &Card, label: &mut Vec<u8>) -> Result<(), AllocError> {
    let words = card.words.as_slice();
    let path_width = if card.has_two_paths {
        PATHS_WIDTH
    } else {
        PATH_WIDTH
    };
    let mut from = 0;
    for _ in 0..5 {
        let end = word_end(words, from);
        if let Some(word) = words.get(from..end) {
            push_word(word, path_width, label)?;
        }
        if end >= words.len() {
            return push_data(card, label);
        }
        label.push(b' ')?;
        from = end + 1;
    }
    Ok(())
}

/// Adds the bytes that a call writes.
fn push_data(card: &Card, label: &mut Vec<u8>) -> Result<(), AllocError> {
    if card.data.is_empty() {
        return Ok(());
    }
    label.push(b' ')?;
    push_cut_quoted(card.data.as_slice(), DATA_WIDTH, label)
}

/// Adds a call to a heading: its words, cut where they are long.
pub fn push_call_of(card: &Card, words: &mut Vec<u8>) -> Result<(), AllocError> {
    push_call(card, words)
}

/// Adds a call as one word: its thread, and its place among the calls of that.
pub fn push_who(thread: &[u8], turn: u64, word: &mut Vec<u8>) -> Result<(), AllocError> {
    word.extend_from_slice(thread)?;
    push_number(turn, word)
}

/// Adds `#` and a number.
fn push_number(number: u64, label: &mut Vec<u8>) -> Result<(), AllocError> {
    let mut buffer = Buffer::new();
    label.push(b'#')?;
    label.extend_from_slice(buffer.format(number).as_bytes())
}

/// A label: what is plain in it, and what is reported as a failure.
#[derive(Drop)]
pub struct Label {
    pub plain: Vec<u8>,
    pub failure: Vec<u8>,
}

impl Label {
    /// How many characters it has.
    pub fn len(&self) -> usize {
        self.plain.len().saturating_add(self.failure.len())
    }
}

/// Adds a reply to a label.
fn push_reply(card: &Card, label: &mut Label) -> Result<(), AllocError> {
    if card.reply.is_none() {
        return Ok(());
    }
    label.plain.push(b' ')?;
    match card.reply.errno {
        Some(errno) => {
            label.failure.extend_from_slice(&[ARROW, b' '])?;
            label.failure.extend_from_slice(errno_text(errno))?;
        }
        None => {
            label.plain.extend_from_slice(&[ARROW, b' '])?;
            push_cut_quoted(card.reply.words.as_slice(), REPLY_WIDTH, &mut label.plain)?;
        }
    }
    if card.due.is_none() {
        return Ok(());
    }
    label.failure.extend_from_slice(b", due ")?;
    match card.due.errno {
        Some(errno) => label.failure.extend_from_slice(errno_text(errno)),
        None => push_cut_quoted(card.due.words.as_slice(), REPLY_WIDTH, &mut label.failure),
    }
}

/// Adds the kind of the fault of an entry of a call.
fn push_fault(card: &Card, label: &mut Label) -> Result<(), AllocError> {
    if card.fault.is_empty() {
        return Ok(());
    }
    label.failure.extend_from_slice(b", ")?;
    label.failure.extend_from_slice(card.fault.as_slice())
}

impl Label {
    /// The label, cut where it has more characters than these.
    fn fitted(mut self, most: usize) -> Result<Label, AllocError> {
        self.failure.truncate(most);
        let room = most.saturating_sub(self.failure.len());
        if self.plain.len() > room {
            self.plain.truncate(room.saturating_sub(1));
            self.plain.push(ELLIPSIS)?;
        }
        Ok(self)
    }
}

/// The label of a call, of no more than so many characters: where it begins, or in a later row.
pub fn label_of(
    alloc: Global,
    card: &Card,
    again: bool,
    short: bool,
    most: usize,
) -> Result<Label, AllocError> {
    let mut label = Label {
        plain: Vec::new(alloc),
        failure: Vec::new(alloc),
    };
    if again {
        label.plain.extend_from_slice(&[ELLIPSIS, b' '])?;
    }
    push_number(card.turn, &mut label.plain)?;
    if !(again && short) {
        label.plain.push(b' ')?;
        push_call(card, &mut label.plain)?;
        push_reply(card, &mut label)?;
    }
    push_fault(card, &mut label)?;
    label.fitted(most)
}
