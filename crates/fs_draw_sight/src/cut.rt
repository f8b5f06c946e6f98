//! Words that are cut where they are long. A `%` with its two digits stays whole.

use std::alloc::AllocError;

/// A sign in a text that is no byte of it: something was left out here.
pub const ELLIPSIS: u8 = 1;

/// A sign in a text: what follows is the reply.
pub const ARROW: u8 = 2;

/// The front of a text of at most so many bytes, which parts no escape.
fn front(text: &[u8], most: usize) -> &[u8] {
    let mut end = most;
    if end >= 1 && text.get(end - 1) == Some(&b'%') {
        end -= 1;
    } else if end >= 2 && text.get(end - 2) == Some(&b'%') {
        end -= 2;
    }
    match text.get(..end) {
        Some(front) => front,
        None => text,
    }
}

/// Adds a text, cut at its end where it is longer than so many characters.
pub fn push_cut(text: &[u8], most: usize, label: &mut Vec<u8>) -> Result<(), AllocError> {
    if text.len() <= most {
        return label.extend_from_slice(text);
    }
    label.extend_from_slice(front(text, most.saturating_sub(1)))?;
    label.push(ELLIPSIS)?;
    Ok(())
}

/// Adds words that may end with a quote, cut in the same way, so that the quote stays.
pub fn push_cut_quoted(text: &[u8], most: usize, label: &mut Vec<u8>) -> Result<(), AllocError> {
    if text.len() <= most || text.last() != Some(&b'"') {
        return push_cut(text, most, label);
    }
    push_cut(text, most.saturating_sub(1), label)?;
    label.push(b'"')?;
    Ok(())
}

/// The end of a text from a place on, which parts no escape.
fn back(text: &[u8], from: usize) -> &[u8] {
    let mut start = from;
    if from >= 1 && text.get(from - 1) == Some(&b'%') {
        start = from.saturating_add(2);
    } else if from >= 2 && text.get(from - 2) == Some(&b'%') {
        start = from.saturating_add(1);
    }
    match text.get(start..) {
        Some(back) => back,
        None => &[],
    }
}

/// Adds a text, cut where it is longer than so many characters: at its end where that leaves some of what comes after its first
/// `alike` bytes, which others have too; and else in the middle, so that it differs from them.
pub fn push_apart(
    text: &[u8],
    alike: usize,
    most: usize,
    label: &mut Vec<u8>,
) -> Result<(), AllocError> {
    if text.len() <= most || alike.saturating_add(2) <= most {
        return push_cut(text, most, label);
    }
    let head = most.saturating_sub(1) / 3;
    let room = most.saturating_sub(1).saturating_sub(head);
    label.extend_from_slice(front(text, head))?;
    label.push(ELLIPSIS)?;
    let end = text.len().saturating_sub(room);
    push_cut(back(text, alike.min(end)), room, label)
}
