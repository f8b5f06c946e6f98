//! The columns of a trace.

use crate::cells::{cut_word, is_number, push_spaces, word_len};
use std::alloc::{AllocError, Global};

/// The spaces between two columns.
const BETWEEN: &[u8] = b"  ";

/// What a line of a trace says of an event: its number, its thread, its call among those of that, and what it did. In the trace of a
/// journal the call has its seat, and there are no threads.
#[derive(Clone, Copy)]
struct Event<'t> {
    number: &'t [u8],
    thread: &'t [u8],
    call: &'t [u8],
    what: &'t [u8],
}

/// How wide the columns are: as the longest.
#[derive(Clone, Copy)]
struct Widths {
    number: usize,
    thread: usize,
    call: usize,
}

/// The call and the seat at the front of what a trace of a journal says, as `call 1 on seat 0`.
fn seated_len(said: &[u8]) -> Option<usize> {
    if !said.starts_with(b"call ") {
        return None;
    }
    let mut len = 0usize;
    for place in 0..5 {
        let rest = said.get(len..)?;
        let word = word_len(rest);
        if place == 1 && !is_number(rest.get(..word)?) {
            return None;
        }
        len = len.checked_add(word)?.checked_add(1)?;
    }
    len.checked_sub(1)
}

/// The thread and the call of an event, by the words that name them.
fn thread_and_call(who: &[u8]) -> (&[u8], &[u8]) {
    match who.iter().position(|byte| *byte == b'#') {
        Some(at) => who.split_at(at),
        None => (who, &[]),
    }
}

/// The event of a line, if it is one.
fn event_of(line: &[u8]) -> Option<Event<'_>> {
    let (number, said) = cut_word(line)?;
    if !is_number(number) {
        return None;
    }
    if let Some(len) = seated_len(said) {
        return Some(Event {
            number,
            thread: &[],
            call: said.get(..len)?,
            what: said.get(len.checked_add(1)?..)?,
        });
    }
    let (who, what) = cut_word(said)?;
    let (thread, call) = thread_and_call(who);
    Some(Event {
        number,
        thread,
        call,
        what,
    })
}

/// The widths of the columns of a trace.
fn widths_of(text: &[u8]) -> Widths {
    let mut widths = Widths {
        number: 0,
        thread: 0,
        call: 0,
    };
    for line in text.split(|byte| *byte == b'\n') {
        if let Some(event) = event_of(line) {
            widths.number = widths.number.max(event.number.len());
            widths.thread = widths.thread.max(event.thread.len());
            widths.call = widths.call.max(event.call.len());
        }
    }
    widths
}

/// Adds the line of an event. Its thread ends where its call begins, as in `m#3`.
fn push_event(event: &Event<'_>, widths: Widths, laid: &mut Vec<u8>) -> Result<(), AllocError> {
    push_spaces(widths.number.saturating_sub(event.number.len()), laid)?;
    laid.extend_from_slice(event.number)?;
    laid.extend_from_slice(BETWEEN)?;
    push_spaces(widths.thread.saturating_sub(event.thread.len()), laid)?;
    laid.extend_from_slice(event.thread)?;
    laid.extend_from_slice(event.call)?;
    push_spaces(widths.call.saturating_sub(event.call.len()), laid)?;
    laid.extend_from_slice(BETWEEN)?;
    laid.extend_from_slice(event.what)
}

/// A trace in columns. Its other lines are as they are.
pub(crate) fn columns_of(alloc: Global, text: &[u8]) -> Result<Vec<u8>, AllocError> {
    let widths = widths_of(text);
    let mut laid = Vec::new(alloc);
    let mut is_first = true;
    for line in text.split(|byte| *byte == b'\n') {
        if !is_first {
            laid.push(b'\n')?;
        }
        is_first = false;
        match event_of(line) {
            Some(event) => push_event(&event, widths, &mut laid)?,
            None => laid.extend_from_slice(line)?,
        }
    }
    Ok(laid)
}
