//! Calls and replies in words for a reader: those of a script, but for bytes, which are shown as text where they are one.

use fs_calls::{Call, Reply};
use fs_names::Path;
use fs_text::{write_call, write_reply};
use fs_words::Addition;
use std::alloc::{AllocError, Global};

/// Whether a byte is shown in a text: a printable one, a line feed or a tab.
fn is_shown(byte: u8) -> bool {
    matches!(byte, b' '..=b'~' | b'\n' | b'\t')
}

/// Adds a byte of a text in quotes.
fn push_quoted(byte: u8, words: &mut Addition) -> Result<(), AllocError> {
    match byte {
        b'\n' => words.push(b"\\n"),
        b'\t' => words.push(b"\\t"),
        b'"' => words.push(b"\\\""),
        b'\\' => words.push(b"\\\\"),
        _ => words.push(&[byte]),
    }
}

/// Adds bytes: as a text in quotes where all are printable, as `"port=80"`, and else as hexadecimal digits.
fn push_bytes(alloc: Global, bytes: &[u8], words: &mut Addition) -> Result<(), AllocError> {
    if !bytes.iter().all(|byte| is_shown(*byte)) {
        return words.push_hex(alloc, bytes);
    }
    words.push(b"\"")?;
    for byte in bytes {
        push_quoted(*byte, words)?;
    }
    words.push(b"\"")
}

/// The bytes of a file as they are shown.
pub(crate) fn shown_bytes(alloc: Global, bytes: &[u8]) -> Result<Vec<u8>, AllocError> {
    let mut words = Addition::new(Vec::new(alloc));
    push_bytes(alloc, bytes, &mut words)?;
    Ok(words.kept())
}

/// The words of a write without its bytes.
fn write_words(alloc: Global, path: &Path, offset: u64) -> Result<Vec<u8>, AllocError> {
    let mut words = Addition::new(Vec::new(alloc));
    words.push(b"write ")?;
    words.push_path(alloc, path)?;
    words.push_with_number(b" ", offset)?;
    Ok(words.kept())
}

/// Writes the words of a call, and the bytes that it writes as they are shown.
pub fn write_shown_call(
    alloc: Global,
    call: &Call,
    words: &mut Vec<u8>,
    data: &mut Vec<u8>,
) -> Result<(), AllocError> {
    match call {
        Call::Write(path, offset, bytes) => {
            *words = write_words(alloc, path, *offset)?;
            *data = shown_bytes(alloc, bytes.as_slice())?;
            Ok(())
        }
        _ => write_call(alloc, call, words),
    }
}

/// Writes the words of a reply.
pub fn write_shown_reply(
    alloc: Global,
    reply: &Reply,
    words: &mut Vec<u8>,
) -> Result<(), AllocError> {
    match reply {
        Reply::Bytes(bytes) => {
            words.extend_from_slice(b"bytes ")?;
            let shown = shown_bytes(alloc, bytes.as_slice())?;
            words.extend_from_slice(shown.as_slice())
        }
        _ => write_reply(alloc, reply, words),
    }
}
