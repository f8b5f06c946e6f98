//! Strings of JSON.

ghost use Rattle.std.specs.Prelude.{◌≡◌, ◌++◌, ℕ, List, Some, OnOk};
ghost use Rattle.fs_words.specs.Json.{char_text, string_text};
ghost use Rattle.fs_words.specs.JsonReading.{read_string};

use crate::addition::Addition;
use std::alloc::{AllocError, Global};

/// Adds a byte as a string has it.
fn push_char(alloc: Global, byte: u8, text: &mut Addition) -> Result<(), AllocError>
    ensures ok { OnOk result (text.new.added ≡ text.old.added ++ char_text byte) }
    ensures before { text.new.before ≡ text.old.before }
{
    if byte == b'"' {
        text.push(b"\\\"")
    } else if byte == b'\\' {
        text.push(b"\\\\")
    } else if byte == b'\n' {
        text.push(b"\\n")
    } else if b' ' <= byte && byte <= b'~' {
        text.push(&[byte])
    } else {
        text.push(b"\\u00")?;
        text.push_hex(alloc, &[byte])
    }
}

/// Adds bytes as a string of JSON, which is read as these bytes, whatever is behind it. The only error is out of memory.
pub fn push_string(alloc: Global, bytes: &[u8], text: &mut Addition) -> Result<(), AllocError>
    ensures ok { OnOk result (text.new.added ≡ text.old.added ++ string_text bytes.now) }
    ensures reads { (rest : List ℕ) → read_string (string_text bytes.now ++ rest) ≡ Some (bytes.now, rest) }
    ensures before { text.new.before ≡ text.old.before }
{
    text.push(b"\"")?;
    for byte in bytes {
        push_char(alloc, *byte, text)?;
    }
    text.push(b"\"")
}
