//! A text as a page has it.

ghost use Rattle.std.specs.Prelude.{◌≡◌, ◌++◌, List, ℕ, Some, OnOk};
ghost use Rattle.fs_draw_page.specs.Html.{is_printable, printed, printed_byte, read_html};
ghost use Rattle.fs_draw_page.specs.code.Marks.{marked, marked_byte};

use percent_encoding::percent_encode_byte;
use std::alloc::{AllocError, Global};

/// Whether a byte is a printable character of ASCII, or a line feed.
fn is_printable(byte: u8) -> bool
    ensures { result ≡ is_printable byte }
{
    byte == b'\n' || (byte > 31 && byte < 127)
}

/// Adds a byte, with an escape if it is not printable.
fn push_printed_byte(byte: u8, text: &mut Vec<u8>) -> Result<(), AllocError>
    ensures { OnOk result (text.new.items ≡ text.old.items ++ printed_byte byte) }
{
    if is_printable(byte) {
        return text.extend_from_slice(&[byte]);
    }
    text.extend_from_slice(percent_encode_byte(byte).as_bytes())
}

/// Adds a text in which each byte that is not printable is escaped.
#[tactic(auto, unfolding(crate::specs::Html::printed))]
fn push_printed(bytes: &[u8], text: &mut Vec<u8>) -> Result<(), AllocError>
    ensures { OnOk result (text.new.items ≡ text.old.items ++ printed bytes.now) }
{
    for byte in bytes {
        push_printed_byte(*byte, text)?;
    }
    Ok(())
}

/// Adds a byte; a sign of HTML by its name.
fn push_marked_byte(byte: u8, text: &mut Vec<u8>) -> Result<(), AllocError>
    ensures { OnOk result (text.new.items ≡ text.old.items ++ marked_byte byte) }
{
    match byte {
        b'<' => text.extend_from_slice(b"&lt;"),
        b'>' => text.extend_from_slice(b"&gt;"),
        b'&' => text.extend_from_slice(b"&amp;"),
        _ => text.extend_from_slice(&[byte]),
    }
}

/// Adds a text, with the signs of HTML by their names.
#[tactic(auto, unfolding(crate::specs::code::Marks::marked))]
fn push_marked(bytes: &[u8], text: &mut Vec<u8>) -> Result<(), AllocError>
    ensures { OnOk result (text.new.items ≡ text.old.items ++ marked bytes.now) }
{
    for byte in bytes {
        push_marked_byte(*byte, text)?;
    }
    Ok(())
}

/// Adds a text as a browser is to read it.
pub(crate) fn push_played(
    alloc: Global,
    played: &[u8],
    page: &mut Vec<u8>,
) -> Result<(), AllocError>
    ensures { OnOk result ((written : List ℕ) × (page.new.items ≡ page.old.items ++ written) × (read_html written ≡ Some (printed played.now))) }
{
    let mut text = Vec::new(alloc);
    push_printed(played, &mut text)?;
    push_marked(&text, page)?;
    Ok(())
}
