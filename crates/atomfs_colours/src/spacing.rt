//! The words of a text, whatever the spaces between them.

ghost use Rattle.std.specs.Prelude.{◌≡◌, ◌++◌, IfOk, OnOk};
ghost use Rattle.atomfs_colours.specs.Layouts.{behind_gap, in_word, kept_byte, kept_word, place_after, words_of};

use std::alloc::{AllocError, Global};

/// Where a line is.
#[derive(Clone, Copy, Debug, PartialEq, Eq)]
pub(crate) enum Place {
    /// Before its first word.
    Start,
    Word,
    /// Between two words.
    Gap,
    /// In what a layout has added.
    Share,
}

/// Where a line is after a space.
fn behind_gap(place: Place) -> Place
    ensures { result ≡ behind_gap place }
{
    match place {
        Place::Start => Place::Start,
        Place::Word | Place::Gap | Place::Share => Place::Gap,
    }
}

/// Where a line is after a byte of a word.
fn in_word(shares: bool, place: Place, byte: u8) -> Place
    ensures { result ≡ in_word shares place byte }
{
    match place {
        Place::Start | Place::Word => Place::Word,
        Place::Gap => {
            if shares && byte == b'(' {
                Place::Share
            } else {
                Place::Word
            }
        }
        Place::Share => Place::Share,
    }
}

/// Where a line is after a byte.
fn place_after(shares: bool, place: Place, byte: u8) -> Place
    ensures { result ≡ place_after shares place byte }
{
    if byte == b'\n' {
        Place::Start
    } else if byte == b' ' {
        behind_gap(place)
    } else {
        in_word(shares, place, byte)
    }
}

/// Adds a byte of a word, with a space before it if a gap is.
fn push_word(shares: bool, place: Place, byte: u8, words: &mut Vec<u8>) -> Result<(), AllocError>
    ensures { OnOk result (words.new.items ≡ words.old.items ++ kept_word shares place byte) }
{
    match place {
        Place::Start | Place::Word => words.extend_from_slice(&[byte]),
        Place::Gap => {
            if shares && byte == b'(' {
                return words.extend_from_slice(&[]);
            }
            words.extend_from_slice(&[b' ', byte])
        }
        Place::Share => words.extend_from_slice(&[]),
    }
}

/// Adds what is left of a byte.
fn push_byte(shares: bool, place: Place, byte: u8, words: &mut Vec<u8>) -> Result<(), AllocError>
    ensures { OnOk result (words.new.items ≡ words.old.items ++ kept_byte shares place byte) }
{
    if byte == b'\n' {
        words.extend_from_slice(b"\n")
    } else if byte == b' ' {
        words.extend_from_slice(&[])
    } else {
        push_word(shares, place, byte, words)
    }
}

/// The words of a text, line by line, with one space between two.
#[tactic(auto, unfolding(crate::specs::Layouts::words_on))]
pub(crate) fn words_of(alloc: Global, text: &[u8], shares: bool) -> Result<Vec<u8>, AllocError>
    ensures { IfOk result (λ words. words.items ≡ words_of shares text.now) }
{
    let mut words = Vec::new(alloc);
    let mut place = Place::Start;
    for byte in text {
        push_byte(shares, place, *byte, &mut words)?;
        place = place_after(shares, place, *byte);
    }
    Ok(words)
}
