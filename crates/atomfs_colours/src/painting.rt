//! A text in colours, and a sink that writes texts so, and with a layout.

ghost use Rattle.std.specs.Prelude.{◌≡◌, ◌≤◌, ◌<◌, ◌+◌, ◌-◌, ◌^◌, ◌++◌, true, false, ℕ, List, length, None, IfOk, OnOk, OnErr, if◌then◌else◌};
ghost use Rattle.atomfs_colours.specs.Colours.{has_escape, plain, plain_on};
ghost use Rattle.atomfs_colours.specs.Layouts.{changes};
ghost use Rattle.atomfs_colours.specs.code.Shows.{Shows};

use crate::colour::{Colour, closing, opening};
use crate::layout::{Layout, laid_out};
use crate::words::{Words, is_gap};
use fs_verdict::{Failed, Sink};
use std::alloc::{AllocError, Global};

/// Whether there is an escape in a text.
fn has_escape(text: &[u8]) -> bool
    ensures { result ≡ has_escape text.now }
{
    let mut found = false;
    for byte in text {
        if *byte == 27 {
            found = true;
        }
    }
    found
}

/// How many bytes the next piece has: those of a word, or one between two words.
fn piece_len(text: &[u8]) -> usize
    ensures { 0 < length text.now → (0 < result) × (result ≤ length text.now) }
{
    let word = match text.iter().position(|byte| is_gap(*byte)) {
        Some(at) => at,
        None => text.len(),
    };
    word.max(1).min(text.len())
}

/// Adds bytes.
fn push(bytes: &[u8], painted: &mut Vec<u8>) -> Result<(), AllocError>
    ensures { OnOk result (painted.new.items ≡ painted.old.items ++ bytes.now) }
{
    painted.extend_from_slice(bytes)
}

/// Adds a piece of text in a colour.
fn push_piece(colour: Colour, piece: &[u8], painted: &mut Vec<u8>) -> Result<(), AllocError>
    ensures { (before : List ℕ) → has_escape piece.now ≡ false → Shows painted.old.items before → OnOk result (Shows painted.new.items (before ++ piece.now)) }
{
    push(opening(colour), painted)?;
    push(piece, painted)?;
    push(closing(colour), painted)
}

/// A text without escapes, in colours.
fn in_colours(alloc: Global, text: &[u8]) -> Result<Vec<u8>, AllocError>
    ensures { has_escape text.now ≡ false → IfOk result (λ painted. plain painted.items ≡ text.now) }
{
    let mut painted = Vec::new(alloc);
    let mut words = Words::new(alloc);
    let mut left = text;
    'pieces: while !left.is_empty() {
        let (piece, rest) = left.split_at(piece_len(left));
        let colour = words.colour_of(piece)?;
        push_piece(colour, piece, &mut painted)?;
        left = rest;
    }
    Ok(painted)
}

/// A text in colours, by escape sequences: without these it is the text. One that has escapes itself is left as it is. The only error is
/// out of memory.
pub fn painted(alloc: Global, text: &[u8]) -> Result<Vec<u8>, AllocError>
    ensures plain { has_escape text.now ≡ false → IfOk result (λ painted. plain painted.items ≡ text.now) }
    ensures same { has_escape text.now ≡ true → IfOk result (λ painted. painted.items ≡ text.now) }
{
    if has_escape(text) {
        return Vec::from_slice(alloc, text);
    }
    in_colours(alloc, text)
}

/// Writes a whole text, which changes how often the sink has failed by the one failure that ends it.
fn write_whole<W: Sink>(writer: &mut W, text: &[u8]) -> Result<(), Failed>
    requires { W.failures writer.old < 2 ^ 64 - 1 }
    ensures ok { OnOk result (W.failures writer.new ≡ W.failures writer.old) }
    ensures err { OnErr result (W.failures writer.new ≡ W.failures writer.old + 1) }
{
    let mut at = 0;
    'texts: while at < text.len() {
        match writer.write(&text[at..]) {
            Ok(count) => at += count,
            Err(_) => return Err(Failed),
        }
    }
    Ok(())
}

/// A text with this layout, in colours or not.
fn shown(
    alloc: Global,
    text: &[u8],
    layout: Layout,
    in_colours: bool,
) -> Result<Vec<u8>, AllocError> {
    let laid = laid_out(alloc, text, layout)?;
    if in_colours {
        return painted(alloc, &laid);
    }
    Ok(laid)
}

/// Whether a text with this layout, in colours or not, may be another.
fn changes(layout: Layout, in_colours: bool) -> bool
    ensures { result ≡ changes layout in_colours }
{
    match layout {
        Layout::Plain => in_colours,
        Layout::Columns | Layout::Table => true,
    }
}

/// A sink that writes each text that it is given with a layout and in colours, or as it is.
#[derive(Drop)]
pub struct Painting<W> {
    alloc: Global,
    inner: W,
    layout: Layout,
    in_colours: bool,
    is_changed: bool,
}

impl<W> Painting<W> {
    /// A sink to which nothing was written yet.
    pub fn new(alloc: Global, inner: W, layout: Layout, in_colours: bool) -> Painting<W>
        ensures { result ≡ record { alloc = alloc; inner = inner; layout = layout; in_colours = in_colours; is_changed = changes layout in_colours } }
    {
        Painting {
            alloc,
            inner,
            layout,
            in_colours,
            is_changed: changes(layout, in_colours),
        }
    }
}

impl<W: Sink> Sink for Painting<W> {
    ghost contents = { λ painting. if painting.is_changed then None else W.contents painting.inner };

    ghost failures = { λ painting. W.failures painting.inner };

    fn write(&mut self, piece: &[u8]) -> Result<usize, Failed> {
        if !self.is_changed {
            return self.inner.write(piece);
        }
        let Ok(text) = shown(self.alloc, piece, self.layout, self.in_colours) else {
            return self.inner.write(piece);
        };
        write_whole(&mut self.inner, &text)?;
        Ok(piece.len())
    }
}
