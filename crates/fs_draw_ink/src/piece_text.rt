//! The bars, boxes and dots of a call in a row, and the arrows, written.

use crate::ink::Ink;
use crate::row_text::Canvas;
use crate::tips::write_tip;
use fs_draw_layout::{
    Arrow, BAR_HEIGHT, BOX_HEIGHT, Band, Bands, Bar, Dot, Part, Piece, add, less,
};
use fs_draw_scene::Card;
use std::alloc::AllocError;

/// What of a piece is no text.
pub(crate) fn write_shapes(
    canvas: &Canvas<'_>,
    piece: &Piece,
    card: &Card,
    band: Band,
    ink: &mut Ink,
) -> Result<(), AllocError> {
    let scene = canvas.scene;
    ink.raw(if piece.comes {
        b"<g class=\"more\"><title>"
    } else {
        b"<g class=\"call\"><title>"
    })?;
    write_tip(canvas.alloc, scene, card, ink)?;
    ink.raw(b"</title>")?;
    write_bars(piece, band.bar(), ink)?;
    write_pales(piece, band.bar(), ink)?;
    if scene.shows_ticks() {
        write_ticks(piece, band.bar(), ink)?;
    }
    if scene.shows_nodes() && !scene.is_large() && !scene.folds {
        write_waits(canvas, piece, band, ink)?;
    }
    if scene.shows_nodes() {
        write_boxes(piece, band, ink)?;
    }
    for dot in &piece.dots {
        write_dot(*dot, band.middle(), ink)?;
    }
    ink.raw(b"</g>\n")
}

/// The dots of waits, after their words.
fn write_waits(
    canvas: &Canvas<'_>,
    piece: &Piece,
    band: Band,
    ink: &mut Ink,
) -> Result<(), AllocError> {
    let mut any = false;
    for hold in &piece.holds {
        let Some(holder) = hold.holder else {
            continue;
        };
        if !any {
            ink.raw(b"<path class=\"d\" d=\"")?;
        }
        any = true;
        let from = canvas.wait_end(hold, holder)?.unwrap_or(hold.from);
        ink.with(b"M ", from)?;
        ink.with(b" ", add(band.slot(hold.slot), 6))?;
        ink.with(b"H ", hold.to)?;
    }
    if any {
        ink.raw(b"\"/>")?;
    }
    Ok(())
}

/// The boxes of what is held.
fn write_boxes(piece: &Piece, band: Band, ink: &mut Ink) -> Result<(), AllocError> {
    let mut any = false;
    for hold in &piece.holds {
        if hold.holder.is_some() {
            continue;
        }
        if !any {
            ink.raw(b"<path class=\"h\" d=\"")?;
        }
        any = true;
        ink.rectangle(hold.from, band.slot(hold.slot), hold.to, BOX_HEIGHT)?;
    }
    if any {
        ink.raw(b"\"/>")?;
    }
    Ok(())
}

/// The class of a part of a bar.
fn class_of(part: Part) -> &'static [u8] {
    match part {
        Part::Walking => b"w",
        Part::Given => b"p",
        Part::Done => b"f",
    }
}
/// A part of a bar, with an end open where the call comes from another row or goes on in one.
fn write_bar(
    bar: Bar,
    top: u64,
    open_left: bool,
    open_right: bool,
    ink: &mut Ink,
) -> Result<(), AllocError> {
    ink.raw(b"<path class=\"")?;
    ink.raw(class_of(bar.part))?;
    if open_left && open_right {
        ink.raw(b" N\" d=\"")?;
        ink.rectangle(bar.from, top, bar.to, BAR_HEIGHT)?;
        ink.with(b"\"/><path class=\"i\" d=\"M ", bar.from)?;
        ink.with(b" ", top)?;
        ink.with(b"H ", bar.to)?;
        ink.with(b"M ", bar.from)?;
        ink.with(b" ", add(top, BAR_HEIGHT))?;
        ink.with(b"H ", bar.to)?;
        return ink.raw(b"\"/>");
    }
    ink.raw(b"\" d=\"")?;
    let (from, to) = if open_right {
        (bar.to, bar.from)
    } else {
        (bar.from, bar.to)
    };
    ink.with(b"M ", from)?;
    ink.with(b" ", top)?;
    ink.with(b"H ", to)?;
    ink.with(b"v", BAR_HEIGHT)?;
    ink.with(b"H ", from)?;
    ink.raw(if open_left || open_right {
        b"\"/>"
    } else {
        b"z\"/>"
    })
}

fn write_bars(piece: &Piece, top: u64, ink: &mut Ink) -> Result<(), AllocError> {
    let count = piece.bars.len();
    for i in 0..count {
        let bar = piece.bars[i];
        let open_left = piece.comes && i == 0;
        let open_right = !piece.returns && i.saturating_add(1) == count;
        write_bar(bar, top, open_left, open_right, ink)?;
    }
    Ok(())
}

fn write_pales(piece: &Piece, top: u64, ink: &mut Ink) -> Result<(), AllocError> {
    if piece.pales.is_empty() {
        return Ok(());
    }
    ink.raw(b"<path class=\"u\" d=\"")?;
    for (from, to) in &piece.pales {
        ink.rectangle(*from, add(top, 1), *to, less(BAR_HEIGHT, 2))?;
    }
    ink.raw(b"\"/>")
}

fn write_ticks(piece: &Piece, top: u64, ink: &mut Ink) -> Result<(), AllocError> {
    if piece.ticks.is_empty() {
        return Ok(());
    }
    ink.raw(b"<path class=\"i\" d=\"")?;
    for x in &piece.ticks {
        ink.with(b"M ", *x)?;
        ink.with(b" ", add(top, less(BAR_HEIGHT, 3)))?;
        ink.raw(b"v3")?;
    }
    ink.raw(b"\"/>")
}

fn write_dot(dot: Dot, middle: u64, ink: &mut Ink) -> Result<(), AllocError> {
    ink.raw(if dot.given {
        b"<circle class=\"k\" cx=\""
    } else {
        b"<circle class=\"c\" cx=\""
    })?;
    ink.number(dot.x)?;
    ink.with(b"\" cy=\"", middle)?;
    ink.raw(b"\" r=\"4.5\"/>")
}

/// An arrow from the bar of the call that helps to the edge of the other one's bar, above it or below.
pub(crate) fn write_arrow(arrow: Arrow, bands: &Bands, ink: &mut Ink) -> Result<(), AllocError> {
    let (Some(from), Some(to)) = (bands.bands.get(arrow.from), bands.bands.get(arrow.to)) else {
        return Ok(());
    };
    let (start, dot) = (from.middle(), to.middle());
    let up = dot < start;
    ink.with(b"<path class=\"x\" d=\"M ", arrow.x)?;
    ink.with(b" ", start)?;
    ink.with(b"V ", if up { add(dot, 14) } else { less(dot, 14) })?;
    ink.with(b"\"/><path class=\"y\" d=\"M ", arrow.x)?;
    ink.with(b" ", if up { add(dot, 8) } else { less(dot, 8) })?;
    ink.raw(if up {
        b"l-4 7h8z\"/>"
    } else {
        b"l-4 -7h8z\"/>"
    })?;
    ink.with(b"<circle class=\"y\" cx=\"", arrow.x)?;
    ink.with(b"\" cy=\"", start)?;
    ink.raw(b"\" r=\"2.5\"/>\n")
}
