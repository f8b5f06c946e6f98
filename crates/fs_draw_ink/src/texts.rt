//! The texts of a row, which come after all lines, and what hides a line behind each.

use crate::ink::Ink;
use std::alloc::{AllocError, Global};

/// A line from a height down to another, and whether it is drawn over bars and boxes.
#[derive(Clone, Copy, Debug)]
pub(crate) struct Upright {
    pub(crate) x: u64,
    pub(crate) top: u64,
    pub(crate) bottom: u64,
    pub(crate) over: bool,
}

/// Where a text has its place: from where to where, and between which heights.
#[derive(Clone, Copy, Debug)]
pub(crate) struct Area {
    pub(crate) from: u64,
    pub(crate) to: u64,
    pub(crate) top: u64,
    pub(crate) bottom: u64,
}

impl Area {
    fn meets(&self, line: &Upright) -> bool {
        line.x.saturating_add(2) >= self.from
            && line.x <= self.to.saturating_add(2)
            && line.top < self.bottom
            && self.top < line.bottom
    }
}

/// How wide a strip of a row is whose lines are kept together.
const STRIP: u64 = 64;

/// The lines of a row, strip by strip from the left: so that those near a text are found at once.
#[derive(Drop)]
pub(crate) struct Lines {
    strips: Vec<Vec<Upright>>,
}

/// The strip of a place.
fn strip_of(x: u64) -> usize {
    (x / STRIP) as usize
}

impl Lines {
    /// No lines yet, in a picture so wide.
    pub(crate) fn new(alloc: Global, width: u64) -> Result<Lines, AllocError> {
        let mut strips = Vec::new(alloc);
        for _ in 0..strip_of(width).saturating_add(1) {
            strips.push(Vec::new(alloc))?;
        }
        Ok(Lines { strips })
    }

    /// Adds a line; one that is right of the picture is left out.
    pub(crate) fn push(&mut self, line: Upright) -> Result<(), AllocError> {
        if let Some(strip) = self.strips.get_mut(strip_of(line.x)) {
            strip.push(line)?;
        }
        Ok(())
    }

    /// Whether a line goes through an area; if asked so, one that is drawn over bars and boxes.
    fn strike(&self, area: Area, over: bool) -> bool {
        let last = strip_of(area.to.saturating_add(2)).saturating_add(1);
        for at in strip_of(area.from.saturating_sub(2))..last.min(self.strips.len()) {
            let strip = self.strips[at].as_slice();
            if strip
                .iter()
                .any(|line| (line.over || !over) && area.meets(line))
            {
                return true;
            }
        }
        false
    }
}

/// The lines of a row, and its texts so far: labels, and others; and the data of what is between both.
#[derive(Drop)]
pub(crate) struct Texts {
    lines: Lines,
    ground: Ink,
    boxes: Ink,
    pub(crate) others: Ink,
    pub(crate) labels: Ink,
}

impl Texts {
    /// No texts yet, over these lines.
    pub(crate) fn new(alloc: Global, lines: Lines) -> Texts {
        Texts {
            lines,
            ground: Ink::new(alloc),
            boxes: Ink::new(alloc),
            others: Ink::new(alloc),
            labels: Ink::new(alloc),
        }
    }

    /// A text on the ground has its place here: what a line would strike through is covered.
    pub(crate) fn on_ground(&mut self, area: Area) -> Result<(), AllocError> {
        if self.lines.strike(area, false) {
            cover(area, &mut self.ground)?;
        }
        Ok(())
    }

    /// The same of a text on a bar, which hides the lines below it.
    pub(crate) fn on_bar(&mut self, area: Area) -> Result<(), AllocError> {
        if self.lines.strike(area, true) {
            cover(area, &mut self.ground)?;
        }
        Ok(())
    }

    /// The same of a text in a box.
    pub(crate) fn in_box(&mut self, area: Area) -> Result<(), AllocError> {
        if self.lines.strike(area, true) {
            cover(area, &mut self.boxes)?;
        }
        Ok(())
    }

    /// Writes what covers lines, and then the texts.
    pub(crate) fn write(self, ink: &mut Ink) -> Result<(), AllocError> {
        write_cover(b"B", self.ground, ink)?;
        write_cover(b"H", self.boxes, ink)?;
        ink.raw(b"<g class=\"l\">")?;
        ink.raw(self.others.into_text().as_slice())?;
        ink.raw(b"</g>\n<g class=\"b\">")?;
        ink.raw(self.labels.into_text().as_slice())?;
        ink.raw(b"</g>\n")
    }
}

/// Adds an area to the data of what covers lines.
fn cover(area: Area, data: &mut Ink) -> Result<(), AllocError> {
    let height = area.bottom.saturating_sub(area.top);
    data.rectangle(
        area.from.saturating_sub(1),
        area.top,
        area.to.saturating_add(1),
        height,
    )
}

fn write_cover(class: &[u8], data: Ink, ink: &mut Ink) -> Result<(), AllocError> {
    let data = data.into_text();
    if data.is_empty() {
        return Ok(());
    }
    ink.raw(b"<path class=\"")?;
    ink.raw(class)?;
    ink.raw(b"\" d=\"")?;
    ink.raw(data.as_slice())?;
    ink.raw(b"\"/>\n")
}
