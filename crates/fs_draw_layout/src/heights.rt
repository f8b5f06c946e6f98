//! Where the lanes of a row stand.

use crate::pieces::Row;
use crate::space::{
    ARROW_GAP, AXIS_HEIGHT, BAR_HEIGHT, EMPTY_HEIGHT, LABEL_HEIGHT, SLOT_HEIGHT, add,
};
use fs_draw_scene::Scene;
use std::alloc::{AllocError, Global};

/// A lane in a row: its top, whether a bar stands in it, the room for heads of arrows above the bars and below them, how many slots
/// are used below, and whether it is shown at all.
#[derive(Clone, Copy, Debug)]
pub struct Band {
    pub top: u64,
    pub bars: bool,
    pub gap_above: u64,
    pub gap_below: u64,
    pub slots: usize,
    pub shown: bool,
}

impl Band {
    /// The top of its bars.
    pub fn bar(&self) -> u64 {
        add(self.top, add(add(4, LABEL_HEIGHT), self.gap_above))
    }

    /// The middle of its bars.
    pub fn middle(&self) -> u64 {
        add(self.bar(), 8)
    }

    /// The top of the boxes of a slot.
    pub fn slot(&self, slot: usize) -> u64 {
        let slots = (slot as u64).saturating_mul(SLOT_HEIGHT);
        add(self.bar(), add(add(19, self.gap_below), slots))
    }

    fn height(&self) -> u64 {
        if self.bars {
            let slots = (self.slots as u64).saturating_mul(SLOT_HEIGHT);
            let gaps = add(self.gap_above, self.gap_below);
            let bar = add(add(4, gaps), add(LABEL_HEIGHT, BAR_HEIGHT));
            return add(bar, add(add(3, slots), 9));
        }
        if self.shown { EMPTY_HEIGHT } else { 0 }
    }
}

/// The lanes of a row, and where it ends below.
#[derive(Drop)]
pub struct Bands {
    pub bands: Vec<Band>,
    pub top: u64,
    pub bottom: u64,
}

/// Notes in which lanes the pieces of a row stand.
fn note_pieces(row: &Row, bands: &mut Vec<Band>) {
    for piece in &row.pieces {
        if let Some(band) = bands.get_mut(piece.lane) {
            band.bars = true;
            band.shown = true;
            band.slots = band.slots.max(piece.slots);
        }
    }
}

/// The head of an arrow has room between a bar and what is above it or below.
fn note_arrows(row: &Row, bands: &mut Vec<Band>) {
    for arrow in &row.arrows {
        if let Some(band) = bands.get_mut(arrow.to) {
            if arrow.from < arrow.to {
                band.gap_above = ARROW_GAP;
            } else {
                band.gap_below = ARROW_GAP;
            }
        }
    }
}

/// The lanes of a row whose axis begins here.
pub fn bands_of(alloc: Global, scene: &Scene, row: &Row, top: u64) -> Result<Bands, AllocError> {
    let mut bands = Vec::new(alloc);
    for _ in &scene.lanes {
        bands.push(Band {
            top: 0,
            bars: false,
            gap_above: 0,
            gap_below: 0,
            slots: 0,
            shown: !scene.is_wide() && !scene.folds,
        })?;
    }
    note_pieces(row, &mut bands);
    note_arrows(row, &mut bands);
    let mut bottom = add(top, AXIS_HEIGHT);
    for band in bands.iter_mut() {
        band.top = bottom;
        bottom = add(bottom, band.height());
    }
    // A checkpoint is seen although no lane is.
    if !row.checkpoints.is_empty() {
        bottom = bottom.max(add(add(top, AXIS_HEIGHT), EMPTY_HEIGHT));
    }
    Ok(Bands { bands, top, bottom })
}
