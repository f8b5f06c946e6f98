//! A row, written: its lines first, then its bars and boxes, and its texts last.

use crate::ink::Ink;
use crate::piece_text::{write_arrow, write_shapes};
use crate::texts::{Area, Lines, Texts, Upright};
use fs_draw_layout::{
    Arrow, Band, Bands, CHECKPOINT, Dot, Frame, Hold, Piece, Places, Row, add, checkpoint_reach,
    digits, label_room, label_width, less, small_room, small_width,
};
use fs_draw_scene::{Card, Scene, What, label_of, push_cut};
use std::alloc::{AllocError, Global};

/// What is drawn, its places, and the frame.
#[derive(Clone, Copy)]
pub struct Canvas<'a> {
    pub alloc: Global,
    pub scene: &'a Scene,
    pub places: &'a Places,
    pub frame: Frame,
}

/// A number of the axis: the event or the entry of this number has its place here.
#[derive(Clone, Copy)]
struct Moment {
    x: u64,
    number: u64,
}

/// The words of the fault of a journal: from where to where, and the place of its line.
#[derive(Clone, Copy)]
struct Marked {
    x: u64,
    from: u64,
    to: u64,
}

/// Where the words above the checkpoints of a row stand: those that are far enough apart.
fn words_of(alloc: Global, checkpoints: &[u64]) -> Result<Vec<u64>, AllocError> {
    let mut words = Vec::new(alloc);
    let mut free = 0;
    for x in checkpoints {
        if *x >= free {
            words.push(*x)?;
            free = add(*x, add(checkpoint_reach().saturating_mul(2), 4));
        }
    }
    Ok(words)
}

/// Half the width of a number of the axis.
fn half(number: u64) -> u64 {
    add(small_width(digits(number)) / 2, 4)
}

/// Whether a number of the axis meets none of these words where it stands.
fn is_clear(moment: Moment, words: &[u64]) -> bool {
    let apart = add(checkpoint_reach(), half(moment.number));
    words.iter().all(|word| moment.x >= add(*word, apart) || add(moment.x, apart) <= *word)
}

/// Whether it meets no words of a fault.
fn is_apart(moment: Moment, marked: &Option<Marked>) -> bool {
    let reach = half(moment.number);
    match marked {
        Some(one) => add(moment.x, reach) <= one.from || moment.x >= add(one.to, reach),
        None => true,
    }
}

/// The lines of checkpoints, across all lanes.
fn write_checkpoints(
    row: &Row,
    words: &[u64],
    bands: &Bands,
    ink: &mut Ink,
) -> Result<(), AllocError> {
    if row.checkpoints.is_empty() {
        return Ok(());
    }
    ink.raw(b"<g class=\"a\">")?;
    for x in &row.checkpoints {
        ink.raw(
            b"<g class=\"checkpoint\"><title>the journal begins again here, and the next call is call 1</title>",
        )?;
        ink.with(b"<path class=\"j\" d=\"M ", *x)?;
        ink.with(b" ", add(bands.top, 17))?;
        ink.with(b"V ", bands.bottom)?;
        ink.raw(b"\"/>")?;
        if words.contains(x) {
            ink.text_at(b"", *x, add(bands.top, 13), CHECKPOINT)?;
        }
        ink.raw(b"</g>")?;
    }
    ink.raw(b"</g>\n")
}

/// The place of the arrow that a commit by another call has.
fn upright_of(arrow: &Arrow, bands: &Bands) -> Option<Upright> {
    let (from, to) = (
        bands.bands.get(arrow.from)?.middle(),
        bands.bands.get(arrow.to)?.middle(),
    );
    Some(Upright {
        x: arrow.x,
        top: from.min(to),
        bottom: from.max(to),
        over: true,
    })
}

impl<'a> Canvas<'a> {
    /// Where a mark of the row stands, and its number.
    fn moment(&self, at: usize) -> Option<Moment> {
        Some(Moment {
            x: *self.places.marks.get(at)?,
            number: self.scene.marks.get(at)?.at,
        })
    }

    /// The lane in which a mark commits a call.
    fn commits_in(&self, at: usize) -> Option<usize> {
        let mark = self.scene.marks.get(at)?;
        match mark.what {
            What::Commit => Some(self.scene.cards.get(mark.card as usize)?.lane),
            What::Help(helped) => Some(self.scene.cards.get(helped as usize)?.lane),
            _ => None,
        }
    }

    /// The numbers of the axis: at the first mark of the row and at commits, as far as they meet no other words.
    fn axis_of(
        &self,
        row: &Row,
        words: &[u64],
        marked: &Option<Marked>,
    ) -> Result<Vec<Moment>, AllocError> {
        let mut axis = Vec::new(self.alloc);
        // The name of the axis comes first.
        let mut free = add(10, small_width(5));
        let right = less(self.frame.width, 4);
        for at in row.first..row.end {
            let Some(moment) = self.moment(at) else {
                break;
            };
            let reach = half(moment.number);
            let fits = moment.x >= add(free, reach) && add(moment.x, less(reach, 4)) <= right;
            if fits
                && (at == row.first || self.commits_in(at).is_some())
                && is_clear(moment, words)
                && is_apart(moment, marked)
            {
                axis.push(moment)?;
                free = add(moment.x, less(reach, 2));
            }
        }
        Ok(axis)
    }

    /// The lines of a row from above: from the axis to each commit, at checkpoints, the arrows, and the fault.
    fn lines_of(
        &self,
        row: &Row,
        bands: &Bands,
        marked: &Option<Marked>,
    ) -> Result<Lines, AllocError> {
        let mut lines = Lines::new(self.alloc, self.frame.width)?;
        let top = add(bands.top, 17);
        for at in row.first..row.end {
            if let (Some(moment), Some(lane)) = (self.moment(at), self.commits_in(at)) {
                if let Some(band) = bands.bands.get(lane) {
                    lines.push(Upright {
                        x: moment.x,
                        top,
                        bottom: band.bar(),
                        over: false,
                    })?;
                }
            }
        }
        for arrow in &row.arrows {
            if let Some(line) = upright_of(arrow, bands) {
                lines.push(line)?;
            }
        }
        for x in &row.checkpoints {
            lines.push(Upright {
                x: *x,
                top,
                bottom: bands.bottom,
                over: false,
            })?;
        }
        if let Some(one) = marked {
            lines.push(Upright {
                x: one.x,
                top: add(bands.top, 2),
                bottom: bands.bottom,
                over: true,
            })?;
        }
        Ok(lines)
    }

    /// The lines from the axis to commits, and between lanes; and the axis.
    fn write_lines(
        &self,
        row: &Row,
        axis: &[Moment],
        bands: &Bands,
        ink: &mut Ink,
    ) -> Result<(), AllocError> {
        ink.raw(b"<path class=\"g\" d=\"")?;
        for at in row.first..row.end {
            if let (Some(moment), Some(lane)) = (self.moment(at), self.commits_in(at)) {
                if let Some(band) = bands.bands.get(lane) {
                    ink.with(b"M ", moment.x)?;
                    ink.with(b" ", add(bands.top, 17))?;
                    ink.with(b"V ", band.bar())?;
                }
            }
        }
        for band in &bands.bands {
            if band.shown {
                ink.with(b"M 8 ", band.top)?;
                ink.with(b"H ", less(self.frame.width, 8))?;
            }
        }
        ink.raw(b"\"/>\n")?;
        self.write_axis(axis, bands, ink)
    }

    /// The axis: what its numbers are, and these.
    fn write_axis(&self, axis: &[Moment], bands: &Bands, ink: &mut Ink) -> Result<(), AllocError> {
        let y = add(bands.top, 13);
        let name: &[u8] = if self.scene.is_run {
            b"event"
        } else {
            b"entry"
        };
        ink.raw(b"<g class=\"a\">")?;
        if !axis.is_empty() {
            ink.text_at(b"A", 10, y, name)?;
        }
        for moment in axis {
            ink.with(b"<text x=\"", moment.x)?;
            ink.with(b"\" y=\"", y)?;
            ink.with(b"\">", moment.number)?;
            ink.raw(b"</text>")?;
        }
        ink.raw(b"</g>\n")
    }

    fn write_names(&self, bands: &Bands, ink: &mut Ink) -> Result<(), AllocError> {
        for lane in 0..bands.bands.len() {
            let band = &bands.bands[lane];
            if let Some(name) = self.scene.lanes.get(lane) {
                if band.shown {
                    let down = if band.bars { 32 } else { 13 };
                    ink.text_at(b"t", 10, add(band.top, down), name.as_slice())?;
                }
            }
        }
        ink.raw(b"\n")
    }

    /// All of a row: what lies below comes first.
    pub fn write_row(&self, row: &Row, bands: &Bands, ink: &mut Ink) -> Result<(), AllocError> {
        let words = words_of(self.alloc, row.checkpoints.as_slice())?;
        let marked = self.marked_in(row);
        let axis = self.axis_of(row, words.as_slice(), &marked)?;
        let mut texts = Texts::new(self.alloc, self.lines_of(row, bands, &marked)?);
        self.write_lines(row, axis.as_slice(), bands, ink)?;
        write_checkpoints(row, words.as_slice(), bands, ink)?;
        self.write_names(bands, ink)?;
        for piece in &row.pieces {
            if let (Some(card), Some(band)) = (
                self.scene.cards.get(piece.card),
                bands.bands.get(piece.lane),
            ) {
                write_shapes(self, piece, card, *band, ink)?;
                self.write_texts(piece, card, *band, &mut texts)?;
            }
        }
        for arrow in &row.arrows {
            write_arrow(*arrow, bands, ink)?;
        }
        if let Some(one) = marked {
            self.write_fault(one, bands, ink, &mut texts)?;
        }
        texts.write(ink)
    }

    /// The texts of a piece.
    fn write_texts(
        &self,
        piece: &Piece,
        card: &Card,
        band: Band,
        texts: &mut Texts,
    ) -> Result<(), AllocError> {
        self.write_label(piece, card, band, texts)?;
        for dot in &piece.dots {
            write_order(*dot, band.middle(), texts)?;
        }
        if !piece.returns {
            let sign: &[u8] = if piece.goes { b"&#8250;" } else { b"?" };
            let x = add(piece.to, 3);
            texts.on_ground(Area {
                from: x,
                to: add(x, 8),
                top: band.bar(),
                bottom: add(band.bar(), 16),
            })?;
            texts.others.raw(b"<text class=\"o\"")?;
            texts.others.place(x, add(band.bar(), 12))?;
            texts.others.raw(sign)?;
            texts.others.raw(b"</text>")?;
        }
        if self.scene.shows_nodes() && !self.scene.is_large() {
            for hold in &piece.holds {
                self.write_hold(hold, band, texts)?;
            }
        }
        Ok(())
    }

    /// The name of what is held, or the words of a wait.
    fn write_hold(&self, hold: &Hold, band: Band, texts: &mut Texts) -> Result<(), AllocError> {
        match hold.holder {
            None => self.write_name(hold, band.slot(hold.slot), texts),
            Some(holder) if !self.scene.folds => {
                self.write_wait(hold, holder, band.slot(hold.slot), texts)
            }
            Some(_) => self.write_folded(hold, band, texts),
        }
    }

    /// The words of a wait: the last name of the node, and the word of the call that holds it; that word alone where both do not fit.
    fn wait_words(&self, hold: &Hold, holder: u32) -> Result<Vec<u8>, AllocError> {
        let who = self.scene.text_at(holder);
        let mut words = Vec::new(self.alloc);
        self.scene.push_name(hold.name, 8, &mut words)?;
        words.push(b' ')?;
        words.extend_from_slice(who)?;
        if add(words_end(hold, words.len()), 2) > hold.to {
            words.clear();
            words.extend_from_slice(who)?;
        }
        Ok(words)
    }

    /// Where the words of a wait end that are written; none where they have no room.
    pub(crate) fn wait_end(&self, hold: &Hold, holder: u32) -> Result<Option<u64>, AllocError> {
        if self.scene.is_large() {
            return Ok(None);
        }
        let end = words_end(hold, self.wait_words(hold, holder)?.len());
        Ok(if add(end, 2) <= hold.to {
            Some(end)
        } else {
            None
        })
    }

    /// The words of a wait, where they fit.
    fn write_wait(
        &self,
        hold: &Hold,
        holder: u32,
        top: u64,
        texts: &mut Texts,
    ) -> Result<(), AllocError> {
        let Some(end) = self.wait_end(hold, holder)? else {
            return Ok(());
        };
        let words = self.wait_words(hold, holder)?;
        let from = add(hold.from, 2);
        texts.on_ground(Area {
            from,
            to: less(end, 2),
            top,
            bottom: add(top, 11),
        })?;
        texts
            .others
            .text_at(b"v", from, add(top, 9), words.as_slice())
    }

    /// The words of a folded wait, on the bar, where they fit.
    fn write_folded(&self, hold: &Hold, band: Band, texts: &mut Texts) -> Result<(), AllocError> {
        let mut words = Vec::from_slice(self.alloc, b"waits for ")?;
        self.scene.push_name(hold.name, 8, &mut words)?;
        if add(words_end(hold, words.len()), 2) > hold.to {
            words.clear();
            self.scene.push_name(hold.name, 8, &mut words)?;
        }
        let to = words_end(hold, words.len());
        if words.is_empty() || add(to, 2) > hold.to {
            return Ok(());
        }
        let (from, top) = (add(hold.from, 4), add(band.bar(), 2));
        texts.on_bar(Area {
            from,
            to,
            top,
            bottom: add(top, 12),
        })?;
        texts
            .others
            .text_at(b"v", from, add(band.bar(), 12), words.as_slice())
    }

    /// As much of the name in a box as fits; nothing where only one character of several would.
    fn write_name(&self, hold: &Hold, top: u64, texts: &mut Texts) -> Result<(), AllocError> {
        let fits = small_room(less(less(hold.to, hold.from), 6)).min(64);
        if fits < self.scene.name_at(hold.name).len() && fits <= 1 {
            return Ok(());
        }
        let mut words = Vec::new(self.alloc);
        self.scene.push_name(hold.name, fits, &mut words)?;
        let from = add(hold.from, 3);
        texts.in_box(Area {
            from,
            to: add(from, small_width(words.len())),
            top: add(top, 1),
            bottom: add(top, 10),
        })?;
        texts
            .others
            .text_at(b"n", from, add(top, 9), words.as_slice())
    }

    /// Where the line of the first fault has its place in this row, and its words.
    fn marked_in(&self, row: &Row) -> Option<Marked> {
        let fault = self.scene.fault.as_ref()?;
        let is_last = row.end >= self.scene.marks.len();
        let at = match fault.mark {
            Some(mark) if mark >= row.first && mark < row.end => mark,
            None if is_last => row.end.saturating_sub(1),
            _ => return None,
        };
        let x = match self.places.marks.get(at) {
            Some(place) if fault.mark.is_some() => *place,
            Some(place) => add(*place, 12),
            None => self.frame.left,
        };
        let width = label_width(fault.words.len());
        let from = if add(x, add(width, 12)) > self.frame.width {
            less(x, add(width, 4))
        } else {
            add(x, 4)
        };
        Some(Marked {
            x,
            from,
            to: add(from, width),
        })
    }

    /// The line of the first fault, and its words.
    fn write_fault(
        &self,
        marked: Marked,
        bands: &Bands,
        ink: &mut Ink,
        texts: &mut Texts,
    ) -> Result<(), AllocError> {
        ink.with(b"<path class=\"r\" d=\"M ", marked.x)?;
        ink.with(b" ", add(bands.top, 2))?;
        ink.with(b"V ", bands.bottom)?;
        ink.raw(b"\"/>\n")?;
        let mut words = Vec::new(self.alloc);
        if let Some(fault) = &self.scene.fault {
            let room = label_room(less(less(self.frame.width, 4), marked.from));
            push_cut(fault.words.as_slice(), room, &mut words)?;
        }
        let top = add(bands.top, 3);
        texts.on_ground(Area {
            from: marked.from,
            to: marked.to,
            top,
            bottom: add(top, 13),
        })?;
        texts
            .labels
            .text_at(b"e", marked.from, add(bands.top, 13), words.as_slice())
    }

    /// The label of a piece, cut where the picture ends.
    fn write_label(
        &self,
        piece: &Piece,
        card: &Card,
        band: Band,
        texts: &mut Texts,
    ) -> Result<(), AllocError> {
        let room = label_room(less(less(self.frame.width, 4), piece.from));
        let most = room.min(self.frame.label_room());
        let label = label_of(self.alloc, card, piece.comes, self.scene.is_wide(), most)?;
        texts.on_ground(Area {
            from: piece.from,
            to: add(piece.from, label_width(label.len())),
            top: add(band.top, 5),
            bottom: add(band.top, 19),
        })?;
        let ink = &mut texts.labels;
        ink.raw(b"<text")?;
        ink.place(piece.from, add(band.top, 16))?;
        ink.words(label.plain.as_slice())?;
        if !label.failure.is_empty() {
            ink.raw(b"<tspan class=\"e\">")?;
            ink.words(label.failure.as_slice())?;
            ink.raw(b"</tspan>")?;
        }
        ink.raw(b"</text>")
    }
}

/// The number of a commit, right of its dot.
fn write_order(dot: Dot, middle: u64, texts: &mut Texts) -> Result<(), AllocError> {
    let from = add(dot.x, 8);
    texts.on_bar(Area {
        from,
        to: add(from, small_width(digits(dot.order))),
        top: less(middle, 5),
        bottom: add(middle, 6),
    })?;
    let ink = &mut texts.others;
    ink.raw(b"<text class=\"m\"")?;
    ink.place(from, add(middle, 4))?;
    ink.number(dot.order)?;
    ink.raw(b"</text>")
}

/// Where the words of a wait end that have so many characters.
fn words_end(hold: &Hold, characters: usize) -> u64 {
    add(add(hold.from, 4), small_width(characters))
}
