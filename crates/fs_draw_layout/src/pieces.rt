//! What of each call stands in a row.

use crate::places::{Place, Places};
use crate::space::{Frame, add, less};
use fs_draw_scene::{Card, Mark, Scene, What};
use std::alloc::{AllocError, Global};

/// How far a call is.
#[derive(Clone, Copy, Debug, PartialEq, Eq)]
pub enum Part {
    /// It has no place yet.
    Walking,
    /// Another call gave it its place, and its change is not made.
    Given,
    /// It has its place, and its change is made.
    Done,
}

/// A part of a bar.
#[derive(Clone, Copy, Debug)]
pub struct Bar {
    pub part: Part,
    pub from: u64,
    pub to: u64,
}

/// A node that is held or waited for, in a slot below the bar, and the place of its name among the names; where it is waited for the
/// place among the names at which the word of the call stands that holds it.
#[derive(Clone, Copy, Debug)]
pub struct Hold {
    pub slot: usize,
    pub from: u64,
    pub to: u64,
    pub holder: Option<u32>,
    pub node: u32,
    pub name: Option<u32>,
}

/// A commit: where, which one of all, and whether another call gave it.
#[derive(Clone, Copy, Debug)]
pub struct Dot {
    pub x: u64,
    pub order: u64,
    pub given: bool,
}

/// A call in a row: the place of the call among the calls, from where to where its bar goes, whether it comes from the row before
/// and goes on in the next one, and all that stands on it and below.
#[derive(Drop)]
pub struct Piece {
    pub card: usize,
    pub lane: usize,
    pub from: u64,
    pub to: u64,
    pub comes: bool,
    pub goes: bool,
    pub returns: bool,
    pub bars: Vec<Bar>,
    pub pales: Vec<(u64, u64)>,
    pub ticks: Vec<u64>,
    pub holds: Vec<Hold>,
    pub dots: Vec<Dot>,
    pub slots: usize,
}

/// A commit that one lane's call gives to another lane's.
#[derive(Clone, Copy, Debug)]
pub struct Arrow {
    pub x: u64,
    pub from: usize,
    pub to: usize,
}

/// A lane with a call under way: the call's piece in this row, how far it is and from where on, and what it holds and waits for.
#[derive(Drop)]
struct Live {
    piece: Option<Piece>,
    part: Part,
    from: u64,
    held: Vec<Hold>,
    wait: Option<Hold>,
}

/// A row: its pieces and arrows, where checkpoints stand, and the places of its marks, from the first on to the one behind the
/// last.
#[derive(Drop)]
pub struct Row {
    pub pieces: Vec<Piece>,
    pub arrows: Vec<Arrow>,
    pub checkpoints: Vec<u64>,
    pub first: usize,
    pub end: usize,
}

/// The rows, one after the other.
#[derive(Drop)]
pub struct Rows {
    frame: Frame,
    lanes: Vec<Live>,
    next: usize,
    next_checkpoint: usize,
}

fn new_piece(alloc: Global, card: usize, lane: usize, from: u64, comes: bool) -> Piece {
    Piece {
        card,
        lane,
        from,
        to: from,
        comes,
        goes: false,
        returns: false,
        bars: Vec::new(alloc),
        pales: Vec::new(alloc),
        ticks: Vec::new(alloc),
        holds: Vec::new(alloc),
        dots: Vec::new(alloc),
        slots: 0,
    }
}

impl Live {
    /// The lowest slot that is free.
    fn free_slot(&self) -> usize {
        for slot in 0..self.held.len() {
            if !self.held.iter().any(|hold| hold.slot == slot) {
                return slot;
            }
        }
        self.held.len()
    }

    /// The slot for a node: that in which the call waits for it, else a free one.
    fn slot_for(&self, node: u32) -> usize {
        match &self.wait {
            Some(wait) if wait.node == node => wait.slot,
            _ => self.free_slot(),
        }
    }

    fn use_slot(&mut self, slot: usize) {
        if let Some(piece) = &mut self.piece {
            piece.slots = piece.slots.max(slot.saturating_add(1));
        }
    }

    /// The part of the bar that was drawn so far ends here.
    fn end_part(&mut self, x: u64, part: Part) -> Result<(), AllocError> {
        let bar = Bar {
            part: self.part,
            from: self.from,
            to: x,
        };
        self.part = part;
        self.from = x;
        if let Some(piece) = &mut self.piece {
            piece.bars.push(bar)?;
        }
        Ok(())
    }

    /// A wait ends here.
    fn end_wait(&mut self, x: u64) -> Result<(), AllocError> {
        let Some(mut wait) = self.wait.take() else {
            return Ok(());
        };
        wait.to = x;
        if let Some(piece) = &mut self.piece {
            piece.pales.push((wait.from, x))?;
            piece.holds.push(wait)?;
        }
        Ok(())
    }

    fn take(&mut self, hold: Hold) -> Result<(), AllocError> {
        self.use_slot(hold.slot);
        self.held.push(hold)?;
        Ok(())
    }

    fn let_go(&mut self, node: u32, x: u64) -> Result<(), AllocError> {
        let Some(at) = self.held.iter().position(|hold| hold.node == node) else {
            return Ok(());
        };
        let mut hold = self.held.swap_remove(at);
        hold.to = x;
        if let Some(piece) = &mut self.piece {
            piece.holds.push(hold)?;
        }
        Ok(())
    }

    fn tick(&mut self, x: u64) -> Result<(), AllocError> {
        if let Some(piece) = &mut self.piece {
            piece.ticks.push(x)?;
        }
        Ok(())
    }

    fn dot(&mut self, x: u64, order: u64, given: bool) -> Result<(), AllocError> {
        if let Some(piece) = &mut self.piece {
            piece.dots.push(Dot { x, order, given })?;
        }
        Ok(())
    }

    /// The row ends, and the call goes on in the next one, or did not return.
    fn leave(&mut self, right: u64, goes: bool) -> Result<Option<Piece>, AllocError> {
        let part = self.part;
        self.end_part(right, part)?;
        let Some(mut piece) = self.piece.take() else {
            return Ok(None);
        };
        piece.to = right;
        piece.goes = goes;
        for hold in &self.held {
            piece.holds.push(Hold { to: right, ..*hold })?;
        }
        if let Some(wait) = &self.wait {
            piece.pales.push((wait.from, right))?;
            piece.holds.push(Hold { to: right, ..*wait })?;
        }
        Ok(Some(piece))
    }

    /// The next row begins, and a call comes from the one before. A wait has a slot where waits have one.
    fn come(&mut self, alloc: Global, card: usize, lane: usize, left: u64, has_slot: bool) {
        self.from = left;
        let mut slots = 0;
        for hold in self.held.iter_mut() {
            hold.from = left;
            slots = slots.max(hold.slot.saturating_add(1));
        }
        if let Some(wait) = &mut self.wait {
            wait.from = left;
            if has_slot {
                slots = slots.max(wait.slot.saturating_add(1));
            }
        }
        let mut piece = new_piece(alloc, card, lane, left, true);
        piece.slots = slots;
        self.piece = Some(piece);
    }
}

impl Rows {
    /// Before the first row.
    pub fn new(alloc: Global, scene: &Scene, frame: Frame) -> Result<Rows, AllocError> {
        let mut lanes = Vec::new(alloc);
        for _ in &scene.lanes {
            lanes.push(Live {
                piece: None,
                part: Part::Walking,
                from: 0,
                held: Vec::new(alloc),
                wait: None,
            })?;
        }
        Ok(Rows {
            frame,
            lanes,
            next: 0,
            next_checkpoint: 0,
        })
    }

    /// A call begins in a lane. Only in a journal that is not lawful one is under way there, whose bar ends before.
    fn begin(
        &mut self,
        alloc: Global,
        card: usize,
        lane: usize,
        x: u64,
        row: &mut Row,
    ) -> Result<(), AllocError> {
        if lane < self.lanes.len() {
            let live = &mut self.lanes[lane];
            let before = less(x, 12).max(live.from);
            if let Some(piece) = live.leave(before, false)? {
                row.pieces.push(piece)?;
            }
            live.part = Part::Walking;
            live.from = x;
            live.held.clear();
            live.wait = None;
            live.piece = Some(new_piece(alloc, card, lane, x, false));
        }
        Ok(())
    }

    /// A call returns, and its piece is whole.
    fn end(&mut self, lane: usize, x: u64, row: &mut Row) -> Result<(), AllocError> {
        if lane >= self.lanes.len() {
            return Ok(());
        }
        let live = &mut self.lanes[lane];
        live.end_part(x, Part::Walking)?;
        if let Some(mut piece) = live.piece.take() {
            piece.to = x;
            piece.returns = true;
            row.pieces.push(piece)?;
        }
        Ok(())
    }

    /// A node is taken or waited for. A wait has a slot where waits have one.
    fn hold(
        &mut self,
        lane: usize,
        x: u64,
        node: u32,
        holder: Option<u32>,
        name: Option<u32>,
        has_slot: bool,
    ) -> Result<(), AllocError> {
        if lane >= self.lanes.len() {
            return Ok(());
        }
        let live = &mut self.lanes[lane];
        let slot = live.slot_for(node);
        live.end_wait(x)?;
        let hold = Hold {
            slot,
            from: x,
            to: x,
            holder,
            node,
            name,
        };
        if holder.is_none() {
            return live.take(hold);
        }
        if has_slot {
            live.use_slot(slot);
        }
        live.wait = Some(hold);
        Ok(())
    }

    /// A call takes its place, or makes its change.
    fn pass(
        &mut self,
        card: &Card,
        x: u64,
        part: Part,
        dot: Option<bool>,
    ) -> Result<(), AllocError> {
        let lane = card.lane;
        if lane >= self.lanes.len() {
            return Ok(());
        }
        let live = &mut self.lanes[lane];
        live.end_part(x, part)?;
        match dot {
            Some(given) => live.dot(x, card.order, given),
            None => Ok(()),
        }
    }

    /// A call gives another one its place.
    fn help(
        &mut self,
        scene: &Scene,
        card: usize,
        lane: usize,
        x: u64,
        row: &mut Row,
    ) -> Result<(), AllocError> {
        if let Some(other) = scene.cards.get(card) {
            self.pass(other, x, Part::Given, Some(true))?;
            row.arrows.push(Arrow {
                x,
                from: lane,
                to: other.lane,
            })?;
        }
        Ok(())
    }

    /// Before a call does anything but take or wait, it waits no more; and each of its events has a tick.
    fn pass_by(&mut self, lane: usize, mark: &Mark, x: u64) -> Result<(), AllocError> {
        if lane >= self.lanes.len() {
            return Ok(());
        }
        let live = &mut self.lanes[lane];
        match mark.what {
            What::Begin => Ok(()),
            What::Return => live.end_wait(x),
            What::Take(_) | What::Wait(_, _) => live.tick(x),
            _ => {
                live.end_wait(x)?;
                live.tick(x)
            }
        }
    }

    /// A mark is drawn.
    fn mark(
        &mut self,
        alloc: Global,
        scene: &Scene,
        mark: &Mark,
        x: u64,
        row: &mut Row,
    ) -> Result<(), AllocError> {
        let Some(card) = scene.card_of(mark) else {
            return Ok(());
        };
        let lane = card.lane;
        self.pass_by(lane, mark, x)?;
        match mark.what {
            What::Begin => self.begin(alloc, mark.card as usize, lane, x, row),
            What::Take(node) => self.hold(lane, x, node, None, mark.name, true),
            What::Wait(node, holder) => {
                self.hold(lane, x, node, Some(holder), mark.name, !scene.folds)
            }
            What::LetGo(node) => self.let_go(lane, node, x),
            What::Help(helped) => self.help(scene, helped as usize, lane, x, row),
            What::Commit => self.pass(card, x, Part::Done, Some(false)),
            What::Carry => self.pass(card, x, Part::Done, None),
            What::Return => self.end(lane, x, row),
        }
    }

    fn let_go(&mut self, lane: usize, node: u32, x: u64) -> Result<(), AllocError> {
        if lane < self.lanes.len() {
            self.lanes[lane].let_go(node, x)
        } else {
            Ok(())
        }
    }

    /// A call under way leaves the row, and comes to the next one.
    fn turn_lane(
        &mut self,
        alloc: Global,
        lane: usize,
        right: u64,
        goes: bool,
        row: &mut Row,
        has_slots: bool,
    ) -> Result<(), AllocError> {
        let left = self.frame.left;
        if lane >= self.lanes.len() {
            return Ok(());
        }
        let live = &mut self.lanes[lane];
        if let Some(piece) = live.leave(right, goes)? {
            let card = piece.card;
            row.pieces.push(piece)?;
            live.come(alloc, card, lane, left, has_slots);
        }
        Ok(())
    }

    /// Calls under way leave the row, and come to the next one.
    fn turn(
        &mut self,
        alloc: Global,
        right: u64,
        goes: bool,
        row: &mut Row,
        has_slots: bool,
    ) -> Result<(), AllocError> {
        for lane in 0..self.lanes.len() {
            self.turn_lane(alloc, lane, right, goes, row, has_slots)?;
        }
        Ok(())
    }

    /// Where the checkpoints of the next row stand.
    fn checkpoints_in(
        &mut self,
        alloc: Global,
        places: &Places,
        number: usize,
    ) -> Result<Vec<u64>, AllocError> {
        let mut found = Vec::new(alloc);
        for at in self.next_checkpoint..places.checkpoints.len() {
            let place: Place = places.checkpoints[at];
            if place.row != number {
                break;
            }
            found.push(place.x)?;
        }
        self.next_checkpoint = self.next_checkpoint.saturating_add(found.len());
        Ok(found)
    }

    /// The next row. Its calls go on to the right end, or where it is the last row, to where that ends.
    pub fn next_row(
        &mut self,
        alloc: Global,
        scene: &Scene,
        places: &Places,
        number: usize,
    ) -> Result<Row, AllocError> {
        let mut row = Row {
            pieces: Vec::new(alloc),
            arrows: Vec::new(alloc),
            checkpoints: self.checkpoints_in(alloc, places, number)?,
            first: self.next,
            end: self.next,
        };
        row.end = places.end_of(number).min(scene.marks.len());
        for at in self.next..row.end {
            if let (Some(x), Some(mark)) = (places.marks.get(at), scene.marks.get(at)) {
                self.mark(alloc, scene, mark, *x, &mut row)?;
            }
        }
        self.next = row.end;
        let is_last = number.saturating_add(1) >= places.rows;
        let right = if is_last {
            add(last_x(places, row.end), 24).min(self.frame.right)
        } else {
            self.frame.right
        };
        self.turn(alloc, right, !is_last, &mut row, !scene.folds)?;
        Ok(row)
    }
}

/// Where the last of so many marks stands.
fn last_x(places: &Places, end: usize) -> u64 {
    match places.marks.get(end.saturating_sub(1)) {
        Some(x) => *x,
        None => 0,
    }
}
