//! Where the marks and the checkpoints stand: in which row, and how far from the left.

use crate::space::{
    CHECKPOINT_ROOM, Frame, add, checkpoint_reach, digits, label_width, less, small_width,
};
use fs_draw_scene::{Card, Mark, Scene, What, label_of};
use std::alloc::{AllocError, Global};

/// The place of a checkpoint.
#[derive(Clone, Copy, Debug)]
pub struct Place {
    pub row: usize,
    pub x: u64,
}

/// A node that a call holds: its number, where it was taken, and how wide its name is.
#[derive(Clone, Copy)]
struct Taken {
    node: u32,
    x: u64,
    width: u64,
}

/// A lane in the row so far.
#[derive(Drop)]
struct Lane {
    /// The place of its call under way among the calls.
    current: Option<usize>,
    /// Where its last mark stands, if one does.
    last: Option<u64>,
    /// Whether that was a return.
    ended: bool,
    /// Where its last label ends.
    label_end: u64,
    /// Where the number of its last commit ends.
    number_end: u64,
    taken: Vec<Taken>,
}

/// The places so far: the row, what stands last in it, if anything does, and where the last of its labels ends; and the places of
/// checkpoints.
#[derive(Drop)]
struct Placing {
    frame: Frame,
    step: u64,
    gap: u64,
    lanes: Vec<Lane>,
    row: usize,
    x: Option<u64>,
    labels_end: u64,
    checkpoints: Vec<Place>,
}

/// How far from the left each mark stands, how many marks stand in the rows up to each one; the places of checkpoints, how many
/// rows there are, and where the last row ends.
#[derive(Drop)]
pub struct Places {
    pub marks: Vec<u64>,
    pub row_ends: Vec<usize>,
    pub checkpoints: Vec<Place>,
    pub rows: usize,
    pub end: u64,
}

impl Places {
    /// Where the marks of a row end.
    pub fn end_of(&self, row: usize) -> usize {
        match self.row_ends.get(row) {
            Some(end) => *end,
            None => self.marks.len(),
        }
    }
}

/// Where the number of a commit ends whose dot stands here.
fn number_end(x: u64, order: u64) -> u64 {
    add(add(x, 12), small_width(digits(order)))
}

impl Lane {
    /// Where the next mark of the lane may stand.
    fn free_from(&self, gap: u64, begins: bool) -> u64 {
        let after = match self.last {
            Some(x) if self.ended && begins => add(x, 8),
            Some(x) => add(x, gap),
            None => 0,
        };
        let behind = after.max(self.number_end);
        if begins {
            behind.max(add(self.label_end, 10))
        } else {
            behind
        }
    }

    /// Where a let go of a node may stand, so that the node's name fits its box.
    fn box_end(&self, node: u32) -> u64 {
        for one in &self.taken {
            if one.node == node {
                return add(add(one.x, one.width), 6);
            }
        }
        0
    }

    fn let_go(&mut self, node: u32) {
        if let Some(at) = self.taken.iter().position(|one| one.node == node) {
            let _ = self.taken.swap_remove(at);
        }
    }

    /// The lane in a new row, in which its call's label is repeated, of this width.
    fn turn(&mut self, left: u64, label: u64) {
        self.last = None;
        self.ended = false;
        self.number_end = 0;
        self.label_end = if self.current.is_some() {
            add(left, label)
        } else {
            0
        };
        for one in self.taken.iter_mut() {
            one.x = left;
        }
    }
}

impl Placing {
    fn new(alloc: Global, scene: &Scene, frame: Frame) -> Result<Placing, AllocError> {
        let mut lanes = Vec::new(alloc);
        for _ in &scene.lanes {
            lanes.push(Lane {
                current: None,
                last: None,
                ended: false,
                label_end: 0,
                number_end: 0,
                taken: Vec::new(alloc),
            })?;
        }
        Ok(Placing {
            frame,
            step: if scene.is_run { 4 } else { 6 },
            gap: if scene.is_run { 11 } else { 16 },
            lanes,
            row: 0,
            x: None,
            labels_end: 0,
            checkpoints: Vec::new(alloc),
        })
    }

    /// Where the next mark of a lane stands, if it stands in this row.
    fn next_x(&self, lane: usize, what: What, other: Option<usize>) -> u64 {
        let mut x = match self.x {
            Some(before) => add(before, self.step),
            None => add(self.frame.left, 10),
        };
        if let Some(one) = self.lanes.get(lane) {
            x = x.max(one.free_from(self.gap, what == What::Begin));
            if let What::LetGo(node) = what {
                x = x.max(one.box_end(node));
            }
        }
        if let Some(one) = self.lanes.get(other.unwrap_or(usize::MAX)) {
            x = x.max(one.free_from(self.gap, false));
        }
        x
    }

    /// How much room a mark needs right of it.
    fn need(what: What, label: u64, order: u64) -> u64 {
        match what {
            What::Begin => label,
            What::Commit | What::Help(_) => number_end(0, order),
            _ => 4,
        }
    }

    /// A new row begins.
    fn turn(&mut self, alloc: Global, scene: &Scene) -> Result<(), AllocError> {
        self.row = self.row.saturating_add(1);
        self.x = None;
        self.labels_end = 0;
        for lane in self.lanes.iter_mut() {
            let label = match lane.current {
                Some(card) => repeated_width(alloc, scene, card, self.frame)?,
                None => 0,
            };
            lane.turn(self.frame.left, label);
            self.labels_end = self.labels_end.max(lane.label_end);
        }
        Ok(())
    }

    /// Where the next checkpoint stands, if it stands in this row: behind each mark, and each label of a call.
    fn next_checkpoint(&self) -> u64 {
        let Some(before) = self.x else {
            return add(self.frame.left, 10);
        };
        add(before.max(self.labels_end), CHECKPOINT_ROOM)
    }

    /// A checkpoint stands in this row, or in a new one where it does not fit.
    fn put_checkpoint(&mut self, alloc: Global, scene: &Scene) -> Result<(), AllocError> {
        let mut x = self.next_checkpoint();
        if self.x.is_some() && add(x, checkpoint_reach()) > self.frame.right {
            self.turn(alloc, scene)?;
            x = self.next_checkpoint();
        }
        self.checkpoints.push(Place { row: self.row, x })?;
        self.x = Some(add(x, less(CHECKPOINT_ROOM, self.step)));
        Ok(())
    }

    /// Places so many checkpoints, and behind them a mark that needs so much room, if one stands there. Where both do not fit the
    /// row they stand in a new one.
    fn put_checkpoints(
        &mut self,
        alloc: Global,
        scene: &Scene,
        count: usize,
        need: u64,
    ) -> Result<(), AllocError> {
        let room = (count as u64).saturating_mul(CHECKPOINT_ROOM.saturating_mul(2));
        let reach = add(add(self.next_checkpoint(), room), need);
        if count > 0 && self.x.is_some() && reach > self.frame.right {
            self.turn(alloc, scene)?;
        }
        for _ in 0..count {
            self.put_checkpoint(alloc, scene)?;
        }
        Ok(())
    }

    /// Notes that a mark of a lane stands here.
    fn put(
        &mut self,
        lane: usize,
        mark: &Mark,
        name: &[u8],
        x: u64,
        label: u64,
        order: u64,
    ) -> Result<(), AllocError> {
        self.x = Some(x);
        if lane >= self.lanes.len() {
            return Ok(());
        }
        let one = &mut self.lanes[lane];
        one.last = Some(x);
        one.ended = mark.what == What::Return;
        match mark.what {
            What::Begin => {
                one.current = Some(mark.card as usize);
                one.label_end = add(x, label);
                self.labels_end = self.labels_end.max(one.label_end);
                one.taken.clear();
            }
            What::Take(node) => one.taken.push(Taken {
                node,
                x,
                width: small_width(name.len().min(8)),
            })?,
            What::LetGo(node) => one.let_go(node),
            What::Commit => one.number_end = number_end(x, order),
            What::Return => one.current = None,
            _ => {}
        }
        Ok(())
    }

    /// The same of a lane whose call gets its commit there.
    fn put_given(&mut self, lane: usize, x: u64, order: u64) {
        if lane < self.lanes.len() {
            let one = &mut self.lanes[lane];
            one.last = Some(x);
            one.number_end = number_end(x, order);
        }
    }
}

/// How wide the label of a call is that is repeated.
fn repeated_width(
    alloc: Global,
    scene: &Scene,
    card: usize,
    frame: Frame,
) -> Result<u64, AllocError> {
    match scene.cards.get(card) {
        Some(card) => {
            let label = label_of(alloc, card, true, scene.is_wide(), frame.label_room())?;
            Ok(label_width(label.len()))
        }
        None => Ok(0),
    }
}

/// How wide the label is that stands at a mark.
fn width_at(alloc: Global, card: &Card, what: What, frame: Frame) -> Result<u64, AllocError> {
    if what == What::Begin {
        Ok(label_width(label_of(alloc, card, false, false, frame.label_room())?.len()))
    } else {
        Ok(0)
    }
}

/// The call that a mark gives its place to.
fn other_card(scene: &Scene, what: What) -> Option<&Card> {
    match what {
        What::Help(card) => scene.cards.get(card as usize),
        _ => None,
    }
}

/// How many of the checkpoints stand before the event of a number, besides so many that are placed.
fn count_before(scene: &Scene, placed: usize, at: u64) -> usize {
    let mut count = 0usize;
    for place in placed..scene.checkpoints.len() {
        if scene.checkpoints[place] > at {
            return count;
        }
        count = count.saturating_add(1);
    }
    count
}

/// Where the next mark stands in the row that is reached then, and how far what it needs goes. The checkpoints before it are placed
/// first.
fn place_mark(
    alloc: Global,
    scene: &Scene,
    placing: &mut Placing,
    mark: &Mark,
    card: &Card,
) -> Result<(u64, u64), AllocError> {
    let label = width_at(alloc, card, mark.what, placing.frame)?;
    let (other, order) = match other_card(scene, mark.what) {
        Some(other) => (Some(other.lane), other.order),
        None => (None, card.order),
    };
    let need = Placing::need(mark.what, label, order);
    let checkpoints = count_before(scene, placing.checkpoints.len(), mark.at);
    placing.put_checkpoints(alloc, scene, checkpoints, need)?;
    let mut x = placing.next_x(card.lane, mark.what, other);
    if placing.x.is_some() && add(x, need) > placing.frame.right {
        placing.turn(alloc, scene)?;
        x = placing.next_x(card.lane, mark.what, other);
    }
    placing.put(card.lane, mark, scene.name_at(mark.name), x, label, order)?;
    if let Some(lane) = other {
        placing.put_given(lane, x, order);
    }
    Ok((x, add(x, need)))
}

/// The rows up to one end at so many marks, as far as they have no end yet.
fn end_rows(row: usize, marks: usize, row_ends: &mut Vec<usize>) -> Result<(), AllocError> {
    for _ in row_ends.len()..row {
        row_ends.push(marks)?;
    }
    Ok(())
}

/// The places of all marks and checkpoints of a scene.
pub fn places_of(alloc: Global, scene: &Scene, frame: Frame) -> Result<Places, AllocError> {
    let mut placing = Placing::new(alloc, scene, frame)?;
    let mut marks = Vec::new(alloc);
    let mut row_ends = Vec::new(alloc);
    let mut end = frame.left;
    for mark in &scene.marks {
        if let Some(card) = scene.card_of(mark) {
            let (x, reach) = place_mark(alloc, scene, &mut placing, mark, card)?;
            end_rows(placing.row, marks.len(), &mut row_ends)?;
            marks.push(x)?;
            end = end.max(reach);
        }
    }
    let checkpoints = count_before(scene, placing.checkpoints.len(), u64::MAX);
    placing.put_checkpoints(alloc, scene, checkpoints, 0)?;
    for place in &placing.checkpoints {
        end = end.max(add(place.x, CHECKPOINT_ROOM));
    }
    Ok(Places {
        marks,
        row_ends,
        checkpoints: placing.checkpoints,
        rows: placing.row.saturating_add(1),
        end,
    })
}
