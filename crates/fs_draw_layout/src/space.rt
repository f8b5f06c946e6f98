//! Lengths of a picture, in pixels. A sum that has no room is the greatest number: no picture comes to that.

/// Where the lanes begin, after a name of no characters; and for so many characters there is room at least.
const NAME_ROOM: u64 = 34;

const LEAST_NAME: usize = 4;

/// The height of a label, of a bar, and of a lane without a bar.
pub const LABEL_HEIGHT: u64 = 16;

pub const BAR_HEIGHT: u64 = 16;

pub const EMPTY_HEIGHT: u64 = 18;

/// Between a bar to which an arrow leads, and the label above it or the boxes below it.
pub const ARROW_GAP: u64 = 6;

/// From one box to the next one below it, and the height of a box.
pub const SLOT_HEIGHT: u64 = 13;

pub const BOX_HEIGHT: u64 = 11;

/// The height of the axis, and between two rows.
pub const AXIS_HEIGHT: u64 = 20;

pub const ROW_GAP: u64 = 22;

/// The word above a checkpoint, with its middle there.
pub const CHECKPOINT: &[u8] = b"checkpoint";

/// The room of a checkpoint before it, and the same behind it.
pub const CHECKPOINT_ROOM: u64 = 8;

/// How wide so many characters are, of so many quarters of a pixel each.
fn quarters(characters: usize, each: u64) -> u64 {
    (characters as u64).saturating_mul(each).saturating_add(3) / 4
}

/// How wide a label of so many characters is.
pub fn label_width(characters: usize) -> u64 {
    quarters(characters, 29)
}

/// How wide a name in a box, or a number, of so many characters is.
pub fn small_width(characters: usize) -> u64 {
    quarters(characters, 25)
}

/// How wide the heading of so many characters is.
pub fn heading_width(characters: usize) -> u64 {
    quarters(characters, 32)
}

/// How far the word above a checkpoint reaches on both sides.
pub fn checkpoint_reach() -> u64 {
    small_width(CHECKPOINT.len()) / 2 + 1
}

/// How many digits a number has.
pub fn digits(number: u64) -> usize {
    let mut left = number / 10;
    let mut count = 1usize;
    for _ in 0..20 {
        if left == 0 {
            return count;
        }
        left /= 10;
        count = count.saturating_add(1);
    }
    count
}

/// The sum of two lengths.
pub fn add(a: u64, b: u64) -> u64 {
    a.saturating_add(b)
}

/// What is left of a length.
pub fn less(a: u64, b: u64) -> u64 {
    a.saturating_sub(b)
}

/// Where the lanes begin and end, and how wide the whole is.
#[derive(Clone, Copy, Debug)]
pub struct Frame {
    pub left: u64,
    pub right: u64,
    pub width: u64,
}

/// How many characters of a label so much room has.
pub fn label_room(room: u64) -> usize {
    (room.min(100_000) * 4 / 29) as usize
}

/// How many small characters so much room has.
pub fn small_room(room: u64) -> usize {
    (room.min(100_000) * 4 / 25) as usize
}

/// How many characters of a heading so much room has.
pub fn heading_room(room: u64) -> usize {
    (room.min(100_000) * 4 / 32) as usize
}

impl Frame {
    /// How many characters a label has at most, so that it has room in a row.
    pub fn label_room(&self) -> usize {
        label_room(less(less(self.right, self.left), 10))
    }
}

/// The width of a frame for so many lanes, if none is asked for.
fn width_for(lanes: usize) -> u64 {
    let least = 1_280;
    if lanes > 16 {
        return least.max((lanes as u64).saturating_mul(45));
    }
    least
}

/// The frame of lanes with these names, of this width if one is asked for.
pub fn frame_of(lanes: &[Vec<u8>], asked: Option<u64>) -> Frame {
    let mut widest = LEAST_NAME;
    for name in lanes {
        widest = widest.max(name.len());
    }
    let width = match asked {
        Some(width) => width,
        None => width_for(lanes.len()),
    };
    Frame {
        left: add(NAME_ROOM, label_width(widest)),
        right: less(width, 18),
        width,
    }
}
