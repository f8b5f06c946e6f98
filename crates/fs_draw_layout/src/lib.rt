//! Where each part of a picture is drawn, in whole pixels.
//!
//! In a frame (`frame_of`), `places_of` gives each mark of a scene, and each checkpoint, its row and its distance from the left. `Rows`
//! gives the parts of each call in a row, one row after the other, and `bands_of` the lanes of a row. That each function is safe and ends
//! is proved; the places themselves are tested, with pictures.
#![tactic(auto)]

mod heights;
mod pieces;
mod places;
mod space;

pub use heights::{Band, Bands, bands_of};
pub use pieces::{Arrow, Bar, Dot, Hold, Part, Piece, Row, Rows};
pub use places::{Place, Places, places_of};
pub use space::{
    ARROW_GAP, AXIS_HEIGHT, BAR_HEIGHT, BOX_HEIGHT, CHECKPOINT, CHECKPOINT_ROOM, EMPTY_HEIGHT,
    Frame, LABEL_HEIGHT, ROW_GAP, SLOT_HEIGHT, add, checkpoint_reach, digits, frame_of,
    heading_room, heading_width, label_room, label_width, less, small_room, small_width,
};
