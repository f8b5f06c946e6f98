//! The whole picture.

ghost use Rattle.std.specs.Prelude.{IfOk};
ghost use Rattle.fs_draw.specs.Pictures.{IsPicture};

use crate::head::{heading_end, write_head};
use crate::legend::write_legend;
use crate::news::heading_of;
use crate::tree_text::write_trees;
use fs_draw_ink::{Canvas, Ink};
use fs_draw_layout::{
    Frame, Places, ROW_GAP, Rows, add, bands_of, frame_of, heading_width, places_of,
};
use fs_draw_scene::Scene;
use std::alloc::{AllocError, Global};

/// The least width of a picture, if none is asked for.
const LEAST_WIDTH: u64 = 560;

/// The frame of a picture: of one row it is as wide as what stands in it, if no width is asked for.
fn fitted(frame: Frame, places: &Places, heading: usize, asked: Option<u64>) -> Frame {
    if places.rows > 1 || asked.is_some() {
        return frame;
    }
    let content = add(places.end, 34).max(add(heading_width(heading), 30));
    Frame {
        left: frame.left,
        right: frame.right,
        width: content.max(LEAST_WIDTH).min(frame.width.max(content)),
    }
}

/// Writes all rows from here down, and answers where they end.
fn write_rows(canvas: &Canvas<'_>, top: u64, ink: &mut Ink) -> Result<u64, AllocError> {
    let mut rows = Rows::new(canvas.alloc, canvas.scene, canvas.frame)?;
    let mut y = top;
    for number in 0..canvas.places.rows {
        if number > 0 {
            y = add(y, ROW_GAP);
        }
        let row = rows.next_row(canvas.alloc, canvas.scene, canvas.places, number)?;
        let bands = bands_of(canvas.alloc, canvas.scene, &row, y)?;
        canvas.write_row(&row, &bands, ink)?;
        y = bands.bottom;
    }
    Ok(y)
}

/// What stands in a picture between the beginning of its first tag and its last one: the head, which tells how high all is that
/// stands below it, and that.
#[derive(Drop)]
struct Middle {
    head: Vec<u8>,
    body: Vec<u8>,
}

fn middle_of(alloc: Global, scene: &Scene, width: Option<u64>) -> Result<Middle, AllocError> {
    let heading = heading_of(alloc, scene)?;
    let wide = frame_of(scene.lanes.as_slice(), width);
    let places = places_of(alloc, scene, wide)?;
    let frame = fitted(wide, &places, heading.news.len(), width);
    let canvas = Canvas {
        alloc,
        scene,
        places: &places,
        frame,
    };
    let mut body = Ink::new(alloc);
    let below = places.rows <= 1;
    let mut y = heading_end(&heading);
    if !below {
        y = add(
            write_legend(alloc, scene, frame.width, add(y, 4), &mut body)?,
            8,
        );
    }
    y = write_rows(&canvas, y, &mut body)?;
    y = write_trees(alloc, scene, frame, add(y, 4), &mut body)?;
    if below {
        y = write_legend(alloc, scene, frame.width, add(y, ROW_GAP), &mut body)?;
    }
    let mut head = Ink::new(alloc);
    write_head(alloc, scene, frame.width, add(y, 8), &heading, &mut head)?;
    Ok(Middle {
        head: head.into_text(),
        body: body.into_text(),
    })
}

/// The picture of a scene, as the text of an SVG file. It is a function of the scene, and of the width if one is asked for. The head is
/// made behind what stands below it, and then put before that, without a second text as long as all of it.
pub(crate) fn picture_of(
    alloc: Global,
    scene: &Scene,
    width: Option<u64>,
) -> Result<Vec<u8>, AllocError>
    ensures { IfOk result (λ text. IsPicture text.items) }
{
    let middle = middle_of(alloc, scene, width)?;
    let mut text = middle.body;
    let below = text.len();
    text.extend_from_slice(b"<svg ")?;
    text.extend_from_slice(middle.head.as_slice())?;
    text.as_mut_slice().rotate_left(below);
    text.extend_from_slice(b"</svg>\n")?;
    Ok(text)
}
