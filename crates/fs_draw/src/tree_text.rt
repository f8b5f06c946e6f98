//! The trees before and after commits, written side by side.

use fs_draw_ink::Ink;
use fs_draw_layout::{Frame, add, digits, less, small_room, small_width};
use fs_draw_scene::{ELLIPSIS, Leaf, Scene, Tree, When, push_apart, push_cut};
use std::alloc::{AllocError, Global};

/// The height of a line, how far a line is right of that of its directory, and how far trees are apart.
const LINE: u64 = 14;

const STEP: u64 = 11;

const APART: u64 = 20;

/// The most levels that are shown as such, and the most characters of a name and of the bytes of a file.
const MOST_LEVELS: usize = 10;

const NAME_WIDTH: usize = 18;

const DATA_WIDTH: usize = 16;

/// The words above the last tree, where not each commit has its tree.
const AT_THE_END: &[u8] = b"at the end";

/// A line of a tree: how far right it is, a name, and the bytes of a file, or words.
#[derive(Drop)]
struct Line {
    level: u64,
    name: Vec<u8>,
    data: Vec<u8>,
    is_new: bool,
}

/// A tree as it is written, and how wide that is: after the commit of this place among all, which another call gave or not.
#[derive(Drop)]
struct Column {
    when: When,
    order: u64,
    is_given: bool,
    lines: Vec<Line>,
    width: u64,
}

impl Line {
    fn width(&self) -> u64 {
        add(self.data_from(), small_width(self.data.len()))
    }

    /// Where the bytes of a file begin, after its name.
    fn data_from(&self) -> u64 {
        let space = if self.name.is_empty() { 0 } else { 1 };
        add(
            self.level,
            small_width(self.name.len().saturating_add(space)),
        )
    }
}

/// The line of an entry, in so much room.
fn line_of(alloc: Global, leaf: &Leaf, room: u64) -> Result<Line, AllocError> {
    let level = STEP.saturating_mul(leaf.depth.min(MOST_LEVELS) as u64);
    let most = small_room(less(room, level));
    let mut name = Vec::new(alloc);
    push_apart(
        leaf.name.as_slice(),
        leaf.name.len(),
        NAME_WIDTH.min(most),
        &mut name,
    )?;
    let mut data = Vec::new(alloc);
    let left = most.saturating_sub(name.len().saturating_add(1));
    if left > 2 {
        push_cut(leaf.data.as_slice(), DATA_WIDTH.min(left), &mut data)?;
    }
    Ok(Line {
        level,
        name,
        data,
        is_new: leaf.is_new,
    })
}

/// A line of words of the picture's own.
fn words_line(alloc: Global, words: &[u8]) -> Result<Line, AllocError> {
    Ok(Line {
        level: 0,
        name: Vec::new(alloc),
        data: Vec::from_slice(alloc, words)?,
        is_new: false,
    })
}

/// The lines of a tree.
fn lines_of(alloc: Global, tree: &Tree, room: u64) -> Result<Vec<Line>, AllocError> {
    let mut lines = Vec::new(alloc);
    if tree.is_same {
        lines.push(words_line(alloc, b"unchanged")?)?;
        return Ok(lines);
    }
    for leaf in &tree.leaves {
        lines.push(line_of(alloc, leaf, room)?)?;
    }
    if tree.is_cut {
        lines.push(words_line(alloc, &[ELLIPSIS])?)?;
    }
    Ok(lines)
}

/// A tree as it is written, in so much room.
fn column_of(alloc: Global, scene: &Scene, tree: &Tree, room: u64) -> Result<Column, AllocError> {
    let mut column = Column {
        when: tree.when,
        order: 0,
        is_given: false,
        lines: lines_of(alloc, tree, room)?,
        width: small_width(AT_THE_END.len()),
    };
    if let When::After(card) = tree.when {
        if let Some(card) = scene.cards.get(card) {
            column.order = card.order;
            column.is_given = card.helper.is_some();
            column.width = add(add(small_width(6), 14), small_width(digits(card.order)));
        }
    }
    for line in &column.lines {
        column.width = column.width.max(line.width());
    }
    Ok(column)
}

/// The words above a tree: `before`, or `after` with the dot of a commit and its number.
fn write_title(column: &Column, x: u64, y: u64, ink: &mut Ink) -> Result<(), AllocError> {
    match column.when {
        When::Before => return ink.text_at(b"v", x, y, b"before"),
        When::End => return ink.text_at(b"v", x, y, AT_THE_END),
        When::After(_) => {}
    }
    ink.text_at(b"v", x, y, b"after")?;
    let dot = add(x, add(small_width(6), 4));
    ink.raw(if column.is_given {
        b"<circle class=\"y\" cx=\""
    } else {
        b"<circle class=\"j\" cx=\""
    })?;
    ink.number(dot)?;
    ink.with(b"\" cy=\"", less(y, 4))?;
    ink.raw(b"\" r=\"4.5\"/><text class=\"m\"")?;
    ink.place(add(dot, 8), y)?;
    ink.number(column.order)?;
    ink.raw(b"</text>")
}

/// The line above that has this level's directory: the last one before with a lesser level.
fn above(lines: &[Line], at: usize) -> usize {
    for other in (0..at.min(lines.len())).rev() {
        if at < lines.len() && lines[other].level < lines[at].level {
            return other;
        }
    }
    at
}

/// Where a line of a tree has its place.
fn height_of(top: u64, at: usize) -> u64 {
    add(top, LINE.saturating_mul((at as u64).saturating_add(1)))
}

/// The branches of a tree, and then its entries.
fn write_column(column: &Column, x: u64, top: u64, ink: &mut Ink) -> Result<(), AllocError> {
    write_title(column, x, top, ink)?;
    let lines = column.lines.as_slice();
    ink.raw(b"<path class=\"G\" d=\"")?;
    for at in 0..lines.len() {
        let parent = above(lines, at);
        if parent < at {
            let corner = add(x, add(lines[parent].level, 3));
            ink.with(b"M ", corner)?;
            ink.with(b" ", add(height_of(top, parent), 3))?;
            ink.with(b"V ", less(height_of(top, at), 4))?;
            ink.raw(b"h6")?;
        }
    }
    ink.raw(b"\"/>")?;
    for at in 0..lines.len() {
        write_line(&lines[at], x, height_of(top, at), ink)?;
    }
    Ok(())
}

/// An entry of a tree.
fn write_line(line: &Line, x: u64, y: u64, ink: &mut Ink) -> Result<(), AllocError> {
    if !line.name.is_empty() {
        let class: &[u8] = if line.is_new { b"n Y" } else { b"n" };
        ink.text_at(class, add(x, line.level), y, line.name.as_slice())?;
    }
    if line.data.is_empty() {
        return Ok(());
    }
    let class: &[u8] = if line.is_new { b"v Y" } else { b"v" };
    ink.text_at(class, add(x, line.data_from()), y, line.data.as_slice())
}

/// Writes the trees from here down, and answers where they end.
pub(crate) fn write_trees(
    alloc: Global,
    scene: &Scene,
    frame: Frame,
    top: u64,
    ink: &mut Ink,
) -> Result<u64, AllocError> {
    if scene.trees.is_empty() {
        return Ok(top);
    }
    let right = less(frame.width, 8);
    let room = less(right, frame.left);
    ink.with(b"<g class=\"tree\"><path class=\"g\" d=\"M 8 ", top)?;
    ink.with(b"H ", right)?;
    ink.raw(b"\"/>")?;
    ink.text_at(b"o", 10, add(top, 18), b"tree")?;
    let mut x = frame.left;
    let mut y = add(top, 18);
    let mut bottom = y;
    for tree in &scene.trees {
        let column = column_of(alloc, scene, tree, room)?;
        if x > frame.left && add(x, column.width) > right {
            x = frame.left;
            y = add(bottom, 24);
        }
        write_column(&column, x, y, ink)?;
        x = add(x, add(column.width, APART));
        bottom = bottom.max(add(y, LINE.saturating_mul(column.lines.len() as u64)));
    }
    ink.raw(b"</g>\n")?;
    Ok(add(bottom, 6))
}
