//! Waits, each with one mark.

use crate::scene::{Mark, Scene, What};
use std::alloc::{AllocError, Global};

/// If more lanes than these are drawn, waits are folded, whether that is asked for or not.
const MOST_LANES: usize = 8;

/// Whether a mark goes on with a wait that its call began before; it notes for which node each call waits.
fn goes_on(mark: &Mark, waits: &mut Vec<Option<u32>>) -> bool {
    let Some(slot) = waits.get_mut(mark.card as usize) else {
        return false;
    };
    let before = *slot;
    *slot = match mark.what {
        What::Wait(node, _) => Some(node),
        _ => None,
    };
    slot.is_some() && *slot == before
}

/// The scene of which each wait has one mark, where it begins, if more than eight lanes are drawn or if it is asked for; and else the
/// same scene.
pub fn folded(alloc: Global, scene: Scene, is_asked: bool) -> Result<Scene, AllocError> {
    let mut scene = scene;
    if !scene.is_run || (scene.lanes.len() <= MOST_LANES && !is_asked) {
        return Ok(scene);
    }
    let mut waits = Vec::new(alloc);
    for _ in &scene.cards {
        waits.push(None)?;
    }
    let mut marks = Vec::new(alloc);
    for mark in &scene.marks {
        if !goes_on(mark, &mut waits) {
            marks.push(*mark)?;
        }
    }
    scene.marks = marks;
    scene.folds = true;
    Ok(scene)
}
