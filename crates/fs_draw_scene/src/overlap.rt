//! The calls that are drawn: all, or one and those that overlap it.

use crate::scene::{Card, Fault, Mark, Scene, What, short};
use fs_draw_sight::{Tree, When};
use std::alloc::{AllocError, Global};

/// Whether two calls overlap: neither ended before the other began. A call that did not return has no end.
fn overlap(one: &Card, other: &Card) -> bool {
    let before = |card: &Card, than: &Card| !card.reply.is_none() && card.last < than.first;
    !before(one, other) && !before(other, one)
}

/// Which calls overlap the last one of this number before them, or are that. Each piece of a run may have one, and calls of two
/// pieces do not overlap.
fn kept_behind(alloc: Global, scene: &Scene, number: u64) -> Result<Vec<bool>, AllocError> {
    let mut kept = Vec::new(alloc);
    let mut last: Option<&Card> = None;
    for card in &scene.cards {
        if card.number == number {
            last = Some(card);
        }
        kept.push(match last {
            Some(one) => overlap(one, card),
            None => false,
        })?;
    }
    Ok(kept)
}

/// Keeps the calls too that overlap the next one of this number.
fn keep_before(scene: &Scene, number: u64, kept: &mut Vec<bool>) {
    let mut next: Option<&Card> = None;
    for i in (0..scene.cards.len()).rev() {
        let card = &scene.cards[i];
        if card.number == number {
            next = Some(card);
        }
        if let (Some(one), Some(slot)) = (next, kept.get_mut(i)) {
            *slot = *slot || overlap(one, card);
        }
    }
}

/// Keeps a call too where the other one is kept, and the other way round; and answers whether that is new.
fn join(kept: &mut Vec<bool>, one: usize, other: usize) -> bool {
    if one >= kept.len() || other >= kept.len() || kept[one] == kept[other] {
        return false;
    }
    kept[one] = true;
    kept[other] = true;
    true
}

/// Keeps who helped a kept call, and whom it helped.
fn keep_helpers(scene: &Scene, kept: &mut Vec<bool>) {
    for _ in 0..scene.cards.len() {
        let mut grew = false;
        for i in 0..scene.cards.len() {
            if let Some(helper) = scene.cards[i].helper {
                grew = join(kept, i, helper) || grew;
            }
        }
        if !grew {
            return;
        }
    }
}

/// The new places of what is kept.
fn new_places(alloc: Global, kept: &[bool]) -> Result<Vec<Option<usize>>, AllocError> {
    let mut places = Vec::new(alloc);
    let mut next = 0usize;
    for keeps in kept {
        if *keeps {
            places.push(Some(next))?;
            next = next.saturating_add(1);
        } else {
            places.push(None)?;
        }
    }
    Ok(places)
}

fn place_in(places: &[Option<usize>], old: usize) -> Option<usize> {
    *places.get(old)?
}

/// Which lanes have a call that is kept.
fn lanes_kept(alloc: Global, scene: &Scene, kept: &[bool]) -> Result<Vec<bool>, AllocError> {
    let mut lanes = Vec::new(alloc);
    for _ in &scene.lanes {
        lanes.push(false)?;
    }
    for i in 0..scene.cards.len() {
        if kept.get(i) == Some(&true) {
            if let Some(slot) = lanes.get_mut(scene.cards[i].lane) {
                *slot = true;
            }
        }
    }
    Ok(lanes)
}

/// A mark of calls that have new places.
fn mark_at(mark: Mark, cards: &[Option<usize>]) -> Option<Mark> {
    let card = short(place_in(cards, mark.card as usize)?);
    let what = match mark.what {
        What::Help(helped) => What::Help(short(place_in(cards, helped as usize)?)),
        what => what,
    };
    Some(Mark { card, what, ..mark })
}

/// Which calls are drawn: all, or those around the call of a number. These are the calls that overlap it, or help a call that is
/// drawn, or are helped by one. None where no call has this number. Of a run in pieces it is those of each piece that has such a call.
pub(crate) fn kept_in(
    alloc: Global,
    scene: &Scene,
    call: Option<u64>,
) -> Result<Option<Vec<bool>>, AllocError> {
    let Some(number) = call else {
        return Ok(Some(all_of(alloc, scene)?));
    };
    let mut kept = kept_behind(alloc, scene, number)?;
    keep_before(scene, number, &mut kept);
    if !kept.contains(&true) {
        return Ok(None);
    }
    keep_helpers(scene, &mut kept);
    Ok(Some(kept))
}

fn all_of(alloc: Global, scene: &Scene) -> Result<Vec<bool>, AllocError> {
    let mut all = Vec::new(alloc);
    for _ in &scene.cards {
        all.push(true)?;
    }
    Ok(all)
}

/// The scene of the calls that are kept, with the checkpoints between them; the whole scene where no call has a number around which
/// is drawn.
pub(crate) fn cut_to(
    alloc: Global,
    scene: Scene,
    kept: &[bool],
    call: Option<u64>,
) -> Result<Scene, AllocError> {
    let Some(number) = call else {
        return Ok(scene);
    };
    let cards = new_places(alloc, kept)?;
    let lanes_kept = lanes_kept(alloc, &scene, kept)?;
    let lanes = new_places(alloc, lanes_kept.as_slice())?;
    moved(alloc, scene, cards.as_slice(), lanes.as_slice(), number)
}

/// The cards that have new places, with the new places of their lanes.
fn moved_cards(
    alloc: Global,
    old: Vec<Card>,
    cards: &[Option<usize>],
    lanes: &[Option<usize>],
) -> Result<Vec<Card>, AllocError> {
    let mut new = Vec::new(alloc);
    let mut at = 0usize;
    for mut card in old {
        if let (Some(_), Some(lane)) = (place_in(cards, at), place_in(lanes, card.lane)) {
            card.lane = lane;
            card.helper = match card.helper {
                Some(helper) => place_in(cards, helper),
                None => None,
            };
            new.push(card)?;
        }
        at = at.saturating_add(1);
    }
    Ok(new)
}

/// The names of lanes that have new places.
fn moved_lanes(
    alloc: Global,
    old: Vec<Vec<u8>>,
    lanes: &[Option<usize>],
) -> Result<Vec<Vec<u8>>, AllocError> {
    let mut new = Vec::new(alloc);
    let mut at = 0usize;
    for name in old {
        if place_in(lanes, at).is_some() {
            new.push(name)?;
        }
        at = at.saturating_add(1);
    }
    Ok(new)
}

/// The checkpoints between the first of these marks and the last one.
fn between(alloc: Global, checkpoints: &[u64], marks: &[Mark]) -> Result<Vec<u64>, AllocError> {
    let mut kept = Vec::new(alloc);
    if let (Some(first), Some(last)) = (marks.first(), marks.last()) {
        for number in checkpoints {
            if *number > first.at && *number <= last.at {
                kept.push(*number)?;
            }
        }
    }
    Ok(kept)
}

/// The trees, with the new places of the calls of their commits.
fn moved_trees(
    alloc: Global,
    old: Vec<Tree>,
    cards: &[Option<usize>],
) -> Result<Vec<Tree>, AllocError> {
    let mut new = Vec::new(alloc);
    for mut tree in old {
        let when = match tree.when {
            When::After(card) => place_in(cards, card).map(|card| When::After(card)),
            when => Some(when),
        };
        if let Some(when) = when {
            tree.when = when;
            new.push(tree)?;
        }
    }
    Ok(new)
}

/// The fault with the new place of its mark; none where that mark has none.
fn moved_fault(fault: Option<Fault>, mark: Option<usize>) -> Option<Fault> {
    let Fault { words, mark: old } = fault?;
    if old.is_some() && mark.is_none() {
        return None;
    }
    Some(Fault { words, mark })
}

/// The scene of what has new places.
fn moved(
    alloc: Global,
    scene: Scene,
    cards: &[Option<usize>],
    lanes: &[Option<usize>],
    number: u64,
) -> Result<Scene, AllocError> {
    let Scene {
        lanes: names,
        cards: old,
        marks: all,
        names: of_nodes,
        checkpoints,
        trees,
        fault,
        is_run,
        folds,
        calls,
        ..
    } = scene;
    let mut marks = Vec::new(alloc);
    let mut fault_at = None;
    let mut at = 0usize;
    for mark in all {
        if let Some(mark) = mark_at(mark, cards) {
            if let Some(one) = &fault {
                if one.mark == Some(at) {
                    fault_at = Some(marks.len());
                }
            }
            marks.push(mark)?;
        }
        at = at.saturating_add(1);
    }
    Ok(Scene {
        lanes: moved_lanes(alloc, names, lanes)?,
        cards: moved_cards(alloc, old, cards, lanes)?,
        checkpoints: between(alloc, checkpoints.as_slice(), marks.as_slice())?,
        marks,
        names: of_nodes,
        trees: moved_trees(alloc, trees, cards)?,
        fault: moved_fault(fault, fault_at),
        is_run,
        folds,
        calls,
        around: Some(number),
    })
}
