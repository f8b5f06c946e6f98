//! The words that a call shows where a pointer rests on it.

use crate::ink::Ink;
use fs_draw_scene::{ARROW, Card, Scene, push_cut};
use std::alloc::{AllocError, Global};

/// A call as one word: its lane, and its place among the calls of that.
fn write_who(scene: &Scene, card: &Card, ink: &mut Ink) -> Result<(), AllocError> {
    if let Some(name) = scene.lanes.get(card.lane) {
        ink.words(name.as_slice())?;
    }
    ink.with(b"#", card.turn)
}

/// The call and its reply.
fn write_call(alloc: Global, scene: &Scene, card: &Card, ink: &mut Ink) -> Result<(), AllocError> {
    let (call_width, reply_width) = if scene.is_large() {
        (70, 80)
    } else {
        (240, 80)
    };
    let mut words = Vec::new(alloc);
    push_cut(card.words.as_slice(), call_width, &mut words)?;
    if !card.data.is_empty() {
        words.push(b' ')?;
        push_cut(card.data.as_slice(), call_width, &mut words)?;
    }
    if !card.reply.is_none() {
        words.extend_from_slice(&[b' ', ARROW, b' '])?;
        push_cut(card.reply.words.as_slice(), reply_width, &mut words)?;
    }
    write_who(scene, card, ink)?;
    ink.raw(b" ")?;
    ink.words(words.as_slice())
}

/// The number of the call, and the first and the last event or entry.
fn write_number(scene: &Scene, card: &Card, ink: &mut Ink) -> Result<(), AllocError> {
    ink.with(b"\ncall ", card.number)?;
    ink.raw(if scene.is_run {
        b", events "
    } else {
        b", entries "
    })?;
    ink.number(card.first)?;
    if card.reply.is_none() {
        return ink.raw(b" on, has not returned");
    }
    ink.with(b" to ", card.last)
}

/// The place of the call in the order of commits, and who helped it.
fn write_commit(scene: &Scene, card: &Card, ink: &mut Ink) -> Result<(), AllocError> {
    if card.order == 0 {
        return Ok(());
    }
    ink.with(b"\ncommit number ", card.order)?;
    ink.with(b", at ", card.commit)?;
    if let Some(helper) = card.helper {
        if let Some(other) = scene.cards.get(helper) {
            ink.raw(b", helped by ")?;
            write_who(scene, other, ink)?;
        }
    }
    if card.carried > 0 {
        ink.with(b"; makes its change at ", card.carried)?;
    }
    Ok(())
}

/// The words of a call's tip.
pub(crate) fn write_tip(
    alloc: Global,
    scene: &Scene,
    card: &Card,
    ink: &mut Ink,
) -> Result<(), AllocError> {
    write_call(alloc, scene, card, ink)?;
    write_number(scene, card, ink)?;
    write_commit(scene, card, ink)?;
    if !card.due.is_none() {
        let mut due = Vec::new(alloc);
        push_cut(card.due.words.as_slice(), 80, &mut due)?;
        ink.raw(b"\ndue: ")?;
        ink.words(due.as_slice())?;
    }
    if !card.fault.is_empty() {
        ink.raw(b"\nfault: ")?;
        ink.words(card.fault.as_slice())?;
    }
    Ok(())
}
