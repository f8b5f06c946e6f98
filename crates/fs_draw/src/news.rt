//! The headline of a picture, which says the news, and how much there is to see.

use fs_draw_ink::Ink;
use fs_draw_scene::{Card, Reported, Scene, What, push_call_of, push_cut};
use fs_text::errno_text;
use std::alloc::{AllocError, Global};

/// The most characters of a reply in a headline.
const REPLY_WIDTH: usize = 28;

/// The headline, and a line below it; no words where the headline says it all.
#[derive(Drop)]
pub(crate) struct Heading {
    pub(crate) news: Vec<u8>,
    pub(crate) counts: Vec<u8>,
}

/// A number with the word for one thing or for several.
fn push_count(count: usize, one: &[u8], more: &[u8], words: &mut Ink) -> Result<(), AllocError> {
    words.number(count as u64)?;
    words.raw(if count == 1 { one } else { more })
}

/// The words of a call, cut where they are long.
fn push_call(alloc: Global, card: &Card, words: &mut Ink) -> Result<(), AllocError> {
    let mut call = Vec::new(alloc);
    push_call_of(card, &mut call)?;
    words.raw(call.as_slice())
}

/// A call with its name: of a run its thread, and its place among the calls of that; of a journal its number.
fn push_named(
    alloc: Global,
    scene: &Scene,
    card: &Card,
    words: &mut Ink,
) -> Result<(), AllocError> {
    if scene.is_run {
        if let Some(name) = scene.lanes.get(card.lane) {
            words.raw(name.as_slice())?;
        }
        words.with(b"#", card.turn)?;
    } else {
        words.with(b"call ", card.number)?;
    }
    words.raw(b" ")?;
    push_call(alloc, card, words)
}

/// Whether the fault of a journal is one of this call.
fn is_at_fault(card: &Card) -> bool {
    !card.fault.is_empty() || !card.due.is_none()
}

/// A reply in a headline, cut where it is long.
fn push_reply(alloc: Global, reply: &Reported, words: &mut Ink) -> Result<(), AllocError> {
    let mut cut = Vec::new(alloc);
    match reply.errno {
        Some(errno) => cut.extend_from_slice(errno_text(errno))?,
        None => push_cut(reply.words.as_slice(), REPLY_WIDTH, &mut cut)?,
    }
    words.raw(cut.as_slice())
}

/// What is wrong with a call: `call 3 rmdir /a returned ok, no order explains it`.
fn push_fault(
    alloc: Global,
    scene: &Scene,
    card: &Card,
    words: &mut Ink,
) -> Result<(), AllocError> {
    push_named(alloc, scene, card, words)?;
    if card.reply.is_none() {
        words.raw(b": ")?;
        return words.raw(card.fault.as_slice());
    }
    words.raw(if card.reply.errno.is_some() {
        b" failed "
    } else {
        b" returned "
    })?;
    push_reply(alloc, &card.reply, words)?;
    words.raw(b", ")?;
    if card.due.is_none() {
        return words.raw(card.fault.as_slice());
    }
    words.raw(b"but ")?;
    push_reply(alloc, &card.due, words)?;
    words.raw(b" was due")
}

/// Which calls did not return: `m#3 mkdir /a/d/x has not returned`.
fn push_unreturned(alloc: Global, scene: &Scene, words: &mut Ink) -> Result<bool, AllocError> {
    let mut count = 0usize;
    for card in &scene.cards {
        if card.reply.is_none() {
            count = count.saturating_add(1);
            if count == 1 {
                push_named(alloc, scene, card, words)?;
            }
        }
    }
    match count {
        0 => return Ok(false),
        1 => words.raw(b" has not returned")?,
        _ => {
            words.raw(b" and ")?;
            push_count(
                count.saturating_sub(1),
                b" other call",
                b" other calls",
                words,
            )?;
            words.raw(b" have not returned")?;
        }
    }
    Ok(true)
}

/// Which call helped which one: their places among the calls, in the order of the help.
fn helps_of(alloc: Global, scene: &Scene) -> Result<Vec<(usize, usize)>, AllocError> {
    let mut helps = Vec::new(alloc);
    for mark in &scene.marks {
        if let What::Help(helped) = mark.what {
            helps.push((mark.card as usize, helped as usize))?;
        }
    }
    Ok(helps)
}

/// The words of the call at a place among the calls.
fn push_at(alloc: Global, scene: &Scene, at: usize, words: &mut Ink) -> Result<(), AllocError> {
    match scene.cards.get(at) {
        Some(card) => push_call(alloc, card, words),
        None => Ok(()),
    }
}

/// Who helped whom: `rename /a /b helped mkdir /a/d/x`.
fn push_helped(alloc: Global, scene: &Scene, words: &mut Ink) -> Result<bool, AllocError> {
    let helps = helps_of(alloc, scene)?;
    let Some((helper, first)) = helps.first() else {
        return Ok(false);
    };
    push_at(alloc, scene, *helper, words)?;
    words.raw(b" helped ")?;
    push_at(alloc, scene, *first, words)?;
    match helps.as_slice() {
        [_] => {}
        [_, (other, second)] if other == helper => {
            words.raw(b" and ")?;
            push_at(alloc, scene, *second, words)?;
        }
        _ => {
            words.raw(b", and ")?;
            let more = helps.len().saturating_sub(1);
            push_count(more, b" more was helped", b" more were helped", words)?;
        }
    }
    Ok(true)
}

/// The news: a fault, calls that did not return, or help. Whether there is any.
fn push_news(alloc: Global, scene: &Scene, words: &mut Ink) -> Result<bool, AllocError> {
    if let Some(fault) = &scene.fault {
        match scene.cards.iter().find(|card| is_at_fault(card)) {
            Some(card) => push_fault(alloc, scene, card, words)?,
            None => {
                words.raw(b"not lawful: ")?;
                words.raw(fault.words.as_slice())?;
            }
        }
        return Ok(true);
    }
    if push_unreturned(alloc, scene, words)? {
        return Ok(true);
    }
    push_helped(alloc, scene, words)
}

/// How many calls were helped.
fn helped(scene: &Scene) -> usize {
    let mut count = 0usize;
    for card in &scene.cards {
        if card.helper.is_some() {
            count = count.saturating_add(1);
        }
    }
    count
}

/// How much there is to see.
fn push_counts(scene: &Scene, words: &mut Ink) -> Result<(), AllocError> {
    if let Some(number) = scene.around {
        words.with(b"around call ", number)?;
        words.raw(b": ")?;
        words.number(scene.cards.len() as u64)?;
        words.raw(b" of ")?;
    }
    push_count(scene.calls, b" call", b" calls", words)?;
    words.raw(b" on ")?;
    if scene.is_run {
        push_count(scene.lanes.len(), b" thread", b" threads", words)?;
    } else {
        push_count(scene.lanes.len(), b" seat", b" seats", words)?;
    }
    let helped = helped(scene);
    if helped > 0 {
        words.with(b", ", helped as u64)?;
        words.raw(b" helped by another")?;
    }
    let checkpoints = scene.checkpoints.len();
    if checkpoints > 0 {
        words.raw(b", ")?;
        push_count(checkpoints, b" checkpoint", b" checkpoints", words)?;
    }
    if scene.folds {
        words.raw(b", each wait as one")?;
    }
    if let Some(fault) = &scene.fault {
        words.raw(b", not lawful: ")?;
        words.raw(fault.words.as_slice())?;
    }
    Ok(())
}

/// The headline of a picture, and the line below it.
pub(crate) fn heading_of(alloc: Global, scene: &Scene) -> Result<Heading, AllocError> {
    let mut news = Ink::new(alloc);
    let mut counts = Ink::new(alloc);
    push_counts(scene, &mut counts)?;
    if push_news(alloc, scene, &mut news)? {
        return Ok(Heading {
            news: news.into_text(),
            counts: counts.into_text(),
        });
    }
    if !scene.cards.is_empty() {
        counts.raw(b", all returned")?;
    }
    Ok(Heading {
        news: counts.into_text(),
        counts: Vec::new(alloc),
    })
}
