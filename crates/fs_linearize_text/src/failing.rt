//! The histories among many that no journal explains, or that are none.

use crate::reason::push_entry;
use fs_linearize::Found;
use fs_text::Addition;
use std::alloc::{AllocError, Global};

/// The most histories of which words say why.
const MOST: usize = 20;

/// A history that no journal explains, or that is none.
#[derive(Drop)]
pub struct Failing {
    /// Its number among all histories, counted from 1.
    pub number: usize,
    /// Its text.
    pub text: Vec<u8>,
}

/// What is noted of such histories.
#[derive(Drop)]
pub struct Notes {
    /// How many there are.
    pub count: usize,
    /// Of each of the first twenty a line: its number, its entry with the line in the whole text, and the call.
    pub words: Vec<u8>,
    /// Their texts, if these are kept.
    pub kept: Vec<Failing>,
    keeps: bool,
}

impl Notes {
    /// No notes; and whether texts are to be kept.
    pub(crate) fn new(alloc: Global, keeps: bool) -> Notes {
        Notes {
            count: 0,
            words: Vec::new(alloc),
            kept: Vec::new(alloc),
            keeps,
        }
    }

    /// Takes in a history of this number, of which this is found, and before which so many lines are.
    pub(crate) fn take_in(
        &mut self,
        alloc: Global,
        lines: &[&[u8]],
        before: usize,
        number: usize,
        found: &Found,
    ) -> Result<(), AllocError> {
        let place = match found {
            Found::NoOrder { place, .. } => *place,
            Found::Fault(place, _) => *place,
            Found::Lawful(_) | Found::Unknown(_) => return Ok(()),
        };
        self.count = self.count.saturating_add(1);
        if self.count <= MOST {
            if !self.words.is_empty() {
                self.words.push(b'\n')?;
            }
            let words = words_of(alloc, lines, before, number, place)?;
            self.words.extend_from_slice(&words)?;
        }
        if self.keeps {
            let text = text_of(alloc, lines)?;
            self.kept.push(Failing { number, text })?;
        }
        Ok(())
    }

    /// A last line that counts those that have none.
    pub(crate) fn end(&mut self, alloc: Global) -> Result<(), AllocError> {
        if self.count > MOST {
            let mut line = Addition::new(Vec::new(alloc));
            line.push_with_number(b"\nand ", (self.count - MOST) as u64)?;
            line.push(b" more")?;
            self.words.extend_from_slice(&line.kept())?;
        }
        Ok(())
    }
}

/// A line on a history: its number, the entry of this place, and its call.
fn words_of(
    alloc: Global,
    lines: &[&[u8]],
    before: usize,
    number: usize,
    place: usize,
) -> Result<Vec<u8>, AllocError> {
    let mut line = Addition::new(Vec::new(alloc));
    line.push_with_number(b"history ", number as u64)?;
    line.push(b", ")?;
    push_entry(alloc, lines, place, before, &mut line)?;
    Ok(line.kept())
}

/// The text of lines.
fn text_of(alloc: Global, lines: &[&[u8]]) -> Result<Vec<u8>, AllocError> {
    let mut text = Vec::new(alloc);
    for line in lines {
        text.extend_from_slice(*line)?;
        text.push(b'\n')?;
    }
    Ok(text)
}
