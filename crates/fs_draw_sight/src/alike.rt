//! How far names begin as others do.

use std::alloc::{AllocError, Global};
use std::collections::BTreeMap;

/// A name of a node, or the word of a call; and how many of its first bytes another one has too.
#[derive(Drop)]
pub struct Text {
    pub bytes: Vec<u8>,
    pub alike: usize,
}

/// How many bytes two texts have in common at their beginnings.
fn common(one: &[u8], other: &[u8]) -> usize {
    let most = one.len().min(other.len());
    for at in 0..most {
        if one[at] != other[at] {
            return at;
        }
    }
    most
}

/// The different texts, in order, each with how many bytes it has in common with the one before.
fn in_order(alloc: Global, names: &[Text]) -> Result<BTreeMap<Vec<u8>, usize>, AllocError> {
    let mut texts = BTreeMap::new(alloc);
    for name in names {
        texts.insert(Vec::from_slice(alloc, name.bytes.as_slice())?, 0usize)?;
    }
    let mut before: Option<&[u8]> = None;
    for (text, slot) in texts.iter_mut() {
        if let Some(other) = before {
            *slot = common(other, text.as_slice());
        }
        before = Some(text.as_slice());
    }
    Ok(texts)
}

/// Notes at each name how many of its first bytes another one has too.
pub fn note_alike(alloc: Global, names: &mut Vec<Text>) -> Result<(), AllocError> {
    let texts = in_order(alloc, names.as_slice())?;
    let mut most = BTreeMap::new(alloc);
    let mut after = 0usize;
    for (text, before) in texts.iter().rev() {
        most.insert(Vec::from_slice(alloc, text.as_slice())?, after.max(*before))?;
        after = *before;
    }
    for name in names.iter_mut() {
        if let Some(alike) = most.get(&name.bytes) {
            name.alike = *alike;
        }
    }
    Ok(())
}
