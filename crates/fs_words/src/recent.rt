//! Paths that were read before: most paths of a script come again and again.

ghost use Rattle.std.specs.Prelude.{◌≡◌, Ok, IfSome};
ghost use Rattle.fs_words.specs.Reading.{path_at};

use fs_names::{Limits, Path};
use std::alloc::{AllocError, Global};

/// How many slots there are at first.
const FIRST_SLOTS: usize = 256;

/// How many times as many there are each time that half as many paths were kept as there are slots: at the 129th path, the
/// 513th and the 2,049th. Making them and moving to them takes 200 to 300 instructions for each path kept before, all at that
/// one path; the first path pays some 6,000 for the slots there are at first.
const GROWTH: usize = 4;

/// How many there are at the most.
const MOST_SLOTS: usize = 8192;

/// A word of a text, and the path that it is by these limits.
#[derive(Drop)]
struct Known<'a> {
    word: &'a [u8],
    limits: Limits,
    path: Path,
    ghost read: { path_at limits word.now ≡ Ok path },
}

/// Paths that were read, each in a slot that its word chooses. Of the words that choose the same slot the last one has it. There
/// are no slots before a path is kept, so that a text that is refused early costs none.
#[derive(Drop)]
pub struct Recent<'a> {
    slots: Vec<Option<Known<'a>>>,
    most: usize,
    // How many more paths are kept before there are more slots.
    left: usize,
}

/// A number with another one mixed in.
fn mixed(number: u64, other: u64) -> u64 {
    let product = (number ^ other).wrapping_mul(0x9e37_79b9_7f4a_7c15);
    product ^ (product >> 32)
}

/// A number of the bytes of a short word.
fn hash_of_short(word: &[u8]) -> u64 {
    let mut hash = 0;
    for byte in word {
        hash = mixed(hash, u64::from(*byte));
    }
    hash
}

/// A number by which most words differ. It only chooses a slot. Eight bytes are taken at a time, the last ones twice.
fn hash_of(word: &[u8]) -> u64 {
    let Some(last) = word.last_chunk::<8>() else {
        return hash_of_short(word);
    };
    let (eights, _rest) = word.as_chunks::<8>();
    let mut hash = mixed(0, u64::from_le_bytes(*last));
    for eight in eights {
        hash = mixed(hash, u64::from_le_bytes(*eight));
    }
    hash
}

/// So many slots with nothing in them.
fn free_slots<'a>(alloc: Global, count: usize) -> Result<Vec<Option<Known<'a>>>, AllocError> {
    let mut slots = Vec::with_capacity(alloc, count)?;
    for _ in 0..count {
        slots.push(None)?;
    }
    Ok(slots)
}

impl<'a> Recent<'a> {
    /// Nothing was read, and nothing will be kept.
    pub fn none(alloc: Global) -> Recent<'a> {
        Recent {
            slots: Vec::new(alloc),
            most: 0,
            left: 0,
        }
    }

    /// Nothing was read yet.
    pub fn new(alloc: Global) -> Recent<'a> {
        Recent {
            slots: Vec::new(alloc),
            most: MOST_SLOTS,
            left: 0,
        }
    }

    /// Whether paths are kept.
    pub(crate) fn keeps(&self) -> bool {
        self.most > 0
    }

    /// The slot that a word chooses, where there are any: as far along the slots as its number is along those of 32 bits, which
    /// takes no division.
    pub(crate) fn slot_of(&self, word: &[u8]) -> usize {
        let count = self.slots.len() as u64;
        ((hash_of(word) >> 32).wrapping_mul(count) >> 32) as usize
    }

    /// The path of a word, where the slot has it as it was read by these limits.
    pub(crate) fn path_in(&self, slot: usize, limits: Limits, word: &[u8]) -> Option<Path>
        ensures { IfSome result (λ path. path_at limits word.now ≡ Ok path) }
    {
        if slot >= self.slots.len() {
            return None;
        }
        match &self.slots[slot] {
            Some(known) if known.limits == limits && known.word == word => known.path.copy().ok(),
            _ => None,
        }
    }

    /// Puts a path into the slot that its word chose, if there are slots.
    #[inline(always)]
    fn put(&mut self, slot: usize, known: Known<'a>) {
        if slot < self.slots.len() {
            self.slots[slot] = Some(known);
        }
    }

    /// More slots, to which what is in the present ones moves. If there is no memory for them, no more are asked for: a
    /// text is read without.
    #[cold]
    fn grow(&mut self, alloc: Global) {
        let count = self.slots.len().saturating_mul(GROWTH);
        let count = count.max(FIRST_SLOTS).min(MOST_SLOTS);
        let Ok(more) = free_slots(alloc, count) else {
            self.most = self.slots.len();
            return;
        };
        let old = std::mem::replace(&mut self.slots, more);
        self.left = count.saturating_sub(old.len()) / 2;
        for slot in old {
            if let Some(known) = slot {
                let slot = self.slot_of(known.word);
                self.put(slot, known);
            }
        }
    }

    /// Keeps the path of a word, which chose this slot, if there is a place for it.
    pub(crate) fn keep(
        &mut self,
        alloc: Global,
        slot: usize,
        limits: Limits,
        word: &'a [u8],
        path: &Path,
    )
        requires { path_at limits word.now ≡ Ok path.now }
    {
        let mut slot = slot;
        if self.left == 0 && self.slots.len() < self.most {
            self.grow(alloc);
            slot = self.slot_of(word);
        }
        self.left = self.left.saturating_sub(1);
        if let Ok(path) = path.copy() {
            self.put(slot, Known { word, limits, path });
        }
    }
}
