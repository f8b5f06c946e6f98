//! What a job does, drawn from a number.

use anyhow::Result;
use fs_calls::Data;
use itoa::Buffer;
use rand_core::{Rng, SeedableRng};
use rand_pcg::Pcg32;
use std::alloc::Global;

/// Beginnings of names, of 1 to 19 bytes.
const STEMS: [&[u8]; 12] = [
    b"a",
    b"b2",
    b"lib",
    b"main",
    b"index",
    b"module",
    b"Makefile",
    b"component",
    b"test_helpers",
    b"specification",
    b"deployment-config",
    b"generated_bindings_",
];

/// Ends of names.
const ENDINGS: [&[u8]; 8] = [b"", b"", b".c", b".h", b".rs", b".txt", b".json", b".test"];

/// How many bytes there are to draw from.
const SUPPLY: usize = 65_536;

/// A source of drawn numbers and bytes.
#[derive(Drop)]
pub struct Drawing {
    generator: Pcg32,
    supply: Vec<u8>,
}

impl Drawing {
    /// What is drawn from a number.
    pub fn new(alloc: Global, seed: u64) -> Result<Drawing> {
        let mut generator = Pcg32::seed_from_u64(seed);
        let mut supply = Vec::new(alloc);
        for _ in 0..SUPPLY {
            supply.push((generator.next_u32() % 256) as u8)?;
        }
        Ok(Drawing { generator, supply })
    }

    /// A number below a limit; 0 where that is 0.
    pub fn below(&mut self, limit: usize) -> usize {
        let word = self.generator.next_u32() as usize;
        word.checked_rem(limit).unwrap_or(0)
    }

    /// Whether it comes true, in so many of a hundred cases.
    pub fn comes(&mut self, percent: usize) -> bool {
        self.below(100) < percent
    }

    /// Drawn bytes, so many or as many as there are.
    pub fn bytes(&mut self, count: usize) -> &[u8] {
        let count = count.min(self.supply.len());
        let most = self.supply.len() - count;
        let from = self.below(most.saturating_add(1));
        match self.supply.as_slice().split_at_checked(from) {
            Some((_, rest)) => match rest.split_at_checked(count) {
                Some((bytes, _)) => bytes,
                None => rest,
            },
            None => &[],
        }
    }

    /// The same, to be written.
    pub fn content(&mut self, alloc: Global, count: usize) -> Result<Data> {
        Ok(Data::from_slice(alloc, self.bytes(count))?)
    }

    /// Adds a slash and a name of at most 32 bytes to a path; different numbers below ten million make different names.
    pub fn add_name(&mut self, text: &mut Vec<u8>, number: usize) -> Result<()> {
        let stem = self.below(STEMS.len());
        let ending = self.below(ENDINGS.len());
        text.push(b'/')?;
        text.extend_from_slice(STEMS.get(stem).copied().unwrap_or(b""))?;
        text.push(b'-')?;
        add_number(text, number as u64)?;
        text.extend_from_slice(ENDINGS.get(ending).copied().unwrap_or(b""))?;
        Ok(())
    }

    /// A path in a directory, with a name of its own.
    pub fn path_in(&mut self, dir: &[u8], number: usize) -> Result<Vec<u8>> {
        let mut text = Vec::from_slice(*self.supply.allocator(), dir)?;
        self.add_name(&mut text, number)?;
        Ok(text)
    }
}

/// Adds a number in decimal digits.
pub fn add_number(text: &mut Vec<u8>, number: u64) -> Result<()> {
    let mut digits = Buffer::new();
    text.extend_from_slice(digits.format(number).as_bytes())?;
    Ok(())
}
