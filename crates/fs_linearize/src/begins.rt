//! Where calls begin, by their numbers. It only says where to look first: what is found there is compared.

use std::alloc::{AllocError, Global};
use std::collections::BTreeMap;

/// At which places calls begin, by their numbers.
#[derive(Drop)]
pub(crate) struct Begins {
    places: BTreeMap<u64, usize>,
}

impl Begins {
    /// No call has begun.
    pub fn new(alloc: Global) -> Self {
        Begins {
            places: BTreeMap::new(alloc),
        }
    }

    /// The call of a number begins at a place.
    pub fn put(&mut self, number: u64, place: usize) -> Result<(), AllocError> {
        self.places.insert(number, place)?;
        Ok(())
    }

    /// At which place the call of a number begins; of one that is not known, none.
    pub fn place_of(&self, number: u64) -> Option<usize> {
        self.places.get(&number).copied()
    }
}
