//! Keys of lists of numbers, and lists of keys in which each place leads to the last one before it with the same key.

ghost use Rattle.std.specs.Prelude.{◌≡◌, ◌++◌, ◌∷◌, [], ℕ, length, slice_get, Some, OnOk, OnErr};
ghost use Rattle.std.specs.Ordering.{nat_cmp};
ghost use Rattle.std.specs.BTreeMap.{get};
ghost use Rattle.fs_linearize_configurations.specs.code.Keys.{key_of, mixed, IsLastWith};

use std::alloc::{AllocError, Global};
use std::collections::BTreeMap;
use std::marker::Model;

/// One number more mixed into a key.
pub fn mixed(key: u64, number: u64) -> u64
    ensures { result ≡ mixed key number }
{
    let product = (key ^ number).wrapping_mul(0x9E37_79B9_7F4A_7C15);
    product ^ (product >> 29)
}

/// A key of numbers, mixed so that few lists share one.
pub(crate) fn key_of(numbers: &[u64]) -> u64
    ensures { result ≡ key_of numbers.now }
{
    let mut key = 0u64;
    for number in numbers {
        key = mixed(key, *number);
    }
    key
}

/// A list of keys, in which each place leads to the last one before it with the same key.
#[derive(Drop)]
pub(crate) struct Chains {
    keys: Vec<u64>,
    before: Vec<Option<usize>>,
    last: BTreeMap<u64, usize>,
}

impl Model for Chains {
    ghost use Rattle.std.specs.Prelude.{ℕ, List};

    ghost Value = { List ℕ };

    ghost use Rattle.fs_linearize_configurations.specs.code.Chained.{IsChained};

    ghost view = { λ c. c.keys.items };

    ghost invariant = { IsChained };
}

/// What a map has for a key.
fn place_of(last: &BTreeMap<u64, usize>, key: u64) -> Option<usize>
    ensures { result ≡ get nat_cmp last.now key }
{
    match last.get(&key) {
        Some(place) => Some(*place),
        None => None,
    }
}

impl Chains {
    /// No keys.
    pub fn new(alloc: Global) -> Self
        ensures { result ≡ [] }
    {
        Chains {
            keys: Vec::new(alloc),
            before: Vec::new(alloc),
            last: BTreeMap::new(alloc),
        }
    }

    /// Adds a key.
    pub fn push(&mut self, key: u64) -> Result<(), AllocError>
        ensures ok { OnOk result (self.new ≡ self.old ++ key ∷ []) }
        ensures err { OnErr result (self.new ≡ self.old) }
    {
        let before = place_of(&self.last, key);
        self.before.reserve(1)?;
        self.keys.reserve(1)?;
        self.last.insert(key, self.keys.len())?;
        self.before.push(before)?;
        self.keys.push(key)?;
        Ok(())
    }

    /// The last place with a key.
    pub fn last(&self, key: u64) -> Option<usize>
        ensures { IsLastWith self.now key (length self.now) result }
    {
        place_of(&self.last, key)
    }

    /// The last place before one with the same key.
    pub fn before(&self, place: usize) -> Option<usize>
        ensures { (key : ℕ) → slice_get self.now place ≡ Some key → IsLastWith self.now key place result }
    {
        match self.before.get(place) {
            Some(before) => *before,
            None => None,
        }
    }
}
