//! Under what an entry is looked for.

ghost use Rattle.std.specs.Prelude.{◌≡◌};
ghost use Rattle.fs_names.specs.Heads.{IsHead};
ghost use Rattle.fs_nodes_places.specs.code.Keys.{folded, mixed, hashed, word_of, key_of};

use crate::label::is_short;
use fs_names::Name;
use std::hash::{FoldHasher, Hasher};

/// What the numbers of directories are multiplied by, so that they differ in all bits.
const SPREAD: u64 = 0x9e37_79b9_7f4a_7c15;

/// What makes each bit of a hash depend on each bit of what is hashed.
const MIX: u64 = 0xd6e8_feb8_6659_fd93;

/// The bits of a hash.
const HASH: u128 = 0xffff_ffff;

/// An entry's directory, and a hash of the directory and the name.
#[derive(Clone, Copy, Debug)]
pub struct Key {
    pub dir: usize,
    pub hash: u32,
}

/// The two halves of a product, one over the other.
fn folded(a: u64, b: u64) -> u32
    ensures { result ≡ folded a b }
{
    let product = a as u128 * b as u128;
    ((product ^ product >> 64) & HASH) as u32
}

/// The hash of a directory and of the number of a name.
fn mixed(dir: usize, word: u64) -> u32
    ensures { result ≡ mixed dir word }
{
    folded(word ^ (dir as u64).wrapping_mul(SPREAD), MIX)
}

/// A number for a name that is longer than its first bytes.
#[inline(never)]
fn hashed(name: &Name) -> u64
    ensures { result ≡ hashed name.now }
{
    let mut hasher = FoldHasher::default();
    hasher.write(name.bytes());
    hasher.finish()
}

/// The number of a name whose first bytes are this one.
fn word_of(first: u64, name: &Name) -> u64
    requires { IsHead first name.now }
    ensures { result ≡ word_of name.now }
{
    if is_short(name) { first } else { hashed(name) }
}

impl Key {
    /// The key of a name whose first bytes are this number.
    #[inline(always)]
    pub fn new(dir: usize, first: u64, name: &Name) -> Key
        requires { IsHead first name.now }
        ensures { result ≡ key_of dir name.now }
    {
        Key {
            dir,
            hash: mixed(dir, word_of(first, name)),
        }
    }
}
