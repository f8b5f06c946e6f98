//! How names compare: eight bytes of them are compared as one number.

ghost use Rattle.std.specs.Prelude.{◌≡◌, ◌≤◌, length, take};
ghost use Rattle.fs_names.specs.Keys.{key_cmp};
ghost use Rattle.fs_names.specs.Names.{name_cmp};
ghost use Rattle.fs_names.specs.Heads.{IsHead};

use crate::name::Name;
use std::cmp::Ordering;

/// How many bytes of a name are in its number.
pub const WIDTH: usize = 8;

/// The first eight of at least so many bytes as one number, the first one above all others.
#[inline(always)]
pub(crate) fn word(bytes: &[u8]) -> u64
    requires { WIDTH ≤ length bytes.now }
    ensures { IsHead result bytes.now }
{
    u64::from_be_bytes([
        bytes[0], bytes[1], bytes[2], bytes[3], bytes[4], bytes[5], bytes[6], bytes[7],
    ])
}

/// How two names compare that have the same first eight bytes. The others are compared eight at a time, and at the end
/// of the shorter name some that are the same once more.
#[inline(never)]
pub fn cmp_behind(name: &Name, other: &Name) -> Ordering
    requires { take WIDTH name.now ≡ take WIDTH other.now }
    ensures { result ≡ name_cmp name.now other.now }
{
    let bytes = name.bytes();
    let others = other.bytes();
    let len = bytes.len().min(others.len());
    let mut same = WIDTH;
    while same < len {
        let start = same.min(len - WIDTH);
        let own_word = word(&bytes[start..]);
        let others_word = word(&others[start..]);
        if own_word < others_word {
            return Ordering::Less;
        }
        if others_word < own_word {
            return Ordering::Greater;
        }
        same = start + WIDTH;
    }
    bytes.len().cmp(&others.len())
}

impl Name {
    /// How it compares with another name in byte order.
    pub fn cmp(&self, other: &Name) -> Ordering
        ensures { result ≡ name_cmp self.now other.now }
    {
        let first = self.head();
        let other_first = other.head();
        if first < other_first {
            return Ordering::Less;
        }
        if other_first < first {
            return Ordering::Greater;
        }
        // A name holds no zero byte, so where all bytes stand in the numbers, names with the same number are the same.
        if self.len() <= WIDTH && other.len() <= WIDTH {
            return Ordering::Equal;
        }
        cmp_behind(self, other)
    }
}

/// How two keys compare in the order of the entries of a tree: name by name, so that a directory comes before what is
/// below it.
pub fn compare_keys(key: &[Name], other: &[Name]) -> Ordering
    ensures { result ≡ key_cmp key.now other.now }
{
    for i in 0..key.len().min(other.len()) {
        let order = key[i].cmp(&other[i]);
        if order != Ordering::Equal {
            return order;
        }
    }
    key.len().cmp(&other.len())
}
