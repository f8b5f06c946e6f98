//! Two files, compared from their first byte on.

ghost use Rattle.std.specs.Prelude.{◌≡◌, ◌≤◌, ◌<◌, ◌↔◌, true, take, drop, length, replicate};
ghost use Rattle.std.specs.List.{flat_map};
ghost use Rattle.fs_linearize_sparse.specs.code.Extents.{bytes_of, bytes_left, first_len, piece_bytes};

use crate::extent::Extent;

/// What is left of a file: zeros of a hole, or else bytes, and the extents after them.
#[derive(Drop, Clone, Copy)]
pub(crate) struct Rest<'a> {
    zeros: usize,
    bytes: &'a [u8],
    extents: &'a [Extent],
}

/// The first bytes of what is left.
#[derive(Drop, Clone, Copy)]
enum Piece<'a> {
    Zeros(usize),
    Bytes(&'a [u8]),
}

/// Whether all bytes are zeros.
fn are_zeros(bytes: &[u8]) -> bool
    ensures { result ≡ true ↔ bytes.now ≡ replicate (length bytes.now) 0 }
{
    for byte in bytes {
        if *byte != 0 {
            return false;
        }
    }
    true
}

/// Whether two pieces of one length have the same bytes.
fn are_alike(one: Piece<'_>, other: Piece<'_>) -> bool
    requires { length (piece_bytes one) ≡ length (piece_bytes other) }
    ensures { result ≡ true ↔ piece_bytes one.entry ≡ piece_bytes other.entry }
{
    match (one, other) {
        (Piece::Zeros(_), Piece::Zeros(_)) => true,
        (Piece::Zeros(_), Piece::Bytes(bytes)) => are_zeros(bytes),
        (Piece::Bytes(bytes), Piece::Zeros(_)) => are_zeros(bytes),
        (Piece::Bytes(bytes), Piece::Bytes(others)) => bytes == others,
    }
}

impl<'a> Rest<'a> {
    /// All of a file.
    pub fn of(extents: &'a [Extent]) -> Rest<'a>
        ensures { bytes_left result ≡ flat_map bytes_of extents.now }
    {
        Rest {
            zeros: 0,
            bytes: &[],
            extents,
        }
    }

    /// The same bytes, of which the first are at hand, if there are any.
    fn at_hand(self) -> Rest<'a>
        ensures same { bytes_left result ≡ bytes_left self.entry }
        ensures some { 0 < length (bytes_left self.entry) → 0 < first_len result }
    {
        let mut rest = self;
        while rest.zeros == 0 && rest.bytes.is_empty() {
            let Some((first, others)) = rest.extents.split_first() else {
                return rest;
            };
            rest = Rest {
                zeros: first.hole,
                bytes: &first.data,
                extents: others,
            };
        }
        rest
    }

    /// How many bytes are at hand.
    fn first_len(&self) -> usize
        ensures { result ≡ first_len self.now }
    {
        if self.zeros == 0 {
            self.bytes.len()
        } else {
            self.zeros
        }
    }

    /// So many of the bytes at hand.
    fn front(&self, count: usize) -> Piece<'a>
        requires { count ≤ first_len self.now }
        ensures { piece_bytes result ≡ take count (bytes_left self.now) }
    {
        if self.zeros == 0 {
            Piece::Bytes(&self.bytes[..count])
        } else {
            Piece::Zeros(count)
        }
    }

    /// What is left after so many of the bytes at hand.
    fn after(&self, count: usize) -> Rest<'a>
        requires { count ≤ first_len self.now }
        ensures { bytes_left result ≡ drop count (bytes_left self.now) }
    {
        if self.zeros == 0 {
            Rest {
                bytes: &self.bytes[count..],
                ..*self
            }
        } else {
            Rest {
                zeros: self.zeros - count,
                ..*self
            }
        }
    }
}

/// Whether what is left of two files, so many bytes of each, is the same.
pub(crate) fn are_same(one: Rest<'_>, other: Rest<'_>, len: usize) -> bool
    requires one { length (bytes_left one) ≡ len }
    requires other { length (bytes_left other) ≡ len }
    ensures { result ≡ true ↔ bytes_left one.entry ≡ bytes_left other.entry }
{
    let mut left = len;
    let mut x = one;
    let mut y = other;
    while left > 0 {
        x = x.at_hand();
        y = y.at_hand();
        let count = x.first_len().min(y.first_len());
        if !are_alike(x.front(count), y.front(count)) {
            return false;
        }
        x = x.after(count);
        y = y.after(count);
        left -= count;
    }
    true
}
