//! Where a byte is in a short text, a block of bytes at a time.

ghost use Rattle.std.specs.Prelude.{◌≤◌, length, take};
ghost use Rattle.memchr.specs.Find.{IsFirst, Passes, is_byte};
ghost use Rattle.fs_names.specs.code.Marks.{MarksByte};

use memchr::memchr;
use std::simd::prelude::*;

/// How many bytes are looked at at once.
const BLOCK: usize = 16;

/// After how many bytes the rest is left to `memchr`, which takes longer to begin and is faster then.
const LONG: usize = 256;

/// Where the byte is in the first block, a bit for each place.
#[inline(always)]
fn marks_of(byte: u8, text: &[u8]) -> u64
    requires { BLOCK ≤ length text.now }
    ensures { MarksByte byte (take BLOCK text.now) result }
{
    u8x16::from_slice(text)
        .simd_eq(u8x16::splat(byte))
        .to_bitmask()
}

/// Where the byte comes first from a place on, if that is likely to be far.
#[inline(never)]
fn place_afar(byte: u8, text: &[u8], from: usize) -> Option<usize>
    requires { from ≤ length text.now }
    ensures { IsFirst (Passes (is_byte byte) text.now) from (length text.now) result }
{
    match memchr(byte, &text[from..]) {
        Some(at) => Some(from + at),
        None => None,
    }
}

/// Where the byte comes first from a place on, in a text of a block or more. The last block ends with the text, so some
/// of its bytes may come before that place.
#[inline(always)]
fn place_by_blocks(byte: u8, text: &[u8], start: usize) -> Option<usize>
    requires long { BLOCK ≤ length text.now }
    requires within { start ≤ length text.now }
    ensures { IsFirst (Passes (is_byte byte) text.now) start (length text.now) result }
{
    let last = text.len() - BLOCK;
    let mut from = start;
    while from < last {
        let marks = marks_of(byte, &text[from..]);
        if marks != 0 {
            return Some(from + marks.trailing_zeros() as usize);
        }
        from += BLOCK;
        if from - start >= LONG {
            return place_afar(byte, text, from);
        }
    }
    let rest = marks_of(byte, &text[last..]) >> (from - last);
    if rest == 0 {
        return None;
    }
    Some(from + rest.trailing_zeros() as usize)
}

/// Where the byte comes first from a place on.
#[inline(always)]
pub fn place_from(byte: u8, text: &[u8], start: usize) -> Option<usize>
    requires { start ≤ length text.now }
    ensures { IsFirst (Passes (is_byte byte) text.now) start (length text.now) result }
{
    if text.len() >= BLOCK {
        return place_by_blocks(byte, text, start);
    }
    for at in start..text.len() {
        if text[at] == byte {
            return Some(at);
        }
    }
    None
}
