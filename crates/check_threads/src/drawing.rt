//! Drawn calls over few names. A rename or an exchange keeps the depth of what it moves, so each node can be named.

use check_sessions::calls::path;
use fs_calls::{Call, Data};
use fs_names::Path;
use rand_core::Rng;
use rand_pcg::Pcg32;
use std::alloc::Global;

/// A number below the given one, or 0.
fn below(random: &mut Pcg32, limit: u32) -> u32 {
    random.next_u32().checked_rem(limit).unwrap_or(0)
}

/// One of three names.
fn letter(random: &mut Pcg32) -> u8 {
    match below(random, 3) {
        0 => b'a',
        1 => b'b',
        _ => b'c',
    }
}

/// A path of one to four names.
fn drawn_path(alloc: Global, random: &mut Pcg32, names: u32) -> Option<Path> {
    let mut text = *b"/a/a/a/a";
    text[1] = letter(random);
    text[3] = letter(random);
    text[5] = letter(random);
    text[7] = letter(random);
    match names {
        1 => path(alloc, &text[..2]),
        2 => path(alloc, &text[..4]),
        3 => path(alloc, &text[..6]),
        _ => path(alloc, &text),
    }
}

/// How many names the path of a call has: mostly three or four.
fn low(random: &mut Pcg32) -> u32 {
    match below(random, 16) {
        0 => 1,
        1..3 => 2,
        3..8 => 3,
        _ => 4,
    }
}

/// Two paths of one depth, mostly of what is high in the tree.
fn drawn_pair(alloc: Global, random: &mut Pcg32) -> Option<(Path, Path)> {
    let names = match below(random, 6) {
        0..3 => 1,
        3..5 => 2,
        _ => 3,
    };
    let from = drawn_path(alloc, random, names)?;
    Some((from, drawn_path(alloc, random, names)?))
}

fn rename(alloc: Global, random: &mut Pcg32) -> Option<Call> {
    let (from, to) = drawn_pair(alloc, random)?;
    Some(Call::Rename(from, to))
}

fn exchange(alloc: Global, random: &mut Pcg32) -> Option<Call> {
    let (path, other) = drawn_pair(alloc, random)?;
    Some(Call::Exchange(path, other))
}

/// Up to five letters.
fn letters(alloc: Global, random: &mut Pcg32) -> Option<Data> {
    let mut bytes = Vec::new(alloc);
    for _ in 0..below(random, 6) {
        bytes.push(letter(random)).ok()?;
    }
    Data::new(bytes).ok()
}

fn write(alloc: Global, random: &mut Pcg32, path: Path) -> Option<Call> {
    let offset = u64::from(below(random, 8));
    Some(Call::Write(path, offset, letters(alloc, random)?))
}

/// A call, by shares of a hundred: mkdir 26, rename 22, mknod 12, exchange and write 8 each, unlink, rmdir and stat 4 each,
/// read and truncate as many, readdir and list 2 each.
pub fn call(alloc: Global, random: &mut Pcg32) -> Option<Call> {
    let roll = below(random, 100);
    if roll < 22 {
        return rename(alloc, random);
    }
    if roll < 30 {
        return exchange(alloc, random);
    }
    let names = low(random);
    let path = drawn_path(alloc, random, names)?;
    match roll {
        30..56 => Some(Call::Mkdir(path)),
        56..68 => Some(Call::Mknod(path)),
        68..76 => write(alloc, random, path),
        76..80 => Some(Call::Unlink(path)),
        80..84 => Some(Call::Rmdir(path)),
        84..88 => Some(Call::Stat(path)),
        88..90 => Some(Call::Readdir(path)),
        90..92 => Some(Call::ListAfter(9, path, Path::parse(alloc, b"/").ok()?)),
        92..96 => Some(Call::Read(path, 1, 4)),
        _ => Some(Call::Truncate(path, 3)),
    }
}
