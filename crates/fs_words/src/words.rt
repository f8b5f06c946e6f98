//! Words of a line that are read: numbers, bytes of files, paths and names.

ghost use Rattle.std.specs.Prelude.{◌≡◌, ◌<◌, ◌≤◌, ◌+◌, ◌-◌, ◌*◌, ◌^◌, ◌%◌, length, take, drop, Some, None, Ok, true, IsTrue, MatchOption, MatchResult};
ghost use Rattle.std.specs.List.{list_all};
ghost use Rattle.std.specs.Str.{all_ascii_digits, bytes_eq};
ghost use Rattle.std.specs.Str.Parse.{digits_value};
ghost use Rattle.std.specs.Char.{is_ascii_digit};
ghost use Rattle.fs_words.specs.Words.{number_of};
ghost use Rattle.hex.specs.Hex.{is_hex_digit, decode_of};
ghost use Rattle.percent_encoding.specs.Percent.{percent_decode};
ghost use Rattle.fs_names.specs.Reading.{reading};
ghost use Rattle.fs_words.specs.declared.fault.FaultKind.TheVariants as kind;
ghost use Rattle.fs_words.specs.Reading.{number_at, hex_at, path_at, or_bad_path, name_at, read_name};
ghost use Rattle.fs_words.specs.code.Answers.{Gives, path_fault_of};

use crate::digits::{are_digits, write_bytes};
use crate::fault::FaultKind;
use crate::recent::Recent;
use fs_names::blocks::place_from;
use fs_names::{Bytes, Limits, Name, Path, PathFault};
use percent_encoding::percent_decode;
use std::alloc::Global;

/// What comes before a place, and what comes after it.
pub fn parts(bytes: &[u8], at: usize) -> (&[u8], &[u8])
    requires { at < length bytes.now }
    ensures front { result.0.now ≡ take at bytes.now }
    ensures back { result.1.now ≡ drop (at + 1) bytes.now }
{
    (&bytes[..at], &bytes[at + 1..])
}

/// Whether a word has this text.
pub fn is_word(word: &[u8], text: &[u8]) -> bool
    ensures { result ≡ bytes_eq word.now text.now }
{
    // A comparison of slices is a call, and most words are known by their lengths to differ.
    word.len() == text.len() && word == text
}

/// A number with one digit more after it, if the byte is a digit and the number is below 2 ^ 64.
fn with_digit(number: u64, byte: u8) -> Option<u64>
    ensures { MatchOption result (is_ascii_digit byte ≡ true → 2 ^ 64 ≤ number * 10 + (byte - 48))
        (λ n. (is_ascii_digit byte ≡ true) × (n ≡ number * 10 + (byte - 48)) × (n < 2 ^ 64)) }
{
    if !byte.is_ascii_digit() {
        return None;
    }
    match number.checked_mul(10) {
        Some(tens) => tens.checked_add(u64::from(byte - b'0')),
        None => None,
    }
}

/// The number that digits spell, where all bytes are digits and the number is below 2 ^ 64.
fn value_of(word: &[u8]) -> Option<u64>
    ensures { MatchOption result (all_ascii_digits word.now ≡ true → 2 ^ 64 ≤ digits_value 10 word.now)
        (λ n. (all_ascii_digits word.now ≡ true) × (n ≡ digits_value 10 word.now) × (n < 2 ^ 64)) }
{
    let mut number: u64 = 0;
    for i in 0..word.len() {
        match with_digit(number, word[i]) {
            Some(more) => number = more,
            None => return None,
        }
    }
    Some(number)
}

/// The number that a word is: digits without a leading zero, at most the greatest `u64`.
pub fn number_of(word: &[u8]) -> Option<u64>
    ensures { result ≡ number_of word.now }
{
    if word.is_empty() {
        return None;
    }
    if word.len() > 1 && word[0] == b'0' {
        return None;
    }
    value_of(word)
}

/// The number that a word is; else `BadNumber`.
pub fn number_at(word: &[u8]) -> Result<u64, FaultKind>
    ensures { result ≡ number_at word.now }
{
    number_of(word).ok_or(FaultKind::BadNumber)
}

/// The bytes that pairs of digits spell.
fn bytes_at(alloc: Global, word: &[u8]) -> Result<Bytes, FaultKind>
    requires even { length word.now % 2 ≡ 0 }
    requires digits { list_all is_hex_digit word.now ≡ true }
    ensures { MatchResult result (λ bytes. decode_of word.now ≡ Ok bytes) (λ e. e ≡ kind.OutOfMemory) }
{
    let Ok(mut bytes) = vec![in alloc; 0u8; word.len() / 2] else {
        return Err(FaultKind::OutOfMemory);
    };
    write_bytes(word, bytes.as_mut_slice());
    Ok(Bytes::new(bytes))
}

/// The bytes that a word is, `-` for none; else `BadHex`.
pub fn hex_at(alloc: Global, word: &[u8]) -> Result<Bytes, FaultKind>
    ensures { Gives (λ bytes. bytes) result (hex_at word.now) }
{
    if is_word(word, b"-") {
        return Ok(Bytes::new(Vec::new(alloc)));
    }
    if word.is_empty() {
        return Err(FaultKind::BadHex);
    }
    if word.len() % 2 == 0 && are_digits(word) {
        return bytes_at(alloc, word);
    }
    Err(FaultKind::BadHex)
}

fn path_fault(fault: PathFault) -> FaultKind
    ensures { result ≡ path_fault_of fault }
{
    match fault {
        PathFault::OutOfMemory => FaultKind::OutOfMemory,
        other => FaultKind::BadPath(other),
    }
}

/// Whether a word has no escape, and so is its own bytes.
fn is_unescaped(word: &[u8]) -> bool
    ensures { IsTrue result → percent_decode word.now ≡ word.now }
{
    place_from(b'%', word, 0).is_none()
}

fn read_path(alloc: Global, limits: Limits, bytes: &[u8]) -> Result<Path, FaultKind>
    ensures { Gives (λ path. path) result (or_bad_path (reading limits bytes.now)) }
{
    match Path::parse_with(alloc, bytes, limits) {
        Ok(path) => Ok(path),
        Err(fault) => Err(path_fault(fault)),
    }
}

/// The path that a word is by these limits, unescaped.
pub fn path_at(alloc: Global, limits: Limits, word: &[u8]) -> Result<Path, FaultKind>
    ensures { Gives (λ path. path) result (path_at limits word.now) }
{
    if is_unescaped(word) {
        return read_path(alloc, limits, word);
    }
    let Ok(bytes) = percent_decode(word).into_cow(alloc) else {
        return Err(FaultKind::OutOfMemory);
    };
    read_path(alloc, limits, &bytes)
}

/// The same, where paths that were read before are at hand.
pub fn path_with<'a>(
    alloc: Global,
    recent: &mut Recent<'a>,
    limits: Limits,
    word: &'a [u8],
) -> Result<Path, FaultKind>
    ensures { Gives (λ path. path) result (path_at limits word.now) }
{
    if !recent.keeps() {
        return path_at(alloc, limits, word);
    }
    let slot = recent.slot_of(word);
    if let Some(path) = recent.path_in(slot, limits, word) {
        return Ok(path);
    }
    let path = match path_at(alloc, limits, word) {
        Ok(path) => path,
        Err(kind) => return Err(kind),
    };
    recent.keep(alloc, slot, limits, word, &path);
    Ok(path)
}

fn read_name(alloc: Global, limits: Limits, bytes: &[u8]) -> Result<Name, FaultKind>
    ensures { Gives (λ name. name) result (read_name limits bytes.now) }
{
    if bytes.len() > limits.name() {
        return Err(FaultKind::BadReply);
    }
    match Name::read_long(alloc, bytes) {
        Ok(Some(name)) => Ok(name),
        Ok(None) => Err(FaultKind::BadReply),
        Err(_) => Err(FaultKind::OutOfMemory),
    }
}

/// The name that a word is under these limits, unescaped; else `BadReply`, since words that are names occur in replies
/// alone.
pub fn name_at(alloc: Global, limits: Limits, word: &[u8]) -> Result<Name, FaultKind>
    ensures { Gives (λ name. name) result (name_at limits word.now) }
{
    if is_unescaped(word) {
        return read_name(alloc, limits, word);
    }
    let Ok(bytes) = percent_decode(word).into_cow(alloc) else {
        return Err(FaultKind::OutOfMemory);
    };
    read_name(alloc, limits, &bytes)
}
