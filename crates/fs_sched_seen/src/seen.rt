//! How much was seen in runs of a script.

ghost use Rattle.std.specs.Prelude.{◌≡◌, ◌++◌, ◌∷◌, ◌-◌, ◌<◌, ◌+◌, [], length, get_or, OnOk, codes};
ghost use Rattle.fs_sched_seen.specs.Seen.{comma_before, counted, grouped, new_words, pairs_words, seen_object, seen_words};

use crate::meetings::Pairs;
use fs_words::{Addition, Member, push_object};
use itoa::Buffer;
use std::alloc::{AllocError, Global};

/// How much was seen: how many runs there were, and how many different outcomes; how many of these a run brought lately, by how many of
/// the last runs; and how many pairs of calls met, if they are counted.
#[derive(Clone, Copy, Debug, PartialEq, Eq)]
pub struct Seen {
    pub runs: u64,
    pub outcomes: u64,
    pub new: u64,
    pub lately: u64,
    pub pairs: Option<Pairs>,
}

/// The comma in front of so many digits, if one stands there.
fn push_comma(digits: usize, text: &mut Addition) -> Result<(), AllocError>
    ensures ok { OnOk result (text.new.added ≡ text.old.added ++ comma_before digits) }
    ensures before { text.new.before ≡ text.old.before }
{
    if digits != 0 && digits % 3 == 0 {
        text.push(b",")
    } else {
        text.push(b"")
    }
}

/// The digit at a place, and a comma behind it if one stands there.
fn push_digit(digits: &[u8], at: usize, text: &mut Addition) -> Result<(), AllocError>
    requires { at < length digits.now }
    ensures ok { OnOk result (text.new.added ≡ text.old.added ++ (get_or digits.now at 0 ∷ comma_before (length digits.now - (at + 1)))) }
    ensures before { text.new.before ≡ text.old.before }
{
    text.push(&[digits[at]])?;
    push_comma(digits.len() - (at + 1), text)
}

/// A number with commas.
fn push_grouped(number: u64, text: &mut Addition) -> Result<(), AllocError>
    ensures ok { OnOk result (text.new.added ≡ text.old.added ++ grouped number) }
    ensures before { text.new.before ≡ text.old.before }
{
    let mut buffer = Buffer::new();
    let digits = buffer.format(number).as_bytes();
    for at in 0..digits.len() {
        push_digit(digits, at, text)?;
    }
    Ok(())
}

/// So many of a thing.
fn push_counted(number: u64, name: &[u8], text: &mut Addition) -> Result<(), AllocError>
    ensures ok { OnOk result (text.new.added ≡ text.old.added ++ counted number name.now) }
    ensures before { text.new.before ≡ text.old.before }
{
    push_grouped(number, text)?;
    text.push(name)?;
    if number == 1 {
        text.push(b"")
    } else {
        text.push(b"s")
    }
}

/// How many outcomes were new lately.
fn push_new(seen: &Seen, text: &mut Addition) -> Result<(), AllocError>
    ensures ok { OnOk result (text.new.added ≡ text.old.added ++ new_words seen.now) }
    ensures before { text.new.before ≡ text.old.before }
{
    push_grouped(seen.new, text)?;
    text.push(b" new in the last ")?;
    push_counted(seen.lately, b" run", text)
}

/// How many of these pairs met.
fn push_met(pairs: Pairs, text: &mut Addition) -> Result<(), AllocError>
    ensures ok { OnOk result (text.new.added ≡ text.old.added ++ (codes "; " ++ (grouped pairs.met ++ (codes " of " ++ (counted pairs.all (codes " pair") ++ codes " of calls met"))))) }
    ensures before { text.new.before ≡ text.old.before }
{
    text.push(b"; ")?;
    push_grouped(pairs.met, text)?;
    text.push(b" of ")?;
    push_counted(pairs.all, b" pair", text)?;
    text.push(b" of calls met")
}

/// How many pairs met, if they are counted.
fn push_pairs(pairs: Option<Pairs>, text: &mut Addition) -> Result<(), AllocError>
    ensures ok { OnOk result (text.new.added ≡ text.old.added ++ pairs_words pairs) }
    ensures before { text.new.before ≡ text.old.before }
{
    match pairs {
        Some(pairs) => push_met(pairs, text),
        None => text.push(b""),
    }
}

/// Adds how much was seen, in words without a line feed. The only error is out of memory.
pub fn push_seen(seen: &Seen, text: &mut Addition) -> Result<(), AllocError>
    ensures ok { OnOk result (text.new.added ≡ text.old.added ++ seen_words seen.now) }
    ensures before { text.new.before ≡ text.old.before }
{
    push_counted(seen.runs, b" run", text)?;
    text.push(b", ")?;
    push_counted(seen.outcomes, b" outcome", text)?;
    text.push(b", ")?;
    push_new(seen, text)?;
    push_pairs(seen.pairs, text)
}

/// Adds how much was seen, as an object of JSON in a line. The only error is out of memory.
pub fn push_seen_object(alloc: Global, seen: &Seen, text: &mut Addition) -> Result<(), AllocError>
    ensures ok { OnOk result (text.new.added ≡ text.old.added ++ seen_object seen.now) }
    ensures before { text.new.before ≡ text.old.before }
{
    let mut members = Vec::new(alloc);
    members.push(Member::number(b"runs", seen.runs))?;
    members.push(Member::number(b"outcomes", seen.outcomes))?;
    members.push(Member::number(b"new", seen.new))?;
    members.push(Member::number(b"lately", seen.lately))?;
    if let Some(pairs) = seen.pairs {
        members.push(Member::number(b"met", pairs.met))?;
        members.push(Member::number(b"pairs", pairs.all))?;
    }
    push_object(alloc, members.as_slice(), text)
}
