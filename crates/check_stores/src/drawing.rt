//! What is drawn: few names, short ones, ones that differ past their eighth byte and ones that differ past all that is
//! kept in place, so that calls meet.

use fs_names::Name;
use rand_core::Rng;
use rand_pcg::Pcg32;
use std::alloc::{AllocError, Global};

/// A number below the given one, or 0.
pub fn below(random: &mut Pcg32, limit: u32) -> u32 {
    random.next_u32().checked_rem(limit).unwrap_or(0)
}

/// One of two letters.
fn letter(random: &mut Pcg32) -> u8 {
    if below(random, 2) == 0 { b'a' } else { b'b' }
}

/// A name of one, two, nine, ten or seventy letters.
pub fn name(alloc: Global, random: &mut Pcg32) -> Result<Option<Name>, AllocError> {
    let mut text = [b'a'; 70];
    text[0] = letter(random);
    let length = match below(random, 4) {
        0 => 1,
        1 => {
            text[1] = letter(random);
            2
        }
        2 => {
            text[8] = letter(random);
            9
        }
        _ => {
            text[8] = letter(random);
            let length = if text[8] == b'a' { 10 } else { 70 };
            text[length - 1] = letter(random);
            length
        }
    };
    Name::read_long(alloc, &text[..length])
}
