//! The limits of texts, each named in this one place.

ghost use Rattle.std.specs.Prelude.{◌≡◌};
ghost use Rattle.fs_words.specs.Headers.{text_limit};

use fs_names::Limits;

/// The sets of limits that texts announce.
pub const SETS: [Limits; 3] = [Limits::V1, Limits::V2, Limits::V3];

/// The most bytes that a text has whose first line allows no more.
pub const TEXT_LIMIT: usize = 16_777_216;

/// The most bytes that a text has by any set of limits.
pub const LARGEST_TEXT: usize = 1_073_741_824;

/// The most bytes that a text has, a script's or a journal's, by its limits.
#[inline]
pub fn text_limit(limits: Limits) -> usize
    ensures { result ≡ text_limit limits }
{
    match limits {
        Limits::V1 | Limits::V2 => TEXT_LIMIT,
        Limits::V3 => LARGEST_TEXT,
    }
}
