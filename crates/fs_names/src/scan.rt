//! Where the names of a text are.

ghost use Rattle.std.specs.Prelude.{◌≡◌, ◌<◌, ◌≤◌, false, ◌∷◌, length};
ghost use Rattle.std.specs.List.{position_or_len};
ghost use Rattle.fs_names.specs.Reading.{names, is_slash, starts_at_root};

use crate::blocks::place_from;

/// How many bytes come before the first slash.
#[inline(always)]
fn name_len(text: &[u8]) -> usize
    ensures first { result ≡ position_or_len is_slash text.now }
    ensures within { result ≤ length text.now }
{
    match place_from(b'/', text, 0) {
        Some(at) => at,
        None => text.len(),
    }
}

/// What comes after the slashes that a text begins with.
#[inline]
pub(crate) fn after_slashes(text: &[u8]) -> &[u8]
    ensures same { names result.now ≡ names text.now }
    ensures name { starts_at_root result.now ≡ false }
    ensures less { length result.now ≤ length text.now }
{
    let mut start = 0;
    while start < text.len() && text[start] == b'/' {
        start += 1;
    }
    &text[start..]
}

/// The first name of a text that begins with one, and the text from its second name on.
#[inline(always)]
pub(crate) fn cut_name(text: &[u8]) -> (&[u8], &[u8])
    requires some { 0 < length text.now }
    requires name { starts_at_root text.now ≡ false }
    ensures names { names text.now ≡ result.0.now ∷ names result.1.now }
    ensures bytes { 0 < length result.0.now }
    ensures name { starts_at_root result.1.now ≡ false }
    ensures less { length result.1.now < length text.now }
{
    let (name, rest) = text.split_at(name_len(text));
    (name, after_slashes(rest))
}
