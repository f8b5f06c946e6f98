//! The first lines of texts, and how long a text may be by its own.

ghost use Rattle.std.specs.Prelude.{◌≡◌};
ghost use Rattle.fs_words.specs.Headers.{script_header, started_header, announced, limit_of_line, limit_of_text, is_too_long};

use crate::limits::{SETS, TEXT_LIMIT, text_limit};
use crate::lines::cut_line;
use crate::words::is_word;
use fs_names::Limits;

/// The first line of a script.
pub fn script_header(limits: Limits) -> &'static [u8]
    ensures { result.now ≡ script_header limits }
{
    match limits {
        Limits::V1 => b"atomfs 1",
        Limits::V2 => b"atomfs 2",
        Limits::V3 => b"atomfs 3",
    }
}

/// The limits of which a line is the first one of a script.
pub fn script_limits(line: &[u8]) -> Option<Limits>
    ensures { result ≡ announced script_header line.now }
{
    SETS.into_iter()
        .find(|limits| is_word(line, script_header(*limits)))
}

/// The first line of a journal that has its start tree.
pub fn started_header(limits: Limits) -> &'static [u8]
    ensures { result.now ≡ started_header limits }
{
    match limits {
        Limits::V1 => b"atomfs-journal 2",
        Limits::V2 => b"atomfs-journal 3",
        Limits::V3 => b"atomfs-journal 4",
    }
}

/// The limits of which a line is the first one of such a journal.
pub fn started_limits(line: &[u8]) -> Option<Limits>
    ensures { result ≡ announced started_header line.now }
{
    SETS.into_iter()
        .find(|limits| is_word(line, started_header(*limits)))
}

/// The most bytes that a text with this first line has. A tree is read by any limits, so its text may be as long as the largest
/// allow.
fn limit_of_line(line: &[u8]) -> usize
    ensures { result ≡ limit_of_line line.now }
{
    if is_word(line, b"tree") {
        return text_limit(Limits::LARGEST);
    }
    match (script_limits(line), started_limits(line)) {
        (Some(limits), _) => text_limit(limits),
        (None, Some(limits)) => text_limit(limits),
        (None, None) => TEXT_LIMIT,
    }
}

/// The most bytes that a text has, by its own first line.
pub fn limit_of_text(text: &[u8]) -> usize
    ensures { result ≡ limit_of_text text.now }
{
    match cut_line(text) {
        Some((first, _)) => limit_of_line(first),
        None => TEXT_LIMIT,
    }
}

/// Whether a text is longer than its own first line allows, which is looked at only where the text is longer than the least limit.
#[tactic(auto, using(crate::proofs::HeaderLemmas::least_of_text))]
pub fn is_too_long(text: &[u8]) -> bool
    ensures { result ≡ is_too_long text.now }
{
    text.len() > TEXT_LIMIT && text.len() > limit_of_text(text)
}
