//! The limits of scripts, each named in this one place; that of the text is `fs_words::text_limit`.

ghost use Rattle.std.specs.Prelude.{◌≡◌};
ghost use Rattle.fs_script.specs.Limits.{call_limit};

use fs_names::Limits;

/// The most threads that a script has.
pub const THREAD_LIMIT: usize = 256;

/// The most calls that a script has by any set of limits, those of all threads together.
pub const CALL_LIMIT: usize = 4_194_304;

/// The most events that a script's schedule gives, and that one word of it gives.
pub const EVENT_LIMIT: u64 = 1_000_000;

/// The most bytes that a thread's name has.
pub const THREAD_NAME_LIMIT: usize = 16;

/// The most calls that a script has by its limits, those of all threads together.
#[inline]
pub fn call_limit(limits: Limits) -> usize
    ensures { result ≡ call_limit limits }
{
    match limits {
        Limits::V1 | Limits::V2 => 65_536,
        Limits::V3 => CALL_LIMIT,
    }
}
