//! What a caller of another language asks for by a number.

ghost use Rattle.std.specs.Prelude.{◌≡◌};
ghost use Rattle.fs_embed.specs.Numbered.{asked_by, count_of, is_set, limits_of, schedule_of, to_keep};
ghost use Rattle.fs_embed.specs.Requests.{asked};

use crate::request::Request;
use fs_names::Limits;
use fs_sched::Schedule;

/// By this number all calls are kept.
pub const KEEP_ALL: u32 = 4_294_967_295;

/// The count of a list by a size: one of more than 32 bits counts as the greatest of 32.
fn count_of(size: u64) -> u32
    ensures { result ≡ count_of size }
{
    u32::try_from(size).unwrap_or(u32::MAX)
}

/// The call that is asked for by a number and what may come with it. A list of more than 4,294,967,295 names is one of
/// so many.
pub fn request_of<'a>(
    call: u8,
    path: &'a [u8],
    other: &'a [u8],
    off: u64,
    size: u64,
    bytes: &'a [u8],
) -> Request<'a>
    ensures { asked result ≡ asked_by call path.now other.now off size bytes.now }
{
    match call {
        0 => Request::Mkdir(path),
        1 => Request::Mknod(path),
        2 => Request::Unlink(path),
        3 => Request::Rmdir(path),
        4 => Request::Rename(path, other),
        5 => Request::Exchange(path, other),
        6 => Request::Stat(path),
        7 => Request::Readdir(path),
        8 => Request::Read(path, off, size),
        9 => Request::Write(path, off, bytes),
        10 => Request::Truncate(path, size),
        11 => Request::ListAfter(path, other, count_of(size)),
        _ => Request::Nothing,
    }
}

/// The limits of names and files that have a version.
pub fn limits_of(version: u8) -> Option<Limits>
    ensures { result ≡ limits_of version }
{
    match version {
        1 => Some(Limits::V1),
        2 => Some(Limits::V2),
        3 => Some(Limits::V3),
        _ => None,
    }
}

/// How many calls a core is to keep by a number.
pub fn to_keep(most: u32) -> Option<u64>
    ensures { result ≡ to_keep most }
{
    if most == KEEP_ALL {
        return None;
    }
    Some(most as u64)
}

/// The schedule of a number: the script's own, round robin, or the one that is drawn from a seed.
pub fn schedule_of(number: u8, seed: u64) -> Option<Schedule>
    ensures { result ≡ schedule_of number seed }
{
    match number {
        0 => Some(Schedule::Given),
        1 => Some(Schedule::RoundRobin),
        2 => Some(Schedule::Seeded(seed)),
        _ => None,
    }
}

/// Whether a number means true: any but 0.
pub fn is_set(flag: u8) -> bool
    ensures { result ≡ is_set flag }
{
    match flag {
        0 => false,
        _ => true,
    }
}
