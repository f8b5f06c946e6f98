//! What a caller asks for: a call by its line, or by its parts.

ghost use Rattle.std.specs.Prelude.{◌≡◌, Ok, IsOk, MatchOption};
ghost use Rattle.fs_names.specs.Reading.{reading, FailsWith};
ghost use Rattle.fs_words.specs.Reading.{or_bad_path};
ghost use Rattle.fs_words.specs.code.Answers.{Gives};
ghost use Rattle.fs_embed.specs.Requests.{asked, call_in, both_in, has_call};

use fs_calls::Call;
use fs_names::{Data, Limits, Path, PathFault};
use fs_text::FaultKind;
use fs_text::calls::call_at;
use fs_text::lines::cut_words;
use std::alloc::Global;

/// A call that is asked for. A path is given by its bytes, as `Path::parse_with` reads them.
#[derive(Clone, Copy)]
pub enum Request<'a> {
    /// The call that a line spells.
    Line(&'a [u8]),
    /// Makes an empty directory.
    Mkdir(&'a [u8]),
    /// Makes an empty file.
    Mknod(&'a [u8]),
    /// Removes the entry of a file.
    Unlink(&'a [u8]),
    /// Removes the entry of an empty directory.
    Rmdir(&'a [u8]),
    /// Moves what is at the first path to the second.
    Rename(&'a [u8], &'a [u8]),
    /// Lets what is at two paths change places.
    Exchange(&'a [u8], &'a [u8]),
    /// Asks what is at a path.
    Stat(&'a [u8]),
    /// Asks for all names of a directory.
    Readdir(&'a [u8]),
    /// Asks for the names of a directory above the last name of the second path, and for no more than a count.
    ListAfter(&'a [u8], &'a [u8], u32),
    /// Asks for the bytes of a file from an offset on, and for no more than a count.
    Read(&'a [u8], u64, u64),
    /// Writes bytes into a file at an offset.
    Write(&'a [u8], u64, &'a [u8]),
    /// Cuts a file to a size, or adds zeros up to it.
    Truncate(&'a [u8], u64),
    /// No call at all.
    Nothing,
}

/// The call that a line spells.
fn call_in(alloc: Global, limits: Limits, line: &[u8]) -> Result<Call, FaultKind>
    ensures { Gives (λ call. call) result (call_in line.now limits) }
{
    let mut words = Vec::new(alloc);
    if let Err(kind) = cut_words(line, &mut words) {
        return Err(kind);
    }
    call_at(alloc, limits, words.as_slice())
}

/// The path that bytes spell.
fn path_in(alloc: Global, limits: Limits, bytes: &[u8]) -> Result<Path, FaultKind>
    ensures { Gives (λ path. path) result (or_bad_path (reading limits bytes.now)) }
{
    match Path::parse_with(alloc, bytes, limits) {
        Ok(path) => Ok(path),
        Err(PathFault::OutOfMemory) => Err(FaultKind::OutOfMemory),
        Err(fault) => Err(FaultKind::BadPath(fault)),
    }
}

/// What is wrong with bytes as a path by these limits, or out of memory; `None` where they spell one.
pub fn path_fault(alloc: Global, limits: Limits, bytes: &[u8]) -> Option<PathFault>
    ensures { MatchOption result (IsOk (reading limits bytes.now)) (λ fault. FailsWith fault (reading limits bytes.now)) }
{
    match Path::parse_with(alloc, bytes, limits) {
        Ok(_) => None,
        Err(fault) => Some(fault),
    }
}

/// The two paths that bytes spell, the first of them read first.
fn both_in(
    alloc: Global,
    limits: Limits,
    bytes: &[u8],
    other: &[u8],
) -> Result<(Path, Path), FaultKind>
    ensures { Gives (λ both. (both.0, both.1)) result (both_in bytes.now other.now limits) }
{
    let path = match path_in(alloc, limits, bytes) {
        Ok(path) => path,
        Err(kind) => return Err(kind),
    };
    match path_in(alloc, limits, other) {
        Ok(other) => Ok((path, other)),
        Err(kind) => Err(kind),
    }
}

/// Whether limits have a call: all have each, but the one that lists a directory in pieces.
pub(crate) fn has_call(limits: Limits, call: &Call) -> bool
    ensures { result ≡ has_call limits call.now }
{
    match call {
        Call::ListAfter(_, _, _) => limits.has_list(),
        _ => true,
    }
}

/// The same bytes in memory of their own.
fn copied(alloc: Global, bytes: &[u8]) -> Result<Data, FaultKind>
    ensures { Gives (λ copy. copy) result (Ok bytes.now) }
{
    match Data::from_slice(alloc, bytes) {
        Ok(copy) => Ok(copy),
        Err(_) => Err(FaultKind::OutOfMemory),
    }
}

impl<'a> Request<'a> {
    /// The call that is asked for, read by these limits.
    pub fn call(self, alloc: Global, limits: Limits) -> Result<Call, FaultKind>
        ensures { Gives (λ call. call) result (asked self.entry limits) }
    {
        match self {
            Request::Line(line) => call_in(alloc, limits, line),
            Request::Mkdir(path) => Ok(Call::Mkdir(path_in(alloc, limits, path)?)),
            Request::Mknod(path) => Ok(Call::Mknod(path_in(alloc, limits, path)?)),
            Request::Unlink(path) => Ok(Call::Unlink(path_in(alloc, limits, path)?)),
            Request::Rmdir(path) => Ok(Call::Rmdir(path_in(alloc, limits, path)?)),
            Request::Rename(path, other) => {
                let (path, other) = both_in(alloc, limits, path, other)?;
                Ok(Call::Rename(path, other))
            }
            Request::Exchange(path, other) => {
                let (path, other) = both_in(alloc, limits, path, other)?;
                Ok(Call::Exchange(path, other))
            }
            Request::Stat(path) => Ok(Call::Stat(path_in(alloc, limits, path)?)),
            Request::Readdir(path) => Ok(Call::Readdir(path_in(alloc, limits, path)?)),
            Request::ListAfter(path, after, count) => {
                let (path, after) = both_in(alloc, limits, path, after)?;
                Ok(Call::ListAfter(count, path, after))
            }
            Request::Read(path, off, count) => Ok(Call::Read(
                path_in(alloc, limits, path)?,
                off,
                count,
            )),
            Request::Write(path, off, bytes) => {
                let path = path_in(alloc, limits, path)?;
                Ok(Call::Write(path, off, copied(alloc, bytes)?))
            }
            Request::Truncate(path, size) => Ok(Call::Truncate(
                path_in(alloc, limits, path)?,
                size,
            )),
            Request::Nothing => Err(FaultKind::BadLine),
        }
    }
}
