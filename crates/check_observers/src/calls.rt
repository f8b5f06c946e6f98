//! Calls by the texts of their paths, and what observers show.

use fs_calls::{Call, Data, Errno, NameList, Reply};
use fs_names::{Kind, Path};
use fs_share::{Gate, Named, Observer, Open, Session, Told};
use std::alloc::{AllocError, Global};
use std::sync::Wait;
use std::time::Clock;

/// What a call does, and at which paths.
#[derive(Clone, Copy)]
pub enum Deed {
    Mkdir(&'static [u8]),
    Rmdir(&'static [u8]),
    Mknod(&'static [u8]),
    /// Writes bytes at the beginning of a file.
    Write(&'static [u8], &'static [u8]),
    Rename(&'static [u8], &'static [u8]),
}

pub fn path(alloc: Global, text: &[u8]) -> Option<Path> {
    Path::parse(alloc, text).ok()
}

fn write(alloc: Global, text: &[u8], bytes: &[u8]) -> Option<Call> {
    let bytes = Data::from_slice(alloc, bytes).ok()?;
    Some(Call::Write(path(alloc, text)?, 0, bytes))
}

fn rename(alloc: Global, from: &[u8], to: &[u8]) -> Option<Call> {
    let from = path(alloc, from)?;
    Some(Call::Rename(from, path(alloc, to)?))
}

/// The call that does this.
pub fn call_of(alloc: Global, deed: Deed) -> Option<Call> {
    match deed {
        Deed::Mkdir(text) => path(alloc, text).map(Call::Mkdir),
        Deed::Rmdir(text) => path(alloc, text).map(Call::Rmdir),
        Deed::Mknod(text) => path(alloc, text).map(Call::Mknod),
        Deed::Write(text, bytes) => write(alloc, text, bytes),
        Deed::Rename(from, to) => rename(alloc, from, to),
    }
}

/// Whether a call succeeded, with this place and a stamp.
fn is_right<N: Named>(told: &Told<N>, place: usize) -> bool {
    let has_failed = matches!(told.answer.reply, Reply::Failed(_));
    told.place == place && told.stamp.is_some() && !has_failed
}

/// Makes a published call, which must succeed, with this place and a stamp.
fn told_by<N: Named, R: Wait + Clock>(
    rt: &R,
    alloc: Global,
    session: &mut Session<'_, N>,
    call: &Call,
    place: usize,
) -> Option<Told<N>> {
    match session.call_told(rt, alloc, call, &Open) {
        Ok(told) if is_right(&told, place) => Some(told),
        _ => None,
    }
}

/// The same by what the call does.
pub fn tell<N: Named, R: Wait + Clock>(
    rt: &R,
    alloc: Global,
    session: &mut Session<'_, N>,
    deed: Deed,
    place: usize,
) -> Option<Told<N>> {
    match call_of(alloc, deed) {
        Some(call) => told_by(rt, alloc, session, &call, place),
        None => None,
    }
}

/// Whether the reply of a call that is not published is that it is done.
fn is_done<N: Named, R: Wait + Clock, G: Gate>(
    rt: &R,
    alloc: Global,
    session: &mut Session<'_, N>,
    call: &Call,
    gate: &G,
) -> Option<bool> {
    match session.call(rt, alloc, call, gate) {
        Ok(answer) => Some(matches!(answer.reply, Reply::Done)),
        Err(_) => None,
    }
}

/// The same by what the call does.
pub fn makes<N: Named, R: Wait + Clock, G: Gate>(
    rt: &R,
    alloc: Global,
    session: &mut Session<'_, N>,
    deed: Deed,
    gate: &G,
) -> Option<bool> {
    match call_of(alloc, deed) {
        Some(call) => is_done(rt, alloc, session, &call, gate),
        None => None,
    }
}

/// What an observer is to show at a path.
#[derive(Clone, Copy)]
pub enum Sight {
    Nothing,
    EmptyDir,
    /// A directory with one name, of this one byte.
    Name(u8),
    /// The bytes of a file, nine at the most.
    Bytes(&'static [u8]),
}

/// What an observer replies of a sight.
fn look<N: Named>(
    alloc: Global,
    observer: &mut Observer<'_, N>,
    path: &Path,
    sight: Sight,
) -> Result<Reply, AllocError> {
    match sight {
        Sight::Nothing | Sight::EmptyDir => observer.stat(alloc, path),
        Sight::Name(_) => observer.readdir(alloc, path),
        Sight::Bytes(_) => observer.read(alloc, path, 0, 9),
    }
}

/// Whether there is this one name, of one byte.
fn is_one_name(list: &NameList, byte: u8) -> bool {
    let mut names = list.names();
    match (names.next(), names.next()) {
        (Some(name), None) => name == [byte].as_slice(),
        _ => false,
    }
}

/// Whether a reply is that of a sight.
fn fits(reply: &Reply, sight: Sight) -> bool {
    match (reply, sight) {
        (Reply::Failed(Errno::Enoent), Sight::Nothing) => true,
        (Reply::Stat(Kind::Dir, 0), Sight::EmptyDir) => true,
        (Reply::Names(names), Sight::Name(byte)) => is_one_name(names, byte),
        (Reply::Bytes(bytes), Sight::Bytes(want)) => bytes.as_slice() == want,
        _ => false,
    }
}

/// Whether an observer shows a sight at a path.
fn shows_at<N: Named>(
    alloc: Global,
    observer: &mut Observer<'_, N>,
    path: &Path,
    sight: Sight,
) -> Option<bool> {
    match look(alloc, observer, path, sight) {
        Ok(reply) => Some(fits(&reply, sight)),
        Err(_) => None,
    }
}

/// The same at the text of a path.
pub fn shows<N: Named>(
    alloc: Global,
    observer: &mut Observer<'_, N>,
    text: &[u8],
    sight: Sight,
) -> Option<bool> {
    match Path::parse(alloc, text) {
        Ok(path) => shows_at(alloc, observer, &path, sight),
        Err(_) => None,
    }
}
