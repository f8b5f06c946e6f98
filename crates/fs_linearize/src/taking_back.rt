//! What takes a commit back on a tree that changed in place. It is only for the search: what a search finds is played again from the start.

use fs_calls::{Bytes, Call, Data, Reply};
use fs_names::{Kind, Path};
use fs_seq::SeqTree;
use std::alloc::{AllocError, Global};

/// So many bytes of a file are kept by themselves; if more are lost, the whole tree is kept, which shares them.
const KEPT_BYTES: u64 = 65_536;

/// A node that a call removes, or the part of a file that it overwrites or cuts off.
#[derive(Drop)]
pub(crate) struct Lost {
    kind: Kind,
    /// The size of the file.
    size: u64,
    /// Where the bytes were.
    off: u64,
    bytes: Bytes,
}

/// What takes a call back.
#[derive(Drop)]
pub(crate) enum Back<'a> {
    /// It left the tree as it was.
    Nothing,
    /// Another call does, which follows from it.
    Undone(&'a Call),
    /// And then what was lost is put back.
    Refilled(&'a Call, Lost),
    /// The tree before it.
    Whole(SeqTree),
}

/// The bytes of the file at a path from an offset on, no more than a count.
fn bytes_at(
    alloc: Global,
    tree: &SeqTree,
    path: &Path,
    off: u64,
    count: u64,
) -> Result<Option<Bytes>, AllocError> {
    if count == 0 {
        return Ok(Some(Bytes::new(Vec::new(alloc))));
    }
    if count > KEPT_BYTES {
        return Ok(None);
    }
    let call = Call::Read(path.copy()?, off, count);
    let reply = tree.look(alloc, &call)?;
    let Reply::Bytes(bytes) = reply else {
        return Ok(None);
    };
    if bytes.as_slice().len() as u64 == count {
        Ok(Some(bytes))
    } else {
        Ok(None)
    }
}

/// What takes a call back by which the bytes of the file at a path from an offset on are lost, no more than a count, or the empty
/// directory there.
fn refilled<'a>(
    alloc: Global,
    tree: &SeqTree,
    call: &'a Call,
    path: &Path,
    off: u64,
    count: u64,
) -> Result<Back<'a>, AllocError> {
    let stat = Call::Stat(path.copy()?);
    let Reply::Stat(kind, size) = tree.look(alloc, &stat)? else {
        return Ok(Back::Undone(call));
    };
    let lost = match kind {
        Kind::Dir => 0,
        Kind::File => count.min(size.saturating_sub(off)),
    };
    match bytes_at(alloc, tree, path, off, lost)? {
        Some(bytes) => Ok(Back::Refilled(
            call,
            Lost {
                kind,
                size,
                off,
                bytes,
            },
        )),
        None => Ok(Back::Whole(tree.copy()?)),
    }
}

/// Writes bytes back into the file at a path.
fn write(
    alloc: Global,
    tree: &mut SeqTree,
    path: &Path,
    off: u64,
    bytes: &Bytes,
) -> Result<(), AllocError> {
    if !bytes.as_slice().is_empty() {
        let data = Data::from_slice(alloc, bytes.as_slice())?;
        tree.apply(alloc, &Call::Write(path.copy()?, off, data))?;
    }
    Ok(())
}

/// Puts back what was at a path.
fn put(alloc: Global, tree: &mut SeqTree, path: &Path, lost: &Lost) -> Result<(), AllocError> {
    match lost.kind {
        Kind::Dir => {
            tree.apply(alloc, &Call::Mkdir(path.copy()?))?;
            Ok(())
        }
        Kind::File => {
            tree.apply(alloc, &Call::Mknod(path.copy()?))?;
            write(alloc, tree, path, 0, &lost.bytes)
        }
    }
}

/// Undoes what a call made or moved.
fn undo(alloc: Global, tree: &mut SeqTree, call: &Call) -> Result<(), AllocError> {
    let back = match call {
        Call::Mkdir(path) => Call::Rmdir(path.copy()?),
        Call::Mknod(path) => Call::Unlink(path.copy()?),
        Call::Rmdir(path) => Call::Mkdir(path.copy()?),
        Call::Rename(from, to) => Call::Rename(to.copy()?, from.copy()?),
        Call::Exchange(one, other) => Call::Exchange(one.copy()?, other.copy()?),
        Call::Unlink(_) | Call::Write(_, _, _) | Call::Truncate(_, _) => return Ok(()),
        Call::Stat(_) | Call::Readdir(_) | Call::ListAfter(_, _, _) | Call::Read(_, _, _) => {
            return Ok(());
        }
    };
    tree.apply(alloc, &back)?;
    Ok(())
}

/// Puts back what a call removed, overwrote or cut off.
fn refill(alloc: Global, tree: &mut SeqTree, call: &Call, lost: &Lost) -> Result<(), AllocError> {
    match call {
        Call::Unlink(path) | Call::Rename(_, path) => put(alloc, tree, path, lost),
        Call::Write(path, _, _) | Call::Truncate(path, _) => {
            tree.apply(alloc, &Call::Truncate(path.copy()?, lost.size))?;
            write(alloc, tree, path, lost.off, &lost.bytes)
        }
        Call::Mkdir(_) | Call::Mknod(_) | Call::Rmdir(_) | Call::Exchange(_, _) => Ok(()),
        Call::Stat(_) | Call::Readdir(_) | Call::ListAfter(_, _, _) | Call::Read(_, _, _) => Ok(()),
    }
}

impl<'a> Back<'a> {
    /// What would take a call back that is played next, if it gets no error.
    pub fn before(alloc: Global, tree: &SeqTree, call: &'a Call) -> Result<Self, AllocError> {
        match call {
            Call::Mkdir(_) | Call::Mknod(_) | Call::Rmdir(_) => Ok(Back::Undone(call)),
            Call::Exchange(_, _) => Ok(Back::Undone(call)),
            Call::Unlink(path) => refilled(alloc, tree, call, path, 0, u64::MAX),
            Call::Rename(from, to) => {
                if from.same(to) {
                    return Ok(Back::Nothing);
                }
                refilled(alloc, tree, call, to, 0, u64::MAX)
            }
            Call::Write(path, off, bytes) => {
                let count = bytes.as_slice().len() as u64;
                if count == 0 {
                    return Ok(Back::Nothing);
                }
                refilled(alloc, tree, call, path, *off, count)
            }
            Call::Truncate(path, size) => refilled(alloc, tree, call, path, *size, u64::MAX),
            Call::Stat(_) | Call::Readdir(_) | Call::ListAfter(_, _, _) | Call::Read(_, _, _) => {
                Ok(Back::Nothing)
            }
        }
    }

    /// Whether the tree changed.
    pub fn is_change(&self) -> bool {
        match self {
            Back::Nothing => false,
            Back::Undone(_) | Back::Refilled(_, _) | Back::Whole(_) => true,
        }
    }

    /// Takes the call back, which was the last one that changed the tree.
    pub fn take(self, alloc: Global, tree: &mut SeqTree) -> Result<(), AllocError> {
        match self {
            Back::Nothing => Ok(()),
            Back::Undone(call) => undo(alloc, tree, call),
            Back::Refilled(call, lost) => {
                undo(alloc, tree, call)?;
                refill(alloc, tree, call, &lost)
            }
            Back::Whole(old) => {
                *tree = old;
                Ok(())
            }
        }
    }
}
