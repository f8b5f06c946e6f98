//! What a call changes where it takes its place.

use crate::paths::paths_of;
use fs_calls::{Call, Errno, Reply};
use fs_seq::SeqTree;
use std::alloc::{AllocError, Global};

/// What a call changes.
#[derive(Clone, Copy, Debug, PartialEq, Eq)]
pub(crate) enum Effect {
    /// It adds a node.
    Adds,
    /// It removes one.
    Removes,
    /// It moves one.
    Moves,
    /// It moves one to where another is, which it removes.
    MovesOver,
    /// It lets two change places.
    Exchanges,
    /// It changes the bytes of a file.
    Changes,
    /// It is none of these, and leaves all as it is.
    ChangesNothing,
    /// It asks only.
    Answers,
    /// It fails.
    Fails(Errno),
}

/// What a tree says of the node of a call's last path.
fn looked(alloc: Global, tree: &SeqTree, call: &Call) -> Result<Reply, AllocError> {
    let look = Call::Stat(paths_of(call).1.copy()?);
    tree.look(alloc, &look)
}

fn of_rename(call: &Call, before: &Reply) -> Effect {
    let (from, to) = paths_of(call);
    if from.len() == to.len() && from.is_prefix_of(to) {
        return Effect::ChangesNothing;
    }
    match before {
        Reply::Stat(_, _) => Effect::MovesOver,
        _ => Effect::Moves,
    }
}

fn of_exchange(call: &Call) -> Effect {
    let (path, other) = paths_of(call);
    if path.len() == other.len() && path.is_prefix_of(other) {
        Effect::ChangesNothing
    } else {
        Effect::Exchanges
    }
}

fn of_truncate(size: u64, before: &Reply) -> Effect {
    match before {
        Reply::Stat(_, old) if *old == size => Effect::ChangesNothing,
        _ => Effect::Changes,
    }
}

/// What a call changed that did what it says, by what was at its last path before.
fn of_done(call: &Call, before: &Reply) -> Effect {
    match call {
        Call::Mkdir(_) | Call::Mknod(_) => Effect::Adds,
        Call::Unlink(_) | Call::Rmdir(_) => Effect::Removes,
        Call::Rename(_, _) => of_rename(call, before),
        Call::Exchange(_, _) => of_exchange(call),
        Call::Truncate(_, size) => of_truncate(*size, before),
        Call::Write(_, _, _) => Effect::Changes,
        Call::Stat(_) | Call::Readdir(_) | Call::ListAfter(_, _, _) | Call::Read(_, _, _) => {
            Effect::Answers
        }
    }
}

/// Does a call on a tree, and answers what it changes.
pub(crate) fn effect_of(
    alloc: Global,
    tree: &mut SeqTree,
    call: &Call,
) -> Result<Effect, AllocError> {
    let before = looked(alloc, tree, call)?;
    let reply = tree.apply(alloc, call)?;
    Ok(match reply {
        Reply::Failed(errno) => Effect::Fails(errno),
        Reply::Wrote(0) => Effect::ChangesNothing,
        _ => of_done(call, &before),
    })
}
