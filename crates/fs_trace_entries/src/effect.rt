//! What a call changes where it takes its place.

use fs_calls::{Call, Reply};
use fs_names::Path;
use fs_seq::SeqTree;
use fs_text::{Addition, errno_text};
use std::alloc::{AllocError, Global};

/// The paths of the nodes of a call: of one that has one, that path twice.
fn paths_of(call: &Call) -> (&Path, &Path) {
    match call {
        Call::Rename(from, to) => (from, to),
        Call::Exchange(path, other) => (path, other),
        Call::Mkdir(path)
        | Call::Mknod(path)
        | Call::Unlink(path)
        | Call::Rmdir(path)
        | Call::Stat(path)
        | Call::Readdir(path)
        | Call::ListAfter(_, path, _)
        | Call::Read(path, _, _)
        | Call::Write(path, _, _)
        | Call::Truncate(path, _) => (path, path),
    }
}

/// Whether the paths of a call are one.
fn is_same(call: &Call) -> bool {
    let (path, other) = paths_of(call);
    path.len() == other.len() && path.is_prefix_of(other)
}

/// What a call changes: a word, a path, a word before a second path, that path, and the error of a call that fails. What is not there
/// has no bytes.
#[derive(Drop)]
pub(crate) struct Effect {
    pub(crate) change: &'static [u8],
    pub(crate) path: Vec<u8>,
    pub(crate) joint: &'static [u8],
    pub(crate) second: Vec<u8>,
    pub(crate) error: &'static [u8],
}

/// Adds a word after a space, if it has bytes.
fn push_next(word: &[u8], words: &mut Addition) -> Result<(), AllocError> {
    if word.is_empty() {
        return Ok(());
    }
    words.push(b" ")?;
    words.push(word)
}

impl Effect {
    /// That of no paths and no error; without a word that of a call which did not begin. It takes no memory.
    pub(crate) fn of_word(alloc: Global, change: &'static [u8]) -> Effect {
        Effect {
            change,
            path: Vec::new(alloc),
            joint: b"",
            second: Vec::new(alloc),
            error: b"",
        }
    }

    /// That of the first path of a call.
    fn of_path(alloc: Global, change: &'static [u8], call: &Call) -> Result<Effect, AllocError> {
        let mut effect = Effect::of_word(alloc, change);
        effect.path = path_text(alloc, paths_of(call).0)?;
        Ok(effect)
    }

    /// That of both paths of a call, with a word between them.
    fn of_both(
        alloc: Global,
        change: &'static [u8],
        joint: &'static [u8],
        call: &Call,
    ) -> Result<Effect, AllocError> {
        let mut effect = Effect::of_path(alloc, change, call)?;
        effect.joint = joint;
        effect.second = path_text(alloc, paths_of(call).1)?;
        Ok(effect)
    }

    /// It in words.
    pub(crate) fn words(&self, alloc: Global) -> Result<Vec<u8>, AllocError> {
        let mut words = Addition::new(Vec::new(alloc));
        words.push(self.change)?;
        push_next(self.path.as_slice(), &mut words)?;
        push_next(self.joint, &mut words)?;
        push_next(self.second.as_slice(), &mut words)?;
        push_next(self.error, &mut words)?;
        Ok(words.kept())
    }
}

/// A path in words.
fn path_text(alloc: Global, path: &Path) -> Result<Vec<u8>, AllocError> {
    let mut text = Addition::new(Vec::new(alloc));
    text.push_path(alloc, path)?;
    Ok(text.kept())
}

/// What a call changed that did what it says, by what was at its last path before.
fn of_done(alloc: Global, call: &Call, before: &Reply) -> Result<Effect, AllocError> {
    match (call, before) {
        (Call::Rename(_, _) | Call::Exchange(_, _), _) if is_same(call) => {
            Ok(Effect::of_word(alloc, b"changes nothing"))
        }
        (Call::Truncate(_, size), Reply::Stat(_, old)) if old == size => {
            Ok(Effect::of_word(alloc, b"changes nothing"))
        }
        (Call::Mkdir(_) | Call::Mknod(_), _) => Effect::of_path(alloc, b"adds", call),
        (Call::Unlink(_) | Call::Rmdir(_), _) => Effect::of_path(alloc, b"removes", call),
        (Call::Rename(_, _), Reply::Stat(_, _)) => Effect::of_both(alloc, b"moves", b"over", call),
        (Call::Rename(_, _), _) => Effect::of_both(alloc, b"moves", b"to", call),
        (Call::Exchange(_, _), _) => Effect::of_both(alloc, b"exchanges", b"with", call),
        (Call::Write(_, _, _) | Call::Truncate(_, _), _) => {
            Effect::of_path(alloc, b"changes", call)
        }
        (Call::Stat(_) | Call::Readdir(_) | Call::ListAfter(_, _, _) | Call::Read(_, _, _), _) => {
            Ok(Effect::of_word(alloc, b"answers"))
        }
    }
}

/// Does a call on a tree, and answers what it changes.
pub(crate) fn effect_of(
    alloc: Global,
    tree: &mut SeqTree,
    call: &Call,
) -> Result<Effect, AllocError> {
    let before = tree.look(alloc, &Call::Stat(paths_of(call).1.copy()?))?;
    let reply = tree.apply(alloc, call)?;
    match reply {
        Reply::Failed(errno) => {
            let mut effect = Effect::of_word(alloc, b"fails");
            effect.error = errno_text(errno);
            Ok(effect)
        }
        Reply::Wrote(0) => Ok(Effect::of_word(alloc, b"changes nothing")),
        _ => of_done(alloc, call, &before),
    }
}
