//! The paths of nodes.

use fs_calls::Call;
use fs_names::{NODE_LIMIT, Name, Path};
use fs_nodes::{NodeNo, Store};
use fs_words::Addition;
use std::alloc::{AllocError, Global};

/// The name of the entry by which a directory leads to a node.
pub(crate) fn name_in(store: &Store, dir: NodeNo, node: NodeNo) -> Option<&Name> {
    let mut next = store.next_name(dir, None);
    for _ in 0..store.entries(dir) {
        let Some((name, found)) = next else {
            return None;
        };
        if found == node {
            return Some(name);
        }
        next = store.next_entry_after(found);
    }
    None
}

/// The names on the way from a node up to the root. Where the node is not below the root, there is none.
fn names_up(alloc: Global, store: &Store, node: NodeNo) -> Result<Option<Vec<&Name>>, AllocError> {
    let mut names = Vec::new(alloc);
    let mut at = node;
    for _ in 0..NODE_LIMIT {
        if at == NodeNo::ROOT {
            return Ok(Some(names));
        }
        let Some(dir) = store.parent(at) else {
            return Ok(None);
        };
        let Some(name) = name_in(store, dir, at) else {
            return Ok(None);
        };
        names.push(name)?;
        at = dir;
    }
    Ok(None)
}

/// The names as the word of a path, the last one first.
fn word_of(alloc: Global, names: &[&Name]) -> Result<Vec<u8>, AllocError> {
    let mut word = Addition::new(Vec::new(alloc));
    for name in names.iter().rev() {
        word.push_step(alloc, name)?;
    }
    if names.is_empty() {
        word.push(b"/")?;
    }
    Ok(word.kept())
}

/// The path that leads to a node, as a word; none where none does.
pub(crate) fn path_of(
    alloc: Global,
    store: &Store,
    node: NodeNo,
) -> Result<Option<Vec<u8>>, AllocError> {
    match names_up(alloc, store, node)? {
        Some(names) => Ok(Some(word_of(alloc, names.as_slice())?)),
        None => Ok(None),
    }
}

/// Adds to a path, as a word, the names of another from a place on.
pub(crate) fn add_names(
    alloc: Global,
    word: Vec<u8>,
    path: &Path,
    from: usize,
) -> Result<Vec<u8>, AllocError> {
    if from >= path.len() {
        return Ok(word);
    }
    let is_root = word.as_slice() == b"/".as_slice();
    let mut longer = Addition::new(if is_root { Vec::new(alloc) } else { word });
    for i in from..path.len() {
        longer.push_step(alloc, path.name(i))?;
    }
    Ok(longer.kept())
}

/// The paths of the nodes of a call: of one that has one, that path twice.
pub(crate) fn paths_of(call: &Call) -> (&Path, &Path) {
    match call {
        Call::Rename(from, to) => (from, to),
        Call::Exchange(path, other) => (path, other),
        Call::Mkdir(path)
        | Call::Mknod(path)
        | Call::Unlink(path)
        | Call::Rmdir(path)
        | Call::Stat(path)
        | Call::Readdir(path)
        | Call::ListAfter(_, path, _)
        | Call::Read(path, _, _)
        | Call::Write(path, _, _)
        | Call::Truncate(path, _) => (path, path),
    }
}
