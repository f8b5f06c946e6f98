//! The nodes that a call holds, and where they are on its paths.

ghost use Rattle.std.specs.Prelude.{◌≡◌, length};
ghost use Rattle.fs_calls.specs.code.Targets.{form_of};
ghost use Rattle.fs_names.specs.Keys.{parent_of};
ghost use Rattle.fs_names.specs.Parts.{common};
ghost use Rattle.fs_names.specs.declared.limits.Limits.{Limits};
ghost use Rattle.fs_machine.specs.Moves.{target};

use crate::paths::{add_names, name_in, path_of};
use fs_calls::{Call, Target};
use fs_names::{Name, Path};
use fs_nodes::{NodeNo, Store};
use std::alloc::{AllocError, Global};

/// A node that a call holds: the path under which it was taken, as a word, and how many names of each of the call's paths lead
/// to it, where they do.
#[derive(Drop)]
pub(crate) struct Held {
    pub(crate) node: NodeNo,
    pub(crate) taken: Vec<u8>,
    pub(crate) first: Option<usize>,
    pub(crate) second: Option<usize>,
}

/// How many names of a path lead to an entry, where so many lead to its directory.
fn depth_below(above: Option<usize>, path: &Path, name: &Name) -> Option<usize> {
    let depth = above?;
    if depth < path.len() && path.name(depth).same(name) {
        return Some(depth + 1);
    }
    None
}

/// The held node of a number.
fn find(held: &[Held], node: NodeNo) -> Option<&Held> {
    held.iter().find(|one| one.node == node)
}

/// Notes that a call with these paths took a node.
pub(crate) fn take(
    alloc: Global,
    store: &Store,
    paths: (&Path, &Path),
    node: NodeNo,
    held: &mut Vec<Held>,
) -> Result<(), AllocError> {
    let taken = match path_of(alloc, store, node)? {
        Some(path) => path,
        None => Vec::new(alloc),
    };
    let (first, second) = depths(store, paths, node, held.as_slice());
    held.push(Held {
        node,
        taken,
        first,
        second,
    })?;
    Ok(())
}

/// How many names of each path lead to a node that is taken now.
fn depths(
    store: &Store,
    paths: (&Path, &Path),
    node: NodeNo,
    held: &[Held],
) -> (Option<usize>, Option<usize>) {
    if node == NodeNo::ROOT {
        return (Some(0), Some(0));
    }
    let Some(dir) = store.parent(node) else {
        return (None, None);
    };
    let (Some(name), Some(above)) = (name_in(store, dir, node), find(held, dir)) else {
        return (None, None);
    };
    (
        depth_below(above.first, paths.0, name),
        depth_below(above.second, paths.1, name),
    )
}

/// Takes a node off that a call lets go.
pub(crate) fn let_go(held: &mut Vec<Held>, node: NodeNo) -> Option<Held> {
    let at = held.iter().position(|one| one.node == node)?;
    Some(held.remove(at))
}

/// A node with its depth below the root of a path.
#[derive(Clone, Copy)]
struct Deep {
    depth: usize,
    node: NodeNo,
}

/// The deeper one of two; the second where both are as deep.
fn deeper(best: Option<Deep>, other: Deep) -> Option<Deep> {
    match best {
        Some(one) if one.depth > other.depth => Some(one),
        _ => Some(other),
    }
}

/// How many names the parents of two paths have in common.
fn common_len(path: &Path, other: &Path) -> usize
    ensures { result ≡ length (common (parent_of path.now) (parent_of other.now)) }
{
    path.common(other)
        .min(path.parent_len())
        .min(other.parent_len())
}

/// How many names lead to the target of a call: to the node itself, to the directory of its entry, or to the common directory of
/// its two entries.
fn target_len(aim: Target<'_>) -> usize
    ensures { (limits : Limits) → result ≡ length (target (form_of limits aim.entry)) }
{
    match aim {
        Target::Node(_, path) => path.len(),
        Target::Entry(_, path) => path.parent_len(),
        Target::Pair(_, path, other) => common_len(path, other),
    }
}

/// The depth of a node of its call's walk. A victim comes after the target to which the walk leads, and so do the two
/// heads.
fn depth_on_walk(held: &Held, target_len: usize) -> Option<usize> {
    let _second = held.second?;
    match held.first {
        Some(depth) if depth <= target_len => Some(depth),
        _ => None,
    }
}

/// The position of a call: the deepest node of its walk that it holds. From its target on that is the target.
pub(crate) fn position(held: &[Held], call: &Call) -> Option<NodeNo> {
    let target_len = target_len(call.target());
    let mut deepest: Option<Deep> = None;
    for one in held {
        if let Some(depth) = depth_on_walk(one, target_len) {
            deepest = deeper(
                deepest,
                Deep {
                    depth,
                    node: one.node,
                },
            );
        }
    }
    Some(deepest?.node)
}

/// The depth of a node on one of its call's paths, if it is above the end of that.
fn depth_above(held: &Held, path: &Path, is_second: bool) -> Option<usize> {
    let depth = if is_second { held.second } else { held.first };
    match depth {
        Some(depth) if depth < path.len() => Some(depth),
        _ => None,
    }
}

/// The deepest held node above the end of one of the call's paths.
fn nearest_above(held: &[Held], path: &Path, is_second: bool) -> Option<Deep> {
    let mut nearest: Option<Deep> = None;
    for one in held {
        if let Some(depth) = depth_above(one, path, is_second) {
            nearest = deeper(
                nearest,
                Deep {
                    depth,
                    node: one.node,
                },
            );
        }
    }
    nearest
}

/// What one of a call's paths means now, as a word: the entry of its last name in the directory that the call holds. No bytes where
/// it holds none on the way.
pub(crate) fn meaning(
    alloc: Global,
    store: &Store,
    held: &[Held],
    path: &Path,
    is_second: bool,
) -> Result<Vec<u8>, AllocError> {
    if let Some(above) = nearest_above(held, path, is_second) {
        if let Some(word) = path_of(alloc, store, above.node)? {
            return add_names(alloc, word, path, above.depth);
        }
    }
    Ok(Vec::new(alloc))
}
