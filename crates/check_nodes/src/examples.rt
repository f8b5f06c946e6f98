//! The store in use: each call of it once, with the answer that is wanted.

ghost use Rattle.std.specs.Prelude.{◌≤◌};
ghost use Rattle.fs_names.specs.declared.limits.TheConstants.{NODE_LIMIT};

use crate::calls::Linked;
use anyhow::{Result, bail};
use fs_names::{Kind, Name};
use fs_nodes::{NoNode, NodeNo};
use std::alloc::{AllocError, Global};

/// A name in a directory, which is written here with its number.
type At = (usize, &'static [u8]);

/// An entry that is read: its name, and the node that it names.
type Entry = Option<(&'static [u8], usize)>;

/// What is done with a store, and what it answers.
#[derive(Clone, Copy)]
enum Deed {
    /// A number is reserved; none is left.
    Reserve(Kind, Option<usize>),
    Link(At, usize, bool),
    Unlink(At, Option<usize>),
    Move(At, At, bool),
    /// A number goes, and is free then.
    Release(usize),
    Find(At, Option<usize>),
    /// An entry is found, after a look at so many.
    FindSteps(At, usize, usize),
    Parent(usize, Option<usize>),
    Entries(usize, usize),
    IsFile(usize),
    /// The first entry of a directory, or the next one after a name.
    Next(usize, Option<&'static [u8]>, Entry),
    After(usize, Entry),
    /// A file gets bytes, and has them; the old ones are handed out.
    Swap(usize, &'static [u8], &'static [u8]),
}

/// A deed, and what it says.
type Row = (Deed, &'static str);

/// A name of a byte more than is kept in place.
const LONG_A: &[u8] = &[b'a'; 65];

/// One that differs in its last byte.
const LONG_B: &[u8] = b"aaaaaaaaaaaaaaaaaaaaaaaaaaaaaaaaaaaaaaaaaaaaaaaaaaaaaaaaaaaaaaaab";

/// A name of as many bytes as there may be.
const LONGEST: &[u8] = &[b'a'; 255];

/// The one free number of a store of two nodes becomes a directory's, which gets an entry and another name, and goes; then it is
/// had again.
const TWO_NUMBERS: &[Row] = &[
    (Deed::Reserve(Kind::Dir, Some(1)), "a number"),
    (Deed::Reserve(Kind::File, None), "a third number"),
    (Deed::Link((1, b"a"), 1, false), "no directory below itself"),
    (Deed::Link((0, b"a"), 1, true), "an entry"),
    (Deed::Find((0, b"a"), Some(1)), "the entry's node"),
    (Deed::Find((1, b"a"), None), "another directory"),
    (Deed::Parent(1, Some(0)), "the parent"),
    (Deed::Move((0, b"a"), (0, b"b"), true), "another name"),
    (Deed::Find((0, b"a"), None), "the old name"),
    (Deed::Unlink((0, b"b"), Some(1)), "what goes"),
    (Deed::Entries(0, 0), "no entries"),
    (Deed::Release(1), "a number back"),
    (Deed::Reserve(Kind::File, Some(1)), "the number again"),
    (Deed::IsFile(1), "a file now"),
];

/// Names come in the order of their bytes, and an entry moves from one directory to another.
const NAMES_IN_ORDER: &[Row] = &[
    (Deed::Reserve(Kind::File, Some(1)), "a first number"),
    (Deed::Reserve(Kind::Dir, Some(2)), "a second number"),
    (Deed::Reserve(Kind::File, Some(3)), "a third number"),
    (Deed::Link((0, b"bb"), 1, true), "bb"),
    (Deed::Link((0, b"a"), 2, true), "a"),
    (Deed::Link((0, b"b"), 3, true), "b"),
    (Deed::Next(0, None, Some((b"a", 2))), "a is the first"),
    (Deed::After(2, Some((b"b", 3))), "b is the next"),
    (
        Deed::Next(0, Some(b"b"), Some((b"bb", 1))),
        "bb is the last",
    ),
    (Deed::After(1, None), "the end"),
    (Deed::FindSteps((0, b"b"), 3, 1), "one looked at"),
    (Deed::Move((0, b"b"), (2, b"bb"), true), "another directory"),
    (Deed::Find((2, b"bb"), Some(3)), "its new name"),
    (Deed::Entries(0, 2), "two are left"),
    (Deed::Move((0, b"a"), (2, b"b"), false), "nor after a move"),
    (Deed::Unlink((0, b"a"), None), "an entry below it"),
];

/// Of two names of more bytes than are kept in place, which differ in their last one, the first is found and goes; and
/// then the longest one.
const LONG_NAMES: &[Row] = &[
    (Deed::Reserve(Kind::File, Some(1)), "a first number"),
    (Deed::Reserve(Kind::Dir, Some(2)), "a second number"),
    (Deed::Link((0, LONG_B), 1, true), "a long name"),
    (
        Deed::Link((0, LONG_A), 2, true),
        "one less in its last byte",
    ),
    (
        Deed::FindSteps((0, LONG_A), 2, 1),
        "the node of the lesser one",
    ),
    (
        Deed::FindSteps((0, LONG_B), 1, 1),
        "the node of the other one",
    ),
    (
        Deed::Next(0, None, Some((LONG_A, 2))),
        "the lesser is the first",
    ),
    (Deed::After(2, Some((LONG_B, 1))), "the other is the next"),
    (
        Deed::Move((0, LONG_B), (2, LONGEST), true),
        "the longest name",
    ),
    (Deed::Find((2, LONGEST), Some(1)), "its node"),
    (Deed::After(2, None), "one is left"),
    (Deed::Unlink((2, LONGEST), Some(1)), "it goes"),
    (Deed::Find((2, LONGEST), None), "no longest name"),
];

/// The bytes of a file are handed over and handed out.
const BYTES_OF_A_FILE: &[Row] = &[
    (Deed::Reserve(Kind::File, Some(1)), "a file"),
    (Deed::Swap(1, b"abc", b""), "nothing out"),
    (Deed::Swap(1, b"", b"abc"), "the bytes out"),
];

fn node(number: usize) -> NodeNo {
    NodeNo::new(number)
}

/// The number of a node, if there is one.
fn number(node: Option<NodeNo>) -> Option<usize> {
    node.map(NodeNo::get)
}

/// Whether a number is reserved, which is this one, or none is left.
fn reserves(used: &mut Linked, kind: Kind, due: Option<usize>) -> bool {
    match used.store.reserve(kind) {
        Ok(node) => due == Some(node.get()),
        Err(why) => due.is_none() && why == NoNode::Full,
    }
}

/// A name of these bytes.
fn name(alloc: Global, bytes: &[u8]) -> Option<Name> {
    Name::read_long(alloc, bytes).ok()?
}

/// Whether a node becomes an entry.
fn link(alloc: Global, used: &mut Linked, at: At, of: usize) -> Option<bool> {
    let name = name(alloc, at.1)?;
    Some(used.link(node(at.0), name, node(of)))
}

/// The node whose entry goes.
fn unlink(alloc: Global, used: &mut Linked, at: At) -> Option<Option<usize>> {
    let name = name(alloc, at.1)?;
    Some(number(used.unlink(node(at.0), &name)))
}

/// Whether an entry goes elsewhere.
fn move_to(alloc: Global, used: &mut Linked, at: At, to: At) -> Option<bool> {
    let (old_name, new_name) = (name(alloc, at.1)?, name(alloc, to.1)?);
    Some(used.move_entry(node(at.0), &old_name, node(to.0), new_name))
}

/// The node of an entry, and at how many entries was looked.
fn find(alloc: Global, used: &Linked, at: At) -> Option<(Option<usize>, usize)> {
    let name = name(alloc, at.1)?;
    let (found, steps) = used.store.find_steps(node(at.0), &name);
    Some((number(found), steps))
}

/// Whether this is the node of an entry, in both ways of looking for it.
fn finds(alloc: Global, used: &Linked, at: At, due: Option<usize>) -> Option<bool> {
    let name = name(alloc, at.1)?;
    Some(number(used.store.find(node(at.0), &name)) == due)
}

/// Whether an entry of this name and this node is the one that is due.
fn is_due(name: &Name, node: NodeNo, due: Entry) -> bool {
    match due {
        Some((text, number)) => name.bytes() == text && node.get() == number,
        None => false,
    }
}

/// Whether the first entry above a name, if one is given, is the one that is due.
fn is_above(used: &Linked, dir: usize, low: Option<&Name>, due: Entry) -> bool {
    match used.store.next_name(node(dir), low) {
        Some((name, node)) => is_due(name, node, due),
        None => due.is_none(),
    }
}

/// Whether the entry after a node's is the one that is due.
fn is_after(used: &Linked, of: usize, due: Entry) -> bool {
    match used.store.next_entry_after(node(of)) {
        Some((name, node)) => is_due(name, node, due),
        None => due.is_none(),
    }
}

/// Whether the first entry of a directory, or the next one, is this one.
fn is_next(
    alloc: Global,
    used: &Linked,
    dir: usize,
    low: Option<&'static [u8]>,
    due: Entry,
) -> Option<bool> {
    match low {
        Some(bytes) => Some(is_above(used, dir, Some(&name(alloc, bytes)?), due)),
        None => Some(is_above(used, dir, None, due)),
    }
}

/// Whether a number goes, and is free then.
fn is_released(used: &mut Linked, of: usize) -> bool {
    used.release(node(of)) && !used.store.is_used(node(of))
}

/// Whether those bytes are handed out for these.
fn hands_out(
    alloc: Global,
    used: &mut Linked,
    file: usize,
    bytes: &[u8],
    due: &[u8],
) -> Result<bool, AllocError> {
    match used.swap_content(alloc, node(file), bytes)? {
        Some(old) => Ok(old.as_slice() == due),
        None => Ok(false),
    }
}

/// Whether a file has the old bytes first, and these after the swap.
fn is_swapped(
    alloc: Global,
    used: &mut Linked,
    file: usize,
    bytes: &[u8],
    due: &[u8],
) -> Result<bool, AllocError> {
    Ok(
        used.content(node(file)) == due
            && hands_out(alloc, used, file, bytes, due)?
            && used.content(node(file)) == bytes,
    )
}

/// Whether a look answers so; none where the deed is no look.
fn is_seen(alloc: Global, used: &Linked, deed: Deed) -> Option<bool> {
    match deed {
        Deed::Find(at, due) => finds(alloc, used, at, due),
        Deed::FindSteps(at, due, steps) => Some(find(alloc, used, at)? == (Some(due), steps)),
        Deed::Parent(of, due) => Some(number(used.store.parent(node(of))) == due),
        Deed::Entries(dir, due) => Some(used.store.entries(node(dir)) == due),
        Deed::IsFile(file) => Some(used.store.is_file(node(file))),
        Deed::Next(dir, low, due) => is_next(alloc, used, dir, low, due),
        Deed::After(of, due) => Some(is_after(used, of, due)),
        _ => None,
    }
}

/// Whether a change answers so, or a look.
fn is_done(alloc: Global, used: &mut Linked, deed: Deed) -> Option<bool> {
    match deed {
        Deed::Reserve(kind, due) => Some(reserves(used, kind, due)),
        Deed::Link(at, of, due) => Some(link(alloc, used, at, of)? == due),
        Deed::Unlink(at, due) => Some(unlink(alloc, used, at)? == due),
        Deed::Move(at, to, due) => Some(move_to(alloc, used, at, to)? == due),
        Deed::Release(of) => Some(is_released(used, of)),
        look => is_seen(alloc, used, look),
    }
}

/// Whether a deed comes out as it must.
fn comes_out(alloc: Global, used: &mut Linked, deed: Deed) -> Result<bool, AllocError> {
    match deed {
        Deed::Swap(file, bytes, due) => is_swapped(alloc, used, file, bytes, due),
        other => Ok(is_done(alloc, used, other) == Some(true)),
    }
}

fn use_store(alloc: Global, used: &mut Linked, rows: &[Row]) -> Result<()> {
    for (deed, what) in rows {
        if !comes_out(alloc, used, *deed)? {
            bail!("not so: {what}");
        }
    }
    Ok(())
}

/// Uses a store for so many nodes.
fn use_new(alloc: Global, limit: usize, rows: &[Row]) -> Result<()>
    requires least { 1 ≤ limit }
    requires most { limit ≤ NODE_LIMIT }
{
    use_store(alloc, &mut Linked::new(alloc, limit)?, rows)
}

/// Uses each of the stores.
pub fn use_stores(alloc: Global) -> Result<()> {
    use_new(alloc, 2, TWO_NUMBERS)?;
    use_new(alloc, 8, NAMES_IN_ORDER)?;
    use_new(alloc, 8, LONG_NAMES)?;
    use_new(alloc, 2, BYTES_OF_A_FILE)
}
