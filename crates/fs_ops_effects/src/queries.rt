//! How the calls that change nothing finish at their node.

ghost use Rattle.std.specs.Prelude.{◌≡◌, ◌≤◌, None, option_map, length, take, drop};
ghost use Rattle.std.specs.Option.{option_copied};
ghost use Rattle.fs_names.specs.Limits.{read_limit};
ghost use Rattle.fs_names.specs.Names.{names_above};
ghost use Rattle.fs_names.specs.Rooms.{IsRoomFor};
ghost use Rattle.fs_names.specs.Shapes.{names_of, is_dir};
ghost use Rattle.fs_nodes.specs.Seen.{seen};
ghost use Rattle.fs_nodes.specs.Stores as stores;
ghost use Rattle.fs_nodes.specs.Stores.{shape, graph_of, lent, next_entry, IsNextName};
ghost use Rattle.fs_calls.specs.Forms as calls;
ghost use Rattle.fs_calls.specs.Rows.{as_dir, node_row};
ghost use Rattle.fs_machine.specs.Moves.{walk_errno};
ghost use Rattle.fs_ops_effects.specs.Lows.{bytes_above};
ghost use Rattle.fs_ops_effects.specs.Rooms.{SufficesFor};

use crate::paths::last_name;
use crate::replies::Replies;
use crate::room::{Room, most_listed};
use crate::sights::sight_of;
use fs_calls::rows::step_error;
use fs_calls::{Errno, NameList, NodeCall, Reply};
use fs_names::{Kind, LIST_LIMIT, Limits, Name, NameRoom, Path};
use fs_nodes::{NodeNo, Store};

/// Why a walk with names left ends at a node.
pub fn walk_error(store: &Store, node: NodeNo) -> Errno
    ensures { result ≡ walk_errno (shape store.now node) }
{
    step_error(store.is_file(node))
}

/// Why a node cannot have entries.
pub fn dir_fault(store: &Store, node: NodeNo) -> Option<Errno>
    ensures { result ≡ as_dir None (shape store.now node) }
{
    if store.is_dir(node) {
        return None;
    }
    Some(walk_error(store, node))
}

/// Two replies with a kind and a size.
fn told(kind: Kind, size: usize) -> Replies
    ensures { result ≡ Reply.Stat kind size }
{
    let size = size as u64;
    Replies::new(Reply::Stat(kind, size), Reply::Stat(kind, size))
}

/// The kind of the node and its size.
pub fn stat(store: &Store, node: NodeNo, limits: Limits) -> Replies
    ensures { result ≡ (node_row calls.Stat None (shape store.now node)).0 }
{
    match NodeCall::Stat.error(limits, sight_of(store, node)) {
        Some(errno) => Replies::failed(errno),
        None if store.is_dir(node) => told(Kind::Dir, store.entries(node)),
        None => told(Kind::File, store.len(node)),
    }
}

/// The entry of the least name of a directory, or of the least one above the given name.
fn first_entry<'a>(store: &'a Store, dir: NodeNo, low: Option<&Name>) -> Option<(&'a Name, NodeNo)>
    ensures entry { lent result ≡ next_entry (graph_of store.now) dir (option_copied low.entry) }
    ensures rest { IsNextName (names_of (shape store.now dir)) (option_copied low.entry) (option_map (λ entry. entry.0) (lent result)) }
    ensures above { stores.names_above (option_copied low.entry) (names_of (shape store.now dir)) ≡ names_above (bytes_above (option_copied low.entry)) (names_of (shape store.now dir)) }
{
    match store.next_name(dir, low) {
        Some(entry) => {
            // A name has bytes: so all names are above no bytes, since they ascend from the first.
            let _ = entry.0.bytes();
            Some(entry)
        }
        None => None,
    }
}

/// Puts the names of a directory above one, the least first and no more than so many, into a list that has room for so many.
fn put_names(store: &Store, dir: NodeNo, low: Option<&Name>, most: usize, names: &mut NameRoom)
    requires { IsRoomFor most names.old }
    ensures told { names.new.names ≡ take most (stores.names_above (option_copied low.entry) (names_of (shape store.now dir))) }
    ensures above { stores.names_above (option_copied low.entry) (names_of (shape store.now dir)) ≡ names_above (bytes_above (option_copied low.entry)) (names_of (shape store.now dir)) }
{
    let mut next = first_entry(store, dir, low);
    let mut left = most;
    while let Some(entry) = next {
        if left == 0 {
            return;
        }
        names.push_reserved(entry.0);
        left -= 1;
        next = store.next_entry_after(entry.1);
    }
}

/// Those names, in a list that had room for them and gives back the rest.
fn names(store: &Store, dir: NodeNo, low: Option<&Name>, most: usize, room: NameRoom) -> NameList
    requires { IsRoomFor most room }
    ensures told { result ≡ take most (stores.names_above (option_copied low.entry) (names_of (shape store.now dir))) }
    ensures above { stores.names_above (option_copied low.entry) (names_of (shape store.now dir)) ≡ names_above (bytes_above (option_copied low.entry)) (names_of (shape store.now dir)) }
{
    let mut names = room;
    put_names(store, dir, low, most, &mut names);
    names.into_list()
}

/// All names of the directory, which are no more than a call answers.
pub fn readdir(store: &Store, node: NodeNo, limits: Limits, prepared: Room) -> Replies
    requires room { SufficesFor (seen store.now).in_blocks calls.Readdir prepared }
    ensures { result ≡ (node_row calls.Readdir None (shape store.now node)).0 }
{
    let Room::Lists(one, other) = prepared else {
        unreachable!();
    };
    if let Some(errno) = NodeCall::Readdir.error(limits, sight_of(store, node)) {
        return Replies::failed(errno);
    }
    let names_told = Reply::Names(names(store, node, None, LIST_LIMIT, one));
    Replies::new(
        names_told,
        Reply::Names(names(store, node, None, LIST_LIMIT, other)),
    )
}

/// The names of the directory above the last name of a path, the least first and no more than a count, or than a call answers.
pub fn list(
    store: &Store,
    node: NodeNo,
    after: &Path,
    count: u32,
    limits: Limits,
    prepared: Room,
) -> Replies
    requires room { SufficesFor (seen store.now).in_blocks (calls.ListAfter after.now count) prepared }
    ensures { result ≡ (node_row (calls.ListAfter after.now count) None (shape store.now node)).0 }
{
    let Room::Lists(one, other) = prepared else {
        unreachable!();
    };
    if let Some(errno) = NodeCall::ListAfter(after, count).error(limits, sight_of(store, node)) {
        return Replies::failed(errno);
    }
    let (low, most) = (last_name(after), most_listed(count));
    let names_told = Reply::Names(names(store, node, low, most, one));
    Replies::new(
        names_told,
        Reply::Names(names(store, node, low, most, other)),
    )
}

/// The bytes of the file from an offset on, and no more than a count, or than a read answers.
pub fn read(
    store: &Store,
    node: NodeNo,
    off: u64,
    count: u64,
    limits: Limits,
    prepared: Room,
) -> Replies
    requires room { SufficesFor (seen store.now).in_blocks (calls.Read (read_limit limits) off count) prepared }
    ensures { result ≡ (node_row (calls.Read (read_limit limits) off count) None (shape store.now node)).0 }
{
    let Room::Copies(one, other) = prepared else {
        unreachable!();
    };
    if let Some(errno) = NodeCall::Read(off, count).error(limits, sight_of(store, node)) {
        return Replies::failed(errno);
    }
    let asked = one.read(store, node, off, count.min(limits.read() as u64));
    let again = other.copy_of(asked.as_slice());
    Replies::new(Reply::Bytes(asked), Reply::Bytes(again))
}
