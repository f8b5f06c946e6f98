//! What is at a path, and which commit last changed that.

ghost use Rattle.std.specs.Prelude.{◌≡◌, ◌↔◌, ℕ, List, IfOk, IsTrue, length, if◌then◌else◌};
ghost use Rattle.fs_calls.specs.Outcomes.{reply_at};
ghost use Rattle.fs_calls.specs.Tree.{File, IsTree, look};
ghost use Rattle.fs_trace_replay.specs.Changes.{IsLastChange};
ghost use Rattle.fs_trace_replay.specs.code.Seen.{calls_in};
ghost use Rattle.fs_trace_replay.specs.code.Sights.{StandsAt, bytes_in, kind_in, node_in};

use fs_calls::{Bytes, Call, Reply};
use fs_names::{Kind, Path};
use fs_seq::SeqTree;
use std::alloc::{AllocError, Global};

/// What is at a path.
#[derive(Drop)]
enum Sight {
    Nothing,
    Dir,
    File(Bytes),
}

impl Sight {
    /// Whether the other one is the same.
    fn same(&self, other: &Sight) -> bool
        ensures { IsTrue result ↔ (node_in self.now ≡ node_in other.now) }
    {
        match (self, other) {
            (Sight::Nothing, Sight::Nothing) => true,
            (Sight::Dir, Sight::Dir) => true,
            (Sight::File(bytes), Sight::File(others)) => bytes.same(others),
            _ => false,
        }
    }
}

/// The reply of a stat.
fn stat_at(alloc: Global, tree: &SeqTree, path: &Path) -> Result<Reply, AllocError>
    ensures { IfOk result (λ r. r ≡ reply_at tree.now (Call.Stat path.now)) }
{
    let call = Call::Stat(path.copy()?);
    tree.look(alloc, &call)
}

/// The reply of a read.
fn read_at(
    alloc: Global,
    tree: &SeqTree,
    path: &Path,
    off: u64,
    count: u64,
) -> Result<Reply, AllocError>
    ensures { IfOk result (λ r. r ≡ reply_at tree.now (Call.Read path.now off count)) }
{
    let call = Call::Read(path.copy()?, off, count);
    tree.look(alloc, &call)
}

/// The kind of a node and its size, by the reply of a stat.
fn kind_in(reply: &Reply) -> Option<(Kind, u64)>
    ensures { result ≡ kind_in reply.now }
{
    match reply {
        Reply::Stat(kind, size) => Some((*kind, *size)),
        _ => None,
    }
}

/// The bytes of a file, by the reply of a read.
fn bytes_in(alloc: Global, reply: Reply) -> Bytes
    ensures { result ≡ bytes_in reply }
{
    match reply {
        Reply::Bytes(bytes) => bytes,
        _ => Bytes::new(Vec::new(alloc)),
    }
}

/// The kind and the size of what is at a path.
fn kind_at(alloc: Global, tree: &SeqTree, path: &Path) -> Result<Option<(Kind, u64)>, AllocError>
    requires { IsTree tree.now.tree }
    ensures { IfOk result (StandsAt tree.now.tree path.now) }
{
    let reply = stat_at(alloc, tree, path)?;
    Ok(kind_in(&reply))
}

/// The bytes of a file of this size at a path, as many at a time as a read answers.
fn bytes_at(alloc: Global, tree: &SeqTree, path: &Path, size: u64) -> Result<Bytes, AllocError>
    requires { IsTree tree.now.tree }
    ensures { (bytes : List ℕ) → look tree.now.tree path.now ≡ Some (File bytes) → length bytes ≡ size → IfOk result (λ copy. copy ≡ bytes) }
{
    let most = tree.limits().read() as u64;
    let mut bytes = Vec::new(alloc);
    let mut off = 0;
    while off < size {
        let count = most.min(size - off);
        let piece = bytes_in(alloc, read_at(alloc, tree, path, off, count)?);
        bytes.extend_from_slice(piece.as_slice())?;
        off += count;
    }
    Ok(Bytes::new(bytes))
}

/// What is at a path.
fn sight_at(alloc: Global, tree: &SeqTree, path: &Path) -> Result<Sight, AllocError>
    requires { IsTree tree.now.tree }
    ensures { IfOk result (λ sight. node_in sight ≡ look tree.now.tree path.now) }
{
    match kind_at(alloc, tree, path)? {
        None => Ok(Sight::Nothing),
        Some((Kind::Dir, _)) => Ok(Sight::Dir),
        Some((Kind::File, size)) => Ok(Sight::File(bytes_at(alloc, tree, path, size)?)),
    }
}

/// The last change, where the call with this place leaves the same or another.
fn latest(same: bool, place: usize, last: Option<usize>) -> Option<usize>
    ensures { result ≡ (if same then last else Some place) }
{
    if same { last } else { Some(place) }
}

/// The last of the calls that changes what is at a path, counted from 1.
pub(crate) fn last_change(
    alloc: Global,
    start: SeqTree,
    calls: &[&Call],
    path: &Path,
) -> Result<Option<usize>, AllocError>
    requires { IsTree start.tree }
    ensures { IfOk result (IsLastChange start (calls_in calls.now) path.now (length calls.now)) }
{
    let mut tree = start;
    let mut sight = sight_at(alloc, &tree, path)?;
    let mut last = None;
    for (index, call) in calls.iter().enumerate() {
        let _reply = tree.apply(alloc, call)?;
        let now = sight_at(alloc, &tree, path)?;
        last = latest(now.same(&sight), index + 1, last);
        sight = now;
    }
    Ok(last)
}
