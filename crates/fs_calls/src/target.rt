//! What a call looks at: a node, an entry of a directory, or two entries; and by these, a call made again and two calls
//! compared.

ghost use Rattle.std.specs.Prelude.{◌≡◌, ◌≢◌, ◌↔◌, IfOk, OnOk, OnErr, IsTrue};
ghost use Rattle.fs_names.specs.declared.limits.Limits.{Limits};
ghost use Rattle.fs_names.specs.declared.limits.Limits.TheVariants.{V1};
ghost use Rattle.fs_calls.specs.Forms.{form, by_text};
ghost use Rattle.fs_calls.specs.Forms as forms;
ghost use Rattle.fs_calls.specs.code.Targets.{form_of, node_call, entry_call, pair_call};

use crate::call::Call;
use crate::errno::Errno;
use fs_memory::Memory;
use fs_names::{Data, Path};
use std::alloc::{AllocError, Global};

/// What is done to an entry.
#[derive(Clone, Copy, Debug, PartialEq, Eq)]
pub enum EntryCall {
    /// A directory is made.
    Mkdir,
    /// A file is made.
    Mknod,
    /// The entry of a file goes.
    Unlink,
    /// The entry of an empty directory goes.
    Rmdir,
}

/// What is done to two entries.
#[derive(Clone, Copy, Debug, PartialEq, Eq)]
pub enum PairCall {
    /// The first one's node moves to the second.
    Rename,
    /// Their nodes change places.
    Exchange,
}

/// What is done to a node.
#[derive(Clone, Copy, Drop)]
pub enum NodeCall<'a> {
    /// Its kind and size are asked for.
    Stat,
    /// Its names are asked for.
    Readdir,
    /// Its names above a path's last name are asked for, no more than a count.
    ListAfter(&'a Path, u32),
    /// Bytes from an offset on are asked for, no more than a count.
    Read(u64, u64),
    /// Bytes are written at an offset.
    Write(u64, &'a Data),
    /// It is cut to a size, or made as long.
    Truncate(u64),
}

/// What a call looks at, and what it does there.
#[derive(Clone, Copy, Drop)]
pub enum Target<'a> {
    /// A node, at this path.
    Node(NodeCall<'a>, &'a Path),
    /// An entry, at this path.
    Entry(EntryCall, &'a Path),
    /// Two entries, at these paths.
    Pair(PairCall, &'a Path, &'a Path),
}

/// The call that does this to a node.
fn on_node(memory: &mut Memory, node: NodeCall<'_>, path: Path) -> Result<Call, AllocError>
    ensures ok { IfOk result (λ call. form V1 call ≡ forms.AtNode (node_call V1 node.entry) path) }
    ensures granted { OnOk result (memory.new ≡ memory.old) }
    ensures refused { OnErr result (memory.new ≢ memory.old) }
{
    match node {
        NodeCall::Stat => Ok(Call::Stat(path)),
        NodeCall::Readdir => Ok(Call::Readdir(path)),
        NodeCall::ListAfter(after, count) => Ok(Call::ListAfter(
            count,
            path,
            after.copy_counted(memory)?,
        )),
        NodeCall::Read(offset, count) => Ok(Call::Read(path, offset, count)),
        NodeCall::Write(offset, bytes) => Ok(Call::Write(
            path,
            offset,
            bytes.copy_counted(memory)?,
        )),
        NodeCall::Truncate(size) => Ok(Call::Truncate(path, size)),
    }
}

/// The call that does this to an entry.
fn on_entry(entry: EntryCall, path: Path) -> Call
    ensures { form V1 result ≡ forms.AtEntry (entry_call V1 entry) path }
{
    match entry {
        EntryCall::Mkdir => Call::Mkdir(path),
        EntryCall::Mknod => Call::Mknod(path),
        EntryCall::Unlink => Call::Unlink(path),
        EntryCall::Rmdir => Call::Rmdir(path),
    }
}

/// The call that does this to two entries.
fn on_pair(pair: PairCall, from: Path, to: Path) -> Call
    ensures { form V1 result ≡ forms.AtPair (pair_call V1 pair) from to }
{
    match pair {
        PairCall::Rename => Call::Rename(from, to),
        PairCall::Exchange => Call::Exchange(from, to),
    }
}

/// Whether the paths are one.
#[tactic(auto, using(crate::proofs::KeyLemmas::same_path))]
fn same_path(one: &Path, other: &Path) -> bool
    ensures { IsTrue result ↔ one.now ≡ other.now }
{
    one.same(other)
}

/// Whether the bytes are the same.
fn same_bytes(one: &Data, other: &Data) -> bool
    ensures { IsTrue result ↔ one.now ≡ other.now }
{
    one.same(other)
}

/// Whether the same is done to a node.
fn same_node(one: NodeCall<'_>, other: NodeCall<'_>) -> bool
    ensures { IsTrue result ↔ node_call V1 one.entry ≡ node_call V1 other.entry }
{
    match one {
        NodeCall::Stat => matches!(other, NodeCall::Stat),
        NodeCall::Readdir => matches!(other, NodeCall::Readdir),
        NodeCall::ListAfter(after, count) => {
            matches!(other, NodeCall::ListAfter(behind, most) if same_path(after, behind) && most == count)
        }
        NodeCall::Read(offset, count) => {
            matches!(other, NodeCall::Read(from, most) if from == offset && most == count)
        }
        NodeCall::Write(offset, bytes) => {
            matches!(other, NodeCall::Write(from, more) if from == offset && same_bytes(bytes, more))
        }
        NodeCall::Truncate(size) => matches!(other, NodeCall::Truncate(to) if to == size),
    }
}

/// Whether the same is done to an entry.
#[tactic(auto, using(crate::proofs::FormLemmas::same_entry_call))]
fn same_entry(one: EntryCall, other: EntryCall) -> bool
    ensures { IsTrue result ↔ entry_call V1 one ≡ entry_call V1 other }
{
    one == other
}

/// Whether the same is done to two entries.
#[tactic(auto, using(crate::proofs::FormLemmas::same_pair_call))]
fn same_pair(one: PairCall, other: PairCall) -> bool
    ensures { IsTrue result ↔ pair_call V1 one ≡ pair_call V1 other }
{
    one == other
}

/// Whether what is looked at, and what is done there, are the same.
fn same_target(one: Target<'_>, other: Target<'_>) -> bool
    ensures { IsTrue result ↔ form_of V1 one.entry ≡ form_of V1 other.entry }
{
    match (one, other) {
        (Target::Node(node, path), Target::Node(other_node, other_path)) => {
            same_node(node, other_node) && same_path(path, other_path)
        }
        (Target::Entry(entry, path), Target::Entry(other_entry, other_path)) => {
            same_entry(entry, other_entry) && same_path(path, other_path)
        }
        (Target::Pair(pair, from, to), Target::Pair(other_pair, other_from, other_to)) => {
            same_pair(pair, other_pair) && same_path(from, other_from) && same_path(to, other_to)
        }
        (Target::Node(_, _) | Target::Entry(_, _) | Target::Pair(_, _, _), _) => false,
    }
}

impl Call {
    /// What it looks at.
    pub fn target(&self) -> Target<'_>
        ensures each { (limits : Limits) → form_of limits result ≡ form limits self.now }
        ensures by_text { form_of V1 result ≡ form V1 self.now }
    {
        match self {
            Call::Mkdir(path) => Target::Entry(EntryCall::Mkdir, path),
            Call::Mknod(path) => Target::Entry(EntryCall::Mknod, path),
            Call::Unlink(path) => Target::Entry(EntryCall::Unlink, path),
            Call::Rmdir(path) => Target::Entry(EntryCall::Rmdir, path),
            Call::Rename(from, to) => Target::Pair(PairCall::Rename, from, to),
            Call::Exchange(one, other) => Target::Pair(PairCall::Exchange, one, other),
            Call::Stat(path) => Target::Node(NodeCall::Stat, path),
            Call::Readdir(path) => Target::Node(NodeCall::Readdir, path),
            Call::ListAfter(count, path, after) => {
                Target::Node(NodeCall::ListAfter(after, *count), path)
            }
            Call::Read(path, off, count) => Target::Node(NodeCall::Read(*off, *count), path),
            Call::Write(path, off, bytes) => Target::Node(NodeCall::Write(*off, bytes), path),
            Call::Truncate(path, size) => Target::Node(NodeCall::Truncate(*size), path),
        }
    }

    /// The same call again, which shares its paths and the bytes that it writes. It takes no memory.
    pub fn copy(&self, _alloc: Global) -> Result<Call, AllocError>
        ensures { IfOk result (λ call. call ≡ self.now) }
    {
        self.copy_counted(&mut Memory::new())
    }

    /// The same, and a refusal is counted.
    #[tactic(auto, using(crate::proofs::FormLemmas::same_call))]
    pub fn copy_counted(&self, memory: &mut Memory) -> Result<Call, AllocError>
        ensures ok { IfOk result (λ call. call ≡ self.now) }
        ensures granted { OnOk result (memory.new ≡ memory.old) }
        ensures refused { OnErr result (memory.new ≢ memory.old) }
    {
        match self.target() {
            Target::Node(node, path) => {
                let path = path.copy_counted(memory)?;
                on_node(memory, node, path)
            }
            Target::Entry(entry, path) => Ok(on_entry(entry, path.copy_counted(memory)?)),
            Target::Pair(pair, from, to) => {
                let from = from.copy_counted(memory)?;
                Ok(on_pair(pair, from, to.copy_counted(memory)?))
            }
        }
    }

    /// Whether the other call is the same.
    #[tactic(auto, using(crate::proofs::FormLemmas::same_call))]
    pub fn same(&self, other: &Call) -> bool
        ensures { IsTrue result ↔ self.now ≡ other.now }
    {
        same_target(self.target(), other.target())
    }
}
