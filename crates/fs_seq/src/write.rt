//! The calls that change the bytes of a file.

ghost use Rattle.std.specs.Prelude.{◌≡◌, ◌≢◌, ◌<◌, ◌+◌, ◌++◌, ◌-◌, ◌^◌, replicate, IfOk, OnOk, OnErr, IsTrue, length, nat_lt, None, Some, ◌&&◌, ◌||◌};
ghost use Rattle.fs_names.specs.Limits.{file_limit, in_blocks};
ghost use Rattle.fs_calls.specs.Rows.{node_fault, written, resized};
ghost use Rattle.fs_calls.specs.Sights.{has_any, bytes_of};
ghost use Rattle.fs_calls.specs.Forms as calls;
ghost use Rattle.fs_seq.specs.Memory.{needs_memory};
ghost use Rattle.fs_seq_nodes.specs.code.Nodes.{graph, place};
ghost use Rattle.fs_seq_nodes.specs.code.Slots.{IsForest, HasForm, HaveForm, shape_of, tree_of};
ghost use Rattle.fs_seq.specs.code.Effects.{AnswersWithin, Rewrites, written_if_any};

use fs_blocks::{File, Spare};
use fs_calls::ranges::put;
use fs_calls::{Call, Data, NodeCall, Reply};
use fs_memory::Memory;
use fs_names::{Limits, Path};
use fs_seq_nodes::Node;
use fs_seq_nodes::nodes::resolve;
use slab::Slab;
use std::alloc::{AllocError, Global};

/// Adds zeros up to a length, where there are fewer bytes.
fn grow(memory: &mut Memory, bytes: &mut Vec<u8>, len: usize) -> Result<(), AllocError>
    ensures ok { OnOk result (bytes.new.items ≡ bytes.old.items ++ replicate (len - length bytes.old.items) 0) }
    ensures err { OnErr result (bytes.new.items ≡ bytes.old.items) }
    ensures memory { OnErr result (length bytes.old.items < len) }
    ensures granted { OnOk result (memory.new ≡ memory.old) }
    ensures refused { OnErr result (memory.new ≢ memory.old) }
{
    if bytes.len() < len {
        memory.reserve(bytes, len - bytes.len())?;
        let _room_was_made = bytes.resize(len, 0);
    }
    Ok(())
}

/// Puts bytes over those from an offset on, where the file may grow; a gap is filled with zeros.
fn overwrite(
    memory: &mut Memory,
    old: &mut Vec<u8>,
    off: usize,
    bytes: &[u8],
) -> Result<(), AllocError>
    requires { off + length bytes.now < 2 ^ 64 }
    ensures ok { OnOk result (old.new.items ≡ written old.old.items off bytes.now) }
    ensures err { OnErr result (old.new.items ≡ old.old.items) }
    ensures memory { OnErr result (length old.old.items < off + length bytes.now) }
    ensures granted { OnOk result (memory.new ≡ memory.old) }
    ensures refused { OnErr result (memory.new ≢ memory.old) }
{
    grow(memory, old, off + bytes.len())?;
    put(old, off, bytes);
    Ok(())
}

/// Puts bytes over those of a file in blocks. A whole block may be the very bytes of the call, and copies share what was written.
fn write_blocks(
    alloc: Global,
    memory: &mut Memory,
    old: &mut File,
    off: usize,
    bytes: &Data,
) -> Result<(), AllocError>
    requires form { IsTrue old.old.in_blocks }
    requires some { 0 < length bytes.now }
    requires fits { off + length bytes.now < 2 ^ 63 }
    ensures ok { OnOk result (old.new ≡ record old.old { bytes = written old.old.bytes off bytes.now }) }
    ensures err { OnErr result (old.new ≡ old.old) }
    ensures granted { OnOk result (memory.new ≡ memory.old) }
    ensures refused { OnErr result (memory.new ≢ memory.old) }
{
    let count = bytes.as_slice().len();
    let spare = Spare::for_write(alloc, memory, off, count)?;
    old.take(off, bytes.shared(), spare);
    old.share(alloc, off, count);
    Ok(())
}

/// Writes bytes into a file, if there are any.
fn fill(
    alloc: Global,
    memory: &mut Memory,
    old: &mut File,
    off: u64,
    bytes: &Data,
) -> Result<(), AllocError>
    requires { IsTrue (has_any bytes.now) → off + length bytes.now < 2 ^ 63 }
    ensures ok { OnOk result (old.new ≡ record old.old { bytes = written_if_any old.old.bytes off bytes.now }) }
    ensures err { OnErr result (old.new ≡ old.old) }
    ensures memory { OnErr result (IsTrue (has_any bytes.now && (old.old.in_blocks || nat_lt (length old.old.bytes) (off + length bytes.now)))) }
    ensures granted { OnOk result (memory.new ≡ memory.old) }
    ensures refused { OnErr result (memory.new ≢ memory.old) }
{
    if bytes.as_slice().is_empty() {
        return Ok(());
    }
    match old.vector_mut() {
        Some(own) => overwrite(memory, own, off as usize, bytes.as_slice()),
        None => write_blocks(alloc, memory, old, off as usize, bytes),
    }
}

/// Writes bytes into a node's, unless the row has an error.
#[tactic(auto, using(fs_names::proofs::LimitLemmas::small_files))]
fn write_node(
    alloc: Global,
    memory: &mut Memory,
    node: &mut Node,
    off: u64,
    bytes: &Data,
    limits: Limits,
) -> Result<Reply, AllocError>
    requires { HasForm (in_blocks limits) (Some (place node.old)) }
    ensures given { IfOk result (Rewrites (place node.old) (place node.new) (calls.Write (file_limit limits) off bytes.now)) }
    ensures err { OnErr result (place node.new ≡ place node.old) }
    ensures memory { OnErr result ((node_fault (calls.Write (file_limit limits) off bytes.now) None (shape_of (Some (place node.old))) ≡ None) × IsTrue (has_any bytes.now && (in_blocks limits || nat_lt (length (bytes_of (shape_of (Some (place node.old))))) (off + length bytes.now)))) }
    ensures granted { OnOk result (memory.new ≡ memory.old) }
    ensures refused { OnErr result (memory.new ≢ memory.old) }
{
    if let Some(errno) = NodeCall::Write(off, bytes).error(limits, node.sight()) {
        return Ok(Reply::Failed(errno));
    }
    if let Node::File(old) = node {
        fill(alloc, memory, old, off, bytes)?;
    }
    Ok(Reply::Wrote(bytes.as_slice().len() as u64))
}

/// Cuts the bytes of a file in one vector to a size, or adds zeros up to it.
fn resize_vector(memory: &mut Memory, bytes: &mut Vec<u8>, size: usize) -> Result<(), AllocError>
    ensures ok { OnOk result (bytes.new.items ≡ resized bytes.old.items size) }
    ensures err { OnErr result (bytes.new.items ≡ bytes.old.items) }
    ensures memory { OnErr result (length bytes.old.items < size) }
    ensures granted { OnOk result (memory.new ≡ memory.old) }
    ensures refused { OnErr result (memory.new ≢ memory.old) }
{
    grow(memory, bytes, size)?;
    bytes.truncate(size);
    Ok(())
}

/// The same of a file in blocks. Copies share the block in which it ends then.
fn resize_blocks(
    alloc: Global,
    memory: &mut Memory,
    file: &mut File,
    size: usize,
) -> Result<(), AllocError>
    requires form { IsTrue file.old.in_blocks }
    requires fits { size < 2 ^ 32 }
    ensures ok { OnOk result (file.new ≡ record file.old { bytes = resized file.old.bytes size }) }
    ensures err { OnErr result (file.new ≡ file.old) }
    ensures granted { OnOk result (memory.new ≡ memory.old) }
    ensures refused { OnErr result (memory.new ≢ memory.old) }
{
    let spare = Spare::for_size(alloc, memory, size)?;
    file.resize(size, spare);
    file.share(alloc, size, 1);
    Ok(())
}

/// Cuts a file to a size, or adds zeros up to it.
fn resize(alloc: Global, memory: &mut Memory, file: &mut File, size: u64) -> Result<(), AllocError>
    requires { size < 2 ^ 32 }
    ensures ok { OnOk result (file.new ≡ record file.old { bytes = resized file.old.bytes size }) }
    ensures err { OnErr result (file.new ≡ file.old) }
    ensures memory { OnErr result (IsTrue (file.old.in_blocks || nat_lt (length file.old.bytes) size)) }
    ensures granted { OnOk result (memory.new ≡ memory.old) }
    ensures refused { OnErr result (memory.new ≢ memory.old) }
{
    match file.vector_mut() {
        Some(own) => resize_vector(memory, own, size as usize),
        None => resize_blocks(alloc, memory, file, size as usize),
    }
}

/// Cuts a node's bytes to a size, or adds zeros up to it, unless the row has an error.
#[tactic(auto, using(fs_names::proofs::LimitLemmas::small_files))]
fn truncate_node(
    alloc: Global,
    memory: &mut Memory,
    node: &mut Node,
    size: u64,
    limits: Limits,
) -> Result<Reply, AllocError>
    requires { HasForm (in_blocks limits) (Some (place node.old)) }
    ensures given { IfOk result (Rewrites (place node.old) (place node.new) (calls.Truncate (file_limit limits) size)) }
    ensures err { OnErr result (place node.new ≡ place node.old) }
    ensures memory { OnErr result ((node_fault (calls.Truncate (file_limit limits) size) None (shape_of (Some (place node.old))) ≡ None) × IsTrue (in_blocks limits || nat_lt (length (bytes_of (shape_of (Some (place node.old))))) size)) }
    ensures granted { OnOk result (memory.new ≡ memory.old) }
    ensures refused { OnErr result (memory.new ≢ memory.old) }
{
    if let Some(errno) = NodeCall::Truncate(size).error(limits, node.sight()) {
        return Ok(Reply::Failed(errno));
    }
    if let Node::File(file) = node {
        resize(alloc, memory, file, size)?;
    }
    Ok(Reply::Done)
}

/// Writes bytes into the file at the path, by these limits.
pub fn write(
    alloc: Global,
    memory: &mut Memory,
    nodes: &mut Slab<Node>,
    path: &Path,
    off: u64,
    bytes: &Data,
    limits: Limits,
) -> Result<Reply, AllocError>
    requires forest { IsForest (graph nodes.old) }
    requires form { HaveForm (in_blocks limits) (graph nodes.old) }
    ensures given { IfOk result (AnswersWithin limits (graph nodes.old) (graph nodes.new) (Call.Write path.now off bytes.now)) }
    ensures err { OnErr result (graph nodes.new ≡ graph nodes.old) }
    ensures memory { OnErr result (IsTrue (needs_memory limits (tree_of (graph nodes.old)) (Call.Write path.now off bytes.now))) }
    ensures granted { OnOk result (memory.new ≡ memory.old) }
    ensures refused { OnErr result (memory.new ≢ memory.old) }
{
    match resolve(nodes, path, path.len()) {
        Err(errno) => Ok(Reply::Failed(errno)),
        Ok(at) => write_node(alloc, memory, &mut nodes[at], off, bytes, limits),
    }
}

/// Cuts the file at the path to a size, or adds zeros up to it, by these limits.
pub fn truncate(
    alloc: Global,
    memory: &mut Memory,
    nodes: &mut Slab<Node>,
    path: &Path,
    size: u64,
    limits: Limits,
) -> Result<Reply, AllocError>
    requires forest { IsForest (graph nodes.old) }
    requires form { HaveForm (in_blocks limits) (graph nodes.old) }
    ensures given { IfOk result (AnswersWithin limits (graph nodes.old) (graph nodes.new) (Call.Truncate path.now size)) }
    ensures err { OnErr result (graph nodes.new ≡ graph nodes.old) }
    ensures memory { OnErr result (IsTrue (needs_memory limits (tree_of (graph nodes.old)) (Call.Truncate path.now size))) }
    ensures granted { OnOk result (memory.new ≡ memory.old) }
    ensures refused { OnErr result (memory.new ≢ memory.old) }
{
    match resolve(nodes, path, path.len()) {
        Err(errno) => Ok(Reply::Failed(errno)),
        Ok(at) => truncate_node(alloc, memory, &mut nodes[at], size, limits),
    }
}
