//! How the calls that change the bytes of a file finish at their node.

ghost use Rattle.std.specs.Prelude.{◌≡◌, ◌≤◌, ◌<◌, ◌+◌, ℕ, List, [], None, length, IsTrue, IsFalse, vec_capacity};
ghost use Rattle.fs_names.specs.Shapes.{bytes_of, is_file};
ghost use Rattle.fs_names.specs.Limits.{file_limit};
ghost use Rattle.fs_nodes.specs.Graphs.{content_in};
ghost use Rattle.fs_nodes.specs.Seen.{seen};
ghost use Rattle.fs_nodes.specs.Stores.{shape, graph_of};
ghost use Rattle.fs_calls.specs.Forms as calls;
ghost use Rattle.fs_calls.specs.Rows.{node_row, written, resized};
ghost use Rattle.fs_ops_effects.specs.Replies.{refilled};
ghost use Rattle.fs_ops_effects.specs.Rooms.{SufficesFor, FitsChange};
ghost use Rattle.fs_blocks.specs.Spares.{FitsWrite, FitsSize};

use crate::replies::Replies;
use crate::room::{ByteRoom, Room};
use crate::sights::sight_of;
use fs_calls::ranges::put;
use fs_calls::{Data, NodeCall, Reply};
use fs_names::Limits;
use fs_nodes::{NodeNo, Store};

/// The bytes of a vector, in one that has room for so many: their own, or else the buffer. Where they become more, their own
/// is kept only if half of its room is used then: a file that was longer once does not hold on to that room as it grows again.
fn with_room(bytes: Vec<u8>, len: usize, buffer: Vec<u8>) -> Vec<u8>
    requires empty { buffer.items ≡ [] }
    requires room { len ≤ vec_capacity buffer }
    ensures bytes { result.items ≡ bytes.items }
    ensures room { len ≤ vec_capacity result }
{
    let own_room = bytes.capacity();
    if len <= bytes.len() || (len <= own_room && own_room / 2 <= len) {
        return bytes;
    }
    let mut new = buffer;
    let _room_was_made = new.extend_from_slice(&bytes);
    new
}

/// The bytes of a file, taken out into a vector that has room for so many.
fn taken_out(store: &mut Store, file: NodeNo, len: usize, buffer: ByteRoom) -> Vec<u8>
    requires file { IsTrue (is_file (shape store.old file)) }
    requires form { IsFalse (seen store.old).in_blocks }
    requires room { len ≤ buffer }
    ensures bytes { result.items ≡ bytes_of (shape store.old file) }
    ensures room { len ≤ vec_capacity result }
    ensures file { IsTrue (is_file (shape store.new file)) }
    ensures graph { (bytes : List ℕ) → content_in file bytes (graph_of store.new) ≡ content_in file bytes (graph_of store.old) }
    ensures rest { seen store.new ≡ record (seen store.old) { graph = graph_of store.new } }
{
    // A store lends its bytes for reading alone. So those of a file are taken out against none, changed in the vector that they
    // are in if it has the room, and swapped back by the caller: they are copied only where the file outgrows its vector.
    let buffer = buffer.into_vec();
    let none = Vec::new(*buffer.allocator());
    with_room(store.swap_content(file, none), len, buffer)
}

/// Puts bytes over those of a vector from an offset on, and adds those that are more after them; a gap is filled with
/// zeros.
fn put_over(content: &mut Vec<u8>, off: usize, bytes: &[u8])
    requires room { off + length bytes.now ≤ vec_capacity content.old }
    ensures { content.new.items ≡ written content.old.items off bytes.now }
{
    if off + bytes.len() <= content.len() {
        put(content, off, bytes);
        return;
    }
    let _room_was_made = content.resize(off, 0);
    let _room_was_made = content.extend_from_slice(bytes);
}

/// Puts bytes over those of a file from an offset on; a gap is filled with zeros.
fn put_into(store: &mut Store, file: NodeNo, off: usize, bytes: &[u8], buffer: ByteRoom)
    requires file { IsTrue (is_file (shape store.old file)) }
    requires form { IsFalse (seen store.old).in_blocks }
    requires room { off + length bytes.now ≤ buffer }
    ensures { seen store.new ≡ record (seen store.old) { graph = content_in file (written (bytes_of (shape store.old file)) off bytes.now) (graph_of store.old) } }
{
    let mut content = taken_out(store, file, off + bytes.len(), buffer);
    put_over(&mut content, off, bytes);
    store.swap_content(file, content);
}

/// Cuts the bytes of a file to a size, or adds zeros up to it.
fn resize(store: &mut Store, file: NodeNo, size: usize, buffer: ByteRoom)
    requires file { IsTrue (is_file (shape store.old file)) }
    requires form { IsFalse (seen store.old).in_blocks }
    requires room { size ≤ buffer }
    ensures { seen store.new ≡ record (seen store.old) { graph = content_in file (resized (bytes_of (shape store.old file)) size) (graph_of store.old) } }
{
    let mut content = taken_out(store, file, size, buffer);
    let _room_was_made = content.resize(size, 0);
    store.swap_content(file, content);
}

/// Writes bytes, at least one, into a file that can be so long, in the room that was made. A whole block shares them.
fn write_into(store: &mut Store, file: NodeNo, off: usize, bytes: &Data, most: usize, room: Room)
    requires file { IsTrue (is_file (shape store.old file)) }
    requires some { 0 < length bytes.now }
    requires within { off + length bytes.now ≤ most }
    requires room { FitsChange (seen store.old).in_blocks most (off + length bytes.now) (FitsWrite off (length bytes.now)) room }
    ensures { seen store.new ≡ record (seen store.old) { graph = content_in file (written (bytes_of (shape store.old file)) off bytes.now) (graph_of store.old) } }
{
    match room {
        Room::Content(buffer) => put_into(store, file, off, bytes.as_slice(), buffer),
        Room::Blocks(spare) => store.take(file, off, bytes.shared(), Box::into_inner(spare)),
        _ => unreachable!(),
    }
}

/// The same of a size.
fn resize_to(store: &mut Store, file: NodeNo, size: usize, most: usize, room: Room)
    requires file { IsTrue (is_file (shape store.old file)) }
    requires within { size ≤ most }
    requires room { FitsChange (seen store.old).in_blocks most size (FitsSize size) room }
    ensures { seen store.new ≡ record (seen store.old) { graph = content_in file (resized (bytes_of (shape store.old file)) size) (graph_of store.old) } }
{
    match room {
        Room::Content(buffer) => resize(store, file, size, buffer),
        Room::Blocks(spare) => store.resize(file, size, Box::into_inner(spare)),
        _ => unreachable!(),
    }
}

/// Writes bytes into the file, which keeps these limits.
#[tactic(auto, using(fs_names::proofs::LimitLemmas::small_files))]
pub fn write(
    store: &mut Store,
    node: NodeNo,
    off: u64,
    bytes: &Data,
    limits: Limits,
    prepared: Room,
) -> Replies
    requires room { SufficesFor (seen store.old).in_blocks (calls.Write (file_limit limits) off bytes.now) prepared }
    ensures reply { result ≡ (node_row (calls.Write (file_limit limits) off bytes.now) None (shape store.old node)).0 }
    ensures change { seen store.new ≡ record (seen store.old) { graph = refilled node (node_row (calls.Write (file_limit limits) off bytes.now) None (shape store.old node)).1 (graph_of store.old) } }
{
    if let Some(errno) = NodeCall::Write(off, bytes).error(limits, sight_of(store, node)) {
        return Replies::failed(errno);
    }
    let count = bytes.as_slice().len() as u64;
    if count > 0 {
        write_into(store, node, off as usize, bytes, limits.file(), prepared);
    }
    Replies::new(Reply::Wrote(count), Reply::Wrote(count))
}

/// Cuts the file to a size, or adds zeros up to it; it keeps these limits.
#[tactic(auto, using(fs_names::proofs::LimitLemmas::small_files))]
pub fn truncate(
    store: &mut Store,
    node: NodeNo,
    size: u64,
    limits: Limits,
    prepared: Room,
) -> Replies
    requires room { SufficesFor (seen store.old).in_blocks (calls.Truncate (file_limit limits) size) prepared }
    ensures reply { result ≡ (node_row (calls.Truncate (file_limit limits) size) None (shape store.old node)).0 }
    ensures change { seen store.new ≡ record (seen store.old) { graph = refilled node (node_row (calls.Truncate (file_limit limits) size) None (shape store.old node)).1 (graph_of store.old) } }
{
    if let Some(errno) = NodeCall::Truncate(size).error(limits, sight_of(store, node)) {
        return Replies::failed(errno);
    }
    resize_to(store, node, size as usize, limits.file(), prepared);
    Replies::done()
}
