//! A block of a file.

ghost use Rattle.std.specs.Prelude.{◌≡◌, ◌≢◌, ◌≤◌, ◌<◌, ◌+◌, [], length, take, IfOk, OnOk, OnErr, vec_capacity};
ghost use Rattle.fs_calls.specs.Rows.{written, resized};

use crate::piece::{Piece, Shared};
use crate::rooms::Rooms;
use crate::sizes::BLOCK;
use fs_calls::ranges::put;
use fs_memory::Memory;
use std::alloc::{AllocError, Global};
use std::marker::Model;
use std::mem;
use std::sync::Arc;

/// Vectors with room for a block each.
pub type Buffers = Rooms<u8, BLOCK>;

/// Where the bytes of a block are.
#[derive(Drop)]
enum Form {
    /// It has none.
    Hole,
    /// In a vector of its own.
    Own(Vec<u8>),
    /// In a vector that others share, and that is never changed.
    Shared(Shared),
}

/// The bytes of a block, at most `BLOCK`, seen as their list.
#[derive(Drop)]
pub struct Block {
    form: Form,
}

impl Model for Block {
    ghost use Rattle.std.specs.Prelude.{ℕ, List, length, ◌≤◌};
    ghost use Rattle.fs_blocks.specs.declared.sizes.TheConstants.{BLOCK};

    ghost Value = { List ℕ };

    ghost use Rattle.fs_blocks.specs.code.Blocks.{bytes_in};

    ghost view = { λ b. bytes_in b.form };

    ghost invariant = { λ b. length (bytes_in b.form) ≤ BLOCK };
}

/// The bytes of a vector, in one that has room for so many: their own, or else a buffer.
fn with_room(own: Vec<u8>, len: usize, buffers: &mut Buffers) -> Vec<u8>
    requires own { length own.items ≤ BLOCK }
    requires most { len ≤ BLOCK }
    requires buffer { 0 < buffers.old }
    ensures bytes { result.items ≡ own.items }
    ensures room { len ≤ vec_capacity result }
    ensures buffers { buffers.old ≤ buffers.new + 1 }
{
    if len <= own.capacity() {
        return own;
    }
    copied(own.as_slice(), buffers)
}

/// The bytes again, in a buffer.
fn copied(bytes: &[u8], buffers: &mut Buffers) -> Vec<u8>
    requires most { length bytes.now ≤ BLOCK }
    requires buffer { 0 < buffers.old }
    ensures bytes { result.items ≡ bytes.now }
    ensures room { BLOCK ≤ vec_capacity result }
    ensures buffers { buffers.old ≤ buffers.new + 1 }
{
    let mut copy = buffers.take();
    let _room_was_made = copy.extend_from_slice(bytes);
    copy
}

/// Puts bytes over those of a vector from an offset on, and adds those that are more after them; a gap is filled with
/// zeros.
fn put_over(content: &mut Vec<u8>, off: usize, bytes: &[u8])
    requires room { off + length bytes.now ≤ vec_capacity content.old }
    ensures { content.new.items ≡ written content.old.items off bytes.now }
{
    if off + bytes.len() <= content.len() {
        put(content, off, bytes);
        return;
    }
    let _room_was_made = content.resize(off, 0);
    let _room_was_made = content.extend_from_slice(bytes);
}

impl Block {
    /// A block without bytes.
    pub fn hole() -> Block
        ensures { result ≡ [] }
    {
        Block { form: Form::Hole }
    }

    /// The bytes, in order.
    pub fn as_slice(&self) -> &[u8]
        ensures bytes { result.now ≡ self.now }
        ensures most { length self.now ≤ BLOCK }
    {
        match &self.form {
            Form::Hole => &[],
            Form::Own(own) => own.as_slice(),
            Form::Shared(shared) => shared.as_slice(),
        }
    }

    /// The bytes, taken out into a vector of the block's own that has room for so many.
    fn taken_out(&mut self, len: usize, buffers: &mut Buffers) -> Vec<u8>
        requires most { len ≤ BLOCK }
        requires buffer { 0 < buffers.old }
        ensures block { self.new ≡ [] }
        ensures bytes { result.items ≡ self.old }
        ensures most { length self.old ≤ BLOCK }
        ensures room { len ≤ vec_capacity result }
        ensures buffers { buffers.old ≤ buffers.new + 1 }
    {
        match mem::replace(&mut self.form, Form::Hole) {
            Form::Hole => buffers.take(),
            Form::Own(own) => with_room(own, len, buffers),
            Form::Shared(shared) => match shared.into_vec() {
                Ok(own) => with_room(own, len, buffers),
                Err(shared) => copied(shared.as_slice(), buffers),
            },
        }
    }

    /// Puts bytes over those from an offset on; a gap is filled with zeros. Bytes that are shared stay as they are. The
    /// block shares the new ones, if they may be shared, it begins with them, and nothing is left after them.
    pub fn write(&mut self, off: usize, bytes: Piece<'_>, buffers: &mut Buffers)
        requires most { off + length bytes ≤ BLOCK }
        requires buffer { 0 < buffers.old }
        ensures bytes { self.new ≡ written self.old off bytes.entry }
        ensures buffers { buffers.old ≤ buffers.new + 1 }
    {
        if off == 0 && self.as_slice().len() <= bytes.len() {
            if let Some(shared) = bytes.shared() {
                self.form = Form::Shared(shared);
                return;
            }
        }
        let mut own = self.taken_out(off + bytes.len(), buffers);
        put_over(&mut own, off, bytes.as_slice());
        self.form = Form::Own(own);
    }

    /// Leaves no more than the first so many bytes.
    pub fn cut(&mut self, size: usize, buffers: &mut Buffers)
        requires { 0 < buffers.old }
        ensures bytes { self.new ≡ take size self.old }
        ensures buffers { buffers.old ≤ buffers.new + 1 }
    {
        if self.as_slice().len() <= size {
            return;
        }
        if size == 0 {
            self.form = Form::Hole;
            return;
        }
        let mut own = self.taken_out(0, buffers);
        own.truncate(size);
        self.form = Form::Own(own);
    }

    /// Leaves no more than the first so many bytes, or adds zeros up to so many.
    pub fn resize(&mut self, size: usize, buffers: &mut Buffers)
        requires most { size ≤ BLOCK }
        requires buffer { 0 < buffers.old }
        ensures { self.new ≡ resized self.old size }
    {
        if size < self.as_slice().len() {
            self.cut(size, buffers);
            return;
        }
        self.write(size, Piece::plain(&[]), buffers);
    }

    /// Lets copies share the bytes, if there is memory for that; they are not copied themselves.
    pub fn share(&mut self, alloc: Global)
        ensures { self.new ≡ self.old }
    {
        self.form = match mem::replace(&mut self.form, Form::Hole) {
            Form::Hole => Form::Hole,
            Form::Own(own) => match Arc::new(alloc, own) {
                Ok(whole) => Form::Shared(Shared::all(whole)),
                Err(refused) => Form::Own(refused.value),
            },
            Form::Shared(shared) => Form::Shared(shared),
        };
    }

    /// The same bytes again, shared if they are already.
    pub fn copy(&self, memory: &mut Memory) -> Result<Block, AllocError>
        ensures ok { IfOk result (λ block. block ≡ self.now) }
        ensures granted { OnOk result (memory.new ≡ memory.old) }
        ensures refused { OnErr result (memory.new ≢ memory.old) }
    {
        let form = match &self.form {
            Form::Hole => Form::Hole,
            Form::Own(own) => Form::Own(memory.copy_of(own)?),
            Form::Shared(shared) => Form::Shared(shared.copy(memory)?),
        };
        Ok(Block { form })
    }
}
