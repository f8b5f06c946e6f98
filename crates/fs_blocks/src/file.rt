//! A file.

ghost use Rattle.std.specs.Prelude.{◌≡◌, ◌≢◌, ◌≤◌, ◌<◌, ◌+◌, ◌^◌, ◌++◌, [], true, false, length, take, drop, IsTrue, IsFalse, IfOk, OnOk, OnErr, vec_len, vec_capacity};
ghost use Rattle.std.specs.Arc.{arc_value};
ghost use Rattle.fs_calls.specs.Rows.{written, resized};
ghost use Rattle.fs_blocks.specs.Spares.{FitsWrite, FitsSize};
ghost use Rattle.fs_blocks.specs.code.Forms.{value_of};

use crate::block::Block;
use crate::long::Long;
use crate::piece::Piece;
use crate::sizes::BLOCK;
use crate::spare::Spare;
use fs_calls::ranges::part;
use fs_memory::Memory;
use std::alloc::{AllocError, Global};
use std::marker::Model;
use std::mem;
use std::sync::Arc;

/// Where the bytes of a file are.
#[derive(Drop)]
enum Form {
    /// In one vector.
    Plain(Vec<u8>),
    /// In blocks, and the first one has them all.
    Short(Block),
    /// In blocks.
    Long(Box<Long>),
}

impl Form {
    ghost use Rattle.std.specs.Borrow.{LendsIf, sem};
    ghost use Rattle.std.specs.Prelude.{option_map};
    ghost use Rattle.fs_blocks.specs.contracts.file.Form.{the_row};
    ghost use Rattle.fs_blocks.specs.Vectors.{bytes_row};
    ghost use Rattle.fs_blocks.specs.Files.{vector_of};

    /// The vector, where it is the form of the file.
    fn vector_mut(&mut self) -> Option<&mut Vec<u8>>
        ensures* writes_back { sem 𝓛 (LendsIf the_row bytes_row self.entry result Form.Plain self.old) }
        ensures value { option_map (λ v. v.now.items) result ≡ vector_of (value_of self.old) }
    {
        if let Form::Plain(bytes) = self {
            Some(bytes)
        } else {
            None
        }
    }
}

/// A file, seen as its bytes and whether they are in blocks.
#[derive(Drop)]
pub struct File {
    form: Form,
}

impl Model for File {
    ghost use Rattle.fs_blocks.specs.Files.{FileValue};

    ghost Value = { FileValue };

    ghost use Rattle.fs_blocks.specs.code.Forms.{value_of};

    ghost view = { λ f. value_of f.form };
}

/// The same bytes again. They go over at once, where a clone goes byte by byte.
fn copy_of(bytes: &Vec<u8>, memory: &mut Memory) -> Result<Vec<u8>, AllocError>
    ensures copy { IfOk result (λ copy. copy.items ≡ bytes.now.items) }
    ensures granted { OnOk result (memory.new ≡ memory.old) }
    ensures refused { OnErr result (memory.new ≢ memory.old) }
{
    let mut copy = memory.with_room(*bytes.allocator(), bytes.len())?;
    let _room_was_made = copy.extend_from_slice(bytes);
    Ok(copy)
}

/// A long file of the bytes of a block, in this room.
fn started(alloc: Global, first: Block, room: Box<Long>) -> Box<Long>
    ensures { result.value ≡ first }
{
    let mut long = room;
    *long = Long::of(alloc, first);
    long
}

/// Appends the bytes of a long file from an offset on, and no more than a count.
fn read_long(long: &Long, off: u64, count: u64, into: &mut Vec<u8>)
    requires { vec_len into.old + length (take count (drop off long.now)) ≤ vec_capacity into.old }
    ensures { into.new.items ≡ into.old.items ++ take count (drop off long.now) }
{
    let len = long.len();
    if off >= len as u64 {
        return;
    }
    let off = off as usize;
    let count = count.min((len - off) as u64) as usize;
    long.read(off, count, into);
}

/// The same of bytes that are in one slice.
fn read_slice(bytes: &[u8], off: u64, count: u64, into: &mut Vec<u8>)
    requires { vec_len into.old + length (take count (drop off bytes.now)) ≤ vec_capacity into.old }
    ensures { into.new.items ≡ into.old.items ++ take count (drop off bytes.now) }
{
    let _room_was_made = into.extend_from_slice(part(bytes, off, count));
}

/// Writes into a file that has its bytes in the first block.
fn write_short(first: Block, off: usize, bytes: Piece<'_>, spare: Spare) -> Form
    requires some { 0 < length bytes }
    requires fits { off + length bytes < 2 ^ 63 }
    requires spare { FitsWrite off (length bytes) spare }
    ensures { value_of result ≡ record { bytes = written first off bytes.entry; in_blocks = true } }
{
    let (mut buffers, mut rooms, list, room) = spare.into_parts();
    if off + bytes.len() <= BLOCK {
        let mut first = first;
        first.write(off, bytes, &mut buffers);
        return Form::Short(first);
    }
    let mut long = started(*list.allocator(), first, room.unwrap());
    long.write(off, bytes, list, &mut rooms, &mut buffers);
    Form::Long(long)
}

/// Writes into a long file.
fn write_long(long: Box<Long>, off: usize, bytes: Piece<'_>, spare: Spare) -> Form
    requires fits { off + length bytes < 2 ^ 63 }
    requires spare { FitsWrite off (length bytes) spare }
    ensures { value_of result ≡ record { bytes = written long.value off bytes.entry; in_blocks = true } }
{
    let (mut buffers, mut rooms, list, _) = spare.into_parts();
    let mut long = long;
    long.write(off, bytes, list, &mut rooms, &mut buffers);
    Form::Long(long)
}

/// Cuts a file that has its bytes in the first block to a size, or adds zeros up to it.
fn resize_short(first: Block, size: usize, spare: Spare) -> Form
    requires { FitsSize size spare }
    ensures { value_of result ≡ record { bytes = resized first size; in_blocks = true } }
{
    let (mut buffers, _, list, room) = spare.into_parts();
    if size <= BLOCK {
        let mut first = first;
        first.resize(size, &mut buffers);
        return Form::Short(first);
    }
    let mut long = started(*list.allocator(), first, room.unwrap());
    long.resize(size, &mut buffers);
    Form::Long(long)
}

/// The same of a long file.
fn resize_long(long: Box<Long>, size: usize, spare: Spare) -> Form
    requires { FitsSize size spare }
    ensures { value_of result ≡ record { bytes = resized long.value size; in_blocks = true } }
{
    let (mut buffers, _, _, _) = spare.into_parts();
    let mut long = long;
    long.resize(size, &mut buffers);
    Form::Long(long)
}

impl File {
    ghost use Rattle.std.specs.Borrow.{LendsIf, sem};
    ghost use Rattle.std.specs.Prelude.{option_map};
    ghost use Rattle.fs_blocks.specs.contracts.file.File.{the_row};
    ghost use Rattle.fs_blocks.specs.Vectors.{bytes_row};
    ghost use Rattle.fs_blocks.specs.Files.{vector_of};

    /// A file in one vector, of these bytes.
    pub fn plain(bytes: Vec<u8>) -> File
        ensures { result ≡ record { bytes = bytes.items; in_blocks = false } }
    {
        File {
            form: Form::Plain(bytes),
        }
    }

    /// A file in blocks, without bytes.
    pub fn in_blocks() -> File
        ensures { result ≡ record { bytes = []; in_blocks = true } }
    {
        File {
            form: Form::Short(Block::hole()),
        }
    }

    /// A file without bytes, in blocks or in one vector.
    pub fn empty(alloc: Global, in_blocks: bool) -> File
        ensures { result ≡ record { bytes = []; in_blocks = in_blocks } }
    {
        if in_blocks {
            File::in_blocks()
        } else {
            File::plain(Vec::new(alloc))
        }
    }

    /// Whether its bytes are in blocks.
    pub fn is_in_blocks(&self) -> bool
        ensures { result ≡ self.now.in_blocks }
    {
        match &self.form {
            Form::Plain(_) => false,
            Form::Short(_) | Form::Long(_) => true,
        }
    }

    /// How many bytes it has.
    pub fn len(&self) -> usize
        ensures { result ≡ length self.now.bytes }
    {
        match &self.form {
            Form::Plain(bytes) => bytes.len(),
            Form::Short(first) => first.as_slice().len(),
            Form::Long(long) => long.len(),
        }
    }

    /// The bytes of a file in one vector.
    pub fn as_slice(&self) -> &[u8]
        requires { IsFalse self.now.in_blocks }
        ensures { result.now ≡ self.now.bytes }
    {
        match &self.form {
            Form::Plain(bytes) => bytes.as_slice(),
            _ => unreachable!(),
        }
    }

    /// The vector of a file in one, to be changed where it is; a file in blocks has none.
    pub fn vector_mut(&mut self) -> Option<&mut Vec<u8>>
        ensures* writes_back { sem 𝓛 (LendsIf the_row bytes_row self.entry result (λ v. record { bytes = v.items; in_blocks = false }) self.old) }
        ensures value { option_map (λ v. v.now.items) result ≡ vector_of self.old }
    {
        self.form.vector_mut()
    }

    /// The vector of a file in one.
    pub fn into_vec(self) -> Vec<u8>
        requires { IsFalse self.in_blocks }
        ensures { result.items ≡ self.bytes }
    {
        let File { form } = self;
        match form {
            Form::Plain(bytes) => bytes,
            _ => unreachable!(),
        }
    }

    /// Appends the bytes from an offset on, and no more than a count, to a vector that has room for them.
    pub fn read(&self, off: u64, count: u64, into: &mut Vec<u8>)
        requires { vec_len into.old + length (take count (drop off self.now.bytes)) ≤ vec_capacity into.old }
        ensures { into.new.items ≡ into.old.items ++ take count (drop off self.now.bytes) }
    {
        match &self.form {
            Form::Plain(bytes) => read_slice(bytes.as_slice(), off, count, into),
            Form::Short(first) => read_slice(first.as_slice(), off, count, into),
            Form::Long(long) => read_long(long, off, count, into),
        }
    }

    /// Puts bytes, at least one, over those of a file in blocks from an offset on; a gap reads as zeros.
    pub fn write(&mut self, off: usize, bytes: &[u8], spare: Spare)
        requires form { IsTrue self.old.in_blocks }
        requires some { 0 < length bytes.now }
        requires fits { off + length bytes.now < 2 ^ 63 }
        requires spare { FitsWrite off (length bytes.now) spare }
        ensures { self.new ≡ record self.old { bytes = written self.old.bytes off bytes.now } }
    {
        self.put(off, Piece::plain(bytes), spare);
    }

    /// The same with bytes that others share. A block shares its part of them if that begins the block, leaves nothing
    /// of the block after it, and is at least a sixteenth of all. So it keeps no more than sixteen times its own bytes
    /// alive.
    pub fn take(&mut self, off: usize, bytes: &Arc<Vec<u8>>, spare: Spare)
        requires form { IsTrue self.old.in_blocks }
        requires some { 0 < length (arc_value bytes.now).items }
        requires fits { off + length (arc_value bytes.now).items < 2 ^ 63 }
        requires spare { FitsWrite off (length (arc_value bytes.now).items) spare }
        ensures { self.new ≡ record self.old { bytes = written self.old.bytes off (arc_value bytes.now).items } }
    {
        self.put(off, Piece::owned(bytes), spare);
    }

    /// Puts a piece over the bytes from an offset on.
    fn put(&mut self, off: usize, bytes: Piece<'_>, spare: Spare)
        requires form { IsTrue self.old.in_blocks }
        requires some { 0 < length bytes }
        requires fits { off + length bytes < 2 ^ 63 }
        requires spare { FitsWrite off (length bytes) spare }
        ensures { self.new ≡ record self.old { bytes = written self.old.bytes off bytes.entry } }
    {
        self.form = match mem::replace(&mut self.form, Form::Short(Block::hole())) {
            Form::Plain(_) => unreachable!(),
            Form::Short(first) => write_short(first, off, bytes, spare),
            Form::Long(long) => write_long(long, off, bytes, spare),
        };
    }

    /// Cuts a file in blocks to a size, or lets zeros follow up to it.
    pub fn resize(&mut self, size: usize, spare: Spare)
        requires form { IsTrue self.old.in_blocks }
        requires spare { FitsSize size spare }
        ensures { self.new ≡ record self.old { bytes = resized self.old.bytes size } }
    {
        self.form = match mem::replace(&mut self.form, Form::Short(Block::hole())) {
            Form::Plain(_) => unreachable!(),
            Form::Short(first) => resize_short(first, size, spare),
            Form::Long(long) => resize_long(long, size, spare),
        };
    }

    /// Lets copies share the blocks that so many bytes from an offset on touch, as far as there is memory for that. The bytes
    /// themselves are not copied.
    pub fn share(&mut self, alloc: Global, off: usize, count: usize)
        requires { off + count < 2 ^ 63 }
        ensures { self.new ≡ self.old }
    {
        match &mut self.form {
            Form::Plain(_) => {}
            Form::Short(first) => first.share(alloc),
            Form::Long(long) => long.share(alloc, off, count),
        }
    }

    /// The same file again. Blocks that are shared already get one owner more, and others are copied.
    pub fn copy(&self, memory: &mut Memory) -> Result<File, AllocError>
        ensures ok { IfOk result (λ file. file ≡ self.now) }
        ensures granted { OnOk result (memory.new ≡ memory.old) }
        ensures refused { OnErr result (memory.new ≢ memory.old) }
    {
        let form = match &self.form {
            Form::Plain(bytes) => Form::Plain(copy_of(bytes, memory)?),
            Form::Short(first) => Form::Short(first.copy(memory)?),
            Form::Long(long) => {
                let copy = long.copy(memory)?;
                Form::Long(memory.boxed(*Box::allocator(long), copy)?)
            }
        };
        Ok(File { form })
    }
}

impl Clone for File {
    ghost is_clone = { λ file copy. copy ≡ file };

    fn clone(&self) -> Result<File, AllocError> {
        self.copy(&mut Memory::new())
    }
}
