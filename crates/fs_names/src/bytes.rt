//! The bytes of files.

ghost use Rattle.std.specs.Prelude.{◌≡◌, ◌≢◌, IfOk, OnOk, OnErr};
ghost use Rattle.fs_names.specs.Names.{same_bytes};

use fs_memory::Memory;
use std::alloc::AllocError;
use std::marker::Model;

/// Bytes, seen as their list: those of a file, or those that a call writes or a reply holds.
#[derive(Debug, Drop)]
pub struct Bytes {
    items: Vec<u8>,
}

impl Model for Bytes {
    ghost use Rattle.std.specs.Prelude.{ℕ, List};

    ghost Value = { List ℕ };

    ghost view = { λ b. b.items.items };
}

impl Bytes {
    /// The bytes of a vector, which is kept and not copied.
    pub fn new(items: Vec<u8>) -> Bytes
        ensures { result ≡ items.items }
    {
        Self { items }
    }

    /// The bytes, in order.
    pub fn as_slice(&self) -> &[u8]
        ensures { result.now ≡ self.now }
    {
        self.items.as_slice()
    }

    /// Takes these bytes, and hands the old ones out.
    pub fn swap(&mut self, items: Vec<u8>) -> Vec<u8>
        ensures new { self.new ≡ items.items }
        ensures old { result.items ≡ self.old }
    {
        std::mem::replace(&mut self.items, items)
    }

    /// Gives the vector back.
    pub fn into_vec(self) -> Vec<u8>
        ensures { result.items ≡ self }
    {
        let Bytes { items } = self;
        items
    }

    /// Whether the other bytes are the same.
    pub fn same(&self, other: &Bytes) -> bool
        ensures { result ≡ same_bytes self.now other.now }
    {
        self.items == other.items
    }

    /// The same bytes again.
    pub fn copy(&self) -> Result<Bytes, AllocError>
        ensures { IfOk result (λ bytes. bytes ≡ self.now) }
    {
        self.copy_counted(&mut Memory::new())
    }

    /// The same, and a refusal is counted.
    pub fn copy_counted(&self, memory: &mut Memory) -> Result<Bytes, AllocError>
        ensures ok { IfOk result (λ bytes. bytes ≡ self.now) }
        ensures granted { OnOk result (memory.new ≡ memory.old) }
        ensures refused { OnErr result (memory.new ≢ memory.old) }
    {
        let items = memory.copy_of(&self.items)?;
        Ok(Bytes { items })
    }
}
