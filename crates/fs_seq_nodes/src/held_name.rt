//! Names of entries, apart from the entries.

ghost use Rattle.std.specs.Prelude.{◌≡◌, ◌≢◌, IfOk, OnOk, OnErr};
ghost use Rattle.std.specs.Ordering.{is_lt};
ghost use Rattle.fs_names.specs.Names.{name_cmp};

use fs_memory::Memory;
use fs_names::Name;
use std::alloc::{AllocError, Global};
use std::cmp::Ordering;
use std::marker::Model;

/// The name of an entry, in memory of its own: the entries of a directory are shifted when one comes or goes, and a name is
/// four times as large as what is left of an entry without it.
#[derive(Drop)]
pub struct HeldName {
    name: Box<Name>,
}

impl Model for HeldName {
    ghost use Rattle.fs_names.specs.Names.{Name};

    ghost Value = { Name };

    ghost view = { λ n. n.name.value };
}

impl HeldName {
    /// The same name, held.
    pub fn new(alloc: Global, memory: &mut Memory, name: &Name) -> Result<HeldName, AllocError>
        ensures held { IfOk result (λ held. held ≡ name.now) }
        ensures granted { OnOk result (memory.new ≡ memory.old) }
        ensures refused { OnErr result (memory.new ≢ memory.old) }
    {
        let copy = name.copy_counted(memory)?;
        let name = memory.boxed(alloc, copy)?;
        Ok(HeldName { name })
    }

    /// The name.
    pub fn name(&self) -> &Name
        ensures { result.now ≡ self.now }
    {
        &self.name
    }

    /// Holds another name from now on, in the same memory.
    pub fn set(&mut self, name: Name)
        ensures { self.new ≡ name }
    {
        *self.name = name;
    }

    /// How it compares with a name in byte order.
    pub fn cmp(&self, name: &Name) -> Ordering
        ensures { result ≡ name_cmp self.now name.now }
    {
        self.name().cmp(name)
    }

    /// Whether it is above these bytes in byte order, as each name is above no bytes.
    pub fn is_above(&self, bytes: &[u8]) -> bool
        ensures { result ≡ is_lt (name_cmp bytes.now self.now) }
    {
        self.name().is_above(bytes)
    }
}

impl Clone for HeldName {
    ghost is_clone = { λ name copy. copy ≡ name };

    fn clone(&self) -> Result<HeldName, AllocError> {
        HeldName::new(*Box::allocator(&self.name), &mut Memory::new(), self.name())
    }
}
