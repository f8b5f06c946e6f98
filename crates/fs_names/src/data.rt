//! The bytes that calls write.

ghost use Rattle.std.specs.Prelude.{◌≡◌, ◌≢◌, IfOk, OnOk, OnErr};
ghost use Rattle.std.specs.Arc.{arc_value};
ghost use Rattle.fs_names.specs.Names.{same_bytes};

use fs_memory::Memory;
use std::alloc::{AllocError, Global};
use std::marker::Model;
use std::sync::Arc;

/// The bytes that a call writes, seen as their list. Copies share them: those of a call are in its script, in the
/// record of the call and in the journal, and all are one.
#[derive(Drop)]
pub struct Data {
    bytes: Arc<Vec<u8>>,
}

impl Model for Data {
    ghost use Rattle.std.specs.Prelude.{ℕ, List};
    ghost use Rattle.std.specs.Arc.{arc_value};

    ghost Value = { List ℕ };

    ghost view = { λ d. (arc_value d.bytes).items };
}

impl Data {
    /// The bytes of a vector, which is kept and not copied. Only what counts its owners is allocated.
    pub fn new(bytes: Vec<u8>) -> Result<Data, AllocError>
        ensures { IfOk result (λ d. d ≡ bytes.items) }
    {
        let alloc = *bytes.allocator();
        match Arc::new(alloc, bytes) {
            Ok(bytes) => Ok(Data { bytes }),
            Err(_) => Err(AllocError),
        }
    }

    /// These bytes, copied.
    pub fn from_slice(alloc: Global, bytes: &[u8]) -> Result<Data, AllocError>
        ensures { IfOk result (λ d. d ≡ bytes.now) }
    {
        Data::new(Vec::from_slice(alloc, bytes)?)
    }

    /// The bytes, in order.
    pub fn as_slice(&self) -> &[u8]
        ensures { result.now ≡ self.now }
    {
        self.bytes.as_slice()
    }

    /// The vector that copies share, so that a file can share it too.
    pub fn shared(&self) -> &Arc<Vec<u8>>
        ensures { (arc_value result.now).items ≡ self.now }
    {
        &self.bytes
    }

    /// Whether the other bytes are the same.
    pub fn same(&self, other: &Data) -> bool
        ensures { result ≡ same_bytes self.now other.now }
    {
        self.as_slice() == other.as_slice()
    }

    /// The same bytes again, shared with these. It takes no memory: an `Err` says that they are shared so often that their
    /// owners are no longer counted.
    pub fn copy(&self) -> Result<Data, AllocError>
        ensures { IfOk result (λ d. d ≡ self.now) }
    {
        self.copy_counted(&mut Memory::new())
    }

    /// The same, and a refusal is counted.
    pub fn copy_counted(&self, memory: &mut Memory) -> Result<Data, AllocError>
        ensures ok { IfOk result (λ d. d ≡ self.now) }
        ensures granted { OnOk result (memory.new ≡ memory.old) }
        ensures refused { OnErr result (memory.new ≢ memory.old) }
    {
        let bytes = memory.share(&self.bytes)?;
        Ok(Data { bytes })
    }
}
