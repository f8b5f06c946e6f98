//! The count of refused requests.

ghost use Rattle.std.specs.Prelude.{◌≡◌, ◌≢◌, ◌+◌, ◌<◌, ◌≤◌, [], IfOk, OnOk, OnErr, vec_len, vec_capacity};
ghost use Rattle.std.specs.Arc.{arc_value};
ghost use Rattle.slab.specs.Slab.{HasRoomFor, slab_len};

use slab::Slab;
use std::alloc::{AllocError, Global};
use std::marker::Model;
use std::sync::Arc;

/// Asks for memory, and counts how often it was refused. In contracts it is this count.
#[derive(Debug, Drop)]
pub struct Memory {
    refusals: u64,
}

impl Model for Memory {
    ghost use Rattle.std.specs.Prelude.{ℕ};

    ghost Value = { ℕ };

    ghost view = { λ m. m.refusals };
}

impl Memory {
    /// Nothing was refused yet.
    pub fn new() -> Memory
        ensures { result ≡ 0 }
    {
        Memory { refusals: 0 }
    }

    /// How often memory was refused; after the greatest number it begins at 0 again.
    pub fn refusals(&self) -> u64
        ensures { result ≡ self.now }
    {
        self.refusals
    }

    /// Hands an answer on, and counts it where it is a refusal.
    #[inline]
    fn counted<T>(&mut self, answer: Result<T, AllocError>) -> Result<T, AllocError>
        ensures answer { result ≡ answer }
        ensures granted { OnOk result (self.new ≡ self.old) }
        ensures refused { OnErr result (self.new ≢ self.old) }
    {
        if answer.is_err() {
            self.refusals = self.refusals.wrapping_add(1);
        }
        answer
    }

    /// Room for so many more items in a list. Where it is refused the list stays as it was, and had less room than that.
    #[inline]
    pub fn reserve<T>(&mut self, list: &mut Vec<T>, count: usize) -> Result<(), AllocError>
        ensures items { list.new.items ≡ list.old.items }
        ensures len { vec_len list.new ≡ vec_len list.old }
        ensures ok { OnOk result (vec_len list.new + count ≤ vec_capacity list.new) }
        ensures capacity { vec_capacity list.old ≤ vec_capacity list.new }
        ensures full { OnErr result (vec_capacity list.old < vec_len list.old + count) }
        ensures granted { OnOk result (self.new ≡ self.old) }
        ensures refused { OnErr result (self.new ≢ self.old) }
    {
        self.counted(list.reserve(count))
    }

    /// An empty list with room for so many items. Room for none is never refused.
    #[inline]
    pub fn with_room<T>(&mut self, alloc: Global, count: usize) -> Result<Vec<T>, AllocError>
        ensures items { IfOk result (λ list. list.items ≡ []) }
        ensures room { IfOk result (λ list. count ≤ vec_capacity list) }
        ensures some { OnErr result (0 < count) }
        ensures granted { OnOk result (self.new ≡ self.old) }
        ensures refused { OnErr result (self.new ≢ self.old) }
    {
        self.counted(Vec::with_capacity(alloc, count))
    }

    /// The same bytes again.
    #[inline]
    pub fn copy_of(&mut self, bytes: &Vec<u8>) -> Result<Vec<u8>, AllocError>
        ensures copy { IfOk result (λ copy. copy.items ≡ bytes.now.items) }
        ensures granted { OnOk result (self.new ≡ self.old) }
        ensures refused { OnErr result (self.new ≢ self.old) }
    {
        self.counted(bytes.clone())
    }

    /// One more owner of what is shared. It takes no memory, and is refused where there are as many owners as can be counted.
    #[inline]
    pub fn share<T>(&mut self, shared: &Arc<T>) -> Result<Arc<T>, AllocError>
        ensures value { IfOk result (λ owner. arc_value owner ≡ arc_value shared.now) }
        ensures granted { OnOk result (self.new ≡ self.old) }
        ensures refused { OnErr result (self.new ≢ self.old) }
    {
        self.counted(Arc::try_clone(shared))
    }

    /// The value in memory of its own.
    #[inline]
    pub fn boxed<T: Drop>(&mut self, alloc: Global, value: T) -> Result<Box<T>, AllocError>
        ensures value { IfOk result (λ boxed. boxed.value ≡ value) }
        ensures granted { OnOk result (self.new ≡ self.old) }
        ensures refused { OnErr result (self.new ≢ self.old) }
    {
        self.counted(Box::new(alloc, value).map_err(|_| AllocError))
    }

    /// Room for so many more values in a slab. Where it is refused the slab had less room than that.
    #[inline]
    pub fn reserve_keys<T>(&mut self, slab: &mut Slab<T>, count: usize) -> Result<(), AllocError>
        ensures ok { OnOk result (HasRoomFor slab.new count) }
        ensures rest { slab.new ≡ record slab.old { capacity = slab.new.capacity } }
        ensures capacity { slab.old.capacity ≤ slab.new.capacity }
        ensures full { OnErr result (slab.old.capacity < slab_len slab.old + count) }
        ensures granted { OnOk result (self.new ≡ self.old) }
        ensures refused { OnErr result (self.new ≢ self.old) }
    {
        self.counted(slab.reserve(count))
    }

    /// The same value again, by its own `clone`.
    #[inline]
    pub fn clone_of<T: Clone>(&mut self, value: &T) -> Result<T, AllocError>
        ensures copy { IfOk result (λ copy. T.is_clone value.now copy) }
        ensures granted { OnOk result (self.new ≡ self.old) }
        ensures refused { OnErr result (self.new ≢ self.old) }
    {
        self.counted(value.clone())
    }
}
