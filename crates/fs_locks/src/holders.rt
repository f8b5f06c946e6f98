//! Which call holds which node.

ghost use Rattle.std.specs.Prelude.{◌≡◌, ◌≢◌, ◌<◌, ◌↔◌, max, IsOk, IsSome, IfErr, OnOk, OnErr, Some, None};
ghost use Rattle.fs_nodes.specs.Graphs.{set_at};

use crate::word::{CALL_LIMIT, HolderWord};
use fs_memory::Memory;
use fs_names::CallNo;
use fs_nodes::NodeNo;
use std::alloc::{AllocError, Global};
use std::marker::Model;

/// The call that holds a node which another call would take.
#[derive(Clone, Copy, Debug, PartialEq, Eq)]
pub struct HeldBy(pub CallNo);

/// The finite map from nodes to the calls that hold them: a node is held by one call at most.
/// Room is made before: the nodes with a number below it can be taken, each by a call with a number below `CALL_LIMIT`.
/// Only `make_room` allocates, one word for each number of a node.
#[derive(Drop)]
pub struct Holders {
    holders: Vec<HolderWord>,
}

impl Model for Holders {
    ghost use Rattle.fs_locks.specs.Holding.{Holding};
    ghost use Rattle.std.specs.Prelude.{ℕ, List, Option};

    ghost Value = { List (Option ℕ) };

    ghost view = { λ h. h.holders.items };
}

fn set(place: &mut HolderWord, holder: HolderWord)
    ensures { place.new ≡ holder }
{
    *place = holder;
}

impl Holders {
    ghost use Rattle.fs_locks.specs.Holding.{holder, room};

    /// No node is held, and there is room for none.
    pub fn new(alloc: Global) -> Holders
        ensures holders { holder result ≡ λ n. None }
        ensures room { room result ≡ 0 }
    {
        Holders {
            holders: Vec::new(alloc),
        }
    }

    /// Makes room for the nodes below `count`. Out of memory nothing changes.
    pub fn make_room(&mut self, count: usize) -> Result<(), AllocError>
        ensures room { OnOk result (room self.new ≡ max (room self.old) count) }
        ensures holders { OnOk result (holder self.new ≡ holder self.old) }
        ensures err { OnErr result (self.new ≡ self.old) }
        ensures full { OnErr result (room self.old < count) }
    {
        self.make_room_counted(&mut Memory::new(), count)
    }

    /// The same, and a refusal is counted.
    pub fn make_room_counted(&mut self, memory: &mut Memory, count: usize) -> Result<(), AllocError>
        ensures room { OnOk result (room self.new ≡ max (room self.old) count) }
        ensures holders { OnOk result (holder self.new ≡ holder self.old) }
        ensures err { OnErr result (self.new ≡ self.old) }
        ensures full { OnErr result (room self.old < count) }
        ensures granted { OnOk result (memory.new ≡ memory.old) }
        ensures refused { OnErr result (memory.new ≢ memory.old) }
    {
        let len = self.holders.len();
        if count > len {
            memory.reserve(&mut self.holders, count - len)?;
            let _room_was_made = self.holders.resize(count, HolderWord::none());
        }
        Ok(())
    }

    /// The call takes the node, unless another call holds it: then nothing changes.
    pub fn take(&mut self, node: NodeNo, call: CallNo) -> Result<(), HeldBy>
        requires within { node < room self.old }
        requires other { holder self.old node ≢ Some call }
        requires call { call < CALL_LIMIT }
        ensures free { IsOk result ↔ (holder self.old node ≡ None) }
        ensures ok { OnOk result (holder self.new ≡ set_at node (Some call) (holder self.old)) }
        ensures held { IfErr result (λ by. holder self.old node ≡ Some by.0) }
        ensures err { OnErr result (self.new ≡ self.old) }
        ensures room { room self.new ≡ room self.old }
    {
        if let Some(holder) = self.holders[node.get()].get() {
            return Err(HeldBy(holder));
        }
        set(&mut self.holders[node.get()], HolderWord::of(call));
        Ok(())
    }

    /// The node is let go.
    pub fn let_go(&mut self, node: NodeNo)
        requires { IsSome (holder self.old node) }
        ensures holders { holder self.new ≡ set_at node None (holder self.old) }
        ensures room { room self.new ≡ room self.old }
    {
        set(&mut self.holders[node.get()], HolderWord::none());
    }

    /// The call that holds the node. Where there is no room for its number, there is none.
    pub fn holder(&self, node: NodeNo) -> Option<CallNo>
        ensures { result ≡ holder self.now node }
    {
        match self.holders.get(node.get()) {
            Some(holder) => holder.get(),
            None => None,
        }
    }

    /// The nodes with a number below it can be taken.
    pub fn room(&self) -> usize
        ensures { result ≡ room self.now }
    {
        self.holders.len()
    }
}
