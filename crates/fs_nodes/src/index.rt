//! An index of all entries by their keys: slots, beside the lists of siblings.
//!
//! An entry is at home in the slot that its hash says. It is in one of the `WINDOW` slots from there on, or in none.
//! Each slot keeps as a home how far the entries at home there reach: none of them is further on. If some of them have
//! no slot, the reach is by so many more than `WINDOW`. So what is not within reach is not there, unless the reach says
//! that it may be. A removal leaves nothing but a free slot and a reach that goes back.
//!
//! `put`, `remove` and `seek` promise what they do to every list of keys that the slots are an index of (`IsIndex`);
//! the store's invariant says which list that is.

ghost use Rattle.std.specs.Prelude.{◌≡◌, ◌≢◌, ℕ, ◌+◌, ◌-◌, ◌*◌, ◌<◌, ◌≤◌, [], ◌∷◌, List, Option, Some, None, IfOk, OnOk, OnErr, IfSome, MatchOption, length, slice_set};
ghost use Rattle.fs_names.specs.declared.limits.TheConstants.{NODE_LIMIT};
ghost use Rattle.fs_nodes_places.specs.Plains.{plains};
ghost use Rattle.fs_nodes_places.specs.code.Keys.{keys_of};
ghost use Rattle.fs_nodes.specs.code.Linked.{IsPlaces};
ghost use Rattle.fs_nodes.specs.code.Indexes.{free_slot, slot_at, key_at, home_of, reaching, holding, freeing, IsTable, IsIndex, IsSome, HasEntry, IsFreeIn, IsHeldIn, IsFound};

use fs_memory::Memory;
use fs_nodes_places::place::key_of_place;
use fs_nodes_places::{Key, Place, Spot};
use std::alloc::{AllocError, Global};

/// In how many slots from its home on an entry may be.
const WINDOW: usize = 16;

/// How many homes there are at first.
const LEAST: usize = 16;

/// An entry's directory, hash and node. Where there is no node, the slot is free, and directory and hash say nothing. And what
/// it keeps as a home: how far the entries at home here reach, or, above `WINDOW`, how many of them have no slot.
#[derive(Clone, Copy, Debug)]
pub struct Slot {
    dir: u32,
    hash: u32,
    node: Spot,
    reach: u32,
}

/// What the slots say of a key.
pub enum Found {
    /// This entry has the key.
    Node(usize),
    /// No entry has it.
    Nothing,
    /// An entry without a slot may have it.
    Open,
}

/// A slot that is free, and that no entry reaches.
fn free_slot() -> Slot
    ensures { result ≡ free_slot }
{
    Slot {
        dir: 0,
        hash: 0,
        node: Spot::none(),
        reach: 0,
    }
}

/// So many homes, and the slots after the last one, all free.
fn free_slots(alloc: Global, memory: &mut Memory, homes: usize) -> Result<Vec<Slot>, AllocError>
    requires some { 0 < homes }
    requires most { homes ≤ 4 * NODE_LIMIT }
    ensures ok { IfOk result (λ slots. IsIndex slots.items []) }
    ensures granted { OnOk result (memory.new ≡ memory.old) }
    ensures refused { OnErr result (memory.new ≢ memory.old) }
{
    let count = homes + WINDOW;
    let mut slots = memory.with_room(alloc, count)?;
    let _room_was_made = slots.resize(count, free_slot());
    Ok(slots)
}

/// The slots of a store without entries.
pub fn first_slots(alloc: Global) -> Result<Vec<Slot>, AllocError>
    ensures { IfOk result (λ slots. IsIndex slots.items (None ∷ [])) }
{
    let slots = free_slots(alloc, &mut Memory::new(), LEAST)?;
    Ok(slots)
}

/// The home of a hash.
fn home_of(slots: &[Slot], hash: u32) -> usize
    requires { IsTable slots.now }
    ensures home { result ≡ home_of (length slots.now - WINDOW) hash }
    ensures within { result + WINDOW < length slots.now }
{
    hash as usize & (slots.len() - WINDOW - 1)
}

/// What the slots within reach say of a key.
#[inline(always)]
pub fn seek(slots: &[Slot], key: Key) -> Found
    requires { IsTable slots.now }
    ensures { (keys : List (Option Key)) → IsIndex slots.now keys → IsFound keys key result }
{
    let home = home_of(slots, key.hash);
    let reach = slots[home].reach as usize;
    for at in home..home + reach.min(WINDOW) {
        let slot = slots[at];
        if slot.hash == key.hash && slot.dir as usize == key.dir {
            if let Some(node) = slot.node.get() {
                return Found::Node(node);
            }
        }
    }
    if reach > WINDOW {
        Found::Open
    } else {
        Found::Nothing
    }
}

/// The first free slot from a home on, if an entry at home there may be in one.
fn free_from(slots: &[Slot], home: usize) -> Option<usize>
    requires slots { IsTable slots.now }
    requires home { home + WINDOW ≤ length slots.now }
    ensures { IfSome result (IsFreeIn slots.now home) }
{
    for at in home..home + WINDOW {
        if slots[at].node == Spot::none() {
            return Some(at);
        }
    }
    None
}

/// A home has another reach.
fn set_reach(slots: &mut [Slot], home: usize, reach: usize)
    requires slots { IsTable slots.old }
    requires home { home < length slots.old }
    requires reach { reach ≤ 2 * NODE_LIMIT }
    ensures { slots.new ≡ reaching home reach slots.old }
{
    let slot = &mut slots[home];
    slot.reach = reach as u32;
}

/// A free slot is that of an entry.
fn fill(slots: &mut [Slot], at: usize, key: Key, node: usize)
    requires slots { IsTable slots.old }
    requires at { at < length slots.old }
    requires dir { key.dir < NODE_LIMIT }
    requires node { node < NODE_LIMIT }
    ensures { slots.new ≡ holding at key node slots.old }
{
    let slot = &mut slots[at];
    slot.dir = key.dir as u32;
    slot.hash = key.hash;
    slot.node = Spot::at(node);
}

/// One entry more: it gets the first free slot from its home on, if there is one.
pub fn put(slots: &mut [Slot], key: Key, node: usize)
    requires slots { IsSome slots.old }
    requires dir { key.dir < NODE_LIMIT }
    requires node { node < NODE_LIMIT }
    ensures { (keys : List (Option Key)) → IsIndex slots.old keys → key_at keys node ≡ None → node < length keys → IsIndex slots.new (slice_set keys node (Some key)) }
{
    let home = home_of(slots, key.hash);
    let reach = slots[home].reach as usize;
    match free_from(slots, home) {
        Some(at) => {
            set_reach(slots, home, reach.max(at - home + 1));
            fill(slots, at, key, node);
        }
        None => set_reach(slots, home, reach.max(WINDOW) + 1),
    }
}

/// The slot of an entry at home here, if it has one.
fn slot_of(slots: &[Slot], home: usize, node: usize) -> Option<usize>
    requires slots { IsTable slots.now }
    requires home { home + WINDOW ≤ length slots.now }
    requires node { node < NODE_LIMIT }
    ensures { MatchOption result ((k : ℕ) → IsHeldIn slots.now home node k → ⊥) (IsHeldIn slots.now home node) }
{
    let spot = Spot::at(node);
    for at in home..home + WINDOW {
        if slots[at].node == spot {
            return Some(at);
        }
    }
    None
}

/// How far the entries at home here reach, which is no further than this.
fn reach_within(slots: &[Slot], home: usize, most: usize) -> usize
    requires slots { IsTable slots.now }
    requires home { home + WINDOW ≤ length slots.now }
    requires most { most ≤ WINDOW }
    ensures within { result ≤ most }
    ensures rest { (k n : ℕ) → home + result ≤ k → k < home + most → (slot_at slots.now k).node ≡ Some n → home_of (length slots.now - WINDOW) (slot_at slots.now k).hash ≡ home → ⊥ }
{
    let mut reach = most;
    while reach > 0 {
        let slot = slots[home + reach - 1];
        if slot.node != Spot::none() && home_of(slots, slot.hash) == home {
            break;
        }
        reach -= 1;
    }
    reach
}

/// A slot is free.
fn empty(slots: &mut [Slot], at: usize)
    requires slots { IsTable slots.old }
    requires at { at < length slots.old }
    ensures { slots.new ≡ freeing at slots.old }
{
    let slot = &mut slots[at];
    slot.node = Spot::none();
}

/// One entry less: its slot is free, if it had one.
pub fn remove(slots: &mut [Slot], key: Key, node: usize)
    requires entry { HasEntry slots.old key node }
    requires node { node < NODE_LIMIT }
    ensures { (keys : List (Option Key)) → IsIndex slots.old keys → key_at keys node ≡ Some key → IsIndex slots.new (slice_set keys node None) }
{
    let home = home_of(slots, key.hash);
    let reach = slots[home].reach as usize;
    match slot_of(slots, home, node) {
        Some(at) => {
            empty(slots, at);
            if reach <= WINDOW {
                set_reach(slots, home, reach_within(slots, home, reach));
            }
        }
        None => set_reach(slots, home, reach - 1),
    }
}

/// The entries of all places are put into free slots.
fn put_all(slots: &mut [Slot], places: &[Place])
    requires slots { IsIndex slots.old [] }
    requires places { IsPlaces places.now }
    ensures { IsIndex slots.new (keys_of (plains places.now)) }
{
    for node in 0..places.len() {
        let place = &places[node];
        if let Some(key) = key_of_place(place) {
            put(slots, key, node);
        }
    }
}

/// Twice as many homes, where they are not twice as many as the places. After an error the slots are as before.
pub fn widen(memory: &mut Memory, slots: &mut Vec<Slot>, places: &[Place]) -> Result<(), AllocError>
    requires slots { IsIndex slots.old.items (keys_of (plains places.now)) }
    requires places { IsPlaces places.now }
    ensures slots { IsIndex slots.new.items (keys_of (plains places.now)) }
    ensures granted { OnOk result (memory.new ≡ memory.old) }
    ensures refused { OnErr result (memory.new ≢ memory.old) }
{
    let homes = slots.len() - WINDOW;
    if homes > places.len() * 2 {
        return Ok(());
    }
    let mut wide = free_slots(*slots.allocator(), memory, homes * 2)?;
    put_all(&mut wide, places);
    *slots = wide;
    Ok(())
}
