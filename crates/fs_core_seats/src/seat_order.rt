//! The seats in an order in which those with a pending call come first.

ghost use Rattle.std.specs.Prelude.{◌≡◌, ◌≢◌, ℕ, ◌+◌, ◌<◌, ◌≤◌, ◌⊎◌, ◌++◌, ◌∷◌, [], length, slice_index, OnOk, OnErr};
ghost use Rattle.fs_core_seats.specs.code.Orders.{AreOrdered, IsAmong, IsListed};

use fs_memory::Memory;
use std::alloc::{AllocError, Global};

/// Each seat once, those with a pending call first, so that whoever looks for a call skips the seats of ended sessions.
#[derive(Drop)]
pub struct SeatOrder {
    /// The seats in this order.
    pub seats: Vec<usize>,
    /// Where each seat is in it.
    pub places: Vec<usize>,
    /// How many come first.
    pub count: usize,
    ghost ordered: { AreOrdered seats.items places.items },
    ghost within: { count ≤ length seats.items },
}

/// A seat comes to a place, and the one that was there comes to where the seat was.
fn move_to(seats: &mut [usize], places: &mut [usize], seat: usize, place: usize)
    requires ordered { AreOrdered seats.old places.old }
    requires seat { seat < length places.old }
    requires place { place < length seats.old }
    ensures ordered { AreOrdered seats.new places.new }
    ensures seat { slice_index places.new seat ≡ place }
    ensures others { (s : ℕ) → s < length places.old → (s ≡ seat → ⊥) → (slice_index places.new s ≡ slice_index places.old s) ⊎ ((slice_index places.old s ≡ place) × (slice_index places.new s ≡ slice_index places.old seat)) }
{
    let from = places[seat];
    let other = seats[place];
    seats[from] = other;
    seats[place] = seat;
    places[other] = from;
    places[seat] = place;
}

impl SeatOrder {
    /// Without seats.
    pub fn new(alloc: Global) -> SeatOrder
        ensures places { result.places.items ≡ [] }
    {
        SeatOrder {
            seats: Vec::new(alloc),
            places: Vec::new(alloc),
            count: 0,
        }
    }

    /// One more seat, the last. Out of memory the order stays.
    pub fn add(&mut self, memory: &mut Memory) -> Result<(), AllocError>
        ensures ok { OnOk result (self.new.places.items ≡ self.old.places.items ++ length self.old.places.items ∷ []) }
        ensures err { OnErr result (self.new.places.items ≡ self.old.places.items) }
        ensures count { self.new.count ≡ self.old.count }
        ensures granted { OnOk result (memory.new ≡ memory.old) }
        ensures refused { OnErr result (memory.new ≢ memory.old) }
    {
        let SeatOrder { seats, places, .. } = self;
        let seat = places.len();
        memory.reserve(seats, 1)?;
        memory.reserve(places, 1)?;
        places.push_reserved(seat);
        seats.push_reserved(seat);
        Ok(())
    }

    /// A seat comes among the first, where it is not yet.
    pub fn enter(&mut self, seat: usize)
        requires { seat < length self.old.places.items }
        ensures places { length self.new.places.items ≡ length self.old.places.items }
        ensures seat { IsAmong self.new.places.items self.new.count seat }
        ensures others { (s : ℕ) → s < length self.old.places.items → IsAmong self.old.places.items self.old.count s → IsAmong self.new.places.items self.new.count s }
    {
        let SeatOrder {
            seats,
            places,
            count,
        } = self;
        if places[seat] >= *count {
            move_to(seats, places, seat, *count);
            *count += 1;
        }
    }

    /// A seat leaves the first ones, if it is among them.
    pub fn leave(&mut self, seat: usize)
        requires { seat < length self.old.places.items }
        ensures places { length self.new.places.items ≡ length self.old.places.items }
        ensures others { (s : ℕ) → s < length self.old.places.items → (s ≡ seat → ⊥) → IsAmong self.old.places.items self.old.count s → IsAmong self.new.places.items self.new.count s }
    {
        let SeatOrder {
            seats,
            places,
            count,
        } = self;
        if places[seat] < *count {
            *count -= 1;
            move_to(seats, places, seat, *count);
        }
    }

    /// The seats that come first.
    pub fn first(&self) -> &[usize]
        ensures inside { (i : ℕ) → i < length result.now → slice_index result.now i < length self.now.places.items }
        ensures each { (s : ℕ) → s < length self.now.places.items → IsAmong self.now.places.items self.now.count s → IsListed result.now s }
    {
        &self.seats[..self.count]
    }
}
