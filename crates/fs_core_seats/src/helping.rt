//! Whom a call helps that is to finish: among the walking calls below a node that it would move.

ghost use Rattle.std.specs.Prelude.{option_and_then, ◌≡◌, ℕ, ◌<◌, ◌↔◌, ◌⊎◌, IsTrue, IsSome, false, Some, None, length, slice_index};
ghost use Rattle.std.specs.Option.{ForSome};
ghost use Rattle.fs_nodes.specs.Stores.{child};
ghost use Rattle.fs_locks.specs.Holding.{holder};
ghost use Rattle.fs_machine.specs.States.{IsMoved};
ghost use Rattle.fs_core_seats.specs.code.Orders.{AreListed};
ghost use Rattle.fs_core_seats.specs.code.Searches.{position_of, position_on, StandsIf, MeetsIf, IsBelowMoved, IsNearest, IsMet, IsUnmet, IsWay, AreWays, CanSearch, HasLeast, is_lesser};
ghost use Rattle.fs_core_seats.specs.Seats.{number_on};

use crate::seat::{Running, number};
use fs_locks::Holders;
use fs_machine::Moved;
use fs_nodes::{NodeNo, Store};

/// What the way up from the position of a walking call comes to: whether it passes a node that would be moved, and the seat of
/// the nearest other walking call on it.
#[derive(Clone, Copy)]
pub struct Way {
    pub below: bool,
    pub above: Option<usize>,
}

/// The way of a seat on which no call walks.
pub fn no_way() -> Way
    ensures below { result.below ≡ false }
    ensures above { result.above ≡ None }
{
    Way {
        below: false,
        above: None,
    }
}

/// The position of a walking call.
fn position(slot: &Option<Running>) -> Option<NodeNo>
    ensures { result ≡ position_of slot.now }
{
    match slot {
        Some(running) if running.place.is_none() && !running.op.is_finished() => running
            .op
            .position(),
        _ => None,
    }
}

/// Whether the call on a seat walks and is at a node.
fn is_at(seats: &[Option<Running>], seat: usize, node: NodeNo) -> bool
    requires { seat < length seats.now }
    ensures { IsTrue result ↔ (position_on seats.now seat ≡ Some node) }
{
    match position(&seats[seat]) {
        Some(at) => at == node,
        None => false,
    }
}

/// The seat of a walking call at a node, other than the one on a seat.
fn other_at(seats: &[Option<Running>], listed: &[usize], node: NodeNo, seat: usize) -> Option<usize>
    requires { AreListed seats.now listed.now }
    ensures { StandsIf seats.now node seat result }
{
    for i in 0..listed.len() {
        let other = listed[i];
        if other != seat && is_at(seats, other, node) {
            return Some(other);
        }
    }
    None
}

/// Whom a way has met with one node more: the nearest call stays, and the seats are looked at only where the node is held.
fn met_with(
    holders: &Holders,
    seats: &[Option<Running>],
    listed: &[usize],
    node: NodeNo,
    seat: usize,
    met: Option<usize>,
) -> Option<usize>
    requires all { AreListed seats.now listed.now }
    requires held { (j : ℕ) → position_on seats.now j ≡ Some node → IsSome (holder holders.now node) }
    ensures { MeetsIf seats.now node seat met result }
{
    if met.is_some() || holders.holder(node).is_none() {
        return met;
    }
    other_at(seats, listed, node, seat)
}

/// Whether a way passes a node that would be moved, with one node more.
fn passes(moved: &Moved, node: NodeNo, before: bool) -> bool
    ensures { IsTrue result ↔ (IsTrue before ⊎ IsMoved moved.now node) }
{
    before || moved.is(node)
}

/// The way up from the position of the walking call on a seat, to the root.
fn way_from(
    store: &Store,
    holders: &Holders,
    seats: &[Option<Running>],
    listed: &[usize],
    moved: &Moved,
    seat: usize,
    position: NodeNo,
) -> Way
    requires can { CanSearch store.now holders.now seats.now listed.now }
    requires position { position_on seats.now seat ≡ Some position }
    ensures below { IsTrue result.below ↔ IsBelowMoved (child store.now) moved.now position }
    ensures above { IsNearest (child store.now) seats.now seat position result.above }
{
    // The nodes on the way up differ, and each has room for its holder, so the loop reaches the root within that room. The
    // bound only shows that the loop ends: a way is as long as the position is deep.
    let mut above = position;
    let mut met: Option<usize> = None;
    let mut below = false;
    for _step in 0..holders.room() {
        met = met_with(holders, seats, listed, above, seat, met);
        below = passes(moved, above, below);
        match store.parent(above) {
            Some(parent) => above = parent,
            None => {
                return Way { below, above: met };
            }
        }
    }
    no_way()
}

/// The way of a seat.
fn way_of(
    store: &Store,
    holders: &Holders,
    seats: &[Option<Running>],
    listed: &[usize],
    moved: &Moved,
    seat: usize,
) -> Way
    requires can { CanSearch store.now holders.now seats.now listed.now }
    requires seat { seat < length seats.now }
    ensures { IsWay (child store.now) seats.now moved.now seat result }
{
    match position(&seats[seat]) {
        Some(at) => way_from(store, holders, seats, listed, moved, seat, at),
        None => no_way(),
    }
}

/// Finds the way of each listed seat.
fn find_ways(
    store: &Store,
    holders: &Holders,
    seats: &[Option<Running>],
    listed: &[usize],
    ways: &mut [Way],
    moved: &Moved,
)
    requires can { CanSearch store.now holders.now seats.now listed.now }
    requires ways { length ways.old ≡ length seats.now }
    ensures ways { AreWays (child store.now) seats.now moved.now listed.now (length listed.now) ways.new }
    ensures length { length ways.new ≡ length ways.old }
{
    for i in 0..listed.len() {
        let seat = listed[i];
        ways[seat] = way_of(store, holders, seats, listed, moved, seat);
    }
}

/// Whether the call on a seat is the nearest one above that on a listed one.
fn is_met(listed: &[usize], ways: &[Way], seat: usize) -> bool
    requires { (i : ℕ) → i < length listed.now → slice_index listed.now i < length ways.now }
    ensures { IsTrue result ↔ IsMet listed.now ways.now seat }
{
    for i in 0..listed.len() {
        let other = listed[i];
        if ways[other].above == Some(seat) {
            return true;
        }
    }
    false
}

/// Whether the call on a seat has a lesser number than the one on another seat.
fn is_less(seats: &[Option<Running>], seat: usize, other: Option<usize>) -> bool
    requires seat { seat < length seats.now }
    requires other { ForSome other (λ k. k < length seats.now) }
    ensures { result ≡ is_lesser (number_on seats.now seat) (option_and_then (number_on seats.now) other) }
{
    let Some(other) = other else {
        return true;
    };
    match (number(&seats[seat]), number(&seats[other])) {
        (Some(call), Some(other)) => call.get() < other.get(),
        _ => true,
    }
}

/// Whether a seat's way passes a node that would be moved, and no way meets its call.
fn is_lowest(listed: &[usize], ways: &[Way], seat: usize) -> bool
    requires seat { seat < length ways.now }
    requires listed { (i : ℕ) → i < length listed.now → slice_index listed.now i < length ways.now }
    ensures { IsTrue result ↔ IsUnmet listed.now ways.now seat }
{
    ways[seat].below && !is_met(listed, ways, seat)
}

/// The seat of one of the walking calls below a node that would be moved. It is the one with the least number among
/// those that have no other such call below their position. Each seat has a place for its way, whatever is there
/// before. A seat that is not listed has no call.
fn to_help(
    store: &Store,
    holders: &Holders,
    seats: &[Option<Running>],
    listed: &[usize],
    ways: &mut [Way],
    moved: &Moved,
) -> Option<usize>
    requires can { CanSearch store.now holders.now seats.now listed.now }
    requires ways { length ways.old ≡ length seats.now }
    ensures chosen { HasLeast (child store.now) seats.now moved.now (length seats.now) result }
    ensures ways { length ways.new ≡ length ways.old }
{
    // Who is not lowest is the nearest one above some other, so one way up from each position is enough. A help looks, for each
    // listed seat, at the nodes from its position up to the root, at each listed seat where one of these is held, until a walking
    // call is met, and at the way of each of them. Nothing is allocated.
    find_ways(store, holders, seats, listed, ways, moved);
    let mut chosen: Option<usize> = None;
    for i in 0..listed.len() {
        let seat = listed[i];
        if is_lowest(listed, ways, seat) && is_less(seats, seat, chosen) {
            chosen = Some(seat);
        }
    }
    chosen
}

/// The same before a finish, which may move nothing: no seat then.
pub fn to_help_before(
    store: &Store,
    holders: &Holders,
    seats: &[Option<Running>],
    listed: &[usize],
    ways: &mut [Way],
    moved: &Moved,
) -> Option<usize>
    requires can { CanSearch store.now holders.now seats.now listed.now }
    requires ways { length ways.old ≡ length seats.now }
    ensures chosen { HasLeast (child store.now) seats.now moved.now (length seats.now) result }
    ensures ways { length ways.new ≡ length ways.old }
{
    match moved {
        Moved::Nothing => None,
        Moved::One(_) | Moved::Two(_, _) => to_help(store, holders, seats, listed, ways, moved),
    }
}
