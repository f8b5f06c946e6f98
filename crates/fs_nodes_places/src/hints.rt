//! A tree beside the entries of a large directory, with which a search begins near its end.
//!
//! Nothing is known of it: each place that it names is checked to be that of an entry of the directory with a lesser
//! name, and a step along it changes nothing else. An entry comes into the tree if its directory has `FEW` others, so
//! at most so many are not in it, and a search passes no more of these. The tree is a treap: an entry of greater
//! priority is above, and its priority is the number of its node, mixed.

ghost use Rattle.std.specs.Prelude.{◌≡◌, ◌≤◌, ◌<◌, length};
ghost use Rattle.fs_names.specs.Heads.{IsHead};
ghost use Rattle.fs_nodes_places.specs.declared.hints.TheConstants.{MOST};
ghost use Rattle.fs_nodes_places.specs.code.Hints.{bared};

use crate::place::Place;
use crate::spot::Spot;
use fs_names::{NODE_LIMIT, Name};
use std::cmp::Ordering;

/// How many entries a directory has before there is a tree.
const FEW: u32 = 32;

/// More steps than a way along a tree takes, unless names are made against it. A longer way is left there.
pub const MOST: usize = 128;

/// A way of a place.
#[derive(Clone, Copy)]
enum Way {
    Root,
    Left,
    Right,
}

/// The priority of a node's entry.
#[inline(always)]
fn priority(node: usize) -> u32 {
    let word = (node & 0xffff_ffff) as u32;
    let word = (word ^ word >> 16).wrapping_mul(0x7feb_352d);
    let word = (word ^ word >> 15).wrapping_mul(0x846c_a68b);
    word ^ word >> 16
}

/// Whether the entry of a place has a lesser name.
#[inline(always)]
fn is_below(place: &Place, first: u64, name: &Name) -> bool
    requires { IsHead first name.now }
{
    place.name.cmp(first, name) == Ordering::Less
}

/// A way of a place, if there is one of this number, leads elsewhere.
#[inline(always)]
fn set_way(places: &mut [Place], at: usize, way: Way, to: Spot)
    requires { length places.old ≤ NODE_LIMIT }
    ensures { bared places.new ≡ bared places.old }
{
    if at < places.len() {
        let place = &mut places[at];
        match way {
            Way::Root => place.root = to,
            Way::Left => place.left = to,
            Way::Right => place.right = to,
        }
    }
}

/// Where the tree of a directory begins.
#[inline(always)]
fn root_of(places: &[Place], dir: usize) -> Spot
    requires { length places.now ≤ NODE_LIMIT }
{
    if dir < places.len() {
        let place = &places[dir];
        place.root
    } else {
        Spot::none()
    }
}

/// The greatest entry that the tree has below a name, or none, and after how many steps.
pub fn greatest_below(places: &[Place], dir: usize, first: u64, name: &Name) -> (Spot, usize)
    requires most { length places.now ≤ NODE_LIMIT }
    requires first { IsHead first name.now }
    ensures { result.1 ≤ MOST }
{
    let mut low = Spot::none();
    let mut at = root_of(places, dir);
    for steps in 0..MOST {
        let Some(n) = at.below(places.len()) else {
            return (low, steps);
        };
        let place = &places[n];
        if is_below(place, first, name) {
            low = at;
            at = place.right;
        } else {
            at = place.left;
        }
    }
    (low, MOST)
}

/// What is below a place is parted by a name: lesser entries go to the left of a node, the others to its right. The
/// answer is the greatest of the lesser ones, or else the place that was handed in.
fn split(places: &mut [Place], node: usize, from: Spot, first: u64, name: &Name, told: Spot) -> Spot
    requires most { length places.old ≤ NODE_LIMIT }
    requires first { IsHead first name.now }
    ensures { bared places.new ≡ bared places.old }
{
    let mut low = told;
    let mut at = from;
    let mut lesser = (node, Way::Left);
    let mut greater = (node, Way::Right);
    for _ in 0..MOST {
        let Some(n) = at.below(places.len()) else {
            break;
        };
        let place = &places[n];
        if is_below(place, first, name) {
            let next = place.right;
            set_way(places, lesser.0, lesser.1, at);
            lesser = (n, Way::Right);
            low = at;
            at = next;
        } else {
            let next = place.left;
            set_way(places, greater.0, greater.1, at);
            greater = (n, Way::Left);
            at = next;
        }
    }
    set_way(places, lesser.0, lesser.1, Spot::none());
    set_way(places, greater.0, greater.1, Spot::none());
    low
}

/// A node comes into the tree of a directory under a name. The greatest entry of the tree below it is answered, or none.
fn insert(places: &mut [Place], dir: usize, node: usize, first: u64, name: &Name) -> Spot
    requires most { length places.old ≤ NODE_LIMIT }
    requires node { node < NODE_LIMIT }
    requires first { IsHead first name.now }
    ensures { bared places.new ≡ bared places.old }
{
    let mut low = Spot::none();
    let mut from = (dir, Way::Root);
    let mut at = root_of(places, dir);
    let own = priority(node);
    for _ in 0..MOST {
        let Some(n) = at.below(places.len()) else {
            break;
        };
        if priority(n) < own {
            break;
        }
        let place = &places[n];
        if is_below(place, first, name) {
            low = at;
            from = (n, Way::Right);
            at = place.right;
        } else {
            from = (n, Way::Left);
            at = place.left;
        }
    }
    set_way(places, from.0, from.1, Spot::at(node));
    split(places, node, at, first, name, low)
}

/// The same where the directory has so many entries; where it has few, the greatest entry of its tree below the name is answered.
#[inline(never)]
fn insert_or_look(places: &mut [Place], dir: usize, node: usize, first: u64, name: &Name) -> Spot
    requires most { length places.old ≤ NODE_LIMIT }
    requires dir { dir < length places.old }
    requires node { node < NODE_LIMIT }
    requires first { IsHead first name.now }
    ensures { bared places.new ≡ bared places.old }
{
    let place = &places[dir];
    if place.entries < FEW {
        greatest_below(places, dir, first, name).0
    } else {
        insert(places, dir, node, first, name)
    }
}

/// A node is to be an entry of a directory under this name. Where the directory has many, it comes into its tree. The greatest
/// entry of the tree below the name is answered, or none.
#[inline(always)]
pub fn insert_hint(places: &mut [Place], dir: usize, node: usize, first: u64, name: &Name) -> Spot
    requires most { length places.old ≤ NODE_LIMIT }
    requires dir { dir < length places.old }
    requires node { node < NODE_LIMIT }
    requires first { IsHead first name.now }
    ensures { bared places.new ≡ bared places.old }
{
    let place = &places[dir];
    if place.entries < FEW && place.root == Spot::none() {
        Spot::none()
    } else {
        insert_or_look(places, dir, node, first, name)
    }
}

/// The two sides of a node go together to where it was.
fn merge(places: &mut [Place], at: usize, way: Way, left: Spot, right: Spot)
    requires { length places.old ≤ NODE_LIMIT }
    ensures { bared places.new ≡ bared places.old }
{
    let mut to = (at, way);
    let mut lesser = left;
    let mut greater = right;
    for _ in 0..MOST {
        let Some(low) = lesser.below(places.len()) else {
            set_way(places, to.0, to.1, greater);
            return;
        };
        let Some(high) = greater.below(places.len()) else {
            set_way(places, to.0, to.1, lesser);
            return;
        };
        if priority(low) > priority(high) {
            set_way(places, to.0, to.1, lesser);
            to = (low, Way::Right);
            let place = &places[low];
            lesser = place.right;
        } else {
            set_way(places, to.0, to.1, greater);
            to = (high, Way::Left);
            let place = &places[high];
            greater = place.left;
        }
    }
}

/// A node leaves the tree of a directory, if it is found there under this name.
#[inline(never)]
fn remove(places: &mut [Place], dir: usize, node: usize, first: u64, name: &Name)
    requires most { length places.old ≤ NODE_LIMIT }
    requires first { IsHead first name.now }
    ensures { bared places.new ≡ bared places.old }
{
    let mut from = (dir, Way::Root);
    let mut at = root_of(places, dir);
    let own = priority(node);
    for _ in 0..MOST {
        let Some(n) = at.below(places.len()) else {
            return;
        };
        let place = &places[n];
        let left = place.left;
        let right = place.right;
        if n == node {
            merge(places, from.0, from.1, left, right);
            return;
        }
        if priority(n) < own {
            return;
        }
        if is_below(place, first, name) {
            from = (n, Way::Right);
            at = right;
        } else {
            from = (n, Way::Left);
            at = left;
        }
    }
}

/// A node is an entry of a directory under this name no more.
#[inline(always)]
pub fn remove_hint(places: &mut [Place], dir: usize, node: usize, first: u64, name: &Name)
    requires most { length places.old ≤ NODE_LIMIT }
    requires first { IsHead first name.now }
    ensures { bared places.new ≡ bared places.old }
{
    if root_of(places, dir) != Spot::none() {
        remove(places, dir, node, first, name);
    }
}
