//! What is looked up among the places of the plain store.

ghost use Rattle.std.specs.Prelude.{◌≡◌, ℕ, count_by, ◌<◌, length, MatchOption, slice_get, Some, None};
ghost use Rattle.std.specs.Option.{option_copied};
ghost use Rattle.std.specs.List.{find};
ghost use Rattle.fs_nodes_places.specs.Stores.{child_in, content_at, link_at, link_of, is_link, is_in, names_in, is_above};
ghost use Rattle.fs_nodes_places.specs.code.Picks.{lesser, name_above};
ghost use Rattle.fs_nodes_places.specs.code.PlainEdits.{IsTaken};

use crate::node::{Content, Link, Node};
use fs_calls::NodeNo;
use fs_names::Name;
use std::cmp::Ordering;

/// The place of a number, where there is one.
pub fn content_at(places: &[Option<Node>], node: NodeNo) -> Option<&Content>
    ensures { option_copied result ≡ content_at places.now node }
{
    match places.get(node.get()) {
        Some(Some(node)) => Some(&node.content),
        _ => None,
    }
}

/// The entry that names a node.
pub fn link_at(places: &[Option<Node>], node: NodeNo) -> Option<&Link>
    ensures { option_copied result ≡ link_at places.now node }
{
    match places.get(node.get()) {
        Some(Some(node)) => node.link.as_ref(),
        _ => None,
    }
}

fn is_entry(place: &Option<Node>, dir: NodeNo, name: &Name) -> bool
    ensures { result ≡ is_link (link_of place.now) dir name.now }
{
    match place {
        Some(
            Node {
                link: Some(link),
                ..
            },
        ) => dir == link.dir && name.same(&link.name),
        _ => false,
    }
}

/// The node that the entry of a directory names.
pub fn find_in(places: &[Option<Node>], dir: NodeNo, name: &Name) -> Option<usize>
    ensures { result ≡ child_in places.now dir name.now }
{
    // A directory keeps no list of its entries: each node knows the one entry that names it, so each place is looked at.
    for i in 0..places.len() {
        if is_entry(&places[i], dir, name) {
            return Some(i);
        }
    }
    None
}

/// The first place without a node.
pub fn free_in(places: &[Option<Node>]) -> Option<usize>
    ensures { MatchOption result ((k : ℕ) → k < length places.now → IsTaken (slice_get places.now k)) (λ n. slice_get places.now n ≡ Some None) }
{
    for i in 0..places.len() {
        if places[i].is_none() {
            return Some(i);
        }
    }
    None
}

fn is_in_dir(place: &Option<Node>, dir: NodeNo) -> bool
    ensures { result ≡ is_in (link_of place.now) dir }
{
    match place {
        Some(
            Node {
                link: Some(link),
                ..
            },
        ) => dir == link.dir,
        _ => false,
    }
}

/// How many places hold a node that an entry of the directory names.
pub fn entries_in(places: &[Option<Node>], dir: NodeNo) -> usize
    ensures { result ≡ count_by (λ place. is_in (link_of place) dir) places.now }
{
    places.iter().filter(|place| is_in_dir(place, dir)).count()
}

/// Whether a name is above another one; all names are above none.
pub fn is_higher(name: &Name, low: Option<&Name>) -> bool
    ensures { result ≡ is_above (option_copied low.entry) name.now }
{
    match low {
        Some(low) => low.cmp(name) == Ordering::Less,
        None => true,
    }
}

/// The name of a place's entry, where it is one of the directory and above the given name.
fn name_in<'a>(place: &'a Option<Node>, dir: NodeNo, low: Option<&Name>) -> Option<&'a Name>
    ensures { option_copied result ≡ name_above (link_of place.now) dir (option_copied low.entry) }
{
    match place {
        Some(
            Node {
                link: Some(link),
                ..
            },
        ) if dir == link.dir && is_higher(&link.name, low) => Some(&link.name),
        _ => None,
    }
}

/// The lesser of two names, if any; of equal ones the first.
fn lesser_of<'a>(best: Option<&'a Name>, next: Option<&'a Name>) -> Option<&'a Name>
    ensures { option_copied result ≡ lesser (option_copied best.entry) (option_copied next.entry) }
{
    let Some(name) = next else { return best };
    match best {
        Some(least) if name.cmp(least) != Ordering::Less => best,
        _ => next,
    }
}

/// The least name of the directory above the given name.
pub fn least_in<'a>(places: &'a [Option<Node>], dir: NodeNo, low: Option<&Name>) -> Option<&'a Name>
    ensures { option_copied result ≡ find (is_above (option_copied low.entry)) (names_in places.now dir) }
{
    let mut best = None;
    for i in 0..places.len() {
        best = lesser_of(best, name_in(&places[i], dir, low));
    }
    best
}
