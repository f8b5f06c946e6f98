//! Looking along the entries of one directory.

ghost use Rattle.std.specs.Prelude.{◌≡◌, ◌≤◌, ◌<◌, ◌+◌, ◌-◌, length, Some, None, IfSome, slice_get, option_map};
ghost use Rattle.std.specs.Option.{option_copied};
ghost use Rattle.fs_names.specs.Shapes.{names_of};
ghost use Rattle.fs_nodes_places.specs.Stores.{link_of, is_in, next_entry, IsNextName, IsEntryAfter, IsNameAfter, lent};
ghost use Rattle.fs_nodes_places.specs.Plains.{plain, plains};
ghost use Rattle.fs_calls.specs.Graphs.{IsUnlinked};
ghost use Rattle.fs_names.specs.Heads.{IsHead};
ghost use Rattle.fs_nodes_places.specs.code.Keys.{key_of, keys_of};
ghost use Rattle.fs_nodes.specs.code.Indexes.{IsIndex};
ghost use Rattle.fs_nodes_places.specs.code.Spots.{is_number, one_of};
ghost use Rattle.fs_nodes_places.specs.declared.hints.TheConstants.{MOST};
ghost use Rattle.fs_nodes_places.specs.code.Edits.{edited};
ghost use Rattle.fs_nodes.specs.code.Linked.{graph_of_places, next_child, IsPlaces, IsGap, IsNextSibling, IsEntry, IsLesser, IsGreater, is_lesser, IsPassed, with_entries, entered, led, followed, put_between, taken_out};

use crate::index::{Found, Slot, seek};
use fs_names::{NODE_LIMIT, Name};
use fs_nodes_places::hints::{MOST, greatest_below};
use fs_nodes_places::label::is_short;
use fs_nodes_places::place::dir_of;
use fs_nodes_places::{Key, Label, Place, Spot, is_higher};
use std::cmp::Ordering;
use std::mem;

/// The place of a directory's first entry.
fn first_spot(places: &[Place], dir: usize) -> Spot
    requires { IsPlaces places.now }
    ensures { result ≡ next_child (graph_of_places places.now) dir None }
{
    if dir < places.len() {
        let place = &places[dir];
        place.first
    } else {
        Spot::none()
    }
}

/// Its number.
fn first_of(places: &[Place], dir: usize) -> Option<usize>
    requires { IsPlaces places.now }
    ensures { result ≡ next_child (graph_of_places places.now) dir None }
{
    first_spot(places, dir).get()
}

/// Whether a number is this one.
fn is_number(number: Option<usize>, n: usize) -> bool
    ensures { result ≡ is_number number n }
{
    match number {
        Some(m) => m == n,
        None => false,
    }
}

/// The node of an entry, and at how many of its siblings was looked: at none up to the one after which the walk begins, and at
/// none from the one on before which it ends.
#[inline(never)]
fn walk(
    places: &[Place],
    dir: usize,
    after: Option<usize>,
    end: Option<usize>,
    first: u64,
    name: &Name,
) -> (Option<usize>, usize)
    requires places { IsPlaces places.now }
    requires first { IsHead first name.now }
    requires after { IfSome after (IsLesser (graph_of_places places.now) dir name.now) }
    requires end { IfSome end (IsGreater (graph_of_places places.now) dir name.now) }
    ensures child { result.0 ≡ (graph_of_places places.now).child dir name.now }
    ensures steps { result.1 + one_of after + one_of end ≤ length (names_of ((graph_of_places places.now).shape dir)) }
    ensures least { IfSome result.0 (λ n. 1 ≤ result.1) }
{
    let mut next = match after {
        Some(n) => {
            let place = &places[n];
            place.next.get()
        }
        None => first_of(places, dir),
    };
    let mut steps = 0;
    while let Some(n) = next {
        if is_number(end, n) {
            return (None, steps);
        }
        let place = &places[n];
        steps += 1;
        match place.name.cmp(first, name) {
            Ordering::Less => next = place.next.get(),
            Ordering::Equal => return (Some(n), steps),
            Ordering::Greater => return (None, steps),
        }
    }
    (None, steps)
}

/// One place more was looked at.
fn with_one(looked: (Option<usize>, usize)) -> (Option<usize>, usize)
    requires { looked.1 ≤ NODE_LIMIT }
    ensures node { result.0 ≡ looked.0 }
    ensures steps { result.1 ≡ looked.1 + 1 }
{
    (looked.0, looked.1 + 1)
}

/// The node of an entry, and at how many places was looked: at another entry of the directory first, and then at siblings on the
/// one side of it.
#[inline(never)]
fn search(
    places: &[Place],
    dir: usize,
    other: usize,
    first: u64,
    name: &Name,
) -> (Option<usize>, usize)
    requires places { IsPlaces places.now }
    requires first { IsHead first name.now }
    requires other { IsEntry (graph_of_places places.now) dir other }
    ensures child { result.0 ≡ (graph_of_places places.now).child dir name.now }
    ensures steps { result.1 ≤ length (names_of ((graph_of_places places.now).shape dir)) }
    ensures least { IfSome result.0 (λ n. 1 ≤ result.1) }
{
    let place = &places[other];
    match place.name.cmp(first, name) {
        Ordering::Less => {
            let after = lesser_told(places, dir, Some(other), first, name);
            with_one(walk(places, dir, after, None, first, name))
        }
        Ordering::Equal => (Some(other), 1),
        Ordering::Greater => {
            let after = lesser_told(places, dir, None, first, name);
            with_one(walk(places, dir, after, Some(other), first, name))
        }
    }
}

/// The node of the entry with a key, and at how many places was looked: at the one that the slots say, and where this does not
/// decide, at its siblings.
#[inline(always)]
fn look(
    slots: &[Slot],
    places: &[Place],
    key: Key,
    first: u64,
    name: &Name,
) -> (Option<usize>, usize)
    requires places { IsPlaces places.now }
    requires slots { IsIndex slots.now (keys_of (plains places.now)) }
    requires first { IsHead first name.now }
    requires key { key ≡ key_of key.dir name.now }
    ensures child { result.0 ≡ (graph_of_places places.now).child key.dir name.now }
    ensures steps { result.1 ≤ length (names_of ((graph_of_places places.now).shape key.dir)) }
    ensures least { IfSome result.0 (λ n. 1 ≤ result.1) }
{
    match seek(slots, key) {
        Found::Node(n) => {
            let place = &places[n];
            if place.name.is_word(first, name) {
                (Some(n), 1)
            } else {
                search(places, key.dir, n, first, name)
            }
        }
        Found::Nothing => (None, 0),
        Found::Open => {
            let after = lesser_told(places, key.dir, None, first, name);
            walk(places, key.dir, after, None, first, name)
        }
    }
}

/// The same of a name that is longer than its first bytes.
// With its own copy, so that a short name costs nothing for what is kept while a long one is hashed.
#[inline(never)]
fn look_long(
    slots: &[Slot],
    places: &[Place],
    dir: usize,
    first: u64,
    name: &Name,
) -> (Option<usize>, usize)
    requires places { IsPlaces places.now }
    requires slots { IsIndex slots.now (keys_of (plains places.now)) }
    requires first { IsHead first name.now }
    ensures child { result.0 ≡ (graph_of_places places.now).child dir name.now }
    ensures steps { result.1 ≤ length (names_of ((graph_of_places places.now).shape dir)) }
    ensures least { IfSome result.0 (λ n. 1 ≤ result.1) }
{
    look(slots, places, Key::new(dir, first, name), first, name)
}

/// The node of an entry, and at how many places was looked.
#[inline(always)]
pub fn find_steps(
    slots: &[Slot],
    places: &[Place],
    dir: usize,
    name: &Name,
) -> (Option<usize>, usize)
    requires places { IsPlaces places.now }
    requires slots { IsIndex slots.now (keys_of (plains places.now)) }
    ensures child { result.0 ≡ (graph_of_places places.now).child dir name.now }
    ensures steps { result.1 ≤ length (names_of ((graph_of_places places.now).shape dir)) }
    ensures least { IfSome result.0 (λ n. 1 ≤ result.1) }
{
    let first = name.head();
    if is_short(name) {
        look(slots, places, Key::new(dir, first, name), first, name)
    } else {
        look_long(slots, places, dir, first, name)
    }
}

/// The same, where the number is not asked for.
// With its own copy, in which the compiler leaves the counting out.
#[inline(never)]
pub fn find(slots: &[Slot], places: &[Place], dir: usize, name: &Name) -> Option<usize>
    requires places { IsPlaces places.now }
    requires slots { IsIndex slots.now (keys_of (plains places.now)) }
    ensures { result ≡ (graph_of_places places.now).child dir name.now }
{
    find_steps(slots, places, dir, name).0
}

/// Whether a place is that of an entry of the directory.
fn is_in_dir(place: &Place, dir: usize) -> bool
    ensures { result ≡ is_in (link_of (plain place.now)) dir }
{
    match place.content {
        Some(_) => match place.parent.get() {
            Some(parent) => dir == parent,
            None => false,
        },
        None => false,
    }
}

/// Whether a place is that of an entry of the directory with a lesser name.
fn is_lesser(place: &Place, dir: usize, first: u64, name: &Name) -> bool
    requires { IsHead first name.now }
    ensures { result ≡ is_lesser place.now dir name.now }
{
    is_in_dir(place, dir) && place.name.cmp(first, name) == Ordering::Less
}

/// A place that was named, if it is that of an entry of the directory with a lesser name.
pub fn lesser(places: &[Place], dir: usize, told: Spot, first: u64, name: &Name) -> Option<usize>
    requires places { IsPlaces places.now }
    requires first { IsHead first name.now }
    ensures { IfSome result (IsLesser (graph_of_places places.now) dir name.now) }
{
    match told.below(places.len()) {
        Some(n) => {
            let place = &places[n];
            if is_lesser(place, dir, first, name) {
                Some(n)
            } else {
                None
            }
        }
        None => None,
    }
}

/// An entry of the directory with a lesser name, if the tree beside the siblings names one, and else the one that is
/// given, if one is.
#[inline(never)]
fn lesser_told(
    places: &[Place],
    dir: usize,
    given: Option<usize>,
    first: u64,
    name: &Name,
) -> Option<usize>
    requires places { IsPlaces places.now }
    requires given { IfSome given (IsLesser (graph_of_places places.now) dir name.now) }
    requires first { IsHead first name.now }
    ensures lesser { IfSome result (IsLesser (graph_of_places places.now) dir name.now) }
    ensures some { one_of given ≤ one_of result }
{
    let told = greatest_below(places, dir, first, name).0;
    match lesser(places, dir, told, first, name) {
        Some(n) => Some(n),
        None => given,
    }
}

/// Between which siblings a search for a name begins: after an entry with a lesser one, or before the first entry.
fn start(places: &[Place], dir: usize, after: Option<usize>) -> (Spot, Spot)
    requires places { IsPlaces places.now }
    requires after { IfSome after (IsEntry (graph_of_places places.now) dir) }
    ensures stands { (x : Name) → IfSome after (IsLesser (graph_of_places places.now) dir x) → IsPassed places.now dir x result.0 result.1 }
    ensures first { after ≡ None → result.1 ≡ next_child (graph_of_places places.now) dir None }
{
    match after {
        Some(n) => {
            let place = &places[n];
            (Spot::at(n), place.next)
        }
        None => (Spot::none(), first_spot(places, dir)),
    }
}

/// The siblings between which an entry of this name belongs, if there is none yet. They are looked for after an entry
/// with a lesser name, if one is given.
pub fn gap(
    places: &[Place],
    dir: usize,
    after: Option<usize>,
    first: u64,
    name: &Name,
) -> (Spot, Spot)
    requires places { IsPlaces places.now }
    requires after { IfSome after (IsLesser (graph_of_places places.now) dir name.now) }
    requires first { IsHead first name.now }
    requires absent { (graph_of_places places.now).child dir name.now ≡ None }
    ensures { IsGap (graph_of_places places.now) dir name.now result.0 result.1 }
{
    let (mut prev, mut next) = start(places, dir, after);
    while let Some(n) = next.get() {
        let place = &places[n];
        match place.name.cmp(first, name) {
            Ordering::Less => {}
            _ => return (prev, next),
        }
        prev = next;
        next = place.next;
    }
    (prev, next)
}

/// The way to an entry leads elsewhere: from the sibling before it, or from its directory.
fn lead(places: &mut [Place], dir: usize, prev: Spot, to: Spot)
    requires dir { dir < length places.old }
    requires prev { IfSome prev (λ k. k < length places.old) }
    requires most { length places.old ≤ NODE_LIMIT }
    ensures { places.new ≡ led dir prev to places.old }
{
    match prev.get() {
        Some(k) => {
            let place = &mut places[k];
            place.next = to;
        }
        None => {
            let place = &mut places[dir];
            place.first = to;
        }
    }
}

/// The way back from the sibling after it, if there is one, leads elsewhere.
fn follow(places: &mut [Place], next: Spot, to: Spot)
    requires next { IfSome next (λ k. k < length places.old) }
    requires most { length places.old ≤ NODE_LIMIT }
    ensures { places.new ≡ followed next to places.old }
{
    if let Some(k) = next.get() {
        let place = &mut places[k];
        place.prev = to;
    }
}

/// One entry more.
fn add_entry(places: &mut [Place], dir: usize)
    requires dir { dir < length places.old }
    requires most { length places.old ≤ NODE_LIMIT }
    requires entries { IfSome (slice_get places.old dir) (λ p. p.entries ≤ NODE_LIMIT) }
    ensures { places.new ≡ edited dir (λ p. with_entries (p.entries + 1) p) places.old }
{
    let place = &mut places[dir];
    place.entries += 1;
}

/// One entry less.
fn drop_entry(places: &mut [Place], dir: usize)
    requires dir { dir < length places.old }
    requires most { length places.old ≤ NODE_LIMIT }
    requires entries { IfSome (slice_get places.old dir) (λ p. 1 ≤ p.entries) }
    ensures { places.new ≡ edited dir (λ p. with_entries (p.entries - 1) p) places.old }
{
    let place = &mut places[dir];
    place.entries -= 1;
}

/// A node is named by this entry from now on.
fn enter(places: &mut [Place], node: usize, dir: Spot, name: Label, prev: Spot, next: Spot)
    requires node { node < length places.old }
    requires most { length places.old ≤ NODE_LIMIT }
    ensures { places.new ≡ edited node (entered dir name prev next) places.old }
{
    let place = &mut places[node];
    place.parent = dir;
    place.name = name;
    place.prev = prev;
    place.next = next;
}

/// A node is named by no entry from now on. Its label is handed out for one that says nothing.
fn leave(places: &mut [Place], node: usize, blank: Label) -> Label
    requires node { node < length places.old }
    requires most { length places.old ≤ NODE_LIMIT }
    ensures places { places.new ≡ edited node (entered None blank None None) places.old }
    ensures label { IfSome (slice_get places.old node) (λ p. result ≡ p.name) }
{
    let place = &mut places[node];
    let none = Spot::none();
    place.parent = none;
    place.prev = none;
    place.next = none;
    mem::replace(&mut place.name, blank)
}

/// A node comes between two siblings.
pub fn put_between(
    places: &mut [Place],
    dir: usize,
    node: usize,
    name: Label,
    prev: Spot,
    next: Spot,
)
    requires dir { dir < length places.old }
    requires node { node < length places.old }
    requires prev { IfSome prev (λ k. k < length places.old) }
    requires next { IfSome next (λ k. k < length places.old) }
    requires most { length places.old ≤ NODE_LIMIT }
    requires entries { IfSome (slice_get places.old dir) (λ p. p.entries ≤ NODE_LIMIT) }
    ensures { places.new ≡ put_between dir node name prev next places.old }
{
    add_entry(places, dir);
    let spot = Spot::at(node);
    lead(places, dir, prev, spot);
    follow(places, next, spot);
    enter(places, node, Spot::at(dir), name, prev, next);
}

/// A node leaves its place between two siblings. Its label is handed out for one that says nothing.
pub fn take_out(
    places: &mut [Place],
    dir: usize,
    node: usize,
    blank: Label,
    prev: Spot,
    next: Spot,
) -> Label
    requires dir { dir < length places.old }
    requires node { node < length places.old }
    requires prev { IfSome prev (λ k. k < length places.old) }
    requires next { IfSome next (λ k. k < length places.old) }
    requires most { length places.old ≤ NODE_LIMIT }
    requires entries { IfSome (slice_get places.old dir) (λ p. 1 ≤ p.entries) }
    ensures places { places.new ≡ taken_out dir node blank prev next places.old }
    ensures label { IfSome (slice_get places.old node) (λ p. result ≡ p.name) }
{
    drop_entry(places, dir);
    lead(places, dir, prev, next);
    follow(places, next, prev);
    leave(places, node, blank)
}

/// The siblings of a node.
pub fn beside(places: &[Place], node: usize) -> (Spot, Spot)
    requires node { node < length places.now }
    requires most { length places.now ≤ NODE_LIMIT }
    ensures { IfSome (slice_get places.now node) (λ p. (result.0 ≡ p.prev) × (result.1 ≡ p.next)) }
{
    let place = &places[node];
    (place.prev, place.next)
}

/// The sibling after a node. Where no entry names the node, there is none.
pub fn sibling_after(places: &[Place], node: usize) -> Option<usize>
    requires { IsPlaces places.now }
    ensures next { IsNextSibling (graph_of_places places.now) node result }
    ensures unlinked { IsUnlinked (graph_of_places places.now).child node → result ≡ None }
    ensures within { IfSome result (λ n. n < length places.now) }
{
    match dir_of(places, node) {
        Some(_) => {
            let place = &places[node];
            place.next.get()
        }
        None => None,
    }
}

/// The entry after the one that names a node.
pub fn entry_after(places: &[Place], node: usize) -> Option<(&Name, usize)>
    requires { IsPlaces places.now }
    ensures entry { IsEntryAfter (graph_of_places places.now) node (lent result) }
    ensures rest { IsNameAfter (graph_of_places places.now) node (option_map (λ entry. entry.0) (lent result)) }
    ensures unlinked { IsUnlinked (graph_of_places places.now).child node → lent result ≡ None }
{
    match sibling_after(places, node) {
        Some(n) => {
            let place = &places[n];
            Some((place.name.name(), n))
        }
        None => None,
    }
}

/// How many steps a search for a name along the tree and the siblings takes.
pub fn order_steps(places: &[Place], dir: usize, name: &Name) -> usize
    requires { IsPlaces places.now }
    ensures { result ≤ MOST + length (names_of ((graph_of_places places.now).shape dir)) }
{
    let first = name.head();
    let (told, steps) = greatest_below(places, dir, first, name);
    let after = lesser(places, dir, told, first, name);
    let looked = walk(places, dir, after, None, first, name);
    steps + looked.1
}

/// The node of a directory's least name above the given one.
pub fn least_above(places: &[Place], dir: usize, low: Option<&Name>) -> Option<usize>
    requires { IsPlaces places.now }
    ensures { result ≡ next_child (graph_of_places places.now) dir (option_copied low.entry) }
{
    let after = match low {
        Some(name) => lesser_told(places, dir, None, name.head(), name),
        None => None,
    };
    let mut next = start(places, dir, after).1.get();
    while let Some(n) = next {
        let place = &places[n];
        if is_higher(place.name.name(), low) {
            return Some(n);
        }
        next = place.next.get();
    }
    None
}

/// The entry of a directory's least name above the given one.
pub fn next_above<'a>(
    places: &'a [Place],
    dir: usize,
    low: Option<&Name>,
) -> Option<(&'a Name, usize)>
    requires { IsPlaces places.now }
    ensures entry { lent result ≡ next_entry (graph_of_places places.now) dir (option_copied low.entry) }
    ensures rest { IsNextName (names_of ((graph_of_places places.now).shape dir)) (option_copied low.entry) (option_map (λ entry. entry.0) (lent result)) }
{
    match least_above(places, dir, low) {
        Some(n) => {
            let place = &places[n];
            Some((place.name.name(), n))
        }
        None => None,
    }
}
