//! The place of a number.

ghost use Rattle.std.specs.Prelude.{◌≡◌, ◌≢◌, ◌≤◌, ◌<◌, ◌++◌, ◌∷◌, [], length, Some, None, IfSome, OnOk, OnErr, slice_get, option_map};
ghost use Rattle.fs_nodes_places.specs.code.PlainEdits.{new_content};
ghost use Rattle.std.specs.Option.{option_copied};
ghost use Rattle.fs_nodes_places.specs.Stores.{content_at, link_at, link_of};
ghost use Rattle.fs_nodes_places.specs.Plains.{plain, plains};
ghost use Rattle.fs_nodes_places.specs.code.Keys.{key_of_link};
ghost use Rattle.fs_nodes_places.specs.code.Edits.{edited, filled, vacated, content_with, content_old, with_content};

use crate::key::Key;
use crate::label::Label;
use crate::node::Content;
use crate::spot::Spot;
use fs_blocks::File;
use fs_memory::Memory;
use fs_names::{Kind, NODE_LIMIT};
use std::alloc::{AllocError, Global};
use std::mem;

/// What is kept for a number: what its node is, the entry that names it, and the way to the entries beside and below.
/// A free place has no content; its `next` is the free place after it.
#[derive(Drop)]
pub struct Place {
    pub content: Option<Content>,
    pub name: Label,
    pub parent: Spot,
    pub first: Spot,
    pub next: Spot,
    pub prev: Spot,
    pub entries: u32,
    /// A tree of the entries of a large directory: where it begins, as a directory's, and the ways to lesser and to greater
    /// names, as an entry's. Nothing is known of it: whoever takes a way asks first whether it still leads there.
    pub root: Spot,
    pub left: Spot,
    pub right: Spot,
}

impl Place {
    /// The place of a new node, which no entry names: its name says nothing. A file is in blocks or in one vector.
    pub fn new(alloc: Global, kind: Kind, in_blocks: bool) -> Place
        ensures content { result.content ≡ Some (new_content in_blocks kind) }
        ensures parent { result.parent ≡ None }
        ensures first { result.first ≡ None }
        ensures next { result.next ≡ None }
        ensures prev { result.prev ≡ None }
        ensures entries { result.entries ≡ 0 }
        ensures root { result.root ≡ None }
        ensures left { result.left ≡ None }
        ensures right { result.right ≡ None }
    {
        Place {
            content: Some(Content::new(alloc, kind, in_blocks)),
            name: Label::default(),
            parent: Spot::none(),
            first: Spot::none(),
            next: Spot::none(),
            prev: Spot::none(),
            entries: 0,
            root: Spot::none(),
            left: Spot::none(),
            right: Spot::none(),
        }
    }
}

/// A free place gets a node; the free place after it is answered.
pub fn fill(places: &mut [Place], node: usize, content: Content) -> Spot
    requires node { node < length places.old }
    requires most { length places.old ≤ NODE_LIMIT }
    ensures places { places.new ≡ edited node (filled content) places.old }
    ensures next { IfSome (slice_get places.old node) (λ p. result ≡ p.next) }
{
    let none = Spot::none();
    let place = &mut places[node];
    let next = place.next;
    place.content = Some(content);
    place.parent = none;
    place.next = none;
    place.prev = none;
    next
}

/// A place becomes free.
pub fn vacate(places: &mut [Place], node: usize, next: Spot)
    requires node { node < length places.old }
    requires most { length places.old ≤ NODE_LIMIT }
    ensures { places.new ≡ edited node (vacated next) places.old }
{
    let place = &mut places[node];
    place.content = None;
    place.next = next;
}

/// One place more. After an error the places are as before.
pub fn add(memory: &mut Memory, places: &mut Vec<Place>, place: Place) -> Result<(), AllocError>
    ensures ok { OnOk result (places.new.items ≡ places.old.items ++ place ∷ []) }
    ensures err { OnErr result (places.new.items ≡ places.old.items) }
    ensures granted { OnOk result (memory.new ≡ memory.old) }
    ensures refused { OnErr result (memory.new ≢ memory.old) }
{
    memory.reserve(places, 1)?;
    places.push_reserved(place);
    Ok(())
}

/// What the node of a number is.
pub fn content_at(places: &[Place], node: usize) -> Option<&Content>
    requires { length places.now ≤ NODE_LIMIT }
    ensures { option_copied result ≡ content_at (plains places.now) node }
{
    if node < places.len() {
        let place = &places[node];
        place.content.as_ref()
    } else {
        None
    }
}

/// The key of the entry that names a place's node.
pub fn key_of_place(place: &Place) -> Option<Key>
    ensures { result ≡ key_of_link (link_of (plain place.now)) }
{
    match place.content {
        Some(_) => match place.parent.get() {
            Some(dir) => Some(place.name.key(dir)),
            None => None,
        },
        None => None,
    }
}

/// The directory whose entry names the node of a number.
pub fn dir_of(places: &[Place], node: usize) -> Option<usize>
    requires { length places.now ≤ NODE_LIMIT }
    ensures { result ≡ option_map (λ l. l.dir) (link_at (plains places.now) node) }
{
    if node < places.len() {
        let place = &places[node];
        match place.content {
            Some(_) => place.parent.get(),
            None => None,
        }
    } else {
        None
    }
}

/// Another file comes in the place of one, which is handed out.
fn swap_in(content: &mut Option<Content>, file: File) -> File
    ensures new { content.new ≡ content_with file content.old }
    ensures old { result ≡ content_old file content.old }
{
    match content {
        Some(Content::File(old)) => mem::replace(old, file),
        _ => file,
    }
}

/// The same at the place of a number.
pub fn swap_file(places: &mut [Place], node: usize, file: File) -> File
    requires node { node < length places.old }
    requires most { length places.old ≤ NODE_LIMIT }
    ensures places { places.new ≡ edited node (with_content file) places.old }
    ensures old { IfSome (slice_get places.old node) (λ p. result ≡ content_old file p.content) }
{
    let place = &mut places[node];
    swap_in(&mut place.content, file)
}
