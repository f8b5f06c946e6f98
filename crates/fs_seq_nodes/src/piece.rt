//! Entries side by side, as many as a list of a large directory has.

ghost use Rattle.std.specs.Prelude.{◌≡◌, ◌≢◌, ◌≤◌, ◌<◌, ◌+◌, ◌++◌, [], Some, None, IfOk, OnOk, OnErr, length, take, drop, insert, remove, slice_index_or, slice_set, vec_capacity, option_to_list};
ghost use Rattle.fs_seq_nodes.specs.code.Lists.{begins_above, led_to};

use crate::nodes::Link;
use fs_memory::Memory;
use std::alloc::{AllocError, Global};
use std::marker::Model;

/// How many entries a list has at most.
pub const MOST: usize = 512;

/// Entries side by side, seen as their list: at most 512, in memory for so many.
#[derive(Drop)]
pub struct Piece {
    links: Vec<Link>,
}

impl Model for Piece {
    ghost use Rattle.std.specs.Prelude.{List, ◌≤◌, length, vec_capacity};
    ghost use Rattle.fs_seq_nodes.specs.declared.nodes.Link.{Link};
    ghost use Rattle.fs_seq_nodes.specs.declared.piece.TheConstants.{MOST};

    ghost Value = { List Link };

    ghost view = { λ p. p.links.items };

    ghost invariant = { λ p. (length p.links.items ≤ MOST) × (MOST ≤ vec_capacity p.links) };
}

/// Moves the entries from a place on into a vector that has none, and room for them.
fn move_end(from: &mut Vec<Link>, at: usize, to: &mut Vec<Link>)
    requires place { at ≤ length from.old.items }
    requires none { to.old.items ≡ [] }
    requires room { length from.old.items ≤ vec_capacity to.old }
    ensures first { from.new.items ≡ take at from.old.items }
    ensures second { to.new.items ≡ drop at from.old.items }
    ensures room { vec_capacity from.new ≡ vec_capacity from.old }
    ensures to_room { vec_capacity to.new ≡ vec_capacity to.old }
{
    while at < from.len() {
        to.push_reserved(from.take_last());
    }
    to.reverse();
}

impl Piece {
    /// No entries.
    pub fn new(alloc: Global, memory: &mut Memory) -> Result<Piece, AllocError>
        ensures none { IfOk result (λ piece. piece ≡ []) }
        ensures granted { OnOk result (memory.new ≡ memory.old) }
        ensures refused { OnErr result (memory.new ≢ memory.old) }
    {
        let links = memory.with_room(alloc, MOST)?;
        Ok(Piece { links })
    }

    /// These entries, which are in memory for so many.
    pub fn of(links: Vec<Link>) -> Piece
        requires most { length links.items ≤ MOST }
        requires room { MOST ≤ vec_capacity links }
        ensures { result ≡ links.items }
    {
        Piece { links }
    }

    /// The entries in a vector.
    pub fn into_vec(self) -> Vec<Link>
        ensures links { result.items ≡ self }
        ensures most { length result.items ≤ MOST }
    {
        let Piece { links } = self;
        links
    }

    /// The entries.
    #[inline]
    pub fn as_slice(&self) -> &[Link]
        ensures links { result.now ≡ self.now }
        ensures most { length result.now ≤ MOST }
    {
        self.links.as_slice()
    }

    /// How many entries there are.
    #[inline]
    pub fn len(&self) -> usize
        ensures len { result ≡ length self.now }
        ensures most { result ≤ MOST }
    {
        self.links.len()
    }

    /// Whether the first entry's name is above these bytes.
    #[inline]
    pub fn begins_above(&self, bytes: &[u8]) -> bool
        ensures { result ≡ begins_above bytes.now self.now }
    {
        match self.links.first() {
            Some(link) => link.name.is_above(bytes),
            None => true,
        }
    }

    /// Adds an entry at a place.
    pub fn insert(&mut self, at: usize, link: Link)
        requires place { at ≤ length self.old }
        requires room { length self.old < MOST }
        ensures { self.new ≡ insert self.old at link }
    {
        match self.links.insert(at, link) {
            Ok(()) => {}
            Err(_) => unreachable!(),
        }
    }

    /// Takes the entry at a place out.
    pub fn remove(&mut self, at: usize) -> Link
        requires { at < length self.old }
        ensures links { self.new ≡ remove self.old at }
        ensures link { result ≡ slice_index_or self.old at result }
        ensures most { length self.new < MOST }
    {
        self.links.remove(at)
    }

    /// Adds an entry at a place, and hands out the last one if there was no room.
    pub fn insert_up(&mut self, at: usize, link: Link) -> Option<Link>
        requires { at ≤ length self.old }
        ensures links { self.new ++ option_to_list result ≡ insert self.old at link }
        ensures room { length self.old < MOST → result ≡ None }
    {
        if self.links.len() < MOST {
            self.insert(at, link);
            return None;
        }
        if at == self.links.len() {
            return Some(link);
        }
        let last = self.links.take_last();
        self.insert(at, link);
        Some(last)
    }

    /// Adds an entry at a place, and hands out the first one if there was no room.
    pub fn insert_down(&mut self, at: usize, link: Link) -> Option<Link>
        requires { at ≤ length self.old }
        ensures links { option_to_list result ++ self.new ≡ insert self.old at link }
        ensures room { length self.old < MOST → result ≡ None }
    {
        if self.links.len() < MOST {
            self.insert(at, link);
            return None;
        }
        if at == 0 {
            return Some(link);
        }
        let first = self.links.remove(0);
        self.insert(at - 1, link);
        Some(first)
    }

    /// Puts the entries from a place on into a piece that has none.
    pub fn split(&mut self, at: usize, next: &mut Piece)
        requires place { at ≤ length self.old }
        requires none { next.old ≡ [] }
        ensures first { self.new ≡ take at self.old }
        ensures second { next.new ≡ drop at self.old }
    {
        move_end(&mut self.links, at, &mut next.links);
    }

    /// Adds the entries of another piece, for which there is room.
    pub fn append(&mut self, next: Piece)
        requires { length self.old + length next ≤ MOST }
        ensures { self.new ≡ self.old ++ next }
    {
        let mut more = next.into_vec();
        let _there_is_room = self.links.append(&mut more);
    }

    /// Lets the entry at a place lead to another node.
    pub fn lead(&mut self, at: usize, node: usize)
        requires { at < length self.old }
        ensures { (l : Link) → l ≡ slice_index_or self.old at l → self.new ≡ slice_set self.old at (led_to node l) }
    {
        self.links[at].node = node;
    }
}

impl Clone for Piece {
    ghost is_clone = { λ piece copy. copy ≡ piece };

    fn clone(&self) -> Result<Piece, AllocError> {
        let mut links = Vec::with_capacity(*self.links.allocator(), MOST)?;
        for link in &self.links {
            links.push_reserved(link.clone()?);
        }
        Ok(Piece { links })
    }
}
