//! The entries of a large directory, in several lists.

ghost use Rattle.std.specs.Prelude.{◌≡◌, ◌≢◌, ◌≤◌, ◌<◌, ◌+◌, ◌-◌, ◌++◌, [], Some, None, ℕ, IsTrue, IfOk, IfSome, OnOk, OnErr, MatchOption, length, take, drop, insert, remove, vec_len, vec_capacity};
ghost use Rattle.std.specs.FinMap.{find, put, is_sorted};
ghost use Rattle.fs_names.specs.Names.{name_cmp};
ghost use Rattle.fs_seq_nodes.specs.code.Entries.{pairs};
ghost use Rattle.fs_seq_nodes.specs.code.Lists.{AllSome, Bisects, IsCut, IsGap, IsIn, IsListOf, Leads, Looks, before, flat, list_at, shifted};

use crate::nodes::{Link, above, bisect, reset};
use crate::piece::{MOST, Piece};
use fs_memory::Memory;
use fs_names::Name;
use std::alloc::{AllocError, Global};
use std::marker::Model;
use std::mem;

/// Two lists side by side that have no more entries than this together become one.
const FEW: usize = MOST / 2;

/// The entries of a large directory, seen as one list: lists, none of which is empty, and how many entries they have together.
#[derive(Drop)]
pub struct Many {
    lists: Vec<Piece>,
    count: usize,
}

impl Model for Many {
    ghost use Rattle.std.specs.Prelude.{◌≡◌, List, length};
    ghost use Rattle.fs_seq_nodes.specs.declared.nodes.Link.{Link};
    ghost use Rattle.fs_seq_nodes.specs.code.Lists.{AllSome, flat};

    ghost Value = { List Link };

    ghost view = { λ m. flat m.lists.items };

    ghost invariant = { λ m. AllSome m.lists.items × (m.count ≡ length (flat m.lists.items)) };
}

/// A place of a list, counted from the first entry of all lists. It is at most this number.
fn place_of(lists: &[Piece], i: usize, at: usize, most: usize) -> usize
    requires list { i ≤ length lists.now }
    requires most { before lists.now i + at ≤ most }
    ensures { result ≡ before lists.now i + at }
{
    let mut place = at;
    for j in 0..i {
        place += lists[j].len();
    }
    place
}

/// The list with the entry at a place, and its place there.
fn find(lists: &[Piece], place: usize) -> (usize, usize)
    requires { place < length (flat lists.now) }
    ensures { IsIn lists.now place result.0 result.1 }
{
    let mut left = place;
    for i in 0..lists.len() {
        let here = lists[i].len();
        if left < here {
            return (i, left);
        }
        left -= here;
    }
    unreachable!()
}

/// The list that an entry joins if it comes to a place, and its place there.
fn gap(lists: &[Piece], place: usize) -> (usize, usize)
    requires some { 0 < length lists.now }
    requires place { place ≤ length (flat lists.now) }
    ensures { IsGap lists.now place result.0 result.1 }
{
    if place == 0 {
        return (0, 0);
    }
    let (i, at) = find(lists, place - 1);
    (i, at + 1)
}

/// The list to which these bytes belong: the last one that does not begin above them, or else the first one.
fn list_of(lists: &[Piece], bytes: &[u8]) -> usize
    requires some { 0 < length lists.now }
    requires lists { AllSome lists.now }
    requires rising { IsTrue (is_sorted name_cmp (pairs (flat lists.now))) }
    ensures { IsListOf bytes.now lists.now result }
{
    lists
        .partition_point(|list| !list.begins_above(bytes))
        .saturating_sub(1)
}

/// The list to which a name belongs, and where it is there, or where it belongs there.
fn locate(lists: &[Piece], name: &Name) -> (usize, Result<usize, usize>)
    requires some { 0 < length lists.now }
    requires lists { AllSome lists.now }
    requires rising { IsTrue (is_sorted name_cmp (pairs (flat lists.now))) }
    ensures list { result.0 < length lists.now }
    ensures place { Bisects name.now (list_at lists.now result.0) result.1 }
    ensures whole { Bisects name.now (flat lists.now) (shifted (before lists.now result.0) result.1) }
{
    let i = list_of(lists, name.bytes());
    (i, bisect(lists[i].as_slice(), name))
}

/// The list to which a name belongs that is not there, and its place there.
fn belongs(lists: &[Piece], name: &Name) -> (usize, usize)
    requires some { 0 < length lists.now }
    requires lists { AllSome lists.now }
    requires rising { IsTrue (is_sorted name_cmp (pairs (flat lists.now))) }
    requires absent { find name_cmp name.now (pairs (flat lists.now)) ≡ None }
    ensures gap { IsGap lists.now (before lists.now result.0 + result.1) result.0 result.1 }
    ensures name { (node : ℕ) → put name_cmp name.now node (pairs (flat lists.now)) ≡ insert (pairs (flat lists.now)) (before lists.now result.0 + result.1) (name.now, node) }
{
    match locate(lists, name) {
        (i, Err(at)) => (i, at),
        (_, Ok(_)) => unreachable!(),
    }
}

/// Puts a list at a place among others that have room for it.
fn insert_list(lists: &mut Vec<Piece>, i: usize, list: Piece)
    requires place { i ≤ length lists.old.items }
    requires room { vec_len lists.old < vec_capacity lists.old }
    ensures { lists.new.items ≡ insert lists.old.items i list }
{
    match lists.insert(i, list) {
        Ok(()) => {}
        Err(_) => unreachable!(),
    }
}

/// How many entries stay in the first list if a full one becomes two, since an entry comes to a place. Where names come in their
/// order, it is the last place, and only one entry goes into the second list.
fn first_part(at: usize) -> usize
    ensures some { 0 < result }
    ensures most { result < MOST }
{
    if at < MOST { MOST / 2 } else { MOST - 1 }
}

/// Makes two lists of one that is full, with a piece that has no entries, and answers where a place of it is then.
fn split(lists: &mut Vec<Piece>, i: usize, at: usize, next: Piece) -> (usize, usize)
    requires list { i < length lists.old.items }
    requires full { length (list_at lists.old.items i) ≡ MOST }
    requires place { at ≤ MOST }
    requires none { next ≡ [] }
    requires room { vec_len lists.old < vec_capacity lists.old }
    requires lists { AllSome lists.old.items }
    ensures same { flat lists.new.items ≡ flat lists.old.items }
    ensures lists { AllSome lists.new.items }
    ensures place { IsGap lists.new.items (before lists.old.items i + at) result.0 result.1 }
    ensures room { length (list_at lists.new.items result.0) < MOST }
{
    let half = first_part(at);
    let mut second = next;
    lists[i].split(half, &mut second);
    insert_list(lists, i + 1, second);
    if at <= half {
        (i, at)
    } else {
        (i + 1, at - half)
    }
}

/// Makes room for an entry at a place of a list, and answers where that place is then.
fn make_room(
    alloc: Global,
    memory: &mut Memory,
    lists: &mut Vec<Piece>,
    i: usize,
    at: usize,
) -> Result<(usize, usize), AllocError>
    requires place { IsGap lists.old.items (before lists.old.items i + at) i at }
    requires lists { AllSome lists.old.items }
    ensures same { flat lists.new.items ≡ flat lists.old.items }
    ensures lists { AllSome lists.new.items }
    ensures place { IfOk result (λ gap. IsGap lists.new.items (before lists.old.items i + at) gap.0 gap.1) }
    ensures room { IfOk result (λ gap. length (list_at lists.new.items gap.0) < MOST) }
    ensures granted { OnOk result (memory.new ≡ memory.old) }
    ensures refused { OnErr result (memory.new ≢ memory.old) }
{
    if lists[i].len() < MOST {
        return Ok((i, at));
    }
    memory.reserve(lists, 1)?;
    let next = Piece::new(alloc, memory)?;
    Ok(split(lists, i, at, next))
}

/// Makes one list of two that are side by side, if they have few entries.
fn join(lists: &mut Vec<Piece>, i: usize)
    requires list { i < length lists.old.items }
    requires lists { AllSome lists.old.items }
    ensures same { flat lists.new.items ≡ flat lists.old.items }
    ensures lists { AllSome lists.new.items }
    ensures list { i < length lists.new.items }
{
    let next = i + 1;
    if lists.len() <= next || FEW < lists[i].len() + lists[next].len() {
        return;
    }
    let second = lists.remove(next);
    lists[i].append(second);
}

/// Takes a list out that has lost its last entry, or makes one list of it and one at its side, if they have few entries.
fn shrink(lists: &mut Vec<Piece>, i: usize)
    requires list { i < length lists.old.items }
    requires others { AllSome (remove lists.old.items i) }
    ensures same { flat lists.new.items ≡ flat lists.old.items }
    ensures lists { AllSome lists.new.items }
{
    if lists[i].len() == 0 {
        lists.remove(i);
        return;
    }
    join(lists, i);
    if 0 < i {
        join(lists, i - 1);
    }
}

/// Adds an entry at a place of a list. If the list is full, its last entry moves to the next one, and so on up to a list with room.
fn carry_up(lists: &mut Vec<Piece>, i: usize, at: usize, link: Link, room: usize)
    requires place { IsGap lists.old.items (before lists.old.items i + at) i at }
    requires list { room < length lists.old.items }
    requires up { i ≤ room }
    requires room { length (list_at lists.old.items room) < MOST }
    requires lists { AllSome lists.old.items }
    ensures links { flat lists.new.items ≡ insert (flat lists.old.items) (before lists.old.items i + at) link }
    ensures lists { AllSome lists.new.items }
{
    let Some(last) = lists[i].insert_up(at, link) else {
        return;
    };
    let mut carried = last;
    for k in i + 1..room + 1 {
        match lists[k].insert_up(0, carried) {
            None => return,
            Some(last) => carried = last,
        }
    }
    unreachable!()
}

/// The same down to a list with room: the first entry of a full list moves to the list before.
fn carry_down(lists: &mut Vec<Piece>, i: usize, at: usize, link: Link, room: usize)
    requires place { IsGap lists.old.items (before lists.old.items i + at) i at }
    requires down { room ≤ i }
    requires room { length (list_at lists.old.items room) < MOST }
    requires lists { AllSome lists.old.items }
    ensures links { flat lists.new.items ≡ insert (flat lists.old.items) (before lists.old.items i + at) link }
    ensures lists { AllSome lists.new.items }
{
    let Some(first) = lists[i].insert_down(at, link) else {
        return;
    };
    let mut carried = first;
    for k in (room..i).rev() {
        let end = lists[k].len();
        match lists[k].insert_down(end, carried) {
            None => return,
            Some(first) => carried = first,
        }
    }
    unreachable!()
}

/// Adds an entry where its name belongs, in lists of which one has room.
fn put_back(lists: &mut Vec<Piece>, link: Link, room: usize)
    requires list { room < length lists.old.items }
    requires room { length (list_at lists.old.items room) < MOST }
    requires lists { AllSome lists.old.items }
    requires rising { IsTrue (is_sorted name_cmp (pairs (flat lists.old.items))) }
    requires absent { find name_cmp link.name (pairs (flat lists.old.items)) ≡ None }
    ensures links { pairs (flat lists.new.items) ≡ put name_cmp link.name link.node (pairs (flat lists.old.items)) }
    ensures len { length (flat lists.new.items) ≡ length (flat lists.old.items) + 1 }
    ensures lists { AllSome lists.new.items }
{
    let (i, at) = belongs(lists, link.name.name());
    if i < room {
        carry_up(lists, i, at, link, room);
    } else {
        carry_down(lists, i, at, link, room);
    }
}

/// Adds an entry where its name belongs, in the memory of a piece that has no entries, if there is no other room.
fn put_in(lists: &mut Vec<Piece>, link: Link, spare: Piece)
    requires none { spare ≡ [] }
    requires room { vec_len lists.old < vec_capacity lists.old }
    requires lists { AllSome lists.old.items }
    requires rising { IsTrue (is_sorted name_cmp (pairs (flat lists.old.items))) }
    requires absent { find name_cmp link.name (pairs (flat lists.old.items)) ≡ None }
    ensures links { pairs (flat lists.new.items) ≡ put name_cmp link.name link.node (pairs (flat lists.old.items)) }
    ensures len { length (flat lists.new.items) ≡ length (flat lists.old.items) + 1 }
    ensures lists { AllSome lists.new.items }
{
    if lists.is_empty() {
        let mut first = spare;
        first.insert(0, link);
        lists.push_reserved(first);
        return;
    }
    let (i, at) = belongs(lists, link.name.name());
    if lists[i].len() < MOST {
        lists[i].insert(at, link);
        return;
    }
    let (i, at) = split(lists, i, at, spare);
    lists[i].insert(at, link);
}

impl Many {
    /// These entries, in one list. They are in memory for as many as a list may have.
    pub fn new(
        alloc: Global,
        memory: &mut Memory,
        links: &mut Vec<Link>,
    ) -> Result<Box<Many>, AllocError>
        requires some { 0 < length links.old.items }
        requires most { length links.old.items ≤ MOST }
        requires room { MOST ≤ vec_capacity links.old }
        ensures links { IfOk result (λ many. many.value ≡ links.old.items) }
        ensures err { OnErr result (links.new.items ≡ links.old.items) }
        ensures granted { OnOk result (memory.new ≡ memory.old) }
        ensures refused { OnErr result (memory.new ≢ memory.old) }
    {
        let none = Many {
            lists: Vec::new(alloc),
            count: 0,
        };
        let mut many = memory.boxed(alloc, none)?;
        let mut lists = memory.with_room(alloc, 4)?;
        let count = links.len();
        lists.push_reserved(Piece::of(mem::replace(links, Vec::new(alloc))));
        *many = Many { lists, count };
        Ok(many)
    }

    /// How many entries there are.
    pub fn len(&self) -> usize
        ensures { result ≡ length self.now }
    {
        self.count
    }

    /// Where a name is, and its node, or where it belongs.
    #[inline(never)]
    pub fn search(&self, name: &Name) -> Result<(usize, usize), usize>
        requires some { 0 < length self.now }
        requires rising { IsTrue (is_sorted name_cmp (pairs self.now)) }
        ensures { Looks name.now self.now result }
    {
        let (i, there) = locate(&self.lists, name);
        match there {
            Ok(at) => {
                let place = place_of(&self.lists, i, at, self.count);
                Ok((place, self.lists[i].as_slice()[at].node))
            }
            Err(at) => Err(place_of(&self.lists, i, at, self.count)),
        }
    }

    /// The place from which names are above these bytes.
    pub fn above(&self, bytes: &[u8]) -> usize
        requires some { 0 < length self.now }
        requires rising { IsTrue (is_sorted name_cmp (pairs self.now)) }
        ensures { IsCut bytes.now self.now result }
    {
        let i = list_of(&self.lists, bytes);
        let at = above(self.lists[i].as_slice(), bytes);
        place_of(&self.lists, i, at, self.count)
    }

    /// Adds an entry at a place.
    pub fn insert(
        &mut self,
        alloc: Global,
        memory: &mut Memory,
        place: usize,
        link: Link,
    ) -> Result<(), AllocError>
        requires some { 0 < length self.old }
        requires place { place ≤ length self.old }
        ensures ok { OnOk result (self.new ≡ insert self.old place link) }
        ensures err { OnErr result (self.new ≡ self.old) }
        ensures granted { OnOk result (memory.new ≡ memory.old) }
        ensures refused { OnErr result (memory.new ≢ memory.old) }
    {
        let Some(count) = self.count.checked_add(1) else {
            // So many are refused.
            return memory.reserve(&mut self.lists, usize::MAX);
        };
        let (i, at) = gap(&self.lists, place);
        let (i, at) = make_room(alloc, memory, &mut self.lists, i, at)?;
        self.lists[i].insert(at, link);
        self.count = count;
        Ok(())
    }

    /// Takes the entry at a place out.
    pub fn remove(&mut self, place: usize)
        requires { place < length self.old }
        ensures { self.new ≡ remove self.old place }
    {
        let (i, at) = find(&self.lists, place);
        self.lists[i].remove(at);
        self.count -= 1;
        shrink(&mut self.lists, i);
    }

    /// Takes the entry at a place out, and puts it back under a name, where it belongs. It takes no memory.
    pub fn replace(&mut self, place: usize, name: Name, node: usize)
        requires within { place < length self.old }
        requires rising { IsTrue (is_sorted name_cmp (remove (pairs self.old) place)) }
        requires absent { find name_cmp name (remove (pairs self.old) place) ≡ None }
        ensures links { pairs self.new ≡ put name_cmp name node (remove (pairs self.old) place) }
        ensures len { length self.new ≡ length self.old }
    {
        let (i, at) = find(&self.lists, place);
        let mut link = self.lists[i].remove(at);
        reset(&mut link, name, node);
        if self.lists[i].len() == 0 {
            let spare = self.lists.remove(i);
            put_in(&mut self.lists, link, spare);
        } else {
            put_back(&mut self.lists, link, i);
        }
    }

    /// Lets the entry at a place lead to another node.
    pub fn lead(&mut self, place: usize, node: usize)
        requires { place < length self.old }
        ensures leads { Leads self.old self.new place node }
        ensures len { length self.new ≡ length self.old }
    {
        let (i, at) = find(&self.lists, place);
        self.lists[i].lead(at, node);
    }

    /// The entries from a place on, as many as are side by side.
    pub fn from(&self, place: usize) -> &[Link]
        requires { place < length self.now }
        ensures part { result.now ≡ take (length result.now) (drop place self.now) }
        ensures some { 0 < length result.now }
    {
        let (i, at) = find(&self.lists, place);
        &self.lists[i].as_slice()[at..]
    }

    /// The entries before a place, as many as are side by side.
    pub fn until(&self, place: usize) -> &[Link]
        requires some { 0 < place }
        requires place { place ≤ length self.now }
        ensures part { take place self.now ≡ take (place - length result.now) self.now ++ result.now }
        ensures some { 0 < length result.now }
    {
        let (i, at) = find(&self.lists, place - 1);
        &self.lists[i].as_slice()[..at + 1]
    }

    /// The entries in a vector, if they are in one list.
    pub fn take_few(&mut self) -> Option<Vec<Link>>
        ensures few { MatchOption result ((self.new ≡ self.old) × (0 < length self.new)) (λ few. few.items ≡ self.old) }
        ensures most { IfSome result (λ few. length few.items ≤ MOST) }
    {
        if 1 < self.lists.len() {
            return None;
        }
        self.count = 0;
        match self.lists.pop() {
            Some(list) => Some(list.into_vec()),
            None => Some(Vec::new(*self.lists.allocator())),
        }
    }
}

impl Clone for Many {
    ghost is_clone = { λ many copy. copy ≡ many };

    fn clone(&self) -> Result<Many, AllocError> {
        Ok(Many {
            lists: self.lists.clone()?,
            count: self.count,
        })
    }
}
