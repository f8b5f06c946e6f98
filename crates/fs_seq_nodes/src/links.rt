//! The entries of a directory, in one list or in several.

ghost use Rattle.std.specs.Prelude.{◌≡◌, ◌≢◌, ◌≤◌, ◌<◌, ◌-◌, ◌++◌, [], None, IsTrue, OnOk, OnErr, length, take, drop, insert, remove, vec_len};
ghost use Rattle.std.specs.FinMap.{find, put, is_sorted};
ghost use Rattle.fs_names.specs.Names.{name_cmp};
ghost use Rattle.fs_seq_nodes.specs.code.Entries.{pairs};
ghost use Rattle.fs_seq_nodes.specs.code.Lists.{IsCut, Leads, Looks};

use crate::many::Many;
use crate::nodes::{Link, above, reset, search};
use crate::piece::MOST;
use fs_memory::Memory;
use fs_names::Name;
use std::alloc::{AllocError, Global};
use std::marker::Model;

/// Where the entries are.
#[derive(Drop)]
enum Lists {
    /// In one list.
    Few(Vec<Link>),
    /// In several.
    Many(Box<Many>),
}

/// The entries of a directory, seen as their list. Up to 512 are in one list, and more are in lists of at most 512, so that
/// an entry that comes or goes moves those of one or two lists. A place is a number in the whole directory.
#[derive(Drop)]
pub struct Links {
    lists: Lists,
}

impl Model for Links {
    ghost use Rattle.std.specs.Prelude.{List};
    ghost use Rattle.fs_seq_nodes.specs.declared.nodes.Link.{Link};
    ghost use Rattle.fs_seq_nodes.specs.code.Forms.{links_in, IsProper};

    ghost Value = { List Link };

    ghost view = { λ l. links_in l.lists };

    ghost invariant = { λ l. IsProper l.lists };
}

/// Adds an entry at a place of one list.
#[inline]
fn add(
    memory: &mut Memory,
    links: &mut Vec<Link>,
    place: usize,
    link: Link,
) -> Result<(), AllocError>
    requires { place ≤ vec_len links.old }
    ensures ok { OnOk result (links.new.items ≡ insert links.old.items place link) }
    ensures err { OnErr result (links.new.items ≡ links.old.items) }
    ensures granted { OnOk result (memory.new ≡ memory.old) }
    ensures refused { OnErr result (memory.new ≢ memory.old) }
{
    memory.reserve(links, 1)?;
    match links.insert(place, link) {
        Ok(()) => Ok(()),
        Err(_) => unreachable!(),
    }
}

/// Takes the entry at a place of one list out, and puts it back under a name, where it belongs, in the capacity that it had.
fn replace(links: &mut Vec<Link>, place: usize, name: Name, node: usize)
    requires within { place < length links.old.items }
    requires rising { IsTrue (is_sorted name_cmp (remove (pairs links.old.items) place)) }
    requires absent { find name_cmp name (remove (pairs links.old.items) place) ≡ None }
    ensures links { pairs links.new.items ≡ put name_cmp name node (remove (pairs links.old.items) place) }
    ensures len { length links.new.items ≡ length links.old.items }
{
    let mut link = links.remove(place);
    let Err(at) = search(links, &name) else {
        unreachable!();
    };
    reset(&mut link, name, node);
    match links.insert(at, link) {
        Ok(()) => {}
        Err(_) => unreachable!(),
    }
}

/// Lets the entry at a place of one list lead to another node.
fn lead(links: &mut Vec<Link>, place: usize, node: usize)
    requires { place < length links.old.items }
    ensures leads { Leads links.old.items links.new.items place node }
    ensures len { length links.new.items ≡ length links.old.items }
{
    links[place].node = node;
}

impl Links {
    /// No entries.
    pub fn new(alloc: Global) -> Links
        ensures { result ≡ [] }
    {
        Links {
            lists: Lists::Few(Vec::new(alloc)),
        }
    }

    /// How many entries there are.
    #[inline]
    pub fn len(&self) -> usize
        ensures { result ≡ length self.now }
    {
        match &self.lists {
            Lists::Few(few) => few.len(),
            Lists::Many(many) => many.len(),
        }
    }

    /// The node to which a name leads, if it is there.
    #[inline(always)]
    pub fn node(&self, name: &Name) -> Option<usize>
        requires { IsTrue (is_sorted name_cmp (pairs self.now)) }
        ensures { result ≡ find name_cmp name.now (pairs self.now) }
    {
        match &self.lists {
            Lists::Few(few) => match search(few, name) {
                Ok(at) => Some(few[at].node),
                Err(_) => None,
            },
            Lists::Many(many) => match many.search(name) {
                Ok((_, node)) => Some(node),
                Err(_) => None,
            },
        }
    }

    /// Where a name is, and its node, or where it belongs.
    #[inline]
    pub fn search(&self, name: &Name) -> Result<(usize, usize), usize>
        requires { IsTrue (is_sorted name_cmp (pairs self.now)) }
        ensures { Looks name.now self.now result }
    {
        match &self.lists {
            Lists::Few(few) => match search(few, name) {
                Ok(at) => Ok((at, few[at].node)),
                Err(at) => Err(at),
            },
            Lists::Many(many) => many.search(name),
        }
    }

    /// The place from which names are above these bytes, which are all names where there are no bytes.
    pub fn above(&self, bytes: &[u8]) -> usize
        requires { IsTrue (is_sorted name_cmp (pairs self.now)) }
        ensures { IsCut bytes.now self.now result }
    {
        match &self.lists {
            Lists::Few(few) => above(few, bytes),
            Lists::Many(many) => many.above(bytes),
        }
    }

    /// The entries from a place on, as many as are side by side.
    pub fn from(&self, place: usize) -> &[Link]
        requires { place < length self.now }
        ensures part { result.now ≡ take (length result.now) (drop place self.now) }
        ensures some { 0 < length result.now }
    {
        match &self.lists {
            Lists::Few(few) => &few[place..],
            Lists::Many(many) => many.from(place),
        }
    }

    /// The entries before a place, as many as are side by side.
    pub fn until(&self, place: usize) -> &[Link]
        requires some { 0 < place }
        requires place { place ≤ length self.now }
        ensures part { take place self.now ≡ take (place - length result.now) self.now ++ result.now }
        ensures some { 0 < length result.now }
    {
        match &self.lists {
            Lists::Few(few) => &few[..place],
            Lists::Many(many) => many.until(place),
        }
    }

    /// Adds an entry at a place.
    #[inline]
    pub fn insert(
        &mut self,
        alloc: Global,
        memory: &mut Memory,
        place: usize,
        link: Link,
    ) -> Result<(), AllocError>
        requires { place ≤ length self.old }
        ensures ok { OnOk result (self.new ≡ insert self.old place link) }
        ensures err { OnErr result (self.new ≡ self.old) }
        ensures granted { OnOk result (memory.new ≡ memory.old) }
        ensures refused { OnErr result (memory.new ≢ memory.old) }
    {
        match &mut self.lists {
            Lists::Few(few) => {
                if few.len() < MOST {
                    return add(memory, few, place, link);
                }
                let mut many = Many::new(alloc, memory, few)?;
                let added = many.insert(alloc, memory, place, link);
                self.lists = Lists::Many(many);
                added
            }
            Lists::Many(many) => many.insert(alloc, memory, place, link),
        }
    }

    /// Takes the entry at a place out.
    #[inline]
    pub fn remove(&mut self, place: usize)
        requires { place < length self.old }
        ensures { self.new ≡ remove self.old place }
    {
        let few = match &mut self.lists {
            Lists::Few(few) => {
                few.remove(place);
                return;
            }
            Lists::Many(many) => {
                many.remove(place);
                many.take_few()
            }
        };
        if let Some(few) = few {
            self.lists = Lists::Few(few);
        }
    }

    /// Takes the entry at a place out, and puts it back under a name, where it belongs. It takes no memory.
    pub fn replace(&mut self, place: usize, name: Name, node: usize)
        requires within { place < length self.old }
        requires rising { IsTrue (is_sorted name_cmp (remove (pairs self.old) place)) }
        requires absent { find name_cmp name (remove (pairs self.old) place) ≡ None }
        ensures { pairs self.new ≡ put name_cmp name node (remove (pairs self.old) place) }
    {
        match &mut self.lists {
            Lists::Few(few) => replace(few, place, name, node),
            Lists::Many(many) => many.replace(place, name, node),
        }
    }

    /// Lets the entry at a place lead to another node.
    pub fn lead(&mut self, place: usize, node: usize)
        requires { place < length self.old }
        ensures { Leads self.old self.new place node }
    {
        match &mut self.lists {
            Lists::Few(few) => lead(few, place, node),
            Lists::Many(many) => many.lead(place, node),
        }
    }
}

impl Clone for Links {
    ghost is_clone = { λ links copy. copy ≡ links };

    fn clone(&self) -> Result<Links, AllocError> {
        let lists = match &self.lists {
            Lists::Few(few) => Lists::Few(few.clone()?),
            Lists::Many(many) => Lists::Many(many.clone()?),
        };
        Ok(Links { lists })
    }
}
