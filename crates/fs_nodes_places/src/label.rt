//! The name of an entry, with its first bytes as one number.

ghost use Rattle.std.specs.Prelude.{◌≡◌, ◌≤◌, IsTrue, nat_le, Some, length};
ghost use Rattle.fs_names.specs.Names.{name_cmp};
ghost use Rattle.fs_names.specs.Heads.{IsHead};
ghost use Rattle.fs_nodes_places.specs.Stores.{is_above};
ghost use Rattle.fs_nodes_places.specs.code.Keys.{key_of};

use crate::key::Key;
use fs_names::Name;
use fs_names::order::{WIDTH, cmp_behind};
use std::cmp::Ordering;
use std::marker::Model;

/// A name that is compared by one number, unless a longer one has the same first eight bytes.
#[derive(Drop)]
pub struct Label {
    head: u64,
    name: Name,
}

impl Model for Label {
    ghost use Rattle.fs_names.specs.Names.{Name};
    ghost use Rattle.fs_names.specs.Heads.{IsHead};

    ghost Value = { Name };

    ghost view = { λ l. l.name };

    ghost invariant = { λ l. IsHead l.head l.name };
}

/// Whether all bytes of a name are in its number.
#[inline(always)]
pub fn is_short(name: &Name) -> bool
    ensures { result ≡ nat_le (length name.now) WIDTH }
{
    name.len() <= WIDTH
}

impl Label {
    /// The label of a name.
    pub fn new(name: Name) -> Label
        ensures { result ≡ name }
    {
        Label {
            head: name.head(),
            name,
        }
    }

    /// The name.
    pub fn name(&self) -> &Name
        ensures { result.now ≡ self.now }
    {
        &self.name
    }

    /// Its first eight bytes as one number.
    pub fn head(&self) -> u64
        ensures { IsHead result self.now }
    {
        self.head
    }

    /// The key of an entry of this name.
    pub fn key(&self, dir: usize) -> Key
        ensures { result ≡ key_of dir self.now }
    {
        Key::new(dir, self.head, &self.name)
    }

    /// How it compares with a name whose first bytes are this number.
    pub fn cmp(&self, first: u64, name: &Name) -> Ordering
        requires { IsHead first name.now }
        ensures { result ≡ name_cmp self.now name.now }
    {
        if self.head < first {
            return Ordering::Less;
        }
        if first < self.head {
            return Ordering::Greater;
        }
        let own = self.name.len();
        let others = name.len();
        // A name holds no zero byte, so where all bytes stand in the numbers, names with the same number are the same.
        if own <= WIDTH && others <= WIDTH {
            return Ordering::Equal;
        }
        cmp_behind(&self.name, name)
    }

    /// Whether it is a name whose first bytes are this number, and which has no others.
    #[inline(always)]
    pub fn is_word(&self, first: u64, name: &Name) -> bool
        requires { IsHead first name.now }
        ensures same { IsTrue result → self.now ≡ name.now }
        ensures short { self.now ≡ name.now → length name.now ≤ WIDTH → IsTrue result }
    {
        let own = self.name.len();
        let others = name.len();
        self.head == first && own <= WIDTH && others <= WIDTH
    }

    /// Whether it comes after another one.
    pub fn is_after(&self, other: &Label) -> bool
        ensures { result ≡ is_above (Some other.now) self.now }
    {
        other.cmp(self.head, &self.name) == Ordering::Less
    }
}

/// The label of a place whose node no entry names: it says nothing.
impl Default for Label {
    fn default() -> Self {
        Label::new(Name::default())
    }
}
