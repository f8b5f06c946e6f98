//! Names of entries, one after the other.

ghost use Rattle.std.specs.Prelude.{◌≡◌, ◌≢◌, ◌≤◌, ◌<◌, ◌+◌, ◌++◌, ◌∷◌, [], MatchOption, IfSome, IfOk, OnOk, OnErr, length, vec_len, vec_capacity};
ghost use Rattle.fs_names.specs.Names.{IsName, same_names};
ghost use Rattle.fs_names.specs.Rooms.{IsRoomFor};

use crate::limits::LIST_LIMIT;
use crate::name::Name;
use crate::scan::{after_slashes, cut_name};
use fs_memory::Memory;
use std::alloc::{AllocError, Global};
use std::marker::Model;

/// Names, seen as their list: those of a directory, in byte order. They are in one text, each after a slash, which no
/// name holds. So a list takes one allocation, and a byte beside those of each name.
#[derive(Debug, Drop)]
pub struct NameList {
    text: Vec<u8>,
}

impl Model for NameList {
    ghost use Rattle.std.specs.Prelude.{ℕ, List};
    ghost use Rattle.fs_names.specs.Reading.{names};
    ghost use Rattle.fs_names.specs.code.NameTexts.{IsNameText};

    ghost Value = { List (List ℕ) };

    ghost view = { λ n. names n.text.items };

    ghost invariant = { λ n. IsNameText n.text.items };
}

/// A list that is being made, seen as its names and for how many bytes of text it has room beside them.
#[derive(Drop)]
pub struct NameRoom {
    text: Vec<u8>,
}

impl Model for NameRoom {
    ghost use Rattle.std.specs.Prelude.{◌-◌, vec_capacity, vec_len};
    ghost use Rattle.fs_names.specs.Reading.{names};
    ghost use Rattle.fs_names.specs.Rooms.{RoomForNames};
    ghost use Rattle.fs_names.specs.code.NameTexts.{IsNameText};

    ghost Value = { RoomForNames };

    ghost view = { λ r. record { names = names r.text.items; room = vec_capacity r.text - vec_len r.text } };

    ghost invariant = { λ r. IsNameText r.text.items };
}

/// The names of a list that are still to come, in order.
#[derive(Drop)]
pub struct Names<'a> {
    text: &'a [u8],
}

impl<'a> Model for Names<'a> {
    ghost use Rattle.std.specs.Prelude.{ℕ, List};
    ghost use Rattle.std.specs.List.{AllByRecursion};
    ghost use Rattle.fs_names.specs.Names.{IsName};
    ghost use Rattle.fs_names.specs.Reading.{names};

    ghost Value = { List (List ℕ) };

    ghost view = { λ n. names n.text.now };

    ghost invariant = { λ n. AllByRecursion IsName (names n.text.now) };
}

/// The most bytes that a name takes up in a list: as many as it can have, and a slash.
pub const NAME_TEXT: usize = 256;

/// Appends a slash and a name to a text that has room for them.
fn append(text: &mut Vec<u8>, name: &Name)
    requires room { vec_len text.old + length name.now + 1 ≤ vec_capacity text.old }
    ensures text { text.new.items ≡ text.old.items ++ 47 ∷ name.now }
    ensures len { vec_len text.new ≡ vec_len text.old + length name.now + 1 }
    ensures capacity { vec_capacity text.old ≤ vec_capacity text.new }
    ensures named { IsName name.now }
{
    text.push_reserved(b'/');
    let _there_is_room = text.extend_from_slice(name.bytes());
}

impl NameRoom {
    /// No names, and room for a text of so many bytes: for each name one more than it has.
    pub fn new(alloc: Global, memory: &mut Memory, count: usize) -> Result<NameRoom, AllocError>
        ensures names { IfOk result (λ room. room.names ≡ []) }
        ensures room { IfOk result (λ room. count ≤ room.room) }
        ensures some { OnErr result (0 < count) }
        ensures granted { OnOk result (memory.new ≡ memory.old) }
        ensures refused { OnErr result (memory.new ≢ memory.old) }
    {
        let text = memory.with_room(alloc, count)?;
        Ok(NameRoom { text })
    }

    /// No names, and room for so many, of any length.
    pub fn for_names(
        alloc: Global,
        memory: &mut Memory,
        count: usize,
    ) -> Result<NameRoom, AllocError>
        requires { count ≤ LIST_LIMIT }
        ensures ok { IfOk result (IsRoomFor count) }
        ensures some { OnErr result (0 < count) }
        ensures granted { OnOk result (memory.new ≡ memory.old) }
        ensures refused { OnErr result (memory.new ≢ memory.old) }
    {
        NameRoom::new(alloc, memory, count * NAME_TEXT)
    }

    /// One name more, for which there is room.
    fn put(&mut self, name: &Name)
        requires { length name.now + 1 ≤ self.old.room }
        ensures names { self.new.names ≡ self.old.names ++ name.now ∷ [] }
        ensures room { self.old.room ≤ self.new.room + length name.now + 1 }
    {
        append(&mut self.text, name);
    }

    /// One name more, where there is room for one of any length.
    pub fn push_reserved(&mut self, name: &Name)
        requires { NAME_TEXT ≤ self.old.room }
        ensures names { self.new.names ≡ self.old.names ++ name.now ∷ [] }
        ensures room { self.old.room ≤ self.new.room + NAME_TEXT }
    {
        // A name has no more than 255 bytes.
        let _ = name.bytes();
        self.put(name);
    }

    /// One name more. After an error the names are as before.
    pub fn push(&mut self, name: &Name) -> Result<(), AllocError>
        ensures ok { OnOk result (self.new.names ≡ self.old.names ++ name.now ∷ []) }
        ensures err { OnErr result (self.new.names ≡ self.old.names) }
    {
        self.text.reserve(name.bytes().len() + 1)?;
        self.put(name);
        Ok(())
    }

    /// The list, which gives back the room that is left.
    pub fn into_list(self) -> NameList
        ensures { result ≡ self.names }
    {
        let NameRoom { mut text } = self;
        text.shrink_to_fit();
        NameList { text }
    }
}

impl NameList {
    /// The names, in order.
    pub fn names(&self) -> Names<'_>
        ensures { result ≡ self.now }
    {
        Names {
            text: self.text.as_slice(),
        }
    }

    /// Whether the other names are the same, in the same order.
    pub fn same(&self, other: &NameList) -> bool
        ensures { result ≡ same_names self.now other.now }
    {
        self.text == other.text
    }

    /// The same names again.
    pub fn copy(&self) -> Result<NameList, AllocError>
        ensures { IfOk result (λ names. names ≡ self.now) }
    {
        let text = self.text.clone()?;
        Ok(NameList { text })
    }
}

impl<'a> Names<'a> {
    /// The bytes of the next name, or `None` after the last one.
    pub fn next(&mut self) -> Option<&'a [u8]>
        ensures next { MatchOption result (self.old ≡ []) (λ name. self.old ≡ name.now ∷ self.new) }
        ensures named { IfSome result (λ name. IsName name.now) }
    {
        let text = after_slashes(self.text);
        if text.is_empty() {
            return None;
        }
        let (name, rest) = cut_name(text);
        self.text = rest;
        Some(name)
    }
}
