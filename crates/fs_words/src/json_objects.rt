//! Objects of JSON.

ghost use Rattle.std.specs.Prelude.{◌≡◌, ◌++◌, OnOk};
ghost use Rattle.std.specs.List.{flat_map};
ghost use Rattle.fs_words.specs.JsonObjects.{members_text, next_text, object_text, pair_text, value_text};
ghost use Rattle.fs_words.specs.JsonObjects.Value.{Text, Number, Null};
ghost use Rattle.fs_words.specs.code.Kinds.{value_of};

use crate::addition::Addition;
use crate::json_strings::push_string;
use std::alloc::{AllocError, Global};
use std::marker::Model;

/// What a member has.
#[derive(Clone, Copy)]
enum Kind<'a> {
    Text(&'a [u8]),
    Number(u64),
    Null,
}

/// A member of an object: its name, and what it has.
#[derive(Drop)]
pub struct Member<'a> {
    name: &'a [u8],
    kind: Kind<'a>,
}

impl<'a> Model for Member<'a> {
    ghost use Rattle.fs_words.specs.JsonObjects.{Member};
    ghost use Rattle.fs_words.specs.code.Kinds.{value_of};

    ghost Value = { Member };

    ghost view = { λ m. (m.name.now, value_of m.kind) };
}

impl<'a> Member<'a> {
    /// A member that has bytes, as a string.
    pub fn text(name: &'a [u8], bytes: &'a [u8]) -> Member<'a>
        ensures { result ≡ (name.now, Text bytes.now) }
    {
        Member {
            name,
            kind: Kind::Text(bytes),
        }
    }

    /// A member that has a number.
    pub fn number(name: &'a [u8], number: u64) -> Member<'a>
        ensures { result ≡ (name.now, Number number) }
    {
        Member {
            name,
            kind: Kind::Number(number),
        }
    }

    /// A member that has nothing, which is `null`.
    pub fn null(name: &'a [u8]) -> Member<'a>
        ensures { result ≡ (name.now, Null) }
    {
        Member {
            name,
            kind: Kind::Null,
        }
    }
}

/// Adds what a member has.
fn push_value(alloc: Global, kind: &Kind<'_>, text: &mut Addition) -> Result<(), AllocError>
    ensures ok { OnOk result (text.new.added ≡ text.old.added ++ value_text (value_of kind.now)) }
    ensures before { text.new.before ≡ text.old.before }
{
    match kind {
        Kind::Text(bytes) => push_string(alloc, bytes, text),
        Kind::Number(number) => text.push_number(*number),
        Kind::Null => text.push(b"null"),
    }
}

/// Adds a member.
fn push_pair(alloc: Global, member: &Member<'_>, text: &mut Addition) -> Result<(), AllocError>
    ensures ok { OnOk result (text.new.added ≡ text.old.added ++ pair_text member.now) }
    ensures before { text.new.before ≡ text.old.before }
{
    push_string(alloc, member.name, text)?;
    text.push(b":")?;
    push_value(alloc, &member.kind, text)
}

/// Adds a member behind others.
fn push_next(alloc: Global, member: &Member<'_>, text: &mut Addition) -> Result<(), AllocError>
    ensures ok { OnOk result (text.new.added ≡ text.old.added ++ next_text member.now) }
    ensures before { text.new.before ≡ text.old.before }
{
    text.push(b",")?;
    push_pair(alloc, member, text)
}

/// Adds members behind others.
fn push_rest(alloc: Global, members: &[Member<'_>], text: &mut Addition) -> Result<(), AllocError>
    ensures ok { OnOk result (text.new.added ≡ text.old.added ++ flat_map next_text members.now) }
    ensures before { text.new.before ≡ text.old.before }
{
    for member in members {
        push_next(alloc, member, text)?;
    }
    Ok(())
}

/// Adds the members of an object.
fn push_members(
    alloc: Global,
    members: &[Member<'_>],
    text: &mut Addition,
) -> Result<(), AllocError>
    ensures ok { OnOk result (text.new.added ≡ text.old.added ++ members_text members.now) }
    ensures before { text.new.before ≡ text.old.before }
{
    match members {
        [] => text.push(b""),
        [first, rest @ ..] => {
            push_pair(alloc, first, text)?;
            push_rest(alloc, rest, text)
        }
    }
}

/// Adds an object with these members, and a line feed. The only error is out of memory.
pub fn push_object(
    alloc: Global,
    members: &[Member<'_>],
    text: &mut Addition,
) -> Result<(), AllocError>
    ensures ok { OnOk result (text.new.added ≡ text.old.added ++ object_text members.now) }
    ensures before { text.new.before ≡ text.old.before }
{
    text.push(b"{")?;
    push_members(alloc, members, text)?;
    text.push(b"}\n")
}
