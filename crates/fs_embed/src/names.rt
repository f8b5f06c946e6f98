//! Names of a reply, as a caller's bytes hold them.

ghost use Rattle.std.specs.Prelude.{◌≡◌, ◌++◌, ◌∷◌, [], IfOk, OnOk, MatchOption};
ghost use Rattle.std.specs.Ordering.{is_lt};
ghost use Rattle.fs_names.specs.Names.{name_cmp};
ghost use Rattle.fs_embed.specs.Texts.{names_text, IsShownText};
ghost use Rattle.fs_embed.specs.code.Shown.{behind, fitting, shown};

use fs_names::{NameList, Names};
use std::alloc::{AllocError, Global};
use std::cmp::Ordering;

/// A name, and a byte 0 after it.
fn push_name(name: &[u8], text: &mut Vec<u8>) -> Result<(), AllocError>
    ensures { OnOk result (text.new.items ≡ text.old.items ++ name.now ++ 0 ∷ []) }
{
    text.extend_from_slice(name)?;
    text.push(0)?;
    Ok(())
}

/// The text of names, a byte 0 after each. The only error is out of memory.
pub fn names_text(alloc: Global, names: &NameList) -> Result<Vec<u8>, AllocError>
    ensures { IfOk result (λ text. text.items ≡ names_text names.now) }
{
    let mut text = Vec::new(alloc);
    let mut left = names.names();
    'names: while let Some(name) = left.next() {
        push_name(name, &mut text)?;
    }
    Ok(text)
}

/// Whether a name comes after bytes in byte order.
fn comes_behind(name: &[u8], after: &[u8]) -> bool
    ensures { result ≡ is_lt (name_cmp after.now name.now) }
{
    match after.cmp(name) {
        Ordering::Less => true,
        _ => false,
    }
}

/// Takes names up to the first that comes after a name in byte order.
fn first_behind<'a>(left: &mut Names<'a>, after: &[u8]) -> Option<&'a [u8]>
    ensures { MatchOption result (behind after.now left.old ≡ []) (λ first. behind after.now left.old ≡ first.now ∷ left.new) }
{
    'names: while let Some(name) = left.next() {
        if comes_behind(name, after) {
            return Some(name);
        }
    }
    None
}

/// Adds names to a text, each with the byte after it: as many of the first as there is room for.
fn push_fitting(left: &mut Names<'_>, room: usize, text: &mut Vec<u8>) -> Result<(), AllocError>
    ensures { OnOk result (text.new.items ≡ text.old.items ++ names_text (fitting room left.old)) }
{
    let mut free = room;
    'names: while let Some(name) = left.next() {
        if free <= name.len() {
            return Ok(());
        }
        free -= name.len() + 1;
        push_name(name, text)?;
    }
    Ok(())
}

/// Adds the names to a text that come after a name in byte order: as many of the first of them as there is room for,
/// and the first in any case.
fn push_behind(
    names: &NameList,
    after: &[u8],
    room: usize,
    text: &mut Vec<u8>,
) -> Result<(), AllocError>
    ensures { OnOk result (text.new.items ≡ text.old.items ++ names_text (shown room (behind after.now names.now))) }
{
    let mut left = names.names();
    let Some(first) = first_behind(&mut left, after) else {
        return Ok(());
    };
    push_name(first, text)?;
    push_fitting(&mut left, room.saturating_sub(first.len() + 1), text)
}

/// The text of the names that come after a name in byte order: as many of the first of them as there is room for, with
/// the byte after each. If there is no room for the first, the text has it all the same, so that a caller sees how much
/// room it needs. The only error is out of memory.
pub fn behind_text(
    alloc: Global,
    names: &NameList,
    after: &[u8],
    room: usize,
) -> Result<Vec<u8>, AllocError>
    ensures { IfOk result (λ text. IsShownText names.now after.now room text.items) }
{
    let mut text = Vec::new(alloc);
    push_behind(names, after, room, &mut text)?;
    Ok(text)
}
