//! Calls and replies, and whether they are the same, and what texts are made of.

use crate::spelled::{calls_of, reply_in, return_of};
use crate::transcript::shown;
use anyhow::{Result, bail, ensure};
use fs_calls::{Bytes, Data, NameList, Reply};
use fs_memory::Memory;
use fs_names::{Name, NameRoom};
use fs_text::Addition;
use fs_text::words::parts;
use std::alloc::{AllocError, Global};

/// What comes before and after ` = `.
fn sides(text: &str) -> Result<(&str, &str)> {
    match text.split_once(" = ") {
        Some(sides) => Ok(sides),
        None => bail!("{text}: no two sides"),
    }
}

/// Whether two calls are the same.
pub fn calls(alloc: Global, text: &str) -> Result<String> {
    let (first, second) = sides(text)?;
    let calls = calls_of(alloc, &[first, second])?;
    let is_same = matches!(calls.as_slice(), [first, second] if second.same(first));
    Ok(format!(in alloc; "{is_same}")?)
}

/// Whether two replies are the same.
pub fn same(alloc: Global, text: &str) -> Result<String> {
    let (first, second) = sides(text)?;
    let (first, second) = (return_of(alloc, first)?, return_of(alloc, second)?);
    let is_same = reply_in(&second)?.same(reply_in(&first)?);
    Ok(format!(in alloc; "{is_same}")?)
}

/// The number of an error.
pub fn errno(alloc: Global, name: &str) -> Result<String> {
    let text = format!(in alloc; "failed {name}")?;
    let entries = return_of(alloc, text.as_str())?;
    match reply_in(&entries)? {
        Reply::Failed(errno) => Ok(format!(in alloc; "{}", errno.number())?),
        _ => bail!("{name}: no error"),
    }
}

/// What comes before a place, and after the byte there.
pub fn two_parts(alloc: Global, at: usize, bytes: &[u8]) -> Result<String> {
    ensure!(at < bytes.len(), "a place beyond the end");
    let (front, back) = parts(bytes, at);
    shown(alloc, &[front, back])
}

/// Whether copies of bytes that are written are the same bytes.
fn are_shared(alloc: Global, bytes: &[u8]) -> Result<bool> {
    let written = Data::from_slice(alloc, bytes)?;
    let copy = written.copy()?;
    let other = Data::new(Vec::from_slice(alloc, bytes)?)?;
    Ok(copy.same(&written) && copy.same(&other) && copy.as_slice() == bytes)
}

/// The list of the name that bytes are, or of none.
fn listed(alloc: Global, bytes: &[u8]) -> Result<NameList> {
    let mut room = NameRoom::new(alloc, &mut Memory::new(), 0)?;
    if let Some(name) = Name::read_long(alloc, bytes)? {
        room.push(&name)?;
    }
    Ok(room.into_list())
}

/// Whether a list, and a copy of it, have this name alone, and are the same.
fn tells(list: &NameList, name: &[u8]) -> Result<bool> {
    let copy = list.copy()?;
    let (mut names, mut again) = (list.names(), copy.names());
    let is_told = names.next() == Some(name) && again.next() == Some(name);
    Ok(is_told && names.next().is_none() && again.next().is_none() && copy.same(list))
}

/// Bytes, and their name, put into lists, copied and taken out again.
pub fn held(alloc: Global, bytes: &[u8]) -> Result<String> {
    let list = Bytes::new(Vec::from_slice(alloc, bytes)?);
    let copy = list.copy()?;
    let are_same = copy.same(&list) && copy.as_slice() == bytes && are_shared(alloc, bytes)?;
    let is_told = tells(&listed(alloc, bytes)?, bytes)?;
    let length = list.into_vec().len();
    Ok(format!(in alloc; "{length} bytes, same: {are_same}, the name alone: {is_told}")?)
}

/// Bytes after `|`: as they are, their count, as hex digits, and with escapes.
fn addition(alloc: Global, bytes: &[u8]) -> Result<Addition, AllocError> {
    let mut line = Addition::new(Vec::from_slice(alloc, b"|")?);
    line.push(bytes)?;
    line.push_number(bytes.len() as u64)?;
    line.push_hex(alloc, bytes)?;
    line.push_escaped(alloc, bytes)?;
    Ok(line)
}

/// What was added, and what was there before.
pub fn added(alloc: Global, bytes: &[u8]) -> Result<String> {
    shown(alloc, &[&addition(alloc, bytes)?.kept()])
}

/// What is left once the addition is taken back.
pub fn back(alloc: Global, bytes: &[u8]) -> Result<String> {
    shown(alloc, &[&addition(alloc, bytes)?.taken_back()])
}
