//! Names, paths and numbers, compared.

use crate::transcript::{bytes_of, shown};
use anyhow::{Result, bail};
use fs_names::{CallNo, Limits, Name, Path, PathFault, SeatNo};
use std::alloc::Global;

/// The name that bytes are, of any length.
fn name_of(alloc: Global, text: &str) -> Result<Name> {
    match Name::read_long(alloc, &bytes_of(alloc, text)?)? {
        Some(name) => Ok(name),
        None => bail!("{text}: no name"),
    }
}

/// How two names compare.
pub fn order(alloc: Global, first: &str, second: &str) -> Result<String> {
    let first = name_of(alloc, first)?;
    let second = name_of(alloc, second)?;
    let (order, is_same) = (first.cmp(&second), first.same(&second));
    let is_above = first.is_above(second.bytes());
    Ok(format!(in alloc; "{order:?} {is_same} {is_above}")?)
}

/// The path that bytes are.
fn path_of(alloc: Global, text: &str) -> Result<Path> {
    Ok(Path::parse_with(alloc, text.as_bytes(), Limits::LARGEST)?)
}

/// How many names two paths have in common, and how they compare.
fn compared(alloc: Global, first: &Path, second: &Path) -> Result<String> {
    let (common, is_prefix) = (first.common(second), first.is_prefix_of(second));
    let (is_proper, is_same) = (first.is_proper_prefix_of(second), first.same(second));
    let one_parent = first.has_parent_of(second);
    Ok(format!(in alloc;
        "{common} in common, prefix: {is_prefix}, proper: {is_proper}, same: {is_same}, one parent: {one_parent}"
    )?)
}

/// The same of the paths that bytes are.
pub fn paths(alloc: Global, first: &str, second: &str) -> Result<String> {
    let first = path_of(alloc, first)?;
    let second = path_of(alloc, second)?;
    compared(alloc, &first, &second)
}

/// How many names the parent has, and the last name, if any.
pub fn parent(alloc: Global, text: &str) -> Result<String> {
    let path = path_of(alloc, text)?;
    let above = format!(in alloc; "{}", path.parent_len())?;
    if path.is_empty() {
        return Ok(above);
    }
    shown(alloc, &[above.as_bytes(), path.last_name().bytes()])
}

/// Which bytes a copy of a name has.
pub fn again(alloc: Global, text: &str) -> Result<String> {
    let name = name_of(alloc, text)?;
    let copy = name.copy()?;
    shown(alloc, &[copy.bytes()])
}

/// How many names a copy has, and in common with its path.
pub fn copy(alloc: Global, text: &str) -> Result<String> {
    let path = path_of(alloc, text)?;
    let copy = path.copy()?;
    let (names, common, is_root) = (copy.len(), copy.common(&path), path.is_empty());
    Ok(format!(in alloc; "{names} names, {common} in common, root: {is_root}")?)
}

/// How the numbers of calls, and of seats, compare.
pub fn numbers(alloc: Global, first: u64, second: u64) -> Result<String> {
    let (call, seat) = (CallNo::new(first), SeatNo::new(first));
    let order = call.cmp(&CallNo::new(second));
    let is_same = seat == SeatNo::new(second);
    let (call, seat) = (call.get(), seat.get());
    Ok(format!(in alloc; "{call} {seat} {order:?} {is_same}")?)
}

/// What no bytes are, as a path and as a name.
pub fn nothing(alloc: Global) -> Result<String> {
    let is_name = Name::read(b"").is_some() || Name::read_long(alloc, b"")?.is_some();
    match Path::parse(alloc, b"") {
        Ok(_path) => Ok(format!(in alloc; "a path, a name: {is_name}")?),
        Err(fault) => Ok(format!(in alloc; "{fault}, a name: {is_name}")?),
    }
}

/// The words of all faults of paths.
pub fn faults(alloc: Global) -> Result<String> {
    let faults = [
        PathFault::NotAbsolute,
        PathFault::Nul,
        PathFault::NameTooLong,
        PathFault::TooManyNames,
        PathFault::Dot,
        PathFault::TrailingSlash,
        PathFault::OutOfMemory,
    ];
    let mut text = String::new(alloc);
    for fault in faults {
        text.push_str(format!(in alloc; "[{fault}]")?.as_str())?;
    }
    Ok(text)
}
