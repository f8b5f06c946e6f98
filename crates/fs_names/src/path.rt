//! Paths: lists of names from the root.

ghost use Rattle.std.specs.Prelude.{◌≡◌, ◌≢◌, ◌↔◌, ◌≤◌, ◌<◌, ◌+◌, ◌++◌, [], false, IsTrue, None, Some, Ok, Err, IsOk, IfOk, IfErr, OnOk, OnErr, length, map, slice_get, is_some, vec_len, vec_capacity};
ghost use Rattle.std.specs.List.{list_any, AllByRecursion};
ghost use Rattle.fs_names.specs.Names.{IsName};
ghost use Rattle.fs_names.specs.declared.limits.Limits.TheVariants.{V2};
ghost use Rattle.fs_names.specs.Keys.{IsPath, common_len, after_prefix, path_text};
ghost use Rattle.fs_names.specs.Reading.{reading, names, first_fault, name_fault, is_zero, starts_at_root, ends_in_slash, FailsWith};

use crate::fault::PathFault;
use crate::limits::Limits;
use crate::name::{Name, only_dots};
use crate::scan::{after_slashes, cut_name};
use fs_memory::Memory;
use memchr::memchr;
use smallvec::SmallVec;
use std::alloc::{AllocError, Global};
use std::marker::Model;
use std::sync::Arc;

/// The names from the root to a node, at most 2,048: an absolute pathname without dots, symbolic links
/// or a trailing slash (POSIX.1-2017, XBD 4.13, Pathname Resolution).
#[derive(Drop)]
pub struct Path {
    // Copies share the names: a call's path stands in a script, in the record of the call and in its journal. The root
    // shares nothing, and so takes no memory.
    names: Option<Arc<Vec<Name>>>,
}

/// How many names a path holds in itself, before it allocates: none, since each would add to the size of every entry of
/// a journal.
pub const INLINE_NAMES: usize = 0;

/// How many names of a text are cut on the stack before the path is made of them.
const CUT_NAMES: usize = 7;

impl Model for Path {
    ghost use Rattle.std.specs.Prelude.{ℕ, List, option_map};
    ghost use Rattle.std.specs.Arc.{arc_value};
    ghost use Rattle.fs_names.specs.Keys.{IsPath};
    ghost use Rattle.fs_names.specs.code.SharedNames.{shared_names};

    ghost Value = { List (List ℕ) };

    ghost view = { λ p. shared_names (option_map arc_value p.names) };

    ghost invariant = { λ p. IsPath (shared_names (option_map arc_value p.names)) };
}

/// What is wrong under these limits with the bytes of a name that comes after so many others.
#[inline]
fn name_fault(limits: Limits, before: usize, bytes: &[u8]) -> Option<PathFault>
    ensures { result ≡ name_fault limits before bytes.now }
{
    if before >= limits.path_names() {
        return Some(PathFault::TooManyNames);
    }
    if bytes.len() > limits.name() {
        return Some(PathFault::NameTooLong);
    }
    if only_dots(bytes) {
        return Some(PathFault::Dot);
    }
    None
}

/// Cuts bytes without zeros into names, one after the other, up to the first that is wrong. It allocates only for more names
/// than fit on the stack.
fn cut_names<'a>(
    limits: Limits,
    bytes: &'a [u8],
    cut: &mut SmallVec<&'a [u8], CUT_NAMES>,
) -> Result<(), PathFault>
    requires zeros { list_any is_zero bytes.now ≡ false }
    requires empty { cut.old.items ≡ [] }
    requires stack { CUT_NAMES ≤ cut.old.capacity }
    ensures names { OnOk result ((map (λ text. text.now) cut.new.items ≡ names bytes.now) × (first_fault limits 0 (names bytes.now) ≡ None)) }
    ensures fault { IfErr result (λ fault. fault ≢ PathFault.OutOfMemory → first_fault limits 0 (names bytes.now) ≡ Some fault) }
    ensures memory { result ≡ Err PathFault.OutOfMemory → CUT_NAMES < length (names bytes.now) }
{
    let mut left = after_slashes(bytes);
    while !left.is_empty() {
        let (name, rest) = cut_name(left);
        if let Some(fault) = name_fault(limits, cut.len(), name) {
            return Err(fault);
        }
        let Ok(()) = cut.push(name) else {
            return Err(PathFault::OutOfMemory);
        };
        left = rest;
    }
    Ok(())
}

/// The names of these texts, in exactly as much memory.
fn names_of(alloc: Global, texts: &[&[u8]]) -> Result<Vec<Name>, AllocError>
    requires { AllByRecursion IsName (map (λ text. text.now) texts.now) }
    ensures { IfOk result (λ names. names.items ≡ map (λ text. text.now) texts.now) }
{
    let mut names = Vec::with_capacity(alloc, texts.len())?;
    for text in texts {
        let name = Name::of(alloc, text)?;
        names.push_reserved(name);
    }
    Ok(names)
}

/// The path of names that are cut.
fn path_of(alloc: Global, cut: &[&[u8]]) -> Result<Path, PathFault>
    requires { IsPath (map (λ text. text.now) cut.now) }
    ensures path { IfOk result (λ path. path ≡ map (λ text. text.now) cut.now) }
    ensures fault { IfErr result (λ fault. fault ≡ PathFault.OutOfMemory) }
    ensures memory { OnErr result (INLINE_NAMES < length cut.now) }
{
    if cut.is_empty() {
        return Ok(Path { names: None });
    }
    let Ok(names) = names_of(alloc, cut) else {
        return Err(PathFault::OutOfMemory);
    };
    match Arc::new(alloc, names) {
        Ok(names) => Ok(Path { names: Some(names) }),
        Err(_) => Err(PathFault::OutOfMemory),
    }
}

fn starts_at_root(bytes: &[u8]) -> bool
    ensures { result ≡ starts_at_root bytes.now }
{
    match bytes {
        [b, ..] => *b == b'/',
        [] => false,
    }
}

fn ends_in_slash(bytes: &[u8]) -> bool
    ensures { result ≡ ends_in_slash bytes.now }
{
    match bytes.last() {
        Some(b) => *b == b'/',
        None => false,
    }
}

fn has_zero(bytes: &[u8]) -> bool
    ensures { result ≡ list_any is_zero bytes.now }
{
    memchr(0, bytes).is_some()
}

impl Path {
    /// Reads a path by the limits of the second version, as `parse_with` does.
    pub fn parse(alloc: Global, bytes: &[u8]) -> Result<Path, PathFault>
        ensures path { IfOk result (λ path. reading V2 bytes.now ≡ Ok path) }
        ensures fault { IfErr result (λ fault. FailsWith fault (reading V2 bytes.now)) }
        ensures memory { result ≡ Err PathFault.OutOfMemory → INLINE_NAMES < length (names bytes.now) }
    {
        Path::parse_with(alloc, bytes, Limits::V2)
    }

    /// Reads a path by these limits. The fault is the first check that the bytes fail, from left to right; consecutive
    /// slashes count as one, and a path of slashes only is the root. It allocates only for names: for what its copies share,
    /// once all are read and none is wrong; and from the eighth on, for where they are kept until then.
    #[tactic(auto, unfolding(crate::specs::Reading::reading))]
    pub fn parse_with(alloc: Global, bytes: &[u8], limits: Limits) -> Result<Path, PathFault>
        ensures path { IfOk result (λ path. reading limits bytes.now ≡ Ok path) }
        ensures fault { IfErr result (λ fault. FailsWith fault (reading limits bytes.now)) }
        ensures memory { result ≡ Err PathFault.OutOfMemory → INLINE_NAMES < length (names bytes.now) }
    {
        if !starts_at_root(bytes) {
            return Err(PathFault::NotAbsolute);
        }
        if has_zero(bytes) {
            return Err(PathFault::Nul);
        }
        let mut cut = SmallVec::new(alloc);
        if let Err(fault) = cut_names(limits, bytes, &mut cut) {
            return Err(fault);
        }
        if !cut.is_empty() && ends_in_slash(bytes) {
            return Err(PathFault::TrailingSlash);
        }
        path_of(alloc, cut.as_slice())
    }

    /// The same path again, which shares its names with this one. It takes no memory: an `Err` says that the names are
    /// shared so often that their owners are no longer counted.
    pub fn copy(&self) -> Result<Path, AllocError>
        ensures ok { IfOk result (λ path. path ≡ self.now) }
        ensures memory { OnErr result (INLINE_NAMES < length self.now) }
    {
        self.copy_counted(&mut Memory::new())
    }

    /// The same, and a refusal is counted.
    pub fn copy_counted(&self, memory: &mut Memory) -> Result<Path, AllocError>
        ensures ok { IfOk result (λ path. path ≡ self.now) }
        ensures memory { OnErr result (INLINE_NAMES < length self.now) }
        ensures granted { OnOk result (memory.new ≡ memory.old) }
        ensures refused { OnErr result (memory.new ≢ memory.old) }
    {
        match &self.names {
            Some(names) if !self.is_empty() => {
                let names = memory.share(names)?;
                Ok(Path { names: Some(names) })
            }
            _ => Ok(Path { names: None }),
        }
    }

    fn names(&self) -> &[Name]
        ensures names { result.now ≡ self.now }
        ensures path { IsPath self.now }
    {
        match &self.names {
            Some(names) => names.as_slice(),
            None => &[],
        }
    }

    /// How many names it has: none for the root, and at most 2,048.
    pub fn len(&self) -> usize
        ensures len { result ≡ length self.now }
        ensures path { IsPath self.now }
    {
        self.names().len()
    }

    /// Whether it is the root, which has no names.
    pub fn is_empty(&self) -> bool
        ensures { IsTrue result ↔ (self.now ≡ []) }
    {
        self.len() == 0
    }

    /// The name at a place, counted from 0.
    pub fn name(&self, i: usize) -> &Name
        requires { i < length self.now }
        ensures { slice_get self.now i ≡ Some result.now }
    {
        &self.names()[i]
    }

    /// Whether the other path begins with all names of this one; each path does so with its own.
    pub fn is_prefix_of(&self, other: &Path) -> bool
        ensures { result ≡ is_some (after_prefix self.now other.now) }
    {
        self.common(other) == self.len()
    }

    /// How many leading names of the two paths are equal: at most as many as either has.
    pub fn common(&self, other: &Path) -> usize
        ensures { result ≡ common_len self.now other.now }
    {
        let mut i = 0;
        while i < self.len() && i < other.len() && self.name(i).same(other.name(i)) {
            i += 1;
        }
        i
    }

    /// How many bytes the path is written in.
    fn text_len(&self) -> usize
        ensures { result ≡ length (path_text self.now) }
    {
        let names = self.names();
        if names.is_empty() {
            return 1;
        }
        let mut len = 0;
        for name in names {
            len += 1 + name.bytes().len();
        }
        len
    }

    /// Appends the path as it is read again: a slash for the root, else each name after a slash. The text grows by
    /// its own allocator, at most once and before anything is written, so a failed allocation leaves it as it was.
    pub fn write(&self, text: &mut Vec<u8>) -> Result<(), AllocError>
        ensures ok { OnOk result (text.new.items ≡ text.old.items ++ path_text self.now) }
        ensures err { OnErr result (text.new.items ≡ text.old.items) }
        ensures path { OnOk result (IsPath self.now) }
        ensures has_room { vec_len text.old + length (path_text self.now) ≤ vec_capacity text.old → IsOk result }
    {
        text.reserve(self.text_len())?;
        let names = self.names();
        if names.is_empty() {
            text.push_reserved(b'/');
        }
        for name in names {
            text.push_reserved(b'/');
            let _room_was_reserved = text.extend_from_slice(name.bytes());
        }
        Ok(())
    }
}
