//! Keys, made and compared.

ghost use Rattle.std.specs.Prelude.{◌≡◌, ◌≤◌, ◌++◌, length, is_some, IsTrue, IfOk, OnOk, option_copied};
ghost use Rattle.fs_names.specs.Keys.{after_prefix, parent_of, same_key};

use fs_names::order::compare_keys;
use fs_names::{Name, Path};
use std::alloc::{AllocError, Global};
use std::cmp::Ordering;

/// The names of a path.
#[tactic(auto, using(crate::proofs::KeyLemmas::take_next))]
pub(crate) fn names_of(alloc: Global, path: &Path) -> Result<Vec<Name>, AllocError>
    ensures { IfOk result (λ names. names.items ≡ path.now) }
{
    let mut names = Vec::with_capacity(alloc, path.len())?;
    for i in 0..path.len() {
        names.push(path.name(i).copy()?)?;
    }
    Ok(names)
}

/// Adds the same names again.
fn add(names: &mut Vec<Name>, others: &[Name]) -> Result<(), AllocError>
    ensures { OnOk result (names.new.items ≡ names.old.items ++ others.now) }
{
    for name in others {
        names.push(name.copy()?)?;
    }
    Ok(())
}

/// The names of one list and then of another.
pub(crate) fn joined(alloc: Global, front: &[Name], rest: &[Name]) -> Result<Vec<Name>, AllocError>
    ensures { IfOk result (λ names. names.items ≡ front.now ++ rest.now) }
{
    let mut names = Vec::with_capacity(alloc, front.len() + rest.len())?;
    add(&mut names, front)?;
    add(&mut names, rest)?;
    Ok(names)
}

/// Whether a key begins with all names of another.
#[tactic(auto, using(crate::proofs::KeyLemmas::too_short, crate::proofs::KeyLemmas::prefix_on, crate::proofs::KeyLemmas::prefix_off, crate::proofs::KeyLemmas::prefix_end))]
pub(crate) fn is_prefix(prefix: &[Name], key: &[Name]) -> bool
    ensures prefix { result ≡ is_some (after_prefix prefix.now key.now) }
    ensures within { IsTrue result → length prefix.now ≤ length key.now }
{
    if key.len() < prefix.len() {
        return false;
    }
    for (i, name) in prefix.iter().enumerate() {
        if !name.same(&key[i]) {
            return false;
        }
    }
    true
}

/// What follows a prefix of a key.
#[tactic(auto, using(crate::proofs::KeyLemmas::follows, crate::proofs::KeyLemmas::follows_not))]
pub(crate) fn behind<'a>(prefix: &[Name], key: &'a [Name]) -> Option<&'a [Name]>
    ensures { option_copied result ≡ after_prefix prefix.now key.now }
{
    if is_prefix(prefix, key) {
        Some(&key[prefix.len()..])
    } else {
        None
    }
}

/// The key of the directory in which a key is.
#[tactic(auto, using(crate::proofs::KeyLemmas::parent_take))]
pub(crate) fn parent(key: &[Name]) -> &[Name]
    ensures { result.now ≡ parent_of key.now }
{
    match key {
        [parent @ .., _] => parent,
        [] => key,
    }
}

/// Whether two keys are one.
pub(crate) fn same_key(key: &[Name], other: &[Name]) -> bool
    ensures { result ≡ same_key key.now other.now }
{
    compare_keys(key, other) == Ordering::Equal
}
