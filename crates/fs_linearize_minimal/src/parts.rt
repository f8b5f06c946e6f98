//! Entries without some calls.

ghost use Rattle.std.specs.Prelude.{◌≡◌, ◌++◌, IfOk, OnOk};
ghost use Rattle.fs_linearize_histories.specs.Configurations.{is_in};
ghost use Rattle.fs_linearize_minimal.specs.Parts.{begun_in, calls_in, number_of, without};

use crate::copying::copy_of;
use fs_linearize_histories::Heard;
use std::alloc::{AllocError, Global};

/// The number of the call of an entry.
fn number_of(entry: &Heard) -> u64
    ensures { result ≡ number_of entry.now }
{
    match entry {
        Heard::Begin(number, _, _) => number.get(),
        Heard::Return(number, _) => number.get(),
    }
}

/// Whether a number is in a list.
fn is_in(numbers: &[u64], number: u64) -> bool
    ensures { result ≡ is_in number numbers.now }
{
    for other in numbers {
        if number == *other {
            return true;
        }
    }
    false
}

/// The same entries again.
pub(crate) fn copies(alloc: Global, entries: &[Heard]) -> Result<Vec<Heard>, AllocError>
    ensures { IfOk result (λ copies. copies.items ≡ entries.now) }
{
    let mut copies = Vec::new(alloc);
    for entry in entries {
        copies.push(copy_of(alloc, entry)?)?;
    }
    Ok(copies)
}

/// The entries of other calls than these.
pub(crate) fn without(
    alloc: Global,
    calls: &[u64],
    entries: &[Heard],
) -> Result<Vec<Heard>, AllocError>
    ensures { IfOk result (λ left. left.items ≡ without calls.now entries.now) }
{
    let mut left = Vec::new(alloc);
    for entry in entries {
        if !is_in(calls, number_of(entry)) {
            left.push(copy_of(alloc, entry)?)?;
        }
    }
    Ok(left)
}

/// Adds the number of the call that an entry begins, if it begins one.
fn push_begun(entry: &Heard, calls: &mut Vec<u64>) -> Result<(), AllocError>
    ensures { OnOk result (calls.new.items ≡ calls.old.items ++ begun_in entry.now) }
{
    if let Heard::Begin(number, _, _) = entry {
        calls.push(number.get())?;
    }
    Ok(())
}

/// The numbers of the calls that begin, in order.
pub(crate) fn calls_in(alloc: Global, entries: &[Heard]) -> Result<Vec<u64>, AllocError>
    ensures { IfOk result (λ calls. calls.items ≡ calls_in entries.now) }
{
    let mut calls = Vec::new(alloc);
    for entry in entries {
        push_begun(entry, &mut calls)?;
    }
    Ok(calls)
}
