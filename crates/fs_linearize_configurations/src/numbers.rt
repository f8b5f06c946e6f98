//! Lists of call numbers, in order.

ghost use Rattle.std.specs.Prelude.{◌≡◌, ◌≤◌, length, IfOk};
ghost use Rattle.fs_linearize_histories.specs.Configurations.{is_in, place_of, placed, without};

use std::alloc::{AllocError, Global};

/// Whether a number is in a list.
pub(crate) fn is_in(numbers: &[u64], number: u64) -> bool
    ensures { result ≡ is_in number numbers.now }
{
    for other in numbers {
        if number == *other {
            return true;
        }
    }
    false
}

/// The place of the first that is larger.
fn place_of(numbers: &[u64], number: u64) -> usize
    ensures place { result ≡ place_of number numbers.now }
    ensures within { result ≤ length numbers.now }
{
    for (place, other) in numbers.iter().enumerate() {
        if number < *other {
            return place;
        }
    }
    numbers.len()
}

/// The numbers and one more, in order.
pub(crate) fn with(alloc: Global, numbers: &[u64], number: u64) -> Result<Vec<u64>, AllocError>
    ensures { IfOk result (λ v. v.items ≡ placed number numbers.now) }
{
    let mut all = Vec::with_capacity(alloc, numbers.len() + 1)?;
    all.extend_from_slice(numbers)?;
    all.insert(place_of(numbers, number), number)?;
    Ok(all)
}

/// The numbers without one.
pub(crate) fn without(alloc: Global, numbers: &[u64], number: u64) -> Result<Vec<u64>, AllocError>
    ensures { IfOk result (λ v. v.items ≡ without number numbers.now) }
{
    let mut rest = Vec::new(alloc);
    for other in numbers {
        if number != *other {
            rest.push(*other)?;
        }
    }
    Ok(rest)
}
