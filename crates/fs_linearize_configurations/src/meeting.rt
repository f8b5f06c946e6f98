//! Calls that meet, and which have to do with the return of a call.

ghost use Rattle.std.specs.Prelude.{◌≡◌, ◌==◌, not, IfOk};
ghost use Rattle.std.specs.List.{list_any, filter};
ghost use Rattle.fs_linearize_histories.specs.Meeting.{paths_of, paths_meet, calls_meet};
ghost use Rattle.fs_linearize_configurations.specs.code.Calls.{AreNear};

use crate::under_way::UnderWay;
use fs_calls::{Call, Target};
use fs_names::Path;
use std::alloc::{AllocError, Global};

/// Whether two paths meet: one is the other or a prefix of it, or, where siblings meet, both have one parent.
fn paths_meet(siblings: bool, path: &Path, other: &Path) -> bool
    ensures { result ≡ paths_meet siblings path.now other.now }
{
    if path.is_prefix_of(other) || other.is_prefix_of(path) {
        return true;
    }
    siblings && path.has_parent_of(other)
}

/// Whether a path meets one of a call.
fn path_meets(siblings: bool, path: &Path, call: &Call) -> bool
    ensures { result ≡ list_any (paths_meet siblings path.now) (paths_of call.now) }
{
    match call.target() {
        Target::Node(_, other) | Target::Entry(_, other) => paths_meet(siblings, path, other),
        Target::Pair(_, one, other) => {
            paths_meet(siblings, path, one) || paths_meet(siblings, path, other)
        }
    }
}

/// Whether two calls meet: a path of one meets a path of the other.
pub fn calls_meet(siblings: bool, call: &Call, with: &Call) -> bool
    ensures { result ≡ calls_meet siblings call.now with.now }
{
    match call.target() {
        Target::Node(_, path) | Target::Entry(_, path) => path_meets(siblings, path, with),
        Target::Pair(_, one, other) => {
            path_meets(siblings, one, with) || path_meets(siblings, other, with)
        }
    }
}

/// Some of the calls, and the others.
#[derive(Drop)]
struct Parted<'a> {
    some: Vec<UnderWay<'a>>,
    others: Vec<UnderWay<'a>>,
}

/// The calls of a number, and the others.
fn of_number<'a>(
    alloc: Global,
    calls: &[UnderWay<'a>],
    number: u64,
) -> Result<Parted<'a>, AllocError>
    ensures some { IfOk result (λ parted. parted.some.items ≡ filter (λ u. number == u.number) calls.now) }
    ensures others { IfOk result (λ parted. parted.others.items ≡ filter (λ u. not (number == u.number)) calls.now) }
{
    let mut some = Vec::new(alloc);
    let mut others = Vec::with_capacity(alloc, calls.len())?;
    for call in calls {
        if number == call.number {
            some.push(*call)?;
        } else {
            others.push(*call)?;
        }
    }
    Ok(Parted { some, others })
}

/// The calls that meet one, and the others.
fn that_meet<'a>(
    alloc: Global,
    calls: &[UnderWay<'a>],
    siblings: bool,
    one: &Call,
) -> Result<Parted<'a>, AllocError>
    ensures some { IfOk result (λ parted. parted.some.items ≡ filter (λ u. calls_meet siblings one.now u.call.now) calls.now) }
    ensures others { IfOk result (λ parted. parted.others.items ≡ filter (λ u. not (calls_meet siblings one.now u.call.now)) calls.now) }
{
    let mut some = Vec::new(alloc);
    let mut others = Vec::with_capacity(alloc, calls.len())?;
    for call in calls {
        if calls_meet(siblings, one, call.call) {
            some.push(*call)?;
        } else {
            others.push(*call)?;
        }
    }
    Ok(Parted { some, others })
}

/// The calls that have to do with the return of one: itself, those that meet it, those that meet one of these, and so on.
pub fn near<'a>(
    alloc: Global,
    calls: &[UnderWay<'a>],
    number: u64,
    siblings: bool,
) -> Result<Vec<UnderWay<'a>>, AllocError>
    ensures { IfOk result (λ near. AreNear number siblings calls.now near.items) }
{
    let Parted { some, others } = of_number(alloc, calls, number)?;
    let mut near = some;
    let mut rest = others;
    for place in 0..calls.len() {
        if near.len() <= place {
            return Ok(near);
        }
        let mut parted = that_meet(alloc, &rest, siblings, near[place].call)?;
        near.append(&mut parted.some)?;
        rest = parted.others;
    }
    Ok(near)
}
