//! The paths of a call, the name that it may give to an entry, and how the paths of a call on two entries relate.

ghost use Rattle.std.specs.Prelude.{ℕ, ◌≡◌};
ghost use Rattle.std.specs.Option.{option_copied};
ghost use Rattle.fs_names.specs.Keys.{after_prefix, is_proper_prefix, last_of, parent_of, is_end};
ghost use Rattle.fs_names.specs.declared.limits.Limits.{Limits};
ghost use Rattle.fs_calls.specs.code.Targets.{form_of};
ghost use Rattle.fs_ops_effects.specs.Lows.{bytes_above};
ghost use Rattle.fs_ops_effects.specs.Paths.{first_path, second_path, last_name, new_name};

use crate::entries::kind_of;
use fs_calls::{PairCall, Target};
use fs_names::{Name, Path};

/// The path that a call walks first.
pub fn first_path<'a>(aim: Target<'a>) -> &'a Path
    ensures { (limits : Limits) → result.now ≡ first_path (form_of limits aim.entry) }
{
    match aim {
        Target::Node(_, path) | Target::Entry(_, path) | Target::Pair(_, path, _) => path,
    }
}

/// The path that it walks second: for all calls but those on two entries the same one.
pub fn second_path<'a>(aim: Target<'a>) -> &'a Path
    ensures { (limits : Limits) → result.now ≡ second_path (form_of limits aim.entry) }
{
    match aim {
        Target::Node(_, path) | Target::Entry(_, path) | Target::Pair(_, _, path) => path,
    }
}

/// The last name of a path, if it has one.
pub fn last_name(path: &Path) -> Option<&Name>
    ensures name { option_copied result ≡ last_name path.now }
    ensures bytes { bytes_above (option_copied result) ≡ last_of path.now }
{
    if path.is_empty() {
        None
    } else {
        Some(path.last_name())
    }
}

/// The name that a call may give to an entry.
pub fn new_name<'a>(aim: Target<'a>) -> Option<&'a Name>
    ensures { (limits : Limits) → option_copied result ≡ new_name (form_of limits aim.entry) }
{
    match aim {
        Target::Entry(entry, path) if kind_of(entry).is_some() => last_name(path),
        Target::Pair(PairCall::Rename, _, new_path) => last_name(new_path),
        Target::Node(_, _) | Target::Entry(_, _) | Target::Pair(PairCall::Exchange, _, _) => None,
    }
}

/// How the paths of a call on two entries relate.
#[derive(Clone, Copy, Debug, PartialEq, Eq)]
pub struct Paths {
    /// Both are the same.
    pub same: bool,
    /// The second is a proper prefix of the first.
    pub above: bool,
    /// They have one parent.
    pub one_parent: bool,
}

impl Paths {
    /// How a path and the second one relate.
    pub fn new(path: &Path, new_path: &Path) -> Paths
        ensures same { result.same ≡ is_end (after_prefix path.now new_path.now) }
        ensures above { result.above ≡ is_proper_prefix new_path.now path.now }
        ensures one_parent { result.one_parent ≡ is_end (after_prefix (parent_of path.now) (parent_of new_path.now)) }
    {
        Paths {
            same: path.same(new_path),
            above: new_path.is_proper_prefix_of(path),
            one_parent: path.has_parent_of(new_path),
        }
    }
}
