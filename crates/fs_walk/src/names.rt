//! The next name of a path that a walk or a head goes along.

ghost use Rattle.std.specs.Prelude.{◌≡◌, ◌≤◌, ◌<◌, ◌+◌, IsSome, slice_get, take, length};
ghost use Rattle.std.specs.Option.{option_copied};
ghost use Rattle.fs_names.specs.Keys.{parent_of};

use fs_names::{Name, PATH_LIMIT, Path};

/// The name at a place among so many first names of a path.
pub fn name_among(path: &Path, names: usize, place: usize) -> Option<&Name>
    ensures { option_copied result ≡ slice_get (take names path.now) place }
{
    if place < names && place < path.len() {
        Some(path.name(place))
    } else {
        None
    }
}

/// The name at a place among all names of a path but the last.
pub fn parent_name(path: &Path, place: usize) -> Option<&Name>
    requires { place ≤ PATH_LIMIT + PATH_LIMIT }
    ensures name { option_copied result ≡ slice_get (parent_of path.now) place }
    ensures within { IsSome result → place < PATH_LIMIT }
{
    if place + 1 < path.len() {
        Some(path.name(place))
    } else {
        None
    }
}
