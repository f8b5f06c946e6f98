//! How a path relates to its parent, and to another path.

ghost use Rattle.std.specs.Prelude.{◌≡◌, ◌<◌, ◌≤◌, length};
ghost use Rattle.fs_names.specs.Keys.{after_prefix, is_proper_prefix, last_of, parent_of, is_end};

use crate::limits::PATH_LIMIT;
use crate::name::Name;
use crate::path::Path;

impl Path {
    /// How many names the parent has. The root is its own parent.
    pub fn parent_len(&self) -> usize
        ensures len { result ≡ length (parent_of self.now) }
        ensures most { result ≤ PATH_LIMIT }
    {
        self.len().saturating_sub(1)
    }

    /// The last name. The root has none.
    pub fn last_name(&self) -> &Name
        requires { 0 < length self.now }
        ensures { result.now ≡ last_of self.now }
    {
        self.name(self.len() - 1)
    }

    /// The bytes of the last name. The root has none.
    pub fn last_bytes(&self) -> &[u8]
        ensures { result.now ≡ last_of self.now }
    {
        if self.is_empty() {
            return &[];
        }
        self.last_name().bytes()
    }

    /// Whether both have the same names.
    pub fn same(&self, other: &Path) -> bool
        ensures { result ≡ is_end (after_prefix self.now other.now) }
    {
        if self.len() != other.len() {
            return false;
        }
        self.is_prefix_of(other)
    }

    /// Whether the other path begins with all names of this one and has more.
    pub fn is_proper_prefix_of(&self, other: &Path) -> bool
        ensures { result ≡ is_proper_prefix self.now other.now }
    {
        if self.len() >= other.len() {
            return false;
        }
        self.is_prefix_of(other)
    }

    /// Whether both have the same parent.
    pub fn has_parent_of(&self, other: &Path) -> bool
        ensures { result ≡ is_end (after_prefix (parent_of self.now) (parent_of other.now)) }
    {
        if self.parent_len() != other.parent_len() {
            return false;
        }
        self.common(other) >= self.parent_len()
    }
}
