//! The errors of calls, under the numbers that they have in this project.

ghost use Rattle.std.specs.Prelude.{◌≡◌};
ghost use Rattle.fs_calls.specs.Replies.{number_of};

/// The error of a call (POSIX.1-2017, XSH 2.3, Error Numbers), under this project's own numbers.
#[derive(Clone, Copy, Debug, PartialEq, Eq)]
pub enum Errno {
    /// A name on the way does not exist.
    Enoent = 1,
    /// A directory is needed, and a file is there.
    Enotdir = 2,
    /// The name exists already.
    Eexist = 3,
    /// The directory has entries.
    Enotempty = 4,
    /// A file is needed, and a directory is there.
    Eisdir = 5,
    /// A directory would be moved below itself.
    Einval = 6,
    /// The root can be neither removed nor renamed.
    Ebusy = 7,
    /// A directory cannot be unlinked.
    Eperm = 8,
    /// The directory has as many entries as it can have.
    Enospc = 9,
    /// The file would have more bytes than it can have.
    Efbig = 10,
    /// The directory has more names than a reply can have.
    Eoverflow = 11,
}

impl Errno {
    /// The number of the error, 1 to 11.
    pub fn number(self) -> u8
        ensures { result ≡ number_of self }
    {
        self as u8
    }
}
