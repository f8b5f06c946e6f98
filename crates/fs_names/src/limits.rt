//! The limits of names, paths, directories, files and trees, each named in this one place.

ghost use Rattle.std.specs.Prelude.{◌≡◌};
ghost use Rattle.fs_names.specs.Limits.{same_limits, path_limit, name_limit, entry_limit, file_limit, read_limit, node_limit, in_blocks, has_list};

/// The most names that a path of any set of limits has.
pub const PATH_LIMIT: usize = 2_048;

/// The room for node numbers: each is below it, by every set of limits. How many a tree may have in use at once is
/// `Limits::nodes`.
pub const NODE_LIMIT: usize = 16_777_216;

/// The most names that a call answers, by every set of limits.
pub const LIST_LIMIT: usize = 256;

/// One of the three sets of limits that a text and a tree keep: those of the first version, of the second, and of the
/// third, by which real trees fit.
#[derive(Clone, Copy, Debug, PartialEq, Eq)]
pub enum Limits {
    /// A path in a text has at most 64 names, each of at most 32 bytes, a directory at most 256 entries, a file at
    /// most 65,536 bytes.
    V1,
    /// A path in a text has at most 64 names, each of at most 64 bytes, a directory at most 256 entries, a file at
    /// most 1,048,576 bytes.
    V2,
    /// A path in a text has at most 2,048 names, each of at most 255 bytes, a directory at most 1,048,576 entries, a
    /// file at most 2,147,483,648 bytes, which are in blocks.
    V3,
}

impl Limits {
    /// The set that no other exceeds in names and paths.
    pub const LARGEST: Limits = Limits::V3;

    /// Whether both are the same set.
    #[inline]
    pub fn same(self, other: Limits) -> bool
        ensures { result ≡ same_limits self other }
    {
        self == other
    }

    /// The most names that a path in a text has.
    #[inline]
    pub fn path_names(self) -> usize
        ensures { result ≡ path_limit self }
    {
        match self {
            Limits::V1 => 64,
            Limits::V2 => 64,
            Limits::V3 => 2_048,
        }
    }

    /// The most bytes that a name in a text has.
    #[inline]
    pub fn name(self) -> usize
        ensures { result ≡ name_limit self }
    {
        match self {
            Limits::V1 => 32,
            Limits::V2 => 64,
            Limits::V3 => 255,
        }
    }

    /// The most entries that a directory has.
    #[inline]
    pub fn entries(self) -> usize
        ensures { result ≡ entry_limit self }
    {
        match self {
            Limits::V1 => 256,
            Limits::V2 => 256,
            Limits::V3 => 1_048_576,
        }
    }

    /// The most bytes that a file has.
    #[inline]
    pub fn file(self) -> usize
        ensures { result ≡ file_limit self }
    {
        match self {
            Limits::V1 => 65_536,
            Limits::V2 => 1_048_576,
            Limits::V3 => 2_147_483_648,
        }
    }

    /// The most bytes that a read answers.
    #[inline]
    pub fn read(self) -> usize
        ensures { result ≡ read_limit self }
    {
        match self {
            Limits::V1 => 65_536,
            Limits::V2 | Limits::V3 => 1_048_576,
        }
    }

    /// The most node numbers that are in use at once, the root's included, where no smaller limit is handed over.
    #[inline]
    pub fn nodes(self) -> usize
        ensures { result ≡ node_limit self }
    {
        match self {
            Limits::V1 => 1_048_576,
            Limits::V2 => 1_048_576,
            Limits::V3 => 16_777_216,
        }
    }

    /// Whether files are in blocks, which their copies share; else each file is one vector.
    #[inline]
    pub fn in_blocks(self) -> bool
        ensures { result ≡ in_blocks self }
    {
        match self {
            Limits::V1 | Limits::V2 => false,
            Limits::V3 => true,
        }
    }

    /// Whether the call that lists a directory in pieces is one of a text, and of the library for C.
    #[inline]
    pub fn has_list(self) -> bool
        ensures { result ≡ has_list self }
    {
        matches!(self, Limits::V3)
    }
}
