//! The rows of errors, by what is seen at the place of a call: the table's last column, which decides for every tree.

ghost use Rattle.std.specs.Prelude.{◌≡◌, List, Option, Some, None, if◌then◌else◌, length};
ghost use Rattle.fs_names.specs.Names.{Name};
ghost use Rattle.fs_names.specs.Failures.{first_failure};
ghost use Rattle.fs_names.specs.Limits.{entry_limit};
ghost use Rattle.fs_names.specs.Shapes.{Shape, Dir as IsDir, is_there, is_missing, is_dir, is_file, has_entries, is_crowded, is_full};
ghost use Rattle.fs_names.specs.declared.limits.Limits.{Limits};
ghost use Rattle.fs_names.specs.declared.limits.Limits.TheVariants.{V1};
ghost use Rattle.fs_calls.specs.declared.errno.Errno.TheVariants.{Enotdir, Enoent};
ghost use Rattle.fs_calls.specs.Rows.{entry_errors, node_fault, pair_errors};
ghost use Rattle.fs_calls.specs.code.Seen.{sight};
ghost use Rattle.fs_calls.specs.code.Targets.{node_call, entry_call, pair_call};

use crate::calls;
use crate::errno::Errno;
use crate::ranges::{fits, fits_size};
use crate::target::{EntryCall, NodeCall, PairCall};
use fs_names::{LIST_LIMIT, Limits};

/// What a row of errors asks of a place: what is there.
#[derive(Clone, Copy, Debug, PartialEq, Eq)]
pub enum Sight {
    /// No node.
    Nothing,
    /// A file.
    File,
    /// A directory without entries.
    EmptyDir,
    /// A directory with entries, and no more than a call answers.
    Dir,
    /// A directory with more entries than a call answers.
    CrowdedDir,
}

impl Sight {
    /// What is seen of a directory with so many entries.
    pub fn of_dir(entries: usize) -> Sight
        ensures { (names : List Name) → entries ≡ length names → result ≡ sight (Some (IsDir names)) }
    {
        if entries == 0 {
            Sight::EmptyDir
        } else if entries <= LIST_LIMIT {
            Sight::Dir
        } else {
            Sight::CrowdedDir
        }
    }

    /// Whether a node is there.
    pub fn is_there(self) -> bool
        ensures { (there : Option Shape) → sight there ≡ self → result ≡ is_there there }
    {
        !matches!(self, Sight::Nothing)
    }

    /// Whether no node is there.
    pub fn is_missing(self) -> bool
        ensures { (there : Option Shape) → sight there ≡ self → result ≡ is_missing there }
    {
        matches!(self, Sight::Nothing)
    }

    /// Whether a directory is there.
    pub fn is_dir(self) -> bool
        ensures { (there : Option Shape) → sight there ≡ self → result ≡ is_dir there }
    {
        matches!(self, Sight::EmptyDir | Sight::Dir | Sight::CrowdedDir)
    }

    /// Whether a file is there.
    pub fn is_file(self) -> bool
        ensures { (there : Option Shape) → sight there ≡ self → result ≡ is_file there }
    {
        matches!(self, Sight::File)
    }

    /// Whether a directory with entries is there.
    pub fn has_entries(self) -> bool
        ensures { (there : Option Shape) → sight there ≡ self → result ≡ has_entries there }
    {
        matches!(self, Sight::Dir | Sight::CrowdedDir)
    }

    /// Whether a directory with more entries than a call answers is there.
    pub fn is_crowded(self) -> bool
        ensures { (there : Option Shape) → sight there ≡ self → result ≡ is_crowded there }
    {
        matches!(self, Sight::CrowdedDir)
    }
}

/// The error of the first check that holds.
macro_rules! first_error {
    ($($check:expr => $errno:ident),* $(,)?) => {{
        $(if $check {
            return Some(Errno::$errno);
        })*
        None
    }};
}

/// A check of a call on an entry.
macro_rules! entry_check {
    (is_full, $there:expr, $full:expr) => { $full };
    ($check:ident, $there:expr, $full:expr) => { $there.$check() };
}

/// The errors of the calls on an entry.
macro_rules! entry_errors {
    (($entry:expr, $there:expr, $full:expr)
        entries { $($call:ident { $root:tt $does:tt [$($check:ident => $errno:ident),*] })* }
        $($others:tt)*
    ) => {
        match $entry {
            $(EntryCall::$call => first_error!($(entry_check!($check, $there, $full) => $errno),*),)*
        }
    };
}

impl EntryCall {
    /// The error of a call on an entry, by what is there and by whether its directory has all entries that it can have.
    pub fn error(self, there: Sight, full: bool) -> Option<Errno>
        ensures { (limits : Limits) (dir s : Option Shape) → full ≡ is_full (entry_limit limits) dir → sight s ≡ there → result ≡ first_failure (entry_errors (entry_call limits self) dir s) }
    {
        calls!(entry_errors(self, there, full))
    }
}

/// What the row of a call on two entries asks.
#[derive(Clone, Copy, Debug, PartialEq, Eq)]
pub struct PairSight {
    /// What is at the first path.
    pub first: Sight,
    /// What is at the second path.
    pub second: Sight,
    /// Whether both paths are one.
    pub same_path: bool,
    /// Whether the second path's directory has room for the first one's entry.
    pub has_room: bool,
}

/// A check of a call on two entries.
macro_rules! pair_check {
    (first_is_missing, $seen:expr) => { $seen.first.is_missing() };
    (second_is_missing, $seen:expr) => { $seen.second.is_missing() };
    (dir_onto_file, $seen:expr) => { $seen.second.is_file() && $seen.first.is_dir() };
    (file_onto_dir, $seen:expr) => { $seen.second.is_dir() && $seen.first.is_file() };
    (onto_entries, $seen:expr) => { $seen.second.has_entries() };
    (has_no_room, $seen:expr) => { $seen.second.is_missing() && !$seen.has_room };
}

/// The errors of the calls on two entries: of the second list only where the paths are not one.
macro_rules! pair_errors {
    (($pair:expr, $seen:expr)
        entries $entries:tt
        pairs { $($call:ident { $root:tt $does:tt [$($check:ident => $errno:ident),*] [$($later:ident => $fault:ident),*] })* }
        $($others:tt)*
    ) => {
        match $pair {
            $(PairCall::$call => first_error!(
                $(pair_check!($check, $seen) => $errno,)*
                $(!$seen.same_path && pair_check!($later, $seen) => $fault),*
            ),)*
        }
    };
}

impl PairCall {
    /// The error of a call on two entries, by what is seen of them.
    pub fn error(self, seen: PairSight) -> Option<Errno>
        ensures { (s t : Option Shape) → sight s ≡ seen.first → sight t ≡ seen.second → result ≡ first_failure (pair_errors (pair_call V1 self) s seen.same_path t seen.has_room) }
    {
        calls!(pair_errors(self, seen))
    }
}

/// A check of a call on a node.
macro_rules! node_check {
    (is_too_long($off:ident, $bytes:ident), $most:expr, $there:expr) => { !$bytes.as_slice().is_empty() && !fits($most, $off, $bytes.as_slice().len()) };
    (is_too_large($size:ident), $most:expr, $there:expr) => { !fits_size($most, $size) };
    ($check:ident, $most:expr, $there:expr) => { $there.$check() };
}

/// The errors of the calls on a node.
macro_rules! node_errors {
    (($node:expr, $most:expr, $there:expr)
        entries $entries:tt
        pairs $pairs:tt
        nodes { $($call:ident $(($($arg:ident),*))? { $does:tt [$($check:ident $(($($asked:ident),*))? => $errno:ident),*] })* }
    ) => {
        match $node {
            $(NodeCall::$call $(($($arg),*))? => first_error!($(node_check!($check $(($($asked),*))?, $most, $there) => $errno),*),)*
        }
    };
}

impl NodeCall<'_> {
    /// The error of a call on a node under these limits, by what is there.
    pub fn error(self, limits: Limits, there: Sight) -> Option<Errno>
        ensures { (s : Option Shape) → sight s ≡ there → result ≡ node_fault (node_call limits self.entry) None s }
    {
        calls!(node_errors(self, limits.file(), there))
    }
}

/// Why a path does not go on at a node that is no directory, by whether it is a file.
pub fn step_error(is_file: bool) -> Errno
    ensures { result ≡ (if is_file then Enotdir else Enoent) }
{
    if is_file {
        Errno::Enotdir
    } else {
        Errno::Enoent
    }
}
