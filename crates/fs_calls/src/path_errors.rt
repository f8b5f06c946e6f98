//! The errors that the paths of a call decide alone.

ghost use Rattle.std.specs.Prelude.{ℕ, ◌≡◌};
ghost use Rattle.fs_names.specs.declared.limits.Limits.{Limits};
ghost use Rattle.fs_names.specs.declared.limits.Limits.TheVariants.{V1};
ghost use Rattle.fs_calls.specs.Forms.{form, by_text, root_error};
ghost use Rattle.fs_calls.specs.code.Targets.{form_of, entry_call, pair_call};
ghost use Rattle.fs_calls.specs.Forms as forms;

use crate::call::Call;
use crate::calls;
use crate::errno::Errno;
use crate::target::{EntryCall, PairCall, Target};
use fs_names::Path;

/// A check of the paths of a call on two entries.
macro_rules! path_check {
    (is_root, $path:expr, $new_path:expr) => { $path.is_empty() || $new_path.is_empty() };
    (is_below, $path:expr, $new_path:expr) => { $path.is_proper_prefix_of($new_path) };
    (is_below_or_above, $path:expr, $new_path:expr) => { $path.is_proper_prefix_of($new_path) || $new_path.is_proper_prefix_of($path) };
}

/// The errors of the calls on two entries that their paths alone decide.
macro_rules! path_errors {
    (($pair:expr, $path:expr, $new_path:expr)
        entries $entries:tt
        pairs { $($call:ident { [$($check:ident => $errno:ident),*] $($row:tt)* })* }
        $($others:tt)*
    ) => {
        match $pair {
            $(PairCall::$call => {
                $(if path_check!($check, $path, $new_path) {
                    return Some(Errno::$errno);
                })*
                None
            })*
        }
    };
}

/// The error of a call on two entries that its paths alone decide, if any.
fn pair_error(pair: PairCall, path: &Path, new_path: &Path) -> Option<Errno>
    ensures each { (limits : Limits) → result ≡ by_text (forms.AtPair (pair_call limits pair) path.now new_path.now) }
    ensures by_text { result ≡ by_text (forms.AtPair (pair_call V1 pair) path.now new_path.now) }
{
    calls!(path_errors(pair, path, new_path))
}

/// The error of a rename that its paths alone decide, if any: `EBUSY` where either is the root, `EINVAL` where the
/// new path is below the old one (POSIX.1-2017, XSH 3, rename()).
pub fn rename_error(path: &Path, new_path: &Path) -> Option<Errno>
    ensures { (most : ℕ) → result ≡ by_text (forms.AtPair (forms.Rename most) path.now new_path.now) }
{
    pair_error(PairCall::Rename, path, new_path)
}

/// The error of an exchange that its paths alone decide, if any: `EBUSY` where either is the root, `EINVAL` where one is
/// below the other.
pub fn exchange_error(path: &Path, other: &Path) -> Option<Errno>
    ensures { result ≡ by_text (forms.AtPair forms.Exchange path.now other.now) }
{
    pair_error(PairCall::Exchange, path, other)
}

/// The errors of the calls on the root's entry.
macro_rules! root_errors {
    (($entry:expr)
        entries { $($call:ident { [$errno:ident] $does:tt $errors:tt })* }
        $($others:tt)*
    ) => {
        match $entry {
            $(EntryCall::$call => Errno::$errno,)*
        }
    };
}

/// The error of a call on the root's entry.
pub fn root_error(entry: EntryCall) -> Errno
    ensures { (limits : Limits) → result ≡ root_error (entry_call limits entry) }
{
    calls!(root_errors(entry))
}

/// The error that the paths of a target alone decide.
fn target_error(aim: Target<'_>) -> Option<Errno>
    ensures { (limits : Limits) → result ≡ by_text (form_of limits aim.entry) }
{
    match aim {
        Target::Entry(entry, path) if path.is_empty() => Some(root_error(entry)),
        Target::Node(_, _) | Target::Entry(_, _) => None,
        Target::Pair(pair, path, new_path) => pair_error(pair, path, new_path),
    }
}

impl Call {
    /// The error that its paths alone decide, if any: it holds on every tree, and comes before all others.
    pub fn error_by_paths(&self) -> Option<Errno>
        ensures { (limits : Limits) → result ≡ by_text (form limits self.now) }
    {
        target_error(self.target())
    }
}
