//! Worked examples, which the check computes from the definitions.

ghost use Rattle.fs_calls.specs.Examples.{RootCalls, ResolutionErrors, FileBytes, FileOffsets, RenamesInSequence, RenamesOntoAncestors, ExchangesInSequence, ExchangeOfTwoTrees, FullDirectory, ListsInPieces, CrowdedDirectory, SecondLimits, ThirdLimits};

/// Calls on the root.
pub fn calls_on_the_root()
    ensures { RootCalls }
{}

/// Names that lead nowhere, and kinds that do not fit.
pub fn errors_of_resolution()
    ensures { ResolutionErrors }
{}

/// Gaps, short reads and the limit of a file.
pub fn bytes_of_files()
    ensures { FileBytes }
{}

/// Offsets near 2^64, empty data and the order of errors.
pub fn offsets_of_files()
    ensures { FileOffsets }
{}

/// Renames one after another, with the tree at the end.
pub fn renames_in_sequence()
    ensures { RenamesInSequence }
{}

/// A rename onto an ancestor finds the old path missing before it finds the new one in use.
pub fn renames_onto_ancestors()
    ensures { RenamesOntoAncestors }
{}

/// Exchanges one after another, with the tree at the end.
pub fn exchanges_in_sequence()
    ensures { ExchangesInSequence }
{}

/// An exchange of two directories that are not empty.
pub fn exchange_of_two_trees()
    ensures { ExchangeOfTwoTrees }
{}

/// A directory with as many entries as it can have.
pub fn full_directory()
    ensures { FullDirectory }
{}

/// Directories that are listed in pieces.
pub fn lists_in_pieces()
    ensures { ListsInPieces }
{}

/// A directory with more names than a reply has.
pub fn crowded_directory()
    ensures { CrowdedDirectory }
{}

/// Files that the second limits allow, and one that they do not.
pub fn second_limits()
    ensures { SecondLimits }
{}

/// The same of the third.
pub fn third_limits()
    ensures { ThirdLimits }
{}
