//! What holds of the definitions. Each function's contract is a law, and its body is empty.

ghost use Rattle.fs_calls.specs.Laws.{ErrorsChangeNothing, StaysATree, PlayedTreesAreTrees, SameTrees, RenamesMove, ExchangesSwap, PiecesAreAll};

/// A call whose reply is an error leaves the tree as it was.
pub fn errors_change_nothing()
    ensures { ErrorsChangeNothing }
{}

/// After each call a tree is a tree: its keys are in order, the root is a directory, and what is not the root is in a
/// directory.
pub fn stays_a_tree()
    ensures { StaysATree }
{}

/// After each list of calls, from any tree, as the root alone is one, the tree is a tree, and each proper prefix of one of
/// its keys is a directory.
pub fn played_trees_are_trees()
    ensures { PlayedTreesAreTrees }
{}

/// Two trees that have the same at each key are one.
pub fn same_trees()
    ensures { SameTrees }
{}

/// A rename without an error moves a node with all below it, and nothing else; one of a path onto itself changes
/// nothing.
pub fn renames_move()
    ensures { RenamesMove }
{}

/// An exchange without an error lets two nodes change places, each with all below it, and nothing else; one of a path with
/// itself changes nothing.
pub fn exchanges_swap()
    ensures { ExchangesSwap }
{}

/// The pieces of a list of a directory, one after the other from the root on, are its names as far as they reach.
pub fn pieces_are_all()
    ensures { PiecesAreAll }
{}
