//! What the rows of errors ask of the store.

ghost use Rattle.std.specs.Prelude.{◌≡◌};
ghost use Rattle.fs_nodes.specs.Graphs.{then_at};
ghost use Rattle.fs_nodes.specs.Stores.{shape};
ghost use Rattle.fs_calls.specs.code.Seen.{sight};

use fs_calls::Sight;
use fs_nodes::{NodeNo, Store};

/// What is at a number.
pub fn sight_of(store: &Store, node: NodeNo) -> Sight
    ensures { result ≡ sight (shape store.now node) }
{
    if store.is_dir(node) {
        return Sight::of_dir(store.entries(node));
    }
    if store.is_file(node) {
        return Sight::File;
    }
    Sight::Nothing
}

/// What is at the place where a name leads, if it leads anywhere.
pub fn sight_at(store: &Store, there: Option<NodeNo>) -> Sight
    ensures { result ≡ sight (then_at there (shape store.now)) }
{
    match there {
        Some(node) => sight_of(store, node),
        None => Sight::Nothing,
    }
}
