//! Where a path leads.

ghost use Rattle.std.specs.Prelude.{◌≡◌};
ghost use Rattle.fs_nodes.specs.Graphs.{numbers};
ghost use Rattle.fs_nodes.specs.Stores.{graph_of};

use fs_names::Path;
use fs_nodes::{NodeNo, Store};

/// The node to which a path leads, looked up name by name.
pub fn find_path(store: &Store, path: &Path) -> Option<NodeNo>
    ensures { result ≡ numbers (graph_of store.now) path.now }
{
    let mut node = NodeNo::ROOT;
    for i in 0..path.len() {
        match store.find(node, path.name(i)) {
            Some(next) => node = next,
            None => return None,
        }
    }
    Some(node)
}
