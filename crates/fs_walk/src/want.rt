//! What a walk wants next.

ghost use Rattle.std.specs.Prelude.{◌≡◌, option_map};
ghost use Rattle.std.specs.Option.{option_copied};
ghost use Rattle.fs_nodes.specs.Stores.{graph_of, shape, child};
ghost use Rattle.fs_walk.specs.Wants.{name_want, step_want, then_want, at_dir};

use fs_calls::Errno;
use fs_calls::rows::step_error;
use fs_names::Name;
use fs_nodes::{NodeNo, Store};

/// What a walk wants next.
#[derive(Clone, Copy, Debug, PartialEq, Eq)]
pub enum Want {
    /// To take this node.
    Take(NodeNo),
    /// To let this node go.
    LetGo(NodeNo),
    /// Nothing: it has arrived.
    Arrived,
    /// To end with this error.
    Fails(Errno),
}

/// At a node with a name ahead.
fn name_want(store: &Store, node: NodeNo, name: &Name) -> Want
    ensures { result ≡ name_want (shape store.now node) (child store.now node name.now) }
{
    if store.is_file(node) {
        return Want::Fails(step_error(true));
    }
    match store.find(node, name) {
        Some(child) if store.is_dir(node) => Want::Take(child),
        _ => Want::Fails(step_error(false)),
    }
}

/// At a node with a name ahead, or without one.
pub fn step_want(store: &Store, node: NodeNo, name: Option<&Name>) -> Want
    ensures { result ≡ step_want (graph_of store.now) node (option_copied name.entry) }
{
    match name {
        Some(name) => name_want(store, node, name),
        None => Want::Arrived,
    }
}

/// At a node that has to be a directory.
pub fn at_dir(store: &Store, node: NodeNo) -> Want
    ensures { result ≡ at_dir (shape store.now node) }
{
    if store.is_dir(node) {
        return Want::Arrived;
    }
    Want::Fails(step_error(store.is_file(node)))
}

impl Want {
    /// The next want after an arrival.
    pub fn then(self, next: Want) -> Want
        ensures { result ≡ then_want self next }
    {
        match self {
            Want::Arrived => next,
            want => want,
        }
    }
}
