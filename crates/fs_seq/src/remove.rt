//! The calls that remove a node.

ghost use Rattle.std.specs.Prelude.{◌≡◌, ◌<◌, Some, None, length};
ghost use Rattle.fs_names.specs.declared.limits.Limits.TheVariants.{V1};
ghost use Rattle.fs_calls.specs.Forms.{new_shape};
ghost use Rattle.fs_calls.specs.code.Targets.{entry_call};
ghost use Rattle.fs_seq_nodes.specs.code.Nodes.{graph};
ghost use Rattle.fs_seq_nodes.specs.code.Slots.{IsForest, place_at, links_at, Dir as IsDir};
ghost use Rattle.fs_seq.specs.code.Effects.{Answers, Detaches, call_on};

use fs_calls::path_errors::root_error;
use fs_calls::{Call, EntryCall, Reply};
use fs_names::Path;
use fs_seq_nodes::nodes::{look_up, remove_link};
use fs_seq_nodes::{Node, Spot};
use slab::Slab;

/// Takes the entry at a place out of a directory, and its node, whose number is free from then on.
fn detach(nodes: &mut Slab<Node>, dir: usize, i: usize, node: usize)
    requires directory { place_at (graph nodes.old) dir ≡ Some (IsDir (links_at (graph nodes.old) dir)) }
    requires within { i < length (links_at (graph nodes.old) dir) }
    ensures { Detaches (graph nodes.old) (graph nodes.new) dir i node }
{
    remove_link(nodes, dir, i);
    nodes.try_remove(node);
}

/// Removes the entry at a path, unless the row has an error.
fn remove(nodes: &mut Slab<Node>, path: &Path, entry: EntryCall) -> Reply
    requires forest { IsForest (graph nodes.old) }
    requires removes { new_shape (entry_call V1 entry) ≡ None }
    ensures { Answers (graph nodes.old) (graph nodes.new) (call_on entry path.now) result }
{
    if path.len() == 0 {
        return Reply::Failed(root_error(entry));
    }
    let spot = match look_up(nodes, path) {
        Ok(spot) => spot,
        Err(errno) => return Reply::Failed(errno),
    };
    if let Some(errno) = entry.error(spot.sight(nodes), false) {
        return Reply::Failed(errno);
    }
    if let Spot::Taken(dir, i, node) = spot {
        detach(nodes, dir, i, node);
    }
    Reply::Done
}

/// Removes the entry of a file.
pub fn unlink(nodes: &mut Slab<Node>, path: &Path) -> Reply
    requires { IsForest (graph nodes.old) }
    ensures { Answers (graph nodes.old) (graph nodes.new) (Call.Unlink path.now) result }
{
    remove(nodes, path, EntryCall::Unlink)
}

/// Removes the entry of an empty directory.
pub fn rmdir(nodes: &mut Slab<Node>, path: &Path) -> Reply
    requires { IsForest (graph nodes.old) }
    ensures { Answers (graph nodes.old) (graph nodes.new) (Call.Rmdir path.now) result }
{
    remove(nodes, path, EntryCall::Rmdir)
}
