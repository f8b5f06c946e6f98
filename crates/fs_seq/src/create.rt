//! The calls that make a node.

ghost use Rattle.std.specs.Prelude.{◌≡◌, ◌≢◌, Some, None, [], IfOk, OnOk, OnErr, IsTrue};
ghost use Rattle.fs_names.specs.Limits.{in_blocks};
ghost use Rattle.fs_calls.specs.Tree.{inserted};
ghost use Rattle.fs_seq_nodes.specs.code.Nodes.{graph, place, tree_node};
ghost use Rattle.fs_seq_nodes.specs.code.Slots.{IsForest, HasForm, KeepsForm, links_of, tree_of};
ghost use Rattle.fs_seq.specs.Memory.{needs_memory};
ghost use Rattle.fs_seq.specs.code.Effects.{AnswersWithin, FindsGap, Gives, making_fault};

use fs_blocks::File;
use fs_calls::path_errors::root_error;
use fs_calls::{Call, EntryCall, Errno, Reply};
use fs_memory::Memory;
use fs_names::{Limits, Path};
use fs_seq_nodes::nodes::{attach, look_up};
use fs_seq_nodes::{Links, Node};
use slab::Slab;
use std::alloc::{AllocError, Global};

/// Where a new entry belongs, or why there can be none: the number of its directory and the place among the entries.
fn gap(nodes: &Slab<Node>, path: &Path, limits: Limits) -> Result<(usize, usize), Errno>
    requires { IsForest (graph nodes.now) }
    ensures { FindsGap limits (graph nodes.now) path.now result }
{
    if path.len() == 0 {
        return Err(root_error(EntryCall::Mkdir));
    }
    match look_up(nodes, path) {
        Err(errno) => Err(errno),
        Ok(spot) => {
            let full = spot.is_full(limits.entries());
            match EntryCall::Mkdir.error(spot.sight(nodes), full) {
                Some(errno) => Err(errno),
                None => Ok(spot.place()),
            }
        }
    }
}

/// Makes a node without entries at the path.
fn make(
    alloc: Global,
    memory: &mut Memory,
    nodes: &mut Slab<Node>,
    path: &Path,
    limits: Limits,
    node: Node,
) -> Result<Reply, AllocError>
    requires forest { IsForest (graph nodes.old) }
    requires bare { links_of (Some (place node)) ≡ [] }
    requires form { HasForm (in_blocks limits) (Some (place node)) }
    ensures given { IfOk result (Gives (graph nodes.old) (graph nodes.new) (making_fault limits (tree_of (graph nodes.old)) path.now) Reply.Done (inserted (tree_of (graph nodes.old)) path.now (tree_node node))) }
    ensures err { OnErr result (graph nodes.new ≡ graph nodes.old) }
    ensures form { KeepsForm limits (graph nodes.old) (graph nodes.new) }
    ensures memory { OnErr result (making_fault limits (tree_of (graph nodes.old)) path.now ≡ None) }
    ensures granted { OnOk result (memory.new ≡ memory.old) }
    ensures refused { OnErr result (memory.new ≢ memory.old) }
{
    match gap(nodes, path, limits) {
        Err(errno) => Ok(Reply::Failed(errno)),
        Ok((dir, i)) => {
            attach(
                alloc,
                memory,
                nodes,
                dir,
                i,
                path.name(path.len() - 1),
                node,
            )?;
            Ok(Reply::Done)
        }
    }
}

/// Makes an empty directory.
pub fn mkdir(
    alloc: Global,
    memory: &mut Memory,
    nodes: &mut Slab<Node>,
    path: &Path,
    limits: Limits,
) -> Result<Reply, AllocError>
    requires { IsForest (graph nodes.old) }
    ensures given { IfOk result (AnswersWithin limits (graph nodes.old) (graph nodes.new) (Call.Mkdir path.now)) }
    ensures err { OnErr result (graph nodes.new ≡ graph nodes.old) }
    ensures memory { OnErr result (IsTrue (needs_memory limits (tree_of (graph nodes.old)) (Call.Mkdir path.now))) }
    ensures granted { OnOk result (memory.new ≡ memory.old) }
    ensures refused { OnErr result (memory.new ≢ memory.old) }
{
    make(
        alloc,
        memory,
        nodes,
        path,
        limits,
        Node::Dir(Links::new(alloc)),
    )
}

/// Makes an empty file.
pub fn mknod(
    alloc: Global,
    memory: &mut Memory,
    nodes: &mut Slab<Node>,
    path: &Path,
    limits: Limits,
) -> Result<Reply, AllocError>
    requires { IsForest (graph nodes.old) }
    ensures given { IfOk result (AnswersWithin limits (graph nodes.old) (graph nodes.new) (Call.Mknod path.now)) }
    ensures err { OnErr result (graph nodes.new ≡ graph nodes.old) }
    ensures memory { OnErr result (IsTrue (needs_memory limits (tree_of (graph nodes.old)) (Call.Mknod path.now))) }
    ensures granted { OnOk result (memory.new ≡ memory.old) }
    ensures refused { OnErr result (memory.new ≢ memory.old) }
{
    make(
        alloc,
        memory,
        nodes,
        path,
        limits,
        Node::File(File::empty(alloc, limits.in_blocks())),
    )
}
