//! Renames: the entry of a node moves, and the node that was at its new place goes.

ghost use Rattle.std.specs.Prelude.{◌≡◌, ◌≢◌, ◌<◌, ◌≤◌, Option, None, Some, IsTrue, IsSome, IfOk, OnOk, OnErr, length, remove, slice_get};
ghost use Rattle.std.specs.FinMap.{find, put, is_sorted};
ghost use Rattle.fs_names.specs.Names.{Name, name_cmp};
ghost use Rattle.fs_seq_nodes.specs.code.Nodes.{graph, name_of};
ghost use Rattle.fs_seq_nodes.specs.code.Slots.{IsForest, Sets, place_at, links_at, shape_at, tree_of, Dir as IsDir};
ghost use Rattle.fs_calls.specs.Sights.{Shape};
ghost use Rattle.fs_calls.specs.Rows.{place_fault};
ghost use Rattle.fs_calls.specs.code.Seen.{sight};
ghost use Rattle.fs_seq.specs.Memory.{needs_memory};
ghost use Rattle.fs_seq.specs.code.Renaming.{Plans, Displaces, Transfers};
ghost use Rattle.fs_seq.specs.code.Effects.{AnswersWithin};
ghost use Rattle.slab.specs.Slab.{ContainsKey};

use crate::exchange::lead;
use fs_calls::ranges::is_full;
use fs_calls::rows::PairSight;
use fs_calls::{Call, Errno, PairCall, Reply, Sight, rename_error};
use fs_memory::Memory;
use fs_names::{Limits, Name, Path};
use fs_seq_nodes::nodes::{add_link, look_up, remove_link, sight_of};
use fs_seq_nodes::{Entry, HeldName, Link, Node, Spot};
use slab::Slab;
use std::alloc::{AllocError, Global};

/// What a rename has to do.
#[derive(Drop)]
enum Plan {
    /// Nothing, since both paths are one.
    Stay,
    /// To lead the second entry to the node of the first, which goes, as does the second's own node.
    Onto(Entry, Entry),
    /// To give the entry another name in its directory.
    Within(Entry),
    /// To put the entry into another directory at a place.
    Across(Entry, usize, usize),
}

/// The error of a node that should go to another path, by what is seen there and by whether there is room.
fn place_error(nodes: &Slab<Node>, node: usize, there: Sight, has_room: bool) -> Option<Errno>
    requires node { ContainsKey nodes.now node }
    ensures { (s : Option Shape) → sight s ≡ there → result ≡ place_fault (shape_at (graph nodes.now) node) s has_room }
{
    PairCall::Rename.error(PairSight {
        first: sight_of(nodes, node),
        second: there,
        same_path: false,
        has_room,
    })
}

/// What a rename has to do, or its first error.
fn decide(nodes: &Slab<Node>, from: &Path, to: &Path, limits: Limits) -> Result<Plan, Errno>
    requires { IsForest (graph nodes.now) }
    ensures { Plans limits (graph nodes.now) from.now to.now result }
{
    if let Some(errno) = rename_error(from, to) {
        return Err(errno);
    }
    let source = match look_up(nodes, from) {
        Ok(spot) => spot,
        Err(errno) => return Err(errno),
    };
    let dest = match look_up(nodes, to) {
        Ok(spot) => spot,
        Err(errno) => return Err(errno),
    };
    let Spot::Taken(dir, place, node) = source else {
        return Err(Errno::Enoent);
    };
    let entry = Entry { dir, place, node };
    match dest {
        Spot::Taken(_, _, other) if other == node => Ok(Plan::Stay),
        Spot::Taken(dir, place, node) => {
            match place_error(nodes, entry.node, sight_of(nodes, node), true) {
                Some(errno) => Err(errno),
                None => Ok(Plan::Onto(entry, Entry { dir, place, node })),
            }
        }
        Spot::Free(dir, _, _) if dir == entry.dir => Ok(Plan::Within(entry)),
        Spot::Free(dir, place, entries) => {
            let has_room = !is_full(limits.entries(), entries);
            match place_error(nodes, entry.node, Sight::Nothing, has_room) {
                Some(errno) => Err(errno),
                None => Ok(Plan::Across(entry, dir, place)),
            }
        }
    }
}

/// Takes the link at a place of a directory out, and puts it back under a name, where it belongs.
fn replace_link(nodes: &mut Slab<Node>, dir: usize, i: usize, name: Name, node: usize)
    requires directory { place_at (graph nodes.old) dir ≡ Some (IsDir (links_at (graph nodes.old) dir)) }
    requires within { i < length (links_at (graph nodes.old) dir) }
    requires rising { IsTrue (is_sorted name_cmp (remove (links_at (graph nodes.old) dir) i)) }
    requires absent { find name_cmp name (remove (links_at (graph nodes.old) dir) i) ≡ None }
    ensures { Sets (graph nodes.old) (graph nodes.new) dir (Some (IsDir (put name_cmp name node (remove (links_at (graph nodes.old) dir) i)))) }
{
    match &mut nodes[dir] {
        Node::Dir(links) => links.replace(i, name, node),
        Node::File(_) => {}
    }
}

/// Leads the victim's entry, which keeps its name, to the entry's node, takes the entry out, and removes the victim's
/// node. No directory gets an entry more, so nothing is allocated.
fn displace(nodes: &mut Slab<Node>, entry: Entry, victim: Entry)
    requires dir { place_at (graph nodes.old) entry.dir ≡ Some (IsDir (links_at (graph nodes.old) entry.dir)) }
    requires place { entry.place < length (links_at (graph nodes.old) entry.dir) }
    requires victim_dir { place_at (graph nodes.old) victim.dir ≡ Some (IsDir (links_at (graph nodes.old) victim.dir)) }
    requires victim_place { victim.place < length (links_at (graph nodes.old) victim.dir) }
    requires victim_node { IsSome (place_at (graph nodes.old) victim.node) }
    ensures { (x : Name) → name_of (slice_get (links_at (graph nodes.old) victim.dir) victim.place) ≡ Some x → Displaces (graph nodes.old) (graph nodes.new) entry victim x }
{
    lead(nodes, victim.dir, victim.place, entry.node);
    remove_link(nodes, entry.dir, entry.place);
    nodes.remove(victim.node);
}

/// Puts the entry under a name into another directory at a place, and takes it out of its own.
fn transfer(
    alloc: Global,
    memory: &mut Memory,
    nodes: &mut Slab<Node>,
    entry: Entry,
    dir: usize,
    place: usize,
    name: &Name,
) -> Result<(), AllocError>
    requires dir { place_at (graph nodes.old) entry.dir ≡ Some (IsDir (links_at (graph nodes.old) entry.dir)) }
    requires place { entry.place < length (links_at (graph nodes.old) entry.dir) }
    requires new_dir { place_at (graph nodes.old) dir ≡ Some (IsDir (links_at (graph nodes.old) dir)) }
    requires new_place { place ≤ length (links_at (graph nodes.old) dir) }
    requires other { entry.dir ≢ dir }
    ensures ok { OnOk result (Transfers (graph nodes.old) (graph nodes.new) entry dir place name.now) }
    ensures err { OnErr result (graph nodes.new ≡ graph nodes.old) }
    ensures granted { OnOk result (memory.new ≡ memory.old) }
    ensures refused { OnErr result (memory.new ≢ memory.old) }
{
    let held = HeldName::new(alloc, memory, name)?;
    let link = Link {
        name: held,
        node: entry.node,
    };
    add_link(alloc, memory, nodes, dir, place, link)?;
    remove_link(nodes, entry.dir, entry.place);
    Ok(())
}

/// Renames a node, with all below it; the node that was at the new path is removed. A rename costs no more than its two
/// directories. It asks for memory only if no entry is at the new path, and then only if it adds one to another
/// directory, or the new name is long.
pub fn rename(
    alloc: Global,
    memory: &mut Memory,
    nodes: &mut Slab<Node>,
    from: &Path,
    to: &Path,
    limits: Limits,
) -> Result<Reply, AllocError>
    requires { IsForest (graph nodes.old) }
    ensures given { IfOk result (AnswersWithin limits (graph nodes.old) (graph nodes.new) (Call.Rename from.now to.now)) }
    ensures err { OnErr result (graph nodes.new ≡ graph nodes.old) }
    ensures memory { OnErr result (IsTrue (needs_memory limits (tree_of (graph nodes.old)) (Call.Rename from.now to.now))) }
    ensures granted { OnOk result (memory.new ≡ memory.old) }
    ensures refused { OnErr result (memory.new ≢ memory.old) }
{
    let plan = match decide(nodes, from, to, limits) {
        Ok(plan) => plan,
        Err(errno) => return Ok(Reply::Failed(errno)),
    };
    let name = to.name(to.len() - 1);
    match plan {
        Plan::Stay => Ok(Reply::Done),
        Plan::Onto(entry, victim) => {
            displace(nodes, entry, victim);
            Ok(Reply::Done)
        }
        Plan::Within(entry) => {
            let name = name.copy_counted(memory)?;
            replace_link(nodes, entry.dir, entry.place, name, entry.node);
            Ok(Reply::Done)
        }
        Plan::Across(entry, dir, place) => {
            transfer(alloc, memory, nodes, entry, dir, place, name)?;
            Ok(Reply::Done)
        }
    }
}
