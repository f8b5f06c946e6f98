//! How a rename finishes at its two directories.

ghost use Rattle.std.specs.Prelude.{◌≡◌, ◌||◌, ℕ, List, not, false, None, Some, IfSome, IsSome, IsTrue, is_some};
ghost use Rattle.fs_names.specs.Limits.{entry_limit};
ghost use Rattle.fs_names.specs.Shapes.{is_dir, is_there, has_entries, is_full};
ghost use Rattle.fs_nodes.specs.Graphs.{moved_in, then_at, IsReached};
ghost use Rattle.fs_nodes.specs.Seen.{seen, IsReal};
ghost use Rattle.fs_nodes.specs.Stores.{child, shape, graph_of};
ghost use Rattle.fs_calls.specs.Rows.{rename_fault};
ghost use Rattle.fs_calls.specs.code.Seen.{sight};
ghost use Rattle.fs_ops_effects.specs.Endings.{IsEffect};
ghost use Rattle.fs_ops_effects.specs.Plans.{moved, moving, pair_plan};
ghost use Rattle.fs_ops_effects.specs.Rooms.{FitsName};
ghost use Rattle.fs_machine.specs.Moves.{there_by};

use crate::finish::Finish;
use crate::paths::Paths;
use crate::plan::{Moving, Plan};
use crate::replies::Replies;
use crate::room::Room;
use crate::sights::sight_at;
use fs_calls::ranges::is_full;
use fs_calls::rows::PairSight;
use fs_calls::{PairCall, Sight};
use fs_names::{Limits, Name};
use fs_nodes::{NodeNo, Store};

/// What the row of a rename asks, under these limits and with what both names lead to in the two directories.
fn sights(
    store: &Store,
    limits: Limits,
    moved: Option<NodeNo>,
    dest: NodeNo,
    there: Option<NodeNo>,
    paths: Paths,
) -> PairSight
    ensures first { result.first ≡ sight (then_at moved (shape store.now)) }
    ensures second { result.second ≡ sight (there_by paths.above (then_at there (shape store.now))) }
    ensures same { result.same_path ≡ paths.same }
    ensures room { result.has_room ≡ (paths.one_parent || not (is_full (entry_limit limits) (shape store.now dest))) }
{
    let second = match paths.above {
        true => Sight::Dir,
        false => sight_at(store, there),
    };
    PairSight {
        first: sight_at(store, moved),
        second,
        same_path: paths.same,
        has_room: paths.one_parent || !is_full(limits.entries(), store.entries(dest)),
    }
}

/// What a rename does, under these limits and with what both names lead to in the two directories.
pub fn rename_plan(
    store: &Store,
    limits: Limits,
    moved: Option<NodeNo>,
    dest: NodeNo,
    there: Option<NodeNo>,
    paths: Paths,
) -> Plan
    requires moved { IfSome moved (λ node. IsTrue (is_there (shape store.now node))) }
    requires used { IfSome there (λ node. IsTrue (is_there (shape store.now node))) }
    ensures { result ≡ pair_plan
        (rename_fault None None (then_at moved (shape store.now)) paths.same (there_by paths.above (then_at there (shape store.now))) (paths.one_parent || not (is_full (entry_limit limits) (shape store.now dest))))
        paths.same (moving (is_some there) moved) }
{
    let seen = sights(store, limits, moved, dest, there, paths);
    if let Some(errno) = PairCall::Rename.error(seen) {
        return Plan::Fails(errno);
    }
    match &moved {
        Some(node) if !paths.same && there.is_some() => Plan::Replaces(*node),
        Some(node) if !paths.same => Plan::Moves(*node),
        _ => Plan::Stays,
    }
}

/// The entry of this name goes, if there is one, before another one moves to it. What it named has no entries.
fn clear(store: &mut Store, dir: NodeNo, name: &Name, is_there: bool)
    requires real { IsReal (seen store.old) }
    requires dir { IsTrue (is_dir (shape store.old dir)) }
    requires there { is_there ≡ is_some (child store.old dir name.now) }
    requires bare { IfSome (child store.old dir name.now) (λ node. has_entries (shape store.old node) ≡ false) }
    ensures absent { child store.new dir name.now ≡ None }
    ensures dir { IsTrue (is_dir (shape store.new dir)) }
    ensures others { (d : ℕ) (x : List ℕ) → (d ≡ dir → x ≡ name.now → ⊥) → child store.new d x ≡ child store.old d x }
    ensures fewer { (n m : ℕ) → IsReached (child store.new) n m → IsReached (child store.old) n m }
    ensures moves { (from : ℕ) (x : List ℕ) (n : ℕ) → moved_in from x dir name.now n (graph_of store.new) ≡ moved_in from x dir name.now n (graph_of store.old) }
    ensures rest { seen store.new ≡ record (seen store.old) { graph = graph_of store.new } }
{
    if is_there {
        store.unlink(dir, name);
    }
}

/// An entry goes to another directory, or to another name, with what was prepared for the copy of that. This is a
/// function of its own, so that the finish of other calls has no name on its stack.
#[inline(never)]
fn relocate(
    store: &mut Store,
    from: NodeNo,
    name: &Name,
    to: NodeNo,
    new_name: &Name,
    prepared: Room,
)
    requires room { FitsName new_name.now prepared }
    requires there { IsSome (child store.old from name.now) }
    requires dir { IsTrue (is_dir (shape store.old to)) }
    requires absent { child store.old to new_name.now ≡ None }
    requires apart { IfSome (child store.old from name.now) (λ node. IsReached (child store.old) node to → ⊥) }
    ensures { IfSome (child store.old from name.now) (λ node. seen store.new ≡ record (seen store.old) { graph = moved_in from name.now to new_name.now node (graph_of store.old) }) }
{
    store.move_entry(from, name, to, prepared.name_of(new_name));
}

/// An entry goes to the other directory, which is not below what moves, or to another name; the one that the new name had goes
/// first. The victim is the removed node.
pub fn rename(
    store: &mut Store,
    moving: Moving,
    name: &Name,
    new_name: &Name,
    prepared: Room,
    reserved: Option<NodeNo>,
) -> Finish
    requires real { IsReal (seen store.old) }
    requires there { child store.old moving.source name.now ≡ Some moving.moved }
    requires dir { IsTrue (is_dir (shape store.old moving.dest)) }
    requires replaces { moving.replaces ≡ is_some (child store.old moving.dest new_name.now) }
    requires bare { IfSome (child store.old moving.dest new_name.now) (λ node. has_entries (shape store.old node) ≡ false) }
    requires apart { moving.source ≡ moving.dest → name.now ≡ new_name.now → ⊥ }
    requires room { FitsName new_name.now prepared }
    requires below { IsReached (child store.old) moving.moved moving.dest → ⊥ }
    ensures made { IsEffect (moved (graph_of store.old) moving name.now new_name.now reserved) result (graph_of store.new) }
    ensures rest { seen store.new ≡ record (seen store.old) { graph = graph_of store.new } }
{
    clear(store, moving.dest, new_name, moving.replaces);
    relocate(store, moving.source, name, moving.dest, new_name, prepared);
    Finish {
        replies: Replies::done(),
        reserved,
        removed: moving.victim,
    }
}
