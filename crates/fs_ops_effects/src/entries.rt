//! How the calls on an entry finish at its directory.

ghost use Rattle.std.specs.Prelude.{◌≡◌, ◌≢◌, false, None, IfSome, IsSome, IsTrue, option_map};
ghost use Rattle.fs_names.specs.Shapes.{is_dir, is_there, has_entries};
ghost use Rattle.fs_names.specs.declared.limits.Limits.{Limits};
ghost use Rattle.fs_nodes.specs.Graphs.{then_at, linked_in, IsReached};
ghost use Rattle.fs_nodes.specs.Seen.{seen, IsReal};
ghost use Rattle.fs_nodes.specs.Stores.{child, shape, graph_of, IsUnlinked};
ghost use Rattle.fs_nodes.specs.Stores as stores;
ghost use Rattle.fs_calls.specs.Forms.{new_shape};
ghost use Rattle.fs_calls.specs.Rows.{as_dir, entry_fault};
ghost use Rattle.fs_calls.specs.code.Targets.{entry_call};
ghost use Rattle.fs_ops_effects.specs.Endings.{IsEffect};
ghost use Rattle.fs_ops_effects.specs.Plans.{entry_plan, added, removed};
ghost use Rattle.fs_ops_effects.specs.Rooms.{FitsName};
ghost use Rattle.fs_machine.specs.OpValues.{SpareIf};

use crate::finish::Finish;
use crate::plan::Plan;
use crate::queries::dir_fault;
use crate::replies::Replies;
use crate::room::Room;
use crate::sights::sight_at;
use fs_calls::ranges::is_full;
use fs_calls::{EntryCall, Errno, calls};
use fs_names::{Kind, Limits, Name};
use fs_nodes::{NodeNo, Store};

/// The kind of node that a call on an entry, by what it does, may add.
macro_rules! added {
    (adds $kind:ident) => { Some(Kind::$kind) };
    (removes $kind:ident) => { None };
}

/// The kinds of the nodes that the calls on an entry may add.
macro_rules! kinds {
    (($entry:expr)
        entries { $($call:ident { $root:tt [$does:ident $kind:ident] $errors:tt })* }
        $($others:tt)*
    ) => {
        match $entry {
            $(EntryCall::$call => added!($does $kind),)*
        }
    };
}

/// The kind of node that a call on an entry may add.
pub fn kind_of(entry: EntryCall) -> Option<Kind>
    ensures { (limits : Limits) → option_map stores.new_shape result ≡ new_shape (entry_call limits entry) }
{
    calls!(kinds(entry))
}

/// Why a call on an entry fails at a node that should be its directory, under these limits and with what the name leads
/// to there.
fn fault(
    store: &Store,
    limits: Limits,
    dir: NodeNo,
    entry: EntryCall,
    there: Option<NodeNo>,
) -> Option<Errno>
    requires used { IfSome there (λ node. IsTrue (is_there (shape store.now node))) }
    ensures { result ≡ entry_fault (entry_call limits entry) (as_dir None (shape store.now dir)) (shape store.now dir) (then_at there (shape store.now)) }
{
    if let Some(errno) = dir_fault(store, dir) {
        return Some(errno);
    }
    let full = is_full(limits.entries(), store.entries(dir));
    entry.error(sight_at(store, there), full)
}

/// The plan of what a call on an entry does.
macro_rules! plan {
    (adds, $dir:expr) => {
        Plan::Adds($dir)
    };
    (removes, $dir:expr) => {
        Plan::Removes($dir)
    };
}

/// The plans of the calls on an entry.
macro_rules! entry_plans {
    (($entry:expr, $dir:expr)
        entries { $($call:ident { $root:tt [$does:ident $kind:ident] $errors:tt })* }
        $($others:tt)*
    ) => {
        match $entry {
            $(EntryCall::$call => plan!($does, $dir),)*
        }
    };
}

/// What a call on an entry does at a node that should be its directory, under these limits and with what the name leads
/// to there.
pub fn entry_plan(
    store: &Store,
    limits: Limits,
    dir: NodeNo,
    entry: EntryCall,
    there: Option<NodeNo>,
) -> Plan
    requires used { IfSome there (λ node. IsTrue (is_there (shape store.now node))) }
    ensures { result ≡ entry_plan (entry_fault (entry_call limits entry) (as_dir None (shape store.now dir)) (shape store.now dir) (then_at there (shape store.now))) (new_shape (entry_call limits entry)) dir }
{
    if let Some(errno) = fault(store, limits, dir, entry, there) {
        return Plan::Fails(errno);
    }
    calls!(entry_plans(entry, dir))
}

/// A node gets an entry of this name, with what was prepared for its copy. This is a function of its own, so that the
/// finish of other calls has no name on its stack.
#[inline(never)]
fn enter(store: &mut Store, dir: NodeNo, name: &Name, prepared: Room, node: NodeNo)
    requires room { FitsName name.now prepared }
    requires dir { IsTrue (is_dir (shape store.old dir)) }
    requires absent { child store.old dir name.now ≡ None }
    requires used { IsTrue (is_there (shape store.old node)) }
    requires unlinked { IsUnlinked (child store.old) node }
    requires not_root { node ≢ 0 }
    requires apart { IsReached (child store.old) node dir → ⊥ }
    ensures { seen store.new ≡ record (seen store.old) { graph = linked_in dir name.now node (graph_of store.old) } }
{
    store.link(dir, prepared.name_of(name), node);
}

/// The reserved number, which is not the directory, gets an entry there.
pub fn add(
    store: &mut Store,
    dir: NodeNo,
    name: &Name,
    prepared: Room,
    reserved: Option<NodeNo>,
) -> Finish
    requires real { IsReal (seen store.old) }
    requires dir { IsTrue (is_dir (shape store.old dir)) }
    requires absent { child store.old dir name.now ≡ None }
    requires spare { SpareIf (graph_of store.old) reserved }
    requires other { reserved ≢ Some dir }
    requires room { FitsName name.now prepared }
    ensures made { IsEffect (added (graph_of store.old) dir name.now reserved) result (graph_of store.new) }
    ensures rest { seen store.new ≡ record (seen store.old) { graph = graph_of store.new } }
{
    if let Some(node) = reserved {
        enter(store, dir, name, prepared, node);
    }
    Finish::kept(Replies::done(), None)
}

/// The entry of a file or of an empty directory goes. What it named is the removed node.
pub fn remove(store: &mut Store, dir: NodeNo, name: &Name, reserved: Option<NodeNo>) -> Finish
    requires there { IsSome (child store.old dir name.now) }
    requires bare { IfSome (child store.old dir name.now) (λ node. has_entries (shape store.old node) ≡ false) }
    ensures made { IsEffect (removed (graph_of store.old) dir name.now reserved) result (graph_of store.new) }
    ensures rest { seen store.new ≡ record (seen store.old) { graph = graph_of store.new } }
{
    let node = store.unlink(dir, name);
    Finish {
        replies: Replies::done(),
        reserved,
        removed: Some(node),
    }
}
