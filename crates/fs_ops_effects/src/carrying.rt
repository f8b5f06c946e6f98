//! A plan is carried out.

ghost use Rattle.std.specs.Prelude.{◌≡◌, ◌<◌, None, length};
ghost use Rattle.fs_names.specs.Keys.{last_of};
ghost use Rattle.fs_nodes.specs.Seen.{seen};
ghost use Rattle.fs_nodes.specs.Stores.{shape, graph_of};
ghost use Rattle.fs_calls.specs.Rows.{node_row};
ghost use Rattle.fs_calls.specs.code.Targets.{form_of, node_call};
ghost use Rattle.fs_ops_effects.specs.Endings.{IsEffect};
ghost use Rattle.fs_ops_effects.specs.Paths.{first_path, second_path};
ghost use Rattle.fs_ops_effects.specs.Plans.{carried, answered_at, moved, swapped, CanCarryOut, CanMove, CanSwap};
ghost use Rattle.fs_ops_effects.specs.Replies.{refilled};
ghost use Rattle.fs_ops_effects.specs.Rooms.{Suffices, SufficesFor, FitsName};

use crate::entries::{add, remove};
use crate::exchange::exchange;
use crate::finish::Finish;
use crate::paths::{first_path, second_path};
use crate::plan::{Moving, Plan, Route, Swapping};
use crate::queries::{list, read, readdir, stat};
use crate::rename::rename;
use crate::replies::Replies;
use crate::room::Room;
use crate::write::{truncate, write};
use fs_calls::{NodeCall, Target, calls};
use fs_names::{Limits, Path};
use fs_nodes::{NodeNo, Store};

/// How a call on a node is carried out there.
macro_rules! carried {
    (stat(), $store:expr, $node:expr, $limits:expr, $prepared:expr) => { stat($store, $node, $limits) };
    ($does:ident($($arg:ident),*), $store:expr, $node:expr, $limits:expr, $prepared:expr) => { $does($store, $node, $($arg,)* $limits, $prepared) };
}

/// How the calls on a node are carried out, by what the table says that each does.
macro_rules! node_effects {
    (($call:expr, $store:expr, $node:expr, $limits:expr, $prepared:expr)
        entries $entries:tt
        pairs $pairs:tt
        nodes { $($name:ident $(($($arg:ident),*))? { [$($does:tt)*] $errors:tt })* }
    ) => {
        match $call {
            $(NodeCall::$name $(($($arg),*))? => carried!($($does)*, $store, $node, $limits, $prepared),)*
        }
    };
}

/// A call on a node replies there, and changes its bytes.
fn answer(
    call: NodeCall<'_>,
    node: NodeNo,
    limits: Limits,
    prepared: Room,
    store: &mut Store,
) -> Replies
    requires room { SufficesFor (seen store.old).in_blocks (node_call limits call) prepared }
    ensures reply { result ≡ (node_row (node_call limits call.entry) None (shape store.old node)).0 }
    ensures change { seen store.new ≡ record (seen store.old) { graph = refilled node (node_row (node_call limits call.entry) None (shape store.old node)).1 (graph_of store.old) } }
{
    calls!(node_effects(call, store, node, limits, prepared))
}

/// A call answers at a node.
fn answer_at(
    aim: Target<'_>,
    node: NodeNo,
    reserved: Option<NodeNo>,
    limits: Limits,
    prepared: Room,
    store: &mut Store,
) -> Finish
    requires room { Suffices (seen store.old).in_blocks (form_of limits aim) prepared }
    ensures made { IsEffect (answered_at (graph_of store.old) (form_of limits aim.entry) node reserved) result (graph_of store.new) }
    ensures rest { seen store.new ≡ record (seen store.old) { graph = graph_of store.new } }
{
    match aim {
        Target::Node(call, _) => Finish::kept(
            answer(call, node, limits, prepared, store),
            reserved,
        ),
        Target::Entry(_, _) | Target::Pair(_, _, _) => Finish::kept(Replies::done(), reserved),
    }
}

/// An entry of a rename goes along its route.
fn move_along(
    from: &Path,
    to: &Path,
    moving: Moving,
    reserved: Option<NodeNo>,
    prepared: Room,
    store: &mut Store,
) -> Finish
    requires named { 0 < length from.now }
    requires new_named { 0 < length to.now }
    requires room { FitsName (last_of to.now) prepared }
    requires can { CanMove (seen store.old) moving (last_of from.now) (last_of to.now) }
    ensures made { IsEffect (moved (graph_of store.old) moving (last_of from.now) (last_of to.now) reserved) result (graph_of store.new) }
    ensures rest { seen store.new ≡ record (seen store.old) { graph = graph_of store.new } }
{
    rename(
        store,
        moving,
        from.last_name(),
        to.last_name(),
        prepared,
        reserved,
    )
}

/// The entries of an exchange change what they name.
fn swap_along(
    one: &Path,
    other: &Path,
    swapping: Swapping,
    reserved: Option<NodeNo>,
    store: &mut Store,
) -> Finish
    requires named { 0 < length one.now }
    requires other_named { 0 < length other.now }
    requires can { CanSwap (seen store.old) swapping (last_of one.now) (last_of other.now) }
    ensures made { IsEffect (swapped (graph_of store.old) swapping (last_of one.now) (last_of other.now) reserved) result (graph_of store.new) }
    ensures rest { seen store.new ≡ record (seen store.old) { graph = graph_of store.new } }
{
    exchange(
        store,
        swapping,
        one.last_name(),
        other.last_name(),
        reserved,
    )
}

/// Does what a plan says, of a call at this target and, if it is on two entries, with this route, that has this number reserved and
/// this room prepared, by these limits.
pub fn carry_out(
    aim: Target<'_>,
    plan: Plan,
    route: Route,
    reserved: Option<NodeNo>,
    limits: Limits,
    prepared: Room,
    store: &mut Store,
) -> Finish
    requires room { Suffices (seen store.old).in_blocks (form_of limits aim) prepared }
    requires can { CanCarryOut (seen store.old) (form_of limits aim) route reserved plan }
    ensures made { IsEffect (carried (graph_of store.old) (form_of limits aim.entry) route reserved plan) result (graph_of store.new) }
    ensures rest { seen store.new ≡ record (seen store.old) { graph = graph_of store.new } }
{
    let (first, second) = (first_path(aim), second_path(aim));
    match plan {
        Plan::Fails(errno) => Finish::failed(errno, reserved),
        Plan::Stays => Finish::kept(Replies::done(), reserved),
        Plan::Answers(node) => answer_at(aim, node, reserved, limits, prepared, store),
        Plan::Adds(dir) => add(store, dir, first.last_name(), prepared, reserved),
        Plan::Removes(dir) => remove(store, dir, first.last_name(), reserved),
        Plan::Moves(node) | Plan::Replaces(node) => {
            let replaces = matches!(plan, Plan::Replaces(_));
            let moving = route.moving(node, replaces);
            move_along(first, second, moving, reserved, prepared, store)
        }
        Plan::Swaps(one, other) => swap_along(
            first,
            second,
            route.swapping(one, other),
            reserved,
            store,
        ),
    }
}
