//! How an exchange finishes at its two directories.

ghost use Rattle.std.specs.Prelude.{◌≡◌, None, Some};
ghost use Rattle.fs_nodes.specs.Graphs.{then_at, IsReached};
ghost use Rattle.fs_nodes.specs.Seen.{seen};
ghost use Rattle.fs_nodes.specs.Stores.{child, shape, graph_of};
ghost use Rattle.fs_calls.specs.Rows.{exchange_fault};
ghost use Rattle.fs_ops_effects.specs.Endings.{IsEffect};
ghost use Rattle.fs_ops_effects.specs.Plans.{pair_plan, swapped, swapping};

use crate::finish::Finish;
use crate::plan::{Plan, Swapping};
use crate::replies::Replies;
use crate::sights::sight_at;
use fs_calls::PairCall;
use fs_calls::rows::PairSight;
use fs_names::Name;
use fs_nodes::{NodeNo, Store};

/// What an exchange does, by what both names lead to in the two directories. No directory gets an entry more, so each
/// has room.
pub fn exchange_plan(
    store: &Store,
    one: Option<NodeNo>,
    other: Option<NodeNo>,
    same_path: bool,
) -> Plan
    ensures { result ≡ pair_plan (exchange_fault None None (then_at one (shape store.now)) (then_at other (shape store.now))) same_path (swapping one other) }
{
    let seen = PairSight {
        first: sight_at(store, one),
        second: sight_at(store, other),
        same_path,
        has_room: true,
    };
    if let Some(errno) = PairCall::Exchange.error(seen) {
        return Plan::Fails(errno);
    }
    match (&one, &other) {
        (Some(first), Some(second)) if !same_path => Plan::Swaps(*first, *second),
        _ => Plan::Stays,
    }
}

/// Two entries change what they name, each with all below its node. No number comes into use or leaves it.
pub fn exchange(
    store: &mut Store,
    swapping: Swapping,
    name: &Name,
    other_name: &Name,
    reserved: Option<NodeNo>,
) -> Finish
    requires there { child store.old swapping.source name.now ≡ Some swapping.first }
    requires there_too { child store.old swapping.dest other_name.now ≡ Some swapping.second }
    requires apart { (IsReached (child store.old) swapping.first swapping.second → ⊥) × (IsReached (child store.old) swapping.second swapping.first → ⊥) }
    ensures made { IsEffect (swapped (graph_of store.old) swapping name.now other_name.now reserved) result (graph_of store.new) }
    ensures rest { seen store.new ≡ record (seen store.old) { graph = graph_of store.new } }
{
    store.swap_entries(swapping.source, name, swapping.dest, other_name);
    Finish::kept(Replies::done(), reserved)
}
