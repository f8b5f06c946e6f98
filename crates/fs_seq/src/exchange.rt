//! Exchanges: two entries lead to one another's nodes.

ghost use Rattle.std.specs.Prelude.{◌≡◌, ◌<◌, Some, length};
ghost use Rattle.fs_seq_nodes.specs.code.Nodes.{graph};
ghost use Rattle.fs_seq_nodes.specs.code.Slots.{IsForest, place_at, links_at, Dir as IsDir};
ghost use Rattle.fs_seq.specs.code.Exchanging.{FindsBoth, Leads, Swaps};
ghost use Rattle.fs_seq.specs.code.Effects.{Answers};

use fs_calls::path_errors::exchange_error;
use fs_calls::rows::PairSight;
use fs_calls::{Call, Errno, PairCall, Reply};
use fs_names::Path;
use fs_seq_nodes::nodes::look_up;
use fs_seq_nodes::{Entry, Node};
use slab::Slab;

/// The entries at both paths, or the first error of an exchange. Its row asks neither whether the paths are one nor for
/// room.
fn find_both(nodes: &Slab<Node>, path: &Path, other: &Path) -> Result<(Entry, Entry), Errno>
    requires { IsForest (graph nodes.now) }
    ensures { FindsBoth (graph nodes.now) path.now other.now result }
{
    if let Some(errno) = exchange_error(path, other) {
        return Err(errno);
    }
    let first = match look_up(nodes, path) {
        Ok(spot) => spot,
        Err(errno) => return Err(errno),
    };
    let second = match look_up(nodes, other) {
        Ok(spot) => spot,
        Err(errno) => return Err(errno),
    };
    let seen = PairSight {
        first: first.sight(nodes),
        second: second.sight(nodes),
        same_path: false,
        has_room: true,
    };
    if let Some(errno) = PairCall::Exchange.error(seen) {
        return Err(errno);
    }
    match (first.entry(), second.entry()) {
        (Some(one), Some(two)) => Ok((one, two)),
        _ => unreachable!(),
    }
}

/// Lets the entry at a place of a directory lead to another node.
pub(crate) fn lead(nodes: &mut Slab<Node>, dir: usize, i: usize, node: usize)
    requires directory { place_at (graph nodes.old) dir ≡ Some (IsDir (links_at (graph nodes.old) dir)) }
    requires within { i < length (links_at (graph nodes.old) dir) }
    ensures { Leads (graph nodes.old) (graph nodes.new) dir i node }
{
    match &mut nodes[dir] {
        Node::Dir(links) => links.lead(i, node),
        Node::File(_) => {}
    }
}

/// Lets two entries lead to one another's nodes. No directory gets an entry more, so nothing is allocated.
fn swap(nodes: &mut Slab<Node>, one: Entry, two: Entry)
    requires dir { place_at (graph nodes.old) one.dir ≡ Some (IsDir (links_at (graph nodes.old) one.dir)) }
    requires place { one.place < length (links_at (graph nodes.old) one.dir) }
    requires other_dir { place_at (graph nodes.old) two.dir ≡ Some (IsDir (links_at (graph nodes.old) two.dir)) }
    requires other_place { two.place < length (links_at (graph nodes.old) two.dir) }
    ensures { Swaps (graph nodes.old) (graph nodes.new) one two }
{
    lead(nodes, one.dir, one.place, two.node);
    lead(nodes, two.dir, two.place, one.node);
}

/// Lets the nodes of two entries change places, each with all below it; of one path, nothing changes. An exchange costs
/// no more than its two lookups, and never allocates.
pub fn exchange(nodes: &mut Slab<Node>, path: &Path, other: &Path) -> Reply
    requires { IsForest (graph nodes.old) }
    ensures { Answers (graph nodes.old) (graph nodes.new) (Call.Exchange path.now other.now) result }
{
    let (one, two) = match find_both(nodes, path, other) {
        Ok(entries) => entries,
        Err(errno) => return Reply::Failed(errno),
    };
    if one.node != two.node {
        swap(nodes, one, two);
    }
    Reply::Done
}
