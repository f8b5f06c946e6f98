//! A tree for as long as something is done on it.

ghost use Rattle.std.specs.Prelude.{◌≡◌, ◌^◌, IfOk};
ghost use Rattle.fs_nodes.specs.Graphs.{graph_shapes};
ghost use Rattle.fs_nodes.specs.Stores.{graph_of};
ghost use Rattle.fs_calls.specs.Outcomes.{play};
ghost use Rattle.fs_calls.specs.Starts.{root_start};
ghost use Rattle.fs_calls.specs.Sights.{tree_shapes};
ghost use Rattle.fs_timeline.specs.Timeline.{IsLawful, commits};
ghost use Rattle.fs_share.specs.Returns.{AllReturned};

use crate::session::Tally;
use crate::tree::{AtomFs, Closed};
use fs_names::Limits;
use fs_share_observe::{Named, Opened};
use std::alloc::{AllocError, Global};
use std::marker::Brand;
use std::sync::Wait;
use std::sync::ledger::Blank;
use std::thread::Threads;
use std::time::Clock;

/// What is done on a tree, whatever its name is.
pub trait Inside {
    /// What comes of it.
    type Out: Drop;

    /// Does it, and hands out the tallies of the sessions that it ended; it may keep any of them.
    fn run<N: Named + Send + Sync, R: Threads + Wait + Clock + Sync>(
        &self,
        rt: &R,
        alloc: Global,
        fs: &AtomFs<N>,
    ) -> (Self::Out, Vec<Tally<N>>);
}

/// Does something on a tree of this name, and ends the tree.
fn inside_named<N: Named + Send + Sync, R: Threads + Wait + Clock + Sync, I: Inside>(
    rt: &R,
    alloc: Global,
    inside: &I,
    opened: Opened,
    blank: Blank,
) -> Result<(I::Out, Closed), AllocError>
    requires book { opened ≡ N.book }
    requires name { blank.name ≡ N.name }
    requires parts { blank.parts ≡ N.parts }
    requires all { blank.parts ≡ 2 ^ 63 }
    ensures start { IfOk result (λ made. made.1.start ≡ root_start Limits.V2) }
    ensures lawful { IfOk result (λ made. IsLawful made.1.start made.1.timeline.entries) }
    ensures spelled { IfOk result (λ made. AllReturned made.1.timeline.entries → graph_shapes (graph_of made.1.store) ≡ tree_shapes (play made.1.start (commits made.1.timeline.entries))) }
{
    let fs = AtomFs::<N>::open(rt, alloc, opened, blank)?;
    let (out, tallies) = inside.run(rt, alloc, &fs);
    let closed = fs.close(rt, tallies);
    Ok((out, closed))
}

/// Does something on a new tree of a name of its own, and ends the tree: what came of it, and what is left of the tree. Whoever
/// calls it needs no name, no ledger and no proof. The only error is out of memory, before anything is done.
pub fn with_tree<R: Threads + Wait + Clock + Sync, I: Inside>(
    rt: &R,
    alloc: Global,
    inside: &I,
) -> Result<(I::Out, Closed), AllocError>
    ensures start { IfOk result (λ made. made.1.start ≡ root_start Limits.V2) }
    ensures lawful { IfOk result (λ made. IsLawful made.1.start made.1.timeline.entries) }
    ensures spelled { IfOk result (λ made. AllReturned made.1.timeline.entries → graph_shapes (graph_of made.1.store) ≡ tree_shapes (play made.1.start (commits made.1.timeline.entries))) }
{
    inside_named::<Brand, R, I>(rt, alloc, inside, Opened::new(), Blank::new(1 << 63))
}
