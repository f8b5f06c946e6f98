//! What is made before a tree begins again: all that may fail.

ghost use Rattle.std.specs.Prelude.{◌≡◌, [], IfOk};
ghost use Rattle.fs_share.specs.Boards.{IsReady};

use crate::session::Tally;
use crate::tree::AtomFs;
use fs_core::{Core, NoCheckpoint};
use fs_seq::SeqTree;
use fs_share_observe::{Named, Opened, Publisher};
use std::alloc::{AllocError, Global};
use std::sync::Wait;
use std::sync::ledger::Blank;

/// A tree that did not begin again, as it was, with the tallies and the blank that were handed in, and why.
pub struct NotKept<N: Named> {
    pub fs: AtomFs<N>,
    pub tallies: Vec<Tally<N>>,
    pub blank: Blank,
    pub why: NoCheckpoint,
}

/// The tree to begin again at, and a publisher under the new name that shows it.
pub(crate) struct Ready<M: Named> {
    pub tree: SeqTree,
    pub publisher: Publisher<M>,
}

/// A publisher that shows a tree.
fn shows<M: Named, R: Wait>(
    rt: &R,
    alloc: Global,
    tree: &SeqTree,
    opened: Opened,
) -> Result<Publisher<M>, AllocError>
    requires { opened ≡ M.book }
    ensures { IfOk result (λ p. p ≡ record { start = tree.now; published = []; taken = []; entered = [] }) }
{
    let first = tree.copy()?;
    let second = tree.copy()?;
    Publisher::open(rt, alloc, opened, first, second)
}

/// All that may fail.
pub(crate) fn make_ready<M: Named, R: Wait>(
    rt: &R,
    alloc: Global,
    core: &Core,
    opened: Opened,
) -> Result<Ready<M>, NoCheckpoint>
    requires { opened ≡ M.book }
    ensures { IfOk result (λ ready. IsReady core.now ready.tree ready.publisher) }
{
    let tree = core.prepare(alloc)?;
    let publisher = shows(rt, alloc, &tree, opened).map_err(|_| NoCheckpoint::OutOfMemory)?;
    Ok(Ready { tree, publisher })
}
