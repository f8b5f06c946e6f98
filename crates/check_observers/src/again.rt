//! A tree that begins again, as its observers see it.

ghost use Rattle.std.specs.Prelude.{◌≡◌, ◌^◌};

use crate::calls::{Deed, Sight};
use crate::told::{Step, comes_out, shows_after};
use fs_share::{AtomFs, Named, NotKept, Opened, Stamp};
use fs_timeline::Entry;
use std::alloc::Global;
use std::marker::Brand;
use std::sync::Wait;
use std::sync::ledger::Blank;
use std::thread::Threads;
use std::time::Clock;

/// A directory that is published, and a file that is not.
const BEFORE: &[Step] = &[
    Step::Tells(Deed::Mkdir(b"/a"), 0),
    Step::Makes(Deed::Mknod(b"/f")),
    Step::Shows(b"/f", Sight::Nothing),
];

/// Both are there from the first, and places count from the start tree.
const AFTER: &[Step] = &[
    Step::Shows(b"/a", Sight::EmptyDir),
    Step::Shows(b"/f", Sight::Bytes(b"")),
    Step::Counts(0),
    Step::Tells(Deed::Mkdir(b"/a/d"), 0),
    Step::Learns(0),
    Step::Shows(b"/a", Sight::Name(b'd')),
    Step::Counts(1),
];

/// Whether the first stamp of the new tree shows what was made before.
fn shows_first<N: Named, R: Wait + Clock>(
    rt: &R,
    alloc: Global,
    fs: &AtomFs<N>,
    first: &Stamp<N>,
) -> Option<bool> {
    match fs.observer(rt) {
        Ok(mut observer) => shows_after(alloc, &mut observer, first, b"/a", Sight::EmptyDir),
        Err(_) => None,
    }
}

/// Both, where both were found out.
fn both(one: Option<bool>, other: Option<bool>) -> Option<bool> {
    Some(one? && other?)
}

/// Whether the new tree is shown from the first on, to an observer too that learns its first stamp.
fn goes_on<N: Named, R: Wait + Clock>(
    rt: &R,
    alloc: Global,
    fs: &AtomFs<N>,
    first: &Stamp<N>,
) -> Option<bool> {
    let shown = shows_first(rt, alloc, fs, first);
    both(shown, comes_out(rt, alloc, fs, AFTER))
}

/// Whether the new tree is shown, has a session of its own, and followed two calls. It is ended.
fn ends_well<N: Named, R: Wait + Clock>(
    rt: &R,
    alloc: Global,
    fs: AtomFs<N>,
    entries: &[Entry],
    first: &Stamp<N>,
) -> Option<bool> {
    let shown = goes_on(rt, alloc, &fs, first);
    let closed = fs.close(rt, Vec::new(alloc));
    let counts = (entries.len(), closed.timeline.entries().len());
    both(shown, Some(counts == (6, 3) && closed.sessions == 1))
}

/// Ends a tree that did not begin again.
fn give_up<N: Named, R: Wait>(rt: &R, left: NotKept<N>) {
    let NotKept {
        fs,
        tallies,
        blank: _blank,
        why: _why,
    } = left;
    let _closed = fs.close(rt, tallies);
}

/// A tree begins again under another name. Whether its observers show what was made before, and what is made after.
fn begins_again<N: Named, M: Named, R: Wait + Clock>(
    rt: &R,
    alloc: Global,
    fs: AtomFs<N>,
    opened: Opened,
    blank: Blank,
) -> Option<bool>
    requires book { opened ≡ M.book }
    requires name { blank.name ≡ M.name }
    requires parts { blank.parts ≡ M.parts }
    requires all { blank.parts ≡ 2 ^ 63 }
{
    let before = comes_out(rt, alloc, &fs, BEFORE);
    let told = fs.first(rt);
    match fs.checkpoint_told::<M, R>(rt, alloc, Vec::new(alloc), &told, opened, blank) {
        Ok((fs, entries, first)) => both(before, ends_well(rt, alloc, fs, &entries, &first)),
        Err(left) => {
            give_up(rt, left);
            None
        }
    }
}

/// The same of a tree of a name.
fn on_named<N: Named, R: Wait + Clock>(
    rt: &R,
    alloc: Global,
    opened: Opened,
    blank: Blank,
) -> Option<bool>
    requires book { opened ≡ N.book }
    requires name { blank.name ≡ N.name }
    requires parts { blank.parts ≡ N.parts }
    requires all { blank.parts ≡ 2 ^ 63 }
{
    let fs = AtomFs::<N>::open(rt, alloc, opened, blank).ok()?;
    let (opened, blank) = (Opened::new(), Blank::new(1 << 63));
    begins_again::<N, Brand, R>(rt, alloc, fs, opened, blank)
}

/// The same of a tree of its own.
pub fn is_shown<R: Threads + Wait + Clock + Sync>(rt: &R, alloc: Global) -> Option<bool> {
    on_named::<Brand, R>(rt, alloc, Opened::new(), Blank::new(1 << 63))
}
