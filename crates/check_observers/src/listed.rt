//! What an observer learned, beside the journal that the tree hands out at its end.

ghost use Rattle.std.specs.Prelude.{◌≡◌, ◌^◌};

use crate::calls::{Deed, makes, tell};
use fs_share::{AtomFs, Named, Open, Opened, Stamp};
use std::alloc::Global;
use std::marker::Brand;
use std::sync::Wait;
use std::sync::ledger::Blank;
use std::thread::Threads;
use std::time::Clock;

/// The stamp of an observer that learned of the first of two calls.
fn seen<N: Named, R: Wait + Clock>(rt: &R, alloc: Global, fs: &AtomFs<N>) -> Option<Stamp<N>> {
    let mut session = fs.session(rt).ok()?;
    let told = tell(rt, alloc, &mut session, Deed::Mkdir(b"/a"), 0)?;
    let is_made = makes(rt, alloc, &mut session, Deed::Mknod(b"/f"), &Open)?;
    let mut observer = fs.observer(rt).ok()?;
    observer.learn(told.stamp.as_ref()?);
    let stamp = observer.stamp();
    fs.agrees(&stamp);
    if is_made && observer.count() == 1 {
        Some(stamp)
    } else {
        None
    }
}

/// Whether a tree of a name says at its end that the observer's list is a beginning of what committed.
fn on_named<N: Named, R: Wait + Clock>(
    rt: &R,
    alloc: Global,
    opened: Opened,
    blank: Blank,
) -> Option<bool>
    requires book { opened ≡ N.book }
    requires name { blank.name ≡ N.name }
    requires parts { blank.parts ≡ N.parts }
    requires all { blank.parts ≡ 2 ^ 63 }
{
    let fs = AtomFs::<N>::open(rt, alloc, opened, blank).ok()?;
    match seen(rt, alloc, &fs) {
        Some(stamp) => {
            let (closed, is_listed) = fs.close_told(rt, Vec::new(alloc), &stamp);
            Some(is_listed && closed.timeline.entries().len() == 6)
        }
        None => {
            let _closed = fs.close(rt, Vec::new(alloc));
            None
        }
    }
}

/// The same of a tree of its own.
pub fn is_told<R: Threads + Wait + Clock + Sync>(rt: &R, alloc: Global) -> Option<bool> {
    on_named::<Brand, R>(rt, alloc, Opened::new(), Blank::new(1 << 63))
}
