//! A call whose caller learns where it took effect, and two threads that are handed its stamp: their observers show it.

ghost use Rattle.std.specs.Prelude.{◌≡◌, ◌^◌};

use fs_calls::{Call, Reply};
use fs_names::{Kind, Path};
use fs_share::{AtomFs, Named, Open, Opened, Session, Stamp};
use std::alloc::Global;
use std::marker::Brand;
use std::sync::Wait;
use std::sync::ledger::Blank;
use std::thread;
use std::thread::Threads;
use std::time::Clock;

/// Whether an observer that learns a stamp is shown an empty directory.
fn is_shown<N: Named, R: Wait>(
    rt: &R,
    alloc: Global,
    fs: &AtomFs<N>,
    stamp: &Stamp<N>,
) -> Option<bool> {
    let path = Path::parse(alloc, b"/a").ok()?;
    let mut observer = fs.observer(rt).ok()?;
    observer.learn(stamp);
    Some(matches!(observer.stat(alloc, &path), Ok(Reply::Stat(Kind::Dir, 0))))
}

/// The stamp of a published call.
fn tell<N: Named, R: Wait + Clock>(
    rt: &R,
    alloc: Global,
    session: &mut Session<'_, N>,
    call: &Call,
) -> Option<Stamp<N>> {
    let told = session.call_told(rt, alloc, call, &Open).ok()?;
    told.stamp
}

/// Makes a directory by such a call.
fn make<N: Named, R: Wait + Clock>(rt: &R, alloc: Global, fs: &AtomFs<N>) -> Option<Stamp<N>> {
    let call = Call::Mkdir(Path::parse(alloc, b"/a").ok()?);
    let mut session = fs.session(rt).ok()?;
    tell(rt, alloc, &mut session, &call)
}

/// Whether two threads that are handed the stamp are both shown what was made.
fn is_handed_on<N: Named + Send + Sync, R: Threads + Wait + Clock + Sync>(
    rt: &R,
    alloc: Global,
    fs: &AtomFs<N>,
) -> Option<bool> {
    let stamp = make(rt, alloc, fs)?;
    let (one, other) = thread::join(
        rt,
        || is_shown(rt, alloc, fs, &stamp),
        || is_shown(rt, alloc, fs, &stamp),
    );
    Some(one? && other?)
}

/// The same on a tree of the name `N`, which keeps stamps of different trees apart.
fn on_named<N: Named + Send + Sync, R: Threads + Wait + Clock + Sync>(
    rt: &R,
    alloc: Global,
    opened: Opened,
    blank: Blank,
) -> Option<bool>
    requires book { opened ≡ N.book }
    requires name { blank.name ≡ N.name }
    requires parts { blank.parts ≡ N.parts }
    requires all { blank.parts ≡ 2 ^ 63 }
{
    let fs = AtomFs::<N>::open(rt, alloc, opened, blank).ok()?;
    let are_shown = is_handed_on(rt, alloc, &fs);
    let _closed = fs.close(rt, Vec::new(alloc));
    are_shown
}

/// The same on a tree of its own.
pub fn are_shown<R: Threads + Wait + Clock + Sync>(rt: &R, alloc: Global) -> Option<bool> {
    on_named::<Brand, R>(rt, alloc, Opened::new(), Blank::new(1 << 63))
}
