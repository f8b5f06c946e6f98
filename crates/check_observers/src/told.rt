//! Published calls, and observers that learn their stamps: rows of steps, by one session and one observer.

use crate::calls::{Deed, Sight, makes, shows, tell};
use fs_share::{AtomFs, Named, Observer, Open, Session, Stamp, Told};
use std::alloc::Global;
use std::sync::Wait;
use std::time::Clock;

/// What is done, and what must come of it.
#[derive(Clone, Copy)]
pub enum Step {
    /// A published call succeeds, with this place and a stamp.
    Tells(Deed, usize),
    /// A call that is not published is done.
    Makes(Deed),
    /// The observer learns the stamp of a published call of the row, counted from 0.
    Learns(usize),
    /// The observer shows this at a path.
    Shows(&'static [u8], Sight),
    /// The observer's list has so many calls.
    Counts(u64),
}

/// A first published call has place 0. An observer that learned nothing shows what was published, the empty tree
/// before.
pub const FIRST: &[Step] = &[
    Step::Shows(b"/a", Sight::Nothing),
    Step::Counts(0),
    Step::Tells(Deed::Mkdir(b"/a"), 0),
    Step::Shows(b"/a", Sight::EmptyDir),
    Step::Counts(1),
];

/// An observer that learns the second stamp, then the first, shows both calls.
pub const BOTH_STAMPS: &[Step] = &[
    Step::Tells(Deed::Mkdir(b"/a"), 0),
    Step::Tells(Deed::Rmdir(b"/a"), 1),
    Step::Learns(1),
    Step::Learns(0),
    Step::Shows(b"/a", Sight::Nothing),
    Step::Counts(2),
];

/// An observer reads what a published call wrote.
pub const WRITTEN: &[Step] = &[
    Step::Tells(Deed::Mknod(b"/f"), 0),
    Step::Tells(Deed::Write(b"/f", b"hi"), 1),
    Step::Learns(1),
    Step::Shows(b"/f", Sight::Bytes(b"hi")),
];

/// A call that is not published is shown once a later one is published, and not before.
pub const UNTOLD: &[Step] = &[
    Step::Makes(Deed::Mkdir(b"/a")),
    Step::Shows(b"/a", Sight::Nothing),
    Step::Counts(0),
    Step::Tells(Deed::Mkdir(b"/b"), 1),
    Step::Learns(0),
    Step::Shows(b"/a", Sight::EmptyDir),
    Step::Counts(2),
];

/// Has an observer learn the stamp of a published call.
fn learns<N: Named>(observer: &mut Observer<'_, N>, told: &Told<N>) -> Option<bool> {
    observer.learn(told.stamp.as_ref()?);
    Some(true)
}

/// Whether an observer that learns a stamp shows this at a path.
pub fn shows_after<N: Named>(
    alloc: Global,
    observer: &mut Observer<'_, N>,
    stamp: &Stamp<N>,
    text: &[u8],
    sight: Sight,
) -> Option<bool> {
    observer.learn(stamp);
    shows(alloc, observer, text, sight)
}

/// Makes a published call, and keeps what it answers.
fn tells<N: Named, R: Wait + Clock>(
    rt: &R,
    alloc: Global,
    session: &mut Session<'_, N>,
    deed: Deed,
    place: usize,
    tolds: &mut Vec<Told<N>>,
) -> Option<bool> {
    tolds.push(tell(rt, alloc, session, deed, place)?).ok()?;
    Some(true)
}

/// Does a step. Whether it comes out as it must.
fn take<N: Named, R: Wait + Clock>(
    rt: &R,
    alloc: Global,
    session: &mut Session<'_, N>,
    observer: &mut Observer<'_, N>,
    tolds: &mut Vec<Told<N>>,
    step: Step,
) -> Option<bool> {
    match step {
        Step::Tells(deed, place) => tells(rt, alloc, session, deed, place, tolds),
        Step::Makes(deed) => makes(rt, alloc, session, deed, &Open),
        Step::Learns(number) => learns(observer, tolds.get(number)?),
        Step::Shows(text, sight) => shows(alloc, observer, text, sight),
        Step::Counts(count) => Some(observer.count() == count),
    }
}

/// Does the steps of a row, as far as they come out right. Whether all do.
fn takes<N: Named, R: Wait + Clock>(
    rt: &R,
    alloc: Global,
    session: &mut Session<'_, N>,
    observer: &mut Observer<'_, N>,
    steps: &[Step],
) -> Option<bool> {
    let mut tolds = Vec::new(alloc);
    for step in steps {
        if !take(rt, alloc, session, observer, &mut tolds, *step)? {
            return Some(false);
        }
    }
    Some(true)
}

/// The same by a new observer.
fn observes<N: Named, R: Wait + Clock>(
    rt: &R,
    alloc: Global,
    fs: &AtomFs<N>,
    session: &mut Session<'_, N>,
    steps: &[Step],
) -> Option<bool> {
    match fs.observer(rt) {
        Ok(mut observer) => takes(rt, alloc, session, &mut observer, steps),
        Err(_) => None,
    }
}

/// The same by a new session too.
pub fn comes_out<N: Named, R: Wait + Clock>(
    rt: &R,
    alloc: Global,
    fs: &AtomFs<N>,
    steps: &[Step],
) -> Option<bool> {
    match fs.session(rt) {
        Ok(mut session) => observes(rt, alloc, fs, &mut session, steps),
        Err(_) => None,
    }
}
