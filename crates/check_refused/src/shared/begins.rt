//! A tree that begins again, which is asked for once more where memory was refused.

ghost use Rattle.std.specs.Prelude.{◌≡◌, ◌^◌};

use super::again::{path, stat};
use super::{observer, session};
use fs_calls::Reply;
use fs_names::Kind;
use fs_share::{AtomFs, Closed, Named, NotKept, Opened, Tally};
use std::alloc::Global;
use std::sync::Wait;
use std::sync::ledger::Blank;

/// Whether a new observer shows the empty directory `/a`, beside a session that ends.
fn shows<N: Named, R: Wait>(rt: &R, alloc: Global, fs: &AtomFs<N>) -> Option<bool> {
    let path = path(alloc, b"/a")?;
    let _tally = session(rt, fs)?.end();
    let mut observer = observer(rt, fs)?;
    let seen = stat(alloc, &mut observer, &path)?;
    Some(matches!(seen, Reply::Stat(Kind::Dir, 0)))
}

/// The same of a tree that is ended then.
fn end<N: Named, R: Wait>(rt: &R, alloc: Global, fs: AtomFs<N>) -> (Option<bool>, Closed) {
    let shown = shows(rt, alloc, &fs);
    (shown, fs.close(rt, Vec::new(alloc)))
}

/// A tree that did not begin again does so under a further name.
fn once_more<N: Named, M: Named, R: Wait>(
    rt: &R,
    alloc: Global,
    left: NotKept<N>,
    opened: Opened,
) -> (Option<bool>, Closed)
    requires book { opened ≡ M.book }
    requires name { left.blank.name ≡ M.name }
    requires parts { left.blank.parts ≡ M.parts }
    requires all { left.blank.parts ≡ 2 ^ 63 }
{
    let NotKept {
        fs,
        tallies,
        blank,
        why: _why,
    } = left;
    match fs.checkpoint::<M, R>(rt, alloc, tallies, opened, blank) {
        Ok((fs, _entries)) => end(rt, alloc, fs),
        Err(left) => {
            let NotKept {
                fs,
                tallies,
                blank: _blank,
                why: _why,
            } = left;
            (None, fs.close(rt, tallies))
        }
    }
}

/// A tree begins again under one name, and under the other after memory was refused. Whether it shows the empty
/// directory `/a`, and what is there when it is closed.
pub fn begin_again<N: Named, M: Named, L: Named, R: Wait>(
    rt: &R,
    alloc: Global,
    fs: AtomFs<N>,
    tallies: Vec<Tally<N>>,
    blank: Blank,
    opened: Opened,
    other: Opened,
) -> (Option<bool>, Closed)
    requires book { opened ≡ M.book }
    requires other { other ≡ L.book }
    requires name { (blank.name ≡ M.name) × (blank.name ≡ L.name) }
    requires parts { (blank.parts ≡ M.parts) × (blank.parts ≡ L.parts) }
    requires all { blank.parts ≡ 2 ^ 63 }
{
    match fs.checkpoint::<M, R>(rt, alloc, tallies, opened, blank) {
        Ok((fs, _entries)) => end(rt, alloc, fs),
        Err(left) => once_more::<N, L, R>(rt, alloc, left, other),
    }
}
