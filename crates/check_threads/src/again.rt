//! A tree that begins again: what its sessions did up to the checkpoint is in the entries that it hands out, and what
//! later ones do is in the timeline that starts there.

ghost use Rattle.std.specs.Prelude.{◌≡◌, ◌^◌};

use check_sessions::calls::{calls_of, has_counts, is_lawful, lists_of};
use check_sessions::playing::{Ended, Sessions, end, play, tallies_of};
use fs_journal::check_from;
use fs_names::CallNo;
use fs_script::CallLists;
use fs_share::{AtomFs, Closed, Named, NotKept, Open, Opened, Tally};
use fs_timeline::{Entry, Verdict};
use std::alloc::Global;
use std::marker::Brand;
use std::sync::Wait;
use std::sync::ledger::Blank;
use std::thread;
use std::thread::Threads;
use std::time::Clock;

/// The calls of two sessions side by side up to the checkpoint, and those of two after it. The read is lawful from the
/// tree that the first two leave, and not from the root alone.
const CALLS: &[u8] = b"\
atomfs 1
thread before
mkdir /a
mknod /a/f
write /a/f 0 6869
thread beside
mkdir /b
rmdir /b
thread behind
read /a/f 0 9
rename /a /c
thread last
mkdir /c
stat /c
schedule
";

/// Two threads of the script, each by a session of its own.
fn play_two<N: Named + Send + Sync, R: Threads + Wait + Clock + Sync>(
    rt: &R,
    alloc: Global,
    fs: &AtomFs<N>,
    lists: &CallLists,
    first: usize,
    second: usize,
) -> Option<Sessions<N>> {
    let one = calls_of(lists, first)?;
    let other = calls_of(lists, second)?;
    thread::map_indices(
        rt,
        alloc,
        2,
        &|i| match i {
            0 => play(rt, alloc, fs, one, &Open),
            _ => play(rt, alloc, fs, other, &Open),
        },
    )
    .ok()
}

/// Ends a tree that did not begin again.
fn give_up<N: Named, R: Wait>(rt: &R, left: NotKept<N>) {
    let NotKept {
        fs,
        tallies,
        blank: _blank,
        why: _why,
    } = left;
    let _closed = fs.close(rt, tallies);
}

/// Begins again under another name, of which nothing comes, and plays the last two threads; the tree is ended.
fn go_on<N: Named, M: Named + Send + Sync, R: Threads + Wait + Clock + Sync>(
    rt: &R,
    alloc: Global,
    fs: AtomFs<N>,
    opened: Opened,
    blank: Blank,
    lists: &CallLists,
) -> Option<(usize, Ended)>
    requires book { opened ≡ M.book }
    requires name { blank.name ≡ M.name }
    requires parts { blank.parts ≡ M.parts }
    requires all { blank.parts ≡ 2 ^ 63 }
{
    match fs.checkpoint::<M, R>(rt, alloc, Vec::new(alloc), opened, blank) {
        Ok((fs, none)) => {
            let sessions = play_two(rt, alloc, &fs, lists, 2, 3);
            Some((none.len(), end(rt, alloc, fs, sessions)?))
        }
        Err(left) => {
            give_up(rt, left);
            None
        }
    }
}

/// Begins again under another name, and goes on at once under a third one. It answers the entries up to the first time, how many
/// there were up to the second, and the end.
fn begin_again<N: Named, M: Named, R: Threads + Wait + Clock + Sync>(
    rt: &R,
    alloc: Global,
    fs: AtomFs<N>,
    tallies: Vec<Tally<N>>,
    opened: Opened,
    blank: Blank,
    lists: &CallLists,
) -> Option<(Vec<Entry>, usize, Ended)>
    requires book { opened ≡ M.book }
    requires name { blank.name ≡ M.name }
    requires parts { blank.parts ≡ M.parts }
    requires all { blank.parts ≡ 2 ^ 63 }
{
    match fs.checkpoint::<M, R>(rt, alloc, tallies, opened, blank) {
        Ok((fs, entries)) => {
            let (opened, blank) = (Opened::new(), Blank::new(1 << 63));
            let (none, ended) = go_on::<M, Brand, R>(rt, alloc, fs, opened, blank, lists)?;
            Some((entries, none, ended))
        }
        Err(left) => {
            give_up(rt, left);
            None
        }
    }
}

/// Plays the first two threads, begins again, and goes on.
fn play_on<N: Named + Send + Sync, R: Threads + Wait + Clock + Sync>(
    rt: &R,
    alloc: Global,
    opened: Opened,
    blank: Blank,
    lists: &CallLists,
) -> Option<(Vec<Entry>, usize, Ended)>
    requires book { opened ≡ N.book }
    requires name { blank.name ≡ N.name }
    requires parts { blank.parts ≡ N.parts }
    requires all { blank.parts ≡ 2 ^ 63 }
{
    let fs = AtomFs::<N>::open(rt, alloc, opened, blank).ok()?;
    let sessions = play_two(rt, alloc, &fs, lists, 0, 1);
    let tallies = tallies_of(alloc, sessions).unwrap_or(Vec::new(alloc));
    let (opened, blank) = (Opened::new(), Blank::new(1 << 63));
    begin_again::<N, Brand, R>(rt, alloc, fs, tallies, opened, blank, lists)
}

/// Whether the timeline begins with call 1, and is lawful from its start tree and not from the root alone.
fn starts_there(alloc: Global, closed: &Closed) -> Option<bool> {
    let entries = closed.timeline.entries();
    let first = matches!(entries.first()?, Entry::Begin(number, _, _) if *number == CallNo::new(1));
    let verdict = check_from(alloc, &closed.start, entries).ok()?;
    Some(first && matches!(verdict, Verdict::Lawful) && !is_lawful(alloc, entries)?)
}

/// Whether the entries up to the first time are those of the first two sessions, there were none up to the second, and what
/// follows is that of the last two.
fn are_pieces(alloc: Global, entries: &[Entry], none: usize, closed: &Closed) -> Option<bool> {
    let counts = entries.len() == 15 && none == 0 && has_counts(closed, 2, 12);
    Some(counts && is_lawful(alloc, entries)? && starts_there(alloc, closed)?)
}

/// The same by the calls of a script.
fn are_lawful_of<R: Threads + Wait + Clock + Sync>(
    rt: &R,
    alloc: Global,
    lists: &CallLists,
) -> Option<bool> {
    let (opened, blank) = (Opened::new(), Blank::new(1 << 63));
    let (entries, none, ended) = play_on::<Brand, R>(rt, alloc, opened, blank, lists)?;
    are_pieces(alloc, &entries, none, &ended.closed)
}

/// Whether each piece has the calls of its own sessions, and is lawful from its start tree.
pub fn are_lawful<R: Threads + Wait + Clock + Sync>(rt: &R, alloc: Global) -> Option<bool> {
    let lists = lists_of(alloc, CALLS)?;
    are_lawful_of(rt, alloc, &lists)
}
