//! A caller that its gate holds in the middle of its call.

ghost use Rattle.std.specs.Prelude.{◌≡◌, ◌^◌};

use check_sessions::calls::{
    calls_of, commit_place, has_counts, is_before, lists_of, path, return_place,
};
use check_sessions::playing::{Ended, Played, Sessions, end, play};
use check_sessions::{TURNS, is_set, is_set_within};
use fs_calls::{Call, Reply};
use fs_core::Stepped;
use fs_names::{Kind, Path};
use fs_nodes::{NodeNo, Store};
use fs_script::CallLists;
use fs_share::{Answer, AtomFs, Gate, Named, Open, Opened};
use std::alloc::Global;
use std::marker::Brand;
use std::sync::Wait;
use std::sync::atomic::{AtomicU64, Ordering};
use std::sync::ledger::Blank;
use std::thread;
use std::thread::Threads;
use std::time::Clock;

/// Holds its caller after so many events, until the flag is set or the turns are over.
#[derive(Drop)]
struct Holds {
    hold: Hold,
    events: AtomicU64,
    stands: AtomicU64,
    flag: AtomicU64,
    found: AtomicU64,
}

/// After how many events a call is held, and for how many turns of a millisecond.
#[derive(Clone, Copy)]
pub struct Hold {
    pub after: u64,
    pub turns: u64,
}

impl Holds {
    fn new(hold: Hold) -> Holds {
        Holds {
            hold,
            events: AtomicU64::new(0),
            stands: AtomicU64::new(0),
            flag: AtomicU64::new(0),
            found: AtomicU64::new(0),
        }
    }
}

impl Gate for Holds {
    fn after<R: Wait + Clock>(&self, rt: &R, _stepped: &Stepped) {
        if self.events.fetch_add(1, Ordering::SeqCst).wrapping_add(1) != self.hold.after {
            return;
        }
        self.stands.store(1, Ordering::SeqCst);
        if is_set_within(rt, &self.flag, self.hold.turns) {
            self.found.store(1, Ordering::SeqCst);
        }
    }
}

/// The calls that make a tree, those that are held, and the other ones.
#[derive(Clone, Copy)]
pub struct Parts<'a> {
    pub made: &'a [Call],
    pub held: &'a [Call],
    pub other: &'a [Call],
}

/// The calls that are held. If they have fewer events than they are held after, the other ones begin after them.
fn held<N: Named, R: Wait + Clock>(
    rt: &R,
    alloc: Global,
    fs: &AtomFs<N>,
    calls: &[Call],
    gate: &Holds,
) -> Option<Played<N>> {
    let played = play(rt, alloc, fs, calls, gate);
    gate.stands.store(1, Ordering::SeqCst);
    played
}

/// The other calls once the caller is held, after which the caller is let go.
fn other<N: Named, R: Wait + Clock>(
    rt: &R,
    alloc: Global,
    fs: &AtomFs<N>,
    calls: &[Call],
    gate: &Holds,
) -> Option<Played<N>> {
    if !is_set(rt, &gate.stands) {
        return None;
    }
    let played = play(rt, alloc, fs, calls, &Open);
    gate.flag.store(1, Ordering::SeqCst);
    played
}

/// Makes what the tree has, then runs the calls that are held and the other ones meanwhile.
fn meet_on<N: Named + Send + Sync, R: Threads + Wait + Clock + Sync>(
    rt: &R,
    alloc: Global,
    fs: &AtomFs<N>,
    parts: Parts<'_>,
    gate: &Holds,
) -> Option<Sessions<N>> {
    let mut sessions = vec![in alloc; play(rt, alloc, fs, parts.made, &Open)].ok()?;
    let met = thread::map_indices(
        rt,
        alloc,
        2,
        &|i| match i {
            0 => held(rt, alloc, fs, parts.held, gate),
            _ => other(rt, alloc, fs, parts.other, gate),
        },
    );
    sessions.append(&mut met.ok()?).ok()?;
    Some(sessions)
}

/// The same on a tree of its own.
fn meet_named<N: Named + Send + Sync, R: Threads + Wait + Clock + Sync>(
    rt: &R,
    alloc: Global,
    opened: Opened,
    blank: Blank,
    parts: Parts<'_>,
    gate: &Holds,
) -> Option<Ended>
    requires book { opened ≡ N.book }
    requires name { blank.name ≡ N.name }
    requires parts { blank.parts ≡ N.parts }
    requires all { blank.parts ≡ 2 ^ 63 }
{
    let fs = AtomFs::<N>::open(rt, alloc, opened, blank).ok()?;
    let sessions = meet_on(rt, alloc, &fs, parts, gate);
    end(rt, alloc, fs, sessions)
}

/// What came of a held call and another one: whether it was held, and whether the other one returned meanwhile.
#[derive(Drop)]
pub struct Both {
    pub was_held: bool,
    pub found: bool,
    pub ended: Ended,
}

impl Both {
    /// The answers of the held call and of the other one.
    pub fn answers(&self) -> Option<(&Answer, &Answer)> {
        let answers = self.ended.answers.as_slice();
        Some((answers.get(1)?.first()?, answers.get(2)?.first()?))
    }
}

/// On a tree that some calls made, a call is held by its gate, and another one begins meanwhile.
pub fn meet<R: Threads + Wait + Clock + Sync>(
    rt: &R,
    alloc: Global,
    parts: Parts<'_>,
    hold: Hold,
) -> Option<Both> {
    let gate = Holds::new(hold);
    let (opened, blank) = (Opened::new(), Blank::new(1 << 63));
    let ended = meet_named::<Brand, R>(rt, alloc, opened, blank, parts, &gate)?;
    Some(Both {
        was_held: gate.events.load(Ordering::SeqCst) >= hold.after,
        found: gate.found.load(Ordering::SeqCst) == 1,
        ended,
    })
}

/// The calls that make the tree, the one that is held, and the other one.
const OVERLAP: &[u8] =
    b"atomfs 1\nthread made\nmkdir /a\nmkdir /b\nthread held\nmkdir /a/x\nthread other\nstat /b\nschedule\n";

const HELP: &[u8] =
    b"atomfs 1\nthread made\nmkdir /a\nmkdir /a/d\nthread held\nmkdir /a/d/x\nthread other\nrename /a /b\nschedule\n";

/// The parts that a script has, a thread each.
fn parts_of(lists: &CallLists) -> Option<Parts<'_>> {
    Some(Parts {
        made: calls_of(lists, 0)?,
        held: calls_of(lists, 1)?,
        other: calls_of(lists, 2)?,
    })
}

/// A call of a script is held after so many events, and another one begins meanwhile.
fn meet_script<R: Threads + Wait + Clock + Sync>(
    rt: &R,
    alloc: Global,
    text: &[u8],
    after: u64,
) -> Option<Both> {
    let lists = lists_of(alloc, text)?;
    let turns = TURNS;
    meet(rt, alloc, parts_of(&lists)?, Hold { after, turns })
}

/// Whether the other one returned before the held call committed.
fn has_returned(both: &Both) -> Option<bool> {
    let entries = both.ended.closed.timeline.entries();
    let (held, other) = both.answers()?;
    Some(
        both.found
            && matches!(held.reply, Reply::Done)
            && matches!(other.reply, Reply::Stat(Kind::Dir, 0))
            && has_counts(&both.ended.closed, 3, 12)
            && is_before(
                return_place(entries, other.call),
                commit_place(entries, held.call),
            ),
    )
}

/// Whether a call that is held lets another one return before it commits.
pub fn others_return<R: Threads + Wait + Clock + Sync>(rt: &R, alloc: Global) -> Option<bool> {
    has_returned(&meet_script(rt, alloc, OVERLAP, 3)?)
}

/// Whether a path leads from the root to a directory.
fn is_dir(store: &Store, path: &Path) -> bool {
    let mut node = NodeNo::new(0);
    for i in 0..path.len() {
        if !store.is_used(node) || !store.is_dir(node) {
            return false;
        }
        let Some(next) = store.find(node, path.name(i)) else {
            return false;
        };
        node = next;
    }
    store.is_used(node) && store.is_dir(node)
}

/// Whether the other one committed the held call ahead of itself and returned before it, and the directory is at its new place.
fn has_helped(both: &Both, moved: &Path) -> Option<bool> {
    let entries = both.ended.closed.timeline.entries();
    let (held, other) = both.answers()?;
    Some(
        both.found
            && matches!(held.reply, Reply::Done)
            && matches!(other.reply, Reply::Done)
            && is_before(
                commit_place(entries, held.call),
                commit_place(entries, other.call),
            )
            && is_before(
                return_place(entries, other.call),
                return_place(entries, held.call),
            )
            && is_dir(&both.ended.closed.store, moved),
    )
}

/// Whether a rename commits a held call below it ahead of itself and returns, and the call finishes in the moved tree.
pub fn rename_helps<R: Threads + Wait + Clock + Sync>(rt: &R, alloc: Global) -> Option<bool> {
    let moved = path(alloc, b"/b/d/x")?;
    let both = meet_script(rt, alloc, HELP, 5)?;
    has_helped(&both, &moved)
}
