//! What sessions answer, beside what the timeline says.

ghost use Rattle.std.specs.Prelude.{◌≡◌, ◌^◌};

use check_sessions::calls::{calls_of, fits, has_counts, is_lawful, is_new, lists_of};
use check_sessions::playing::{Ended, Sessions, end, play};
use fs_calls::Call;
use fs_share::{Answer, AtomFs, Named, Open, Opened};
use fs_timeline::Entry;
use std::alloc::Global;
use std::marker::Brand;
use std::sync::Wait;
use std::sync::ledger::Blank;
use std::thread;
use std::thread::Threads;
use std::time::Clock;

/// The calls that each session plays twenty times.
const CALLS: &[u8] = b"\
mkdir /d
mknod /s
write /s 0 6869
read /s 0 2
truncate /s 1
stat /s
readdir /
exchange /d /s
exchange /d /s
rename /s /t
unlink /t
rmdir /d
";

/// The script of a thread that has the calls twenty times.
fn script(alloc: Global) -> Option<Vec<u8>> {
    let mut text = Vec::new(alloc);
    text.extend_from_slice(b"atomfs 1\nthread each\n").ok()?;
    for _ in 0..20u64 {
        text.extend_from_slice(CALLS).ok()?;
    }
    text.extend_from_slice(b"schedule\n").ok()?;
    Some(text)
}

/// How many answers of a session have a number that no other one has, and fit, each at its call.
fn fitting(entries: &[Entry], list: &[Call], answers: &[Answer], seen: &mut [bool]) -> u64 {
    let mut count = 0u64;
    for i in 0..answers.len() {
        let Some(call) = list.get(i) else {
            return 0;
        };
        if is_new(seen, &answers[i]) && fits(entries, call, &answers[i]) {
            count = count.wrapping_add(1);
        }
    }
    count
}

/// Four sessions play a list, each on a thread of its own.
fn four_play<N: Named + Send + Sync, R: Threads + Wait + Clock + Sync>(
    rt: &R,
    alloc: Global,
    fs: &AtomFs<N>,
    list: &[Call],
) -> Option<Sessions<N>> {
    thread::map_indices(rt, alloc, 4, &|_| play(rt, alloc, fs, list, &Open)).ok()
}

fn on_four_threads<N: Named + Send + Sync, R: Threads + Wait + Clock + Sync>(
    rt: &R,
    alloc: Global,
    opened: Opened,
    blank: Blank,
    list: &[Call],
) -> Option<Ended>
    requires book { opened ≡ N.book }
    requires name { blank.name ≡ N.name }
    requires parts { blank.parts ≡ N.parts }
    requires all { blank.parts ≡ 2 ^ 63 }
{
    let fs = AtomFs::<N>::open(rt, alloc, opened, blank).ok()?;
    let sessions = four_play(rt, alloc, &fs, list);
    end(rt, alloc, fs, sessions)
}

/// Whether each answer fits, and no two have one number.
fn fit(entries: &[Entry], list: &[Call], four: &[Vec<Answer>]) -> bool {
    let mut seen = [false; 961];
    let mut count = 0u64;
    for answers in four {
        count = count.wrapping_add(fitting(entries, list, answers, &mut seen));
    }
    count == 960
}

/// Whether these are the answers of the sessions of a timeline.
fn all_fit(alloc: Global, list: &[Call], ended: &Ended) -> Option<bool> {
    let entries = ended.closed.timeline.entries();
    Some(
        has_counts(&ended.closed, 4, 2880)
            && fit(entries, list, &ended.answers)
            && is_lawful(alloc, entries)?,
    )
}

/// The same of the sessions that play a list.
fn play_four<R: Threads + Wait + Clock + Sync>(
    rt: &R,
    alloc: Global,
    list: &[Call],
) -> Option<bool> {
    let (opened, blank) = (Opened::new(), Blank::new(1 << 63));
    let ended = on_four_threads::<Brand, R>(rt, alloc, opened, blank, list)?;
    all_fit(alloc, list, &ended)
}

/// Whether four sessions, each twenty times the eleven calls, get the replies of their own returns.
pub fn are_right<R: Threads + Wait + Clock + Sync>(rt: &R, alloc: Global) -> Option<bool> {
    let lists = lists_of(alloc, &script(alloc)?)?;
    play_four(rt, alloc, calls_of(&lists, 0)?)
}
