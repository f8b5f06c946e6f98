//! Four observers during drawn calls: each answer is compared with the sequential tree after as many calls as were shown.

use crate::waiting::reaches;
use fs_calls::{Call, Data, Reply};
use fs_names::{Limits, Path};
use fs_seq::SeqTree;
use fs_share::{AtomFs, Named, Observer, Open, Session};
use rand_core::{Rng, SeedableRng};
use rand_pcg::Pcg32;
use std::alloc::Global;
use std::sync::Wait;
use std::sync::atomic::{AtomicU64, Ordering};
use std::thread;
use std::thread::Threads;
use std::time::{Clock, Duration};

const CALLS: usize = 20_000;

const OBSERVERS: usize = 4;

fn letter(random: &mut Pcg32) -> u8 {
    (random.next_u32() % 4) as u8 + b'a'
}

/// Adds a name to the text of a path: a letter, or a hundred times the last one of four, which copies of the name share.
fn add_name(text: &mut Vec<u8>, letter: u8) -> Option<()> {
    let count = if letter == b'd' { 100 } else { 1 };
    text.push(b'/').ok()?;
    text.resize(text.len() + count, letter).ok()
}

/// A path of one or two of four names.
fn drawn_path(alloc: Global, random: &mut Pcg32) -> Option<Path> {
    let letters = [letter(random), letter(random)];
    let count = if random.next_u32() % 2 == 0 { 1 } else { 2 };
    let mut text = Vec::new(alloc);
    for letter in &letters[..count] {
        add_name(&mut text, *letter)?;
    }
    Path::parse_with(alloc, &text, Limits::V3).ok()
}

fn write_call(alloc: Global, path: Path) -> Option<Call> {
    let bytes = Data::from_slice(alloc, b"hi").ok()?;
    Some(Call::Write(path, 0, bytes))
}

fn drawn_call(alloc: Global, random: &mut Pcg32) -> Option<Call> {
    let path = drawn_path(alloc, random)?;
    match random.next_u32() % 9 {
        0..3 => Some(Call::Mkdir(path)),
        3 => Some(Call::Mknod(path)),
        4 => Some(Call::Rename(path, drawn_path(alloc, random)?)),
        5 => write_call(alloc, path),
        6 => Some(Call::Unlink(path)),
        7 => Some(Call::Exchange(path, drawn_path(alloc, random)?)),
        _ => Some(Call::Rmdir(path)),
    }
}

fn drawn_calls(alloc: Global) -> Option<Vec<Call>> {
    let mut random = Pcg32::seed_from_u64(20_000);
    let mut calls = Vec::new(alloc);
    for _ in 0..CALLS {
        calls.push(drawn_call(alloc, &mut random)?).ok()?;
    }
    Some(calls)
}

/// The calls of the writer, how many answers were noted, and whether the writer is over.
#[derive(Drop)]
struct Run {
    calls: Vec<Call>,
    notes: AtomicU64,
    over: AtomicU64,
}

/// Whether a published call has this place and a stamp.
fn is_told<N: Named, R: Wait + Clock>(
    rt: &R,
    alloc: Global,
    session: &mut Session<'_, N>,
    call: &Call,
    place: usize,
) -> Option<bool> {
    match session.call_told(rt, alloc, call, &Open) {
        Ok(told) => Some(told.place == place && told.stamp.is_some()),
        Err(_) => None,
    }
}

/// The call at a place. One in ten is published, which must have that place and a stamp. After one in a thousand the
/// writer waits until as many answers are noted as there are observers.
fn write<N: Named, R: Wait + Clock>(
    rt: &R,
    alloc: Global,
    session: &mut Session<'_, N>,
    run: &Run,
    place: usize,
) -> Option<bool> {
    let call = run.calls.get(place)?;
    if place % 10 != 9 {
        return Some(session.call(rt, alloc, call, &Open).is_ok());
    }
    let notes = run.notes.load(Ordering::SeqCst);
    let noted = notes.wrapping_add(OBSERVERS as u64);
    let is_told = is_told(rt, alloc, session, call, place)?;
    Some(is_told && (place % 1000 != 999 || reaches(rt, &run.notes, noted)))
}

/// Makes all calls.
fn write_all<N: Named, R: Wait + Clock>(
    rt: &R,
    alloc: Global,
    session: &mut Session<'_, N>,
    run: &Run,
) -> Option<bool> {
    for place in 0..CALLS {
        if !write(rt, alloc, session, run, place)? {
            return Some(false);
        }
    }
    Some(true)
}

/// The same by a session of its own.
fn writes<N: Named, R: Wait + Clock>(
    rt: &R,
    alloc: Global,
    fs: &AtomFs<N>,
    run: &Run,
) -> Option<bool> {
    match fs.session(rt) {
        Ok(mut session) => write_all(rt, alloc, &mut session, run),
        Err(_) => None,
    }
}

/// A look, and what an observer replied by the list of the first `count` calls.
#[derive(Drop)]
struct Note {
    count: u64,
    look: Call,
    reply: Reply,
}

/// What an observer replies to a look.
fn reply<N: Named>(alloc: Global, observer: &mut Observer<'_, N>, look: &Call) -> Option<Reply> {
    match look {
        Call::Stat(path) => observer.stat(alloc, path).ok(),
        Call::Readdir(path) => observer.readdir(alloc, path).ok(),
        Call::ListAfter(count, path, after) => observer.list(alloc, path, after, *count).ok(),
        Call::Read(path, off, count) => observer.read(alloc, path, *off, *count).ok(),
        _ => None,
    }
}

/// One of the four looks at a path; names are listed after the last one of another path, two at the most.
fn look(path: Path, after: Path, number: usize) -> Call {
    match number {
        0 => Call::Stat(path),
        1 => Call::Readdir(path),
        2 => Call::ListAfter(2, path, after),
        _ => Call::Read(path, 0, 9),
    }
}

fn note_of<N: Named>(
    alloc: Global,
    observer: &mut Observer<'_, N>,
    count: u64,
    look: Call,
) -> Option<Note> {
    match reply(alloc, observer, &look) {
        Some(reply) => Some(Note { count, look, reply }),
        None => None,
    }
}

/// Notes the reply to each look at a path.
fn ask<N: Named>(
    alloc: Global,
    observer: &mut Observer<'_, N>,
    path: &Path,
    after: &Path,
    notes: &mut Vec<Note>,
) -> Option<()> {
    let count = observer.count();
    for number in 0..4 {
        let look = look(path.copy().ok()?, after.copy().ok()?, number);
        notes.push(note_of(alloc, observer, count, look)?).ok()?;
    }
    Some(())
}

/// The length of the last list that was noted.
fn last_count(notes: &[Note]) -> Option<u64> {
    Some(notes.last()?.count)
}

/// Notes replies by one list, unless it is that of the last notes, or another one was published meanwhile. Whether it does.
fn takes_notes<N: Named>(
    alloc: Global,
    observer: &mut Observer<'_, N>,
    random: &mut Pcg32,
    notes: &mut Vec<Note>,
) -> Option<bool> {
    if last_count(notes) == Some(observer.count()) {
        return Some(false);
    }
    let kept = notes.len();
    let path = drawn_path(alloc, random)?;
    ask(alloc, observer, &path, &drawn_path(alloc, random)?, notes)?;
    let is_one_list = last_count(notes) == Some(observer.count());
    if !is_one_list {
        notes.truncate(kept);
    }
    Some(is_one_list)
}

/// Notes replies by each list that it meets, until the writer is over.
fn watches<N: Named, R: Wait + Clock>(
    rt: &R,
    alloc: Global,
    observer: &mut Observer<'_, N>,
    run: &Run,
    seed: u64,
    notes: &mut Vec<Note>,
) -> Option<()> {
    let mut random = Pcg32::seed_from_u64(seed);
    for _ in 0..u64::MAX {
        let is_over = run.over.load(Ordering::SeqCst) == 1;
        if takes_notes(alloc, observer, &mut random, notes)? {
            run.notes.fetch_add(1, Ordering::SeqCst);
        }
        if is_over {
            break;
        }
        thread::sleep(rt, Duration::from_micros(20));
    }
    Some(())
}

/// The same by an observer of its own.
fn observes<N: Named, R: Wait + Clock>(
    rt: &R,
    alloc: Global,
    fs: &AtomFs<N>,
    run: &Run,
    seed: u64,
    notes: &mut Vec<Note>,
) -> Option<()> {
    match fs.observer(rt) {
        Ok(mut observer) => watches(rt, alloc, &mut observer, run, seed, notes),
        Err(_) => None,
    }
}

/// Whether the tree replies what was noted.
fn agrees(alloc: Global, tree: &mut SeqTree, note: &Note) -> Option<bool> {
    match tree.apply(alloc, &note.look) {
        Ok(reply) => Some(reply.same(&note.reply)),
        Err(_) => None,
    }
}

fn play(alloc: Global, tree: &mut SeqTree, calls: &[Call]) -> Option<()> {
    for call in calls {
        tree.apply(alloc, call).ok()?;
    }
    Some(())
}

/// Whether each reply is that of its list, no list is shorter than the one before, and the last has all calls.
fn fit(alloc: Global, tree: &mut SeqTree, calls: &[Call], notes: &[Note]) -> Option<bool> {
    let mut played = 0;
    for note in notes {
        let count = note.count as usize;
        play(alloc, tree, calls.get(played..count)?)?;
        played = count;
        if !agrees(alloc, tree, note)? {
            return Some(false);
        }
    }
    Some(played == CALLS)
}

/// The same on a tree of the root alone.
fn are_those_of(alloc: Global, calls: &[Call], notes: &[Note]) -> Option<bool> {
    match SeqTree::with_limits(alloc, Limits::V3) {
        Ok(mut tree) => fit(alloc, &mut tree, calls, notes),
        Err(_) => None,
    }
}

/// The writer's part, which has number 0, or an observer's.
fn part<N: Named, R: Wait + Clock>(
    rt: &R,
    alloc: Global,
    fs: &AtomFs<N>,
    run: &Run,
    number: usize,
) -> Option<bool> {
    if number == 0 {
        let written = writes(rt, alloc, fs, run);
        run.over.store(1, Ordering::SeqCst);
        return written;
    }
    let mut notes = Vec::new(alloc);
    observes(rt, alloc, fs, run, number as u64, &mut notes)?;
    are_those_of(alloc, &run.calls, &notes)
}

/// A writer and four observers, each on a thread of its own.
pub fn are_right<N: Named + Send + Sync, R: Threads + Wait + Clock + Sync>(
    rt: &R,
    alloc: Global,
    fs: &AtomFs<N>,
) -> Option<bool> {
    let run = Run {
        calls: drawn_calls(alloc)?,
        notes: AtomicU64::new(0),
        over: AtomicU64::new(0),
    };
    let parts = thread::map_indices(
        rt,
        alloc,
        1 + OBSERVERS,
        &|number| part(rt, alloc, fs, &run, number),
    );
    Some(parts.ok()?.iter().all(|part| *part == Some(true)))
}
