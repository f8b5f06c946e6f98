//! Does each thing that takes memory, and does it once more after memory was refused. On shared trees these are sessions, published calls,
//! observers, jobs, checkpoints and lists of calls. On one thread they are the sequential tree, a file in blocks, a core, its texts and
//! `Memory`.
//!
//! Neither the program nor the library for C has sessions, observers and pools. Both have a sequential tree only inside a check, which
//! ends if memory is refused. Apart from the last line, the output is the same whichever growth is refused.
#![tactic(auto)]

mod alone;
mod blocks;
mod counted;
mod lists;
mod shared;
mod texts;

use fs_calls::Call;
use fs_nodes::NodeNo;
use fs_script::{FaultKind, Script, ScriptFault, read_script};
use fs_share::Closed;
use shared::{Seen, on_tree};
use std::alloc::Global;
use std::io;
use std::sync::Wait;
use std::thread::Threads;
use std::time::Clock;

/// The calls of a session, those that are published, and those of the sequential tree, which grow all that it holds:
/// nodes, entries, bytes and replies; looks at that tree; and those of a file in blocks, at their edges and the limit.
/// Names of 70 bytes are shared by what holds them.
const CALLS: &[u8] = b"\
atomfs 3
thread session
mkdir /a
mknod /a/f%20g
write /a/f%20g 0 68656c6c6f
read /a/f%20g 1 3
truncate /a/f%20g 4000
rename /a/f%20g /g
readdir /a
list /a / 9
stat /a
exchange /a /g
exchange /g /a
mkdir /a/mmmmmmmmmmmmmmmmmmmmmmmmmmmmmmmmmmmmmmmmmmmmmmmmmmmmmmmmmmmmmmmmmmmmmm
mknod /a/llllllllllllllllllllllllllllllllllllllllllllllllllllllllllllllllllllll
mknod /a/nnnnnnnnnnnnnnnnnnnnnnnnnnnnnnnnnnnnnnnnnnnnnnnnnnnnnnnnnnnnnnnnnnnnnn
rename /a/llllllllllllllllllllllllllllllllllllllllllllllllllllllllllllllllllllll /a/nnnnnnnnnnnnnnnnnnnnnnnnnnnnnnnnnnnnnnnnnnnnnnnnnnnnnnnnnnnnnnnnnnnnnn
exchange /a/nnnnnnnnnnnnnnnnnnnnnnnnnnnnnnnnnnnnnnnnnnnnnnnnnnnnnnnnnnnnnnnnnnnnnn /a/mmmmmmmmmmmmmmmmmmmmmmmmmmmmmmmmmmmmmmmmmmmmmmmmmmmmmmmmmmmmmmmmmmmmmm
readdir /a
list /a /llllllllllllllllllllllllllllllllllllllllllllllllllllllllllllllllllllll 9
rename /a/mmmmmmmmmmmmmmmmmmmmmmmmmmmmmmmmmmmmmmmmmmmmmmmmmmmmmmmmmmmmmmmmmmmmmm /llllllllllllllllllllllllllllllllllllllllllllllllllllllllllllllllllllll
unlink /llllllllllllllllllllllllllllllllllllllllllllllllllllllllllllllllllllll
rmdir /a/nnnnnnnnnnnnnnnnnnnnnnnnnnnnnnnnnnnnnnnnnnnnnnnnnnnnnnnnnnnnnnnnnnnnnn
unlink /g
mkdir /b
rmdir /b
thread told
mkdir /c
mkdir /d
thread alone
mkdir /d
mkdir /d
mkdir /d/e
mkdir /d/e/f
mkdir /d/e/f/g
stat /d/e/f/g
mknod /d/a
mknod /d/b
mknod /d/c
mknod /d/h
readdir /d
readdir /d/e/f
list /d / 9
list /d /b 1
write /d/a 3 68656c6c6f
write /d/a 3 68656c6c6f
truncate /d/a 200
read /d/a 2 4
exchange /d/a /d/e
exchange /d/e /d/a
exchange /d/e /d/x
rename /d/a /a
rename /a /d/e/a
rename /d/b /d/e/f/a
rename /d/c /d/e/f/a
mkdir /d/mmmmmmmmmmmmmmmmmmmmmmmmmmmmmmmmmmmmmmmmmmmmmmmmmmmmmmmmmmmmmmmmmmmmmm
mknod /d/llllllllllllllllllllllllllllllllllllllllllllllllllllllllllllllllllllll
rename /d/llllllllllllllllllllllllllllllllllllllllllllllllllllllllllllllllllllll /d/nnnnnnnnnnnnnnnnnnnnnnnnnnnnnnnnnnnnnnnnnnnnnnnnnnnnnnnnnnnnnnnnnnnnnn
mknod /d/llllllllllllllllllllllllllllllllllllllllllllllllllllllllllllllllllllll
rename /d/llllllllllllllllllllllllllllllllllllllllllllllllllllllllllllllllllllll /d/nnnnnnnnnnnnnnnnnnnnnnnnnnnnnnnnnnnnnnnnnnnnnnnnnnnnnnnnnnnnnnnnnnnnnn
exchange /d/nnnnnnnnnnnnnnnnnnnnnnnnnnnnnnnnnnnnnnnnnnnnnnnnnnnnnnnnnnnnnnnnnnnnnn /d/mmmmmmmmmmmmmmmmmmmmmmmmmmmmmmmmmmmmmmmmmmmmmmmmmmmmmmmmmmmmmmmmmmmmmm
readdir /d
list /d /llllllllllllllllllllllllllllllllllllllllllllllllllllllllllllllllllllll 9
rmdir /d/nnnnnnnnnnnnnnnnnnnnnnnnnnnnnnnnnnnnnnnnnnnnnnnnnnnnnnnnnnnnnnnnnnnnnn
unlink /d/mmmmmmmmmmmmmmmmmmmmmmmmmmmmmmmmmmmmmmmmmmmmmmmmmmmmmmmmmmmmmmmmmmmmmm
unlink /d/h
rmdir /d/e/f/g
mknod /d/i
stat /d/e/a
stat /d
rmdir /d
thread looks
stat /d
readdir /d
list /d /a 2
read /d/e/a 3 5
thread blocks
write /f 16382 68656c6c6f
write /f 40000 68656c6c6f
truncate /f 16384
truncate /f 49153
write /f 32766 68656c6c6f
truncate /f 16383
write /f 65531 68656c6c6f
write /f 65532 68656c6c6f
truncate /f 65535
truncate /f 65537
write /f 0 68656c6c6f
schedule
";

/// The script of these calls, read once more where memory was refused.
fn script(alloc: Global) -> Result<Script, ScriptFault> {
    match read_script(alloc, CALLS) {
        Err(fault) if fault.kind == FaultKind::OutOfMemory => read_script(alloc, CALLS),
        read => read,
    }
}

/// The calls of a thread.
fn calls(script: &Script, thread: usize) -> &[Call] {
    match script.lists.as_slice().get(thread) {
        Some(calls) => calls.as_slice(),
        None => &[],
    }
}

/// Says what was seen on a shared tree.
fn say_seen(rt: &impl Print, seen: &Seen) -> io::Result<()> {
    println!(rt; "answered {}", seen.answered)?;
    println!(rt; "shown {}", seen.shown)?;
    println!(rt;
        "jobs {} and {}, in all {}",
        seen.numbers.0, seen.numbers.1, seen.jobs
    )?;
    println!(rt; "/a behind a checkpoint: {}", seen.again)
}

/// Says what a shared tree has at its root, how many sessions it had, and how many calls return of lists that are played on
/// another one.
fn say_rest<R: Print + Threads + Wait + Clock + Sync>(
    rt: &R,
    alloc: Global,
    script: &Script,
    closed: &Closed,
) -> Option<()> {
    let entries = closed.store.entries(NodeNo::new(0));
    println!(rt; "the root has {entries} entries").ok()?;
    println!(rt; "sessions behind the checkpoint: {}", closed.sessions).ok()?;
    let returned = lists::returns(rt, alloc, script.lists.as_slice().get(..2)?)?;
    println!(rt; "the lists returned {returned}").ok()
}

/// Plays the calls of the first threads on shared trees. It answers how many jobs were refused.
fn play<R: Print + Threads + Wait + Clock + Sync>(
    rt: &R,
    alloc: Global,
    script: &Script,
) -> Option<usize> {
    let (seen, closed) = on_tree(rt, alloc, calls(script, 0), calls(script, 1))?;
    say_seen(rt, &seen).ok()?;
    say_rest(rt, alloc, script, &closed)?;
    Some(seen.refused)
}

/// Plays calls on a core whose timeline begins again then, and answers how often memory was refused, as all of these count.
fn count(rt: &impl Print, alloc: Global, calls: &[Call]) -> anyhow::Result<u64> {
    let (mut core, refused) = counted::play(alloc, calls)?;
    let again = counted::begin_again(alloc, &mut core)?;
    println!(rt; "a core and `Memory` count what is refused")?;
    Ok(refused.wrapping_add(again))
}

/// Says how long the texts of calls on a core are, and answers how often memory was refused.
fn say_texts(rt: &impl Print, alloc: Global, calls: &[Call]) -> anyhow::Result<u64> {
    let (core, refused) = counted::play(alloc, calls)?;
    let written = texts::write(alloc, &core)?;
    println!(rt;
        "entries of {} bytes, a tree of {}",
        written.entries, written.tree
    )?;
    Ok(refused.wrapping_add(written.refused))
}

/// Does everything, and writes what came of it.
pub fn run<R: Print + Threads + Wait + Clock + Sync>(rt: &R, alloc: Global) -> anyhow::Result<()> {
    let script = script(alloc)?;
    let jobs = play(rt, alloc, &script);
    if jobs.is_none() {
        println!(rt; "stopped")?;
    }
    let refused = alone::run(rt, alloc, calls(&script, 2), calls(&script, 3))?;
    let finished = blocks::run(rt, alloc, calls(&script, 4))?;
    let asked = counted::ask(alloc)?;
    let begun = count(rt, alloc, calls(&script, 2))?;
    let written = say_texts(rt, alloc, calls(&script, 0))?;
    let refused = asked.wrapping_add(begun).wrapping_add(refused as u64);
    let refused = refused.wrapping_add(finished).wrapping_add(written);
    Ok(println!(rt; "refused: {refused}, jobs {}", jobs.unwrap_or(0))?)
}
