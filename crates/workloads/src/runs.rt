//! Drawn runs of scripts whose threads are in each other's way. The whole text of each run goes through the devices of
//! `run_script`, and its journal through those of `check_journal`.

use crate::digest::Digest;
use crate::drawing::{Drawing, add_number};
use anyhow::{Result, bail};
use fs_sched::{Device, Schedule, Silent, check_journal, run_script};
use std::alloc::Global;

/// The directories that the threads of a script share, each after the one above it.
const DIRS: [&[u8]; 7] = [
    b"/home",
    b"/home/user",
    b"/home/user/notes",
    b"/var",
    b"/var/log",
    b"/etc",
    b"/old",
];

/// The files that they share.
const FILES: [&[u8]; 4] = [
    b"/home/user/notes/today",
    b"/home/profile",
    b"/var/log/messages",
    b"/etc/hosts",
];

/// How many threads a script has where each has several calls, and how many of them at the least and at the most.
const THREADS: usize = 8;

const LEAST_CALLS: usize = 5;

const MOST_CALLS: usize = 50;

/// How many threads want one directory, each with one call.
const CROWD: usize = 240;

/// What a file gets, in hex digits.
const CONTENT: &[u8] = b"00112233445566778899aabbccddeeff";

fn one_of(drawing: &mut Drawing, paths: &[&'static [u8]]) -> &'static [u8] {
    paths
        .get(drawing.below(paths.len()))
        .copied()
        .unwrap_or(b"/")
}

fn push(text: &mut Vec<u8>, parts: &[&[u8]]) -> Result<()> {
    for part in parts {
        text.extend_from_slice(part)?;
    }
    Ok(())
}

fn push_number(text: &mut Vec<u8>, drawing: &mut Drawing, limit: usize) -> Result<()> {
    text.push(b' ')?;
    add_number(text, drawing.below(limit) as u64)
}

/// The line of a call on a file.
fn push_file_call(text: &mut Vec<u8>, drawing: &mut Drawing) -> Result<()> {
    let path = one_of(drawing, &FILES);
    match drawing.below(6) {
        0 => push(text, &[b"mknod ", path])?,
        1 => push(text, &[b"unlink ", path])?,
        2 => push(text, &[b"stat ", path])?,
        3 => {
            push(text, &[b"truncate ", path])?;
            push_number(text, drawing, 64)?;
        }
        4 => {
            push(text, &[b"read ", path])?;
            push_number(text, drawing, 16)?;
            push_number(text, drawing, 64)?;
        }
        _ => {
            push(text, &[b"write ", path])?;
            push_number(text, drawing, 64)?;
            let digits = drawing.below(16).saturating_add(1).saturating_mul(2);
            push(text, &[b" ", CONTENT.get(..digits).unwrap_or(b"-")])?;
        }
    }
    push(text, &[b"\n"])
}

/// The line of a call on one directory, or of a rename of one to where another one may be.
fn push_dir_call(text: &mut Vec<u8>, drawing: &mut Drawing) -> Result<()> {
    let path = one_of(drawing, &DIRS);
    match drawing.below(6) {
        0 => push(text, &[b"mkdir ", path])?,
        1 => push(text, &[b"rmdir ", path])?,
        2 => push(text, &[b"stat ", path])?,
        3 => push(text, &[b"readdir ", path])?,
        _ => push(text, &[b"rename ", path, b" ", one_of(drawing, &DIRS)])?,
    }
    push(text, &[b"\n"])
}

/// The block of a thread.
fn push_thread(text: &mut Vec<u8>, drawing: &mut Drawing, number: usize) -> Result<()> {
    push(text, &[b"thread t"])?;
    add_number(text, number as u64)?;
    push(text, &[b"\n"])?;
    if number == 0 {
        for path in DIRS {
            push(text, &[b"mkdir ", path, b"\n"])?;
        }
    }
    let most = drawing.below(MOST_CALLS - LEAST_CALLS + 1);
    for _ in 0..most.saturating_add(LEAST_CALLS) {
        if drawing.comes(50) {
            push_file_call(text, drawing)?;
        } else {
            push_dir_call(text, drawing)?;
        }
    }
    Ok(())
}

/// A name in the directory that the crowd wants.
fn push_entry(text: &mut Vec<u8>, word: &[u8], number: usize) -> Result<()> {
    push(text, &[word, b" /hot/entry"])?;
    add_number(text, number as u64)
}

/// The block of a thread with one call, which is mostly on the directory that all want.
fn push_one(text: &mut Vec<u8>, drawing: &mut Drawing, number: usize) -> Result<()> {
    push(text, &[b"thread t"])?;
    add_number(text, number as u64)?;
    push(text, &[b"\n"])?;
    match drawing.below(6) {
        0 => push_entry(text, b"mkdir", number)?,
        1 => push_entry(text, b"mknod", number)?,
        2 => push_entry(text, b"stat", drawing.below(CROWD))?,
        3 => {
            push_entry(text, b"rename", drawing.below(CROWD))?;
            push_entry(text, b"", number)?;
        }
        4 => push(text, &[b"readdir /hot"])?,
        _ => push(text, &[b"stat /hot"])?,
    }
    push(text, &[b"\n"])
}

/// Adds the text of the run by a schedule, and the verdict on its journal.
fn add_run(alloc: Global, script: &[u8], schedule: Schedule, digest: &mut Digest) -> Result<()> {
    let mut text = Device::new(Vec::new(alloc));
    if run_script(
        alloc,
        &mut Device::new(script),
        &mut text,
        schedule,
        &mut Silent,
    )
    .is_err()
    {
        bail!("a script that was drawn did not run");
    }
    let mut verdict = Device::new(Vec::new(alloc));
    match check_journal(alloc, &mut Device::new(text.inner.as_slice()), &mut verdict) {
        Ok(checked) if checked.lawful => {}
        _ => bail!("the journal of a run was not lawful"),
    }
    digest.add_bytes(&text.inner);
    digest.add_bytes(&verdict.inner);
    Ok(())
}

/// Its runs by the script's own schedule and by rounds, and so many drawn ones.
fn played(alloc: Global, script: &[u8], drawing: &mut Drawing, runs: usize) -> Result<u64> {
    let mut digest = Digest::new();
    add_run(alloc, script, Schedule::Given, &mut digest)?;
    add_run(alloc, script, Schedule::RoundRobin, &mut digest)?;
    for _ in 0..runs {
        let seed = drawing.below(1_000_000) as u64;
        add_run(alloc, script, Schedule::Seeded(seed), &mut digest)?;
    }
    Ok(digest.value())
}

/// Runs of a script of some threads, each with several calls of all kinds on paths that they share.
pub fn campaign(alloc: Global, drawing: &mut Drawing, runs: usize) -> Result<u64> {
    let mut script = Vec::from_slice(alloc, b"atomfs 1\n")?;
    for number in 0..THREADS {
        push_thread(&mut script, drawing, number)?;
    }
    push(&mut script, &[b"schedule\nfinish\n"])?;
    played(alloc, &script, drawing, runs)
}

/// Runs of a script of many threads, which all want the root or one directory below it.
pub fn crowd(alloc: Global, drawing: &mut Drawing, runs: usize) -> Result<u64> {
    let mut script = Vec::from_slice(alloc, b"atomfs 1\nthread first\nmkdir /hot\n")?;
    for number in 0..CROWD {
        push_one(&mut script, drawing, number)?;
    }
    push(&mut script, &[b"schedule\nfinish\n"])?;
    played(alloc, &script, drawing, runs)
}
