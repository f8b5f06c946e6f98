//! The jobs that users of AtomFS wait for, drawn from a number: `workloads JOB SEED` does one, and prints a digest of all its answers.
//! `bench/workloads.txt` lists them, and `bench/run` times them. Without a word it does each in small. Those of one thread on a tree in
//! memory are in `bench/trees.c`.
//!
//! A job is done in rounds, each on a tree of its own and with calls that no other round has. `Drawing` draws numbers, names and bytes for
//! it, and a `Digest` is a number for all its answers.
#![tactic(auto)]

mod digest;
mod drawing;
mod runs;
mod texts;
mod threads;
mod told;

use anyhow::{Result, bail};
use digest::Digest;
use drawing::Drawing;
use fs_sched::Schedule;
use std::alloc::Global;
use std::env;
use std::sync::Wait;
use std::thread::Threads;
use std::time::Clock;
use texts::Names;
use threads::Dirs;

/// The jobs, and how many rounds each has.
const JOBS: [(&str, usize); 3] = [("texts", 10), ("threads", 10), ("runs", 6)];

/// How much a round does: what it does in full is divided by this number.
#[derive(Clone, Copy)]
struct Size(usize);

impl Size {
    fn of(self, count: usize) -> usize {
        count.checked_div(self.0).unwrap_or(0)
    }
}

/// Scripts of one thread and of several.
fn do_texts(alloc: Global, drawing: &mut Drawing, size: Size) -> Result<u64> {
    let mut digest = Digest::new();
    let seed = drawing.below(1_000_000) as u64;
    digest.add(texts::one_thread(alloc, drawing, Names::Few, size.of(20_000))?);
    digest.add(texts::one_thread(alloc, drawing, Names::New, size.of(20_000))?);
    digest.add(texts::moves(alloc, drawing, size.of(5000))?);
    digest.add(texts::threads(alloc, drawing, 4, size.of(2000), Schedule::RoundRobin)?);
    digest.add(texts::threads(alloc, drawing, 4, size.of(2000), Schedule::Seeded(seed))?);
    Ok(digest.value())
}

/// Two and four threads, in directories of their own and in one, and published calls.
fn do_threads<R: Threads + Wait + Clock + Sync>(
    rt: &R,
    alloc: Global,
    drawing: &mut Drawing,
    size: Size,
) -> Result<u64> {
    let mut digest = Digest::new();
    digest.add(threads::run(rt, alloc, drawing, Dirs::Own, (2, size.of(6000)))?);
    digest.add(threads::run(rt, alloc, drawing, Dirs::Own, (4, size.of(3000)))?);
    digest.add(threads::run(rt, alloc, drawing, Dirs::One, (4, size.of(3000)))?);
    digest.add(told::run(rt, alloc, drawing, size.of(3000))?);
    Ok(digest.value())
}

/// Drawn runs of a script of few threads, and of one of many.
fn do_runs(alloc: Global, drawing: &mut Drawing, size: Size) -> Result<u64> {
    let mut digest = Digest::new();
    digest.add(runs::campaign(alloc, drawing, size.of(200))?);
    digest.add(runs::crowd(alloc, drawing, size.of(50))?);
    Ok(digest.value())
}

/// One round of a job.
fn round<R: Threads + Wait + Clock + Sync>(
    rt: &R,
    alloc: Global,
    job: &str,
    drawing: &mut Drawing,
    size: Size,
) -> Result<u64> {
    match job {
        "texts" => do_texts(alloc, drawing, size),
        "threads" => do_threads(rt, alloc, drawing, size),
        "runs" => do_runs(alloc, drawing, size),
        _ => bail!("{job}: no job"),
    }
}

/// So many rounds of a job.
fn rounds<R: Threads + Wait + Clock + Sync>(
    rt: &R,
    alloc: Global,
    job: &str,
    seed: u64,
    (count, size): (usize, Size),
) -> Result<u64> {
    let mut drawing = Drawing::new(alloc, seed)?;
    let mut digest = Digest::new();
    for _ in 0..count {
        digest.add(round(rt, alloc, job, &mut drawing, size)?);
    }
    Ok(digest.value())
}

/// How many rounds a job has.
fn count_of(job: &str) -> usize {
    for (name, count) in JOBS {
        if name == job {
            return count;
        }
    }
    1
}

/// A job in full.
fn full<R: Print + Threads + Wait + Clock + Sync>(
    rt: &R,
    alloc: Global,
    job: &str,
    seed: u64,
) -> Result<()> {
    let value = rounds(rt, alloc, job, seed, (count_of(job), Size(1)))?;
    println!(rt; "{job} {seed}: {value}")?;
    Ok(())
}

/// Each job in small.
fn small<R: Print + Threads + Wait + Clock + Sync>(rt: &R, alloc: Global) -> Result<()> {
    for (job, _) in JOBS {
        let value = rounds(rt, alloc, job, 1, (2, Size(50)))?;
        println!(rt; "{job}: {value}")?;
    }
    Ok(())
}

/// The words after the name of the program.
fn words(rt: &HostRuntime) -> Result<Vec<String>> {
    let mut words = Vec::new(rt.alloc());
    for word in env::args(rt)?.skip(1) {
        words.push(word)?;
    }
    Ok(words)
}

fn main(rt: HostRuntime) -> Result<()> {
    let words = words(&rt)?;
    match words.as_slice() {
        [] => small(&rt, rt.alloc()),
        [job, seed] => full(&rt, rt.alloc(), job.as_str(), seed.as_str().parse()?),
        _ => bail!("no word, or a job and a number"),
    }
}
