//! Writes whose calls are kept beside the core that plays them, as a script's are: how much memory these take together is looked at
//! from outside.

use crate::growth::events;
use anyhow::Result;
use fs_calls::{Call, Data};
use fs_core::Core;
use fs_names::Path;
use std::alloc::Global;

/// How many bytes a call writes.
const PIECE: usize = 4_000;

/// How many such pieces the file has.
const PIECES: u32 = 16;

fn file(alloc: Global) -> Result<Path> {
    Ok(Path::parse(alloc, b"/f")?)
}

/// A call that writes a piece.
fn write(alloc: Global, number: u32) -> Result<Call> {
    let byte = (number % 256) as u8;
    let bytes = Data::new(vec![in alloc; byte; PIECE]?)?;
    let offset = u64::from(number % PIECES) * PIECE as u64;
    Ok(Call::Write(file(alloc)?, offset, bytes))
}

/// The call that makes the file, and so many that write.
fn calls(alloc: Global, writes: u32) -> Result<Vec<Call>> {
    let mut calls = Vec::new(alloc);
    calls.push(Call::Mknod(file(alloc)?))?;
    for number in 0..writes {
        calls.push(write(alloc, number)?)?;
    }
    Ok(calls)
}

/// How many events the calls have on a core without a seat.
fn play(alloc: Global, core: &mut Core, calls: &[Call]) -> Result<usize> {
    core.seat()?;
    let mut all = 0usize;
    for call in calls {
        all = all.saturating_add(events(alloc, core, call));
    }
    Ok(all)
}

/// Makes so many writes and plays them.
pub fn run(rt: &impl Print, alloc: Global, writes: u32) -> Result<()> {
    let calls = calls(alloc, writes)?;
    let mut core = Core::new(alloc)?;
    let events = play(alloc, &mut core, &calls)?;
    let entries = core.timeline().len();
    println!(rt; "{writes} writes: {events} events, {entries} entries")?;
    Ok(())
}
