//! Counts what calls cost as a tree grows: the events of the calls that make it, and the entries that are looked at on the
//! way to its files. Counts are the same on every machine, so a search through the whole tree could not come back unseen.

use anyhow::Result;
use fs_calls::Call;
use fs_core::{Core, Stepped};
use fs_names::{Path, SeatNo};
use fs_nodes::{NodeNo, Store};
use std::alloc::Global;

/// Among how many files each name of a path decides, from the first name on: each directory has eight entries at most.
const WEIGHTS: [usize; 5] = [4096, 512, 64, 8, 1];

/// More events than any call here has.
const MOST_EVENTS: usize = 100;

/// The path of a file, up to so many names.
fn path(alloc: Global, file: usize, names: usize) -> Result<Path> {
    let mut text = Vec::new(alloc);
    for weight in WEIGHTS.iter().take(names) {
        let digit = file.checked_div(*weight).unwrap_or(0) % 8;
        text.push(b'/')?;
        text.push(b'a' + digit as u8)?;
    }
    Ok(Path::parse(alloc, &text)?)
}

/// Whether a step is the return of a call.
fn is_return(stepped: Stepped) -> bool {
    matches!(stepped, Stepped::Returned(_))
}

/// How many events a call has from its begin to its return.
pub fn events(alloc: Global, core: &mut Core, call: &Call) -> usize {
    let seat = SeatNo::new(0);
    if core.seats() == 0 || core.begin(alloc, seat, call).is_err() {
        return 0;
    }
    for before in 0..MOST_EVENTS {
        if core.seats() > 0 && is_return(core.step(seat)) {
            return before + 1;
        }
    }
    0
}

/// The same of a call that is made for this.
fn made(alloc: Global, core: &mut Core, call: Call) -> usize {
    events(alloc, core, &call)
}

/// Makes the directories of a file, where they are not there yet, and the file, and answers how many events that took.
fn make(alloc: Global, core: &mut Core, file: usize) -> Result<usize> {
    let mut all = 0usize;
    for names in 1..WEIGHTS.len() {
        all = all.saturating_add(made(alloc, core, Call::Mkdir(path(alloc, file, names)?)));
    }
    let last = Call::Mknod(path(alloc, file, WEIGHTS.len())?);
    Ok(all.saturating_add(made(alloc, core, last)))
}

/// At how many entries is looked on the way to a file.
fn looks(store: &Store, path: &Path) -> usize {
    let (mut node, mut all) = (NodeNo::new(0), 0usize);
    for i in 0..path.len() {
        let (next, steps) = store.find_steps(node, path.name(i));
        all = all.saturating_add(steps);
        match next {
            Some(next) => node = next,
            None => return all,
        }
    }
    all
}

/// The events that so many files take.
fn all_events(alloc: Global, core: &mut Core, files: usize) -> Result<usize> {
    let mut all = 0usize;
    for file in 0..files {
        all = all.saturating_add(make(alloc, core, file)?);
    }
    Ok(all)
}

/// The looks on the ways to so many files.
fn all_looks(alloc: Global, store: &Store, files: usize) -> Result<usize> {
    let mut all = 0usize;
    for file in 0..files {
        let path = path(alloc, file, WEIGHTS.len())?;
        all = all.saturating_add(looks(store, &path));
    }
    Ok(all)
}

/// The events and the looks of so many files on a core without a seat.
fn count_on(alloc: Global, core: &mut Core, files: usize) -> Result<(usize, usize)> {
    core.seat()?;
    let events = all_events(alloc, core, files)?;
    Ok((events, all_looks(alloc, core.store(), files)?))
}

/// The events and the looks of a tree with so many files.
fn count(alloc: Global, files: usize) -> Result<(usize, usize)> {
    let mut core = Core::new(alloc)?;
    count_on(alloc, &mut core, files)
}

/// Counts for trees of growing size.
pub fn run(rt: &impl Print, alloc: Global) -> Result<()> {
    for files in [8, 64, 512, 4096] {
        let (events, looks) = count(alloc, files)?;
        println!(rt; "{files} files: {events} events, {looks} entries looked at")?;
    }
    Ok(())
}
