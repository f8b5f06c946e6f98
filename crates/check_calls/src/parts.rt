//! Parts of the runners that a caller can use alone, the fault that no run ends with, and the places of a timeline.

use anyhow::{Result, bail, ensure};
use fs_sched::{
    Device, Divisor, Draws, EntryKind, RunFault, Schedule, Silent, number_of, run_script,
};
use fs_script::Word;
use fs_text::read_entries;
use fs_timeline::Timeline;
use std::alloc::Global;

/// The seats of the first draws from 7 among three threads.
const SEATS: [usize; 16] = [2, 2, 1, 0, 0, 0, 2, 1, 2, 0, 0, 1, 2, 1, 1, 0];

fn draws() -> bool {
    let mut draws = Draws::new(7);
    let threads = Divisor::new(3);
    for seat in SEATS {
        if draws.seat(&threads) != seat {
            return false;
        }
    }
    true
}

fn goes_on() -> bool {
    let words = [Word::Events(0, 3), Word::Finish];
    Schedule::Given.goes_on(&words)
        && !Schedule::Given.goes_on(&words[..1])
        && Schedule::RoundRobin.goes_on(&[])
        && Schedule::Seeded(7).goes_on(&[])
}

/// The words and the status of a run for which there is no node number left.
fn tells_full(alloc: Global) -> Result<bool> {
    let words = format!(in alloc; "{}", RunFault::Full)?;
    Ok(words.as_str() == "full" && RunFault::Full.status() == 4)
}

/// How many entries of each kind a journal has that no run wrote.
fn counts_entries(alloc: Global) -> Result<bool> {
    let journal = b"atomfs-journal 1\nbegin 1 0 mkdir /a\nbegin 2 1 mkdir /b\ncommit 1\n";
    let Ok(entries) = read_entries(alloc, journal.as_slice()) else {
        bail!("entries");
    };
    Ok(
        number_of(EntryKind::Begin, &entries) == 2
            && number_of(EntryKind::Commit, &entries) == 1
            && number_of(EntryKind::Return, &entries) == 0,
    )
}

/// How the run of a script with one call left, one pending and one that returned ends.
fn counts_calls(alloc: Global) -> bool {
    let input: &[u8] = b"atomfs 1\nthread t\nmkdir /a\nmkdir /b\nmkdir /c\nschedule\nt*9\n";
    let mut writer = Device::new(Vec::new(alloc));
    match run_script(
        alloc,
        &mut Device::new(input),
        &mut writer,
        Schedule::Given,
        &mut Silent,
    ) {
        Ok(end) => (end.begun, end.committed, end.returned, end.calls) == (2, 2, 1, 3),
        Err(_) => false,
    }
}

/// Whether a timeline with one place is refused as many more as there are numbers.
fn refuses_most_places(alloc: Global) -> Result<bool> {
    let mut timeline = Timeline::new(alloc);
    timeline.make_places(1)?;
    Ok(timeline.make_places(usize::MAX).is_err())
}

/// All of these.
pub fn compare(alloc: Global) -> Result<()> {
    ensure!(draws(), "the seats that are drawn from 7");
    ensure!(goes_on(), "whether rounds to the end follow");
    ensure!(tells_full(alloc)?, "the words of a fault");
    ensure!(counts_entries(alloc)?, "how many entries of a kind");
    ensure!(counts_calls(alloc), "the counts of calls");
    ensure!(refuses_most_places(alloc)?, "the places of a timeline");
    Ok(())
}
