//! Makes drawn calls on the store with sibling links and on the one without an index, and runs what `check_nodes` checks of one store. No
//! program and no library for C shows a second store, the number of entries that a look-up looked at, or who holds what.
//!
//! A drawn call is made if its conditions hold, also on directories with entries. If they do not, another one is drawn in its place. The
//! output has how many calls of each kind were made, and how many answers differed: none. Then calls are drawn on full directories, some
//! with names that the index keeps apart badly. The output has how many places look-ups look at.
//!
//! After that entries change what they name, those of a small tree and drawn ones, beside calls of a stream of their own. A file in blocks
//! of each store has the bytes of a vector. Last, calls finish in a store of files in blocks as in one without.
#![tactic(auto)]

mod crowded;
mod drawing;
mod files;
pub mod finishes;
mod swaps;
mod tally;
mod twins;

use anyhow::{Result, bail};
use check_nodes::calls::LIMIT;
use check_nodes::large;
use drawing::{below, name};
use fs_names::{Kind, Name};
use rand_core::{Rng, SeedableRng};
use rand_pcg::Pcg32;
use std::alloc::Global;
use tally::Tally;
use twins::{Twin, Twins};

/// How many calls are made.
const CALLS: u32 = 10_000;

/// More draws than it takes to make so many.
const DRAWS: u32 = 100_000;

/// A directory or a file.
fn kind(random: &mut Pcg32) -> Kind {
    if below(random, 2) == 0 {
        Kind::Dir
    } else {
        Kind::File
    }
}

/// A position among the nodes.
fn position(random: &mut Pcg32, twins: &Twins) -> usize {
    let word = random.next_u32() as usize;
    word.checked_rem(twins.len()).unwrap_or(0)
}

/// One of the nodes.
fn node(random: &mut Pcg32, twins: &Twins) -> Twin {
    let position = position(random, twins);
    twins.node(position)
}

/// The root half the time, so that it has many entries, and else one of the nodes.
fn directory(random: &mut Pcg32, twins: &Twins) -> Twin {
    if below(random, 2) == 0 {
        twins.node(0)
    } else {
        node(random, twins)
    }
}

/// A call that changes nothing.
fn look(random: &mut Pcg32, name: &Name, twins: &mut Twins, tally: &mut Tally) -> Result<()> {
    let dir = directory(random, twins);
    let node = node(random, twins);
    match below(random, 4) {
        0 => tally.find.count(Some(twins.find(&dir, name))),
        1 => tally.find.count(Some(twins.find_above(&dir, name)?)),
        2 => tally.look.count(Some(twins.look(&node))),
        _ => tally.read.count(Some(twins.read(&dir))),
    }
    Ok(())
}

/// A call that changes the entries. What goes or moves has the name of an entry, if there is one.
fn change(
    random: &mut Pcg32,
    (name, new_name): (&Name, &Name),
    twins: &mut Twins,
    tally: &mut Tally,
) -> Result<()> {
    let (dir, to) = (directory(random, twins), directory(random, twins));
    let node = node(random, twins);
    match below(random, 6) {
        0 => tally.unlink.count(twins.unlink_above(&dir, name)?),
        1..4 => tally
            .move_entry
            .count(twins.move_above(&dir, name, &to, new_name)?),
        _ => tally.link.count(twins.link(&dir, name, &node)?),
    }
    Ok(())
}

/// A drawn call.
fn call(
    alloc: Global,
    random: &mut Pcg32,
    (name, new_name): (&Name, &Name),
    twins: &mut Twins,
    tally: &mut Tally,
) -> Result<()> {
    match below(random, 16) {
        0 => tally.reserve.count(Some(twins.reserve(kind(random))?)),
        1..4 => {
            let position = position(random, twins);
            tally.release.count(twins.release(position));
        }
        4 => {
            let file = node(random, twins);
            let swapped = twins.swap_content(alloc, &file, name.bytes())?;
            tally.swap_content.count(swapped);
        }
        5..13 => change(random, (name, new_name), twins, tally)?,
        _ => look(random, name, twins, tally)?,
    }
    Ok(())
}

/// A call with drawn names.
fn draw(alloc: Global, random: &mut Pcg32, twins: &mut Twins, tally: &mut Tally) -> Result<()> {
    if let (Some(name), Some(new_name)) = (name(alloc, random)?, name(alloc, random)?) {
        call(alloc, random, (&name, &new_name), twins, tally)?;
    }
    Ok(())
}

/// Drawn calls, until enough of them were made.
fn draw_all(alloc: Global, twins: &mut Twins, tally: &mut Tally) -> Result<()> {
    let mut random = Pcg32::seed_from_u64(1);
    for _ in 0..DRAWS {
        if tally.made() == CALLS {
            return Ok(());
        }
        draw(alloc, &mut random, twins, tally)?;
    }
    bail!("too few of the calls could be made")
}

/// Drawn calls, of which it writes what was counted.
fn count(rt: &impl Print, alloc: Global, twins: &mut Twins) -> Result<()> {
    let mut tally = Tally::default();
    draw_all(alloc, twins, &mut tally)?;
    Ok(tally.write(rt, twins.others)?)
}

fn run_drawn(rt: &impl Print, alloc: Global) -> Result<()> {
    let mut twins = Twins::new(alloc, LIMIT)?;
    count(rt, alloc, &mut twins)
}

/// Does all of this, and writes what was counted.
pub fn run(rt: &impl Print, alloc: Global) -> Result<()> {
    check_nodes::run(rt, alloc)?;
    run_drawn(rt, alloc)?;
    crowded::run(rt, alloc)?;
    large::run(rt, alloc)?;
    swaps::run(rt, alloc)?;
    files::run(rt, alloc)?;
    finishes::run(rt, alloc)
}
