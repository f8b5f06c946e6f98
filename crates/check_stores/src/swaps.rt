//! Entries that change what they name, in both stores: those of a small tree, and drawn ones.

use crate::drawing::name;
use crate::tally::Tally;
use crate::twins::{Twin, Twins};
use crate::{DRAWS, directory, draw};
use anyhow::{Result, bail, ensure};
use check_nodes::calls::LIMIT;
use fs_names::{Kind, Name};
use rand_core::SeedableRng;
use rand_pcg::Pcg32;
use std::alloc::Global;

/// How many drawn swaps are made.
const SWAPS: u32 = 2_000;

/// An entry, by the position of its directory, its name, and the position of what it names.
#[derive(Clone, Copy)]
struct Named<'a> {
    dir: usize,
    name: &'a Name,
    node: usize,
}

fn entry(dir: usize, name: &Name, node: usize) -> Named<'_> {
    Named { dir, name, node }
}

fn letter(byte: u8) -> Result<Name> {
    match Name::read(&[byte]) {
        Some(name) => Ok(name),
        None => bail!("no name"),
    }
}

/// One more node, which gets an entry.
fn add(twins: &mut Twins, kind: Kind, dir: usize, name: &Name) -> Result<()> {
    let position = twins.len();
    ensure!(twins.reserve(kind)?, "no number is left");
    let (dir, node) = (twins.node(dir), twins.node(position));
    ensure!(twins.link(&dir, name, &node)?.is_some(), "no entry");
    Ok(())
}

/// The root has a file `a`, a directory `b`, a file `c` and a directory `d`, in which are a file `a` and a directory `b`.
fn add_tree(twins: &mut Twins, letters: &[Name; 4]) -> Result<()> {
    let [a, b, c, d] = letters;
    for (kind, dir, name) in [
        (Kind::File, 0, a),
        (Kind::Dir, 0, b),
        (Kind::File, 0, c),
        (Kind::Dir, 0, d),
        (Kind::File, 4, a),
        (Kind::Dir, 4, b),
    ] {
        add(twins, kind, dir, name)?;
    }
    Ok(())
}

/// Looks at each node, and reads each directory.
fn look_at_all(twins: &mut Twins) {
    for position in 0..twins.len() {
        let node = twins.node(position);
        twins.look(&node);
        twins.read(&node);
    }
}

/// Two entries change what they name.
fn swap(twins: &mut Twins, one: Named<'_>, other: Named<'_>) -> Result<()> {
    let (dir, other_dir) = (twins.node(one.dir), twins.node(other.dir));
    let (node, other_node) = (twins.node(one.node), twins.node(other.node));
    ensure!(twins.names(&dir, one.name, &node), "the one entry");
    ensure!(
        twins.names(&other_dir, other.name, &other_node),
        "the other entry"
    );
    let swapped = twins.swap_entries(&dir, one.name, &other_dir, other.name);
    ensure!(swapped == Some(dir != other_dir), "no swap");
    ensure!(
        twins.names(&dir, one.name, &other_node),
        "the one entry after the swap"
    );
    ensure!(
        twins.names(&other_dir, other.name, &node),
        "the other entry after the swap"
    );
    look_at_all(twins);
    Ok(())
}

/// Two entries of which one names what is above the other, or that are the same, do not.
fn keep(twins: &mut Twins, one: Named<'_>, other: Named<'_>) -> Result<()> {
    let (dir, other_dir) = (twins.node(one.dir), twins.node(other.dir));
    let swapped = twins.swap_entries(&dir, one.name, &other_dir, other.name);
    ensure!(swapped.is_none(), "a swap");
    ensure!(
        twins.names(&dir, one.name, &twins.node(one.node)),
        "the one entry is kept"
    );
    Ok(())
}

/// Swaps in the small tree: each begins where those before it have led.
fn swap_in_tree(twins: &mut Twins, letters: &[Name; 4]) -> Result<()> {
    let [a, b, c, d] = letters;
    for (one, other) in [
        // Neighbours, of which the first is named first, and the last.
        (entry(0, a, 1), entry(0, b, 2)),
        (entry(0, c, 3), entry(0, b, 1)),
        // The first and the last of a directory.
        (entry(0, a, 2), entry(0, d, 4)),
        // Files of two directories, and a file with a directory of two.
        (entry(0, c, 1), entry(4, a, 5)),
        (entry(4, b, 6), entry(0, b, 3)),
        // The only two of a directory.
        (entry(4, a, 1), entry(4, b, 3)),
    ] {
        swap(twins, one, other)?;
    }
    for (one, other) in [
        (entry(0, a, 4), entry(4, a, 3)),
        (entry(4, a, 3), entry(0, a, 4)),
        (entry(0, b, 6), entry(0, b, 6)),
    ] {
        keep(twins, one, other)?;
    }
    Ok(())
}

/// The names of the small tree.
fn letters() -> Result<[Name; 4]> {
    let (a, b) = (letter(b'a')?, letter(b'b')?);
    let (c, d) = (letter(b'c')?, letter(b'd')?);
    Ok([a, b, c, d])
}

/// Makes the small tree, and swaps in it.
fn swap_small(twins: &mut Twins) -> Result<()> {
    let letters = letters()?;
    add_tree(twins, &letters)?;
    swap_in_tree(twins, &letters)?;
    ensure!(twins.others == 0, "an answer differs");
    Ok(())
}

/// The entries above two names change what they name, if neither is below the other.
fn swap_above(
    twins: &mut Twins,
    tally: &mut Tally,
    (dir, name): (&Twin, &Name),
    (other, other_name): (&Twin, &Name),
) -> Result<()> {
    let name = twins.name_above(dir, name)?;
    let other_name = twins.name_above(other, other_name)?;
    let swapped = twins.swap_entries(dir, &name, other, &other_name);
    tally.swap_entries.count(swapped);
    twins.read(dir);
    twins.read(other);
    Ok(())
}

/// The same of drawn names, if there are two.
fn swap_drawn(
    alloc: Global,
    random: &mut Pcg32,
    twins: &mut Twins,
    tally: &mut Tally,
) -> Result<()> {
    if let (Some(name), Some(other_name)) = (name(alloc, random)?, name(alloc, random)?) {
        let (dir, other) = (directory(random, twins), directory(random, twins));
        swap_above(twins, tally, (&dir, &name), (&other, &other_name))?;
    }
    Ok(())
}

/// A drawn swap after each drawn call, until enough of them were made.
fn swap_all_drawn(alloc: Global, twins: &mut Twins, tally: &mut Tally) -> Result<()> {
    let mut random = Pcg32::seed_from_u64(2);
    for _ in 0..DRAWS {
        if tally.swap_entries.made() == SWAPS {
            return Ok(());
        }
        draw(alloc, &mut random, twins, tally)?;
        swap_drawn(alloc, &mut random, twins, tally)?;
    }
    bail!("too few of the swaps could be made")
}

/// Drawn swaps, of which it writes what was counted.
fn count(rt: &impl Print, alloc: Global, twins: &mut Twins) -> Result<()> {
    let mut tally = Tally::default();
    swap_all_drawn(alloc, twins, &mut tally)?;
    Ok(tally.write_swaps(rt, twins.others)?)
}

fn run_small(alloc: Global) -> Result<()> {
    let mut twins = Twins::new(alloc, LIMIT)?;
    swap_small(&mut twins)
}

fn run_drawn(rt: &impl Print, alloc: Global) -> Result<()> {
    let mut twins = Twins::new(alloc, LIMIT)?;
    count(rt, alloc, &mut twins)
}

/// Does all of this, and writes what was counted.
pub fn run(rt: &impl Print, alloc: Global) -> Result<()> {
    run_small(alloc)?;
    println!(rt;
        "swaps: neighbours in both orders, the first and the last, of two directories, a file with a directory"
    )?;
    run_drawn(rt, alloc)
}
