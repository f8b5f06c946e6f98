//! Two directories of up to 256 entries, in both stores: drawn names, and names that the index keeps apart badly.

use crate::drawing::below;
use crate::twins::{Twin, Twins};
use anyhow::{Result, ensure};
use check_nodes::looks::Looks;
use fs_names::{Kind, Limits, Name};
use rand_core::{Rng, SeedableRng};
use rand_pcg::Pcg32;
use std::alloc::Global;

/// How many files there are: more than both directories hold.
const FILES: u32 = 600;

/// The root, the two directories and the files.
const NODES: usize = 603;

/// How many calls are drawn for each kind of names.
const CALLS: u32 = 6_000;

/// Names that have one home in the directory of number 1, in an index of 2,048 homes and in any lesser one: more than
/// the slots there hold.
const OF_ONE_HOME: [&[u8]; 48] = [
    b"uhmtn", b"sjljn", b"csxgq", b"xeafhu", b"creid", b"jmghg", b"ipsrl", b"oelns", b"qqfszs",
    b"bfuuqu", b"fugzod", b"xzgjf", b"dzvdc", b"vdtold", b"pqzry", b"qwika", b"ztqpte", b"wsyok",
    b"jiweib", b"xfzyu", b"cizuv", b"lkvdnh", b"slcts", b"ywzwa", b"vpgsgg", b"gitigx", b"yuoxn",
    b"blecby", b"tqyzj", b"eydrh", b"qajkn", b"exvner", b"bvfilx", b"ajcmad", b"tovhdr", b"lkyie",
    b"shgvgr", b"xpltl", b"fojypz", b"hodznw", b"wwvae", b"drkccj", b"fijunh", b"giezfs", b"zxyrm",
    b"jptuv", b"ibynkp", b"xejxdr",
];

/// Names of which each has the same hash there as the one beside it.
const OF_ONE_HASH: [&[u8]; 20] = [
    b"iihuvk", b"zcehz", b"bnwcki", b"advrt", b"ywtnp", b"npntya", b"eimbz", b"ggthg", b"wmsfm",
    b"zuyitx", b"opevhl", b"fosnca", b"lhzosn", b"eagtbp", b"muntx", b"zyaueb", b"micvy", b"awrpt",
    b"zhkfgg", b"wuvay",
];

/// Which names are drawn.
#[derive(Clone, Copy)]
enum Names {
    /// One of a thousand.
    Ordinary,
    /// Of those that collide.
    Colliding,
}

/// One of some names.
fn one_of(random: &mut Pcg32, names: &[&[u8]]) -> Option<Name> {
    let word = random.next_u32() as usize;
    let at = word.checked_rem(names.len()).unwrap_or(0);
    match names.get(at) {
        Some(name) => Name::read(name),
        None => None,
    }
}

/// A name of a letter and three digits.
fn ordinary(random: &mut Pcg32) -> Option<Name> {
    let mut text = [b'e'; 4];
    for at in 1..4 {
        text[at] = b'0' + (below(random, 10) % 10) as u8;
    }
    Name::read(&text)
}

/// A drawn name.
fn name(random: &mut Pcg32, names: Names) -> Option<Name> {
    match names {
        Names::Ordinary => ordinary(random),
        Names::Colliding => match below(random, 2) {
            0 => one_of(random, &OF_ONE_HOME),
            _ => one_of(random, &OF_ONE_HASH),
        },
    }
}

/// One of the two directories.
fn directory(random: &mut Pcg32, twins: &Twins) -> Twin {
    twins.node(1 + (below(random, 2) % 2) as usize)
}

/// A directory of this name in the root.
fn add_dir(twins: &mut Twins, name: &[u8]) -> Result<()> {
    let position = twins.len();
    ensure!(twins.reserve(Kind::Dir)?, "no number is left");
    let (root, node) = (twins.node(0), twins.node(position));
    if let Some(name) = Name::read(name) {
        ensure!(twins.link(&root, &name, &node)?.is_some(), "no entry");
    }
    Ok(())
}

/// The two directories and the files.
fn add_tree(twins: &mut Twins) -> Result<()> {
    add_dir(twins, b"a")?;
    add_dir(twins, b"b")?;
    for _ in 0..FILES {
        ensure!(twins.reserve(Kind::File)?, "no number is left");
    }
    Ok(())
}

/// Whether a directory may have one entry more.
fn has_room(twins: &Twins, dir: &Twin) -> bool {
    twins.entries(dir) < Limits::V2.entries()
}

/// A drawn call in two directories, each with a drawn name and that of the entry above it: far more entries come than go.
fn call(
    random: &mut Pcg32,
    twins: &mut Twins,
    (dir, name, there): (&Twin, &Name, &Name),
    (to, new_name, other): (&Twin, &Name, &Name),
) -> Result<()> {
    match below(random, 32) {
        0 => {
            twins.unlink(dir, there);
        }
        1..6 if dir == to || has_room(twins, to) => {
            twins.move_entry(dir, there, to, new_name)?;
        }
        6..9 => {
            twins.swap_entries(dir, there, to, other);
        }
        9..24 if has_room(twins, dir) => {
            let node = twins.node(3 + below(random, FILES) as usize);
            twins.link(dir, name, &node)?;
        }
        24..27 => {
            twins.find(dir, there);
        }
        _ => {
            twins.find(dir, name);
        }
    }
    Ok(())
}

/// The same in drawn directories.
fn call_in(random: &mut Pcg32, twins: &mut Twins, name: &Name, new_name: &Name) -> Result<()> {
    let (dir, to) = (directory(random, twins), directory(random, twins));
    let there = twins.name_above(&dir, name)?;
    let other = twins.name_above(&to, new_name)?;
    call(random, twins, (&dir, name, &there), (&to, new_name, &other))
}

/// Drawn calls with such names, and at how many places their look-ups have looked.
fn draw(random: &mut Pcg32, names: Names, twins: &mut Twins) -> Result<Looks> {
    twins.looks = Looks::default();
    for _ in 0..CALLS {
        if let (Some(name), Some(new_name)) = (name(random, names), name(random, names)) {
            call_in(random, twins, &name, &new_name)?;
        }
    }
    Ok(twins.looks)
}

/// Drawn calls on full directories, of which it writes what was counted.
fn count_full(rt: &impl Print, random: &mut Pcg32, twins: &mut Twins) -> Result<()> {
    let looks = draw(random, Names::Ordinary, twins)?;
    let (a, b) = (twins.node(1), twins.node(2));
    let (entries, others) = (twins.entries(&a), twins.entries(&b));
    println!(rt; "full directories: {entries} and {others} entries")?;
    Ok(looks.write(rt, "find_steps", "drawn names")?)
}

/// Drawn calls whose names collide.
fn count_colliding(rt: &impl Print, random: &mut Pcg32, twins: &mut Twins) -> Result<()> {
    let looks = draw(random, Names::Colliding, twins)?;
    looks.write(rt, "find_steps", "names that collide")?;
    let (a, b) = (twins.node(1), twins.node(2));
    twins.read(&a);
    twins.read(&b);
    println!(rt; "answers that differ: {}", twins.others)?;
    Ok(())
}

/// Both, one after the other.
fn count(rt: &impl Print, random: &mut Pcg32, twins: &mut Twins) -> Result<()> {
    add_tree(twins)?;
    count_full(rt, random, twins)?;
    count_colliding(rt, random, twins)
}

/// Does all of this.
pub fn run(rt: &impl Print, alloc: Global) -> Result<()> {
    let mut twins = Twins::new(alloc, NODES)?;
    count(rt, &mut Pcg32::seed_from_u64(3), &mut twins)
}
