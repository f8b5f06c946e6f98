//! Directories of far more entries than any limits allow: how many places are looked at to find the place of a name in
//! their order.

use crate::calls::Linked;
use crate::looks::Looks;
use anyhow::{Result, bail};
use fs_names::{Kind, Name};
use fs_nodes::NodeNo;
use rand_core::{Rng, SeedableRng};
use rand_pcg::Pcg32;
use std::alloc::Global;

/// How many entries there are.
const MANY: u32 = 100_000;

/// How many there are where a search goes past half of them.
const SOME: u32 = 4_000;

/// More nodes than there are.
const NODES: usize = 101_000;

/// Names that have one home in the root, in an index for so many entries and in any lesser one: more than the slots
/// there hold.
const OF_ONE_HOME: [&[u8]; 48] = [
    b"stpmaa", b"xxjtaa", b"fkztaa", b"bbhzaa", b"ksvqba", b"pwpxba", b"hbzeca", b"mjvbda",
    b"iadhda", b"jqxcfa", b"fhfifa", b"kpbfga", b"gtxnga", b"ckftga", b"gxzdha", b"cohjha",
    b"hsbqha", b"hwdgia", b"ezdrja", b"zluxja", b"dxfdna", b"yjwjna", b"uaepna", b"ziamoa",
    b"vmwuoa", b"vqykpa", b"rhgqpa", b"wlaxpa", b"styvqa", b"tscyra", b"qficta", b"iamqta",
    b"qzezta", b"ieogua", b"niinua", b"nmkdva", b"wzweva", b"sqekva", b"adukva", b"fhorva",
    b"sugawa", b"xyahwa", b"flqhwa", b"kpkowa", b"pxglxa", b"coqsxa", b"hskzxa", b"hwmpya",
];

/// In which order names come.
#[derive(Clone, Copy)]
enum Order {
    Ascending,
    Descending,
    Drawn,
    /// In the order of their priorities in the tree beside the entries, so that it is as deep as it has entries.
    Against,
}

/// The priority of a node's entry in that tree.
fn priority(node: u32) -> u32 {
    let word = (node ^ node >> 16).wrapping_mul(0x7feb_352d);
    let word = (word ^ word >> 15).wrapping_mul(0x846c_a68b);
    word ^ word >> 16
}

/// A name of eight letters, in the order of the numbers.
fn letters(number: u32) -> Option<Name> {
    let mut text = [b'a'; 8];
    let mut rest = number;
    for at in 0..8 {
        text[7 - at] = b'a' + (rest % 16) as u8;
        rest /= 16;
    }
    Name::read(&text)
}

/// The name of a node, the nodes in the order of their numbers.
fn name(order: Order, random: &mut Pcg32, node: u32) -> Option<Name> {
    letters(match order {
        Order::Ascending => node,
        Order::Descending => u32::MAX - node,
        Order::Drawn => random.next_u32(),
        Order::Against => priority(node),
    })
}

/// An empty file in the root.
fn add(linked: &mut Linked, name: Name) -> Result<()> {
    let Ok(node) = linked.store.reserve(Kind::File) else {
        bail!("no number is left");
    };
    linked.link(NodeNo::new(0), name, node);
    Ok(())
}

/// So many files in the root.
fn fill(order: Order, entries: u32, linked: &mut Linked) -> Result<()> {
    let mut random = Pcg32::seed_from_u64(4);
    for node in 1..entries {
        if let Some(name) = name(order, &mut random, node) {
            add(linked, name)?;
        }
    }
    Ok(())
}

/// Every other one of them goes.
fn thin(order: Order, entries: u32, linked: &mut Linked) {
    let mut random = Pcg32::seed_from_u64(4);
    for node in 1..entries {
        let name = name(order, &mut random, node);
        if let (Some(name), 1) = (name, node % 2) {
            linked.unlink(NodeNo::new(0), &name);
        }
    }
}

/// How many places are looked at to find the places of their names.
fn looks(order: Order, entries: u32, linked: &Linked) -> Looks {
    let mut random = Pcg32::seed_from_u64(4);
    let mut looks = Looks::default();
    for node in 1..entries {
        if let Some(name) = name(order, &mut random, node) {
            looks.count(linked.store.order_steps(NodeNo::new(0), &name));
        }
    }
    looks
}

/// One of the names that collide.
fn of_one_home(at: usize) -> Option<Name> {
    Name::read(OF_ONE_HOME.get(at)?)
}

/// Those names come too.
fn add_colliding(linked: &mut Linked) -> Result<()> {
    for at in 0..OF_ONE_HOME.len() {
        if let Some(name) = of_one_home(at) {
            add(linked, name)?;
        }
    }
    Ok(())
}

/// At how many entries a find of them looks.
fn finds(linked: &Linked) -> Looks {
    let mut looks = Looks::default();
    for at in 0..OF_ONE_HOME.len() {
        if let Some(name) = of_one_home(at) {
            looks.count(linked.store.find_steps(NodeNo::new(0), &name).1);
        }
    }
    looks
}

/// Files that come in an order, and what is counted then.
fn count_on(
    rt: &impl Print,
    linked: &mut Linked,
    order: Order,
    entries: u32,
    what: &str,
) -> Result<()> {
    fill(order, entries, linked)?;
    Ok(looks(order, entries, linked).write(rt, "order_steps", what)?)
}

/// The same in a store of its own.
fn count(rt: &impl Print, alloc: Global, order: Order, entries: u32, what: &str) -> Result<()> {
    count_on(rt, &mut Linked::new(alloc, NODES)?, order, entries, what)
}

/// Files whose names are drawn, half of which go, and others whose names collide.
fn change_on(rt: &impl Print, linked: &mut Linked) -> Result<()> {
    count_on(rt, linked, Order::Drawn, MANY, "drawn names")?;
    add_colliding(linked)?;
    finds(linked).write(rt, "find_steps", "names that collide")?;
    thin(Order::Drawn, MANY, linked);
    let looks = looks(Order::Drawn, MANY, linked);
    Ok(looks.write(rt, "order_steps", "half of the names gone")?)
}

/// The same in a store of its own.
fn change(rt: &impl Print, alloc: Global) -> Result<()> {
    change_on(rt, &mut Linked::new(alloc, NODES)?)
}

/// Does all of this.
pub fn run(rt: &impl Print, alloc: Global) -> Result<()> {
    println!(rt; "a directory of {MANY} entries")?;
    count(rt, alloc, Order::Ascending, MANY, "names in order")?;
    count(rt, alloc, Order::Descending, MANY, "names in reverse")?;
    change(rt, alloc)?;
    println!(rt; "a directory of {SOME} entries")?;
    count(rt, alloc, Order::Drawn, SOME, "drawn names")?;
    count(rt, alloc, Order::Against, SOME, "names against the tree")
}
