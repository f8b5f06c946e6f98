//! The bytes of a file by each set of limits: what a sequential tree replies at them and beyond.

use anyhow::{Result, bail, ensure};
use fs_calls::{Call, Data, Errno, Reply};
use fs_names::{Kind, Limits, Path};
use fs_seq::SeqTree;
use std::alloc::Global;

/// What is done with the file `/f`.
#[derive(Clone, Copy)]
enum Deed {
    /// The empty file is made.
    Make,
    /// One byte is written at an offset.
    Write(u64),
    /// It gets a size.
    Truncate(u64),
    /// It is looked at.
    Stat,
}

/// What is replied.
#[derive(Clone, Copy)]
enum Due {
    Done,
    OneByte,
    TooLarge,
    /// A file of this size.
    Size(u64),
}

/// A deed, what is to be replied, and what that says.
type Row = (Deed, Due, &'static str);

/// One byte.
fn byte(alloc: Global) -> Result<Data> {
    Ok(Data::from_slice(alloc, &[7])?)
}

/// The call that does this.
fn call(alloc: Global, deed: Deed) -> Result<Call> {
    let path = Path::parse(alloc, b"/f")?;
    match deed {
        Deed::Make => Ok(Call::Mknod(path)),
        Deed::Write(off) => Ok(Call::Write(path, off, byte(alloc)?)),
        Deed::Truncate(size) => Ok(Call::Truncate(path, size)),
        Deed::Stat => Ok(Call::Stat(path)),
    }
}

/// Whether a reply is this one.
fn fits(reply: &Reply, due: Due) -> bool {
    match (reply, due) {
        (Reply::Done, Due::Done) => true,
        (Reply::Wrote(count), Due::OneByte) => *count == 1,
        (Reply::Failed(Errno::Efbig), Due::TooLarge) => true,
        (Reply::Stat(Kind::File, size), Due::Size(want)) => *size == want,
        _ => false,
    }
}

/// Whether a call is replied so.
fn is_replied(alloc: Global, tree: &mut SeqTree, call: &Call, due: Due) -> Result<bool> {
    Ok(fits(&tree.apply(alloc, call)?, due))
}

/// The same by what the call does.
fn comes_out(alloc: Global, tree: &mut SeqTree, deed: Deed, due: Due) -> Result<bool> {
    let call = call(alloc, deed)?;
    is_replied(alloc, tree, &call, due)
}

/// Does what rows say.
fn hold(alloc: Global, tree: &mut SeqTree, rows: &[Row]) -> Result<()> {
    for (deed, due, what) in rows {
        if !comes_out(alloc, tree, *deed, *due)? {
            bail!("{what}");
        }
    }
    Ok(())
}

/// A file of a copy is cut to the limit, and to no more.
fn compare_copy(alloc: Global, copy: &mut SeqTree, limits: Limits, most: u64) -> Result<()> {
    ensure!(copy.limits() == limits, "the limits of a copy");
    let more = most.wrapping_add(1);
    hold(
        alloc,
        copy,
        &[
            (Deed::Truncate(most), Due::Done, "a file cut to the limit"),
            (
                Deed::Truncate(more),
                Due::TooLarge,
                "a file cut to more than the limit",
            ),
            (Deed::Stat, Due::Size(most), "the greatest file"),
        ],
    )
}

/// If a file has at most so many bytes, the last of them is written, and none after it.
fn compare_tree(alloc: Global, tree: &mut SeqTree, limits: Limits, most: u64) -> Result<()> {
    ensure!(tree.limits() == limits, "the limits of a tree");
    let last = most.wrapping_sub(1);
    hold(
        alloc,
        tree,
        &[
            (Deed::Make, Due::Done, "a file"),
            (Deed::Write(last), Due::OneByte, "the last byte of a file"),
            (
                Deed::Write(most),
                Due::TooLarge,
                "a byte behind the last one",
            ),
        ],
    )?;
    let mut copy = tree.copy()?;
    compare_copy(alloc, &mut copy, limits, most)
}

/// The same of a new tree.
fn compare_at(alloc: Global, limits: Limits, most: u64) -> Result<()> {
    let mut tree = SeqTree::with_limits(alloc, limits)?;
    compare_tree(alloc, &mut tree, limits, most)
}

/// A file that is longer than the first limits allow.
const LONGER: [Row; 3] = [
    (Deed::Make, Due::Done, "a file"),
    (
        Deed::Write(65_536),
        Due::OneByte,
        "a byte behind those of the first limits",
    ),
    (
        Deed::Stat,
        Due::Size(65_537),
        "a file longer than by the first limits",
    ),
];

/// All sets of limits.
pub fn compare(alloc: Global) -> Result<()> {
    compare_at(alloc, Limits::V1, 65_536)?;
    compare_at(alloc, Limits::V2, 1_048_576)?;
    compare_at(alloc, Limits::V3, 2_147_483_648)?;
    let mut tree = SeqTree::with_limits(alloc, Limits::V2)?;
    hold(alloc, &mut tree, &LONGER)
}
