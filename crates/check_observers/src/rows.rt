//! A tree for each row.

ghost use Rattle.std.specs.Prelude.{◌≡◌, ◌^◌};

use crate::told::{BOTH_STAMPS, FIRST, UNTOLD, WRITTEN, comes_out};
use crate::{busy, drawn, held, places};
use fs_names::Limits;
use fs_share::{AtomFs, Named, Opened};
use std::alloc::Global;
use std::marker::Brand;
use std::sync::Wait;
use std::sync::ledger::Blank;
use std::thread::Threads;
use std::time::Clock;

/// What is done on a tree. A number is that of the event after which a call is held.
#[derive(Clone, Copy)]
pub enum Row {
    First,
    BothStamps,
    Written,
    Untold,
    Parked(u64),
    Moved(u64),
    Places,
    Busy,
    Drawn,
}

fn holds<N: Named + Send + Sync, R: Threads + Wait + Clock + Sync>(
    rt: &R,
    alloc: Global,
    fs: &AtomFs<N>,
    row: Row,
) -> Option<bool> {
    match row {
        Row::First => comes_out(rt, alloc, fs, FIRST),
        Row::BothStamps => comes_out(rt, alloc, fs, BOTH_STAMPS),
        Row::Written => comes_out(rt, alloc, fs, WRITTEN),
        Row::Untold => comes_out(rt, alloc, fs, UNTOLD),
        Row::Parked(at) => held::comes_out_beside(rt, alloc, fs, at, false),
        Row::Moved(at) => held::comes_out_beside(rt, alloc, fs, at, true),
        Row::Places => places::sixty_four(rt, alloc, fs),
        Row::Busy => busy::meet(rt, alloc, fs),
        Row::Drawn => drawn::are_right(rt, alloc, fs),
    }
}

/// The limits of a row's tree: drawn calls have long names.
fn limits_of(row: Row) -> Limits {
    match row {
        Row::Drawn => Limits::V3,
        _ => Limits::V2,
    }
}

fn on_named<N: Named + Send + Sync, R: Threads + Wait + Clock + Sync>(
    rt: &R,
    alloc: Global,
    opened: Opened,
    blank: Blank,
    row: Row,
) -> Option<bool>
    requires book { opened ≡ N.book }
    requires name { blank.name ≡ N.name }
    requires parts { blank.parts ≡ N.parts }
    requires all { blank.parts ≡ 2 ^ 63 }
{
    let fs = AtomFs::<N>::open_with(rt, alloc, opened, blank, limits_of(row)).ok()?;
    let holds = holds(rt, alloc, &fs, row);
    let _closed = fs.close(rt, Vec::new(alloc));
    holds
}

/// Whether the row holds on a tree of its own.
pub fn on_tree<R: Threads + Wait + Clock + Sync>(rt: &R, alloc: Global, row: Row) -> Option<bool> {
    on_named::<Brand, R>(rt, alloc, Opened::new(), Blank::new(1 << 63), row)
}
