//! The calls of a script, in the order of its blocks.

ghost use Rattle.std.specs.Prelude.{◌≡◌, ◌++◌, OnOk, IfOk, length};
ghost use Rattle.fs_sched_seen.specs.Calls.{places_on, places_of};

use fs_calls::Call;
use fs_script::CallLists;
use std::alloc::{AllocError, Global};

/// A call of a script: the seat of its thread, and its turn in the block of that, counted from 1.
#[derive(Clone, Copy, Debug, PartialEq, Eq, Hash)]
pub struct Place {
    pub seat: usize,
    pub turn: usize,
}

/// Adds the calls of a thread.
fn push_places(seat: usize, calls: &[Call], places: &mut Vec<Place>) -> Result<(), AllocError>
    ensures { OnOk result (places.new.items ≡ places.old.items ++ places_on seat (length calls.now)) }
{
    for turn in 0..calls.len() {
        places.push(Place {
            seat,
            turn: turn + 1,
        })?;
    }
    Ok(())
}

/// The calls of a script, block by block. The only error is out of memory.
pub fn places_of(alloc: Global, lists: &CallLists) -> Result<Vec<Place>, AllocError>
    ensures { IfOk result (λ places. places.items ≡ places_of lists.now) }
{
    let mut places = Vec::new(alloc);
    for seat in 0..lists.as_slice().len() {
        push_places(seat, lists.of(seat), &mut places)?;
    }
    Ok(places)
}
