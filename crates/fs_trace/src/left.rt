//! The calls that did not return.

use fs_script::Script;
use fs_trace_story::Standing;
use std::alloc::{AllocError, Global};

/// A call that did not return: the seat of its thread, its place among the calls of that, and whether it has begun.
#[derive(Clone, Copy)]
pub(crate) struct Left {
    pub(crate) seat: usize,
    pub(crate) at: usize,
    pub(crate) has_begun: bool,
}

/// Adds those of a thread that has so many calls.
fn push_left(
    seat: usize,
    calls: usize,
    standing: Standing,
    left: &mut Vec<Left>,
) -> Result<(), AllocError> {
    if standing.call > 0 && standing.begun > 0 && standing.begun <= calls {
        left.push(Left {
            seat,
            at: standing.begun - 1,
            has_begun: true,
        })?;
    }
    for at in standing.begun..calls {
        left.push(Left {
            seat,
            at,
            has_begun: false,
        })?;
    }
    Ok(())
}

/// Those of all threads, block by block: first the call that has begun, and then those that have not.
pub(crate) fn left_in(
    alloc: Global,
    script: &Script,
    threads: &[Standing],
) -> Result<Vec<Left>, AllocError> {
    let mut left = Vec::new(alloc);
    let lists = script.lists.as_slice();
    for seat in 0..lists.len() {
        if let Some(standing) = threads.get(seat) {
            push_left(seat, lists[seat].as_slice().len(), *standing, &mut left)?;
        }
    }
    Ok(left)
}
