//! The first return that nothing explains.

ghost use Rattle.std.specs.Prelude.{◌≡◌, ◌+◌, ◌<◌, ◌≤◌, IfOk, IfSome, IfNone};
ghost use Rattle.fs_linearize_histories.specs.Histories.{IsHistory, HasNoFront};
ghost use Rattle.fs_linearize.specs.code.Searched.{IsPlace};

use crate::progress::Progress;
use crate::search::{Searched, find_way};
use fs_linearize_histories::Heard;
use fs_names::CallNo;
use fs_seq::SeqTree;
use std::alloc::{AllocError, Global};

/// Where no order explains a history any more.
#[derive(Drop)]
pub(crate) enum Place {
    /// At the entry of this place, counted from 1, the return of this call; one explains those before it.
    First(usize, CallNo),
    /// The limit was reached, and the search had come to the entry of this place, counted from 1.
    Limited(usize),
}

/// A place between two, by so many steps after the lower one, or as many as there are.
fn between(low: usize, high: usize, step: usize) -> Option<usize>
    ensures some { IfSome result (λ middle. (low < middle) × (middle < high)) }
    ensures none { IfNone result (high ≤ low + 1) }
{
    if high <= low || high - low == 1 {
        return None;
    }
    let most = high - low - 1;
    if step == 0 {
        return Some(low + 1);
    }
    if step < most {
        return Some(low + step);
    }
    Some(low + most)
}

/// Finds the first place up to which no order explains a history, of which the whole has none. Where each call gets the reply
/// that is recorded of it later, this is the first; without that it is here or later.
pub(crate) fn first_place<P: Progress>(
    alloc: Global,
    start: &SeqTree,
    history: &[Heard],
    held: usize,
    limit: usize,
    progress: &mut P,
) -> Result<Place, AllocError>
    requires history { IsHistory history.now }
    requires held { HasNoFront start.now history.now held }
    ensures { IfOk result (IsPlace start.now history.now limit) }
{
    let mut low = held - 1;
    let mut high = history.len();
    let mut step = 1usize;
    while let Some(middle) = between(low, high, step) {
        match find_way(alloc, start, &history[..middle], limit, progress)? {
            Searched::Ends(_) => {
                low = middle;
                step = step.saturating_add(step);
            }
            Searched::NoOrder(_, _) => {
                high = middle;
                step = 1;
            }
            Searched::Limited(place) => return Ok(Place::Limited(place)),
        }
    }
    match &history[high - 1] {
        Heard::Return(number, _) => Ok(Place::First(high, *number)),
        Heard::Begin(_, _, _) => unreachable!(),
    }
}
