//! Histories made journals, or the first return that nothing explains.

ghost use Rattle.std.specs.Prelude.{◌≡◌, IfOk};
ghost use Rattle.fs_linearize_histories.specs.Faults.{history_fault};
ghost use Rattle.fs_linearize_histories.specs.Histories.{IsHistory, HasNoFront};
ghost use Rattle.fs_linearize.specs.Results.{IsAnswerFor, IsKnownAbove, fault_in, TellsLinearizable};
ghost use Rattle.fs_linearize.specs.code.Searched.{IsRefused};

use crate::faults::first_fault;
use crate::first_return::{Place, first_place};
use crate::progress::Progress;
use crate::replies::{Possible, possible_replies};
use crate::search::{Searched, find_way};
use crate::telling::tell;
use fs_linearize_histories::{Heard, HistoryFault};
use fs_names::CallNo;
use fs_seq::SeqTree;
use fs_timeline::Entry;
use std::alloc::{AllocError, Global};

/// What is found of a history.
#[derive(Drop)]
pub enum Found {
    /// A lawful journal, which is the history once its commits are taken out. What was not known of replies is filled in.
    Lawful(Vec<Entry>),
    /// No journal explains it.
    NoOrder {
        /// None explains its entries up to this one, counted from 1, and one explains those before it.
        place: usize,
        /// That entry is the return of this call.
        call: CallNo,
        /// What that call could have replied.
        possible: Possible,
        /// With the replies that are recorded later no journal explains the entries up to this one, counted from 1.
        held: usize,
    },
    /// It is no history: the entry of this place, counted from 1, cannot come next.
    Fault(usize, HistoryFault),
    /// One search met as many different configurations as the limit says, each by a journal that explains a front; it had come to
    /// the entry of this place, counted from 1.
    Unknown(usize),
}

/// Finds the first return of a history that nothing explains, where the search of the whole had come to this place.
fn refused<P: Progress>(
    alloc: Global,
    start: &SeqTree,
    history: Vec<Heard>,
    held: usize,
    limit: usize,
    progress: &mut P,
) -> Result<Found, AllocError>
    requires history { IsHistory history.items }
    requires held { HasNoFront start.now history.items held }
    ensures { IfOk result (IsRefused start.now history.items limit) }
{
    match first_place(alloc, start, &history, held, limit, progress)? {
        Place::First(place, call) => {
            let mut before = history;
            before.truncate(place - 1);
            let possible = possible_replies(alloc, start, before, call, limit, progress)?;
            Ok(Found::NoOrder {
                place,
                call,
                possible,
                held,
            })
        }
        Place::Limited(place) => Ok(Found::Unknown(place)),
    }
}

/// Puts the commits into a history that begins at a start tree, and reports how far that is. No search makes more
/// configurations than the limit, or few more.
pub fn linearize<P: Progress>(
    alloc: Global,
    start: &SeqTree,
    history: Vec<Heard>,
    limit: usize,
    progress: &mut P,
) -> Result<Found, AllocError>
    ensures answer { IfOk result (IsAnswerFor start.now history.items limit) }
    ensures fault { IfOk result (λ found. fault_in found ≡ history_fault history.items) }
    ensures linearizable { IfOk result (TellsLinearizable start.now history.items) }
    ensures known { IfOk result (IsKnownAbove history.items limit) }
{
    if let Some((place, kind)) = first_fault(alloc, &history)? {
        return Ok(Found::Fault(place, kind));
    }
    match find_way(alloc, start, &history, limit, progress)? {
        Searched::Ends(steps) => Ok(Found::Lawful(tell(alloc, start, history, &steps)?)),
        Searched::NoOrder(held, _) => Ok(refused(alloc, start, history, held, limit, progress)?),
        Searched::Limited(place) => Ok(Found::Unknown(place)),
    }
}
