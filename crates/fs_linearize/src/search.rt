//! The search: for one order, and then layer by layer, from the start to the end of a history, up to a limit.

ghost use Rattle.std.specs.Prelude.{◌≡◌, ◌+◌, IfOk};
ghost use Rattle.fs_linearize_histories.specs.Histories.{IsHistory};
ghost use Rattle.fs_linearize_configurations.specs.code.Searching.{IsFirst};
ghost use Rattle.fs_linearize.specs.code.Searched.{IsSearched};

use crate::depth_first::one_order;
use crate::progress::Progress;
use fs_linearize_configurations::configuration::Configuration;
use fs_linearize_configurations::layer::Layer;
use fs_linearize_configurations::passing::pass;
use fs_linearize_configurations::reached::Reached;
use fs_linearize_configurations::steps::{Link, Step};
use fs_linearize_configurations::stopping::unheld;
use fs_linearize_configurations::under_way;
use fs_linearize_configurations::ways::steps_to;
use fs_linearize_configurations::widening::widen;
use fs_linearize_histories::Heard;
use fs_names::CallNo;
use fs_seq::SeqTree;
use std::alloc::{AllocError, Global};

/// What came of a search.
#[derive(Drop)]
pub(crate) enum Searched {
    /// The steps to the end of the history.
    Ends(Vec<Step>),
    /// No timeline in which each call gets the very reply that the history records of it, even later, explains the front up to
    /// the entry of this place, counted from 1, the return of this call.
    NoOrder(usize, CallNo),
    /// The limit was reached, and the search had come to the entry of this place, counted from 1.
    Limited(usize),
}

/// The layer before the first entry.
fn first_layer(alloc: Global, start: &SeqTree) -> Result<Layer, AllocError>
    ensures { IfOk result (IsFirst start.now) }
{
    let mut layer = Layer::new(alloc);
    layer.add(Reached {
        configuration: Configuration::start(alloc, start)?,
        last: 0,
    })?;
    Ok(layer)
}

/// Searches layer by layer for the steps of a timeline that explains a history, which has no fault.
fn search_layers<P: Progress>(
    alloc: Global,
    start: &SeqTree,
    history: &[Heard],
    limit: usize,
    progress: &mut P,
) -> Result<Searched, AllocError>
    requires { IsHistory history.now }
    ensures { IfOk result (IsSearched start.now history.now limit) }
{
    start.is_a_tree();
    let mut layer = first_layer(alloc, start)?;
    let mut calls = Vec::new(alloc);
    let mut links = Vec::new(alloc);
    let mut most = limit;
    for (place, entry) in history.iter().enumerate() {
        let whole = widen(alloc, &calls, &mut links, &mut layer, entry, most)?;
        layer.is_apart();
        if !whole {
            return Ok(Searched::Limited(place + 1));
        }
        most -= layer.len();
        if let Some(number) = unheld(layer.as_slice(), entry) {
            return Ok(Searched::NoOrder(place + 1, number));
        }
        calls = under_way::after(alloc, calls, entry, &history[place..])?;
        layer = pass(alloc, &calls, &mut links, layer, entry, place + 1)?;
        progress.passed(place + 1, history.len(), limit.saturating_sub(most));
    }
    let Some(reached) = layer.as_slice().first() else {
        unreachable!();
    };
    let steps = steps_to(alloc, &links, history.len(), reached.last)?;
    Ok(Searched::Ends(steps))
}

/// So many choices more than a history has entries may be made in the search for one order.
const MORE_CHOICES: usize = 1_000;

/// Searches for the steps of a timeline that explains a history, which has no fault: for one order first, and if none is found
/// soon, layer by layer.
pub(crate) fn find_way<P: Progress>(
    alloc: Global,
    start: &SeqTree,
    history: &[Heard],
    limit: usize,
    progress: &mut P,
) -> Result<Searched, AllocError>
    requires { IsHistory history.now }
    ensures { IfOk result (IsSearched start.now history.now limit) }
{
    let most = history.len().saturating_add(MORE_CHOICES).min(limit);
    match one_order(alloc, start, history, most)? {
        Some(steps) => Ok(Searched::Ends(steps)),
        None => Ok(search_layers(alloc, start, history, limit, progress)?),
    }
}
