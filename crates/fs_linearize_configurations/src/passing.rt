//! Layers that pass an entry.

ghost use Rattle.std.specs.Prelude.{◌≡◌, ◌+◌, ℕ, List, Some, false, slice_get, IfOk, OnOk};
ghost use Rattle.fs_linearize_histories.specs.Histories.{IsHistory};
ghost use Rattle.fs_linearize_histories.specs.declared.heard.Heard.{Heard as Value};
ghost use Rattle.fs_linearize_configurations.specs.code.Calls.{AreEach};
ghost use Rattle.fs_linearize_configurations.specs.code.Searching.{AllAt, Passes, PassesAll, PassesTo, waits};

use crate::committing;
use crate::configuration::Configuration;
use crate::layer::Layer;
use crate::reached::Reached;
use crate::steps::Link;
use crate::under_way::UnderWay;
use fs_linearize_histories::Heard;
use std::alloc::{AllocError, Global};

/// Whether an entry is the return of a call that has not committed in a configuration.
pub fn waits(x: &Configuration, entry: &Heard) -> bool
    ensures { result ≡ waits x.now entry.now }
{
    match entry {
        Heard::Begin(_, _, _) => false,
        Heard::Return(number, _) => !x.holds(number.get()),
    }
}

/// What is reached after an entry that can pass, with which so many have passed.
pub fn behind(
    alloc: Global,
    calls: &[UnderWay],
    links: &mut Vec<Link>,
    reached: Reached,
    entry: &Heard,
    at: usize,
) -> Result<Reached, AllocError>
    ensures { IfOk result (λ next. (h : List Value) → IsHistory h → slice_get h reached.configuration.at ≡ Some entry.now → at ≡ reached.configuration.at + 1 → AreEach h at calls.now
        → waits reached.configuration entry.now ≡ false → PassesTo h entry.now reached links.old.items links.new.items next) }
{
    match entry {
        Heard::Begin(_, _, _) => {
            let begun = Reached {
                configuration: reached.configuration.passed(at),
                last: reached.last,
            };
            Ok(committing::settle_newest(alloc, calls, links, begun)?)
        }
        Heard::Return(number, _) => {
            let configuration = reached.configuration.returned(alloc, number.get(), at)?;
            Ok(Reached {
                configuration,
                last: reached.last,
            })
        }
    }
}

/// Adds a configuration after an entry, with which so many have passed, if the entry can pass there.
fn pass_one(
    alloc: Global,
    calls: &[UnderWay],
    links: &mut Vec<Link>,
    layer: &mut Layer,
    reached: Reached,
    entry: &Heard,
    at: usize,
) -> Result<(), AllocError>
    ensures { OnOk result ((h : List Value) → IsHistory h → slice_get h reached.configuration.at ≡ Some entry.now → at ≡ reached.configuration.at + 1 → AreEach h at calls.now
        → Passes h entry.now reached links.old.items links.new.items layer.old layer.new) }
{
    if waits(&reached.configuration, entry) {
        return Ok(());
    }
    let next = behind(alloc, calls, links, reached, entry, at)?;
    Ok(layer.add(next)?)
}

/// The layer after an entry, with which so many have passed.
pub fn pass(
    alloc: Global,
    calls: &[UnderWay],
    links: &mut Vec<Link>,
    layer: Layer,
    entry: &Heard,
    at: usize,
) -> Result<Layer, AllocError>
    ensures { IfOk result (λ behind. (h : List Value) (place : ℕ) → IsHistory h → slice_get h place ≡ Some entry.now → at ≡ place + 1 → AllAt place layer → AreEach h at calls.now
        → PassesAll h entry.now place links.old.items links.new.items layer behind) }
{
    let mut before = layer.into_reached();
    let mut behind = Layer::new(alloc);
    while let Some(reached) = before.pop() {
        pass_one(alloc, calls, links, &mut behind, reached, entry, at)?;
    }
    Ok(behind)
}
