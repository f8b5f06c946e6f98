//! Layers before an entry, with all that come of them by commits.

ghost use Rattle.std.specs.Prelude.{◌≡◌, ◌≤◌, ℕ, List, length, slice_get, true, false, Some, IfOk, OnOk, Contains};
ghost use Rattle.fs_linearize_histories.specs.Configurations.{is_in};
ghost use Rattle.fs_linearize_histories.specs.declared.heard.Heard.{Heard as Value};
ghost use Rattle.fs_linearize_configurations.specs.code.Calls.{AreEach, AreNear, IsUnderWay};
ghost use Rattle.fs_linearize_configurations.specs.code.Searching.{AllAt, Adds, AddsCommit, AddsCommits, Follows, WidensBefore, WidensFor};
ghost use Rattle.fs_linearize_configurations.specs.declared.reached.Reached.{Reached as Way};

use crate::layer::Layer;
use crate::reached::Reached;
use crate::steps::Link;
use crate::under_way::UnderWay;
use crate::{committing, meeting};
use fs_calls::Call;
use fs_linearize_histories::Heard;
use std::alloc::{AllocError, Global};

/// Adds what a configuration settles to after the commit of a call, if it is not there.
fn add(
    alloc: Global,
    calls: &[UnderWay],
    links: &mut Vec<Link>,
    layer: &mut Layer,
    reached: Reached,
    met: &Call,
) -> Result<(), AllocError>
    ensures { OnOk result ((h : List Value) → AreEach h reached.configuration.at calls.now → Adds h reached links.old.items links.new.items layer.old layer.new) }
{
    let settled = committing::settle(alloc, calls, links, reached, met)?;
    Ok(layer.add(settled)?)
}

/// Adds what comes of the commit of a call, if it can commit and that is not there.
fn add_commit(
    alloc: Global,
    calls: &[UnderWay],
    links: &mut Vec<Link>,
    layer: &mut Layer,
    reached: &Reached,
    call: &UnderWay,
) -> Result<(), AllocError>
    ensures { OnOk result ((h : List Value) → AreEach h reached.now.configuration.at calls.now → IsUnderWay h reached.now.configuration.at call.now
        → AddsCommit h reached.now call.now links.old.items links.new.items layer.old layer.new) }
{
    match committing::commit(alloc, &reached.configuration, call)? {
        Some(configuration) => {
            if layer.contains(&configuration) {
                return Ok(());
            }
            links.push(Link {
                number: call.number,
                at: reached.configuration.passed_count(),
                before: reached.last,
            })?;
            let next = Reached {
                configuration,
                last: links.len(),
            };
            Ok(add(alloc, calls, links, layer, next, call.call)?)
        }
        None => Ok(()),
    }
}

/// Adds what comes of the commit of each near call that can commit.
fn add_commits(
    alloc: Global,
    calls: &[UnderWay],
    near: &[UnderWay],
    links: &mut Vec<Link>,
    layer: &mut Layer,
    reached: &Reached,
) -> Result<(), AllocError>
    ensures { OnOk result ((h : List Value) → AreEach h reached.now.configuration.at calls.now
        → AreEach h reached.now.configuration.at near.now → AddsCommits h reached.now near.now links.old.items links.new.items layer.old layer.new) }
{
    for call in near {
        add_commit(alloc, calls, links, layer, reached, call)?;
    }
    Ok(())
}

/// Adds what may follow the configuration of a place before the return of a call, if that has not committed. The calls that
/// have to do with it are given for a tree with room.
fn follow(
    alloc: Global,
    calls: &[UnderWay],
    near: &[UnderWay],
    links: &mut Vec<Link>,
    layer: &mut Layer,
    place: usize,
    number: u64,
) -> Result<(), AllocError>
    ensures { OnOk result ((h : List Value) (r : Way) → slice_get layer.old place ≡ Some r → AreEach h r.configuration.at calls.now → AreNear number false calls.now near.now
        → Follows h number r calls.now links.old.items links.new.items layer.old layer.new) }
{
    let all = layer.as_slice();
    if all.len() <= place {
        return Ok(());
    }
    let reached = &all[place];
    if reached.configuration.holds(number) {
        return Ok(());
    }
    let reached = reached.copy(alloc)?;
    if reached.configuration.has_room(calls.len()) {
        return Ok(add_commits(alloc, calls, near, links, layer, &reached)?);
    }
    let near = meeting::near(alloc, calls, number, true)?;
    Ok(add_commits(alloc, calls, &near, links, layer, &reached)?)
}

/// Whether all of a layer were found to have committed a call.
fn all_hold(layer: &[Reached], number: u64) -> bool
    ensures { result ≡ true → (r : Way) → Contains layer.now r → is_in number r.configuration.held ≡ true }
{
    for reached in layer {
        if !reached.configuration.holds(number) {
            return false;
        }
    }
    true
}

/// Adds all that comes of a layer by commits before the return of a call; false where more configurations than may be are there.
fn widen_before(
    alloc: Global,
    calls: &[UnderWay],
    links: &mut Vec<Link>,
    layer: &mut Layer,
    number: u64,
    most: usize,
) -> Result<bool, AllocError>
    ensures room { IfOk result (λ whole. whole ≡ true → length layer.new ≤ most) }
    ensures widens { IfOk result (λ whole. (h : List Value) (at : ℕ) → AllAt at layer.old → AreEach h at calls.now
        → WidensBefore h number at calls.now links.old.items links.new.items layer.old layer.new whole most) }
{
    if all_hold(layer.as_slice(), number) {
        return Ok(layer.len() <= most);
    }
    let near = meeting::near(alloc, calls, number, false)?;
    for place in 0..most {
        if place >= layer.len() {
            return Ok(true);
        }
        follow(alloc, calls, &near, links, layer, place, number)?;
    }
    Ok(false)
}

/// Adds all that has to come of a layer before an entry; false where more configurations than may be are there.
pub fn widen(
    alloc: Global,
    calls: &[UnderWay],
    links: &mut Vec<Link>,
    layer: &mut Layer,
    entry: &Heard,
    most: usize,
) -> Result<bool, AllocError>
    ensures room { IfOk result (λ whole. whole ≡ true → length layer.new ≤ most) }
    ensures widens { IfOk result (λ whole. (h : List Value) (at : ℕ) → AllAt at layer.old → AreEach h at calls.now
        → WidensFor h entry.now at calls.now links.old.items links.new.items layer.old layer.new whole most) }
{
    match entry {
        Heard::Begin(_, _, _) => Ok(layer.len() <= most),
        Heard::Return(number, _) => Ok(widen_before(
            alloc,
            calls,
            links,
            layer,
            number.get(),
            most,
        )?),
    }
}
