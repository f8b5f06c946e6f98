//! Calls that commit.

ghost use Rattle.std.specs.Prelude.{◌≡◌, ◌↔◌, List, true, option_copied, IfOk};
ghost use Rattle.fs_linearize_histories.specs.Early.{leaves_trees, tells_error, is_quiet};
ghost use Rattle.fs_linearize_histories.specs.declared.heard.Heard.{Heard as Value};
ghost use Rattle.fs_linearize_configurations.specs.code.Calls.{FitsKnown, CommitsNow, CanCommitQuietly, IsUnderWay, AreEach};
ghost use Rattle.fs_linearize_configurations.specs.code.Searching.{SettlesTo};

use crate::configuration::Configuration;
use crate::reached::Reached;
use crate::steps::Link;
use crate::under_way::UnderWay;
use crate::{meeting, numbers};
use fs_calls::{Call, Reply};
use fs_linearize_histories::Pattern;
use std::alloc::{AllocError, Global};

/// Whether a reply matches what is known of it, if anything.
pub fn fits(known: Option<&Pattern>, reply: &Reply) -> bool
    ensures { result ≡ true ↔ FitsKnown (option_copied known.entry) reply.now }
{
    match known {
        Some(pattern) => pattern.matches(reply),
        None => true,
    }
}

/// Commits a pending call, if it can.
pub(crate) fn commit(
    alloc: Global,
    x: &Configuration,
    call: &UnderWay,
) -> Result<Option<Configuration>, AllocError>
    ensures { IfOk result (CommitsNow x.now call.now) }
{
    if x.holds(call.number) {
        return Ok(None);
    }
    let reply = x.tree.reply(alloc, call.call)?;
    if !fits(call.known, &reply) {
        return Ok(None);
    }
    let tree = x.tree.after(alloc, call.call, &reply)?;
    let held = numbers::with(alloc, &x.held, call.number)?;
    Ok(Some(Configuration {
        at: x.at,
        tree,
        held,
    }))
}

/// Whether a call changes no tree.
fn leaves_trees(call: &Call) -> bool
    ensures { result ≡ leaves_trees call.now }
{
    match call {
        Call::Mkdir(_) | Call::Mknod(_) | Call::Unlink(_) | Call::Rmdir(_) => false,
        Call::Rename(path, other) | Call::Exchange(path, other) => path.same(other),
        Call::Stat(_) | Call::Readdir(_) | Call::ListAfter(_, _, _) | Call::Read(_, _, _) => true,
        Call::Write(_, _, bytes) => bytes.as_slice().is_empty(),
        Call::Truncate(_, _) => false,
    }
}

/// Whether what is known of a reply is that it is an error.
fn tells_error(pattern: &Pattern) -> bool
    ensures { result ≡ tells_error pattern.now }
{
    matches!(
        pattern,
        Pattern::AnyError | Pattern::OneOf(_) | Pattern::Exactly(Reply::Failed(_))
    )
}

/// Whether a call of whose reply this is known changes no tree on which it gets such a reply.
pub fn is_quiet(call: &Call, pattern: &Pattern) -> bool
    ensures { result ≡ is_quiet call.now pattern.now }
{
    leaves_trees(call) || tells_error(pattern)
}

/// Whether a pending call is quiet and was found to be one that can commit.
fn commits_quietly(alloc: Global, x: &Configuration, call: &UnderWay) -> Result<bool, AllocError>
    ensures { IfOk result (λ can. can ≡ true → CanCommitQuietly x.now call.now) }
{
    let Some(pattern) = call.known else {
        return Ok(false);
    };
    if !is_quiet(call.call, pattern) {
        return Ok(false);
    }
    if x.holds(call.number) {
        return Ok(false);
    }
    let reply = x.tree.reply(alloc, call.call)?;
    Ok(pattern.matches(&reply))
}

/// Commits a pending call early, if it is quiet and can commit.
fn settle_one(
    alloc: Global,
    links: &mut Vec<Link>,
    reached: Reached,
    call: &UnderWay,
) -> Result<Reached, AllocError>
    ensures { IfOk result (λ settled. (h : List Value) → IsUnderWay h reached.configuration.at call.now → SettlesTo h links.old.items links.new.items reached settled) }
{
    if !commits_quietly(alloc, &reached.configuration, call)? {
        return Ok(reached);
    }
    links.push(Link {
        number: call.number,
        at: reached.configuration.passed_count(),
        before: reached.last,
    })?;
    Ok(Reached {
        configuration: reached.configuration.hold(alloc, call.number)?,
        last: links.len(),
    })
}

/// Commits early a pending call that meets one, if it can. What any other is replied has not changed with the commit of
/// that one.
fn settle_met(
    alloc: Global,
    links: &mut Vec<Link>,
    reached: Reached,
    call: &UnderWay,
    met: &Call,
) -> Result<Reached, AllocError>
    ensures { IfOk result (λ settled. (h : List Value) → IsUnderWay h reached.configuration.at call.now → SettlesTo h links.old.items links.new.items reached settled) }
{
    if meeting::calls_meet(false, met, call.call) {
        Ok(settle_one(alloc, links, reached, call)?)
    } else {
        Ok(reached)
    }
}

/// Commits early what can of the pending calls that meet one that has committed.
pub(crate) fn settle(
    alloc: Global,
    calls: &[UnderWay],
    links: &mut Vec<Link>,
    reached: Reached,
    met: &Call,
) -> Result<Reached, AllocError>
    ensures { IfOk result (λ settled. (h : List Value) → AreEach h reached.configuration.at calls.now → SettlesTo h links.old.items links.new.items reached settled) }
{
    let mut now = reached;
    for call in calls {
        now = settle_met(alloc, links, now, call, met)?;
    }
    Ok(now)
}

/// Commits early the call that began last, if it can.
pub(crate) fn settle_newest(
    alloc: Global,
    calls: &[UnderWay],
    links: &mut Vec<Link>,
    reached: Reached,
) -> Result<Reached, AllocError>
    ensures { IfOk result (λ settled. (h : List Value) → AreEach h reached.configuration.at calls.now → SettlesTo h links.old.items links.new.items reached settled) }
{
    match calls.last() {
        Some(call) => Ok(settle_one(alloc, links, reached, call)?),
        None => Ok(reached),
    }
}
