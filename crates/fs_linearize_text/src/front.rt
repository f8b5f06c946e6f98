//! The front of a history that no journal explains, up to the first return that nothing explains.

ghost use Rattle.std.specs.Prelude.{◌≡◌, ◌≢◌, ℕ, map, Some, Ok, IfOk, IfErr, IfSome, IfNone};
ghost use Rattle.fs_linearize_histories.specs.Histories.{HasNoOrder};
ghost use Rattle.fs_linearize.specs.Results.{IsReturnAt};
ghost use Rattle.fs_verdict.specs.InputFaults.{IsFaultOf};
ghost use Rattle.fs_linearize_text.specs.Texts.{history_by};
ghost use Rattle.fs_linearize_histories.specs.declared.heard.Heard.TheVariants as heard;
ghost use Rattle.fs_linearize_text.specs.Answers.{outcome_of, shown_error, shown};
ghost use Rattle.fs_linearize_text.specs.declared.answer.Outcome.TheVariants.{Lawful};
ghost use Rattle.fs_linearize_text.specs.Findings.{IsFrontText, IsFrontLimited};
ghost use Rattle.fs_linearize_text.specs.code.Fronts.{IsCutAt, IsFrontBehind, IsNoneBehind};

use crate::answer::journal_text;
use crate::history::{History, history_by};
use fs_calls::{Errno, Reply};
use fs_linearize::{Found, Progress, linearize};
use fs_linearize_dialects::Dialect;
use fs_linearize_histories::{Errors, Heard, Pattern};
use fs_names::{CallNo, Kind};
use fs_seq::SeqTree;
use fs_timeline::Entry;
use fs_verdict::RunFault;
use std::alloc::{AllocError, Global};

/// The first of errors, as a reply.
fn shown_error(errors: &Errors) -> Reply
    ensures { result ≡ shown_error errors.now }
{
    match errors.as_slice() {
        [first, ..] => Reply::Failed(*first),
        [] => Reply::Done,
    }
}

/// A reply of which this is known. No text says which a reply is not.
fn shown(pattern: Pattern) -> Reply
    ensures { result ≡ shown pattern }
{
    match pattern {
        Pattern::Exactly(reply) => reply,
        Pattern::AnyError => Reply::Failed(Errno::Enoent),
        Pattern::OneOf(errors) => shown_error(&errors),
        Pattern::AnyDirectory => Reply::Stat(Kind::Dir, 0),
        Pattern::Except(_) | Pattern::Anything => Reply::Done,
    }
}

/// The entry of a place, counted from 1, and those before it.
#[tactic(auto, using(crate::proofs::FrontLemmas::cut_made))]
fn cut_at(entries: Vec<Heard>, place: usize) -> (Vec<Heard>, Option<Heard>)
    ensures { IsCutAt entries.items place result.0.items result.1 }
{
    let mut before = entries;
    before.truncate(place);
    let last = before.pop();
    (before, last)
}

/// The journal that was found, if one was.
fn lawful(found: Found) -> Option<Vec<Entry>>
    ensures some { IfSome result (λ journal. found ≡ Found.Lawful journal) }
    ensures none { IfNone result (outcome_of found ≢ Lawful) }
{
    match found {
        Found::Lawful(journal) => Some(journal),
        _ => None,
    }
}

/// The text of a journal that explains entries from a start tree, with a return behind it; none where the limit is reached.
#[tactic(auto, using(crate::proofs::FrontLemmas::front_behind, crate::proofs::FrontLemmas::none_behind))]
fn text_behind<P: Progress>(
    alloc: Global,
    start: &SeqTree,
    before: Vec<Heard>,
    number: CallNo,
    pattern: Pattern,
    limit: usize,
    progress: &mut P,
) -> Result<Option<Vec<u8>>, AllocError>
    ensures some { IfOk result (λ told. IfSome told (λ text. IsFrontBehind start.now before.items (Some (heard.Return number pattern)) text.items)) }
    ensures none { IfOk result (λ told. IfNone told (IsNoneBehind start.now before.items (Some (heard.Return number pattern)) limit)) }
{
    let found = linearize(alloc, start, before, limit, progress)?;
    let Some(mut journal) = lawful(found) else {
        return Ok(None);
    };
    journal.push(Entry::Return(number, shown(pattern)))?;
    Ok(Some(journal_text(alloc, start, &journal)?))
}

/// The same, where the entry is a return.
#[tactic(auto, using(crate::proofs::FrontLemmas::no_return))]
fn text_with<P: Progress>(
    alloc: Global,
    start: &SeqTree,
    before: Vec<Heard>,
    last: Heard,
    limit: usize,
    progress: &mut P,
) -> Result<Option<Vec<u8>>, AllocError>
    ensures some { IfOk result (λ told. IfSome told (λ text. IsFrontBehind start.now before.items (Some last) text.items)) }
    ensures none { IfOk result (λ told. IfNone told (IsNoneBehind start.now before.items (Some last) limit)) }
{
    match last {
        Heard::Begin(_, _, _) => Ok(None),
        Heard::Return(number, pattern) => {
            text_behind(alloc, start, before, number, pattern, limit, progress)
        }
    }
}

/// The same, where there is an entry.
#[tactic(auto, using(crate::proofs::FrontLemmas::no_return))]
fn front_text<P: Progress>(
    alloc: Global,
    start: &SeqTree,
    before: Vec<Heard>,
    last: Option<Heard>,
    limit: usize,
    progress: &mut P,
) -> Result<Option<Vec<u8>>, AllocError>
    ensures some { IfOk result (λ told. IfSome told (λ text. IsFrontBehind start.now before.items last text.items)) }
    ensures none { IfOk result (λ told. IfNone told (IsNoneBehind start.now before.items last limit)) }
{
    match last {
        Some(last) => text_with(alloc, start, before, last, limit, progress),
        None => Ok(None),
    }
}

/// The text of a journal of what lines tell before the entry of a place, counted from 1, with that return behind it; none where
/// the limit is reached.
#[tactic(auto, using(crate::proofs::FrontLemmas::front_some, crate::proofs::FrontLemmas::front_none))]
pub(crate) fn front_in<P: Progress>(
    alloc: Global,
    lines: &[&[u8]],
    dialect: &Dialect,
    place: usize,
    limit: usize,
    progress: &mut P,
) -> Result<Option<Vec<u8>>, RunFault>
    ensures some { (h : _) → history_by dialect.now (map (λ l. l.now) lines.now) ≡ Ok h → (call : ℕ) → HasNoOrder h.0 h.1 place → IsReturnAt h.1 place call → IfOk result (λ told. IfSome told (λ text. IsFrontText h place call text.items)) }
    ensures none { (h : _) → history_by dialect.now (map (λ l. l.now) lines.now) ≡ Ok h → (call : ℕ) → HasNoOrder h.0 h.1 place → IsReturnAt h.1 place call → IfOk result (λ told. IfNone told (IsFrontLimited h limit place)) }
    ensures err { IfErr result (IsFaultOf (history_by dialect.now (map (λ l. l.now) lines.now))) }
{
    let History { start, entries } = history_by(alloc, lines, dialect)?;
    let (before, last) = cut_at(entries, place);
    match front_text(alloc, &start, before, last, limit, progress) {
        Ok(told) => Ok(told),
        Err(_) => Err(RunFault::OutOfMemory),
    }
}
