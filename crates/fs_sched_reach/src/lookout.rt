//! A witness that looks out for a call.

ghost use Rattle.std.specs.Prelude.{◌≡◌, ◌≤◌, [], List};
ghost use Rattle.fs_sched_witness.specs.declared.moments.Moment.{Moment};
ghost use Rattle.fs_sched_reach.specs.Coming.{begun_at, is_commit, is_commit_step, number_begun};
ghost use Rattle.fs_sched_reach.specs.code.Hearing.{stand_after, stand_begun, Answers, Follows, HasHeard};

use crate::target::Target;
use fs_core::{Core, Stepped};
use fs_names::CallNo;
use fs_sched_witness::{Answer, Moment, Witness};
use std::alloc::AllocError;

/// Where a call stands.
#[derive(Drop)]
pub(crate) enum Stand {
    /// So many calls of its thread are still to begin, the last of which it is.
    Ahead(u64),
    /// It began, with this number, and is to come to its commit.
    Pending(CallNo),
    /// It came as far as it is to, by so many moments.
    Come(u64),
}

/// A witness that looks out for a call, and counts moments.
#[derive(Drop)]
pub(crate) struct Lookout {
    pub(crate) target: Target,
    pub(crate) stand: Stand,
    pub(crate) seen: u64,
}

/// The number of the call of a thread that begins at a moment, if one does.
fn begun_at(seat: usize, moment: &Moment) -> Option<CallNo>
    ensures { result ≡ begun_at seat moment.now }
{
    match moment {
        Moment::Event(told) if told.seat == seat => match &told.answer {
            Answer::Begun(call) => Some(*call),
            _ => None,
        },
        _ => None,
    }
}

/// Whether a step, of the call itself or of another, is the call's commit.
fn is_commit_step(is_own: bool, call: CallNo, stepped: &Stepped) -> bool
    ensures { result ≡ is_commit_step is_own call stepped.now }
{
    match stepped {
        Stepped::Committed => is_own,
        Stepped::Helped(other) => *other == call,
        _ => false,
    }
}

/// Whether a moment is the commit of the call of a thread that is pending with this number.
fn is_commit(seat: usize, call: CallNo, moment: &Moment) -> bool
    ensures { result ≡ is_commit seat call moment.now }
{
    match moment {
        Moment::Event(told) => match &told.answer {
            Answer::Stepped(stepped) => is_commit_step(told.seat == seat, call, stepped),
            _ => false,
        },
        Moment::Checkpoint(_) => false,
    }
}

/// Where the call stands once a call of its thread began.
fn stand_begun(target: &Target, left: u64, call: CallNo, seen: u64) -> Stand
    ensures { result ≡ stand_begun target.now left call seen }
{
    if left > 1 {
        return Stand::Ahead(left - 1);
    }
    if target.to_commit {
        Stand::Pending(call)
    } else {
        Stand::Come(seen)
    }
}

/// Where the call stands after a moment more.
fn stand_after(target: &Target, stand: &Stand, moment: &Moment, seen: u64) -> Stand
    ensures { result ≡ stand_after target.now stand.now moment.now seen }
{
    match stand {
        Stand::Ahead(left) => match begun_at(target.seat, moment) {
            Some(call) => stand_begun(target, *left, call, seen),
            None => Stand::Ahead(*left),
        },
        Stand::Pending(call) if is_commit(target.seat, *call, moment) => Stand::Come(seen),
        Stand::Pending(call) => Stand::Pending(*call),
        Stand::Come(moments) => Stand::Come(*moments),
    }
}

impl Lookout {
    /// Before the first moment.
    pub(crate) fn new(target: Target) -> Lookout
        requires { 1 ≤ target.call }
        ensures target { result.target ≡ target }
        ensures nothing { HasHeard result [] }
    {
        Lookout {
            target,
            stand: Stand::Ahead(target.call),
            seen: 0,
        }
    }

    /// By how many moments after so many the call first came as far as it is to; 0 if it came so far before.
    pub(crate) fn moments_after(&self, before: u64) -> Option<u64>
        ensures { (ms : List Moment) → HasHeard self.now ms → Answers self.now.target ms before result }
    {
        match self.stand {
            Stand::Come(moments) => Some(moments.saturating_sub(before)),
            _ => None,
        }
    }
}

impl Witness for Lookout {
    ghost Told = { λ first lookout moments. Follows first lookout moments };

    #[inline(always)]
    fn begins(&mut self, _calls: usize) {}

    /// No run has so many moments that their number does not fit.
    #[inline]
    fn saw(&mut self, _core: &Core, moment: Moment) -> Result<(), AllocError> {
        let Some(seen) = self.seen.checked_add(1) else {
            return Err(AllocError);
        };
        self.stand = stand_after(&self.target, &self.stand, &moment, seen);
        self.seen = seen;
        Ok(())
    }

    #[inline(always)]
    fn went_on(&mut self, _events: u64, _entries: usize) {}

    #[inline(always)]
    fn has_run(&mut self, _done: u64, _runs: u64) {}
}
