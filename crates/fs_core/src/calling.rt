//! Calls from their begin to their return.

ghost use Rattle.std.specs.Prelude.{ℕ, ◌≡◌, ◌≢◌, ◌<◌, ◌≤◌, length, Err, IfOk, IfErr, IsSome, MatchBool};
ghost use Rattle.fs_laws.specs.OneCall.{StepsTo, MeetsTree};
ghost use Rattle.fs_machine.specs.declared.answers.Refusal.TheVariants.{OutOfMemory};
ghost use Rattle.fs_core.specs.CoreValues.{state_of, IsAtRest};
ghost use Rattle.fs_core.specs.Calls.{Steps, IsWaiting, Runs, IsNotDone};

use crate::engine::Core;
use fs_calls::{Call, Reply};
use fs_machine::{Refusal, Stepped};
use fs_names::{CallNo, SeatNo};
use std::alloc::Global;

/// A call that returned: its number, and its reply.
#[derive(Drop)]
pub struct Answer {
    pub call: CallNo,
    pub reply: Reply,
}

/// Why a call did not return.
#[derive(Clone, Copy, Debug, PartialEq, Eq)]
pub enum NotDone {
    /// There is no such seat, and nothing has changed.
    NoSeat,
    /// The call did not begin, and nothing has changed.
    Refused(Refusal),
    /// The call of the first number is pending on its seat, and waits for a node that the call of the second holds.
    Waits(CallNo, CallNo),
}

impl Core {
    /// Whether there is this seat.
    pub fn has_seat(&self, seat: SeatNo) -> bool
        ensures { MatchBool result (seat < length self.now.seats) (length self.now.seats ≤ seat) }
    {
        seat.get() < self.seats() as u64
    }

    /// Steps of a seat with a pending call, until it returns or waits: its reply, or the number of the call it waits for.
    pub fn finish(&mut self, seat: SeatNo) -> Result<Reply, CallNo>
        requires seat { seat < length self.old.seats }
        requires under_way { IsSome ((state_of self.old).on_seat seat) }
        ensures returned { IfOk result (λ reply. StepsTo seat reply (state_of self.new) (state_of self.old)) }
        ensures waits { IfErr result (λ holder. Steps seat (state_of self.old) (state_of self.new) × IsWaiting (state_of self.new) seat holder) }
        ensures refusals { self.new.refusals ≡ self.old.refusals }
        ensures seats { length self.new.seats ≡ length self.old.seats }
    {
        'steps: loop {
            self.told();
            match self.step(seat) {
                Stepped::Returned(reply) => return Ok(reply),
                Stepped::Busy(_, holder) => return Err(holder),
                _ => {}
            }
        }
    }

    /// Runs a call on a seat, from its begin to its return. If no call is pending, that is what the sequential tree does: the reply and
    /// the change are those of the call on the tree that the nodes spell, and the call never waits. If it comes to a node that a call of
    /// another seat holds, it stays pending on its seat, and steps of that seat go on with it.
    pub fn call(&mut self, alloc: Global, seat: SeatNo, call: &Call) -> Result<Answer, NotDone>
        ensures alone { IfOk result (λ answer. IsAtRest self.old → MeetsTree (state_of self.old) call.now answer.reply (state_of self.new)) }
        ensures never_waits { IsAtRest self.old → (number holder : ℕ) → result ≢ Err (NotDone.Waits number holder) }
        ensures returned { IfOk result (λ answer. Runs (state_of self.old) seat call.now answer.call answer.reply (state_of self.new)) }
        ensures unreturned { IfErr result (λ why. IsNotDone self.old seat call.now why self.new) }
        ensures seats { length self.new.seats ≡ length self.old.seats }
        ensures granted { result ≢ Err (NotDone.Refused OutOfMemory) → self.new.refusals ≡ self.old.refusals }
        ensures refused { result ≡ Err (NotDone.Refused OutOfMemory) → self.new.refusals ≢ self.old.refusals }
    {
        if !self.has_seat(seat) {
            return Err(NotDone::NoSeat);
        }
        self.told_of_progress();
        let number = match self.begin(alloc, seat, call) {
            Ok(number) => number,
            Err(refusal) => return Err(NotDone::Refused(refusal)),
        };
        match self.finish(seat) {
            Ok(reply) => Ok(Answer {
                call: number,
                reply,
            }),
            Err(holder) => {
                self.told();
                Err(NotDone::Waits(number, holder))
            }
        }
    }
}
