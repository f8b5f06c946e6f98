//! Calls that a caller asks for: their begins, their steps and whole runs of them.

ghost use Rattle.std.specs.Prelude.{◌≡◌, ◌<◌, ◌≤◌, ℕ, length, IfOk, OnOk, IfErr, IfSome, MatchOption};
ghost use Rattle.fs_machine.specs.States.{Step};
ghost use Rattle.fs_core.specs.CoreValues.{state_of, IsAtRest};
ghost use Rattle.fs_embed.specs.Requests.{asked};
ghost use Rattle.fs_embed.specs.Calls.{BeginsCall, IsNotBegun, RunsCall, IsNotReturned, StepsAs, StandsStill, GoesOnAs, LeavesFewer, LeavesNone, code_of, about_of};

use crate::request::{Request, has_call};
use fs_calls::Reply;
use fs_core::{Core, Refusal, Stepped};
use fs_names::{CallNo, SeatNo};
use fs_text::FaultKind;
use std::alloc::Global;

/// Why a call that was asked for did not begin. Nothing has changed by it.
#[derive(Clone, Copy, Debug, PartialEq, Eq)]
pub enum NotBegun {
    /// There is no such seat.
    NoSeat,
    /// What was asked for is no call: what is wrong with it, or out of memory as it was read.
    Unread(FaultKind),
    /// The limits of the tree have no such call.
    NoSuchCall,
    /// The core refused the call.
    Refused(Refusal),
}

/// A call that returned: its number, and its reply.
#[derive(Drop)]
pub struct Returned {
    pub number: CallNo,
    pub reply: Reply,
}

/// Why a call that was asked for did not return.
#[derive(Clone, Copy, Debug, PartialEq, Eq)]
pub enum NotReturned {
    /// It did not begin, and nothing has changed.
    NotBegun(NotBegun),
    /// The call of the first number is pending on its seat, and waits for a node that the call of the second holds.
    Waits(CallNo, CallNo),
}

/// What a step did, as numbers: which answer it was, and what it speaks of (the call that holds the node or that was
/// helped, else the node, else 0).
#[derive(Clone, Copy, Debug, PartialEq, Eq)]
pub struct StepTold {
    pub code: u8,
    pub about: u64,
}

/// Begins the call that is asked for on a seat, and answers its number. Whether there is the seat is looked at first, then what
/// was asked for, then whether the limits have the call: all of that before anything begins.
pub fn begin_call(
    alloc: Global,
    core: &mut Core,
    seat: SeatNo,
    request: Request,
) -> Result<CallNo, NotBegun>
    ensures begun { IfOk result (λ number. BeginsCall core.old seat (asked request.entry) number core.new) }
    ensures seat { OnOk result (seat < length core.old.seats) }
    ensures refused { IfErr result (λ why. IsNotBegun core.old seat (asked request.entry) why core.new) }
    ensures seats { length core.new.seats ≡ length core.old.seats }
{
    if !core.has_seat(seat) {
        return Err(NotBegun::NoSeat);
    }
    let limits = core.start().limits();
    let call = match request.call(alloc, limits) {
        Ok(call) => call,
        Err(kind) => return Err(NotBegun::Unread(kind)),
    };
    if !has_call(limits, &call) {
        return Err(NotBegun::NoSuchCall);
    }
    core.told_of_progress();
    match core.begin(alloc, seat, &call) {
        Ok(number) => Ok(number),
        Err(refusal) => Err(NotBegun::Refused(refusal)),
    }
}

/// Runs the call that is asked for on a seat, from its begin to its return. If it comes to a node that a call of
/// another seat holds, it stays pending there, and `step_seat` goes on with it.
pub fn run_call(
    alloc: Global,
    core: &mut Core,
    seat: SeatNo,
    request: Request,
) -> Result<Returned, NotReturned>
    ensures returned { IfOk result (λ done. RunsCall core.old seat (asked request.entry) done.number done.reply core.new) }
    ensures unreturned { IfErr result (λ why. IsNotReturned core.old seat (asked request.entry) why core.new) }
    ensures seats { length core.new.seats ≡ length core.old.seats }
{
    let number = match begin_call(alloc, core, seat, request) {
        Ok(number) => number,
        Err(why) => return Err(NotReturned::NotBegun(why)),
    };
    match core.finish(seat) {
        Ok(reply) => Ok(Returned { number, reply }),
        Err(holder) => Err(NotReturned::Waits(number, holder)),
    }
}

impl StepTold {
    /// What a step did.
    pub fn of(stepped: &Stepped) -> StepTold
        ensures code { result.code ≡ code_of stepped.now }
        ensures about { result.about ≡ about_of stepped.now }
    {
        let (code, about) = match stepped {
            Stepped::Idle => (0, 0),
            Stepped::Took(node) => (1, node.get() as u64),
            Stepped::Busy(_, holder) => (2, holder.get()),
            Stepped::LetGo(node) => (3, node.get() as u64),
            Stepped::Helped(helped) => (4, helped.get()),
            Stepped::Committed => (5, 0),
            Stepped::CarriedOut => (6, 0),
            Stepped::Returned(_) => (7, 0),
        };
        StepTold { code, about }
    }
}

/// Does one step of the call on a seat, if there is such a seat.
pub fn step_of(core: &mut Core, seat: SeatNo) -> Option<Stepped>
    ensures step { MatchOption result ((length core.old.seats ≤ seat) × (core.new ≡ core.old)) (λ stepped. Step (state_of core.old) seat stepped (state_of core.new)) }
    ensures seats { length core.new.seats ≡ length core.old.seats }
{
    if !core.has_seat(seat) {
        return None;
    }
    Some(core.step(seat))
}

/// Does one step of the call on a seat, and answers what it did; `None` if there is no such seat.
pub fn step_seat(core: &mut Core, seat: SeatNo) -> Option<StepTold>
    ensures step { MatchOption result ((length core.old.seats ≤ seat) × (core.new ≡ core.old)) (λ step. StepsAs core.old seat step.code step.about core.new) }
    ensures seats { length core.new.seats ≡ length core.old.seats }
{
    if !core.has_seat(seat) {
        return None;
    }
    Some(StepTold::of(&core.step(seat)))
}

/// Does the step of a seat with which its call goes on, and answers what it did; `None` if the call waits, or there is
/// none.
fn step_on(core: &mut Core, seat: SeatNo) -> Option<StepTold>
    requires seat { seat < length core.old.seats }
    ensures step { MatchOption result (StandsStill (state_of core.old) seat × (state_of core.new ≡ state_of core.old)) (λ step. GoesOnAs core.old seat step.code step.about core.new) }
    ensures seats { length core.new.seats ≡ length core.old.seats }
{
    match core.step(seat) {
        Stepped::Idle => None,
        Stepped::Busy(_, _) => None,
        stepped => Some(StepTold::of(&stepped)),
    }
}

/// Does one step of a call that does not wait, and answers its seat and what it did. It is the first seat whose call
/// goes on. `None` comes exactly if no call is pending, so calls never wait for each other without end. Each step leaves at
/// least one step less, and a begin adds two for each name of its paths and twelve. So a loop of such steps ends.
pub fn step_any(core: &mut Core) -> Option<(SeatNo, StepTold)>
    ensures never_stuck { MatchOption result (IsAtRest core.old × (state_of core.new ≡ state_of core.old)) (λ went. GoesOnAs core.old went.0 went.1.code went.1.about core.new) }
    ensures fewer { MatchOption result (LeavesNone core.new) (λ _. LeavesFewer core.old core.new) }
    ensures first { IfSome result (λ went. (seat : ℕ) → seat < went.0 → StandsStill (state_of core.old) seat) }
    ensures seats { length core.new.seats ≡ length core.old.seats }
{
    core.told_of_progress();
    core.told_of_numbers();
    let seats = core.seats() as u64;
    for number in 0..seats {
        let seat = SeatNo::new(number);
        if let Some(step) = step_on(core, seat) {
            return Some((seat, step));
        }
    }
    None
}
