//! A tree that forgets by itself: before a call it forgets those before, where they are more than it is to keep.

ghost use Rattle.std.specs.Prelude.{◌≡◌, ◌≢◌, Ok, Err, IfOk, IfErr, OnErr, MatchBool, length};
ghost use Rattle.fs_core.specs.Checkpoints.{IsWhyNot};
ghost use Rattle.fs_embed.specs.Requests.{asked};
ghost use Rattle.fs_embed.specs.Calls.{BeginsCall, IsNotBegun, RunsCall, IsNotReturned};
ghost use Rattle.fs_embed.specs.Keeping.{IsForgotten, calls, IsOver, Keeps, After};

use crate::calls::{NotBegun, NotReturned, Returned, begin_call, run_call};
use crate::request::Request;
use fs_core::{Core, NoCheckpoint};
use fs_names::{CallNo, SeatNo};
use std::alloc::Global;

/// Whether there are more calls than are to be kept.
fn is_over(core: &Core, most: Option<u64>) -> bool
    ensures { MatchBool result (IsOver most core.now) (IsOver most core.now → ⊥) }
{
    match most {
        Some(most) => most < core.commits() as u64,
        None => false,
    }
}

/// Forgets the calls of a core if there are more than are to be kept, and none is pending, and answers how many it
/// forgot. With `None` all are kept. An error says why it did not forget calls, although there were more. Then nothing
/// has changed but that a refusal of memory is counted, and it can be tried again.
#[tactic(auto, using(crate::proofs::KeepingLemmas::keeps_by))]
pub fn keep_last(alloc: Global, core: &mut Core, most: Option<u64>) -> Result<u64, NoCheckpoint>
    ensures kept { Keeps most core.old core.new }
    ensures forgot { IsOver most core.old → IfOk result (λ count. (count ≡ calls core.old) × IsForgotten core.old core.new) }
    ensures few { (IsOver most core.old → ⊥) → (result ≡ Ok 0) × (core.new ≡ core.old) }
    ensures why { IfErr result (IsWhyNot core.old) }
    ensures err { OnErr result (core.new ≡ record core.old { refusals = core.new.refusals }) }
    ensures granted { result ≢ Err NoCheckpoint.OutOfMemory → core.new.refusals ≡ core.old.refusals }
    ensures refused { result ≡ Err NoCheckpoint.OutOfMemory → core.new.refusals ≢ core.old.refusals }
    ensures seats { core.new.seats ≡ core.old.seats }
{
    if is_over(core, most) {
        return core.forget_counted(alloc);
    }
    Ok(0)
}

/// Begins the call that is asked for on a seat, after the core has forgotten what it may, and answers its number.
pub fn begin_kept(
    alloc: Global,
    core: &mut Core,
    most: Option<u64>,
    seat: SeatNo,
    request: Request,
) -> Result<CallNo, NotBegun>
    ensures begun { IfOk result (λ number. After most (λ a b. BeginsCall a seat (asked request.entry) number b) core.old core.new) }
    ensures refused { IfErr result (λ why. After most (λ a b. IsNotBegun a seat (asked request.entry) why b) core.old core.new) }
    ensures seats { length core.new.seats ≡ length core.old.seats }
{
    let _forgot = keep_last(alloc, core, most);
    begin_call(alloc, core, seat, request)
}

/// Runs the call that is asked for on a seat, after the core has forgotten what it may, from its begin to its return.
/// Only earlier calls were forgotten: the reply of this one is in the timeline.
pub fn run_kept(
    alloc: Global,
    core: &mut Core,
    most: Option<u64>,
    seat: SeatNo,
    request: Request,
) -> Result<Returned, NotReturned>
    ensures returned { IfOk result (λ done. After most (λ a b. RunsCall a seat (asked request.entry) done.number done.reply b) core.old core.new) }
    ensures unreturned { IfErr result (λ why. After most (λ a b. IsNotReturned a seat (asked request.entry) why b) core.old core.new) }
    ensures seats { length core.new.seats ≡ length core.old.seats }
{
    let _forgot = keep_last(alloc, core, most);
    run_call(alloc, core, seat, request)
}
