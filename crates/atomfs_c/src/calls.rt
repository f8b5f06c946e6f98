//! The exports that begin calls and step them, and what runs a call on a handle.

ghost use Rattle.std.specs.Prelude.{◌≡◌, ◌≢◌, ◌≤◌, ◌<◌, ◌⊎◌, IfErr, length};
ghost use Rattle.fs_embed.specs.Requests.{asked, call_in};
ghost use Rattle.fs_embed.specs.Numbered.{asked_by};
ghost use Rattle.fs_embed.specs.Calls.{StepsAs};
ghost use Rattle.fs_embed.specs.Statuses.{IsRefusal, IsOfBegin};
ghost use Rattle.atomfs_c.specs.Exports.{Goes, ToldIfClosed, IsLawful, IsSpelled, IsBegun, StepsAny, ComesCloser, Comes, to_keep};

use crate::handles::{Handle, put, take};
use fs_calls::Reply;
use fs_embed::numbered::{request_of, to_keep};
use fs_embed::status::{CLOSED, NO_SEAT, OK, WAITS, begin_status};
use fs_embed::told::tell_why;
use fs_embed::{Request, begin_kept, run_kept, step_any, step_seat};
use fs_names::SeatNo;
use std::alloc::Global;

/// Begins the call that is asked for on a handle, and reports its number.
fn begin(alloc: Global, handle: &mut Handle, seat: u64, request: Request, number: &mut u64) -> u8
    ensures begun { IsBegun (to_keep handle.old.most) (asked request.entry) seat result number.new handle.old.held.core handle.new.held.core }
    ensures only { IsOfBegin result }
    ensures untouched { result ≢ OK → number.new ≡ number.old }
    ensures lawful { IsLawful handle.new.held.core }
    ensures spelled { IsSpelled handle.new.held.core }
    ensures keeps { handle.new.most ≡ handle.old.most }
{
    let Some(mut core) = take(alloc, handle) else {
        return CLOSED;
    };
    let most = to_keep(handle.most);
    let begun = begin_kept(alloc, &mut core, most, SeatNo::new(seat), request);
    put(handle, core);
    match begun {
        Ok(call) => {
            *number = call.get();
            OK
        }
        Err(why) => begin_status(why),
    }
}

/// Begins the call that a line spells on a seat, and reports its number.
#[unsafe(no_mangle)]
pub extern "C" fn atomfs_begin(
    alloc: Global,
    handle: &mut Handle,
    seat: u64,
    line: &[u8],
    number: &mut u64,
) -> u8
    ensures begun { IsBegun (to_keep handle.old.most) (call_in line.now) seat result number.new handle.old.held.core handle.new.held.core }
    ensures only { IsOfBegin result }
    ensures untouched { result ≢ OK → number.new ≡ number.old }
    ensures lawful { IsLawful handle.new.held.core }
    ensures spelled { IsSpelled handle.new.held.core }
    ensures keeps { handle.new.most ≡ handle.old.most }
{
    begin(alloc, handle, seat, Request::Line(line), number)
}

/// Begins the call that is asked for by a number and what may come with it on a seat, and reports its number.
#[unsafe(no_mangle)]
pub extern "C" fn atomfs_begin_call(
    alloc: Global,
    handle: &mut Handle,
    seat: u64,
    call: u8,
    path: &[u8],
    other: &[u8],
    off: u64,
    size: u64,
    bytes: &[u8],
    number: &mut u64,
) -> u8
    ensures begun { IsBegun (to_keep handle.old.most) (asked_by call path.now other.now off size bytes.now) seat result number.new handle.old.held.core handle.new.held.core }
    ensures only { IsOfBegin result }
    ensures untouched { result ≢ OK → number.new ≡ number.old }
    ensures lawful { IsLawful handle.new.held.core }
    ensures spelled { IsSpelled handle.new.held.core }
    ensures keeps { handle.new.most ≡ handle.old.most }
{
    let request = request_of(call, path, other, off, size, bytes);
    begin(alloc, handle, seat, request, number)
}

/// Does one step of the call on a seat, and reports which answer it was and which call or node it is about.
#[unsafe(no_mangle)]
pub extern "C" fn atomfs_step(
    alloc: Global,
    handle: &mut Handle,
    seat: u64,
    did: &mut u8,
    about: &mut u64,
) -> u8
    ensures only { (result ≡ OK) ⊎ (result ≡ CLOSED) ⊎ (result ≡ NO_SEAT) }
    ensures untouched { result ≢ OK → (did.new ≡ did.old) × (about.new ≡ about.old) }
    ensures stepped { result ≡ OK → Goes (λ old new. StepsAs old seat did.new about.new new) handle.old.held.core handle.new.held.core }
    ensures refused { IsRefusal result → Goes (λ old new. (result ≡ NO_SEAT) × (length old.seats ≤ seat) × (new ≡ old)) handle.old.held.core handle.new.held.core }
    ensures closed { ToldIfClosed result handle.old.held.core handle.new.held.core }
    ensures lawful { IsLawful handle.new.held.core }
    ensures spelled { IsSpelled handle.new.held.core }
    ensures keeps { handle.new.most ≡ handle.old.most }
{
    let Some(mut core) = take(alloc, handle) else {
        return CLOSED;
    };
    let step = step_seat(&mut core, SeatNo::new(seat));
    put(handle, core);
    match step {
        Some(step) => {
            *did = step.code;
            *about = step.about;
            OK
        }
        None => NO_SEAT,
    }
}

/// Does one step of a call that does not wait, whichever it is. It reports the seat, which answer it was, and which
/// call or node it is about. If no call is pending, it reports an idle step, and no seat. So calls never wait for each
/// other without end. Each step leaves fewer, and a begin adds two for each name of its paths and twelve, so a loop ends.
#[unsafe(no_mangle)]
pub extern "C" fn atomfs_step_any(
    alloc: Global,
    handle: &mut Handle,
    seat: &mut u64,
    did: &mut u8,
    about: &mut u64,
) -> u8
    ensures only { (result ≡ OK) ⊎ (result ≡ CLOSED) }
    ensures untouched { result ≢ OK → (seat.new ≡ seat.old) × (did.new ≡ did.old) × (about.new ≡ about.old) }
    ensures never_stuck { result ≡ OK → Goes (λ old new. StepsAny old seat.old seat.new did.new about.new new) handle.old.held.core handle.new.held.core }
    ensures ends { result ≡ OK → Goes (λ old new. ComesCloser old did.new new) handle.old.held.core handle.new.held.core }
    ensures closed { ToldIfClosed result handle.old.held.core handle.new.held.core }
    ensures lawful { IsLawful handle.new.held.core }
    ensures spelled { IsSpelled handle.new.held.core }
    ensures keeps { handle.new.most ≡ handle.old.most }
{
    let Some(mut core) = take(alloc, handle) else {
        return CLOSED;
    };
    let step = step_any(&mut core);
    put(handle, core);
    match step {
        Some((number, told)) => {
            *seat = number.get();
            *did = told.code;
            *about = told.about;
        }
        None => {
            *did = 0;
            *about = 0;
        }
    }
    OK
}

/// Runs the call that is asked for on a handle, from its begin to its return, and reports its number. The error is the
/// number of the reason why it did not return. If it waits for a call of another seat, it stays pending.
pub fn run(
    alloc: Global,
    handle: &mut Handle,
    seat: u64,
    request: Request,
    number: &mut u64,
) -> Result<Reply, u8>
    ensures came { Comes (to_keep handle.old.most) (asked request.entry) seat result number.new handle.old.held.core handle.new.held.core }
    ensures unnumbered { IfErr result (λ status. status ≢ WAITS → number.new ≡ number.old) }
    ensures lawful { IsLawful handle.new.held.core }
    ensures spelled { IsSpelled handle.new.held.core }
    ensures keeps { handle.new.most ≡ handle.old.most }
{
    let Some(mut core) = take(alloc, handle) else {
        return Err(CLOSED);
    };
    let most = to_keep(handle.most);
    let ran = run_kept(alloc, &mut core, most, SeatNo::new(seat), request);
    put(handle, core);
    match ran {
        Ok(done) => {
            *number = done.number.get();
            Ok(done.reply)
        }
        Err(why) => Err(tell_why(&why, number)),
    }
}
