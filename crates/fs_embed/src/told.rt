//! What writes replies, verdicts and faults to a caller's memory.

ghost use Rattle.std.specs.Prelude.{◌≡◌, ◌≢◌, ◌<◌, length};
ghost use Rattle.fs_embed.specs.Statuses.{IsReturned, IsRefusal, IsToldFault, IsToldWhy};
ghost use Rattle.fs_embed.specs.Told.{Tells, LeavesText, IsToldText, IsToldStat, IsToldNames, IsToldBytes, IsToldWrote, IsToldBehind, IsToldVerdict, done_status, is_dir, kind_number};

use crate::calls::NotReturned;
use crate::names::{behind_text, names_text};
use crate::status::{
    NO_MEMORY, OK, TOO_SMALL, UNDER_WAY, UNTOLD, WAITS, begin_status, failed_status, fault_status,
};
use crate::texts::{copy_out, reply_text};
use fs_calls::Reply;
use fs_names::Kind;
use fs_sched::RunFault;
use fs_timeline::{FaultKind, Verdict};
use std::alloc::Global;

/// What is at a path: whether it is a directory, as 1 or 0, and how many entries or bytes it has.
#[repr(C)]
#[derive(Clone, Copy)]
pub struct Stat {
    pub is_dir: u8,
    pub size: u64,
}

/// Writes a text to a caller's bytes if they have room for it, and its length.
pub fn tell(text: &[u8], out: &mut [u8], count: &mut usize) -> u8
    ensures tells { Tells result text.now count.new out.old out.new }
    ensures either { result < UNTOLD }
    ensures untouched { LeavesText result count.old count.new out.old out.new }
{
    *count = text.len();
    if copy_out(text, out) { OK } else { TOO_SMALL }
}

/// Writes the text of a reply to a caller's bytes, and its length.
pub fn tell_text(alloc: Global, reply: &Reply, out: &mut [u8], count: &mut usize) -> u8
    ensures told { IsToldText reply.now result count.new out.old out.new }
    ensures returned { IsReturned result }
    ensures untouched { LeavesText result count.old count.new out.old out.new }
{
    match reply_text(alloc, reply) {
        Ok(text) => tell(text.as_slice(), out, count),
        Err(_) => UNTOLD,
    }
}

/// The status of a call that is done, or failed.
pub fn tell_done(reply: &Reply) -> u8
    ensures told { result ≡ done_status reply.now }
    ensures returned { IsReturned result }
{
    match reply {
        Reply::Done => OK,
        Reply::Failed(errno) => failed_status(*errno),
        _ => UNTOLD,
    }
}

fn is_dir(kind: Kind) -> u8
    ensures { result ≡ is_dir kind }
{
    match kind {
        Kind::Dir => 1,
        Kind::File => 0,
    }
}

/// Writes the reply of a stat.
pub fn tell_stat(reply: &Reply, stat: &mut Stat) -> u8
    ensures told { IsToldStat reply.now result stat.new }
    ensures returned { IsReturned result }
    ensures untouched { result ≢ OK → stat.new ≡ stat.old }
{
    match reply {
        Reply::Stat(kind, size) => {
            *stat = Stat {
                is_dir: is_dir(*kind),
                size: *size,
            };
            OK
        }
        Reply::Failed(errno) => failed_status(*errno),
        _ => UNTOLD,
    }
}

/// Writes the names of a readdir or a list, a byte 0 after each.
pub fn tell_names(alloc: Global, reply: &Reply, out: &mut [u8], count: &mut usize) -> u8
    ensures told { IsToldNames reply.now result count.new out.old out.new }
    ensures returned { IsReturned result }
    ensures untouched { LeavesText result count.old count.new out.old out.new }
{
    match reply {
        Reply::Names(names) => match names_text(alloc, names) {
            Ok(text) => tell(text.as_slice(), out, count),
            Err(_) => UNTOLD,
        },
        Reply::Failed(errno) => failed_status(*errno),
        _ => UNTOLD,
    }
}

/// Writes the bytes of a read, and how many they are.
pub fn tell_bytes(reply: &Reply, out: &mut [u8], count: &mut usize) -> u8
    ensures told { IsToldBytes reply.now result count.new out.old out.new }
    ensures returned { IsReturned result }
    ensures untouched { LeavesText result count.old count.new out.old out.new }
{
    match reply {
        Reply::Bytes(bytes) => tell(bytes.as_slice(), out, count),
        Reply::Failed(errno) => failed_status(*errno),
        _ => UNTOLD,
    }
}

/// Writes how many bytes a write wrote.
pub fn tell_wrote(reply: &Reply, wrote: &mut u64) -> u8
    ensures told { IsToldWrote reply.now result wrote.new }
    ensures returned { IsReturned result }
    ensures untouched { result ≢ OK → wrote.new ≡ wrote.old }
{
    match reply {
        Reply::Wrote(bytes) => {
            *wrote = *bytes;
            OK
        }
        Reply::Failed(errno) => failed_status(*errno),
        _ => UNTOLD,
    }
}

/// Writes the names of a readdir or a list that come after one, as many as there is room for.
pub fn tell_behind(
    alloc: Global,
    reply: &Reply,
    after: &[u8],
    out: &mut [u8],
    count: &mut usize,
) -> u8
    ensures told { IsToldBehind reply.now after.now result count.new out.old out.new }
    ensures returned { IsReturned result }
    ensures untouched { LeavesText result count.old count.new out.old out.new }
{
    match reply {
        Reply::Names(names) => match behind_text(alloc, names, after, out.len()) {
            Ok(text) => tell(text.as_slice(), out, count),
            Err(_) => UNTOLD,
        },
        Reply::Failed(errno) => failed_status(*errno),
        _ => UNTOLD,
    }
}

/// The number of what is wrong with an entry.
fn kind_number(kind: FaultKind) -> u8
    ensures { result ≡ kind_number kind }
{
    match kind {
        FaultKind::BeginTwice => 1,
        FaultKind::SeatBusy => 2,
        FaultKind::CommitUnbegun => 3,
        FaultKind::CommitTwice => 4,
        FaultKind::ReturnUncommitted => 5,
        FaultKind::ReturnTwice => 6,
        FaultKind::WrongReply => 7,
    }
}

/// Writes a verdict as a place and a kind.
pub fn tell_verdict(verdict: &Verdict, place: &mut u64, kind: &mut u8)
    ensures { IsToldVerdict verdict.now place.new kind.new }
{
    (*place, *kind) = match verdict {
        Verdict::Lawful => (0, 0),
        Verdict::Fault(at, why) => (*at as u64, kind_number(*why)),
    };
}

/// Reports why a call did not return, and the number of one that is pending.
pub fn tell_why(why: &NotReturned, number: &mut u64) -> u8
    ensures told { IsToldWhy why.now result number.new }
    ensures unnumbered { result ≢ WAITS → number.new ≡ number.old }
{
    match why {
        NotReturned::Waits(call, _) => {
            *number = call.get();
            WAITS
        }
        NotReturned::NotBegun(why) => begin_status(*why),
    }
}

/// Reports why a run has no text: its number, and the line of a fault of the input, or the number of a pending call.
pub fn tell_fault(fault: RunFault, count: &mut usize) -> u8
    ensures told { IsToldFault fault result count.new }
    ensures refused { IsRefusal result }
{
    match fault {
        RunFault::Input(fault) => {
            *count = fault.line as usize;
            fault_status(fault.kind)
        }
        RunFault::UnderWay(call) => {
            *count = call.get() as usize;
            UNDER_WAY
        }
        _ => NO_MEMORY,
    }
}
