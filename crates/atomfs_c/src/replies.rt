//! The exports that write the reply of a call that has returned.

ghost use Rattle.std.specs.Prelude.{◌≡◌, ◌≢◌, ◌⊎◌};
ghost use Rattle.fs_embed.specs.Statuses.{IsOfReply};
ghost use Rattle.atomfs_c.specs.Exports.{ToldIfClosed, LeavesText, IsReplied, IsToldText, IsToldStat, IsToldBytes, IsToldWrote, IsToldBehind, done_status};

use crate::handles::{Handle, put, take};
use fs_embed::replies::{
    tell_reply, tell_reply_bytes, tell_reply_done, tell_reply_names, tell_reply_stat,
    tell_reply_wrote,
};
use fs_embed::status::{CLOSED, NO_MEMORY, OK};
use fs_embed::told::Stat;
use std::alloc::Global;

/// Writes the text of the reply of a call.
#[unsafe(no_mangle)]
pub extern "C" fn atomfs_reply(
    alloc: Global,
    handle: &mut Handle,
    number: u64,
    out: &mut [u8],
    count: &mut usize,
) -> u8
    ensures replied { IsReplied handle.old.held.core (λ reply. IsToldText reply result count.new out.old out.new) number result }
    ensures only { IsOfReply result ⊎ (result ≡ NO_MEMORY) }
    ensures untouched { LeavesText result count.old count.new out.old out.new }
    ensures same { handle.new.held.core ≡ handle.old.held.core }
    ensures closed { ToldIfClosed result handle.old.held.core handle.new.held.core }
    ensures keeps { handle.new.most ≡ handle.old.most }
{
    let Some(core) = take(alloc, handle) else {
        return CLOSED;
    };
    let status = tell_reply(alloc, &core, number, out, count);
    put(handle, core);
    status
}

/// The status of a call that replies only that it is done, or that it failed.
#[unsafe(no_mangle)]
pub extern "C" fn atomfs_reply_done(alloc: Global, handle: &mut Handle, number: u64) -> u8
    ensures replied { IsReplied handle.old.held.core (λ reply. result ≡ done_status reply) number result }
    ensures only { IsOfReply result }
    ensures same { handle.new.held.core ≡ handle.old.held.core }
    ensures closed { ToldIfClosed result handle.old.held.core handle.new.held.core }
    ensures keeps { handle.new.most ≡ handle.old.most }
{
    let Some(core) = take(alloc, handle) else {
        return CLOSED;
    };
    let status = tell_reply_done(&core, number);
    put(handle, core);
    status
}

/// Writes the reply of a stat.
#[unsafe(no_mangle)]
pub extern "C" fn atomfs_reply_stat(
    alloc: Global,
    handle: &mut Handle,
    number: u64,
    stat: &mut Stat,
) -> u8
    ensures replied { IsReplied handle.old.held.core (λ reply. IsToldStat reply result stat.new) number result }
    ensures only { IsOfReply result }
    ensures untouched { result ≢ OK → stat.new ≡ stat.old }
    ensures same { handle.new.held.core ≡ handle.old.held.core }
    ensures closed { ToldIfClosed result handle.old.held.core handle.new.held.core }
    ensures keeps { handle.new.most ≡ handle.old.most }
{
    let Some(core) = take(alloc, handle) else {
        return CLOSED;
    };
    let status = tell_reply_stat(&core, number, stat);
    put(handle, core);
    status
}

/// Writes the names of a readdir or a list that come after one, as many as there is room for.
#[unsafe(no_mangle)]
pub extern "C" fn atomfs_reply_names(
    alloc: Global,
    handle: &mut Handle,
    number: u64,
    after: &[u8],
    out: &mut [u8],
    count: &mut usize,
) -> u8
    ensures replied { IsReplied handle.old.held.core (λ reply. IsToldBehind reply after.now result count.new out.old out.new) number result }
    ensures only { IsOfReply result }
    ensures untouched { LeavesText result count.old count.new out.old out.new }
    ensures same { handle.new.held.core ≡ handle.old.held.core }
    ensures closed { ToldIfClosed result handle.old.held.core handle.new.held.core }
    ensures keeps { handle.new.most ≡ handle.old.most }
{
    let Some(core) = take(alloc, handle) else {
        return CLOSED;
    };
    let status = tell_reply_names(alloc, &core, number, after, out, count);
    put(handle, core);
    status
}

/// Writes the bytes of a read.
#[unsafe(no_mangle)]
pub extern "C" fn atomfs_reply_bytes(
    alloc: Global,
    handle: &mut Handle,
    number: u64,
    out: &mut [u8],
    count: &mut usize,
) -> u8
    ensures replied { IsReplied handle.old.held.core (λ reply. IsToldBytes reply result count.new out.old out.new) number result }
    ensures only { IsOfReply result }
    ensures untouched { LeavesText result count.old count.new out.old out.new }
    ensures same { handle.new.held.core ≡ handle.old.held.core }
    ensures closed { ToldIfClosed result handle.old.held.core handle.new.held.core }
    ensures keeps { handle.new.most ≡ handle.old.most }
{
    let Some(core) = take(alloc, handle) else {
        return CLOSED;
    };
    let status = tell_reply_bytes(&core, number, out, count);
    put(handle, core);
    status
}

/// Writes how many bytes a write wrote.
#[unsafe(no_mangle)]
pub extern "C" fn atomfs_reply_wrote(
    alloc: Global,
    handle: &mut Handle,
    number: u64,
    wrote: &mut u64,
) -> u8
    ensures replied { IsReplied handle.old.held.core (λ reply. IsToldWrote reply result wrote.new) number result }
    ensures only { IsOfReply result }
    ensures untouched { result ≢ OK → wrote.new ≡ wrote.old }
    ensures same { handle.new.held.core ≡ handle.old.held.core }
    ensures closed { ToldIfClosed result handle.old.held.core handle.new.held.core }
    ensures keeps { handle.new.most ≡ handle.old.most }
{
    let Some(core) = take(alloc, handle) else {
        return CLOSED;
    };
    let status = tell_reply_wrote(&core, number, wrote);
    put(handle, core);
    status
}
