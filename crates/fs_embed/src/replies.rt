//! What writes the reply of a call that has returned to a caller's memory.

ghost use Rattle.std.specs.Prelude.{◌≡◌, ◌≢◌, ◌⊎◌, Some, MatchOption};
ghost use Rattle.fs_embed.specs.Texts.{IsReply, HasNoReply};
ghost use Rattle.fs_embed.specs.Statuses.{IsOfReply};
ghost use Rattle.fs_embed.specs.Told.{IsReplied, LeavesText, IsToldText, IsToldStat, IsToldBytes, IsToldWrote, IsToldBehind, done_status};

use crate::status::{CLOSED, NO_MEMORY, NO_REPLY, OK};
use crate::texts::{find_reply, reply_text};
use crate::told::{Stat, tell, tell_behind, tell_bytes, tell_done, tell_stat, tell_wrote};
use fs_calls::Reply;
use fs_core::Core;
use fs_names::CallNo;
use std::alloc::Global;

/// The reply of a call that has returned; `None` where it has not.
fn reply_of(core: &Core, number: u64) -> Option<&Reply>
    ensures { MatchOption result (HasNoReply core.now.timeline number) (λ reply. IsReply core.now.timeline number reply.now) }
{
    find_reply(core.timeline(), CallNo::new(number))
}

/// Writes the text of the reply of a call.
pub fn tell_reply(alloc: Global, core: &Core, number: u64, out: &mut [u8], count: &mut usize) -> u8
    ensures replied { IsReplied (Some core.now) (λ reply. IsToldText reply result count.new out.old out.new) number result }
    ensures only { IsOfReply result ⊎ (result ≡ NO_MEMORY) }
    ensures other { result ≢ CLOSED }
    ensures untouched { LeavesText result count.old count.new out.old out.new }
{
    match reply_of(core, number) {
        Some(reply) => match reply_text(alloc, reply) {
            Ok(text) => tell(text.as_slice(), out, count),
            Err(_) => NO_MEMORY,
        },
        None => NO_REPLY,
    }
}

/// The status of a call that replies only that it is done, or that it failed.
pub fn tell_reply_done(core: &Core, number: u64) -> u8
    ensures replied { IsReplied (Some core.now) (λ reply. result ≡ done_status reply) number result }
    ensures only { IsOfReply result }
    ensures other { result ≢ CLOSED }
{
    match reply_of(core, number) {
        Some(reply) => tell_done(reply),
        None => NO_REPLY,
    }
}

/// Writes the reply of a stat.
pub fn tell_reply_stat(core: &Core, number: u64, stat: &mut Stat) -> u8
    ensures replied { IsReplied (Some core.now) (λ reply. IsToldStat reply result stat.new) number result }
    ensures only { IsOfReply result }
    ensures other { result ≢ CLOSED }
    ensures untouched { result ≢ OK → stat.new ≡ stat.old }
{
    match reply_of(core, number) {
        Some(reply) => tell_stat(reply, stat),
        None => NO_REPLY,
    }
}

/// Writes the names of a readdir or a list that come after one, as many as there is room for.
pub fn tell_reply_names(
    alloc: Global,
    core: &Core,
    number: u64,
    after: &[u8],
    out: &mut [u8],
    count: &mut usize,
) -> u8
    ensures replied { IsReplied (Some core.now) (λ reply. IsToldBehind reply after.now result count.new out.old out.new) number result }
    ensures only { IsOfReply result }
    ensures other { result ≢ CLOSED }
    ensures untouched { LeavesText result count.old count.new out.old out.new }
{
    match reply_of(core, number) {
        Some(reply) => tell_behind(alloc, reply, after, out, count),
        None => NO_REPLY,
    }
}

/// Writes the bytes of a read.
pub fn tell_reply_bytes(core: &Core, number: u64, out: &mut [u8], count: &mut usize) -> u8
    ensures replied { IsReplied (Some core.now) (λ reply. IsToldBytes reply result count.new out.old out.new) number result }
    ensures only { IsOfReply result }
    ensures other { result ≢ CLOSED }
    ensures untouched { LeavesText result count.old count.new out.old out.new }
{
    match reply_of(core, number) {
        Some(reply) => tell_bytes(reply, out, count),
        None => NO_REPLY,
    }
}

/// Writes how many bytes a write wrote.
pub fn tell_reply_wrote(core: &Core, number: u64, wrote: &mut u64) -> u8
    ensures replied { IsReplied (Some core.now) (λ reply. IsToldWrote reply result wrote.new) number result }
    ensures only { IsOfReply result }
    ensures other { result ≢ CLOSED }
    ensures untouched { result ≢ OK → wrote.new ≡ wrote.old }
{
    match reply_of(core, number) {
        Some(reply) => tell_wrote(reply, wrote),
        None => NO_REPLY,
    }
}
