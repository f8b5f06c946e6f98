//! The same entries again.

ghost use Rattle.std.specs.Prelude.{◌≡◌, IfOk};

use fs_calls::Reply;
use fs_linearize_histories::{Heard, Pattern};
use std::alloc::{AllocError, Global};

/// The same reply again.
fn copy_of_reply(reply: &Reply) -> Result<Reply, AllocError>
    ensures { IfOk result (λ copy. copy ≡ reply.now) }
{
    match reply {
        Reply::Done => Ok(Reply::Done),
        Reply::Stat(kind, size) => Ok(Reply::Stat(*kind, *size)),
        Reply::Names(names) => Ok(Reply::Names(names.copy()?)),
        Reply::Bytes(bytes) => Ok(Reply::Bytes(bytes.copy()?)),
        Reply::Wrote(size) => Ok(Reply::Wrote(*size)),
        Reply::Failed(errno) => Ok(Reply::Failed(*errno)),
    }
}

/// The same of what is known of a reply. No text says which a reply is not, and there is no memory for that.
pub(crate) fn copy_of_pattern(pattern: &Pattern) -> Result<Pattern, AllocError>
    ensures { IfOk result (λ copy. copy ≡ pattern.now) }
{
    match pattern {
        Pattern::Exactly(reply) => Ok(Pattern::Exactly(copy_of_reply(reply)?)),
        Pattern::AnyError => Ok(Pattern::AnyError),
        Pattern::OneOf(errors) => Ok(Pattern::OneOf(errors.copy()?)),
        Pattern::AnyDirectory => Ok(Pattern::AnyDirectory),
        Pattern::Except(_) => Err(AllocError),
        Pattern::Anything => Ok(Pattern::Anything),
    }
}

/// The same of an entry.
pub(crate) fn copy_of(alloc: Global, entry: &Heard) -> Result<Heard, AllocError>
    ensures { IfOk result (λ copy. copy ≡ entry.now) }
{
    match entry {
        Heard::Begin(number, seat, call) => Ok(Heard::Begin(*number, *seat, call.copy(alloc)?)),
        Heard::Return(number, pattern) => Ok(Heard::Return(*number, copy_of_pattern(pattern)?)),
    }
}
