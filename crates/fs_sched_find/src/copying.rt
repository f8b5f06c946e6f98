//! The same reply again.

ghost use Rattle.std.specs.Prelude.{◌≡◌, IfOk};

use fs_calls::Reply;
use std::alloc::AllocError;

/// The same reply again.
pub fn copy_of_reply(reply: &Reply) -> Result<Reply, AllocError>
    ensures { IfOk result (λ copy. copy ≡ reply.now) }
{
    match reply {
        Reply::Done => Ok(Reply::Done),
        Reply::Stat(kind, size) => Ok(Reply::Stat(*kind, *size)),
        Reply::Names(names) => Ok(Reply::Names(names.copy()?)),
        Reply::Bytes(bytes) => Ok(Reply::Bytes(bytes.copy()?)),
        Reply::Wrote(size) => Ok(Reply::Wrote(*size)),
        Reply::Failed(errno) => Ok(Reply::Failed(*errno)),
    }
}
