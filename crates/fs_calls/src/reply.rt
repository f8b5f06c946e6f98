//! What calls answer.

ghost use Rattle.std.specs.Prelude.{◌≡◌};
ghost use Rattle.fs_calls.specs.Replies.{same_kind, same_reply};

use crate::errno::Errno;
use fs_names::{Bytes, Kind, NameList};

/// The reply of a call.
#[derive(Drop)]
pub enum Reply {
    /// The call did what it says.
    Done,
    /// The kind of a node, and its size: bytes of a file, entries of a directory.
    Stat(Kind, u64),
    /// All names of a directory, in byte order.
    Names(NameList),
    /// The bytes that were asked for, as far as the file has them.
    Bytes(Bytes),
    /// How many bytes were written.
    Wrote(u64),
    /// The call failed, and changed nothing.
    Failed(Errno),
}

fn same_kind(kind: Kind, other: Kind) -> bool
    ensures { result ≡ same_kind kind other }
{
    kind == other
}

impl Reply {
    /// Whether the other reply is the same.
    pub fn same(&self, other: &Reply) -> bool
        ensures { result ≡ same_reply self.now other.now }
    {
        match (self, other) {
            (Reply::Done, Reply::Done) => true,
            (Reply::Stat(kind, size), Reply::Stat(other_kind, other_size)) => {
                same_kind(*kind, *other_kind) && size == other_size
            }
            (Reply::Names(names), Reply::Names(others)) => names.same(others),
            (Reply::Bytes(bytes), Reply::Bytes(others)) => bytes.same(others),
            (Reply::Wrote(count), Reply::Wrote(other_count)) => count == other_count,
            (Reply::Failed(errno), Reply::Failed(other_errno)) => {
                errno.number() == other_errno.number()
            }
            _ => false,
        }
    }
}
