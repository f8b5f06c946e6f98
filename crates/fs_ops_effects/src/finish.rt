//! What a finish answers, apart from the change that it makes.

ghost use Rattle.std.specs.Prelude.{◌≡◌, None};
ghost use Rattle.fs_calls.specs.declared.reply.Reply.TheVariants as answers;

use crate::replies::Replies;
use fs_calls::Errno;
use fs_nodes::NodeNo;

/// The replies of a call, its reserved number where it is not used, and the node that it removed.
#[derive(Drop)]
pub struct Finish {
    /// The two equal replies.
    pub replies: Replies,
    /// The number that the call reserved, unless it is used now.
    pub reserved: Option<NodeNo>,
    /// The node that the call removed.
    pub removed: Option<NodeNo>,
}

impl Finish {
    /// A finish that changes nothing.
    pub fn kept(replies: Replies, reserved: Option<NodeNo>) -> Finish
        ensures { result ≡ record { replies = replies; reserved = reserved; removed = None } }
    {
        Finish {
            replies,
            reserved,
            removed: None,
        }
    }

    /// A call that fails changes nothing.
    pub fn failed(errno: Errno, reserved: Option<NodeNo>) -> Finish
        ensures { result ≡ record { replies = answers.Failed errno; reserved = reserved; removed = None } }
    {
        Finish::kept(Replies::failed(errno), reserved)
    }
}
