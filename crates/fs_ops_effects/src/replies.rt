//! The two equal replies of a call.

ghost use Rattle.std.specs.Prelude.{◌≡◌};
ghost use Rattle.fs_calls.specs.declared.reply.Reply.TheVariants as answers;

use fs_calls::{Errno, Reply};
use std::marker::Model;

/// Two equal replies, seen as one: one is handed to the caller, and one goes into the timeline.
#[derive(Drop)]
pub struct Replies {
    one: Reply,
    other: Reply,
}

impl Model for Replies {
    ghost use Rattle.std.specs.Prelude.{◌≡◌};
    ghost use Rattle.fs_calls.specs.declared.reply.Reply as replies;

    ghost Value = { replies.Reply };

    ghost view = { λ r. r.one };

    ghost invariant = { λ r. r.one ≡ r.other };
}

impl Replies {
    /// Two replies that the caller made equal: each has its own bytes or names.
    pub fn new(one: Reply, other: Reply) -> Replies
        requires { one ≡ other }
        ensures { result ≡ one }
    {
        Replies { one, other }
    }

    /// The call failed.
    pub fn failed(errno: Errno) -> Replies
        ensures { result ≡ answers.Failed errno }
    {
        Replies::new(Reply::Failed(errno), Reply::Failed(errno))
    }

    /// The call did what it says.
    pub fn done() -> Replies
        ensures { result ≡ answers.Done }
    {
        Replies::new(Reply::Done, Reply::Done)
    }

    /// Both of them.
    pub fn into_pair(self) -> (Reply, Reply)
        ensures one { result.0 ≡ self }
        ensures other { result.1 ≡ self }
    {
        let Replies { one, other } = self;
        (one, other)
    }
}
