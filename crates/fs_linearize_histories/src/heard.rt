//! What is heard of calls from outside of a tree.

ghost use Rattle.std.specs.Prelude.{◌≡◌, ◌↔◌, true};
ghost use Rattle.fs_linearize_histories.specs.Heard.{Matches, is_error, is_directory, is_one_of, is_among};

use crate::errors::Errors;
use fs_calls::{Call, Reply};
use fs_names::{CallNo, Kind, SeatNo};

/// What is known of a reply.
#[derive(Drop)]
pub enum Pattern {
    /// It is this one.
    Exactly(Reply),
    /// It is an error, and which one is not known.
    AnyError,
    /// It is one of these errors.
    OneOf(Errors),
    /// It is that of the stat of a directory, of which the size is not known.
    AnyDirectory,
    /// It is none of these.
    Except(Vec<Reply>),
    /// It may be any reply.
    Anything,
}

/// Whether a reply is an error.
fn is_error(reply: &Reply) -> bool
    ensures { result ≡ is_error reply.now }
{
    matches!(reply, Reply::Failed(_))
}

/// Whether a reply is that of the stat of a directory.
fn is_directory(reply: &Reply) -> bool
    ensures { result ≡ is_directory reply.now }
{
    matches!(reply, Reply::Stat(Kind::Dir, _))
}

/// Whether a reply is one of these errors.
fn is_one_of(reply: &Reply, errors: &Errors) -> bool
    ensures { result ≡ is_one_of reply.now errors.now }
{
    match reply {
        Reply::Failed(errno) => errors.has(*errno),
        _ => false,
    }
}

/// Whether a reply is among replies.
fn is_among(replies: &[Reply], reply: &Reply) -> bool
    ensures { result ≡ is_among reply.now replies.now }
{
    for other in replies {
        if other.same(reply) {
            return true;
        }
    }
    false
}

impl Pattern {
    /// Whether a reply may be the one of which this is known.
    pub fn matches(&self, reply: &Reply) -> bool
        ensures { result ≡ true ↔ Matches self.now reply.now }
    {
        match self {
            Pattern::Exactly(known) => reply.same(known),
            Pattern::AnyError => is_error(reply),
            Pattern::OneOf(errors) => is_one_of(reply, errors),
            Pattern::AnyDirectory => is_directory(reply),
            Pattern::Except(others) => !is_among(others, reply),
            Pattern::Anything => true,
        }
    }
}

/// An entry of a history.
#[derive(Drop)]
pub enum Heard {
    /// The call of this number began on this seat.
    Begin(CallNo, SeatNo, Call),
    /// The call returned a reply of which this is known.
    Return(CallNo, Pattern),
}
