//! The replies that a call could have had, where it returns one that nothing explains.

ghost use Rattle.std.specs.Prelude.{◌≡◌, ◌++◌, ◌∷◌, [], ℕ, Some, IfOk};
ghost use Rattle.fs_linearize_histories.specs.Histories.{IsHistory};
ghost use Rattle.fs_linearize_histories.specs.declared.heard.Heard.TheVariants as heard;
ghost use Rattle.fs_linearize_histories.specs.declared.heard.Pattern.{Pattern as Known};
ghost use Rattle.fs_linearize_histories.specs.declared.heard.Pattern.TheVariants.{Except};
ghost use Rattle.fs_linearize.specs.Possible.{ArePossible};
ghost use Rattle.fs_linearize.specs.code.Replies.{IsAnother};

use crate::playing::reply_on;
use crate::progress::Progress;
use crate::search::{Searched, find_way};
use fs_calls::Reply;
use fs_linearize_histories::{Heard, Pattern};
use fs_names::CallNo;
use fs_seq::SeqTree;
use std::alloc::{AllocError, Global};

/// The most replies that are named.
pub const MOST_REPLIES: usize = 10;

/// What was possible in the place of a reply that nothing explains.
#[derive(Drop)]
pub struct Possible {
    /// Replies that the call could have had, each once; no more than the most.
    pub replies: Vec<Reply>,
    /// Whether these are all.
    pub all: bool,
}

/// A reply that is none of those that were known.
#[derive(Drop)]
enum Another {
    Is(Reply),
    /// There is none.
    No,
    /// The limit was reached.
    Limited,
}

/// The reply that the call of a number could have had at the end of entries, of which the last is its return.
fn one_more<P: Progress>(
    alloc: Global,
    start: &SeqTree,
    asked: &[Heard],
    number: u64,
    limit: usize,
    progress: &mut P,
) -> Result<Another, AllocError>
    requires history { IsHistory asked.now }
    requires last { (g : _) × (p : Known) × (asked.now ≡ g ++ heard.Return number p ∷ []) }
    ensures { IfOk result (λ found. (g : _) (p : Known) → asked.now ≡ g ++ heard.Return number p ∷ [] → IsAnother start.now g number p limit found) }
{
    match find_way(alloc, start, asked, limit, progress)? {
        Searched::Ends(steps) => match reply_on(alloc, start, asked, &steps, number)? {
            Some(reply) => Ok(Another::Is(reply)),
            None => unreachable!(),
        },
        Searched::NoOrder(_, _) => Ok(Another::No),
        Searched::Limited(_) => Ok(Another::Limited),
    }
}

/// Entries, the replies that a call could have after them, and one more.
#[derive(Drop)]
struct Asked {
    before: Vec<Heard>,
    replies: Vec<Reply>,
    another: Another,
}

/// The replies that a return is known not to have.
fn excepted(alloc: Global, entry: Option<Heard>) -> Vec<Reply>
    ensures { (c : ℕ) (replies : _) → entry ≡ Some (heard.Return c (Except replies)) → result ≡ replies }
{
    match entry {
        Some(Heard::Return(_, Pattern::Except(replies))) => replies,
        _ => Vec::new(alloc),
    }
}

/// Asks for a reply that the call of a number could have after entries, other than those that are known.
fn ask<P: Progress>(
    alloc: Global,
    start: &SeqTree,
    before: Vec<Heard>,
    number: CallNo,
    replies: Vec<Reply>,
    limit: usize,
    progress: &mut P,
) -> Result<Asked, AllocError>
    requires { IsHistory (before.items ++ heard.Return number (Except replies) ∷ []) }
    ensures before { IfOk result (λ asked. asked.before.items ≡ before.items) }
    ensures replies { IfOk result (λ asked. asked.replies ≡ replies) }
    ensures another { IfOk result (λ asked. IsAnother start.now before.items number (Except replies) limit asked.another) }
{
    let mut asked = before;
    asked.push(Heard::Return(number, Pattern::Except(replies)))?;
    let another = one_more(alloc, start, &asked, number.get(), limit, progress)?;
    let replies = excepted(alloc, asked.pop());
    Ok(Asked {
        before: asked,
        replies,
        another,
    })
}

/// The replies that the call of a number could have after entries.
pub(crate) fn possible_replies<P: Progress>(
    alloc: Global,
    start: &SeqTree,
    before: Vec<Heard>,
    number: CallNo,
    limit: usize,
    progress: &mut P,
) -> Result<Possible, AllocError>
    requires { (p : Known) → IsHistory (before.items ++ heard.Return number p ∷ []) }
    ensures { IfOk result (ArePossible start.now before.items limit number) }
{
    let mut entries = before;
    let mut replies = Vec::new(alloc);
    for _turn in 0..MOST_REPLIES {
        let asked = ask(alloc, start, entries, number, replies, limit, progress)?;
        entries = asked.before;
        replies = asked.replies;
        match asked.another {
            Another::Is(reply) => replies.push(reply)?,
            Another::No => return Ok(Possible { replies, all: true }),
            Another::Limited => return Ok(Possible {
                replies,
                all: false,
            }),
        }
    }
    let asked = ask(alloc, start, entries, number, replies, limit, progress)?;
    match asked.another {
        Another::Is(_) => Ok(Possible {
            replies: asked.replies,
            all: false,
        }),
        Another::Limited => Ok(Possible {
            replies: asked.replies,
            all: false,
        }),
        Another::No => Ok(Possible {
            replies: asked.replies,
            all: true,
        }),
    }
}
