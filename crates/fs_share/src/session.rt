//! What one thread holds of a tree.

ghost use Rattle.std.specs.Prelude.{◌≡◌, ◌+◌, IfOk, IfSome, OnOk, OnErr};
ghost use Rattle.fs_share.specs.Boards.{IsListed};

use crate::desk::count_of;
use crate::gate::Gate;
use crate::tree::AtomFs;
use fs_calls::{Call, Reply};
use fs_core::{Refusal, Stepped};
use fs_names::{CallNo, SeatNo};
use fs_share_observe::{Named, Stamp};
use std::alloc::Global;
use std::sync::Wait;
use std::sync::ledger::Share;
use std::time::Clock;

/// The number of a call, and its reply.
#[derive(Drop)]
pub struct Answer {
    pub call: CallNo,
    pub reply: Reply,
}

/// An answer that can be handed on: how many commits come before the call's own, and a stamp of a published list with
/// the call. If no memory was left to publish, there is no stamp; a later publishing then shows the call too. Even so
/// `place` is that number if the timeline has the call's Commit, and else 0.
#[derive(Drop)]
pub struct Told<N: Named> {
    pub answer: Answer,
    pub place: usize,
    pub stamp: Option<Stamp<N>>,
}

/// A seat of one's own in a tree. One that is dropped without `end` keeps its part of the account, and then nobody can hand
/// in a tally of each session: `AtomFs::close` says at least how many calls returned, and not how many.
#[derive(Drop)]
pub struct Session<'a, N: Named> {
    pub(crate) fs: &'a AtomFs<N>,
    pub(crate) seat: SeatNo,
    /// How many calls returned. It is read by `count`: a body that writes it is refused by `counted`.
    pub count: u64,
    pub(crate) share: Share<N>,
    ghost one_part: { share.parts ≡ 1 },
    ghost counted: { share.amount ≡ count },
}

/// How many calls of a session returned. It cannot be made or copied, and is of the tree that its type names.
#[derive(Drop)]
pub struct Tally<N: Named> {
    /// It is read by `count`.
    pub count: u64,
    pub(crate) share: Share<N>,
    ghost one_part: { share.parts ≡ 1 },
    ghost counted: { share.amount ≡ count },
}

impl<'a, N: Named> Session<'a, N> {
    /// Begins a call and does its steps, one event under the core's lock at a time, until it returns. After each step
    /// the lock is let go and the gate is called. If another call holds the next node, the session waits until that
    /// node is free.
    ///
    /// `OutOfMemory` and `Full` come from the begin: the tree, the timeline and the count are as they were, and the
    /// call may be made again. `SeatBusy` comes if the core does not have the session's seat, or a step finds no
    /// pending call on it. After such a step the call's Begin stays in the timeline. Neither happens.
    pub fn call<R: Wait + Clock, G: Gate>(
        &mut self,
        rt: &R,
        alloc: Global,
        call: &Call,
        gate: &G,
    ) -> Result<Answer, Refusal>
        ensures ok { OnOk result (self.new.count ≡ self.old.count + 1) }
        ensures err { OnErr result (self.new.count ≡ self.old.count) }
    {
        let Session {
            fs,
            seat,
            count,
            share,
        } = self;
        let seat = *seat;
        let fs: &AtomFs<N> = fs;
        let number = fs
            .desk
            .locked(rt, |desk| desk.board.begin(alloc, seat, call))?;
        let mut wanted = None;
        for _ in rt.forever() {
            let stepped = fs.step(rt, seat, wanted, share);
            *count += count_of(&stepped);
            gate.after(rt, &stepped);
            wanted = match stepped {
                Stepped::Returned(reply) => {
                    return Ok(Answer {
                        call: number,
                        reply,
                    });
                }
                Stepped::Idle => return Err(Refusal::SeatBusy),
                Stepped::Busy(node, _) => Some(node),
                _ => None,
            };
        }
        unreachable!()
    }

    /// The same as `call`, and then publishes each commit. Whoever has the stamp can have any observer of the tree show
    /// the call; `place` and the stamp rest on what is compared under the lock at publishing.
    pub fn call_told<R: Wait + Clock, G: Gate>(
        &mut self,
        rt: &R,
        alloc: Global,
        call: &Call,
        gate: &G,
    ) -> Result<Told<N>, Refusal>
        ensures ok { OnOk result (self.new.count ≡ self.old.count + 1) }
        ensures err { OnErr result (self.new.count ≡ self.old.count) }

        // The call stands at the place in the stamp's list, and the reply is that of the tree
        // which the calls before it play on the stamp's start tree.
        ensures told { IfOk result (λ told. IfSome told.stamp (λ stamp. IsListed stamp.start stamp.list told.place call.now told.answer.reply)) }
    {
        let answer = self.call(rt, alloc, call, gate)?;
        let fs: &AtomFs<N> = self.fs;
        let (place, stamp) = fs.desk.locked(rt, |desk| {
            desk.board.tell(rt, alloc, answer.call, call, &answer.reply)
        });
        Ok(Told {
            answer,
            place,
            stamp,
        })
    }

    /// How many calls have returned.
    pub fn count(&self) -> u64
        ensures { result ≡ self.now.count }
    {
        self.count
    }

    /// Ends the session, and hands out its tally. The seat stays, since a closed tree counts its sessions by their seats.
    pub fn end(self) -> Tally<N>
        ensures { result.count ≡ self.entry.count }
    {
        let Session { count, share, .. } = self;
        Tally { count, share }
    }
}

impl<N: Named> Tally<N> {
    /// How many calls of the session returned.
    pub fn count(&self) -> u64
        ensures { result ≡ self.now.count }
    {
        self.count
    }
}
