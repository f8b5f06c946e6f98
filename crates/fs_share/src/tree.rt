//! A tree that sessions share, and its end.

ghost use Rattle.std.specs.Prelude.{[], true, ◌≡◌, ◌+◌, ◌<◌, ◌≤◌, ◌^◌, vec_len, sum_by, IfOk, IfErr};
ghost use Rattle.fs_nodes.specs.Graphs.{graph_shapes};
ghost use Rattle.fs_nodes.specs.Stores.{graph_of};
ghost use Rattle.fs_calls.specs.Outcomes.{play, next_start};
ghost use Rattle.fs_calls.specs.Starts.{Start, start_tree, root_start};
ghost use Rattle.fs_calls.specs.Tree.{IsTree};
ghost use Rattle.fs_calls.specs.Sights.{tree_shapes};
ghost use Rattle.fs_timeline.specs.Timeline.{IsLawful, commits};
ghost use Rattle.fs_linearizable.specs.Linearizable.{history, IsLinearizable};
ghost use Rattle.fs_share.specs.Returns.{answered, returns, AllReturned};
ghost use mathlib.Core.List.{IsPrefix};

use crate::checkpoint::{NotKept, make_ready};
use crate::desk::Desk;
use crate::session::{Session, Tally};
use fs_core::Stepped;
use fs_names::{Limits, SeatNo};
use fs_nodes::{NodeNo, Store};
use fs_seq::SeqTree;
use fs_share_observe::{Named, NoPlace, Observer, Opened, Stamp};
use fs_share_wait::{Lock, WaitQueues};
use fs_timeline::{Entry, Timeline};
use std::alloc::{AllocError, Global};
use std::marker::{Model, PhantomData};
use std::sync::ledger::{Blank, Share};
use std::sync::{MutexGuard, Wait};

/// That the tree's ledger has 2^63 parts.
#[derive(Drop)]
pub(crate) struct Whole<N: Named> {
    of: PhantomData<N>,
    ghost parts: { N.parts ≡ 2 ^ 63 },
}

/// A tree that sessions share, and that observers read. Contracts see the tree at which its timeline starts, by a stamp that
/// lies beside the lock, and how many sessions the tree had that went on as this one. It is not `Drop`: end it by `close`.
pub struct AtomFs<N: Named> {
    pub(crate) desk: Lock<Desk<N>>,
    queues: WaitQueues,
    whole: Whole<N>,
    pub(crate) first: Stamp<N>,
    earlier: usize,
}

impl<N: Named> Model for AtomFs<N> {
    ghost use Rattle.fs_share.specs.Boards.{Shared};

    ghost Value = { Shared };

    ghost view = { λ fs. record { start = fs.first.start; earlier = fs.earlier } };
}

/// What is left of a tree: the tree at which its timeline starts, its timeline, its nodes, and how many sessions it had since
/// its timeline began. No clause of `close` says that number, since the lock hides it, but that no fewer than the tallies were.
#[derive(Drop)]
pub struct Closed {
    pub start: SeqTree,
    pub timeline: Timeline,
    pub store: Store,
    pub sessions: usize,
}

impl<N: Named> AtomFs<N> {
    /// A tree with the root alone, with these limits, under the name of this blank and this history. It has no entry
    /// and no session, and has published nothing. The contract of what this is made of (`Desk::open`) says so, since no
    /// clause can name what a lock keeps. The only error is out of memory. Most callers want `with_tree`, which asks
    /// for nothing.
    pub fn open_with<R: Wait>(
        rt: &R,
        alloc: Global,
        opened: Opened,
        blank: Blank,
        limits: Limits,
    ) -> Result<AtomFs<N>, AllocError>
        requires book { opened ≡ N.book }
        requires name { blank.name ≡ N.name }
        requires parts { blank.parts ≡ N.parts }
        requires all { blank.parts ≡ 2 ^ 63 }
        ensures start { IfOk result (λ fs. fs.start ≡ root_start limits) }
    {
        let desk = Desk::open(rt, alloc, opened, blank, limits)?;
        Ok(AtomFs::around(desk, 0))
    }

    /// The same by the limits of the second version.
    pub fn open<R: Wait>(
        rt: &R,
        alloc: Global,
        opened: Opened,
        blank: Blank,
    ) -> Result<AtomFs<N>, AllocError>
        requires book { opened ≡ N.book }
        requires name { blank.name ≡ N.name }
        requires parts { blank.parts ≡ N.parts }
        requires all { blank.parts ≡ 2 ^ 63 }
        ensures start { IfOk result (λ fs. fs.start ≡ root_start Limits.V2) }
    {
        AtomFs::open_with(rt, alloc, opened, blank, Limits::V2)
    }

    /// A lock round what it keeps.
    fn around(desk: Desk<N>, earlier: usize) -> AtomFs<N>
        requires { N.parts ≡ 2 ^ 63 }
        ensures { result ≡ record { start = desk.board.core.start; earlier = earlier } }
    {
        let first = desk.board.first();
        AtomFs {
            desk: Lock::new(desk),
            queues: WaitQueues::new(),
            whole: Whole { of: PhantomData },
            first,
            earlier,
        }
    }

    /// A session with a seat of its own. The seat is there for as long as the tree is, some 400 bytes: a seat whose session
    /// has ended costs that memory, and no time. The only error is out of memory.
    pub fn session<R: Wait>(&self, rt: &R) -> Result<Session<'_, N>, AllocError>
        ensures { IfOk result (λ session. session.count ≡ 0) }
    {
        let (seat, share) = self.desk.locked(rt, |desk| desk.seat())?;
        Ok(Session {
            fs: self,
            seat,
            count: 0,
            share,
        })
    }

    /// An observer that has seen nothing yet. The error: none of the 64 reader places is free, or memory ran out.
    pub fn observer<R: Wait>(&self, rt: &R) -> Result<Observer<'_, N>, NoPlace>
        ensures list { IfOk result (λ observer. observer.list ≡ []) }
        ensures start { IfOk result (λ observer. observer.start ≡ self.now.start) }
    {
        // By a guard: the borrow checker covers no closure that answers what names the tree's lifetime.
        let mut desk = self.desk.take(rt);
        desk.board.agrees(&self.first);
        let observer = desk.board.observer();
        MutexGuard::unlock(desk);
        observer
    }

    /// The lock, once no call holds a node. No wake-up is lost: under one hold of the lock a session finds the node held, is
    /// noted, and sleeps. Each `LetGo` comes under the lock, and wakes one of those noted for its node. Whoever is woken makes
    /// its step under the lock where it finds the node free, and wakes the next if it did not take it.
    #[inline(never)]
    fn take_free<R: Wait>(&self, rt: &R, node: NodeNo) -> MutexGuard<'_, Desk<N>> {
        let desk = self.desk.take(rt);
        self.queues
            .of(node)
            .wait_while(rt, desk, |desk| desk.sleeps_for(node))
    }

    /// One step of a seat's call under the lock, once no call holds the node that is wanted.
    #[inline(always)]
    pub(crate) fn step<R: Wait>(
        &self,
        rt: &R,
        seat: SeatNo,
        wanted: Option<NodeNo>,
        mine: &mut Share<N>,
    ) -> Stepped
        requires { 0 < mine.old.parts }
        ensures parts { mine.new.parts ≡ mine.old.parts }
        ensures amount { mine.new.amount ≡ mine.old.amount + answered result }
        ensures room { mine.new.amount < 2 ^ 64 }
    {
        let mut desk = match wanted {
            None => self.desk.take(rt),
            Some(node) => self.take_free(rt, node),
        };
        let stepped = desk.step(seat, mine);
        // Before the lock is let go: a session that stops behind it would keep those asleep that can go on.
        if let Some(node) = wanted {
            self.queues.wake(node, desk.wakes(node));
        }
        if let Stepped::LetGo(node) = stepped {
            self.queues.wake(node, desk.wakes(node));
        }
        MutexGuard::unlock(desk);
        stepped
    }

    /// How many sessions the tree had that went on as this one, since its timeline began; 0 where there is none.
    pub fn earlier(&self) -> usize
        ensures { result ≡ self.now.earlier }
    {
        self.earlier
    }

    /// A stamp of the list of no calls: it names the tree at which the timeline starts.
    pub fn first<R: Wait>(&self, rt: &R) -> Stamp<N>
        ensures list { result.list ≡ [] }
        ensures start { result.start ≡ self.now.start }
    {
        let desk = self.desk.take(rt);
        desk.board.agrees(&self.first);
        let first = desk.board.first();
        MutexGuard::unlock(desk);
        first
    }

    /// Hands out the entries so far, and the timeline begins again, under another name, at the tree that it has come
    /// to. Call numbers begin at 1 again; nodes and seats stay. The error hands back what came in, and nothing has
    /// changed. `UnderWay` comes exactly if a call is pending, and is looked for before memory is.
    pub fn checkpoint<M: Named, R: Wait>(
        self,
        rt: &R,
        alloc: Global,
        tallies: Vec<Tally<N>>,
        opened: Opened,
        blank: Blank,
    ) -> Result<(AtomFs<M>, Vec<Entry>), NotKept<N>>
        requires book { opened ≡ M.book }
        requires name { blank.name ≡ M.name }
        requires parts { blank.parts ≡ M.parts }
        requires all { blank.parts ≡ 2 ^ 63 }

        // The entries are lawful from the tree at which the timeline starts, and the new tree starts at what they play.
        ensures lawful { IfOk result (λ kept. (start : Start) × IsTree (start_tree start) × IsLawful start kept.1.items) }
        ensures from { IfOk result (λ kept. IsTree (start_tree self.start) × IsLawful self.start kept.1.items) }
        ensures start { IfOk result (λ kept. kept.0.start ≡ next_start self.start (commits kept.1.items)) }

        // At least as many calls returned as the tallies add up to, and exactly as many where each session handed in its own.
        ensures counted { IfOk result (λ kept. sum_by (λ tally. tally.count) tallies.items ≤ returns kept.1.items) }
        ensures bound { IfOk result (λ kept. vec_len tallies ≤ kept.0.earlier) }
        ensures returns { IfOk result (λ kept. vec_len tallies ≡ kept.0.earlier → returns kept.1.items ≡ sum_by (λ tally. tally.count) tallies.items) }
        ensures back { IfErr result (λ left. (left.tallies ≡ tallies) × (left.blank ≡ blank)) }
        ensures same { IfErr result (λ left. left.fs ≡ self) }
    {
        let told = self.first.again();
        let (fs, entries, _next) = self.checkpoint_told(rt, alloc, tallies, &told, opened, blank)?;
        Ok((fs, entries))
    }

    /// The same as `checkpoint`, with a stamp of this tree handed in, and one of the new tree's list of no calls handed
    /// out. The first says from which tree the entries are lawful, the second that the new tree starts where they lead.
    pub fn checkpoint_told<M: Named, R: Wait>(
        self,
        rt: &R,
        alloc: Global,
        tallies: Vec<Tally<N>>,
        told: &Stamp<N>,
        opened: Opened,
        blank: Blank,
    ) -> Result<(AtomFs<M>, Vec<Entry>, Stamp<M>), NotKept<N>>
        requires book { opened ≡ M.book }
        requires name { blank.name ≡ M.name }
        requires parts { blank.parts ≡ M.parts }
        requires all { blank.parts ≡ 2 ^ 63 }

        // The entries are lawful from the tree at which the stamp's list starts, and the new tree starts at what they play.
        ensures lawful { IfOk result (λ kept. IsTree (start_tree told.now.start) × IsLawful told.now.start kept.1.items) }
        ensures start { IfOk result (λ kept. kept.2 ≡ record { start = next_start told.now.start (commits kept.1.items); list = [] }) }
        ensures new { IfOk result (λ kept. kept.0.start ≡ next_start told.now.start (commits kept.1.items)) }
        ensures from { told.now.start ≡ self.start }

        // At least as many calls returned as the tallies add up to, and exactly as many where each session handed in its own.
        ensures counted { IfOk result (λ kept. sum_by (λ tally. tally.count) tallies.items ≤ returns kept.1.items) }
        ensures bound { IfOk result (λ kept. vec_len tallies ≤ kept.0.earlier) }
        ensures returns { IfOk result (λ kept. vec_len tallies ≡ kept.0.earlier → returns kept.1.items ≡ sum_by (λ tally. tally.count) tallies.items) }
        ensures back { IfErr result (λ left. (left.tallies ≡ tallies) × (left.blank ≡ blank)) }
        ensures same { IfErr result (λ left. left.fs ≡ self) }
    {
        let AtomFs {
            desk,
            queues,
            whole,
            first,
            earlier,
        } = self;
        let desk = desk.into_inner();
        desk.board.agrees(told);
        desk.board.agrees(&first);
        match make_ready(rt, alloc, desk.board.core(), opened) {
            Ok(ready) => {
                let (desk, entries, sessions) = desk.again(rt, alloc, whole, tallies, ready, blank);
                let next = desk.board.first();
                Ok((AtomFs::around(desk, sessions), entries, next))
            }
            Err(why) => Err(NotKept {
                fs: AtomFs {
                    desk: Lock::new(desk),
                    queues,
                    whole,
                    first,
                    earlier,
                },
                tallies,
                blank,
                why,
            }),
        }
    }

    /// Each stamp of this tree starts at the tree at which its timeline does.
    pub fn agrees(&self, stamp: &Stamp<N>)
        ensures { stamp.now.start ≡ self.now.start }
    {
        self.first.same_start(stamp);
    }

    /// Ends the tree. It takes no memory. `sessions` counts every session that was made since the timeline began, a pool's
    /// too. A caller need not have kept the tallies: an empty list is allowed, and then nothing is said of how many calls
    /// returned. What is still lent, sessions and observers, has ended by then, as their types say.
    pub fn close<R: Wait>(self, rt: &R, tallies: Vec<Tally<N>>) -> Closed
        ensures start { result.start ≡ self.start }
        ensures lawful { IsLawful result.start result.timeline.entries }
        ensures linearizable { IsLinearizable result.start (history result.timeline.entries) }
        ensures spelled { AllReturned result.timeline.entries → graph_shapes (graph_of result.store) ≡ tree_shapes (play result.start (commits result.timeline.entries)) }

        // At least as many calls returned as the tallies add up to, and exactly as many where each session handed in its own.
        ensures counted { sum_by (λ tally. tally.count) tallies.items ≤ returns result.timeline.entries }
        ensures bound { vec_len tallies ≤ result.sessions }
        ensures returns { vec_len tallies ≡ result.sessions → returns result.timeline.entries ≡ sum_by (λ tally. tally.count) tallies.items }
    {
        let told = self.first.again();
        let (closed, _is_listed) = self.close_told(rt, tallies, &told);
        closed
    }

    /// The same, with a stamp of this tree handed in, for example that of a published call or of an observer. If the
    /// answer is true, the stamp's list is a beginning of the calls that committed. The answer is true for each stamp
    /// of this tree.
    pub fn close_told<R: Wait>(
        self,
        rt: &R,
        tallies: Vec<Tally<N>>,
        told: &Stamp<N>,
    ) -> (Closed, bool)
        ensures listed { result.1 ≡ true → IsPrefix told.now.list (commits result.0.timeline.entries) }
        ensures first { told.now.list ≡ [] → result.1 ≡ true }
        ensures from { told.now.start ≡ self.start }
        ensures start { result.0.start ≡ self.start }
        ensures lawful { IsLawful result.0.start result.0.timeline.entries }
        ensures linearizable { IsLinearizable result.0.start (history result.0.timeline.entries) }
        ensures spelled { AllReturned result.0.timeline.entries → graph_shapes (graph_of result.0.store) ≡ tree_shapes (play result.0.start (commits result.0.timeline.entries)) }
        ensures counted { sum_by (λ tally. tally.count) tallies.items ≤ returns result.0.timeline.entries }
        ensures bound { vec_len tallies ≤ result.0.sessions }
        ensures returns { vec_len tallies ≡ result.0.sessions → returns result.0.timeline.entries ≡ sum_by (λ tally. tally.count) tallies.items }
    {
        let AtomFs {
            desk,
            queues: _queues,
            whole,
            first,
            earlier: _earlier,
        } = self;
        let desk = desk.into_inner();
        desk.board.agrees(told);
        desk.board.agrees(&first);
        let is_listed = desk.board.begins_with(told);
        (desk.close(rt, whole, tallies), is_listed)
    }
}
