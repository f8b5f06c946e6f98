//! What the core's lock keeps of the tree: the core, and the publisher of what observers see.

ghost use Rattle.std.specs.Prelude.{◌≡◌, true, ◌+◌, ◌<◌, ◌++◌, ◌∷◌, [], None, Some, IfOk, IfSome, IfNone, OnOk, OnErr, length, slice_get};
ghost use mathlib.Core.List.{IsPrefix};
ghost use Rattle.fs_calls.specs.Starts.{root_start};
ghost use Rattle.fs_timeline.specs.Timeline.{commits};
ghost use Rattle.fs_machine.specs.States.{Begins, Step, begun_again};
ghost use Rattle.fs_core.specs.CoreValues.{state_of};
ghost use Rattle.fs_share.specs.Boards.{AreBeginnings, IsListed, IsReady};
ghost use Rattle.fs_share.specs.Returns.{answered, returns};

use crate::checkpoint::Ready;
use crate::told::told_place;
use fs_calls::{Call, Reply};
use fs_core::{Core, Refusal, Stepped};
use fs_names::{CallNo, Limits, SeatNo};
use fs_seq::SeqTree;
use fs_share_observe::{Named, NoPlace, Observer, Opened, Publisher, Stamp};
use fs_timeline::Entry;
use std::alloc::{AllocError, Global};
use std::marker::Model;
use std::sync::Wait;

/// The core, and the publisher of what observers see. Contracts see the core and the published list, which is a beginning
/// of the committed calls. It is not `Drop`: it ends by the end of its tree. A tree keeps its board under its lock and hands
/// out none, so this type and `publish` are there to be read and not to be called.
pub struct Board<N: Named> {
    core: Core,
    publisher: Publisher<N>,
}

impl<N: Named> Model for Board<N> {
    ghost use Rattle.std.specs.Prelude.{◌≡◌};
    ghost use Rattle.fs_timeline.specs.Timeline.{commits};
    ghost use Rattle.fs_share.specs.Boards.{Boarded, AreBeginnings};

    ghost Value = { Boarded };

    ghost view = { λ board. record { core = board.core; published = board.publisher.published } };

    ghost invariant = { λ board. AreBeginnings (commits board.core.timeline) board.publisher × (board.publisher.start ≡ board.core.start) };
}

/// What a worker does while it is lent the core: one step of its seat's call.
#[inline(always)]
pub fn advance(core: &mut Core, seat: SeatNo) -> Stepped
    requires seat { seat < length core.old.seats }
    ensures step { Step (state_of core.old) seat result (state_of core.new) }
    ensures seats { length core.new.seats ≡ length core.old.seats }
{
    core.step(seat)
}

/// The publisher takes in the commit at this place, which is its next.
fn take_in<N: Named>(
    core: &Core,
    publisher: &mut Publisher<N>,
    alloc: Global,
    place: usize,
) -> Result<(), AllocError>
    requires beginnings { AreBeginnings (commits core.now.timeline) publisher.old }
    requires next { place ≡ length publisher.old.taken }
    requires committed { place < length (commits core.now.timeline) }
    ensures beginnings { AreBeginnings (commits core.now.timeline) publisher.new }
    ensures start { publisher.new.start ≡ publisher.old.start }
    ensures published { publisher.new.published ≡ publisher.old.published }
    ensures next { OnOk result (length publisher.new.taken ≡ place + 1) }
{
    publisher.take_in(alloc, core.committed(place))
}

/// The publisher takes in each commit that it has not.
fn catch_up<N: Named>(
    core: &Core,
    publisher: &mut Publisher<N>,
    alloc: Global,
) -> Result<(), AllocError>
    requires { AreBeginnings (commits core.now.timeline) publisher.old }
    ensures beginnings { AreBeginnings (commits core.now.timeline) publisher.new }
    ensures start { publisher.new.start ≡ publisher.old.start }
    ensures published { publisher.new.published ≡ publisher.old.published }
    ensures all { OnOk result (publisher.new.taken ≡ commits core.now.timeline) }
{
    for place in publisher.taken()..core.commits() {
        take_in(core, publisher, alloc, place)?;
    }
    Ok(())
}

impl<N: Named> Board<N> {
    /// A core without seats or entries, of these limits, of which nothing is published. The only error is out of memory.
    #[tactic(auto, using(fs_names::proofs::LimitLemmas::some_nodes))]
    pub(crate) fn open<R: Wait>(
        rt: &R,
        alloc: Global,
        opened: Opened,
        limits: Limits,
    ) -> Result<Board<N>, AllocError>
        requires { opened ≡ N.book }
        ensures start { IfOk result (λ board. board.core.start ≡ root_start limits) }
        ensures seats { IfOk result (λ board. board.core.seats ≡ []) }
        ensures timeline { IfOk result (λ board. board.core.timeline ≡ []) }
        ensures published { IfOk result (λ board. board.published ≡ []) }
    {
        let core = Core::with_limits(alloc, limits.nodes(), limits)?;
        let first = SeqTree::with_limits(alloc, limits)?;
        let second = SeqTree::with_limits(alloc, limits)?;
        let publisher = Publisher::open(rt, alloc, opened, first, second)?;
        Ok(Board { core, publisher })
    }

    /// The core.
    #[inline(always)]
    pub(crate) fn core(&self) -> &Core
        ensures { result.now ≡ self.now.core }
    {
        &self.core
    }

    /// One more seat.
    pub(crate) fn seat(&mut self) -> Result<SeatNo, AllocError>
        ensures published { self.new.published ≡ self.old.published }
        ensures seats { OnOk result (self.new.core.seats ≡ self.old.core.seats ++ None ∷ []) }
        ensures state { state_of self.new.core ≡ state_of self.old.core }
        ensures err { OnErr result (self.new.core.seats ≡ self.old.core.seats) }
    {
        let Board { core, .. } = self;
        core.seat()
    }

    /// A call begins on a seat; where the seat is not there, it is `SeatBusy`.
    pub(crate) fn begin(
        &mut self,
        alloc: Global,
        seat: SeatNo,
        call: &Call,
    ) -> Result<CallNo, Refusal>
        ensures published { self.new.published ≡ self.old.published }
        ensures begins { seat < length self.old.core.seats → Begins (state_of self.old.core) seat call.now result (state_of self.new.core) }
        ensures returns { returns self.new.core.timeline ≡ returns self.old.core.timeline }
        ensures seats { length self.new.core.seats ≡ length self.old.core.seats }
    {
        let Board { core, .. } = self;
        core.told();
        if !core.has_seat(seat) {
            return Err(Refusal::SeatBusy);
        }
        core.begin(alloc, seat, call)
    }

    /// One step of a seat's call, with `advance`. If the seat is not there, no call is pending on it.
    #[inline(always)]
    pub(crate) fn step(&mut self, seat: SeatNo) -> Stepped
        ensures published { self.new.published ≡ self.old.published }
        ensures step { seat < length self.old.core.seats → Step (state_of self.old.core) seat result (state_of self.new.core) }
        ensures returns { returns self.new.core.timeline ≡ returns self.old.core.timeline + answered result }
        ensures seats { length self.new.core.seats ≡ length self.old.core.seats }
    {
        let Board { core, .. } = self;
        core.told();
        if !core.has_seat(seat) {
            return Stepped::Idle;
        }
        advance(core, seat)
    }

    /// An observer that has seen nothing yet.
    pub(crate) fn observer<'a>(&mut self) -> Result<Observer<'a, N>, NoPlace>
        ensures same { self.new ≡ self.old }
        ensures first { IfOk result (λ o. o ≡ record { start = self.old.core.start; list = [] }) }
    {
        let Board { publisher, .. } = self;
        publisher.observer()
    }

    /// Publishes each commit, and answers a stamp of that list. It waits for observers that still read the tree that
    /// was shown before the last. If memory runs out, the published list is what it was, and the next success publishes
    /// those commits that were taken in.
    pub fn publish<R: Wait>(&mut self, rt: &R, alloc: Global) -> Option<Stamp<N>>
        ensures core { self.new.core ≡ self.old.core }
        ensures begins { IsPrefix self.new.published (commits self.new.core.timeline) }
        ensures some { IfSome result (λ stamp. (stamp ≡ record { start = self.new.core.start; list = commits self.new.core.timeline }) × (self.new.published ≡ commits self.new.core.timeline)) }
        ensures none { IfNone result (self.new.published ≡ self.old.published) }
    {
        let Board { core, publisher } = self;
        catch_up(core, publisher, alloc).ok()?;
        publisher.publish(rt).ok()
    }

    /// How many commits come before that of a call, and a stamp of a list that holds the call, if the timeline's
    /// entries of its number are those of this call and reply.
    pub(crate) fn tell<R: Wait>(
        &mut self,
        rt: &R,
        alloc: Global,
        number: CallNo,
        call: &Call,
        reply: &Reply,
    ) -> (usize, Option<Stamp<N>>)
        ensures core { self.new.core ≡ self.old.core }
        ensures told { IfSome result.1 (λ stamp. IsListed stamp.start stamp.list result.0 call.now reply.now) }
    {
        let stamp = self.publish(rt, alloc);
        match told_place(&self.core, number, call, reply) {
            Some(place) => (place, stamp),
            None => (self.core.place_of(number).unwrap_or(0), None),
        }
    }

    /// A stamp of the list of no calls: it names the tree at which the timeline starts.
    pub(crate) fn first(&self) -> Stamp<N>
        ensures { result ≡ record { start = self.now.core.start; list = [] } }
    {
        self.publisher.first()
    }

    /// Each stamp of this tree starts at the tree at which the timeline does.
    pub(crate) fn agrees(&self, stamp: &Stamp<N>)
        ensures { stamp.now.start ≡ self.now.core.start }
    {
        self.publisher.agrees(stamp);
    }

    /// Whether a stamp's list is a beginning of the commits. Each of this tree's is.
    pub(crate) fn begins_with(&self, stamp: &Stamp<N>) -> bool
        ensures listed { result ≡ true → IsPrefix stamp.now.list (commits self.now.core.timeline) }
        ensures first { stamp.now.list ≡ [] → result ≡ true }
    {
        self.publisher.begins_with(stamp)
    }

    /// The timeline begins again, and observers are shown it by another publisher. The entries so far are handed out.
    pub(crate) fn again<M: Named, R: Wait>(
        self,
        rt: &R,
        alloc: Global,
        ready: Ready<M>,
    ) -> (Board<M>, Vec<Entry>)
        requires { IsReady self.core ready.tree ready.publisher }
        ensures entries { result.1.items ≡ self.core.timeline }
        ensures state { state_of result.0.core ≡ begun_again (state_of self.core) }
        ensures seats { result.0.core.seats ≡ self.core.seats }
    {
        let Board {
            mut core,
            publisher: old,
        } = self;
        old.close(rt);
        let Ready { tree, publisher } = ready;
        let entries = core.begin_again(alloc, tree).into_entries();
        (Board { core, publisher }, entries)
    }

    /// Ends the publisher, and gives the core back.
    pub(crate) fn close<R: Wait>(self, rt: &R) -> Core
        ensures { result ≡ self.core }
    {
        let Board { core, publisher } = self;
        publisher.close(rt);
        core
    }
}
