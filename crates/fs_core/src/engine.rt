//! The shared state of all calls, its begins and its steps.

ghost use Rattle.std.specs.Prelude.{IfOk, OnOk, IfErr, OnErr, ◌≡◌, ◌≢◌, ◌<◌, ◌≤◌, ◌++◌, ◌∷◌, [], ℕ, None, Some, Err, length};
ghost use Rattle.fs_names.specs.Limits.{in_blocks, node_limit};
ghost use Rattle.fs_names.specs.declared.limits.TheConstants.{NODE_LIMIT};
ghost use Rattle.fs_nodes.specs.Graphs.{numbers, graph_shapes};
ghost use Rattle.fs_machine.specs.declared.moves.Move.TheVariants.{Take as Takes, LetGo as Leaves, Finish as Finishes, Return as Ends};
ghost use Rattle.fs_machine.specs.declared.answers.Refusal.TheVariants.{OutOfMemory};
ghost use Rattle.fs_nodes.specs.Stores.{graph_of};
ghost use Rattle.fs_nodes.specs.Seen.{seen};
ghost use Rattle.fs_locks.specs.Holding.{holder, room};
ghost use Rattle.fs_calls.specs.Outcomes.{play, next_start};
ghost use Rattle.fs_calls.specs.Sights.{tree_shapes};
ghost use Rattle.fs_timeline.specs.Timeline.{IsLawful, commits};
ghost use Rattle.fs_linearizable.specs.Linearizable.{history, IsLinearizable};
ghost use Rattle.fs_machine.specs.States.{Begins, Step, NoneBelow, Run, IsStart, fresh, empty, begun_again};
ghost use Rattle.fs_core.specs.CoreValues.{state_of, IsAtRest};
ghost use Rattle.fs_core.specs.Checkpoints.{IsWhyNot};
ghost use Rattle.fs_core.specs.code.Doing.{Does};
ghost use Rattle.fs_core_seats.specs.code.Orders.{AreListed};
ghost use Rattle.fs_core_seats.specs.code.Searches.{AreBelow};
ghost use Rattle.fs_core.specs.code.Seats.{MovesOn, PlacedOn, PlansOn};
ghost use Rattle.fs_ops_effects.specs.Plans.{moved_by};
ghost use Rattle.fs_ops.specs.PlanOf.{IfFinish, move_of};

use crate::beginning::make_ready;
use crate::checkpoint::NoCheckpoint;
use crate::done::Done;
use crate::start_tree::StartTree;
use fs_calls::{Call, phases};
use fs_core_seats::helping::no_way;
use fs_core_seats::{Running, SeatOrder, Way, seat, to_help_before};
use fs_locks::Holders;
use fs_machine::{Refusal, Stepped};
use fs_memory::Memory;
use fs_names::{CallNo, Limits, Path, SeatNo};
use fs_nodes::{NodeNo, Store};
use fs_ops::Next;
use fs_ops_effects::Plan;
use fs_seq::SeqTree;
use fs_timeline::{Entry, IndexedTimeline, Timeline};
use fs_walk::find_path;
use std::alloc::{AllocError, Global};
use std::marker::Model;
use std::mem;

/// The nodes, who holds them, the pending calls and the timeline.
#[derive(Drop)]
pub struct Core {
    store: Store,
    holders: Holders,
    seats: Vec<Option<Running>>,
    begun: u64,
    commits: u64,
    timeline: IndexedTimeline,
    // A place for each seat, for the search of whom to help: of the core's value it is no part.
    ways: Vec<Way>,
    // For each seat: the call on it that holds nothing yet, and so goes for the root, whatever the nodes are. Most calls wait
    // there, and their steps look at no more than this. Of the core's value it is no part.
    starting: Vec<Option<CallNo>>,
    // The seats with a call under way first: what goes over all calls passes no seat of an ended session. Of the core's value it
    // is no part.
    order: SeatOrder,
    start: StartTree,
    // What begins and seats ask for memory.
    memory: Memory,
}

impl Model for Core {
    ghost use Rattle.std.specs.Prelude.{◌≡◌, length};
    ghost use Rattle.fs_core.specs.CoreValues.{CoreValue};
    ghost use Rattle.fs_core_seats.specs.code.Orders.{AreAmong};
    ghost use Rattle.fs_core.specs.code.Rooms.{IsKept};
    ghost use Rattle.fs_core.specs.code.Starting.{AreStarting};

    ghost Value = { CoreValue };

    ghost view = { λ a. record { start = a.start; store = a.store; holding = a.holders; seats = a.seats.items; timeline = a.timeline.entries; refusals = a.memory } };

    ghost invariant = { λ a. IsKept (record { start = a.start; store = a.store; holding = a.holders; seats = a.seats.items; timeline = a.timeline.entries; refusals = a.memory }) a.begun a.commits a.timeline.reserved × (length a.ways.items ≡ length a.seats.items) × AreStarting a.starting.items a.seats.items × AreAmong a.seats.items a.order.places.items a.order.count };
}

/// How a move is made.
macro_rules! made {
    (ends(), $core:expr, $at:expr, $call:expr) => { Done::Ends($call) };
    ($make:ident($($arg:ident),*), $core:expr, $at:expr, $call:expr) => { $core.$make($at, $call, $($arg),*) };
}

/// A match on a call's next move, whose arms are written from the table of phases (`fs_calls/src/table.rt`): the moves that are
/// made in every phase of a call, and those that are made in one way while it walks and in another once it has its place.
macro_rules! by_move {
    (($core:expr, $at:expr, $call:expr, $next:expr, $place:expr)
        walking $wants:tt
        always { $($move:ident $(($arg:ident))? { [$($make:tt)*] })* }
        by_phase { $($phased:ident($what:ident) { [$($walking:tt)*] ($its:ident) [$($placed:tt)*] })* }
    ) => {
        match $next {
            $(Next::$move $(($arg))? => made!($($make)*, $core, $at, $call),)*
            $(Next::$phased($what) => match $place {
                None => made!($($walking)*, $core, $at, $call),
                Some($its) => made!($($placed)*, $core, $at, $call),
            },)*
        }
    };
}

impl Core {
    /// The call on a seat takes a node, unless another call holds it.
    fn take(&mut self, seat: usize, call: CallNo, node: NodeNo) -> Done
        requires seat { seat < length self.old.seats }
        requires moves { MovesOn self.old seat call (Takes node) }
        ensures step { Does self.old seat result self.new }
        ensures seats { length self.new.seats ≡ length self.old.seats }
        ensures refusals { self.new.refusals ≡ self.old.refusals }
    {
        match self.holders.take(node, call) {
            Err(_) => Done::Busy(node),
            Ok(()) => {
                // It has set out from the root, or had before.
                self.starting[seat] = None;
                seat::take(&mut self.seats[seat], node);
                Done::Took(node)
            }
        }
    }

    /// The call on a seat lets a node go.
    fn let_go(&mut self, seat: usize, call: CallNo, node: NodeNo) -> Done
        requires seat { seat < length self.old.seats }
        requires moves { MovesOn self.old seat call (Leaves node) }
        ensures step { Does self.old seat result self.new }
        ensures seats { length self.new.seats ≡ length self.old.seats }
        ensures refusals { self.new.refusals ≡ self.old.refusals }
    {
        self.holders.let_go(node);
        seat::let_go(&mut self.seats[seat], node, &mut self.store);
        Done::LetGo(node)
    }

    /// The walking call on a seat commits in the timeline, makes its change and fixes its reply. The entry is the
    /// call's number: the call itself is in its Begin entry.
    #[inline(never)]
    fn commit(&mut self, seat: usize, call: CallNo, plan: Plan) -> Done
        requires seat { seat < length self.old.seats }
        requires moves { MovesOn self.old seat call (Finishes (moved_by plan)) }
        requires plan { PlansOn self.old seat plan }
        requires walking { PlacedOn self.old seat None }
        requires alone { NoneBelow (state_of self.old) (moved_by plan) }
        ensures step { Does self.old seat result self.new }
        ensures seats { length self.new.seats ≡ length self.old.seats }
        ensures refusals { self.new.refusals ≡ self.old.refusals }
    {
        seat::carry_out(&mut self.seats[seat], plan, &mut self.store);
        self.commits += 1;
        self.timeline.push(Entry::Commit(call));
        Done::Committed
    }

    /// The placed call on a seat makes its change and fixes its reply.
    #[inline(never)]
    fn carry_out(&mut self, seat: usize, call: CallNo, plan: Plan, place: u64) -> Done
        requires seat { seat < length self.old.seats }
        requires moves { MovesOn self.old seat call (Finishes (moved_by plan)) }
        requires plan { PlansOn self.old seat plan }
        requires placed { PlacedOn self.old seat (Some place) }
        ensures step { Does self.old seat result self.new }
        ensures seats { length self.new.seats ≡ length self.old.seats }
        ensures refusals { self.new.refusals ≡ self.old.refusals }
    {
        seat::carry_out(&mut self.seats[seat], plan, &mut self.store);
        Done::CarriedOut
    }

    /// The walking call on a seat helps a walking call below a node that it would move; where there is none, it commits.
    #[inline(never)]
    fn help_or_commit(&mut self, seat: usize, call: CallNo, plan: Plan) -> Done
        requires seat { seat < length self.old.seats }
        requires moves { MovesOn self.old seat call (Finishes (moved_by plan)) }
        requires plan { PlansOn self.old seat plan }
        requires walking { PlacedOn self.old seat None }
        ensures step { Does self.old seat result self.new }
        ensures seats { length self.new.seats ≡ length self.old.seats }
        ensures refusals { self.new.refusals ≡ self.old.refusals }
    {
        match to_help_before(
            &self.store,
            &self.holders,
            &self.seats,
            self.order.first(),
            &mut self.ways,
            &plan.moved(),
        ) {
            Some(other) => {
                let helped = seat::give_place(&mut self.seats[other], self.commits);
                self.commits += 1;
                self.timeline.push(Entry::Commit(helped));
                Done::Helped(helped)
            }
            None => self.commit(seat, call, plan),
        }
    }

    /// The call on a seat returns, and is not pending any more.
    #[inline(never)]
    fn end(&mut self, seat: usize, call: CallNo) -> Stepped
        requires seat { seat < length self.old.seats }
        requires moves { MovesOn self.old seat call Ends }
        ensures step { Step (state_of self.old) seat result (state_of self.new) }
        ensures seats { length self.new.seats ≡ length self.old.seats }
        ensures refusals { self.new.refusals ≡ self.old.refusals }
    {
        self.order.leave(seat);
        let running = seat::take_out(&mut self.seats[seat]);
        let (reply, again) = running.op.end(&mut self.store);
        self.timeline.push(Entry::Return(call, reply));
        Stepped::Returned(again)
    }

    /// The call on a seat does the move that is its next, unless that is its return.
    fn make_move(&mut self, at: usize, call: CallNo, place: Option<u64>, next: Next) -> Done
        requires seat { at < length self.old.seats }
        requires moves { MovesOn self.old at call (move_of next) }
        requires plan { IfFinish next (PlansOn self.old at) }
        requires placed { PlacedOn self.old at place }
        ensures step { Does self.old at result self.new }
        ensures seats { length self.new.seats ≡ length self.old.seats }
        ensures refusals { self.new.refusals ≡ self.old.refusals }
    {
        phases!(by_move(self, at, call, next, place))
    }

    /// The call on a seat does its next move, as the nodes are, unless that is its return.
    // Apart from `step`, which is a few instructions where a call waits for the root.
    #[inline(never)]
    fn go_on(&mut self, at: usize) -> Done
        requires seat { at < length self.old.seats }
        ensures step { Does self.old at result self.new }
        ensures seats { length self.new.seats ≡ length self.old.seats }
        ensures refusals { self.new.refusals ≡ self.old.refusals }
    {
        let Some(running) = &self.seats[at] else {
            return Done::Idle;
        };
        let (call, place) = (running.call, running.place);
        let next = running.op.next(&self.store);
        self.make_move(at, call, place, next)
    }

    /// The call on a seat does its next move, unless that is its return. One that goes for the root asks for nothing else.
    #[inline(always)]
    fn act(&mut self, at: usize) -> Done
        requires seat { at < length self.old.seats }
        ensures step { Does self.old at result self.new }
        ensures seats { length self.new.seats ≡ length self.old.seats }
        ensures refusals { self.new.refusals ≡ self.old.refusals }
    {
        match self.starting[at] {
            Some(call) => self.take(at, call, NodeNo::ROOT),
            None => self.go_on(at),
        }
    }

    /// The call on a seat does its next move.
    // A caller has this in its own code, so that an answer at which it does not look is not made.
    #[inline(always)]
    pub fn step(&mut self, seat: SeatNo) -> Stepped
        requires seat { seat < length self.old.seats }
        ensures step { Step (state_of self.old) seat result (state_of self.new) }
        ensures seats { length self.new.seats ≡ length self.old.seats }
        ensures refusals { self.new.refusals ≡ self.old.refusals }
    {
        let at = seat.get() as usize;
        match self.act(at) {
            Done::Idle => Stepped::Idle,
            Done::Took(node) => Stepped::Took(node),
            Done::Busy(node) => match self.holders.holder(node) {
                Some(call) => Stepped::Busy(node, call),
                None => unreachable!(),
            },
            Done::LetGo(node) => Stepped::LetGo(node),
            Done::Helped(call) => Stepped::Helped(call),
            Done::Committed => Stepped::Committed,
            Done::CarriedOut => Stepped::CarriedOut,
            Done::Ends(call) => self.end(at, call),
        }
    }

    /// A core whose timeline begins at a tree that the nodes spell, with room for who holds them.
    pub(crate) fn at(alloc: Global, start: SeqTree, store: Store, holders: Holders) -> Core
        requires start { IsStart (seen store).limit start (graph_of store) }
        requires most { (seen store).limit ≤ NODE_LIMIT }
        requires form { (seen store).in_blocks ≡ in_blocks start.limits }
        requires free { holder holders ≡ λ n. None }
        requires room { AreBelow (graph_of store) (room holders) }
        ensures state { state_of result ≡ fresh (seen store).limit start (graph_of store) }
        ensures store { result.store ≡ store }
        ensures seats { result.seats ≡ [] }
        ensures refusals { result.refusals ≡ 0 }
    {
        Core {
            store,
            holders,
            seats: Vec::new(alloc),
            begun: 0,
            commits: 0,
            timeline: IndexedTimeline::new(alloc),
            ways: Vec::new(alloc),
            starting: Vec::new(alloc),
            order: SeatOrder::new(alloc),
            start: StartTree::new(start),
            memory: Memory::new(),
        }
    }

    /// No nodes but the root, no seats and no entries, for at most `limit` nodes, the root included, and a tree of these
    /// limits. The only error is out of memory.
    #[tactic(auto, using(fs_names::proofs::LimitLemmas::nodes_have_room))]
    pub fn with_limits(alloc: Global, limit: usize, limits: Limits) -> Result<Core, AllocError>
        requires least { 1 ≤ limit }
        requires most { limit ≤ node_limit limits }
        ensures state { IfOk result (λ core. state_of core ≡ empty limits limit) }
        ensures seats { IfOk result (λ core. core.seats ≡ []) }
        ensures refusals { IfOk result (λ core. core.refusals ≡ 0) }
    {
        let store = Store::with_form(alloc, limit, limits.in_blocks())?;
        let mut holders = Holders::new(alloc);

        // The root has number 0 and is there from the first. Room for another node is made by the begin that reserves it.
        holders.make_room(1)?;
        let start = SeqTree::with_limits(alloc, limits)?;
        Ok(Core::at(alloc, start, store, holders))
    }

    /// No nodes but the root, no seats and no entries, for as many nodes as the limits of the second version allow, by which it
    /// keeps its tree. The only error is out of memory.
    pub fn new(alloc: Global) -> Result<Core, AllocError>
        ensures state { IfOk result (λ core. state_of core ≡ empty Limits.V2 (node_limit Limits.V2)) }
        ensures seats { IfOk result (λ core. core.seats ≡ []) }
        ensures refusals { IfOk result (λ core. core.refusals ≡ 0) }
    {
        Core::with_limits(alloc, Limits::V2.nodes(), Limits::V2)
    }

    /// One more seat, with no pending call: the first is 0, and each next one is one more. If memory runs out, nothing
    /// changes.
    pub fn seat(&mut self) -> Result<SeatNo, AllocError>
        ensures number { IfOk result (λ seat. seat ≡ length self.old.seats) }
        ensures seats { OnOk result (self.new.seats ≡ self.old.seats ++ None ∷ []) }
        ensures state { state_of self.new ≡ state_of self.old }
        ensures err { OnErr result (self.new.seats ≡ self.old.seats) }
        ensures granted { OnOk result (self.new.refusals ≡ self.old.refusals) }
        ensures refused { OnErr result (self.new.refusals ≢ self.old.refusals) }
    {
        let seat = self.seats.len() as u64;
        self.memory.reserve(&mut self.ways, 1)?;
        self.memory.reserve(&mut self.starting, 1)?;
        self.memory.reserve(&mut self.seats, 1)?;
        self.order.add(&mut self.memory)?;
        self.seats.push_reserved(None);
        self.ways.push_reserved(no_way());
        self.starting.push_reserved(None);
        Ok(SeatNo::new(seat))
    }

    /// Makes room at once for the entries of so many calls more on the seats that there are, where there is memory for
    /// it: a hint, by which nothing changes. Where there is none, each begin asks for its own as it does without.
    pub fn make_room(&mut self, calls: usize)
        ensures { self.new ≡ self.old }
    {
        self.timeline.make_room(calls, self.seats.len());
    }

    /// How many seats there are.
    pub fn seats(&self) -> usize
        ensures { result ≡ length self.now.seats }
    {
        self.seats.len()
    }

    /// The seats with a pending call, perhaps with others among them. Whoever looks for a call looks at no more than
    /// these.
    pub(crate) fn first_seats(&self) -> &[usize]
        ensures { AreListed self.now.seats result.now }
    {
        self.order.first()
    }

    /// A call begins on a seat, and allocates all that it can need. Its number is the number of begins with it. After a
    /// refusal there is no entry, and nothing has changed. `SeatBusy` comes if the seat has a pending call. Otherwise
    /// `Full` comes exactly if the call reserves a number and all are in use, and `OutOfMemory` exactly if memory was
    /// refused, which is counted (`refusals`).
    pub fn begin(&mut self, alloc: Global, seat: SeatNo, call: &Call) -> Result<CallNo, Refusal>
        requires seat { seat < length self.old.seats }
        ensures begins { Begins (state_of self.old) seat call.now result (state_of self.new) }
        ensures seats { length self.new.seats ≡ length self.old.seats }
        ensures granted { result ≢ Err OutOfMemory → self.new.refusals ≡ self.old.refusals }
        ensures refused { result ≡ Err OutOfMemory → self.new.refusals ≢ self.old.refusals }
    {
        let at = seat.get() as usize;
        if self.seats[at].is_some() {
            return Err(Refusal::SeatBusy);
        }
        match make_ready(
            alloc,
            &mut self.memory,
            call,
            &mut self.store,
            &mut self.holders,
            &mut self.timeline,
            self.begun,
            self.start.tree().limits(),
        ) {
            Err(refusal) => Err(refusal),
            Ok(ready) => {
                let call = CallNo::new(ready.number);
                let running = Running {
                    call,
                    place: None,
                    op: ready.op.open(),
                };
                self.order.enter(at);
                seat::start(&mut self.starting[at], call, &running.op);
                seat::put(&mut self.seats[at], running);
                self.begun = ready.number;
                self.timeline.push(Entry::Begin(call, seat, ready.copy));
                Ok(call)
            }
        }
    }

    /// How often memory was refused to begins, new seats and `forget_counted`.
    pub fn refusals(&self) -> u64
        ensures { result ≡ self.now.refusals }
    {
        self.memory.refusals()
    }

    /// As `forget`. If memory is refused, that is counted (`refusals`), and nothing else has changed. If there are no entries,
    /// `OutOfMemory` never comes.
    pub fn forget_counted(&mut self, alloc: Global) -> Result<u64, NoCheckpoint>
        ensures rest { OnOk result (IsAtRest self.old) }
        ensures state { OnOk result (state_of self.new ≡ begun_again (state_of self.old)) }
        ensures calls { IfOk result (λ calls. calls ≡ length (commits self.old.timeline)) }
        ensures seats { self.new.seats ≡ self.old.seats }
        ensures why { IfErr result (IsWhyNot self.old) }
        ensures empty { self.old.timeline ≡ [] → result ≢ Err NoCheckpoint.OutOfMemory }
        ensures err { OnErr result (self.new ≡ record self.old { refusals = self.new.refusals }) }
        ensures granted { result ≢ Err NoCheckpoint.OutOfMemory → self.new.refusals ≡ self.old.refusals }
        ensures refused { result ≡ Err NoCheckpoint.OutOfMemory → self.new.refusals ≢ self.old.refusals }
    {
        let calls = self.commits() as u64;
        let mut memory = mem::replace(&mut self.memory, Memory::new());
        let entries = self.checkpoint_counted(alloc, &mut memory);
        self.memory = memory;
        drop(entries?);
        Ok(calls)
    }

    /// What has happened so far.
    pub fn timeline(&self) -> &[Entry]
        ensures { result.now ≡ self.now.timeline }
    {
        self.timeline.entries()
    }

    /// What has happened so far, with the index of its commits.
    pub(crate) fn index(&self) -> &IndexedTimeline
        ensures { result.now.entries ≡ self.now.timeline }
    {
        &self.timeline
    }

    /// The call that holds a node.
    pub fn holder(&self, node: NodeNo) -> Option<CallNo>
        ensures { result ≡ (state_of self.now).holder node }
    {
        self.holders.holder(node)
    }

    /// The pending call on a seat.
    pub fn under_way(&self, seat: SeatNo) -> Option<CallNo>
        requires seat { seat < length self.now.seats }
        ensures { result ≡ (state_of self.now).on_seat seat }
    {
        seat::number(&self.seats[seat.get() as usize])
    }

    /// The nodes: those of the tree, and those that pending calls have reserved or removed.
    pub fn store(&self) -> &Store
        ensures { result.now ≡ self.now.store }
    {
        &self.store
    }

    /// The node to which a path leads now, whoever holds it.
    pub fn find_path(&self, path: &Path) -> Option<NodeNo>
        ensures { result ≡ numbers (state_of self.now).graph path.now }
    {
        find_path(&self.store, path)
    }

    /// The tree at which the timeline begins, with the limits that calls keep.
    pub fn start(&self) -> &SeqTree
        ensures { result.now ≡ self.now.start }
    {
        self.start.tree()
    }

    /// The timeline begins again at the tree that its commits play, and is handed out. It takes no memory. Nodes and seats stay.
    pub fn begin_again(&mut self, alloc: Global, start: SeqTree) -> Timeline
        requires rest { IsAtRest self.old }
        requires tree { start ≡ next_start self.old.start (commits self.old.timeline) }
        ensures state { state_of self.new ≡ begun_again (state_of self.old) }
        ensures entries { result.entries ≡ self.old.timeline }
        ensures seats { self.new.seats ≡ self.old.seats }
        ensures refusals { self.new.refusals ≡ self.old.refusals }
    {
        self.begun = 0;
        self.commits = 0;
        self.start = StartTree::new(start);
        let told = mem::replace(&mut self.timeline, IndexedTimeline::new(alloc));
        told.into_timeline()
    }

    /// The timeline begins again at the tree that its commits play, which are played here, and is handed out. Nodes and seats stay.
    /// The only error is out of memory, and by it nothing changes.
    pub(crate) fn play_again(
        &mut self,
        alloc: Global,
        memory: &mut Memory,
    ) -> Result<Timeline, AllocError>
        requires rest { IsAtRest self.old }
        ensures state { OnOk result (state_of self.new ≡ begun_again (state_of self.old)) }
        ensures entries { IfOk result (λ told. told.entries ≡ self.old.timeline) }
        ensures seats { OnOk result (self.new.seats ≡ self.old.seats) }
        ensures refusals { self.new.refusals ≡ self.old.refusals }
        ensures err { OnErr result (self.new ≡ self.old) }
        ensures granted { OnOk result (memory.new ≡ memory.old) }
        ensures refused { OnErr result (memory.new ≢ memory.old) }
    {
        self.start.advance(
            alloc,
            memory,
            &self.timeline,
            &self.store,
            self.holders.room(),
        )?;
        self.begun = 0;
        self.commits = 0;
        let told = mem::replace(&mut self.timeline, IndexedTimeline::new(alloc));
        Ok(told.into_timeline())
    }

    /// The tree at which the timeline begins, the entries so far and the nodes, handed out. It takes no memory.
    pub fn into_parts(self) -> (SeqTree, Timeline, Store)
        ensures start { result.0 ≡ self.start }
        ensures timeline { result.1.entries ≡ self.timeline }
        ensures store { result.2 ≡ self.store }
    {
        let Core {
            start,
            timeline,
            store,
            ..
        } = self;
        (start.into_tree(), timeline.into_timeline(), store)
    }

    /// Does nothing, and proves to its caller what every state keeps. A run leads to the state, and its timeline is
    /// lawful. If no call is pending, the nodes spell the tree that the timeline's commits play.
    pub fn told(&self)
        ensures run { Run (state_of self.now) }
        ensures lawful { IsLawful self.now.start self.now.timeline }
        ensures linearizable { IsLinearizable self.now.start (history self.now.timeline) }
        ensures spelled { IsAtRest self.now → graph_shapes (graph_of self.now.store) ≡ tree_shapes (play self.now.start (commits self.now.timeline)) }
    {
        let _ = &self.timeline;
    }
}
