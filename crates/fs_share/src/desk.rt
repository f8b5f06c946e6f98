//! What the lock keeps: the board, and the account of the calls that returned.

ghost use Rattle.std.specs.Prelude.{◌≡◌, ℕ, ◌+◌, ◌<◌, ◌≤◌, ◌^◌, ◌%◌, ◌++◌, ◌∷◌, [], None, if◌then◌else◌, is_some, length, sum_by, vec_len, IfOk, IfSome, OnOk};
ghost use Rattle.fs_nodes.specs.Graphs.{graph_shapes};
ghost use Rattle.fs_nodes.specs.Stores.{graph_of};
ghost use Rattle.fs_calls.specs.Outcomes.{play, next_start};
ghost use Rattle.fs_calls.specs.Starts.{root_start, start_tree};
ghost use Rattle.fs_calls.specs.Tree.{IsTree};
ghost use Rattle.fs_calls.specs.Sights.{tree_shapes};
ghost use Rattle.fs_timeline.specs.Timeline.{IsLawful, commits};
ghost use Rattle.fs_machine.specs.States.{Step};
ghost use Rattle.fs_core.specs.CoreValues.{state_of};
ghost use Rattle.fs_share_wait.specs.Sleeping.{Covers, one_more, woken_for, IsEnough};
ghost use Rattle.fs_share.specs.Boards.{IsReady};
ghost use Rattle.fs_share.specs.Returns.{answered, returns, AllReturned};

use crate::board::Board;
use crate::checkpoint::Ready;
use crate::session::Tally;
use crate::tree::{Closed, Whole};
use fs_core::Stepped;
use fs_names::{Limits, SeatNo};
use fs_nodes::NodeNo;
use fs_share_observe::{Named, Opened};
use fs_share_wait::{Sleepers, Wake};
use fs_timeline::Entry;
use std::alloc::{AllocError, Global};
use std::sync::Wait;
use std::sync::ledger::{Blank, Book, Share};

/// The most seats that there may be: a part of the ledger is left for each.
const MOST_SEATS: usize = usize::MAX / 4;

/// The board, the book of the calls that returned, with a part of its ledger left for each seat that is still to be made,
/// and for which nodes sessions sleep. It is not `Drop`: end it by `close`.
pub(crate) struct Desk<N: Named> {
    pub board: Board<N>,
    pub book: Book<N>,
    pub rest: Share<N>,
    pub sleepers: Sleepers,
    /// How many seats there were when the timeline began.
    pub before: usize,
    ghost counted: { returns board.core.timeline ≡ book.total },
    ghost earlier: { before ≤ length board.core.seats },
    ghost parts: { rest.parts + length board.core.seats ≡ 2 ^ 63 + before },
    ghost nothing: { rest.amount ≡ 0 },
}

/// 1 where the call returned.
#[inline(always)]
pub(crate) fn count_of(stepped: &Stepped) -> u64
    ensures { result ≡ answered stepped.now }
{
    match stepped {
        Stepped::Returned(_) => 1,
        _ => 0,
    }
}

/// Puts the tallies' shares together.
fn merge_all<N: Named>(rest: &mut Share<N>, tallies: Vec<Tally<N>>)
    ensures parts { rest.new.parts ≡ rest.old.parts + vec_len tallies }
    ensures amount { rest.new.amount ≡ rest.old.amount + sum_by (λ tally. tally.count) tallies.items }
    ensures apart { rest.old.parts ≤ N.parts → rest.new.parts ≤ N.parts }
{
    for tally in tallies {
        rest.merge(tally.share);
    }
}

/// How many entries there are.
#[inline(always)]
fn entry_count<N: Named>(board: &Board<N>) -> usize
    ensures count { result ≡ length board.now.core.timeline }
    ensures bound { result < 2 ^ 64 }
{
    board.core().timeline().len()
}

impl<N: Named> Desk<N> {
    /// The root alone, of these limits: no entry, no seat, and nothing is published. The only error is out of memory.
    pub fn open<R: Wait>(
        rt: &R,
        alloc: Global,
        opened: Opened,
        blank: Blank,
        limits: Limits,
    ) -> Result<Desk<N>, AllocError>
        requires book { opened ≡ N.book }
        requires name { blank.name ≡ N.name }
        requires parts { blank.parts ≡ N.parts }
        requires all { blank.parts ≡ 2 ^ 63 }
        ensures start { IfOk result (λ desk. desk.board.core.start ≡ root_start limits) }
        ensures timeline { IfOk result (λ desk. desk.board.core.timeline ≡ []) }
        ensures seats { IfOk result (λ desk. (desk.board.core.seats ≡ []) × (desk.before ≡ 0)) }
        ensures published { IfOk result (λ desk. desk.board.published ≡ []) }
    {
        let board = Board::open(rt, alloc, opened, limits)?;
        let (book, rest) = blank.open::<N>();
        Ok(Desk {
            board,
            book,
            rest,
            sleepers: Sleepers::new(),
            before: 0,
        })
    }

    /// One more seat, with a part of the ledger.
    pub fn seat(&mut self) -> Result<(SeatNo, Share<N>), AllocError>
        ensures share { IfOk result (λ made. (made.1.parts ≡ 1) × (made.1.amount ≡ 0)) }
        ensures seats { OnOk result (self.new.board.core.seats ≡ self.old.board.core.seats ++ None ∷ []) }
        ensures sleepers { self.new.sleepers ≡ self.old.sleepers }
    {
        let before = self.before;
        let Desk { board, rest, .. } = self;
        if board.core().seats() - before >= MOST_SEATS {
            return Err(AllocError);
        }
        let seat = board.seat()?;
        Ok((seat, rest.split_off(1, 0)))
    }

    /// One step of a seat's call. A call that returns counts for the share.
    #[inline(always)]
    pub fn step(&mut self, seat: SeatNo, mine: &mut Share<N>) -> Stepped
        requires { 0 < mine.old.parts }
        ensures step { seat < length self.old.board.core.seats → Step (state_of self.old.board.core) seat result (state_of self.new.board.core) }
        ensures sleepers { self.new.sleepers ≡ self.old.sleepers }
        ensures parts { mine.new.parts ≡ mine.old.parts }
        ensures amount { mine.new.amount ≡ mine.old.amount + answered result }
        ensures room { mine.new.amount < 2 ^ 64 }
    {
        let Desk { board, book, .. } = self;
        let stepped = board.step(seat);
        book.add(mine, count_of(&stepped));
        let _room = entry_count(board);
        book.audit(mine);
        stepped
    }

    /// Whether a call holds a node: whoever asks then goes to sleep, which is noted.
    pub fn sleeps_for(&mut self, node: NodeNo) -> bool
        ensures held { result ≡ is_some ((state_of self.old.board.core).holder node) }
        ensures core { self.new.board.core ≡ self.old.board.core }
        ensures noted { (sleeping : ℕ → ℕ) → Covers self.old.sleepers sleeping → Covers self.new.sleepers (λ other. if result then one_more node other (sleeping other) else sleeping other) }
    {
        let held = self.board.core().holder(node).is_some();
        if held {
            self.sleepers.sleep(node);
        }
        held
    }

    /// Whom a node wakes: nobody where a call holds it, and else one at least of those who sleep for it, if there are any.
    pub fn wakes(&mut self, node: NodeNo) -> Wake
        ensures core { self.new.board.core ≡ self.old.board.core }
        ensures enough { (state_of self.old.board.core).holder node ≡ None → (sleeping : ℕ → ℕ) → Covers self.old.sleepers sleeping → (other : ℕ) → other % 64 ≡ node % 64 → IsEnough result node other (sleeping other) }
        ensures left { (sleeping : ℕ → ℕ) → Covers self.old.sleepers sleeping → Covers self.new.sleepers (woken_for result node sleeping) }
    {
        if self.board.core().holder(node).is_some() {
            return Wake::Nobody;
        }
        self.sleepers.wake(node)
    }

    /// The same core under another name, with its timeline begun again; the entries so far; and the number of seats that were
    /// made since the timeline began.
    pub fn again<M: Named, R: Wait>(
        self,
        rt: &R,
        alloc: Global,
        whole: Whole<N>,
        tallies: Vec<Tally<N>>,
        ready: Ready<M>,
        blank: Blank,
    ) -> (Desk<M>, Vec<Entry>, usize)
        requires ready { IsReady self.board.core ready.tree ready.publisher }
        requires name { blank.name ≡ M.name }
        requires parts { blank.parts ≡ M.parts }
        requires all { blank.parts ≡ 2 ^ 63 }
        ensures tree { IsTree (start_tree self.board.core.start) }
        ensures lawful { IsLawful self.board.core.start result.1.items }
        ensures start { result.0.board.core.start ≡ next_start self.board.core.start (commits result.1.items) }
        ensures sessions { result.2 + self.before ≡ length self.board.core.seats }
        ensures counted { sum_by (λ tally. tally.count) tallies.items ≤ returns result.1.items }
        ensures bound { vec_len tallies ≤ result.2 }
        ensures returns { vec_len tallies ≡ result.2 → returns result.1.items ≡ sum_by (λ tally. tally.count) tallies.items }
    {
        let Desk {
            board,
            mut book,
            mut rest,
            sleepers: _,
            before: earlier,
        } = self;
        merge_all(&mut rest, tallies);
        book.audit(&mut rest);
        let _whole = whole;
        board.core().told();
        let before = board.core().seats();
        let sessions = before - earlier;
        let (board, entries) = board.again(rt, alloc, ready);
        let (book, rest) = blank.open::<M>();
        (
            Desk {
                board,
                book,
                rest,
                sleepers: Sleepers::new(),
                before,
            },
            entries,
            sessions,
        )
    }

    /// The timeline, the nodes and the number of seats that were made since the timeline began. The tallies are of this
    /// tree, by their type.
    pub fn close<R: Wait>(self, rt: &R, whole: Whole<N>, tallies: Vec<Tally<N>>) -> Closed
        ensures start { result.start ≡ self.board.core.start }
        ensures timeline { result.timeline.entries ≡ self.board.core.timeline }
        ensures sessions { result.sessions + self.before ≡ length self.board.core.seats }
        ensures counted { sum_by (λ tally. tally.count) tallies.items ≤ returns result.timeline.entries }
        ensures bound { vec_len tallies ≤ result.sessions }
        ensures lawful { IsLawful result.start result.timeline.entries }
        ensures spelled { AllReturned result.timeline.entries → graph_shapes (graph_of result.store) ≡ tree_shapes (play result.start (commits result.timeline.entries)) }
        ensures returns { vec_len tallies ≡ result.sessions → returns result.timeline.entries ≡ sum_by (λ tally. tally.count) tallies.items }
    {
        let Desk {
            board,
            mut book,
            mut rest,
            sleepers: _,
            before,
        } = self;
        merge_all(&mut rest, tallies);
        book.audit(&mut rest);
        let _whole = whole;
        let core = board.close(rt);
        core.told();
        let sessions = core.seats() - before;
        let (start, timeline, store) = core.into_parts();
        Closed {
            start,
            timeline,
            store,
            sessions,
        }
    }
}
