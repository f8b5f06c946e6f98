//! The writer of what observers see.

ghost use Rattle.std.specs.Prelude.{◌≡◌, true, false, ◌+◌, ◌<◌, ◌≤◌, ◌^◌, ◌++◌, ◌∷◌, [], drop, fold, length, Some, None, IfOk, IfSome, OnOk, OnErr, MatchResult};
ghost use mathlib.Core.List.{IsPrefix};
ghost use Rattle.left_right.specs.Sides.{view};
ghost use Rattle.fs_share_observe.specs.Observed.{Knows};
ghost use Rattle.fs_share_observe.specs.Pasts.{start_of, calls_of};
ghost use Rattle.fs_share_observe.specs.Playing.{total, IsPlayed};
ghost use Rattle.fs_share_observe.specs.Tied.{Tied, IsNext, entered};

use crate::history::{Front, History, Named, Opened, Token};
use crate::observer::{NoPlace, Observer, Stamp};
use crate::shown::{Known, Op, Publishes, Rule, Shown, Tells};
use core::mem::replace_with;
use fs_calls::Call;
use fs_seq::SeqTree;
use left_right::writer::Writer;
use std::alloc::{AllocError, Global};
use std::marker::Model;
use std::sync::Wait;

/// How many observers there may be at a time.
const READER_PLACES: usize = 64;

/// The most calls that a publisher takes in.
const MOST_CALLS: u64 = 1 << 61;

type Copies = Writer<Shown, Op, Known, Rule>;

/// The two copies of a tree that its observers read, and the calls that they lack. Contracts see its lists. It is not
/// `Drop`: end it by `close`.
pub struct Publisher<N: Named> {
    writer: Copies,
    front: Front<N>,
    start: Front<N>,
    history: History<N>,
    held: Option<Op>,
}

impl<N: Named> Model for Publisher<N> {
    ghost use Rattle.std.specs.Prelude.{◌≡◌, ◌∷◌, [], drop};
    ghost use Rattle.left_right.specs.Sides.{view as known_by};
    ghost use Rattle.fs_share_observe.specs.Lists.{Lists};
    ghost use Rattle.fs_share_observe.specs.Observed.{Knows};
    ghost use Rattle.fs_share_observe.specs.Pasts.{start_of, calls_of};
    ghost use Rattle.fs_share_observe.specs.Tied.{Tied, entered};
    ghost use Rattle.fs_share_observe.specs.declared.history.Noted.TheVariants.{Began};

    ghost Value = { Lists };

    ghost view = { λ p. record { start = start_of p.start; published = calls_of p.writer.desk.shown.value.token.log; taken = calls_of p.front; entered = calls_of (entered p.front p.held) } };

    ghost invariant = { λ p. Tied N.book p.writer.desk.shown.value (drop p.writer.behind p.writer.log.items) p.front p.held × Knows N.book (known_by p.writer.desk.place) × (p.start ≡ Began (start_of p.start) ∷ []) × (start_of p.front ≡ start_of p.start) };
}

/// A copy that has played nothing.
fn first_copy(alloc: Global, tree: SeqTree, token: &Token) -> Shown
    ensures { result ≡ record { tree = tree; count = 0; token = token.now; alloc = alloc } }
{
    Shown {
        tree,
        count: 0,
        token: token.again(),
        alloc,
    }
}

/// Shows readers a copy that has played each call.
fn show<R: Wait>(writer: Copies, rt: &R) -> (Copies, Result<(), AllocError>)
    requires played { IsPlayed (total writer.desk.shown.value (drop writer.behind writer.log.items)) }
    requires book { (total writer.desk.shown.value (drop writer.behind writer.log.items)).token.book ≡ writer.desk.shown.value.token.book }
    ensures total { total result.0.desk.shown.value (drop result.0.behind result.0.log.items) ≡ total writer.desk.shown.value (drop writer.behind writer.log.items) }
    ensures ok { OnOk result.1 (result.0.desk.shown.value ≡ total writer.desk.shown.value (drop writer.behind writer.log.items)) }
    ensures err { OnErr result.1 (result.0.desk.shown.value ≡ writer.desk.shown.value) }
    ensures place { MatchResult result.1 (λ _. view result.0.desk.place ≡ (total writer.desk.shown.value (drop writer.behind writer.log.items)).token ∷ []) (λ _. view result.0.desk.place ≡ view writer.desk.place) }
{
    writer.publish_as::<Publishes, R>(rt)
}

/// A writer that has shown its first copy.
fn copies<R: Wait>(rt: &R, alloc: Global, first: Shown, second: Shown) -> Result<Copies, AllocError>
    requires alike { first ≡ second }
    requires played { IsPlayed first }
    ensures shown { IfOk result (λ w. (w.desk.shown.value ≡ first) × (total w.desk.shown.value (drop w.behind w.log.items) ≡ first)) }
    ensures place { IfOk result (λ w. view w.desk.place ≡ first.token ∷ []) }
{
    let writer = Writer::new(alloc, first, second, READER_PLACES)?;
    let (writer, done) = show(writer, rt);
    match done {
        Ok(()) => Ok(writer),
        Err(_) => {
            let _shown = writer.take(rt);
            Err(AllocError)
        }
    }
}

/// The call as an operation: the one that is held, which is of the same call, or a new one, which the history has then.
fn next_op<N: Named>(
    alloc: Global,
    front: &Front<N>,
    history: &History<N>,
    held: Option<Op>,
    call: &Call,
) -> Result<Op, AllocError>
    requires room { length (calls_of front.now) < 2 ^ 62 }
    requires held { IfSome held (λ op. IsNext N.book front.now op × (op.call ≡ call.now)) }
    ensures next { IfOk result (λ op. IsNext N.book front.now op) }
    ensures call { IfOk result (λ op. op.call ≡ call.now) }
    ensures err { OnErr result (held ≡ None) }
{
    if let Some(op) = held {
        return Ok(op);
    }
    let call = call.copy(alloc)?;
    let Some(next) = front.add(history, &call) else {
        return Err(AllocError);
    };
    Ok(Op {
        call,
        token: next.token(),
    })
}

/// Keeps an operation.
fn hold(held: &mut Option<Op>, op: Op)
    ensures { held.new ≡ Some op }
{
    *held = Some(op);
}

/// Has an operation wait to be shown, and counts its call as taken in. Out of memory it is held.
#[tactic(auto, using(crate::proofs::Pasts::calls_push, crate::proofs::Pasts::start_push, crate::proofs::Taking::tied_noted))]
fn append_op<N: Named>(
    writer: &mut Copies,
    front: &mut Front<N>,
    held: &mut Option<Op>,
    op: Op,
) -> Result<(), AllocError>
    requires tied { Tied N.book writer.old.desk.shown.value (drop writer.old.behind writer.old.log.items) front.old held.old }
    requires none { held.old ≡ None }
    requires next { IsNext N.book front.old op }
    requires room { length (calls_of front.old) < 2 ^ 62 }
    ensures tied { Tied N.book writer.new.desk.shown.value (drop writer.new.behind writer.new.log.items) front.new held.new }
    ensures desk { writer.new.desk ≡ writer.old.desk }
    ensures ok { OnOk result ((calls_of front.new ≡ calls_of front.old ++ op.call ∷ []) × (held.new ≡ None)) }
    ensures err { OnErr result (front.new ≡ front.old) }
    ensures start { start_of front.new ≡ start_of front.old }
    ensures entered { calls_of (entered front.new held.new) ≡ calls_of front.old ++ op.call ∷ [] }
{
    let next = Front::of(&op.token, front.len() + 1);
    match writer.append(op) {
        Ok(()) => {
            *front = next;
            Ok(())
        }
        Err(op) => {
            hold(held, op);
            Err(AllocError)
        }
    }
}

impl<N: Named> Publisher<N> {
    /// A publisher that has published the list of no calls, from a start tree that comes twice. The only error is out of
    /// memory.
    pub fn open<R: Wait>(
        rt: &R,
        alloc: Global,
        opened: Opened,
        first: SeqTree,
        second: SeqTree,
    ) -> Result<Publisher<N>, AllocError>
        requires book { opened ≡ N.book }
        requires alike { first ≡ second }
        ensures { IfOk result (λ p. p ≡ record { start = first; published = []; taken = []; entered = [] }) }
    {
        let (history, token) = opened.named::<N>();
        let Some(front) = history.begin(token, &first) else {
            return Err(AllocError);
        };
        let token = front.token();
        let first = first_copy(alloc, first, &token);
        let second = first_copy(alloc, second, &token);
        let writer = copies(rt, alloc, first, second)?;
        Ok(Publisher {
            writer,
            start: front.again(),
            front,
            history,
            held: None,
        })
    }

    /// An observer that has seen nothing yet. The error is that none of the reader places is free, or out of memory.
    /// Whoever keeps the publisher says for how long it is lent.
    pub fn observer<'a>(&mut self) -> Result<Observer<'a, N>, NoPlace>
        ensures same { self.new ≡ self.old }
        ensures first { IfOk result (λ o. o ≡ record { start = self.old.start; list = [] }) }
    {
        let Publisher { writer, start, .. } = self;
        let Ok(mut reader) = writer.factory().reader() else {
            return Err(NoPlace);
        };
        reader.learn::<Tells>(writer.tell::<Tells>());
        Ok(Observer::new(reader, start.again()))
    }

    /// A stamp of the list of no calls: it names the start tree.
    pub fn first(&self) -> Stamp<N>
        ensures { result ≡ record { start = self.now.start; list = [] } }
    {
        Stamp::new(self.start.again())
    }

    /// Each stamp of this tree starts at its start tree.
    pub fn agrees(&self, stamp: &Stamp<N>)
        ensures { stamp.now.start ≡ self.now.start }
    {
        stamp.agrees(&self.start);
    }

    /// Whether a stamp's list is a beginning of the calls that it has taken in. Each of this tree's is.
    pub fn begins_with(&self, stamp: &Stamp<N>) -> bool
        ensures listed { result ≡ true → IsPrefix stamp.now.list self.now.taken }
        ensures longer { result ≡ false → length self.now.taken < length stamp.now.list }
    {
        stamp.begins(&self.front)
    }

    /// How many calls it has taken in.
    pub fn taken(&self) -> usize
        ensures { result ≡ length self.now.taken }
    {
        self.front.len() as usize
    }

    /// Takes in a call after the others. If memory runs out, the history may have the call already; it is then the one
    /// that comes next.
    pub fn take_in(&mut self, alloc: Global, call: &Call) -> Result<(), AllocError>
        requires { IsPrefix self.old.entered (self.old.taken ++ call.now ∷ []) }
        ensures start { self.new.start ≡ self.old.start }
        ensures published { self.new.published ≡ self.old.published }
        ensures ok { OnOk result ((self.new.taken ≡ self.old.taken ++ call.now ∷ []) × (self.new.entered ≡ self.new.taken)) }
        ensures err { OnErr result (self.new.taken ≡ self.old.taken) }
        ensures entered { OnErr result (IsPrefix self.new.entered (self.old.taken ++ call.now ∷ [])) }
    {
        let Publisher {
            writer,
            front,
            history,
            held,
            ..
        } = self;
        if front.len() >= MOST_CALLS {
            return Err(AllocError);
        }
        let op = next_op(alloc, front, history, held.take(), call)?;
        append_op(writer, front, held, op)
    }

    /// Shows observers the tree after all calls that were taken in, and answers a stamp of that list. It waits for
    /// observers that still read the tree that was shown before the last. If memory runs out, they see what they saw.
    pub fn publish<R: Wait>(&mut self, rt: &R) -> Result<Stamp<N>, AllocError>
        ensures start { self.new.start ≡ self.old.start }
        ensures taken { (self.new.taken ≡ self.old.taken) × (self.new.entered ≡ self.old.entered) }
        ensures ok { IfOk result (λ stamp. (stamp ≡ record { start = self.old.start; list = self.old.taken }) × (self.new.published ≡ self.old.taken)) }
        ensures err { OnErr result (self.new.published ≡ self.old.published) }
    {
        let Publisher { writer, front, .. } = self;
        replace_with(writer, rt, show)?;
        Ok(Stamp::new(front.again()))
    }

    /// Ends the publisher. Its observers answer no more.
    pub fn close<R: Wait>(self, rt: &R) {
        let Publisher {
            writer,
            front: _front,
            start: _start,
            history: _history,
            held: _held,
        } = self;
        let _shown = writer.take(rt);
    }
}
