//! Readers that wait for nobody.

ghost use Rattle.std.specs.Prelude.{◌≡◌, ◌∷◌, [], true, false, ◌<◌, length, IfOk, OnErr, IsTrue};
ghost use mathlib.Core.List.{IsPrefix};
ghost use Rattle.fs_calls.specs.Outcomes.{next_start, reply_at};
ghost use Rattle.fs_seq.specs.Looks.{is_look};
ghost use Rattle.left_right.specs.Sides.{view};
ghost use Rattle.fs_share_observe.specs.Observed.{Knows};
ghost use Rattle.fs_share_observe.specs.Pasts.{start_of, calls_of, past_of, GoesOn};
ghost use Rattle.fs_share_observe.specs.Playing.{IsPlayed};

use crate::history::{Front, Named};
use crate::shown::{Known, Rule, Sees, Shown};
use core::mem::replace_with;
use fs_calls::{Call, Reply};
use fs_names::Path;
use left_right::reader::Reader;
use std::alloc::{AllocError, Global};
use std::marker::{Model, PhantomData};

pub(crate) type Seat = Reader<Shown, Known, Rule>;

/// None of the reader places is free, or there is no memory for one.
#[derive(Clone, Copy, Debug, PartialEq, Eq)]
pub struct NoPlace;

/// Tells a list that was published. Contracts see that list, and the tree at which it starts.
#[derive(Drop)]
pub struct Stamp<N: Named> {
    front: Front<N>,
}

impl<N: Named> Model for Stamp<N> {
    ghost use Rattle.fs_share_observe.specs.Pasts.{Past, past_of};

    ghost Value = { Past };

    ghost view = { λ s. past_of s.front };
}

impl<N: Named> Stamp<N> {
    pub(crate) fn new(front: Front<N>) -> Stamp<N>
        ensures { result ≡ past_of front }
    {
        Stamp { front }
    }

    /// The stamp's list starts at the same tree as another beginning of the history.
    pub(crate) fn agrees(&self, front: &Front<N>)
        ensures { self.now.start ≡ start_of front.now }
    {
        let _both = self.front.longer(front);
    }

    /// Whether the stamp's list is a beginning of that of another beginning of the history: it is where it is no longer.
    pub(crate) fn begins(&self, front: &Front<N>) -> bool
        ensures listed { result ≡ true → IsPrefix self.now.list (calls_of front.now) }
        ensures longer { result ≡ false → length (calls_of front.now) < length self.now.list }
    {
        let _both = front.longer(&self.front);
        self.front.len() <= front.len()
    }

    /// The same again.
    pub fn again(&self) -> Stamp<N>
        ensures { result ≡ self.now }
    {
        Stamp::new(self.front.again())
    }

    /// The lists of all stamps of one tree start at one tree.
    pub fn same_start(&self, other: &Stamp<N>)
        ensures { self.now.start ≡ other.now.start }
    {
        self.agrees(&other.front);
    }
}

/// A reader of a tree that waits for nobody, for as long as the tree is lent to it. It keeps the list that it last
/// showed or learned, which contracts see, with the tree at which it starts. Each such list was published. What readers
/// are shown is played from it (`IsPlayed` in the rule of the copies), and a stamp is made of a published list alone.
#[derive(Drop)]
pub struct Observer<'a, N: Named> {
    reader: Seat,
    kept: Front<N>,
    lent: PhantomData<&'a ()>,
}

impl<'a, N: Named> Model for Observer<'a, N> {
    ghost use Rattle.left_right.specs.Sides.{view as known_by};
    ghost use Rattle.fs_share_observe.specs.Observed.{Knows};
    ghost use Rattle.fs_share_observe.specs.Pasts.{Past, past_of};

    ghost Value = { Past };

    ghost view = { λ o. past_of o.kept };

    ghost invariant = { λ o. Knows N.book (known_by o.reader.place) };
}

/// The list that is shown, where it is no shorter than the kept one, with which it then begins.
fn front_in<N: Named>(shown: &Shown, kept: &Front<N>) -> Result<Front<N>, AllocError>
    requires book { shown.now.token.book ≡ N.book }
    requires played { IsPlayed shown.now }
    ensures { IfOk result (λ front. GoesOn (past_of kept.now) (past_of front) × (front ≡ shown.now.token.log)) }
{
    let front = Front::<N>::of(&shown.token, shown.count);
    if front.len() < kept.len() {
        return Err(AllocError);
    }
    Ok(front.longer(kept))
}

/// The reply by the tree that is shown, and its list.
fn answer_by<N: Named>(
    alloc: Global,
    shown: &Shown,
    call: &Call,
    kept: &Front<N>,
) -> Result<(Reply, Front<N>), AllocError>
    requires look { IsTrue (is_look call.now) }
    requires book { shown.now.token.book ≡ N.book }
    requires played { IsPlayed shown.now }
    ensures { IfOk result (λ r. GoesOn (past_of kept.now) (past_of r.1) × (r.0 ≡ reply_at (next_start (start_of r.1) (calls_of r.1)) call.now)) }
{
    let front = front_in(shown, kept)?;
    let reply = shown.tree.look(alloc, call)?;
    Ok((reply, front))
}

/// The reply by the list that is shown, and that list. A reader whose publisher has ended, or whose list is not out yet,
/// has none; neither can be met while the tree is there.
fn look_in<N: Named>(
    reader: Seat,
    asked: (Global, &Call, &Front<N>),
) -> (Seat, Result<(Reply, Front<N>), AllocError>)
    requires look { IsTrue (is_look asked.1.now) }
    requires knows { Knows N.book (view reader.place) }
    ensures knows { view result.0.place ≡ view reader.place }
    ensures answer { IfOk result.1 (λ r. GoesOn (past_of asked.entry.2.now) (past_of r.1) × (r.0 ≡ reply_at (next_start (start_of r.1) (calls_of r.1)) asked.entry.1.now)) }
{
    let (alloc, call, kept) = asked;
    match reader.enter_as::<Sees>() {
        Ok(reading) => {
            let answer = answer_by(alloc, reading.get(), call, kept);
            (reading.leave(), answer)
        }
        Err(reader) => (reader, Err(AllocError)),
    }
}

/// The list that is shown.
fn count_in<N: Named>(reader: Seat, kept: &Front<N>) -> (Seat, Result<Front<N>, AllocError>)
    requires knows { Knows N.book (view reader.place) }
    ensures knows { view result.0.place ≡ view reader.place }
    ensures front { IfOk result.1 (λ front. GoesOn (past_of kept.now) (past_of front)) }
{
    match reader.enter_as::<Sees>() {
        Ok(reading) => {
            let front = front_in(reading.get(), kept);
            (reading.leave(), front)
        }
        Err(reader) => (reader, Err(AllocError)),
    }
}

impl<'a, N: Named> Observer<'a, N> {
    pub(crate) fn new(reader: Seat, kept: Front<N>) -> Observer<'a, N>
        requires { Knows N.book (view reader.place) }
        ensures { result ≡ past_of kept }
    {
        Observer {
            reader,
            kept,
            lent: PhantomData,
        }
    }

    /// The reply to a call that changes nothing, by a published list that begins with the kept one, and is kept from then
    /// on. Out of memory the kept list stays.
    fn look(&mut self, alloc: Global, call: &Call) -> Result<Reply, AllocError>
        requires { IsTrue (is_look call.now) }
        ensures kept { IfOk result (λ r. GoesOn self.old self.new) }
        ensures reply { IfOk result (λ r. r ≡ reply_at (next_start self.new.start self.new.list) call.now) }
        ensures err { OnErr result (self.new ≡ self.old) }
    {
        let Observer { reader, kept, .. } = self;
        let (reply, front) = replace_with(reader, (alloc, call, &*kept), look_in)?;
        *kept = front;
        Ok(reply)
    }

    /// The kind of a node, and its size: bytes of a file, entries of a directory; as it is after the calls of a published
    /// list that begins with the kept one, and is kept from then on (POSIX.1-2017, XSH 3, stat()). Out of memory the kept
    /// list stays.
    pub fn stat(&mut self, alloc: Global, path: &Path) -> Result<Reply, AllocError>
        ensures kept { IfOk result (λ r. GoesOn self.old self.new) }
        ensures reply { IfOk result (λ r. r ≡ reply_at (next_start self.new.start self.new.list) (Call.Stat path.now)) }
        ensures err { OnErr result (self.new ≡ self.old) }
    {
        let call = Call::Stat(path.copy()?);
        self.look(alloc, &call)
    }

    /// All names of a directory in byte order, where a call can answer them, by a published list in the same way.
    pub fn readdir(&mut self, alloc: Global, path: &Path) -> Result<Reply, AllocError>
        ensures kept { IfOk result (λ r. GoesOn self.old self.new) }
        ensures reply { IfOk result (λ r. r ≡ reply_at (next_start self.new.start self.new.list) (Call.Readdir path.now)) }
        ensures err { OnErr result (self.new ≡ self.old) }
    {
        let call = Call::Readdir(path.copy()?);
        self.look(alloc, &call)
    }

    /// Names of a directory above the last name of the path `after`, in byte order, and at most `count`, or as many as a call
    /// answers, by a published list in the same way.
    pub fn list(
        &mut self,
        alloc: Global,
        path: &Path,
        after: &Path,
        count: u32,
    ) -> Result<Reply, AllocError>
        ensures kept { IfOk result (λ r. GoesOn self.old self.new) }
        ensures reply { IfOk result (λ r. r ≡ reply_at (next_start self.new.start self.new.list) (Call.ListAfter count path.now after.now)) }
        ensures err { OnErr result (self.new ≡ self.old) }
    {
        let call = Call::ListAfter(count, path.copy()?, after.copy()?);
        self.look(alloc, &call)
    }

    /// At most `count` bytes of a file from the offset `off` on, or as many as a read answers, by a published list in the
    /// same way.
    pub fn read(
        &mut self,
        alloc: Global,
        path: &Path,
        off: u64,
        count: u64,
    ) -> Result<Reply, AllocError>
        ensures kept { IfOk result (λ r. GoesOn self.old self.new) }
        ensures reply { IfOk result (λ r. r ≡ reply_at (next_start self.new.start self.new.list) (Call.Read path.now off count)) }
        ensures err { OnErr result (self.new ≡ self.old) }
    {
        let call = Call::Read(path.copy()?, off, count);
        self.look(alloc, &call)
    }

    /// How many calls the list has that is shown, which begins with the kept one, and is kept from then on. It takes no
    /// memory, and never fails: where what is shown cannot be entered, which is not met, it answers the kept list's length.
    pub fn count(&mut self) -> u64
        ensures kept { GoesOn self.old self.new }
        ensures count { result ≡ length self.new.list }
    {
        let Observer { reader, kept, .. } = self;
        if let Ok(front) = replace_with(reader, &*kept, count_in) {
            *kept = front;
        }
        self.kept.len()
    }

    /// A stamp of the list that it keeps: whoever learns it sees no less than this observer did. It takes no memory.
    pub fn stamp(&self) -> Stamp<N>
        ensures { result ≡ self.now }
    {
        Stamp::new(self.kept.again())
    }

    /// From now on each list begins with the stamp's list too. It takes no memory.
    pub fn learn(&mut self, stamp: &Stamp<N>)
        ensures kept { GoesOn self.old self.new }
        ensures told { GoesOn stamp.now self.new }
    {
        self.kept = self.kept.longer(&stamp.front);
    }
}
