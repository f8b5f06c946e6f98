//! The checker of journals.

ghost use Rattle.std.specs.Prelude.{◌≡◌, ◌↔◌, true, [], Some, None, IsSome, IfOk, OnOk};
ghost use Rattle.fs_names.specs.declared.limits.Limits.TheVariants.{V2};
ghost use Rattle.fs_calls.specs.Starts.{root_start};
ghost use Rattle.fs_timeline.specs.Timeline.{IsLawful};
ghost use Rattle.fs_timeline.specs.Verdicts.{verdict};
ghost use Rattle.fs_timeline.specs.Laws.{NamesFirstFault};
ghost use Rattle.fs_timeline.specs.JournalStates.{known_fault, taken_in, is_waiting, IsTrueOf};
ghost use Rattle.fs_journal.specs.code.Checkers.{known};

use crate::calls::Calls;
use fs_calls::{Call, Reply};
use fs_names::{CallNo, SeatNo};
use fs_seq::SeqTree;
use fs_timeline::entry::Entry;
use fs_timeline::verdict::{FaultKind, Verdict};
use std::alloc::{AllocError, Global};
use std::collections::BTreeMap;

/// What is known of the entries so far.
#[derive(Drop)]
struct Checker<'a> {
    calls: Calls<'a>,
    /// The last call on each seat.
    last: BTreeMap<u64, u64>,
    /// The tree after the commits.
    tree: SeqTree,
}

impl<'a> Checker<'a> {
    /// Before the first entry, from a start tree.
    fn new(alloc: Global, start: SeqTree) -> Self
        ensures { IsTrueOf start (known result) [] }
    {
        Checker {
            calls: Calls::new(alloc),
            last: BTreeMap::new(alloc),
            tree: start,
        }
    }

    /// What is wrong with an entry that comes next.
    fn fault(&self, entry: &Entry) -> Option<FaultKind>
        ensures { result ≡ known_fault (known self.now) entry.now }
    {
        match entry {
            Entry::Begin(number, seat, _) => self.begin_fault(*number, *seat),
            Entry::Commit(number) => self.commit_fault(*number),
            Entry::Return(number, reply) => self.return_fault(*number, reply),
        }
    }

    /// Whether the last call of a seat has not returned.
    fn is_busy(&self, seat: SeatNo) -> bool
        ensures { result ≡ is_waiting (known self.now).returned ((known self.now).last seat) }
    {
        match self.last.get(&seat.get()) {
            Some(number) => match self.calls.get(*number) {
                Some(begun) => !begun.returned,
                None => true,
            },
            None => false,
        }
    }

    /// What is wrong with a Begin: the number before the seat.
    fn begin_fault(&self, number: CallNo, seat: SeatNo) -> Option<FaultKind>
        ensures { (call : Call) → result ≡ known_fault (known self.now) (Entry.Begin number seat call) }
    {
        if self.calls.get(number.get()).is_some() {
            Some(FaultKind::BeginTwice)
        } else if self.is_busy(seat) {
            Some(FaultKind::SeatBusy)
        } else {
            None
        }
    }

    /// What is wrong with a Commit.
    fn commit_fault(&self, number: CallNo) -> Option<FaultKind>
        ensures { result ≡ known_fault (known self.now) (Entry.Commit number) }
    {
        match self.calls.get(number.get()) {
            None => Some(FaultKind::CommitUnbegun),
            Some(begun) if begun.due.is_some() => Some(FaultKind::CommitTwice),
            Some(_) => None,
        }
    }

    /// What is wrong with a Return: the order of the entries before the reply.
    fn return_fault(&self, number: CallNo, reply: &Reply) -> Option<FaultKind>
        ensures { result ≡ known_fault (known self.now) (Entry.Return number reply.now) }
    {
        match self.calls.get(number.get()) {
            Some(begun) => begun.return_fault(reply),
            None => Some(FaultKind::ReturnUncommitted),
        }
    }

    /// Takes in an entry in which nothing is wrong. Out of memory, part of it may be taken in.
    fn take_in(&mut self, alloc: Global, entry: &'a Entry) -> Result<(), AllocError>
        requires { known_fault (known self.old) entry.now ≡ None }
        ensures { OnOk result (known self.new ≡ taken_in (known self.old) entry.now) }
    {
        match entry {
            Entry::Begin(number, seat, call) => self.begin(*number, *seat, call),
            Entry::Commit(number) => self.commit(alloc, *number),
            Entry::Return(number, _) => {
                self.end(*number);
                Ok(())
            }
        }
    }

    /// Keeps the call under its number, and its number as the last one on the seat.
    fn begin(&mut self, number: CallNo, seat: SeatNo, call: &'a Call) -> Result<(), AllocError>
        requires { (known self.old).calls number ≡ None }
        ensures { OnOk result (known self.new ≡ taken_in (known self.old) (Entry.Begin number seat call.now)) }
    {
        self.calls.begin(number.get(), call)?;
        self.last.insert(seat.get(), number.get())?;
        Ok(())
    }

    /// Plays the call, and keeps the reply that is due to it.
    fn commit(&mut self, alloc: Global, number: CallNo) -> Result<(), AllocError>
        ensures { OnOk result (known self.new ≡ taken_in (known self.old) (Entry.Commit number)) }
    {
        if let Some(begun) = self.calls.get(number.get()) {
            let reply = self.tree.apply(alloc, begun.call)?;
            self.calls.commit(number.get(), reply);
        }
        Ok(())
    }

    /// Keeps that the call has returned.
    fn end(&mut self, number: CallNo)
        requires { IsSome ((known self.old).replies number) }
        ensures { (reply : Reply) → known self.new ≡ taken_in (known self.old) (Entry.Return number reply) }
    {
        self.calls.end(number.get());
    }
}

/// The verdict on a journal that begins at a tree, by the limits of that tree, which is played on: over the entries once, up to the first fault.
pub fn check_on(alloc: Global, start: SeqTree, entries: &[Entry]) -> Result<Verdict, AllocError>
    ensures verdict { IfOk result (λ v. v ≡ verdict start entries.now) }
    ensures lawful { IfOk result (λ v. (v ≡ Verdict.Lawful) ↔ IsLawful start entries.now) }
    ensures first_fault { IfOk result (NamesFirstFault start entries.now) }
{
    let mut checker = Checker::new(alloc, start);
    for (index, entry) in entries.iter().enumerate() {
        if let Some(kind) = checker.fault(entry) {
            return Ok(Verdict::Fault(index + 1, kind));
        }
        checker.take_in(alloc, entry)?;
    }
    Ok(Verdict::Lawful)
}

/// The verdict on a journal that begins at the root alone, by the limits of the second version. It goes over the entries
/// once, up to the first fault, and plays each call on a sequential tree where it commits.
pub fn check(alloc: Global, entries: &[Entry]) -> Result<Verdict, AllocError>
    ensures verdict { IfOk result (λ v. v ≡ verdict (root_start V2) entries.now) }
    ensures lawful { IfOk result (λ v. (v ≡ Verdict.Lawful) ↔ IsLawful (root_start V2) entries.now) }
    ensures first_fault { IfOk result (NamesFirstFault (root_start V2) entries.now) }
{
    check_on(alloc, SeqTree::new(alloc)?, entries)
}

/// The verdict on a journal that begins at a tree, by the limits of that tree, which stays: its calls are played on a copy
/// of it.
pub fn check_from(alloc: Global, start: &SeqTree, entries: &[Entry]) -> Result<Verdict, AllocError>
    ensures verdict { IfOk result (λ v. v ≡ verdict start.now entries.now) }
    ensures lawful { IfOk result (λ v. (v ≡ Verdict.Lawful) ↔ IsLawful start.now entries.now) }
    ensures first_fault { IfOk result (NamesFirstFault start.now entries.now) }
{
    check_on(alloc, start.copy()?, entries)
}
