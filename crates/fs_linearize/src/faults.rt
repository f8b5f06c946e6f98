//! The first entry with which entries are no history.

ghost use Rattle.std.specs.Prelude.{◌≡◌, ◌++◌, ◌∷◌, [], List, is_some, Some, None, IfOk, OnOk};
ghost use Rattle.std.specs.Ordering.{nat_cmp};
ghost use Rattle.std.specs.BTreeMap.{get};
ghost use Rattle.fs_calls.specs.declared.call.Call.{Call as Value};
ghost use Rattle.fs_calls.specs.declared.reply.Reply.TheVariants.{Done};
ghost use Rattle.fs_timeline.specs.declared.entry.Entry.{Entry};
ghost use Rattle.fs_timeline.specs.declared.entry.Entry.TheVariants.{Begin, Return};
ghost use Rattle.fs_linearize_histories.specs.Heard.{entry_of};
ghost use Rattle.fs_linearize_histories.specs.Faults.{heard_fault, history_fault};
ghost use Rattle.fs_linearize.specs.code.Knowing.{IsKnown, is_left};

use fs_linearize_histories::{Heard, HistoryFault};
use std::alloc::{AllocError, Global};
use std::collections::BTreeMap;

/// What entries say: which calls have begun and which have returned, by their numbers, and the last call on each seat.
/// Numbers are untrusted input, so they are in search trees: without a keyed hash all could fall into one bucket.
#[derive(Drop)]
struct Known {
    begun: BTreeMap<u64, bool>,
    returned: BTreeMap<u64, bool>,
    last: BTreeMap<u64, u64>,
}

impl Known {
    /// No entry has come yet.
    fn new(alloc: Global) -> Self
        ensures { IsKnown [] result }
    {
        Known {
            begun: BTreeMap::new(alloc),
            returned: BTreeMap::new(alloc),
            last: BTreeMap::new(alloc),
        }
    }

    /// Whether the call of a number has begun.
    fn has_begun(&self, number: u64) -> bool
        ensures { result ≡ is_some (get nat_cmp self.now.begun number) }
    {
        self.begun.get(&number).is_some()
    }

    /// Whether it has returned.
    fn has_returned(&self, number: u64) -> bool
        ensures { result ≡ is_some (get nat_cmp self.now.returned number) }
    {
        self.returned.get(&number).is_some()
    }

    /// Whether the last call of a seat has not returned.
    fn is_busy(&self, seat: u64) -> bool
        ensures { result ≡ is_left self.now (get nat_cmp self.now.last seat) }
    {
        match self.last.get(&seat) {
            Some(number) => !self.has_returned(*number),
            None => false,
        }
    }

    /// What is wrong with an entry that comes next.
    fn fault(&self, entry: &Heard) -> Option<HistoryFault>
        ensures { (before : List Entry) → IsKnown before self.now → result ≡ heard_fault before entry.now }
    {
        match entry {
            Heard::Begin(number, seat, _) => {
                if self.has_begun(number.get()) {
                    Some(HistoryFault::BeginTwice)
                } else if self.is_busy(seat.get()) {
                    Some(HistoryFault::SeatBusy)
                } else {
                    None
                }
            }
            Heard::Return(number, _) => {
                if !self.has_begun(number.get()) {
                    Some(HistoryFault::ReturnUnbegun)
                } else if self.has_returned(number.get()) {
                    Some(HistoryFault::ReturnTwice)
                } else {
                    None
                }
            }
        }
    }

    /// A call begins.
    fn begin(&mut self, number: u64, seat: u64) -> Result<(), AllocError>
        ensures { OnOk result ((before : List Entry) (call : Value) → IsKnown before self.old → IsKnown (before ++ Begin number seat call ∷ []) self.new) }
    {
        self.begun.insert(number, true)?;
        self.last.insert(seat, number)?;
        Ok(())
    }

    /// A call returns.
    fn end(&mut self, number: u64) -> Result<(), AllocError>
        ensures { OnOk result ((before : List Entry) → IsKnown before self.old → IsKnown (before ++ Return number Done ∷ []) self.new) }
    {
        self.returned.insert(number, true)?;
        Ok(())
    }

    /// Takes in an entry.
    fn take_in(&mut self, entry: &Heard) -> Result<(), AllocError>
        ensures { OnOk result ((before : List Entry) → IsKnown before self.old → IsKnown (before ++ entry_of entry.now ∷ []) self.new) }
    {
        match entry {
            Heard::Begin(number, seat, _) => Ok(self.begin(number.get(), seat.get())?),
            Heard::Return(number, _) => Ok(self.end(number.get())?),
        }
    }
}

/// The place of the first entry that cannot come next, counted from 1, and what is wrong with it.
pub(crate) fn first_fault(
    alloc: Global,
    history: &[Heard],
) -> Result<Option<(usize, HistoryFault)>, AllocError>
    ensures { IfOk result (λ fault. fault ≡ history_fault history.now) }
{
    let mut known = Known::new(alloc);
    for (place, entry) in history.iter().enumerate() {
        if let Some(kind) = known.fault(entry) {
            return Ok(Some((place + 1, kind)));
        }
        known.take_in(entry)?;
    }
    Ok(None)
}
