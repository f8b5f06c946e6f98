//! The calls of a journal, by their numbers.

ghost use Rattle.std.specs.Prelude.{◌≡◌, true, false, Some, None, IsSome, IfSome, option_copied, OnOk};
ghost use Rattle.fs_timeline.specs.JournalStates.{return_fault, changed};
ghost use Rattle.fs_journal.specs.code.Calls.{begun_at, IsPlaceOf};

use fs_calls::{Call, Reply};
use fs_timeline::verdict::FaultKind;
use std::alloc::{AllocError, Global};
use std::collections::BTreeMap;

/// What is known of a call that has begun.
#[derive(Drop)]
pub(crate) struct Begun<'a> {
    pub call: &'a Call,
    /// The reply that is due to it, once it has committed.
    pub due: Option<Reply>,
    pub returned: bool,
}

impl Begun<'_> {
    /// What is wrong with a Return of the call: the order of the entries before the reply.
    pub fn return_fault(&self, reply: &Reply) -> Option<FaultKind>
        ensures { result ≡ return_fault self.now.due self.now.returned reply.now }
    {
        match &self.due {
            None => Some(FaultKind::ReturnUncommitted),
            Some(_) if self.returned => Some(FaultKind::ReturnTwice),
            Some(due) if !due.same(reply) => Some(FaultKind::WrongReply),
            Some(_) => None,
        }
    }

    fn commit(&mut self, reply: Reply)
        ensures { self.new ≡ record self.old { due = Some reply } }
    {
        self.due = Some(reply);
    }

    fn end(&mut self)
        ensures { self.new ≡ record self.old { returned = true } }
    {
        self.returned = true;
    }
}

/// The calls that have begun. Those that began in the order of their numbers, from 1 on, are in a vector, and the
/// others in a search tree. Call numbers are untrusted input, and without a keyed hash all of them could fall into one
/// bucket.
#[derive(Drop)]
pub(crate) struct Calls<'a> {
    in_order: Vec<Begun<'a>>,
    others: BTreeMap<u64, Begun<'a>>,
}

impl<'a> Calls<'a> {
    /// No call has begun.
    pub fn new(alloc: Global) -> Self
        ensures { begun_at result ≡ λ c. None }
    {
        Calls {
            in_order: Vec::new(alloc),
            others: BTreeMap::new(alloc),
        }
    }

    /// Where the call of this number is in the vector, if it is there.
    fn place_of(&self, number: u64) -> Option<usize>
        ensures { IsPlaceOf self.now.in_order.items number result }
    {
        let place = number.checked_sub(1)? as usize;
        if place < self.in_order.len() {
            Some(place)
        } else {
            None
        }
    }

    /// What is known of the call of this number.
    pub fn get(&self, number: u64) -> Option<&Begun<'a>>
        ensures { option_copied result ≡ begun_at self.now number }
    {
        match self.place_of(number) {
            Some(place) => Some(&self.in_order[place]),
            None => self.others.get(&number),
        }
    }

    /// A call of a new number begins.
    pub fn begin(&mut self, number: u64, call: &'a Call) -> Result<(), AllocError>
        requires { begun_at self.old number ≡ None }
        ensures { OnOk result (begun_at self.new ≡ changed (begun_at self.old) number (Some (record { call = call.entry; due = None; returned = false }))) }
    {
        let begun = Begun {
            call,
            due: None,
            returned: false,
        };
        if number.checked_sub(1) == Some(self.in_order.len() as u64) {
            self.in_order.push(begun)?;
        } else {
            self.others.insert(number, begun)?;
        }
        Ok(())
    }

    /// A call that has begun commits: this reply is due to it.
    pub fn commit(&mut self, number: u64, reply: Reply)
        requires { IsSome (begun_at self.old number) }
        ensures { IfSome (begun_at self.old number) (λ begun. begun_at self.new ≡ changed (begun_at self.old) number (Some (record begun { due = Some reply }))) }
    {
        if let Some(place) = self.place_of(number) {
            self.in_order[place].commit(reply);
        } else if let Some(begun) = self.others.get_mut(&number) {
            begun.commit(reply);
        }
    }

    /// A call that has begun returns.
    pub fn end(&mut self, number: u64)
        requires { IsSome (begun_at self.old number) }
        ensures { IfSome (begun_at self.old number) (λ begun. begun_at self.new ≡ changed (begun_at self.old) number (Some (record begun { returned = true }))) }
    {
        if let Some(place) = self.place_of(number) {
            self.in_order[place].end();
        } else if let Some(begun) = self.others.get_mut(&number) {
            begun.end();
        }
    }
}
