//! What is heard of the entries of a timeline: which calls each thread began, and where each returned.

ghost use Rattle.std.specs.Prelude.{◌≡◌, ◌++◌, ◌∷◌, ◌<◌, ◌-◌, ℕ, [], None, Some, OnOk, IfOk, map, get_or, length, slice_get, List};
ghost use Rattle.fs_timeline.specs.declared.entry.Entry.{Entry};
ghost use Rattle.fs_sched_seen.specs.Calls.{reply_at};
ghost use Rattle.fs_sched_seen.specs.code.Heards.{begun_of, returned_of, Begins, Returns, IsHeard, IsReturnAt};
ghost use Rattle.fs_sched_seen.specs.code.Meetings.{pending_on};

use crate::places::Place;
use fs_text::write_reply;
use fs_timeline::Entry;
use std::alloc::{AllocError, Global};

/// The numbers of the calls that each thread began, in order, and by the number of a call where it returned.
#[derive(Drop)]
pub(crate) struct Heard {
    begun: Vec<Vec<usize>>,
    returned: Vec<Option<usize>>,
}

/// Makes lists up to that of a thread.
fn reach_thread(alloc: Global, begun: &mut Vec<Vec<usize>>, seat: usize) -> Result<(), AllocError>
    ensures there { OnOk result (seat < length begun.new.items) }
    ensures same { OnOk result ((other : ℕ) → get_or (map (λ calls. calls.items) begun.new.items) other [] ≡ get_or (map (λ calls. calls.items) begun.old.items) other []) }
{
    'lists: while begun.len() <= seat {
        begun.push(Vec::new(alloc))?;
    }
    Ok(())
}

/// Makes places up to that of a call.
fn reach_call(returned: &mut Vec<Option<usize>>, call: usize) -> Result<(), AllocError>
    ensures there { OnOk result (call < length returned.new.items) }
    ensures same { OnOk result ((other : ℕ) → get_or returned.new.items other None ≡ get_or returned.old.items other None) }
{
    if call < returned.len() {
        return Ok(());
    }
    match call.checked_add(1) {
        Some(calls) => returned.resize(calls, None),
        None => Err(AllocError),
    }
}

impl Heard {
    /// Before the first entry.
    pub(crate) fn new(alloc: Global) -> Heard
        ensures { IsHeard result [] }
    {
        Heard {
            begun: Vec::new(alloc),
            returned: Vec::new(alloc),
        }
    }

    /// A call began on a seat.
    fn begins(&mut self, alloc: Global, call: usize, seat: usize) -> Result<(), AllocError>
        ensures begun { OnOk result (Begins self.old self.new seat call) }
        ensures returned { OnOk result ((c : ℕ) → returned_of self.new c ≡ returned_of self.old c) }
    {
        reach_thread(alloc, &mut self.begun, seat)?;
        self.begun[seat].push(call)?;
        Ok(())
    }

    /// A call returned, by the entry at this place.
    fn returns(&mut self, call: usize, at: usize) -> Result<(), AllocError>
        ensures returned { OnOk result (Returns self.old self.new call at) }
        ensures begun { OnOk result ((seat : ℕ) → begun_of self.new seat ≡ begun_of self.old seat) }
    {
        reach_call(&mut self.returned, call)?;
        self.returned[call] = Some(at);
        Ok(())
    }

    /// Takes in the entry at a place.
    pub(crate) fn hear(&mut self, alloc: Global, entry: &Entry, at: usize) -> Result<(), AllocError>
        ensures { (es : List Entry) → length es ≡ at → IsHeard self.old es → OnOk result (IsHeard self.new (es ++ entry.now ∷ [])) }
    {
        match entry {
            Entry::Begin(call, seat, _) => {
                self.begins(alloc, call.get() as usize, seat.get() as usize)
            }
            Entry::Commit(_) => Ok(()),
            Entry::Return(call, _) => self.returns(call.get() as usize, at),
        }
    }

    /// The numbers of the calls of a thread.
    fn calls_of(&self, seat: usize) -> &[usize]
        ensures { result.now ≡ begun_of self.now seat }
    {
        if seat < self.begun.len() {
            self.begun[seat].as_slice()
        } else {
            &[]
        }
    }

    /// The number of the call at a place.
    fn number_at(&self, place: Place) -> Option<usize>
        ensures { result ≡ slice_get (begun_of self.now place.seat) (place.turn - 1) }
    {
        let calls = self.calls_of(place.seat);
        calls.get(place.turn.saturating_sub(1)).copied()
    }

    /// Where the call of a number returned.
    fn return_of(&self, call: usize) -> Option<usize>
        ensures { result ≡ returned_of self.now call }
    {
        if call >= self.returned.len() {
            return None;
        }
        self.returned[call]
    }

    /// The call of a thread that is pending: the last one that it has begun, if that has not returned.
    pub(crate) fn pending_on(&self, seat: usize) -> Option<Place>
        ensures { (es : List Entry) → IsHeard self.now es → result ≡ pending_on es seat }
    {
        let calls = self.calls_of(seat);
        let turn = calls.len();
        if turn == 0 {
            return None;
        }
        match self.return_of(calls[turn - 1]) {
            Some(_) => None,
            None => Some(Place { seat, turn }),
        }
    }

    /// Where the call at a place returned.
    fn return_at(&self, place: Place) -> Option<usize>
        ensures { (es : List Entry) → IsHeard self.now es → IsReturnAt es place result }
    {
        match self.number_at(place) {
            Some(call) => self.return_of(call),
            None => None,
        }
    }

    /// What the call at a place replied, in the words of a journal.
    pub(crate) fn reply_at(
        &self,
        alloc: Global,
        entries: &[Entry],
        place: Place,
    ) -> Result<Vec<u8>, AllocError>
        requires { IsHeard self.now entries.now }
        ensures { IfOk result (λ text. text.items ≡ reply_at entries.now place) }
    {
        let mut text = Vec::new(alloc);
        let Some(at) = self.return_at(place) else {
            return Ok(text);
        };
        if let Entry::Return(_, reply) = &entries[at] {
            write_reply(alloc, reply, &mut text)?;
        }
        Ok(text)
    }
}
