//! The scene of a journal.

use crate::overlap::{cut_to, kept_in};
use crate::scene::{Card, Fault, Mark, Reported, Scene, What, short};
use crate::seat_names::seat_names;
use fs_calls::{Call, Reply};
use fs_draw_sight::{Commit, Tree, trees_of};
use fs_names::{CallNo, SeatNo};
use fs_sched::{call_of, due_reply, kind_text, push_verdict};
use fs_script::Journal;
use fs_timeline::{Entry, FaultKind, Verdict};
use fs_words::Addition;
use std::alloc::{AllocError, Global};
use std::collections::BTreeMap;

/// A journal that is gone through: the calls so far by their numbers, the lane of each seat, the lanes that are busy, and how many
/// calls began in each.
#[derive(Drop)]
struct Reading {
    alloc: Global,
    scene: Scene,
    cards: BTreeMap<u64, usize>,
    lanes: BTreeMap<u64, usize>,
    busy: Vec<bool>,
    begun: Vec<u64>,
    commits: u64,
}

/// The seats that occur, in the order of their numbers, with their lanes.
fn lanes_of(alloc: Global, entries: &[Entry]) -> Result<BTreeMap<u64, usize>, AllocError> {
    let mut seats = BTreeMap::new(alloc);
    for entry in entries {
        if let Entry::Begin(_, seat, _) = entry {
            seats.insert(seat.get(), 0)?;
        }
    }
    let mut lane = 0usize;
    for slot in seats.values_mut() {
        *slot = lane;
        lane = lane.saturating_add(1);
    }
    Ok(seats)
}

/// The name of a lane: that of its seat, or else the number.
fn name_of(alloc: Global, seat: u64, given: Option<&[u8]>) -> Result<Vec<u8>, AllocError> {
    if let Some(given) = given {
        return Vec::from_slice(alloc, given);
    }
    let mut name = Addition::new(Vec::new(alloc));
    name.push_with_number(b"seat ", seat)?;
    Ok(name.kept())
}

/// The names of lanes, of a journal that has this text.
fn names_of(
    alloc: Global,
    lanes: &BTreeMap<u64, usize>,
    text: &[u8],
) -> Result<Vec<Vec<u8>>, AllocError> {
    let given = seat_names(alloc, text)?;
    let mut names = Vec::new(alloc);
    for seat in lanes.keys() {
        names.push(name_of(alloc, *seat, given.get(seat).copied())?)?;
    }
    Ok(names)
}

/// The words of a verdict, where it tells of a fault.
fn fault_of(alloc: Global, verdict: &Verdict) -> Result<Option<Fault>, AllocError> {
    let Verdict::Fault(place, kind) = verdict else {
        return Ok(None);
    };
    let mut line = Addition::new(Vec::new(alloc));
    push_verdict(verdict, &mut line)?;
    let mut words = line.kept();
    let _ = words.pop();
    let mark = if *kind == FaultKind::WrongReply {
        Some(place.saturating_sub(1))
    } else {
        None
    };
    Ok(Some(Fault { words, mark }))
}

impl Reading {
    fn new(
        alloc: Global,
        entries: &[Entry],
        verdict: &Verdict,
        text: &[u8],
    ) -> Result<Reading, AllocError> {
        let lanes = lanes_of(alloc, entries)?;
        let names = names_of(alloc, &lanes, text)?;
        let mut busy = Vec::new(alloc);
        let mut begun = Vec::new(alloc);
        for _ in &names {
            busy.push(false)?;
            begun.push(0)?;
        }
        Ok(Reading {
            alloc,
            scene: Scene {
                lanes: names,
                cards: Vec::new(alloc),
                marks: Vec::new(alloc),
                names: Vec::new(alloc),
                checkpoints: Vec::new(alloc),
                trees: Vec::new(alloc),
                fault: fault_of(alloc, verdict)?,
                is_run: false,
                folds: false,
                calls: 0,
                around: None,
            },
            cards: BTreeMap::new(alloc),
            lanes,
            busy,
            begun,
            commits: 0,
        })
    }

    fn push_mark(&mut self, at: u64, card: usize, what: What) -> Result<(), AllocError> {
        let mark = Mark {
            at,
            card: short(card),
            name: None,
            what,
        };
        self.scene.push_mark(mark, self.commits)
    }

    /// Whether the seat of a lane is busy, and that it is so from here on.
    fn set_busy(&mut self, lane: usize, busy: bool) -> bool {
        match self.busy.get_mut(lane) {
            Some(slot) => {
                let before = *slot;
                *slot = busy;
                before
            }
            None => true,
        }
    }

    /// The place of the next call of a lane among the calls of that.
    fn next_turn(&mut self, lane: usize) -> u64 {
        let Some(begun) = self.begun.get_mut(lane) else {
            return 0;
        };
        *begun = begun.saturating_add(1);
        *begun
    }

    /// A call begins in a lane; the answer is its place among the calls.
    fn add_call(
        &mut self,
        at: u64,
        number: CallNo,
        lane: usize,
        call: &Call,
    ) -> Result<usize, AllocError> {
        let turn = self.next_turn(lane);
        let mut one = Card::new(self.alloc, number.get(), lane, turn);
        one.tell(self.alloc, call)?;
        let card = self.scene.cards.len();
        self.cards.insert(number.get(), card)?;
        self.scene.cards.push(one)?;
        self.push_mark(at, card, What::Begin)?;
        Ok(card)
    }

    fn begin(
        &mut self,
        at: u64,
        number: CallNo,
        seat: SeatNo,
        call: &Call,
    ) -> Result<bool, AllocError> {
        let lane = match self.lanes.get(&seat.get()) {
            Some(lane) => *lane,
            None => return Ok(false),
        };
        if self.cards.contains_key(&number.get()) {
            return Ok(false);
        }
        if self.set_busy(lane, true) {
            return Ok(false);
        }
        let _ = self.add_call(at, number, lane, call)?;
        Ok(true)
    }

    /// The place of a call among the calls, whether it has committed, and whether it has returned.
    fn find(&self, number: CallNo) -> Option<(usize, bool, bool)> {
        let at = *self.cards.get(&number.get())?;
        let card = self.scene.cards.get(at)?;
        Some((at, card.order > 0, !card.reply.is_none()))
    }

    fn commit(&mut self, at: u64, number: CallNo) -> Result<bool, AllocError> {
        match self.find(number) {
            Some((card, false, _)) => {
                self.commits = self.commits.saturating_add(1);
                self.push_mark(at, card, What::Commit)?;
                Ok(true)
            }
            _ => Ok(false),
        }
    }

    /// An entry is drawn, and the answer is whether it fits those before it; one that does not fit is not drawn.
    fn entry(&mut self, at: u64, entry: &Entry) -> Result<bool, AllocError> {
        match entry {
            Entry::Begin(number, seat, call) => self.begin(at, *number, *seat, call),
            Entry::Commit(number) => self.commit(at, *number),
            Entry::Return(number, reply) => {
                let Some((place, true, false)) = self.find(*number) else {
                    return Ok(false);
                };
                self.end(at, place, reply)?;
                Ok(true)
            }
        }
    }

    /// A call returns.
    fn end(&mut self, at: u64, place: usize, reply: &Reply) -> Result<(), AllocError> {
        if let Some(card) = self.scene.cards.get_mut(place) {
            card.reply = Reported::of(self.alloc, reply)?;
            let lane = card.lane;
            let _ = self.set_busy(lane, false);
        }
        self.push_mark(at, place, What::Return)
    }

    /// The return of a call that has not committed is drawn where it is, and the fault there; and the answer is what is said of it.
    /// None where the entry is no such return.
    fn add_unexplained(
        &mut self,
        at: u64,
        entry: &Entry,
        is_last: bool,
    ) -> Result<Option<&'static [u8]>, AllocError> {
        let Entry::Return(number, reply) = entry else {
            return Ok(None);
        };
        let Some((place, false, false)) = self.find(*number) else {
            return Ok(None);
        };
        if let Some(fault) = &mut self.scene.fault {
            fault.mark = Some(self.scene.marks.len());
        }
        self.end(at, place, reply)?;
        Ok(Some(if is_last {
            b"no order explains it"
        } else {
            b"before its commit"
        }))
    }

    /// The place among the calls of the call of which an entry tells that does not fit. One that has not begun is drawn there: where
    /// the entry begins it, or where an entry behind does. None where none does.
    fn call_at_fault(
        &mut self,
        at: u64,
        entry: &Entry,
        entries: &[Entry],
    ) -> Result<Option<usize>, AllocError> {
        let number = call_of(entry);
        if let Entry::Begin(_, seat, call) = entry {
            return self.add_refused(at, number, *seat, call);
        }
        if let Some(card) = self.cards.get(&number.get()) {
            return Ok(Some(*card));
        }
        for other in entries {
            if let Entry::Begin(begun, seat, call) = other {
                if *begun == number {
                    return self.add_refused(at, number, *seat, call);
                }
            }
        }
        Ok(None)
    }

    /// A call is drawn at an entry that does not fit.
    fn add_refused(
        &mut self,
        at: u64,
        number: CallNo,
        seat: SeatNo,
        call: &Call,
    ) -> Result<Option<usize>, AllocError> {
        let lane = match self.lanes.get(&seat.get()) {
            Some(lane) => *lane,
            None => return Ok(None),
        };
        if let Some(fault) = &mut self.scene.fault {
            fault.mark = Some(self.scene.marks.len());
        }
        Ok(Some(self.add_call(at, number, lane, call)?))
    }

    /// Notes at the call of an entry that does not fit of which kind its fault is, where it is the first fault.
    fn mark_fault(
        &mut self,
        at: u64,
        entry: &Entry,
        entries: &[Entry],
        verdict: &Verdict,
    ) -> Result<(), AllocError> {
        let Verdict::Fault(place, kind) = verdict else {
            return Ok(());
        };
        if *place as u64 != at {
            return Ok(());
        }
        let is_last = *place >= entries.len();
        let said = match self.add_unexplained(at, entry, is_last)? {
            Some(said) => said,
            None => kind_text(*kind),
        };
        if let Some(card) = self.call_at_fault(at, entry, entries)? {
            if let Some(card) = self.scene.cards.get_mut(card) {
                card.fault.extend_from_slice(said)?;
            }
        }
        Ok(())
    }

    /// The commits among these entries, in their order, and whether each is of a call that is kept.
    fn committed<'e>(
        &self,
        entries: &'e [Entry],
        kept: &[bool],
    ) -> Result<Vec<Commit<'e>>, AllocError> {
        let mut calls = BTreeMap::new(self.alloc);
        let mut commits = Vec::new(self.alloc);
        for entry in entries {
            match entry {
                Entry::Begin(number, _, call) => {
                    calls.insert(number.get(), call)?;
                }
                Entry::Commit(number) => {
                    if let (Some(card), Some(call)) = (
                        self.cards.get(&number.get()),
                        calls.get(&number.get()),
                    ) {
                        commits.push(Commit {
                            card: *card,
                            call: *call,
                            is_shown: kept.get(*card) == Some(&true),
                        })?;
                    }
                }
                Entry::Return(_, _) => {}
            }
        }
        Ok(commits)
    }

    /// The trees before and after the commits among these entries, of those calls of a journal that are kept.
    fn trees_in(
        &self,
        journal: &Journal,
        entries: &[Entry],
        kept: &[bool],
    ) -> Result<Vec<Tree>, AllocError> {
        if !self.scene.shows_trees(kept) {
            return Ok(Vec::new(self.alloc));
        }
        let commits = self.committed(entries, kept)?;
        trees_of(self.alloc, journal.start.copy()?, commits.as_slice(), true)
    }
}

/// Notes at the call of a wrong reply which one was due.
fn set_due(alloc: Global, journal: &Journal, scene: &mut Scene) -> Result<(), AllocError> {
    let Some(
        Fault {
            mark: Some(place),
            ..
        },
    ) = &scene.fault
    else {
        return Ok(());
    };
    if let Some(Entry::Return(number, _)) = journal.entries.as_slice().get(*place) {
        let due = match due_reply(alloc, journal, *number)? {
            Some(reply) => Reported::of(alloc, &reply)?,
            None => Reported::none(alloc),
        };
        let wrong = number.get();
        if let Some(at) = scene.cards.iter().position(|card| card.number == wrong) {
            scene.cards[at].due = due;
        }
    }
    Ok(())
}

/// The scene of a journal's entries, up to the first one that does not fit those before it. `text` is that of the journal, whose
/// comments `# seat NUMBER NAME` name lanes. Where a call's number is given, it has that call and those around it alone; none where no
/// call has this number.
pub fn scene_of_journal(
    alloc: Global,
    journal: &Journal,
    verdict: &Verdict,
    text: &[u8],
    call: Option<u64>,
) -> Result<Option<Scene>, AllocError> {
    let entries = journal.entries.as_slice();
    let mut reading = Reading::new(alloc, entries, verdict, text)?;
    let mut at = 0u64;
    let mut fitting = 0usize;
    for entry in entries {
        at = at.saturating_add(1);
        if !reading.entry(at, entry)? {
            reading.mark_fault(at, entry, entries, verdict)?;
            break;
        }
        fitting = fitting.saturating_add(1);
    }
    let Some(kept) = kept_in(alloc, &reading.scene, call)? else {
        return Ok(None);
    };
    let trees = reading.trees_in(
        journal,
        entries.get(..fitting).unwrap_or(&[]),
        kept.as_slice(),
    )?;
    let mut scene = reading.scene;
    scene.calls = scene.cards.len();
    scene.trees = trees;
    if let Verdict::Fault(_, FaultKind::WrongReply) = verdict {
        set_due(alloc, journal, &mut scene)?;
    }
    Ok(Some(cut_to(alloc, scene, kept.as_slice(), call)?))
}
