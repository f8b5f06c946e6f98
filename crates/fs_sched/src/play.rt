//! A script's run, event by event.

ghost use Rattle.std.specs.Prelude.{◌≡◌, ◌≢◌, ◌<◌, ◌≤◌, ◌+◌, ◌-◌, ◌^◌, ◌∷◌, ◌++◌, ℕ, [], IfOk, OnOk, OnErr, IfErr, IsErrOf, Ok, Err, None, true, false, List, length, map, get_or, replicate, slice_set};
ghost use Rattle.std.specs.List.{range_with_len};
ghost use Rattle.fs_calls.specs.declared.call.Call.{Call};
ghost use Rattle.fs_core.specs.CoreValues.{state_of};
ghost use Rattle.fs_machine.specs.States.{Begins};
ghost use Rattle.fs_sched.specs.Runs.{before_all, has_more, Event, Events, Round, ToEnd, Does, IsRefused, Stops, StopsInRounds, StopsAt};
ghost use Rattle.fs_sched.specs.Schedules.{drawn_seats, one_event};
ghost use Rattle.fs_sched_witness.specs.Moments.{Hears, event_of, spent_of};
ghost use Rattle.fs_sched.specs.code.Notes.{Happens, Notes, NotesCut, NotesToEnd};
ghost use Rattle.fs_sched.specs.code.Stages.{stage_of, IsSeated, IsMarked, AreOver, IsRefusal, IsWhy, fault_of_checkpoint};

use crate::schedule::DRAW_LIMIT;
use crate::seats::SeatsAhead;
use fs_calls::Call;
use fs_core::{Core, NoCheckpoint, Refusal, Stepped};
use fs_names::{CallNo, SeatNo};
use fs_sched_witness::{Answer, Moment, Told, Witness};
use fs_script::{CallLists, Word};
use fs_timeline::Entry;
use fs_verdict::RunFault;
use std::alloc::{AllocError, Global};

/// The core, with a seat for each thread, how many calls of each thread have begun, and which threads were found to be
/// over: these stay so, and are not looked at again.
#[derive(Drop)]
pub(crate) struct Play {
    pub(crate) core: Core,
    begun: Vec<usize>,
    over: Vec<bool>,
}

/// The fault of a run of which a call was refused.
pub fn refusal_fault(refusal: Refusal) -> RunFault
    ensures refusal { IsRefusal result }
    ensures full { result ≡ RunFault.Full → refusal ≡ Refusal.Full }
    ensures told { refusal ≡ Refusal.Full → result ≡ RunFault.Full }
{
    match refusal {
        Refusal::Full => RunFault::Full,
        _ => RunFault::OutOfMemory,
    }
}

/// The fault of a run of which a checkpoint was refused.
pub fn checkpoint_fault(why: NoCheckpoint) -> RunFault
    ensures { result ≡ fault_of_checkpoint why }
{
    match why {
        NoCheckpoint::UnderWay(call) => RunFault::UnderWay(call),
        NoCheckpoint::OutOfMemory => RunFault::OutOfMemory,
    }
}

/// A core with so many seats, of one that has none.
fn seated(core: Core, threads: usize) -> Result<Core, AllocError>
    requires { core.seats ≡ [] }
    ensures state { IfOk result (λ seated. state_of seated ≡ state_of core) }
    ensures seats { IfOk result (λ seated. length seated.seats ≡ threads) }
{
    let mut core = core;
    for _ in 0..threads {
        core.seat()?;
    }
    Ok(core)
}

impl Play {
    /// Before the first event of so many threads, on a core without seats.
    pub(crate) fn new(alloc: Global, core: Core, threads: usize) -> Result<Play, AllocError>
        requires { core.seats ≡ [] }
        ensures start { IfOk result (λ play. stage_of play ≡ before_all (state_of core) threads) }
        ensures seats { (lists : List (List Call)) → length lists ≡ threads → IfOk result (λ play. IsMarked lists play) }
    {
        let core = seated(core, threads)?;
        let begun = vec![in alloc; 0; threads]?;
        let over = vec![in alloc; false; threads]?;
        Ok(Play { core, begun, over })
    }

    /// Whether a thread has a pending call, or one left.
    fn has_more(&self, lists: &CallLists, seat: usize) -> bool
        requires seats { IsSeated self.now (length lists.now) }
        requires seat { seat < length lists.now }
        ensures { result ≡ has_more lists.now (stage_of self.now) seat }
    {
        self.core.under_way(SeatNo::new(seat as u64)).is_some()
            || self.begun[seat] < lists.of(seat).len()
    }

    /// The first thread from one on that has; where none has, the number of threads. Threads that are over stay so: a
    /// caller goes on from the answer, and asks no thread that is over again.
    fn first_left(&self, lists: &CallLists, from: usize) -> usize
        requires seats { IsSeated self.now (length lists.now) }
        requires over { AreOver lists.now (stage_of self.now) from }
        ensures over { AreOver lists.now (stage_of self.now) result }
        ensures left { result < length lists.now → has_more lists.now (stage_of self.now) result ≡ true }
    {
        for seat in from..self.begun.len() {
            if self.has_more(lists, seat) {
                return seat;
            }
        }
        self.begun.len()
    }

    /// The same after an event of a thread: by the event of another one, the first that had something to do has so still.
    #[inline]
    fn first_after(&self, lists: &CallLists, first: usize, seat: usize) -> usize
        requires seats { IsSeated self.now (length lists.now) }
        requires over { AreOver lists.now (stage_of self.now) first }
        ensures over { AreOver lists.now (stage_of self.now) result }
    {
        if seat == first {
            self.first_left(lists, first)
        } else {
            first
        }
    }

    /// A thread's call begins, of which so many have begun.
    #[inline(never)]
    fn begin(
        &mut self,
        alloc: Global,
        seat: usize,
        begun: usize,
        call: &Call,
    ) -> Result<CallNo, RunFault>
        requires seat { seat < length self.old.begun.items }
        requires seats { seat < length self.old.core.seats }
        requires few { begun < 2 ^ 64 - 1 }
        ensures begins { IfOk result (λ number. Begins (state_of self.old.core) seat call.now (Ok number) (state_of self.new.core)) }
        ensures counted { OnOk result (self.new.begun.items ≡ slice_set self.old.begun.items seat (begun + 1)) }
        ensures seats { length self.new.core.seats ≡ length self.old.core.seats }
        ensures same { OnErr result (self.new.begun.items ≡ self.old.begun.items) }
        ensures marks { self.new.over.items ≡ self.old.over.items }
        ensures fault { IfErr result IsRefusal }
        ensures full { IsErrOf result RunFault.Full → Begins (state_of self.old.core) seat call.now (Err Refusal.Full) (state_of self.old.core) }
    {
        match self.core.begin(alloc, SeatNo::new(seat as u64), call) {
            Ok(number) => {
                self.begun[seat] = begun + 1;
                Ok(number)
            }
            Err(refusal) => Err(refusal_fault(refusal)),
        }
    }

    /// The next call of a thread begins, if one is left; else the thread is over, and marked. The answer is whether one
    /// was left. If so, the witness gets that moment.
    #[inline]
    fn start<W: Witness>(
        &mut self,
        alloc: Global,
        lists: &CallLists,
        seat: usize,
        before: usize,
        witness: &mut W,
    ) -> Result<bool, RunFault>
        requires seats { IsMarked lists.now self.old }
        requires seat { seat < length lists.now }
        requires free { (state_of self.old.core).on_seat seat ≡ None }
        ensures event { IfOk result (λ more. Happens W.Told lists.now (stage_of self.old) witness.old before seat more (stage_of self.new) witness.new) }
        ensures seats { OnOk result (IsMarked lists.now self.new) }
        ensures fault { IfErr result IsRefusal }
        ensures full { IsErrOf result RunFault.Full → IsRefused lists.now (stage_of self.old) seat }
    {
        let calls = lists.of(seat);
        let at = self.begun[seat];
        if at >= calls.len() {
            self.over[seat] = true;
            return Ok(false);
        }
        let number = self.begin(alloc, seat, at, &calls[at])?;
        self.tell_behind(before, seat, Answer::Begun(number), witness)?;
        Ok(true)
    }

    /// An event of a thread, and whether the thread had anything to do. If so, the witness first gets so many threads
    /// that have nothing to do, and then this event. If the thread is not marked, the core is asked for a step at once:
    /// an idle step says that no call is pending.
    #[inline(always)]
    fn happen<W: Witness>(
        &mut self,
        alloc: Global,
        lists: &CallLists,
        seat: usize,
        before: usize,
        witness: &mut W,
    ) -> Result<bool, RunFault>
        requires seats { IsMarked lists.now self.old }
        requires seat { seat < length lists.now }
        ensures event { IfOk result (λ more. Happens W.Told lists.now (stage_of self.old) witness.old before seat more (stage_of self.new) witness.new) }
        ensures seats { OnOk result (IsMarked lists.now self.new) }
        ensures fault { IfErr result IsRefusal }
        ensures full { IsErrOf result RunFault.Full → IsRefused lists.now (stage_of self.old) seat }
    {
        if self.over[seat] {
            return Ok(false);
        }
        let stepped = self.core.step(SeatNo::new(seat as u64));
        if let Stepped::Idle = stepped {
            return self.start(alloc, lists, seat, before, witness);
        }
        self.tell_behind(before, seat, Answer::Stepped(stepped), witness)?;
        Ok(true)
    }

    /// Reports to the witness what an event was answered.
    #[inline(always)]
    fn tell<W: Witness>(&self, seat: usize, answer: Answer, witness: &mut W) -> Result<(), RunFault>
        ensures told { OnOk result (Hears W.Told witness.old (event_of seat answer ∷ []) witness.new) }
        ensures fault { IfErr result IsRefusal }
        ensures memory { result ≢ Err RunFault.Full }
    {
        match witness.saw(&self.core, Moment::Event(Told { seat, answer })) {
            Ok(()) => Ok(()),
            Err(_) => Err(RunFault::OutOfMemory),
        }
    }

    /// The same after the events of so many threads that have nothing to do.
    #[inline(always)]
    fn tell_behind<W: Witness>(
        &self,
        before: usize,
        seat: usize,
        answer: Answer,
        witness: &mut W,
    ) -> Result<(), RunFault>
        ensures told { OnOk result (Hears W.Told witness.old (map spent_of (range_with_len 0 before) ++ event_of seat answer ∷ []) witness.new) }
        ensures fault { IfErr result IsRefusal }
        ensures memory { result ≢ Err RunFault.Full }
    {
        self.tell_over(before, witness)?;
        self.tell(seat, answer, witness)
    }

    /// An event of a thread, with a report to the witness.
    #[inline(always)]
    fn event<W: Witness>(
        &mut self,
        alloc: Global,
        lists: &CallLists,
        seat: usize,
        witness: &mut W,
    ) -> Result<(), RunFault>
        requires seats { IsMarked lists.now self.old }
        requires seat { seat < length lists.now }
        ensures notes { OnOk result (Notes W.Told lists.now (stage_of self.old) witness.old (one_event seat ∷ []) (stage_of self.new) witness.new) }
        ensures seats { OnOk result (IsMarked lists.now self.new) }
        ensures fault { IfErr result IsRefusal }
        ensures full { IsErrOf result RunFault.Full → IsRefused lists.now (stage_of self.old) seat }
    {
        if self.happen(alloc, lists, seat, 0, witness)? {
            return Ok(());
        }
        self.tell(seat, Answer::Spent, witness)
    }

    /// Reports to the witness so many events of a thread that has nothing to do.
    #[inline(always)]
    fn tell_spent<W: Witness>(
        &self,
        seat: usize,
        times: u64,
        witness: &mut W,
    ) -> Result<(), RunFault>
        ensures told { OnOk result (Hears W.Told witness.old (replicate times (spent_of seat)) witness.new) }
        ensures fault { IfErr result IsRefusal }
        ensures memory { result ≢ Err RunFault.Full }
    {
        for _ in 0..times {
            self.tell(seat, Answer::Spent, witness)?;
        }
        Ok(())
    }

    /// Reports to the witness an event of each thread before one, which have nothing to do.
    #[inline(always)]
    fn tell_over<W: Witness>(&self, first: usize, witness: &mut W) -> Result<(), RunFault>
        ensures told { OnOk result (Hears W.Told witness.old (map spent_of (range_with_len 0 first)) witness.new) }
        ensures fault { IfErr result IsRefusal }
        ensures memory { result ≢ Err RunFault.Full }
    {
        for seat in 0..first {
            self.tell(seat, Answer::Spent, witness)?;
        }
        Ok(())
    }

    /// So many events of a thread; those of a thread that is not there are nothing.
    pub(crate) fn events<W: Witness>(
        &mut self,
        alloc: Global,
        lists: &CallLists,
        seat: usize,
        times: u64,
        witness: &mut W,
    ) -> Result<(), RunFault>
        requires { IsMarked lists.now self.old }
        ensures notes { OnOk result (Notes W.Told lists.now (stage_of self.old) witness.old (replicate times (one_event seat)) (stage_of self.new) witness.new) }
        ensures events { OnOk result (Events lists.now (stage_of self.old) (replicate times seat) (stage_of self.new)) }
        ensures seats { OnOk result (IsMarked lists.now self.new) }
        ensures fault { IfErr result IsRefusal }
        ensures full { IsErrOf result RunFault.Full → Stops lists.now (stage_of self.old) (replicate times seat) }
    {
        if seat >= self.begun.len() {
            return self.tell_spent(seat, times, witness);
        }
        for _ in 0..times {
            self.event(alloc, lists, seat, witness)?;
        }
        Ok(())
    }

    /// The timeline begins again, if no call is pending, and its entries are handed out.
    pub(crate) fn begin_again(&mut self, alloc: Global) -> Result<Vec<Entry>, RunFault>
        ensures does { (lists : List (List Call)) → IfOk result (λ entries. Does lists (stage_of self.old) Word.Checkpoint entries.items (stage_of self.new)) }
        ensures seats { (lists : List (List Call)) → IsMarked lists self.old → OnOk result (IsMarked lists self.new) }
        ensures why { (lists : List (List Call)) → IfErr result (IsWhy (StopsAt lists (stage_of self.old) Word.Checkpoint)) }
    {
        match self.core.checkpoint(alloc) {
            Ok(entries) => Ok(entries),
            Err(why) => Err(checkpoint_fault(why)),
        }
    }

    /// Events of threads that are drawn from a number, until none has anything to do or the limit is reached.
    pub(crate) fn drawn<W: Witness>(
        &mut self,
        alloc: Global,
        lists: &CallLists,
        seed: u64,
        witness: &mut W,
    ) -> Result<(), RunFault>
        requires { IsMarked lists.now self.old }
        ensures notes { OnOk result (NotesCut W.Told lists.now (stage_of self.old) witness.old (map one_event (drawn_seats seed (length lists.now) DRAW_LIMIT)) (stage_of self.new) witness.new) }
        ensures events { OnOk result (Events lists.now (stage_of self.old) (drawn_seats seed (length lists.now) DRAW_LIMIT) (stage_of self.new)) }
        ensures seats { OnOk result (IsMarked lists.now self.new) }
        ensures fault { IfErr result IsRefusal }
        ensures full { IsErrOf result RunFault.Full → Stops lists.now (stage_of self.old) (drawn_seats seed (length lists.now) DRAW_LIMIT) }
    {
        let threads = self.begun.len();
        let mut first = self.first_left(lists, 0);
        if first >= threads {
            return Ok(());
        }
        let mut seats = SeatsAhead::new(seed, threads);
        for _ in 0..DRAW_LIMIT {
            let seat = seats.next_seat();
            self.event(alloc, lists, seat, witness)?;
            witness.went_on(1, self.core.timeline().len());
            first = self.first_after(lists, first, seat);
            if first >= threads {
                return Ok(());
            }
        }
        Ok(())
    }

    /// One event of each thread, of which those before `first` are over.
    fn round<W: Witness>(
        &mut self,
        alloc: Global,
        lists: &CallLists,
        first: usize,
        witness: &mut W,
    ) -> Result<(), RunFault>
        requires seats { IsMarked lists.now self.old }
        requires over { AreOver lists.now (stage_of self.old) first }
        requires within { first ≤ length lists.now }
        ensures notes { OnOk result (Notes W.Told lists.now (stage_of self.old) witness.old (map one_event (range_with_len 0 (length lists.now))) (stage_of self.new) witness.new) }
        ensures seats { OnOk result (IsMarked lists.now self.new) }
        ensures fault { IfErr result IsRefusal }
        ensures full { IsErrOf result RunFault.Full → Stops lists.now (stage_of self.old) (range_with_len 0 (length lists.now)) }
    {
        self.tell_over(first, witness)?;
        for seat in first..self.begun.len() {
            self.event(alloc, lists, seat, witness)?;
        }
        Ok(())
    }

    /// Events of the last thread, until it has nothing to do. Those before it are over, so each is a round.
    fn last_alone<W: Witness>(
        &mut self,
        alloc: Global,
        lists: &CallLists,
        last: usize,
        witness: &mut W,
    ) -> Result<(), RunFault>
        requires seats { IsMarked lists.now self.old }
        requires over { AreOver lists.now (stage_of self.old) last }
        requires last { length lists.now ≡ last + 1 }
        ensures notes { OnOk result (NotesToEnd W.Told lists.now (stage_of self.old) witness.old (stage_of self.new) witness.new) }
        ensures fault { IfErr result IsRefusal }
        ensures full { IsErrOf result RunFault.Full → StopsInRounds lists.now (stage_of self.old) }
    {
        'rounds: loop {
            self.core.told();
            if !self.happen(alloc, lists, last, last, witness)? {
                return Ok(());
            }
            witness.went_on(1, self.core.timeline().len());
        }
    }

    /// Rounds until no thread has anything to do.
    pub(crate) fn finish<W: Witness>(
        &mut self,
        alloc: Global,
        lists: &CallLists,
        witness: &mut W,
    ) -> Result<(), RunFault>
        requires { IsMarked lists.now self.old }
        ensures notes { OnOk result (NotesToEnd W.Told lists.now (stage_of self.old) witness.old (stage_of self.new) witness.new) }
        ensures ended { OnOk result (ToEnd lists.now (stage_of self.old) (stage_of self.new)) }
        ensures fault { IfErr result IsRefusal }
        ensures full { IsErrOf result RunFault.Full → StopsInRounds lists.now (stage_of self.old) }
    {
        let mut first = 0;
        'rounds: loop {
            first = self.first_left(lists, first);
            if first >= self.begun.len() {
                return Ok(());
            }
            if first + 1 == self.begun.len() {
                return self.last_alone(alloc, lists, first, witness);
            }
            self.core.told();
            self.round(alloc, lists, first, witness)?;
            witness.went_on(self.begun.len() as u64, self.core.timeline().len());
        }
    }
}
