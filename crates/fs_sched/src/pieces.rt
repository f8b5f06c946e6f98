//! A script's run, word by word: a checkpoint ends a piece of it, and begins the next.

ghost use Rattle.std.specs.Prelude.{◌≡◌, ◌∷◌, ℕ, [], List, IfOk, OnOk, IfErr, length};
ghost use Rattle.std.specs.List.{filter};
ghost use Rattle.fs_calls.specs.declared.call.Call.{Call};
ghost use Rattle.fs_core.specs.CoreValues.{state_of};
ghost use Rattle.fs_sched.specs.Runs.{before_all, Does, Words, RunsFrom, StopsAt, StopsInWords, StopsFrom};
ghost use Rattle.fs_sched.specs.Schedules.{words_by, is_events, prepared, turns_by};
ghost use Rattle.fs_sched.specs.Gives.{single_words, given_words, words_before};
ghost use Rattle.fs_sched.specs.code.Notes.{Notes, NotesCut, NotesRun};
ghost use Rattle.fs_sched.specs.code.Counts.{AreCapped};
ghost use Rattle.fs_sched.specs.code.Stages.{stage_of, IsMarked, IsWhy};
ghost use Rattle.fs_sched.specs.code.Done.{HasDone};

use crate::play::Play;
use crate::run_texts::{Counts, counts_of};
use crate::schedule::{Schedule, ends_drawn, is_events};
use crate::turns::turns_by;
use fs_core::Core;
use fs_sched_witness::{Moment, Witness};
use fs_script::{CallLists, Script, Word};
use fs_verdict::RunFault;
use std::alloc::{AllocError, Global};

/// A run in its last piece, and how many entries the pieces before had.
#[derive(Drop)]
pub(crate) struct Pieces {
    pub(crate) play: Play,
    pub(crate) told: Counts,
}

/// How many events a word gives.
fn events_of(word: Word) -> u64 {
    match word {
        Word::Events(_, times) => times,
        Word::Checkpoint | Word::Finish | Word::Drawn => 0,
    }
}

impl Pieces {
    /// Before the first event of so many threads, on a core without seats.
    pub(crate) fn new(alloc: Global, core: Core, threads: usize) -> Result<Pieces, AllocError>
        requires { core.seats ≡ [] }
        ensures start { IfOk result (λ run. stage_of run.play ≡ before_all (state_of core) threads) }
        ensures told { IfOk result (λ run. AreCapped run.told []) }
        ensures seats { (lists : List (List Call)) → length lists ≡ threads → IfOk result (λ run. IsMarked lists run.play) }
    {
        let play = Play::new(alloc, core, threads)?;
        let told = counts_of(&[]);
        Ok(Pieces { play, told })
    }

    /// The timeline begins again, if no call is pending. Its entries are counted, and reported.
    fn checkpoint<W: Witness>(&mut self, alloc: Global, witness: &mut W) -> Result<(), RunFault>
        ensures notes { (lists : List (List Call)) → OnOk result (Notes W.Told lists (stage_of self.old.play) witness.old (Word.Checkpoint ∷ []) (stage_of self.new.play) witness.new) }
        ensures done { (lists : List (List Call)) → OnOk result (HasDone (Does lists (stage_of self.old.play) Word.Checkpoint) self.old self.new) }
        ensures seats { (lists : List (List Call)) → IsMarked lists self.old.play → OnOk result (IsMarked lists self.new.play) }
        ensures why { (lists : List (List Call)) → IfErr result (IsWhy (StopsAt lists (stage_of self.old.play) Word.Checkpoint)) }
    {
        let entries = match self.play.begin_again(alloc) {
            Ok(entries) => entries,
            Err(fault) => return Err(fault),
        };
        self.told = self.told.plus(counts_of(&entries));
        match witness.saw(&self.play.core, Moment::Checkpoint(entries)) {
            Ok(()) => Ok(()),
            Err(_) => Err(RunFault::OutOfMemory),
        }
    }

    /// What a word does.
    fn word<W: Witness>(
        &mut self,
        alloc: Global,
        lists: &CallLists,
        word: Word,
        witness: &mut W,
    ) -> Result<(), RunFault>
        requires { IsMarked lists.now self.old.play }
        ensures notes { OnOk result (Notes W.Told lists.now (stage_of self.old.play) witness.old (single_words word) (stage_of self.new.play) witness.new) }
        ensures done { OnOk result (HasDone (Does lists.now (stage_of self.old.play) word) self.old self.new) }
        ensures seats { OnOk result (IsMarked lists.now self.new.play) }
        ensures why { IfErr result (IsWhy (StopsAt lists.now (stage_of self.old.play) word)) }
    {
        match word {
            Word::Events(seat, times) => self.play.events(alloc, lists, seat, times, witness),
            Word::Checkpoint => self.checkpoint(alloc, witness),
            Word::Finish | Word::Drawn => Ok(()),
        }
    }

    /// What words do, from left to right.
    fn words<W: Witness>(
        &mut self,
        alloc: Global,
        lists: &CallLists,
        words: &[Word],
        witness: &mut W,
    ) -> Result<(), RunFault>
        requires { IsMarked lists.now self.old.play }
        ensures notes { OnOk result (Notes W.Told lists.now (stage_of self.old.play) witness.old (given_words words.now) (stage_of self.new.play) witness.new) }
        ensures done { OnOk result (HasDone (Words lists.now (stage_of self.old.play) words.now) self.old self.new) }
        ensures seats { OnOk result (IsMarked lists.now self.new.play) }
        ensures why { IfErr result (IsWhy (StopsInWords lists.now (stage_of self.old.play) words.now)) }
    {
        for word in words {
            self.word(alloc, lists, *word, witness)?;
            witness.went_on(events_of(*word), self.play.core.timeline().len());
        }
        Ok(())
    }

    /// What a word does that prepares a run, if it gives events; else nothing.
    fn prepare_word<W: Witness>(
        &mut self,
        alloc: Global,
        lists: &CallLists,
        word: Word,
        witness: &mut W,
    ) -> Result<(), RunFault>
        requires { IsMarked lists.now self.old.play }
        ensures notes { OnOk result (Notes W.Told lists.now (stage_of self.old.play) witness.old (given_words (filter is_events (word ∷ []))) (stage_of self.new.play) witness.new) }
        ensures done { OnOk result (HasDone (Words lists.now (stage_of self.old.play) (filter is_events (word ∷ []))) self.old self.new) }
        ensures seats { OnOk result (IsMarked lists.now self.new.play) }
        ensures why { IfErr result (IsWhy (StopsInWords lists.now (stage_of self.old.play) (filter is_events (word ∷ [])))) }
    {
        if !is_events(&word) {
            return Ok(());
        }
        self.word(alloc, lists, word, witness)?;
        witness.went_on(events_of(word), self.play.core.timeline().len());
        Ok(())
    }

    /// The events of words that prepare a run.
    fn prepare<W: Witness>(
        &mut self,
        alloc: Global,
        lists: &CallLists,
        words: &[Word],
        witness: &mut W,
    ) -> Result<(), RunFault>
        requires { IsMarked lists.now self.old.play }
        ensures notes { OnOk result (Notes W.Told lists.now (stage_of self.old.play) witness.old (given_words (prepared words.now)) (stage_of self.new.play) witness.new) }
        ensures done { OnOk result (HasDone (Words lists.now (stage_of self.old.play) (prepared words.now)) self.old self.new) }
        ensures seats { OnOk result (IsMarked lists.now self.new.play) }
        ensures why { IfErr result (IsWhy (StopsInWords lists.now (stage_of self.old.play) (prepared words.now))) }
    {
        if !ends_drawn(words) {
            return Ok(());
        }
        for word in words {
            self.prepare_word(alloc, lists, *word, witness)?;
        }
        Ok(())
    }

    /// The turns by priorities of a depth that are drawn from a number.
    fn turns<W: Witness>(
        &mut self,
        alloc: Global,
        lists: &CallLists,
        depth: u64,
        seed: u64,
        witness: &mut W,
    ) -> Result<(), RunFault>
        requires { IsMarked lists.now self.old.play }
        ensures notes { OnOk result (Notes W.Told lists.now (stage_of self.old.play) witness.old (given_words (turns_by lists.now depth seed)) (stage_of self.new.play) witness.new) }
        ensures done { OnOk result (HasDone (Words lists.now (stage_of self.old.play) (turns_by lists.now depth seed)) self.old self.new) }
        ensures seats { OnOk result (IsMarked lists.now self.new.play) }
        ensures why { IfErr result (IsWhy (StopsInWords lists.now (stage_of self.old.play) (turns_by lists.now depth seed))) }
    {
        match turns_by(alloc, lists, depth, seed) {
            Ok(words) => self.words(alloc, lists, &words, witness),
            Err(_) => Err(RunFault::OutOfMemory),
        }
    }

    /// The events before rounds to the end.
    fn before<W: Witness>(
        &mut self,
        alloc: Global,
        script: &Script,
        schedule: Schedule,
        witness: &mut W,
    ) -> Result<(), RunFault>
        requires { IsMarked script.now.lists self.old.play }
        ensures notes { OnOk result (NotesCut W.Told script.now.lists (stage_of self.old.play) witness.old (words_before schedule script.now.words script.now.lists) (stage_of self.new.play) witness.new) }
        ensures done { OnOk result (HasDone (Words script.now.lists (stage_of self.old.play) (words_by schedule script.now.words script.now.lists)) self.old self.new) }
        ensures seats { OnOk result (IsMarked script.now.lists self.new.play) }
        ensures why { IfErr result (IsWhy (StopsInWords script.now.lists (stage_of self.old.play) (words_by schedule script.now.words script.now.lists))) }
    {
        match schedule {
            Schedule::Given => {
                self.words(alloc, &script.lists, script.words.as_slice(), witness)
            }
            Schedule::RoundRobin => {
                self.prepare(alloc, &script.lists, script.words.as_slice(), witness)
            }
            Schedule::Seeded(seed) => {
                self.prepare(alloc, &script.lists, script.words.as_slice(), witness)?;
                self.play.drawn(alloc, &script.lists, seed, witness)
            }
            Schedule::Priorities(depth, seed) => {
                self.prepare(alloc, &script.lists, script.words.as_slice(), witness)?;
                self.turns(alloc, &script.lists, depth, seed, witness)
            }
        }
    }

    /// All events of a script by a schedule.
    pub(crate) fn run<W: Witness>(
        &mut self,
        alloc: Global,
        script: &Script,
        schedule: Schedule,
        witness: &mut W,
    ) -> Result<(), RunFault>
        requires { IsMarked script.now.lists self.old.play }
        ensures notes { OnOk result (NotesRun W.Told schedule script.now (stage_of self.old.play) witness.old (stage_of self.new.play) witness.new) }
        ensures run { OnOk result (HasDone (RunsFrom schedule script.now (stage_of self.old.play)) self.old self.new) }
        ensures why { IfErr result (IsWhy (StopsFrom schedule script.now (stage_of self.old.play))) }
    {
        self.before(alloc, script, schedule, witness)?;
        if schedule.goes_on(script.words.as_slice()) {
            self.play.finish(alloc, &script.lists, witness)?;
        }
        Ok(())
    }
}
