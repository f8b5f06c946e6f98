//! The events of a run, in words.

ghost use Rattle.std.specs.Prelude.{◌≡◌, ◌∷◌, [], Bool, List, None, map, IfOk, OnOk};
ghost use Rattle.fs_sched_witness.specs.declared.moments.Moment.{Moment};
ghost use Rattle.fs_sched_witness.specs.declared.moments.Moment.TheVariants.{Event};
ghost use Rattle.fs_sched_witness.specs.declared.moments.Told.{Told};
ghost use Rattle.fs_trace_story.specs.Shown.{deed_of, deed_of_step, deed_told, shown_one, Adds, Tells};
ghost use Rattle.fs_trace_story.specs.code.Waiting.{AreWaits, GoesOn, HasShown};

use crate::effect::{Effect, effect_of};
use crate::holdings::{Held, let_go, meaning, position, take};
use crate::page::{Deed, Line, Page, Part, Parts};
use crate::paths::{path_of, paths_of};
use crate::shown::Waits;
use fs_calls::{Call, Errno, Reply};
use fs_core::{Core, Stepped};
use fs_names::{CallNo, Path};
use fs_nodes::{NodeNo, Store};
use fs_sched_witness::{Answer, Moment, Told, Witness};
use fs_script::{CallLists, Script, ThreadNames};
use fs_seq::SeqTree;
use fs_text::{errno_text, write_call, write_reply};
use itoa::Buffer;
use std::alloc::{AllocError, Global};

/// A call of a run: its number, its thread, and its place among the calls of that.
#[derive(Clone, Copy, Debug)]
pub struct CallPlace {
    pub number: u64,
    pub seat: usize,
    pub at: usize,
}

/// How far a thread came: how many of its calls began, and the number of the one that did not return; 0 where all did.
#[derive(Clone, Copy, Debug)]
pub struct Standing {
    pub begun: usize,
    pub call: u64,
}

/// A run that was played: the page with the moments that are shown, the calls in the order in which they began, with
/// what each returned, and how far each thread came.
#[derive(Drop)]
pub struct Story<P> {
    pub page: P,
    pub calls: Vec<CallPlace>,
    pub replies: Vec<Option<Reply>>,
    pub threads: Vec<Standing>,
}

/// What an event did, and where the words have what they say of it.
#[derive(Clone, Copy)]
struct Said {
    deed: Deed,
    parts: Parts,
}

/// Where the path is of the node that a call locks or waits for.
fn path_in(said: &Said) -> Part {
    match said.deed {
        Deed::Takes(_) | Deed::Waits(_, _) => said.parts.path,
        _ => Part::none(),
    }
}

/// A thread in a run: how many of its calls have begun, the number of its pending call, and what that holds.
#[derive(Drop)]
struct Thread {
    begun: usize,
    call: u64,
    held: Vec<Held>,
}

/// Who puts a run into words: the calls so far with what they change and what they returned, and how many of them began before
/// the last checkpoint.
#[derive(Drop)]
struct Voice<'a> {
    alloc: Global,
    names: &'a ThreadNames,
    lists: &'a CallLists,
    tree: SeqTree,
    threads: Vec<Thread>,
    calls: Vec<CallPlace>,
    effects: Vec<Effect>,
    replies: Vec<Option<Reply>>,
    before: usize,
}

impl<'a> Voice<'a> {
    fn new(alloc: Global, script: &'a Script) -> Result<Voice<'a>, AllocError> {
        let count = script.lists.as_slice().len();
        let mut threads = Vec::new(alloc);
        for _ in 0..count {
            threads.push(Thread {
                begun: 0,
                call: 0,
                held: Vec::new(alloc),
            })?;
        }
        Ok(Voice {
            alloc,
            names: &script.names,
            lists: &script.lists,
            tree: SeqTree::with_limits(alloc, script.limits)?,
            threads,
            calls: Vec::new(alloc),
            effects: Vec::new(alloc),
            replies: Vec::new(alloc),
            before: 0,
        })
    }

    /// Where the call of a number is among the calls so far; numbers count from 1 after each checkpoint.
    fn index_of(&self, number: u64) -> Option<usize> {
        if number == 0 {
            return None;
        }
        Some(self.before.saturating_add((number - 1) as usize))
    }

    /// The call of a number.
    fn place_of(&self, number: u64) -> Option<CallPlace> {
        self.calls.get(self.index_of(number)?).copied()
    }

    fn call_of(&self, number: u64) -> Option<&'a Call> {
        let place = self.place_of(number)?;
        self.lists.of(place.seat).get(place.at)
    }

    /// The effect of the call of a number, as far as it is known.
    fn set_effect(&mut self, number: u64, effect: Effect) {
        let Some(at) = self.index_of(number) else {
            return;
        };
        if let Some(slot) = self.effects.get_mut(at) {
            *slot = effect;
        }
    }

    fn effect(&self, number: u64) -> Effect {
        let Some(at) = self.index_of(number) else {
            return Effect::ChangesNothing;
        };
        match self.effects.get(at) {
            Some(effect) => *effect,
            None => Effect::ChangesNothing,
        }
    }

    /// What the thread holds.
    fn held(&self, seat: usize) -> &[Held] {
        match self.threads.get(seat) {
            Some(thread) => thread.held.as_slice(),
            None => &[],
        }
    }

    /// The number of the pending call of a thread; 0 if there is none.
    fn under_way(&self, seat: usize) -> u64 {
        match self.threads.get(seat) {
            Some(thread) => thread.call,
            None => 0,
        }
    }

    /// A call as one word: its thread, and its place among the calls of that, counted from 1.
    fn push_who(&self, number: u64, line: &mut Vec<u8>) -> Result<Part, AllocError> {
        let from = line.len();
        let Some(place) = self.place_of(number) else {
            return Ok(Part::none());
        };
        if let Some(name) = self.names.name(place.seat) {
            line.extend_from_slice(name)?;
        }
        line.extend_from_slice(b"#")?;
        push_number((place.at as u64).saturating_add(1), line)?;
        Ok(part_from(from, line))
    }

    fn push_path(
        &self,
        store: &Store,
        node: NodeNo,
        line: &mut Vec<u8>,
    ) -> Result<Part, AllocError> {
        match path_of(self.alloc, store, node)? {
            Some(path) => push_part(path.as_slice(), line),
            None => Ok(Part::none()),
        }
    }

    /// What the first path of a call means now, or the second.
    fn push_meaning(
        &self,
        store: &Store,
        seat: usize,
        path: &Path,
        is_second: bool,
        line: &mut Vec<u8>,
    ) -> Result<Part, AllocError> {
        let word = meaning(self.alloc, store, self.held(seat), path, is_second)?;
        push_part(word.as_slice(), line)
    }

    /// The path of the position of a thread's call.
    fn push_position(
        &self,
        store: &Store,
        seat: usize,
        call: &Call,
        line: &mut Vec<u8>,
    ) -> Result<Part, AllocError> {
        match position(self.held(seat), call) {
            Some(node) => self.push_path(store, node, line),
            None => Ok(Part::none()),
        }
    }

    /// A word, and what the first path of a call means now.
    fn push_one(
        &self,
        store: &Store,
        seat: usize,
        word: &[u8],
        call: &Call,
        line: &mut Vec<u8>,
    ) -> Result<Parts, AllocError> {
        let change = push_part(word, line)?;
        line.extend_from_slice(b" ")?;
        let path = self.push_meaning(store, seat, paths_of(call).0, false, line)?;
        Ok(Parts {
            change,
            path,
            ..Parts::none()
        })
    }

    /// The same with a second word, and the second path.
    fn push_both(
        &self,
        store: &Store,
        seat: usize,
        words: (&[u8], &[u8]),
        call: &Call,
        line: &mut Vec<u8>,
    ) -> Result<Parts, AllocError> {
        let one = self.push_one(store, seat, words.0, call, line)?;
        line.extend_from_slice(b" ")?;
        let joint = push_part(words.1, line)?;
        line.extend_from_slice(b" ")?;
        let second = self.push_meaning(store, seat, paths_of(call).1, true, line)?;
        Ok(Parts {
            joint,
            second,
            ..one
        })
    }

    /// That the file changes at which a thread's call is.
    fn push_change(
        &self,
        store: &Store,
        seat: usize,
        call: &Call,
        line: &mut Vec<u8>,
    ) -> Result<Parts, AllocError> {
        let change = push_part(b"changes", line)?;
        line.extend_from_slice(b" ")?;
        let path = self.push_position(store, seat, call, line)?;
        Ok(Parts {
            change,
            path,
            ..Parts::none()
        })
    }

    /// What the pending call of a thread changes.
    fn push_effect(
        &self,
        store: &Store,
        seat: usize,
        line: &mut Vec<u8>,
    ) -> Result<Parts, AllocError> {
        let number = self.under_way(seat);
        let Some(call) = self.call_of(number) else {
            return Ok(Parts::none());
        };
        match self.effect(number) {
            Effect::Adds => self.push_one(store, seat, b"adds", call, line),
            Effect::Removes => self.push_one(store, seat, b"removes", call, line),
            Effect::Changes => self.push_change(store, seat, call, line),
            Effect::Moves => self.push_both(store, seat, (b"moves", b"to"), call, line),
            Effect::MovesOver => self.push_both(store, seat, (b"moves", b"over"), call, line),
            Effect::Exchanges => {
                self.push_both(store, seat, (b"exchanges", b"with"), call, line)
            }
            Effect::ChangesNothing => push_word(b"changes nothing", line),
            Effect::Answers => push_word(b"answers", line),
            Effect::Fails(errno) => push_failure(errno, line),
        }
    }

    /// The next call of a thread begins.
    fn begin(&mut self, seat: usize, number: u64) -> Result<(), AllocError> {
        let Some(thread) = self.threads.get_mut(seat) else {
            return Ok(());
        };
        let at = thread.begun;
        thread.begun = at.saturating_add(1);
        thread.call = number;
        self.calls.push(CallPlace { number, seat, at })?;
        self.effects.push(Effect::ChangesNothing)?;
        self.replies.push(None)?;
        Ok(())
    }

    fn tell_take(
        &mut self,
        store: &Store,
        seat: usize,
        node: NodeNo,
        line: &mut Vec<u8>,
    ) -> Result<Parts, AllocError> {
        if let Some(call) = self.call_of(self.under_way(seat)) {
            if seat < self.threads.len() {
                take(
                    self.alloc,
                    store,
                    paths_of(call),
                    node,
                    &mut self.threads[seat].held,
                )?;
            }
        }
        line.extend_from_slice(b" locks ")?;
        let path = self.push_path(store, node, line)?;
        Ok(Parts {
            path,
            ..Parts::none()
        })
    }

    fn tell_wait(
        &self,
        store: &Store,
        node: NodeNo,
        holder: CallNo,
        line: &mut Vec<u8>,
    ) -> Result<Parts, AllocError> {
        line.extend_from_slice(b" waits for ")?;
        let path = self.push_path(store, node, line)?;
        line.extend_from_slice(b" held by ")?;
        let other = self.push_who(holder.get(), line)?;
        Ok(Parts {
            path,
            other,
            ..Parts::none()
        })
    }

    fn tell_let_go(
        &mut self,
        store: &Store,
        seat: usize,
        node: NodeNo,
        line: &mut Vec<u8>,
    ) -> Result<Parts, AllocError> {
        if seat >= self.threads.len() {
            return Ok(Parts::none());
        }
        let taken = match let_go(&mut self.threads[seat].held, node) {
            Some(held) => held.taken,
            None => Vec::new(self.alloc),
        };
        line.extend_from_slice(b" unlocks ")?;
        let now = path_of(self.alloc, store, node)?;
        push_unlocked(now, taken.as_slice(), line)
    }

    /// A call takes its place, and the tree of the commits changes as it says.
    fn commit(&mut self, number: u64) -> Result<(), AllocError> {
        let Some(call) = self.call_of(number) else {
            return Ok(());
        };
        let effect = effect_of(self.alloc, &mut self.tree, call)?;
        self.set_effect(number, effect);
        Ok(())
    }

    fn tell_help(
        &mut self,
        store: &Store,
        helped: CallNo,
        line: &mut Vec<u8>,
    ) -> Result<Parts, AllocError> {
        self.commit(helped.get())?;
        line.extend_from_slice(b" helps ")?;
        let other = self.push_who(helped.get(), line)?;
        line.extend_from_slice(b", commits it at ")?;
        let path = match (self.place_of(helped.get()), self.call_of(helped.get())) {
            (Some(place), Some(call)) => self.push_position(store, place.seat, call, line)?,
            _ => Part::none(),
        };
        Ok(Parts {
            other,
            path,
            ..Parts::none()
        })
    }

    fn tell_commit(
        &mut self,
        store: &Store,
        seat: usize,
        line: &mut Vec<u8>,
    ) -> Result<Parts, AllocError> {
        self.commit(self.under_way(seat))?;
        line.extend_from_slice(b" commits, ")?;
        self.push_effect(store, seat, line)
    }

    fn tell_carry_out(
        &self,
        store: &Store,
        seat: usize,
        line: &mut Vec<u8>,
    ) -> Result<Parts, AllocError> {
        line.extend_from_slice(b" makes its change, ")?;
        self.push_effect(store, seat, line)
    }

    fn tell_return(
        &mut self,
        seat: usize,
        reply: &Reply,
        line: &mut Vec<u8>,
    ) -> Result<Parts, AllocError> {
        if seat < self.threads.len() {
            self.threads[seat].call = 0;
            self.threads[seat].held.clear();
        }
        line.extend_from_slice(b" returns ")?;
        let from = line.len();
        write_reply(self.alloc, reply, line)?;
        Ok(Parts {
            text: part_from(from, line),
            ..Parts::none()
        })
    }

    fn tell_step(
        &mut self,
        store: &Store,
        seat: usize,
        stepped: &Stepped,
        line: &mut Vec<u8>,
    ) -> Result<Said, AllocError>
        ensures { IfOk result (λ said. said.deed ≡ deed_of_step stepped.now) }
    {
        let who = self.push_who(self.under_way(seat), line)?;
        let parts = match stepped {
            Stepped::Idle => Parts::none(),
            Stepped::Took(node) => self.tell_take(store, seat, *node, line)?,
            Stepped::Busy(node, holder) => self.tell_wait(store, *node, *holder, line)?,
            Stepped::LetGo(node) => self.tell_let_go(store, seat, *node, line)?,
            Stepped::Helped(helped) => self.tell_help(store, *helped, line)?,
            Stepped::Committed => self.tell_commit(store, seat, line)?,
            Stepped::CarriedOut => self.tell_carry_out(store, seat, line)?,
            Stepped::Returned(reply) => self.tell_return(seat, reply, line)?,
        };
        Ok(Said {
            deed: deed_of(stepped),
            parts: Parts { who, ..parts },
        })
    }

    fn tell_begin(
        &mut self,
        seat: usize,
        number: u64,
        line: &mut Vec<u8>,
    ) -> Result<Said, AllocError>
        ensures { IfOk result (λ said. said.deed ≡ Deed.Begins) }
    {
        self.begin(seat, number)?;
        let who = self.push_who(number, line)?;
        line.extend_from_slice(b" begins ")?;
        let from = line.len();
        if let Some(call) = self.call_of(number) {
            write_call(self.alloc, call, line)?;
        }
        let text = part_from(from, line);
        line.extend_from_slice(b", call ")?;
        push_number(number, line)?;
        Ok(Said {
            deed: Deed::Begins,
            parts: Parts {
                who,
                text,
                ..Parts::none()
            },
        })
    }

    fn tell_idle(&self, seat: usize, line: &mut Vec<u8>) -> Result<Said, AllocError>
        ensures { IfOk result (λ said. said.deed ≡ Deed.Idles) }
    {
        if let Some(name) = self.names.name(seat) {
            line.extend_from_slice(name)?;
        }
        line.extend_from_slice(b" has nothing left")?;
        Ok(Said {
            deed: Deed::Idles,
            parts: Parts::none(),
        })
    }

    /// Adds the words of an event, which left the nodes so, and answers what it did.
    fn tell(&mut self, store: &Store, told: &Told, line: &mut Vec<u8>) -> Result<Said, AllocError>
        ensures { IfOk result (λ said. said.deed ≡ deed_of told.now.answer) }
    {
        match &told.answer {
            Answer::Spent => self.tell_idle(told.seat, line),
            Answer::Begun(number) => self.tell_begin(told.seat, number.get(), line),
            Answer::Stepped(stepped) => self.tell_step(store, told.seat, stepped, line),
        }
    }

    /// Keeps what the call of a number returned.
    fn keep_reply(&mut self, number: u64, answer: Answer) {
        let Answer::Stepped(Stepped::Returned(reply)) = answer else {
            return;
        };
        let Some(at) = self.index_of(number) else {
            return;
        };
        if let Some(place) = self.replies.get_mut(at) {
            *place = Some(reply);
        }
    }

    /// Shows an event, which is counted from 1, on a page.
    fn show<P: Page>(
        &mut self,
        store: &Store,
        number: usize,
        told: Told,
        words: &mut Vec<u8>,
        page: &mut P,
    ) -> Result<(), AllocError>
        ensures { OnOk result (Adds P.Has page.old (deed_told (number, Event told) ∷ []) page.new) }
    {
        let seat = told.seat;
        let before = self.under_way(seat);
        let said = self.tell(store, &told, words)?;
        let call = if said.deed == Deed::Begins {
            self.under_way(seat)
        } else {
            before
        };
        let line = Line {
            number,
            seat: Some(seat),
            call,
            deed: said.deed,
            path: path_in(&said),
            parts: said.parts,
        };
        page.show(line, words.as_slice())?;
        self.keep_reply(call, told.answer);
        Ok(())
    }

    /// The calls from here on begin after a checkpoint.
    fn checkpoint(&mut self) {
        self.before = self.calls.len();
    }
}

/// Shows a checkpoint, before the event of a number, on a page.
fn show_checkpoint<P: Page>(number: usize, page: &mut P) -> Result<(), AllocError>
    ensures { OnOk result (Adds P.Has page.old ((number, (None, Deed.Checkpoint)) ∷ []) page.new) }
{
    let line = Line {
        number,
        seat: None,
        call: 0,
        deed: Deed::Checkpoint,
        path: Part::none(),
        parts: Parts::none(),
    };
    page.show(line, b", the next call is call 1")
}

/// Puts a run into words as its moments come: each event, or those that are news, and each checkpoint. A page is shown
/// each when it comes, and the teller keeps none of them.
#[derive(Drop)]
pub struct Teller<'a, P> {
    voice: Voice<'a>,
    every: bool,
    number: usize,
    waits: Waits,
    words: Vec<u8>,
    page: P,
}

impl<'a, P: Page> Teller<'a, P> {
    /// Before the first moment of a run of a script. It shows every event, or those that are news.
    pub fn new(
        alloc: Global,
        script: &'a Script,
        every: bool,
        page: P,
    ) -> Result<Teller<'a, P>, AllocError>
        ensures { (start : P) → P.Has start page [] → IfOk result (λ teller. HasShown P.Has every start teller []) }
    {
        Ok(Teller {
            voice: Voice::new(alloc, script)?,
            every,
            number: 1,
            waits: Waits::new(alloc),
            words: Vec::new(alloc),
            page,
        })
    }

    /// Goes on by an event, and shows it if it is news or every one is asked for.
    fn go_on(&mut self, store: &Store, told: Told) -> Result<(), AllocError>
        ensures waits { (before : List Told) → AreWaits self.old.waits before → OnOk result (AreWaits self.new.waits (told ∷ before)) }
        ensures page { (before : List Told) → AreWaits self.old.waits before → OnOk result (Adds P.Has self.old.page (map deed_told (shown_one self.old.every before self.old.number (Event told))) self.new.page) }
        ensures every { self.new.every ≡ self.old.every }
        ensures number { self.new.number ≡ self.old.number }
    {
        let news = self.waits.is_news(&told)?;
        if self.every || news {
            self.words.clear();
            return self
                .voice
                .show(store, self.number, told, &mut self.words, &mut self.page);
        }
        Ok(())
    }

    /// What was put into words.
    pub fn story(self) -> Result<Story<P>, AllocError>
        ensures { (every : Bool) (start : P) (ms : List Moment) → HasShown P.Has every start self.entry ms → IfOk result (λ story. Tells P.Has every start story ms) }
    {
        let threads = standings(self.voice.alloc, self.voice.threads.as_slice())?;
        Ok(Story {
            page: self.page,
            calls: self.voice.calls,
            replies: self.voice.replies,
            threads,
        })
    }
}

impl<'a, P: Page> Witness for Teller<'a, P> {
    ghost Told = { λ first teller ms. GoesOn P.Has first teller ms };

    fn begins(&mut self, _calls: usize) {}

    fn saw(&mut self, core: &Core, moment: Moment) -> Result<(), AllocError> {
        // No run has so many events.
        if self.number == usize::MAX {
            return Err(AllocError);
        }
        match moment {
            Moment::Event(told) => {
                self.go_on(core.store(), told)?;
                self.number += 1;
                Ok(())
            }
            Moment::Checkpoint(_) => {
                self.voice.checkpoint();
                show_checkpoint(self.number, &mut self.page)
            }
        }
    }

    fn went_on(&mut self, _events: u64, _entries: usize) {}

    fn has_run(&mut self, _done: u64, _runs: u64) {}
}

/// What a step did.
fn deed_of(stepped: &Stepped) -> Deed
    ensures { result ≡ deed_of_step stepped.now }
{
    match stepped {
        Stepped::Idle => Deed::Idles,
        Stepped::Took(node) => Deed::Takes(*node),
        Stepped::Busy(node, holder) => Deed::Waits(*node, *holder),
        Stepped::LetGo(node) => Deed::LetsGo(*node),
        Stepped::Helped(helped) => Deed::Helps(*helped),
        Stepped::Committed => Deed::Commits,
        Stepped::CarriedOut => Deed::CarriesOut,
        Stepped::Returned(_) => Deed::Returns,
    }
}

fn push_number(number: u64, line: &mut Vec<u8>) -> Result<(), AllocError> {
    let mut buffer = Buffer::new();
    line.extend_from_slice(buffer.format(number).as_bytes())
}

/// The words of a line from a place on.
fn part_from(from: usize, line: &[u8]) -> Part {
    Part {
        from,
        end: line.len(),
    }
}

/// Adds bytes, and answers where they are.
fn push_part(bytes: &[u8], line: &mut Vec<u8>) -> Result<Part, AllocError> {
    let from = line.len();
    line.extend_from_slice(bytes)?;
    Ok(part_from(from, line))
}

/// The word of a change that has no path.
fn push_word(word: &[u8], line: &mut Vec<u8>) -> Result<Parts, AllocError> {
    let change = push_part(word, line)?;
    Ok(Parts {
        change,
        ..Parts::none()
    })
}

/// That a call fails.
fn push_failure(errno: Errno, line: &mut Vec<u8>) -> Result<Parts, AllocError> {
    let change = push_part(b"fails", line)?;
    line.extend_from_slice(b" ")?;
    let error = push_part(errno_text(errno), line)?;
    Ok(Parts {
        change,
        error,
        ..Parts::none()
    })
}

/// A node that is unlocked, by its path now, where one leads to it, and the path under which it was locked.
fn push_unlocked(
    now: Option<Vec<u8>>,
    locked: &[u8],
    line: &mut Vec<u8>,
) -> Result<Parts, AllocError> {
    let Some(now) = now else {
        let second = push_part(locked, line)?;
        line.extend_from_slice(b", removed")?;
        return Ok(Parts {
            second,
            ..Parts::none()
        });
    };
    let path = push_part(now.as_slice(), line)?;
    if now.as_slice() == locked {
        return Ok(Parts {
            path,
            ..Parts::none()
        });
    }
    line.extend_from_slice(b", locked as ")?;
    let second = push_part(locked, line)?;
    Ok(Parts {
        path,
        second,
        ..Parts::none()
    })
}

/// How far each thread came.
fn standings(alloc: Global, threads: &[Thread]) -> Result<Vec<Standing>, AllocError> {
    let mut standings = Vec::new(alloc);
    for thread in threads {
        standings.push(Standing {
            begun: thread.begun,
            call: thread.call,
        })?;
    }
    Ok(standings)
}
