//! A script while its lines are read.

ghost use Rattle.std.specs.Prelude.{Ok, ◌≡◌, ◌<◌, length, map, position, MatchOption, true, false};
ghost use Rattle.std.specs.List.{list_all};
ghost use Rattle.fs_script.specs.Limits.{calls_in, events_in};
ghost use Rattle.fs_script.specs.Script.{nothing_yet, is_lower, is_thread_byte, is_thread, is_star, new_thread, thread_line, new_call, call_line, block_line, new_events, events_word, with_word, has_finish, schedule_word, schedule_line};
ghost use Rattle.fs_script.specs.declared.script.Word.TheVariants.{Finish, Checkpoint, Drawn};
ghost use Rattle.fs_script.specs.code.Drafts.{line_in, step_in};
ghost use Rattle.fs_words.specs.code.Answers.{Becomes};

use crate::limits::{EVENT_LIMIT, THREAD_LIMIT, THREAD_NAME_LIMIT, call_limit};
use crate::script::{CallLists, Script, ThreadNames, Word, WordList};
use fs_calls::Call;
use fs_names::Limits;
use fs_text::calls::call_with;
use fs_words::FaultKind;
use fs_words::lines::cut_words;
use fs_words::recent::Recent;
use fs_words::words::{number_of, parts};
use std::alloc::Global;

/// The script so far, with its counts of calls and events and whether it had `finish` or `!drawn`.
#[derive(Drop)]
pub(crate) struct Draft {
    pub(crate) script: Script,
    calls: usize,
    given: u64,
    is_over: bool,
    ghost calls_counted: { calls ≡ calls_in script.lists },
    ghost events_counted: { given ≡ events_in script.words },
    ghost finish_seen: { is_over ≡ has_finish script.words },
}

fn is_lower(byte: u8) -> bool
    ensures { result ≡ is_lower byte }
{
    byte >= b'a' && byte <= b'z'
}

fn is_thread_byte(byte: u8) -> bool
    ensures { result ≡ is_thread_byte byte }
{
    is_lower(byte) || (byte >= b'0' && byte <= b'9') || byte == b'_'
}

fn all_thread_bytes(word: &[u8]) -> bool
    ensures { result ≡ list_all is_thread_byte word.now }
{
    word.iter().all(|b| is_thread_byte(*b))
}

/// Whether a word may name a thread.
fn is_thread(word: &[u8]) -> bool
    ensures { result ≡ is_thread word.now }
{
    match word {
        [] => false,
        [first, ..] => {
            is_lower(*first)
                && all_thread_bytes(word)
                && word.len() <= THREAD_NAME_LIMIT
                && word != b"finish".as_slice()
        }
    }
}

fn star_in(word: &[u8]) -> Option<usize>
    ensures { result ≡ position is_star word.now }
{
    word.iter().position(|b| *b == b'*')
}

impl Draft {
    pub(crate) fn new(alloc: Global, limits: Limits) -> Draft
        ensures { result.script ≡ nothing_yet limits }
    {
        Draft {
            script: Script {
                names: ThreadNames::new(alloc),
                lists: CallLists::new(alloc),
                words: WordList::new(alloc),
                limits,
            },
            calls: 0,
            given: 0,
            is_over: false,
        }
    }

    #[tactic(auto, using(crate::proofs::ScriptLemmas::list_pushed))]
    fn take_thread(&mut self, alloc: Global, name: &[u8]) -> Result<(), FaultKind>
        ensures { Becomes result self.new.script (new_thread self.old.script name.now) }
    {
        let Draft { script, .. } = self;
        if !is_thread(name) {
            return Err(FaultKind::BadThread);
        }
        if script.names.contains(name) {
            return Err(FaultKind::ThreadTwice);
        }
        if script.names.len() >= THREAD_LIMIT {
            return Err(FaultKind::TooLarge);
        }
        if let Err(kind) = script.names.push(alloc, name) {
            return Err(kind);
        }
        script.lists.push_list(alloc)
    }

    fn take_thread_line(&mut self, alloc: Global, words: &[&[u8]]) -> Result<(), FaultKind>
        ensures { Becomes result self.new.script (thread_line self.old.script (map (λ w. w.now) words.now)) }
    {
        match words {
            [name] => self.take_thread(alloc, name),
            _ => Err(FaultKind::BadLine),
        }
    }

    #[tactic(auto, using(crate::proofs::LimitLemmas::calls_more))]
    fn push_call(&mut self, call: Call) -> Result<(), FaultKind>
        requires { 0 < length self.old.script.lists }
        ensures { Becomes result self.new.script (new_call self.old.script call) }
    {
        let Draft { script, calls, .. } = self;
        if *calls >= call_limit(script.limits) {
            return Err(FaultKind::TooLarge);
        }
        if let Err(kind) = script.lists.push_call(call) {
            return Err(kind);
        }
        *calls += 1;
        Ok(())
    }

    fn take_call_line<'a>(
        &mut self,
        alloc: Global,
        recent: &mut Recent<'a>,
        words: &[&'a [u8]],
    ) -> Result<(), FaultKind>
        ensures { Becomes result self.new.script (call_line self.old.script (map (λ w. w.now) words.now)) }
    {
        if self.script.lists.is_empty() {
            return Err(FaultKind::BadLine);
        }
        match call_with(alloc, recent, self.script.limits, words) {
            Ok(call) => self.push_call(call),
            Err(kind) => Err(kind),
        }
    }

    #[tactic(auto, unfolding(crate::specs::Script::block_line))]
    fn take_block_line<'a>(
        &mut self,
        alloc: Global,
        recent: &mut Recent<'a>,
        words: &[&'a [u8]],
    ) -> Result<(), FaultKind>
        ensures { Becomes result self.new.script (block_line self.old.script (map (λ w. w.now) words.now)) }
    {
        let [first, more @ ..] = words else {
            return Err(FaultKind::BadLine);
        };
        if *first == b"thread".as_slice() {
            return self.take_thread_line(alloc, more);
        }
        self.take_call_line(alloc, recent, words)
    }

    #[tactic(auto, using(crate::proofs::LimitLemmas::events_more, crate::proofs::LimitLemmas::unfinished_more))]
    fn push_events(&mut self, seat: usize, times: u64) -> Result<(), FaultKind>
        ensures { Becomes result self.new.script (new_events self.old.script seat times) }
    {
        let Draft { script, given, .. } = self;
        let sum = match given.checked_add(times) {
            Some(sum) if sum <= EVENT_LIMIT => sum,
            _ => return Err(FaultKind::TooLarge),
        };
        if let Err(kind) = script.words.push(Word::Events(seat, times)) {
            return Err(kind);
        }
        *given = sum;
        Ok(())
    }

    fn take_events(&mut self, seat: Option<usize>, times: Option<u64>) -> Result<(), FaultKind>
        ensures { Becomes result self.new.script (events_word self.old.script seat times) }
    {
        match (seat, times) {
            (Some(seat), Some(times)) if 1 <= times && times <= EVENT_LIMIT => {
                self.push_events(seat, times)
            }
            _ => Err(FaultKind::BadWord),
        }
    }

    #[tactic(auto, using(crate::proofs::LimitLemmas::events_finish, crate::proofs::LimitLemmas::finished))]
    fn push_finish(&mut self) -> Result<(), FaultKind>
        ensures { Becomes result self.new.script (Ok (with_word self.old.script Finish)) }
    {
        let Draft {
            script,
            is_over,
            ..
        } = self;
        if let Err(kind) = script.words.push(Word::Finish) {
            return Err(kind);
        }
        *is_over = true;
        Ok(())
    }

    #[tactic(auto, using(crate::proofs::LimitLemmas::events_checkpoint, crate::proofs::LimitLemmas::unfinished_checkpoint))]
    fn push_checkpoint(&mut self) -> Result<(), FaultKind>
        ensures { Becomes result self.new.script (Ok (with_word self.old.script Checkpoint)) }
    {
        let Draft { script, .. } = self;
        script.words.push(Word::Checkpoint)
    }

    #[tactic(auto, using(crate::proofs::LimitLemmas::events_drawn, crate::proofs::LimitLemmas::drawn_ends))]
    fn push_drawn(&mut self) -> Result<(), FaultKind>
        ensures { Becomes result self.new.script (Ok (with_word self.old.script Drawn)) }
    {
        let Draft {
            script,
            is_over,
            ..
        } = self;
        if let Err(kind) = script.words.push(Word::Drawn) {
            return Err(kind);
        }
        *is_over = true;
        Ok(())
    }

    #[tactic(auto, unfolding(crate::specs::Script::schedule_word))]
    fn take_word(&mut self, word: &[u8]) -> Result<(), FaultKind>
        ensures { Becomes result self.new.script (schedule_word self.old.script word.now) }
    {
        if self.is_over {
            return Err(FaultKind::BadWord);
        }
        if word == b"finish".as_slice() {
            return self.push_finish();
        }
        if word == b"!checkpoint".as_slice() {
            return self.push_checkpoint();
        }
        if word == b"!drawn".as_slice() {
            return self.push_drawn();
        }
        match star_in(word) {
            Some(at) => {
                let (name, times) = parts(word, at);
                let seat = self.script.names.seat(name);
                self.take_events(seat, number_of(times))
            }
            None => {
                let seat = self.script.names.seat(word);
                self.take_events(seat, Some(1))
            }
        }
    }

    fn take_schedule_line(&mut self, words: &[&[u8]]) -> Result<(), FaultKind>
        ensures { Becomes result self.new.script (schedule_line self.old.script (map (λ w. w.now) words.now)) }
    {
        let mut at = 0;
        'words: while at < words.len() {
            if let Err(kind) = self.take_word(words[at]) {
                return Err(kind);
            }
            at += 1;
        }
        Ok(())
    }

    fn take_words<'a>(
        &mut self,
        alloc: Global,
        recent: &mut Recent<'a>,
        in_schedule: bool,
        words: &[&'a [u8]],
    ) -> Result<(), FaultKind>
        ensures { Becomes result self.new.script (line_in in_schedule self.old.script (map (λ w. w.now) words.now)) }
    {
        if in_schedule {
            return self.take_schedule_line(words);
        }
        self.take_block_line(alloc, recent, words)
    }

    /// Takes a line that is not skipped, before or after the line `schedule`. `words` lends its memory.
    pub(crate) fn take_line<'a>(
        &mut self,
        alloc: Global,
        recent: &mut Recent<'a>,
        in_schedule: bool,
        line: &'a [u8],
        words: &mut Vec<&'a [u8]>,
    ) -> Result<(), FaultKind>
        ensures { Becomes result self.new.script (step_in in_schedule self.old.script line.now) }
    {
        if let Err(kind) = cut_words(line, words) {
            return Err(kind);
        }
        self.take_words(alloc, recent, in_schedule, words.as_slice())
    }
}
