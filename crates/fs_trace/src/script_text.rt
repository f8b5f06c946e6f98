//! A script with other words.

ghost use Rattle.std.specs.Prelude.{◌≡◌, ◌≤◌, ◌++◌, ◌∷◌, [], ℕ, List, true, false, nat_lt, length, IfOk, IfErr, IfSome, OnOk, get_or};
ghost use Rattle.fs_script.specs.Limits.{events_in};
ghost use Rattle.fs_script.specs.declared.limits.TheConstants.{EVENT_LIMIT};
ghost use Rattle.fs_sched_witness.specs.declared.moments.Moment.{Moment};
ghost use Rattle.fs_sched.specs.Gives.{single_words, given_words};
ghost use Rattle.fs_sched.specs.Schedules.{one_event};
ghost use Rattle.fs_trace.specs.Traces.{busy_event, busy_word, busy_words, times_text, word_text, AreWordTexts, IsGap, IsScheduleText};
ghost use Rattle.fs_trace.specs.code.Mades.{IsNotHandedOut};
ghost use Rattle.fs_trace.specs.code.WordTexts.{is_schedule, AddsWords, AreTimed, HasHead, HasWords, IsBeginning, IsGapBehind, IsWritten};
ghost use Rattle.fs_words.specs.Headers.{is_too_long};

use crate::fault::ScheduleFault;
use fs_core::Core;
use fs_names::blocks::place_from;
use fs_sched::RunFault;
use fs_sched_witness::{Answer, Moment, Told, Witness};
use fs_script::limits::EVENT_LIMIT;
use fs_script::{Script, ThreadNames, Word};
use fs_words::Addition;
use fs_words::headers::is_too_long;
use std::alloc::{AllocError, Global};

/// The most bytes that a line of words is to have; a single word may be longer.
const LINE_WIDTH: usize = 72;

/// A word with an event of a thread more, where it is one of events of that thread.
fn with_event(word: Word, seat: usize) -> Option<Word>
    ensures given { IfSome result (λ more. single_words more ≡ single_words word ++ one_event seat ∷ []) }
    ensures timed { IfSome result (λ more. AreTimed (more ∷ [])) }
{
    match word {
        Word::Events(other, times) if other == seat && times < u64::MAX => {
            Some(Word::Events(seat, times + 1))
        }
        _ => None,
    }
}

/// Adds an event to words.
fn push_event(seat: usize, words: &mut Vec<Word>) -> Result<(), AllocError>
    ensures given { OnOk result (given_words words.new.items ≡ given_words words.old.items ++ one_event seat ∷ []) }
    ensures timed { OnOk result (AreTimed words.old.items → AreTimed words.new.items) }
{
    let count = words.len();
    if count > 0 {
        if let Some(more) = with_event(words[count - 1], seat) {
            words[count - 1] = more;
            return Ok(());
        }
    }
    words.push(Word::Events(seat, 1))?;
    Ok(())
}

/// Adds an event to words, where it is no idle turn.
fn push_told(told: &Told, words: &mut Vec<Word>) -> Result<(), AllocError>
    ensures given { OnOk result (given_words words.new.items ≡ given_words words.old.items ++ busy_event told.now.seat told.now.answer) }
    ensures timed { OnOk result (AreTimed words.old.items → AreTimed words.new.items) }
{
    match told.answer {
        Answer::Spent => Ok(()),
        _ => push_event(told.seat, words),
    }
}

/// Adds a moment to words, where it is no idle turn.
fn push_moment(moment: &Moment, words: &mut Vec<Word>) -> Result<(), AllocError>
    ensures given { OnOk result (given_words words.new.items ≡ given_words words.old.items ++ busy_words (moment.now ∷ [])) }
    ensures timed { OnOk result (AreTimed words.old.items → AreTimed words.new.items) }
{
    match moment {
        Moment::Event(told) => push_told(told, words),
        Moment::Checkpoint(_) => {
            words.push(Word::Checkpoint)?;
            Ok(())
        }
    }
}

/// The words of a run's moments so far, without idle turns, and how many events they give. Once these are more than a script may
/// give, no more words are kept.
#[derive(Drop)]
pub(crate) struct RunWords {
    words: Vec<Word>,
    events: u64,
}

impl RunWords {
    /// Before the first moment.
    pub(crate) fn new(alloc: Global) -> RunWords
        ensures { HasWords result [] }
    {
        RunWords {
            words: Vec::new(alloc),
            events: 0,
        }
    }

    /// Whether they give more events than a script may.
    pub(crate) fn are_too_many(&self) -> bool
        ensures { result ≡ nat_lt EVENT_LIMIT self.now.events }
    {
        self.events > EVENT_LIMIT
    }
}

impl Witness for RunWords {
    ghost Told = { λ first words moments. HasWords words moments };

    fn begins(&mut self, _calls: usize) {}

    /// A run that takes more events than a script may give goes on, so that they are known to be those of a run.
    fn saw(&mut self, _core: &Core, moment: Moment) -> Result<(), AllocError> {
        self.events = self.events.saturating_add(events_of(&moment));
        if self.are_too_many() {
            return Ok(());
        }
        push_moment(&moment, &mut self.words)
    }

    fn went_on(&mut self, _events: u64, _entries: usize) {}

    fn has_run(&mut self, _done: u64, _runs: u64) {}
}

/// How many events a moment is of a thread that had something to do.
fn events_of(moment: &Moment) -> u64
    ensures { result ≡ events_in (busy_word moment.now) }
{
    match moment {
        Moment::Event(told) if !matches!(told.answer, Answer::Spent) => 1,
        _ => 0,
    }
}

/// Whether this is the line at which the schedule begins.
fn begins_schedule(line: &[u8]) -> bool
    ensures { result ≡ is_schedule line.now }
{
    line == b"schedule".as_slice()
}

/// The part of a script's text up to its line `schedule`, without the line feed behind that; all where there is no such line.
fn blocks_of(text: &[u8]) -> &[u8]
    ensures beginning { IsBeginning text.now result.now }
    ensures head { HasHead text.now result.now }
{
    let mut start = 0;
    'lines: while let Some(end) = place_from(b'\n', text, start) {
        if begins_schedule(&text[start..end]) {
            return &text[..end];
        }
        start = end + 1;
    }
    text
}

/// The name of the thread on a seat; none where there is no such thread.
pub(crate) fn name_of(names: &ThreadNames, seat: usize) -> &[u8]
    ensures { result.now ≡ get_or names.now seat [] }
{
    match names.name(seat) {
        Some(name) => name,
        None => &[],
    }
}

/// How many events a word gives, where they are not one.
fn push_times(times: u64, text: &mut Addition) -> Result<(), AllocError>
    ensures ok { OnOk result (text.new.added ≡ text.old.added ++ times_text times) }
    ensures before { text.new.before ≡ text.old.before }
{
    if times == 1 {
        return Ok(());
    }
    text.push_with_number(b"*", times)
}

/// The text of a word.
fn word_text(alloc: Global, names: &ThreadNames, word: Word) -> Result<Vec<u8>, AllocError>
    ensures { IfOk result (λ text. text.items ≡ word_text names.now word) }
{
    let mut text = Addition::new(Vec::new(alloc));
    match word {
        Word::Events(seat, times) => {
            text.push(name_of(names, seat))?;
            push_times(times, &mut text)?;
        }
        Word::Checkpoint => text.push(b"!checkpoint")?,
        Word::Finish => text.push(b"finish")?,
        Word::Drawn => text.push(b"!drawn")?,
    }
    Ok(text.kept())
}

/// What stands before a word: it goes on a new line where there is no room for it.
fn gap_before(is_wide: bool) -> u8
    ensures gap { IsGap result }
    ensures wide { is_wide ≡ true → result ≡ 10 }
{
    if is_wide { b'\n' } else { b' ' }
}

/// Adds a word to a line of so many bytes, or to a new one, and answers how many that has.
fn push_word(
    alloc: Global,
    names: &ThreadNames,
    word: Word,
    width: usize,
    text: &mut Vec<u8>,
) -> Result<usize, AllocError>
    ensures { OnOk result ((gap : ℕ) × IsGapBehind width gap × (text.new.items ≡ text.old.items ++ gap ∷ word_text names.now word)) }
{
    let word = word_text(alloc, names, word)?;
    let is_wide = width.saturating_add(word.len()) >= LINE_WIDTH;
    text.push(gap_before(is_wide))?;
    text.extend_from_slice(word.as_slice())?;
    let before = if is_wide { 0 } else { width.saturating_add(1) };
    Ok(before.saturating_add(word.len()))
}

/// The words, each with a space or a line feed before it, and a line feed before the first.
fn push_words(
    alloc: Global,
    names: &ThreadNames,
    words: &[Word],
    text: &mut Vec<u8>,
) -> Result<(), AllocError>
    ensures { OnOk result (AddsWords names.now words.now text.old.items text.new.items) }
{
    let mut width = LINE_WIDTH;
    for word in words {
        width = push_word(alloc, names, *word, width, text)?;
    }
    Ok(())
}

/// A script's text with other words.
fn with_words(
    alloc: Global,
    input: &[u8],
    names: &ThreadNames,
    words: &[Word],
) -> Result<Vec<u8>, AllocError>
    ensures made { (moments : List Moment) → given_words words.now ≡ busy_words moments
        → IfOk result (λ text. IsScheduleText input.now names.now moments text.items) }
    ensures written { IfOk result (λ text. IsWritten input.now names.now words.now text.items) }
{
    let mut text = Vec::from_slice(alloc, blocks_of(input))?;
    push_words(alloc, names, words, &mut text)?;
    text.push(b'\n')?;
    Ok(text)
}

/// A script's text with the moments of a run as its words; or why a script has no room for these.
pub(crate) fn script_text(
    alloc: Global,
    input: &[u8],
    script: &Script,
    words: RunWords,
) -> Result<Vec<u8>, ScheduleFault>
    ensures made { (moments : List Moment) → given_words words.words.items ≡ busy_words moments
        → IfOk result (λ text. IsScheduleText input.now script.now.names moments text.items) }
    ensures written { IfOk result (λ text. IsWritten input.now script.now.names words.words.items text.items) }
    ensures short { IfOk result (λ text. is_too_long text.items ≡ false) }
    ensures fault { (moments : List Moment) → given_words words.words.items ≡ busy_words moments
        → IfErr result (IsNotHandedOut input.now script.now.names moments) }
{
    match with_words(alloc, input, &script.names, words.words.as_slice()) {
        Ok(text) if is_too_long(&text) => Err(ScheduleFault::TooLong),
        Ok(text) => Ok(text),
        Err(_) => Err(ScheduleFault::Run(RunFault::OutOfMemory)),
    }
}
