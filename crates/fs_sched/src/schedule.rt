//! Schedules, and the threads that are drawn from a number.

ghost use Rattle.std.specs.Prelude.{◌≡◌, ◌<◌, ◌∷◌, ◌%◌, ℕ, suc};
ghost use Rattle.std.specs.List.{list_any};
ghost use Rattle.rand_pcg.specs.Pcg.{pcg32};
ghost use Rattle.fs_sched.specs.Schedules.{generator_of, seats_from, is_finish, is_drawn, is_events, ends_drawn, goes_on};

use crate::seats::Divisor;
use fs_script::Word;
use rand_core::SeedableRng;
use rand_core::utils::NextWord;
use rand_pcg::Pcg32;
use std::marker::Model;

/// The order of events.
#[derive(Clone, Copy, Debug, PartialEq, Eq)]
pub enum Schedule {
    /// The words of the script from left to right; if the last is `finish` or `!drawn`, then rounds to the end.
    Given,
    /// Rounds to the end: one event of each thread in the order of the blocks, until none has anything to do. If the last
    /// word of the script is `!drawn`, the events of its words come first.
    RoundRobin,
    /// Threads drawn from this number, until none has anything to do or as many are drawn as the limit; then rounds to
    /// the end. If the last word of the script is `!drawn`, the events of its words come first.
    Seeded(u64),
    /// Turns by priorities of a depth, the first number, that are drawn from the second one; then rounds to the end. One turn less
    /// than the depth is drawn, each as a thread and how many events it has; behind them each thread goes to its end, from a drawn one
    /// on round about. If the last word of the script is `!drawn`, the events of its words come first.
    Priorities(u64, u64),
}

/// The most threads that are drawn in a run. A draw of a thread that has nothing left to do counts too, and changes
/// nothing: so the drawn threads are those of the number, whatever the calls do.
pub const DRAW_LIMIT: usize = 100_000;

impl Schedule {
    /// Whether rounds to the end follow the events that the schedule gives.
    pub fn goes_on(&self, words: &[Word]) -> bool
        ensures { result ≡ goes_on self.now words.now }
    {
        match self {
            Schedule::Given => has_finish(words),
            Schedule::RoundRobin => true,
            Schedule::Seeded(_) => true,
            Schedule::Priorities(_, _) => true,
        }
    }
}

fn is_finish(word: &Word) -> bool
    ensures { result ≡ is_finish word.now }
{
    matches!(word, Word::Finish | Word::Drawn)
}

fn is_drawn(word: &Word) -> bool
    ensures { result ≡ is_drawn word.now }
{
    matches!(word, Word::Drawn)
}

/// Whether a word gives events of a thread.
pub(crate) fn is_events(word: &Word) -> bool
    ensures { result ≡ is_events word.now }
{
    matches!(word, Word::Events(_, _))
}

/// Whether the last word is `!drawn`.
pub(crate) fn ends_drawn(words: &[Word]) -> bool
    ensures { result ≡ ends_drawn words.now }
{
    let count = words.len();
    count > 0 && is_drawn(&words[count - 1])
}

fn has_finish(words: &[Word]) -> bool
    ensures { result ≡ list_any is_finish words.now }
{
    words.iter().any(|word| is_finish(word))
}

/// Threads that are drawn from a number, one after the other.
#[derive(Drop)]
pub struct Draws {
    generator: Pcg32,
}

impl Model for Draws {
    ghost use Rattle.rand_pcg.specs.Lcg.{Lcg};

    ghost Value = { Lcg };

    ghost view = { λ d. d.generator };
}

impl Draws {
    /// Before the first draw.
    pub fn new(seed: u64) -> Draws
        ensures { result ≡ generator_of seed }
    {
        Draws {
            generator: Pcg32::seed_from_u64(seed),
        }
    }

    /// The seat of the next event, of so many threads.
    #[inline]
    pub fn seat(&mut self, threads: &Divisor) -> usize
        ensures seats { (k : ℕ) → seats_from threads.now (suc k) self.old ≡ result ∷ seats_from threads.now k self.new }
        ensures there { result < threads.now }
    {
        threads.rest(self.generator.next_word())
    }

    /// What is left of the next word if a number divides it.
    #[inline]
    pub(crate) fn below(&mut self, number: &Divisor) -> usize
        ensures drawn { result ≡ (pcg32 self.old).0 % number.now }
        ensures next { self.new ≡ (pcg32 self.old).1 }
        ensures there { result < number.now }
    {
        number.rest(self.generator.next_word())
    }
}
