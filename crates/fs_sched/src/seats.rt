//! Seats that are drawn from a number, each one before the event that it is for.

ghost use Rattle.std.specs.Prelude.{◌≡◌, ◌<◌, ◌/◌, ◌%◌, ◌-◌, ◌^◌, ◌∷◌, ℕ, suc};
ghost use Rattle.fs_sched.specs.Schedules.{generator_of, seats_from};

use crate::schedule::Draws;
use std::marker::Model;

/// A number by which words are divided, seen as itself. With it comes how often it goes into the greatest `u64`, so a
/// quotient is the upper half of a product (Robison, "N-Bit Unsigned Division via N-Bit Multiply-Add"; Lemire, Kaser
/// and Kurz, "Faster Remainder by Direct Computation").
#[derive(Drop)]
pub struct Divisor {
    number: u64,
    reciprocal: u64,
}

impl Model for Divisor {
    ghost use Rattle.std.specs.Prelude.{ℕ, ◌≡◌, ◌<◌, ◌/◌, ◌-◌, ◌^◌};

    ghost Value = { ℕ };

    ghost view = { λ d. d.number };

    // How often the number goes into it is rounded down.
    ghost invariant = { λ d. (0 < d.number) × (d.reciprocal ≡ (2 ^ 64 - 1) / d.number) };
}

impl Divisor {
    /// A number other than zero.
    pub fn new(number: usize) -> Divisor
        requires { 0 < number }
        ensures { result ≡ number }
    {
        let number = number as u64;
        Divisor {
            number,
            reciprocal: u64::MAX / number,
        }
    }

    /// How often the number goes into a word.
    #[inline(always)]
    fn quotient(&self, word: u32) -> u64
        ensures { result ≡ word / self.now }
    {
        let product = u128::from(u64::from(word) + 1) * u128::from(self.reciprocal);
        (product >> 64) as u64
    }

    /// What is left of a word.
    #[inline(always)]
    pub(crate) fn rest(&self, word: u32) -> usize
        ensures rest { result ≡ word % self.now }
        ensures less { result < self.now }
    {
        (u64::from(word) - self.quotient(word) * self.number) as usize
    }
}

/// The seats of the next events, of which the first is drawn: a draw of the one after it waits for no event.
#[derive(Drop)]
pub(crate) struct SeatsAhead {
    draws: Draws,
    threads: Divisor,
    ahead: usize,
    ghost there: { ahead < threads },
}

impl SeatsAhead {
    ghost use Rattle.fs_sched.specs.code.Ahead.{upcoming};

    /// Before the first event, of so many threads.
    pub(crate) fn new(seed: u64, threads: usize) -> SeatsAhead
        requires { 0 < threads }
        ensures seats { (k : ℕ) → upcoming k result ≡ seats_from threads k (generator_of seed) }
        ensures threads { result.threads ≡ threads }
    {
        let threads = Divisor::new(threads);
        let mut draws = Draws::new(seed);
        let ahead = draws.seat(&threads);
        SeatsAhead {
            draws,
            threads,
            ahead,
        }
    }

    /// The seat of the next event.
    #[inline]
    pub(crate) fn next_seat(&mut self) -> usize
        ensures seats { (k : ℕ) → upcoming (suc k) self.old ≡ result ∷ upcoming k self.new }
        ensures threads { self.new.threads ≡ self.old.threads }
        ensures there { result < self.old.threads }
    {
        let seat = self.ahead;
        self.ahead = self.draws.seat(&self.threads);
        seat
    }
}
