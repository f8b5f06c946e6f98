//! What is asserted of runs.

ghost use Rattle.std.specs.Prelude.{◌≡◌, IfOk};
ghost use Rattle.fs_sched_find.specs.Reading.{what_of};
ghost use Rattle.fs_sched_find.specs.code.Answers.{Says};
ghost use Rattle.fs_sched_outcomes.specs.Asserts.{all_hold, deciding, holds, word_of};

use fs_sched_find::{Clauses, WhatFault, read_what};
use std::alloc::Global;

/// How many of the runs have something: the words of `herd7` for these are `~exists`, `forall` and `exists`.
#[derive(Clone, Copy, Debug, PartialEq, Eq)]
pub enum Quantifier {
    /// None has it.
    Never,
    /// Each has it.
    Always,
    /// One has it, or more do.
    Sometimes,
}

impl Quantifier {
    /// The word by which it is asked for.
    pub fn word(self) -> &'static str
        ensures { result.now ≡ word_of self }
    {
        match self {
            Quantifier::Never => "never",
            Quantifier::Always => "always",
            Quantifier::Sometimes => "sometimes",
        }
    }

    /// Whether a run that decides it has what is said, or has it not.
    pub(crate) fn deciding(self) -> bool
        ensures { result ≡ deciding self }
    {
        match self {
            Quantifier::Never | Quantifier::Sometimes => true,
            Quantifier::Always => false,
        }
    }

    /// Whether it holds, by the first run that decides it.
    pub fn holds(self, decided: Option<u64>) -> bool
        ensures { result ≡ holds self decided }
    {
        match self {
            Quantifier::Never | Quantifier::Always => decided.is_none(),
            Quantifier::Sometimes => decided.is_some(),
        }
    }
}

/// What is asserted of runs, and the words from which that was read.
#[derive(Drop)]
pub struct Assertion<'a> {
    pub quantifier: Quantifier,
    pub text: &'a str,
    pub what: Vec<Clauses>,
}

/// The assertion that words say.
pub fn read_assertion<'a>(
    alloc: Global,
    quantifier: Quantifier,
    text: &'a str,
) -> Result<Assertion<'a>, WhatFault>
    ensures what { Says (λ assertion. assertion.what.items) result (what_of text.now) }
    ensures quantifier { IfOk result (λ assertion. assertion.quantifier ≡ quantifier) }
    ensures text { IfOk result (λ assertion. assertion.text.now ≡ text.now) }
{
    match read_what(alloc, text.as_bytes()) {
        Ok(what) => Ok(Assertion {
            quantifier,
            text,
            what,
        }),
        Err(fault) => Err(fault),
    }
}

/// Whether all assertions hold, by the first runs that decide them.
pub fn all_hold(asserts: &[Assertion<'_>], decided: &[Option<u64>]) -> bool
    ensures { result ≡ all_hold asserts.now decided.now }
{
    for at in 0..asserts.len() {
        if at >= decided.len() {
            return true;
        }
        if !asserts[at].quantifier.holds(decided[at]) {
            return false;
        }
    }
    true
}
