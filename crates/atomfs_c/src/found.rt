//! What is found of a history in memory, with the number of what came of it.

ghost use Rattle.std.specs.Prelude.{[], ◌≡◌, ◌++◌, IfOk, IfErr, OnOk};
ghost use Rattle.fs_verdict.specs.InputFaults.{IsFaultOf};
ghost use Rattle.fs_linearize_text.specs.Texts.{history_of};
ghost use Rattle.atomfs_c.specs.ToolTexts.{found_number, words_line, IsFoundText};

use fs_linearize_dialects::Dialect;
use fs_linearize_text::{Linearized, Outcome, linearize_bytes};
use fs_verdict::{Made, RunFault};
use std::alloc::{AllocError, Global};

/// By this number what is found is told as `LinearizeHistory` makes it.
pub const LINE: u8 = 0;

/// By this one with `none` the journal up to the return that nothing explains.
pub const FRONT: u8 = 1;

/// By this one words stand behind it: which entry `none` and `fault` name, and for `none` what the call could have replied.
pub const WORDS: u8 = 2;

/// What is found of a history, and the number of what came of it.
#[derive(Drop)]
pub struct FoundText {
    pub text: Vec<u8>,
    pub number: u8,
}

fn found_number(outcome: Outcome) -> u8
    ensures { result ≡ found_number outcome }
{
    match outcome {
        Outcome::Lawful => 0,
        Outcome::NoOrder => 1,
        Outcome::Fault => 2,
        Outcome::Unknown => 3,
    }
}

/// Adds words as a line, where they are asked for.
fn push_words(words: &[u8], form: u8, text: &mut Vec<u8>) -> Result<(), AllocError>
    ensures { OnOk result (text.new.items ≡ text.old.items ++ words_line form words.now) }
{
    if form != WORDS || words.is_empty() {
        return Ok(());
    }
    text.extend_from_slice(words)?;
    text.push(b'\n')?;
    Ok(())
}

/// What is found of a history in memory, where no more configurations than the limit, or few more, are made. Of a history that no
/// journal explains a number says what is told: `LINE`, `FRONT` or `WORDS`.
pub fn found_bytes(
    alloc: Global,
    history: &[u8],
    limit: u64,
    form: u8,
) -> Result<FoundText, RunFault>
    ensures found { IfOk result (λ told. IsFoundText history.now limit form told.number told.text.items) }
    ensures fault { IfErr result (IsFaultOf (history_of [] history.now)) }
{
    let dialect = Dialect::new(alloc);
    let Made { mut text, end } = linearize_bytes(
        alloc,
        history,
        &dialect,
        limit as usize,
        form == FRONT,
    )?;
    let Linearized { outcome, reason } = end;
    match push_words(&reason, form, &mut text) {
        Ok(()) => Ok(FoundText {
            text,
            number: found_number(outcome),
        }),
        Err(_) => Err(RunFault::OutOfMemory),
    }
}
