//! What was found of drawn runs, as an object.

ghost use Rattle.std.specs.Prelude.{◌≡◌, ◌++◌, Some, OnOk};
ghost use Rattle.fs_sched_find.specs.Objects.{found_text};

use fs_verdict::{Form, Made};
use fs_words::{Addition, push_string};
use std::alloc::{AllocError, Global};

/// Adds the object of a run that was found, and its script.
fn push_run(alloc: Global, seed: u64, script: &[u8], text: &mut Addition) -> Result<(), AllocError>
    ensures ok { OnOk result (text.new.added ≡ text.old.added ++ found_text (Some seed) script.now) }
    ensures before { text.new.before ≡ text.old.before }
{
    text.push_with_number(b"{\"seed\":", seed)?;
    text.push(b",\"script\":")?;
    push_string(alloc, script, text)?;
    text.push(b"}\n")
}

/// Adds the object of what was found.
fn push_found(
    alloc: Global,
    found: Option<u64>,
    script: &[u8],
    text: &mut Addition,
) -> Result<(), AllocError>
    ensures ok { OnOk result (text.new.added ≡ text.old.added ++ found_text found script.now) }
    ensures before { text.new.before ≡ text.old.before }
{
    match found {
        Some(seed) => push_run(alloc, seed, script, text),
        None => text.push(b"{\"seed\":null}\n"),
    }
}

/// What was found of drawn runs as an object of JSON, one line: the number from which the first run is drawn that has what is said, and
/// the script with that run as its words; if no run has it, no number. It is a form of `FindSeed`.
#[derive(Clone, Copy, Debug)]
pub struct FindObject;

impl Form<Option<u64>> for FindObject {
    ghost use Rattle.fs_sched_find.specs.Objects.{found_text};

    ghost text_of = { λ _ made. found_text made.end made.text.items };

    fn text(&self, alloc: Global, made: &Made<Option<u64>>) -> Result<Vec<u8>, AllocError> {
        let mut text = Addition::new(Vec::new(alloc));
        push_found(alloc, made.end, made.text.as_slice(), &mut text)?;
        Ok(text.kept())
    }
}
