//! The verdict on a journal, as an object of JSON.

ghost use Rattle.std.specs.Prelude.{◌≡◌, ◌++◌, OnOk};
ghost use Rattle.fs_timeline.specs.declared.verdict.Verdict.{Verdict};
ghost use Rattle.fs_verdict.specs.Objects.{check_text};

use crate::checking::Checked;
use crate::form::Form;
use crate::shell::Made;
use crate::verdict_line::kind_text;
use fs_timeline::{FaultKind, Verdict};
use fs_words::{Addition, push_string};
use std::alloc::{AllocError, Global};

/// Adds the object of a fault.
fn push_fault(
    alloc: Global,
    place: usize,
    kind: FaultKind,
    reason: &[u8],
    text: &mut Addition,
) -> Result<(), AllocError>
    ensures ok { OnOk result (text.new.added ≡ text.old.added ++ check_text (Verdict.Fault place kind) reason.now) }
    ensures before { text.new.before ≡ text.old.before }
{
    text.push_with_number(b"{\"lawful\":false,\"place\":", place as u64)?;
    text.push(b",\"kind\":")?;
    push_string(alloc, kind_text(kind), text)?;
    text.push(b",\"reason\":")?;
    push_string(alloc, reason, text)?;
    text.push(b"}\n")
}

/// Adds the object of a verdict.
fn push_check(
    alloc: Global,
    verdict: &Verdict,
    reason: &[u8],
    text: &mut Addition,
) -> Result<(), AllocError>
    ensures ok { OnOk result (text.new.added ≡ text.old.added ++ check_text verdict.now reason.now) }
    ensures before { text.new.before ≡ text.old.before }
{
    match verdict {
        Verdict::Lawful => text.push(b"{\"lawful\":true}\n"),
        Verdict::Fault(place, kind) => push_fault(alloc, *place, *kind, reason, text),
    }
}

/// The verdict on a journal as an object of JSON, one line: whether the journal is lawful, and else the place and the kind of its first
/// fault, and what is wrong with it. It is a form of `CheckJournal`.
#[derive(Clone, Copy, Debug)]
pub struct CheckObject;

impl Form<Checked> for CheckObject {
    ghost use Rattle.fs_verdict.specs.Objects.{check_text};

    ghost text_of = { λ _ made. check_text made.end.verdict made.end.reason.items };

    fn text(&self, alloc: Global, made: &Made<Checked>) -> Result<Vec<u8>, AllocError> {
        let mut text = Addition::new(Vec::new(alloc));
        push_check(
            alloc,
            &made.end.verdict,
            made.end.reason.as_slice(),
            &mut text,
        )?;
        Ok(text.kept())
    }
}
