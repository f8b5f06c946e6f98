//! Verdicts as they are answered and written.

ghost use Rattle.std.specs.Prelude.{◌≡◌, ◌++◌, OnOk, IfOk};
ghost use Rattle.fs_verdict.specs.Checks.{kind_word, is_lawful, verdict_line};

use fs_text::Addition;
use fs_timeline::{FaultKind, Verdict};
use std::alloc::{AllocError, Global};

/// Whether a verdict is that the journal is lawful.
pub fn is_lawful(verdict: &Verdict) -> bool
    ensures { result ≡ is_lawful verdict.now }
{
    matches!(verdict, Verdict::Lawful)
}

/// The word of a kind of fault.
pub fn kind_text(kind: FaultKind) -> &'static [u8]
    ensures { result.now ≡ kind_word kind }
{
    match kind {
        FaultKind::BeginTwice => b"BeginTwice",
        FaultKind::SeatBusy => b"SeatBusy",
        FaultKind::CommitUnbegun => b"CommitUnbegun",
        FaultKind::CommitTwice => b"CommitTwice",
        FaultKind::ReturnUncommitted => b"ReturnUncommitted",
        FaultKind::ReturnTwice => b"ReturnTwice",
        FaultKind::WrongReply => b"WrongReply",
    }
}

/// Appends the line of a verdict. The only error is out of memory.
pub fn push_verdict(verdict: &Verdict, line: &mut Addition) -> Result<(), AllocError>
    ensures ok { OnOk result (line.new.added ≡ line.old.added ++ verdict_line verdict.now) }
    ensures before { line.new.before ≡ line.old.before }
{
    match verdict {
        Verdict::Lawful => line.push(b"lawful\n"),
        Verdict::Fault(place, kind) => {
            line.push(b"fault ")?;
            line.push_number(*place as u64)?;
            line.push(b" ")?;
            line.push(kind_text(*kind))?;
            line.push(b"\n")
        }
    }
}

/// The line of a verdict.
pub(crate) fn verdict_line(alloc: Global, verdict: &Verdict) -> Result<Vec<u8>, AllocError>
    ensures { IfOk result (λ line. line.items ≡ verdict_line verdict.now) }
{
    let mut line = Addition::new(Vec::new(alloc));
    push_verdict(verdict, &mut line)?;
    Ok(line.kept())
}
