//! What is written of threads: the line of a verdict, or their journal.

ghost use Rattle.std.specs.Prelude.{◌≡◌, ◌++◌, OnOk, IfOk, true};
ghost use Rattle.fs_timeline.specs.Timeline.{IsLawful};
ghost use Rattle.fs_script.specs.Journals.{journal_text};
ghost use Rattle.fs_sched.specs.RunTexts.{number_of};
ghost use Rattle.fs_sched_threads.specs.Lines.{lawful_line, line_of};

use fs_journal::check_on;
use fs_sched::{EntryKind, is_lawful, number_of, push_verdict};
use fs_script::{write_entry, write_opening};
use fs_seq::SeqTree;
use fs_text::Addition;
use fs_timeline::{Entry, Verdict};
use fs_verdict::Made;
use std::alloc::{AllocError, Global};

fn push_line(returned: usize, verdict: &Verdict, line: &mut Addition) -> Result<(), AllocError>
    ensures ok { OnOk result (line.new.added ≡ line.old.added ++ line_of returned verdict.now) }
    ensures before { line.new.before ≡ line.old.before }
{
    match verdict {
        Verdict::Lawful => {
            line.push(b"lawful calls ")?;
            line.push_number(returned as u64)?;
            line.push(b"\n")
        }
        Verdict::Fault(_, _) => push_verdict(verdict, line),
    }
}

/// The line of a timeline that is lawful from a start tree, and whether it says so. The only error is out of memory.
pub(crate) fn make_line(
    alloc: Global,
    start: SeqTree,
    entries: &[Entry],
) -> Result<Made<bool>, AllocError>
    requires { IsLawful start entries.now }
    ensures text { IfOk result (λ made. made.text.items ≡ lawful_line (number_of EntryKind.Return entries.now)) }
    ensures lawful { IfOk result (λ made. made.end ≡ true) }
{
    let verdict = check_on(alloc, start, entries)?;
    let mut line = Addition::new(Vec::new(alloc));
    push_line(number_of(EntryKind::Return, entries), &verdict, &mut line)?;
    Ok(Made {
        text: line.kept(),
        end: is_lawful(&verdict),
    })
}

/// The text of a journal from its start tree.
fn journal_text(alloc: Global, start: &SeqTree, entries: &[Entry]) -> Result<Vec<u8>, AllocError>
    ensures { IfOk result (λ text. text.items ≡ journal_text start.now entries.now) }
{
    let mut text = Vec::new(alloc);
    write_opening(alloc, start, &mut text)?;
    for entry in entries {
        write_entry(alloc, entry, &mut text)?;
    }
    Ok(text)
}

/// The journal of a timeline that is lawful from a start tree, and whether it is. The only error is out of memory.
pub(crate) fn make_journal(
    alloc: Global,
    start: SeqTree,
    entries: &[Entry],
) -> Result<Made<bool>, AllocError>
    requires { IsLawful start entries.now }
    ensures text { IfOk result (λ made. made.text.items ≡ journal_text start entries.now) }
    ensures lawful { IfOk result (λ made. made.end ≡ true) }
{
    let text = journal_text(alloc, &start, entries)?;
    let verdict = check_on(alloc, start, entries)?;
    Ok(Made {
        text,
        end: is_lawful(&verdict),
    })
}
