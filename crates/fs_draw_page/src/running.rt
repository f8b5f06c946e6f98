//! The command that makes the page of a script's run, or of a journal.

ghost use Rattle.std.specs.Prelude.{◌≡◌, ◌++◌, Bool, true, false, None, IfOk, IfErr, codes};
ghost use Rattle.fs_timeline.specs.declared.verdict.Verdict.{Verdict};
ghost use Rattle.fs_sched.specs.Checks.{verdict_line};
ghost use Rattle.fs_draw.specs.Faults.{IsFaultBy, IsFaultOfPicture};
ghost use Rattle.fs_verdict.specs.Checks.{is_journal};
ghost use Rattle.fs_draw.specs.Pictures.{IsPictureOf};
ghost use Rattle.fs_draw_page.specs.Pages.{IsNotedPage, IsPageOf, IsPlayedAs, IsPlayedJournal, IsPlayedRun};
ghost use Rattle.fs_draw_page.specs.Makes.{MakesPage};

use crate::page::page_of;
use fs_draw::{DrawFault, DrawInput, View};
use fs_journal::check_from;
use fs_sched::{RunFault, Schedule, is_lawful, journal_in};
use fs_timeline::Verdict;
use fs_trace::trace_bytes;
use fs_verdict::{Command, Made, is_journal, push_verdict};
use fs_words::Addition;
use std::alloc::{AllocError, Global};

/// The fault where memory ran out.
fn out_of_memory() -> DrawFault
    ensures { result ≡ DrawFault.Run RunFault.OutOfMemory }
{
    DrawFault::Run(RunFault::OutOfMemory)
}

/// The trace of a script's run, and whether each call returned.
fn run_in(alloc: Global, text: &[u8], schedule: Schedule) -> Result<Made<bool>, DrawFault>
    ensures played { IfOk result (λ made. IsPlayedRun schedule text.now made.end made.text.items) }
    ensures fault { IfErr result (IsFaultBy false schedule None text.now) }
{
    match trace_bytes(alloc, text, schedule, false) {
        Ok(traced) => Ok(Made {
            text: traced.text,
            end: traced.end.returned == traced.end.calls,
        }),
        Err(fault) => Err(DrawFault::Run(fault)),
    }
}

/// A journal with notes before it, and a line that has its verdict.
fn judged_text(
    alloc: Global,
    notes: &[u8],
    verdict: &Verdict,
    text: &[u8],
) -> Result<Vec<u8>, AllocError>
    ensures { IfOk result (λ judged. judged.items ≡ notes.now ++ (codes "# " ++ (verdict_line verdict.now ++ text.now))) }
{
    let mut judged = Addition::new(Vec::new(alloc));
    judged.push(notes)?;
    judged.push(b"# ")?;
    push_verdict(verdict, &mut judged)?;
    judged.push(text)?;
    Ok(judged.kept())
}

/// A journal with notes and its verdict, and whether it is lawful.
fn journal_text(alloc: Global, notes: &[u8], text: &[u8]) -> Result<Made<bool>, DrawFault>
    ensures played { IfOk result (λ made. IsPlayedJournal notes.now text.now made.end made.text.items) }
    ensures fault { (schedule : Schedule) → IfErr result (IsFaultBy true schedule None text.now) }
{
    let journal = journal_in(alloc, text)?;
    let Ok(verdict) = check_from(alloc, &journal.start, journal.entries.as_slice()) else {
        return Err(out_of_memory());
    };
    match judged_text(alloc, notes, &verdict, text) {
        Ok(judged) => Ok(Made {
            text: judged,
            end: is_lawful(&verdict),
        }),
        Err(_) => Err(out_of_memory()),
    }
}

/// What the page of a text plays, and whether that went well.
fn played_in(alloc: Global, text: &[u8], schedule: Schedule) -> Result<Made<bool>, DrawFault>
    ensures played { IfOk result (λ made. IsPlayedAs (is_journal text.now) schedule text.now made.end made.text.items) }
    ensures fault { IfErr result (IsFaultOfPicture schedule None text.now) }
{
    if is_journal(text) {
        journal_text(alloc, &[], text)
    } else {
        run_in(alloc, text, schedule)
    }
}

/// The picture of a text.
fn picture_in(alloc: Global, text: &[u8], schedule: Schedule) -> Result<Vec<u8>, AllocError>
    ensures { IfOk result (λ picture. (well : Bool) × IsPictureOf schedule text.now well picture.items) }
{
    let input = Vec::from_slice(alloc, text)?;
    let command = DrawInput {
        schedule,
        view: View::of(None),
    };
    match command.make(alloc, input, &mut ()) {
        Ok(made) => Ok(made.text),
        // What is drawn was played before: only memory can be wanting.
        Err(_) => Err(AllocError),
    }
}

/// The page of a text, and whether each call of its script returned, or its journal is lawful.
fn page_in(alloc: Global, text: &[u8], schedule: Schedule) -> Result<Made<bool>, DrawFault>
    ensures { MakesPage schedule text.now result }
{
    let played = played_in(alloc, text, schedule)?;
    let Ok(picture) = picture_in(alloc, text, schedule) else {
        return Err(out_of_memory());
    };
    match page_of(alloc, picture.as_slice(), played.text.as_slice()) {
        Ok(page) => Ok(Made {
            text: page,
            end: played.end,
        }),
        Err(_) => Err(out_of_memory()),
    }
}

/// The page of a text in memory, as `DrawPage` makes it, and whether each call of the script returned, or the journal is lawful.
pub fn page_bytes(alloc: Global, text: &[u8], schedule: Schedule) -> Result<Made<bool>, DrawFault>
    ensures page { IfOk result (λ made. IsPageOf schedule text.now made.end made.text.items) }
    ensures fault { IfErr result (IsFaultOfPicture schedule None text.now) }
{
    page_in(alloc, text, schedule)
}

/// The page of a journal in memory, with lines before its verdict that say more of it, each of which begins with `# `; and whether the
/// journal is lawful.
pub fn noted_page(alloc: Global, journal: &[u8], notes: &[u8]) -> Result<Made<bool>, DrawFault>
    ensures page { IfOk result (λ made. IsNotedPage notes.now journal.now made.end made.text.items) }
    ensures fault { IfErr result (IsFaultBy true Schedule.Given None journal.now) }
{
    let played = journal_text(alloc, notes, journal)?;
    let Ok(picture) = picture_in(alloc, journal, Schedule::Given) else {
        return Err(out_of_memory());
    };
    match page_of(alloc, picture.as_slice(), played.text.as_slice()) {
        Ok(page) => Ok(Made {
            text: page,
            end: played.end,
        }),
        Err(_) => Err(out_of_memory()),
    }
}

/// Makes a page that plays a script's run by a schedule, or a journal, whatever the schedule: a journal is what has the first bytes of one.
/// The page is one file of HTML, and a function of the input and of what is asked for. The answer is whether each call of the script
/// returned, or the journal is lawful. Who listens hears nothing. There is no page if the input has a fault, if its script comes to a
/// checkpoint while calls are pending, or if memory runs out.
#[derive(Clone, Copy, Debug)]
pub struct DrawPage {
    /// The order of the run's events.
    pub schedule: Schedule,
}

impl<Listener> Command<Listener> for DrawPage {
    ghost use Rattle.fs_draw_page.specs.code.Laws.{page_honest};

    type End = bool;

    type Fault = DrawFault;

    ghost Asks = { λ _. Unit {0} };

    ghost Makes = { λ c. MakesPage c.schedule };

    fn make(
        self,
        alloc: Global,
        input: Vec<u8>,
        _listener: &mut Listener,
    ) -> Result<Made<bool>, DrawFault> {
        page_in(alloc, input.as_slice(), self.schedule)
    }

    ghost honest = { λ c. page_honest c.schedule };
}
