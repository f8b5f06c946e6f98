//! The exit statuses, and the messages on standard error.

ghost use Rattle.std.specs.Prelude.{◌≡◌, ◌≢◌, ◌⊎◌};
ghost use Rattle.std.specs.IoError.{error_kind};
ghost use Rattle.clap.specs.Values.{kind_of};
ghost use Rattle.atomfs_answers.specs.Statuses.{has_status, status_of, status_of_checked, status_of_counted, status_of_drawn, status_of_found, status_of_learned, status_of_learning, status_of_linearized, status_of_many, status_of_minimized, status_of_outcome, status_of_outcomes, status_of_replayed, status_of_run, status_of_scheduled, status_of_shrunk, status_of_started, status_of_table, status_of_traced, status_of_verdict, status_of_words};
ghost use Rattle.fs_sched.specs.Faults.{status_of_fault};

use crate::input::words_of;
use crate::seen::{Faulty, Seen};
use clap::Error;
use clap::error::ErrorKind;
use fs_draw::DrawFault;
use fs_linearize_dialects::{DialectFault, TableFault};
use fs_linearize_minimal::Minimized;
use fs_linearize_text::{Histories, Learned, Learning, Linearized, Outcome};
use fs_sched::{Checked, RunEnd, RunFault};
use fs_sched_find::{FindFault, WhatFault};
use fs_sched_outcomes::{Assertion, Counted, OutcomesFault, Quantifier, all_hold};
use fs_sched_seen::push_seen;
use fs_sched_shrink::{ShrinkFault, Shrunk, TRIAL_LIMIT};
use fs_sched_start::StartFault;
use fs_sched_threads::ThreadsFault;
use fs_trace::ScheduleFault;
use fs_trace_entries::Traced;
use fs_trace_replay::{ReplayFault, Replayed};
use fs_words::Addition;
use std::alloc::Global;
use std::fmt::Display;
use std::io::{self, ErrorKind as IoErrorKind, Write};

/// The status after a run: success where every call of the script returned.
pub fn status_of_run(end: &RunEnd) -> u8
    ensures { result ≡ status_of_run end.now }
{
    if end.returned == end.calls { 0 } else { 1 }
}

/// The status after a verdict: success where what was checked is lawful.
pub fn status_of_verdict(lawful: bool) -> u8
    ensures { result ≡ status_of_verdict lawful }
{
    if lawful { 0 } else { 1 }
}

/// Writes the message of a fault; of one of the text that was read its line too, and what to have explained.
fn tell_fault<E: Write, F: Faulty + Display>(errors: &mut E, seen: &Seen, fault: &F) {
    // Where standard error takes no message, the status says it all the same.
    let _ = writeln!(errors, "atomfs: {fault}");
    if let Some(fault) = fault.of_text() {
        tell(errors, seen.about(fault, false).as_slice());
    }
}

/// The status of a fault that is none of a text, and its message.
pub fn report_fault<E: Write>(errors: &mut E, fault: RunFault) -> u8
    ensures { result ≡ status_of_fault fault }
{
    let _ = writeln!(errors, "atomfs: {fault}");
    fault.status()
}

/// The status that a subcommand came to, or that of its fault, whose message is written: 4 where there was no worker.
pub fn report<E: Write>(errors: &mut E, seen: &Seen, outcome: Result<u8, ThreadsFault>) -> u8
    ensures { result ≡ status_of outcome }
{
    let fault = match outcome {
        Ok(status) => return status,
        Err(fault) => fault,
    };
    tell_fault(errors, seen, &fault);
    match fault {
        ThreadsFault::Run(fault) => fault.status(),
        ThreadsFault::Lists(_) => 4,
    }
}

/// Writes what is wrong, if anything is, line by line.
fn tell<E: Write>(errors: &mut E, reason: &[u8]) {
    if reason.is_empty() {
        return;
    }
    for line in reason.split(|byte| *byte == b'\n') {
        let _ = errors.write_all(b"atomfs: ");
        let _ = errors.write_all(line);
        let _ = errors.write_all(b"\n");
    }
}

/// Writes what is wrong with an entry, after its line and those before it if these are shown.
fn tell_entry<E: Write>(errors: &mut E, seen: &Seen, reason: &[u8]) {
    let _ = errors.write_all(seen.excerpt(reason).as_slice());
    tell(errors, reason);
}

/// The status that a check came to, or that of its fault, whose message is written. Of a journal that is not lawful the message
/// says what is wrong.
pub fn report_check<E: Write>(errors: &mut E, seen: &Seen, outcome: Result<Checked, RunFault>) -> u8
    ensures { result ≡ status_of_checked outcome }
{
    let checked = match outcome {
        Ok(checked) => checked,
        Err(fault) => return report(errors, seen, Err(ThreadsFault::Run(fault))),
    };
    tell_entry(errors, seen, checked.reason.as_slice());
    status_of_verdict(checked.lawful)
}

fn status_of_outcome(outcome: Outcome) -> u8
    ensures { result ≡ status_of_outcome outcome }
{
    match outcome {
        Outcome::Lawful => 0,
        Outcome::NoOrder | Outcome::Fault => 1,
        Outcome::Unknown => 4,
    }
}

/// Writes how a search goes on that reached its limit.
fn tell_limit<E: Write>(errors: &mut E) {
    let _ = writeln!(
        errors,
        "atomfs: the limit was reached: give a larger one with --limit N"
    );
}

/// The status that a history came to, or that of its fault, whose message is written. Of `none` and `fault` the message
/// says which entry that is, and of which call, and of `none` what the call could have replied; of `unknown` how to go on.
pub fn report_linearize<E: Write>(
    errors: &mut E,
    seen: &Seen,
    outcome: Result<Linearized, RunFault>,
) -> u8
    ensures { result ≡ status_of_linearized outcome }
{
    let told = match outcome {
        Ok(told) => told,
        Err(fault) => return report(errors, seen, Err(ThreadsFault::Run(fault))),
    };
    tell_entry(errors, seen, told.reason.as_slice());
    if let Outcome::Unknown = told.outcome {
        tell_limit(errors);
    }
    status_of_outcome(told.outcome)
}

fn has_status(status: u8, outcomes: &[Outcome]) -> bool
    ensures { result ≡ has_status status outcomes.now }
{
    for outcome in outcomes {
        if status_of_outcome(*outcome) == status {
            return true;
        }
    }
    false
}

fn status_of_outcomes(outcomes: &[Outcome]) -> u8
    ensures { result ≡ status_of_outcomes outcomes.now }
{
    if has_status(1, outcomes) {
        return 1;
    }
    if has_status(4, outcomes) { 4 } else { 0 }
}

/// The status that histories came to, or that of their fault, whose message is written.
pub fn report_many<E: Write>(
    errors: &mut E,
    seen: &Seen,
    outcome: Result<Histories, RunFault>,
) -> u8
    ensures { result ≡ status_of_many outcome }
{
    let told = match outcome {
        Ok(told) => told,
        Err(fault) => return report(errors, seen, Err(ThreadsFault::Run(fault))),
    };
    tell(errors, told.notes.words.as_slice());
    if has_status(4, told.outcomes.as_slice()) {
        tell_limit(errors);
    }
    status_of_outcomes(told.outcomes.as_slice())
}

/// The status where the text in a file is no table, and the message after its name: 4 where there is no memory.
pub fn report_table<E: Write>(errors: &mut E, file: &str, fault: DialectFault) -> u8
    ensures { result ≡ status_of_table fault }
{
    if let TableFault::OutOfMemory = fault.kind {
        return report_fault(errors, RunFault::OutOfMemory);
    }
    let _ = writeln!(errors, "atomfs: {file}: {fault}");
    3
}

/// The status where a file or a directory is not written, and the message after its name: 4 where there is no memory.
pub fn report_unwritten<E: Write>(errors: &mut E, file: &str, error: &io::Error) -> u8
    ensures memory { error_kind error.now ≡ IoErrorKind.OutOfMemory → result ≡ 4 }
    ensures file { error_kind error.now ≢ IoErrorKind.OutOfMemory → result ≡ 5 }
{
    if error.kind() == IoErrorKind::OutOfMemory {
        return report_fault(errors, RunFault::OutOfMemory);
    }
    let _ = writeln!(errors, "atomfs: {file}: cannot be written");
    5
}

/// Writes what is left of a history, or why nothing is.
fn tell_minimized<E: Write>(errors: &mut E, told: Minimized) {
    let _ = match told {
        Minimized::Core(calls, all, trials) => writeln!(
            errors,
            "atomfs: {calls} of {all} calls, after {trials} trials"
        ),
        Minimized::Lawful => writeln!(errors, "atomfs: the history has an order"),
        Minimized::Fault(place, _) => {
            writeln!(errors, "atomfs: entry {place} makes it no history")
        }
        Minimized::Unknown(place) => writeln!(
            errors,
            "atomfs: the limit was reached at entry {place}: give a larger one with --limit N"
        ),
    };
}

/// The status of the search for the calls that show that a history has no order, or of its fault, whose message is
/// written. What is left is reported too.
pub fn report_minimized<E: Write>(
    errors: &mut E,
    seen: &Seen,
    outcome: Result<Minimized, RunFault>,
) -> u8
    ensures { result ≡ status_of_minimized outcome }
{
    let told = match outcome {
        Ok(told) => told,
        Err(fault) => return report(errors, seen, Err(ThreadsFault::Run(fault))),
    };
    tell_minimized(errors, told);
    match told {
        Minimized::Core(_, _, _) => 0,
        Minimized::Lawful => 2,
        Minimized::Fault(_, _) => 1,
        Minimized::Unknown(_) => 4,
    }
}

fn status_of_learning(outcome: Learning) -> u8
    ensures { result ≡ status_of_learning outcome }
{
    match outcome {
        Learning::Explained => 0,
        Learning::Unexplained => 1,
        Learning::Overlapping => 2,
    }
}

/// The status of what is learned of histories, or of their fault, whose message is written. The message says which returns no row
/// explains, and which calls overlap.
pub fn report_learned<E: Write>(
    errors: &mut E,
    seen: &Seen,
    outcome: Result<Learned, RunFault>,
) -> u8
    ensures { result ≡ status_of_learned outcome }
{
    let told = match outcome {
        Ok(told) => told,
        Err(fault) => return report(errors, seen, Err(ThreadsFault::Run(fault))),
    };
    tell(errors, told.words.as_slice());
    status_of_learning(told.outcome)
}

/// Writes the message of a fault of runs, from the tree in a file if there is one. A fault of the tree comes after the name of the
/// file, of which this was read.
fn tell_start<E: Write>(errors: &mut E, seen: &Seen, file: &str, tree: &Seen, fault: &StartFault) {
    match fault {
        StartFault::Tree(of_tree) => {
            let _ = writeln!(errors, "atomfs: {file}: {fault}");
            tell(errors, tree.about(*of_tree, true).as_slice());
        }
        StartFault::Run(_) => tell_fault(errors, seen, fault),
    }
}

/// The status of runs from the tree in a file, or of their fault, whose message is written.
pub fn report_from<E: Write>(
    errors: &mut E,
    seen: &Seen,
    file: &str,
    tree: &Seen,
    outcome: Result<u8, StartFault>,
) -> u8
    ensures { result ≡ status_of_started outcome }
{
    let fault = match outcome {
        Ok(status) => return status,
        Err(fault) => fault,
    };
    tell_start(errors, seen, file, tree, &fault);
    fault.status()
}

/// The status if a file cannot be read, and the message after its name. It is 4 if there is no memory for its text.
pub fn report_file<E: Write>(errors: &mut E, file: &str, fault: RunFault) -> u8
    ensures { result ≡ status_of_fault fault }
{
    if let RunFault::OutOfMemory = fault {
        return report_fault(errors, fault);
    }
    let _ = writeln!(errors, "atomfs: {file}: {fault}");
    fault.status()
}

/// The status if a file is not opened, and the message after its name. It is 4 if there is no memory.
pub fn report_unopened<E: Write>(errors: &mut E, file: &str, error: &io::Error) -> u8
    ensures memory { error_kind error.now ≡ IoErrorKind.OutOfMemory → result ≡ 4 }
    ensures file { error_kind error.now ≢ IoErrorKind.OutOfMemory → result ≡ 5 }
{
    let kind = error.kind();
    if kind == IoErrorKind::OutOfMemory {
        return report_fault(errors, RunFault::OutOfMemory);
    }
    let why = words_of(kind);
    let _ = writeln!(errors, "atomfs: {file}: {why}");
    5
}

/// The status where a picture would be written to a terminal, and the message.
pub fn report_picture<E: Write>(errors: &mut E) -> u8
    ensures { result ≡ 2 }
{
    let _ = writeln!(
        errors,
        "atomfs: a terminal shows no picture: write it to a file with `> run.svg` after the command"
    );
    2
}

/// Says that a command reads standard input, where that is a terminal and no file was named.
pub fn tell_reading<E: Write>(errors: &mut E) {
    let _ = writeln!(errors, "atomfs: reading standard input; end it with Ctrl-D");
}

/// The status that a schedule which is written came to, or that of its fault, whose message is written.
pub fn report_schedule<E: Write>(
    errors: &mut E,
    seen: &Seen,
    outcome: Result<u8, ScheduleFault>,
) -> u8
    ensures { result ≡ status_of_scheduled outcome }
{
    let fault = match outcome {
        Ok(status) => return status,
        Err(fault) => fault,
    };
    tell_fault(errors, seen, &fault);
    fault.status()
}

/// The status of a search of so many runs from a number on, or of its fault, whose message is written. What was found
/// is reported too.
pub fn report_find<E: Write>(
    errors: &mut E,
    seen: &Seen,
    file: &str,
    tree: &Seen,
    seed: u64,
    runs: u64,
    outcome: Result<Option<u64>, FindFault>,
) -> u8
    ensures { result ≡ status_of_found outcome }
{
    let fault = match outcome {
        Ok(Some(found)) => {
            let _ = writeln!(errors, "atomfs: seed {found}");
            return 0;
        }
        Ok(None) => {
            let _ = writeln!(
                errors,
                "atomfs: no run of {runs} from seed {seed} on has it"
            );
            return 1;
        }
        Err(fault) => fault,
    };
    match &fault {
        FindFault::Start(start) => tell_start(errors, seen, file, tree, start),
        _ => {
            let _ = writeln!(errors, "atomfs: {fault}");
        }
    }
    fault.status()
}

/// Writes how the runs break an assertion, if they do: the words, and the first run that does.
fn tell_broken<E: Write>(
    errors: &mut E,
    assertion: &Assertion<'_>,
    decided: Option<u64>,
    seed: u64,
    runs: u64,
) {
    if assertion.quantifier.holds(decided) {
        return;
    }
    let (word, text) = (assertion.quantifier.word(), assertion.text);
    let _ = write!(errors, "atomfs: {word} {text}: ");
    let _ = match (assertion.quantifier, decided) {
        (Quantifier::Always, Some(broken)) => writeln!(errors, "seed {broken} does not have it"),
        (_, Some(broken)) => writeln!(errors, "seed {broken} has it"),
        (_, None) => writeln!(errors, "no run of {runs} from seed {seed} on has it"),
    };
}

/// The same of each assertion.
fn tell_all_broken<E: Write>(
    errors: &mut E,
    asserts: &[Assertion<'_>],
    decided: &[Option<u64>],
    seed: u64,
    runs: u64,
) {
    for at in 0..asserts.len() {
        if at < decided.len() {
            tell_broken(errors, &asserts[at], decided[at], seed, runs);
        }
    }
}

/// Writes how much was seen in runs.
fn tell_seen<E: Write>(alloc: Global, errors: &mut E, counted: &Counted) {
    let mut words = Addition::new(Vec::new(alloc));
    if push_seen(&counted.seen, &mut words).is_ok() {
        tell(errors, words.kept().as_slice());
    }
}

/// The status of assertions on so many runs from a number on, by the first runs that decide them, or of the fault of these
/// runs, whose message is written. It is success if all hold. What the runs break is reported too, and unless they are
/// written as objects how much was seen.
pub fn report_outcomes<E: Write>(
    alloc: Global,
    errors: &mut E,
    seen: &Seen,
    file: &str,
    tree: &Seen,
    asserts: &[Assertion<'_>],
    seed: u64,
    runs: u64,
    json: bool,
    outcome: Result<Counted, OutcomesFault>,
) -> u8
    ensures { result ≡ status_of_counted asserts.now outcome }
{
    let fault = match outcome {
        Ok(counted) => {
            tell_all_broken(errors, asserts, &counted.decided, seed, runs);
            if !json {
                tell_seen(alloc, errors, &counted);
            }
            return status_of_verdict(all_hold(asserts, &counted.decided));
        }
        Err(fault) => fault,
    };
    match &fault {
        OutcomesFault::Start(start) => tell_start(errors, seen, file, tree, start),
        OutcomesFault::NoCall => {
            let _ = writeln!(errors, "atomfs: {fault}");
        }
    }
    fault.status()
}

/// Writes what is left of a script, and whether more could go.
fn tell_shrunk<E: Write>(errors: &mut E, shrunk: &Shrunk) {
    let _ = write!(
        errors,
        "atomfs: calls {}, words {}, where ",
        shrunk.calls, shrunk.words
    );
    let _ = errors.write_all(shrunk.said.as_slice());
    let _ = errors.write_all(b"\n");
    if !shrunk.is_smallest {
        let _ = writeln!(
            errors,
            "atomfs: more may go: {TRIAL_LIMIT} runs are the most"
        );
    }
}

/// The status of shrinking a script, or of its fault, whose message is written. What is left is reported too.
pub fn report_shrink<E: Write>(
    errors: &mut E,
    seen: &Seen,
    file: &str,
    tree: &Seen,
    outcome: Result<Option<Shrunk>, ShrinkFault>,
) -> u8
    ensures { result ≡ status_of_shrunk outcome }
{
    let fault = match outcome {
        Ok(Some(shrunk)) => {
            tell_shrunk(errors, &shrunk);
            return 0;
        }
        Ok(None) => {
            let _ = writeln!(errors, "atomfs: its run does not have it");
            return 1;
        }
        Err(fault) => fault,
    };
    match &fault {
        ShrinkFault::Start(start) => tell_start(errors, seen, file, tree, start),
        _ => {
            let _ = writeln!(errors, "atomfs: {fault}");
        }
    }
    fault.status()
}

/// The status where the words of an option say nothing of a run, and the message.
pub fn report_words<E: Write>(errors: &mut E, option: &str, fault: WhatFault) -> u8
    ensures { result ≡ status_of_words fault }
{
    if let WhatFault::OutOfMemory = fault {
        return report_fault(errors, RunFault::OutOfMemory);
    }
    let _ = writeln!(errors, "atomfs: --{option}: {fault}");
    2
}

/// The status that a picture came to, or that of its fault, whose message is written.
pub fn report_draw<E: Write>(errors: &mut E, seen: &Seen, outcome: Result<u8, DrawFault>) -> u8
    ensures { result ≡ status_of_drawn outcome }
{
    let fault = match outcome {
        Ok(status) => return status,
        Err(fault) => fault,
    };
    tell_fault(errors, seen, &fault);
    fault.status()
}

/// The status that what was asked of trees came to, or that of its fault, whose message is written. Of a journal that is not lawful
/// the message says what is wrong.
pub fn report_tree<E: Write>(
    errors: &mut E,
    seen: &Seen,
    outcome: Result<Replayed, ReplayFault>,
) -> u8
    ensures { result ≡ status_of_replayed outcome }
{
    let fault = match outcome {
        Ok(replayed) => {
            tell(errors, replayed.reason.as_slice());
            return status_of_verdict(replayed.well);
        }
        Err(fault) => fault,
    };
    tell_fault(errors, seen, &fault);
    fault.status()
}

/// The status that a trace came to, or that of its fault, whose message is written. Of a journal that is not lawful the message says
/// what is wrong.
pub fn report_trace<E: Write>(errors: &mut E, seen: &Seen, outcome: Result<Traced, RunFault>) -> u8
    ensures { result ≡ status_of_traced outcome }
{
    match outcome {
        Ok(traced) => {
            tell(errors, traced.reason.as_slice());
            status_of_verdict(traced.well)
        }
        Err(fault) => report(errors, seen, Err(ThreadsFault::Run(fault))),
    }
}

/// The status where the arguments cannot be read: 4 out of memory, 2 where one is not UTF-8.
pub fn status_of_unreadable_args<E: Write>(errors: &mut E, error: &io::Error) -> u8
    ensures memory { error_kind error.now ≡ IoErrorKind.OutOfMemory → result ≡ 4 }
    ensures usage { error_kind error.now ≢ IoErrorKind.OutOfMemory → result ≡ 2 }
{
    if error.kind() == IoErrorKind::OutOfMemory {
        return report_fault(errors, RunFault::OutOfMemory);
    }
    let _ = writeln!(errors, "atomfs: an argument is not UTF-8");
    2
}

/// The status where the command line names nothing to do: 0 after help or the version on standard output, 5 where that
/// cannot be written, and 2 after a usage error.
pub fn status_of_usage<W: Write, E: Write>(output: &mut W, errors: &mut E, error: Error) -> u8
    ensures memory { kind_of error ≡ ErrorKind.OutOfMemory → result ≡ 4 }
    ensures help { (kind_of error ≡ ErrorKind.DisplayHelp) ⊎ (kind_of error ≡ ErrorKind.DisplayVersion) → (result ≡ 0) ⊎ (result ≡ 5) }
    ensures usage { kind_of error ≢ ErrorKind.OutOfMemory → kind_of error ≢ ErrorKind.DisplayHelp → kind_of error ≢ ErrorKind.DisplayVersion → result ≡ 2 }
{
    match error.kind() {
        ErrorKind::OutOfMemory => report_fault(errors, RunFault::OutOfMemory),
        ErrorKind::DisplayHelp | ErrorKind::DisplayVersion => match write!(output, "{error}") {
            Ok(()) => 0,
            Err(_) => report_fault(errors, RunFault::Write),
        },
        _ => {
            let _ = write!(errors, "{error}");
            2
        }
    }
}
