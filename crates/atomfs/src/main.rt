//! The program `atomfs`. Each command reads the file that is named after it, or standard input, and writes what came of it. `atomfs run`
//! runs a script, from the tree in another file if one is named. `atomfs seeds` runs it with drawn schedules, `atomfs outcomes` counts how
//! these end, and `atomfs find` searches them. `atomfs shrink` leaves of a script only what its run needs, and `atomfs threads` runs its
//! threads on real ones. `atomfs check` reads a journal, `atomfs tree` a journal or a script, and `atomfs linearize` a history. `atomfs
//! explain` writes what the words of a message mean.
//!
//! `atomfs_arguments` reads the command line, and `atomfs_answers` has the exit statuses. Each part is proved to mean what its clauses say.
//! The program as a whole, from its arguments to its status, is tested, and so are the words of its messages.
#![tactic(auto)]

ghost use Rattle.std.specs.Prelude.{◌-◌, ◌<◌, ◌^◌};
ghost use Rattle.atomfs_arguments.specs.Commands.{IsWithin};

mod drawing;
mod drawn_runs;
mod formats;
mod from_tree;
mod linearizing;
mod scripts;
mod terminals;

use crate::drawing::{draw, refused_terminal};
use crate::drawn_runs::{find, outcomes, seeds};
use crate::formats::perform_in;
use crate::from_tree::{run_at, shrink};
use crate::linearizing::linearize;
use crate::scripts::{count_words, perform_on_script};
use crate::terminals::{Terminals, excerpts_of, has_no_color, is_in_colours, layout_of};
use atomfs_answers::{
    Erasing, Input, Kept, Line, Screen, SharedLine, report, report_check, report_draw,
    report_fault, report_schedule, report_trace, report_tree, report_unopened, status_of_run,
    status_of_unreadable_args, status_of_usage, status_of_verdict, tell_reading,
};
use atomfs_arguments::{Asserted, Format, Invocation, Subcommand, parse};
use atomfs_colours::Painting;
use fs_explain::{Topic, explanation};
use fs_sched::{Device, RunFault, Schedule, Silent, Sink, Source, run_script, write_text};
use fs_sched_outcomes::AddOutcomes;
use fs_sched_threads::{ThreadsFault, run_threads};
use fs_trace::ScheduleScript;
use fs_trace_entries::{Notation, TraceInput};
use fs_trace_replay::{Asked, ReplayFault, ReplayInput, Replayed, read_question};
use fs_verdict::{CheckJournal, CheckObject, perform};
use std::alloc::Global;
use std::convert::AsStr;
use std::fs::File;
use std::io::{IsTerminal, Read, Write};
use std::process::ExitCode;
use std::rt::Files;
use std::sync::Wait;
use std::thread::Threads;
use std::time::Clock;

/// Runs a script, and answers the status. Without a terminal nobody hears of its events, which costs nothing then.
fn run<C: Clock, R: Source, W: Sink>(
    alloc: Global,
    reader: &mut Kept<R>,
    writer: &mut W,
    schedule: Schedule,
    line: &mut Line<'_, C>,
) -> Result<u8, RunFault>
    requires reads { R.failures reader.old.inner < 2 ^ 64 - 1 }
    requires writes { W.failures writer.old < 2 ^ 64 - 1 }
{
    count_words(alloc, None, reader)?;
    let outcome = if line.is_on_terminal() {
        run_script(alloc, reader, writer, schedule, line)
    } else {
        run_script(alloc, reader, writer, schedule, &mut Silent)
    };
    match outcome {
        Ok(end) => Ok(status_of_run(&end)),
        Err(fault) => Err(fault),
    }
}

/// How a trace is written.
fn notation_of(format: Format) -> Notation {
    match format {
        Format::Text => Notation::Words,
        Format::Json => Notation::Objects,
    }
}

/// Answers what is asked of the trees of a journal, or of a script's run. The words are read before the input.
fn tree<R: Source, W: Sink>(
    alloc: Global,
    reader: &mut Kept<R>,
    writer: &mut W,
    schedule: Schedule,
    asked: Asked<'_>,
) -> Result<Replayed, ReplayFault>
    requires reads { R.failures reader.old.inner < 2 ^ 64 - 1 }
    requires writes { W.failures writer.old < 2 ^ 64 - 1 }
{
    let question = match read_question(alloc, asked) {
        Ok(question) => question,
        Err(fault) => return Err(fault),
    };
    perform_on_script(alloc, reader, writer, ReplayInput { schedule, question })
}

/// Runs the threads of a script on real ones, and answers the status.
fn threads<T: Threads + Wait + Clock + Sync, R: Source, W: Sink>(
    rt: &T,
    alloc: Global,
    reader: &mut Kept<R>,
    writer: &mut W,
    journal: bool,
    screen: &Screen,
) -> Result<u8, ThreadsFault>
    requires reads { R.failures reader.old.inner < 2 ^ 64 - 1 }
    requires writes { W.failures writer.old < 2 ^ 64 - 1 }
{
    let line = SharedLine::new(rt, screen);
    if let Err(fault) = count_words(alloc, None, reader) {
        return Err(ThreadsFault::Run(fault));
    }
    match run_threads(rt, alloc, reader, writer, &line, journal) {
        Ok(lawful) => Ok(status_of_verdict(lawful)),
        Err(fault) => Err(fault),
    }
}

/// Writes what one topic means, or two, and answers the status.
fn explain<W: Sink>(
    alloc: Global,
    writer: &mut W,
    first: Topic,
    second: Option<Topic>,
) -> Result<u8, RunFault>
    requires writes { W.failures writer.old < 2 ^ 64 - 1 }
{
    let Ok(text) = explanation(alloc, first, second) else {
        return Err(RunFault::OutOfMemory);
    };
    write_text(writer, text.as_slice())?;
    Ok(0)
}

/// Does what a subcommand asks for, and what is asserted of its runs, from a reader to a writer, and answers the exit
/// status. The message of a fault goes to `errors`. If these go to a terminal, it shows how far a long command is.
fn carry_out<T: Threads + Wait + Clock + Files + Sync, R: Source, W: Sink, E: Write>(
    rt: &T,
    alloc: Global,
    subcommand: &Subcommand<'_>,
    asserted: &[Asserted<'_>],
    reader: &mut Kept<R>,
    writer: &mut W,
    errors: &mut E,
    screen: &Screen,
) -> u8
    requires within { IsWithin subcommand.now }
    requires reads { R.failures reader.old.inner < 2 ^ 64 - 1 }
    requires writes { W.failures writer.old < 2 ^ 64 - 1 }
{
    let mut line = Line::new(rt, screen);
    let outcome = match subcommand {
        Subcommand::Run(order, None) => run(alloc, reader, writer, *order, &mut line),
        Subcommand::Run(order, Some(file)) => {
            return run_at(rt, alloc, file, *order, reader, writer, errors, &mut line);
        }
        Subcommand::Seeds(drawn, format) => {
            return seeds(
                rt, alloc, *drawn, *format, reader, writer, errors, &mut line,
            );
        }
        Subcommand::Outcomes(drawn, form) => {
            return outcomes(
                rt, alloc, *drawn, asserted, *form, reader, writer, errors, &mut line,
            );
        }
        Subcommand::AddedOutcomes(form) => {
            let command = AddOutcomes { form: *form };
            perform(alloc, reader, writer, command, &mut ()).map(|()| 0)
        }
        Subcommand::Find(what, drawn, format) => {
            return find(
                rt, alloc, what, *drawn, *format, reader, writer, errors, &mut line,
            );
        }
        Subcommand::Shrink(what, file) => {
            return shrink(rt, alloc, what, *file, reader, writer, errors);
        }
        Subcommand::Tree(order, asked) => {
            let outcome = tree(alloc, reader, writer, *order, *asked);
            return report_tree(errors, &reader.seen, outcome);
        }
        Subcommand::Check(format) => {
            let (command, form) = (CheckJournal, CheckObject);
            let outcome = perform_in(alloc, reader, writer, command, *format, form, &mut ());
            return report_check(errors, &reader.seen, outcome);
        }
        Subcommand::Linearize(histories, limit, recorded) => {
            let limit = *limit as usize;
            return linearize(
                rt, alloc, *histories, limit, *recorded, reader, writer, errors, &mut line,
            );
        }
        Subcommand::Explain(first, second) => explain(alloc, writer, *first, *second),
        Subcommand::Trace(order, every, format) => {
            let command = TraceInput {
                schedule: *order,
                every: *every,
                notation: notation_of(*format),
            };
            let outcome = perform_on_script(alloc, reader, writer, command);
            return report_trace(errors, &reader.seen, outcome);
        }
        Subcommand::Draw(order, drawing) => {
            let outcome = draw(alloc, reader, writer, *order, *drawing);
            return report_draw(errors, &reader.seen, outcome);
        }
        Subcommand::Schedule(order) => {
            let command = ScheduleScript { schedule: *order };
            let outcome = perform_on_script(alloc, reader, writer, command).map(|()| 0);
            return report_schedule(errors, &reader.seen, outcome);
        }
        Subcommand::Threads(journal) => {
            let outcome = threads(rt, alloc, reader, writer, *journal, screen);
            screen.erase();
            return report(errors, &reader.seen, outcome);
        }
    };
    line.erase();
    report(errors, &reader.seen, outcome.map_err(ThreadsFault::Run))
}

/// Whether a command reads an input.
fn reads(command: &Subcommand<'_>) -> bool {
    !matches!(command, Subcommand::Explain(_, _))
}

/// What a command reads: the file that is named, or what the program was given. If that is a terminal and no file is
/// named, a message says so. If the file is not opened, the answer is the status.
fn opened<T: Files, R: Read + Drop, E: Write>(
    rt: &T,
    asked: &Invocation<'_>,
    input: R,
    is_terminal: bool,
    errors: &mut E,
) -> Result<Input<R, T::File>, u8> {
    match asked.file {
        Some("-") => Ok(Input::Given(input)),
        Some(file) => match File::open(rt, file) {
            Ok(opened) => Ok(Input::File(opened)),
            Err(error) => Err(report_unopened(errors, file, &error)),
        },
        None => {
            if is_terminal && reads(&asked.command) {
                tell_reading(errors);
            }
            Ok(Input::Given(input))
        }
    }
}

/// The exit status of the program, from its arguments on. The first of them is its name.
fn status_of_args<T, S: AsStr, R: Read + Drop, W: Write + Drop, E: Write>(
    rt: &T,
    alloc: Global,
    args: &[S],
    input: R,
    mut output: W,
    errors: &mut E,
    terminals: Terminals,
    screen: &Screen,
) -> u8
where
    T: Threads + Wait + Clock + Files + Sync,
{
    let asked = match parse(alloc, args) {
        Ok(asked) => asked,
        Err(error) => return status_of_usage(&mut output, errors, error),
    };
    if terminals.output {
        if let Some(status) = refused_terminal(&asked.command, errors) {
            return status;
        }
    }
    let input = match opened(rt, &asked, input, terminals.input, errors) {
        Ok(input) => input,
        Err(status) => return status,
    };
    let mut reader = Kept::new(alloc, Device::new(input));
    reader.seen.excerpts = excerpts_of(&asked, terminals, screen);
    let layout = layout_of(&asked, terminals);
    let is_painted = is_in_colours(&asked, terminals);
    let painting = Painting::new(alloc, Device::new(output), layout, is_painted);
    let mut writer = Erasing::new(painting, screen);
    carry_out(
        rt,
        alloc,
        &asked.command,
        &asked.asserted,
        &mut reader,
        &mut writer,
        errors,
        screen,
    )
}

/// The same from the arguments of the process. The runtime comes twice: by its own type, and by the right to start threads,
/// which it has in `main` alone.
fn exit_status<T: Threads + Wait + Clock + Files + Sync>(rt: &HostRuntime, threads: &T) -> u8 {
    let alloc = rt.alloc();
    let (input, output, mut errors) = (rt.stdin(), rt.stdout(), rt.stderr());
    let screen = Screen::new(alloc, errors, errors.is_terminal());
    let terminals = Terminals {
        input: input.is_terminal(),
        output: output.is_terminal(),
        no_color: has_no_color(rt),
    };
    let args = match std::env::args(rt) {
        Ok(args) => args,
        Err(error) => return status_of_unreadable_args(&mut errors, &error),
    };
    let collected: Result<Vec<String>, _> = args.collect(alloc);
    let Ok(args) = collected else {
        return report_fault(&mut errors, RunFault::OutOfMemory);
    };
    status_of_args(
        threads,
        alloc,
        args.as_slice(),
        input,
        output,
        &mut errors,
        terminals,
        &screen,
    )
}

fn main(rt: HostRuntime) -> ExitCode {
    ExitCode::from(exit_status(&rt, &rt))
}
