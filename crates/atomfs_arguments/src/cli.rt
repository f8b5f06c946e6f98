//! The command line, by `clap`.

ghost use Rattle.std.specs.Prelude.{IfOk};
ghost use Rattle.atomfs_arguments.specs.Commands.{IsWithin};

use crate::subcommand::{Invocation, invocation_of};
use crate::table::{ACCOUNTS, Argument, Form, Need, RUNS, Row, SEARCHES, VERDICTS};
use crate::texts::{FIRST, STATUSES};
use clap::builder::ValueParser;
use clap::error::ErrorKind;
use clap::{Arg, ArgAction, ArgMatches, Command, Error};
use fs_explain::WORDS;
use std::alloc::{AllocError, Global};
use std::convert::AsStr;
use strsim::osa_distance;

/// The version of the program.
pub const VERSION: &str = "0.3.0";

/// An argument as it is written.
fn written<'a>(argument: Arg<'a>, name: &'static str, form: &Form) -> Arg<'a> {
    match form {
        Form::Flag => argument.long(name).action(ArgAction::SetTrue),
        Form::Text(value) => argument.long(name).value_name(value),
        Form::Texts(value) => argument
            .long(name)
            .value_name(value)
            .action(ArgAction::Append),
        Form::Number(value, least, most) => argument
            .long(name)
            .value_name(value)
            .value_parser(ValueParser::unsigned(*least, *most)),
        Form::OneOf(value, words) => argument.long(name).value_name(value).value_parser(*words),
        Form::Kind => one_of_the_words(argument),
        Form::SecondKind => one_of_the_words(argument).hide_possible_values(true),
        Form::File => argument.value_name("FILE"),
    }
}

fn one_of_the_words<'a>(argument: Arg<'a>) -> Arg<'a> {
    argument.value_name("KIND").value_parser(WORDS.as_slice())
}

/// An argument that has to be there where it is needed.
fn needed<'a>(argument: Arg<'a>, need: &Need) -> Result<Arg<'a>, Error> {
    match need {
        Need::Never => Ok(argument),
        Need::Always => Ok(argument.required(true)),
        Need::Unless(other) => Ok(argument.required_unless_present(other)?),
        Need::With(other) => Ok(argument.requires_arg(other)?),
    }
}

fn argument_of<'a>(alloc: Global, row: &Argument) -> Result<Arg<'a>, Error> {
    let argument = written(Arg::new(alloc, row.name), row.name, &row.form).help(row.help);
    Ok(needed(argument, &row.need)?.conflicts_with_all(row.conflicts)?)
}

/// A command with further arguments.
fn with_arguments<'a>(
    alloc: Global,
    command: Command<'a>,
    rows: &[Argument],
) -> Result<Command<'a>, Error> {
    let mut command = command;
    for row in rows {
        command = command.arg(argument_of(alloc, row)?)?;
    }
    Ok(command)
}

/// A command with what its help says.
fn described<'a>(
    alloc: Global,
    name: &'static str,
    about: &'static str,
    usage: &'static str,
    statuses: &'static str,
) -> Command<'a> {
    Command::new(alloc, name)
        .about(about)
        .override_usage(usage)
        .after_help(statuses)
}

fn command_of<'a>(alloc: Global, row: &Row) -> Result<Command<'a>, Error> {
    let alone = described(alloc, row.name, row.about, row.usage, row.statuses);
    with_arguments(alloc, alone, row.arguments)
}

/// A program with further subcommands.
fn with_commands<'a>(
    alloc: Global,
    program: Command<'a>,
    rows: &[Row],
) -> Result<Command<'a>, Error> {
    let mut program = program;
    for row in rows {
        program = program.subcommand(command_of(alloc, row)?)?;
    }
    Ok(program)
}

fn program<'a>(alloc: Global) -> Command<'a> {
    described(
        alloc,
        "atomfs",
        "A concurrent file tree in memory",
        "atomfs <COMMAND>",
        STATUSES,
    )
    .version(VERSION)
    .subcommand_required(true)
}

fn program_with_runs<'a>(alloc: Global) -> Result<Command<'a>, Error> {
    with_commands(alloc, program(alloc), RUNS)
}

fn program_with_searches<'a>(alloc: Global) -> Result<Command<'a>, Error> {
    with_commands(alloc, program_with_runs(alloc)?, SEARCHES)
}

fn program_with_verdicts<'a>(alloc: Global) -> Result<Command<'a>, Error> {
    with_commands(alloc, program_with_searches(alloc)?, VERDICTS)
}

fn command<'a>(alloc: Global) -> Result<Command<'a>, Error> {
    with_commands(alloc, program_with_verdicts(alloc)?, ACCOUNTS)
}

/// What was matched, which is a subcommand.
fn asked_for<'a>(alloc: Global, matches: &ArgMatches<'a>) -> Result<Invocation<'a>, Error>
    ensures within { IfOk result (λ asked. IsWithin asked.command) }
{
    match invocation_of(alloc, matches)? {
        Some(asked) => Ok(asked),
        None => Err(command(alloc)?.error(ErrorKind::InvalidSubcommand, "no such subcommand")?),
    }
}

/// The command that a word misses by one letter: a letter that is wrong, too many or missing, or two neighbours that
/// are exchanged.
fn meant(alloc: Global, word: &str, rows: &[Row]) -> Result<Option<&'static str>, AllocError> {
    for row in rows {
        if osa_distance(alloc, word, row.name)? == 1 {
            return Ok(Some(row.name));
        }
    }
    Ok(None)
}

/// The same of all commands.
fn command_meant(alloc: Global, word: &str) -> Result<Option<&'static str>, AllocError> {
    for rows in [RUNS, SEARCHES, VERDICTS, ACCOUNTS] {
        if let Some(name) = meant(alloc, word, rows)? {
            return Ok(Some(name));
        }
    }
    Ok(None)
}

/// What is wrong with arguments whose first word is no command: in the words of `clap`, which finds what is close to a word of some
/// length, and of a short one that which it misses by a letter.
fn unknown_command<S: AsStr>(alloc: Global, args: &[S], error: Error) -> Result<Error, Error> {
    if error.kind() != ErrorKind::InvalidSubcommand || args.len() < 2 {
        return Ok(error);
    }
    let word = args[1].as_str();
    let Some(name) = command_meant(alloc, word)? else {
        return Ok(error);
    };
    let message = format!(in alloc;
        "unrecognized subcommand '{word}'\n\n  tip: a similar subcommand exists: '{name}'"
    )?;
    Ok(command(alloc)?.error(ErrorKind::InvalidSubcommand, message.as_str())?)
}

/// What the command line asks for, and the file that it names; its first argument is the name of the program. The error is what is
/// to be printed instead: help, the version, or what is wrong with the arguments.
pub fn parse<'a, S: AsStr>(alloc: Global, args: &'a [S]) -> Result<Invocation<'a>, Error>
    ensures within { IfOk result (λ asked. IsWithin asked.command) }
{
    if args.len() < 2 {
        return Err(command(alloc)?.error(ErrorKind::MissingSubcommand, FIRST)?);
    }
    match command(alloc)?.try_get_matches_from(args) {
        Ok(matches) => asked_for(alloc, &matches),
        Err(error) => Err(unknown_command(alloc, args, error)?),
    }
}
