//! Which streams are terminals, and what is in colours and in columns there.

use atomfs_answers::{Excerpts, Screen};
use atomfs_arguments::{Format, Invocation, Subcommand};
use atomfs_colours::Layout;
use std::env::VarError;

/// Which streams are terminals, and whether the environment asks for no colours.
#[derive(Clone, Copy)]
pub(crate) struct Terminals {
    pub(crate) input: bool,
    pub(crate) output: bool,
    pub(crate) no_color: bool,
}

/// Whether the environment asks for no colours: `NO_COLOR` is there, and not empty.
pub(crate) fn has_no_color(rt: &HostRuntime) -> bool {
    match std::env::var(rt, "NO_COLOR") {
        Ok(value) => !value.is_empty(),
        Err(VarError::NotPresent) => false,
        Err(_) => true,
    }
}

/// Whether a command writes words for a reader, and neither objects nor a text that a program reads.
fn is_in_words(command: &Subcommand<'_>) -> bool {
    match command {
        Subcommand::Run(_, _) | Subcommand::Threads(_) | Subcommand::Linearize(_, _, _) => true,
        Subcommand::Seeds(_, format)
        | Subcommand::Check(format)
        | Subcommand::Trace(_, _, format) => *format == Format::Text,
        Subcommand::Outcomes(_, form) | Subcommand::AddedOutcomes(form) => !form.json,
        _ => false,
    }
}

/// Whether what a command writes is in colours.
pub(crate) fn is_in_colours(asked: &Invocation<'_>, terminals: Terminals) -> bool {
    is_in_words(&asked.command) && asked.color.is_on(terminals.output, terminals.no_color)
}

/// How what a command writes is laid out: in columns where it is read on a terminal, in colours or not.
pub(crate) fn layout_of(asked: &Invocation<'_>, terminals: Terminals) -> Layout {
    if !terminals.output {
        return Layout::Plain;
    }
    match asked.command {
        Subcommand::Trace(_, _, Format::Text) => Layout::Columns,
        Subcommand::Outcomes(_, form) | Subcommand::AddedOutcomes(form) if !form.json => {
            Layout::Table
        }
        _ => Layout::Plain,
    }
}

/// How the line of an entry at fault is shown: where words are read on a terminal, and messages on one too.
pub(crate) fn excerpts_of(
    asked: &Invocation<'_>,
    terminals: Terminals,
    screen: &Screen,
) -> Excerpts {
    if !terminals.output || !screen.is_terminal() || !is_in_words(&asked.command) {
        return Excerpts::Off;
    }
    if is_in_colours(asked, terminals) {
        Excerpts::Red
    } else {
        Excerpts::Plain
    }
}
