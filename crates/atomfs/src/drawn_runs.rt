//! Runs that are drawn from numbers, from the root alone or from the tree in a file.

ghost use Rattle.std.specs.Prelude.{◌-◌, ◌<◌, ◌^◌};
ghost use Rattle.fs_sched.specs.declared.seeding.TheConstants.{RUN_LIMIT};
ghost use Rattle.fs_sched_find.specs.declared.finding.TheConstants.{SEARCH_LIMIT};
ghost use Rattle.fs_sched_outcomes.specs.declared.running.TheConstants.{OUTCOME_LIMIT};
ghost use Rattle.atomfs_arguments.specs.Commands.{AreWithin};

use crate::formats::perform_in;
use crate::from_tree::tree_for;
use atomfs_answers::{
    Kept, Line, report_fault, report_find, report_from, report_outcomes, report_words,
    status_of_verdict,
};
use atomfs_arguments::{Asserted, Drawn, Format};
use fs_sched::{RunFault, Sink, Source};
use fs_sched_find::{FindObject, FindSeed, read_what};
use fs_sched_outcomes::{Assertion, CountOutcomes, Form, read_assertion};
use fs_sched_start::{RunSeeds, SeedObjects};
use fs_verdict::perform;
use std::alloc::Global;
use std::io::Write;
use std::rt::Files;
use std::time::Clock;

/// Makes drawn runs of a script and checks their journals, and answers the exit status.
pub(crate) fn seeds<T: Clock + Files, R: Source, W: Sink, E: Write>(
    rt: &T,
    alloc: Global,
    drawn: Drawn<'_>,
    format: Format,
    reader: &mut Kept<R>,
    writer: &mut W,
    errors: &mut E,
    line: &mut Line<'_, T>,
) -> u8
    requires within { AreWithin RUN_LIMIT drawn }
    requires reads { R.failures reader.old.inner < 2 ^ 64 - 1 }
    requires writes { W.failures writer.old < 2 ^ 64 - 1 }
{
    let mut tree = match tree_for(rt, alloc, drawn.from, reader, errors) {
        Ok(tree) => tree,
        Err(status) => return status,
    };
    let (by, seed, runs) = (drawn.by, drawn.seed, drawn.runs);
    let command = RunSeeds {
        tree: tree.take(),
        by,
        seed,
        runs,
    };
    let objects = SeedObjects::new(seed, runs);
    let lawful = perform_in(alloc, reader, writer, command, format, objects, line);
    line.erase();
    let outcome = match lawful {
        Ok(lawful) => Ok(status_of_verdict(lawful)),
        Err(fault) => Err(fault),
    };
    report_from(errors, &reader.seen, tree.name, &tree.seen, outcome)
}

/// What is asserted of drawn runs, read from words. Where these say nothing, the answer is the status, and the message is written.
fn assertions_of<'a, E: Write>(
    alloc: Global,
    asserted: &[Asserted<'a>],
    errors: &mut E,
) -> Result<Vec<Assertion<'a>>, u8> {
    let mut asserts = Vec::new(alloc);
    for said in asserted {
        let assertion = match read_assertion(alloc, said.quantifier, said.text) {
            Ok(assertion) => assertion,
            Err(fault) => return Err(report_words(errors, said.quantifier.word(), fault)),
        };
        if asserts.push(assertion).is_err() {
            return Err(report_fault(errors, RunFault::OutOfMemory));
        }
    }
    Ok(asserts)
}

/// Counts the ends of drawn runs of a script and decides what is asserted of these, whose words are read first; answers the exit
/// status.
pub(crate) fn outcomes<T: Clock + Files, R: Source, W: Sink, E: Write>(
    rt: &T,
    alloc: Global,
    drawn: Drawn<'_>,
    asserted: &[Asserted<'_>],
    form: Form,
    reader: &mut Kept<R>,
    writer: &mut W,
    errors: &mut E,
    line: &mut Line<'_, T>,
) -> u8
    requires within { AreWithin OUTCOME_LIMIT drawn }
    requires reads { R.failures reader.old.inner < 2 ^ 64 - 1 }
    requires writes { W.failures writer.old < 2 ^ 64 - 1 }
{
    let asserts = match assertions_of(alloc, asserted, errors) {
        Ok(asserts) => asserts,
        Err(status) => return status,
    };
    let mut tree = match tree_for(rt, alloc, drawn.from, reader, errors) {
        Ok(tree) => tree,
        Err(status) => return status,
    };
    let (by, seed, runs) = (drawn.by, drawn.seed, drawn.runs);
    let command = CountOutcomes {
        tree: tree.take(),
        by,
        asserts: &asserts,
        seed,
        runs,
        form,
    };
    let outcome = perform(alloc, reader, writer, command, line);
    line.erase();
    report_outcomes(
        alloc,
        errors,
        &reader.seen,
        tree.name,
        &tree.seen,
        &asserts,
        seed,
        runs,
        form.json,
        outcome,
    )
}

/// Searches drawn runs of a script for what a text says, which is read first, and answers the exit status.
pub(crate) fn find<T: Clock + Files, R: Source, W: Sink, E: Write>(
    rt: &T,
    alloc: Global,
    what: &str,
    drawn: Drawn<'_>,
    format: Format,
    reader: &mut Kept<R>,
    writer: &mut W,
    errors: &mut E,
    line: &mut Line<'_, T>,
) -> u8
    requires within { AreWithin SEARCH_LIMIT drawn }
    requires reads { R.failures reader.old.inner < 2 ^ 64 - 1 }
    requires writes { W.failures writer.old < 2 ^ 64 - 1 }
{
    let what = match read_what(alloc, what.as_bytes()) {
        Ok(what) => what,
        Err(fault) => return report_words(errors, "where", fault),
    };
    let mut tree = match tree_for(rt, alloc, drawn.from, reader, errors) {
        Ok(tree) => tree,
        Err(status) => return status,
    };
    let (by, seed, runs) = (drawn.by, drawn.seed, drawn.runs);
    let command = FindSeed {
        tree: tree.take(),
        by,
        what,
        seed,
        runs,
    };
    let outcome = perform_in(alloc, reader, writer, command, format, FindObject, line);
    line.erase();
    report_find(
        errors,
        &reader.seen,
        tree.name,
        &tree.seen,
        seed,
        runs,
        outcome,
    )
}
