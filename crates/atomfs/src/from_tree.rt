//! Runs from the tree in a file, which is read first.

ghost use Rattle.std.specs.Prelude.{◌≡◌, ◌-◌, ◌<◌, ◌^◌, OnOk};

use crate::scripts::count_words;
use atomfs_answers::{
    Kept, Line, Seen, report, report_file, report_from, report_shrink, report_unopened,
    report_words, status_of_run,
};
use fs_sched::{Device, Schedule, Silent, Sink, Source};
use fs_sched_find::read_what;
use fs_sched_shrink::ShrinkScript;
use fs_sched_start::{RunFrom, TreeText, whole_text};
use fs_sched_threads::ThreadsFault;
use fs_verdict::perform;
use std::alloc::Global;
use std::fs::File;
use std::io::Write;
use std::rt::Files;
use std::time::Clock;

/// The text of the tree at which runs begin, if it is that in a file, and what is shown of it if it has no tree.
#[derive(Drop)]
pub(crate) struct TreeFile<'a> {
    pub(crate) name: &'a str,
    text: Option<Vec<u8>>,
    pub(crate) seen: Seen,
}

impl<'a> TreeFile<'a> {
    /// Its text to be read, of which nothing is kept here.
    pub(crate) fn take(&mut self) -> TreeText {
        match self.text.take() {
            Some(text) => TreeText::of(text),
            None => TreeText::none(),
        }
    }

    /// Its bytes, if there is a file.
    fn bytes(&self) -> Option<&[u8]> {
        match &self.text {
            Some(text) => Some(text.as_slice()),
            None => None,
        }
    }
}

/// The text in a file; or the status where it is not read, whose message is written.
fn tree_file<'a, T: Files, E: Write>(
    rt: &T,
    alloc: Global,
    file: &'a str,
    errors: &mut E,
) -> Result<TreeFile<'a>, u8> {
    let opened = match File::open(rt, file) {
        Ok(opened) => opened,
        Err(error) => return Err(report_unopened(errors, file, &error)),
    };
    let mut source = Kept::new(alloc, Device::new(opened));
    match whole_text(alloc, &mut source) {
        Ok(text) => Ok(TreeFile {
            name: file,
            text: Some(text),
            seen: source.seen,
        }),
        Err(fault) => Err(report_file(errors, file, fault)),
    }
}

/// The tree in a file, if one is named, from which the script of a source is to run. That has counts in the place of its words that
/// name calls then. If something is not read, the answer is the status, and the message is written.
pub(crate) fn tree_for<'a, T: Files, R: Source, E: Write>(
    rt: &T,
    alloc: Global,
    file: Option<&'a str>,
    reader: &mut Kept<R>,
    errors: &mut E,
) -> Result<TreeFile<'a>, u8>
    requires { R.failures reader.old.inner < 2 ^ 64 - 1 }
    ensures { OnOk result (R.failures reader.new.inner ≡ R.failures reader.old.inner) }
{
    let tree = match file {
        Some(file) => tree_file(rt, alloc, file, errors)?,
        None => TreeFile {
            name: "",
            text: None,
            seen: Seen::new(alloc),
        },
    };
    match count_words(alloc, tree.bytes(), reader) {
        Ok(()) => Ok(tree),
        Err(fault) => Err(report(errors, &reader.seen, Err(ThreadsFault::Run(fault)))),
    }
}

/// Runs a script from the tree in a file, and answers the exit status.
pub(crate) fn run_at<T: Clock + Files, R: Source, W: Sink, E: Write>(
    rt: &T,
    alloc: Global,
    file: &str,
    schedule: Schedule,
    reader: &mut Kept<R>,
    writer: &mut W,
    errors: &mut E,
    line: &mut Line<'_, T>,
) -> u8
    requires reads { R.failures reader.old.inner < 2 ^ 64 - 1 }
    requires writes { W.failures writer.old < 2 ^ 64 - 1 }
{
    let TreeFile { name, text, seen } = match tree_for(rt, alloc, Some(file), reader, errors) {
        Ok(tree) => tree,
        Err(status) => return status,
    };
    let command = RunFrom {
        tree: text.unwrap_or(Vec::new(alloc)),
        schedule,
    };
    let ended = if line.is_on_terminal() {
        perform(alloc, reader, writer, command, line)
    } else {
        perform(alloc, reader, writer, command, &mut Silent)
    };
    let outcome = match ended {
        Ok(end) => Ok(status_of_run(&end)),
        Err(fault) => Err(fault),
    };
    line.erase();
    report_from(errors, &reader.seen, name, &seen, outcome)
}

/// Shrinks a script to what its run, from the tree in a file if one is named, needs for what a text says, which is read first, and
/// answers the exit status.
pub(crate) fn shrink<T: Files, R: Source, W: Sink, E: Write>(
    rt: &T,
    alloc: Global,
    what: &str,
    file: Option<&str>,
    reader: &mut Kept<R>,
    writer: &mut W,
    errors: &mut E,
) -> u8
    requires reads { R.failures reader.old.inner < 2 ^ 64 - 1 }
    requires writes { W.failures writer.old < 2 ^ 64 - 1 }
{
    let what = match read_what(alloc, what.as_bytes()) {
        Ok(what) => what,
        Err(fault) => return report_words(errors, "where", fault),
    };
    let mut tree = match tree_for(rt, alloc, file, reader, errors) {
        Ok(tree) => tree,
        Err(status) => return status,
    };
    let command = ShrinkScript {
        tree: tree.take(),
        what,
    };
    let outcome = perform(alloc, reader, writer, command, &mut ());
    report_shrink(errors, &reader.seen, tree.name, &tree.seen, outcome)
}
