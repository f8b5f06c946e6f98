//! What is found of histories, with a terminal that shows how far the search is.

ghost use Rattle.std.specs.Prelude.{◌-◌, ◌<◌, ◌^◌};

use atomfs_answers::{
    Kept, Line, report_draw, report_file, report_learned, report_linearize, report_many,
    report_minimized, report_table, report_unopened, report_unwritten,
};
use atomfs_arguments::{Drawing, Histories as Asked, Recorded};
use fs_draw::{DrawFault, DrawInput, View};
use fs_draw_page::noted_page;
use fs_linearize_dialects::{Dialect, known_table, read_dialect};
use fs_linearize_minimal::MinimizeHistory;
use fs_linearize_text::{
    Failing, LearnHistories, LinearizeHistory, LinearizeMany, Linearized, Outcome, linearize_bytes,
};
use fs_sched::{Device, RunFault, Schedule, Sink, Source, write_text};
use fs_sched_start::whole_text;
use fs_verdict::{Made, perform};
use std::alloc::{AllocError, Global};
use std::fs::{File, create_dir_all};
use std::io::{self, Write};
use std::rt::Files;
use std::time::Clock;

/// The table of which a text is read; or the status where it is none, whose message after this name is written.
fn table_in<E: Write>(
    alloc: Global,
    name: &str,
    text: &[u8],
    errors: &mut E,
) -> Result<Dialect, u8> {
    match read_dialect(alloc, text) {
        Ok(dialect) => Ok(dialect),
        Err(fault) => Err(report_table(errors, name, fault)),
    }
}

/// The table in a file.
fn table_at<T: Files, E: Write>(
    rt: &T,
    alloc: Global,
    file: &str,
    errors: &mut E,
) -> Result<Dialect, u8> {
    let opened = match File::open(rt, file) {
        Ok(opened) => opened,
        Err(error) => return Err(report_unopened(errors, file, &error)),
    };
    let mut source = Device::new(opened);
    match whole_text(alloc, &mut source) {
        Ok(text) => table_in(alloc, file, &text, errors),
        Err(fault) => Err(report_file(errors, file, fault)),
    }
}

/// The table of a known tree, or else the one in a file of this name; without a name that of this tree.
fn dialect_of<T: Files, E: Write>(
    rt: &T,
    alloc: Global,
    name: Option<&str>,
    errors: &mut E,
) -> Result<Dialect, u8> {
    let Some(name) = name else {
        return Ok(Dialect::new(alloc));
    };
    match known_table(name) {
        Some(text) => table_in(alloc, name, text.as_bytes(), errors),
        None => table_at(rt, alloc, name, errors),
    }
}

/// Writes a history to a file of its own.
fn write_failing<T: Files>(
    rt: &T,
    alloc: Global,
    folder: &str,
    failing: &Failing,
) -> Result<(), io::Error> {
    let number = failing.number;
    let path = format!(in alloc; "{folder}/{number}.history")?;
    let mut file = File::create(rt, path.as_str())?;
    file.write_all(failing.text.as_slice())
}

/// Writes each history that is not lawful to a file of its own, and answers the status if one is not written.
fn write_each<T: Files, E: Write>(
    rt: &T,
    alloc: Global,
    folder: &str,
    histories: &[Failing],
    errors: &mut E,
) -> Result<(), u8> {
    for failing in histories {
        if let Err(error) = write_failing(rt, alloc, folder, failing) {
            return Err(report_unwritten(errors, folder, &error));
        }
    }
    Ok(())
}

/// Linearizes histories one after the other, and keeps those that are not lawful if a directory for them is named.
fn linearize_each<T: Clock + Files, R: Source, W: Sink, E: Write>(
    rt: &T,
    alloc: Global,
    reader: &mut Kept<R>,
    writer: &mut W,
    dialect: Dialect,
    limit: usize,
    folder: Option<&str>,
    errors: &mut E,
    line: &mut Line<'_, T>,
) -> u8
    requires reads { R.failures reader.old.inner < 2 ^ 64 - 1 }
    requires writes { W.failures writer.old < 2 ^ 64 - 1 }
{
    if let Some(folder) = folder {
        if let Err(error) = create_dir_all(rt, folder) {
            return report_unwritten(errors, folder, &error);
        }
    }
    let command = LinearizeMany {
        dialect,
        limit,
        keeps_failing: folder.is_some(),
    };
    let outcome = perform(alloc, reader, writer, command, line);
    line.erase();
    if let (Some(folder), Ok(told)) = (folder, &outcome) {
        if let Err(status) = write_each(rt, alloc, folder, &told.notes.kept, errors) {
            return status;
        }
    }
    report_many(errors, &reader.seen, outcome)
}

/// What is found of a history, in memory: the text that `--front` writes, and what it answers.
fn found_in<R: Source>(
    alloc: Global,
    reader: &mut R,
    dialect: &Dialect,
    limit: usize,
) -> Result<Made<Linearized>, RunFault>
    requires reads { R.failures reader.old < 2 ^ 64 - 1 }
{
    let text = whole_text(alloc, reader)?;
    linearize_bytes(alloc, &text, dialect, limit, true)
}

/// Whether a text is a journal, and no line that says that there is none.
fn is_journal(text: &[u8]) -> bool {
    text.starts_with(b"atomfs-journal ")
}

/// Writes the line that is found in the place of a journal, of which nothing is drawn.
fn report_undrawn<E: Write>(errors: &mut E, line: &[u8]) {
    let _ = errors.write_all(b"atomfs: ");
    let _ = errors.write_all(line);
}

/// The notes of a page on what is found of a history: whether an order explains it; and if none does what its last call could have
/// replied, by the lines after the first one that say why.
fn notes_of(alloc: Global, found: &Linearized) -> Result<Vec<u8>, AllocError> {
    if let Outcome::Lawful = found.outcome {
        return Vec::from_slice(alloc, b"# history lawful\n");
    }
    let mut notes = Vec::from_slice(alloc, b"# history none\n")?;
    let mut is_first = true;
    for line in found.reason.split(|byte| *byte == b'\n') {
        if !is_first {
            notes.extend_from_slice(b"# reply ")?;
            notes.extend_from_slice(line)?;
            notes.push(b'\n')?;
        }
        is_first = false;
    }
    Ok(notes)
}

/// Writes the page of the journal that is found of a history.
fn write_page<W: Sink>(
    alloc: Global,
    writer: &mut W,
    journal: &[u8],
    found: &Linearized,
) -> Result<(), DrawFault>
    requires writes { W.failures writer.old < 2 ^ 64 - 1 }
{
    let Ok(notes) = notes_of(alloc, found) else {
        return Err(DrawFault::Run(RunFault::OutOfMemory));
    };
    let page = noted_page(alloc, journal, &notes)?;
    write_text(writer, page.text.as_slice())?;
    Ok(())
}

/// Writes the picture of the journal that is found of a history.
fn write_picture<W: Sink>(
    alloc: Global,
    writer: &mut W,
    journal: &[u8],
    view: View,
) -> Result<(), DrawFault>
    requires writes { W.failures writer.old < 2 ^ 64 - 1 }
{
    let schedule = Schedule::Given;
    let mut reader = Device::new(journal);
    perform(
        alloc,
        &mut reader,
        writer,
        DrawInput { schedule, view },
        &mut (),
    )?;
    Ok(())
}

/// Draws what is found of a history: the lawful journal, or the journal up to the return that nothing explains.
fn draw_found<R: Source, W: Sink, E: Write>(
    alloc: Global,
    reader: &mut Kept<R>,
    writer: &mut W,
    dialect: &Dialect,
    limit: usize,
    drawing: Drawing,
    errors: &mut E,
) -> u8
    requires reads { R.failures reader.old.inner < 2 ^ 64 - 1 }
    requires writes { W.failures writer.old < 2 ^ 64 - 1 }
{
    let Made { text, end } = match found_in(alloc, reader, dialect, limit) {
        Ok(made) => made,
        Err(fault) => return report_linearize(errors, &reader.seen, Err(fault)),
    };
    if !is_journal(&text) {
        report_undrawn(errors, &text);
        return report_linearize(errors, &reader.seen, Ok(end));
    }
    let drawn = match drawing {
        Drawing::Picture(view) => write_picture(alloc, writer, &text, view),
        Drawing::Page => write_page(alloc, writer, &text, &end),
    };
    match drawn {
        Ok(()) => report_linearize(errors, &reader.seen, Ok(end)),
        Err(fault) => report_draw(errors, &reader.seen, Err(fault)),
    }
}

/// Does what is asked of histories, and answers the exit status.
pub(crate) fn linearize<T: Clock + Files, R: Source, W: Sink, E: Write>(
    rt: &T,
    alloc: Global,
    histories: Asked,
    limit: usize,
    recorded: Recorded<'_>,
    reader: &mut Kept<R>,
    writer: &mut W,
    errors: &mut E,
    line: &mut Line<'_, T>,
) -> u8
    requires reads { R.failures reader.old.inner < 2 ^ 64 - 1 }
    requires writes { W.failures writer.old < 2 ^ 64 - 1 }
{
    let dialect = match dialect_of(rt, alloc, recorded.dialect, errors) {
        Ok(dialect) => dialect,
        Err(status) => return status,
    };
    match histories {
        Asked::Many => linearize_each(
            rt,
            alloc,
            reader,
            writer,
            dialect,
            limit,
            recorded.failing,
            errors,
            line,
        ),
        Asked::Core => {
            let command = MinimizeHistory { dialect, limit };
            let outcome = perform(alloc, reader, writer, command, line);
            line.erase();
            report_minimized(errors, &reader.seen, outcome)
        }
        Asked::Learn => {
            let outcome = perform(alloc, reader, writer, LearnHistories, &mut ());
            report_learned(errors, &reader.seen, outcome)
        }
        Asked::Whole | Asked::Front => {
            if let Some(drawing) = recorded.drawn {
                return draw_found(alloc, reader, writer, &dialect, limit, drawing, errors);
            }
            let command = LinearizeHistory {
                dialect,
                limit,
                front: histories == Asked::Front,
            };
            let outcome = perform(alloc, reader, writer, command, line);
            line.erase();
            report_linearize(errors, &reader.seen, outcome)
        }
    }
}
