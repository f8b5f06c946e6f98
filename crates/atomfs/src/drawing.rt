//! What is drawn: a picture, or a page.

ghost use Rattle.std.specs.Prelude.{◌-◌, ◌<◌, ◌^◌};

use crate::scripts::perform_on_script;
use atomfs_answers::{Kept, report_picture, status_of_verdict};
use atomfs_arguments::{Drawing, Subcommand};
use fs_draw::{DrawFault, DrawInput};
use fs_draw_page::DrawPage;
use fs_sched::{Schedule, Sink, Source};
use std::alloc::Global;
use std::io::Write;

/// Draws a script's run or a journal, as a picture or as a page, and answers the status.
pub(crate) fn draw<R: Source, W: Sink>(
    alloc: Global,
    reader: &mut Kept<R>,
    writer: &mut W,
    schedule: Schedule,
    drawing: Drawing,
) -> Result<u8, DrawFault>
    requires reads { R.failures reader.old.inner < 2 ^ 64 - 1 }
    requires writes { W.failures writer.old < 2 ^ 64 - 1 }
{
    let drawn = match drawing {
        Drawing::Picture(view) => {
            perform_on_script(alloc, reader, writer, DrawInput { schedule, view })
        }
        Drawing::Page => perform_on_script(alloc, reader, writer, DrawPage { schedule }),
    };
    match drawn {
        Ok(well) => Ok(status_of_verdict(well)),
        Err(fault) => Err(fault),
    }
}

/// The status where a page would be written to a terminal, and the message.
fn report_page<E: Write>(errors: &mut E) -> u8 {
    let _ = writeln!(
        errors,
        "atomfs: a terminal shows no page: write it to a file with `> run.html` after the command"
    );
    2
}

/// The status where what is drawn would be written to a terminal, and the message.
fn report_drawing<E: Write>(errors: &mut E, drawing: Drawing) -> u8 {
    match drawing {
        Drawing::Picture(_) => report_picture(errors),
        Drawing::Page => report_page(errors),
    }
}

/// The status where a command would write a file to a terminal, and the message.
pub(crate) fn refused_terminal<E: Write>(command: &Subcommand<'_>, errors: &mut E) -> Option<u8> {
    match command {
        Subcommand::Draw(_, drawing) => Some(report_drawing(errors, *drawing)),
        Subcommand::Linearize(_, _, recorded) => match recorded.drawn {
            Some(drawing) => Some(report_drawing(errors, drawing)),
            None => None,
        },
        _ => None,
    }
}
