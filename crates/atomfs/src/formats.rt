//! In words, or as objects of JSON.

ghost use Rattle.std.specs.Prelude.{◌-◌, ◌<◌, ◌^◌};

use atomfs_arguments::Format;
use fs_sched::{Sink, Source};
use fs_verdict::{As, Command, Form, perform};
use std::alloc::Global;

/// Performs a command, and writes what it makes in words, or as objects in this form.
pub(crate) fn perform_in<Listener, C: Command<Listener>, F: Form<C::End>, R: Source, W: Sink>(
    alloc: Global,
    reader: &mut R,
    writer: &mut W,
    command: C,
    format: Format,
    form: F,
    listener: &mut Listener,
) -> Result<C::End, C::Fault>
    requires reads { R.failures reader.old < 2 ^ 64 - 1 }
    requires writes { W.failures writer.old < 2 ^ 64 - 1 }
    requires asks { C.Asks command }
{
    match format {
        Format::Text => perform(alloc, reader, writer, command, listener),
        Format::Json => perform(alloc, reader, writer, As { command, form }, listener),
    }
}
