//! The text of a script, with a count of events for each word of its schedule that names a call.

ghost use Rattle.std.specs.Prelude.{◌≡◌, ◌-◌, ◌<◌, ◌^◌, OnOk};

use atomfs_answers::Kept;
use fs_sched::{Policy, RunFault, Sink, Source};
use fs_sched_reach::{has_words, plain_text, written_out};
use fs_sched_start::{StartFault, TreeText, planned_in};
use fs_verdict::{Command, perform};
use std::alloc::{AllocError, Global};

/// The text of the tree at which runs begin: a copy of that in a file, if there is one.
fn tree_text(alloc: Global, tree: Option<&[u8]>) -> Result<TreeText, AllocError> {
    match tree {
        Some(text) => Ok(TreeText::of(Vec::from_slice(alloc, text)?)),
        None => Ok(TreeText::none()),
    }
}

/// A text with counts for its words that name calls. If the rest of the text has a fault, or the tree has, that is to be reported: so
/// it is the text without these calls.
fn with_counts(alloc: Global, tree: Option<&[u8]>, text: &[u8]) -> Result<Vec<u8>, AllocError> {
    let plain = plain_text(alloc, text)?;
    let tree = tree_text(alloc, tree)?;
    match planned_in(alloc, tree, Policy::Uniform, plain.as_slice()) {
        Ok(planned) => written_out(alloc, &planned.campaign.from, planned.script.limits, text),
        Err(StartFault::Run(RunFault::OutOfMemory)) => Err(AllocError),
        Err(_) => Ok(plain),
    }
}

/// The text with counts of what is read ahead, if that is all of it and a word names a call.
fn counted<R: Source>(
    alloc: Global,
    tree: Option<&[u8]>,
    reader: &mut Kept<R>,
) -> Result<Option<Vec<u8>>, RunFault>
    requires { R.failures reader.old.inner < 2 ^ 64 - 1 }
    ensures { OnOk result (R.failures reader.new.inner ≡ R.failures reader.old.inner) }
{
    match reader.read_ahead() {
        Ok(true) => {}
        Ok(false) => return Ok(None),
        Err(_) => return Err(RunFault::Read),
    }
    let text = reader.seen.text.as_slice();
    if !has_words(text) {
        return Ok(None);
    }
    match with_counts(alloc, tree, text) {
        Ok(text) => Ok(Some(text)),
        Err(_) => Err(RunFault::OutOfMemory),
    }
}

/// Lets a source give a script with counts in the place of its words that name calls, if the script is no longer than what is read
/// ahead. A journal has no such words.
pub(crate) fn count_words<R: Source>(
    alloc: Global,
    tree: Option<&[u8]>,
    reader: &mut Kept<R>,
) -> Result<(), RunFault>
    requires { R.failures reader.old.inner < 2 ^ 64 - 1 }
    ensures { OnOk result (R.failures reader.new.inner ≡ R.failures reader.old.inner) }
{
    match counted(alloc, tree, reader) {
        Ok(Some(text)) => {
            reader.give_instead(text);
            Ok(())
        }
        Ok(None) => Ok(()),
        Err(fault) => Err(fault),
    }
}

/// Performs a command on a script, which has counts in the place of its words that name calls, or on a journal.
pub(crate) fn perform_on_script<C: Command<()>, R: Source, W: Sink>(
    alloc: Global,
    reader: &mut Kept<R>,
    writer: &mut W,
    command: C,
) -> Result<C::End, C::Fault>
    requires reads { R.failures reader.old.inner < 2 ^ 64 - 1 }
    requires writes { W.failures writer.old < 2 ^ 64 - 1 }
    requires asks { C.Asks command }
{
    if let Err(fault) = count_words(alloc, None, reader) {
        return Err(C::Fault::from(fault));
    }
    perform(alloc, reader, writer, command, &mut ())
}
