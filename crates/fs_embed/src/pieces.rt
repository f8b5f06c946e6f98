//! A journal in pieces: what comes before the entries of one, and the whole of it.

ghost use Rattle.std.specs.Prelude.{◌≡◌, IfOk};
ghost use Rattle.fs_script.specs.Journals.{opening, journal_text};

use crate::texts::push_lines;
use fs_core::Core;
use fs_script::write_opening;
use fs_seq::SeqTree;
use std::alloc::{AllocError, Global};

/// What comes before the entries of a journal that starts at a tree. The only error is out of memory.
pub fn opening_text(alloc: Global, start: &SeqTree) -> Result<Vec<u8>, AllocError>
    ensures { IfOk result (λ text. text.items ≡ opening start.now) }
{
    let mut text = Vec::new(alloc);
    write_opening(alloc, start, &mut text)?;
    Ok(text)
}

/// The whole journal of a core, from its start tree. The only error is out of memory.
pub fn whole_journal(alloc: Global, core: &Core) -> Result<Vec<u8>, AllocError>
    ensures { IfOk result (λ text. text.items ≡ journal_text core.now.start core.now.timeline) }
{
    let mut text = opening_text(alloc, core.start())?;
    push_lines(alloc, core.timeline(), &mut text)?;
    Ok(text)
}
