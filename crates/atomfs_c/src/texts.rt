//! The exports that write texts of a core: the journal and the tree.

ghost use Rattle.std.specs.Prelude.{◌≡◌, ◌<◌, ℕ, List, IsSomeAnd, IfOk, length};
ghost use Rattle.fs_nodes.specs.Stores.{graph_of};
ghost use Rattle.fs_embed.specs.Texts.{lines_from, IsTreeText};
ghost use Rattle.fs_embed.specs.Statuses.{IsOfText};
ghost use Rattle.atomfs_c.specs.Exports.{ToldIfClosed, Tells};

use crate::handles::{Handle, put, take};
use fs_core::Core;
use fs_embed::status::{CLOSED, NO_MEMORY, UNTOLD};
use fs_embed::told::tell;
use fs_embed::{journal_text, tree_text};
use std::alloc::{AllocError, Global};

/// Writes the journal's lines of the entries from one on, counted from 0, and how many entries there are. The header line
/// is not among them.
#[unsafe(no_mangle)]
pub extern "C" fn atomfs_journal(
    alloc: Global,
    handle: &mut Handle,
    first: usize,
    out: &mut [u8],
    count: &mut usize,
    entries: &mut usize,
) -> u8
    ensures only { IsOfText result }
    ensures lines { result < UNTOLD → IsSomeAnd handle.old.held.core (λ core. Tells result (lines_from first core.timeline) count.new out.old out.new × (entries.new ≡ length core.timeline)) }
    ensures same { handle.new.held.core ≡ handle.old.held.core }
    ensures closed { ToldIfClosed result handle.old.held.core handle.new.held.core }
    ensures keeps { handle.new.most ≡ handle.old.most }
{
    let Some(core) = take(alloc, handle) else {
        return CLOSED;
    };
    *entries = core.timeline().len();
    let text = journal_text(alloc, core.timeline(), first);
    put(handle, core);
    match text {
        Ok(text) => tell(text.as_slice(), out, count),
        Err(_) => NO_MEMORY,
    }
}

/// The text of the tree of a core.
fn text_of_tree(alloc: Global, core: &Core) -> Result<Vec<u8>, AllocError>
    ensures { IfOk result (λ text. IsTreeText (graph_of core.now.store) text.items) }
{
    tree_text(alloc, core.store())
}

/// Writes the text of the tree that the nodes spell.
#[unsafe(no_mangle)]
pub extern "C" fn atomfs_tree(
    alloc: Global,
    handle: &mut Handle,
    out: &mut [u8],
    count: &mut usize,
) -> u8
    ensures only { IsOfText result }
    ensures tree { result < UNTOLD → IsSomeAnd handle.old.held.core (λ core. (text : List ℕ) × IsTreeText (graph_of core.store) text × Tells result text count.new out.old out.new) }
    ensures same { handle.new.held.core ≡ handle.old.held.core }
    ensures closed { ToldIfClosed result handle.old.held.core handle.new.held.core }
    ensures keeps { handle.new.most ≡ handle.old.most }
{
    let Some(core) = take(alloc, handle) else {
        return CLOSED;
    };
    let text = text_of_tree(alloc, &core);
    put(handle, core);
    match text {
        Ok(text) => tell(text.as_slice(), out, count),
        Err(_) => NO_MEMORY,
    }
}
