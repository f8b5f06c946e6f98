//! Texts of a core, and the bytes that they are copied to.

ghost use Rattle.std.specs.Prelude.{◌≡◌, ◌≢◌, ◌<◌, ◌++◌, length, IfOk, OnOk, MatchOption, MatchBool};
ghost use Rattle.fs_nodes.specs.Stores.{graph_of};
ghost use Rattle.fs_embed.specs.Texts.{reply_text, lines_from, IsReply, HasNoReply, IsTreeText, IsCopied};
ghost use Rattle.fs_calls.specs.declared.reply.Reply.{Reply};
ghost use Rattle.fs_timeline.specs.declared.entry.Entry.TheVariants.{Return};

use fs_calls::Reply;
use fs_names::CallNo;
use fs_nodes::Store;
use fs_script::write_tree;
use fs_text::{write_entry, write_reply};
use fs_timeline::Entry;
use std::alloc::{AllocError, Global};

/// The text of a reply. The only error is out of memory.
pub fn reply_text(alloc: Global, reply: &Reply) -> Result<Vec<u8>, AllocError>
    ensures { IfOk result (λ text. text.items ≡ reply_text reply.now) }
{
    let mut text = Vec::new(alloc);
    write_reply(alloc, reply, &mut text)?;
    Ok(text)
}

/// The reply of an entry, where it is the return of this call.
fn reply_in(entry: &Entry, number: CallNo) -> Option<&Reply>
    ensures { MatchOption result ((reply : Reply) → entry.now ≢ Return number reply) (λ reply. entry.now ≡ Return number reply.now) }
{
    match entry {
        Entry::Return(call, reply) if *call == number => Some(reply),
        _ => None,
    }
}

/// The reply of a call that has returned, looked for from the last entry back.
pub fn find_reply(entries: &[Entry], number: CallNo) -> Option<&Reply>
    ensures { MatchOption result (HasNoReply entries.now number) (λ reply. IsReply entries.now number reply.now) }
{
    let mut at = entries.len();
    while at > 0 {
        at -= 1;
        if let Some(reply) = reply_in(&entries[at], number) {
            return Some(reply);
        }
    }
    None
}

/// Appends a line for each entry. The only error is out of memory.
pub(crate) fn push_lines(
    alloc: Global,
    entries: &[Entry],
    text: &mut Vec<u8>,
) -> Result<(), AllocError>
    ensures { OnOk result (text.new.items ≡ text.old.items ++ lines_from 0 entries.now) }
{
    for entry in entries {
        write_entry(alloc, entry, text)?;
    }
    Ok(())
}

/// The journal's lines of the entries from one on, which are counted from 0. The header line is not among them. The only
/// error is out of memory.
pub fn journal_text(alloc: Global, entries: &[Entry], first: usize) -> Result<Vec<u8>, AllocError>
    ensures { IfOk result (λ text. text.items ≡ lines_from first entries.now) }
{
    let mut text = Vec::new(alloc);
    if let Some(later) = entries.get(first..) {
        push_lines(alloc, later, &mut text)?;
    }
    Ok(text)
}

/// The text of the tree that the nodes spell. The only error is out of memory.
pub fn tree_text(alloc: Global, store: &Store) -> Result<Vec<u8>, AllocError>
    ensures { IfOk result (λ text. IsTreeText (graph_of store.now) text.items) }
{
    let mut text = Vec::new(alloc);
    write_tree(alloc, store, &mut text)?;
    Ok(text)
}

/// Copies a text to the front of a caller's bytes, and answers whether there was room for the whole of it. Where there
/// is not, the bytes are as before.
pub fn copy_out(text: &[u8], out: &mut [u8]) -> bool
    ensures { MatchBool result (IsCopied text.now out.old out.new) ((length out.old < length text.now) × (out.new ≡ out.old)) }
{
    if out.len() < text.len() {
        return false;
    }
    out[..text.len()].copy_from_slice(text);
    true
}
