//! Layouts of texts for a terminal: the same words, with other spaces between them.

ghost use Rattle.std.specs.Prelude.{◌≡◌, IfOk};
ghost use Rattle.atomfs_colours.specs.Layouts.{has_shares, words_of};

use crate::columns::columns_of;
use crate::spacing::words_of;
use crate::table::table_of;
use std::alloc::{AllocError, Global};

/// How a text is laid out.
#[derive(Clone, Copy, Debug, PartialEq, Eq)]
pub enum Layout {
    /// As it is.
    Plain,
    /// A trace, in columns: events, threads and calls, and what they do.
    Columns,
    /// Ends of runs, in a table, with the share of each in brackets.
    Table,
}

/// Whether a layout adds shares.
fn has_shares(layout: Layout) -> bool
    ensures { result ≡ has_shares layout }
{
    match layout {
        Layout::Plain | Layout::Columns => false,
        Layout::Table => true,
    }
}

/// A text as its layout is to be, before its words are compared.
fn arranged(alloc: Global, text: &[u8], layout: Layout) -> Result<Vec<u8>, AllocError> {
    match layout {
        Layout::Plain => Vec::from_slice(alloc, text),
        Layout::Columns => columns_of(alloc, text),
        Layout::Table => table_of(alloc, text),
    }
}

/// A text with this layout: line by line it has the same words, and besides no more than the shares that the layout adds. The only
/// error is out of memory.
pub fn laid_out(alloc: Global, text: &[u8], layout: Layout) -> Result<Vec<u8>, AllocError>
    ensures words { IfOk result (λ laid. words_of (has_shares layout) laid.items ≡ words_of (has_shares layout) text.now) }
{
    let laid = arranged(alloc, text, layout)?;
    let shares = has_shares(layout);
    // Looked at here, so that no mistake in a layout can lose or change a word.
    if words_of(alloc, &laid, shares)? == words_of(alloc, text, shares)? {
        return Ok(laid);
    }
    Vec::from_slice(alloc, text)
}
