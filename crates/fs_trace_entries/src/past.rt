//! What the entries so far of a journal say of those that come.

ghost use Rattle.std.specs.Prelude.{◌≡◌, IfOk, decimal};
ghost use Rattle.std.specs.List.{join_with_byte};
ghost use Rattle.fs_text.specs.Calls.{call_words};
ghost use Rattle.fs_text.specs.Journal.{reply_words};

use crate::effect::{Effect, effect_of};
use fs_calls::{Call, Reply};
use fs_names::{CallNo, SeatNo};
use fs_seq::SeqTree;
use fs_text::{Addition, write_call, write_reply};
use fs_timeline::Entry;
use std::alloc::{AllocError, Global};
use std::collections::BTreeMap;

/// A number in words.
pub(crate) fn number_text(alloc: Global, number: u64) -> Result<Vec<u8>, AllocError>
    ensures { IfOk result (λ text. text.items ≡ decimal number) }
{
    let mut text = Addition::new(Vec::new(alloc));
    text.push_number(number)?;
    Ok(text.kept())
}

/// A call in words.
pub(crate) fn call_text(alloc: Global, call: &Call) -> Result<Vec<u8>, AllocError>
    ensures { IfOk result (λ text. text.items ≡ join_with_byte 32 (call_words call.now)) }
{
    let mut text = Vec::new(alloc);
    write_call(alloc, call, &mut text)?;
    Ok(text)
}

/// A reply in words.
pub(crate) fn reply_text(alloc: Global, reply: &Reply) -> Result<Vec<u8>, AllocError>
    ensures { IfOk result (λ text. text.items ≡ join_with_byte 32 (reply_words reply.now)) }
{
    let mut text = Vec::new(alloc);
    write_reply(alloc, reply, &mut text)?;
    Ok(text)
}

/// Where the calls of a journal begin, by their numbers, and the tree that the commits so far made.
#[derive(Drop)]
pub(crate) struct Past {
    alloc: Global,
    begun: BTreeMap<u64, usize>,
    tree: SeqTree,
}

impl Past {
    /// Before the first entry of a journal with this start tree.
    pub(crate) fn new(alloc: Global, start: SeqTree) -> Past {
        Past {
            alloc,
            begun: BTreeMap::new(alloc),
            tree: start,
        }
    }

    /// A call begins after so many entries.
    pub(crate) fn begin(&mut self, number: CallNo, at: usize) -> Result<(), AllocError> {
        self.begun.insert(number.get(), at)?;
        Ok(())
    }

    /// The begin of a call, among the entries; none where it has not begun.
    fn begin_of<'a>(&self, entries: &'a [Entry], number: CallNo) -> Option<&'a Entry> {
        match self.begun.get(&number.get()) {
            Some(at) => entries.get(*at),
            None => None,
        }
    }

    /// The seat of a call; none where it has not begun.
    pub(crate) fn seat_of(&self, entries: &[Entry], number: CallNo) -> Option<SeatNo> {
        match self.begin_of(entries, number) {
            Some(Entry::Begin(_, seat, _)) => Some(*seat),
            _ => None,
        }
    }

    /// What the commit of a call changes, which is done; nothing where it has not begun.
    pub(crate) fn commit(
        &mut self,
        entries: &[Entry],
        number: CallNo,
    ) -> Result<Effect, AllocError> {
        match self.begin_of(entries, number) {
            Some(Entry::Begin(_, _, call)) => effect_of(self.alloc, &mut self.tree, call),
            _ => Ok(Effect::of_word(self.alloc, b"")),
        }
    }
}
