//! The end of a run: what each call replied, and the tree.

ghost use Rattle.std.specs.Prelude.{◌≡◌, ◌++◌, ◌∷◌, [], List, IfOk, OnOk};
ghost use Rattle.fs_calls.specs.declared.call.Call.{Call};
ghost use Rattle.fs_timeline.specs.declared.entry.Entry.{Entry};
ghost use Rattle.fs_core.specs.CoreValues.{state_of};
ghost use Rattle.fs_sched_seen.specs.code.Meetings.{HaveMet, IsOf};
ghost use Rattle.fs_sched_outcomes.specs.Ends.{end_text, IsEndOf};

use fs_core::Core;
use fs_sched_seen::{Meetings, Place, replies_of};
use fs_script::write_tree;
use std::alloc::{AllocError, Global};
use std::marker::Model;

/// How a run ended: what each call of the script replied, in the order of the blocks, and the text of the tree.
#[derive(Drop)]
pub struct End {
    pub(crate) replies: Vec<Vec<u8>>,
    pub(crate) tree: Vec<u8>,
}

impl Model for End {
    ghost use Rattle.std.specs.Prelude.{map};
    ghost use Rattle.fs_sched_outcomes.specs.Ends.{EndValue};

    ghost Value = { EndValue };

    ghost view = { λ e. record { replies = map (λ reply. reply.items) e.replies.items; tree = e.tree.items } };
}

impl End {
    /// The whole end as one text: a line for each reply, and the tree.
    pub(crate) fn text(&self, alloc: Global) -> Result<Vec<u8>, AllocError>
        ensures { IfOk result (λ text. text.items ≡ end_text self.now) }
    {
        let mut text = Vec::new(alloc);
        for reply in &self.replies {
            text.extend_from_slice(reply)?;
            text.push(b'\n')?;
        }
        text.extend_from_slice(&self.tree)?;
        Ok(text)
    }
}

/// The end of a run that left a core so; which calls met in it is noted.
pub(crate) fn end_of(
    alloc: Global,
    places: &[Place],
    core: &Core,
    meetings: &mut Meetings,
) -> Result<End, AllocError>
    ensures end { IfOk result (IsEndOf places.now (state_of core.now)) }
    ensures met { (timelines : List (List Entry)) → HaveMet meetings.old timelines → OnOk result (HaveMet meetings.new (timelines ++ (state_of core.now).timeline ∷ [])) }
    ensures script { (lists : List (List Call)) → IsOf meetings.old lists → IsOf meetings.new lists }
{
    let replies = replies_of(alloc, places, core.timeline(), meetings)?;
    let mut tree = Vec::new(alloc);
    write_tree(alloc, core.store(), &mut tree)?;
    Ok(End { replies, tree })
}
