//! What the calls of a script replied in a run.

ghost use Rattle.std.specs.Prelude.{◌≡◌, ◌++◌, ◌∷◌, [], List, IfOk, OnOk, map};
ghost use Rattle.fs_calls.specs.declared.call.Call.{Call};
ghost use Rattle.fs_timeline.specs.declared.entry.Entry.{Entry};
ghost use Rattle.fs_sched_seen.specs.Calls.{reply_at};
ghost use Rattle.fs_sched_seen.specs.code.Heards.{IsHeard};
ghost use Rattle.fs_sched_seen.specs.code.Meetings.{HaveMet, IsOf};

use crate::heard::Heard;
use crate::meetings::Meetings;
use crate::places::Place;
use fs_timeline::Entry;
use std::alloc::{AllocError, Global};

/// What is heard of all entries of a timeline; which calls met in it is noted.
fn heard_of(alloc: Global, entries: &[Entry], meetings: &mut Meetings) -> Result<Heard, AllocError>
    ensures heard { IfOk result (λ heard. IsHeard heard entries.now) }
    ensures met { (timelines : List (List Entry)) → HaveMet meetings.old timelines → OnOk result (HaveMet meetings.new (timelines ++ entries.now ∷ [])) }
    ensures threads { meetings.new.threads ≡ meetings.old.threads }
{
    let mut heard = Heard::new(alloc);
    for at in 0..entries.len() {
        let entry = &entries[at];
        heard.hear(alloc, entry, at)?;
        meetings.note(&heard, entry)?;
    }
    Ok(heard)
}

/// What the calls at these places replied in a run that left this timeline; which of them met is noted beside what earlier runs left. The
/// only error is out of memory.
pub fn replies_of(
    alloc: Global,
    places: &[Place],
    entries: &[Entry],
    meetings: &mut Meetings,
) -> Result<Vec<Vec<u8>>, AllocError>
    ensures replies { IfOk result (λ replies. map (λ reply. reply.items) replies.items ≡ map (reply_at entries.now) places.now) }
    ensures met { (timelines : List (List Entry)) → HaveMet meetings.old timelines → OnOk result (HaveMet meetings.new (timelines ++ entries.now ∷ [])) }
    ensures script { (lists : List (List Call)) → IsOf meetings.old lists → IsOf meetings.new lists }
{
    let heard = heard_of(alloc, entries, meetings)?;
    let mut replies = Vec::new(alloc);
    for place in places {
        replies.push(heard.reply_at(alloc, entries, *place)?)?;
    }
    Ok(replies)
}
