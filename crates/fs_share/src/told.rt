//! What is compared before a call is published: its Commit, its Begin and its Return in the timeline.

ghost use Rattle.std.specs.Prelude.{◌≡◌, ◌<◌, Some, IsTrue, IfSome, length, slice_get};
ghost use Rattle.fs_timeline.specs.Timeline.{commits};
ghost use Rattle.fs_timeline.specs.declared.entry.Entry.TheVariants.{Return};
ghost use Rattle.fs_share.specs.Boards.{IsListed};

use fs_calls::{Call, Reply};
use fs_core::Core;
use fs_names::CallNo;
use fs_timeline::Entry;

/// Whether the replies are the same.
fn same_reply(one: &Reply, other: &Reply) -> bool
    ensures { IsTrue result → one.now ≡ other.now }
{
    one.same(other)
}

/// Whether an entry is the Return of this call with this reply.
fn is_return(entry: &Entry, number: CallNo, reply: &Reply) -> bool
    ensures { IsTrue result → entry.now ≡ Return number reply.now }
{
    match entry {
        Entry::Return(call, returned) => *call == number && same_reply(returned, reply),
        _ => false,
    }
}

/// Where the Return of this call with this reply is, if it is there. It is looked for from the end, since it is new.
fn return_place(entries: &[Entry], number: CallNo, reply: &Reply) -> Option<usize>
    ensures { IfSome result (λ at. slice_get entries.now at ≡ Some (Return number reply.now)) }
{
    let mut left = entries.len();
    while left > 0 {
        left -= 1;
        if is_return(&entries[left], number, reply) {
            return Some(left);
        }
    }
    None
}

/// Where a call is among the commits, if the timeline's Commit, Begin and Return of this number are those of this call
/// and reply.
pub(crate) fn told_place(core: &Core, number: CallNo, call: &Call, reply: &Reply) -> Option<usize>
    ensures { IfSome result (λ place. IsListed core.now.start (commits core.now.timeline) place call.now reply.now) }
{
    core.told();
    let place = core.place_of(number)?;
    if place >= core.commits() || !core.committed(place).same(call) {
        return None;
    }
    let _at = return_place(core.timeline(), number, reply)?;
    Some(place)
}
