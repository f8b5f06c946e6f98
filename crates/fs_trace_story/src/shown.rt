//! Which events of a run are shown.

ghost use Rattle.std.specs.Prelude.{◌≡◌, ◌<◌, ◌∷◌, [], ℕ, List, None, IfOk, OnOk, get_or, length};
ghost use Rattle.fs_trace_story.specs.Shown.{is_news, is_wait_for, last_wait, wait_of};
ghost use Rattle.fs_trace_story.specs.code.Waiting.{AreWaits};
ghost use Rattle.fs_sched_witness.specs.declared.moments.Told.{Told};

use fs_core::Stepped;
use fs_names::CallNo;
use fs_nodes::NodeNo;
use fs_sched_witness::{Answer, Told};
use std::alloc::{AllocError, Global};

/// What the last event of each thread waited for, if it waited: the node, and the call that holds it. A thread of which
/// no event came yet has no place, or an empty one.
#[derive(Drop)]
pub(crate) struct Waits {
    last: Vec<Option<(NodeNo, CallNo)>>,
}

/// What an answer says to be waited for.
fn wait_of(answer: &Answer) -> Option<(NodeNo, CallNo)>
    ensures { result ≡ wait_of answer.now }
{
    match answer {
        Answer::Stepped(Stepped::Busy(node, holder)) => Some((*node, *holder)),
        _ => None,
    }
}

/// Whether a wait is for this node, which this call holds.
fn is_wait_for(node: NodeNo, holder: CallNo, wait: Option<(NodeNo, CallNo)>) -> bool
    ensures { result ≡ is_wait_for node holder wait }
{
    match wait {
        Some((other, held_by)) => other == node && held_by == holder,
        None => false,
    }
}

/// Whether an event is news, whose thread waited last for this.
fn tells_news(last: Option<(NodeNo, CallNo)>, answer: &Answer) -> bool
    ensures { result ≡ is_news last answer.now }
{
    match answer {
        Answer::Spent => false,
        Answer::Stepped(Stepped::Busy(node, holder)) => !is_wait_for(*node, *holder, last),
        _ => true,
    }
}

impl Waits {
    /// Before the first event. It takes no memory.
    pub(crate) fn new(alloc: Global) -> Waits
        ensures { AreWaits result [] }
    {
        Waits {
            last: Vec::new(alloc),
        }
    }

    /// Makes a place for a thread, where it has none.
    fn make_place(&mut self, seat: usize) -> Result<(), AllocError>
        ensures place { OnOk result (seat < length self.new.last.items) }
        ensures same { OnOk result ((other : ℕ) → get_or self.new.last.items other None ≡ get_or self.old.last.items other None) }
    {
        'places: while self.last.len() <= seat {
            self.last.push(None)?;
        }
        Ok(())
    }

    /// Whether the next event is news: it is no idle turn, and no repetition of its thread's last wait.
    pub(crate) fn is_news(&mut self, told: &Told) -> Result<bool, AllocError>
        ensures news { (before : List Told) → AreWaits self.old before → IfOk result (λ news. news ≡ is_news (last_wait before told.now.seat) told.now.answer) }
        ensures waits { (before : List Told) → AreWaits self.old before → OnOk result (AreWaits self.new (told.now ∷ before)) }
    {
        self.make_place(told.seat)?;
        let news = tells_news(self.last[told.seat], &told.answer);
        self.last[told.seat] = wait_of(&told.answer);
        Ok(news)
    }
}
