//! What a moment did, and where the moments go that are shown.

ghost use Rattle.std.specs.Prelude.{◌≡◌, ◌∷◌, [], List, OnOk};
ghost use Rattle.fs_trace_story.specs.Shown.{deed_shown, Adds, Saying};

use fs_names::CallNo;
use fs_nodes::NodeNo;
use std::alloc::AllocError;

/// What a moment of a run did.
#[derive(Clone, Copy, Debug, PartialEq, Eq)]
pub enum Deed {
    /// Nothing: the thread has nothing to do any more.
    Idles,
    /// The call begins.
    Begins,
    /// The call takes this node.
    Takes(NodeNo),
    /// The call waits for this node, which the other call holds.
    Waits(NodeNo, CallNo),
    /// The call lets this node go.
    LetsGo(NodeNo),
    /// The call gives the other one its place.
    Helps(CallNo),
    /// The call takes its place, and makes its change.
    Commits,
    /// The call makes its change, whose place another one gave it.
    CarriesOut,
    /// The call returns.
    Returns,
    /// The journal begins again, and so do the numbers of calls.
    Checkpoint,
}

/// A moment that is shown.
#[derive(Clone, Copy, Debug)]
pub struct Line {
    /// The number of the event in the run, counted from 1; for a checkpoint, that of the event after it.
    pub number: usize,
    /// The seat of its thread; none of a checkpoint.
    pub seat: Option<usize>,
    /// The number of its call; 0 where there is none.
    pub call: u64,
    /// What it did.
    pub deed: Deed,
    /// Where the path of its node is in its words; of no bytes if it has no node.
    pub path: Part,
    /// Where all else is in its words.
    pub parts: Parts,
}

/// Where the words of a line have what it says. A part is of no bytes where the line does not say it.
#[derive(Clone, Copy, Debug, PartialEq, Eq)]
pub struct Parts {
    /// The call: its thread, and its place among the calls of that.
    pub who: Part,
    /// The call in words where it begins, and its reply where it returns.
    pub text: Part,
    /// The call that holds the node or is helped.
    pub other: Part,
    /// The word of what changes.
    pub change: Part,
    /// The path of the node, or the first path of what changes; of a node that the call has removed none.
    pub path: Part,
    /// The word before a second path.
    pub joint: Part,
    /// The second path of what changes, or the path under which the node was locked where that is another one.
    pub second: Part,
    /// The error of what fails.
    pub error: Part,
}

impl Parts {
    /// A line that says nothing.
    pub(crate) fn none() -> Parts {
        Parts {
            who: Part::none(),
            text: Part::none(),
            other: Part::none(),
            change: Part::none(),
            path: Part::none(),
            joint: Part::none(),
            second: Part::none(),
            error: Part::none(),
        }
    }
}

/// A part of the words of a line: where it begins, and where it ends.
#[derive(Clone, Copy, Debug, PartialEq, Eq)]
pub struct Part {
    pub from: usize,
    pub end: usize,
}

impl Part {
    /// No words.
    pub fn none() -> Part
        ensures { result ≡ record { from = 0; end = 0 } }
    {
        Part { from: 0, end: 0 }
    }
}

/// Where the moments go that are shown, one after the other, each as soon as it comes: a page keeps of each what it
/// needs.
pub trait Page: Drop {
    /// What it has become by what is said of moments, and by what it was first.
    ghost Has: { Self → Self → List Saying → Type 0 };

    /// A moment is shown, in these words. An error ends the run, as running out of memory does.
    fn show(&mut self, line: Line, words: &[u8]) -> Result<(), AllocError>
        ensures shown { OnOk result (Adds Has self.old (deed_shown line ∷ []) self.new) };
}
