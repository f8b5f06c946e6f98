//! Who committed, in which order, and where a call's commit is.

ghost use Rattle.std.specs.Prelude.{◌≡◌, ◌<◌, Some, length, slice_get};
ghost use Rattle.fs_timeline.specs.Timeline.{commits};
ghost use Rattle.fs_timeline.specs.Index.{place_of};

use crate::engine::Core;
use fs_calls::Call;
use fs_names::CallNo;

impl Core {
    /// How many calls have committed.
    pub fn commits(&self) -> usize
        ensures { result ≡ length (commits self.now.timeline) }
    {
        self.index().commits()
    }

    /// The call that committed after so many others.
    pub fn committed(&self, i: usize) -> &Call
        requires { i < length (commits self.now.timeline) }
        ensures { slice_get (commits self.now.timeline) i ≡ Some result.now }
    {
        self.index().committed(i)
    }

    /// How many commits come before that of the call of this number; none if it has not committed.
    pub fn place_of(&self, call: CallNo) -> Option<usize>
        ensures { result ≡ place_of call self.now.timeline }
    {
        self.index().place_of(call)
    }
}
