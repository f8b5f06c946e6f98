//! Ranges of bytes, piece by piece.

ghost use Rattle.std.specs.Prelude.{◌≡◌, ◌-◌, ℕ, take, drop, replicate};

use fs_calls::ranges::part;

/// How many bytes have still to be passed over, and how many to be taken after them.
#[derive(Clone, Copy, Debug)]
pub(crate) struct Cut {
    pub skip: usize,
    pub count: usize,
}

impl Cut {
    /// How many of so many zeros are taken.
    pub fn zeros(&self, hole: usize) -> usize
        ensures { replicate {A = ℕ} result 0 ≡ take self.now.count (drop self.now.skip (replicate hole 0)) }
    {
        hole.saturating_sub(self.skip).min(self.count)
    }

    /// Which of these bytes are taken.
    pub fn bytes<'a>(&self, bytes: &'a [u8]) -> &'a [u8]
        ensures { result.now ≡ take self.now.count (drop self.now.skip bytes.now) }
    {
        part(bytes, self.skip as u64, self.count as u64)
    }

    /// What is left of it after so many bytes.
    pub fn after(&self, len: usize) -> Cut
        ensures skip { result.skip ≡ self.now.skip - len }
        ensures count { result.count ≡ self.now.count - (len - self.now.skip) }
    {
        Cut {
            skip: self.skip.saturating_sub(len),
            count: self.count.saturating_sub(len.saturating_sub(self.skip)),
        }
    }
}
