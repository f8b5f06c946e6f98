//! Bytes that are written, and what blocks share of them.

ghost use Rattle.std.specs.Prelude.{◌≡◌, ◌≢◌, ◌≤◌, ◌+◌, ◌==◌, ℕ, List, length, take, drop, slice_range, IfSome, IfOk, IfErr, OnOk, OnErr};
ghost use Rattle.std.specs.Arc.{arc_value};
ghost use Rattle.std.specs.Option.{ForSome};
ghost use Rattle.fs_blocks.specs.code.Ranges.{IsRange, IsShared};

use fs_memory::Memory;
use std::alloc::AllocError;
use std::marker::Model;
use std::sync::Arc;

/// What is shared of a vector is no less than this part of its bytes, a sixteenth: so a block keeps no more than sixteen times
/// its own bytes alive.
pub const SHARE: usize = 16;

/// A range of the bytes of a vector that others share, and that is never changed, seen as the list of its bytes.
#[derive(Drop)]
pub struct Shared {
    whole: Arc<Vec<u8>>,
    start: usize,
    end: usize,
}

impl Model for Shared {
    ghost Value = { List ℕ };

    ghost view = { λ s. slice_range (arc_value s.whole).items s.start s.end };

    ghost invariant = { λ s. IsShared (arc_value s.whole).items s.start s.end };
}

/// Bytes that are written, seen as their list: a range of a slice, which blocks may share if that is a vector with an owner.
#[derive(Drop)]
pub struct Piece<'a> {
    whole: &'a [u8],
    owner: Option<&'a Arc<Vec<u8>>>,
    start: usize,
    end: usize,
}

impl<'a> Model for Piece<'a> {
    ghost Value = { List ℕ };

    ghost view = { λ p. slice_range p.whole.now p.start p.end };

    ghost invariant = { λ p. IsRange p.whole.now p.start p.end × ForSome p.owner (λ owner. (arc_value owner.now).items ≡ p.whole.now) };
}

impl Shared {
    /// All bytes of a vector.
    pub fn all(whole: Arc<Vec<u8>>) -> Shared
        ensures { result ≡ (arc_value whole).items }
    {
        let (start, end) = (0, whole.len());
        Shared { whole, start, end }
    }

    /// The bytes, in order.
    pub fn as_slice(&self) -> &[u8]
        ensures { result.now ≡ self.now }
    {
        &self.whole.as_slice()[self.start..self.end]
    }

    /// The vector, where these are all its bytes and it has no other owner.
    pub fn into_vec(self) -> Result<Vec<u8>, Shared>
        ensures ok { IfOk result (λ own. own.items ≡ self) }
        ensures err { IfErr result (λ shared. shared ≡ self) }
    {
        let Shared { whole, start, end } = self;
        if end - start < whole.len() {
            return Err(Shared { whole, start, end });
        }
        match Arc::try_unwrap(whole) {
            Ok(own) => Ok(own),
            Err(whole) => Err(Shared { whole, start, end }),
        }
    }

    /// The same bytes again, with one owner more.
    pub fn copy(&self, memory: &mut Memory) -> Result<Shared, AllocError>
        ensures ok { IfOk result (λ shared. shared ≡ self.now) }
        ensures granted { OnOk result (memory.new ≡ memory.old) }
        ensures refused { OnErr result (memory.new ≢ memory.old) }
    {
        let whole = memory.share(&self.whole)?;
        let (start, end) = (self.start, self.end);
        Ok(Shared { whole, start, end })
    }
}

impl<'a> Piece<'a> {
    /// Bytes that blocks copy.
    pub fn plain(whole: &'a [u8]) -> Piece<'a>
        ensures { result ≡ whole.now }
    {
        Piece {
            whole,
            owner: None,
            start: 0,
            end: whole.len(),
        }
    }

    /// Bytes that blocks may share.
    pub fn owned(bytes: &'a Arc<Vec<u8>>) -> Piece<'a>
        ensures { result ≡ (arc_value bytes.now).items }
    {
        let whole = bytes.as_slice();
        Piece {
            whole,
            owner: Some(bytes),
            start: 0,
            end: whole.len(),
        }
    }

    /// How many bytes there are.
    pub fn len(&self) -> usize
        ensures { result ≡ length self.now }
    {
        self.end - self.start
    }

    /// Whether there are none.
    pub fn is_empty(&self) -> bool
        ensures { result ≡ (length self.now == 0) }
    {
        self.start == self.end
    }

    /// The bytes, in order.
    pub fn as_slice(&self) -> &'a [u8]
        ensures { result.now ≡ self.now }
    {
        &self.whole[self.start..self.end]
    }

    /// The first bytes, so many, and the rest.
    pub fn split_at(&self, count: usize) -> (Piece<'a>, Piece<'a>)
        requires { count ≤ length self.now }
        ensures front { result.0 ≡ take count self.now }
        ensures back { result.1 ≡ drop count self.now }
        ensures front_len { length result.0 ≡ count }
        ensures back_len { length result.1 + count ≡ length self.now }
    {
        let middle = self.start + count;
        let front = Piece {
            end: middle,
            ..*self
        };
        let back = Piece {
            start: middle,
            ..*self
        };
        (front, back)
    }

    /// The bytes with an owner more, or `None` where no block may share them (see `SHARE`). It takes no memory.
    pub fn shared(&self) -> Option<Shared>
        ensures { IfSome result (λ shared. shared ≡ self.now) }
    {
        let owner = self.owner?;
        if self.len().saturating_mul(SHARE) < owner.len() {
            return None;
        }
        let whole = Arc::try_clone(owner).ok()?;
        let (start, end) = (self.start, self.end);
        Some(Shared { whole, start, end })
    }
}
