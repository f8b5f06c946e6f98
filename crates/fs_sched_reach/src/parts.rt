//! Parts of a text between two bytes of one kind, and texts that are put together of them.

ghost use Rattle.std.specs.Prelude.{◌≡◌, ◌++◌, ◌==◌, ◌∷◌, [], List, ℕ, length, map, IfOk, OnOk};
ghost use Rattle.std.specs.List.{join_with_byte, slice_split};
ghost use Rattle.fs_sched_reach.specs.code.Joined.{closed};

use std::alloc::{AllocError, Global};

/// The parts of a text between two such bytes.
pub(crate) fn parts_at(alloc: Global, byte: u8, text: &[u8]) -> Result<Vec<&[u8]>, AllocError>
    ensures { IfOk result (λ parts. map (λ part. part.now) parts.items ≡ slice_split (λ b. b == byte) text.now) }
{
    text.split(|b| *b == byte).collect(alloc)
}

/// Adds a part, and a byte after it.
pub(crate) fn push_part(part: &[u8], byte: u8, text: &mut Vec<u8>) -> Result<(), AllocError>
    ensures { OnOk result (text.new.items ≡ text.old.items ++ (part.now ++ byte ∷ [])) }
{
    text.extend_from_slice(part)?;
    text.push(byte)?;
    Ok(())
}

/// Takes the last byte away, if there is one from a place on: the byte after the last part.
pub(crate) fn pop_from(start: usize, text: &mut Vec<u8>)
    ensures { (front : List ℕ) (byte : ℕ) (parts : List (List ℕ)) → length front ≡ start → text.old.items ≡ front ++ closed byte parts
        → text.new.items ≡ front ++ join_with_byte byte parts }
{
    if text.len() <= start {
        return;
    }
    text.pop();
}
