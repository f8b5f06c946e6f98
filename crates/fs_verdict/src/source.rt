//! A whole text that is read from a source.

ghost use Rattle.std.specs.Prelude.{◌≡◌, ◌≢◌, ◌+◌, ◌-◌, ◌<◌, ◌≤◌, ◌^◌, ◌++◌, ℕ, List, length, IfOk, OnOk, IfErr, IfSome, IsErrOf, vec_len, false};
ghost use Rattle.std.specs.Io.KnownBytes.{Consumes, IsAtEnd};
ghost use Rattle.fs_words.specs.Headers.{is_too_long};
ghost use Rattle.fs_verdict.specs.Devices.{IsSameText, FailsToRead};

use crate::device::Source;
use crate::failure::Failure;
use fs_words::TEXT_LIMIT;
use fs_words::headers::limit_of_text;
use std::alloc::Global;

/// The most bytes that one read asks for.
const PIECE: usize = 8_192;

/// One byte more than a text has at most whose first line allows no more. So many are read before the first line is looked at.
const FIRST: usize = TEXT_LIMIT + 1;

/// Adds what one read gives, at most `room` bytes, by way of a buffer, and answers how many.
fn read_piece<R: Source, E: Drop>(
    reader: &mut R,
    room: usize,
    buffer: &mut [u8; PIECE],
    text: &mut Vec<u8>,
) -> Result<usize, Failure<E>>
    requires few { R.failures reader.old < 2 ^ 64 - 1 }
    requires some { 0 < room }
    ensures within { IfOk result (λ n. (n ≤ room) × (vec_len text.new ≡ vec_len text.old + n)) }
    ensures ok { IfOk result (λ n. (bytes : List ℕ) × Consumes (R.remaining reader.old) (R.remaining reader.new) bytes × (text.new.items ≡ text.old.items ++ bytes)) }
    ensures end { IfOk result (λ n. n ≡ 0 → IsAtEnd (R.remaining reader.new)) }
    ensures quiet { OnOk result (R.failures reader.new ≡ R.failures reader.old) }
    ensures fault { IfErr result (FailsToRead (R.failures reader.old) (R.failures reader.new)) }
{
    let piece = &mut buffer[..room.min(PIECE)];
    let Ok(count) = reader.read(piece) else {
        return Err(Failure::Read);
    };
    match text.extend_from_slice(&piece[..count]) {
        Ok(()) => Ok(count),
        Err(_) => Err(Failure::OutOfMemory),
    }
}

/// Reads to the end, or to one byte more than the first line of the text allows.
#[tactic(auto, using(fs_words::proofs::HeaderLemmas::most_of_text))]
fn read_all<R: Source, E: Drop>(alloc: Global, reader: &mut R) -> Result<Vec<u8>, Failure<E>>
    requires { R.failures reader.old < 2 ^ 64 - 1 }
    ensures ok { IfOk result (λ v. Consumes (R.remaining reader.old) (R.remaining reader.new) v.items) }
    ensures end { IfOk result (λ v. is_too_long v.items ≡ false → IsAtEnd (R.remaining reader.new)) }
    ensures fault { IfErr result (FailsToRead (R.failures reader.old) (R.failures reader.new)) }
{
    let mut text = Vec::new(alloc);
    let mut buffer = [0u8; PIECE];
    let mut most = FIRST;
    'pieces: while text.len() < most {
        let count = match read_piece(reader, most - text.len(), &mut buffer, &mut text) {
            Ok(count) => count,
            Err(fault) => return Err(fault),
        };
        if count == 0 {
            return Ok(text);
        }
        if text.len() == most {
            most = most.max(limit_of_text(&text) + 1);
        }
    }
    Ok(text)
}

/// Reads a text to its end; if it is too long, as much as shows this.
pub(crate) fn read_text<R: Source, E: Drop>(
    alloc: Global,
    reader: &mut R,
) -> Result<Vec<u8>, Failure<E>>
    requires { R.failures reader.old < 2 ^ 64 - 1 }
    ensures same { IfOk result (λ v. IfSome (R.remaining reader.old) (IsSameText v.items)) }
    ensures end { IfOk result (λ v. is_too_long v.items ≡ false → IsAtEnd (R.remaining reader.new)) }
    ensures fault { IfErr result (FailsToRead (R.failures reader.old) (R.failures reader.new)) }
{
    read_all(alloc, reader)
}
