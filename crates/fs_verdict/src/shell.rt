//! From a source to a sink.

ghost use Rattle.std.specs.Prelude.{◌≡◌, ◌≢◌, ◌+◌, ◌-◌, ◌<◌, ◌^◌, ℕ, List, Ok, Err, IfOk, OnErr, IfSome, IsErrOf, false};
ghost use Rattle.std.specs.Io.KnownBytes.{Appends, IsAtEnd};
ghost use Rattle.fs_words.specs.Headers.{is_too_long};
ghost use Rattle.fs_verdict.specs.Devices.{IsSameText, KeepsDevices, WritesBeginning};

use crate::device::{Failed, Sink, Source};
use crate::failure::Failure;
use crate::sink::write_text;
use crate::source::read_text;
use std::alloc::Global;

/// A text, and what is answered once it is written.
#[derive(Drop)]
pub struct Made<T> {
    pub text: Vec<u8>,
    pub end: T,
}

/// Reads a source to its end, makes a text of it with the function, and writes that. The whole text is made before its
/// first byte is written. If an input is too long, as much as shows this is read and handed on.
pub fn transform<R: Source, W: Sink, T: Drop, E: Drop, F: FnOnce(Vec<u8>) -> Result<Made<T>, E>>(
    alloc: Global,
    reader: &mut R,
    writer: &mut W,
    make: F,
) -> Result<T, Failure<E>>
    requires reads { R.failures reader.old < 2 ^ 64 - 1 }
    requires writes { W.failures writer.old < 2 ^ 64 - 1 }
    requires any { (v : _) → F.pre make v }

    // What is answered and written is what was made of what was read.
    ensures made { IfOk result (λ end. (v : _) × (made : _) × IfSome (R.remaining reader.old) (IsSameText v.items) × (is_too_long v.items ≡ false → IsAtEnd (R.remaining reader.new)) × F.post make v (Ok made) × (end ≡ made.end) × Appends (W.contents writer.old) (W.contents writer.new) made.text.items) }
    ensures unmade { (e : _) → result ≡ Err (Failure.Unmade e) → (v : _) × IfSome (R.remaining reader.old) (IsSameText v.items) × F.post make v (Err e) }

    // A device is blamed only where it failed in this call; after a failed write a beginning of the text stands, and after every
    // other error nothing was written.
    ensures devices { KeepsDevices R.failures W.failures reader.old reader.new writer.old writer.new Failure.Read Failure.Write result }
    ensures beginning { IsErrOf result Failure.Write → (v : _) × (made : _) × IfSome (R.remaining reader.old) (IsSameText v.items) × F.post make v (Ok made) × WritesBeginning made.text.items (W.contents writer.old) (W.contents writer.new) }
{
    let text = read_text(alloc, reader)?;
    let made = match make(text) {
        Ok(made) => made,
        Err(reason) => return Err(Failure::Unmade(reason)),
    };
    match write_text(writer, &made.text) {
        Ok(()) => Ok(made.end),
        Err(Failed) => Err(Failure::Write),
    }
}
