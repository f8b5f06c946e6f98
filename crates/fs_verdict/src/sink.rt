//! A whole text that is written to a sink.

ghost use Rattle.std.specs.Prelude.{◌≡◌, ◌+◌, ◌-◌, ◌<◌, ◌^◌, ℕ, length, take, OnOk, OnErr};
ghost use Rattle.std.specs.Io.KnownBytes.{Appends};
ghost use Rattle.fs_verdict.specs.Devices.{WritesBeginning};

use crate::device::{Failed, Sink};

/// Writes the whole text, piece by piece. After an `Err` a beginning of it was written, and no write is tried again.
pub fn write_text<W: Sink>(writer: &mut W, text: &[u8]) -> Result<(), Failed>
    requires { W.failures writer.old < 2 ^ 64 - 1 }
    ensures ok { OnOk result (Appends (W.contents writer.old) (W.contents writer.new) text.now) }
    ensures err { OnErr result (WritesBeginning text.now (W.contents writer.old) (W.contents writer.new)) }
    ensures failed { OnErr result (W.failures writer.new ≡ W.failures writer.old + 1) }
{
    let mut at = 0;
    while at < text.len() {
        match writer.write(&text[at..]) {
            Ok(count) => at += count,
            Err(_) => return Err(Failed),
        }
    }
    Ok(())
}
