//! A whole text that is written to a sink, and the fault of a runner where it is not.

ghost use Rattle.std.specs.Prelude.{◌≡◌, ◌+◌, ◌-◌, ◌<◌, ◌^◌, ℕ, OnOk, OnErr, IfErr};
ghost use Rattle.std.specs.Io.KnownBytes.{Appends};
ghost use Rattle.fs_verdict.specs.Devices.{WritesBeginning};

use crate::device::Sink;
use crate::fault::RunFault;
use crate::sink;

/// Writes the whole text, piece by piece. After an `Err` a beginning of it was written, and no write is tried again.
pub fn write_text<W: Sink>(writer: &mut W, text: &[u8]) -> Result<(), RunFault>
    requires { W.failures writer.old < 2 ^ 64 - 1 }
    ensures ok { OnOk result (Appends (W.contents writer.old) (W.contents writer.new) text.now) }
    ensures err { OnErr result (WritesBeginning text.now (W.contents writer.old) (W.contents writer.new)) }
    ensures fault { IfErr result (λ e. e ≡ RunFault.Write) }
    ensures failed { OnErr result (W.failures writer.new ≡ W.failures writer.old + 1) }
{
    match sink::write_text(writer, text) {
        Ok(()) => Ok(()),
        Err(_) => Err(RunFault::Write),
    }
}
