//! A command, and the one way of each from a source to a sink.

ghost use Rattle.std.specs.Prelude.{◌≡◌, ◌-◌, ◌<◌, ◌^◌, ℕ, List, Result};
ghost use Rattle.fs_verdict.specs.declared.shell.Made.{Made};
ghost use Rattle.fs_verdict.specs.Commands.{IsHonest, Transforms};
ghost use Rattle.fs_verdict.specs.declared.fault.RunFault.{RunFault};

use crate::device::{Sink, Source};
use crate::fault::{RunFault, between};
use crate::shell::{Made, transform};
use std::alloc::Global;

/// What is asked for, with all that it is asked by: which text is made of an input, and what is answered. Who hears of progress on the
/// way, if anybody does, changes neither.
pub trait Command<Listener>: Drop {
    /// What is answered once the text is written.
    type End: Drop;

    /// Why there is no text.
    type Fault: From<RunFault> + Drop;

    /// What has to hold of that by which it is asked.
    ghost Asks: { Self → Type 0 };

    /// What is made of an input, or why nothing is.
    ghost Makes: { Self → List ℕ → Result (Made Self.End) Self.Fault → Type 0 };

    /// Makes the whole text. The input can be let go as soon as it is read.
    fn make(
        self,
        alloc: Global,
        input: Vec<u8>,
        listener: &mut Listener,
    ) -> Result<Made<Self::End>, Self::Fault>
        requires { Asks self }
        ensures { Makes self input.items result };

    /// All that is too long has the same faults, and no device is blamed for what cannot be made.
    ghost honest: { (c : Self) → IsHonest (Makes c) Self.Fault.from_gives };
}

/// Reads a source to its end, makes the text of a command, and writes that. The whole text is made before its first byte is written.
pub fn perform<Listener, C: Command<Listener>, R: Source, W: Sink>(
    alloc: Global,
    reader: &mut R,
    writer: &mut W,
    command: C,
    listener: &mut Listener,
) -> Result<C::End, C::Fault>
    requires reads { R.failures reader.old < 2 ^ 64 - 1 }
    requires writes { W.failures writer.old < 2 ^ 64 - 1 }
    requires asks { C.Asks command }

    // What is answered and written is what the command makes of what was read, and a fault of no device is why it makes nothing. A
    // device is blamed only where it failed in this call; after a failed write a beginning of the text stands, and after every other
    // error nothing was written.
    ensures transforms { Transforms (C.Makes command) C.Fault.from_gives R.remaining R.failures W.contents W.failures reader.old reader.new writer.old writer.new result }
{
    let ended = transform(
        alloc,
        reader,
        writer,
        |text| -> Result<Made<C::End>, C::Fault>
            requires { C.Asks command }
            ensures { C.Makes command text.items result }
        { command.make(alloc, text, listener) },
    );
    match ended {
        Ok(end) => Ok(end),
        Err(failure) => Err(between(failure)),
    }
}
