//! Pictures in memory.

ghost use Rattle.std.specs.Prelude.{◌≡◌, Bool, IfOk, IfErr};
ghost use Rattle.fs_draw.specs.Faults.{IsFaultOfPicture};
ghost use Rattle.fs_draw.specs.Pictures.{IsPictureOf};
ghost use Rattle.fs_embed.specs.Statuses.{IsRefusal};
ghost use Rattle.atomfs_c.specs.ToolTexts.{around_of, IsToldNoPicture};

use fs_draw::{DrawFault, DrawInput, View};
use fs_embed::status::NO_CALL;
use fs_embed::told::tell_fault;
use fs_sched::{RunFault, Schedule};
use fs_verdict::Command;
use std::alloc::Global;

/// By this number the whole of a text is drawn.
pub const WHOLE: u64 = 18_446_744_073_709_551_615;

/// The call around which is drawn.
pub fn around_of(number: u64) -> Option<u64>
    ensures { result ≡ around_of number }
{
    if number == WHOLE {
        return None;
    }
    Some(number)
}

/// The picture of a text in memory, as `DrawInput` makes it.
pub fn draw_bytes(
    alloc: Global,
    text: &[u8],
    by: Schedule,
    call: Option<u64>,
) -> Result<Vec<u8>, DrawFault>
    ensures drawn { IfOk result (λ picture. (well : Bool) × IsPictureOf by text.now well picture.items) }
    ensures fault { IfErr result (IsFaultOfPicture by call text.now) }
{
    let Ok(text) = Vec::from_slice(alloc, text) else {
        return Err(DrawFault::Run(RunFault::OutOfMemory));
    };
    let command = DrawInput {
        schedule: by,
        view: View::of(call),
    };
    match command.make(alloc, text, &mut ()) {
        Ok(made) => Ok(made.text),
        Err(fault) => Err(fault),
    }
}

/// The status of a script without a picture, and what it is about.
pub fn tell_no_picture(fault: DrawFault, count: &mut usize) -> u8
    ensures told { IsToldNoPicture fault result count.new }
    ensures refused { IsRefusal result }
{
    match fault {
        DrawFault::Run(fault) => tell_fault(fault, count),
        DrawFault::NoCall(_) => NO_CALL,
    }
}
