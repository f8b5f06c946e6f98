//! One call on a core, from its begin to its return, by a client that promises more than its types say.
#![tactic(auto)]

ghost use Rattle.std.specs.Prelude.{IfOk};
ghost use Rattle.fs_laws.specs.OneCall.{MeetsTree};
ghost use Rattle.fs_core.specs.CoreValues.{state_of, IsAtRest};

use anyhow::bail;
use fs_calls::{Call, Reply};
use fs_core::{Core, NotDone};
use fs_names::{Path, SeatNo};
use std::alloc::Global;

/// The reply of a call on a seat. If no other call is pending, the reply and the change are those of the sequential tree.
fn reply_of(alloc: Global, core: &mut Core, seat: SeatNo, call: &Call) -> anyhow::Result<Reply>
    ensures { IfOk result (λ reply. IsAtRest core.old → MeetsTree (state_of core.old) call.now reply (state_of core.new)) }
{
    match core.call(alloc, seat, call) {
        Ok(answer) => Ok(answer.reply),
        Err(NotDone::NoSeat) => bail!("there is no such seat"),
        Err(NotDone::Refused(_)) => bail!("the call did not begin"),
        Err(NotDone::Waits(_, _)) => bail!("another call is in the way"),
    }
}

fn main(rt: HostRuntime) -> anyhow::Result<()> {
    let alloc = rt.alloc();
    let mut core = Core::new(alloc)?;
    let seat = core.seat()?;
    let call = Call::Mkdir(Path::parse(alloc, b"/a")?);
    let reply = reply_of(alloc, &mut core, seat, &call)?;
    println!(rt; "done: {}", matches!(reply, Reply::Done))?;
    println!(rt; "{} entries", core.timeline().len())?;
    Ok(())
}
