//! What is counted as refused: by a `Memory`, and by a core, whose calls begin once more where memory was refused.

ghost use Rattle.std.specs.Prelude.{◌<◌, length};

use anyhow::{Result, bail, ensure};
use fs_calls::Call;
use fs_core::{Core, NoCheckpoint, Refusal, Stepped};
use fs_memory::Memory;
use fs_names::SeatNo;
use slab::Slab;
use std::alloc::{AllocError, Global};
use std::sync::Arc;

/// More steps than a call has that is alone.
const MOST_STEPS: u32 = 1_000;

/// What was granted; a refusal is noted.
fn note<T>(refused: &mut u64, answer: Result<T, AllocError>) -> Option<T> {
    if answer.is_err() {
        *refused = refused.wrapping_add(1);
    }
    answer.ok()
}

/// A byte in a list with room for more. A refusal is noted.
fn one_byte(alloc: Global, memory: &mut Memory, refused: &mut u64) -> Vec<u8> {
    let mut bytes = Vec::new(alloc);
    match memory.reserve(&mut bytes, 100) {
        Ok(()) => bytes.push_reserved(7),
        Err(_) => *refused = refused.wrapping_add(1),
    }
    bytes
}

/// Asks for a value of its own, for keys of a slab and for a clone.
fn ask_for_values(alloc: Global, memory: &mut Memory, refused: &mut u64) -> Result<()> {
    let seven = note(refused, memory.boxed(alloc, 7_u64));
    ensure!(memory.refusals() == *refused, "a value of its own");
    let mut slab: Slab<u64> = Slab::new(alloc);
    let keys = note(refused, memory.reserve_keys(&mut slab, 1));
    ensure!(memory.refusals() == *refused, "keys of a slab");
    if slab.insert(7).is_ok() {
        let copy = note(refused, memory.clone_of(&slab));
        ensure!(memory.refusals() == *refused, "a clone");
        ensure!(copy.is_some() || *refused > 0, "a clone, or a refusal");
    }
    ensure!(
        (seven.is_some() && keys.is_some()) || *refused > 0,
        "a value and keys, or a refusal"
    );
    Ok(())
}

/// Asks for memory in each way: the count is that of the refusals.
pub fn ask(alloc: Global) -> Result<u64> {
    let mut memory = Memory::new();
    let mut refused = 0;
    let bytes = one_byte(alloc, &mut memory, &mut refused);
    ensure!(memory.refusals() == refused, "room in a list");
    let empty = note(&mut refused, memory.with_room::<u64>(alloc, 100));
    ensure!(memory.refusals() == refused, "a list with room");
    ensure!(empty.is_some() || refused > 0, "a list, or a refusal");
    if let Some(copy) = note(&mut refused, memory.copy_of(&bytes)) {
        ensure!(copy == bytes, "the same bytes");
    }
    ensure!(memory.refusals() == refused, "a copy of bytes");
    if let Ok(shared) = Arc::new(alloc, bytes) {
        let owner = note(&mut refused, memory.share(&shared));
        ensure!(owner.is_some(), "one more owner");
    }
    ensure!(memory.refusals() == refused, "what is shared");
    ask_for_values(alloc, &mut memory, &mut refused)?;
    Ok(refused)
}

/// A seat more, asked for once more where memory is refused.
fn seat(core: &mut Core) -> Result<SeatNo> {
    let before = core.refusals();
    if let Ok(seat) = core.seat() {
        ensure!(core.refusals() == before, "no refusal counted");
        return Ok(seat);
    }
    ensure!(
        core.refusals() == before.wrapping_add(1),
        "one refusal counted"
    );
    Ok(core.seat()?)
}

/// A call begins, once more where memory is refused.
fn begin(alloc: Global, core: &mut Core, seat: SeatNo, call: &Call) -> Result<()>
    requires { seat < length core.old.seats }
{
    let before = core.refusals();
    if core.begin(alloc, seat, call) != Err(Refusal::OutOfMemory) {
        ensure!(core.refusals() == before, "no refusal counted");
        return Ok(());
    }
    ensure!(
        core.refusals() == before.wrapping_add(1),
        "one refusal counted"
    );
    let begun = core.begin(alloc, seat, call);
    ensure!(begun.is_ok(), "a begin that memory was refused to before");
    Ok(())
}

/// A call goes on to its return.
fn end(core: &mut Core, seat: SeatNo) -> Result<()> {
    for _step in 0..MOST_STEPS {
        ensure!(core.has_seat(seat), "a seat");
        if let Stepped::Returned(_) = core.step(seat) {
            return Ok(());
        }
    }
    bail!("a call that does not return")
}

/// The timeline of a core begins again, once more where memory is refused. It answers how often it was.
pub fn begin_again(alloc: Global, core: &mut Core) -> Result<u64> {
    let mut memory = Memory::new();
    let again = core.checkpoint_counted(alloc, &mut memory);
    if again.is_ok() {
        ensure!(memory.refusals() == 0, "no refusal counted");
        return Ok(0);
    }
    ensure!(
        again.err() == Some(NoCheckpoint::OutOfMemory),
        "no call under way"
    );
    ensure!(memory.refusals() == 1, "one refusal counted");
    let again = core.checkpoint(alloc);
    ensure!(
        again.is_ok(),
        "a checkpoint that memory was refused to before"
    );
    Ok(1)
}

/// Plays calls on a core that has no seat. It answers how often memory was refused, as the core counts.
fn play_on(alloc: Global, core: &mut Core, calls: &[Call]) -> Result<u64> {
    let seat = seat(core)?;
    for call in calls {
        ensure!(core.has_seat(seat), "a seat");
        begin(alloc, core, seat, call)?;
        end(core, seat)?;
    }
    Ok(core.refusals())
}

/// A new core, asked for once more where memory was refused, and how often that was.
fn new_core(alloc: Global) -> Result<(Core, u64)> {
    match Core::new(alloc) {
        Ok(core) => Ok((core, 0)),
        Err(_) => Ok((Core::new(alloc)?, 1)),
    }
}

/// The same on a new core, which is handed out.
pub fn play(alloc: Global, calls: &[Call]) -> Result<(Core, u64)> {
    let (mut core, refused) = new_core(alloc)?;
    let counted = play_on(alloc, &mut core, calls)?;
    Ok((core, refused.wrapping_add(counted)))
}
