//! Drawn runs of a script in memory.

ghost use Rattle.std.specs.Prelude.{◌≤◌, IfOk, IfErr};
ghost use Rattle.fs_script.specs.Script.{script_of};
ghost use Rattle.fs_sched.specs.Devices.{IsFaultOf};
ghost use Rattle.fs_sched.specs.Seeds.{AreRunsOf};
ghost use Rattle.fs_sched.specs.declared.seeding.TheConstants.{SEED_LIMIT, RUN_LIMIT};

use fs_sched::{Device, RunFault, Silent, run_seeds};
use std::alloc::Global;

/// The lines of so many drawn runs of a script in memory, as `run_seeds` writes them. Each run is lawful, and its line says so.
pub fn seeds_bytes(alloc: Global, script: &[u8], seed: u64, runs: u64) -> Result<Vec<u8>, RunFault>
    requires seed { seed ≤ SEED_LIMIT }
    requires some { 1 ≤ runs }
    requires most { runs ≤ RUN_LIMIT }
    ensures ran { IfOk result (λ lines. AreRunsOf seed runs script.now lines.items) }
    ensures fault { IfErr result (IsFaultOf (script_of script.now)) }
{
    let mut reader = Device::new(script);
    let mut writer = Device::new(Vec::new(alloc));
    match run_seeds(alloc, &mut reader, &mut writer, seed, runs, &mut Silent) {
        Ok(_) => Ok(writer.inner),
        Err(RunFault::Input(fault)) => Err(RunFault::Input(fault)),
        // Bytes in memory are there to be read, and are written as long as there is memory.
        Err(_) => Err(RunFault::OutOfMemory),
    }
}
