//! What a run is given: the script that a text has.

ghost use Rattle.std.specs.Prelude.{◌≡◌, ◌≤◌, Ok, IfOk, IfErr};
ghost use Rattle.fs_script.specs.Script.{script_of};
ghost use Rattle.fs_script.specs.Limits.{call_limit};
ghost use Rattle.fs_sched.specs.Runs.{calls_in};
ghost use Rattle.fs_sched.specs.Devices.{IsFaultOf};

use fs_script::{Script, read_script};
use fs_verdict::{RunFault, run_fault};
use std::alloc::Global;

/// The script that a text has, or why no run of it begins.
pub fn script_in(alloc: Global, text: &[u8]) -> Result<Script, RunFault>
    ensures script { IfOk result (λ script. script_of text.now ≡ Ok script) }
    ensures few { IfOk result (λ script. calls_in script.lists ≤ call_limit script.limits) }
    ensures fault { IfErr result (IsFaultOf (script_of text.now)) }
{
    match read_script(alloc, text) {
        Ok(script) => Ok(script),
        Err(fault) => Err(run_fault(fault)),
    }
}
