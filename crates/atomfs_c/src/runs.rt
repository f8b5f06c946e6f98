//! The exports that run a script, and check a journal and a path. They take no handle.

ghost use Rattle.std.specs.Prelude.{◌≡◌, ◌≢◌, ◌<◌, ◌⊎◌, ℕ, List, Ok};
ghost use Rattle.fs_timeline.specs.declared.verdict.Verdict.{Verdict};
ghost use Rattle.fs_sched.specs.Checks.{verdict_line, verdict_of};
ghost use Rattle.fs_sched.specs.EachRun.{AreOfTheRun};
ghost use Rattle.fs_sched.specs.declared.running.RunEnd.{RunEnd};
ghost use Rattle.atomfs_c.specs.Exports.{Tells, TellsPath, limits_of};
ghost use Rattle.fs_embed.specs.Statuses.{IsRefusal, TellsFault, TellsNoRun};

use fs_embed::numbered::limits_of;
use fs_embed::path_fault;
use fs_embed::status::{BAD_VERSION, CLOSED, NO_MEMORY, OK, UNTOLD, path_status};
use fs_embed::told::{tell, tell_fault};
use fs_sched::{Schedule, check_bytes, run_bytes};
use std::alloc::Global;

/// Runs a script with its own schedule, and writes its run text, as `atomfs run` prints it. If the script has a fault,
/// the fault's line is reported in place of a length. If it asks for a checkpoint too early, that is the number of a
/// pending call.
#[unsafe(no_mangle)]
pub extern "C" fn atomfs_run(alloc: Global, script: &[u8], out: &mut [u8], count: &mut usize) -> u8
    ensures ran { result < UNTOLD → (end : RunEnd) × (text : List ℕ) × AreOfTheRun Schedule.Given script.now end text × Tells result text count.new out.old out.new }
    ensures fault { CLOSED < result → TellsNoRun Schedule.Given script.now result count.new }
    ensures told { result ≢ CLOSED }
    ensures only { (result < UNTOLD) ⊎ IsRefusal result }
{
    match run_bytes(alloc, script, Schedule::Given) {
        Ok(text) => tell(text.as_slice(), out, count),
        Err(fault) => tell_fault(fault, count),
    }
}

/// Checks a journal, and writes the line of the verdict, as `atomfs check` prints it. If the journal's text has a
/// fault, the fault's line is reported in place of a length.
#[unsafe(no_mangle)]
pub extern "C" fn atomfs_check(
    alloc: Global,
    journal: &[u8],
    out: &mut [u8],
    count: &mut usize,
) -> u8
    ensures judged { result < UNTOLD → (v : Verdict) × (verdict_of journal.now ≡ Ok v) × Tells result (verdict_line v) count.new out.old out.new }
    ensures fault { CLOSED < result → TellsFault (verdict_of journal.now) result count.new }
    ensures told { result ≢ CLOSED }
    ensures only { (result < UNTOLD) ⊎ IsRefusal result }
{
    match check_bytes(alloc, journal) {
        Ok(line) => tell(line.as_slice(), out, count),
        Err(fault) => tell_fault(fault, count),
    }
}

/// Checks bytes as a path under the limits of a version, 1, 2 or 3, and reports the first check that they fail.
#[unsafe(no_mangle)]
pub extern "C" fn atomfs_check_path(alloc: Global, path: &[u8], version: u8) -> u8
    ensures { TellsPath (limits_of version) path.now result }
{
    let Some(limits) = limits_of(version) else {
        return BAD_VERSION;
    };
    match path_fault(alloc, limits, path) {
        Some(fault) => path_status(fault),
        None => OK,
    }
}
