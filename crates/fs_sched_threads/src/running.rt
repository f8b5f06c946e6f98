//! The runner that plays a script's blocks on threads.

ghost use Rattle.std.specs.Prelude.{◌≡◌, ◌≢◌, ◌+◌, ◌-◌, ◌<◌, ◌^◌, ℕ, Bool, List, map, true, Ok, Err, IfOk, OnOk, OnErr, IfErr, IfSome, IsErrOf};
ghost use Rattle.std.specs.Io.KnownBytes.{Appends, IsAtEnd};
ghost use Rattle.fs_words.specs.declared.fault.ScriptFault.{ScriptFault};
ghost use Rattle.fs_timeline.specs.Timeline.{IsLawful};
ghost use Rattle.fs_script.specs.Script.{script_of};
ghost use Rattle.fs_sched.specs.Devices.{KeepsDevices, WritesBeginning};
ghost use Rattle.fs_sched_threads.specs.code.ThreadFaults.{IsOfThreads, MakesText};
ghost use Rattle.fs_sched_threads.specs.Lines.{text_of, IsTextOf, IsWrittenOf};

use crate::fault::{ThreadsFault, threads_fault};
use crate::line::{make_journal, make_line};
use crate::watch::Watch;
use fs_calls::Call;
use fs_sched::{RunFault, between, run_fault};
use fs_script::read_script;
use fs_seq::SeqTree;
use fs_share::{Closed, Limits, run_lists_with};
use fs_timeline::Entry;
use fs_verdict::{Made, Sink, Source, transform};
use std::alloc::Global;
use std::sync::Wait;
use std::thread::Threads;
use std::time::Clock;

/// What is written of a timeline that is lawful from a start tree: its journal where that is asked for, or a line. The only
/// error is out of memory.
fn text_of_entries(
    alloc: Global,
    start: SeqTree,
    entries: &[Entry],
    journal: bool,
) -> Result<Made<bool>, ThreadsFault>
    requires { IsLawful start entries.now }
    ensures text { IfOk result (λ made. made.text.items ≡ text_of journal start entries.now) }
    ensures lawful { IfOk result (λ made. made.end ≡ true) }
    ensures fault { IfErr result IsOfThreads }
{
    let made = if journal {
        make_journal(alloc, start, entries)
    } else {
        make_line(alloc, start, entries)
    };
    match made {
        Ok(made) => Ok(made),
        Err(_) => Err(ThreadsFault::Run(RunFault::OutOfMemory)),
    }
}

/// How many calls the lists have, up to the greatest number.
fn calls_of(lists: &[Vec<Call>]) -> usize {
    let mut count = 0usize;
    for list in lists {
        count = count.saturating_add(list.len());
    }
    count
}

/// What is written of lists of calls, once they were played on threads, on a tree of these limits.
fn text_of_lists<R: Threads + Wait + Clock + Sync, G: Watch + Sync>(
    rt: &R,
    alloc: Global,
    lists: &[Vec<Call>],
    watch: &G,
    limits: Limits,
    journal: bool,
) -> Result<Made<bool>, ThreadsFault>
    ensures written { IfOk result (λ made. IsWrittenOf journal limits (map (λ calls. calls.items) lists.now) made.text.items) }
    ensures lawful { IfOk result (λ made. made.end ≡ true) }
    ensures fault { IfErr result IsOfThreads }
{
    watch.begins(calls_of(lists));
    match run_lists_with(rt, alloc, lists, watch, limits) {
        Ok(closed) => {
            let Closed {
                start,
                timeline,
                ..
            } = closed;
            text_of_entries(alloc, start, timeline.entries(), journal)
        }
        Err(fault) => Err(threads_fault(fault)),
    }
}

/// What is written of the script that a text has, once its blocks were played on threads.
fn text_of_script<R: Threads + Wait + Clock + Sync, G: Watch + Sync>(
    rt: &R,
    alloc: Global,
    text: &[u8],
    watch: &G,
    journal: bool,
) -> Result<Made<bool>, ThreadsFault>
    ensures { MakesText journal text.now result }
{
    match read_script(alloc, text) {
        Ok(script) => text_of_lists(
            rt,
            alloc,
            script.lists.as_slice(),
            watch,
            script.limits,
            journal,
        ),
        Err(fault) => Err(ThreadsFault::Run(run_fault(fault))),
    }
}

/// Reads a script to its end, and plays each of its blocks with a worker of its own, whatever its schedule says. It
/// checks the closed timeline, and writes one line, `lawful calls` and the number of calls that returned, or in its
/// place the journal of the timeline. The answer is whether the timeline is lawful, and by the clauses it is. The text
/// is made before its first byte is written. A watcher first gets the number of calls, and then each event, from the
/// thread that did it.
pub fn run_threads<R: Threads + Wait + Clock + Sync, S: Source, W: Sink, G: Watch + Sync>(
    rt: &R,
    alloc: Global,
    reader: &mut S,
    writer: &mut W,
    watch: &G,
    journal: bool,
) -> Result<bool, ThreadsFault>
    requires reads { S.failures reader.old < 2 ^ 64 - 1 }
    requires writes { W.failures writer.old < 2 ^ 64 - 1 }

    // Each call of the script, and no other, began on the seat of its block, in order, and returned. What is written says how many
    // they are, or is the journal in which they did, which is lawful and whose history is linearizable.
    ensures ran { OnOk result ((text : List ℕ) × IfSome (S.remaining reader.old) (λ input. IsTextOf journal input text) × Appends (W.contents writer.old) (W.contents writer.new) text) }
    ensures lawful { IfOk result (λ lawful. lawful ≡ true) }
    ensures end { OnOk result (IsAtEnd (S.remaining reader.new)) }
    ensures input { (f : ScriptFault) → result ≡ Err (ThreadsFault.Run (RunFault.Input f)) → IfSome (S.remaining reader.old) (λ input. script_of input ≡ Err f) }

    // On threads a script comes to no checkpoint, whatever its schedule says.
    ensures under_way { (call : ℕ) → result ≢ Err (ThreadsFault.Run (RunFault.UnderWay call)) }

    // A device is blamed only where it failed in this call; after a failed write a beginning of the text stands, and after every
    // other error nothing was written.
    ensures devices { KeepsDevices S.failures W.failures reader.old reader.new writer.old writer.new (ThreadsFault.Run RunFault.Read) (ThreadsFault.Run RunFault.Write) result }
    ensures beginning { IsErrOf result (ThreadsFault.Run RunFault.Write) → (text : List ℕ) × IfSome (S.remaining reader.old) (λ input. IsTextOf journal input text) × WritesBeginning text (W.contents writer.old) (W.contents writer.new) }
{
    let ended = transform(
        alloc,
        reader,
        writer,
        |text| -> Result<Made<bool>, ThreadsFault>
            ensures { MakesText journal text.items result }
        { text_of_script(rt, alloc, &text, watch, journal) },
    );
    match ended {
        Ok(lawful) => Ok(lawful),
        Err(failure) => Err(between(failure)),
    }
}
