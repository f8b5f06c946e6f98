//! The ends of drawn runs, counted, and how much was seen in them.

ghost use Rattle.std.specs.Prelude.{◌≡◌, ◌++◌, ◌+◌, ◌<◌, ◌≤◌, ◌^◌, [], List, IfOk, OnOk, IfErr};
ghost use Rattle.std.specs.List.{count_by, sum_by};
ghost use Rattle.fs_calls.specs.declared.call.Call.{Call};
ghost use Rattle.fs_timeline.specs.declared.entry.Entry.{Entry};
ghost use Rattle.fs_script.specs.Limits.{call_limit};
ghost use Rattle.fs_sched.specs.Origins.{CanBegin, HasNoRun, LacksRun};
ghost use Rattle.fs_sched.specs.Runs.{calls_in};
ghost use Rattle.fs_sched_seen.specs.code.Meetings.{HaveMet, IsOf};
ghost use Rattle.fs_sched_outcomes.specs.Ends.{places_of};
ghost use Rattle.fs_sched_outcomes.specs.Lines.{labels_of, rows_text, seen_text};
ghost use Rattle.fs_sched_outcomes.specs.Outcomes.{is_new, seen_in, AreLinesOn, EndsOn};
ghost use Rattle.fs_sched_outcomes.specs.Sums.{times_of};
ghost use Rattle.fs_sched_outcomes.specs.code.Adding.{AreKept};
ghost use Rattle.fs_sched_outcomes.specs.code.Mades.{AddsRun, HasRuns, NotesRun, NotesRuns};

use crate::ends::{End, end_of};
use crate::lines::{Form, labels_of, push_seen_by, rows_text};
use crate::rows::{Row, Rows};
use fs_sched::{Campaign, RunFault, SEED_LIMIT, Silent, Witness, watch_at};
use fs_sched_seen::{Meetings, Pairs, Place, Seen, places_of};
use fs_script::Script;
use fs_verdict::Made;
use fs_words::Addition;
use std::alloc::{AllocError, Global};

/// The most runs whose ends are counted.
pub const OUTCOME_LIMIT: u64 = 1_000_000;

/// Of so many runs it is counted how many ends they brought.
pub const LATELY: u64 = 1_000;

/// The end of the run that is drawn from a number; which calls met in it is noted.
fn drawn_end(
    alloc: Global,
    campaign: &Campaign,
    script: &Script,
    places: &[Place],
    seed: u64,
    meetings: &mut Meetings,
) -> Result<End, RunFault>
    requires few { calls_in script.now.lists ≤ call_limit script.now.limits }
    requires begins { CanBegin campaign.now.from script.now.limits }
    requires places { places.now ≡ places_of script.now.lists }
    ensures end { IfOk result (EndsOn campaign.now script.now seed) }
    ensures met { (timelines : List (List Entry)) → HaveMet meetings.old timelines → OnOk result (NotesRun campaign.now script.now seed timelines meetings.new) }
    ensures script { (lists : List (List Call)) → IsOf meetings.old lists → IsOf meetings.new lists }
    ensures fault { IfErr result (HasNoRun campaign.now script.now seed) }
{
    let (from, schedule) = (&campaign.from, campaign.by.schedule(seed));
    let ran = match watch_at(alloc, from, script, schedule, &mut Silent) {
        Ok(ran) => ran,
        Err(fault) => return Err(fault),
    };
    match end_of(alloc, places, &ran.core, meetings) {
        Ok(end) => Ok(end),
        Err(_) => Err(RunFault::OutOfMemory),
    }
}

/// Adds the end of the run that is drawn from a number; which calls met in it is noted.
fn add_run(
    alloc: Global,
    campaign: &Campaign,
    script: &Script,
    places: &[Place],
    seed: u64,
    rows: &mut Rows,
    meetings: &mut Meetings,
) -> Result<(), RunFault>
    requires few { calls_in script.now.lists ≤ call_limit script.now.limits }
    requires begins { CanBegin campaign.now.from script.now.limits }
    requires places { places.now ≡ places_of script.now.lists }
    requires kept { AreKept rows.old }
    requires room { sum_by times_of rows.old.rows.items + 1 < 2 ^ 64 }
    ensures kept { OnOk result (AreKept rows.new) }
    ensures row { OnOk result (AddsRun campaign.now script.now seed rows.old.rows.items rows.new.rows.items) }
    ensures met { (timelines : List (List Entry)) → HaveMet meetings.old timelines → OnOk result (NotesRun campaign.now script.now seed timelines meetings.new) }
    ensures script { (lists : List (List Call)) → IsOf meetings.old lists → IsOf meetings.new lists }
    ensures fault { IfErr result (HasNoRun campaign.now script.now seed) }
{
    let end = drawn_end(alloc, campaign, script, places, seed, meetings)?;
    let row = Row {
        times: 1,
        seed,
        end,
    };
    match rows.add(alloc, row) {
        Ok(()) => Ok(()),
        Err(_) => Err(RunFault::OutOfMemory),
    }
}

/// The ends of so many runs, drawn from a number, the next one, and so on; which calls met in them is noted.
fn add_runs<Listener: Witness>(
    alloc: Global,
    campaign: &Campaign,
    script: &Script,
    places: &[Place],
    seed: u64,
    runs: u64,
    meetings: &mut Meetings,
    witness: &mut Listener,
) -> Result<Rows, RunFault>
    requires few { calls_in script.now.lists ≤ call_limit script.now.limits }
    requires begins { CanBegin campaign.now.from script.now.limits }
    requires places { places.now ≡ places_of script.now.lists }
    requires seed { seed ≤ SEED_LIMIT }
    requires runs { runs ≤ OUTCOME_LIMIT }
    requires none { HaveMet meetings.old [] }
    ensures rows { IfOk result (λ rows. HasRuns campaign.now script.now seed runs rows.rows.items) }
    ensures met { OnOk result (NotesRuns campaign.now script.now seed runs meetings.new) }
    ensures script { (lists : List (List Call)) → IsOf meetings.old lists → IsOf meetings.new lists }
    ensures fault { IfErr result (LacksRun campaign.now script.now seed runs) }
{
    let mut rows = Rows::new(alloc);
    for run in 0..runs {
        add_run(
            alloc,
            campaign,
            script,
            places,
            seed + run,
            &mut rows,
            meetings,
        )?;
        witness.has_run(run + 1, runs);
    }
    Ok(rows)
}

/// How many rows have an end that no run before that of a number had.
fn new_in(rows: &[Row], from: u64) -> u64
    ensures { result ≡ count_by (is_new from) rows.now }
{
    let mut count = 0;
    for row in rows {
        if row.seed >= from {
            count += 1;
        }
    }
    count
}

/// How much was seen, by the rows of so many runs.
fn seen_in(rows: &[Row], seed: u64, runs: u64, pairs: Option<Pairs>) -> Seen
    requires seed { seed ≤ SEED_LIMIT }
    requires runs { runs ≤ OUTCOME_LIMIT }
    ensures { result ≡ seen_in rows.now seed runs pairs }
{
    let lately = runs.min(LATELY);
    Seen {
        runs,
        outcomes: rows.len() as u64,
        new: new_in(rows, seed + runs - lately),
        lately,
        pairs,
    }
}

/// The lines of rows of a script, and how much was seen where that is written beside.
fn lines_of(
    alloc: Global,
    script: &Script,
    places: &[Place],
    rows: &[Row],
    form: Form,
    seen: &Seen,
) -> Result<Vec<u8>, AllocError>
    ensures { IfOk result (λ text. text.items ≡ rows_text form (labels_of script.now.names places.now) rows.now ++ seen_text form seen.now) }
{
    let labels = labels_of(alloc, &script.names, places)?;
    let lines = rows_text(alloc, &labels, rows, form)?;
    let mut text = Addition::new(lines);
    push_seen_by(alloc, form, seen, &mut text)?;
    Ok(text.kept())
}

/// The lines of the ends of so many runs of a campaign, from a number on, and how much was seen in them.
pub(crate) fn outcomes_of<Listener: Witness>(
    alloc: Global,
    campaign: &Campaign,
    script: &Script,
    seed: u64,
    runs: u64,
    form: Form,
    witness: &mut Listener,
) -> Result<Made<Seen>, RunFault>
    requires few { calls_in script.now.lists ≤ call_limit script.now.limits }
    requires begins { CanBegin campaign.now.from script.now.limits }
    requires seed { seed ≤ SEED_LIMIT }
    requires runs { runs ≤ OUTCOME_LIMIT }
    ensures lines { IfOk result (λ made. AreLinesOn campaign.now script.now seed runs form made.end made.text.items) }
    ensures fault { IfErr result (LacksRun campaign.now script.now seed runs) }
{
    let Ok(places) = places_of(alloc, &script.lists) else {
        return Err(RunFault::OutOfMemory);
    };
    let mut met = Meetings::new(alloc, &places, script.lists.as_slice().len());
    let sums = add_runs(
        alloc, campaign, script, &places, seed, runs, &mut met, witness,
    )?;
    let Ok(rows) = sums.in_order() else {
        return Err(RunFault::OutOfMemory);
    };
    let seen = seen_in(&rows, seed, runs, met.pairs(&places));
    match lines_of(alloc, script, &places, &rows, form, &seen) {
        Ok(text) => Ok(Made { text, end: seen }),
        Err(_) => Err(RunFault::OutOfMemory),
    }
}
