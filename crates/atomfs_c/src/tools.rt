//! The exports of tools over texts, which take no handle. If a text has a fault, its line is reported in place of a
//! length.

ghost use Rattle.std.specs.Prelude.{◌≡◌, ◌≢◌, ◌<◌, ◌⊎◌, ℕ, Bool, List, None, IsSomeAnd};
ghost use Rattle.std.specs.Str.{IsUtf8};
ghost use Rattle.fs_explain.specs.Topics.{Explains, word_of};
ghost use Rattle.fs_explain.specs.declared.topic.Topic.{Topic};
ghost use Rattle.fs_sched.specs.Seeds.{AreRunsOf};
ghost use Rattle.fs_sched.specs.declared.running.RunEnd.{RunEnd};
ghost use Rattle.fs_trace.specs.Traces.{IsScheduleOf, IsTraceOf};
ghost use Rattle.fs_draw.specs.Pictures.{IsPictureOf};
ghost use Rattle.fs_draw_page.specs.Pages.{IsPageOf};
ghost use Rattle.fs_embed.specs.Numbered.{is_set, schedule_of};
ghost use Rattle.fs_embed.specs.Statuses.{IsRefusal};
ghost use Rattle.fs_embed.specs.Told.{Tells};
ghost use Rattle.atomfs_c.specs.ToolTexts.{around_of, IsFoundText};
ghost use Rattle.atomfs_c.specs.Tools.{TellsNoPicture, TellsNoSchedule, TellsNoSeeds, TellsNothingFound, TellsNoTrace};

use crate::found::{WORDS, found_bytes};
use crate::pictures::{around_of, draw_bytes, tell_no_picture};
use crate::schedules::tell_no_schedule;
use fs_draw_page::page_bytes;
use fs_embed::numbered::{is_set, schedule_of};
use fs_embed::seeds_bytes;
use fs_embed::status::{BAD_CHOICE, CLOSED, UNTOLD};
use fs_embed::told::{tell, tell_fault};
use fs_explain::{explanation_of, topic_in};
use fs_linearize_text::CONFIGURATION_LIMIT;
use fs_sched::{RUN_LIMIT, SEED_LIMIT};
use fs_trace::{schedule_bytes, trace_bytes};
use std::alloc::Global;

/// Runs a script, and writes its trace, as `atomfs trace` prints it: every event, or only those that are news.
#[unsafe(no_mangle)]
pub extern "C" fn atomfs_trace(
    alloc: Global,
    script: &[u8],
    schedule: u8,
    seed: u64,
    every: u8,
    out: &mut [u8],
    count: &mut usize,
) -> u8
    ensures traced { result < UNTOLD → IsSomeAnd (schedule_of schedule seed) (λ by. (end : RunEnd) × (text : List ℕ) × IsTraceOf by (is_set every) script.now end text × Tells result text count.new out.old out.new) }
    ensures fault { CLOSED < result → TellsNoTrace (schedule_of schedule seed) script.now result count.new }
    ensures only { (result < UNTOLD) ⊎ IsRefusal result }
{
    let Some(by) = schedule_of(schedule, seed) else {
        return BAD_CHOICE;
    };
    match trace_bytes(alloc, script, by, is_set(every)) {
        Ok(made) => tell(made.text.as_slice(), out, count),
        Err(fault) => tell_fault(fault, count),
    }
}

/// Draws a script's run, or a journal, and writes the picture, as `atomfs draw` prints it: the whole, or what is around
/// a call.
#[unsafe(no_mangle)]
pub extern "C" fn atomfs_draw(
    alloc: Global,
    text: &[u8],
    schedule: u8,
    seed: u64,
    around: u64,
    out: &mut [u8],
    count: &mut usize,
) -> u8
    ensures drawn { result < UNTOLD → IsSomeAnd (schedule_of schedule seed) (λ by. (well : Bool) × (picture : List ℕ) × IsPictureOf by text.now well picture × Tells result picture count.new out.old out.new) }
    ensures fault { CLOSED < result → TellsNoPicture (schedule_of schedule seed) (around_of around) text.now result count.new }
    ensures only { (result < UNTOLD) ⊎ IsRefusal result }
{
    let Some(by) = schedule_of(schedule, seed) else {
        return BAD_CHOICE;
    };
    match draw_bytes(alloc, text, by, around_of(around)) {
        Ok(picture) => tell(picture.as_slice(), out, count),
        Err(fault) => tell_no_picture(fault, count),
    }
}

/// Makes the page that plays a script's run, or a journal, in a browser, and writes it as `atomfs draw --html` prints it.
#[unsafe(no_mangle)]
pub extern "C" fn atomfs_page(
    alloc: Global,
    text: &[u8],
    schedule: u8,
    seed: u64,
    out: &mut [u8],
    count: &mut usize,
) -> u8
    ensures played { result < UNTOLD → IsSomeAnd (schedule_of schedule seed) (λ by. (well : Bool) × (page : List ℕ) × IsPageOf by text.now well page × Tells result page count.new out.old out.new) }
    ensures fault { CLOSED < result → TellsNoPicture (schedule_of schedule seed) None text.now result count.new }
    ensures only { (result < UNTOLD) ⊎ IsRefusal result }
{
    let Some(by) = schedule_of(schedule, seed) else {
        return BAD_CHOICE;
    };
    match page_bytes(alloc, text, by) {
        Ok(made) => tell(made.text.as_slice(), out, count),
        Err(fault) => tell_no_picture(fault, count),
    }
}

/// Runs a script, and writes it with the run's events as its words, as `atomfs schedule` prints it. The line is 0 if
/// they have no room.
#[unsafe(no_mangle)]
pub extern "C" fn atomfs_schedule(
    alloc: Global,
    script: &[u8],
    schedule: u8,
    seed: u64,
    out: &mut [u8],
    count: &mut usize,
) -> u8
    ensures scheduled { result < UNTOLD → IsSomeAnd (schedule_of schedule seed) (λ by. (text : List ℕ) × IsScheduleOf by script.now text × Tells result text count.new out.old out.new) }
    ensures fault { CLOSED < result → TellsNoSchedule (schedule_of schedule seed) script.now result count.new }
    ensures only { (result < UNTOLD) ⊎ IsRefusal result }
{
    let Some(by) = schedule_of(schedule, seed) else {
        return BAD_CHOICE;
    };
    match schedule_bytes(alloc, script, by) {
        Ok(text) => tell(text.as_slice(), out, count),
        Err(fault) => tell_no_schedule(fault, count),
    }
}

/// Runs a script with schedules that are drawn from a number, the next one and so on, and writes the verdict on each,
/// as `atomfs seeds` prints it.
#[unsafe(no_mangle)]
pub extern "C" fn atomfs_seeds(
    alloc: Global,
    script: &[u8],
    seed: u64,
    runs: u64,
    out: &mut [u8],
    count: &mut usize,
) -> u8
    ensures ran { result < UNTOLD → (text : List ℕ) × AreRunsOf seed runs script.now text × Tells result text count.new out.old out.new }
    ensures fault { CLOSED < result → TellsNoSeeds seed runs script.now result count.new }
    ensures only { (result < UNTOLD) ⊎ IsRefusal result }
{
    if seed > SEED_LIMIT || runs == 0 || runs > RUN_LIMIT {
        return BAD_CHOICE;
    }
    match seeds_bytes(alloc, script, seed, runs) {
        Ok(text) => tell(text.as_slice(), out, count),
        Err(fault) => tell_fault(fault, count),
    }
}

/// Finds an order in which the calls of a history took effect, and writes the journal, or why there is none, as `atomfs
/// linearize` prints it.
#[unsafe(no_mangle)]
pub extern "C" fn atomfs_linearize(
    alloc: Global,
    history: &[u8],
    limit: u64,
    form: u8,
    out: &mut [u8],
    count: &mut usize,
    found: &mut u8,
) -> u8
    ensures linearized { result < UNTOLD → (text : List ℕ) × IsFoundText history.now limit form found.new text × Tells result text count.new out.old out.new }
    ensures fault { CLOSED < result → TellsNothingFound limit form history.now result count.new }
    ensures only { (result < UNTOLD) ⊎ IsRefusal result }
{
    if limit == 0 || limit > CONFIGURATION_LIMIT || form > WORDS {
        return BAD_CHOICE;
    }
    match found_bytes(alloc, history, limit, form) {
        Ok(told) => {
            *found = told.number;
            tell(told.text.as_slice(), out, count)
        }
        Err(fault) => tell_fault(fault, count),
    }
}

/// Writes what the word of a fault means, and what to write instead, as `atomfs explain` prints it.
#[unsafe(no_mangle)]
pub extern "C" fn atomfs_explain(word: &[u8], out: &mut [u8], count: &mut usize) -> u8
    ensures explained { result < UNTOLD → (topic : Topic) × (text : List ℕ) × (word_of topic ≡ word.now) × Explains topic text × Tells result text count.new out.old out.new }
    ensures none { result ≡ BAD_CHOICE → IsUtf8 word.now → (topic : Topic) → word_of topic ≢ word.now }
    ensures only { (result < UNTOLD) ⊎ (result ≡ BAD_CHOICE) }
{
    match topic_in(word) {
        Some(topic) => tell(explanation_of(topic).as_bytes(), out, count),
        None => BAD_CHOICE,
    }
}
