//! How many events a word means that names a call.

ghost use Rattle.std.specs.Prelude.{◌≡◌, ◌≢◌, ◌++◌, ◌≤◌, true, false, Ok, Some, None, IfOk, IfSome, MatchOption, length};
ghost use Rattle.fs_script.specs.Limits.{call_limit};
ghost use Rattle.fs_script.specs.Script.{script_of};
ghost use Rattle.fs_sched.specs.Gives.{given_words, single_words};
ghost use Rattle.fs_sched.specs.Origins.{CanBegin};
ghost use Rattle.fs_sched.specs.Runs.{calls_in};
ghost use Rattle.fs_sched_reach.specs.Counts.{target_of, target_on, HasNoCount, IsCount};
ghost use Rattle.fs_sched_reach.specs.Words.{times_word, CallWord};
ghost use Rattle.fs_sched_reach.specs.code.Counting.{CountsBy, HasNoScript, HasNoTarget, IsSought, RunCounts, is_stop};

use crate::lookout::Lookout;
use crate::reach::{Reach, with_name, with_times};
use crate::target::Target;
use fs_names::Limits;
use fs_sched::{Origin, RunFault, Schedule, script_in, watch_at};
use fs_script::limits::EVENT_LIMIT;
use fs_script::{Script, Word};
use std::alloc::{AllocError, Global};

/// The number of events of its thread that are tried first for a word.
const FIRST_TRY: u64 = 256;

/// How many times as many are tried next.
const MORE: u64 = 16;

/// What is sought for a word: the call to which its thread is to come, how many moments the words before have, and for how many
/// events the schedule has room after them.
#[derive(Drop)]
struct Sought {
    target: Target,
    before: u64,
    room: u64,
}

/// The script that a text has; none if it has a fault.
fn script_if_read(alloc: Global, text: &[u8]) -> Result<Option<Script>, AllocError>
    ensures read { IfOk result (λ script. MatchOption script (HasNoScript text.now) (λ s. script_of text.now ≡ Ok s)) }
    ensures few { IfOk result (λ script. IfSome script (λ s. calls_in s.lists ≤ call_limit s.limits)) }
{
    match script_in(alloc, text) {
        Ok(script) => Ok(Some(script)),
        Err(RunFault::Input(_)) => Ok(None),
        Err(_) => Err(AllocError),
    }
}

/// How many moments a word gives.
fn moments_of(word: &Word) -> u64
    ensures { result ≡ length (single_words word.now) }
{
    match word {
        Word::Events(_, times) => *times,
        Word::Checkpoint => 1,
        Word::Finish | Word::Drawn => 0,
    }
}

/// How many moments words give. No text has room for so many that their number does not fit.
fn moments_in(words: &[Word]) -> Result<u64, AllocError>
    ensures { IfOk result (λ moments. moments ≡ length (given_words words.now)) }
{
    let mut moments: u64 = 0;
    for word in words {
        moments = match moments.checked_add(moments_of(word)) {
            Some(sum) => sum,
            None => return Err(AllocError),
        };
    }
    Ok(moments)
}

/// The call of this number of a thread, if the script has it.
fn target_on(script: &Script, seat: usize, call: u64, to_commit: bool) -> Option<Target>
    ensures target { (w : CallWord) → w.to_commit ≡ to_commit → result ≡ target_on script.now w (Some seat) (Some call) }
    ensures first { IfSome result (λ target. 1 ≤ target.call) }
{
    if call < 1 || call > script.lists.of(seat).len() as u64 {
        return None;
    }
    Some(Target {
        seat,
        call,
        to_commit,
    })
}

/// The call that a word names, if the script has it.
fn target_of(script: &Script, reach: &Reach<'_>) -> Option<Target>
    ensures target { result ≡ target_of script.now reach.now }
    ensures first { IfSome result (λ target. 1 ≤ target.call) }
{
    let Some(seat) = script.names.seat(reach.name) else {
        return None;
    };
    match reach.call {
        Some(call) => target_on(script, seat, call, reach.to_commit),
        None => None,
    }
}

/// What is sought for a word after a text; none if the text cannot be read, or the script has no such call.
fn seek(alloc: Global, text: &[u8], reach: &Reach<'_>) -> Result<Option<Sought>, AllocError>
    ensures { IfOk result (λ sought. MatchOption sought (HasNoTarget text.now reach.now) (IsSought text.now reach.now)) }
{
    let alone = with_name(alloc, text, reach.name)?;
    let Some(script) = script_if_read(alloc, &alone)? else {
        return Ok(None);
    };
    let Some(target) = target_of(&script, reach) else {
        return Ok(None);
    };
    let before = moments_in(script.words.as_slice())?.saturating_sub(1);
    Ok(Some(Sought {
        target,
        before,
        room: EVENT_LIMIT.saturating_sub(before),
    }))
}

/// Whether a fault stops a run: it is no want of memory.
fn is_stop(fault: &RunFault) -> bool
    ensures { result ≡ is_stop fault.now }
{
    matches!(fault, RunFault::Full | RunFault::UnderWay(_))
}

/// No count, if a fault stops a run; or out of memory.
fn if_stopped(fault: &RunFault) -> Result<Option<u64>, AllocError>
    ensures { IfOk result (λ count. (count ≡ None) × (is_stop fault.now ≡ true)) }
{
    if is_stop(fault) {
        Ok(None)
    } else {
        Err(AllocError)
    }
}

/// Whether limits are the same.
fn are_same(one: Limits, other: Limits) -> bool
    ensures same { result ≡ true → one ≡ other }
    ensures others { result ≡ false → one ≢ other }
{
    one == other
}

/// By how many moments after those before the word a script's run from there comes to the call; none if it does not, or stops.
fn run_count(
    alloc: Global,
    from: &Origin,
    script: &Script,
    sought: &Sought,
) -> Result<Option<u64>, AllocError>
    requires few { calls_in script.now.lists ≤ call_limit script.now.limits }
    requires begins { CanBegin from.now script.now.limits }
    requires call { 1 ≤ sought.now.target.call }
    ensures { IfOk result (RunCounts from.now script.now sought.now.target sought.now.before) }
{
    let mut lookout = Lookout::new(sought.target);
    if let Err(fault) = watch_at(alloc, from, script, Schedule::Given, &mut lookout) {
        return if_stopped(&fault);
    }
    Ok(lookout.moments_after(sought.before))
}

/// The same of the run of a text with so many events of the thread as its last word.
fn count_within(
    alloc: Global,
    from: &Origin,
    limits: Limits,
    text: &[u8],
    name: &[u8],
    sought: &Sought,
    times: u64,
) -> Result<Option<u64>, AllocError>
    requires begins { CanBegin from.now limits }
    requires call { 1 ≤ sought.now.target.call }
    ensures { IfOk result (CountsBy from.now limits sought.now.target sought.now.before (text.now ++ times_word name.now times)) }
{
    let long = with_times(alloc, text, name, times)?;
    let Some(script) = script_if_read(alloc, &long)? else {
        return Ok(None);
    };
    if !are_same(script.limits, limits) {
        return Ok(None);
    }
    run_count(alloc, from, &script, sought)
}

/// How many events a word means that names a call, after a text; none if it is no number. Few events are tried first, so that a run
/// that soon comes to the call does not go on for long.
pub(crate) fn count_of(
    alloc: Global,
    from: &Origin,
    limits: Limits,
    text: &[u8],
    reach: &Reach<'_>,
) -> Result<Option<u64>, AllocError>
    requires begins { CanBegin from.now limits }
    ensures { IfOk result (λ count. MatchOption count (HasNoCount from.now limits text.now reach.now) (IsCount from.now limits text.now reach.now)) }
{
    let Some(sought) = seek(alloc, text, reach)? else {
        return Ok(None);
    };
    let mut times = FIRST_TRY;
    'tries: while times < sought.room {
        if let Some(count) = count_within(alloc, from, limits, text, reach.name, &sought, times)? {
            return Ok(Some(count));
        }
        times = times.saturating_mul(MORE);
    }
    count_within(alloc, from, limits, text, reach.name, &sought, sought.room)
}
