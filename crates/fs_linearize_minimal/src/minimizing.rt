//! The command that leaves of a history without an order what shows it.

ghost use Rattle.std.specs.Prelude.{[], ◌≡◌, IfOk};
ghost use Rattle.fs_linearize_text.specs.Texts.{history_of};
ghost use Rattle.fs_linearize_minimal.specs.Minimal.{IsRefuted};
ghost use Rattle.fs_linearize_minimal.specs.Minimizing.{IsMinimizing};
ghost use Rattle.fs_linearize_minimal.specs.Makes.{MakesMinimal};
ghost use Rattle.fs_linearize_minimal.specs.code.Cuts.{IsCut, IsRefusedBy};

use crate::cutting::{cut_by_halves, cut_ones};
use crate::parts::{calls_in, copies};
use crate::reason::{Reason, could_be_right};
use crate::writing::history_text;
use fs_linearize::{Found, Possible, Progress, linearize};
use fs_linearize_dialects::Dialect;
use fs_linearize_histories::{Heard, HistoryFault};
use fs_linearize_text::{History, read_history};
use fs_names::CallNo;
use fs_seq::SeqTree;
use fs_verdict::{Command, Made, RunFault};
use std::alloc::{AllocError, Global};

/// What came of a history.
#[derive(Clone, Copy, Debug, PartialEq, Eq)]
pub enum Minimized {
    /// No journal explains it, and what shows that is written: so many of its calls, of so many; and how many histories were tried.
    Core(usize, usize, usize),
    /// A journal explains it, and nothing is written.
    Lawful,
    /// It is no history: the entry of this place, counted from 1, cannot come next. Nothing is written.
    Fault(usize, HistoryFault),
    /// The limit was reached in the search of the whole, which had come to the entry of this place, counted from 1. Nothing is written.
    Unknown(usize),
}

/// The text of what is left of a history, how many calls that has, and how many histories were tried for it.
#[derive(Drop)]
struct Core {
    text: Vec<u8>,
    calls: usize,
    trials: usize,
}

/// The first return that nothing explains: its place, counted from 1, its call, and what that could have replied.
#[derive(Drop)]
struct Refusal {
    place: usize,
    call: CallNo,
    possible: Possible,
}

/// What is left of a history that ends with the first return that nothing explains.
fn core_of<P: Progress>(
    alloc: Global,
    start: &SeqTree,
    reason: &Reason,
    front: Vec<Heard>,
    limit: usize,
    progress: &mut P,
) -> Result<Core, AllocError>
    requires refuted { IsRefuted start.now limit reason.now front.items }
    ensures { IfOk result (IsCut start.now limit reason.now front.items) }
{
    let mut entries = front;
    let mut trials = 0;
    cut_by_halves(
        alloc,
        start,
        reason,
        limit,
        &mut entries,
        &mut trials,
        progress,
    )?;
    cut_ones(
        alloc,
        start,
        reason,
        limit,
        &mut entries,
        &mut trials,
        progress,
    )?;
    let calls = calls_in(alloc, entries.as_slice())?.len();
    let text = history_text(alloc, start, entries)?;
    Ok(Core {
        text,
        calls,
        trials,
    })
}

/// What shows that a history has no order, where this is found of it: the first return that nothing explains is that of a call.
fn shown<P: Progress>(
    alloc: Global,
    start: &SeqTree,
    history: Vec<Heard>,
    refusal: Refusal,
    limit: usize,
    progress: &mut P,
) -> Result<Made<Minimized>, AllocError>
    requires refused { IsRefusedBy start.now history.items limit refusal }
    ensures { IfOk result (λ made. IsMinimizing start.now history.items limit made.end made.text.items) }
{
    let all = calls_in(alloc, history.as_slice())?.len();
    let mut front = history;
    front.truncate(refusal.place);
    let call = refusal.call;
    let race = could_be_right(alloc, start, call, front.as_slice(), limit, progress)?;
    let reason = Reason {
        call,
        possible: refusal.possible,
        race,
    };
    let core = core_of(alloc, start, &reason, front, limit, progress)?;
    Ok(Made {
        text: core.text,
        end: Minimized::Core(core.calls, all, core.trials),
    })
}

/// What is answered where nothing is written.
fn unwritten(alloc: Global, end: Minimized) -> Made<Minimized>
    ensures end { result.end ≡ end }
    ensures text { result.text.items ≡ [] }
{
    let text = Vec::new(alloc);
    Made { text, end }
}

/// What is made of a history from its start tree.
fn minimize<P: Progress>(
    alloc: Global,
    start: &SeqTree,
    history: Vec<Heard>,
    limit: usize,
    progress: &mut P,
) -> Result<Made<Minimized>, AllocError>
    ensures { IfOk result (λ made. IsMinimizing start.now history.items limit made.end made.text.items) }
{
    let whole = copies(alloc, history.as_slice())?;
    let found = linearize(alloc, start, whole, limit, progress)?;
    match found {
        Found::NoOrder {
            place,
            call,
            possible,
            ..
        } => {
            let refusal = Refusal {
                place,
                call,
                possible,
            };
            shown(alloc, start, history, refusal, limit, progress)
        }
        Found::Lawful(_) => Ok(unwritten(alloc, Minimized::Lawful)),
        Found::Fault(place, kind) => Ok(unwritten(alloc, Minimized::Fault(place, kind))),
        Found::Unknown(place) => Ok(unwritten(alloc, Minimized::Unknown(place))),
    }
}

/// The same of the history that a text has.
fn minimize_text<P: Progress>(
    alloc: Global,
    text: &[u8],
    dialect: &Dialect,
    limit: usize,
    progress: &mut P,
) -> Result<Made<Minimized>, RunFault>
    ensures { MakesMinimal (history_of dialect.now text.now) limit result }
{
    let History { start, entries } = read_history(alloc, text, dialect)?;
    match minimize(alloc, &start, entries, limit, progress) {
        Ok(made) => Ok(made),
        Err(_) => Err(RunFault::OutOfMemory),
    }
}

/// Cuts a history down to what shows that no journal explains it, and writes a part of it that none explains either. That is a history from
/// the same start tree. It ends with the first return that nothing explains, which is that of the same call. If its reply could be right
/// in the whole, with other replies of the other calls, it still could. If not, the call could have had the same replies as in the whole.
/// None of the calls that are left can go, by what is found of the others.
///
/// The answer says how many calls are left, of how many, and how many histories were tried. While halves of the calls, halves of these
/// and so on are taken out, these are at most twice the calls. After that they are at most the square of the calls that are left. Nothing is
/// written of a history that a journal explains, of entries that are none, or if the limit is reached. Who listens hears how many entries have
/// passed in each search. There is no text only if the input has a fault, or memory runs out.
#[derive(Drop)]
pub struct MinimizeHistory {
    /// What the recorded tree replies: the table by which the history is read.
    pub dialect: Dialect,
    /// The most configurations that one search makes, or few more.
    pub limit: usize,
}

impl<P: Progress> Command<P> for MinimizeHistory {
    ghost use Rattle.fs_linearize_minimal.specs.code.Laws.{minimal_honest};

    type End = Minimized;

    type Fault = RunFault;

    ghost Asks = { λ _. Unit {0} };

    ghost Makes = { λ c input. MakesMinimal (history_of c.dialect input) c.limit };

    fn make(
        self,
        alloc: Global,
        input: Vec<u8>,
        progress: &mut P,
    ) -> Result<Made<Minimized>, RunFault> {
        minimize_text(alloc, input.as_slice(), &self.dialect, self.limit, progress)
    }

    ghost honest = { λ c. minimal_honest c.dialect c.limit };
}
