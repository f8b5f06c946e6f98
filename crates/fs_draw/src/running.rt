//! The command that draws a script's run, or a journal.

ghost use Rattle.std.specs.Prelude.{◌≡◌, ℕ, Bool, true, false, List, IfOk, IfErr};
ghost use Rattle.fs_draw.specs.Faults.{IsFaultBy, IsFaultOfPicture, out_of_memory};
ghost use Rattle.fs_verdict.specs.Checks.{is_journal};
ghost use Rattle.fs_draw.specs.Pictures.{IsOf, IsOfJournal, IsOfRun};
ghost use Rattle.fs_draw.specs.Makes.{MakesPicture};

use crate::fault::DrawFault;
use crate::picture::picture_of;
use crate::view::View;
use fs_draw_scene::{Scene, Strip, folded, scene_of_journal, scene_of_run};
use fs_journal::check_from;
use fs_sched::{RunFault, Schedule, is_lawful, journal_in, script_in, watch};
use fs_trace_story::Teller;
use fs_verdict::{Command, Made, is_journal};
use std::alloc::Global;

/// The fault where memory ran out.
fn out_of_memory() -> DrawFault
    ensures { result ≡ out_of_memory }
{
    DrawFault::Run(RunFault::OutOfMemory)
}

/// The fault where nothing is drawn although there is memory for it: no call has the number. Where no number is asked for, all is drawn.
fn nothing_drawn(call: Option<u64>) -> DrawFault
    ensures { (journal : Bool) (schedule : Schedule) (input : List ℕ) → IsFaultBy journal schedule call input result }
{
    match call {
        Some(number) => DrawFault::NoCall(number),
        None => out_of_memory(),
    }
}

/// A scene, and whether what it shows went well.
#[derive(Drop)]
struct Drawing {
    scene: Scene,
    well: bool,
}

/// The scene of a script's run, or of the part around a call; and whether each call returned.
fn of_script(
    alloc: Global,
    text: &[u8],
    schedule: Schedule,
    call: Option<u64>,
) -> Result<Drawing, DrawFault>
    ensures drawn { IfOk result (λ drawing. IsOfRun schedule text.now drawing.well) }
    ensures fault { IfErr result (IsFaultBy false schedule call text.now) }
{
    let script = script_in(alloc, text)?;
    let Ok(strip) = Strip::new(alloc, &script) else {
        return Err(out_of_memory());
    };
    let Ok(mut teller) = Teller::new(alloc, &script, false, strip) else {
        return Err(out_of_memory());
    };
    let ran = watch(alloc, &script, schedule, &mut teller)?;
    let Ok(story) = teller.story() else {
        return Err(out_of_memory());
    };
    let Ok(scene) = scene_of_run(alloc, &script, story, call) else {
        return Err(out_of_memory());
    };
    let Some(scene) = scene else {
        return Err(nothing_drawn(call));
    };
    Ok(Drawing {
        scene,
        well: ran.end.returned == ran.end.calls,
    })
}

/// The scene of a journal, or of the part around a call; and whether the journal is lawful.
fn of_journal(alloc: Global, text: &[u8], call: Option<u64>) -> Result<Drawing, DrawFault>
    ensures drawn { IfOk result (λ drawing. IsOfJournal text.now drawing.well) }
    ensures fault { (schedule : Schedule) → IfErr result (IsFaultBy true schedule call text.now) }
{
    let journal = journal_in(alloc, text)?;
    let Ok(verdict) = check_from(alloc, &journal.start, journal.entries.as_slice()) else {
        return Err(out_of_memory());
    };
    let Ok(scene) = scene_of_journal(alloc, &journal, &verdict, text, call) else {
        return Err(out_of_memory());
    };
    let Some(scene) = scene else {
        return Err(nothing_drawn(call));
    };
    Ok(Drawing {
        scene,
        well: is_lawful(&verdict),
    })
}

/// The scene of a text, or of the part around a call; and whether what the whole shows went well.
fn drawing_of(
    alloc: Global,
    text: &[u8],
    schedule: Schedule,
    call: Option<u64>,
) -> Result<Drawing, DrawFault>
    ensures drawn { IfOk result (λ drawing. IsOf (is_journal text.now) schedule text.now drawing.well) }
    ensures fault { IfErr result (IsFaultOfPicture schedule call text.now) }
{
    if is_journal(text) {
        of_journal(alloc, text, call)
    } else {
        of_script(alloc, text, schedule, call)
    }
}

/// The picture of a text, and whether each call of its script returned, or its journal is lawful.
fn draw_text(
    alloc: Global,
    text: Vec<u8>,
    schedule: Schedule,
    view: View,
) -> Result<Made<bool>, DrawFault>
    ensures { MakesPicture schedule view.around text.items result }
{
    let drawing = drawing_of(alloc, text.as_slice(), schedule, view.around)?;
    drop(text);
    let well = drawing.well;
    let Ok(scene) = folded(alloc, drawing.scene, view.folds) else {
        return Err(out_of_memory());
    };
    match picture_of(alloc, &scene, view.width) {
        Ok(text) => Ok(Made { text, end: well }),
        Err(_) => Err(out_of_memory()),
    }
}

/// Draws a picture of a script's run by a schedule, or of a journal, whatever the schedule: a journal is what has the first bytes of one. If
/// the view has a call's number, that call and those that overlap it are drawn alone. The picture is an SVG file, and a function of the
/// input and of what is asked for. The answer is whether each call of the script returned, or the journal is lawful. Who listens hears
/// nothing. There is no picture if the input has a fault, if no call has the number, or if memory runs out. Nor is there one if the script
/// comes to a checkpoint while calls are pending.
#[derive(Clone, Copy, Debug)]
pub struct DrawInput {
    /// The order of the run's events.
    pub schedule: Schedule,
    /// What is drawn, and how.
    pub view: View,
}

impl<Listener> Command<Listener> for DrawInput {
    ghost use Rattle.fs_draw.specs.code.Laws.{picture_honest};

    type End = bool;

    type Fault = DrawFault;

    ghost Asks = { λ _. Unit {0} };

    ghost Makes = { λ c. MakesPicture c.schedule c.view.around };

    fn make(
        self,
        alloc: Global,
        input: Vec<u8>,
        _listener: &mut Listener,
    ) -> Result<Made<bool>, DrawFault> {
        draw_text(alloc, input, self.schedule, self.view)
    }

    ghost honest = { λ c. picture_honest c.schedule c.view.around };
}
