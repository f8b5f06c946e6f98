//! Scripts that are read from their text.

ghost use Rattle.std.specs.Prelude.{◌≡◌, codes, not, ◌&&◌};
ghost use Rattle.std.specs.Str.{bytes_eq};
ghost use Rattle.fs_script.specs.Script.{nothing_yet, blocks_from, script_of};
ghost use Rattle.fs_words.specs.code.Answers.{GivesText};

use crate::draft::Draft;
use crate::script::Script;
use fs_names::Limits;
use fs_words::headers::script_limits;
use fs_words::recent::Recent;
use fs_words::{FaultKind, Lines, ScriptFault};
use std::alloc::Global;

/// Whether this is the line at which the schedule begins.
fn begins_schedule(in_schedule: bool, line: &[u8]) -> bool
    ensures { result ≡ (not in_schedule && bytes_eq line.now (codes "schedule")) }
{
    !in_schedule && line == b"schedule".as_slice()
}

/// The script that lines make by these limits.
fn script_in(alloc: Global, limits: Limits, lines: Lines<'_>) -> Result<Script, ScriptFault>
    ensures { GivesText (λ script. script) result (blocks_from lines.entry.number (nothing_yet limits) lines.entry.lines) }
{
    let mut draft = Draft::new(alloc, limits);
    let mut words = Vec::new(alloc);
    let mut recent = Recent::new(alloc);
    let mut left = lines;
    let mut in_schedule = false;
    'lines: while let Some(line) = left.next() {
        if begins_schedule(in_schedule, line.text) {
            in_schedule = true;
            continue;
        }
        if let Err(kind) = draft.take_line(alloc, &mut recent, in_schedule, line.text, &mut words) {
            return Err(ScriptFault {
                line: line.number,
                kind,
            });
        }
    }
    if !in_schedule {
        return Err(ScriptFault {
            line: left.number(),
            kind: FaultKind::NoSchedule,
        });
    }
    Ok(draft.script)
}

/// Reads a script of any version. The fault is the first from the left, with its line.
#[tactic(auto, unfolding(crate::specs::Script::script_of))]
pub fn read_script(alloc: Global, text: &[u8]) -> Result<Script, ScriptFault>
    ensures { GivesText (λ script. script) result (script_of text.now) }
{
    let (first, lines) = Lines::behind_first(text)?;
    match script_limits(first) {
        Some(limits) => script_in(alloc, limits, lines),
        None => Err(ScriptFault {
            line: 1,
            kind: FaultKind::BadHeader,
        }),
    }
}
