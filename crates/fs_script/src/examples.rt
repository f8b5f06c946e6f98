//! Worked examples, which the check computes from the definitions.

ghost use Rattle.fs_script.specs.Examples.{ScriptFaults, ScriptsRead, TreeTexts, JournalTexts, StartFaults, JournalsRead};

/// Texts that are no scripts, with the first fault and its line.
pub fn script_faults()
    ensures { ScriptFaults }
{}

/// Scripts, with what they say.
pub fn scripts()
    ensures { ScriptsRead }
{}

/// Journals from the root and from other trees, as they are written.
pub fn journals_written()
    ensures { JournalTexts }
{}

/// Journals that have no start tree although they have to, with the line.
pub fn start_faults()
    ensures { StartFaults }
{}

/// Journals, with their start trees and entries.
pub fn journals_read()
    ensures { JournalsRead }
{}

/// Trees after some calls, as they are written.
pub fn trees()
    ensures { TreeTexts }
{}
