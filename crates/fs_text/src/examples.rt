//! Worked examples, which the check computes from the definitions.

ghost use Rattle.fs_text.specs.Examples.{JournalFaults, JournalsRead, TextsWritten, NumbersRead};

/// Texts that are no journals, with the first fault and its line.
pub fn journal_faults()
    ensures { JournalFaults }
{}

/// Journals, with their entries.
pub fn journals()
    ensures { JournalsRead }
{}

/// Entries and names as they are written.
pub fn texts_written()
    ensures { TextsWritten }
{}

/// Words that are numbers, and words that are none.
pub fn numbers()
    ensures { NumbersRead }
{}
