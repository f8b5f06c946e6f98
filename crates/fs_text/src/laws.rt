//! What holds of the texts. Each function's contract is a law, and its body is empty.

ghost use Rattle.fs_text.specs.Laws.{ReadsBack};

/// Entries that were written after the header line are read again as the same entries.
pub fn reads_back()
    ensures { ReadsBack }
{}
