//! What holds of the definitions. Each function's contract is a law, and its body is empty.

ghost use Rattle.fs_linearize_dialects.specs.Laws.{WideningKeeps};

/// What explains a history explains it also as it is read by a table.
pub fn widening_keeps()
    ensures { WideningKeeps }
{}
