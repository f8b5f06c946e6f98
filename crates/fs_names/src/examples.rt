//! Worked examples, which the check computes from the definitions.

ghost use Rattle.fs_names.specs.Examples.{PathExamples};

/// Bytes that are paths, and bytes that are none, with the first check that fails.
pub fn paths()
    ensures { PathExamples }
{}
