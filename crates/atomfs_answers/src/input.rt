//! What a command reads: standard input, or a file.

ghost use Rattle.std.specs.Prelude.{◌≡◌, None};

use std::io::{ErrorKind, Read, Result};

/// What a command reads.
#[derive(Drop)]
pub enum Input<R, F> {
    /// What the program was given to read.
    Given(R),
    /// A file that was opened.
    File(F),
}

impl<R: Read, F: Read> Read for Input<R, F> {
    ghost remaining = { λ _. None };

    fn read(&mut self, buffer: &mut [u8]) -> Result<usize> {
        match self {
            Input::Given(input) => input.read(buffer),
            Input::File(file) => file.read(buffer),
        }
    }
}

/// Why a file is not opened, in words.
pub fn words_of(kind: ErrorKind) -> &'static str {
    match kind {
        ErrorKind::NotFound | ErrorKind::NotADirectory => "no such file",
        ErrorKind::PermissionDenied => "permission denied",
        _ => "cannot be opened",
    }
}
