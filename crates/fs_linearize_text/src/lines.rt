//! The lines of a text.

ghost use Rattle.std.specs.Prelude.{◌≡◌, false, map, IfOk, IfErr};
ghost use Rattle.fs_words.specs.Headers.{is_too_long};
ghost use Rattle.fs_words.specs.Lines.{lines_of};
ghost use Rattle.fs_linearize_text.specs.code.TooLarge.{IsTooLarge};

use fs_verdict::RunFault;
use fs_words::headers::is_too_long;
use fs_words::lines::cut_line;
use fs_words::{FaultKind, ScriptFault};
use std::alloc::{AllocError, Global};

/// The lines of a text of allowed length.
fn cut_lines(alloc: Global, text: &[u8]) -> Result<Vec<&[u8]>, AllocError>
    ensures { IfOk result (λ lines. map (λ l. l.now) lines.items ≡ lines_of text.now) }
{
    let mut lines = Vec::new(alloc);
    let mut left = text;
    'lines: while let Some((line, rest)) = cut_line(left) {
        lines.push(line)?;
        left = rest;
    }
    Ok(lines)
}

/// The lines of a text.
pub(crate) fn lines_in(alloc: Global, text: &[u8]) -> Result<Vec<&[u8]>, RunFault>
    ensures ok { IfOk result (λ lines. (is_too_long text.now ≡ false) × (map (λ l. l.now) lines.items ≡ lines_of text.now)) }
    ensures err { IfErr result (IsTooLarge text.now) }
{
    if is_too_long(text) {
        return Err(RunFault::Input(ScriptFault {
            line: 1,
            kind: FaultKind::TooLarge,
        }));
    }
    match cut_lines(alloc, text) {
        Ok(lines) => Ok(lines),
        Err(_) => Err(RunFault::OutOfMemory),
    }
}
