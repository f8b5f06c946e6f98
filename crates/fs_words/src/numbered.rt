//! Lines of a text with their numbers, after its header line.

ghost use Rattle.std.specs.Prelude.{◌≡◌, ◌<◌, Ok, Err, length, OnSome, MatchOption, MatchResult};
ghost use Rattle.fs_words.specs.Reading.{headed, behind_header};
ghost use Rattle.fs_words.specs.code.LinesLeft.{IsNext, AreOver};

use crate::fault::{FaultKind, ScriptFault};
use crate::headers::is_too_long;
use crate::lines::{cut_line, is_passed_over};
use std::marker::Model;

/// A line that is not passed over.
#[derive(Clone, Copy, Debug)]
pub struct Line<'a> {
    /// Its number, counted from 1.
    pub number: u64,
    /// Its bytes, without the line feed.
    pub text: &'a [u8],
}

/// The lines of a text that are left to be read, seen with the number of the first of them.
#[derive(Drop)]
pub struct Lines<'a> {
    rest: &'a [u8],
    number: u64,
}

impl<'a> Model for Lines<'a> {
    ghost use Rattle.std.specs.Prelude.{◌+◌, ◌<◌, ◌^◌, length};
    ghost use Rattle.fs_words.specs.Lines.{lines_of};
    ghost use Rattle.fs_words.specs.code.LinesLeft.{LinesLeft};

    ghost Value = { LinesLeft };

    ghost view = { λ l. record { number = l.number; lines = lines_of l.rest.now } };

    ghost invariant = { λ l. l.number + length l.rest.now < 2 ^ 64 };
}

impl<'a> Lines<'a> {
    /// The first line, and those after it. A text that is too long is `TooLarge`, and one without lines has a
    /// `BadHeader`, both in line 1.
    pub fn behind_first(text: &'a [u8]) -> Result<(&'a [u8], Lines<'a>), ScriptFault>
        ensures { MatchResult result
            (λ both. (both.1.number ≡ 2) × (headed text.now ≡ Ok (both.0.now, both.1.lines)))
            (λ fault. headed text.now ≡ Err fault) }
    {
        if is_too_long(text) {
            return Err(ScriptFault {
                line: 1,
                kind: FaultKind::TooLarge,
            });
        }
        match cut_line(text) {
            Some((first, rest)) => Ok((first, Lines { rest, number: 2 })),
            None => Err(ScriptFault {
                line: 1,
                kind: FaultKind::BadHeader,
            }),
        }
    }

    /// The lines after the first one, which has to be this header. A text that is too long is `TooLarge`, and one that
    /// begins otherwise has a `BadHeader`, both in line 1.
    pub fn behind_header(text: &'a [u8], header: &[u8]) -> Result<Lines<'a>, ScriptFault>
        ensures { MatchResult result
            (λ lines. (lines.number ≡ 2) × (behind_header header.now text.now ≡ Ok lines.lines))
            (λ fault. behind_header header.now text.now ≡ Err fault) }
    {
        match Lines::behind_first(text) {
            Ok((first, lines)) if first == header => Ok(lines),
            Ok(_) => Err(ScriptFault {
                line: 1,
                kind: FaultKind::BadHeader,
            }),
            Err(fault) => Err(fault),
        }
    }

    /// The number of the first line that is left; where none is left, that of the last line and one more.
    pub fn number(&self) -> u64
        ensures { result ≡ self.now.number }
    {
        self.number
    }

    /// The next line that is neither empty nor a comment.
    pub fn next(&mut self) -> Option<Line<'a>>
        ensures line { MatchOption result (AreOver self.old self.new) (λ line. IsNext self.old line self.new) }
        ensures fewer { OnSome result (length self.new.lines < length self.old.lines) }
    {
        'lines: while let Some((text, rest)) = cut_line(self.rest) {
            let number = self.number;
            self.rest = rest;
            self.number += 1;
            if !is_passed_over(text) {
                return Some(Line { number, text });
            }
        }
        None
    }
}
