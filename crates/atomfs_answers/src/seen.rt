//! What was read of a text, and what a message shows of it beside its fault.

ghost use Rattle.std.specs.Prelude.{◌≡◌, ◌+◌, ◌-◌, ◌<◌, ◌≤◌, ◌^◌, length, if◌then◌else◌, None, OnOk};

use fs_draw::DrawFault;
use fs_sched::{Failed, RunFault, Source};
use fs_sched_start::StartFault;
use fs_sched_threads::ThreadsFault;
use fs_trace::ScheduleFault;
use fs_trace_replay::ReplayFault;
use fs_words::headers::{script_limits, started_limits};
use fs_words::lines::cut_line;
use fs_words::words::is_word;
use fs_words::{FaultKind, ScriptFault};
use std::alloc::{AllocError, Global};
use std::mem;

/// The most columns of a line that are shown.
const WIDTH: usize = 80;

/// More bytes than are said of a fault after its line and its kind.
const MOST: usize = 512;

/// What is written in place of the rest of a line.
const REST: &[u8] = b"...";

const DIGITS: &[u8; 16] = b"0123456789abcdef";

/// So many lines are shown before the line of an entry at fault.
const LINES_BEFORE: u64 = 3;

/// How red words begin on a terminal, and how they end.
const RED: &[u8] = b"\x1b[31m";

const PLAIN: &[u8] = b"\x1b[0m";

/// So many bytes of a text are kept, from its first on: to keep more would cost those whose texts have no fault.
const SEEN_BYTES: usize = 65_536;

/// So many bytes are read ahead, at most.
const AHEAD_BYTES: usize = 16_384;

/// So many of them at once.
const PIECE_BYTES: usize = 4_096;

/// How the line of an entry at fault is shown, with the lines before it.
#[derive(Clone, Copy, Debug, PartialEq, Eq)]
pub enum Excerpts {
    /// Not at all.
    Off,
    /// With a mark.
    Plain,
    /// With a mark, and in red.
    Red,
}

/// What was read of a text, as far as it is kept, and how entries at fault are shown in it.
#[derive(Drop)]
pub struct Seen {
    alloc: Global,
    /// What is kept: the text from its first byte on.
    pub text: Vec<u8>,
    is_full: bool,
    /// How entries at fault are shown.
    pub excerpts: Excerpts,
}

impl Seen {
    /// Nothing was read yet. It takes no memory.
    pub fn new(alloc: Global) -> Seen {
        Seen {
            alloc,
            text: Vec::new(alloc),
            is_full: false,
            excerpts: Excerpts::Off,
        }
    }

    /// Makes all its room at once, if it has none yet: a text that grows beside it would be moved again and again. The answer is
    /// whether there is memory.
    fn makes_room(&mut self) -> bool {
        if self.is_full || self.text.capacity() > 0 {
            return !self.is_full;
        }
        match Vec::with_capacity(self.alloc, SEEN_BYTES) {
            Ok(text) => {
                self.text = text;
                true
            }
            Err(_) => {
                self.is_full = true;
                false
            }
        }
    }

    /// Keeps what was read next. Where there is no memory for it, or no room, nothing more is kept.
    fn keep(&mut self, piece: &[u8]) {
        if !self.makes_room() {
            return;
        }
        let room = SEEN_BYTES.saturating_sub(self.text.len());
        let fits = piece.len().min(room);
        self.is_full = self.text.extend_from_slice(&piece[..fits]).is_err() || fits < piece.len();
    }

    /// The line of a number, counted from 1, where all of it was kept.
    fn line(&self, number: u64) -> Option<&[u8]> {
        let mut left = self.text.as_slice();
        let mut at = 0u64;
        'lines: while let Some((line, rest)) = cut_line(left) {
            at = at.saturating_add(1);
            if at == number {
                let is_cut = self.is_full && rest.is_empty();
                return if is_cut { None } else { Some(line) };
            }
            left = rest;
        }
        None
    }

    /// What a message says after this fault of the text: its line, and which word to have explained. If its first line
    /// is another than it has to be, the message also says what the text is. Without memory it says nothing.
    pub(crate) fn about(&self, fault: ScriptFault, is_tree: bool) -> Vec<u8> {
        match self.lines_about(fault, is_tree) {
            Ok(lines) => lines,
            Err(_) => Vec::new(self.alloc),
        }
    }

    /// The line that a message names at its front, with the lines before it, as far as they were kept. Nothing where no line is named
    /// or none is shown; without memory it shows nothing.
    pub(crate) fn excerpt(&self, message: &[u8]) -> Vec<u8> {
        match self.lines_up_to(message) {
            Ok(lines) => lines,
            Err(_) => Vec::new(self.alloc),
        }
    }

    fn lines_up_to(&self, message: &[u8]) -> Result<Vec<u8>, AllocError> {
        let mut lines = Vec::new(self.alloc);
        let (Some(last), false) = (line_named(message), self.excerpts == Excerpts::Off) else {
            return Ok(lines);
        };
        if self.line(last).is_none() {
            return Ok(lines);
        }
        for number in last.saturating_sub(LINES_BEFORE).max(1)..last {
            if let Some(line) = self.line(number) {
                push_numbered(self.alloc, b"  ", number, line, &mut lines)?;
            }
        }
        if let Some(line) = self.line(last) {
            self.push_marked(last, line, &mut lines)?;
        }
        Ok(lines)
    }

    /// Adds the line of an entry at fault.
    fn push_marked(&self, number: u64, line: &[u8], lines: &mut Vec<u8>) -> Result<(), AllocError> {
        let is_red = self.excerpts == Excerpts::Red;
        if is_red {
            lines.extend_from_slice(RED)?;
        }
        push_numbered(self.alloc, b"> ", number, line, lines)?;
        if is_red {
            let _ = lines.pop();
            lines.extend_from_slice(PLAIN)?;
            lines.push(b'\n')?;
        }
        Ok(())
    }

    fn lines_about(&self, fault: ScriptFault, is_tree: bool) -> Result<Vec<u8>, AllocError> {
        let mut lines = Vec::with_capacity(self.alloc, MOST)?;
        if let Some(line) = self.line(fault.line) {
            push_shown(line, &mut lines)?;
        }
        if fault.kind == FaultKind::BadHeader {
            if let Some(words) = nature_of(self.text.as_slice(), is_tree) {
                lines.extend_from_slice(words)?;
                lines.push(b'\n')?;
            }
        }
        let kind = fault.kind;
        let advice = format!(in self.alloc; "`atomfs explain {kind}` says what to write instead")?;
        lines.extend_from_slice(advice.as_bytes())?;
        Ok(lines)
    }
}

/// The number of the line that a message names at its front, as in `line 14: return 3 failed ENOENT`.
fn line_named(message: &[u8]) -> Option<u64> {
    let mut number = 0u64;
    for byte in message.strip_prefix(b"line ".as_slice())? {
        match byte {
            b'0'..=b'9' => {
                number = number
                    .saturating_mul(10)
                    .saturating_add((*byte - b'0') as u64);
            }
            b':' => return Some(number),
            _ => return None,
        }
    }
    None
}

/// Adds a line with its number, after a mark.
fn push_numbered(
    alloc: Global,
    mark: &[u8],
    number: u64,
    line: &[u8],
    lines: &mut Vec<u8>,
) -> Result<(), AllocError> {
    lines.extend_from_slice(mark)?;
    let number = format!(in alloc; "{number:>6} | ")?;
    lines.extend_from_slice(number.as_bytes())?;
    push_fitted(line, lines)
}

/// Adds a line as a terminal shows it, after two spaces.
fn push_shown(line: &[u8], lines: &mut Vec<u8>) -> Result<(), AllocError> {
    if line.is_empty() {
        return Ok(());
    }
    lines.extend_from_slice(b"  ")?;
    push_fitted(line, lines)
}

/// Adds what of a line fits into the columns.
fn push_fitted(line: &[u8], lines: &mut Vec<u8>) -> Result<(), AllocError> {
    let from = lines.len();
    for byte in line {
        if lines.len().saturating_sub(from) > WIDTH {
            break;
        }
        push_byte(*byte, lines)?;
    }
    if lines.len().saturating_sub(from) > WIDTH {
        lines.truncate(from.saturating_add(WIDTH - REST.len()));
        lines.extend_from_slice(REST)?;
    }
    lines.push(b'\n')?;
    Ok(())
}

/// Adds a byte; one that is no printable ASCII character by an escape, and so a backslash.
fn push_byte(byte: u8, lines: &mut Vec<u8>) -> Result<(), AllocError> {
    match byte {
        b'\t' => lines.extend_from_slice(b"\\t"),
        b'\r' => lines.extend_from_slice(b"\\r"),
        b'\\' => lines.extend_from_slice(b"\\\\"),
        b' '..=b'~' => {
            lines.push(byte)?;
            Ok(())
        }
        _ => {
            let (high, low) = (DIGITS[(byte / 16) as usize], DIGITS[(byte % 16) as usize]);
            lines.extend_from_slice(&[b'\\', b'x', high, low])
        }
    }
}

/// Whether a line is the first one of a journal.
fn begins_journal(line: &[u8]) -> bool {
    is_word(line, b"atomfs-journal 1") || started_limits(line).is_some()
}

/// What a text is whose first line is another than it has to be, where that is known.
fn nature_of(text: &[u8], is_tree: bool) -> Option<&'static [u8]> {
    let Some((first, _)) = cut_line(text) else {
        return Some(b"the text is empty");
    };
    if first.starts_with(b"\xef\xbb\xbf") {
        return Some(b"the text begins with a byte order mark: write it without one");
    }
    if first.ends_with(b"\r") {
        return Some(b"the lines end with CR LF: write LF alone");
    }
    if begins_journal(first) {
        return Some(if is_tree {
            b"this journal has other limits than the script: give both the same version"
        } else {
            b"this is a journal: `atomfs check` reads it"
        });
    }
    if script_limits(first).is_some() {
        return Some(b"this is a script: `atomfs run` reads it");
    }
    if is_word(first, b"tree") {
        return Some(b"this is a tree: `atomfs run --from` reads it");
    }
    if first.starts_with(b"atomfs-trace ") {
        return Some(b"this is a trace, which no command reads");
    }
    None
}

/// What is given before a source goes on: what is kept of it from a place on, or another text from a place on.
#[derive(Drop)]
enum Ahead {
    Nothing,
    Kept(usize),
    Made(Vec<u8>, usize),
}

/// Copies a text from a place on to the front of a buffer, and answers how many bytes.
fn give(text: &[u8], at: usize, buffer: &mut [u8]) -> usize
    ensures within { result ≤ length buffer.new }
    ensures same { length buffer.new ≡ length buffer.old }
{
    if at >= text.len() {
        return 0;
    }
    let count = buffer.len().min(text.len() - at);
    buffer[..count].copy_from_slice(&text[at..at + count]);
    count
}

/// A source, and what was read of it. What it gives is not known to proofs.
#[derive(Drop)]
pub struct Kept<R> {
    /// The source.
    pub inner: R,
    /// What was read of it.
    pub seen: Seen,
    ahead: Ahead,
    /// It came to its end, and is not asked again: a terminal would want a second end.
    is_over: bool,
}

impl<R> Kept<R> {
    /// A source of which nothing was read yet.
    pub fn new(alloc: Global, inner: R) -> Kept<R>
        ensures { result.inner ≡ inner }
    {
        Kept {
            inner,
            seen: Seen::new(alloc),
            ahead: Ahead::Nothing,
            is_over: false,
        }
    }

    /// Gives another text in the place of the one that was read ahead. What was read is shown all the same.
    pub fn give_instead(&mut self, text: Vec<u8>)
        ensures { self.new.inner ≡ self.old.inner }
    {
        self.ahead = Ahead::Made(text, 0);
    }

    /// Gives what was read ahead, and answers how many bytes.
    fn give_ahead(&mut self, buffer: &mut [u8]) -> usize
        ensures inner { self.new.inner ≡ self.old.inner }
        ensures within { result ≤ length buffer.new }
        ensures same { length buffer.new ≡ length buffer.old }
    {
        let (count, ahead) = match mem::replace(&mut self.ahead, Ahead::Nothing) {
            Ahead::Nothing => return 0,
            Ahead::Kept(at) => {
                let count = give(self.seen.text.as_slice(), at, buffer);
                (count, Ahead::Kept(at.saturating_add(count)))
            }
            Ahead::Made(text, at) => {
                let count = give(text.as_slice(), at, buffer);
                (count, Ahead::Made(text, at.saturating_add(count)))
            }
        };
        if count > 0 {
            self.ahead = ahead;
        }
        count
    }
}

impl<R: Source> Kept<R> {
    /// Reads ahead, and answers whether that is the whole text. It is kept, and given all the same.
    pub fn read_ahead(&mut self) -> Result<bool, Failed>
        requires { R.failures self.old.inner < 2 ^ 64 - 1 }
        ensures { OnOk result (R.failures self.new.inner ≡ R.failures self.old.inner) }
    {
        if !self.seen.makes_room() {
            return Ok(false);
        }
        self.ahead = Ahead::Kept(0);
        let mut piece = [0u8; PIECE_BYTES];
        // Each time at least one byte comes.
        for _ in 0..AHEAD_BYTES {
            let room = AHEAD_BYTES.saturating_sub(self.seen.text.len());
            let most = room.min(PIECE_BYTES);
            if most == 0 {
                return Ok(false);
            }
            let count = self.inner.read(&mut piece[..most])?;
            if count == 0 {
                self.is_over = true;
                return Ok(true);
            }
            self.seen.keep(&piece[..count]);
            if self.seen.is_full {
                return Err(Failed);
            }
        }
        Ok(false)
    }
}

impl<R: Source> Source for Kept<R> {
    ghost remaining = { λ kept. None };

    ghost failures = { λ kept. R.failures kept.inner };

    fn read(&mut self, buffer: &mut [u8]) -> Result<usize, Failed> {
        if buffer.is_empty() {
            return Ok(0);
        }
        let given = self.give_ahead(buffer);
        if given > 0 || self.is_over {
            return Ok(given);
        }
        match self.inner.read(buffer) {
            Ok(count) => {
                self.seen.keep(&buffer[..count]);
                Ok(count)
            }
            Err(fault) => Err(fault),
        }
    }
}

/// A fault of a command, which may be one of the text that was read.
pub(crate) trait Faulty {
    /// The fault of the text, where it is one.
    fn of_text(&self) -> Option<ScriptFault>;
}

impl Faulty for RunFault {
    fn of_text(&self) -> Option<ScriptFault> {
        match self {
            RunFault::Input(fault) => Some(*fault),
            _ => None,
        }
    }
}

impl Faulty for ThreadsFault {
    fn of_text(&self) -> Option<ScriptFault> {
        match self {
            ThreadsFault::Run(fault) => fault.of_text(),
            ThreadsFault::Lists(_) => None,
        }
    }
}

impl Faulty for StartFault {
    fn of_text(&self) -> Option<ScriptFault> {
        match self {
            StartFault::Run(fault) => fault.of_text(),
            StartFault::Tree(fault) => Some(*fault),
        }
    }
}

impl Faulty for ScheduleFault {
    fn of_text(&self) -> Option<ScriptFault> {
        match self {
            ScheduleFault::Run(fault) => fault.of_text(),
            ScheduleFault::TooManyEvents | ScheduleFault::TooLong => None,
        }
    }
}

impl Faulty for ReplayFault {
    fn of_text(&self) -> Option<ScriptFault> {
        match self {
            ReplayFault::Run(fault) => fault.of_text(),
            _ => None,
        }
    }
}

impl Faulty for DrawFault {
    fn of_text(&self) -> Option<ScriptFault> {
        match self {
            DrawFault::Run(fault) => fault.of_text(),
            DrawFault::NoCall(_) => None,
        }
    }
}
