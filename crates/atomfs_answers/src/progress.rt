//! How far a command is, as a terminal shows it: one line, which is written anew in its place, and erased before
//! anything else is written.

ghost use Rattle.std.specs.Prelude.{◌≡◌};

use fs_core::{Core, Stepped};
use fs_linearize_text::Progress;
use fs_sched::{Failed, Moment, Sink, Witness};
use fs_sched_threads::Watch;
use fs_share::Gate;
use fs_words::Addition;
use std::alloc::{AllocError, Global};
use std::io::{Stderr, Write};
use std::sync::Wait;
use std::sync::atomic::{AtomicBool, AtomicU64, Ordering};
use std::time::Clock;

/// How many bytes the line has. A shorter one is filled with spaces, so that it covers the one before.
const WIDTH: usize = 72;

/// How many milliseconds pass before the line is shown first, and between two.
const FIRST: u64 = 250;

const BETWEEN: u64 = 100;

/// After how many events the clock is looked at.
const EVENTS: u64 = 4_096;

/// The milliseconds of a clock that never goes back; 0 where it cannot be read.
fn milliseconds<C: Clock>(clock: &C) -> u64 {
    match clock.monotonic() {
        Ok(time) => time
            .as_secs()
            .saturating_mul(1_000)
            .saturating_add(u64::from(time.subsec_millis())),
        Err(_) => 0,
    }
}

/// How much is done, of how much, after so many milliseconds.
#[derive(Clone, Copy, Debug)]
struct Share {
    done: u64,
    all: u64,
    gone: u64,
}

impl Share {
    /// How many of a hundred parts are done.
    fn percent(self) -> u64 {
        if self.all == 0 {
            return 0;
        }
        (self.done.saturating_mul(100) / self.all).min(100)
    }

    /// How many seconds are left, where the rest goes on like what is done; none before anything is done.
    fn seconds_left(self) -> Option<u64> {
        if self.done == 0 {
            return None;
        }
        let left = self.all.saturating_sub(self.done);
        Some(self.gone.saturating_mul(left) / self.done / 1_000)
    }

    /// Adds how much is done of what, the share, and the time that is left.
    fn push(self, what: &[u8], words: &mut Addition) -> Result<(), AllocError> {
        words.push_number(self.done)?;
        words.push_with_number(b" of ", self.all)?;
        words.push(what)?;
        words.push_with_number(b", ", self.percent())?;
        words.push(b" %")?;
        if let Some(seconds) = self.seconds_left() {
            words.push_with_number(b", ", seconds)?;
            words.push(b" s left")?;
        }
        Ok(())
    }
}

/// Adds how many entries of a history have passed, of how many, and for how many configurations that was.
fn push_entries(
    passed: usize,
    all: usize,
    configurations: usize,
    words: &mut Addition,
) -> Result<(), AllocError> {
    words.push_number(passed as u64)?;
    words.push_with_number(b" of ", all as u64)?;
    words.push_with_number(b" entries, ", configurations as u64)?;
    words.push(b" configurations")
}

/// The words of a line, from its left end on, with spaces up to its width.
fn line_of(alloc: Global, words: &[u8]) -> Result<Vec<u8>, AllocError> {
    let mut line = Vec::new(alloc);
    line.push(b'\r')?;
    line.extend_from_slice(words)?;
    for _ in words.len()..WIDTH {
        line.push(b' ')?;
    }
    Ok(line)
}

/// Standard error where it is a terminal, and whether the line is on it.
#[derive(Drop)]
pub struct Screen {
    alloc: Global,
    errors: Stderr,
    is_terminal: bool,
    is_shown: AtomicBool,
}

impl Screen {
    /// Before the line is shown; where standard error is no terminal, it never is.
    pub fn new(alloc: Global, errors: Stderr, is_terminal: bool) -> Screen {
        Screen {
            alloc,
            errors,
            is_terminal,
            is_shown: AtomicBool::new(false),
        }
    }

    /// Whether there is a terminal.
    pub fn is_terminal(&self) -> bool {
        self.is_terminal
    }

    /// Writes words in the place of the line. Where there is no memory or standard error takes nothing, nothing is shown.
    fn write(&self, words: &[u8]) {
        let mut errors = self.errors;
        if let Ok(line) = line_of(self.alloc, words) {
            let _ = errors.write_all(line.as_slice());
        }
    }

    /// Shows a line in the place of the one before.
    fn show(&self, words: &[u8]) {
        if self.is_terminal {
            self.is_shown.store(true, Ordering::SeqCst);
            self.write(words);
        }
    }

    /// Erases the line, where it is shown.
    pub fn erase(&self) {
        if self.is_shown.swap(false, Ordering::SeqCst) {
            let mut errors = self.errors;
            self.write(b"");
            let _ = errors.write_all(b"\r");
        }
    }
}

/// A sink before whose first byte the line is erased: it may be the same terminal.
#[derive(Drop)]
pub struct Erasing<'a, W> {
    inner: W,
    screen: &'a Screen,
}

impl<'a, W> Erasing<'a, W> {
    /// A sink to which nothing was written yet.
    pub fn new(inner: W, screen: &'a Screen) -> Erasing<'a, W>
        ensures { result.inner ≡ inner }
    {
        Erasing { inner, screen }
    }
}

impl<'a, W: Sink> Sink for Erasing<'a, W> {
    ghost contents = { λ erasing. W.contents erasing.inner };

    ghost failures = { λ erasing. W.failures erasing.inner };

    fn write(&mut self, piece: &[u8]) -> Result<usize, Failed> {
        self.screen.erase();
        self.inner.write(piece)
    }
}

/// How far runs are, or a search for an order.
#[derive(Drop)]
pub struct Line<'a, C: Clock> {
    screen: &'a Screen,
    clock: &'a C,
    began: u64,
    shown: u64,
    calls: u64,
    events: u64,
    unseen: u64,
    entries_before: u64,
    entries: u64,
}

impl<'a, C: Clock> Line<'a, C> {
    /// Before the first run. Nothing is shown yet.
    pub fn new(clock: &'a C, screen: &'a Screen) -> Line<'a, C> {
        let began = if screen.is_terminal {
            milliseconds(clock)
        } else {
            0
        };
        Line {
            screen,
            clock,
            began,
            shown: began,
            calls: 0,
            events: 0,
            unseen: 0,
            entries_before: 0,
            entries: 0,
        }
    }

    /// Whether there is a terminal.
    pub fn is_on_terminal(&self) -> bool {
        self.screen.is_terminal
    }

    /// Erases the line, if it is shown.
    pub fn erase(&self) {
        self.screen.erase();
    }

    /// How many milliseconds have gone, if it is time to show the line. Without a terminal it never is, and the clock is not read.
    fn is_time(&mut self) -> Option<u64> {
        if !self.screen.is_terminal {
            return None;
        }
        let now = milliseconds(self.clock);
        let gone = now.saturating_sub(self.began);
        if gone < FIRST || now.saturating_sub(self.shown) < BETWEEN {
            return None;
        }
        self.shown = now;
        Some(gone)
    }

    /// Shows how much is done of what, after how many events.
    fn show(&mut self, share: Share, what: &[u8]) {
        let mut words = Addition::new(Vec::new(self.screen.alloc));
        let made = if self.events > 0 {
            words
                .push_number(self.events)
                .and_then(|_| words.push(b" events, "))
        } else {
            Ok(())
        };
        if made.is_ok() && share.push(what, &mut words).is_ok() {
            self.screen.show(words.kept().as_slice());
        }
    }
}

impl<'a, C: Clock> Witness for Line<'a, C> {
    ghost Told = { λ _ _ _. Unit {0} };

    fn begins(&mut self, calls: usize) {
        self.calls = calls as u64;
    }

    // In the player's own code, so that a moment at which nobody looks is not made.
    #[inline(always)]
    fn saw(&mut self, _core: &Core, _moment: Moment) -> Result<(), AllocError> {
        Ok(())
    }

    fn went_on(&mut self, events: u64, entries: usize) {
        self.events = self.events.saturating_add(events);
        self.unseen = self.unseen.saturating_add(events);
        if self.unseen < EVENTS {
            return;
        }
        self.unseen = 0;
        let entries = entries as u64;
        if entries < self.entries {
            self.entries_before = self.entries_before.saturating_add(self.entries);
        }
        self.entries = entries;
        if let Some(gone) = self.is_time() {
            let done = self.entries_before.saturating_add(entries) / 3;
            let all = self.calls;
            self.show(Share { done, all, gone }, b" calls");
        }
    }

    fn has_run(&mut self, done: u64, runs: u64) {
        if let Some(gone) = self.is_time() {
            self.show(
                Share {
                    done,
                    all: runs,
                    gone,
                },
                b" runs",
            );
        }
    }
}

impl<'a, C: Clock> Progress for Line<'a, C> {
    fn passed(&mut self, entries: usize, all: usize, configurations: usize) {
        if self.is_time().is_none() {
            return;
        }
        let mut words = Addition::new(Vec::new(self.screen.alloc));
        if push_entries(entries, all, configurations, &mut words).is_ok() {
            self.screen.show(words.kept().as_slice());
        }
    }

    fn read(&mut self, lines: usize, all: usize) {
        if let Some(gone) = self.is_time() {
            self.show(
                Share {
                    done: lines as u64,
                    all: all as u64,
                    gone,
                },
                b" lines",
            );
        }
    }
}

/// How far threads are. Each reports its own calls; whoever finds it time shows the line.
#[derive(Drop)]
pub struct SharedLine<'a> {
    screen: &'a Screen,
    began: u64,
    shown: AtomicU64,
    calls: AtomicU64,
    returned: AtomicU64,
}

impl<'a> SharedLine<'a> {
    /// Before the first call. Nothing is shown yet.
    pub fn new<C: Clock>(clock: &C, screen: &'a Screen) -> SharedLine<'a> {
        SharedLine {
            screen,
            began: milliseconds(clock),
            shown: AtomicU64::new(0),
            calls: AtomicU64::new(0),
            returned: AtomicU64::new(0),
        }
    }

    /// Whether this thread is to show the line, after so many milliseconds: it is time, and no other does.
    fn is_ours(&self, gone: u64) -> bool {
        let shown = self.shown.load(Ordering::SeqCst);
        if gone < FIRST || gone.saturating_sub(shown) < BETWEEN {
            return false;
        }
        self.shown
            .compare_exchange(shown, gone, Ordering::SeqCst, Ordering::SeqCst)
            .is_ok()
    }

    /// Shows how many calls returned, after so many milliseconds.
    fn show(&self, done: u64, gone: u64) {
        let all = self.calls.load(Ordering::SeqCst);
        let mut words = Addition::new(Vec::new(self.screen.alloc));
        if (Share { done, all, gone })
            .push(b" calls", &mut words)
            .is_ok()
        {
            self.screen.show(words.kept().as_slice());
        }
    }
}

impl<'a> Gate for SharedLine<'a> {
    fn after<R: Wait + Clock>(&self, rt: &R, stepped: &Stepped) {
        if !self.screen.is_terminal || !matches!(stepped, Stepped::Returned(_)) {
            return;
        }
        let before = self.returned.fetch_add(1, Ordering::SeqCst);
        let gone = milliseconds(rt).saturating_sub(self.began);
        if self.is_ours(gone) {
            self.show(before.saturating_add(1), gone);
        }
    }
}

impl<'a> Watch for SharedLine<'a> {
    fn begins(&self, calls: usize) {
        self.calls.store(calls as u64, Ordering::SeqCst);
    }
}
