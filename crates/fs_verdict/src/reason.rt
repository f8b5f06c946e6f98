//! What is wrong with a journal, in words: the entry at fault with its line, and what it disagrees with.

use fs_calls::Reply;
use fs_names::{CallNo, SeatNo};
use fs_script::Journal;
use fs_text::{Addition, write_call, write_entry, write_reply};
use fs_timeline::{Entry, FaultKind};
use fs_words::words::is_word;
use fs_words::{Lines, ScriptFault};
use std::alloc::{AllocError, Global};
use std::collections::BTreeMap;

/// The most bytes of an entry, a call or a reply; of one that has more, the rest is left out.
const MOST: usize = 240;

/// The call of an entry.
pub fn call_of(entry: &Entry) -> CallNo {
    match entry {
        Entry::Begin(number, _, _) | Entry::Commit(number) | Entry::Return(number, _) => *number,
    }
}

/// The reply that is due to a call of a journal: what the tree replies to it after the calls that commit before. None
/// if it does not commit.
pub fn due_reply(
    alloc: Global,
    journal: &Journal,
    number: CallNo,
) -> Result<Option<Reply>, AllocError> {
    let mut tree = journal.start.copy()?;
    let mut calls = BTreeMap::new(alloc);
    for entry in journal.entries.as_slice() {
        match entry {
            Entry::Begin(other, _, call) => {
                calls.insert(other.get(), call)?;
            }
            Entry::Commit(other) => {
                if let Some(call) = calls.get(&other.get()) {
                    let reply = tree.apply(alloc, call)?;
                    if *other == number {
                        return Ok(Some(reply));
                    }
                }
            }
            Entry::Return(_, _) => {}
        }
    }
    Ok(None)
}

/// The lines of the entries of a journal. In any version but the first they come after its start tree.
fn entry_lines(text: &[u8]) -> Result<Lines<'_>, ScriptFault> {
    let (first, mut lines) = Lines::behind_first(text)?;
    if is_word(first, b"atomfs-journal 1") {
        return Ok(lines);
    }
    // A start tree has at most as many lines as the text has bytes.
    for _ in 0..text.len() {
        match lines.next() {
            Some(line) if !is_word(line.text, b"entries") => {}
            _ => return Ok(lines),
        }
    }
    Ok(lines)
}

/// The number of the line of an entry that comes after so many others.
fn line_of(text: &[u8], place: usize) -> u64 {
    let Ok(mut lines) = entry_lines(text) else {
        return 0;
    };
    for _ in 0..place {
        let _ = lines.next();
    }
    match lines.next() {
        Some(line) => line.number,
        None => lines.number(),
    }
}

/// Adds bytes, up to the most that are written.
fn push_cut(bytes: &[u8], words: &mut Addition) -> Result<(), AllocError> {
    match bytes.get(..MOST) {
        Some(front) if bytes.len() > MOST => {
            words.push(front)?;
            words.push(b"..")
        }
        _ => words.push(bytes),
    }
}

/// The entries of a journal up to the one at fault, with the text that has them.
#[derive(Clone, Copy)]
struct Before<'a> {
    alloc: Global,
    text: &'a [u8],
    journal: &'a Journal,
    /// How many entries come before the one at fault.
    place: usize,
}

impl<'a> Before<'a> {
    fn entries(&self) -> &'a [Entry] {
        self.journal.entries.as_slice()
    }

    /// The place of the entry before the fault that begins a call.
    fn begin_of(&self, number: CallNo) -> Option<usize> {
        self.entries().iter().take(self.place).position(
            |entry| matches!(entry, Entry::Begin(other, _, _) if *other == number),
        )
    }

    /// That of its commit.
    fn commit_of(&self, number: CallNo) -> Option<usize> {
        self.entries().iter().take(self.place).position(
            |entry| matches!(entry, Entry::Commit(other) if *other == number),
        )
    }

    /// That of its return.
    fn return_of(&self, number: CallNo) -> Option<usize> {
        self.entries().iter().take(self.place).position(
            |entry| matches!(entry, Entry::Return(other, _) if *other == number),
        )
    }

    /// That of the last begin on a seat.
    fn last_on(&self, seat: SeatNo) -> Option<usize> {
        let entries = self.entries();
        let mut last = None;
        for at in 0..self.place.min(entries.len()) {
            if let Entry::Begin(_, other, _) = &entries[at] {
                if *other == seat {
                    last = Some(at);
                }
            }
        }
        last
    }

    /// Adds the line of an entry, and the entry.
    fn push_entry(&self, at: usize, words: &mut Addition) -> Result<(), AllocError> {
        words.push_with_number(b"line ", line_of(self.text, at))?;
        words.push(b": ")?;
        let mut line = Vec::new(self.alloc);
        if let Some(entry) = self.entries().get(at) {
            write_entry(self.alloc, entry, &mut line)?;
        }
        let _ = line.pop();
        push_cut(line.as_slice(), words)
    }

    /// Adds which call this is, or that none has begun.
    fn push_call(&self, number: CallNo, words: &mut Addition) -> Result<(), AllocError> {
        let begin = match self.begin_of(number) {
            Some(at) => self.entries().get(at),
            None => None,
        };
        let Some(Entry::Begin(_, seat, call)) = begin else {
            words.push_with_number(b"; no call ", number.get())?;
            return words.push(b" has begun");
        };
        words.push_with_number(b"; call ", number.get())?;
        words.push(b" is ")?;
        let mut told = Vec::new(self.alloc);
        write_call(self.alloc, call, &mut told)?;
        push_cut(told.as_slice(), words)?;
        words.push_with_number(b" on seat ", seat.get())
    }

    /// Adds words, and the earlier entry that they are about.
    fn push_earlier(
        &self,
        told: &[u8],
        at: Option<usize>,
        words: &mut Addition,
    ) -> Result<(), AllocError> {
        let Some(at) = at else {
            return Ok(());
        };
        words.push(told)?;
        self.push_entry(at, words)
    }

    /// Adds what a begin disagrees with.
    fn push_begin(
        &self,
        kind: FaultKind,
        number: CallNo,
        seat: SeatNo,
        words: &mut Addition,
    ) -> Result<(), AllocError> {
        if kind == FaultKind::BeginTwice {
            words.push_with_number(b"; call ", number.get())?;
            return self.push_earlier(b" began before, at ", self.begin_of(number), words);
        }
        words.push_with_number(b"; seat ", seat.get())?;
        self.push_earlier(
            b" has a call that has not returned, begun at ",
            self.last_on(seat),
            words,
        )
    }

    /// Adds the reply that is due to a call.
    fn push_due(&self, number: CallNo, words: &mut Addition) -> Result<(), AllocError> {
        let Some(due) = due_reply(self.alloc, self.journal, number)? else {
            return Ok(());
        };
        let mut told = Vec::new(self.alloc);
        write_reply(self.alloc, &due, &mut told)?;
        words.push(b"; due: ")?;
        push_cut(told.as_slice(), words)
    }

    /// Adds what a commit or a return disagrees with.
    fn push_end(
        &self,
        kind: FaultKind,
        number: CallNo,
        words: &mut Addition,
    ) -> Result<(), AllocError> {
        match kind {
            FaultKind::CommitTwice => {
                self.push_earlier(b"; it committed before, at ", self.commit_of(number), words)
            }
            FaultKind::ReturnTwice => {
                self.push_earlier(b"; it returned before, at ", self.return_of(number), words)
            }
            FaultKind::ReturnUncommitted if self.begin_of(number).is_some() => {
                words.push(b"; it has not committed")
            }
            FaultKind::WrongReply => self.push_due(number, words),
            _ => Ok(()),
        }
    }
}

/// What is wrong with the entry of a journal that comes after so many others.
pub(crate) fn reason_of(
    alloc: Global,
    text: &[u8],
    journal: &Journal,
    place: usize,
    kind: FaultKind,
) -> Result<Vec<u8>, AllocError> {
    let before = Before {
        alloc,
        text,
        journal,
        place,
    };
    let mut words = Addition::new(Vec::new(alloc));
    if let Some(entry) = journal.entries.as_slice().get(place) {
        before.push_entry(place, &mut words)?;
        match entry {
            Entry::Begin(number, seat, _) => before.push_begin(kind, *number, *seat, &mut words)?,
            Entry::Commit(number) | Entry::Return(number, _) => {
                before.push_call(*number, &mut words)?;
                before.push_end(kind, *number, &mut words)?;
            }
        }
    }
    Ok(words.kept())
}
