//! What is counted of the drawn calls of stores.

use std::io;

/// How many calls of one kind were made, and how many of them are of a narrower kind.
#[derive(Clone, Copy, Default)]
pub struct Row {
    made: u32,
    narrower: u32,
}

impl Row {
    /// How many calls were made.
    pub fn made(&self) -> u32 {
        self.made
    }

    /// Counts a call, if it was made, and whether it is of the narrower kind.
    pub fn count(&mut self, made: Option<bool>) {
        if let Some(is_narrower) = made {
            self.made = self.made.wrapping_add(1);
            self.narrower = self.narrower.wrapping_add(is_narrower as u32);
        }
    }
}

/// The rows of all calls.
#[derive(Clone, Copy, Default)]
pub struct Tally {
    pub reserve: Row,
    pub link: Row,
    pub unlink: Row,
    pub move_entry: Row,
    pub release: Row,
    pub swap_content: Row,
    pub find: Row,
    pub look: Row,
    pub read: Row,
    /// Of the swaps, which are counted for themselves.
    pub swap_entries: Row,
}

impl Tally {
    /// Each row, with the name of its call and the narrower kind.
    fn rows(&self) -> [(&'static str, &'static str, Row); 9] {
        [
            ("reserve", "with a number left", self.reserve),
            ("link", "of a directory with entries", self.link),
            ("unlink", "of a directory", self.unlink),
            (
                "move_entry",
                "of a directory with entries, to another directory",
                self.move_entry,
            ),
            ("release", "of a directory", self.release),
            ("swap_content", "over other bytes", self.swap_content),
            ("find_steps", "of an entry", self.find),
            (
                "is_used, kind, parent, entries, content",
                "of an entry",
                self.look,
            ),
            (
                "next_name, next_entry_after",
                "of a directory with entries",
                self.read,
            ),
        ]
    }

    /// How many calls were made.
    pub fn made(&self) -> u32 {
        let mut made: u32 = 0;
        for (_, _, row) in self.rows() {
            made = made.wrapping_add(row.made);
        }
        made
    }

    /// Writes how many swaps were made, and how many answers differed.
    pub fn write_swaps(&self, rt: &impl Print, others: u32) -> io::Result<()> {
        let Row { made, narrower } = self.swap_entries;
        println!(rt; "swap_entries: {made}, of two directories: {narrower}")?;
        println!(rt; "answers that differ: {others}")
    }

    /// Writes the rows, how many calls were made, and how many answers differed.
    pub fn write(&self, rt: &impl Print, others: u32) -> io::Result<()> {
        for (what, narrower, row) in self.rows() {
            println!(rt; "{what}: {}, {narrower}: {}", row.made, row.narrower)?;
        }
        println!(rt; "calls made: {}", self.made())?;
        println!(rt; "answers that differ: {others}")
    }
}
