//! Which words have which colour.

use crate::colour::Colour;
use std::alloc::{AllocError, Global};

/// The colours of threads, in turn.
const THREADS: [Colour; 5] = [
    Colour::Cyan,
    Colour::Yellow,
    Colour::Magenta,
    Colour::Green,
    Colour::Blue,
];

/// Whether a byte is between two words.
pub(crate) fn is_gap(byte: u8) -> bool {
    byte == b' ' || byte == b'\n' || byte == b','
}

/// The thread of a word that names a call, as `m#3` does.
fn thread_in(word: &[u8]) -> Option<&[u8]> {
    let at = word.iter().position(|byte| *byte == b'#')?;
    let (name, place) = word.split_at_checked(at)?;
    let digits = place.get(1..)?;
    let is_name = name.first().is_some_and(|byte| byte.is_ascii_lowercase());
    if is_name && !digits.is_empty() && digits.iter().all(|byte| byte.is_ascii_digit()) {
        Some(name)
    } else {
        None
    }
}

/// What is known of a text so far: the threads that it named, in order, and of its line whether a word came, whether the next one is the
/// name of a thread, and how many words are red from here on.
#[derive(Drop)]
pub(crate) struct Words<'t> {
    threads: Vec<&'t [u8]>,
    is_first: bool,
    is_thread: bool,
    red: u64,
}

impl<'t> Words<'t> {
    /// Before the first word.
    pub(crate) fn new(alloc: Global) -> Words<'t> {
        Words {
            threads: Vec::new(alloc),
            is_first: true,
            is_thread: false,
            red: 0,
        }
    }

    /// The colour of a thread.
    fn colour_of_thread(&mut self, name: &'t [u8]) -> Result<Colour, AllocError> {
        let at = match self.threads.iter().position(|other| *other == name) {
            Some(at) => at,
            None => {
                self.threads.push(name)?;
                self.threads.len() - 1
            }
        };
        Ok(THREADS[at % THREADS.len()])
    }

    /// How many words are red from this one on: an error with its name, and all that is said of a fault.
    fn red_from(&self, word: &[u8]) -> u64 {
        match word {
            b"failed" | b"fails" => 2,
            b"fault" => u64::MAX,
            b"none" if self.is_first => u64::MAX,
            _ => self.red,
        }
    }

    /// The colour of a word that is no error.
    fn colour_of_word(&mut self, word: &'t [u8]) -> Result<Colour, AllocError> {
        if self.is_thread {
            return self.colour_of_thread(word);
        }
        match thread_in(word) {
            Some(name) => self.colour_of_thread(name),
            None => Ok(Colour::Unchanged),
        }
    }

    /// The colour of the next piece: a word, or a byte between two.
    pub(crate) fn colour_of(&mut self, piece: &'t [u8]) -> Result<Colour, AllocError> {
        if piece == b"\n".as_slice() {
            self.is_first = true;
            self.is_thread = false;
            self.red = 0;
            return Ok(Colour::Unchanged);
        }
        if piece == b" ".as_slice() || piece == b",".as_slice() {
            return Ok(Colour::Unchanged);
        }
        self.red = self.red_from(piece);
        let colour = if self.red > 0 {
            self.red -= 1;
            Colour::Red
        } else {
            self.colour_of_word(piece)?
        };
        self.is_thread = self.is_first && piece == b"thread".as_slice();
        self.is_first = false;
        Ok(colour)
    }
}
