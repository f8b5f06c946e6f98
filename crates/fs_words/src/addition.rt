//! What is appended to a text, and can be taken back.

ghost use Rattle.std.specs.Prelude.{◌≡◌, ◌++◌, ◌∷◌, [], OnOk, OnErr, Ok, true, false, decimal};
ghost use Rattle.std.specs.List.{list_any};
ghost use Rattle.fs_names.specs.Names.{AreBytes, IsName};
ghost use Rattle.fs_names.specs.Keys.{IsPath};
ghost use Rattle.fs_words.specs.Words.{is_escaped, escaped_byte, escaped, hex_word, path_word};

use crate::digits::push_digits;
use fs_names::{Name, Path};
use itoa::Buffer;
use percent_encoding::percent_encode_byte;
use std::alloc::{AllocError, Global};
use std::marker::Model;

/// A text and what was appended to it. Taking that back takes no memory, so that a refused growth leaves the text as
/// it was.
#[derive(Drop)]
pub struct Addition {
    text: Vec<u8>,
    start: usize,
}

impl Model for Addition {
    ghost use Rattle.std.specs.Prelude.{◌≤◌, length, take, drop};
    ghost use Rattle.fs_words.specs.code.Additions.{AddedText};

    ghost Value = { AddedText };

    ghost view = { λ a. record { before = take a.start a.text.items; added = drop a.start a.text.items } };

    ghost invariant = { λ a. a.start ≤ length a.text.items };
}

fn is_escaped(byte: u8) -> bool
    ensures { result ≡ is_escaped byte }
{
    byte <= b' ' || byte == b'%' || byte >= 127
}

/// Whether a byte is escaped, by a loop without branches.
fn any_escaped(bytes: &[u8]) -> bool
    ensures { result ≡ list_any is_escaped bytes.now }
{
    let mut any = false;
    for i in 0..bytes.len() {
        any = any | is_escaped(bytes[i]);
    }
    any
}

impl Addition {
    /// A text to which nothing was appended yet. It takes no memory.
    pub fn new(text: Vec<u8>) -> Addition
        ensures before { result.before ≡ text.items }
        ensures added { result.added ≡ [] }
    {
        Addition {
            start: text.len(),
            text,
        }
    }

    /// The text with what was appended.
    pub fn kept(self) -> Vec<u8>
        ensures { result.items ≡ self.before ++ self.added }
    {
        self.text
    }

    /// The text without it.
    pub fn taken_back(self) -> Vec<u8>
        ensures { result.items ≡ self.before }
    {
        let mut text = self.text;
        text.truncate(self.start);
        text
    }

    /// Appends bytes as they are. The only error is out of memory.
    pub fn push(&mut self, bytes: &[u8]) -> Result<(), AllocError>
        ensures ok { OnOk result (self.new.added ≡ self.old.added ++ bytes.now) }
        ensures before { self.new.before ≡ self.old.before }
    {
        self.text.extend_from_slice(bytes)
    }

    /// Appends a number in decimal, without leading zeros. The only error is out of memory.
    pub fn push_number(&mut self, number: u64) -> Result<(), AllocError>
        ensures ok { OnOk result (self.new.added ≡ self.old.added ++ decimal number) }
        ensures before { self.new.before ≡ self.old.before }
    {
        let mut buffer = Buffer::new();
        self.push(buffer.format(number).as_bytes())
    }

    /// Appends bytes as they are, and a number after them. The only error is out of memory.
    pub fn push_with_number(&mut self, bytes: &[u8], number: u64) -> Result<(), AllocError>
        ensures ok { OnOk result (self.new.added ≡ self.old.added ++ bytes.now ++ decimal number) }
        ensures before { self.new.before ≡ self.old.before }
    {
        self.push(bytes)?;
        self.push_number(number)
    }

    /// Appends bytes of a file in hexadecimal digits. The only error is out of memory.
    pub fn push_hex(&mut self, alloc: Global, bytes: &[u8]) -> Result<(), AllocError>
        ensures ok { OnOk result (self.new.added ≡ self.old.added ++ hex_word bytes.now) }
        ensures bytes { AreBytes bytes.now }
        ensures before { self.new.before ≡ self.old.before }
    {
        if bytes.is_empty() {
            return self.push(b"-");
        }
        push_digits(bytes, &mut self.text)
    }

    /// A byte of a name, with an escape where it has one.
    fn push_byte(&mut self, byte: u8) -> Result<(), AllocError>
        ensures ok { OnOk result (self.new.added ≡ self.old.added ++ escaped_byte byte) }
        ensures before { self.new.before ≡ self.old.before }
    {
        if is_escaped(byte) {
            return self.push(percent_encode_byte(byte).as_bytes());
        }
        self.push(&[byte])
    }

    /// Appends bytes of a name with escapes. The only error is out of memory.
    #[tactic(auto, unfolding(crate::specs::Words::escaped))]
    pub fn push_escaped(&mut self, alloc: Global, bytes: &[u8]) -> Result<(), AllocError>
        ensures ok { OnOk result (self.new.added ≡ self.old.added ++ escaped bytes.now) }
        ensures bytes { AreBytes bytes.now }
        ensures before { self.new.before ≡ self.old.before }
    {
        if !any_escaped(bytes) {
            return self.push(bytes);
        }
        for byte in bytes {
            self.push_byte(*byte)?;
        }
        Ok(())
    }

    /// Appends a slash and a name after it, with escapes: a step of a path. The only error is out of memory.
    pub fn push_step(&mut self, alloc: Global, name: &Name) -> Result<(), AllocError>
        ensures ok { OnOk result (self.new.added ≡ self.old.added ++ 47 ∷ escaped name.now) }
        ensures fits { OnOk result (IsName name.now) }
        ensures before { self.new.before ≡ self.old.before }
    {
        self.push(b"/")?;
        self.push_escaped(alloc, name.bytes())
    }

    /// A path name by name.
    fn push_steps(&mut self, alloc: Global, path: &Path) -> Result<(), AllocError>
        ensures ok { OnOk result (self.new.added ≡ self.old.added ++ path_word path.now) }
        ensures before { self.new.before ≡ self.old.before }
    {
        if path.is_empty() {
            return self.push(b"/");
        }
        for i in 0..path.len() {
            self.push_step(alloc, path.name(i))?;
        }
        Ok(())
    }

    /// Appends a path where none of its bytes is escaped, and answers whether it did. The only error is out of memory.
    fn push_plain(&mut self, path: &Path) -> Result<bool, AllocError>
        ensures plain { result ≡ Ok true → self.new.added ≡ self.old.added ++ path_word path.now }
        ensures path { OnOk result (IsPath path.now) }
        ensures other { result ≡ Ok false → self.new.added ≡ self.old.added }
        ensures before { self.new.before ≡ self.old.before }
    {
        let from = self.text.len();
        path.write(&mut self.text)?;
        if any_escaped(&self.text[from..]) {
            self.text.truncate(from);
            return Ok(false);
        }
        Ok(true)
    }

    /// Appends a path with escapes. The only error is out of memory.
    pub fn push_path(&mut self, alloc: Global, path: &Path) -> Result<(), AllocError>
        ensures ok { OnOk result (self.new.added ≡ self.old.added ++ path_word path.now) }
        ensures path { OnOk result (IsPath path.now) }
        ensures before { self.new.before ≡ self.old.before }
    {
        if self.push_plain(path)? {
            return Ok(());
        }
        self.push_steps(alloc, path)
    }
}

/// Puts a text back: with what was added after it, or as it was if the addition failed. It answers what the addition
/// did.
pub fn put_back(
    added: Result<(), AllocError>,
    line: Addition,
    text: &mut Vec<u8>,
) -> Result<(), AllocError>
    ensures same { result ≡ added }
    ensures ok { OnOk result (text.new.items ≡ line.before ++ line.added) }
    ensures err { OnErr result (text.new.items ≡ line.before) }
{
    match added {
        Ok(()) => {
            *text = line.kept();
            Ok(())
        }
        Err(error) => {
            *text = line.taken_back();
            Err(error)
        }
    }
}
