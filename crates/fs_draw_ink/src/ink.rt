//! The text of a picture, as it is written.

use fs_draw_scene::{ARROW, ELLIPSIS};
use itoa::Buffer;
use std::alloc::{AllocError, Global};

/// The text of a picture so far.
#[derive(Drop)]
pub struct Ink {
    text: Vec<u8>,
}

/// How a byte of a text stands in XML: as itself, or by an entity. Bytes that are not printable ASCII do not come here.
fn entity(byte: u8) -> Option<&'static [u8]> {
    match byte {
        b'<' => Some(b"&lt;"),
        b'>' => Some(b"&gt;"),
        b'&' => Some(b"&amp;"),
        ELLIPSIS => Some(b"&#8230;"),
        ARROW => Some(b"&#8594;"),
        b' '..=b'~' | b'\n' => None,
        _ => Some(b"?"),
    }
}

impl Ink {
    /// Nothing yet. It takes no memory.
    pub fn new(alloc: Global) -> Ink {
        Ink {
            text: Vec::new(alloc),
        }
    }

    /// All that was written.
    pub fn into_text(self) -> Vec<u8> {
        self.text
    }

    /// Adds bytes of the picture's own.
    pub fn raw(&mut self, bytes: &[u8]) -> Result<(), AllocError> {
        self.text.extend_from_slice(bytes)
    }

    /// Adds a number.
    pub fn number(&mut self, number: u64) -> Result<(), AllocError> {
        let mut buffer = Buffer::new();
        self.raw(buffer.format(number).as_bytes())
    }

    /// Adds bytes of the picture's own, and a number.
    pub fn with(&mut self, bytes: &[u8], number: u64) -> Result<(), AllocError> {
        self.raw(bytes)?;
        self.number(number)
    }

    /// Adds words, with the escapes of XML.
    pub fn words(&mut self, words: &[u8]) -> Result<(), AllocError> {
        for byte in words {
            match entity(*byte) {
                Some(entity) => self.raw(entity)?,
                None => self.text.push(*byte)?,
            }
        }
        Ok(())
    }

    /// Adds a rectangle to the data of a path.
    pub fn rectangle(
        &mut self,
        left: u64,
        top: u64,
        right: u64,
        height: u64,
    ) -> Result<(), AllocError> {
        self.with(b"M ", left)?;
        self.with(b" ", top)?;
        self.with(b"H ", right)?;
        self.with(b"v", height)?;
        self.with(b"H ", left)?;
        self.raw(b"z")
    }

    /// Adds a text at a place, in a class.
    pub fn text_at(
        &mut self,
        class: &[u8],
        x: u64,
        y: u64,
        words: &[u8],
    ) -> Result<(), AllocError> {
        self.raw(b"<text")?;
        if !class.is_empty() {
            self.raw(b" class=\"")?;
            self.raw(class)?;
            self.raw(b"\"")?;
        }
        self.place(x, y)?;
        self.words(words)?;
        self.raw(b"</text>")
    }

    /// Adds the place of a text, and the end of its tag.
    pub fn place(&mut self, x: u64, y: u64) -> Result<(), AllocError> {
        self.with(b" x=\"", x)?;
        self.with(b"\" y=\"", y)?;
        self.raw(b"\">")
    }
}
