//! Long scripts, from their bytes to the bytes of their runs, and the journals of these runs, which are checked.

use crate::digest::Digest;
use crate::drawing::{Drawing, add_number};
use anyhow::{Result, bail};
use fs_sched::{Schedule, check_bytes, run_bytes};
use hex::encode_to_slice;
use std::alloc::Global;

/// How many directories a script knows at the most.
const MOST_DIRS: usize = 400;

/// How many names deep a path is at the most.
const DEPTH: usize = 6;

/// How many bytes a write has at the most.
const MOST_BYTES: usize = 100;

/// How many entries a directory gets at the most.
const MOST_ENTRIES: usize = 200;

/// How the names of a script are drawn.
#[derive(Clone, Copy)]
pub enum Names {
    /// The same few names come again and again.
    Few,
    /// Most calls are on paths that come for the first time, in a tree that grows.
    New,
}

/// A script that is drawn, and the paths that it knows of.
#[derive(Drop)]
struct Draft {
    alloc: Global,
    text: Vec<u8>,
    dirs: Vec<Vec<u8>>,
    files: Vec<Vec<u8>>,
    names: Names,
    made: usize,
}

fn depth(text: &[u8]) -> usize {
    text.iter().filter(|byte| **byte == b'/').count()
}

/// One of the paths, or the root's text without its slash.
fn one_of(alloc: Global, drawing: &mut Drawing, paths: &[Vec<u8>]) -> Result<Vec<u8>> {
    match paths.get(drawing.below(paths.len())) {
        Some(path) => Ok(path.clone()?),
        None => Ok(Vec::new(alloc)),
    }
}

impl Draft {
    fn new(alloc: Global, names: Names) -> Result<Draft> {
        let mut dirs = Vec::new(alloc);
        dirs.push(Vec::new(alloc))?;
        Ok(Draft {
            alloc,
            text: Vec::from_slice(alloc, b"atomfs 1\n")?,
            dirs,
            files: Vec::new(alloc),
            names,
            made: 0,
        })
    }

    /// A directory, one of the last where the tree grows.
    fn dir(&mut self, drawing: &mut Drawing) -> Result<Vec<u8>> {
        let count = self.dirs.len();
        let place = match self.names {
            Names::Few => drawing.below(count),
            Names::New => count.saturating_sub(drawing.below(40).saturating_add(1)),
        };
        match self.dirs.get(place) {
            Some(dir) => Ok(dir.clone()?),
            None => Ok(Vec::new(self.alloc)),
        }
    }

    /// The path of an entry that may be there.
    fn entry(&mut self, drawing: &mut Drawing) -> Result<Vec<u8>> {
        let mut path = self.dir(drawing)?;
        match self.names {
            Names::Few => {
                path.extend_from_slice(b"/name")?;
                add_number(&mut path, drawing.below(12) as u64)?;
            }
            Names::New => {
                self.made = self.made.saturating_add(1);
                let number = self.made;
                drawing.add_name(&mut path, number)?;
            }
        }
        Ok(path)
    }

    /// A file that was made, now and then one that is not there.
    fn file(&mut self, drawing: &mut Drawing) -> Result<Vec<u8>> {
        if self.files.is_empty() || drawing.comes(10) {
            return self.entry(drawing);
        }
        one_of(self.alloc, drawing, &self.files)
    }

    /// A word and a path; the root where the path has no name.
    fn word(&mut self, word: &[u8], path: &[u8]) -> Result<()> {
        self.text.extend_from_slice(word)?;
        self.text.push(b' ')?;
        let shown: &[u8] = if path.is_empty() { b"/" } else { path };
        self.text.extend_from_slice(shown)?;
        Ok(())
    }

    fn number(&mut self, number: usize) -> Result<()> {
        self.text.push(b' ')?;
        add_number(&mut self.text, number as u64)
    }

    fn end(&mut self) -> Result<()> {
        self.text.push(b'\n')?;
        Ok(())
    }

    /// Drawn bytes, as the grammar has them.
    fn hex(&mut self, drawing: &mut Drawing) -> Result<()> {
        let count = drawing.below(MOST_BYTES).saturating_add(1);
        let mut digits = [0u8; 2 * MOST_BYTES];
        let bytes = drawing.bytes(count);
        let room = bytes.len().saturating_mul(2).min(digits.len());
        if encode_to_slice(bytes, &mut digits[..room]).is_err() {
            bail!("no room for the digits");
        }
        self.text.push(b' ')?;
        self.text.extend_from_slice(&digits[..room])?;
        Ok(())
    }

    /// A call that makes an entry, which the script then knows of.
    fn making(&mut self, drawing: &mut Drawing, of_dir: bool) -> Result<()> {
        let path = self.entry(drawing)?;
        if of_dir && depth(&path) <= DEPTH && self.dirs.len() < MOST_DIRS {
            self.word(b"mkdir", &path)?;
            self.dirs.push(path)?;
        } else {
            self.word(b"mknod", &path)?;
            self.files.push(path)?;
        }
        self.end()
    }

    /// A call on one path, and nothing else.
    fn plain(&mut self, drawing: &mut Drawing, word: &[u8]) -> Result<()> {
        let path = self.entry(drawing)?;
        self.word(word, &path)?;
        self.end()
    }

    fn renaming(&mut self, drawing: &mut Drawing) -> Result<()> {
        let from = self.file(drawing)?;
        let to = self.entry(drawing)?;
        self.word(b"rename", &from)?;
        self.text.push(b' ')?;
        self.text.extend_from_slice(&to)?;
        self.files.push(to)?;
        self.end()
    }

    fn writing(&mut self, drawing: &mut Drawing) -> Result<()> {
        let path = self.file(drawing)?;
        self.word(b"write", &path)?;
        self.number(drawing.below(200))?;
        self.hex(drawing)?;
        self.end()
    }

    fn looking(&mut self, drawing: &mut Drawing, roll: usize) -> Result<()> {
        if roll < 45 {
            let path = self.file(drawing)?;
            self.word(b"read", &path)?;
            self.number(drawing.below(100))?;
            self.number(drawing.below(300))?;
        } else if roll < 50 {
            let path = self.dir(drawing)?;
            self.word(b"readdir", &path)?;
        } else if roll < 80 {
            let path = self.file(drawing)?;
            self.word(b"stat", &path)?;
        } else {
            let path = self.dir(drawing)?;
            self.word(b"stat", &path)?;
        }
        self.end()
    }

    /// A line of a call, by shares of a hundred: those that look 65, write 14, mknod and mkdir 14, rename 3, the rest 4.
    fn line(&mut self, drawing: &mut Drawing) -> Result<()> {
        match drawing.below(100) {
            0..65 => {
                let roll = drawing.below(100);
                self.looking(drawing, roll)
            }
            65..79 => self.writing(drawing),
            79..88 => self.making(drawing, false),
            88..93 => self.making(drawing, true),
            93..96 => self.renaming(drawing),
            96..98 => self.plain(drawing, b"unlink"),
            98..99 => self.plain(drawing, b"rmdir"),
            _ => {
                let path = self.file(drawing)?;
                self.word(b"truncate", &path)?;
                self.number(drawing.below(200))?;
                self.end()
            }
        }
    }

    /// A thread with so many calls.
    fn thread(&mut self, drawing: &mut Drawing, number: usize, calls: usize) -> Result<()> {
        self.text.extend_from_slice(b"thread t")?;
        add_number(&mut self.text, number as u64)?;
        self.end()?;
        for _ in 0..calls {
            self.line(drawing)?;
        }
        Ok(())
    }

    /// Two directories with files that move between them.
    fn moving(&mut self, drawing: &mut Drawing, calls: usize) -> Result<()> {
        self.text
            .extend_from_slice(b"thread t\nmkdir /old\nmkdir /new\n")?;
        for number in 0..MOST_ENTRIES {
            let path = drawing.path_in(b"/old", number)?;
            self.word(b"mknod", &path)?;
            self.files.push(path)?;
            self.end()?;
        }
        for number in 0..calls {
            self.move_one(drawing, number)?;
        }
        Ok(())
    }

    fn move_one(&mut self, drawing: &mut Drawing, number: usize) -> Result<()> {
        let place = drawing.below(self.files.len());
        let dir: &[u8] = if drawing.comes(50) { b"/old" } else { b"/new" };
        let to = drawing.path_in(dir, number.saturating_add(1000))?;
        if place < self.files.len() {
            let from = std::mem::replace(&mut self.files[place], to.clone()?);
            self.word(b"rename", &from)?;
            self.text.push(b' ')?;
            self.text.extend_from_slice(&to)?;
            self.end()?;
        }
        Ok(())
    }

    fn done(mut self) -> Result<Vec<u8>> {
        self.text.extend_from_slice(b"schedule\nfinish\n")?;
        Ok(self.text)
    }
}

/// The digest of a script's run, and of the verdict on its journal.
fn played(alloc: Global, script: &[u8], schedule: Schedule) -> Result<u64> {
    let Ok(text) = run_bytes(alloc, script, schedule) else {
        bail!("a script that was drawn did not run");
    };
    let Ok(verdict) = check_bytes(alloc, &text) else {
        bail!("the journal of a run was not read");
    };
    let mut digest = Digest::new();
    digest.add_bytes(&text);
    digest.add_bytes(&verdict);
    Ok(digest.value())
}

/// A script of one thread.
pub fn one_thread(alloc: Global, drawing: &mut Drawing, names: Names, calls: usize) -> Result<u64> {
    let mut draft = Draft::new(alloc, names)?;
    draft.thread(drawing, 0, calls)?;
    played(alloc, &draft.done()?, Schedule::Given)
}

/// A script of several threads, by turns or as they are drawn.
pub fn threads(
    alloc: Global,
    drawing: &mut Drawing,
    threads: usize,
    calls: usize,
    schedule: Schedule,
) -> Result<u64> {
    let mut draft = Draft::new(alloc, Names::Few)?;
    for number in 0..threads {
        draft.thread(drawing, number, calls)?;
    }
    played(alloc, &draft.done()?, schedule)
}

/// A script of one thread that renames.
pub fn moves(alloc: Global, drawing: &mut Drawing, calls: usize) -> Result<u64> {
    let mut draft = Draft::new(alloc, Names::New)?;
    draft.moving(drawing, calls)?;
    played(alloc, &draft.done()?, Schedule::Given)
}
