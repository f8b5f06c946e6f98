//! Real threads on one tree, and published calls whose caller then asks an observer.

use crate::digest::Digest;
use crate::drawing::Drawing;
use anyhow::{Result, bail};
use fs_calls::Call;
use fs_names::Path;
use fs_script::write_tree;
use fs_share::{Closed, Open, run_lists};
use fs_timeline::Entry;
use std::alloc::Global;
use std::sync::Wait;
use std::thread::Threads;
use std::time::Clock;

/// The list of one thread, and the files that it has made.
#[derive(Drop)]
struct Draft {
    alloc: Global,
    calls: Vec<Call>,
    dir: Vec<u8>,
    files: Vec<Vec<u8>>,
    made: usize,
}

impl Draft {
    fn path(&self, text: &[u8]) -> Result<Path> {
        Ok(Path::parse(self.alloc, text)?)
    }

    fn fresh(&mut self, drawing: &mut Drawing) -> Result<Vec<u8>> {
        self.made = self.made.saturating_add(1);
        let number = self.made;
        drawing.path_in(&self.dir, number)
    }

    /// The place of a file that was made, and its path.
    fn file(&self, drawing: &mut Drawing) -> Result<(usize, Path)> {
        let place = drawing.below(self.files.len());
        match self.files.get(place) {
            Some(file) => Ok((place, self.path(file)?)),
            None => Ok((place, self.path(&self.dir)?)),
        }
    }

    fn making(&mut self, drawing: &mut Drawing) -> Result<Call> {
        let text = self.fresh(drawing)?;
        let path = self.path(&text)?;
        self.files.push(text)?;
        Ok(Call::Mknod(path))
    }

    fn forget(&mut self, place: usize) {
        if place < self.files.len() {
            let _ = self.files.swap_remove(place);
        }
    }

    /// A new path in the place of another one.
    fn moved(&mut self, drawing: &mut Drawing, place: usize) -> Result<Path> {
        let text = self.fresh(drawing)?;
        let to = self.path(&text)?;
        self.forget(place);
        self.files.push(text)?;
        Ok(to)
    }

    fn moving(&mut self, drawing: &mut Drawing) -> Result<Call> {
        let (place, from) = self.file(drawing)?;
        Ok(Call::Rename(from, self.moved(drawing, place)?))
    }

    fn removing(&mut self, drawing: &mut Drawing) -> Result<Call> {
        let (place, path) = self.file(drawing)?;
        self.forget(place);
        Ok(Call::Unlink(path))
    }

    fn missing(&mut self, drawing: &mut Drawing) -> Result<Call> {
        let text = self.fresh(drawing)?;
        Ok(Call::Stat(self.path(&text)?))
    }

    /// A call. Of a hundred on average: stat 32, read 22, write 18, mknod 11, unlink 9, rename 4, truncate 4.
    fn call(&mut self, drawing: &mut Drawing) -> Result<Call> {
        let roll = drawing.below(100);
        if self.files.len() < 8 || (roll < 16 && self.files.len() < 40) {
            return self.making(drawing);
        }
        match roll {
            0..20 => self.removing(drawing),
            20..24 => self.moving(drawing),
            24..32 => self.missing(drawing),
            32..56 => Ok(Call::Stat(self.file(drawing)?.1)),
            56..78 => Ok(Call::Read(self.file(drawing)?.1, 0, 4096)),
            78..82 => Ok(Call::Truncate(self.file(drawing)?.1, drawing.below(500) as u64)),
            _ => {
                let path = self.file(drawing)?.1;
                let count = drawing.below(300);
                Ok(Call::Write(path, 0, drawing.content(self.alloc, count)?))
            }
        }
    }
}

/// The list of a thread whose files are in a directory, which it makes or finds.
fn list(
    alloc: Global,
    drawing: &mut Drawing,
    dir: &[u8],
    first: usize,
    calls: usize,
) -> Result<Vec<Call>> {
    let mut draft = Draft {
        alloc,
        calls: Vec::new(alloc),
        dir: Vec::from_slice(alloc, dir)?,
        files: Vec::new(alloc),
        made: first,
    };
    draft.calls.push(Call::Mkdir(Path::parse(alloc, dir)?))?;
    for _ in 0..calls {
        let call = draft.call(drawing)?;
        draft.calls.push(call)?;
    }
    Ok(draft.calls)
}

/// The digests of the seats: those of a thread's replies, in its order. That of its first call is left out, since in a shared
/// directory one of the threads has made it.
fn digests(alloc: Global, closed: &Closed, seats: usize) -> Result<Vec<Digest>> {
    let mut digests = Vec::new(alloc);
    let mut begun = Vec::new(alloc);
    let mut is_first = Vec::new(alloc);
    for _ in 0..seats {
        digests.push(Digest::new())?;
        is_first.push(true)?;
    }
    for entry in closed.timeline.entries() {
        match entry {
            Entry::Begin(_, seat, _) => begun.push(seat.get() as usize)?,
            Entry::Commit(_) => {}
            Entry::Return(call, reply) => {
                let number = (call.get() as usize).saturating_sub(1);
                let seat = begun.get(number).copied().unwrap_or(0);
                if seat < digests.len() && seat < is_first.len() {
                    if !is_first[seat] {
                        digests[seat].add_reply(reply);
                    }
                    is_first[seat] = false;
                }
            }
        }
    }
    Ok(digests)
}

/// The digest of a closed tree. Which seat a thread has differs from run to run, so those of the seats are added up.
fn digest_of(alloc: Global, closed: &Closed, seats: usize) -> Result<u64> {
    let mut sum = 0u64;
    for digest in &digests(alloc, closed, seats)? {
        sum = sum.wrapping_add(digest.value());
    }
    let mut text = Vec::new(alloc);
    write_tree(alloc, &closed.store, &mut text)?;
    let mut digest = Digest::new();
    digest.add(sum);
    digest.add_bytes(&text);
    Ok(digest.value())
}

fn play<R: Threads + Wait + Clock + Sync>(
    rt: &R,
    alloc: Global,
    lists: &[Vec<Call>],
) -> Result<u64> {
    match run_lists(rt, alloc, lists, &Open) {
        Ok(closed) => digest_of(alloc, &closed, lists.len()),
        Err(_) => bail!("the lists were not played to their end"),
    }
}

/// How many directories the threads have.
#[derive(Clone, Copy)]
pub enum Dirs {
    /// Each thread has one of its own.
    Own,
    /// All are in one, under names of their own.
    One,
}

/// So many threads, each with so many calls on files of its own.
pub fn run<R: Threads + Wait + Clock + Sync>(
    rt: &R,
    alloc: Global,
    drawing: &mut Drawing,
    dirs: Dirs,
    (threads, calls): (usize, usize),
) -> Result<u64> {
    let mut lists = Vec::new(alloc);
    for thread in 0..threads {
        let dir = match dirs {
            Dirs::Own => drawing.path_in(b"", thread)?,
            Dirs::One => Vec::from_slice(alloc, b"/shared")?,
        };
        let first = thread.wrapping_mul(1_000_000);
        lists.push(list(alloc, drawing, &dir, first, calls)?)?;
    }
    play(rt, alloc, &lists)
}
