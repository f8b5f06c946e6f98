//! A file in blocks in each of the two stores, beside a vector of the same bytes.

use crate::drawing::below;
use anyhow::{Result, bail, ensure};
use check_nodes::blocks::{bytes_of, put};
use fs_blocks::{BLOCK, SPAN, Spare};
use fs_memory::Memory;
use fs_names::Kind;
use fs_nodes::{NodeNo, Store, plain};
use rand_core::SeedableRng;
use rand_pcg::Pcg32;
use std::alloc::Global;
use std::sync::Arc;

/// No file has as many bytes.
const MOST: usize = 1 << 30;

/// How many calls are drawn.
const CALLS: u32 = 200_000;

/// Offsets and sizes: at the start, and about the edges of blocks and of a chunk.
const EDGES: [usize; 8] = [
    0,
    1,
    BLOCK - 1,
    BLOCK,
    BLOCK + 1,
    BLOCK + SPAN - 1,
    BLOCK + SPAN,
    BLOCK + SPAN + 1,
];

/// How many bytes are written there.
const COUNTS: [usize; 4] = [1, 2, BLOCK, BLOCK + 1];

/// A file of each store, and its bytes.
#[derive(Drop)]
struct Files {
    linked: Store,
    in_linked: NodeNo,
    plain: plain::Store,
    in_plain: NodeNo,
    flat: Vec<u8>,
}

/// The same for the file of each store.
macro_rules! both {
    ($files:expr, $store:ident, $file:ident, $body:block) => {{
        let ($store, $file) = (&mut $files.linked, $files.in_linked);
        $body
        let ($store, $file) = (&mut $files.plain, $files.in_plain);
        $body
    }};
}

impl Files {
    /// Files without bytes, alone in stores of files in blocks.
    fn new(alloc: Global) -> Result<Files> {
        let mut linked = Store::with_form(alloc, 2, true)?;
        let mut plain = plain::Store::with_form(alloc, 2, true)?;
        let (Ok(in_linked), Ok(in_plain)) = (linked.reserve(Kind::File), plain.reserve(Kind::File))
        else {
            bail!("no number is left")
        };
        Ok(Files {
            linked,
            in_linked,
            plain,
            in_plain,
            flat: Vec::new(alloc),
        })
    }

    /// These bytes are put from an offset on, and are shared where that is said.
    fn put(
        &mut self,
        alloc: Global,
        off: usize,
        bytes: &Arc<Vec<u8>>,
        is_shared: bool,
    ) -> Result<()> {
        let count = bytes.as_slice().len();
        ensure!(0 < count && count < MOST && off < MOST, "no write");
        both!(
            self,
            store,
            file,
            {
                ensure!(store.is_in_blocks() && store.is_file(file), "no file");
                let spare = Spare::for_write(alloc, &mut Memory::new(), off, count)?;
                if is_shared {
                    store.take(file, off, bytes, spare);
                } else {
                    store.write(file, off, bytes.as_slice(), spare);
                }
            }
        );
        put(&mut self.flat, off, bytes.as_slice())
    }

    /// The file gets a size.
    fn resize(&mut self, alloc: Global, size: usize) -> Result<()> {
        both!(
            self,
            store,
            file,
            {
                ensure!(store.is_in_blocks() && store.is_file(file), "no file");
                let spare = Spare::for_size(alloc, &mut Memory::new(), size)?;
                store.resize(file, size, spare);
            }
        );
        Ok(self.flat.resize(size, 0)?)
    }

    /// Both files have the size of the vector, and about a place its bytes.
    fn compare(&mut self, alloc: Global, at: usize, count: usize) -> Result<()> {
        let end = self.flat.len().min(at.saturating_add(count));
        let due = self.flat.get(at.min(end)..end);
        both!(
            self,
            store,
            file,
            {
                let mut read = Vec::with_capacity(alloc, count)?;
                store.read(file, at as u64, count as u64, &mut read);
                ensure!(store.len(file) == self.flat.len(), "its size");
                ensure!(due == Some(read.as_slice()), "its bytes");
            }
        );
        Ok(())
    }

    /// Puts so many bytes from an offset on, and looks at those about them.
    fn fill(&mut self, alloc: Global, off: usize, count: usize, is_shared: bool) -> Result<()> {
        let bytes = Arc::new(alloc, bytes_of(alloc, count, off.wrapping_add(count))?)?;
        self.put(alloc, off, &bytes, is_shared)?;
        self.compare(alloc, off.saturating_sub(9), count.saturating_add(20))
    }

    /// Gives the file a size, and looks at the bytes about its end.
    fn cut(&mut self, alloc: Global, size: usize) -> Result<()> {
        self.resize(alloc, size)?;
        self.compare(alloc, size.saturating_sub(9), 20)
    }
}

/// Writes of so many bytes from an edge on and up to it, and sizes about it.
fn write_at(alloc: Global, files: &mut Files, edge: usize, count: usize) -> Result<()> {
    files.fill(alloc, edge, count, false)?;
    files.fill(alloc, edge.saturating_sub(count), count, true)?;
    for size in [edge.saturating_add(1), edge, edge.saturating_sub(1)] {
        files.cut(alloc, size)?;
    }
    files.fill(alloc, edge.saturating_add(2), 1, false)?;
    files.cut(alloc, 0)
}

/// All of this at each edge.
fn edges(alloc: Global, files: &mut Files) -> Result<()> {
    for edge in EDGES {
        for count in COUNTS {
            write_at(alloc, files, edge, count)?;
        }
    }
    Ok(())
}

/// Bytes that the blocks of both files share stay as they are when these change.
fn sharing(alloc: Global, files: &mut Files) -> Result<()> {
    let shared = Arc::new(alloc, bytes_of(alloc, BLOCK, 3)?)?;
    for off in [0, 2 * BLOCK] {
        files.put(alloc, off, &shared, true)?;
        files.fill(alloc, off.saturating_add(7), 9, false)?;
    }
    let same = shared.as_slice() == bytes_of(alloc, BLOCK, 3)?.as_slice();
    ensure!(same, "what is shared");
    files.compare(alloc, 0, 4 * BLOCK)
}

/// A drawn call, and how many of its kind there were.
fn draw(alloc: Global, files: &mut Files, random: &mut Pcg32) -> Result<()> {
    let off = below(random, 4 * BLOCK as u32) as usize;
    let count = (below(random, 40) as usize).saturating_add(1);
    match below(random, 16) {
        0 => files.cut(alloc, off),
        1 => files.fill(alloc, off / BLOCK * BLOCK, BLOCK, true),
        2 => files.fill(alloc, off / BLOCK * BLOCK, count, true),
        3 => files.fill(alloc, off, BLOCK, false),
        _ => files.fill(alloc, off, count, false),
    }
}

/// Drawn calls.
fn drawn(alloc: Global, files: &mut Files) -> Result<()> {
    let mut random = Pcg32::seed_from_u64(5);
    for _ in 0..CALLS {
        draw(alloc, files, &mut random)?;
    }
    files.compare(alloc, 0, 6 * BLOCK)
}

/// Does all of this with a file of each store, and says so.
pub fn run(rt: &impl Print, alloc: Global) -> Result<()> {
    let files = &mut Files::new(alloc)?;
    edges(alloc, files)?;
    sharing(alloc, files)?;
    drawn(alloc, files)?;
    Ok(println!(rt; "files in blocks: the bytes of a vector behind each of {CALLS} drawn calls")?)
}
