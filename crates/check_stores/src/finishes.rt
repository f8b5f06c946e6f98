//! Writes and truncates that finish in a store of files in blocks, beside one that has each file in one vector.

use anyhow::{Result, bail, ensure};
use check_nodes::blocks::bytes_of;
use fs_blocks::BLOCK;
use fs_calls::{Call, Data, Reply};
use fs_memory::Memory;
use fs_names::{Kind, Limits, Path};
use fs_nodes::{NodeNo, Store};
use fs_ops_effects::Room;
use fs_ops_effects::write::{truncate, write};
use std::alloc::Global;

/// The limits of both: a file has at most four blocks.
const LIMITS: Limits = Limits::V1;

/// Offsets and sizes: at the start, about the edges of blocks, at the most and after it.
const EDGES: [u64; 7] = [
    0,
    1,
    BLOCK as u64,
    BLOCK as u64 + 1,
    4 * BLOCK as u64 - 1,
    4 * BLOCK as u64,
    4 * BLOCK as u64 + 1,
];

/// How many bytes are written there.
const COUNTS: [usize; 4] = [0, 1, BLOCK, BLOCK + 1];

/// A file, alone in its store.
#[derive(Drop)]
pub struct Held {
    store: Store,
    file: NodeNo,
}

impl Held {
    pub fn new(alloc: Global, in_blocks: bool) -> Result<Held> {
        let mut store = Store::with_form(alloc, 2, in_blocks)?;
        let Ok(file) = store.reserve(Kind::File) else {
            bail!("no number is left")
        };
        Ok(Held { store, file })
    }

    /// How many bytes it has.
    pub fn len(&self) -> usize {
        self.store.len(self.file)
    }

    /// The room for a call is made, and the call finishes in it.
    pub fn finish(&mut self, alloc: Global, call: &Call) -> Result<Reply> {
        let in_blocks = self.store.is_in_blocks();
        let room = Room::new(alloc, &mut Memory::new(), in_blocks, LIMITS, call)?;
        let replies = match call {
            Call::Write(_, off, bytes) => write(
                &mut self.store,
                self.file,
                *off,
                bytes,
                LIMITS,
                room,
            ),
            Call::Truncate(_, size) => truncate(&mut self.store, self.file, *size, LIMITS, room),
            _ => bail!("no change of a file"),
        };
        Ok(replies.into_pair().0)
    }

    /// All its bytes.
    pub fn bytes(&self, alloc: Global) -> Result<Vec<u8>> {
        let count = self.len();
        let mut bytes = Vec::with_capacity(alloc, count)?;
        self.store.read(self.file, 0, count as u64, &mut bytes);
        Ok(bytes)
    }
}

/// A call replies the same in both, and leaves the same bytes.
fn compare(alloc: Global, call: &Call, one: &mut Held, other: &mut Held) -> Result<()> {
    let reply = one.finish(alloc, call)?;
    ensure!(reply.same(&other.finish(alloc, call)?), "its reply");
    ensure!(one.bytes(alloc)? == other.bytes(alloc)?, "its bytes");
    Ok(())
}

/// A write, and truncates to its start and to its end.
fn write_at(
    alloc: Global,
    (off, count): (u64, usize),
    one: &mut Held,
    other: &mut Held,
) -> Result<()> {
    let bytes = Data::new(bytes_of(alloc, count, off as usize)?)?;
    let file = Path::parse(alloc, b"/f")?;
    compare(alloc, &Call::Write(file.copy()?, off, bytes), one, other)?;
    compare(alloc, &Call::Truncate(file.copy()?, off), one, other)?;
    let end = off.saturating_add(count as u64);
    compare(alloc, &Call::Truncate(file, end), one, other)
}

/// All of these, and says so.
pub fn run(rt: &impl Print, alloc: Global) -> Result<()> {
    let (one, other) = (&mut Held::new(alloc, true)?, &mut Held::new(alloc, false)?);
    for off in EDGES {
        for count in COUNTS {
            write_at(alloc, (off, count), one, other)?;
        }
    }
    Ok(println!(rt;
        "finishes in a store of files in blocks: the replies and the bytes of one without"
    )?)
}
