//! Writes and truncates of a file in blocks, by one thread alone.

use crate::alone::{show, show_bytes};
use anyhow::{Result, ensure};
use check_stores::finishes::Held;
use fs_calls::{Call, Reply};
use std::alloc::Global;

/// A file in blocks, and how often memory was refused for it.
#[derive(Drop)]
struct Again {
    held: Held,
    refused: u64,
}

impl Again {
    fn new(alloc: Global) -> Result<Again> {
        match Held::new(alloc, true) {
            Ok(held) => Ok(Again { held, refused: 0 }),
            Err(_) => Ok(Again {
                held: Held::new(alloc, true)?,
                refused: 1,
            }),
        }
    }

    fn note(&mut self) {
        self.refused = self.refused.wrapping_add(1);
    }

    /// A call finishes, once more where memory was refused for its room: the file is as long as before then.
    fn finish(&mut self, alloc: Global, call: &Call) -> Result<Reply> {
        let before = self.held.len();
        match self.held.finish(alloc, call) {
            Ok(reply) => Ok(reply),
            Err(_) => {
                self.note();
                ensure!(
                    self.held.len() == before,
                    "a refused call left another file"
                );
                self.held.finish(alloc, call)
            }
        }
    }

    fn bytes(&mut self, alloc: Global) -> Result<Vec<u8>> {
        match self.held.bytes(alloc) {
            Ok(bytes) => Ok(bytes),
            Err(_) => {
                self.note();
                self.held.bytes(alloc)
            }
        }
    }
}

/// The calls finish on a new file, one after the other. It answers how often memory was refused.
pub fn run(rt: &impl Print, alloc: Global, calls: &[Call]) -> Result<u64> {
    let mut again = Again::new(alloc)?;
    for call in calls {
        let reply = again.finish(alloc, call)?;
        show(rt, &reply)?;
    }
    let bytes = again.bytes(alloc)?;
    show_bytes(rt, &bytes)?;
    Ok(again.refused)
}
