//! A number for all answers of a job.

use fs_calls::{NameList, Reply};
use fs_names::Kind;

/// A digest of numbers and bytes, in their order.
#[derive(Drop)]
pub struct Digest {
    value: u64,
}

impl Digest {
    /// That of nothing.
    pub fn new() -> Digest {
        Digest { value: 1 }
    }

    /// The number that it has come to.
    pub fn value(&self) -> u64 {
        self.value
    }

    /// A number more.
    pub fn add(&mut self, number: u64) {
        let mixed = (self.value ^ number).wrapping_mul(0x9e37_79b9_7f4a_7c15);
        self.value = mixed ^ (mixed >> 29);
    }

    /// Bytes more.
    pub fn add_bytes(&mut self, bytes: &[u8]) {
        self.add(bytes.len() as u64);
        let (words, rest) = bytes.as_chunks::<8>();
        for word in words {
            self.add(u64::from_le_bytes(*word));
        }
        for byte in rest {
            self.add(u64::from(*byte));
        }
    }

    /// Names more.
    fn add_names(&mut self, names: &NameList) {
        let mut left = names.names();
        'names: while let Some(name) = left.next() {
            self.add_bytes(name);
        }
    }

    /// A reply more.
    pub fn add_reply(&mut self, reply: &Reply) {
        match reply {
            Reply::Done => self.add(1),
            Reply::Stat(kind, size) => {
                self.add(if matches!(kind, Kind::Dir) { 2 } else { 3 });
                self.add(*size);
            }
            Reply::Names(names) => {
                self.add(4);
                self.add_names(names);
            }
            Reply::Bytes(bytes) => {
                self.add(5);
                self.add_bytes(bytes.as_slice());
            }
            Reply::Wrote(count) => {
                self.add(6);
                self.add(*count);
            }
            Reply::Failed(errno) => self.add(7 + u64::from(errno.number())),
        }
    }
}
