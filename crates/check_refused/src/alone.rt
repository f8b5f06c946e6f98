//! The sequential tree, by one thread alone.

ghost use Rattle.std.specs.Prelude.{IsTrue};
ghost use Rattle.fs_seq.specs.Looks.{is_look};

use anyhow::bail;
use fs_calls::{Call, NameList, Reply};
use fs_names::{Kind, Limits};
use fs_seq::{NotTree, Row, SeqTree};
use std::alloc::{AllocError, Global};
use std::io;

/// What allocates, done once more where memory was refused, and how often that was.
#[derive(Drop)]
struct Again {
    alloc: Global,
    refused: u32,
}

impl Again {
    fn note(&mut self) {
        self.refused = self.refused.wrapping_add(1);
    }

    /// A tree is made.
    fn tree(&mut self) -> Result<SeqTree, AllocError> {
        match SeqTree::new(self.alloc) {
            Ok(tree) => Ok(tree),
            Err(_) => {
                self.note();
                SeqTree::new(self.alloc)
            }
        }
    }

    /// A call is applied to a tree.
    fn apply(&mut self, tree: &mut SeqTree, call: &Call) -> Result<Reply, AllocError> {
        match tree.apply(self.alloc, call) {
            Ok(reply) => Ok(reply),
            Err(_) => {
                self.note();
                tree.apply(self.alloc, call)
            }
        }
    }

    /// A tree is looked at by a stat, a readdir, a list or a read.
    fn look(&mut self, tree: &SeqTree, call: &Call) -> Result<Reply, AllocError>
        requires { IsTrue (is_look call.now) }
    {
        match tree.look(self.alloc, call) {
            Ok(reply) => Ok(reply),
            Err(_) => {
                self.note();
                tree.look(self.alloc, call)
            }
        }
    }

    /// A tree is copied.
    fn copy(&mut self, tree: &SeqTree) -> Result<SeqTree, AllocError> {
        match tree.copy() {
            Ok(copy) => Ok(copy),
            Err(_) => {
                self.note();
                tree.copy()
            }
        }
    }

    /// The rows of a tree.
    fn rows(&mut self, tree: &SeqTree) -> Result<Vec<Row>, AllocError> {
        match tree.rows(self.alloc) {
            Ok(rows) => Ok(rows),
            Err(_) => {
                self.note();
                tree.rows(self.alloc)
            }
        }
    }

    /// A tree is made of rows.
    fn from_rows(&mut self, rows: &[Row]) -> Result<SeqTree, NotTree> {
        match SeqTree::from_rows(self.alloc, rows, Limits::V2) {
            Err(NotTree::OutOfMemory) => {
                self.note();
                SeqTree::from_rows(self.alloc, rows, Limits::V2)
            }
            made => made,
        }
    }

    /// The rows of a copy of a tree.
    fn rows_of_copy(&mut self, tree: &SeqTree) -> Result<Vec<Row>, AllocError> {
        let copy = self.copy(tree)?;
        self.rows(&copy)
    }

    /// A copy of a tree, taken out as rows and made of these again.
    fn same_tree(&mut self, tree: &SeqTree) -> anyhow::Result<SeqTree> {
        let rows = self.rows_of_copy(tree)?;
        match self.from_rows(&rows) {
            Ok(same) => Ok(same),
            Err(_) => bail!("rows of a tree that make none"),
        }
    }

    /// A look, by any call.
    fn look_by(&mut self, tree: &SeqTree, call: &Call) -> anyhow::Result<Reply> {
        match call {
            Call::Stat(_) | Call::Readdir(_) | Call::ListAfter(_, _, _) | Call::Read(_, _, _) => Ok(
                self.look(tree, call)?,
            ),
            _ => bail!("a call that is no look"),
        }
    }
}

/// What bytes are in all, by which others of as many differ.
fn in_all(bytes: &[u8]) -> u64 {
    let mut sum = 0u64;
    for byte in bytes {
        sum = sum.wrapping_add(u64::from(*byte));
    }
    sum
}

/// How many names a list has.
pub fn count_of(list: &NameList) -> usize {
    let mut names = list.names();
    let mut count = 0usize;
    while names.next().is_some() {
        count = count.wrapping_add(1);
    }
    count
}

pub fn show_bytes(rt: &impl Print, bytes: &[u8]) -> io::Result<()> {
    println!(rt; "bytes: {}, in all {}", bytes.len(), in_all(bytes))
}

pub fn show(rt: &impl Print, reply: &Reply) -> io::Result<()> {
    match reply {
        Reply::Done => println!(rt; "done"),
        Reply::Stat(Kind::Dir, entries) => println!(rt; "a directory of {entries}"),
        Reply::Stat(Kind::File, size) => println!(rt; "a file of {size}"),
        Reply::Names(names) => println!(rt; "names: {}", count_of(names)),
        Reply::Bytes(bytes) => show_bytes(rt, bytes.as_slice()),
        Reply::Wrote(count) => println!(rt; "wrote {count}"),
        Reply::Failed(errno) => println!(rt; "error {}", errno.number()),
    }
}

/// Applies a call and shows its reply.
fn apply(
    rt: &impl Print,
    again: &mut Again,
    tree: &mut SeqTree,
    call: &Call,
) -> anyhow::Result<()> {
    let reply = again.apply(tree, call)?;
    Ok(show(rt, &reply)?)
}

/// Looks at a tree and shows the reply.
fn look(rt: &impl Print, again: &mut Again, tree: &SeqTree, call: &Call) -> anyhow::Result<()> {
    let reply = again.look_by(tree, call)?;
    Ok(show(rt, &reply)?)
}

/// Looks at a tree by each call.
fn look_all(
    rt: &impl Print,
    again: &mut Again,
    tree: &SeqTree,
    looks: &[Call],
) -> anyhow::Result<()> {
    for call in looks {
        look(rt, again, tree, call)?;
    }
    Ok(())
}

/// Applies calls to a tree, and then looks at a tree that is made of the rows of a copy.
fn run_on(
    rt: &impl Print,
    again: &mut Again,
    tree: &mut SeqTree,
    calls: &[Call],
    looks: &[Call],
) -> anyhow::Result<()> {
    for call in calls {
        apply(rt, again, tree, call)?;
    }
    let same = again.same_tree(tree)?;
    look_all(rt, again, &same, looks)
}

/// The same on a new tree. It answers how often memory was refused.
pub fn run(rt: &impl Print, alloc: Global, calls: &[Call], looks: &[Call]) -> anyhow::Result<u32> {
    let mut again = Again { alloc, refused: 0 };
    let mut tree = again.tree()?;
    let ran = run_on(rt, &mut again, &mut tree, calls, looks);
    let refused = again.refused;
    ran.map(|()| refused)
}
