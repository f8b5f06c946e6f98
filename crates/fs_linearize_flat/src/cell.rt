//! Entries of a tree, which copies share.

ghost use Rattle.std.specs.Prelude.{◌≡◌, ◌↔◌, true, length, option_copied, IfOk};
ghost use Rattle.std.specs.Rc.{rc_value};
ghost use Rattle.fs_calls.specs.Replies.{same_kind};
ghost use Rattle.fs_seq.specs.Rows.{node_of_kind};
ghost use Rattle.fs_linearize_sparse.specs.Files.{bytes_in};
ghost use Rattle.fs_linearize_flat.specs.code.Cells.{kind_of, bytes_at, entry_of};

use crate::keys::same_key;
use fs_linearize_sparse::SparseFile;
use fs_names::{Kind, Name};
use std::alloc::{AllocError, Global};
use std::marker::Model;
use std::rc::Rc;

/// What is at a key, which may have more names than a path.
#[derive(Drop)]
struct Entry {
    /// A number made of the rest, and how many names the key has: both come first, so that most entries are passed over by one look.
    mark: u64,
    depth: usize,
    /// The names from the root down.
    key: Vec<Name>,
    kind: Kind,
    /// The bytes of a file; a directory has none.
    content: SparseFile,
}

/// An entry of a tree: what is at a key.
#[derive(Drop)]
pub(crate) struct Cell {
    entry: Rc<Entry>,
}

/// The entries of a tree, which copies share.
#[derive(Drop)]
pub(crate) struct Shared {
    pub cells: Vec<Cell>,
    /// A number made of them.
    pub mark: u64,
}

impl Model for Cell {
    ghost use Rattle.std.specs.Rc.{rc_value};
    ghost use Rattle.fs_names.specs.Keys.{Key};
    ghost use Rattle.fs_calls.specs.Tree.{Node};
    ghost use Rattle.std.specs.Prelude.{◌≡◌, length};
    ghost use Rattle.fs_linearize_flat.specs.code.Cells.{entry_of};

    ghost Value = { Key × Node };

    ghost view = { λ c. entry_of (rc_value c.entry) };

    ghost invariant = { λ c. (rc_value c.entry).depth ≡ length (rc_value c.entry).key.items };
}

fn same_kinds(kind: Kind, other: Kind) -> bool
    ensures { result ≡ same_kind kind other }
{
    kind == other
}

/// Whether both are one entry: of directories no bytes count.
fn same_entry(entry: &Entry, other: &Entry) -> bool
    ensures { result ≡ true ↔ entry_of entry.now ≡ entry_of other.now }
{
    if !same_key(&entry.key, &other.key) {
        return false;
    }
    if !same_kinds(entry.kind, other.kind) {
        return false;
    }
    match entry.kind {
        Kind::Dir => true,
        Kind::File => entry.content.same(&other.content),
    }
}

/// Of the contents of a file so many bytes at most are mixed into a mark, since they can be long.
const MARKED: usize = 64;

/// One number more mixed into a mark.
fn mixed(mark: u64, number: u64) -> u64 {
    let product = (mark ^ number).wrapping_mul(0x9E37_79B9_7F4A_7C15);
    product ^ (product >> 29)
}

/// Bytes mixed into a mark, and how many they are.
fn with_bytes(mark: u64, bytes: &[u8]) -> u64 {
    let mut with = mixed(mark, bytes.len() as u64);
    for byte in bytes {
        with = mixed(with, u64::from(*byte));
    }
    with
}

/// The contents of a file mixed into a mark: how many bytes they are, and some of them.
fn with_content(mark: u64, content: &SparseFile) -> u64 {
    let mut with = mixed(mark, content.len() as u64);
    for place in (0..content.len()).step_by(content.len() / MARKED + 1) {
        with = mixed(with, u64::from(content.byte(place)));
    }
    with
}

impl Cell {
    /// The entry of a node at a key; the content is that of a file.
    pub fn new(
        alloc: Global,
        key: Vec<Name>,
        kind: Kind,
        content: SparseFile,
    ) -> Result<Cell, AllocError>
        ensures { IfOk result (λ cell. cell ≡ (key.items, node_of_kind kind content)) }
    {
        let mut mark = match kind {
            Kind::Dir => 1u64,
            Kind::File => 2u64,
        };
        for name in &key {
            mark = with_bytes(mark, name.bytes());
        }
        let entry = Entry {
            mark: with_content(mark, &content),
            depth: key.len(),
            key,
            kind,
            content,
        };
        match Rc::new(alloc, entry) {
            Ok(entry) => Ok(Cell { entry }),
            Err(_) => Err(AllocError),
        }
    }

    /// The same entry again, which shares its memory.
    pub fn copy(&self) -> Result<Cell, AllocError>
        ensures { IfOk result (λ cell. cell ≡ self.now) }
    {
        let entry = self.entry.clone()?;
        Ok(Cell { entry })
    }

    /// The names from the root down.
    pub fn key(&self) -> &[Name]
        ensures { result.now ≡ self.now.0 }
    {
        self.entry.key.as_slice()
    }

    /// How many names that are.
    pub fn depth(&self) -> usize
        ensures { result ≡ length self.now.0 }
    {
        self.entry.depth
    }

    /// Whether a directory or a file is there.
    pub fn kind(&self) -> Kind
        ensures { result ≡ kind_of self.now.1 }
    {
        self.entry.kind
    }

    /// The content of a file.
    pub fn content(&self) -> Option<&SparseFile>
        ensures { bytes_in (option_copied result) ≡ bytes_at self.now.1 }
    {
        match self.entry.kind {
            Kind::Dir => None,
            Kind::File => Some(&self.entry.content),
        }
    }

    /// How many bytes a file has; a directory has none.
    pub fn len(&self) -> usize
        ensures { result ≡ length (bytes_at self.now.1) }
    {
        match self.entry.kind {
            Kind::Dir => 0,
            Kind::File => self.entry.content.len(),
        }
    }

    /// Whether both are one entry.
    pub fn same(&self, other: &Cell) -> bool
        ensures { result ≡ true ↔ self.now ≡ other.now }
    {
        same_entry(&self.entry, &other.entry)
    }
}

/// Entries that can be shared.
pub(crate) fn share(alloc: Global, cells: Vec<Cell>) -> Result<Rc<Shared>, AllocError>
    ensures { IfOk result (λ made. (rc_value made).cells.items ≡ cells.items) }
{
    let mut mark = 0u64;
    for cell in &cells {
        mark = mark.wrapping_add(cell.entry.mark);
    }
    match Rc::new(alloc, Shared { cells, mark }) {
        Ok(shared) => Ok(shared),
        Err(_) => Err(AllocError),
    }
}
