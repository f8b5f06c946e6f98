//! The tree.

ghost use Rattle.std.specs.Prelude.{◌≡◌, ◌↔◌, true, false, length, IfOk, IsTrue};
ghost use Rattle.std.specs.FinMap.{is_sorted};
ghost use Rattle.fs_names.specs.Keys.{key_cmp};
ghost use Rattle.fs_names.specs.declared.limits.Limits.{Limits};
ghost use Rattle.fs_calls.specs.Tree.{Tree};
ghost use Rattle.fs_calls.specs.Outcomes.{after, called, reply, reply_at};
ghost use Rattle.fs_linearize_flat.specs.code.Cells.{is_failed};

use crate::cell::{Cell, Shared, share};
use crate::changes::{change, only_looks};
use crate::faults::error;
use crate::replies::success;
use crate::searching::rises;
use fs_calls::{Call, Reply};
use fs_linearize_sparse::SparseFile;
use fs_names::Limits;
use fs_seq::SeqTree;
use std::alloc::{AllocError, Global};
use std::marker::Model;
use std::rc::Rc;

/// A tree of directories and files as a list of its entries, seen as the tree that its calls made and the limits that it keeps.
#[derive(Drop)]
pub struct FlatTree {
    shared: Rc<Shared>,
    limits: Limits,
}

impl Model for FlatTree {
    ghost use Rattle.std.specs.Prelude.{IsTrue};
    ghost use Rattle.std.specs.Rc.{rc_value};
    ghost use Rattle.std.specs.FinMap.{is_sorted};
    ghost use Rattle.fs_names.specs.Keys.{key_cmp};
    ghost use Rattle.fs_calls.specs.Starts.{Start};

    ghost Value = { Start };

    ghost view = { λ t. record { limits = t.limits; tree = (rc_value t.shared).cells.items } };

    ghost invariant = { λ t. IsTrue (is_sorted key_cmp (rc_value t.shared).cells.items) };
}

/// Whether a call that gets this reply was found to leave the tree as it is.
fn stays(call: &Call, answer: &Reply) -> bool
    ensures works { result ≡ false → is_failed answer.now ≡ false }
    ensures stays { result ≡ true → (limits : Limits) (t : Tree) → answer.now ≡ reply limits t call.now → after limits t call.now ≡ t }
{
    match answer {
        Reply::Failed(_) => true,
        _ => only_looks(call),
    }
}

/// The entries of a tree.
fn cells_of(alloc: Global, tree: &SeqTree) -> Result<Vec<Cell>, AllocError>
    ensures { IfOk result (λ cells. cells.items ≡ tree.now.tree) }
{
    let mut cells = Vec::new(alloc);
    for row in tree.rows(alloc)? {
        let content = SparseFile::of(alloc, row.bytes)?;
        cells.push(Cell::new(alloc, row.key, row.kind, content)?)?;
    }
    Ok(cells)
}

/// Whether the entries are the same.
#[tactic(auto, using(crate::proofs::KeyLemmas::same_next, crate::proofs::KeyLemmas::same_all))]
fn are_same(cells: &[Cell], others: &[Cell]) -> bool
    ensures { result ≡ true ↔ cells.now ≡ others.now }
{
    if cells.len() != others.len() {
        return false;
    }
    for (place, cell) in cells.iter().enumerate() {
        if !cell.same(&others[place]) {
            return false;
        }
    }
    true
}

impl FlatTree {
    /// The same tree as a sequential one. Its entries come in order, so no error comes unless memory runs out.
    pub fn of(alloc: Global, tree: &SeqTree) -> Result<FlatTree, AllocError>
        ensures { IfOk result (λ flat. flat ≡ tree.now) }
    {
        let cells = cells_of(alloc, tree)?;
        if !rises(&cells) {
            return Err(AllocError);
        }
        Ok(FlatTree {
            shared: share(alloc, cells)?,
            limits: tree.limits(),
        })
    }

    /// The same tree again, which shares the entries of this one.
    pub fn copy(&self) -> Result<FlatTree, AllocError>
        ensures { IfOk result (λ tree. tree ≡ self.now) }
    {
        Ok(FlatTree {
            shared: self.shared.clone()?,
            limits: self.limits,
        })
    }

    /// The limits that it keeps.
    pub fn limits(&self) -> Limits
        ensures { result ≡ self.now.limits }
    {
        self.limits
    }

    /// How many entries it has, with the root's.
    pub fn len(&self) -> usize
        ensures { result ≡ length self.now.tree }
    {
        self.shared.cells.len()
    }

    /// Whether both are one tree.
    pub fn same(&self, other: &FlatTree) -> bool
        ensures { result ≡ true ↔ self.now ≡ other.now }
    {
        self.limits == other.limits && are_same(&self.shared.cells, &other.shared.cells)
    }

    /// A number made of the tree: the same for the same tree, and mostly another for another one.
    pub fn mark(&self) -> u64 {
        self.shared.mark
    }

    /// The reply of a call on the tree, which stays as it is.
    #[tactic(auto, using(crate::proofs::FaultLemmas::fails, crate::proofs::FaultLemmas::works))]
    pub fn reply(&self, alloc: Global, call: &Call) -> Result<Reply, AllocError>
        ensures { IfOk result (λ reply. reply ≡ reply_at self.now call.now) }
    {
        match error(alloc, &self.shared.cells, self.limits, call)? {
            Some(errno) => Ok(Reply::Failed(errno)),
            None => Ok(success(alloc, &self.shared.cells, self.limits, call)?),
        }
    }

    /// The tree that a call leaves that gets this reply. This one stays as it is.
    #[tactic(auto, using(crate::proofs::ChangeLemmas::changes, crate::proofs::ChangeLemmas::after_sorted))]
    pub fn after(&self, alloc: Global, call: &Call, answer: &Reply) -> Result<FlatTree, AllocError>
        requires { answer.now ≡ reply_at self.now call.now }
        ensures { IfOk result (λ tree. tree ≡ called self.now call.now) }
    {
        if stays(call, answer) {
            return Ok(self.copy()?);
        }
        let cells = change(alloc, &self.shared.cells, call)?;
        Ok(FlatTree {
            shared: share(alloc, cells)?,
            limits: self.limits,
        })
    }
}
