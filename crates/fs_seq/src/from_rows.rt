//! The nodes of a tree, made of its entries.

ghost use Rattle.std.specs.Prelude.{◌≡◌, ℕ, ◌++◌, ◌∷◌, [], Some, None, Ok, Err, true, false, IfOk, OnOk, MatchOption, map};
ghost use Rattle.fs_names.specs.Limits.{in_blocks};
ghost use Rattle.fs_calls.specs.Tree.{root_tree};
ghost use Rattle.fs_seq.specs.Rows.{fits, is_first, key_of, last_key, may_have, misfit, node_of_kind, row_of};
ghost use Rattle.fs_seq.specs.code.Added.{IsPlaceOf};
ghost use Rattle.fs_seq_nodes.specs.code.Nodes.{graph, place, tree_node};
ghost use Rattle.fs_seq_nodes.specs.code.Slots.{IsForest, HasForm, KeepsForm, links_of, tree_of, walk};

use crate::rows::Row;
use fs_blocks::{File, Spare};
use fs_calls::ranges::{fits_size, is_full};
use fs_memory::Memory;
use fs_names::order::compare_keys;
use fs_names::{Kind, Limits, Name};
use fs_seq_nodes::nodes::{attach, step};
use fs_seq_nodes::{Links, Node};
use slab::Slab;
use std::alloc::{AllocError, Global};
use std::cmp::Ordering;

/// Why rows are no tree.
#[derive(Clone, Copy, Debug, PartialEq, Eq)]
pub enum NotTree {
    /// The place, counted from 1, of the first row that no tree within the limits of entries and bytes has there; it is 1
    /// where there are no rows.
    Bad(usize),
    /// An allocation failed. This says nothing about the rows.
    OutOfMemory,
}

/// Whether a node of a row's kind may have its bytes by these limits.
fn may_have(row: &Row, limits: Limits) -> bool
    ensures { result ≡ may_have limits row.now.kind row.now.bytes.items }
{
    match row.kind {
        Kind::Dir => row.bytes.is_empty(),
        Kind::File => fits_size(limits.file(), row.bytes.len() as u64),
    }
}

/// Whether a row is that of a root.
fn is_first(row: &Row) -> bool
    ensures { result ≡ is_first row.now }
{
    row.key.is_empty() && row.kind == Kind::Dir && row.bytes.is_empty()
}

/// The number to which names lead from the root.
fn reached(nodes: &Slab<Node>, names: &[Name]) -> Option<usize>
    requires { IsForest (graph nodes.now) }
    ensures { result ≡ walk (graph nodes.now) names.now }
{
    let mut at = 0;
    for name in names {
        match step(nodes, at, name) {
            Ok(next) => at = next,
            Err(_) => return None,
        }
    }
    Some(at)
}

/// Where the entry of a row belongs after the row before: the number of its directory, the place among the entries
/// there, and its name.
fn place_of<'a>(
    nodes: &Slab<Node>,
    before: &Row,
    row: &'a Row,
    limits: Limits,
) -> Option<(usize, usize, &'a Name)>
    requires forest { IsForest (graph nodes.now) }
    requires last { last_key (tree_of (graph nodes.now)) ≡ key_of before.now }
    ensures { MatchOption result (fits limits (tree_of (graph nodes.now)) row.now ≡ false) (λ at. IsPlaceOf limits (graph nodes.now) row.now at.0 at.1 at.2.now) }
{
    let Some((name, parent)) = row.key.split_last() else {
        return None;
    };
    if compare_keys(&before.key, &row.key) != Ordering::Less || !may_have(row, limits) {
        return None;
    }
    let Some(dir) = reached(nodes, parent) else {
        return None;
    };
    match &nodes[dir] {
        Node::File(_) => None,
        Node::Dir(links) => {
            if is_full(limits.entries(), links.len()) {
                return None;
            }
            match links.search(name) {
                Ok(_) => None,
                Err(i) => Some((dir, i, name)),
            }
        }
    }
}

/// A file of these bytes, in the form of these limits.
fn file_of(alloc: Global, bytes: &[u8], limits: Limits) -> Result<File, AllocError>
    ensures { IfOk result (λ file. file ≡ record { bytes = bytes.now; in_blocks = in_blocks limits }) }
{
    if !limits.in_blocks() {
        return Ok(File::plain(Vec::from_slice(alloc, bytes)?));
    }
    let mut file = File::in_blocks();
    if bytes.is_empty() {
        return Ok(file);
    }
    let spare = Spare::for_write(alloc, &mut Memory::new(), 0, bytes.len())?;
    file.write(0, bytes, spare);
    file.share(alloc, 0, bytes.len());
    Ok(file)
}

/// The node of a row, which has no entries.
fn bare_node(alloc: Global, row: &Row, limits: Limits) -> Result<Node, AllocError>
    ensures node { IfOk result (λ node. tree_node node ≡ node_of_kind row.now.kind row.now.bytes.items) }
    ensures bare { IfOk result (λ node. links_of (Some (place node)) ≡ []) }
    ensures form { IfOk result (λ node. HasForm (in_blocks limits) (Some (place node))) }
{
    match row.kind {
        Kind::Dir => Ok(Node::Dir(Links::new(alloc))),
        Kind::File => Ok(Node::File(file_of(alloc, &row.bytes, limits)?)),
    }
}

/// Adds the node of a row after the row before, and answers whether it fits there.
fn add_row(
    alloc: Global,
    nodes: &mut Slab<Node>,
    before: &Row,
    row: &Row,
    limits: Limits,
) -> Result<bool, AllocError>
    requires forest { IsForest (graph nodes.old) }
    requires last { last_key (tree_of (graph nodes.old)) ≡ key_of before.now }
    ensures forest { IsForest (graph nodes.new) }
    ensures form { KeepsForm limits (graph nodes.old) (graph nodes.new) }
    ensures fits { IfOk result (λ fit. fit ≡ fits limits (tree_of (graph nodes.old)) row.now) }
    ensures tree { result ≡ Ok true → tree_of (graph nodes.new) ≡ tree_of (graph nodes.old) ++ row_of row.now ∷ [] }
{
    let Some((dir, i, name)) = place_of(nodes, before, row, limits) else {
        return Ok(false);
    };
    let node = bare_node(alloc, row, limits)?;
    attach(alloc, &mut Memory::new(), nodes, dir, i, name, node)?;
    Ok(true)
}

/// Adds the nodes of rows to the root alone, by these limits.
pub fn add_rows(
    alloc: Global,
    nodes: &mut Slab<Node>,
    rows: &[Row],
    limits: Limits,
) -> Result<(), NotTree>
    requires forest { IsForest (graph nodes.old) }
    requires root { tree_of (graph nodes.old) ≡ root_tree }
    ensures forest { IsForest (graph nodes.new) }
    ensures form { KeepsForm limits (graph nodes.old) (graph nodes.new) }
    ensures tree { OnOk result (tree_of (graph nodes.new) ≡ map row_of rows.now) }
    ensures fits { OnOk result (misfit limits rows.now ≡ None) }
    ensures bad { (place : ℕ) → result ≡ Err (NotTree.Bad place) → misfit limits rows.now ≡ Some place }
{
    match rows.first() {
        Some(first) if is_first(first) => {}
        _ => return Err(NotTree::Bad(1)),
    }
    for i in 1..rows.len() {
        match add_row(alloc, nodes, &rows[i - 1], &rows[i], limits) {
            Ok(true) => {}
            Ok(false) => return Err(NotTree::Bad(i + 1)),
            Err(_) => return Err(NotTree::OutOfMemory),
        }
    }
    Ok(())
}
