//! A tree as a list of its entries.

ghost use Rattle.std.specs.Prelude.{◌≡◌, ◌++◌, ◌∷◌, [], Some, true, IfOk, OnOk, map, reverse};
ghost use Rattle.std.specs.List.{list_all};
ghost use Rattle.slab.specs.Slab.{ContainsKey};
ghost use Rattle.fs_seq.specs.Rows.{row_of, is_plain};
ghost use Rattle.fs_seq_nodes.specs.code.Nodes.{graph, pairs, place};
ghost use Rattle.fs_seq_nodes.specs.code.Slots.{IsForest, node_at, node_of, with_node, links_at, links_of, tree_of};
ghost use Rattle.fs_seq.specs.code.Walks.{entries_below};

use fs_blocks::File;
use fs_names::{Kind, Name};
use fs_seq_nodes::{Link, Node};
use slab::Slab;
use std::alloc::{AllocError, Global};
use std::marker::Model;

/// An entry of a tree: what is at a key, which may have more names than a path.
#[derive(Drop)]
pub struct Row {
    /// The names from the root down.
    pub key: Vec<Name>,
    pub kind: Kind,
    /// The bytes of a file; a directory has none.
    pub bytes: Vec<u8>,
}

/// A node to which a walk has still to come, by its key and its number.
#[derive(Drop)]
struct Ahead {
    key: Vec<Name>,
    node: usize,
}

impl Model for Ahead {
    ghost use Rattle.std.specs.Prelude.{ℕ};
    ghost use Rattle.fs_names.specs.Keys.{Key};

    ghost Value = { Key × ℕ };

    ghost view = { λ a. (a.key.items, a.node) };
}

/// A key with one name more.
fn longer(alloc: Global, key: &[Name], name: &Name) -> Result<Vec<Name>, AllocError>
    ensures { IfOk result (λ longer. longer.items ≡ key.now ++ name.now ∷ []) }
{
    let mut longer = Vec::with_capacity(alloc, key.len() + 1)?;
    for above in key {
        longer.push(above.copy()?)?;
    }
    longer.push(name.copy()?)?;
    Ok(longer)
}

/// Puts these entries of a directory ahead, so that the first of them is the next.
fn push_links(
    alloc: Global,
    key: &[Name],
    links: &[Link],
    ahead: &mut Vec<Ahead>,
) -> Result<(), AllocError>
    ensures { OnOk result (ahead.new.items ≡ ahead.old.items ++ reverse (entries_below key.now (pairs links.now))) }
{
    for i in (0..links.len()).rev() {
        let link = &links[i];
        let entry = Ahead {
            key: longer(alloc, key, link.name.name())?,
            node: link.node,
        };
        ahead.push(entry)?;
    }
    Ok(())
}

/// Puts the entries of a directory ahead, so that its first one is the next.
fn push_entries(
    alloc: Global,
    key: &[Name],
    node: &Node,
    ahead: &mut Vec<Ahead>,
) -> Result<(), AllocError>
    ensures { OnOk result (ahead.new.items ≡ ahead.old.items ++ reverse (entries_below key.now (links_of (Some (place node.now))))) }
{
    let mut left = node.entries();
    while left > 0 {
        let links = node.until(left);
        push_links(alloc, key, links, ahead)?;
        left -= links.len();
    }
    Ok(())
}

/// The bytes of a file, in a vector.
fn bytes_of(alloc: Global, file: &File) -> Result<Vec<u8>, AllocError>
    ensures { IfOk result (λ bytes. bytes.items ≡ file.now.bytes) }
{
    let len = file.len();
    let mut bytes = Vec::with_capacity(alloc, len)?;
    file.read(0, len as u64, &mut bytes);
    Ok(bytes)
}

/// The row of a node.
fn row_at(alloc: Global, key: Vec<Name>, node: &Node) -> Result<Row, AllocError>
    ensures row { IfOk result (λ row. with_node key.items (node_of (Some (place node.now))) [] ≡ row_of row ∷ []) }
    ensures plain { IfOk result (λ row. is_plain row ≡ true) }
{
    match node {
        Node::Dir(_) => Ok(Row {
            key,
            kind: Kind::Dir,
            bytes: Vec::new(alloc),
        }),
        Node::File(file) => Ok(Row {
            key,
            kind: Kind::File,
            bytes: bytes_of(alloc, file)?,
        }),
    }
}

/// Tells the row of a node, and puts its entries ahead.
fn visit(
    alloc: Global,
    nodes: &Slab<Node>,
    at: Ahead,
    ahead: &mut Vec<Ahead>,
    rows: &mut Vec<Row>,
) -> Result<(), AllocError>
    requires { ContainsKey nodes.now at.1 }
    ensures ahead { OnOk result (ahead.new.items ≡ ahead.old.items ++ reverse (entries_below at.0 (links_at (graph nodes.now) at.1))) }
    ensures rows { OnOk result (map row_of rows.new.items ≡ map row_of rows.old.items ++ with_node at.0 (node_at (graph nodes.now) at.1) []) }
    ensures plain { OnOk result (list_all is_plain rows.old.items ≡ true → list_all is_plain rows.new.items ≡ true) }
{
    let node = &nodes[at.node];
    push_entries(alloc, &at.key, node, ahead)?;
    let row = row_at(alloc, at.key, node)?;
    rows.push(row)?;
    Ok(())
}

/// The rows of the nodes that are reached from the root, each directory followed at once by its entries in byte order of
/// their names.
pub fn rows(alloc: Global, nodes: &Slab<Node>) -> Result<Vec<Row>, AllocError>
    requires { IsForest (graph nodes.now) }
    ensures tree { IfOk result (λ rows. map row_of rows.items ≡ tree_of (graph nodes.now)) }
    ensures plain { IfOk result (λ rows. list_all is_plain rows.items ≡ true) }
{
    let mut rows = Vec::with_capacity(alloc, nodes.len())?;
    let mut ahead = Vec::new(alloc);
    let root = Ahead {
        key: Vec::new(alloc),
        node: 0,
    };
    ahead.push(root)?;
    while let Some(at) = ahead.pop() {
        visit(alloc, nodes, at, &mut ahead, &mut rows)?;
    }
    Ok(rows)
}
