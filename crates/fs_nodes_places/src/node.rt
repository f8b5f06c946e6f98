//! What is in the place of a number.

ghost use Rattle.std.specs.Prelude.{◌≡◌, ◌++◌, ◌∷◌, [], OnOk, OnErr, Some};
ghost use Rattle.fs_nodes_places.specs.Stores.{link_of};
ghost use Rattle.fs_nodes_places.specs.code.PlainEdits.{relinked, new_content, new_node, with_file, handed_out};

use fs_blocks::File;
use fs_calls::NodeNo;
use fs_names::{Kind, Name};
use std::alloc::{AllocError, Global};
use std::mem;

/// What a node is, without the names of a directory.
#[derive(Drop)]
pub enum Content {
    Dir,
    File(File),
}

impl Content {
    /// A directory, or a file without bytes, in blocks or in one vector.
    pub fn new(alloc: Global, kind: Kind, in_blocks: bool) -> Content
        ensures { result ≡ new_content in_blocks kind }
    {
        match kind {
            Kind::Dir => Content::Dir,
            Kind::File => Content::File(File::empty(alloc, in_blocks)),
        }
    }
}

/// The entry that names a node.
#[derive(Drop)]
pub struct Link {
    pub dir: NodeNo,
    pub name: Name,
}

/// A node with the entry that names it, if one does.
#[derive(Drop)]
pub struct Node {
    pub content: Content,
    pub link: Option<Link>,
}

impl Node {
    /// An empty node that no entry names; a file is in blocks or in one vector.
    pub fn new(alloc: Global, kind: Kind, in_blocks: bool) -> Node
        ensures { result ≡ new_node in_blocks kind }
    {
        Node {
            content: Content::new(alloc, kind, in_blocks),
            link: None,
        }
    }
}

/// Lets this entry name the node from now on, or none. The one that has named it is handed out.
pub fn relink(place: &mut Option<Node>, link: Option<Link>) -> Option<Link>
    ensures new { place.new ≡ relinked place.old link }
    ensures old { result ≡ link_of place.old }
{
    match place {
        Some(node) => mem::replace(&mut node.link, link),
        None => None,
    }
}

/// Puts a node into a place, or empties the place.
pub fn put(place: &mut Option<Node>, node: Option<Node>)
    ensures { place.new ≡ node }
{
    *place = node;
}

/// Puts another file into a place of one, and hands the old one out.
pub fn swap_file(place: &mut Option<Node>, file: File) -> File
    ensures new { place.new ≡ with_file place.old file }
    ensures old { result ≡ handed_out place.old file }
{
    match place {
        Some(
            Node {
                content: Content::File(old),
                ..
            },
        ) => mem::replace(old, file),
        _ => file,
    }
}

/// Adds the place of an empty node that no entry names. After an error the places are as before.
pub fn add_place(
    places: &mut Vec<Option<Node>>,
    kind: Kind,
    in_blocks: bool,
) -> Result<(), AllocError>
    ensures ok { OnOk result (places.new.items ≡ places.old.items ++ Some (new_node in_blocks kind) ∷ []) }
    ensures err { OnErr result (places.new.items ≡ places.old.items) }
{
    let node = Node::new(*places.allocator(), kind, in_blocks);
    places.push(Some(node))?;
    Ok(())
}
