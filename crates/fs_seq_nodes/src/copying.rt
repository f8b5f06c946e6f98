//! The same nodes again, in memory of their own; blocks of files that are shared get one owner more.

ghost use Rattle.std.specs.Prelude.{◌≡◌, ◌≢◌, IfOk, OnOk, OnErr};
ghost use Rattle.fs_seq_nodes.specs.code.Nodes.{graph};

use crate::nodes::{Link, Node};
use fs_memory::Memory;
use slab::Slab;
use std::alloc::AllocError;

impl Clone for Link {
    ghost is_clone = { λ link copy. copy ≡ link };

    fn clone(&self) -> Result<Link, AllocError> {
        Ok(Link {
            name: self.name.clone()?,
            node: self.node,
        })
    }
}

impl Clone for Node {
    ghost use Rattle.fs_seq_nodes.specs.code.Nodes.{place};

    ghost is_clone = { λ node copy. place copy ≡ place node };

    fn clone(&self) -> Result<Node, AllocError> {
        match self {
            Node::Dir(links) => Ok(Node::Dir(links.clone()?)),
            Node::File(file) => Ok(Node::File(file.clone()?)),
        }
    }
}

/// The same nodes under the same numbers.
pub fn copied(memory: &mut Memory, nodes: &Slab<Node>) -> Result<Slab<Node>, AllocError>
    ensures copy { IfOk result (λ copy. graph copy ≡ graph nodes.now) }
    ensures granted { OnOk result (memory.new ≡ memory.old) }
    ensures refused { OnErr result (memory.new ≢ memory.old) }
{
    memory.clone_of(nodes)
}
