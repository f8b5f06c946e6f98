//! Memory that is asked for, and how often it was refused.
//!
//! No contract of the standard library says when an allocation fails. So all memory that a begin or a checkpoint can lack is asked for
//! here. Each answer "no memory" is counted, and each one that gives memory leaves the count as it is. A function above that has a
//! `Memory` then says in its contract that it runs out of memory exactly if the count changes.
//!
//! What stays to trust is that each function of `Memory` asks before it counts, which its body of one line shows and tests compare. One
//! also has to trust `clone_of`: that a `clone` fails only if memory runs out. In two corners that no run reaches, the refusal comes
//! before the allocator is asked. An `Arc` with 2^63 - 1 owners has no further one, and more than 2^63 bytes are more than a vector can
//! have.
//!
//! Enter at `Memory`. There are no definitions: its value is the count.
#![tactic(auto)]

pub mod memory;

pub use memory::Memory;
