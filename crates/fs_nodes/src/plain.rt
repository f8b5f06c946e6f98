//! The same store as a plain vector, without an index: what tests compare `Store` with.

pub use fs_nodes_places::Store;
