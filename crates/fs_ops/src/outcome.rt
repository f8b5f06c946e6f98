//! What a call has before its finish and after it.

use fs_locks::Held;
use fs_ops_effects::replies::Replies;
use fs_ops_effects::room::Room;

/// The room for a finish, or what came of it and the nodes that the call has not let go since.
#[derive(Drop)]
pub enum Outcome {
    /// The call is not finished.
    Open(Room),
    /// Its replies are fixed, and it lets go of these nodes, the last one first.
    Fixed(Replies, Held),
}
