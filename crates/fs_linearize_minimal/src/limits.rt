//! The limit of what is tried.

/// The most configurations that are made to find whether a reply could be right, if the other calls had other replies.
pub const RACE_LIMIT: usize = 20_000;
