//! The limit of what is tried.

/// The most runs that are played to shrink a script.
pub const TRIAL_LIMIT: u64 = 100_000;
