//! Configurations that were reached.

ghost use Rattle.std.specs.Prelude.{◌≡◌, IfOk};

use crate::configuration::Configuration;
use std::alloc::{AllocError, Global};

/// A configuration, and the way to it.
#[derive(Drop)]
pub struct Reached {
    pub configuration: Configuration,
    /// The place of the last commit among those of all ways, counted from 1, or 0 if there is none.
    pub last: usize,
}

impl Reached {
    /// The same again.
    pub fn copy(&self, alloc: Global) -> Result<Self, AllocError>
        ensures configuration { IfOk result (λ r. r.configuration ≡ self.now.configuration) }
        ensures last { IfOk result (λ r. r.last ≡ self.now.last) }
    {
        Ok(Reached {
            configuration: self.configuration.copy(alloc)?,
            last: self.last,
        })
    }
}
